//! The digests before a command.
ghost use Rattle.std.specs.Prelude.{◌≡◌, ◌≤◌, ◌+◌, length, max, IsTrue};
ghost use Rattle.std.specs.List.{list_all, take_while};
ghost use Rattle.review_texts.specs.Digests as spec;

use crate::bytes::{begins_defaults, from, is_blank, is_digit, peek, skip};
use crate::options::{is_lower, is_name_byte};

// Returns the number of bytes of the digest whose name begins a text, or 0 where none does.
fn digest_size(text: &[u8]) -> usize
    ensures size { result ≡ spec.digest_size text.now }
    ensures small { result ≤ 64 }
{
    if text.starts_with(b"sha224:") {
        28
    } else if text.starts_with(b"sha256:") {
        32
    } else if text.starts_with(b"sha384:") {
        48
    } else if text.starts_with(b"sha512:") {
        64
    } else {
        0
    }
}

// Whether a byte is a hexadecimal digit.
fn is_hex(byte: u8) -> bool
    ensures { result ≡ spec.is_hex byte }
{
    is_digit(byte) || (b'A' <= byte && byte <= b'F') || (b'a' <= byte && byte <= b'f')
}

// Whether a byte may stand in base64.
fn is_base64(byte: u8) -> bool
    ensures { result ≡ spec.is_base64 byte }
{
    byte.is_ascii_uppercase()
        || is_lower(byte)
        || is_digit(byte)
        || byte == b'+'
        || byte == b'/'
        || byte == b'='
}

// Returns the length in base64 of so many bytes, padded where a value ends in `=`.
fn base64_len(size: usize, value: &[u8]) -> usize
    requires { size ≤ 64 }
    ensures { result ≡ spec.base64_len size value.now }
{
    if peek(value, value.len().saturating_sub(1)) == b'=' {
        4 * ((size + 2) / 3)
    } else {
        (4 * size + 2) / 3
    }
}

// Whether each byte is a hexadecimal digit.
fn is_hexadecimal(value: &[u8]) -> bool
    ensures { result ≡ list_all spec.is_hex value.now }
{
    value.iter().all(|b| is_hex(*b))
}

// Returns the length of the value of a digest of so many bytes.
fn value_len(size: usize, value: &[u8]) -> usize
    requires { size ≤ 64 }
    ensures { result ≡ spec.value_len size value.now }
{
    if is_hexadecimal(value) {
        2 * size
    } else {
        base64_len(size, value)
    }
}

// Whether a value is that of a digest of so many bytes.
fn is_digest(size: usize, value: &[u8]) -> bool
    requires { size ≤ 64 }
    ensures { result ≡ spec.is_digest size value.now }
{
    value.len() == value_len(size, value)
}

// Returns the number of bytes of base64 that begin a text.
fn base64_count(text: &[u8]) -> usize
    ensures count { result ≡ length (take_while spec.is_base64 text.now) }
    ensures within { result ≤ length text.now }
{
    text.iter().take_while(|b| is_base64(**b)).count()
}

/// Returns the value of a digest at an offset.
#[tactic(auto, using(crate::proofs::Fronts::take_front))]
pub(crate) fn digest_at(text: &[u8], at: usize) -> &[u8]
    ensures value { result.now ≡ spec.digest_at text.now at }
    ensures within { at + length result.now ≤ max at (length text.now) }
{
    let rest = from(text, at);
    &rest[..base64_count(rest)]
}

/// Returns the offset at which the value of the digest at an offset begins.
pub(crate) fn digest_start(text: &[u8], at: usize) -> usize
    requires { at + 7 ≤ length text.now + 1 }
    ensures start { result ≡ spec.digest_start text.now at }
    ensures within { result ≤ max (at + 7) (length text.now) }
{
    skip(text, at + 7)
}

// Returns the offset at which the value ends.
fn digest_stop(text: &[u8], at: usize) -> usize
    requires { at + 7 ≤ length text.now + 1 }
    ensures stop { result ≡ spec.digest_stop text.now at }
    ensures within { result ≤ max (at + 7) (length text.now) }
{
    let start = digest_start(text, at);
    start + digest_at(text, start).len()
}

// Whether a command that may have a digest begins at an offset: a path, `sudoedit` or `ALL`.
fn begins_command(text: &[u8], at: usize) -> bool
    requires { at ≤ length text.now + 1 }
    ensures { result ≡ spec.begins_command text.now at }
{
    peek(text, at) == b'/'
        || from(text, at).starts_with(b"sudoedit")
        || (from(text, at).starts_with(b"ALL") && !is_name_byte(peek(text, at + 3)))
}

// Whether such a command stands at an offset, or `!` and such a command.
fn command_follows(text: &[u8], at: usize) -> bool
    requires { at ≤ length text.now }
    ensures { result ≡ spec.command_follows text.now at }
{
    begins_command(text, at) || (peek(text, at) == b'!' && begins_command(text, skip(text, at + 1)))
}

// Whether a comma stands at an offset, and behind it what may be a digest.
fn digest_follows(text: &[u8], at: usize) -> bool
    requires { at ≤ length text.now }
    ensures { result ≡ spec.digest_follows text.now at }
{
    peek(text, at) == b',' && 0 < digest_size(from(text, skip(text, at + 1)))
}

/// Returns the end of the digest at an offset, with the comma before a further one, or with the blank before its command.
pub(crate) fn digest_end(text: &[u8], at: usize) -> usize
    requires { at + 7 ≤ length text.now }
    ensures { result ≡ spec.digest_end text.now at }
{
    let stop = digest_stop(text, at);
    let next = skip(text, stop);
    if peek(text, next) == b',' {
        next + 1
    } else {
        stop + 1
    }
}

// Whether what follows a digest whose value ends at an offset may follow it.
fn may_follow(text: &[u8], stop: usize) -> bool
    requires { stop ≤ length text.now }
    ensures { result ≡ spec.may_follow text.now stop }
{
    let next = skip(text, stop);
    digest_follows(text, next) || (is_blank(peek(text, stop)) && command_follows(text, next))
}

/// Whether a digest is spelled at an offset, with a blank and a command or with a further digest behind it.
#[tactic(auto, unfolding(crate::specs::Digests::spells_digest))]
pub(crate) fn spells_digest(text: &[u8], at: usize) -> bool
    requires { at ≤ length text.now }
    ensures digest { result ≡ spec.spells_digest text.now at }
    ensures within { IsTrue result → at + 7 ≤ length text.now }
{
    let size = digest_size(from(text, at));
    0 < size
        && is_digest(size, digest_at(text, digest_start(text, at)))
        && may_follow(text, digest_stop(text, at))
        && !begins_defaults(text)
}
