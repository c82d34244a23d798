//! Comments that are none for sudo: a number or a carriage return stands behind the `#`.
ghost use Rattle.std.specs.Prelude.{◌≡◌, ◌&&◌, ◌==◌, false, not, true};
ghost use Rattle.std.specs.List.{list_any};
ghost use Rattle.review_cautions.specs.PhysicalLines as spec;

use crate::bytes::{has_byte, is_blank, is_digit, peek};
use memchr::memchr;

// Whether an ID may stand behind a byte.
fn admits_id(byte: u8) -> bool
    ensures { result ≡ spec.admits_id byte }
{
    byte == b'!'
        || byte == b','
        || byte == b'('
        || byte == b':'
        || byte == b'='
        || byte == b'@'
        || byte == b'>'
        || byte == b'%'
}

// Whether a byte is a digit or a carriage return.
fn is_digit_or_return(byte: u8) -> bool
    ensures { result ≡ spec.is_digit_or_return byte }
{
    is_digit(byte) || byte == b'\r'
}

// Whether no comment begins with a `#` and these bytes, for sudo.
fn begins_no_comment(bytes: &[u8]) -> bool
    ensures { result ≡ spec.begins_no_comment bytes.now }
{
    match bytes {
        [] => false,
        [b'-'] => true,
        [b'-', next, ..] => is_digit_or_return(*next),
        [first, ..] => is_digit_or_return(*first),
    }
}

// Whether a byte before these ones begins a comment here: a `#` that is not escaped, not quoted, and begins no ID.
fn begins_comment(escaped: bool, quoted: bool, admitted: bool, byte: u8, after: &[u8]) -> bool
    ensures { result ≡ (not escaped && ((byte == 35) && not quoted
        && not (admitted && spec.begins_with_digit after.now))) }
{
    !escaped && byte == b'#' && !quoted && !(admitted && is_digit(peek(after, 0)))
}

// Whether a byte is a `#`, and none stands in the bytes behind it.
fn is_last_hash(byte: u8, after: &[u8]) -> bool
    ensures { result ≡ ((byte == 35) && not (list_any (λ b. b == 35) after.now)) }
{
    byte == b'#' && !has_byte(b'#', after)
}

// Whether the first `#` that begins a comment here begins none for sudo, in a line that has a `#`.
fn first_comment_is_other(line: &[u8]) -> bool
    ensures { result ≡ spec.has_other_comment false false true line.now }
{
    let mut escaped = false;
    let mut quoted = false;
    let mut admitted = true;
    let mut rest = line;
    while let [byte, after @ ..] = rest {
        let byte = *byte;
        if begins_comment(escaped, quoted, admitted, byte, after) {
            return begins_no_comment(after);
        }
        if is_last_hash(byte, after) {
            return false;
        }
        quoted = quoted != (!escaped && byte == b'"');
        admitted = !escaped && (admits_id(byte) || (admitted && is_blank(byte)));
        escaped = !escaped && byte == b'\\';
        rest = after;
    }
    false
}

/// Whether the first `#` that begins a comment here begins none for sudo.
#[tactic(auto, using(crate::proofs::CommentLaws::no_sign))]
pub(crate) fn has_other_comment(line: &[u8]) -> bool
    ensures { result ≡ spec.has_other_comment false false true line.now }
{
    match memchr(b'#', line) {
        Some(_) => first_comment_is_other(line),
        None => false,
    }
}
