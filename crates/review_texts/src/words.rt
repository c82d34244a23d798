//! The words without which nothing of a text is written otherwise.
ghost use Rattle.std.specs.Prelude.{◌≡◌, ◌≤◌, ◌∷◌, ◌||◌, codes, length, nat_eq, slice_index};
ghost use Rattle.std.specs.List.{list_any, starts_with, take_while};
ghost use Rattle.sudo_text.specs.Bytes as bytes;
ghost use Rattle.review_texts.specs.Body.Beginnings as beginnings;
ghost use Rattle.review_texts.specs.Words as spec;

use crate::bytes::{from, is_hex, peek};

// Whether one of the words begins with a byte and the first of those that follow it, or the byte is a plus sign or a caret.
fn begin_word(first: u8, rest: &[u8]) -> bool
    ensures { result ≡ beginnings.begin_word first (slice_index rest.now 0) }
{
    match first {
        b'l' => peek(rest, 0) == b'i',
        b'C' => peek(rest, 0) == b'W' || peek(rest, 0) == b'H',
        b'T' => peek(rest, 0) == b'I' || peek(rest, 0) == b'Y',
        b'R' => peek(rest, 0) == b'O',
        b'N' => peek(rest, 0) == b'O',
        b's' => peek(rest, 0) == b'h',
        b'D' => peek(rest, 0) == b'e',
        b'%' => peek(rest, 0) == b':' || peek(rest, 0) == b'h',
        b'+' | b'^' => true,
        _ => false,
    }
}

// Whether a byte is a plus sign or a caret.
fn is_plus_or_caret(byte: u8) -> bool
    ensures { result ≡ spec.is_plus_or_caret byte }
{
    byte == b'+' || byte == b'^'
}

// Whether one of the words with a percent sign begins a text.
fn begins_percent(text: &[u8]) -> bool
    ensures { result ≡ (starts_with nat_eq text.now (codes "%:")
        || starts_with nat_eq text.now (codes "%h")) }
{
    text.starts_with(b"%:") || text.starts_with(b"%h")
}

// Whether one of the words with a letter begins a text.
fn begins_letters(text: &[u8]) -> bool
    ensures { result ≡ list_any (starts_with nat_eq text.now) beginnings.letter_words }
{
    text.starts_with(b"list")
        || text.starts_with(b"CWD")
        || text.starts_with(b"TIMEOUT")
        || text.starts_with(b"ROLE")
        || text.starts_with(b"TYPE")
        || text.starts_with(b"CHROOT")
        || text.starts_with(b"NOTBEFORE")
        || text.starts_with(b"NOTAFTER")
        || text.starts_with(b"sha224:")
        || text.starts_with(b"sha256:")
        || text.starts_with(b"sha384:")
        || text.starts_with(b"sha512:")
        || text.starts_with(b"Defaults\\")
}

// Whether one of the words begins a text, or a plus sign or a caret.
#[tactic(auto, using(crate::proofs::Beginnings::cut_words))]
fn begins_word(text: &[u8]) -> bool
    ensures { result ≡ spec.begins_word text.now }
{
    begins_letters(text) || begins_percent(text) || is_plus_or_caret(peek(text, 0))
}

// Whether one of the words begins a text, of which these are the first byte and what follows.
#[tactic(auto, using(crate::proofs::Beginnings::no_word_at))]
fn begins_at(first: u8, rest: &[u8], text: &[u8]) -> bool
    requires { text.now ≡ first ∷ rest.now }
    ensures { result ≡ spec.begins_word text.now }
{
    begin_word(first, rest) && begins_word(text)
}

// Returns the number of hexadecimal digits that begin a text.
fn hex_count(text: &[u8]) -> usize
    ensures count { result ≡ length (take_while bytes.is_hex text.now) }
    ensures within { result ≤ length text.now }
{
    text.iter().take_while(|byte| is_hex(**byte)).count()
}

// Whether a colon, hexadecimal digits or none, and a colon begin a text.
fn begins_colons(text: &[u8]) -> bool
    ensures { result ≡ spec.begins_colons text.now }
{
    peek(text, 0) == b':' && peek(text, 1 + hex_count(from(text, 1))) == b':'
}

/// Whether one of the words, or the colons of an IPv6 address, stand in a text.
pub(crate) fn has_word(text: &[u8]) -> bool
    ensures { result ≡ spec.has_word text.now }
{
    let mut left = text;
    while let Some((first, rest)) = left.split_first() {
        if begins_at(*first, rest, left) || begins_colons(left) {
            return true;
        }
        left = rest;
    }
    false
}
