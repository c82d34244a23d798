//! Lists of users to run as with a colon behind which no group stands. Lines are given as the reader joins them: without a
//! carriage return at their ends and blanks at their fronts.
ghost use Rattle.std.specs.Prelude.{◌≡◌, ◌≤◌, ◌<◌, ◌+◌, ◌==◌, ◌||◌, length, drop, false};
ghost use Rattle.std.specs.List.{list_any};
ghost use Rattle.review_cautions.specs.EmptyGroups as spec;
ghost use Rattle.review_cautions.specs.Body.Signs as signs;

use crate::bytes::{has_byte, is_blank, is_digit, is_text, peek, without_indent};
use memchr::memchr;

// Whether a `)` comes first in bytes, behind blanks and the join to the next line, if they stand there.
fn closes(bytes: &[u8], next: &[u8]) -> bool
    ensures { result ≡ spec.closes bytes.now next.now }
{
    let rest = without_indent(bytes);
    peek(rest, 0) == b')'
        || (is_text(rest, b"\\") && (peek(next, 0) == b')' || is_text(next, b"\\")))
}

// Whether a list of users to run as has a colon and no group behind it, in a line or at its join to the next one: byte by byte.
fn finds_empty_group(line: &[u8], next: &[u8]) -> bool
    ensures { result ≡ spec.has_empty_group false false false line.now next.now }
{
    let mut escaped = false;
    let mut quoted = false;
    let mut opened = false;
    let mut rest = line;
    while let [byte, after @ ..] = rest {
        let byte = *byte;
        let plain = !escaped && !quoted;
        if plain && byte == b'#' && !is_digit(peek(after, 0)) {
            return false;
        }
        if plain && byte == b':' && !opened && closes(after, next) {
            return true;
        }
        quoted = quoted != (!escaped && byte == b'"');
        opened = plain && (byte == b'(' || (opened && is_blank(byte)));
        escaped = !escaped && byte == b'\\';
        rest = after;
    }
    false
}

// Whether a byte is a colon or a blank.
fn is_gap(byte: u8) -> bool
    ensures { result ≡ signs.is_gap byte }
{
    byte == b':' || is_blank(byte)
}

// Whether a colon or a blank stands directly before the byte at an offset.
fn follows_gap(line: &[u8], at: usize) -> bool
    requires { at ≤ length line.now }
    ensures { result ≡ signs.gap_before false line.now at }
{
    at > 0 && is_gap(line[at - 1])
}

// Returns the bytes behind the one at an offset.
fn behind(line: &[u8], at: usize) -> &[u8]
    requires { at < length line.now }
    ensures rest { result.now ≡ drop (at + 1) line.now }
    ensures less { length result.now < length line.now }
{
    &line[at + 1..]
}

/// Whether a colon or a blank stands directly before a `)`.
pub(crate) fn has_late_close(line: &[u8]) -> bool
    ensures { result ≡ signs.has_late_close false line.now }
{
    let mut rest = line;
    while let Some(at) = memchr(b')', rest) {
        if follows_gap(rest, at) {
            return true;
        }
        rest = behind(rest, at);
    }
    false
}

// Whether such a list may stand in a line.
fn may_have_empty_group(line: &[u8]) -> bool
    ensures { result ≡ (signs.has_late_close false line.now || list_any (λ b. b == 92) line.now) }
{
    has_late_close(line) || has_byte(b'\\', line)
}

/// Whether a list of users to run as has a colon and no group behind it, in a line or at its join to the next one.
pub(crate) fn has_empty_group(line: &[u8], next: &[u8]) -> bool
    ensures { result ≡ spec.has_empty_group false false false line.now next.now }
{
    if !may_have_empty_group(line) {
        return false;
    }
    finds_empty_group(line, next)
}
