//! Texts, and the reader's rules for bytes and physical lines: blanks, comments, backslashes at the end of a line.
ghost use Rattle.std.specs.Prelude.{◌≡◌, ◌≤◌, ◌<◌, ◌∷◌, length, reverse, slice_index, ◌==◌, not, bytes_eq};
ghost use Rattle.std.specs.List.{list_any, take_while};
ghost use Rattle.sudo_text.specs.Bytes as bytes;
ghost use Rattle.sudo_text.specs.Lines as lines;
ghost use Rattle.sudo_text.specs.Lines.{cut};
ghost use Rattle.sudo_grammar.specs.Words.{bytes_of};
ghost use Rattle.review_cautions.specs.PhysicalLines.{stripped, end_blanks};

use memchr::memchr;
use sudo_text::Ch;

/// Whether a byte is a space or a tab.
pub(crate) fn is_blank(byte: u8) -> bool
    ensures { result ≡ bytes.is_blank byte }
{
    byte == b' ' || byte == b'\t'
}

/// Whether two texts are equal.
pub(crate) fn is_text(bytes: &[u8], text: &[u8]) -> bool
    ensures { result ≡ bytes_eq bytes.now text.now }
{
    bytes == text
}

/// Whether the bytes of characters are a text.
pub(crate) fn spells(chars: &[Ch], text: &[u8]) -> bool
    ensures { result ≡ bytes_eq (bytes_of chars.now) text.now }
{
    match (chars, text) {
        ([], []) => true,
        ([ch, chars @ ..], [byte, text @ ..]) => ch.byte == *byte && spells(chars, text),
        _ => false,
    }
}

/// Whether a byte is a decimal digit.
pub(crate) fn is_digit(byte: u8) -> bool
    ensures { result ≡ bytes.is_digit byte }
{
    b'0' <= byte && byte <= b'9'
}

/// Returns the byte at an offset, or 0 past the end.
pub(crate) fn peek(text: &[u8], at: usize) -> u8
    ensures { result ≡ slice_index text.now at }
{
    if at < text.len() { text[at] } else { 0 }
}

// Whether the text begins with the word, followed by a blank or the end of the text.
fn begins_word(text: &[u8], word: &[u8]) -> bool
    ensures { result ≡ bytes.begins_word text.now word.now }
{
    text.starts_with(word) && (text.len() == word.len() || is_blank(peek(text, word.len())))
}

/// Whether the text begins with an include directive.
pub(crate) fn is_include(text: &[u8]) -> bool
    ensures { result ≡ bytes.is_include text.now }
{
    let first = peek(text, 0);
    if first == b'@' {
        return begins_word(text, b"@include") || begins_word(text, b"@includedir");
    }
    first == b'#'
        && peek(text, 1) == b'i'
        && (begins_word(text, b"#include") || begins_word(text, b"#includedir"))
}

/// Whether a physical line begins with `#`, is no include directive, and has no digit directly after the `#`.
pub(crate) fn is_comment(line: &[u8]) -> bool
    ensures { result ≡ lines.is_comment line.now }
{
    peek(line, 0) == b'#' && !is_digit(peek(line, 1)) && !is_include(line)
}

/// Whether a byte stands in a line.
pub(crate) fn has_byte(byte: u8, line: &[u8]) -> bool
    ensures { result ≡ list_any (λ b. b == byte) line.now }
{
    memchr(byte, line).is_some()
}

// Returns the number of backslashes at the end of a line.
fn escape_count(line: &[u8]) -> usize
    ensures { result ≡ length (take_while (λ b. b == 92) (reverse line.now)) }
{
    line.iter().rev().take_while(|b| **b == b'\\').count()
}

/// Whether a line ends in an odd number of backslashes.
pub(crate) fn ends_in_escape(line: &[u8]) -> bool
    ensures { result ≡ lines.ends_in_escape line.now }
{
    escape_count(line) % 2 == 1
}

/// Returns the number of blanks at the end of a line.
pub(crate) fn end_blank_count(line: &[u8]) -> usize
    ensures count { result ≡ end_blanks line.now }
    ensures within { result ≤ length line.now }
{
    line.iter().rev().take_while(|b| is_blank(**b)).count()
}

// Returns the number of blanks that begin a line.
fn blank_count(line: &[u8]) -> usize
    ensures count { result ≡ length (take_while bytes.is_blank line.now) }
    ensures within { result ≤ length line.now }
{
    line.iter().take_while(|b| is_blank(**b)).count()
}

/// Strips a carriage return from the end of a line.
pub(crate) fn without_return(line: &[u8]) -> &[u8]
    ensures { result.now ≡ lines.without_return line.now }
{
    match line {
        [front @ .., b'\r'] => front,
        _ => line,
    }
}

/// Strips the blanks from the front of a line.
pub(crate) fn without_indent(line: &[u8]) -> &[u8]
    ensures { result.now ≡ lines.without_indent line.now }
{
    &line[blank_count(line)..]
}

/// Strips a carriage return from the end of a line and the blanks from its front.
pub(crate) fn strip(line: &[u8]) -> &[u8]
    ensures { result.now ≡ stripped line.now }
{
    without_indent(without_return(line))
}

// Returns the offset of the first newline, or the length of a text without newlines.
#[tactic(auto, using(sudo_text::proofs::Newlines::newline_at))]
fn line_end(text: &[u8]) -> usize
    ensures at { result ≡ length (take_while (λ b. not (b == 10)) text.now) }
    ensures within { result ≤ length text.now }
{
    memchr(b'\n', text).unwrap_or(text.len())
}

/// Splits a text into the bytes before its first newline and those after it.
pub(crate) fn cut_first(text: &[u8]) -> (&[u8], &[u8])
    requires { 0 < length text.now }
    ensures cut { cut text.now ≡ result.0.now ∷ cut result.1.now }
    ensures less { length result.1.now < length text.now }
{
    let end = line_end(text);
    if end == text.len() {
        return (text, &[]);
    }
    (&text[..end], &text[end + 1..])
}
