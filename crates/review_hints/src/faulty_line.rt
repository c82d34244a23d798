//! The physical line in which a fault lies.
ghost use Rattle.std.specs.Prelude.{◌≡◌, ◌==◌, ◌≤◌, ◌<◌, ◌∷◌, ◌-◌, ◌&&◌, nat_le, length, not, reverse, drop};
ghost use Rattle.std.specs.List.{take_while};
ghost use Rattle.sudo_text.specs.Lines as lines;
ghost use Rattle.sudo_text.specs.Lines.{cut, physical_lines};
ghost use Rattle.review_hints.specs.FaultyLines as spec;

use crate::bytes::without_indent;
use memchr::memchr;

// Returns the number of backslashes at the end of a line.
fn escape_count(line: &[u8]) -> usize
    ensures { result ≡ length (take_while (λ b. b == 92) (reverse line.now)) }
{
    line.iter().rev().take_while(|b| **b == b'\\').count()
}

// Whether a line ends in an odd number of backslashes.
fn ends_in_escape(line: &[u8]) -> bool
    ensures { result ≡ lines.ends_in_escape line.now }
{
    escape_count(line) % 2 == 1
}

// Strips a carriage return from the end of a line.
fn without_return(line: &[u8]) -> &[u8]
    ensures { result.now ≡ lines.without_return line.now }
{
    match line {
        [front @ .., b'\r'] => front,
        _ => line,
    }
}

// Returns the offset of the first newline, or the length of a text without newlines.
#[tactic(auto, using(sudo_text::proofs::Newlines::newline_at))]
fn line_end(text: &[u8]) -> usize
    ensures at { result ≡ length (take_while (λ b. not (b == 10)) text.now) }
    ensures within { result ≤ length text.now }
{
    memchr(b'\n', text).unwrap_or(text.len())
}

// Splits a text into the bytes before its first newline and those after it.
fn cut_first(text: &[u8]) -> (&[u8], &[u8])
    requires { 0 < length text.now }
    ensures cut { cut text.now ≡ result.0.now ∷ cut result.1.now }
    ensures less { length result.1.now < length text.now }
{
    let end = line_end(text);
    if end == text.len() {
        return (text, &[]);
    }
    (&text[..end], &text[end + 1..])
}

// Splits a text into its first physical line and the text after it.
fn split_line(text: &[u8]) -> (&[u8], &[u8])
    requires { 0 < length text.now }
    ensures line { physical_lines text.now ≡ result.0.now ∷ physical_lines result.1.now }
    ensures less { length result.1.now < length text.now }
{
    let (line, rest) = cut_first(text);
    (without_indent(without_return(line)), rest)
}

/// Returns the text from the physical line of a number on, counted from 1.
pub(crate) fn text_from(text: &[u8], number: u32) -> &[u8]
    ensures { physical_lines result.now ≡ spec.lines_from text.now number }
{
    let mut rest = text;
    let mut before = number.saturating_sub(1);
    while before > 0 && !rest.is_empty() {
        let (_, after) = split_line(rest);
        rest = after;
        before -= 1;
    }
    rest
}

/// Returns the first physical line of a text, and an empty one if the text has none.
pub(crate) fn first_line(text: &[u8]) -> &[u8]
    ensures { result.now ≡ spec.first_line (physical_lines text.now) }
{
    if text.is_empty() {
        return &[];
    }
    let (line, _) = split_line(text);
    line
}

// Whether the byte at an offset of the joined text lies in a line after this one.
fn lies_after(line: &[u8], at: usize) -> bool
    ensures { result ≡ (lines.ends_in_escape line.now && nat_le (length line.now - 1) at) }
{
    ends_in_escape(line) && line.len() - 1 <= at
}

/// Returns the physical line in which the byte at an offset of the joined text lies, and its offset there.
pub(crate) fn faulty_line(text: &[u8], at: usize) -> (&[u8], usize)
    ensures line { result.0.now ≡ (spec.faulty_line (physical_lines text.now) at).0 }
    ensures offset { result.1 ≡ (spec.faulty_line (physical_lines text.now) at).1 }
{
    let mut rest = text;
    let mut at = at;
    while !rest.is_empty() {
        let (line, after) = split_line(rest);
        if !lies_after(line, at) {
            return (line, at);
        }
        at -= line.len() - 1;
        rest = after;
    }
    (&[], at)
}
