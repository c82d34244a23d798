//! Logical lines: physical lines cut at newlines and joined.
ghost use Rattle.std.specs.Prelude.{◌≡◌, ◌+◌, ◌^◌, ◌<◌, ◌≤◌, ◌∷◌, [], length, reverse, ◌==◌, not, false, MatchResult, IfOk, IfErr, All};
ghost use Rattle.std.specs.List.{take_while};
ghost use Rattle.sudo_text.specs.Faults.{Fails, Gives};
ghost use Rattle.sudo_text.specs.Lines as spec;
ghost use Rattle.sudo_text.specs.Lines.{cut, is_continued, physical_lines, logical_lines_from, with_front, lines_of};

use crate::bytes::{blank_count, is_digit, is_include, peek};
use crate::{Line, Place, TextFault};
use memchr::memchr;
use std::alloc::Global;

/// The greatest length of a text, in bytes.
pub const TEXT_LIMIT: usize = 16_777_216;

// Whether a physical line begins with `#`, is no include directive, and has no digit directly after the `#`.
fn is_comment(line: &[u8]) -> bool
    ensures { result ≡ spec.is_comment line.now }
{
    peek(line, 0) == b'#' && !is_include(line) && !is_digit(peek(line, 1))
}

// Returns the number of backslashes at the end of a physical line.
fn escape_count(line: &[u8]) -> usize
    ensures { result ≡ length (take_while (λ b. b == 92) (reverse line.now)) }
{
    line.iter().rev().take_while(|b| **b == b'\\').count()
}

// Whether a physical line ends in an odd number of backslashes.
fn ends_in_escape(line: &[u8]) -> bool
    ensures { result ≡ spec.ends_in_escape line.now }
{
    escape_count(line) % 2 == 1
}

// Whether the next line continues a physical line that does not continue another.
fn begins_run(line: &[u8]) -> bool
    ensures { result ≡ is_continued false line.now }
{
    !is_comment(line) && ends_in_escape(line)
}

// Returns the offset of the first newline, or the length if there is none.
#[tactic(auto, using(crate::proofs::Newlines::newline_at))]
fn line_end(text: &[u8]) -> usize
    ensures at { result ≡ length (take_while (λ b. not (b == 10)) text.now) }
    ensures within { result ≤ length text.now }
{
    memchr(b'\n', text).unwrap_or(text.len())
}

// Splits a text into the bytes before its first newline and those after it.
fn cut_first(text: &[u8]) -> (&[u8], &[u8])
    requires { 0 < length text.now }
    ensures cut { cut text.now ≡ result.0.now ∷ cut result.1.now }
    ensures shorter { length result.0.now + length result.1.now ≤ length text.now }
    ensures less { length result.1.now < length text.now }
{
    let end = line_end(text);
    if end == text.len() {
        return (text, &[]);
    }
    (&text[..end], &text[end + 1..])
}

// Strips a carriage return from the end of a line.
fn without_return(line: &[u8]) -> &[u8]
    ensures { result.now ≡ spec.without_return line.now }
{
    match line {
        [front @ .., b'\r'] => front,
        _ => line,
    }
}

// Strips the blanks from the front of a line.
fn without_indent(line: &[u8]) -> &[u8]
    ensures { result.now ≡ spec.without_indent line.now }
{
    &line[blank_count(line)..]
}

// Splits a text into its first physical line and the text after it.
fn physical_line(text: &[u8]) -> (&[u8], &[u8])
    requires { 0 < length text.now }
    ensures line { physical_lines text.now ≡ result.0.now ∷ physical_lines result.1.now }
    ensures shorter { length result.0.now + length result.1.now ≤ length text.now }
    ensures less { length result.1.now < length text.now }
{
    let (line, rest) = cut_first(text);
    (without_indent(without_return(line)), rest)
}

// Returns the first logical line of a text that is not empty, the text after it, and the number of the next physical
// line.
fn logical_line(
    alloc: Global,
    file: u32,
    first: u32,
    text: &[u8],
) -> Result<(Line, &[u8], u32), TextFault>
    requires some { 0 < length text.now }
    requires fits { first + length text.now < 2 ^ 32 }
    ensures logical_lines { MatchResult result
        (λ x. logical_lines_from file first (physical_lines text.now)
        ≡ with_front (x.0 ∷ []) (logical_lines_from file x.2 (physical_lines x.1.now)))
        (λ fault. Fails fault (logical_lines_from file first (physical_lines text.now))) }
    ensures shorter { IfOk result (λ x. length x.1.now < length text.now) }
    ensures short { IfOk result (λ x. length x.0.text ≤ length text.now) }
    ensures numbers { IfOk result (λ x. x.2 + length x.1.now ≤ first + length text.now) }
{
    let place = Place { file, line: first };
    let (mut line, mut rest) = physical_line(text);
    let mut joined = Vec::new(alloc);
    let mut joins = Vec::new(alloc);
    let mut number = first;
    let mut continued = begins_run(line);
    while continued {
        if rest.is_empty() {
            let col = (joined.len() + line.len()) as u32;
            return Err(TextFault::BadEscape { place, col });
        }
        joined.extend_from_slice(&line[..line.len() - 1])?;
        joins.push(joined.len() as u32)?;
        let (next, after) = physical_line(rest);
        line = next;
        rest = after;
        number += 1;
        continued = ends_in_escape(line);
    }
    joined.extend_from_slice(line)?;
    let line = Line {
        first: place,
        text: joined.into(),
        joins: joins.into(),
    };
    Ok((line, rest, number + 1))
}

/// Splits a text into its logical lines, in order, including blank lines and comment lines.
///
/// A line that ends in an odd number of backslashes loses the last one and is continued by the next line, as in
/// sudoers(5); a comment line never is. Carriage returns at the ends of lines and blanks at their fronts are dropped.
/// `file` is the file number in the places of the lines. Returns `TooLong` if the text is over the limit, `BadEscape`
/// if its last line asks for a next one, at its last backslash, and `Memory` only if allocation fails.
pub fn lines(alloc: Global, file: u32, text: &[u8]) -> Result<Vec<Line>, TextFault>
    ensures lines { Gives (λ v. v.items) result (lines_of file text.now) }
    // Each line is short enough for `tokens`.
    ensures short { IfOk result (λ v. All (λ line. length line.text ≤ TEXT_LIMIT) v.items) }
    // A text over the limit is refused before any allocation.
    ensures memory { IfErr result (λ fault. fault ≡ TextFault.Memory
        → length text.now ≤ TEXT_LIMIT) }
{
    if text.len() > TEXT_LIMIT {
        return Err(TextFault::TooLong { file });
    }
    let mut lines = Vec::new(alloc);
    let mut rest = text;
    let mut number = 1;
    while !rest.is_empty() {
        let (line, after, next) = logical_line(alloc, file, number, rest)?;
        lines.push(line)?;
        rest = after;
        number = next;
    }
    Ok(lines)
}
