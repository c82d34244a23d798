//! The hint at a fault of a file of a policy.
ghost use Rattle.std.specs.Prelude.{◌≡◌, ◌≤◌, IfOk, length};
ghost use Rattle.review_hints.specs.Hints as spec;

use crate::addresses::address_hint;
use crate::faulty_line::{faulty_line, first_line, text_from};
use crate::first_words::beginning_hint;
use crate::tags::tag_hint;
use std::alloc::{AllocError, Global};
use sudo_grammar::{Expected, ParseFault};
use sudo_text::{Place, Seq, TextFault};

// Whether a text begins with the byte order mark of UTF-8.
fn begins_with_mark(text: &[u8]) -> bool
    ensures { result ≡ spec.begins_with_mark text.now }
{
    text.starts_with(b"\xef\xbb\xbf")
}

// Returns the number of the line that a fault of a text names, and 0 if it names none.
fn text_line(fault: &TextFault) -> u32
    ensures { result ≡ spec.text_line fault.now }
{
    match fault {
        TextFault::BadQuote { place, .. }
        | TextFault::BadHex { place, .. }
        | TextFault::BadEscape { place, .. }
        | TextFault::NotPrintable { place, .. } => place.line,
        TextFault::TooLong { .. } | TextFault::Memory => 0,
    }
}

// Returns the number of the line that a fault names, and 0 if it names none.
fn fault_line(fault: &ParseFault) -> u32
    ensures { result ≡ spec.fault_line fault.now }
{
    match fault {
        ParseFault::Syntax { place, .. }
        | ParseFault::Unsupported { place, .. }
        | ParseFault::NotCommand { place, .. }
        | ParseFault::BadNumber { place, .. }
        | ParseFault::TooMany { place } => place.line,
        ParseFault::Text(fault) => text_line(fault),
        ParseFault::Memory => 0,
    }
}

// Returns the hint at an address or at a tag near a fault, if any.
fn hint_inside(
    alloc: Global,
    first: &[u8],
    line: &[u8],
    at: usize,
    expected: Option<Expected>,
) -> Result<Option<Seq<u8>>, AllocError>
    requires { at ≤ length line.now }
    ensures { IfOk result (λ hint. hint ≡ spec.hint_inside first.now line.now at expected) }
{
    match address_hint(alloc, first, line, at, expected)? {
        Some(hint) => Ok(Some(hint)),
        None => tag_hint(alloc, first, line, at, expected),
    }
}

// Returns the hint at a fault near an offset of a physical line, if any.
fn hint_near(
    alloc: Global,
    first: &[u8],
    line: &[u8],
    at: usize,
    expected: Option<Expected>,
) -> Result<Option<Seq<u8>>, AllocError>
    requires { at ≤ length line.now }
    ensures { IfOk result (λ hint. hint ≡ spec.hint_near first.now line.now at expected) }
{
    match beginning_hint(alloc, first)? {
        Some(hint) => Ok(Some(hint)),
        None => hint_inside(alloc, first, line, at, expected),
    }
}

// Returns the hint at a fault of a place and a column of a text, if any.
fn hint_at(
    alloc: Global,
    text: &[u8],
    place: Place,
    col: u32,
    expected: Option<Expected>,
) -> Result<Option<Seq<u8>>, AllocError>
    ensures { IfOk result (λ hint. hint ≡ spec.hint_at text.now place col expected) }
{
    let text = text_from(text, place.line);
    let (line, at) = faulty_line(text, col.saturating_sub(1) as usize);
    if at <= line.len() {
        hint_near(alloc, first_line(text), line, at, expected)
    } else {
        Ok(None)
    }
}

// Returns the hint at a syntax error, or at a word that is no command, if any.
fn line_hint(alloc: Global, text: &[u8], fault: &ParseFault) -> Result<Option<Seq<u8>>, AllocError>
    ensures { IfOk result (λ hint. hint ≡ spec.line_hint text.now fault.now) }
{
    match fault {
        ParseFault::Syntax {
            place,
            col,
            expected,
        } => { hint_at(alloc, text, *place, *col, Some(*expected)) }
        ParseFault::NotCommand { place, col } => hint_at(alloc, text, *place, *col, None),
        ParseFault::Unsupported { .. }
        | ParseFault::BadNumber { .. }
        | ParseFault::TooMany { .. }
        | ParseFault::Text(_)
        | ParseFault::Memory => Ok(None),
    }
}

/// Returns the hint at a fault of a file of a policy, given the text of the file: what the fault often comes from. Returns
/// `None` if there is no hint at it.
///
/// The time is linear in the length of the text.
pub fn hint(alloc: Global, text: &[u8], fault: &ParseFault) -> Result<Option<Seq<u8>>, AllocError>
    ensures { IfOk result (λ hint. hint ≡ spec.hint_of text.now fault.now) }
{
    if begins_with_mark(text) && fault_line(fault) == 1 {
        Ok(Some(Seq::from_slice(alloc, b"the file begins with a byte order mark")?))
    } else {
        line_hint(alloc, text, fault)
    }
}
