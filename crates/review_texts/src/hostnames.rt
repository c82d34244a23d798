//! The name of a host, and where `%h` stands for it.
ghost use Rattle.std.specs.Prelude.{◌≡◌, ◌≤◌, ◌+◌, length, IfOk, IsTrue, Some, false};
ghost use Rattle.sudo_match.specs.Matching.{short_name as the_short_name};
ghost use Rattle.review_texts.specs.Hostnames as spec;
ghost use Rattle.review_texts.specs.Places.{IsRefusedFor};

use crate::bytes::{has_byte, peek};
use crate::places::line_with;
use crate::reading::refused_form;
use std::alloc::{AllocError, Global};
use sudo_grammar::Unsupported;
use sudo_text::{Line, TEXT_LIMIT};

// Whether a byte is a letter, a digit, a hyphen or an underscore.
fn is_label_byte(byte: u8) -> bool
    ensures { result ≡ spec.is_label_byte byte }
{
    (b'a' <= byte && byte <= b'z')
        || (b'A' <= byte && byte <= b'Z')
        || (b'0' <= byte && byte <= b'9')
        || byte == b'-'
        || byte == b'_'
}

// Whether bytes are those of labels with one dot between two.
fn are_labels(name: &[u8]) -> bool
    ensures { result ≡ spec.are_labels false name.now }
{
    let mut dotted = false;
    let mut left = name;
    while let Some((byte, rest)) = left.split_first() {
        if *byte == b'.' {
            if !dotted {
                return false;
            }
            dotted = false;
        } else {
            if !is_label_byte(*byte) {
                return false;
            }
            dotted = true;
        }
        left = rest;
    }
    true
}

/// Whether a name is that of a host: at most 255 bytes, letters, digits, hyphens and underscores, with one dot between two of their
/// parts.
pub fn is_hostname(name: &[u8]) -> bool
    ensures { result ≡ spec.is_hostname name.now }
{
    !name.is_empty() && name.len() <= 255 && are_labels(name)
}

/// Returns the part of a host's name before its first dot.
pub fn short_name(name: &[u8]) -> &[u8]
    ensures { result.now ≡ the_short_name name.now }
{
    for (end, byte) in name.iter().enumerate() {
        if *byte == b'.' {
            return &name[..end];
        }
    }
    name
}

// Whether `%h` is spelled at an offset.
#[tactic(auto, unfolding(crate::specs::Hostnames::spells_escape))]
fn spells_escape(text: &[u8], at: usize) -> bool
    requires { at ≤ length text.now }
    ensures { result ≡ spec.spells_escape text.now at }
{
    peek(text, at) == b'%' && peek(text, at + 1) == b'h'
}

// Returns `%h`, and the double quote that ends a path which one begins before an offset.
fn closed_escape(text: &[u8], at: usize) -> &'static [u8]
    requires { at ≤ length text.now }
    ensures closed { result.now ≡ spec.closed_escape text.now at }
    ensures short { length result.now ≤ 3 }
{
    if has_byte(&text[..at], b'"') {
        b"%h\""
    } else {
        b"%h"
    }
}

// Whether a form is `%h`.
fn is_escape(form: Option<Unsupported>) -> bool
    ensures yes { IsTrue result → form ≡ Some Unsupported.HostEscape }
    ensures only { form ≡ Some Unsupported.HostEscape → IsTrue result }
{
    match form {
        Some(Unsupported::HostEscape) => true,
        _ => false,
    }
}

// Whether a line by itself is refused for `%h`. Returns `AllocError` if allocation fails.
fn is_refused(alloc: Global, line: &Line) -> Result<bool, AllocError>
    requires { length line.now.text ≤ TEXT_LIMIT }
    ensures yes { IfOk result (λ is. IsTrue is → IsRefusedFor line.now Unsupported.HostEscape) }
    ensures only { IfOk result (λ is. IsRefusedFor line.now Unsupported.HostEscape → IsTrue is) }
{
    let found = refused_form(alloc, line)?;
    Ok(is_escape(found))
}

/// Whether `%h` stands at an offset in the path of an include line. Returns `AllocError` if allocation fails.
pub(crate) fn escape_stands(alloc: Global, line: &Line, at: usize) -> Result<bool, AllocError>
    requires within { at ≤ length line.now.text }
    requires short { length line.now.text + 16 ≤ TEXT_LIMIT }
    ensures yes { IfOk result (λ found. IsTrue found → spec.StandsEscape line.now at) }
    ensures only { IfOk result (λ found. spec.StandsEscape line.now at → IsTrue found) }
{
    if !spells_escape(line.text.as_slice(), at) {
        return Ok(false);
    }
    let front = line_with(alloc, line, at, closed_escape(line.text.as_slice(), at))?;
    is_refused(alloc, &front)
}
