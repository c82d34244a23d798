//! Commands that rows of two policies may answer otherwise: texts that their patterns fit, to be tried.
use crate::characters::is_plain;
use crate::shape::Shape;
use std::alloc::{AllocError, Global};
use sudo_grammar::Atom;
use sudo_match::{Pattern, Slash};
use sudo_text::{Ch, Seq};

/// A command with its arguments.
#[derive(Drop)]
pub(crate) struct Candidate {
    pub(crate) command: Vec<u8>,
    pub(crate) arguments: Vec<u8>,
}

/// The texts that stand in place of a star.
pub(crate) const FILLS: [&[u8]; 2] = [b"", b"x"];

/// The most texts of arguments that are tried with the paths of other rows.
pub(crate) const MOST_ARGUMENTS: usize = 32;

// Returns the index behind the bracket that begins at this one, as far as it is seen.
fn bracket_end(chars: &[Ch], start: usize) -> Option<usize> {
    for index in start..chars.len() {
        if index - start >= 2 && is_plain(chars[index], b']') {
            return Some(index + 1);
        }
    }
    None
}

// Returns a byte that the characters fit, if there is a visible one.
fn fitting_byte(chars: &[Ch]) -> Option<u8> {
    let pattern = Pattern::of(chars);
    for byte in b'0'..=b'z' {
        if pattern.matches(&[byte], Slash::Not) {
            return Some(byte);
        }
    }
    None
}

// Returns a text that the characters may fit, with this in place of each star.
fn filled(alloc: Global, chars: &[Ch], fill: &[u8]) -> Result<Vec<u8>, AllocError> {
    let mut text = Vec::new(alloc);
    let mut next = 0;
    for index in 0..chars.len() {
        if index < next {
            continue;
        }
        let ch = chars[index];
        if is_plain(ch, b'*') {
            text.extend_from_slice(fill)?;
        } else if is_plain(ch, b'?') {
            text.push(b'x')?;
        } else {
            let (byte, after) = single_byte(chars, index, ch);
            text.push(byte)?;
            next = after;
        }
    }
    Ok(text)
}

// Returns a byte that the part at this index fits, and the index behind the part.
fn single_byte(chars: &[Ch], index: usize, ch: Ch) -> (u8, usize) {
    if !is_plain(ch, b'[') {
        return (ch.byte, 0);
    }
    let Some(after) = bracket_end(chars, index) else {
        return (ch.byte, 0);
    };
    if after <= index || after > chars.len() {
        return (ch.byte, 0);
    }
    match fitting_byte(&chars[index..after]) {
        Some(byte) => (byte, after),
        None => (ch.byte, 0),
    }
}

// Returns a text of the arguments, with this in place of each star.
fn arguments_filled(
    alloc: Global,
    args: &Option<Seq<Ch>>,
    fill: &[u8],
) -> Result<Vec<u8>, AllocError> {
    match args {
        None => Ok(Vec::new(alloc)),
        Some(chars) => {
            let text = filled(alloc, chars.as_slice(), fill)?;
            if text.as_slice() == b"\"\"".as_slice() {
                return Ok(Vec::new(alloc));
            }
            Ok(text)
        }
    }
}

/// Whether sudo can be asked for the command with these arguments: a command has a name, and `sudoedit` needs a file.
pub(crate) fn can_be_asked(command: &[u8], arguments: &[u8]) -> bool {
    !command.is_empty() && (command != b"sudoedit".as_slice() || !arguments.is_empty())
}

// Returns the arguments, or a file where the command needs one and none is given.
fn asked_arguments(
    alloc: Global,
    command: &[u8],
    arguments: Vec<u8>,
) -> Result<Vec<u8>, AllocError> {
    if can_be_asked(command, &arguments) {
        Ok(arguments)
    } else {
        Vec::from_slice(alloc, b"/x")
    }
}

/// Returns the command with arguments that the command of a policy fits, with this in place of each star. Returns `AllocError` if
/// allocation fails.
pub(crate) fn own_candidate(
    alloc: Global,
    shape: &Shape,
    fill: &[u8],
) -> Result<Candidate, AllocError> {
    match &shape.atom {
        Atom::Command { args, .. } => {
            let command = filled(alloc, shape.path(), fill)?;
            let given = arguments_filled(alloc, args, fill)?;
            let arguments = asked_arguments(alloc, &command, given)?;
            Ok(Candidate { command, arguments })
        }
        _ => Ok(Candidate {
            command: Vec::from_slice(alloc, b"/bin/sh")?,
            arguments: Vec::from_slice(alloc, fill)?,
        }),
    }
}

/// Returns a command by a path that the command of a policy fits, with an `x` in place of each star. Returns `AllocError` if
/// allocation fails.
pub(crate) fn own_path(alloc: Global, shape: &Shape) -> Result<Vec<u8>, AllocError> {
    match &shape.atom {
        Atom::Command { .. } => filled(alloc, shape.path(), b"x"),
        _ => Vec::from_slice(alloc, b"/bin/sh"),
    }
}

/// Returns the path of a command that few patterns fit. Returns `AllocError` if allocation fails.
pub(crate) fn rare_path(alloc: Global) -> Result<Vec<u8>, AllocError> {
    Vec::from_slice(alloc, b"/x")
}

// Whether the text is among the others.
fn has_text(texts: &[Vec<u8>], text: &[u8]) -> bool {
    for other in texts {
        if other.as_slice() == text {
            return true;
        }
    }
    false
}

// Appends the text, unless it is there already, or 32 texts are.
fn push_text(texts: &mut Vec<Vec<u8>>, text: Vec<u8>) -> Result<(), AllocError> {
    if texts.len() < MOST_ARGUMENTS && !has_text(texts, &text) {
        texts.push(text)?;
    }
    Ok(())
}

/// Appends texts of the arguments of a command, if it has any. Returns `AllocError` if allocation fails.
pub(crate) fn push_given(
    alloc: Global,
    shape: &Shape,
    given: &mut Vec<Vec<u8>>,
) -> Result<(), AllocError> {
    match &shape.atom {
        Atom::Command {
            args: Some(chars),
            ..
        } => {
            for fill in &FILLS {
                let text = filled(alloc, chars.as_slice(), fill)?;
                push_text(given, text)?;
            }
            Ok(())
        }
        _ => Ok(()),
    }
}
