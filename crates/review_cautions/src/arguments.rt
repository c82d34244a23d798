//! Arguments of commands that sudo refuses.
ghost use Rattle.std.specs.Prelude.{◌≡◌, true};
ghost use Rattle.review_cautions.specs.Arguments as spec;

use crate::bytes::{is_blank, spells};
use sudo_policy::Atom;
use sudo_text::{Ch, Seq};

// Whether a path ends in a slash.
fn ends_in_slash(path: &[Ch]) -> bool
    ensures { result ≡ spec.ends_in_slash path.now }
{
    let front = path.len().saturating_sub(1);
    spells(&path[front..], b"/")
}

// Whether arguments begin with a `^` that no escape yields.
fn begins_expression(arguments: &[Ch]) -> bool
    ensures { result ≡ spec.begins_expression arguments.now }
{
    match arguments {
        [] => false,
        [ch, ..] => !ch.escaped && ch.byte == b'^',
    }
}

// Whether a character is an equals sign that no escape yields.
fn is_equals(ch: Ch) -> bool
    ensures { result ≡ spec.is_equals ch }
{
    !ch.escaped && ch.byte == b'='
}

// Whether a character is a blank, or an escape yields it: these part pieces of arguments for sudo.
fn is_gap(ch: Ch) -> bool
    ensures { result ≡ spec.is_gap ch }
{
    ch.escaped || is_blank(ch.byte)
}

// Whether no piece goes on with the characters.
fn ends_piece(chars: &[Ch]) -> bool
    ensures { result ≡ spec.ends_piece chars.now }
{
    match chars {
        [] => true,
        [ch, ..] => is_gap(*ch),
    }
}

// Whether a piece is an equals sign alone.
fn has_lone_equals(arguments: &[Ch]) -> bool
    ensures { result ≡ spec.has_lone_equals true arguments.now }
{
    let mut fresh = true;
    let mut rest = arguments;
    while let [ch, after @ ..] = rest {
        if fresh && is_equals(*ch) && ends_piece(after) {
            return true;
        }
        fresh = is_gap(*ch);
        rest = after;
    }
    false
}

// Whether the arguments of a path, if any are given, are such.
fn are_refused(path: &[Ch], arguments: &Option<Seq<Ch>>) -> bool
    ensures { result ≡ spec.are_refused path.now arguments.now }
{
    match arguments {
        Some(arguments) => {
            let arguments = arguments.as_slice();
            ends_in_slash(path) || begins_expression(arguments) || has_lone_equals(arguments)
        }
        None => false,
    }
}

/// Whether an atom is a command with arguments that sudo refuses.
pub(crate) fn atom_has_refused_arguments(atom: &Atom) -> bool
    ensures { result ≡ spec.atom_has_refused_arguments atom.now }
{
    match atom {
        Atom::Command { path, args } => are_refused(path.as_slice(), args),
        _ => false,
    }
}
