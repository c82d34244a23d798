//! Whether a list has characters that most classes of lists look for.
ghost use Rattle.std.specs.Prelude.{◌≡◌, IfOk, map};
ghost use Rattle.std.specs.List.{list_all, list_any};
ghost use Rattle.sudo_policy.specs.Definitions.{list_view};
ghost use Rattle.review_cautions.specs.Body.Looking.{scanned_view};
ghost use Rattle.review_cautions.specs.Marks as spec;

use crate::CautionClass;
use crate::escapes::is_long_sudoedit;
use crate::scanned::ScannedList;
use std::alloc::{AllocError, Global};
use sudo_policy::{Atom, Member, MemberList};
use sudo_text::{Ch, Seq, TokenKind};

// Whether no escape yields a character, and it is no `[`.
fn is_plain(ch: Ch) -> bool
    ensures { result ≡ spec.is_plain ch }
{
    !ch.escaped && ch.byte != b'['
}

// Whether all characters are such.
fn are_plain(chars: &[Ch]) -> bool
    ensures { result ≡ list_all spec.is_plain chars.now }
{
    chars.iter().all(|ch| is_plain(*ch))
}

// Whether all characters of arguments, if any are given, are such.
fn arguments_are_plain(arguments: &Option<Seq<Ch>>) -> bool
    ensures { result ≡ spec.arguments_are_plain arguments.now }
{
    match arguments {
        Some(arguments) => are_plain(arguments.as_slice()),
        None => true,
    }
}

// Whether an atom has such characters alone, if it is a host or a command.
fn atom_is_plain(atom: &Atom) -> bool
    ensures { result ≡ spec.atom_is_plain atom.now }
{
    match atom {
        Atom::Host { chars, quoted } => !*quoted && are_plain(chars.as_slice()),
        Atom::Command { path, args } => {
            let path = path.as_slice();
            are_plain(path) && !is_long_sudoedit(path) && arguments_are_plain(args)
        }
        _ => true,
    }
}

// Whether a token has such characters alone, if it is a word.
fn token_is_plain(token: &TokenKind) -> bool
    ensures { result ≡ spec.token_is_plain token.now }
{
    match token {
        TokenKind::Word { chars, .. } => are_plain(chars.as_slice()),
        _ => true,
    }
}

// Whether a member has other characters.
fn is_marked(member: &Member) -> bool
    ensures { result ≡ spec.is_marked member.now }
{
    !(atom_is_plain(&member.atom) && token_is_plain(&member.token.kind))
}

// Whether one of the members has.
fn members_are_marked(members: &[Member]) -> bool
    ensures { result ≡ list_any spec.is_marked members.now }
{
    members.iter().any(|member| is_marked(member))
}

/// Returns the lists, each with whether one of its members has other characters. Returns `AllocError` if allocation fails.
pub(crate) fn scanned_lists<'a>(
    alloc: Global,
    lists: Vec<MemberList<'a>>,
) -> Result<Vec<ScannedList<'a>>, AllocError>
    ensures { IfOk result (λ scanned. map scanned_view scanned.items
        ≡ map list_view lists.entry.items) }
{
    let mut scanned = Vec::with_capacity(alloc, lists.len())?;
    for list in lists {
        let marked = members_are_marked(list.members);
        scanned.push(ScannedList { list, marked })?;
    }
    Ok(scanned)
}

/// Whether only marked lists can have the construct of a class.
pub(crate) fn needs_mark(class: CautionClass) -> bool
    ensures { result ≡ spec.needs_mark class }
{
    matches!(
        class,
        CautionClass::Caret
            | CautionClass::Escape
            | CautionClass::QuotedHost
            | CautionClass::QuotedEscape
            | CautionClass::Bracket
    )
}
