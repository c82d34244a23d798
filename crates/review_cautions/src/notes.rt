//! Cautions on commands that stand for a note.
ghost use Rattle.std.specs.Prelude.{◌≡◌, ◌++◌, ◌∷◌, [], OnOk, map};
ghost use Rattle.std.specs.List.{list_any};
ghost use Rattle.sudo_policy.specs.Definitions.{list_view};
ghost use Rattle.review_cautions.specs.Body.Looking.{scanned_view};
ghost use Rattle.review_cautions.specs.NoteTests as spec;
ghost use Rattle.review_cautions.specs.Cautions as cautions;

use crate::lists::is_at;
use crate::scanned::ScannedList;
use crate::{Caution, CautionClass};
use review_texts::{Note, note_in};
use std::alloc::{AllocError, Global};
use sudo_policy::{Atom, Kind, Member, MemberList};
use sudo_text::{Place, Seq};

// Whether there is a note, and it is this one.
fn is_note(note: Note, found: Option<Note>) -> bool
    ensures { result ≡ spec.is_note note found }
{
    match note {
        Note::Digest => matches!(found, Some(Note::Digest)),
        Note::Time => matches!(found, Some(Note::Time)),
        Note::Chroot => matches!(found, Some(Note::Chroot)),
        Note::Regex => matches!(found, Some(Note::Regex)),
    }
}

// Whether an atom is a command that stands for a note.
fn stands_for(note: Note, atom: &Atom) -> bool
    ensures { result ≡ spec.stands_for note atom.now }
{
    is_note(note, note_in(atom))
}

// Whether one of the members stands for a note.
fn members_have_note(note: Note, members: &[Member]) -> bool
    ensures { result ≡ list_any (λ m. spec.stands_for note m.atom) members.now }
{
    members.iter().any(|member| stands_for(note, &member.atom))
}

// Whether a command of a list stands for a note.
fn list_has_note(note: Note, list: &MemberList<'_>) -> bool
    ensures { result ≡ spec.list_has_note note (list_view list.now) }
{
    matches!(list.kind, Kind::Cmnd) && members_have_note(note, list.members)
}

// Appends the caution on a line with such a command.
fn push_caution(
    alloc: Global,
    note: Note,
    place: Place,
    found: &mut Vec<Caution>,
) -> Result<(), AllocError>
    ensures { OnOk result (found.new.items
        ≡ found.old.items ++ cautions.note_caution note place ∷ []) }
{
    let subject = Seq::from_slice(alloc, note.name())?;
    found.push(Caution {
        class: CautionClass::Depends,
        place,
        subject,
    })?;
    Ok(())
}

// Appends the cautions on the commands that stand for a note, one for each line.
fn push_noted(
    alloc: Global,
    note: Note,
    lists: &[ScannedList<'_>],
    found: &mut Vec<Caution>,
) -> Result<(), AllocError>
    ensures { OnOk result (found.new.items ≡ found.old.items
        ++ cautions.note_cautions note (map scanned_view lists.now)) }
{
    let mut before = None;
    for list in lists {
        if list_has_note(note, &list.list) {
            let place = list.list.place;
            if !is_at(before, place) {
                push_caution(alloc, note, place, found)?;
            }
            before = Some(place);
        }
    }
    Ok(())
}

/// Appends the cautions on the commands of lists that stand for notes, note by note. Returns `AllocError` if allocation fails.
pub(crate) fn push_notes(
    alloc: Global,
    lists: &[ScannedList<'_>],
    found: &mut Vec<Caution>,
) -> Result<(), AllocError>
    ensures { OnOk result (found.new.items ≡ found.old.items
        ++ cautions.noted_cautions (map scanned_view lists.now)) }
{
    push_noted(alloc, Note::Digest, lists, found)?;
    push_noted(alloc, Note::Time, lists, found)?;
    push_noted(alloc, Note::Chroot, lists, found)?;
    push_noted(alloc, Note::Regex, lists, found)
}
