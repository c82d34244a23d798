//! The notes of the written-out commands of a policy, each with the place of its rule.
ghost use Rattle.std.specs.Prelude.{◌≡◌, ◌++◌, flat_map, IfOk, IsTrue, OnOk};
ghost use Rattle.std.specs.List.{list_all, list_any};
ghost use Rattle.sudo_policy.specs.Body.Resolving.{command_resolves, section_resolves};
ghost use Rattle.sudo_verdict.specs.Body.Resolved.{body_resolves};
ghost use Rattle.review_grants.specs.Body.Noted as spec;

use crate::runas_text::written;
use review_texts::{Note, note_in};
use std::alloc::{AllocError, Global};
use std::slice;
use sudo_grammar::{Definition, Entry, EntryBody, Signed};
use sudo_policy::{Checked, CommandSpec, Kind, Member, Section};
use sudo_text::Place;

/// A note at a place.
#[derive(Clone, Copy)]
pub(crate) struct Noted {
    pub(crate) place: Place,
    pub(crate) note: Note,
}

// Appends the note of a written-out command, if it is one.
fn push_member(place: Place, member: &Signed, found: &mut Vec<Noted>) -> Result<(), AllocError>
    ensures { OnOk result (found.new.items
        ≡ found.old.items ++ spec.member_notes place member.now) }
{
    if let Some(note) = note_in(&member.atom) {
        found.push(Noted { place, note })?;
    }
    Ok(())
}

// Appends the notes of a command that is written out.
fn push_command(
    alloc: Global,
    checked: &Checked,
    place: Place,
    command: &CommandSpec,
    found: &mut Vec<Noted>,
) -> Result<(), AllocError>
    requires { IsTrue (command_resolves checked.now command.now) }
    ensures { OnOk result (found.new.items
        ≡ found.old.items ++ spec.command_notes checked.now place command.now) }
{
    let command = slice::from_ref(&command.command);
    let members = written(alloc, checked, Kind::Cmnd, command)?;
    for member in members.as_slice() {
        push_member(place, member, found)?;
    }
    Ok(())
}

// Appends the notes of the commands of a section.
fn push_section(
    alloc: Global,
    checked: &Checked,
    place: Place,
    commands: &[CommandSpec],
    found: &mut Vec<Noted>,
) -> Result<(), AllocError>
    requires { IsTrue (list_all (command_resolves checked.now) commands.now) }
    ensures { OnOk result (found.new.items ≡ found.old.items
        ++ flat_map (spec.command_notes checked.now place) commands.now) }
{
    for command in commands {
        push_command(alloc, checked, place, command, found)?;
    }
    Ok(())
}

// Appends the notes of sections.
fn push_sections(
    alloc: Global,
    checked: &Checked,
    place: Place,
    sections: &[Section],
    found: &mut Vec<Noted>,
) -> Result<(), AllocError>
    requires { IsTrue (list_all (section_resolves checked.now) sections.now) }
    ensures { OnOk result (found.new.items ≡ found.old.items
        ++ flat_map (spec.section_notes checked.now place) sections.now) }
{
    for section in sections {
        push_section(alloc, checked, place, section.commands.as_slice(), found)?;
    }
    Ok(())
}

// Appends the notes of an entry: those of a rule.
fn push_entry(
    alloc: Global,
    checked: &Checked,
    entry: &Entry,
    found: &mut Vec<Noted>,
) -> Result<(), AllocError>
    requires { IsTrue (body_resolves checked.now entry.now.body) }
    ensures { OnOk result (found.new.items
        ≡ found.old.items ++ spec.entry_notes checked.now entry.now) }
{
    match &entry.body {
        EntryBody::Rule { sections, .. } => {
            push_sections(alloc, checked, entry.place, sections.as_slice(), found)
        }
        _ => Ok(()),
    }
}

// Returns the notes of entries.
fn entry_notes(
    alloc: Global,
    checked: &Checked,
    entries: &[Entry],
) -> Result<Vec<Noted>, AllocError>
    requires { IsTrue (list_all (λ e. body_resolves checked.now e.body) entries.now) }
    ensures { IfOk result (λ found. found.items
        ≡ flat_map (spec.entry_notes checked.now) entries.now) }
{
    let mut found = Vec::new(alloc);
    for entry in entries {
        push_entry(alloc, checked, entry, &mut found)?;
    }
    Ok(found)
}

// Whether a member is a note.
fn is_note(member: &Member) -> bool
    ensures { result ≡ spec.is_note_member member.now }
{
    note_in(&member.atom).is_some()
}

// Whether a definition has a note.
fn defines_note(definition: &Definition) -> bool
    ensures { result ≡ spec.definition_has_note definition.now }
{
    definition
        .members
        .as_slice()
        .iter()
        .any(|member| is_note(member))
}

// Whether a section has a note.
fn lists_note(section: &Section) -> bool
    ensures { result ≡ spec.section_has_note section.now }
{
    section
        .commands
        .as_slice()
        .iter()
        .any(|spec| is_note(&spec.command))
}

// Whether some definition has a note.
fn define_note(definitions: &[Definition]) -> bool
    ensures { result ≡ list_any spec.definition_has_note definitions.now }
{
    definitions
        .iter()
        .any(|definition| defines_note(definition))
}

// Whether some section has a note.
fn list_note(sections: &[Section]) -> bool
    ensures { result ≡ list_any spec.section_has_note sections.now }
{
    sections.iter().any(|section| lists_note(section))
}

// Whether an entry has a note, as it stands.
fn has_note(entry: &Entry) -> bool
    ensures { result ≡ spec.entry_has_note entry.now }
{
    match &entry.body {
        EntryBody::Aliases { definitions, .. } => define_note(definitions.as_slice()),
        EntryBody::Rule { sections, .. } => list_note(sections.as_slice()),
        _ => false,
    }
}

// Whether some entry has a note, as it stands.
fn have_note(entries: &[Entry]) -> bool
    ensures { result ≡ list_any spec.entry_has_note entries.now }
{
    entries.iter().any(|entry| has_note(entry))
}

/// Returns the notes of the written-out commands of a policy, each with the place of its rule. Writes nothing out where no list
/// of the policy has a note. Returns `AllocError` if allocation failed.
pub(crate) fn policy_notes(alloc: Global, checked: &Checked) -> Result<Vec<Noted>, AllocError>
    ensures { IfOk result (λ found. found.items ≡ spec.policy_notes checked.now) }
{
    let entries = checked.policy().entries.as_slice();
    if !have_note(entries) {
        return Ok(Vec::new(alloc));
    }
    entry_notes(alloc, checked, entries)
}
