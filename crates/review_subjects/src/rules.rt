//! How many answers each rule decided.
ghost use Rattle.std.specs.Prelude.{◌≡◌, ◌++◌, OnOk, IfOk, IsTrue, All, List, [], map, flat_map};
ghost use Rattle.std.specs.List.{list_all};
ghost use Rattle.sudo_policy.specs.Body.Resolving.{command_resolves, section_resolves};
ghost use Rattle.sudo_text.specs.declared.line.Place.{Place as ThePlace};
ghost use Rattle.review_subjects.specs.Body.Places as listed;
ghost use Rattle.review_subjects.specs.Counts as spec;
ghost use Rattle.review_subjects.specs.Subjects.{entry_resolves};

use crate::places::{count_at, distinct, tally};
use crate::written::written;
use audit_collect::{Report, SenderReport};
use review_texts::note_in;
use std::alloc::{AllocError, Global};
use std::collections::HashMap;
use sudo_match::Verdict;
use sudo_policy::{Checked, CommandSpec, Entry, EntryBody, Kind, Section, Signed};
use sudo_text::Place;

/// The row of a rule: its place, the number of its commands, written out and without notes, and how many answers it allowed and
/// denied.
#[derive(Clone, Copy, Debug, PartialEq, Eq)]
pub struct RuleCount {
    pub place: Place,
    pub commands: u64,
    pub allowed: u64,
    pub denied: u64,
}

// Appends the place of an entry, if it is a rule.
fn push_rule_place(entry: &Entry, found: &mut Vec<Place>) -> Result<(), AllocError>
    ensures { OnOk result (found.new.items
        ≡ found.old.items ++ spec.rule_place entry.now.place entry.now.body) }
{
    match &entry.body {
        EntryBody::Rule { .. } => {
            found.push(entry.place)?;
            Ok(())
        }
        _ => Ok(()),
    }
}

// Returns the places of the rules among entries.
fn rule_places(alloc: Global, entries: &[Entry]) -> Result<Vec<Place>, AllocError>
    ensures { IfOk result (λ found. found.items
        ≡ flat_map (λ e. spec.rule_place e.place e.body) entries.now) }
{
    let mut found = Vec::new(alloc);
    for entry in entries {
        push_rule_place(entry, &mut found)?;
    }
    Ok(found)
}

// Appends a place for an atom, unless it stands for a note.
fn push_place(place: Place, atom: &Signed, found: &mut Vec<Place>) -> Result<(), AllocError>
    ensures { OnOk result (found.new.items
        ≡ found.old.items ++ listed.atom_place place atom.now) }
{
    if note_in(&atom.atom).is_none() {
        found.push(place)?;
    }
    Ok(())
}

// Appends a place for each of these atoms but the notes.
fn push_places(place: Place, atoms: &[Signed], found: &mut Vec<Place>) -> Result<(), AllocError>
    ensures { OnOk result (found.new.items
        ≡ found.old.items ++ listed.atom_places place atoms.now) }
{
    for atom in atoms {
        push_place(place, atom, found)?;
    }
    Ok(())
}

// Appends a place for each atom but the notes of a command that is written out.
fn push_command(
    alloc: Global,
    checked: &Checked,
    place: Place,
    command: &CommandSpec,
    found: &mut Vec<Place>,
) -> Result<(), AllocError>
    requires { IsTrue (command_resolves checked.now command.now) }
    ensures { OnOk result (found.new.items
        ≡ found.old.items ++ listed.command_places checked.now place command.now) }
{
    let command = std::slice::from_ref(&command.command);
    let atoms = written(alloc, checked, Kind::Cmnd, command)?;
    push_places(place, atoms.as_slice(), found)
}

// Appends a place for each written-out command of a section but the notes.
fn push_commands(
    alloc: Global,
    checked: &Checked,
    place: Place,
    commands: &[CommandSpec],
    found: &mut Vec<Place>,
) -> Result<(), AllocError>
    requires { All (λ c. IsTrue (command_resolves checked.now c)) commands.now }
    ensures { OnOk result (found.new.items ≡ found.old.items
        ++ flat_map (listed.command_places checked.now place) commands.now) }
{
    for command in commands {
        push_command(alloc, checked, place, command, found)?;
    }
    Ok(())
}

// Appends a place for each written-out command of sections but the notes.
fn push_sections(
    alloc: Global,
    checked: &Checked,
    place: Place,
    sections: &[Section],
    found: &mut Vec<Place>,
) -> Result<(), AllocError>
    requires { All (λ s. IsTrue (list_all (command_resolves checked.now) s.commands)) sections.now }
    ensures { OnOk result (found.new.items ≡ found.old.items
        ++ flat_map (listed.section_places checked.now place) sections.now) }
{
    for section in sections {
        push_commands(alloc, checked, place, section.commands.as_slice(), found)?;
    }
    Ok(())
}

// Appends a place for each written-out command of an entry but the notes.
fn push_granted(
    alloc: Global,
    checked: &Checked,
    entry: &Entry,
    found: &mut Vec<Place>,
) -> Result<(), AllocError>
    requires { IsTrue (entry_resolves checked.now entry.now) }
    ensures { OnOk result (found.new.items ≡ found.old.items
        ++ listed.body_places checked.now entry.now.place entry.now.body) }
{
    match &entry.body {
        EntryBody::Rule { sections, .. } => {
            push_sections(alloc, checked, entry.place, sections.as_slice(), found)
        }
        _ => Ok(()),
    }
}

// Returns a place for each written-out command of entries but the notes.
fn granted_places(
    alloc: Global,
    checked: &Checked,
    entries: &[Entry],
) -> Result<Vec<Place>, AllocError>
    requires { All (λ e. IsTrue (entry_resolves checked.now e)) entries.now }
    ensures { IfOk result (λ found. found.items ≡ listed.granted_places checked.now entries.now) }
{
    let mut found = Vec::new(alloc);
    for entry in entries {
        push_granted(alloc, checked, entry, &mut found)?;
    }
    Ok(found)
}

// The places of the grants that allowed and of those that denied, answer by answer.
#[derive(Drop)]
struct Decided {
    allowed: Vec<Place>,
    denied: Vec<Place>,
}

// Adds the place of a verdict that allows or denies.
fn add_verdict(decided: &mut Decided, verdict: &Verdict) -> Result<(), AllocError>
    ensures allowed { OnOk result (decided.new.allowed.items
        ≡ decided.old.allowed.items ++ listed.allowed_place verdict.now) }
    ensures denied { OnOk result (decided.new.denied.items
        ≡ decided.old.denied.items ++ listed.denied_place verdict.now) }
{
    match verdict {
        Verdict::Allow { place, .. } => decided.allowed.push(*place)?,
        Verdict::Deny { place } => decided.denied.push(*place)?,
        _ => {}
    }
    Ok(())
}

// Adds the places of a sender's answers.
fn add_sender(decided: &mut Decided, sender: &SenderReport) -> Result<(), AllocError>
    ensures allowed { OnOk result (decided.new.allowed.items ≡ decided.old.allowed.items
        ++ flat_map listed.allowed_place (spec.sender_verdicts sender.now)) }
    ensures denied { OnOk result (decided.new.denied.items ≡ decided.old.denied.items
        ++ flat_map listed.denied_place (spec.sender_verdicts sender.now)) }
{
    for answer in sender.answers.as_slice() {
        add_verdict(decided, &answer.verdict)?;
    }
    Ok(())
}

// Adds the places of the answers of senders.
fn add_senders(decided: &mut Decided, senders: &[SenderReport]) -> Result<(), AllocError>
    ensures allowed { OnOk result (decided.new.allowed.items ≡ decided.old.allowed.items
        ++ flat_map listed.allowed_place (flat_map spec.sender_verdicts senders.now)) }
    ensures denied { OnOk result (decided.new.denied.items ≡ decided.old.denied.items
        ++ flat_map listed.denied_place (flat_map spec.sender_verdicts senders.now)) }
{
    for sender in senders {
        add_sender(decided, sender)?;
    }
    Ok(())
}

// How often each place occurs among those of grants, of answers that were allowed, and of answers that were denied.
#[derive(Drop)]
struct Tallies {
    commands: HashMap<(u32, u32), u64>,
    allowed: HashMap<(u32, u32), u64>,
    denied: HashMap<(u32, u32), u64>,
}

// Counts how often each place occurs among the grants of a policy and the answers of a report.
fn counted(alloc: Global, checked: &Checked, report: &Report) -> Result<Tallies, AllocError>
    ensures { IfOk result (λ t. (q : ThePlace) → listed.tallied t q
        ≡ spec.rule_count checked.now (spec.verdicts report.now) q) }
{
    let granted = granted_places(alloc, checked, checked.policy().entries.as_slice())?;
    let mut decided = Decided {
        allowed: Vec::new(alloc),
        denied: Vec::new(alloc),
    };
    add_senders(&mut decided, report.senders.as_slice())?;
    Ok(Tallies {
        commands: tally(alloc, granted.as_slice())?,
        allowed: tally(alloc, decided.allowed.as_slice())?,
        denied: tally(alloc, decided.denied.as_slice())?,
    })
}

// Returns the row of the rules at a place.
fn row(tallies: &Tallies, place: Place) -> RuleCount
    ensures { result ≡ listed.tallied tallies.now place }
{
    RuleCount {
        place,
        commands: count_at(&tallies.commands, place),
        allowed: count_at(&tallies.allowed, place),
        denied: count_at(&tallies.denied, place),
    }
}

// Returns the rows of the rules at these places.
fn rows(alloc: Global, tallies: &Tallies, places: &[Place]) -> Result<Vec<RuleCount>, AllocError>
    ensures { IfOk result (λ rows. rows.items ≡ map (listed.tallied tallies.now) places.now) }
{
    let mut rows = Vec::new(alloc);
    for place in places {
        rows.push(row(tallies, *place))?;
    }
    Ok(rows)
}

/// Returns a row for each rule of a policy, in the policy's order: its place, the number of its commands with all aliases
/// written out and without notes, and how many answers of the report it allowed and denied. Rules with one place have one row.
///
/// The time is about linear in the policy, written out, and the report, on average. Returns `AllocError` only if allocation
/// fails.
pub fn rule_counts(
    alloc: Global,
    checked: &Checked,
    report: &Report,
) -> Result<Vec<RuleCount>, AllocError>
    ensures { IfOk result (λ rows. rows.items ≡ spec.rule_counts checked.now report.now) }
{
    let tallies = counted(alloc, checked, report)?;
    let places = rule_places(alloc, checked.policy().entries.as_slice())?;
    let places = distinct(alloc, places.as_slice())?;
    rows(alloc, &tallies, places.as_slice())
}
