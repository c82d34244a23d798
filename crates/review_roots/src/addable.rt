//! The groups that may be added on the way to a target.
ghost use Rattle.std.specs.Prelude.{◌≡◌, IfOk, OnOk};
ghost use Rattle.std.specs.List.{list_any};
ghost use Rattle.review_roots.specs.AddableGroups as spec;
ghost use Rattle.sudo_match.specs.declared.people.Group.{Group as TheGroup};

use crate::groups::known_groups;
use std::alloc::{AllocError, Global};
use std::cmp::Ordering;
use sudo_match::{Directory, Group};
use sudo_policy::{Checked, CommandSpec, Entry, EntryBody, Runas, Section};

fn has_groups(runas: &Option<Runas>) -> bool
    ensures { result ≡ spec.has_groups runas.now }
{
    match runas {
        Some(runas) => runas.groups.is_some(),
        None => false,
    }
}

fn commands_have_groups(commands: &[CommandSpec]) -> bool
    ensures { result ≡ spec.commands_have_groups commands.now }
{
    commands.iter().any(|spec| has_groups(&spec.runas))
}

fn sections_have_groups(sections: &[Section]) -> bool
    ensures { result ≡ list_any (λ s. spec.commands_have_groups s.commands) sections.now }
{
    sections.iter().any(|section| commands_have_groups(section.commands.as_slice()))
}

fn body_has_groups(body: &EntryBody) -> bool
    ensures { result ≡ spec.body_has_groups body.now }
{
    match body {
        EntryBody::Rule { sections, .. } => sections_have_groups(sections.as_slice()),
        _ => false,
    }
}

// Whether a runas of an entry has a list of groups.
fn entries_have_groups(entries: &[Entry]) -> bool
    ensures { result ≡ list_any (λ e. spec.body_has_groups e.body) entries.now }
{
    entries.iter().any(|entry| body_has_groups(&entry.body))
}

// Compares two groups by their names, and then by their IDs.
fn compare(one: &Group, other: &Group) -> Ordering
    ensures { result ≡ spec.group_cmp one.now other.now }
{
    match one.name.as_slice().cmp(other.name.as_slice()) {
        Ordering::Equal => one.gid.cmp(&other.gid),
        ordering => ordering,
    }
}

// Sorts groups into their order. Returns `AllocError` if allocation fails.
fn sort_groups(groups: &mut Vec<Group>) -> Result<(), AllocError>
    ensures same { (g : TheGroup) → spec.times g groups.new.items ≡ spec.times g groups.old.items }
    ensures sorted { OnOk result (spec.AreSorted groups.new.items) }
{
    groups.sort_by(|one, other| compare(one, other))
}

/// Returns the groups that may be added on the way to a target, by the bytes of their names: each known one, if a runas of the policy
/// has a list of groups; otherwise none, since then a target is allowed with the groups alone that it has. Returns `AllocError` if
/// allocation fails.
pub fn addable_groups(
    alloc: Global,
    checked: &Checked,
    directory: &Directory,
) -> Result<Vec<Group>, AllocError>
    ensures { IfOk result (λ groups. spec.AreAddable checked.now directory.now groups.items) }
{
    if !entries_have_groups(checked.policy().entries.as_slice()) {
        return Ok(Vec::new(alloc));
    }
    let mut groups = known_groups(alloc, directory)?;
    sort_groups(&mut groups)?;
    Ok(groups)
}
