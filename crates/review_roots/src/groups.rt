//! The groups that may be added: the known ones, or those of them that the user list of a rule names.
ghost use Rattle.std.specs.Prelude.{◌≡◌, ◌++◌, ◌∷◌, [], IfOk, IsTrue, OnOk, fold, if◌then◌else◌};
ghost use Rattle.std.specs.List.{list_any};
ghost use Rattle.sudo_verdict.specs.Body.Resolved.{body_resolves};
ghost use Rattle.review_roots.specs.KnownGroups as known;

use crate::state::group_copied;
use std::alloc::{AllocError, Global};
use sudo_match::{Directory, Group};
use sudo_policy::{Atom, Checked, Entry, EntryBody, Kind, Signed, write_out};

fn is_same_group(one: &Group, other: &Group) -> bool
    ensures { result ≡ known.same_group one.now other.now }
{
    one.gid == other.gid && one.name.as_slice() == other.name.as_slice()
}

// Whether the group is among these.
fn has_group(groups: &[Group], group: &Group) -> bool
    ensures { result ≡ list_any (known.same_group group.now) groups.now }
{
    groups.iter().any(|other| is_same_group(group, other))
}

// Appends the group, unless it is there.
fn push_group(alloc: Global, group: &Group, groups: &mut Vec<Group>) -> Result<(), AllocError>
    ensures { OnOk result (groups.new.items ≡ known.with_group groups.old.items group.now) }
{
    if !has_group(groups, group) {
        groups.push(group_copied(alloc, group)?)?;
    }
    Ok(())
}

// Appends those of the groups that are not there.
fn push_groups(alloc: Global, more: &[Group], groups: &mut Vec<Group>) -> Result<(), AllocError>
    ensures { OnOk result (groups.new.items ≡ fold known.with_group groups.old.items more.now) }
{
    for group in more {
        push_group(alloc, group, groups)?;
    }
    Ok(())
}

/// Returns the groups that the known users have, each once, in the order of the users. Returns `AllocError` if allocation
/// fails.
pub fn known_groups(alloc: Global, directory: &Directory) -> Result<Vec<Group>, AllocError>
    ensures { IfOk result (λ groups. groups.items ≡ known.known_groups directory.now) }
{
    let mut groups = Vec::new(alloc);
    for person in directory.people() {
        push_groups(alloc, person.groups.as_slice(), &mut groups)?;
    }
    Ok(groups)
}

/// Whether the atom is the group, by its name or by its ID.
pub(crate) fn names_group(group: &Group, atom: &Atom) -> bool
    ensures { result ≡ known.names_group group.now atom.now }
{
    match atom {
        Atom::Group(name) => group.name.as_slice() == name.as_slice(),
        Atom::Gid(gid) => group.gid == *gid,
        _ => false,
    }
}

// Appends the user list of an entry, written out: nothing unless it is a rule.
fn push_users(
    alloc: Global,
    checked: &Checked,
    entry: &Entry,
    atoms: &mut Vec<Signed>,
) -> Result<(), AllocError>
    requires { IsTrue (body_resolves checked.now entry.now.body) }
    ensures { OnOk result (atoms.new.items
        ≡ atoms.old.items ++ known.body_users checked.now entry.now.body) }
{
    match &entry.body {
        EntryBody::Rule { users, .. } => {
            write_out(alloc, checked, Kind::User, users.as_slice(), false, atoms)
        }
        _ => Ok(()),
    }
}

// Returns the user lists of all rules, written out.
fn rule_users(alloc: Global, checked: &Checked) -> Result<Vec<Signed>, AllocError>
    ensures { IfOk result (λ atoms. atoms.items ≡ known.rule_users checked.now) }
{
    let mut atoms = Vec::new(alloc);
    for entry in checked.policy().entries.as_slice() {
        push_users(alloc, checked, entry, &mut atoms)?;
    }
    Ok(atoms)
}

// Whether one of the atoms is the group.
fn list_names(group: &Group, atoms: &[Signed]) -> bool
    ensures { result ≡ known.list_names group.now atoms.now }
{
    atoms.iter().any(|signed| names_group(group, &signed.atom))
}

// Appends the group, if one of the atoms is the group.
fn push_named(
    alloc: Global,
    group: &Group,
    atoms: &[Signed],
    groups: &mut Vec<Group>,
) -> Result<(), AllocError>
    ensures { OnOk result (groups.new.items ≡ groups.old.items
        ++ (if known.list_names group.now atoms.now then group.now ∷ [] else [])) }
{
    if list_names(group, atoms) {
        groups.push(group_copied(alloc, group)?)?;
    }
    Ok(())
}

/// Returns the known groups that the user list of a rule names, by name or by ID, in the order of [`known_groups`]. Whoever
/// adds another group is in no other list of a rule than before ([`crate::other_groups_change_no_list`]). Returns
/// `AllocError` if allocation fails.
pub fn named_groups(
    alloc: Global,
    checked: &Checked,
    directory: &Directory,
) -> Result<Vec<Group>, AllocError>
    ensures { IfOk result (λ groups. groups.items
        ≡ known.named_groups checked.now directory.now) }
{
    let atoms = rule_users(alloc, checked)?;
    let known = known_groups(alloc, directory)?;
    let mut groups = Vec::new(alloc);
    for group in &known {
        push_named(alloc, group, &atoms, &mut groups)?;
    }
    Ok(groups)
}
