//! The groups that no list of some blocks names.
ghost use Rattle.std.specs.Prelude.{◌≡◌, ◌==◌, ◌++◌, IfOk, IsTrue, OnOk, flat_map, length, option_copied};
ghost use Rattle.std.specs.List.{list_all, list_any};
ghost use Rattle.sudo_policy.specs.Resolving.{list_resolves, runas_resolves};
ghost use Rattle.review_roots.specs.Blocks.{block_resolves};
ghost use Rattle.review_roots.specs.KnownGroups as known;
ghost use Rattle.review_roots.specs.Body.Unnamed as spec;

use crate::block::Block;
use crate::groups::names_group;
use crate::raising::push_if;
use std::alloc::{AllocError, Global};
use sudo_match::Group;
use sudo_policy::{Atom, Checked, Kind, Member, Runas, Signed, write_out};
use sudo_text::Seq;

// The lists of a policy, written out: those of users, by which a group is one that a user has, and those of groups.
#[derive(Drop)]
struct GroupAtoms {
    users: Vec<Signed>,
    groups: Vec<Signed>,
}

/// The indices of the groups that have one of some IDs, and of those that have none.
#[derive(Drop)]
pub(crate) struct SplitGroups {
    pub(crate) named: Vec<usize>,
    pub(crate) unnamed: Vec<usize>,
}

// Appends the written form of a list of a runas, if the runas has that list.
fn push_list(
    alloc: Global,
    checked: &Checked,
    list: &Option<Seq<Member>>,
    atoms: &mut Vec<Signed>,
) -> Result<(), AllocError>
    requires { IsTrue (list_resolves checked.now list.now) }
    ensures { OnOk result (atoms.new.items
        ≡ atoms.old.items ++ spec.runas_list checked.now list.now) }
{
    match list {
        Some(members) => {
            write_out(
                alloc,
                checked,
                Kind::Runas,
                members.as_slice(),
                false,
                atoms,
            )
        }
        None => Ok(()),
    }
}

// Appends the users of a runas, written out.
fn push_runas_users(
    alloc: Global,
    checked: &Checked,
    runas: Option<&Runas>,
    atoms: &mut Vec<Signed>,
) -> Result<(), AllocError>
    requires { IsTrue (runas_resolves checked.now (option_copied runas)) }
    ensures { OnOk result (atoms.new.items
        ≡ atoms.old.items ++ spec.runas_users checked.now (option_copied runas.entry)) }
{
    match runas {
        Some(runas) => push_list(alloc, checked, &runas.users, atoms),
        None => Ok(()),
    }
}

// Appends the groups of a runas, written out.
fn push_runas_groups(
    alloc: Global,
    checked: &Checked,
    runas: Option<&Runas>,
    atoms: &mut Vec<Signed>,
) -> Result<(), AllocError>
    requires { IsTrue (runas_resolves checked.now (option_copied runas)) }
    ensures { OnOk result (atoms.new.items
        ≡ atoms.old.items ++ spec.runas_groups checked.now (option_copied runas.entry)) }
{
    match runas {
        Some(runas) => push_list(alloc, checked, &runas.groups, atoms),
        None => Ok(()),
    }
}

// Appends the users and the runas users of a block, written out.
fn push_users(
    alloc: Global,
    checked: &Checked,
    block: &Block<'_>,
    atoms: &mut Vec<Signed>,
) -> Result<(), AllocError>
    requires { IsTrue (block_resolves checked.now block.now) }
    ensures { OnOk result (atoms.new.items
        ≡ atoms.old.items ++ spec.block_users checked.now block.now) }
{
    write_out(alloc, checked, Kind::User, block.users, false, atoms)?;
    push_runas_users(alloc, checked, block.runas, atoms)
}

// Returns the lists of users of the blocks, written out.
fn users_of(
    alloc: Global,
    checked: &Checked,
    blocks: &[Block<'_>],
) -> Result<Vec<Signed>, AllocError>
    requires { IsTrue (list_all (block_resolves checked.now) blocks.now) }
    ensures { IfOk result (λ atoms. atoms.items
        ≡ flat_map (spec.block_users checked.now) blocks.now) }
{
    let mut atoms = Vec::new(alloc);
    for block in blocks {
        push_users(alloc, checked, block, &mut atoms)?;
    }
    Ok(atoms)
}

// Returns the lists of groups of the blocks, written out.
fn groups_of(
    alloc: Global,
    checked: &Checked,
    blocks: &[Block<'_>],
) -> Result<Vec<Signed>, AllocError>
    requires { IsTrue (list_all (block_resolves checked.now) blocks.now) }
    ensures { IfOk result (λ atoms. atoms.items
        ≡ flat_map (spec.block_groups checked.now) blocks.now) }
{
    let mut atoms = Vec::new(alloc);
    for block in blocks {
        push_runas_groups(alloc, checked, block.runas, &mut atoms)?;
    }
    Ok(atoms)
}

// Whether the atom of a list of groups is the group, and not `ALL`.
fn fits_by_name(group: &Group, atom: &Atom) -> bool
    ensures { result ≡ spec.fits_by_name group.now atom.now }
{
    match atom {
        Atom::Name(name) => name.as_slice() == group.name.as_slice(),
        Atom::Group(name) => name.as_slice() == group.name.as_slice(),
        Atom::Uid(id) => *id == group.gid,
        Atom::Gid(id) => *id == group.gid,
        _ => false,
    }
}

/// Whether an atom of a list of users names the group.
pub(crate) fn has_user_atom(atoms: &[Signed], group: &Group) -> bool
    ensures { result ≡ known.list_names group.now atoms.now }
{
    atoms.iter().any(|signed| names_group(group, &signed.atom))
}

// Whether an atom of a list of groups names the group.
fn has_group_atom(atoms: &[Signed], group: &Group) -> bool
    ensures { result ≡ spec.lists_group group.now atoms.now }
{
    atoms.iter().any(|signed| fits_by_name(group, &signed.atom))
}

// Whether an atom names the group.
fn is_named(atoms: &GroupAtoms, group: &Group) -> bool
    ensures { result ≡ spec.is_named atoms.now.users.items atoms.now.groups.items group.now }
{
    has_user_atom(&atoms.users, group) || has_group_atom(&atoms.groups, group)
}

// Returns the IDs of those of the groups that an atom names.
fn ids_by(alloc: Global, atoms: &GroupAtoms, groups: &[Group]) -> Result<Vec<u32>, AllocError>
    ensures { IfOk result (λ ids. ids.items
        ≡ spec.named_ids atoms.now.users.items atoms.now.groups.items groups.now) }
{
    let mut ids = Vec::new(alloc);
    for group in groups {
        if is_named(atoms, group) {
            ids.push(group.gid)?;
        }
    }
    Ok(ids)
}

/// Returns the IDs of those of the groups that a list of users of the blocks names, or a list of groups of all blocks. Returns
/// `AllocError` if allocation fails.
pub(crate) fn named_ids(
    alloc: Global,
    checked: &Checked,
    blocks: &[Block<'_>],
    all: &[Block<'_>],
    groups: &[Group],
) -> Result<Vec<u32>, AllocError>
    requires blocks { IsTrue (list_all (block_resolves checked.now) blocks.now) }
    requires all { IsTrue (list_all (block_resolves checked.now) all.now) }
    ensures users { IfOk result (λ ids. spec.AreUserIds checked.now blocks.now groups.now
        ids.items) }
    ensures groups { IfOk result (λ ids. spec.AreGroupIds checked.now all.now groups.now
        ids.items) }
{
    let atoms = GroupAtoms {
        users: users_of(alloc, checked, blocks)?,
        groups: groups_of(alloc, checked, all)?,
    };
    ids_by(alloc, &atoms, groups)
}

// Whether the ID is among these.
fn has_id(ids: &[u32], gid: u32) -> bool
    ensures { result ≡ list_any (λ id. id == gid) ids.now }
{
    ids.iter().any(|id| *id == gid)
}

// Whether the group has none of the IDs.
fn is_unnamed(ids: &[u32], group: &Group) -> bool
    ensures { result ≡ spec.is_unnamed ids.now group.now }
{
    !has_id(ids, group.gid)
}

/// Returns the groups by whether they have one of the IDs. Returns `AllocError` if allocation fails.
pub(crate) fn split_groups(
    alloc: Global,
    ids: &[u32],
    groups: &[Group],
) -> Result<SplitGroups, AllocError>
    ensures named { IfOk result (λ split. split.named.items
        ≡ spec.named_indices ids.now groups.now (length groups.now)) }
    ensures unnamed { IfOk result (λ split. split.unnamed.items
        ≡ spec.unnamed_indices ids.now groups.now (length groups.now)) }
{
    let mut named = Vec::new(alloc);
    let mut unnamed = Vec::new(alloc);
    for index in 0..groups.len() {
        let is_unnamed = is_unnamed(ids, &groups[index]);
        push_if(&mut named, index, !is_unnamed)?;
        push_if(&mut unnamed, index, is_unnamed)?;
    }
    Ok(SplitGroups { named, unnamed })
}
