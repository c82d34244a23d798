//! Which blocks name a group among their users: an added group changes no other list of users.
ghost use Rattle.std.specs.Prelude.{◌≡◌, IfOk, IsTrue, map};
ghost use Rattle.std.specs.List.{list_all, list_any};
ghost use Rattle.review_roots.specs.Blocks.{block_resolves};
ghost use Rattle.review_roots.specs.Body.Naming as spec;
ghost use Rattle.review_roots.specs.KnownGroups.{list_names};

use crate::block::Block;
use crate::ground::Ground;
use crate::unnamed::has_user_atom;
use std::alloc::{AllocError, Global};
use sudo_match::Group;
use sudo_policy::{Checked, Kind, Signed, write_out};

// Returns the user list of a block, written out.
fn user_list_of(
    alloc: Global,
    checked: &Checked,
    block: &Block<'_>,
) -> Result<Vec<Signed>, AllocError>
    requires { IsTrue (block_resolves checked.now block.now) }
    ensures { IfOk result (λ atoms. atoms.items ≡ spec.user_list checked.now block.now) }
{
    let mut atoms = Vec::new(alloc);
    write_out(alloc, checked, Kind::User, block.users, false, &mut atoms)?;
    Ok(atoms)
}

// Returns the user lists of the blocks, written out.
fn user_lists(
    alloc: Global,
    checked: &Checked,
    blocks: &[Block<'_>],
) -> Result<Vec<Vec<Signed>>, AllocError>
    requires { IsTrue (list_all (block_resolves checked.now) blocks.now) }
    ensures { IfOk result (λ lists. map (λ v. v.items) lists.items
        ≡ map (spec.user_list checked.now) blocks.now) }
{
    let mut lists = Vec::new(alloc);
    for block in blocks {
        lists.push(user_list_of(alloc, checked, block)?)?;
    }
    Ok(lists)
}

// Returns for each list whether an atom of it names the group.
fn naming_lists(
    alloc: Global,
    lists: &[Vec<Signed>],
    group: &Group,
) -> Result<Vec<bool>, AllocError>
    ensures { IfOk result (λ row. row.items ≡ map (λ v. list_names group.now v.items) lists.now) }
{
    let mut row = Vec::new(alloc);
    for list in lists {
        row.push(has_user_atom(list, group))?;
    }
    Ok(row)
}

// Whether one of them is true.
fn has_true(row: &[bool]) -> bool
    ensures { result ≡ list_any (λ b. b) row.now }
{
    row.iter().any(|names| *names)
}

// Returns for each list whether an atom of it names the group, or nothing if none does.
fn row_of(alloc: Global, lists: &[Vec<Signed>], group: &Group) -> Result<Vec<bool>, AllocError>
    ensures { IfOk result (λ row. row.items
        ≡ spec.trimmed (map (λ v. list_names group.now v.items) lists.now)) }
{
    let row = naming_lists(alloc, lists, group)?;
    if has_true(&row) {
        Ok(row)
    } else {
        Ok(Vec::new(alloc))
    }
}

// Returns the rows of the groups.
fn rows_by(
    alloc: Global,
    lists: &[Vec<Signed>],
    groups: &[Group],
) -> Result<Vec<Vec<bool>>, AllocError>
    ensures { IfOk result (λ rows. map (λ v. v.items) rows.items
        ≡ map (λ g. spec.trimmed (map (λ v. list_names g v.items) lists.now)) groups.now) }
{
    let mut rows = Vec::new(alloc);
    for group in groups {
        rows.push(row_of(alloc, lists, group)?)?;
    }
    Ok(rows)
}

/// Returns for each group that may be added, and for each block, whether the user list of the block names the group; nothing for
/// a group that none names. Returns `AllocError` if allocation fails.
pub(crate) fn naming(alloc: Global, ground: Ground<'_, '_>) -> Result<Vec<Vec<bool>>, AllocError>
    ensures { IfOk result (λ rows. spec.AreRows ground.entry.checked.now ground.entry.blocks.now
        ground.entry.groups.now rows.items) }
{
    let lists = user_lists(alloc, ground.checked, ground.blocks)?;
    rows_by(alloc, &lists, ground.groups)
}
