//! Which blocks list and allow a user without an added group, and, by that, which list it with one.
ghost use Rattle.std.specs.Prelude.{◌≡◌, ◌<◌, IfOk, OnOk, Some, false, if◌then◌else◌, length, map, slice_get, take, ℕ};
ghost use Rattle.std.specs.List.{slice_index_or};
ghost use Rattle.review_roots.specs.Blocks.{lists};
ghost use Rattle.review_roots.specs.Body.Naming.{IsBase};
ghost use Rattle.review_roots.specs.Body.Raising.{indices, passes_at};
ghost use Rattle.review_roots.specs.declared.block.Block.{Block as TheBlock};

use crate::alike::earlier;
use crate::ground::Ground;
use crate::listing::lists_person;
use crate::raising::push_if;
use crate::steps::is_at;
use crate::toward::allowed_alone;
use std::alloc::{AllocError, Global};
use sudo_match::Person;

/// A user without an added group: for each block, whether its user list allows it, if it is known; and whether its runas allows it to
/// users of another name.
#[derive(Drop)]
pub(crate) struct Base {
    pub(crate) user: usize,
    pub(crate) passes: Vec<bool>,
    pub(crate) allowed: Vec<bool>,
}

/// Whether there is a block at the index, and its user list allows the user.
pub(crate) fn lists_at(ground: Ground<'_, '_>, index: usize, person: &Person) -> bool
    ensures { result ≡ passes_at (lists ground.entry.checked.now person.now)
        ground.entry.blocks.now index }
{
    match ground.blocks.get(index) {
        Some(block) => lists_person(ground.checked, block.users, person),
        None => false,
    }
}

// Whether the user list of the block at an index allows the user, where that is known of those before it: looked up, unless one of them
// has the same list.
fn passes_behind(ground: Ground<'_, '_>, passes: &[bool], index: usize, person: &Person) -> bool
    requires inside { index < length ground.blocks.now }
    requires known { passes.now
        ≡ map (lists ground.checked.now person.now) (take index ground.blocks.now) }
    ensures { result ≡ passes_at (lists ground.entry.checked.now person.now)
        ground.entry.blocks.now index }
{
    match earlier(ground.alike, index) {
        Some(first) => is_at(passes, first),
        None => lists_at(ground, index, person),
    }
}

/// Returns for each block whether its user list allows the user. Returns `AllocError` if allocation fails.
pub(crate) fn passes_of(
    alloc: Global,
    ground: Ground<'_, '_>,
    person: &Person,
) -> Result<Vec<bool>, AllocError>
    ensures { IfOk result (λ passes. passes.items
        ≡ map (lists ground.entry.checked.now person.now) ground.entry.blocks.now) }
{
    let mut passes = Vec::new(alloc);
    for index in 0..ground.blocks.len() {
        let stands = passes_behind(ground, &passes, index, person);
        passes.push(stands)?;
    }
    Ok(passes)
}

/// Returns which blocks list and allow the user of an index, if it is known. Returns `AllocError` if allocation fails.
pub(crate) fn base_of(
    alloc: Global,
    ground: Ground<'_, '_>,
    user: usize,
) -> Result<Base, AllocError>
    ensures user { IfOk result (λ base. base.user ≡ user) }
    ensures base { IfOk result (λ base. IsBase ground.entry.checked.now ground.entry.directory.now
        ground.entry.blocks.now base) }
{
    let passes = match ground.directory.people().get(user) {
        Some(person) => passes_of(alloc, ground, person)?,
        None => Vec::new(alloc),
    };
    let allowed = allowed_alone(alloc, ground, user)?;
    Ok(Base {
        user,
        passes,
        allowed,
    })
}

/// Puts the user of an index in the place of another one. Returns `AllocError` if allocation fails.
pub(crate) fn set_base(
    alloc: Global,
    ground: Ground<'_, '_>,
    user: usize,
    base: &mut Base,
) -> Result<(), AllocError>
    requires { IsBase ground.checked.now ground.directory.now ground.blocks.now base.now }
    ensures user { OnOk result (base.new.user ≡ user) }
    ensures base { OnOk result (IsBase ground.entry.checked.now ground.entry.directory.now
        ground.entry.blocks.now base.new) }
{
    if base.user != user {
        *base = base_of(alloc, ground, user)?;
    }
    Ok(())
}

// Whether the block at an index lists the user: looked up if the row is true there, and otherwise as without the added group.
fn passes_beside(
    ground: Ground<'_, '_>,
    passes: &[bool],
    row: &[bool],
    index: usize,
    person: &Person,
) -> bool
    ensures { result ≡ (if slice_index_or row.now index false then passes_at (lists
        ground.entry.checked.now person.now) ground.entry.blocks.now index
        else slice_index_or passes.now index false) }
{
    if is_at(row, index) {
        lists_at(ground, index, person)
    } else {
        is_at(passes, index)
    }
}

/// Returns the indices of the blocks whose user list allows the user. The first list answers for each block at which the row is not
/// true. Returns `AllocError` if allocation fails.
pub(crate) fn listed_beside(
    alloc: Global,
    ground: Ground<'_, '_>,
    passes: &[bool],
    row: &[bool],
    person: &Person,
) -> Result<Vec<usize>, AllocError>
    requires { (i : ℕ) (b : TheBlock) → slice_get ground.blocks.now i ≡ Some b
        → slice_index_or row.now i false ≡ false
        → slice_index_or passes.now i false ≡ lists ground.checked.now person.now b }
    ensures { IfOk result (λ listed. listed.items
        ≡ indices (lists ground.entry.checked.now person.now) ground.entry.blocks.now) }
{
    let mut listed = Vec::new(alloc);
    for index in 0..ground.blocks.len() {
        let passes = passes_beside(ground, passes, row, index, person);
        push_if(&mut listed, index, passes)?;
    }
    Ok(listed)
}
