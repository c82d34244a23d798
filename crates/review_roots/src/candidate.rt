//! Users that may take steps, with what is known of each on all hosts.
ghost use Rattle.std.specs.Prelude.{◌≡◌, [], IfOk, OnOk, Some, None, bytes_eq, true};
ghost use Rattle.sudo_verdict.specs.RunasForms as form;
ghost use Rattle.review_roots.specs.Blocks.{lists};
ghost use Rattle.review_roots.specs.Body.Candidates as spec;
ghost use Rattle.review_roots.specs.Body.Naming.{AreRows, IsBase, row_at};
ghost use Rattle.review_roots.specs.Body.Raising.{indices};
ghost use Rattle.review_roots.specs.Body.Towards.{HasStrong, IsToward};
ghost use Rattle.review_roots.specs.States.{person_of};
ghost use Rattle.review_roots.specs.declared.candidate.Candidate.{Candidate as TheCandidate};
ghost use Rattle.review_roots.specs.declared.toward.Toward.{Toward as TheToward};

use crate::Level;
use crate::base::{Base, listed_beside, lists_at, passes_of, set_base};
use crate::block::Block;
use crate::ground::Ground;
use crate::raising::push_if;
use crate::state::{State, group_at, with_added};
use crate::steps::is_at;
use crate::toward::{Toward, beside, toward_at};
use std::alloc::{AllocError, Global};
use sudo_match::Person;

/// A user with its added group, if any: the indices of the blocks whose user list allows it, and of those of them that raise;
/// and what steps to it depend on, if that is kept.
#[derive(Drop)]
pub(crate) struct Candidate {
    pub(crate) state: State,
    pub(crate) person: Person,
    pub(crate) listed: Vec<usize>,
    pub(crate) strong: Vec<usize>,
    pub(crate) toward: Option<Toward>,
}

// Whether two texts may be the same by their last bytes, by which names differ more often than by their first.
fn may_be_same(one: &[u8], other: &[u8]) -> bool
    ensures { one.now ≡ other.now → result ≡ true }
{
    match (one.last(), other.last()) {
        (Some(end), Some(other_end)) => end == other_end,
        _ => true,
    }
}

/// Whether two names are the same.
pub(crate) fn is_same_name(one: &[u8], other: &[u8]) -> bool
    ensures { result ≡ bytes_eq one.now other.now }
{
    may_be_same(one, other) && one == other
}

/// Whether two users have one name.
pub(crate) fn is_same_user(one: &Person, other: &Person) -> bool
    ensures { result ≡ form.is_same_user one.now other.now }
{
    is_same_name(one.name.as_slice(), other.name.as_slice())
}

// Whether no index is listed.
fn is_none(indices: &[usize]) -> bool
    ensures { result ≡ true → indices.now ≡ [] }
{
    match indices {
        [] => true,
        _ => false,
    }
}

// Returns the indices of the blocks whose user list allows the user.
fn listed_of(
    alloc: Global,
    ground: Ground<'_, '_>,
    person: &Person,
) -> Result<Vec<usize>, AllocError>
    ensures { IfOk result (λ listed. listed.items
        ≡ indices (lists ground.entry.checked.now person.now) ground.entry.blocks.now) }
{
    let passes = passes_of(alloc, ground, person)?;
    let mut listed = Vec::new(alloc);
    for index in 0..ground.blocks.len() {
        push_if(&mut listed, index, is_at(&passes, index))?;
    }
    Ok(listed)
}

// Returns the row of the added group; without one, an empty row.
fn row_for(rows: &[Vec<bool>], added: Option<usize>) -> &[bool]
    ensures { result.now ≡ row_at rows.now added }
{
    let Some(index) = added else {
        return &[];
    };
    match rows.get(index) {
        Some(row) => row.as_slice(),
        None => &[],
    }
}

// Returns the indices of the blocks whose user list allows the user of a state. A block that does not name the added group is not
// looked up again: it lists the user as it does without the group.
fn listed_by(
    alloc: Global,
    ground: Ground<'_, '_>,
    rows: &[Vec<bool>],
    base: &Base,
    state: State,
    person: &Person,
) -> Result<Vec<usize>, AllocError>
    requires rows { AreRows ground.checked.now ground.blocks.now ground.groups.now rows.now }
    requires base { IsBase ground.checked.now ground.directory.now ground.blocks.now base.now }
    requires user { base.now.user ≡ state.user }
    requires person { person_of ground.directory.now ground.groups.now state
        ≡ Some person.now }
    ensures { IfOk result (λ listed. listed.items
        ≡ indices (lists ground.entry.checked.now person.now) ground.entry.blocks.now) }
{
    listed_beside(
        alloc,
        ground,
        &base.passes,
        row_for(rows, state.added),
        person,
    )
}

// Returns the indices of the blocks that raise, and whose user list allows the user.
fn strong_of(
    alloc: Global,
    ground: Ground<'_, '_>,
    person: &Person,
) -> Result<Vec<usize>, AllocError>
    ensures { IfOk result (λ strong. strong.items ≡ indices (spec.raises_for
        ground.entry.checked.now ground.entry.least person.now) ground.entry.blocks.now) }
{
    let mut strong = Vec::new(alloc);
    for index in ground.raising {
        let passes = lists_at(ground, *index, person);
        push_if(&mut strong, *index, passes)?;
    }
    Ok(strong)
}

// Returns the user of a state, with its added group, or `None` if it is unknown.
fn person_at(
    alloc: Global,
    ground: Ground<'_, '_>,
    state: State,
) -> Result<Option<Person>, AllocError>
    ensures { IfOk result (λ person. person
        ≡ person_of ground.entry.directory.now ground.entry.groups.now state) }
{
    let Some(person) = ground.directory.people().get(state.user) else {
        return Ok(None);
    };
    let group = group_at(ground.groups, state.added);
    Ok(Some(with_added(alloc, person, group)?))
}

// Returns what steps to a state depend on, if it has no added group, or that is kept for others too.
fn kept_toward(
    alloc: Global,
    ground: Ground<'_, '_>,
    base: &Base,
    state: State,
) -> Result<Option<Toward>, AllocError>
    requires base { IsBase ground.checked.now ground.directory.now ground.blocks.now base.now }
    requires user { base.now.user ≡ state.user }
    ensures toward { IfOk result (λ kept. (t : TheToward) → kept ≡ Some t → IsToward
        ground.entry.checked.now ground.entry.directory.now ground.entry.groups.now
        ground.entry.blocks.now state t) }
    ensures strong { IfOk result (λ kept. (t : TheToward) → kept ≡ Some t → HasStrong
        ground.entry.least ground.entry.blocks.now t) }
{
    if state.added.is_some() && !ground.keeps {
        return Ok(None);
    }
    let toward = toward_at(alloc, ground, state)?;
    Ok(Some(beside(toward, &base.allowed)))
}

/// Returns what the steps from a state depend on, or `None` if its user is unknown. Returns `AllocError` if allocation fails.
pub(crate) fn candidate_at(
    alloc: Global,
    ground: Ground<'_, '_>,
    state: State,
) -> Result<Option<Candidate>, AllocError>
    ensures known { IfOk result (λ found. (c : TheCandidate) → found ≡ Some c
        → (c.state ≡ state) × spec.Qualifies ground.entry.checked.now ground.entry.directory.now
        ground.entry.groups.now ground.entry.least ground.entry.blocks.now c) }
    ensures unknown { IfOk result (λ found. found ≡ None
        → person_of ground.entry.directory.now ground.entry.groups.now state ≡ None) }
{
    let Some(person) = person_at(alloc, ground, state)? else {
        return Ok(None);
    };
    let listed = listed_of(alloc, ground, &person)?;
    let strong = strong_of(alloc, ground, &person)?;
    Ok(Some(Candidate {
        state,
        person,
        listed,
        strong,
        toward: None,
    }))
}

/// Returns the same for a state that a block which raises lists, or whose user has ID 0, and `None` for any other. Returns
/// `AllocError` if allocation fails.
pub(crate) fn hopeful(
    alloc: Global,
    ground: Ground<'_, '_>,
    rows: &[Vec<bool>],
    base: &mut Base,
    state: State,
) -> Result<Option<Candidate>, AllocError>
    requires rows { AreRows ground.checked.now ground.blocks.now ground.groups.now rows.now }
    requires base { IsBase ground.checked.now ground.directory.now ground.blocks.now base.now }
    ensures base { OnOk result (IsBase ground.entry.checked.now ground.entry.directory.now
        ground.entry.blocks.now base.new) }
    ensures known { IfOk result (λ found. (c : TheCandidate) → found ≡ Some c
        → (c.state ≡ state) × spec.Qualifies ground.entry.checked.now ground.entry.directory.now
        ground.entry.groups.now ground.entry.least ground.entry.blocks.now c) }
    ensures unknown { IfOk result (λ found. found ≡ None
        → spec.IsSilent ground.entry.checked.now ground.entry.directory.now
        ground.entry.groups.now ground.entry.least ground.entry.blocks.now state) }
{
    let Some(person) = person_at(alloc, ground, state)? else {
        return Ok(None);
    };
    let strong = strong_of(alloc, ground, &person)?;
    if is_none(&strong) && person.uid != 0 {
        return Ok(None);
    }
    set_base(alloc, ground, state.user, base)?;
    let listed = listed_by(alloc, ground, rows, base, state, &person)?;
    let toward = kept_toward(alloc, ground, base, state)?;
    Ok(Some(Candidate {
        state,
        person,
        listed,
        strong,
        toward,
    }))
}
