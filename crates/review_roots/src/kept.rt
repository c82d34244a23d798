//! States that stand for all: of the added groups that no list names, a user keeps one that it has and one that it lacks.
ghost use Rattle.std.specs.Prelude.{◌≡◌, ◌++◌, IfOk, OnOk, find, not, option_copied};
ghost use Rattle.review_roots.specs.Body.Deciding.{is_called};
ghost use Rattle.review_roots.specs.Body.Kept as spec;

use crate::cut::Cut;
use crate::state::{State, push_states};
use crate::unnamed::{SplitGroups, split_groups};
use std::alloc::{AllocError, Global};
use sudo_match::{Directory, Group, Person};

// Whether there is a group at the index, and the user has it.
fn has_at(person: &Person, groups: &[Group], index: usize) -> bool
    ensures { result ≡ spec.has_at person.now groups.now index }
{
    match groups.get(index) {
        Some(group) => person.has_gid(group.gid),
        None => false,
    }
}

// Returns the first index of a group that the user has.
fn first_had(person: &Person, groups: &[Group], indices: &[usize]) -> Option<usize>
    ensures { result ≡ find (spec.has_at person.now groups.now) indices.now }
{
    indices
        .iter()
        .copied()
        .find(|index| has_at(person, groups, *index))
}

// Returns the first index of a group that the user lacks.
fn first_lacked(person: &Person, groups: &[Group], indices: &[usize]) -> Option<usize>
    ensures { result ≡ find (λ i. not (spec.has_at person.now groups.now i)) indices.now }
{
    indices
        .iter()
        .copied()
        .find(|index| !has_at(person, groups, *index))
}

// Appends the user with each of these added groups.
fn push_each(user: usize, indices: &[usize], states: &mut Vec<State>) -> Result<(), AllocError>
    ensures { OnOk result (states.new.items ≡ states.old.items ++ spec.states_by user indices.now) }
{
    for index in indices {
        states.push(State {
            user,
            added: Some(*index),
        })?;
    }
    Ok(())
}

// Appends the user with the added group, if any.
fn push_any(user: usize, index: Option<usize>, states: &mut Vec<State>) -> Result<(), AllocError>
    ensures { OnOk result (states.new.items
        ≡ states.old.items ++ spec.states_by user (spec.if_any index)) }
{
    if let Some(index) = index {
        states.push(State {
            user,
            added: Some(index),
        })?;
    }
    Ok(())
}

// Appends the states of a user with an added group that are kept.
fn push_kept(
    user: usize,
    person: &Person,
    groups: &[Group],
    split: &SplitGroups,
    states: &mut Vec<State>,
) -> Result<(), AllocError>
    ensures { OnOk result (states.new.items ≡ states.old.items
        ++ spec.states_by user (spec.kept_groups person.now groups.now
        split.now.named.items split.now.unnamed.items)) }
{
    push_each(user, &split.named, states)?;
    push_any(user, first_had(person, groups, &split.unnamed), states)?;
    push_any(user, first_lacked(person, groups, &split.unnamed), states)
}

// Whether the user has the name, if there is one.
fn is_called(name: Option<&[u8]>, person: &Person) -> bool
    ensures { result ≡ is_called (option_copied name.entry) person.now }
{
    let Some(name) = name else {
        return false;
    };
    name == person.name.as_slice()
}

// Appends the same, where the groups are split for the user of the name, and for the others.
fn push_split(
    user: usize,
    person: &Person,
    groups: &[Group],
    name: Option<&[u8]>,
    own: &SplitGroups,
    others: &SplitGroups,
    states: &mut Vec<State>,
) -> Result<(), AllocError>
    ensures { OnOk result (states.new.items ≡ states.old.items
        ++ spec.states_by user (spec.kept_groups person.now groups.now
        (spec.named_for (option_copied name.entry) own.now others.now person.now)
        (spec.unnamed_for (option_copied name.entry) own.now others.now person.now))) }
{
    if is_called(name, person) {
        push_kept(user, person, groups, own, states)
    } else {
        push_kept(user, person, groups, others, states)
    }
}

// Returns the states that are kept, where the groups are split.
fn kept_by(
    alloc: Global,
    directory: &Directory,
    groups: &[Group],
    name: Option<&[u8]>,
    own: &SplitGroups,
    others: &SplitGroups,
) -> Result<Vec<State>, AllocError>
    ensures { IfOk result (λ states. states.items ≡ spec.kept_by directory.now groups.now
        (spec.named_for (option_copied name.entry) own.now others.now)
        (spec.unnamed_for (option_copied name.entry) own.now others.now)) }
{
    let people = directory.people();
    let mut states = Vec::new(alloc);
    push_states(people.len(), None, &mut states)?;
    for user in 0..people.len() {
        push_split(user, &people[user], groups, name, own, others, &mut states)?;
    }
    Ok(states)
}

/// Whether few states are kept: at most four or so for each user.
pub(crate) fn are_few(users: usize, states: &[State]) -> bool {
    states.len() / 4 <= users
}

// The bytes that may be taken by what steps to the states depend on.
const ROOM: usize = 40_000_000;

/// Whether there is room for what steps to each state depend on: a byte for each block, and some more.
pub(crate) fn have_room(states: &[State], blocks: usize) -> bool {
    blocks < ROOM && states.len() < ROOM / (blocks + 200)
}

/// Returns states that stand for all on the way to a target: each user without an added group; with each added group that has one of
/// the IDs for it; and with the first other one that the user has, and the first that it lacks. Returns `AllocError` if allocation fails.
pub(crate) fn kept_states(
    alloc: Global,
    directory: &Directory,
    groups: &[Group],
    cut: &Cut<'_>,
) -> Result<Vec<State>, AllocError>
    ensures { IfOk result (λ states. states.items
        ≡ spec.kept_states directory.now groups.now (spec.ids_by cut.now)) }
{
    let own = split_groups(alloc, &cut.own_ids, groups)?;
    let others = split_groups(alloc, &cut.ids, groups)?;
    kept_by(alloc, directory, groups, cut.name, &own, &others)
}
