//! Who a user can be on the way to a target.
ghost use Rattle.std.specs.Prelude.{◌≡◌, ◌++◌, IfOk, OnOk, length, option_copied};
ghost use Rattle.review_roots.specs.States.{group_at, states_with, with_added};

use std::alloc::{AllocError, Global};
use sudo_match::{Group, Person};
use sudo_text::Seq;

/// A user with at most one added group: who one can be on the way to a target, since `sudo -g` adds a group.
#[derive(Clone, Copy, Debug, PartialEq, Eq)]
pub struct State {
    /// The index of the user among the known ones.
    pub user: usize,
    /// The index of the added group, if any, among the groups that may be added.
    pub added: Option<usize>,
}

/// Returns the added group, if any.
pub(crate) fn group_at(groups: &[Group], added: Option<usize>) -> Option<&Group>
    ensures { option_copied result ≡ group_at groups.now added }
{
    match added {
        None => None,
        Some(index) => groups.get(index),
    }
}

/// Returns a copy of a group. Returns `AllocError` if allocation fails.
pub(crate) fn group_copied(alloc: Global, group: &Group) -> Result<Group, AllocError>
    ensures { IfOk result (λ copy. copy ≡ group.now) }
{
    Ok(Group {
        name: Seq::from_slice(alloc, group.name.as_slice())?,
        gid: group.gid,
    })
}

// Returns copies of the groups.
fn groups_copied(alloc: Global, groups: &[Group]) -> Result<Vec<Group>, AllocError>
    ensures { IfOk result (λ copies. copies.items ≡ groups.now) }
{
    let mut copies = Vec::new(alloc);
    for group in groups {
        copies.push(group_copied(alloc, group)?)?;
    }
    Ok(copies)
}

/// Returns a copy of the user, with the added group, if any, behind its groups. Returns `AllocError` if allocation fails.
pub(crate) fn with_added(
    alloc: Global,
    person: &Person,
    added: Option<&Group>,
) -> Result<Person, AllocError>
    ensures { IfOk result (λ copy. copy ≡ with_added person.now (option_copied added.entry)) }
{
    let mut groups = groups_copied(alloc, person.groups.as_slice())?;
    if let Some(group) = added {
        groups.push(group_copied(alloc, group)?)?;
    }
    Ok(Person {
        name: Seq::from_slice(alloc, person.name.as_slice())?,
        uid: person.uid,
        groups: Seq::from_vec(groups),
    })
}

/// Appends each user with this added group, if any. Returns `AllocError` if allocation fails.
pub(crate) fn push_states(
    users: usize,
    added: Option<usize>,
    states: &mut Vec<State>,
) -> Result<(), AllocError>
    ensures { OnOk result (states.new.items ≡ states.old.items ++ states_with users added) }
{
    for user in 0..users {
        states.push(State { user, added })?;
    }
    Ok(())
}
