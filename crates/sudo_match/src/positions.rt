//! The positions of the groups of users.
ghost use Rattle.std.specs.Prelude.{◌≡◌, IfOk, slice_get, option_and_then};
ghost use Rattle.std.specs.Option.{option_copied};
ghost use Rattle.sudo_match.specs.Body.Indexing.{ArePositions};
ghost use Rattle.sudo_match.specs.KnownRows.{groups_of};

use crate::{Group, Person};
use std::alloc::{AllocError, Global};

/// The position of a group: the index of its user, and its index among the groups of that user.
#[derive(Clone, Copy, Debug, PartialEq, Eq)]
pub(crate) struct GroupPosition {
    user: usize,
    at: usize,
}

/// Returns the positions of all groups of all users, in order.
pub(crate) fn positions_of(
    alloc: Global,
    people: &[Person],
) -> Result<Vec<GroupPosition>, AllocError>
    ensures { IfOk result (λ positions. ArePositions people.now positions.items) }
{
    let mut positions = Vec::new(alloc);
    for (user, person) in people.iter().enumerate() {
        for at in 0..person.groups.len() {
            positions.push(GroupPosition { user, at })?;
        }
    }
    Ok(positions)
}

/// Returns the group at an index among all groups, or `None` if the index is past the last one.
pub(crate) fn group_at<'a>(
    people: &'a [Person],
    positions: &[GroupPosition],
    index: usize,
) -> Option<&'a Group>
    requires { ArePositions people.now positions.now }
    ensures { option_copied result ≡ slice_get (groups_of people.now) index }
{
    let position = *positions.get(index)?;
    let person = people.get(position.user)?;
    person.groups.get(position.at)
}

/// Returns the group at an index that was looked up, or `None` if there is none.
pub(crate) fn group_found<'a>(
    people: &'a [Person],
    positions: &[GroupPosition],
    index: Option<usize>,
) -> Option<&'a Group>
    requires { ArePositions people.now positions.now }
    ensures { option_copied result ≡ option_and_then (slice_get (groups_of people.now)) index }
{
    group_at(people, positions, index?)
}
