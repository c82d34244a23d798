//! The order of states: by the names of their users, and of one user by the added groups.
ghost use Rattle.std.specs.Prelude.{◌≡◌, OnOk};
ghost use Rattle.review_roots.specs.Body.Candidates.{has_state};
ghost use Rattle.review_roots.specs.declared.state.State.{State as TheState};
ghost use Rattle.review_roots.specs.Order.{IsInOrder};
ghost use Rattle.review_roots.specs.Order as spec;

use crate::state::State;
use std::alloc::AllocError;
use std::cmp::Ordering;
use sudo_match::Directory;

/// Returns the name of the known user of an index, or no bytes.
pub fn user_name(directory: &Directory, user: usize) -> &[u8]
    ensures { result.now ≡ spec.user_name directory.now user }
{
    match directory.people().get(user) {
        Some(person) => person.name.as_slice(),
        None => &[],
    }
}

// Compares two states by the names of their users, and then by their added groups.
fn compare(directory: &Directory, one: State, other: State) -> Ordering
    ensures { result ≡ spec.state_cmp directory.now one other }
{
    let (name, other_name) = (
        user_name(directory, one.user),
        user_name(directory, other.user),
    );
    match name.cmp(other_name) {
        Ordering::Equal => one.added.cmp(&other.added),
        ordering => ordering,
    }
}

/// Sorts states into their order. Returns `AllocError` if allocation fails.
pub(crate) fn sort_states(directory: &Directory, states: &mut Vec<State>) -> Result<(), AllocError>
    ensures same { (s : TheState) → has_state states.new.items s ≡ has_state states.old.items s }
    ensures sorted { OnOk result (IsInOrder directory.now states.new.items) }
{
    states.sort_by(|one, other| compare(directory, *one, *other))
}
