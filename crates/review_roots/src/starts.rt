//! Where each user is among the found states.
ghost use Rattle.std.specs.Prelude.{◌≡◌, ◌<◌, IfOk, List, None, get_or, length, ℕ};
ghost use Rattle.review_roots.specs.Body.Found.{AreStarts, AreStartsBefore, IsFoundAt, with_start};
ghost use Rattle.review_roots.specs.declared.search.Found.{Found as TheFound};

use crate::search::Found;
use crate::state::State;
use std::alloc::{AllocError, Global};

// Returns so many users that are not found.
fn no_starts(alloc: Global, users: usize) -> Result<Vec<Option<usize>>, AllocError>
    ensures known { IfOk result (λ starts. length starts.items ≡ users) }
    ensures none { IfOk result (λ starts. (user : ℕ) → get_or starts.items user None ≡ None) }
{
    let mut starts = Vec::new(alloc);
    for _ in 0..users {
        starts.push(None)?;
    }
    Ok(starts)
}

// Notes the index of a found state, if it has no added group.
fn set_start(starts: &mut [Option<usize>], state: State, index: usize)
    ensures { starts.new ≡ with_start starts.old state index }
{
    if state.added.is_none() && state.user < starts.len() {
        starts[state.user] = Some(index);
    }
}

// Notes the indices of the found states that have no added group.
fn set_starts(starts: &mut [Option<usize>], found: &[Found])
    requires none { AreStartsBefore found.now 0 starts.old }
    ensures known { length starts.new ≡ length starts.old }
    ensures starts { AreStarts found.now starts.new }
{
    for index in 0..found.len() {
        set_start(starts, found[index].state, index);
    }
}

/// Returns for each user the index of its found state without an added group, if it is found. Returns `AllocError` if allocation
/// fails.
pub(crate) fn starts_of(
    alloc: Global,
    users: usize,
    found: &[Found],
) -> Result<Vec<Option<usize>>, AllocError>
    ensures known { IfOk result (λ starts. length starts.items ≡ users) }
    ensures starts { IfOk result (λ starts. AreStarts found.now starts.items) }
{
    let mut starts = no_starts(alloc, users)?;
    set_starts(starts.as_mut_slice(), found);
    Ok(starts)
}

/// Returns the index of the user without an added group among the found states, or `None` if it is not found.
pub(crate) fn start_at(starts: &[Option<usize>], user: usize) -> Option<usize>
    requires { user < length starts.now }
    ensures { (found : List TheFound) → AreStarts found starts.now → IsFoundAt found user result }
{
    starts[user]
}
