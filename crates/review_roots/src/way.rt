//! A chain of steps to a target, with the row that allows its first step, and whose passwords it asks for.
ghost use Rattle.std.specs.Prelude.{◌≡◌, ◌<◌, All, IfOk, IsTrue, Some, length, slice_get};
ghost use Rattle.std.specs.List.{Contains};
ghost use Rattle.review_roots.specs.Sought.{steps_of};
ghost use Rattle.review_roots.specs.Body.Found.{AreFound, AreGiven, AreOrdered, PointBack, found_states};
ghost use Rattle.review_roots.specs.Body.Passing.{HasMarks, HasPassword, HasRow, IsAlong, IsTraced, LeadsWhole};
ghost use Rattle.review_roots.specs.Ranks.{is_at_least};
ghost use Rattle.review_roots.specs.Ways.{IsChain, password_name, step_password, worse};
ghost use Rattle.review_roots.specs.declared.search.Found.{Found as TheFound};
ghost use Rattle.review_roots.specs.declared.search.Sought.{Sought as TheSought};

use crate::Level;
use crate::given::{AllowingRow, Given};
use crate::host::HostSteps;
use crate::search::Found;
use crate::state::State;
use review_grants::{Marks, UNMARKED};
use std::alloc::{AllocError, Global};

/// Whose passwords a chain of steps asks for.
#[derive(Clone, Copy, Debug, PartialEq, Eq)]
pub enum Password {
    /// Nobody's.
    None,
    /// Perhaps one: each step allows a command that may go without.
    Maybe,
    /// That of the user with whom the chain begins, and no other's.
    Own,
    /// That of another user.
    Other,
}

/// A chain of steps to a target.
#[derive(Debug, Drop)]
pub struct Way {
    /// The least level of its steps.
    pub level: Level,
    /// The states to which the steps lead, the last one at the target.
    pub chain: Vec<State>,
    /// The last row that allows the first step.
    pub by: Option<AllowingRow>,
    /// Whose passwords its steps ask for.
    pub password: Password,
    /// The notes on which its steps depend. Without notes the level and the password are exact; otherwise they are bounds.
    pub marks: Marks,
}

impl Password {
    /// Returns the name of the answer.
    pub fn name(self) -> &'static [u8]
        ensures { result.now ≡ password_name self }
    {
        match self {
            Password::None => b"none",
            Password::Maybe => b"?",
            Password::Own => b"own",
            Password::Other => b"other",
        }
    }

    // Returns the worse of the two: another user's password, then one's own, then perhaps one.
    fn worse(self, other: Password) -> Password
        ensures { result ≡ worse self other }
    {
        match (self, other) {
            (Password::None, _) => other,
            (Password::Maybe, Password::None) => Password::Maybe,
            (Password::Maybe, _) => other,
            (Password::Other, _) | (Password::Own, Password::Other) => Password::Other,
            (Password::Own, _) => Password::Own,
        }
    }
}

// Returns whose password the step of a chain asks for that begins with a user.
fn step_password(given: Given, user: usize, from: State) -> Password
    ensures { result ≡ step_password given user from }
{
    if given.free {
        Password::None
    } else if given.unasked {
        Password::Maybe
    } else if from.user == user {
        Password::Own
    } else {
        Password::Other
    }
}

// The states to which the steps of a chain lead, whose passwords they ask for, and the notes on which they depend.
#[derive(Drop)]
struct Traced {
    chain: Vec<State>,
    password: Password,
    marks: Marks,
}

// Returns the states to which the steps of a found state lead, whose passwords they ask for in a chain that begins with the user,
// and the notes on which they depend.
fn trace(alloc: Global, found: &[Found], index: usize, user: usize) -> Result<Traced, AllocError>
    requires back { PointBack found.now }
    requires inside { index < length found.now }
    ensures leads { IfOk result (λ traced. LeadsWhole found.now index traced.chain.items) }
    ensures inside { IfOk result (λ traced. All (Contains (found_states found.now))
        traced.chain.items) }
    ensures along { IfOk result (λ traced. IsAlong found.now index traced.chain.items) }
    ensures row { IfOk result (λ traced. HasRow found.now index traced.chain.items) }
    ensures password { IfOk result (λ traced. HasPassword found.now user index traced.chain.items
        traced.password) }
    ensures marks { IfOk result (λ traced. HasMarks found.now index traced.chain.items
        traced.marks) }
{
    let mut chain = Vec::new(alloc);
    let mut password = Password::None;
    let mut marks = UNMARKED;
    let mut at = index;
    while let Some(next) = found[at].next {
        let Found {
            state,
            steps: _,
            next: _,
            given,
        } = found[at];
        password = password.worse(step_password(given, user, state));
        marks = marks.joined(given.marks);
        chain.push(found[next].state)?;
        at = next;
    }
    Ok(Traced {
        chain,
        password,
        marks,
    })
}

/// Returns the chain of a found state, of the level of those that are found. Returns `AllocError` if allocation fails.
pub(crate) fn way_of(
    alloc: Global,
    steps: &HostSteps<'_, '_>,
    level: Level,
    found: &[Found],
    index: usize,
) -> Result<Way, AllocError>
    requires level { IsTrue (is_at_least steps.now.least level) }
    requires back { PointBack found.now }
    requires given { AreGiven steps.now found.now }
    requires inside { index < length found.now }
    ensures chain { IfOk result (λ way. (way.level ≡ level) × ((q : TheSought) (f : TheFound)
        → AreFound (steps_of steps.now q) steps.now.states.now level found.now
        → AreOrdered steps.now q level found.now → slice_get found.now index ≡ Some f
        → IsChain steps.now q f.state way)) }
    ensures traced { IfOk result (λ way. IsTraced steps.now found.now index way) }
{
    let Found {
        state,
        steps: _,
        next: _,
        given,
    } = found[index];
    let Traced {
        chain,
        password,
        marks,
    } = trace(alloc, found, index, state.user)?;
    Ok(Way {
        level,
        chain,
        by: given.by,
        password,
        marks,
    })
}
