//! Chains of which the first step alone asks for a password: one of any kind leads to where a chain begins whose steps may all go without.
ghost use Rattle.std.specs.Prelude.{◌≡◌, IfOk, IsTrue, filter, get_or, is_some, length, map, not, None};
ghost use Rattle.review_roots.specs.Ranks.{is_at_least};
ghost use Rattle.review_roots.specs.Body.Found as spec;
ghost use Rattle.review_roots.specs.Body.Found.{AreDeep, AreTurned};

use crate::Level;
use crate::candidate::Candidate;
use crate::firsts::firsts_of;
use crate::given::Counted;
use crate::host::HostSteps;
use crate::layer::{draw, layer_of};
use crate::search::{Found, Sought, copied, is_left, is_none};
use std::alloc::{AllocError, Global};

// Whether the user is among those that are found.
fn is_found(starts: &[Option<usize>], user: usize) -> bool
    ensures { result ≡ is_some (get_or starts.now user None) }
{
    match starts.get(user) {
        Some(start) => start.is_some(),
        None => false,
    }
}

// Whether the candidate has no added group, and a chain may begin with it, but none whose steps may all go without a password.
fn is_asked(
    steps: &HostSteps<'_, '_>,
    target: usize,
    starts: &[Option<usize>],
    unasked: &[Option<usize>],
    candidate: &Candidate,
) -> bool
    ensures { result ≡ spec.is_asked steps.now target starts.now unasked.now candidate.now }
{
    let sought = Sought {
        target,
        counted: Counted::Any,
    };
    candidate.state.added.is_none()
        && !is_found(unasked, candidate.state.user)
        && is_left(steps, sought, starts, candidate)
}

// Returns those of the candidates.
fn asked<'r>(
    alloc: Global,
    steps: &HostSteps<'r, '_>,
    target: usize,
    starts: &[Option<usize>],
    unasked: &[Option<usize>],
) -> Result<Vec<&'r Candidate>, AllocError>
    ensures { IfOk result (λ asked. map (λ c. c.now) asked.items
        ≡ filter (spec.is_asked steps.now target starts.now unasked.now) steps.now.candidates.now) }
{
    let mut asked = Vec::new(alloc);
    for candidate in steps.candidates {
        if is_asked(steps, target, starts, unasked, candidate) {
            asked.push(candidate)?;
        }
    }
    Ok(asked)
}

/// Returns what is found by steps that may go without a password, and behind it the users without an added group from which a step, of any
/// kind, leads to one of these, by the first of such steps: of the users with a chain, but none whose steps may all go without.
///
/// Returns `AllocError` if allocation fails.
pub(crate) fn turned_of(
    alloc: Global,
    steps: &HostSteps<'_, '_>,
    target: usize,
    level: Level,
    starts: &[Option<usize>],
    unasked: &[Found],
    unasked_starts: &[Option<usize>],
) -> Result<Vec<Found>, AllocError>
    requires level { IsTrue (is_at_least steps.now.least level) }
    requires deep { AreDeep unasked.now }
    ensures { IfOk result (λ turned. AreTurned steps.now target level starts.now unasked.now
        unasked_starts.now turned.items) }
{
    let mut turned = copied(alloc, unasked)?;
    let asked = asked(alloc, steps, target, starts, unasked_starts)?;
    if is_none(&asked) {
        return Ok(turned);
    }
    let sought = Sought {
        target,
        counted: Counted::Any,
    };
    let mut firsts = firsts_of(alloc, steps)?;
    let layer = layer_of(alloc, steps, sought, level, unasked, 0, &mut firsts)?;
    draw(alloc, steps, &layer, &firsts, &asked, &mut turned)?;
    Ok(turned)
}
