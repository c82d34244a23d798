//! The search for the states that lead to a target: back from the target, level by level.
ghost use Rattle.std.specs.Prelude.{◌≡◌, ◌<◌, ◌+◌, ◌++◌, ◌==◌, [], IfOk, OnOk, IsTrue, All, filter, length, map, not, true};
ghost use Rattle.std.specs.Prelude.{None, Some, false};
ghost use Rattle.review_roots.specs.Sought.{steps_of};
ghost use Rattle.review_roots.specs.Body.Candidates.{states_of};
ghost use Rattle.review_roots.specs.Body.Found.{AreDeep, AreFound, AreGiven, AreOrdered, HaveNoChain, IsCandidate, IsDrawn};
ghost use Rattle.review_roots.specs.Body.Found.{IsSearch};
ghost use Rattle.review_roots.specs.Body.Found.{found_there, is_left, kept_steps, may_start, reaches};
ghost use Rattle.review_roots.specs.Body.Towards.{IsToward};
ghost use Rattle.review_roots.specs.Ranks.{is_at_least};
ghost use Rattle.review_roots.specs.Ways.{step_on};
ghost use Rattle.review_roots.specs.declared.given.Given.{Given as TheGiven};
ghost use Rattle.review_roots.specs.declared.level.Level.{Level as TheLevel};

use crate::Level;
use crate::candidate::Candidate;
use crate::firsts::firsts_of;
use crate::given::{Counted, Given, NOTHING};
use crate::host::HostSteps;
use crate::layer::{draw, layer_of};
use crate::state::State;
use crate::toward::Toward;
use std::alloc::{AllocError, Global};

/// A state from which a chain of steps leads to the target: the number of its steps; the index of the found state to which the first
/// one leads, or none if the state is at the target; and what that step gives.
#[derive(Clone, Copy, Debug, PartialEq, Eq)]
pub(crate) struct Found {
    pub(crate) state: State,
    pub(crate) steps: usize,
    pub(crate) next: Option<usize>,
    pub(crate) given: Given,
}

/// What is sought: the steps to the target that count.
#[derive(Clone, Copy)]
pub(crate) struct Sought {
    pub(crate) target: usize,
    pub(crate) counted: Counted,
}

/// A found state to which steps are sought: its index, the state, the level of the steps, which of them count, and how many steps a
/// chain has that begins with one.
#[derive(Clone, Copy)]
pub(crate) struct Aim {
    pub(crate) index: usize,
    pub(crate) state: State,
    pub(crate) level: Level,
    pub(crate) counted: Counted,
    pub(crate) steps: usize,
}

/// Returns what the step of the candidate to the state of the aim gives, if it has the level or a better one.
pub(crate) fn reached(
    steps: &HostSteps<'_, '_>,
    aim: Aim,
    toward: &Toward,
    candidate: &Candidate,
) -> Option<Given>
    requires level { IsTrue (is_at_least steps.now.least aim.level) }
    requires candidate { IsCandidate steps.now candidate.now }
    requires state { toward.now.state ≡ aim.state }
    requires toward { IsToward steps.now.checked.now steps.now.directory.now steps.now.groups.now
        steps.now.blocks.now toward.now.state toward.now }
    ensures given { (given : TheGiven) → result ≡ Some given
        → (reaches steps.now aim candidate.now ≡ true)
        × (given ≡ step_on steps.now candidate.now.state aim.state) }
    ensures none { result ≡ None → reaches steps.now aim candidate.now ≡ false }
{
    if steps.is_barred(candidate, toward) {
        return None;
    }
    let given = steps.step_toward(candidate, toward);
    let level = given.level_for(aim.counted);
    if level.is_at_least(aim.level) {
        Some(given)
    } else {
        None
    }
}

/// Whether no candidate is left.
pub(crate) fn is_none(left: &[&Candidate]) -> bool
    ensures { result ≡ true → left.now ≡ [] }
{
    match left {
        [] => true,
        _ => false,
    }
}

// Finds the candidates from which steps of the level, or of a better one, lead to what is found, those with the shortest chains first,
// each with the first of its shortest chains, and returns the others.
fn spread<'c>(
    alloc: Global,
    steps: &HostSteps<'_, '_>,
    sought: Sought,
    level: Level,
    left: Vec<&'c Candidate>,
    found: &mut Vec<Found>,
) -> Result<Vec<&'c Candidate>, AllocError>
    requires level { IsTrue (is_at_least steps.now.least level) }
    requires candidates { All (IsCandidate steps.now) (map (λ c. c.now) left.items) }
    requires given { AreGiven steps.now found.old.items }
    requires deep { AreDeep found.old.items }
    ensures candidates { IfOk result (λ rest. All (IsCandidate steps.now)
        (map (λ c. c.now) rest.items)) }
    ensures given { OnOk result (AreGiven steps.now found.new.items) }
    ensures deep { OnOk result (AreDeep found.new.items) }
    ensures search { IfOk result (λ rest. (k : TheLevel) → IsSearch steps.now.directory.now
        (kept_steps steps.now sought) k level 0 found.old.items
        (states_of (map (λ c. c.now) left.entry.items))
        → IsSearch steps.now.directory.now (kept_steps steps.now sought) k level
        (length found.new.items) found.new.items (states_of (map (λ c. c.now) rest.items))) }
{
    let mut firsts = firsts_of(alloc, steps)?;
    let mut left = left;
    let mut start = 0;
    while start < found.len() {
        if is_none(&left) {
            return Ok(left);
        }
        let layer = layer_of(alloc, steps, sought, level, found, start, &mut firsts)?;
        start = found.len();
        left = draw(alloc, steps, &layer, &firsts, &left, found)?;
    }
    Ok(left)
}

// Returns the kept states at the target. Returns `AllocError` if allocation fails.
fn found_at(
    alloc: Global,
    steps: &HostSteps<'_, '_>,
    target: usize,
) -> Result<Vec<Found>, AllocError>
    ensures { IfOk result (λ found. found.items ≡ map found_there
        (filter (λ s. s.user == target) steps.now.states.now)) }
{
    let mut found = Vec::new(alloc);
    for state in steps.states {
        if state.user == target {
            found.push(Found {
                state: *state,
                steps: 0,
                next: None,
                given: NOTHING,
            })?;
        }
    }
    Ok(found)
}

// Whether a chain may begin with the state, where each user that has a chain has a start: the state has an added group, or a start.
fn may_start(starts: &[Option<usize>], state: State) -> bool
    ensures { result ≡ may_start starts.now state }
{
    match starts.get(state.user) {
        Some(None) => state.added.is_some(),
        _ => true,
    }
}

/// Whether the candidate is left: a chain may begin with it, it is not the target, a block on the host that raises lists it, and one of
/// its steps that count may have the least level. The last is not looked up where few are left: where listed commands do not count, and
/// few states are kept.
pub(crate) fn is_left(
    steps: &HostSteps<'_, '_>,
    sought: Sought,
    starts: &[Option<usize>],
    candidate: &Candidate,
) -> bool
    ensures { result ≡ is_left steps.now sought starts.now candidate.now }
{
    may_start(starts, candidate.state)
        && steps.is_heard(sought.target, candidate)
        && ((steps.few && steps.least.is_at_least(Level::AllBut))
            || steps.may_count(candidate, sought.counted))
}

// Returns the candidates with which a chain may begin, and of which a step that counts may have the least level, but for the target.
fn heard<'r>(
    alloc: Global,
    steps: &HostSteps<'r, '_>,
    sought: Sought,
    starts: &[Option<usize>],
) -> Result<Vec<&'r Candidate>, AllocError>
    ensures { IfOk result (λ left. map (λ c. c.now) left.items
        ≡ filter (is_left steps.now sought starts.now) steps.now.candidates.now) }
{
    let mut left = Vec::new(alloc);
    for candidate in steps.candidates {
        if is_left(steps, sought, starts, candidate) {
            left.push(candidate)?;
        }
    }
    Ok(left)
}

/// What a search leaves: the states that are found, and the candidates that are left.
#[derive(Drop)]
pub(crate) struct Reach<'c> {
    pub(crate) found: Vec<Found>,
    pub(crate) left: Vec<&'c Candidate>,
}

/// Returns the states from which a chain of the steps that count, of the level or a better one, leads to the target, each with a
/// shortest such chain, of several the first; and the candidates that are left. A user without a start is passed over.
///
/// Returns `AllocError` if allocation fails.
pub(crate) fn spread_of<'r>(
    alloc: Global,
    steps: &HostSteps<'r, '_>,
    sought: Sought,
    level: Level,
    starts: &[Option<usize>],
) -> Result<Reach<'r>, AllocError>
    requires level { IsTrue (is_at_least steps.now.least level) }
    ensures candidates { IfOk result (λ spread. All (IsCandidate steps.now)
        (map (λ c. c.now) spread.left.items)) }
    ensures given { IfOk result (λ spread. AreGiven steps.now spread.found.items) }
    ensures deep { IfOk result (λ spread. AreDeep spread.found.items) }
    ensures search { IfOk result (λ spread. (k : TheLevel) → is_at_least steps.now.least k ≡ true
        → is_at_least k level ≡ true → HaveNoChain steps.now sought.target k starts.now
        → IsSearch steps.now.directory.now (kept_steps steps.now sought) k level
        (length spread.found.items) spread.found.items
        (states_of (map (λ c. c.now) spread.left.items))) }
{
    let mut found = found_at(alloc, steps, sought.target)?;
    let left = heard(alloc, steps, sought, starts)?;
    let rest = spread(alloc, steps, sought, level, left, &mut found)?;
    Ok(Reach { found, left: rest })
}

/// Returns the states from which a chain of the steps that count, of the level or a better one, leads to the target, each with a
/// shortest such chain, of several the first. A user without a start is passed over.
///
/// Returns `AllocError` if allocation fails.
pub(crate) fn found_of(
    alloc: Global,
    steps: &HostSteps<'_, '_>,
    sought: Sought,
    level: Level,
    starts: &[Option<usize>],
) -> Result<Vec<Found>, AllocError>
    requires level { IsTrue (is_at_least steps.now.least level) }
    requires starts { HaveNoChain steps.now sought.target level starts.now }
    ensures found { IfOk result (λ found. AreFound (steps_of steps.now sought) steps.now.states.now
        level found.items) }
    ensures given { IfOk result (λ found. AreGiven steps.now found.items) }
    ensures deep { IfOk result (λ found. AreDeep found.items) }
    ensures order { IfOk result (λ found. AreOrdered steps.now sought level found.items) }
{
    let Reach { found, left: _ } = spread_of(alloc, steps, sought, level, starts)?;
    Ok(found)
}

/// Returns copies of found states. Returns `AllocError` if allocation fails.
pub(crate) fn copied(alloc: Global, found: &[Found]) -> Result<Vec<Found>, AllocError>
    ensures { IfOk result (λ copies. copies.items ≡ found.now) }
{
    let mut copies = Vec::new(alloc);
    for state in found {
        copies.push(*state)?;
    }
    Ok(copies)
}

// Whether a candidate has a step to the aim.
fn is_reached(steps: &HostSteps<'_, '_>, aim: Aim, toward: &Toward, left: &[&Candidate]) -> bool
    requires level { IsTrue (is_at_least steps.now.least aim.level) }
    requires candidates { All (IsCandidate steps.now) (map (λ c. c.now) left.now) }
    requires state { toward.now.state ≡ aim.state }
    requires toward { IsToward steps.now.checked.now steps.now.directory.now steps.now.groups.now
        steps.now.blocks.now toward.now.state toward.now }
    ensures { result ≡ false → All (λ c. reaches steps.now aim c.now ≡ false) left.now }
{
    for candidate in left {
        match reached(steps, aim, toward, candidate) {
            Some(_) => return true,
            None => {}
        }
    }
    false
}

// Whether a candidate has a step to the aim. Returns `AllocError` if allocation fails.
fn is_reached_by(
    alloc: Global,
    steps: &HostSteps<'_, '_>,
    aim: Aim,
    left: &[&Candidate],
) -> Result<bool, AllocError>
    requires level { IsTrue (is_at_least steps.now.least aim.level) }
    requires candidates { All (IsCandidate steps.now) (map (λ c. c.now) left.now) }
    ensures { IfOk result (λ is. is ≡ false
        → All (λ c. reaches steps.now aim c.now ≡ false) left.now) }
{
    match steps.known_toward(aim.state) {
        Some(toward) => Ok(is_reached(steps, aim, toward, left)),
        None => {
            let toward = steps.toward(alloc, aim.state)?;
            Ok(is_reached(steps, aim, &toward, left))
        }
    }
}

/// Whether a candidate that is left has a step of the level, or a better one, to what is found. Returns `AllocError` if allocation
/// fails.
pub(crate) fn has_step(
    alloc: Global,
    steps: &HostSteps<'_, '_>,
    sought: Sought,
    level: Level,
    spread: &Reach<'_>,
) -> Result<bool, AllocError>
    requires level { IsTrue (is_at_least steps.now.least level) }
    requires candidates { All (IsCandidate steps.now) (map (λ c. c.now) spread.now.left.items) }
    ensures { IfOk result (λ is. is ≡ false → IsDrawn (kept_steps steps.now sought) level
        (length spread.now.found.items) spread.now.found.items
        (states_of (map (λ c. c.now) spread.now.left.items))) }
{
    if is_none(&spread.left) {
        return Ok(false);
    }
    for index in 0..spread.found.len() {
        let aim = Aim {
            index,
            state: spread.found[index].state,
            level,
            counted: sought.counted,
            steps: 0,
        };
        if is_reached_by(alloc, steps, aim, &spread.left)? {
            return Ok(true);
        }
    }
    Ok(false)
}
