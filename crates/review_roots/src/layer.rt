//! The steps to the found states whose chains have as many steps: each candidate takes the first of these to which it has one.
ghost use Rattle.std.specs.Prelude.{◌≡◌, ◌⊎◌, ◌++◌, ◌==◌, All, IfOk, IsTrue, None, OnOk, Some, false, filter, is_some, map, take};
ghost use Rattle.std.specs.Prelude.{not, true};
ghost use Rattle.std.specs.List.{filter_map};
ghost use Rattle.review_roots.specs.Body.Found as spec;
ghost use Rattle.review_roots.specs.Body.Found.{AreDeep, IsAimed, IsCandidate, aims_at, first_of, reaches};
ghost use Rattle.review_roots.specs.Body.Firsts.{IsLayer};
ghost use Rattle.review_roots.specs.Body.Towards.{AgreeAlone, HasStrong};
ghost use Rattle.review_roots.specs.Ranks.{is_at_least};
ghost use Rattle.review_roots.specs.Ways.{step_on};
ghost use Rattle.review_roots.specs.declared.given.Given.{Given as TheGiven};

use crate::Level;
use crate::candidate::Candidate;
use crate::firsts::Firsts;
use crate::given::Given;
use crate::host::HostSteps;
use crate::search::{Aim, Found, Sought, reached};
use crate::state::State;
use crate::toward::Toward;
use std::alloc::{AllocError, Global};

/// What the steps to a state depend on: known before, or made for it.
#[derive(Drop)]
pub(crate) enum AnyToward<'r> {
    Known(&'r Toward),
    Made(Toward),
}

/// An aim, with what the steps to its state depend on, and whether an aim before it is of the same user, and the same blocks allow it:
/// who has no step to that one has none to this one, but for the user itself.
#[derive(Drop)]
pub(crate) struct Aimed<'r> {
    pub(crate) aim: Aim,
    pub(crate) toward: AnyToward<'r>,
    pub(crate) is_like: bool,
}

impl AnyToward<'_> {
    /// Returns what the steps depend on.
    pub(crate) fn get(&self) -> &Toward
        ensures { result.now ≡ spec.any_toward self.now }
    {
        match self {
            AnyToward::Known(toward) => toward,
            AnyToward::Made(toward) => toward,
        }
    }
}

// Returns what the steps to a state depend on.
fn toward_of<'r>(
    alloc: Global,
    steps: &HostSteps<'r, '_>,
    state: State,
) -> Result<AnyToward<'r>, AllocError>
    ensures toward { IfOk result (λ toward. spec.IsTowardOf steps.now state
        (spec.any_toward toward)) }
    ensures strong { IfOk result (λ toward. HasStrong steps.now.least steps.now.blocks.now
        (spec.any_toward toward)) }
{
    match steps.known_toward(state) {
        Some(toward) => Ok(AnyToward::Known(toward)),
        None => Ok(AnyToward::Made(steps.toward(alloc, state)?)),
    }
}

// Whether the same blocks allow both: those of one user are not compared that are known to be allowed as it is without a group.
fn is_as_allowed(one: &Toward, other: &Toward) -> bool
    requires { AgreeAlone one.now other.now }
    ensures { result ≡ true → one.now.allowed.items ≡ other.now.allowed.items }
{
    if one.as_alone && other.as_alone {
        return true;
    }
    one.allowed.as_slice() == other.allowed.as_slice()
}

// Whether the aim is of the state's user, and the same blocks allow both.
fn is_like(aimed: &Aimed<'_>, aim: Aim, toward: &Toward) -> bool
    requires level { aimed.now.aim.level ≡ aim.level }
    requires counted { aimed.now.aim.counted ≡ aim.counted }
    requires alone { aimed.now.aim.state.user ≡ aim.state.user
        → AgreeAlone (spec.any_toward aimed.now.toward) toward.now }
    ensures { result ≡ true → spec.AreLike aimed.now aim toward.now }
{
    aimed.aim.state.user == aim.state.user && is_as_allowed(aimed.toward.get(), toward)
}

// Whether one of the aims is of the state's user, and the same blocks allow both. They stand by their users.
fn has_like(aims: &[Aimed<'_>], aim: Aim, toward: &Toward) -> bool
    requires level { All (λ a. a.aim.level ≡ aim.level) aims.now }
    requires counted { All (λ a. a.aim.counted ≡ aim.counted) aims.now }
    requires alone { All (λ a. a.aim.state.user ≡ aim.state.user
        → AgreeAlone (spec.any_toward a.toward) toward.now) aims.now }
    ensures { result ≡ true → spec.HasLike aims.now aim toward.now }
{
    let mut at = aims.len();
    while at > 0 {
        at -= 1;
        if aims[at].aim.state.user != aim.state.user {
            return false;
        }
        if !aims[at].is_like && is_like(&aims[at], aim, toward) {
            return true;
        }
    }
    false
}

// Returns the found states from an index on as aims of steps that count, of the level.
fn aims_of<'r>(
    alloc: Global,
    steps: &HostSteps<'r, '_>,
    sought: Sought,
    level: Level,
    found: &[Found],
    start: usize,
) -> Result<Vec<Aimed<'r>>, AllocError>
    requires level { IsTrue (is_at_least steps.now.least level) }
    requires deep { AreDeep found.now }
    ensures aims { IfOk result (λ aims. map (λ a. a.aim) aims.items
        ≡ aims_at sought level start found.now) }
    ensures aimed { IfOk result (λ aims. All (IsAimed steps.now) aims.items) }
    ensures like { IfOk result (λ aims. spec.TellLike aims.items) }
{
    let mut aims = Vec::new(alloc);
    for index in start..found.len() {
        let Found {
            state,
            steps: count,
            next: _,
            given: _,
        } = found[index];
        let aim = Aim {
            index,
            state,
            level,
            counted: sought.counted,
            steps: count + 1,
        };
        let toward = toward_of(alloc, steps, state)?;
        let is_like = has_like(&aims, aim, toward.get());
        aims.push(Aimed {
            aim,
            toward,
            is_like,
        })?;
    }
    Ok(aims)
}

// Returns what the step of the candidate to the state of an aim gives, if it has the level or a better one. None is looked for where an
// aim before is like this one, and the user is another.
fn reached_by(steps: &HostSteps<'_, '_>, aimed: &Aimed<'_>, candidate: &Candidate) -> Option<Given>
    requires aimed { IsAimed steps.now aimed.now }
    requires candidate { IsCandidate steps.now candidate.now }
    ensures given { (given : TheGiven) → result ≡ Some given
        → (reaches steps.now aimed.now.aim candidate.now ≡ true)
        × (given ≡ step_on steps.now candidate.now.state aimed.now.aim.state) }
    ensures none { result ≡ None → ((aimed.now.is_like ≡ true)
        × ((candidate.now.state.user == aimed.now.aim.state.user) ≡ false))
        ⊎ (reaches steps.now aimed.now.aim candidate.now ≡ false) }
{
    if aimed.is_like && candidate.state.user != aimed.aim.state.user {
        None
    } else {
        reached(steps, aimed.aim, aimed.toward.get(), candidate)
    }
}

/// The found states from an index on, as aims.
#[derive(Drop)]
pub(crate) struct Layer<'r> {
    pub(crate) start: usize,
    pub(crate) aims: Vec<Aimed<'r>>,
}

/// Returns the found states from an index on as aims of steps that count, of the level, and notes them. Returns `AllocError` if
/// allocation fails.
pub(crate) fn layer_of<'r>(
    alloc: Global,
    steps: &HostSteps<'r, '_>,
    sought: Sought,
    level: Level,
    found: &[Found],
    start: usize,
    firsts: &mut Firsts,
) -> Result<Layer<'r>, AllocError>
    requires level { IsTrue (is_at_least steps.now.least level) }
    requires deep { AreDeep found.now }
    ensures aims { IfOk result (λ layer. map (λ a. a.aim) layer.aims.items
        ≡ aims_at sought level start found.now) }
    ensures layer { IfOk result (λ layer. IsLayer steps.now firsts.new layer) }
{
    let aims = aims_of(alloc, steps, sought, level, found, start)?;
    firsts.note_aims(start, &aims);
    Ok(Layer { start, aims })
}

// Returns the place of an aim of the layer before which the candidate has a step to none.
fn place_for(
    steps: &HostSteps<'_, '_>,
    layer: &Layer<'_>,
    firsts: &Firsts,
    candidate: &Candidate,
) -> usize
    requires layer { IsLayer steps.now firsts.now layer.now }
    requires candidate { IsCandidate steps.now candidate.now }
    ensures { All (λ a. reaches steps.now a.aim candidate.now ≡ false)
        (take result layer.now.aims.items) }
{
    let first = firsts.first_for(steps, layer.start, candidate);
    if first < layer.start {
        0
    } else {
        first - layer.start
    }
}

// Returns the candidate as it is found by the first of the aims to which it has a step, if it has one, where it has none to those before
// a place.
fn first_reached(
    steps: &HostSteps<'_, '_>,
    aims: &[Aimed<'_>],
    from: usize,
    candidate: &Candidate,
) -> Option<Found>
    requires aims { All (IsAimed steps.now) aims.now }
    requires like { spec.TellLike aims.now }
    requires candidate { IsCandidate steps.now candidate.now }
    requires far { All (λ a. reaches steps.now a.aim candidate.now ≡ false) (take from aims.now) }
    ensures { result ≡ first_of steps.now (map (λ a. a.aim) aims.now) candidate.now }
{
    for place in from..aims.len() {
        let aimed = &aims[place];
        if let Some(given) = reached_by(steps, aimed, candidate) {
            return Some(Found {
                state: candidate.state,
                steps: aimed.aim.steps,
                next: Some(aimed.aim.index),
                given,
            });
        }
    }
    None
}

// Returns the same for the aims of a layer.
fn first_found(
    steps: &HostSteps<'_, '_>,
    layer: &Layer<'_>,
    firsts: &Firsts,
    candidate: &Candidate,
) -> Option<Found>
    requires layer { IsLayer steps.now firsts.now layer.now }
    requires candidate { IsCandidate steps.now candidate.now }
    ensures { result ≡ first_of steps.now (map (λ a. a.aim) layer.now.aims.items) candidate.now }
{
    let from = place_for(steps, layer, firsts, candidate);
    first_reached(steps, &layer.aims, from, candidate)
}

/// Moves the candidates with a step to an aim to those that are found, each by the first of these aims, and returns the others. Returns
/// `AllocError` if allocation fails.
pub(crate) fn draw<'c>(
    alloc: Global,
    steps: &HostSteps<'_, '_>,
    layer: &Layer<'_>,
    firsts: &Firsts,
    left: &[&'c Candidate],
    found: &mut Vec<Found>,
) -> Result<Vec<&'c Candidate>, AllocError>
    requires layer { IsLayer steps.now firsts.now layer.now }
    requires candidates { All (IsCandidate steps.now) (map (λ c. c.now) left.now) }
    ensures kept { IfOk result (λ kept. map (λ c. c.now) kept.items
        ≡ filter (λ c. not (is_some (first_of steps.now
        (map (λ a. a.aim) layer.now.aims.items) c))) (map (λ c. c.now) left.now)) }
    ensures found { OnOk result (found.new.items ≡ found.old.items ++ filter_map (first_of
        steps.now (map (λ a. a.aim) layer.now.aims.items)) (map (λ c. c.now) left.now)) }
{
    let mut kept = Vec::new(alloc);
    for candidate in left {
        match first_found(steps, layer, firsts, candidate) {
            Some(state) => found.push(state)?,
            None => kept.push(*candidate)?,
        }
    }
    Ok(kept)
}
