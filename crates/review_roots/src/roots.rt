//! Who can become a target on a host.
ghost use Rattle.std.specs.Prelude.{◌≡◌, ◌<◌, IfOk, IsTrue, MatchOption, Some, None, false, get_or, length, true};
ghost use Rattle.review_roots.specs.Chains.{HasNoPath};
ghost use Rattle.review_roots.specs.Ranks.{is_at_least};
ghost use Rattle.review_roots.specs.Sought.{any_steps, free_steps, unasked_steps};
ghost use Rattle.review_roots.specs.States.{state_with};
ghost use Rattle.review_roots.specs.Ways.{IsWay};
ghost use Rattle.review_roots.specs.Body.Found.{AreLevels, ChainsLead, IsBest, IsFoundAt};
ghost use Rattle.review_roots.specs.Roots.{AreRoots, IsRootAt, IsNoRoot, has_zero};
ghost use Rattle.review_roots.specs.declared.chains.Chains.{Chains as TheChains};
ghost use Rattle.review_roots.specs.declared.level.Level.TheVariants as level;

use crate::Level;
use crate::chains::{Chains, Levels, levels_of};
use crate::host::HostSteps;
use crate::starts::start_at;
use crate::way::{Way, way_of};
use std::alloc::{AllocError, Global};

/// A user that can become the target: by a chain of steps; or, without one, since it is the target, or has ID 0.
#[derive(Debug, Drop)]
pub struct Root {
    /// The index of the user among the known ones.
    pub user: usize,
    /// The chain, or `None` if the user is the target, or has ID 0.
    pub way: Option<Way>,
}

// Whether the user has ID 0.
fn has_zero(steps: &HostSteps<'_, '_>, user: usize) -> bool
    ensures { result ≡ has_zero steps.now user }
{
    match steps.directory.people().get(user) {
        Some(person) => person.uid == 0,
        None => false,
    }
}

// Returns the chain of a found state that is the user without an added group, where each chain of the level asks for a password: one of
// which the first step alone asks, if there is one.
fn asking_way(
    alloc: Global,
    steps: &HostSteps<'_, '_>,
    target: usize,
    level: Level,
    chains: &Chains,
    user: usize,
    index: usize,
) -> Result<Way, AllocError>
    requires lead { ChainsLead steps.now target level chains.now }
    requires away { user ≡ target → ⊥ }
    requires known { user < length steps.now.directory.now.people }
    requires best { IsBest steps.now target level user }
    requires start { IsFoundAt chains.now.any.items user (Some index) }
    requires free { HasNoPath (free_steps steps.now target) level (state_with None user) }
    requires unasked { HasNoPath (unasked_steps steps.now target) level (state_with None user) }
    ensures { IfOk result (λ way. IsWay steps.now target steps.now.least (state_with None user)
        way) }
{
    match start_at(&chains.turned_starts, user) {
        Some(index) => way_of(alloc, steps, level, &chains.turned, index),
        None => way_of(alloc, steps, level, &chains.any, index),
    }
}

// Returns the chain of a found state that is the user without an added group, where no chain of the level asks for no password: one
// whose steps may go without, if there is one.
fn asked_way(
    alloc: Global,
    steps: &HostSteps<'_, '_>,
    target: usize,
    level: Level,
    chains: &Chains,
    user: usize,
    index: usize,
) -> Result<Way, AllocError>
    requires lead { ChainsLead steps.now target level chains.now }
    requires away { user ≡ target → ⊥ }
    requires known { user < length steps.now.directory.now.people }
    requires best { IsBest steps.now target level user }
    requires start { IsFoundAt chains.now.any.items user (Some index) }
    requires free { HasNoPath (free_steps steps.now target) level (state_with None user) }
    ensures { IfOk result (λ way. IsWay steps.now target steps.now.least (state_with None user)
        way) }
{
    match start_at(&chains.unasked_starts, user) {
        Some(index) => way_of(alloc, steps, level, &chains.unasked, index),
        None => asking_way(alloc, steps, target, level, chains, user, index),
    }
}

// Returns the chain of a found state that is the user without an added group: one without passwords, if there is one of the level.
fn best_way(
    alloc: Global,
    steps: &HostSteps<'_, '_>,
    target: usize,
    level: Level,
    chains: &Chains,
    user: usize,
    index: usize,
) -> Result<Way, AllocError>
    requires lead { ChainsLead steps.now target level chains.now }
    requires away { user ≡ target → ⊥ }
    requires known { user < length steps.now.directory.now.people }
    requires best { IsBest steps.now target level user }
    requires start { IsFoundAt chains.now.any.items user (Some index) }
    ensures { IfOk result (λ way. IsWay steps.now target steps.now.least (state_with None user)
        way) }
{
    match start_at(&chains.free_starts, user) {
        Some(index) => way_of(alloc, steps, level, &chains.free, index),
        None => asked_way(alloc, steps, target, level, chains, user, index),
    }
}

// Returns the best chain from the user, if there is one of the level, where there is none of a better one.
fn way_at(
    alloc: Global,
    steps: &HostSteps<'_, '_>,
    target: usize,
    level: Level,
    chains: &Chains,
    user: usize,
) -> Result<Option<Way>, AllocError>
    requires lead { ChainsLead steps.now target level chains.now }
    requires away { user ≡ target → ⊥ }
    requires known { user < length steps.now.directory.now.people }
    requires best { IsBest steps.now target level user }
    ensures { IfOk result (λ way. MatchOption way (HasNoPath (any_steps steps.now target) level
        (state_with None user)) (IsWay steps.now target steps.now.least (state_with None user))) }
{
    match start_at(&chains.any_starts, user) {
        None => Ok(None),
        Some(index) => Ok(Some(best_way(alloc, steps, target, level, chains, user, index)?)),
    }
}

// Returns the same, where there may be no chains of the level.
fn way_below(
    alloc: Global,
    steps: &HostSteps<'_, '_>,
    target: usize,
    level: Level,
    chains: &Option<Chains>,
    user: usize,
) -> Result<Option<Way>, AllocError>
    requires lead { (c : TheChains) → chains.now ≡ Some c → ChainsLead steps.now target level c }
    requires none { chains.now ≡ None → is_at_least steps.now.least level ≡ true
        → HasNoPath (any_steps steps.now target) level (state_with None user) }
    requires away { user ≡ target → ⊥ }
    requires known { user < length steps.now.directory.now.people }
    requires best { is_at_least steps.now.least level ≡ true → IsBest steps.now target level user }
    ensures { IfOk result (λ way. MatchOption way (is_at_least steps.now.least level ≡ true
        → HasNoPath (any_steps steps.now target) level (state_with None user))
        (IsWay steps.now target steps.now.least (state_with None user))) }
{
    match chains {
        Some(chains) => way_at(alloc, steps, target, level, chains, user),
        None => Ok(None),
    }
}

// Returns the best chain from the user, if there is one of the level `AllBut` or of `Listed`, where there is none of `All`.
fn way_lower(
    alloc: Global,
    steps: &HostSteps<'_, '_>,
    target: usize,
    levels: &Levels,
    user: usize,
) -> Result<Option<Way>, AllocError>
    requires levels { AreLevels steps.now target levels.now }
    requires away { user ≡ target → ⊥ }
    requires known { user < length steps.now.directory.now.people }
    requires none { HasNoPath (any_steps steps.now target) level.All (state_with None user) }
    ensures { IfOk result (λ way. MatchOption way (HasNoPath (any_steps steps.now target)
        steps.now.least (state_with None user)) (IsWay steps.now target steps.now.least
        (state_with None user))) }
{
    match way_below(alloc, steps, target, Level::AllBut, &levels.all_but, user)? {
        Some(way) => Ok(Some(way)),
        None => way_below(alloc, steps, target, Level::Listed, &levels.listed, user),
    }
}

// Returns the best chain from the user, if there is one of the least level or a better one.
fn way_from(
    alloc: Global,
    steps: &HostSteps<'_, '_>,
    target: usize,
    levels: &Levels,
    user: usize,
) -> Result<Option<Way>, AllocError>
    requires levels { AreLevels steps.now target levels.now }
    requires away { user ≡ target → ⊥ }
    requires known { user < length steps.now.directory.now.people }
    ensures { IfOk result (λ way. MatchOption way (HasNoPath (any_steps steps.now target)
        steps.now.least (state_with None user)) (IsWay steps.now target steps.now.least
        (state_with None user))) }
{
    match way_at(alloc, steps, target, Level::All, &levels.all, user)? {
        Some(way) => Ok(Some(way)),
        None => way_lower(alloc, steps, target, levels, user),
    }
}

// Returns the user if it can become the target, and `None` if it cannot.
fn root_of(
    alloc: Global,
    steps: &HostSteps<'_, '_>,
    target: usize,
    levels: &Levels,
    user: usize,
) -> Result<Option<Root>, AllocError>
    requires levels { AreLevels steps.now target levels.now }
    requires known { user < length steps.now.directory.now.people }
    ensures { IfOk result (λ root. MatchOption root (IsNoRoot steps.now target steps.now.least user)
        (IsRootAt steps.now target steps.now.least user)) }
{
    if user == target || has_zero(steps, user) {
        return Ok(Some(Root { user, way: None }));
    }
    match way_from(alloc, steps, target, levels, user)? {
        None => Ok(None),
        Some(way) => Ok(Some(Root {
            user,
            way: Some(way),
        })),
    }
}

/// Returns the users that can become the target on the host, in the order of the directory: the target itself, all with ID 0,
/// and those from whom a chain of steps of the least level of the steps, or a better one, leads to it.
///
/// The chain that is given has the best level of all from the user, however long. Of those of that level none asks for less: it
/// asks for no password, if one does not; otherwise its steps may go without, if those of one may; otherwise it asks for the user's own
/// alone, and without an added group, if one does. Of those of that level that ask for no more none has fewer steps, and of those that have
/// no more it is the first, by the names of the users of its states, and then by their added groups.
/// From a user that is not among them no chain of the least level leads to the target, however long.
///
/// Returns `AllocError` if allocation fails.
pub fn roots_on(
    alloc: Global,
    steps: &HostSteps<'_, '_>,
    target: usize,
) -> Result<Vec<Root>, AllocError>
    ensures { IfOk result (λ roots. AreRoots steps.now target steps.now.least roots.items) }
{
    let levels = levels_of(alloc, steps, target)?;
    let mut roots = Vec::new(alloc);
    for user in 0..steps.directory.people().len() {
        if let Some(root) = root_of(alloc, steps, target, &levels, user)? {
            roots.push(root)?;
        }
    }
    Ok(roots)
}
