//! The chains to a target on a host, level by level: of any steps, of steps that may go without a password, and of steps that ask for
//! none.
ghost use Rattle.std.specs.Prelude.{◌≡◌, IfOk, IsTrue, List};
ghost use Rattle.review_roots.specs.Ranks.{is_at_least};
ghost use Rattle.review_roots.specs.Sought.{any_steps};
ghost use Rattle.review_roots.specs.Body.Found.{AreFound, AreGiven, AreLevels, AreOrdered, ChainsLead, IsLower, IsLowerSpread};
ghost use Rattle.review_roots.specs.Body.Found.{IsSomeSpread, any_sought};
ghost use Rattle.review_roots.specs.Body.Found.{IsSpread, lower_found, lower_spread};
ghost use Rattle.review_roots.specs.declared.level.Level.TheVariants as level;
ghost use Rattle.review_roots.specs.declared.search.Found.{Found as TheFound};

use crate::Level;
use crate::given::Counted;
use crate::host::HostSteps;
use crate::search::{Found, Reach, Sought, found_of, has_step, spread_of};
use crate::starts::starts_of;
use crate::turned::turned_of;
use std::alloc::{AllocError, Global};

/// The states from which chains of a level lead to a target, each with the first of its shortest ones: by any steps, by steps that may
/// go without a password, by steps that ask for none, and by steps of which the first one alone asks; and where each user is among them.
#[derive(Drop)]
pub(crate) struct Chains {
    pub(crate) any: Vec<Found>,
    pub(crate) any_starts: Vec<Option<usize>>,
    pub(crate) unasked: Vec<Found>,
    pub(crate) unasked_starts: Vec<Option<usize>>,
    pub(crate) free: Vec<Found>,
    pub(crate) free_starts: Vec<Option<usize>>,
    pub(crate) turned: Vec<Found>,
    pub(crate) turned_starts: Vec<Option<usize>>,
}

/// The chains of each level. There are none of a level by which no further state leads to the target.
#[derive(Drop)]
pub(crate) struct Levels {
    pub(crate) all: Chains,
    pub(crate) all_but: Option<Chains>,
    pub(crate) listed: Option<Chains>,
}

// Returns the chains of a level to the target, where those of any steps are found.
fn chains_at(
    alloc: Global,
    steps: &HostSteps<'_, '_>,
    target: usize,
    level: Level,
    any: Vec<Found>,
) -> Result<Chains, AllocError>
    requires level { IsTrue (is_at_least steps.now.least level) }
    requires any { AreFound (any_steps steps.now target) steps.now.states.now level any.items }
    requires given { AreGiven steps.now any.items }
    requires order { AreOrdered steps.now (any_sought target) level any.items }
    ensures lead { IfOk result (λ chains. ChainsLead steps.now target level chains) }
    ensures any { IfOk result (λ chains. chains.any.items ≡ any.items) }
{
    let users = steps.directory.people().len();
    let any_starts = starts_of(alloc, users, &any)?;
    let unasked = found_of(
        alloc,
        steps,
        Sought {
            target,
            counted: Counted::Unasked,
        },
        level,
        &any_starts,
    )?;
    let free = found_of(
        alloc,
        steps,
        Sought {
            target,
            counted: Counted::Free,
        },
        level,
        &any_starts,
    )?;
    let unasked_starts = starts_of(alloc, users, &unasked)?;
    let free_starts = starts_of(alloc, users, &free)?;
    let turned = turned_of(
        alloc,
        steps,
        target,
        level,
        &any_starts,
        &unasked,
        &unasked_starts,
    )?;
    let turned_starts = starts_of(alloc, users, &turned)?;
    Ok(Chains {
        any,
        any_starts,
        unasked,
        unasked_starts,
        free,
        free_starts,
        turned,
        turned_starts,
    })
}

// Returns the same, if there are chains of the level.
fn chains_if(
    alloc: Global,
    steps: &HostSteps<'_, '_>,
    target: usize,
    level: Level,
    spread: Option<Reach<'_>>,
) -> Result<Option<Chains>, AllocError>
    requires { IsSomeSpread steps.now target level spread }
    ensures lower { (above : List TheFound) → IsLowerSpread steps.now target level above spread.entry
        → IfOk result (λ chains. IsLower steps.now target level above chains) }
    ensures found { IfOk result (λ chains. (above : List TheFound)
        → lower_found above chains ≡ lower_spread above spread.entry) }
{
    match spread {
        Some(spread) => {
            let Reach { found, left: _ } = spread;
            let chains = chains_at(alloc, steps, target, level, found)?;
            Ok(Some(chains))
        }
        None => Ok(None),
    }
}

// Returns what any steps of a level find, if the level is asked for, and one of them leads from a candidate that was left at a better
// level.
fn lower<'r>(
    alloc: Global,
    steps: &HostSteps<'r, '_>,
    target: usize,
    level: Level,
    above: &Reach<'r>,
) -> Result<Option<Reach<'r>>, AllocError>
    requires { IsSpread steps.now target above.now }
    ensures { IfOk result (λ spread. IsLowerSpread steps.now target level above.now.found.items spread) }
{
    if !level.is_at_least(steps.least) {
        return Ok(None);
    }
    let sought = Sought {
        target,
        counted: Counted::Any,
    };
    if !has_step(alloc, steps, sought, level, above)? {
        return Ok(None);
    }
    let spread = spread_of(alloc, steps, sought, level, &[])?;
    Ok(Some(spread))
}

// Returns what any steps of the lowest level find, where those of better levels are spread.
fn lowest<'r>(
    alloc: Global,
    steps: &HostSteps<'r, '_>,
    target: usize,
    all: &Reach<'r>,
    all_but: &Option<Reach<'r>>,
) -> Result<Option<Reach<'r>>, AllocError>
    requires all { IsSpread steps.now target all.now }
    requires all_but { IsLowerSpread steps.now target level.AllBut all.now.found.items all_but.now }
    ensures { IfOk result (λ spread. IsLowerSpread steps.now target level.Listed
        (lower_spread all.now.found.items all_but.now) spread) }
{
    match all_but {
        Some(above) => lower(alloc, steps, target, Level::Listed, above),
        None => lower(alloc, steps, target, Level::Listed, all),
    }
}

/// Returns the chains of each level to the target. Returns `AllocError` if allocation fails.
pub(crate) fn levels_of(
    alloc: Global,
    steps: &HostSteps<'_, '_>,
    target: usize,
) -> Result<Levels, AllocError>
    ensures { IfOk result (λ levels. AreLevels steps.now target levels) }
{
    let sought = Sought {
        target,
        counted: Counted::Any,
    };
    let all = spread_of(alloc, steps, sought, Level::All, &[])?;
    let all_but = lower(alloc, steps, target, Level::AllBut, &all)?;
    let listed = lowest(alloc, steps, target, &all, &all_but)?;
    let Reach { found, left: _ } = all;
    Ok(Levels {
        all: chains_at(alloc, steps, target, Level::All, found)?,
        all_but: chains_if(alloc, steps, target, Level::AllBut, all_but)?,
        listed: chains_if(alloc, steps, target, Level::Listed, listed)?,
    })
}
