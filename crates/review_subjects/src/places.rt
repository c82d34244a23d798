//! How often places occur in a list.
ghost use Rattle.std.specs.Prelude.{◌≡◌, ◌||◌, ◌+◌, ◌<◌, ◌^◌, cond, not, [], IfOk, OnOk, unwrap_or, count_by};
ghost use Rattle.std.specs.HashMap.{get};
ghost use Rattle.std.specs.HashSet.{contains};
ghost use Rattle.sudo_text.specs.declared.line.Place.{Place as ThePlace};
ghost use Rattle.review_grants.specs.Depends.{key_of, same_key, same_place};
ghost use Rattle.review_subjects.specs.Counts as spec;

use std::alloc::{AllocError, Global};
use std::collections::{HashMap, HashSet};
use sudo_text::Place;

// Adds one to the count of a place.
fn add_one(counts: &mut HashMap<(u32, u32), u64>, place: Place) -> Result<(), AllocError>
    requires { unwrap_or (get same_key counts.old (key_of place)) 0 < 2 ^ 63 }
    ensures { OnOk result ((q : ThePlace) → unwrap_or (get same_key counts.new (key_of q)) 0
        ≡ unwrap_or (get same_key counts.old (key_of q)) 0 + cond (same_place q place) 1 0) }
{
    let count = count_at(counts, place);
    counts.insert((place.file, place.line), count + 1)?;
    Ok(())
}

/// Counts how often each place occurs. Returns `AllocError` if allocation fails.
pub(crate) fn tally(alloc: Global, places: &[Place]) -> Result<HashMap<(u32, u32), u64>, AllocError>
    ensures { IfOk result (λ m. (q : ThePlace) → unwrap_or (get same_key m (key_of q)) 0
        ≡ count_by (same_place q) places.now) }
{
    let mut counts = HashMap::new(alloc);
    for place in places {
        add_one(&mut counts, *place)?;
    }
    Ok(counts)
}

// Whether a place is new to a set, to which it is added.
fn add(seen: &mut HashSet<(u32, u32)>, place: Place) -> Result<bool, AllocError>
    ensures added { IfOk result (λ added. added ≡ not (contains same_key seen.old (key_of place))) }
    ensures seen { OnOk result ((q : ThePlace) → contains same_key seen.new (key_of q)
        ≡ (contains same_key seen.old (key_of q) || same_place q place)) }
{
    Ok(seen.insert((place.file, place.line))?)
}

/// Returns the places without those that stand before in the list. Returns `AllocError` if allocation fails.
pub(crate) fn distinct(alloc: Global, places: &[Place]) -> Result<Vec<Place>, AllocError>
    ensures { IfOk result (λ kept. kept.items ≡ spec.firsts [] places.now) }
{
    let mut seen = HashSet::new(alloc);
    let mut kept = Vec::new(alloc);
    for place in places {
        if add(&mut seen, *place)? {
            kept.push(*place)?;
        }
    }
    Ok(kept)
}

/// Returns how often a place was counted.
pub(crate) fn count_at(counts: &HashMap<(u32, u32), u64>, place: Place) -> u64
    ensures { result ≡ unwrap_or (get same_key counts.now (key_of place)) 0 }
{
    match counts.get(&(place.file, place.line)) {
        Some(count) => *count,
        None => 0,
    }
}
