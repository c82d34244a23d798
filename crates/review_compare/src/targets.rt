//! Lists of targets, in which users whose indices follow each other stand as ranges.
ghost use Rattle.std.specs.Prelude.{◌≡◌, ◌≤◌, ◌++◌, ◌∷◌, [], ◌-◌, IfOk, IfSome, map, OnOk, Option, ℕ, Some, true};
ghost use Rattle.std.specs.List.{list_any, range_with_len};
ghost use Rattle.review_compare.specs.Differences as differences;
ghost use Rattle.review_compare.specs.Body.Merged as body;

use crate::cell::AskedTargets;
use crate::row::is_same_number;
use std::alloc::{AllocError, Global};
use sudo_text::Seq;

// Returns the first index and the one behind the last, unless it is no one.
fn ends_of(targets: AskedTargets) -> Option<(usize, usize)>
    ensures { IfSome result (λ ends. (ends.0 ≤ ends.1) × (differences.each_target targets
        ≡ map (λ i. Some i) (range_with_len ends.0 (ends.1 - ends.0)))) }
{
    match targets {
        AskedTargets::One(Some(index)) => match index.checked_add(1) {
            Some(end) => Some((index, end)),
            None => None,
        },
        AskedTargets::Range { first, end } if first <= end => Some((first, end)),
        _ => None,
    }
}

// Returns both as one range, if the second begins where the first ends.
fn joined(targets: AskedTargets, next: AskedTargets) -> Option<AskedTargets>
    ensures { IfSome result (λ both. differences.each_target both
        ≡ differences.each_target targets ++ differences.each_target next) }
{
    match (ends_of(targets), ends_of(next)) {
        (Some((first, middle)), Some((behind, end))) if middle == behind => {
            Some(AskedTargets::Range { first, end })
        }
        _ => None,
    }
}

// Appends further ones behind the last.
fn push_behind(
    targets: &mut Vec<AskedTargets>,
    last: AskedTargets,
    next: AskedTargets,
) -> Result<(), AllocError>
    ensures { OnOk result (differences.targets_of targets.new.items
        ≡ differences.targets_of (targets.old.items ++ last ∷ []) ++ differences.each_target next) }
{
    match joined(last, next) {
        Some(both) => targets.push(both)?,
        None => {
            targets.push(last)?;
            targets.push(next)?;
        }
    }
    Ok(())
}

/// Appends further targets: to the last range, if they follow it. Returns `AllocError` if allocation fails.
pub(crate) fn push_targets(
    targets: &mut Vec<AskedTargets>,
    next: AskedTargets,
) -> Result<(), AllocError>
    ensures { OnOk result (differences.targets_of targets.new.items
        ≡ differences.targets_of targets.old.items ++ differences.each_target next) }
{
    match targets.pop() {
        Some(last) => push_behind(targets, last, next),
        None => {
            targets.push(next)?;
            Ok(())
        }
    }
}

fn is_same_targets(targets: AskedTargets, others: AskedTargets) -> bool
    ensures { result ≡ true → targets ≡ others }
{
    match (targets, others) {
        (AskedTargets::One(own), AskedTargets::One(its)) => is_same_number(own, its),
        (
            AskedTargets::Range { first, end },
            AskedTargets::Range {
                first: other_first,
                end: other_end,
            },
        ) => first == other_first && end == other_end,
        _ => false,
    }
}

/// Whether both lists are the same.
pub(crate) fn are_same_targets(targets: &[AskedTargets], others: &[AskedTargets]) -> bool
    ensures { result ≡ true → targets.now ≡ others.now }
{
    let mut own = targets;
    let mut left = others;
    while let [each, rest @ ..] = own {
        let [other, more @ ..] = left else {
            return false;
        };
        if !is_same_targets(*each, *other) {
            return false;
        }
        own = rest;
        left = more;
    }
    left.is_empty()
}

// Whether each of the targets is before the next one, and does not end where that begins.
fn are_apart(targets: &[AskedTargets]) -> bool {
    let mut left = targets;
    while let [first, rest @ ..] = left {
        if let [second, ..] = rest {
            if *first >= *second || joined(*first, *second).is_some() {
                return false;
            }
        }
        left = rest;
    }
    true
}

// Returns the targets with those that follow each other as one range.
fn all_joined(alloc: Global, targets: &[AskedTargets]) -> Result<Vec<AskedTargets>, AllocError>
    ensures { IfOk result (λ all. differences.targets_of all.items
        ≡ differences.targets_of targets.now) }
{
    let mut all = Vec::new(alloc);
    for each in targets {
        push_targets(&mut all, *each)?;
    }
    Ok(all)
}

/// Returns the targets in order, with those that follow each other as one range. Mostly they are. Returns `AllocError` if allocation
/// fails.
pub(crate) fn in_order(
    alloc: Global,
    targets: Seq<AskedTargets>,
) -> Result<Seq<AskedTargets>, AllocError>
    ensures { IfOk result (λ ordered. (t : Option ℕ) → body.has_target ordered t
        ≡ body.has_target targets t) }
{
    if are_apart(targets.as_slice()) {
        return Ok(targets);
    }
    let mut sorted = targets.into_vec();
    sorted.sort_unstable();
    let all = all_joined(alloc, &sorted)?;
    Ok(Seq::from_vec(all))
}

// Appends the users of a range.
fn push_range(targets: &mut Vec<Option<usize>>, first: usize, end: usize) -> Result<(), AllocError>
    ensures { OnOk result (targets.new.items ≡ targets.old.items
        ++ map (λ i. Some i) (range_with_len first (end - first))) }
{
    for index in first..end {
        targets.push(Some(index))?;
    }
    Ok(())
}

// Appends targets one by one.
fn push_each(targets: &mut Vec<Option<usize>>, asked: AskedTargets) -> Result<(), AllocError>
    ensures { OnOk result (targets.new.items
        ≡ targets.old.items ++ differences.each_target asked) }
{
    match asked {
        AskedTargets::One(target) => {
            targets.push(target)?;
            Ok(())
        }
        AskedTargets::Range { first, end } => push_range(targets, first, end),
    }
}

/// Returns the targets one by one. Returns `AllocError` if allocation fails.
pub(crate) fn targets_of(
    alloc: Global,
    asked: &[AskedTargets],
) -> Result<Vec<Option<usize>>, AllocError>
    ensures { IfOk result (λ targets. targets.items ≡ differences.targets_of asked.now) }
{
    let mut targets = Vec::new(alloc);
    for each in asked {
        push_each(&mut targets, *each)?;
    }
    Ok(targets)
}

/// Whether the first of them is a user.
pub(crate) fn is_asked(targets: &[AskedTargets]) -> bool {
    match targets {
        [] => false,
        [AskedTargets::One(first), ..] => first.is_some(),
        _ => true,
    }
}
