//! What is asked in the cells: each target with each group.
ghost use Rattle.std.specs.Prelude.{◌≡◌, ◌++◌, IfOk, OnOk, option_copied};
ghost use Rattle.review_compare.specs.Differences as differences;

use crate::cell::Ask;
use std::alloc::{AllocError, Global};
use sudo_match::{Directory, Group, Person};

// Returns no number, and each of the first ones.
fn each_or_none(alloc: Global, count: usize) -> Result<Vec<Option<usize>>, AllocError>
    ensures { IfOk result (λ numbers. numbers.items ≡ differences.each_or_none count) }
{
    let mut numbers = Vec::new(alloc);
    numbers.push(None)?;
    for number in 0..count {
        numbers.push(Some(number))?;
    }
    Ok(numbers)
}

// Appends the target with each of the groups.
fn push_target(
    asks: &mut Vec<Ask>,
    groups: &[Option<usize>],
    target: Option<usize>,
) -> Result<(), AllocError>
    ensures { OnOk result (asks.new.items
        ≡ asks.old.items ++ differences.asks_with groups.now target) }
{
    for group in groups {
        asks.push(Ask {
            target,
            group: *group,
        })?;
    }
    Ok(())
}

/// Returns each target with each group: none, and each known one. Returns `AllocError` if allocation fails.
pub(crate) fn all_asks(
    alloc: Global,
    directory: &Directory,
    groups: &[Group],
) -> Result<Vec<Ask>, AllocError>
    ensures { IfOk result (λ asks. asks.items
        ≡ differences.all_asks directory.now groups.now) }
{
    let targets = each_or_none(alloc, directory.people().len())?;
    let group_numbers = each_or_none(alloc, groups.len())?;
    let mut asks = Vec::new(alloc);
    for target in &targets {
        push_target(&mut asks, &group_numbers, *target)?;
    }
    Ok(asks)
}

/// Returns the user that is asked for, if any.
pub(crate) fn person_at(directory: &Directory, index: Option<usize>) -> Option<&Person>
    ensures { option_copied result ≡ differences.known_at directory.now.people index }
{
    match index {
        None => None,
        Some(index) => directory.people().get(index),
    }
}

/// Returns the group that is asked for, if any.
pub(crate) fn group_at(groups: &[Group], index: Option<usize>) -> Option<&Group>
    ensures { option_copied result ≡ differences.known_at groups.now index }
{
    match index {
        None => None,
        Some(index) => groups.get(index),
    }
}
