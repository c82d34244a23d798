//! Comparisons that rows behind the change settle: both policies have them, and for each row between the common ones at the front and
//! at the back one of them applies wherever it does. So the policies say the same.
ghost use Rattle.std.specs.Prelude.{◌≡◌, ◌-◌, ◌≤◌, drop, get_or, IfOk, IfSome, length, None, OnOk, Some, take, true};
ghost use Rattle.review_compare.specs.Cells.{lined_of};
ghost use Rattle.review_compare.specs.Witnesses.{RowsSaySame};
ghost use Rattle.review_compare.specs.Body.Chosen.{chosen};
ghost use Rattle.review_compare.specs.Body.RowReaches.{HaveReaches};
ghost use Rattle.review_compare.specs.Body.Settled as body;
ghost use Rattle.review_compare.specs.Body.Shown.{all_shown, is_covered_by, shown};

use crate::block::Block;
use crate::common::{Common, have_same_rows};
use crate::near::Parts;
use crate::row_reaches::Reaches;
use crate::ruling::Ruled;
use crate::side::rows_at;
use std::alloc::{AllocError, Global};

// Returns the index of the new policy's block that may be a twin of the old one's at an index.
fn candidate(common: Common, old: usize, new: usize, index: usize) -> Option<usize> {
    if index < common.front {
        return Some(index);
    }
    let back = old.checked_sub(index)?;
    if back > common.back {
        return None;
    }
    new.checked_sub(back)
}

// Returns the index of a block of the new policy whose rows answer the same as those of the old one's at an index, if it is known.
fn twin_of(
    alloc: Global,
    parts: &Parts<'_>,
    common: Common,
    index: usize,
) -> Result<Option<usize>, AllocError>
    ensures { IfOk result (λ twin. IfSome twin
        (body.AnswerAlike parts.now.old.items parts.now.new.items index)) }
{
    let Some(other) = candidate(common, parts.old.len(), parts.new.len(), index) else {
        return Ok(None);
    };
    if have_same_rows(alloc, &parts.old, index, &parts.new, other)? {
        Ok(Some(other))
    } else {
        Ok(None)
    }
}

// Sets the twin of the old policy's block at an index.
fn set_twin(
    alloc: Global,
    parts: &Parts<'_>,
    common: Common,
    index: usize,
    twins: &mut Vec<Option<usize>>,
) -> Result<(), AllocError>
    requires { body.AreTwins parts.now twins.old.items }
    ensures { OnOk result (body.AreTwins parts.entry.now twins.new.items) }
{
    let twin = twin_of(alloc, parts, common, index)?;
    if index < twins.len() {
        twins[index] = twin;
    }
    Ok(())
}

/// Returns for each block of the old policy the index of one of the new policy's whose rows answer the same, where one is known. Returns
/// `AllocError` if allocation fails.
pub(crate) fn twins_of(
    alloc: Global,
    parts: &Parts<'_>,
    common: Common,
) -> Result<Vec<Option<usize>>, AllocError>
    ensures { IfOk result (λ twins. body.AreTwins parts.now twins.items) }
{
    let mut twins = Vec::new(alloc);
    twins.resize(parts.old.len(), None)?;
    for index in 0..parts.old.len() {
        set_twin(alloc, parts, common, index, &mut twins)?;
    }
    Ok(twins)
}

// Whether the block of the new policy is the twin of the old one's.
fn is_twin(twins: &[Option<usize>], index: usize, other: usize) -> bool
    ensures { result ≡ true → get_or twins.now index None ≡ Some other }
{
    if index >= twins.len() {
        return false;
    }
    match twins[index] {
        None => false,
        Some(twin) => twin == other,
    }
}

// Returns how many of the blocks at the front are twins.
fn twins_before(parts: &Parts<'_>, twins: &[Option<usize>], old: &[usize], new: &[usize]) -> usize
    requires { body.AreTwins parts.now twins.now }
    ensures within { (result ≤ length old.now) × (result ≤ length new.now) }
    ensures alike { body.ChosenAlike parts.now (take result old.now) (take result new.now) }
{
    let most = old.len().min(new.len());
    for front in 0..most {
        if !is_twin(twins, old[front], new[front]) {
            return front;
        }
    }
    most
}

// Returns how many of the blocks at the back are twins.
fn twins_behind(parts: &Parts<'_>, twins: &[Option<usize>], old: &[usize], new: &[usize]) -> usize
    requires { body.AreTwins parts.now twins.now }
    ensures within { (result ≤ length old.now) × (result ≤ length new.now) }
    ensures alike { body.ChosenAlike parts.now (drop (length old.now - result) old.now)
        (drop (length new.now - result) new.now) }
{
    let old_end = old.len();
    let new_end = new.len();
    let most = old_end.min(new_end);
    for back in 0..most {
        if !is_twin(twins, old[old_end - back - 1], new[new_end - back - 1]) {
            return back;
        }
    }
    most
}

// Whether for each of the rows, which are rows of the change, one of these blocks of the new policy has one that applies wherever it does.
fn are_covered(
    parts: &Parts<'_>,
    reaches: &Reaches<'_>,
    rows: &[Ruled<'_>],
    later: &[usize],
) -> bool
    requires { HaveReaches parts.now reaches.now }
    ensures { result ≡ true
        → body.AreCovered (chosen parts.now.new.items later.now) (all_shown rows.now) }
{
    let mut likely = 0;
    for row in rows {
        if !reaches.is_covered_in(parts, row, later, &mut likely) {
            return false;
        }
    }
    true
}

/// Whether rows that both policies have at the back of these blocks settle the comparison. Returns `AllocError` if allocation fails.
pub(crate) fn is_settled(
    alloc: Global,
    parts: &Parts<'_>,
    reaches: &Reaches<'_>,
    twins: &[Option<usize>],
    old: &[usize],
    new: &[usize],
) -> Result<bool, AllocError>
    requires reaches { HaveReaches parts.now reaches.now }
    requires twins { body.AreTwins parts.now twins.now }
    ensures { IfOk result (λ settled. settled ≡ true
        → RowsSaySame (chosen parts.now.old.items old.now) (chosen parts.now.new.items new.now)) }
{
    let front = twins_before(parts, twins, old, new);
    let old_rest = &old[front..];
    let new_rest = &new[front..];
    let back = twins_behind(parts, twins, old_rest, new_rest);
    let later = &new_rest[new_rest.len() - back..];
    let own = rows_at(alloc, &parts.old, &old_rest[..old_rest.len() - back])?;
    let others = rows_at(alloc, &parts.new, &new_rest[..new_rest.len() - back])?;
    if !are_covered(parts, reaches, &own, later) {
        return Ok(false);
    }
    Ok(are_covered(parts, reaches, &others, later))
}
