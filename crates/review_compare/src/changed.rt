//! The rows in which two policies differ for a target, and the rows near them: those that may fit a command that one of them
//! fits. The near rows decide these commands, and all other commands are answered alike.
ghost use Rattle.std.specs.Prelude.{◌≡◌, ◌+◌, ◌++◌, ◌-◌, ◌∷◌, ◌≤◌, [], drop, filter, IfOk, length, map, OnOk, take};
ghost use Rattle.review_compare.specs.Body.ChangedRows as body;
ghost use Rattle.review_compare.specs.Body.Shown.{all_shown, ruling_of, shown};

use crate::compared::is_same_ruling;
use crate::ruling::Ruled;
use std::alloc::{AllocError, Global};

/// The rows of two policies for a target, those in which they differ, and the rows of each that are near these.
#[derive(Drop)]
pub(crate) struct Changed<'r, 'a> {
    pub(crate) all_old: &'r [Ruled<'a>],
    pub(crate) all_new: &'r [Ruled<'a>],
    pub(crate) rows: Vec<Ruled<'a>>,
    pub(crate) old: Vec<Ruled<'a>>,
    pub(crate) new: Vec<Ruled<'a>>,
    ghost are_changed: { body.AreChanged (all_shown all_old.now) (all_shown all_new.now)
        (all_shown rows.items) (all_shown old.items) (all_shown new.items) },
    ghost near_old: { all_shown old.items
        ≡ filter (body.is_near (all_shown rows.items)) (all_shown all_old.now) },
    ghost near_new: { all_shown new.items
        ≡ filter (body.is_near (all_shown rows.items)) (all_shown all_new.now) },
}

/// Returns how many rows at the front are the same.
pub(crate) fn same_front(old: &[Ruled<'_>], new: &[Ruled<'_>]) -> usize
    ensures within { (result ≤ length old.now) × (result ≤ length new.now) }
    ensures same { map ruling_of (take result old.now) ≡ map ruling_of (take result new.now) }
{
    let most = old.len().min(new.len());
    for front in 0..most {
        if !is_same_ruling(&old[front], &new[front]) {
            return front;
        }
    }
    most
}

/// Returns how many rows at the back are the same.
pub(crate) fn same_back(old: &[Ruled<'_>], new: &[Ruled<'_>]) -> usize
    ensures within { (result ≤ length old.now) × (result ≤ length new.now) }
    ensures same { map ruling_of (drop (length old.now - result) old.now)
        ≡ map ruling_of (drop (length new.now - result) new.now) }
{
    let old_end = old.len();
    let new_end = new.len();
    let most = old_end.min(new_end);
    for back in 0..most {
        if !is_same_ruling(&old[old_end - back - 1], &new[new_end - back - 1]) {
            return back;
        }
    }
    most
}

/// Whether the row may fit a command that one of the changed rows fits.
pub(crate) fn is_near(changed: &[Ruled<'_>], row: &Ruled<'_>) -> bool
    ensures { result ≡ body.is_near (all_shown changed.now) (shown row.now) }
{
    for other in changed {
        if !row.shape.is_disjoint(other.shape) {
            return true;
        }
    }
    false
}

// Appends the row, if it is near the changed rows.
fn push_near<'a>(
    changed: &[Ruled<'_>],
    row: Ruled<'a>,
    near: &mut Vec<Ruled<'a>>,
) -> Result<(), AllocError>
    ensures { OnOk result (all_shown near.new.items ≡ all_shown near.old.items
        ++ filter (body.is_near (all_shown changed.now)) (shown row.entry ∷ [])) }
{
    if is_near(changed, &row) {
        near.push(row)?;
    }
    Ok(())
}

// Returns those of the rows that are near the changed ones.
fn near_rows<'a>(
    alloc: Global,
    changed: &[Ruled<'_>],
    rows: &[Ruled<'a>],
) -> Result<Vec<Ruled<'a>>, AllocError>
    ensures { IfOk result (λ near. all_shown near.items
        ≡ filter (body.is_near (all_shown changed.now)) (all_shown rows.now)) }
{
    let mut near = Vec::new(alloc);
    for row in rows {
        push_near(changed, *row, &mut near)?;
    }
    Ok(near)
}

// Returns the rows of both lists that are neither among so many at the front nor among so many at the back.
fn rows_between<'a>(
    alloc: Global,
    old: &[Ruled<'a>],
    new: &[Ruled<'a>],
    front: usize,
    back: usize,
) -> Result<Vec<Ruled<'a>>, AllocError>
    requires old { front + back ≤ length old.now }
    requires new { front + back ≤ length new.now }
    ensures { IfOk result (λ rows. rows.items ≡ body.between front back old.now
        ++ body.between front back new.now) }
{
    let mut rows = Vec::from_slice(alloc, &old[front..old.len() - back])?;
    rows.extend_from_slice(&new[front..new.len() - back])?;
    Ok(rows)
}

impl<'r, 'a> Changed<'r, 'a> {
    /// Returns the rows in which two lists differ, and those near them. Returns `AllocError` if allocation fails.
    pub(crate) fn between(
        alloc: Global,
        old: &'r [Ruled<'a>],
        new: &'r [Ruled<'a>],
    ) -> Result<Changed<'r, 'a>, AllocError>
        ensures { IfOk result (λ changed. (changed.all_old.now ≡ old.now)
            × (changed.all_new.now ≡ new.now)) }
    {
        let front = same_front(old, new);
        let old_rest = &old[front..];
        let new_rest = &new[front..];
        let back = same_back(old_rest, new_rest);
        let rows = rows_between(alloc, old, new, front, back)?;
        let near_old = near_rows(alloc, &rows, old)?;
        let near_new = near_rows(alloc, &rows, new)?;
        Ok(Changed {
            all_old: old,
            all_new: new,
            rows,
            old: near_old,
            new: near_new,
        })
    }
}
