//! Rows of two policies that may answer one command otherwise: found by tests on pairs of rows, one of each policy, of which one
//! is no common row at the front, and none is one at the back.
ghost use Rattle.std.specs.Prelude.{◌≡◌, ◌+◌, ◌-◌, ◌<◌, ◌≤◌, drop, false, get_or, IfOk, IfSome, is_some, length, map, take};
ghost use Rattle.review_compare.specs.Cells as cells;
ghost use Rattle.review_compare.specs.Witnesses.{RowsSaySame};
ghost use Rattle.review_compare.specs.Body.Reaches as spec;
ghost use Rattle.review_compare.specs.Body.Shown as body;
ghost use Rattle.review_compare.specs.Body.Trials.{IsTrial};

use crate::answer::is_same_answer;
use crate::changed::{same_back, same_front};
use crate::reach::{Reach, is_covered_from, reaches_of};
use crate::row_reaches::reaches_by;
use crate::ruling::{Overlap, Ruled};
use crate::trials::Trial;
use std::alloc::{AllocError, Global};

// The rows of two policies for a target, where those at the front and at the back are the same; and for each between these up to
// where both policies have one that applies wherever it does.
#[derive(Drop)]
struct Rows<'r, 'a> {
    old: &'r [Ruled<'a>],
    new: &'r [Ruled<'a>],
    front: usize,
    old_end: usize,
    new_end: usize,
    of_old: Vec<Reach>,
    of_new: Vec<Reach>,
    ghost within: { (old_end ≤ length old.now) × (new_end ≤ length new.now) },
    ghost old_reaches: { of_old.items ≡ map (spec.reach_of old.now new.now)
        (take (old_end - front) (drop front old.now)) },
    ghost new_reaches: { of_new.items ≡ map (spec.reach_of old.now new.now)
        (take (new_end - front) (drop front new.now)) },
}

// Returns the reach of the row at an index, if it is one of those behind the front.
fn reach_at(reaches: &[Reach], front: usize, index: usize) -> Option<Reach>
    ensures { IfSome result (spec.IsReachAt reaches.now front index) }
{
    if index >= front && index - front < reaches.len() {
        Some(reaches[index - front])
    } else {
        None
    }
}

impl<'r, 'a> Rows<'r, 'a> {
    // Returns the rows, of which so many are the same at the front and at the back.
    fn of(
        alloc: Global,
        old: &'r [Ruled<'a>],
        new: &'r [Ruled<'a>],
        front: usize,
        back: usize,
    ) -> Result<Rows<'r, 'a>, AllocError>
        requires old { front + back ≤ length old.now }
        requires new { front + back ≤ length new.now }
        ensures rows { IfOk result (λ rows. (rows.old.now ≡ old.now) × (rows.new.now ≡ new.now)) }
        ensures ends { IfOk result (λ rows. (rows.front ≡ front)
            × (rows.old_end ≡ length old.now - back) × (rows.new_end ≡ length new.now - back)) }
    {
        let old_end = old.len() - back;
        let new_end = new.len() - back;
        let of_old = reaches_of(alloc, old, new, &old[front..old_end])?;
        let of_new = reaches_of(alloc, old, new, &new[front..new_end])?;
        Ok(Rows {
            old,
            new,
            front,
            old_end,
            new_end,
            of_old,
            of_new,
        })
    }

    // Returns the rows of a trial, of which so many are the same at the front and at the back.
    fn tried(
        alloc: Global,
        trial: &Trial<'r, 'a>,
        front: usize,
        back: usize,
    ) -> Result<Rows<'r, 'r>, AllocError>
        requires trial { IsTrial trial.now }
        requires old { front + back ≤ length trial.now.old_rows.now }
        requires new { front + back ≤ length trial.now.new_rows.now }
        ensures rows { IfOk result (λ rows. (rows.old.now ≡ trial.now.old_rows.now)
            × (rows.new.now ≡ trial.now.new_rows.now)) }
        ensures ends { IfOk result (λ rows. (rows.front ≡ front)
            × (rows.old_end ≡ length trial.now.old_rows.now - back)
            × (rows.new_end ≡ length trial.now.new_rows.now - back)) }
    {
        let (old, new) = (trial.old_rows, trial.new_rows);
        let old_end = old.len() - back;
        let new_end = new.len() - back;
        let of_old = reaches_by(alloc, trial, &old[front..old_end])?;
        let of_new = reaches_by(alloc, trial, &new[front..new_end])?;
        Ok(Rows {
            old,
            new,
            front,
            old_end,
            new_end,
            of_old,
            of_new,
        })
    }

    // Whether one of the rows from these on applies wherever the old policy's row at the index does.
    fn covers_old(&self, row: &Ruled<'a>, index: usize, old_from: usize, new_from: usize) -> bool
        requires { row.now ≡ get_or self.now.old.now index row.now }
        ensures { result ≡ body.is_covered_by_either (body.all_shown (drop old_from self.now.old.now))
            (body.all_shown (drop new_from self.now.new.now)) (cells.lined_of (body.shown row.now)) }
    {
        match reach_at(&self.of_old, self.front, index) {
            Some(reach) => reach.is_past(old_from, new_from),
            None => {
                is_covered_from(self.old, old_from, row) || is_covered_from(self.new, new_from, row)
            }
        }
    }

    // Whether one of the rows from these on applies wherever the new policy's row at the index does.
    fn covers_new(&self, row: &Ruled<'a>, index: usize, old_from: usize, new_from: usize) -> bool
        requires { row.now ≡ get_or self.now.new.now index row.now }
        ensures { result ≡ body.is_covered_by_either (body.all_shown (drop old_from self.now.old.now))
            (body.all_shown (drop new_from self.now.new.now)) (cells.lined_of (body.shown row.now)) }
    {
        match reach_at(&self.of_new, self.front, index) {
            Some(reach) => reach.is_past(old_from, new_from),
            None => {
                is_covered_from(self.old, old_from, row) || is_covered_from(self.new, new_from, row)
            }
        }
    }

    // Whether two rows answer alike, or no command is answered by both. What is known of rows behind the front is asked first.
    fn agree(&self, own: &Ruled<'a>, at: usize, other: &Ruled<'a>, beside: usize) -> bool
        requires at { at < self.now.old_end }
        requires own { own.now ≡ get_or self.now.old.now at own.now }
        requires beside { beside < self.now.new_end }
        requires other { other.now ≡ get_or self.now.new.now beside other.now }
        ensures { result ≡ body.pair_agrees (body.shown own.now)
            (body.all_shown (drop (at + 1) self.now.old.now)) (body.shown other.now)
            (body.all_shown (drop (beside + 1) self.now.new.now)) }
    {
        if is_same_answer(&own.answer, &other.answer) {
            return true;
        }
        if at >= self.front && self.covers_old(own, at, at + 1, beside + 1) {
            return true;
        }
        if beside >= self.front && self.covers_new(other, beside, at + 1, beside + 1) {
            return true;
        }
        if own.shape.is_disjoint(other.shape) {
            return true;
        }
        self.covers_old(own, at, at + 1, beside + 1)
            || self.covers_new(other, beside, at + 1, beside + 1)
    }

    // Returns the first of the new policy's rows between the common ones that answers where none of the old one's does.
    fn unlike_none(&self) -> Option<Ruled<'a>>
        ensures none { is_some result ≡ false → spec.NoneAgree self.now.old.now self.now.new.now
            self.now.front self.now.new_end }
        ensures left { IfSome result (λ other. body.IsLeft (body.all_shown self.now.old.now)
            (body.all_shown self.now.new.now) (body.shown other)) }
    {
        for index in self.front..self.new_end {
            let other = &self.new[index];
            if !self.covers_new(other, index, 0, index + 1) {
                return Some(*other);
            }
        }
        None
    }

    // Returns the first of the new policy's rows from this one on, but for the common ones at the back, that does not agree with
    // the old one's.
    fn unlike_from(&self, own: &Ruled<'a>, at: usize, from: usize) -> Option<Ruled<'a>>
        requires at { at < self.now.old_end }
        requires own { own.now ≡ get_or self.now.old.now at own.now }
        ensures none { is_some result ≡ false → spec.AgreesFrom self.now.old.now self.now.new.now
            at from self.now.new_end }
        ensures unlike { IfSome result (λ other. body.IsUnlike (body.shown own.now)
            (body.all_shown (drop (at + 1) self.now.old.now)) (body.all_shown self.now.new.now)
            (body.shown other)) }
    {
        for index in from..self.new_end {
            let other = &self.new[index];
            if !self.agree(own, at, other, index) {
                return Some(*other);
            }
        }
        None
    }

    // Returns the first of the new policy's rows that does not agree with the old one's between the common ones, or none of them
    // if none answers where it does; or `None`, if it agrees with all.
    fn unlike_all(&self, own: &Ruled<'a>, at: usize) -> Option<Option<Ruled<'a>>>
        requires at { at < self.now.old_end }
        requires own { own.now ≡ get_or self.now.old.now at own.now }
        ensures none { is_some result ≡ false → spec.AgreesWithAll self.now.old.now
            self.now.new.now at self.now.new_end }
        ensures unlike { IfSome result (λ other. body.IsUnlikeIf (body.shown own.now)
            (body.all_shown (drop (at + 1) self.now.old.now)) (body.all_shown self.now.new.now)
            (body.shown_if other)) }
    {
        if !self.covers_old(own, at, at + 1, 0) {
            return Some(None);
        }
        if self.covers_old(own, at, at + 1, self.new_end) {
            return None;
        }
        match self.unlike_from(own, at, 0) {
            Some(other) => Some(Some(other)),
            None => None,
        }
    }

    // Returns the first of the new policy's rows that does not agree with the old one's, of which one is between the common ones.
    fn unlike_one(&self, own: &Ruled<'a>, at: usize) -> Option<Option<Ruled<'a>>>
        requires at { at < self.now.old_end }
        requires own { own.now ≡ get_or self.now.old.now at own.now }
        ensures none { is_some result ≡ false → spec.Agrees self.now.old.now self.now.new.now at
            self.now.front self.now.new_end }
        ensures unlike { IfSome result (λ other. body.IsUnlikeIf (body.shown own.now)
            (body.all_shown (drop (at + 1) self.now.old.now)) (body.all_shown self.now.new.now)
            (body.shown_if other)) }
    {
        if at >= self.front {
            return self.unlike_all(own, at);
        }
        match self.unlike_from(own, at, self.front) {
            Some(other) => Some(Some(other)),
            None => None,
        }
    }

    // Returns a row of each policy, if any, that do not agree, pair by pair.
    fn first_unlike(&self) -> Option<Overlap<'a>>
        ensures none { is_some result ≡ false → spec.AllAgree self.now.old.now self.now.new.now
            self.now.front self.now.old_end self.now.new_end }
        ensures are_open { IfSome result (body.AreOpen self.now.old.now self.now.new.now) }
    {
        if let Some(other) = self.unlike_none() {
            return Some(Overlap {
                old: None,
                new: Some(other),
            });
        }
        for index in 0..self.old_end {
            let own = &self.old[index];
            if let Some(other) = self.unlike_one(own, index) {
                return Some(Overlap {
                    old: Some(*own),
                    new: other,
                });
            }
        }
        None
    }
}

/// Returns a row of each policy, if any, that may answer one command otherwise; or `None`, if the policies say the same by these
/// rows. Returns `AllocError` if allocation fails.
pub(crate) fn first_overlap<'a>(
    alloc: Global,
    old: &[Ruled<'a>],
    new: &[Ruled<'a>],
) -> Result<Option<Overlap<'a>>, AllocError>
    ensures none { IfOk result (λ found. is_some found ≡ false
        → RowsSaySame (body.all_shown old.now) (body.all_shown new.now)) }
    ensures are_open { IfOk result (λ found. IfSome found (body.AreOpen old.now new.now)) }
{
    let front = same_front(old, new);
    let back = same_back(&old[front..], &new[front..]);
    let rows = Rows::of(alloc, old, new, front, back)?;
    Ok(rows.first_unlike())
}

/// Returns the same of the rows of a trial. Returns `AllocError` if allocation fails.
pub(crate) fn tried_overlap<'t>(
    alloc: Global,
    trial: &Trial<'t, '_>,
) -> Result<Option<Overlap<'t>>, AllocError>
    requires { IsTrial trial.now }
    ensures none { IfOk result (λ found. is_some found ≡ false
        → RowsSaySame (body.all_shown trial.now.old_rows.now)
        (body.all_shown trial.now.new_rows.now)) }
    ensures are_open { IfOk result (λ found. IfSome found (body.AreOpen trial.now.old_rows.now
        trial.now.new_rows.now)) }
{
    let (old, new) = (trial.old_rows, trial.new_rows);
    let front = same_front(old, new);
    let back = same_back(&old[front..], &new[front..]);
    let rows = Rows::tried(alloc, trial, front, back)?;
    Ok(rows.first_unlike())
}
