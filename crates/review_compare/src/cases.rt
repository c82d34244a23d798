//! What a policy may say to a request, as noted conditions hold or not.
ghost use Rattle.std.specs.Prelude.{◌≡◌, ◌&&◌, OnOk};
ghost use Rattle.review_compare.specs.Cases as spec;
ghost use Rattle.review_compare.specs.Cells as cells;
ghost use Rattle.review_compare.specs.Body.Asked as body;
ghost use Rattle.review_compare.specs.Body.Shown.{shown, all_shown};

use crate::answer::is_same_answer;
use crate::ruling::{Ruled, is_same_lined, is_unnoted};
use std::alloc::AllocError;
use sudo_match::Tags;

/// What a policy may say to a request: what it says if none of the rows applies, and rows before which something is noted, each of
/// which may apply or not. The last one that applies answers.
#[derive(Drop)]
pub(crate) struct Cases<'a> {
    pub(crate) otherwise: Option<Option<Tags>>,
    pub(crate) noted: Vec<Ruled<'a>>,
}

// Whether both say the same: the same answer, or none.
fn is_same_said(first: &Option<Option<Tags>>, second: &Option<Option<Tags>>) -> bool
    ensures { result ≡ cells.same_said first.now second.now }
{
    match (first, second) {
        (None, None) => true,
        (Some(own), Some(others)) => is_same_answer(own, others),
        _ => false,
    }
}

// Whether there is no row.
fn is_empty(rows: &[Ruled<'_>]) -> bool
    ensures { result ≡ spec.is_empty (all_shown rows.now) }
{
    match rows {
        [] => true,
        _ => false,
    }
}

impl<'a> Cases<'a> {
    // Whether the row answers what is said if no row applies, and no row stands between: so it adds nothing.
    fn has_said(&self, row: &Ruled<'_>) -> bool
        ensures { result ≡ spec.adds_nothing (body.shown_cases self.now) (shown row.now) }
    {
        is_empty(&self.noted) && is_same_said(&self.otherwise, &Some(row.answer))
    }

    /// Adds a further row that fits the command. Returns `AllocError` if allocation fails.
    pub(crate) fn add(&mut self, row: Ruled<'a>) -> Result<(), AllocError>
        ensures { OnOk result (body.shown_cases self.new
            ≡ spec.with_row (body.shown_cases self.old) (shown row.entry)) }
    {
        if is_unnoted(row.before) {
            self.otherwise = Some(row.answer);
            self.noted.clear();
            return Ok(());
        }
        if self.has_said(&row) {
            return Ok(());
        }
        self.noted.push(row)?;
        Ok(())
    }
}

// Whether both rows answer alike, and their commands are written alike, and so is what stands before these.
fn is_same_row(row: &Ruled<'_>, other: &Ruled<'_>) -> bool
    ensures { result ≡ spec.same_row (shown row.now) (shown other.now) }
{
    is_same_answer(&row.answer, &other.answer) && is_same_lined(row, other)
}

// Whether the rows are the same, one by one.
fn are_same_rows(rows: &[Ruled<'_>], others: &[Ruled<'_>]) -> bool
    ensures { result ≡ spec.same_rows (all_shown rows.now) (all_shown others.now) }
{
    if rows.len() != others.len() {
        return false;
    }
    for index in 0..rows.len() {
        if !is_same_row(&rows[index], &others[index]) {
            return false;
        }
    }
    true
}

/// Whether both are the same cases.
pub(crate) fn are_same_cases(first: &Cases<'_>, second: &Cases<'_>) -> bool
    ensures { result ≡ spec.same_cases (body.shown_cases first.now) (body.shown_cases second.now) }
{
    is_same_said(&first.otherwise, &second.otherwise) && are_same_rows(&first.noted, &second.noted)
}
