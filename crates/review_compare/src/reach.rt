//! Up to where the rows of two policies have one that applies wherever a row does.
ghost use Rattle.std.specs.Prelude.{◌≡◌, ◌||◌, drop, IfOk, map, nat_lt};
ghost use Rattle.review_compare.specs.Cells as cells;
ghost use Rattle.review_compare.specs.Body.Reaches as body;
ghost use Rattle.review_compare.specs.Body.Shown.{all_shown, is_covered_by, shown};

use crate::ruling::{Ruled, covers_where};
use std::alloc::{AllocError, Global};

/// How many rows there are in each policy up to the last that applies wherever a row does; 0 if none does.
#[derive(Clone, Copy)]
pub(crate) struct Reach {
    pub(crate) old: usize,
    pub(crate) new: usize,
}

impl Reach {
    /// Whether one of the rows from these on, of the old policy or of the new one, applies wherever the row does.
    pub(crate) fn is_past(self, old_from: usize, new_from: usize) -> bool
        ensures { result ≡ (nat_lt old_from self.old || nat_lt new_from self.new) }
    {
        old_from < self.old || new_from < self.new
    }
}

/// Returns how many of the rows there are up to the last that applies wherever the other does.
pub(crate) fn reach_in(rows: &[Ruled<'_>], other: &Ruled<'_>) -> usize
    ensures { result ≡ body.reach (all_shown rows.now) (cells.lined_of (shown other.now)) }
{
    let mut end = rows.len();
    while end > 0 {
        end -= 1;
        if covers_where(&rows[end], other) {
            return end + 1;
        }
    }
    0
}

/// Whether one of the rows from these on applies wherever the other does.
pub(crate) fn is_covered_from(rows: &[Ruled<'_>], from: usize, other: &Ruled<'_>) -> bool
    ensures { result ≡ is_covered_by (all_shown (drop from rows.now))
        (cells.lined_of (shown other.now)) }
{
    for index in from..rows.len() {
        if covers_where(&rows[index], other) {
            return true;
        }
    }
    false
}

// Returns up to where both policies have a row that applies wherever the row does.
fn reach_of(old: &[Ruled<'_>], new: &[Ruled<'_>], row: &Ruled<'_>) -> Reach
    ensures { result ≡ body.reach_of old.now new.now row.now }
{
    Reach {
        old: reach_in(old, row),
        new: reach_in(new, row),
    }
}

/// Returns for each of the rows up to where both policies have one that applies wherever it does. Returns `AllocError` if
/// allocation fails.
pub(crate) fn reaches_of(
    alloc: Global,
    old: &[Ruled<'_>],
    new: &[Ruled<'_>],
    rows: &[Ruled<'_>],
) -> Result<Vec<Reach>, AllocError>
    ensures { IfOk result (λ reaches. reaches.items ≡ map (body.reach_of old.now new.now) rows.now) }
{
    let mut reaches = Vec::new(alloc);
    for row in rows {
        reaches.push(reach_of(old, new, row))?;
    }
    Ok(reaches)
}
