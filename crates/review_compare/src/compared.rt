//! What two policies say to the commands of a cell: a user on a host who asks for a target and a group.
ghost use Rattle.std.specs.Prelude.{◌≡◌, ◌⊎◌, ◌<◌, IfOk, IfSome, length, map, option_map, true};
ghost use Rattle.review_compare.specs.Body.Shown as body;
ghost use Rattle.review_compare.specs.Body.Trials.{IsTrial};
ghost use Rattle.review_compare.specs.Unsettled as unsettled;
ghost use Rattle.review_compare.specs.Witnesses as witnesses;

use crate::alike::{are_same_atoms, is_same_atom};
use crate::answer::is_same_answer;
use crate::changed::Changed;
use crate::overlap::{first_overlap, tried_overlap};
use crate::ruling::{Overlap, Ruled, is_unnoted};
use crate::text::atom_copied;
use crate::trials::{Trial, witnesses};
use crate::witness::Witness;
use std::alloc::{AllocError, Global};
use sudo_grammar::Atom;
use sudo_match::Tags;
use sudo_text::{Place, Seq};

/// What two policies say to the commands of a cell.
#[derive(Debug, Drop, PartialEq, Eq)]
pub enum Compared {
    /// The same to each.
    Same,
    /// Different answers to these commands: at most one command for each kind of change.
    Differs(Seq<Witness>),
    /// Not settled: a command that these two rows match may have different answers. They do not answer alike, no row behind them
    /// covers one of them, and they are not seen to be disjoint; or one stands in place of such a row, and something is noted
    /// before it; or there are more than a thousand rows. If something is noted before a row near the change that may match the
    /// command too, then before one of these.
    May {
        /// The row of the old policy.
        old: Option<Decider>,
        /// The row of the new policy.
        new: Option<Decider>,
    },
}

/// A row for a target: what it answers to the commands that its own fits.
#[derive(Debug, Drop, PartialEq, Eq)]
pub struct Decider {
    /// The place of its rule.
    pub place: Place,
    /// The tags that it leaves with, or nothing where it refuses.
    pub answer: Option<Tags>,
    /// Its command.
    pub atom: Atom,
}

// Returns a row by itself.
fn decider_of(alloc: Global, row: Option<Ruled<'_>>) -> Result<Option<Decider>, AllocError>
    ensures { IfOk result (λ own. own ≡ option_map unsettled.named (body.shown_if row.entry)) }
{
    match row {
        None => Ok(None),
        Some(row) => Ok(Some(Decider {
            place: row.place,
            answer: row.answer,
            atom: atom_copied(alloc, &row.shape.atom)?,
        })),
    }
}

// Returns that the policies may answer otherwise what these rows fit.
fn may(alloc: Global, overlap: Overlap<'_>) -> Result<Compared, AllocError>
    ensures { IfOk result (λ found. found ≡ body.may_of overlap.entry) }
{
    Ok(Compared::May {
        old: decider_of(alloc, overlap.old)?,
        new: decider_of(alloc, overlap.new)?,
    })
}

// Whether something is noted before the row, if there is one.
fn is_noted(row: Option<Ruled<'_>>) -> bool {
    match row {
        None => false,
        Some(row) => !is_unnoted(row.before),
    }
}

// Whether something is noted before one of two rows.
fn is_either_noted(row: Option<Ruled<'_>>, other: Option<Ruled<'_>>) -> bool {
    is_noted(row) || is_noted(other)
}

// Whether both rows may fit one command, if there are both.
fn meet(own: Option<Ruled<'_>>, row: &Ruled<'_>) -> bool
    ensures { result ≡ unsettled.meets (body.shown_if own.entry) (body.shown row.now) }
{
    match own {
        None => false,
        Some(own) => !own.shape.is_disjoint(row.shape),
    }
}

// Whether something is noted before the row, and it meets one of these.
fn is_noted_beside(overlap: Overlap<'_>, row: &Ruled<'_>) -> bool
    ensures { result ≡ unsettled.is_noted_beside (body.shown_if overlap.entry.old)
        (body.shown_if overlap.entry.new) (body.shown row.now) }
{
    !is_unnoted(row.before) && (meet(overlap.old, row) || meet(overlap.new, row))
}

// Returns the last row that meets one of these and before which something is noted, if there is one.
fn last_noted<'a>(overlap: Overlap<'_>, rows: &[Ruled<'a>]) -> Option<Ruled<'a>>
    ensures { IfSome result (body.IsBeside rows.now overlap.entry) }
{
    let mut end = rows.len();
    while end > 0 {
        end -= 1;
        let row = &rows[end];
        if is_noted_beside(overlap, row) {
            return Some(*row);
        }
    }
    None
}

// Returns the row if there is one, and otherwise the last noted row.
fn or_noted<'a>(
    overlap: Overlap<'_>,
    rows: &[Ruled<'a>],
    own: Option<Ruled<'a>>,
) -> Option<Ruled<'a>>
    ensures { body.Stands rows.now overlap.entry own.entry result }
{
    match own {
        Some(row) => Some(row),
        None => last_noted(overlap, rows),
    }
}

// Returns the last noted row if there is one, and otherwise this row.
fn noted_or<'a>(
    overlap: Overlap<'_>,
    rows: &[Ruled<'a>],
    own: Option<Ruled<'a>>,
) -> Option<Ruled<'a>>
    ensures { body.Stands rows.now overlap.entry own.entry result }
{
    match last_noted(overlap, rows) {
        Some(noted) => Some(noted),
        None => own,
    }
}

// Returns the rows that may answer otherwise, of those near the change. A row before which something is noted, and which meets
// one of these, stands where none does; and in place of one, if nothing is noted before either.
fn with_noted<'a>(overlap: Overlap<'a>, old: &[Ruled<'a>], new: &[Ruled<'a>]) -> Overlap<'a>
    ensures { body.StandFor old.now new.now overlap.entry result }
{
    let own = or_noted(overlap, old, overlap.old);
    let other = or_noted(overlap, new, overlap.new);
    if is_either_noted(own, other) {
        return Overlap {
            old: own,
            new: other,
        };
    }
    match last_noted(overlap, new) {
        Some(noted) => Overlap {
            old: own,
            new: Some(noted),
        },
        None => Overlap {
            old: noted_or(overlap, old, own),
            new: other,
        },
    }
}

// Returns the last row, if there is one.
fn last_row<'a>(rows: &[Ruled<'a>]) -> Option<Ruled<'a>>
    ensures { IfSome result (body.IsRow rows.now) }
{
    rows.last().copied()
}

// The most rows of a policy that are compared pair by pair.
const MOST_ROWS: usize = 1000;

/// Whether two rows answer the same to the same commands, and the same stands before both where something is noted.
pub(crate) fn is_same_ruling(row: &Ruled<'_>, other: &Ruled<'_>) -> bool
    ensures { result ≡ true → body.ruling_of row.now ≡ body.ruling_of other.now }
{
    if !is_same_answer(&row.answer, &other.answer) {
        return false;
    }
    if !is_same_atom(&row.shape.atom, &other.shape.atom) {
        return false;
    }
    are_same_atoms(row.before, other.before)
}

/// Whether the rows answer the same, one by one.
pub(crate) fn have_same_rulings(rows: &[Ruled<'_>], others: &[Ruled<'_>]) -> bool
    ensures { result ≡ true → map body.ruling_of rows.now ≡ map body.ruling_of others.now }
{
    if rows.len() != others.len() {
        return false;
    }
    for index in 0..rows.len() {
        if !is_same_ruling(&rows[index], &others[index]) {
            return false;
        }
    }
    true
}

// Returns that rows near the change are open, with those that are named for them.
fn open_may(
    alloc: Global,
    changed: &Changed<'_, '_>,
    overlap: Overlap<'_>,
) -> Result<Compared, AllocError>
    requires { body.AreOpen changed.now.old.items changed.now.new.items overlap }
    ensures { IfOk result (witnesses.IsCompared (body.all_shown changed.now.all_old.now)
        (body.all_shown changed.now.all_new.now)) }
{
    may(alloc, with_noted(overlap, &changed.old, &changed.new))
}

// Returns that there are too many rows near the change, with the last of each policy.
fn many_may(alloc: Global, changed: &Changed<'_, '_>) -> Result<Compared, AllocError>
    requires { (unsettled.most_rows < length changed.now.old.items)
        ⊎ (unsettled.most_rows < length changed.now.new.items) }
    ensures { IfOk result (witnesses.IsCompared (body.all_shown changed.now.all_old.now)
        (body.all_shown changed.now.all_new.now)) }
{
    let old = last_row(&changed.old);
    let new = last_row(&changed.new);
    let last = Overlap { old, new };
    may(alloc, with_noted(last, &changed.old, &changed.new))
}

// Compares rows that differ, by the rows near these.
fn compared_changed(alloc: Global, changed: &Changed<'_, '_>) -> Result<Compared, AllocError>
    ensures { IfOk result (witnesses.IsCompared (body.all_shown changed.now.all_old.now)
        (body.all_shown changed.now.all_new.now)) }
{
    if changed.old.len() > MOST_ROWS {
        return many_may(alloc, changed);
    }
    if changed.new.len() > MOST_ROWS {
        return many_may(alloc, changed);
    }
    match first_overlap(alloc, &changed.old, &changed.new)? {
        None => Ok(Compared::Same),
        Some(overlap) => open_may(alloc, changed, overlap),
    }
}

// Compares rows of which no command is known to be answered otherwise, by tests on pairs of them.
fn compared_few(alloc: Global, trial: &Trial<'_, '_>) -> Result<Compared, AllocError>
    requires { IsTrial trial.now }
    ensures { IfOk result (witnesses.IsCompared (body.all_shown trial.now.old_rows.now)
        (body.all_shown trial.now.new_rows.now)) }
{
    match tried_overlap(alloc, trial)? {
        None => Ok(Compared::Same),
        Some(overlap) => may(alloc, with_noted(overlap, trial.old_rows, trial.new_rows)),
    }
}

// Compares rows of which no command is known to be answered otherwise, by tests on pairs of those near the rows that differ.
fn compared_many(alloc: Global, trial: &Trial<'_, '_>) -> Result<Compared, AllocError>
    ensures { IfOk result (witnesses.IsCompared (body.all_shown trial.now.old_rows.now)
        (body.all_shown trial.now.new_rows.now)) }
{
    let changed = Changed::between(alloc, trial.old_rows, trial.new_rows)?;
    compared_changed(alloc, &changed)
}

/// Compares the rows of two policies for a target: by commands that may be answered otherwise, and then by tests on pairs of
/// rows of which one differs. Where more than a thousand rows of one of the policies may fit a command of a row that differs,
/// nothing is known but by commands. What is noted may be met or not: the command of a witness is decided by rows before
/// which nothing is noted, and other rows cover the same rows alone. Returns `AllocError` if allocation fails.
pub(crate) fn compared_rows(alloc: Global, trial: &Trial<'_, '_>) -> Result<Compared, AllocError>
    requires { IsTrial trial.now }
    ensures { IfOk result (witnesses.IsCompared (body.all_shown trial.now.old_rows.now)
        (body.all_shown trial.now.new_rows.now)) }
{
    let found = witnesses(alloc, trial)?;
    if !found.is_empty() {
        return Ok(Compared::Differs(Seq::from_vec(found)));
    }
    if trial.old_rows.len() <= MOST_ROWS && trial.new_rows.len() <= MOST_ROWS {
        return compared_few(alloc, trial);
    }
    compared_many(alloc, trial)
}
