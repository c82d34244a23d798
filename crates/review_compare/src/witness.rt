//! Commands that two policies answer otherwise.
ghost use Rattle.std.specs.Prelude.{◌≡◌, All, IfOk, IfSome, OnOk, true};
ghost use Rattle.review_compare.specs.Cells as cells;
ghost use Rattle.review_compare.specs.Lines.{Choice, is_unnoted};
ghost use Rattle.review_compare.specs.Body.Shown as body;

use crate::answer::{Answer, answer_between};
use crate::ruling::{Ruled, is_unnoted};
use std::alloc::{AllocError, Global};
use sudo_match::Verdict;
use sudo_text::Seq;

/// A command that two policies answer differently, with both verdicts, which depend on no noted condition.
#[derive(Debug, Drop, PartialEq, Eq)]
pub struct Witness {
    /// The command, by its path.
    pub command: Seq<u8>,
    /// Its arguments, joined by spaces.
    pub arguments: Seq<u8>,
    /// The verdict of the old policy.
    pub old: Verdict,
    /// The verdict of the new policy.
    pub new: Verdict,
    /// What the change does.
    pub answer: Answer,
}

// Returns the verdict of a row on a command that it fits, if nothing is noted before it.
fn verdict_by(row: &Ruled<'_>) -> Option<Verdict>
    ensures { IfSome result (λ v. (is_unnoted row.entry.now.before.now ≡ true)
        × (v ≡ cells.answered_by row.entry.now.place row.entry.now.answer)) }
{
    if !is_unnoted(row.before) {
        return None;
    }
    match row.answer {
        None => Some(Verdict::Deny { place: row.place }),
        Some(tags) => Some(Verdict::Allow {
            place: row.place,
            tags,
        }),
    }
}

/// Returns the verdict of the last row that fits the command, if no note precedes that row: then it depends on no noted condition.
pub(crate) fn sure_verdict(rows: &[Ruled<'_>], command: &[u8], arguments: &[u8]) -> Option<Verdict>
    ensures { IfSome result (λ v. (met : Choice) → v
        ≡ cells.verdict_among met (body.all_shown rows.entry.now) command.entry.now
        arguments.entry.now) }
{
    let mut end = rows.len();
    while end > 0 {
        end -= 1;
        let row = &rows[end];
        if row.shape.fits(command, arguments) {
            return verdict_by(row);
        }
    }
    Some(Verdict::NoMatch)
}

/// Returns the command as a witness, if both lists of rows do not say the same to it, whichever noted conditions hold. Returns
/// `AllocError` if allocation fails.
pub(crate) fn witness_of(
    alloc: Global,
    old: &[Ruled<'_>],
    new: &[Ruled<'_>],
    command: &[u8],
    arguments: &[u8],
) -> Result<Option<Witness>, AllocError>
    ensures is { IfOk result (λ found. IfSome found (body.IsShownWitness old.now new.now)) }
    ensures of { IfOk result (λ found. IfSome found (λ w. (w.command ≡ command.now)
        × (w.arguments ≡ arguments.now))) }
{
    let Some(before) = sure_verdict(old, command, arguments) else {
        return Ok(None);
    };
    let Some(after) = sure_verdict(new, command, arguments) else {
        return Ok(None);
    };
    let Some(answer) = answer_between(&before, &after) else {
        return Ok(None);
    };
    Ok(Some(Witness {
        command: Seq::from_slice(alloc, command)?,
        arguments: Seq::from_slice(alloc, arguments)?,
        old: before,
        new: after,
        answer,
    }))
}
