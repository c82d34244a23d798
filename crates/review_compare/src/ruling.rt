//! Rows of policies for a target, and tests on pairs of them.
ghost use Rattle.std.specs.Prelude.{◌≡◌};
ghost use Rattle.review_compare.specs.Cells as cells;
ghost use Rattle.review_compare.specs.Lines as lines;
ghost use Rattle.review_compare.specs.Body.Shown as body;

use crate::shape::{Shape, same_command, same_commands};
use sudo_grammar::Atom;
use sudo_match::Tags;
use sudo_text::Place;

/// A row for a target: what it answers to the commands that its own fits.
#[derive(Clone, Copy)]
pub(crate) struct Ruled<'a> {
    pub(crate) place: Place,
    /// The tags that it leaves with, or nothing where it refuses.
    pub(crate) answer: Option<Tags>,
    /// What stands before its command in its line, where a note is among that.
    pub(crate) before: &'a [Atom],
    pub(crate) shape: &'a Shape,
}

/// A row of each policy, if any, that may answer one command otherwise.
#[derive(Clone, Copy)]
pub(crate) struct Overlap<'a> {
    pub(crate) old: Option<Ruled<'a>>,
    pub(crate) new: Option<Ruled<'a>>,
}

/// Whether no note stands before the command of a row.
pub(crate) fn is_unnoted(before: &[Atom]) -> bool
    ensures { result ≡ lines.is_unnoted before.now }
{
    match before {
        [] => true,
        _ => false,
    }
}

/// Whether the commands of both rows are written alike, and so is what stands before them.
pub(crate) fn is_same_lined(row: &Ruled<'_>, other: &Ruled<'_>) -> bool
    ensures { result ≡ cells.same_lined (cells.lined_of (body.shown row.now))
        (cells.lined_of (body.shown other.now)) }
{
    same_command(&row.shape.atom, &other.shape.atom) && same_commands(row.before, other.before)
}

/// Whether the row applies wherever the other does: it covers the command, and nothing is noted before it, or what is before
/// the other.
pub(crate) fn covers_where(row: &Ruled<'_>, other: &Ruled<'_>) -> bool
    ensures { result ≡ cells.covers_where (cells.lined_of (body.shown row.now))
        (cells.lined_of (body.shown other.now)) }
{
    row.shape.covers(other.shape) && (is_unnoted(row.before) || is_same_lined(row, other))
}
