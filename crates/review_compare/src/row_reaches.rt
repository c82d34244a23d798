//! Up to where the near rows of each block have one that applies wherever a row of the change does: looked up once for all comparisons.
ghost use Rattle.std.specs.Prelude.{◌≡◌, ◌<◌, All, get_or, IfOk, IfSome, length, map, OnOk, true};
ghost use Rattle.review_compare.specs.declared.row_reaches.RowReaches.{RowReaches as TheRowReaches};
ghost use Rattle.review_compare.specs.Cells.{lined_of};
ghost use Rattle.review_compare.specs.Body.Chosen.{chosen, deciders_at};
ghost use Rattle.review_compare.specs.Body.Reaches as body;
ghost use Rattle.review_compare.specs.Body.RowReaches as spec;
ghost use Rattle.review_compare.specs.Body.Shown.{all_shown, is_covered_by, shown};
ghost use Rattle.review_compare.specs.Body.Trials.{IsTrial};

use crate::alike::{are_same_atoms, is_same_atom};
use crate::block::{Block, BlockRow};
use crate::common::Common;
use crate::near::{Parts, middle};
use crate::probes::row_count;
use crate::reach::{Reach, reach_in};
use crate::ruling::Ruled;
use crate::side::{Side, push_rows};
use crate::text::atom_copied;
use crate::trials::Trial;
use std::alloc::{AllocError, Global};
use sudo_grammar::Atom;
use sudo_text::Place;

/// A row of the change: what stands before its command, and the command; and how many near rows of each block of a policy there are up to
/// the last that applies wherever it does.
#[derive(Drop)]
pub(crate) struct RowReaches<'a> {
    before: &'a [Atom],
    atom: Atom,
    counts: Vec<usize>,
}

/// The rows of the change, with their reaches in the blocks of both policies; none, if there are too many.
#[derive(Drop)]
pub(crate) struct Reaches<'a> {
    old: Vec<RowReaches<'a>>,
    new: Vec<RowReaches<'a>>,
}

// Returns how many rows of a block there are up to the last that applies wherever the row does.
fn count_in(alloc: Global, block: &Block<'_>, row: &Ruled<'_>) -> Result<usize, AllocError>
    ensures { IfOk result (λ count. count ≡ spec.reach_in (lined_of (shown row.now)) block.now) }
{
    let mut rows = Vec::new(alloc);
    push_rows(block, &mut rows)?;
    Ok(reach_in(&rows, row))
}

// Returns how many rows of each block there are up to the last that applies wherever the row does.
fn counts_of(alloc: Global, blocks: &[Block<'_>], row: &Ruled<'_>) -> Result<Vec<usize>, AllocError>
    ensures { IfOk result (λ counts. counts.items
        ≡ map (spec.reach_in (lined_of (shown row.now))) blocks.now) }
{
    let mut counts = Vec::new(alloc);
    for block in blocks {
        counts.push(count_in(alloc, block, row)?)?;
    }
    Ok(counts)
}

impl<'a> RowReaches<'a> {
    // Returns the reaches of a row of a block at the place, in these blocks.
    fn of(
        alloc: Global,
        blocks: &[Block<'_>],
        place: Place,
        row: &BlockRow<'a>,
    ) -> Result<RowReaches<'a>, AllocError>
        ensures { IfOk result (spec.AreReaches blocks.now) }
    {
        let ruled = Ruled {
            place,
            answer: row.answer,
            before: row.before,
            shape: &row.shape,
        };
        let counts = counts_of(alloc, blocks, &ruled)?;
        let atom = atom_copied(alloc, &row.shape.atom)?;
        Ok(RowReaches {
            before: row.before,
            atom,
            counts,
        })
    }

    // Whether they are those of this row.
    fn is_of(&self, row: &Ruled<'_>) -> bool
        ensures { result ≡ true → spec.lined_by self.now ≡ lined_of (shown row.now) }
    {
        if !is_same_atom(&self.atom, &row.shape.atom) {
            return false;
        }
        are_same_atoms(self.before, row.before)
    }

    // Returns how many rows the block at an index has, and how many there are up to the last that applies wherever this one does.
    fn in_block(&self, blocks: &[Block<'_>], index: usize) -> (usize, usize)
        requires { spec.AreReaches blocks.now self.now }
        ensures { (result.0 ≡ length (deciders_at blocks.now index))
            × (result.1 ≡ body.reach (deciders_at blocks.now index) (spec.lined_by self.now)) }
    {
        match (blocks.get(index), self.counts.get(index)) {
            (Some(block), Some(count)) => (block.rows.len(), *count),
            _ => (0, 0),
        }
    }

    // Returns how many rows of the blocks at these indices there are up to the last that applies wherever this one does. The total is the
    // number of all of them.
    fn among(&self, blocks: &[Block<'_>], indices: &[usize], total: usize) -> usize
        requires reaches { spec.AreReaches blocks.now self.now }
        requires total { total ≡ length (chosen blocks.now indices.now) }
        ensures { result ≡ body.reach (chosen blocks.now indices.now) (spec.lined_by self.now) }
    {
        let mut left = total;
        let mut end = indices.len();
        while end > 0 {
            end -= 1;
            let (rows, own) = self.in_block(blocks, indices[end]);
            left -= rows;
            if own > 0 {
                return left + own;
            }
        }
        0
    }

    // Whether a row of the blocks at these indices applies wherever this one does.
    fn is_covered_in(&self, blocks: &[Block<'_>], indices: &[usize]) -> bool
        requires { spec.AreReaches blocks.now self.now }
        ensures { result ≡ true
            → is_covered_by (chosen blocks.now indices.now) (spec.lined_by self.now) ≡ true }
    {
        let mut end = indices.len();
        while end > 0 {
            end -= 1;
            let (_, own) = self.in_block(blocks, indices[end]);
            if own > 0 {
                return true;
            }
        }
        false
    }
}

// Appends the reaches of the rows of a block.
fn push_block<'a>(
    alloc: Global,
    parts: &[Block<'_>],
    block: &Block<'a>,
    all: &mut Vec<RowReaches<'a>>,
) -> Result<(), AllocError>
    requires { All (spec.AreReaches parts.now) all.old.items }
    ensures { OnOk result (All (spec.AreReaches parts.entry.now) all.new.items) }
{
    for row in &block.rows {
        all.push(RowReaches::of(alloc, parts, block.place, row)?)?;
    }
    Ok(())
}

// Appends the reaches of the rows of the blocks at these indices.
fn push_blocks<'a>(
    alloc: Global,
    parts: &[Block<'_>],
    blocks: &[Block<'a>],
    indices: &[usize],
    all: &mut Vec<RowReaches<'a>>,
) -> Result<(), AllocError>
    requires { All (spec.AreReaches parts.now) all.old.items }
    ensures { OnOk result (All (spec.AreReaches parts.entry.now) all.new.items) }
{
    for index in indices {
        if let Some(block) = blocks.get(*index) {
            push_block(alloc, parts, block, all)?;
        }
    }
    Ok(())
}

// Returns the rows between the common prefix and suffix, of both policies, with their reaches in these blocks.
fn reaches_in<'a>(
    alloc: Global,
    old: &Side<'a>,
    new: &Side<'a>,
    common: Common,
    parts: &[Block<'_>],
) -> Result<Vec<RowReaches<'a>>, AllocError>
    ensures { IfOk result (λ all. All (spec.AreReaches parts.now) all.items) }
{
    let old_middle = middle(alloc, &old.blocks, common)?;
    let new_middle = middle(alloc, &new.blocks, common)?;
    let mut all = Vec::new(alloc);
    push_blocks(alloc, parts, &old.blocks, &old_middle, &mut all)?;
    push_blocks(alloc, parts, &new.blocks, &new_middle, &mut all)?;
    Ok(all)
}

// The most pairs of a row of the change and a near row for which this is looked up.
const MOST_PAIRS: usize = 4_000_000;

// Returns how many rows the blocks at these indices have.
fn count_at(blocks: &[Block<'_>], indices: &[usize]) -> usize {
    let mut count = 0usize;
    for index in indices {
        if let Some(block) = blocks.get(*index) {
            count = count.saturating_add(block.rows.len());
        }
    }
    count
}

// Whether there are too many rows of the change, or too many near rows.
fn are_too_many(
    alloc: Global,
    old: &Side<'_>,
    new: &Side<'_>,
    common: Common,
    parts: &Parts<'_>,
) -> Result<bool, AllocError> {
    let old_middle = middle(alloc, &old.blocks, common)?;
    let new_middle = middle(alloc, &new.blocks, common)?;
    let changed = count_at(&old.blocks, &old_middle);
    let changed = changed.saturating_add(count_at(&new.blocks, &new_middle));
    let near = row_count(&parts.old).saturating_add(row_count(&parts.new));
    Ok(changed.saturating_mul(near) > MOST_PAIRS)
}

impl<'a> Reaches<'a> {
    /// Returns the rows between the common prefix and suffix, of both policies, with their reaches in the parts. Returns `AllocError` if
    /// allocation fails.
    pub(crate) fn of(
        alloc: Global,
        old: &Side<'a>,
        new: &Side<'a>,
        common: Common,
        parts: &Parts<'_>,
    ) -> Result<Reaches<'a>, AllocError>
        ensures { IfOk result (spec.HaveReaches parts.now) }
    {
        if are_too_many(alloc, old, new, common, parts)? {
            return Ok(Reaches {
                old: Vec::new(alloc),
                new: Vec::new(alloc),
            });
        }
        let own = reaches_in(alloc, old, new, common, &parts.old)?;
        let others = reaches_in(alloc, old, new, common, &parts.new)?;
        Ok(Reaches {
            old: own,
            new: others,
        })
    }
}

// Returns the index of the reaches of this row, if it is one of those; the one at `likely` is tried first.
fn index_of(all: &[RowReaches<'_>], row: &Ruled<'_>, likely: usize) -> Option<usize>
    ensures { IfSome result (λ i. (i < length all.now) × ((d : TheRowReaches)
        → spec.lined_by (get_or all.now i d) ≡ lined_of (shown row.now))) }
{
    if likely < all.len() && all[likely].is_of(row) {
        return Some(likely);
    }
    for index in 0..all.len() {
        if all[index].is_of(row) {
            return Some(index);
        }
    }
    None
}

impl Reaches<'_> {
    /// Whether a row of these blocks of the new policy applies wherever the row does, as far as it was looked up. The reaches at `likely`
    /// are tried first, and the index behind those that were found is put there.
    pub(crate) fn is_covered_in(
        &self,
        parts: &Parts<'_>,
        row: &Ruled<'_>,
        indices: &[usize],
        likely: &mut usize,
    ) -> bool
        requires { spec.HaveReaches parts.now self.now }
        ensures { result ≡ true
            → is_covered_by (chosen parts.now.new.items indices.now) (lined_of (shown row.now)) ≡ true }
    {
        match index_of(&self.new, row, *likely) {
            None => false,
            Some(index) => {
                *likely = index.wrapping_add(1);
                self.new[index].is_covered_in(&parts.new, indices)
            }
        }
    }
}

// Returns how many of the rows, which are those of the blocks at these indices, there are up to the last that applies wherever the row
// does: by what was looked up, if it is one of those.
fn known_reach(
    all: &[RowReaches<'_>],
    blocks: &[Block<'_>],
    indices: &[usize],
    rows: &[Ruled<'_>],
    row: &Ruled<'_>,
    likely: usize,
) -> usize
    requires all { All (spec.AreReaches blocks.now) all.now }
    requires rows { all_shown rows.now ≡ chosen blocks.now indices.now }
    ensures { result ≡ body.reach (all_shown rows.now) (lined_of (shown row.now)) }
{
    match index_of(all, row, likely) {
        Some(index) => all[index].among(blocks, indices, rows.len()),
        None => reach_in(rows, row),
    }
}

// Returns up to where both policies' rows of the trial have one that applies wherever the row does.
fn reach_by(trial: &Trial<'_, '_>, row: &Ruled<'_>, likely: usize) -> Reach
    requires { IsTrial trial.now }
    ensures { result ≡ body.reach_of trial.now.old_rows.now trial.now.new_rows.now row.now }
{
    let (parts, all) = (trial.parts, trial.reaches);
    let (own, others) = (trial.old_rows, trial.new_rows);
    Reach {
        old: known_reach(&all.old, &parts.old, trial.old, own, row, likely),
        new: known_reach(&all.new, &parts.new, trial.new, others, row, likely),
    }
}

// Returns the index behind that of the reaches of this row, if it is one of those.
fn index_after(all: &[RowReaches<'_>], row: &Ruled<'_>, likely: usize) -> usize {
    match index_of(all, row, likely) {
        Some(index) => index.wrapping_add(1),
        None => likely,
    }
}

/// Returns for each of the rows up to where both policies' rows of the trial have one that applies wherever it does. Returns `AllocError`
/// if allocation fails.
pub(crate) fn reaches_by(
    alloc: Global,
    trial: &Trial<'_, '_>,
    rows: &[Ruled<'_>],
) -> Result<Vec<Reach>, AllocError>
    requires { IsTrial trial.now }
    ensures { IfOk result (λ reaches. reaches.items
        ≡ map (body.reach_of trial.now.old_rows.now trial.now.new_rows.now) rows.now) }
{
    let mut reaches = Vec::new(alloc);
    let mut likely = 0;
    for row in rows {
        reaches.push(reach_by(trial, row, likely))?;
        likely = index_after(&trial.reaches.old, row, likely);
    }
    Ok(reaches)
}
