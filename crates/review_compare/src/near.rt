//! The blocks near a change: those with a row that may fit a command that a row of a block between the common prefix and suffix
//! fits. The comparison of such rows of these blocks holds for all rows.
ghost use Rattle.std.specs.Prelude.{◌≡◌, ◌++◌, ◌∷◌, [], IfOk, map, OnOk};
ghost use Rattle.review_compare.specs.Body.Chosen.{deciders_of};
ghost use Rattle.review_compare.specs.Body.Near as body;
ghost use Rattle.review_compare.specs.Body.Shown.{all_shown};

use crate::block::{Block, BlockRow};
use crate::changed::is_near;
use crate::common::Common;
use crate::ruling::Ruled;
use crate::shape::Shape;
use crate::side::{Side, push_if, rows_at};
use crate::spot::Listed;
use crate::text::atom_copied;
use std::alloc::{AllocError, Global};
use sudo_text::Place;

/// Returns the indices of the blocks between the common prefix and suffix. Returns `AllocError` if allocation fails.
pub(crate) fn middle(
    alloc: Global,
    blocks: &[Block<'_>],
    common: Common,
) -> Result<Vec<usize>, AllocError>
    ensures { IfOk result (λ indices. indices.items ≡ body.middle common blocks.now) }
{
    let mut indices = Vec::new(alloc);
    for index in common.front..blocks.len().saturating_sub(common.back) {
        indices.push(index)?;
    }
    Ok(indices)
}

// Appends rows.
fn push_all<'a>(rows: &[Ruled<'a>], all: &mut Vec<Ruled<'a>>) -> Result<(), AllocError>
    ensures { OnOk result (all_shown all.new.items
        ≡ all_shown all.old.items ++ all_shown rows.now) }
{
    for row in rows {
        all.push(*row)?;
    }
    Ok(())
}

/// Returns the rows of the blocks between the common prefix and suffix, of both policies. Returns `AllocError` if allocation fails.
pub(crate) fn changed_rows<'b>(
    alloc: Global,
    old: &'b [Block<'_>],
    new: &'b [Block<'_>],
    common: Common,
) -> Result<Vec<Ruled<'b>>, AllocError>
    ensures { IfOk result (λ rows. all_shown rows.items
        ≡ body.changed_rows common old.now new.now) }
{
    let old_middle = middle(alloc, old, common)?;
    let new_middle = middle(alloc, new, common)?;
    let mut rows = rows_at(alloc, old, &old_middle)?;
    let more = rows_at(alloc, new, &new_middle)?;
    push_all(&more, &mut rows)?;
    Ok(rows)
}

// Whether one of the rows is near the changed ones.
fn has_near(changed: &[Ruled<'_>], rows: &[Ruled<'_>]) -> bool
    ensures { result ≡ body.has_near (all_shown changed.now) (all_shown rows.now) }
{
    for row in rows {
        if is_near(changed, row) {
            return true;
        }
    }
    false
}

// Returns the indices of the blocks with a row that is near the changed ones.
fn near_blocks(
    alloc: Global,
    changed: &[Ruled<'_>],
    blocks: &[Block<'_>],
) -> Result<Vec<usize>, AllocError>
    ensures { IfOk result (λ near. near.items
        ≡ body.near_at (all_shown changed.now) blocks.now) }
{
    let mut near = Vec::new(alloc);
    for index in 0..blocks.len() {
        let rows = rows_at(alloc, blocks, &[index])?;
        push_if(&mut near, index, has_near(changed, &rows))?;
    }
    Ok(near)
}

// Appends a copy of a row of a block at the place, if it is near the changed ones.
fn push_near<'a>(
    alloc: Global,
    changed: &[Ruled<'_>],
    place: Place,
    row: &BlockRow<'a>,
    near: &mut Vec<BlockRow<'a>>,
) -> Result<(), AllocError>
    ensures { OnOk result (map (body.row_decider place) near.new.items
        ≡ map (body.row_decider place) near.old.items
        ++ body.near_of (all_shown changed.now) (body.row_decider place row.now ∷ [])) }
{
    let ruled = Ruled {
        place,
        answer: row.answer,
        before: row.before,
        shape: &row.shape,
    };
    if is_near(changed, &ruled) {
        let atom = atom_copied(alloc, &row.shape.atom)?;
        let shape = Shape::of(alloc, atom)?;
        near.push(BlockRow {
            answer: row.answer,
            before: row.before,
            shape,
        })?;
    }
    Ok(())
}

// Returns the block with its near rows alone.
fn near_part<'a>(
    alloc: Global,
    changed: &[Ruled<'_>],
    block: &Block<'a>,
) -> Result<Block<'a>, AllocError>
    ensures { IfOk result (λ part. deciders_of part
        ≡ body.near_of (all_shown changed.now) (deciders_of block.now)) }
{
    let mut rows = Vec::new(alloc);
    for row in &block.rows {
        push_near(alloc, changed, block.place, row, &mut rows)?;
    }
    Ok(Block {
        place: block.place,
        users: block.users,
        hosts: block.hosts,
        runas: block.runas,
        rows,
    })
}

// Returns the blocks, each with its near rows alone.
fn near_parts<'a>(
    alloc: Global,
    changed: &[Ruled<'_>],
    blocks: &[Block<'a>],
) -> Result<Vec<Block<'a>>, AllocError>
    ensures { IfOk result (λ parts. body.AreParts (all_shown changed.now) blocks.now
        parts.items) }
{
    let mut parts = Vec::new(alloc);
    for block in blocks {
        let part = near_part(alloc, changed, block)?;
        parts.push(part)?;
    }
    Ok(parts)
}

/// The blocks of both policies, each with its near rows alone.
#[derive(Drop)]
pub(crate) struct Parts<'a> {
    pub(crate) old: Vec<Block<'a>>,
    pub(crate) new: Vec<Block<'a>>,
}

/// Returns the blocks of both policies, each with its rows near a change alone. Returns `AllocError` if allocation fails.
pub(crate) fn parts_near<'a>(
    alloc: Global,
    old: &Side<'a>,
    new: &Side<'a>,
    common: Common,
) -> Result<Parts<'a>, AllocError>
    ensures old { IfOk result (λ parts. body.HaveParts (body.changed_rows common
        old.now.blocks.items new.now.blocks.items) old.now.blocks.items parts.old.items) }
    ensures new { IfOk result (λ parts. body.HaveParts (body.changed_rows common
        old.now.blocks.items new.now.blocks.items) new.now.blocks.items parts.new.items) }
{
    let changed = changed_rows(alloc, &old.blocks, &new.blocks, common)?;
    let old_parts = near_parts(alloc, &changed, &old.blocks)?;
    let new_parts = near_parts(alloc, &changed, &new.blocks)?;
    Ok(Parts {
        old: old_parts,
        new: new_parts,
    })
}

/// Returns the indices of the blocks of both policies that are near a change. Returns `AllocError` if allocation fails.
pub(crate) fn near_change(
    alloc: Global,
    old: &Side<'_>,
    new: &Side<'_>,
    common: Common,
) -> Result<Listed, AllocError>
    ensures { IfOk result (body.AreNear common old.now.blocks.items new.now.blocks.items) }
{
    let changed = changed_rows(alloc, &old.blocks, &new.blocks, common)?;
    let old_near = near_blocks(alloc, &changed, &old.blocks)?;
    let new_near = near_blocks(alloc, &changed, &new.blocks)?;
    Ok(Listed {
        old: old_near,
        new: new_near,
    })
}
