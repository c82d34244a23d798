//! What stands before each row in its line, where a note is among that.
ghost use Rattle.std.specs.Prelude.{◌≡◌, ◌++◌, ◌∷◌, flat_map, IfOk, IsTrue, List, map, OnOk};
ghost use Rattle.std.specs.List.{list_all};
ghost use Rattle.sudo_grammar.specs.declared.kind.Atom.{Atom as TheAtom};
ghost use Rattle.sudo_grammar.specs.declared.policy.Policy.{Policy as ThePolicy};
ghost use Rattle.review_grants.specs.Depends.{same_place};
ghost use Rattle.review_compare.specs.declared.block.Block.{Block as TheBlock};
ghost use Rattle.review_compare.specs.Blocks.{AreBlocks, AreGrants, block_resolves, block_wide, block_wides};
ghost use Rattle.review_compare.specs.Cells.{lined};
ghost use Rattle.review_compare.specs.Lines.{is_note_atom, Line, noted, nowhere};
ghost use Rattle.review_compare.specs.Body.LineAtoms as body;

use crate::block::{Block, BlockRow};
use crate::shape::Shape;
use crate::text::atom_copied;
use crate::walk::Walk;
use review_texts::note_in;
use std::alloc::{AllocError, Global};
use sudo_policy::{Atom, Checked};
use sudo_text::Place;

// Whether the command stands for a note.
fn is_note(atom: &Atom) -> bool
    ensures { result ≡ is_note_atom atom.now }
{
    note_in(atom).is_some()
}

// Whether both are the same line of the same file.
fn is_same_line(place: Place, other: Place) -> bool
    ensures { result ≡ same_place place other }
{
    place.file == other.file && place.line == other.line
}

impl<'a> Walk<'a> {
    // Returns the walk at the line of a place: at the beginning of that line, if it is another one.
    fn at_line(self, place: Place) -> Walk<'a>
        ensures { (l : Line) (rest : List TheAtom) → body.IsWalk self.entry l rest
            → body.IsWalk result (body.turned l place) rest }
    {
        if is_same_line(self.place, place) {
            return self;
        }
        Walk {
            place,
            rest: &self.rest[self.passed..],
            passed: 0,
            noted: false,
        }
    }

    // Returns what stands before the next command in its line, if a note is among that.
    fn before(self) -> &'a [Atom]
        ensures { (l : Line) (rest : List TheAtom) → body.IsWalk self.entry l rest
            → result.now ≡ noted l.atoms }
    {
        if self.noted {
            &self.rest[..self.passed]
        } else {
            &[]
        }
    }

    // Returns the walk behind the next command, which stands for a note or does not.
    fn behind(self, note: bool) -> Walk<'a>
        ensures { (l : Line) (a : TheAtom) (rest : List TheAtom) → note ≡ is_note_atom a
            → body.IsWalk self.entry l (a ∷ rest) → body.IsWalk result (body.with_atom l a) rest }
    {
        if self.passed >= self.rest.len() {
            return self;
        }
        Walk {
            place: self.place,
            rest: self.rest,
            passed: self.passed + 1,
            noted: self.noted || note,
        }
    }
}

// Appends a copy of a row with what stands before it, unless it stands for a note.
fn push_row<'a>(
    alloc: Global,
    row: &BlockRow<'_>,
    before: &'a [Atom],
    rows: &mut Vec<BlockRow<'a>>,
) -> Result<(), AllocError>
    ensures { OnOk result ((b : TheBlock) → map (block_wide b) rows.new.items
        ≡ map (block_wide b) rows.old.items ++ body.kept_row b before.now row.now) }
{
    if is_note(&row.shape.atom) {
        return Ok(());
    }
    let atom = atom_copied(alloc, &row.shape.atom)?;
    let shape = Shape::of(alloc, atom)?;
    rows.push(BlockRow {
        answer: row.answer,
        before,
        shape,
    })?;
    Ok(())
}

// The rows of a block with what stands before them, and the walk behind them.
#[derive(Drop)]
struct Walked<'a> {
    rows: Vec<BlockRow<'a>>,
    walk: Walk<'a>,
}

// Returns the rows of a block, each with what stands before it, and the walk behind them.
fn walked_rows<'a>(
    alloc: Global,
    block: &Block<'_>,
    walk: Walk<'a>,
) -> Result<Walked<'a>, AllocError>
    ensures { IfOk result (λ walked. (l : Line) (rest : List TheAtom)
        → body.IsWalk walk.entry l (body.block_atoms block.now ++ rest)
        → body.IsWalked block.now l rest walked) }
{
    let mut walk = walk;
    let mut rows = Vec::new(alloc);
    for row in &block.rows {
        walk = walk.at_line(block.place);
        push_row(alloc, row, walk.before(), &mut rows)?;
        walk = walk.behind(is_note(&row.shape.atom));
    }
    Ok(Walked { rows, walk })
}

// Appends the block with its rows as they are in their line. Returns the walk behind them.
fn push_block<'a>(
    alloc: Global,
    block: &Block<'a>,
    walk: Walk<'a>,
    blocks: &mut Vec<Block<'a>>,
) -> Result<Walk<'a>, AllocError>
    ensures walk { IfOk result (λ new. (l : Line) (rest : List TheAtom)
        → body.IsWalk walk.entry l (body.block_atoms block.now ++ rest)
        → body.IsWalk new (body.line_behind l (block_wides block.now)) rest) }
    ensures rows { OnOk result ((l : Line) (rest : List TheAtom)
        → body.IsWalk walk.entry l (body.block_atoms block.now ++ rest)
        → flat_map block_wides blocks.new.items
        ≡ flat_map block_wides blocks.old.items ++ lined l (block_wides block.now)) }
    ensures resolve { OnOk result ((p : ThePolicy) → IsTrue (block_resolves p block.now)
        → IsTrue (list_all (block_resolves p) blocks.old.items)
        → IsTrue (list_all (block_resolves p) blocks.new.items)) }
{
    let Walked { rows, walk } = walked_rows(alloc, block, walk)?;
    blocks.push(Block {
        place: block.place,
        users: block.users,
        hosts: block.hosts,
        runas: block.runas,
        rows,
    })?;
    Ok(walk)
}

// Returns the walk before these commands.
fn before_all<'a>(atoms: &'a [Atom]) -> Walk<'a>
    ensures { body.IsWalk result nowhere atoms.now }
{
    Walk {
        place: Place { file: 0, line: 0 },
        rest: atoms,
        passed: 0,
        noted: false,
    }
}

// Returns the blocks with their rows as they are in their lines, by a walk through their commands.
fn walked_blocks<'a>(
    alloc: Global,
    blocks: &[Block<'a>],
    start: Walk<'a>,
) -> Result<Vec<Block<'a>>, AllocError>
    requires { body.IsWalk start nowhere (map body.wide_atom (flat_map block_wides blocks.now)) }
    ensures rows { IfOk result (λ new. flat_map block_wides new.items
        ≡ lined nowhere (flat_map block_wides blocks.entry.now)) }
    ensures resolve { IfOk result (λ new. (p : ThePolicy)
        → IsTrue (list_all (block_resolves p) blocks.entry.now)
        → IsTrue (list_all (block_resolves p) new.items)) }
{
    let mut walk = start;
    let mut walked = Vec::new(alloc);
    for block in blocks {
        walk = push_block(alloc, block, walk, &mut walked)?;
    }
    Ok(walked)
}

// Whether one of the rows of a block stands for a note.
fn block_has_note(block: &Block<'_>) -> bool
    ensures { result ≡ body.has_note (block_wides block.now) }
{
    for row in &block.rows {
        if is_note(&row.shape.atom) {
            return true;
        }
    }
    false
}

/// Whether one of the rows stands for a note.
pub(crate) fn has_note(blocks: &[Block<'_>]) -> bool
    ensures { result ≡ body.has_note (flat_map block_wides blocks.now) }
{
    for block in blocks {
        if block_has_note(block) {
            return true;
        }
    }
    false
}

// Appends the commands of a block.
fn push_atoms(alloc: Global, block: &Block<'_>, atoms: &mut Vec<Atom>) -> Result<(), AllocError>
    ensures { OnOk result (atoms.new.items ≡ atoms.old.items ++ body.block_atoms block.now) }
{
    for row in &block.rows {
        atoms.push(atom_copied(alloc, &row.shape.atom)?)?;
    }
    Ok(())
}

// Returns the commands of all rows.
fn all_atoms(alloc: Global, blocks: &[Block<'_>]) -> Result<Vec<Atom>, AllocError>
    ensures { IfOk result (λ atoms. atoms.items
        ≡ map body.wide_atom (flat_map block_wides blocks.now)) }
{
    let mut atoms = Vec::new(alloc);
    for block in blocks {
        push_atoms(alloc, block, &mut atoms)?;
    }
    Ok(atoms)
}

/// Returns the commands of the grants of a policy, if one of them stands for a note. Returns `AllocError` if allocation fails.
pub(crate) fn line_atoms(alloc: Global, grants: &[Block<'_>]) -> Result<Vec<Atom>, AllocError>
    ensures { IfOk result (λ atoms. body.AreLineAtoms grants.now atoms.items) }
{
    if !has_note(grants) {
        return Ok(Vec::new(alloc));
    }
    all_atoms(alloc, grants)
}

/// Returns the rows of a policy, each with what stands before it in its line, where a note is among that: of its grants, and their
/// commands if one of these stands for a note. Otherwise nothing is copied. Returns `AllocError` if allocation fails.
pub(crate) fn lined_blocks<'a>(
    alloc: Global,
    checked: &Checked,
    grants: Vec<Block<'a>>,
    atoms: &'a [Atom],
) -> Result<Vec<Block<'a>>, AllocError>
    requires grants { AreGrants checked.now grants.items }
    requires resolve { IsTrue (list_all (block_resolves checked.now) grants.items) }
    requires atoms { body.AreLineAtoms grants.items atoms.now }
    ensures rows { IfOk result (λ blocks. AreBlocks checked.entry.now blocks.items) }
    ensures resolve { IfOk result (λ blocks. IsTrue (list_all (block_resolves
        checked.entry.now) blocks.items)) }
{
    if !has_note(&grants) {
        return Ok(grants);
    }
    walked_blocks(alloc, &grants, before_all(atoms))
}
