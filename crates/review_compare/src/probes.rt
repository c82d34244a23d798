//! Commands that rows near a change fit, and the rows that fit their paths. They are hints: what is found by them is checked before
//! it is used.

use crate::block::{Block, BlockRow};
use crate::candidates::{Candidate, FILLS, own_candidate, own_path, push_given, rare_path};
use crate::common::Common;
use crate::index_set::IndexSet;
use crate::near::Parts;
use crate::ruling::Ruled;
use crate::shape::Shape;
use std::alloc::{AllocError, Global};
use sudo_base::Names;
use sudo_grammar::Atom;
use sudo_match::{Pattern, Slash, command_matches};

/// A row of a block, by their indices.
#[derive(Clone, Copy)]
pub(crate) struct RowAt {
    pub(crate) block: usize,
    pub(crate) row: usize,
}

/// Rows of a policy whose paths fit a command, in order.
#[derive(Drop)]
pub(crate) struct Fitting {
    rows: Vec<RowAt>,
}

/// The path of a command, and the rows of both policies whose paths fit it.
#[derive(Drop)]
pub(crate) struct Path {
    pub(crate) text: Vec<u8>,
    pub(crate) old: Fitting,
    pub(crate) new: Fitting,
}

/// A command with arguments that one row fits, by the index of its path.
#[derive(Drop)]
pub(crate) struct Own {
    pub(crate) path: usize,
    pub(crate) arguments: Vec<u8>,
}

/// What the rows of a block give to try, by their indices: commands with their own arguments, paths, and arguments.
#[derive(Drop)]
pub(crate) struct BlockProbes {
    pub(crate) own: Vec<usize>,
    pub(crate) paths: Vec<usize>,
    pub(crate) arguments: Vec<usize>,
}

/// The commands with arguments that a row of a block of the common suffix fits, and the paths that one fits with whichever arguments, by
/// their indices: where the block stands, both policies say the same to them.
#[derive(Drop)]
pub(crate) struct Settled {
    pub(crate) own: IndexSet,
    pub(crate) paths: IndexSet,
}

/// Paths of commands with the rows that fit them, commands with arguments, arguments, and what each block of both policies gives to
/// try.
#[derive(Drop)]
pub(crate) struct Probes {
    pub(crate) paths: Vec<Path>,
    pub(crate) own: Vec<Own>,
    pub(crate) arguments: Vec<Vec<u8>>,
    pub(crate) old: Vec<BlockProbes>,
    pub(crate) new: Vec<BlockProbes>,
    /// The path of a command that few patterns fit.
    pub(crate) rare: Option<usize>,
    /// What each block of the new policy settles.
    pub(crate) settled: Vec<Settled>,
}

// The most tests of a path against the path of a row. Paths past these are not tried.
const MOST_TESTS: usize = 50_000_000;

// The most rows that are kept for all paths.
const MOST_ROWS: usize = 4_000_000;

// The index of a path that no row of the change fits.
const NO_PATH: usize = usize::MAX;

// The paths, the commands with arguments and the arguments so far, the indices of those that were met, and how many tests and rows are
// left.
#[derive(Drop)]
struct Gathered {
    paths: Vec<Path>,
    met: Names,
    own: Vec<Own>,
    met_own: Names,
    arguments: Vec<Vec<u8>>,
    met_arguments: Names,
    tests: usize,
    rows: usize,
}

/// A change: its common prefix and suffix, the rows between these, and the blocks with their near rows alone.
#[derive(Clone, Copy)]
pub(crate) struct Change<'c, 'p, 'a> {
    pub(crate) common: Common,
    pub(crate) rows: &'c [Ruled<'c>],
    pub(crate) parts: &'p Parts<'a>,
}

// Whether the path of the command of a policy fits the command, whatever its arguments are.
fn fits_path(shape: &Shape, command: &[u8]) -> bool {
    match &shape.atom {
        Atom::All => true,
        Atom::Command { .. } => Pattern::of(shape.path()).matches(command, Slash::Not),
        _ => false,
    }
}

// Whether the path of a changed row fits the command. Otherwise both policies say the same to it.
fn may_differ(changed: &[Ruled<'_>], command: &[u8]) -> bool {
    for row in changed {
        if fits_path(row.shape, command) {
            return true;
        }
    }
    false
}

impl Fitting {
    // Returns no rows.
    fn none(alloc: Global) -> Fitting {
        Fitting {
            rows: Vec::new(alloc),
        }
    }

    // Appends the rows of the other's blocks from one on to another, of which the first stands at an index here.
    fn push_from(
        &mut self,
        other: &Fitting,
        from: usize,
        end: usize,
        first: usize,
    ) -> Result<(), AllocError> {
        for at in &other.rows {
            if at.block >= from && at.block < end {
                let block = (at.block - from).wrapping_add(first);
                let row = at.row;
                self.rows.push(RowAt { block, row })?;
            }
        }
        Ok(())
    }

    /// Returns those of the rows that stand in one of these blocks. Returns `AllocError` if allocation fails.
    pub(crate) fn of_blocks(
        &self,
        alloc: Global,
        blocks: &IndexSet,
    ) -> Result<Vec<RowAt>, AllocError> {
        let mut rows = Vec::new(alloc);
        for at in &self.rows {
            if blocks.has(at.block) {
                rows.push(*at)?;
            }
        }
        Ok(rows)
    }

    // Appends the rows of a block whose paths fit the command.
    fn push_block(
        &mut self,
        rows: &[BlockRow<'_>],
        block: usize,
        command: &[u8],
    ) -> Result<(), AllocError> {
        for row in 0..rows.len() {
            if fits_path(&rows[row].shape, command) {
                self.rows.push(RowAt { block, row })?;
            }
        }
        Ok(())
    }
}

// Returns the rows of the old policy whose paths fit the command.
fn fitting_old(alloc: Global, blocks: &[Block<'_>], command: &[u8]) -> Result<Fitting, AllocError> {
    let mut fitting = Fitting::none(alloc);
    for block in 0..blocks.len() {
        fitting.push_block(&blocks[block].rows, block, command)?;
    }
    Ok(fitting)
}

// Returns the rows of the new policy whose paths fit the command: those of blocks at the front and at the back are where the old policy
// has them.
fn fitting_new(
    alloc: Global,
    change: &Change<'_, '_, '_>,
    old: &Fitting,
    command: &[u8],
) -> Result<Fitting, AllocError> {
    let (parts, common) = (change.parts, change.common);
    let blocks = &parts.new;
    let mut fitting = Fitting::none(alloc);
    fitting.push_from(old, 0, common.front, 0)?;
    let end = blocks.len().saturating_sub(common.back);
    for block in common.front..end {
        fitting.push_block(&blocks[block].rows, block, command)?;
    }
    let old_end = parts.old.len().saturating_sub(common.back);
    fitting.push_from(old, old_end, parts.old.len(), end)?;
    Ok(fitting)
}

/// Returns how many rows blocks have.
pub(crate) fn row_count(blocks: &[Block<'_>]) -> usize {
    let mut count = 0usize;
    for block in blocks {
        count = count.saturating_add(block.rows.len());
    }
    count
}

/// Whether the arguments of the row fit, where its path does.
pub(crate) fn fits_arguments(shape: &Shape, command: &[u8], arguments: &[u8]) -> bool {
    match &shape.atom {
        Atom::Command { args: None, .. } => true,
        atom => command_matches(atom, command, arguments),
    }
}

/// Whether the row fits its path with whichever arguments.
pub(crate) fn takes_any(shape: &Shape) -> bool {
    match &shape.atom {
        Atom::All | Atom::Command { args: None, .. } => true,
        _ => false,
    }
}

// Returns a path with the rows that fit it.
fn path_of(alloc: Global, change: &Change<'_, '_, '_>, text: &[u8]) -> Result<Path, AllocError> {
    let old = fitting_old(alloc, &change.parts.old, text)?;
    let new = fitting_new(alloc, change, &old, text)?;
    let text = Vec::from_slice(alloc, text)?;
    Ok(Path { text, old, new })
}

impl Gathered {
    // Counts tests, if so many are left.
    fn spend(&mut self, tests: usize) -> bool {
        match self.tests.checked_sub(tests) {
            None => false,
            Some(left) => {
                self.tests = left;
                true
            }
        }
    }

    // Appends a path, if so many rows are left, and returns its index.
    fn push_path(&mut self, path: Path) -> Result<usize, AllocError> {
        let rows = path.old.rows.len().saturating_add(path.new.rows.len());
        let Some(left) = self.rows.checked_sub(rows) else {
            return Ok(NO_PATH);
        };
        self.rows = left;
        let index = self.paths.len();
        self.paths.push(path)?;
        Ok(index)
    }

    // Returns the index of a path that was not met before.
    fn new_index(
        &mut self,
        alloc: Global,
        change: &Change<'_, '_, '_>,
        text: &[u8],
    ) -> Result<usize, AllocError> {
        if !self.spend(change.rows.len()) || !may_differ(change.rows, text) {
            return Ok(NO_PATH);
        }
        let parts = change.parts;
        let tests = row_count(&parts.old).saturating_add(row_count(&parts.new));
        if !self.spend(tests) {
            return Ok(NO_PATH);
        }
        let path = path_of(alloc, change, text)?;
        self.push_path(path)
    }

    // Returns the index of a path.
    fn index_of(
        &mut self,
        alloc: Global,
        change: &Change<'_, '_, '_>,
        text: &[u8],
    ) -> Result<usize, AllocError> {
        if let Some(index) = self.met.get(text) {
            return Ok(index);
        }
        let index = self.new_index(alloc, change, text)?;
        if self.met.get(text).is_none() {
            self.met.insert(alloc, text, index)?;
        }
        Ok(index)
    }
}

// Returns a command with arguments as one text.
fn whole_text(alloc: Global, text: &Candidate) -> Result<Vec<u8>, AllocError> {
    let mut whole = Vec::from_slice(alloc, &text.command)?;
    whole.push(0)?;
    whole.extend_from_slice(&text.arguments)?;
    Ok(whole)
}

impl Gathered {
    // Returns the index of a command with arguments, by the index of its path.
    fn own_index(
        &mut self,
        alloc: Global,
        path: usize,
        text: Candidate,
    ) -> Result<usize, AllocError> {
        let whole = whole_text(alloc, &text)?;
        if let Some(index) = self.met_own.get(&whole) {
            return Ok(index);
        }
        let index = self.own.len();
        self.met_own.insert(alloc, &whole, index)?;
        let arguments = text.arguments;
        self.own.push(Own { path, arguments })?;
        Ok(index)
    }

    // Returns the index of arguments.
    fn arguments_index(&mut self, alloc: Global, text: Vec<u8>) -> Result<usize, AllocError> {
        if let Some(index) = self.met_arguments.get(&text) {
            return Ok(index);
        }
        let index = self.arguments.len();
        self.met_arguments.insert(alloc, &text, index)?;
        self.arguments.push(text)?;
        Ok(index)
    }
}

impl BlockProbes {
    // Appends a command with arguments that the row fits, if both policies may differ there.
    fn push_own(
        &mut self,
        alloc: Global,
        gathered: &mut Gathered,
        change: &Change<'_, '_, '_>,
        shape: &Shape,
        fill: &[u8],
    ) -> Result<(), AllocError> {
        let text = own_candidate(alloc, shape, fill)?;
        let path = gathered.index_of(alloc, change, &text.command)?;
        if path != NO_PATH {
            let index = gathered.own_index(alloc, path, text)?;
            self.own.push(index)?;
        }
        Ok(())
    }

    // Appends what the row gives to try.
    fn push_row(
        &mut self,
        alloc: Global,
        gathered: &mut Gathered,
        change: &Change<'_, '_, '_>,
        shape: &Shape,
    ) -> Result<(), AllocError> {
        for fill in &FILLS {
            self.push_own(alloc, gathered, change, shape, fill)?;
        }
        let text = own_path(alloc, shape)?;
        let path = gathered.index_of(alloc, change, &text)?;
        if path != NO_PATH && !self.paths.contains(&path) {
            self.paths.push(path)?;
        }
        self.push_arguments(alloc, gathered, shape)
    }

    // Appends what the row has of arguments.
    fn push_arguments(
        &mut self,
        alloc: Global,
        gathered: &mut Gathered,
        shape: &Shape,
    ) -> Result<(), AllocError> {
        let mut given = Vec::new(alloc);
        push_given(alloc, shape, &mut given)?;
        for text in given {
            let index = gathered.arguments_index(alloc, text)?;
            if !self.arguments.contains(&index) {
                self.arguments.push(index)?;
            }
        }
        Ok(())
    }
}

// Returns what the rows of a block give to try.
fn probes_of(
    alloc: Global,
    gathered: &mut Gathered,
    change: &Change<'_, '_, '_>,
    block: &Block<'_>,
) -> Result<BlockProbes, AllocError> {
    let mut probes = BlockProbes {
        own: Vec::new(alloc),
        paths: Vec::new(alloc),
        arguments: Vec::new(alloc),
    };
    for row in &block.rows {
        probes.push_row(alloc, gathered, change, &row.shape)?;
    }
    Ok(probes)
}

// Returns what the rows of each block give to try.
fn probes_of_all(
    alloc: Global,
    gathered: &mut Gathered,
    change: &Change<'_, '_, '_>,
    blocks: &[Block<'_>],
) -> Result<Vec<BlockProbes>, AllocError> {
    let mut probes = Vec::new(alloc);
    for block in blocks {
        probes.push(probes_of(alloc, gathered, change, block)?)?;
    }
    Ok(probes)
}

// Returns that the blocks settle nothing.
fn nothing_settled(
    alloc: Global,
    blocks: usize,
    own: usize,
    paths: usize,
) -> Result<Vec<Settled>, AllocError> {
    let mut settled = Vec::new(alloc);
    for _ in 0..blocks {
        let own = IndexSet::below(alloc, own)?;
        let paths = IndexSet::below(alloc, paths)?;
        settled.push(Settled { own, paths })?;
    }
    Ok(settled)
}

// Returns the shape of the row of the new policy at a position, if its block is one of the common suffix.
fn shape_behind<'p>(change: &Change<'_, 'p, '_>, at: RowAt) -> Option<&'p Shape> {
    let blocks = change.parts.new.as_slice();
    if at.block < blocks.len().saturating_sub(change.common.back) {
        return None;
    }
    Some(&blocks.get(at.block)?.rows.get(at.row)?.shape)
}

// Adds the path at an index to what the blocks settle that have a row for it with whichever arguments.
fn settle_path(change: &Change<'_, '_, '_>, path: &Path, index: usize, settled: &mut [Settled]) {
    for at in &path.new.rows {
        if let (Some(shape), Some(block)) = (shape_behind(change, *at), settled.get_mut(at.block)) {
            if takes_any(shape) {
                block.paths.add(index);
            }
        }
    }
}

// Adds the command with arguments at an index to what the blocks settle that have a row that fits it.
fn settle_own(
    change: &Change<'_, '_, '_>,
    path: &Path,
    arguments: &[u8],
    index: usize,
    settled: &mut [Settled],
) {
    for at in &path.new.rows {
        if let (Some(shape), Some(block)) = (shape_behind(change, *at), settled.get_mut(at.block)) {
            if fits_arguments(shape, &path.text, arguments) {
                block.own.add(index);
            }
        }
    }
}

// Returns what each block of the new policy settles.
fn settled_by(
    alloc: Global,
    change: &Change<'_, '_, '_>,
    paths: &[Path],
    own: &[Own],
) -> Result<Vec<Settled>, AllocError> {
    let mut settled = nothing_settled(alloc, change.parts.new.len(), own.len(), paths.len())?;
    for index in 0..paths.len() {
        settle_path(change, &paths[index], index, &mut settled);
    }
    for index in 0..own.len() {
        if let Some(path) = paths.get(own[index].path) {
            settle_own(change, path, &own[index].arguments, index, &mut settled);
        }
    }
    Ok(settled)
}

impl Probes {
    /// Returns what the near rows of both policies give to try: of each pattern the stars are left out, or stand for an `x`. Returns
    /// `AllocError` if allocation fails.
    pub(crate) fn of(alloc: Global, change: &Change<'_, '_, '_>) -> Result<Probes, AllocError> {
        let mut gathered = Gathered {
            paths: Vec::new(alloc),
            met: Names::new(alloc),
            own: Vec::new(alloc),
            met_own: Names::new(alloc),
            arguments: Vec::new(alloc),
            met_arguments: Names::new(alloc),
            tests: MOST_TESTS,
            rows: MOST_ROWS,
        };
        let new = probes_of_all(alloc, &mut gathered, change, &change.parts.new)?;
        let old = probes_of_all(alloc, &mut gathered, change, &change.parts.old)?;
        let rare = rare_path(alloc)?;
        let rare = gathered.index_of(alloc, change, &rare)?;
        let rare = if rare == NO_PATH { None } else { Some(rare) };
        let Gathered {
            paths,
            own,
            arguments,
            ..
        } = gathered;
        let settled = settled_by(alloc, change, &paths, &own)?;
        Ok(Probes {
            paths,
            own,
            arguments,
            old,
            new,
            rare,
            settled,
        })
    }
}
