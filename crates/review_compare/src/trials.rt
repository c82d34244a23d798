//! Commands that are tried on the rows of two policies, and those among them that the policies answer otherwise.
ghost use Rattle.std.specs.Prelude.{All, IfOk, OnOk};
ghost use Rattle.review_compare.specs.Body.Shown.{IsShownWitness};
ghost use Rattle.review_compare.specs.Body.Trials.{StayWitnesses};

use crate::answer::{Answer, answer_between};
use crate::block::{Block, BlockRow};
use crate::candidates::{MOST_ARGUMENTS, can_be_asked};
use crate::index_set::IndexSet;
use crate::near::Parts;
use crate::probes::{BlockProbes, Own, Probes, RowAt, fits_arguments, takes_any};
use crate::row_reaches::Reaches;
use crate::ruling::{Ruled, is_unnoted};
use crate::user_paths::{FittedPath, UserPaths};
use crate::witness::{Witness, witness_of};
use std::alloc::{AllocError, Global};
use sudo_grammar::Atom;
use sudo_match::{Verdict, command_matches};
use sudo_text::Place;

/// The rows of two policies for a target, and the blocks that have them, with what these give to try.
#[derive(Clone, Copy)]
pub(crate) struct Trial<'t, 'a> {
    pub(crate) probes: &'t Probes,
    pub(crate) parts: &'t Parts<'a>,
    pub(crate) reaches: &'t Reaches<'a>,
    /// The indices of the blocks, in order and as sets.
    pub(crate) old: &'t [usize],
    pub(crate) new: &'t [usize],
    pub(crate) old_set: &'t IndexSet,
    pub(crate) new_set: &'t IndexSet,
    /// The rows to look at, of blocks that list the user.
    pub(crate) user: &'t UserPaths,
    pub(crate) old_rows: &'t [Ruled<'t>],
    pub(crate) new_rows: &'t [Ruled<'t>],
}

impl<'t> Trial<'t, '_> {
    // Returns the path at an index, if there is one.
    fn path(&self, index: usize) -> Option<FittedPath<'t>> {
        self.user.path(self.probes, index)
    }
}

// Which commands with arguments, and which paths, were tried or need not be.
#[derive(Drop)]
struct Tried {
    own: IndexSet,
    paths: IndexSet,
}

// The number of answers.
const MOST_ANSWERS: usize = 3;

// The place of a verdict of which only the answer counts.
const NO_PLACE: Place = Place { file: 0, line: 0 };

// Returns what need not be tried, since a block of the common suffix settles it.
fn untried(alloc: Global, trial: &Trial<'_, '_>) -> Result<Tried, AllocError> {
    let probes = trial.probes;
    let mut own = IndexSet::below(alloc, probes.own.len())?;
    let mut paths = IndexSet::below(alloc, probes.paths.len())?;
    for block in trial.new {
        if let Some(settled) = probes.settled.get(*block) {
            own.add_all(&settled.own);
            paths.add_all(&settled.paths);
        }
    }
    Ok(Tried { own, paths })
}

// Returns the row at a position.
fn row_of<'b, 'a>(blocks: &'b [Block<'a>], at: RowAt) -> Option<&'b BlockRow<'a>> {
    blocks.get(at.block)?.rows.get(at.row)
}

// Returns the last of the rows that stands in one of these blocks.
fn last_among<'b, 'a>(
    blocks: &'b [Block<'a>],
    chosen: &IndexSet,
    rows: &[RowAt],
) -> Option<&'b BlockRow<'a>> {
    for back in 0..rows.len() {
        let at = rows[rows.len() - back - 1];
        if chosen.has(at.block) {
            return row_of(blocks, at);
        }
    }
    None
}

// Returns the last of the rows, whose paths fit the command, that stands in one of these blocks and fits it.
fn deciding<'b, 'a>(
    blocks: &'b [Block<'a>],
    chosen: &IndexSet,
    rows: &[RowAt],
    command: &[u8],
    arguments: &[u8],
) -> Option<&'b BlockRow<'a>> {
    for back in 0..rows.len() {
        let at = rows[rows.len() - back - 1];
        if chosen.has(at.block) {
            if let Some(row) = row_of(blocks, at) {
                if fits_arguments(&row.shape, command, arguments) {
                    return Some(row);
                }
            }
        }
    }
    None
}

// Returns the verdict of a row without its place, if nothing is noted before it.
fn verdict_by(row: Option<&BlockRow<'_>>) -> Option<Verdict> {
    let Some(row) = row else {
        return Some(Verdict::NoMatch);
    };
    if !is_unnoted(row.before) {
        return None;
    }
    match row.answer {
        None => Some(Verdict::Deny { place: NO_PLACE }),
        Some(tags) => Some(Verdict::Allow {
            place: NO_PLACE,
            tags,
        }),
    }
}

// Returns what the change does to a command, by the rows that decide it.
fn answer_of(old: Option<&BlockRow<'_>>, new: Option<&BlockRow<'_>>) -> Option<Answer> {
    let before = verdict_by(old)?;
    let after = verdict_by(new)?;
    answer_between(&before, &after)
}

// Whether the row, if there is one, fits its path with any arguments.
fn row_takes_any(row: Option<&BlockRow<'_>>) -> bool {
    match row {
        None => true,
        Some(row) => takes_any(&row.shape),
    }
}

// Whether one of the witnesses has this answer.
fn has_answer(found: &[Witness], answer: Answer) -> bool {
    found.iter().any(|witness| witness.answer == answer)
}

// Appends the witness, unless one of the same answer is there.
fn push_witness(
    trial: &Trial<'_, '_>,
    witness: Witness,
    found: &mut Vec<Witness>,
) -> Result<(), AllocError>
    requires { IsShownWitness trial.now.old_rows.now trial.now.new_rows.now witness }
    ensures { OnOk result (StayWitnesses trial.now found.old.items found.new.items) }
{
    if !has_answer(found, witness.answer) {
        found.push(witness)?;
    }
    Ok(())
}

// Appends the command as a witness, if it is one.
fn try_command(
    alloc: Global,
    trial: &Trial<'_, '_>,
    command: &[u8],
    arguments: &[u8],
    found: &mut Vec<Witness>,
) -> Result<(), AllocError>
    ensures { OnOk result (StayWitnesses trial.now found.old.items found.new.items) }
{
    match witness_of(alloc, trial.old_rows, trial.new_rows, command, arguments)? {
        Some(witness) => push_witness(trial, witness, found),
        None => Ok(()),
    }
}

// Whether the command seems to be answered otherwise, and none of the witnesses has this answer.
fn is_worth_trying(
    trial: &Trial<'_, '_>,
    path: FittedPath<'_>,
    arguments: &[u8],
    found: &[Witness],
) -> bool {
    if found.len() >= MOST_ANSWERS || !can_be_asked(path.text, arguments) {
        return false;
    }
    let (parts, text) = (trial.parts, path.text);
    let old = deciding(&parts.old, trial.old_set, path.old, text, arguments);
    let new = deciding(&parts.new, trial.new_set, path.new, text, arguments);
    match answer_of(old, new) {
        None => false,
        Some(answer) => !has_answer(found, answer),
    }
}

// Tries the path with these arguments.
fn try_text(
    alloc: Global,
    trial: &Trial<'_, '_>,
    path: FittedPath<'_>,
    arguments: &[u8],
    found: &mut Vec<Witness>,
) -> Result<(), AllocError>
    ensures { OnOk result (StayWitnesses trial.now found.old.items found.new.items) }
{
    if !is_worth_trying(trial, path, arguments, found) {
        return Ok(());
    }
    try_command(alloc, trial, path.text, arguments, found)
}

// Tries a command with arguments that one row fits.
fn try_own(
    alloc: Global,
    trial: &Trial<'_, '_>,
    text: &Own,
    found: &mut Vec<Witness>,
) -> Result<(), AllocError>
    ensures { OnOk result (StayWitnesses trial.now found.old.items found.new.items) }
{
    match trial.path(text.path) {
        None => Ok(()),
        Some(path) => try_text(alloc, trial, path, &text.arguments, found),
    }
}

// Adds an index. Returns whether it was not among these before.
fn is_first(tried: &mut IndexSet, index: usize) -> bool {
    let first = !tried.has(index);
    tried.add(index);
    first
}

// Tries the command with arguments at an index, unless it was tried before.
fn try_own_at(
    alloc: Global,
    trial: &Trial<'_, '_>,
    index: usize,
    tried: &mut IndexSet,
    found: &mut Vec<Witness>,
) -> Result<(), AllocError>
    ensures { OnOk result (StayWitnesses trial.now found.old.items found.new.items) }
{
    if !is_first(tried, index) {
        return Ok(());
    }
    match trial.probes.own.get(index) {
        None => Ok(()),
        Some(text) => try_own(alloc, trial, text, found),
    }
}

// Tries commands with arguments that one row fits, but for those that were tried before.
fn try_all_own(
    alloc: Global,
    trial: &Trial<'_, '_>,
    indices: &[usize],
    tried: &mut IndexSet,
    found: &mut Vec<Witness>,
) -> Result<(), AllocError>
    ensures { OnOk result (StayWitnesses trial.now found.old.items found.new.items) }
{
    for index in indices {
        try_own_at(alloc, trial, *index, tried, found)?;
    }
    Ok(())
}

// Whether the last rows that the path fits take any arguments: then all of them are answered alike.
fn takes_all(trial: &Trial<'_, '_>, path: FittedPath<'_>) -> bool {
    row_takes_any(last_among(&trial.parts.old, trial.old_set, path.old))
        && row_takes_any(last_among(&trial.parts.new, trial.new_set, path.new))
}

// Returns the first of the arguments alone, if all are answered alike.
fn needed<'g, 'u>(
    trial: &Trial<'_, '_>,
    path: FittedPath<'_>,
    given: &'g [&'u [u8]],
) -> &'g [&'u [u8]] {
    if given.len() > 1 && takes_all(trial, path) {
        &given[..1]
    } else {
        given
    }
}

// Tries the path with each of these arguments.
fn try_path(
    alloc: Global,
    trial: &Trial<'_, '_>,
    path: FittedPath<'_>,
    given: &[&[u8]],
    found: &mut Vec<Witness>,
) -> Result<(), AllocError>
    ensures { OnOk result (StayWitnesses trial.now found.old.items found.new.items) }
{
    for arguments in needed(trial, path, given) {
        try_text(alloc, trial, path, arguments, found)?;
    }
    Ok(())
}

// Tries the path at an index with each of these arguments, unless it was tried before.
fn try_path_at(
    alloc: Global,
    trial: &Trial<'_, '_>,
    index: usize,
    given: &[&[u8]],
    tried: &mut IndexSet,
    found: &mut Vec<Witness>,
) -> Result<(), AllocError>
    ensures { OnOk result (StayWitnesses trial.now found.old.items found.new.items) }
{
    if !is_first(tried, index) {
        return Ok(());
    }
    match trial.path(index) {
        None => Ok(()),
        Some(path) => try_path(alloc, trial, path, given, found),
    }
}

// Tries each of the paths with each of these arguments, but for those that were tried before.
fn try_paths(
    alloc: Global,
    trial: &Trial<'_, '_>,
    paths: &[usize],
    given: &[&[u8]],
    tried: &mut IndexSet,
    found: &mut Vec<Witness>,
) -> Result<(), AllocError>
    ensures { OnOk result (StayWitnesses trial.now found.old.items found.new.items) }
{
    for index in paths {
        try_path_at(alloc, trial, *index, given, tried, found)?;
    }
    Ok(())
}

// Tries what the rows of the blocks give: commands with their own arguments, and then each path with each of these arguments.
fn try_blocks(
    alloc: Global,
    trial: &Trial<'_, '_>,
    probes: &[BlockProbes],
    indices: &[usize],
    given: &[&[u8]],
    tried: &mut Tried,
    found: &mut Vec<Witness>,
) -> Result<(), AllocError>
    ensures { OnOk result (StayWitnesses trial.now found.old.items found.new.items) }
{
    try_own_of(alloc, trial, probes, indices, &mut tried.own, found)?;
    try_paths_of(
        alloc,
        trial,
        probes,
        indices,
        given,
        &mut tried.paths,
        found,
    )
}

// Tries commands of the block at an index with arguments that the same row fits.
fn try_own_in(
    alloc: Global,
    trial: &Trial<'_, '_>,
    probes: &[BlockProbes],
    index: usize,
    tried: &mut IndexSet,
    found: &mut Vec<Witness>,
) -> Result<(), AllocError>
    ensures { OnOk result (StayWitnesses trial.now found.old.items found.new.items) }
{
    match probes.get(index) {
        None => Ok(()),
        Some(block) => try_all_own(alloc, trial, &block.own, tried, found),
    }
}

// Tries commands of the blocks with arguments that the same row fits.
fn try_own_of(
    alloc: Global,
    trial: &Trial<'_, '_>,
    probes: &[BlockProbes],
    indices: &[usize],
    tried: &mut IndexSet,
    found: &mut Vec<Witness>,
) -> Result<(), AllocError>
    ensures { OnOk result (StayWitnesses trial.now found.old.items found.new.items) }
{
    for index in indices {
        try_own_in(alloc, trial, probes, *index, tried, found)?;
    }
    Ok(())
}

// Tries paths of the block at an index with each of these arguments.
fn try_paths_in(
    alloc: Global,
    trial: &Trial<'_, '_>,
    probes: &[BlockProbes],
    index: usize,
    given: &[&[u8]],
    tried: &mut IndexSet,
    found: &mut Vec<Witness>,
) -> Result<(), AllocError>
    ensures { OnOk result (StayWitnesses trial.now found.old.items found.new.items) }
{
    match probes.get(index) {
        None => Ok(()),
        Some(block) => try_paths(alloc, trial, &block.paths, given, tried, found),
    }
}

// Tries paths of the blocks with each of these arguments.
fn try_paths_of(
    alloc: Global,
    trial: &Trial<'_, '_>,
    probes: &[BlockProbes],
    indices: &[usize],
    given: &[&[u8]],
    tried: &mut IndexSet,
    found: &mut Vec<Witness>,
) -> Result<(), AllocError>
    ensures { OnOk result (StayWitnesses trial.now found.old.items found.new.items) }
{
    for index in indices {
        try_paths_in(alloc, trial, probes, *index, given, tried, found)?;
    }
    Ok(())
}

// Appends the arguments of the blocks that were not met before, while fewer than 32 are there.
fn push_given_by<'t>(
    texts: &'t [Vec<u8>],
    probes: &[BlockProbes],
    indices: &[usize],
    met: &mut IndexSet,
    given: &mut Vec<&'t [u8]>,
) -> Result<(), AllocError> {
    for index in indices {
        if let Some(block) = probes.get(*index) {
            push_given_of(texts, block, met, given)?;
        }
    }
    Ok(())
}

// Appends the arguments of a block that were not met before, while fewer than 32 are there.
fn push_given_of<'t>(
    texts: &'t [Vec<u8>],
    block: &BlockProbes,
    met: &mut IndexSet,
    given: &mut Vec<&'t [u8]>,
) -> Result<(), AllocError> {
    for index in &block.arguments {
        if let Some(text) = texts.get(*index) {
            if given.len() < MOST_ARGUMENTS && is_first(met, *index) {
                given.push(text.as_slice())?;
            }
        }
    }
    Ok(())
}

// Returns the arguments that the rows of the trial give to try, up to 32: those of the new policy first.
fn given_by<'t>(alloc: Global, trial: &Trial<'t, '_>) -> Result<Vec<&'t [u8]>, AllocError> {
    let probes = trial.probes;
    let mut met = IndexSet::below(alloc, probes.arguments.len())?;
    let mut given = Vec::new(alloc);
    push_given_by(
        &probes.arguments,
        &probes.new,
        trial.new,
        &mut met,
        &mut given,
    )?;
    push_given_by(
        &probes.arguments,
        &probes.old,
        trial.old,
        &mut met,
        &mut given,
    )?;
    Ok(given)
}

// Tries a command that few patterns fit.
fn try_rare(
    alloc: Global,
    trial: &Trial<'_, '_>,
    found: &mut Vec<Witness>,
) -> Result<(), AllocError>
    ensures { OnOk result (StayWitnesses trial.now found.old.items found.new.items) }
{
    let Some(index) = trial.probes.rare else {
        return Ok(());
    };
    match trial.path(index) {
        None => Ok(()),
        Some(path) => try_text(alloc, trial, path, b"", found),
    }
}

/// Returns commands that are answered otherwise: at most one for each answer. Those that rows of the new policy fit are tried
/// first. Of each pattern the stars are left out, or stand for an `x`; and each path is tried with arguments of other rows.
/// Returns `AllocError` if allocation fails.
pub(crate) fn witnesses(alloc: Global, trial: &Trial<'_, '_>) -> Result<Vec<Witness>, AllocError>
    ensures { IfOk result (λ found. All (IsShownWitness trial.now.old_rows.now
        trial.now.new_rows.now) found.items) }
{
    let (old, new) = (&trial.probes.old, &trial.probes.new);
    let given = given_by(alloc, trial)?;
    let mut tried = untried(alloc, trial)?;
    let mut found = Vec::new(alloc);
    try_blocks(alloc, trial, new, trial.new, &given, &mut tried, &mut found)?;
    try_blocks(alloc, trial, old, trial.old, &given, &mut tried, &mut found)?;
    try_rare(alloc, trial, &mut found)?;
    Ok(found)
}
