//! Comparisons of blocks, kept so that the same blocks are compared once.
ghost use Rattle.std.specs.Prelude.{◌≡◌, ◌<◌, ◌++◌, ◌∷◌, [], get_or, IfOk, IfSome, length, OnOk, true};
ghost use Rattle.review_compare.specs.declared.comparison.Comparison.{Comparison as TheComparison};
ghost use Rattle.review_compare.specs.declared.pair.Pair.{Pair as ThePair};
ghost use Rattle.review_compare.specs.Witnesses.{IsCompared};
ghost use Rattle.review_compare.specs.Body.Chosen.{chosen};
ghost use Rattle.review_compare.specs.Body.Comparisons as body;

use crate::compared::{Compared, compared_rows};
use crate::copied::copied;
use crate::finder::{Finder, digest_of_blocks};
use crate::index_set::IndexSet;
use crate::pair::Pair;
use crate::settled::is_settled;
use crate::side::rows_at;
use crate::spot::Listed;
use crate::trials::Trial;
use crate::user_paths::UserPaths;
use std::alloc::{AllocError, Global};

/// The outcome of a comparison of blocks, by their indices in both policies.
#[derive(Drop)]
pub(crate) struct Comparison {
    old: Vec<usize>,
    new: Vec<usize>,
    found: Compared,
}

/// Whether the indices are the same.
pub(crate) fn are_same_indices(indices: &[usize], others: &[usize]) -> bool
    ensures { result ≡ true → indices.now ≡ others.now }
{
    indices == others
}

impl Comparison {
    // Whether it is of these blocks.
    fn is_of(&self, old: &[usize], new: &[usize]) -> bool
        ensures { result ≡ true → body.IsOf self.now old.now new.now }
    {
        if !are_same_indices(&self.old, old) {
            return false;
        }
        are_same_indices(&self.new, new)
    }
}

/// A cache of comparisons, found by digests of their blocks, with the paths to try for the current user.
#[derive(Drop)]
pub(crate) struct Comparisons {
    all: Vec<Comparison>,
    finder: Finder,
    // The paths to try for the current user.
    user: UserPaths,
}

// The number of buckets in which comparisons are found.
const BUCKETS: usize = 1024;

// The most comparisons that are kept.
const MOST_KEPT: usize = 256;

impl Comparisons {
    /// Returns no comparisons. Returns `AllocError` if allocation fails.
    pub(crate) fn none(alloc: Global) -> Result<Comparisons, AllocError>
        ensures { IfOk result (λ none. none.all.items ≡ []) }
    {
        let finder = Finder::new(alloc, BUCKETS)?;
        Ok(Comparisons {
            all: Vec::new(alloc),
            finder,
            user: UserPaths::none(alloc),
        })
    }

    // Returns the index of the comparison of these blocks, if there is one.
    fn index_of(&self, digest: usize, old: &[usize], new: &[usize]) -> Option<usize>
        ensures { IfSome result (λ i. (i < length self.now.all.items) × ((d : TheComparison)
            → body.IsOf (get_or self.now.all.items i d) old.now new.now)) }
    {
        for index in self.finder.indices(digest) {
            if *index < self.all.len() && self.all[*index].is_of(old, new) {
                return Some(*index);
            }
        }
        None
    }

    /// Sets the current user, whom these blocks list. Returns `AllocError` if allocation fails.
    pub(crate) fn begin_user(
        &mut self,
        alloc: Global,
        pair: &Pair<'_>,
        listed: &Listed,
    ) -> Result<(), AllocError>
        ensures { OnOk result ((p : ThePair) → body.AreRight p self.old → body.AreRight p self.new) }
    {
        self.user = UserPaths::of(alloc, pair, listed)?;
        Ok(())
    }

    // Forgets the comparisons, if there are too many.
    fn trim(&mut self)
        ensures { (p : ThePair) → body.AreRight p self.old → body.AreRight p self.new }
    {
        if self.all.len() >= MOST_KEPT {
            self.all.clear();
            self.finder.clear();
        }
    }

    // Keeps a comparison.
    fn push(&mut self, digest: usize, comparison: Comparison) -> Result<(), AllocError>
        ensures { OnOk result (self.new.all.items ≡ self.old.all.items ++ comparison ∷ []) }
    {
        self.finder.add(digest, self.all.len())?;
        self.all.push(comparison)?;
        Ok(())
    }
}

// Compares the near rows of the blocks at these indices.
fn compared_blocks(
    alloc: Global,
    pair: &Pair<'_>,
    user: &UserPaths,
    old: &[usize],
    new: &[usize],
) -> Result<Compared, AllocError>
    ensures { IfOk result (IsCompared (chosen pair.now.parts.old.items old.now)
        (chosen pair.now.parts.new.items new.now)) }
{
    if is_settled(alloc, &pair.parts, &pair.reaches, &pair.twins, old, new)? {
        return Ok(Compared::Same);
    }
    let old_rows = rows_at(alloc, &pair.parts.old, old)?;
    let new_rows = rows_at(alloc, &pair.parts.new, new)?;
    let old_set = IndexSet::of(alloc, pair.parts.old.len(), old)?;
    let new_set = IndexSet::of(alloc, pair.parts.new.len(), new)?;
    let trial = Trial {
        probes: &pair.probes,
        reaches: &pair.reaches,
        parts: &pair.parts,
        old,
        new,
        old_set: &old_set,
        new_set: &new_set,
        user,
        old_rows: &old_rows,
        new_rows: &new_rows,
    };
    compared_rows(alloc, &trial)
}

// Compares the rows of the blocks at these indices, and keeps the outcome.
fn first_found(
    alloc: Global,
    pair: &Pair<'_>,
    comparisons: &mut Comparisons,
    digest: usize,
    old: Vec<usize>,
    new: Vec<usize>,
) -> Result<Compared, AllocError>
    requires { body.AreRight pair.now comparisons.old }
    ensures found { IfOk result (IsCompared (chosen pair.entry.now.parts.old.items
        old.items) (chosen pair.entry.now.parts.new.items new.items)) }
    ensures right { OnOk result (body.AreRight pair.entry.now comparisons.new) }
{
    let found = compared_blocks(alloc, pair, &comparisons.user, &old, &new)?;
    let copy = copied(alloc, &found)?;
    comparisons.trim();
    comparisons.push(digest, Comparison { old, new, found })?;
    Ok(copy)
}

/// Returns the outcome of the comparison of the blocks at these indices, and compares them if no earlier comparison is of them.
/// Returns `AllocError` if allocation fails.
pub(crate) fn found_of(
    alloc: Global,
    pair: &Pair<'_>,
    comparisons: &mut Comparisons,
    old: Vec<usize>,
    new: Vec<usize>,
) -> Result<Compared, AllocError>
    requires { body.AreRight pair.now comparisons.old }
    ensures found { IfOk result (IsCompared (chosen pair.entry.now.parts.old.items
        old.items) (chosen pair.entry.now.parts.new.items new.items)) }
    ensures right { OnOk result (body.AreRight pair.entry.now comparisons.new) }
{
    let digest = digest_of_blocks(&old, &new);
    match comparisons.index_of(digest, &old, &new) {
        Some(index) => copied(alloc, &comparisons.all[index].found),
        None => first_found(alloc, pair, comparisons, digest, old, new),
    }
}
