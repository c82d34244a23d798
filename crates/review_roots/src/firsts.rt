//! Which found states of a layer a candidate may reach at all: those that a block allows which raises and lists it, and those of its own
//! user.
ghost use Rattle.std.specs.Prelude.{◌≡◌, ◌≤◌, ℕ, All, fold};
ghost use Rattle.review_roots.specs.Body.Firsts as spec;
ghost use Rattle.review_roots.specs.Body.Firsts.{IsBounded, IsNoted};

use crate::candidate::Candidate;
use crate::host::HostSteps;
use crate::layer::Aimed;
use crate::search::Aim;
use crate::steps::is_at;
use std::alloc::{AllocError, Global};

/// For each block that raises, the index of the first found state of a layer that it allows; and for each user, that of the first state
/// of this user. An index outside the layer counts as none: it lies before the layer, or behind all found states.
#[derive(Drop)]
pub(crate) struct Firsts {
    pub(crate) blocks: Vec<usize>,
    pub(crate) users: Vec<usize>,
}

// Returns as many indices as counted, each behind all found states.
fn nowhere(alloc: Global, count: usize) -> Result<Vec<usize>, AllocError> {
    let mut firsts = Vec::new(alloc);
    firsts.resize(count, usize::MAX)?;
    Ok(firsts)
}

/// Returns tables in which no found state is noted. Returns `AllocError` if allocation fails.
pub(crate) fn firsts_of(alloc: Global, steps: &HostSteps<'_, '_>) -> Result<Firsts, AllocError> {
    Ok(Firsts {
        blocks: nowhere(alloc, steps.blocks.len())?,
        users: nowhere(alloc, steps.directory.people().len())?,
    })
}

// Whether there is a place at the key, and what stands there is before the layer, or behind the index.
fn is_free(firsts: &[usize], start: usize, index: usize, key: usize) -> bool
    ensures { result ≡ spec.is_free firsts.now start index key }
{
    match firsts.get(key) {
        Some(first) => *first < start || *first > index,
        None => false,
    }
}

// Notes the index, unless one of the layer stands there that is not behind it.
fn note(firsts: &mut [usize], start: usize, index: usize, key: usize)
    ensures { firsts.new ≡ spec.with_noted start index firsts.old key }
{
    if key < firsts.len() && is_free(firsts, start, index, key) {
        firsts[key] = index;
    }
}

// Notes the index at each of the keys.
fn note_all(firsts: &mut [usize], start: usize, index: usize, keys: &[usize])
    ensures { firsts.new ≡ fold (spec.with_noted start index) firsts.old keys.now }
{
    for key in keys {
        note(firsts, start, index, *key);
    }
}

// Returns the index that is noted in the layer, or one behind all that is found if there is none.
fn noted_at(firsts: &[usize], start: usize, key: usize) -> usize
    ensures { (i : ℕ) → IsNoted firsts.now start i key → result ≤ i }
{
    match firsts.get(key) {
        Some(first) => { if *first < start { usize::MAX } else { *first } }
        None => 0,
    }
}

// Returns the lesser of two indices.
fn lesser(one: usize, other: usize) -> usize
    ensures one { result ≤ one }
    ensures other { result ≤ other }
{
    if one < other { one } else { other }
}

impl Firsts {
    // Notes an aim of a layer.
    fn note_aim(&mut self, start: usize, aimed: &Aimed<'_>)
        ensures users { self.new.users.items
            ≡ spec.with_user start self.old.users.items aimed.now }
        ensures blocks { self.new.blocks.items
            ≡ spec.with_blocks start self.old.blocks.items aimed.now }
    {
        let Aim { index, state, .. } = aimed.aim;
        note(self.users.as_mut_slice(), start, index, state.user);
        let strong = aimed.toward.get().strong.as_slice();
        note_all(self.blocks.as_mut_slice(), start, index, strong);
    }

    /// Notes the aims of a layer, which begins at an index.
    pub(crate) fn note_aims(&mut self, start: usize, aims: &[Aimed<'_>])
        ensures users { self.new.users.items
            ≡ fold (spec.with_user start) self.old.users.items aims.now }
        ensures blocks { self.new.blocks.items
            ≡ fold (spec.with_blocks start) self.old.blocks.items aims.now }
    {
        for aimed in aims {
            self.note_aim(start, aimed);
        }
    }

    // Returns the index, or the one that is noted for the block, if that is lesser, and the block is for the host.
    fn or_noted(&self, steps: &HostSteps<'_, '_>, start: usize, first: usize, index: usize) -> usize
        ensures lesser { result ≤ first }
        ensures bounded { IsBounded steps.now.on.items self.now.blocks.items start result index }
    {
        if is_at(&steps.on, index) {
            lesser(first, noted_at(&self.blocks, start, index))
        } else {
            first
        }
    }

    /// Returns an index before which no state of the layer is one that the candidate may reach: none that is its user, and none that a
    /// block on the host allows which raises and lists it.
    pub(crate) fn first_for(
        &self,
        steps: &HostSteps<'_, '_>,
        start: usize,
        candidate: &Candidate,
    ) -> usize
        ensures user { (i : ℕ) → IsNoted self.now.users.items start i candidate.now.state.user
            → result ≤ i }
        ensures blocks { All (IsBounded steps.now.on.items self.now.blocks.items start result)
            candidate.now.strong.items }
    {
        let mut first = noted_at(&self.users, start, candidate.state.user);
        for index in &candidate.strong {
            first = self.or_noted(steps, start, first, *index);
        }
        first
    }
}
