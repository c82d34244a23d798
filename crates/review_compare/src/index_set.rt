//! Sets of indices: a bit an index.
use std::alloc::{AllocError, Global};

/// Indices below a limit.
#[derive(Drop)]
pub(crate) struct IndexSet {
    words: Vec<u64>,
}

// The bits of a word.
const WORD_BITS: usize = 64;

impl IndexSet {
    /// Returns no indices, with place for those below the limit. Returns `AllocError` if allocation fails.
    pub(crate) fn below(alloc: Global, limit: usize) -> Result<IndexSet, AllocError> {
        let mut words = Vec::new(alloc);
        words.resize(limit / WORD_BITS + 1, 0)?;
        Ok(IndexSet { words })
    }

    /// Returns these indices, those below the limit. Returns `AllocError` if allocation fails.
    pub(crate) fn of(
        alloc: Global,
        limit: usize,
        indices: &[usize],
    ) -> Result<IndexSet, AllocError> {
        let mut set = IndexSet::below(alloc, limit)?;
        for index in indices {
            set.add(*index);
        }
        Ok(set)
    }

    /// Adds an index, if there is place for it.
    pub(crate) fn add(&mut self, index: usize) {
        if let Some(word) = self.words.get_mut(index / WORD_BITS) {
            *word |= 1 << (index % WORD_BITS);
        }
    }

    /// Whether the index is one of these.
    pub(crate) fn has(&self, index: usize) -> bool {
        match self.words.get(index / WORD_BITS) {
            None => false,
            Some(word) => (*word >> (index % WORD_BITS)) & 1 == 1,
        }
    }

    /// Adds all others for which there is place.
    pub(crate) fn add_all(&mut self, others: &IndexSet) {
        for at in 0..self.words.len().min(others.words.len()) {
            self.words[at] |= others.words[at];
        }
    }
}
