//! A map from group IDs to indices.
ghost use Rattle.std.specs.Prelude.{◌≡◌, [], ◌∷◌, OnOk};
ghost use Rattle.sudo_base.specs.NameIndices.{index_of};
ghost use Rattle.sudo_match.specs.Body.Indexing.{with_name};

use indexmap::IndexMap;
use std::alloc::{AllocError, Global};
use std::marker::Model;

/// A map from group IDs to indices. Contracts see an ID as a name of one number.
#[derive(Drop)]
pub(crate) struct Ids {
    indices: IndexMap<u32, usize>,
}

impl Model for Ids {
    ghost use Rattle.std.specs.Prelude.{List, ℕ, map};
    ghost use Rattle.sudo_match.specs.Body.IdEntry.{entry_by_id};

    ghost Value = { List (List ℕ × ℕ) };

    ghost view = { λ n. map entry_by_id n.indices.entries };
}

impl Ids {
    /// Creates an empty map. Does not allocate.
    pub(crate) fn new(alloc: Global) -> Ids
        ensures { result ≡ [] }
    {
        Ids {
            indices: IndexMap::new(alloc),
        }
    }

    /// Returns the index of an ID, or `None` if the map does not contain it. Does not allocate.
    pub(crate) fn get(&self, id: u32) -> Option<usize>
        ensures { result ≡ index_of self.now (id ∷ []) }
    {
        self.indices.get(&id).copied()
    }

    /// Inserts the index of an ID, unless the ID has one.
    pub(crate) fn note(&mut self, id: u32, index: usize) -> Result<(), AllocError>
        ensures { OnOk result (self.new ≡ with_name self.old (id ∷ []) index) }
    {
        if self.get(id).is_some() {
            return Ok(());
        }
        self.indices.insert(id, index)?;
        Ok(())
    }
}
