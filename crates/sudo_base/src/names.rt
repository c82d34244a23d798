//! A map from names to numbers.
ghost use Rattle.std.specs.Prelude.{◌≡◌, List, [], ◌∷◌, ◌++◌, None, OnOk, OnErr};
ghost use Rattle.sudo_base.specs.NameIndices.{index_of};

use indexmap::IndexMap;
use std::alloc::{AllocError, Global};
use std::marker::Model;

/// A map from names to the indices that they stand for, in order of insertion. Contracts see the list of pairs.
#[derive(Drop)]
pub struct Names {
    indices: IndexMap<Vec<u8>, usize>,
}

impl Model for Names {
    ghost use Rattle.std.specs.Prelude.{List, ℕ, map};
    ghost use Rattle.sudo_base.specs.NameEntry.{entry_by_list};

    ghost Value = { List (List ℕ × ℕ) };

    ghost view = { λ n. map entry_by_list n.indices.entries };
}

impl Names {
    /// Creates an empty map. Does not allocate.
    pub fn new(alloc: Global) -> Names
        ensures { result ≡ [] }
    {
        Names {
            indices: IndexMap::new(alloc),
        }
    }

    /// Returns the index of a name, or `None` if the map does not contain it. Does not allocate.
    pub fn get(&self, name: &[u8]) -> Option<usize>
        ensures { result ≡ index_of self.now name.now }
    {
        self.indices.get(name).copied()
    }

    /// Inserts a new name. Returns `AllocError` if allocation fails; the map is then unchanged.
    pub fn insert(&mut self, alloc: Global, name: &[u8], index: usize) -> Result<(), AllocError>
        requires { index_of self.old name.now ≡ None }
        ensures ok { OnOk result (self.new ≡ self.old ++ (name.now, index) ∷ []) }
        ensures err { OnErr result (self.new ≡ self.old) }
    {
        let key = Vec::from_slice(alloc, name)?;
        self.indices.insert(key, index)?;
        Ok(())
    }
}
