//! The rows of a user's blocks that fit each path to try. They are hints: a witness that they lead to is checked before it is used.
use crate::index_set::IndexSet;
use crate::pair::Pair;
use crate::probes::{Path, Probes, RowAt};
use crate::spot::Listed;
use std::alloc::{AllocError, Global};

// The rows of both policies that fit a path, of the blocks that list a user, in order.
#[derive(Drop)]
struct UserRows {
    old: Vec<RowAt>,
    new: Vec<RowAt>,
}

/// For each path to try the rows that fit it, of the blocks that list a user.
#[derive(Drop)]
pub(crate) struct UserPaths {
    rows: Vec<UserRows>,
}

/// The path of a command, and rows of both policies whose paths fit it, in order.
#[derive(Clone, Copy)]
pub(crate) struct FittedPath<'p> {
    pub(crate) text: &'p [u8],
    pub(crate) old: &'p [RowAt],
    pub(crate) new: &'p [RowAt],
}

// Returns the rows that fit the path, of these blocks.
fn user_rows(
    alloc: Global,
    path: &Path,
    old: &IndexSet,
    new: &IndexSet,
) -> Result<UserRows, AllocError> {
    Ok(UserRows {
        old: path.old.of_blocks(alloc, old)?,
        new: path.new.of_blocks(alloc, new)?,
    })
}

impl UserPaths {
    /// Returns no rows.
    pub(crate) fn none(alloc: Global) -> UserPaths {
        UserPaths {
            rows: Vec::new(alloc),
        }
    }

    /// Returns the rows that fit each path, of these blocks. Returns `AllocError` if allocation fails.
    pub(crate) fn of(
        alloc: Global,
        pair: &Pair<'_>,
        listed: &Listed,
    ) -> Result<UserPaths, AllocError> {
        let old = IndexSet::of(alloc, pair.parts.old.len(), &listed.old)?;
        let new = IndexSet::of(alloc, pair.parts.new.len(), &listed.new)?;
        let mut rows = Vec::new(alloc);
        for path in &pair.probes.paths {
            rows.push(user_rows(alloc, path, &old, &new)?)?;
        }
        Ok(UserPaths { rows })
    }

    /// Returns the path at an index, if there is one.
    pub(crate) fn path<'p>(&'p self, probes: &'p Probes, index: usize) -> Option<FittedPath<'p>> {
        let text = probes.paths.get(index)?.text.as_slice();
        let rows = self.rows.get(index)?;
        Some(FittedPath {
            text,
            old: &rows.old,
            new: &rows.new,
        })
    }
}
