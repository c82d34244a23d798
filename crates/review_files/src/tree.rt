//! What a tree of files and folders has at its paths.
ghost use Rattle.std.specs.Prelude.{◌≢◌, ℕ, List, Option, IfErr, IfOk};

use run_base::{FilesFault, Obstacle};
use std::alloc::{AllocError, Global};
use sudo_text::Seq;

/// The kind of an entry that is no symbolic link.
#[derive(Clone, Copy)]
pub enum Kind {
    /// A folder.
    Folder,
    /// A regular file.
    File,
    /// A pipe, a socket or a device.
    Other,
}

/// What is at a path. A symbolic link at its end is not followed.
#[derive(Drop)]
pub enum Entry {
    /// Nothing.
    Absent,
    /// A symbolic link, with its target.
    Link(Seq<u8>),
    /// An entry of this kind.
    Is(Kind),
    /// An entry that cannot be looked at, for this reason.
    Unseen(Obstacle),
}

/// A tree of files and folders.
pub trait Tree {
    ghost use Rattle.review_files.specs.declared.tree.Entry.{Entry};

    // What a look at a path may show.
    ghost shows: { Self → List ℕ → Entry → Type 0 };

    // The text that reading the file at a path may give, and whether there may be none.
    ghost reads: { Self → List ℕ → Option (List ℕ) → Type 0 };

    // The names of entries that reading the folder at a path may give.
    ghost lists: { Self → List ℕ → List (List ℕ) → Type 0 };

    /// Returns what is at a path, of which no name but the last is a symbolic link.
    fn look(&self, alloc: Global, path: &[u8]) -> Result<Entry, AllocError>
        ensures { IfOk result (shows self.now path.now) };

    /// Returns the text of the regular file at a path, of which no name is a symbolic link, or `None` if there is no such
    /// file. Returns `TooLong` if it is longer than a file of a policy may be, `Failed` if reading failed, and `Memory` if
    /// allocation failed.
    fn text(&self, alloc: Global, path: &[u8]) -> Result<Option<Seq<u8>>, FilesFault>
        ensures { IfOk result (reads self.now path.now) };

    /// Returns the names of the entries of the folder at a path, of which no name is a symbolic link. Returns `Failed` if
    /// reading failed or a name is not text, and `Memory` if allocation failed.
    fn names(&self, alloc: Global, path: &[u8]) -> Result<Seq<Seq<u8>>, FilesFault>
        ensures names { IfOk result (lists self.now path.now) }
        ensures fault { IfErr result (λ e. e ≢ FilesFault.TooLong) };
}
