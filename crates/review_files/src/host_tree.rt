//! The tree of this machine.
ghost use Rattle.std.specs.Prelude.{◌≢◌, ⊤};

use crate::{Entry, Kind, Tree};
use run_base::{Disk, Files, FilesFault, Obstacle};
use std::alloc::{AllocError, Global};
use std::io::ErrorKind;
use std::{fs, io};
use sudo_text::Seq;

/// The files and folders of this machine.
#[derive(Drop)]
pub struct HostTree<'a> {
    rt: &'a HostRuntime,
}

impl<'a> HostTree<'a> {
    /// Creates the tree of this machine.
    pub fn new(rt: &'a HostRuntime) -> HostTree<'a> {
        HostTree { rt }
    }
}

// Returns what is at a path at which the system fails.
fn unseen(error: &io::Error) -> Result<Entry, AllocError> {
    match error.kind() {
        ErrorKind::NotFound => Ok(Entry::Absent),
        ErrorKind::OutOfMemory => Err(AllocError),
        _ => Ok(Entry::Unseen(Obstacle::of_error(error))),
    }
}

// Returns the link at a path.
fn link_at(rt: &HostRuntime, alloc: Global, path: &str) -> Result<Entry, AllocError> {
    match fs::read_link(rt, path) {
        Ok(target) => {
            let target = target.into_string();
            Ok(Entry::Link(Seq::from_slice(alloc, target.as_bytes())?))
        }
        Err(error) => unseen(&error),
    }
}

// Returns the fault of a folder that the system does not let be read.
fn fault_of(error: &io::Error) -> FilesFault
    ensures { result ≢ FilesFault.TooLong }
{
    match error.kind() {
        ErrorKind::OutOfMemory => FilesFault::Memory,
        _ => FilesFault::Failed(Obstacle::of_error(error)),
    }
}

impl Tree for HostTree<'_> {
    ghost shows = { λ _ _ _. ⊤ };

    ghost reads = { λ _ _ _. ⊤ };

    ghost lists = { λ _ _ _. ⊤ };

    fn look(&self, alloc: Global, path: &[u8]) -> Result<Entry, AllocError> {
        let Ok(path) = str::from_utf8(path) else {
            return Ok(Entry::Unseen(Obstacle::NotText));
        };
        match fs::symlink_metadata(self.rt, path) {
            Ok(kind) if kind.is_symlink() => link_at(self.rt, alloc, path),
            Ok(kind) if kind.is_dir() => Ok(Entry::Is(Kind::Folder)),
            Ok(kind) if kind.is_file() => Ok(Entry::Is(Kind::File)),
            Ok(_) => Ok(Entry::Is(Kind::Other)),
            Err(error) => unseen(&error),
        }
    }

    fn text(&self, alloc: Global, path: &[u8]) -> Result<Option<Seq<u8>>, FilesFault> {
        Disk::new(self.rt).file(alloc, path)
    }

    fn names(&self, alloc: Global, path: &[u8]) -> Result<Seq<Seq<u8>>, FilesFault> {
        let Ok(path) = str::from_utf8(path) else {
            return Err(FilesFault::Failed(Obstacle::NotText));
        };
        let mut names = Seq::new(alloc);
        let entries = match fs::read_dir(self.rt, path) {
            Ok(entries) => entries,
            Err(error) if error.kind() == ErrorKind::NotFound => return Ok(names),
            Err(error) => return Err(fault_of(&error)),
        };
        for entry in entries {
            let entry = match entry {
                Ok(entry) => entry,
                // The folder was removed while it was read.
                Err(error) if error.kind() == ErrorKind::NotFound => break,
                Err(error) => return Err(fault_of(&error)),
            };
            names.push(Seq::from_slice(alloc, entry.file_name().as_bytes())?)?;
        }
        Ok(names)
    }
}
