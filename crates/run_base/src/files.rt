//! The files and folders of a policy.
ghost use Rattle.std.specs.Prelude.{◌≡◌, ◌≢◌, IfErr, IfOk};
ghost use Rattle.run_base.specs.Holding.{any_holdings, Holdings, IsFileFault, IsFolderFault};

use crate::obstacle::Obstacle;
use audit_files::{Device, ReadFault, read_whole};
use std::alloc::{AllocError, Global};
use std::fs::File;
use std::io::ErrorKind;
use std::path::Path;
use std::{fs, io};
use sudo_text::{Seq, TEXT_LIMIT};
use thiserror::Error;

/// The reason why a file or a folder cannot be read.
#[derive(Debug, Drop, Error)]
pub enum FilesFault {
    /// Opening or reading failed, or a name is not text.
    #[error("failed")]
    Failed(Obstacle),
    /// The file is longer than a file of a policy may be, 16,777,216 bytes.
    #[error("too long")]
    TooLong,
    /// Out of memory.
    #[error("out of memory")]
    Memory,
}

impl From<AllocError> for FilesFault {
    ghost use Rattle.std.specs.Prelude.{◌≡◌};
    ghost use Rattle.run_base.specs.declared.files.FilesFault.TheVariants.{Memory};

    ghost from_gives = { λ _ e. e ≡ Memory };

    fn from(_: AllocError) -> FilesFault {
        FilesFault::Memory
    }
}

/// Files and folders from which a policy is read.
pub trait Files {
    // What reading may give.
    ghost held: { Self → Holdings };

    /// Returns the text of a file, or `None` if there is no such file. Returns `TooLong` if it is longer than a file of a
    /// policy may be, `Failed` if reading failed, and `Memory` if allocation failed.
    fn file(&mut self, alloc: Global, path: &[u8]) -> Result<Option<Seq<u8>>, FilesFault>
        ensures text { IfOk result (λ text. (held self.old).is_file path.now text) }
        ensures fault { IfErr result (IsFileFault (held self.old) path.now) }
        ensures same { self.new ≡ self.old };

    /// Returns the text of the main file, as `file` does. The main file may be a pipe or another device, also where
    /// `file` reads regular files alone.
    fn main_file(&mut self, alloc: Global, path: &[u8]) -> Result<Option<Seq<u8>>, FilesFault>
        ensures text { IfOk result (λ text. (held self.old).is_file path.now text) }
        ensures fault { IfErr result (IsFileFault (held self.old) path.now) }
        ensures same { self.new ≡ self.old }
    {
        self.file(alloc, path)
    }

    /// Returns the names of a folder's regular files, none if there is no such folder, and of its entries whose kind
    /// cannot be read: reading such a file then fails by its own path. Returns `Failed` if reading the folder failed or a
    /// name is not text, and `Memory` if allocation failed.
    fn folder(&mut self, alloc: Global, path: &[u8]) -> Result<Seq<Seq<u8>>, FilesFault>
        ensures names { IfOk result (λ names. (held self.old).is_folder path.now names) }
        ensures fault { IfErr result (IsFolderFault (held self.old) path.now) }
        ensures same { self.new ≡ self.old };
}

/// The files of this machine.
#[derive(Drop)]
pub struct Disk<'a> {
    rt: &'a HostRuntime,
}

impl<'a> Disk<'a> {
    /// Creates the files of this machine.
    pub fn new(rt: &'a HostRuntime) -> Disk<'a> {
        Disk { rt }
    }
}

// Returns the fault of a file or a folder that the system does not let be read.
fn fault_of(error: &io::Error) -> FilesFault
    ensures { result ≢ FilesFault.TooLong }
{
    match error.kind() {
        ErrorKind::OutOfMemory => FilesFault::Memory,
        _ => FilesFault::Failed(Obstacle::of_error(error)),
    }
}

// Returns the text of a file that may be of any kind, or `None` if there is no such file.
fn text_at(rt: &HostRuntime, alloc: Global, path: &str) -> Result<Option<Seq<u8>>, FilesFault> {
    let file = match File::open(rt, path) {
        Ok(file) => file,
        Err(error) if error.kind() == ErrorKind::NotFound => return Ok(None),
        Err(error) => return Err(fault_of(&error)),
    };
    match read_whole(alloc, &mut Device::new(file), TEXT_LIMIT) {
        Ok(text) => Ok(Some(Seq::from_vec(text))),
        Err(ReadFault::TooLong) => Err(FilesFault::TooLong),
        Err(ReadFault::Failed) => Err(FilesFault::Failed(Obstacle::Other)),
        Err(ReadFault::Memory) => Err(FilesFault::Memory),
    }
}

// Whether an entry of a folder is listed: a regular file, or one whose kind cannot be read, which may be one. An entry
// that is not there, such as a link that leads nowhere, is not listed.
fn is_listed(rt: &HostRuntime, path: Path<'_>) -> bool {
    match fs::metadata(rt, path) {
        Ok(kind) => kind.is_file(),
        Err(error) => error.kind() != ErrorKind::NotFound,
    }
}

impl Files for Disk<'_> {
    ghost held = { λ _. any_holdings };

    fn file(&mut self, alloc: Global, path: &[u8]) -> Result<Option<Seq<u8>>, FilesFault> {
        let Ok(path) = str::from_utf8(path) else {
            return Err(FilesFault::Failed(Obstacle::NotText));
        };
        // Opening a pipe may wait for ever, and opening a device may change it: only regular files are opened.
        match fs::metadata(self.rt, path) {
            Ok(kind) if kind.is_file() => text_at(self.rt, alloc, path),
            Ok(kind) if kind.is_dir() => Err(FilesFault::Failed(Obstacle::IsFolder)),
            Ok(_) => Err(FilesFault::Failed(Obstacle::NotFile)),
            Err(error) if error.kind() == ErrorKind::NotFound => Ok(None),
            Err(error) => Err(fault_of(&error)),
        }
    }

    fn main_file(&mut self, alloc: Global, path: &[u8]) -> Result<Option<Seq<u8>>, FilesFault> {
        let Ok(path) = str::from_utf8(path) else {
            return Err(FilesFault::Failed(Obstacle::NotText));
        };
        match fs::metadata(self.rt, path) {
            Ok(kind) if kind.is_dir() => Err(FilesFault::Failed(Obstacle::IsFolder)),
            _ => text_at(self.rt, alloc, path),
        }
    }

    fn folder(&mut self, alloc: Global, path: &[u8]) -> Result<Seq<Seq<u8>>, FilesFault> {
        let Ok(path) = str::from_utf8(path) else {
            return Err(FilesFault::Failed(Obstacle::NotText));
        };
        let mut names = Seq::new(alloc);
        let entries = match fs::read_dir(self.rt, path) {
            Ok(entries) => entries,
            Err(error) if error.kind() == ErrorKind::NotFound => return Ok(names),
            Err(error) => return Err(fault_of(&error)),
        };
        for entry in entries {
            let entry = match entry {
                Ok(entry) => entry,
                // The folder was removed while it was read.
                Err(error) if error.kind() == ErrorKind::NotFound => break,
                Err(error) => return Err(fault_of(&error)),
            };
            if is_listed(self.rt, entry.path()) {
                names.push(Seq::from_slice(alloc, entry.file_name().as_bytes())?)?;
            }
        }
        Ok(names)
    }
}
