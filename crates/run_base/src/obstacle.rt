//! What keeps a file or a folder from being read.
ghost use Rattle.std.specs.Prelude.{◌≡◌, ◌++◌, OnOk, codes};
ghost use Rattle.std.specs.IoError.{error_kind};
ghost use Rattle.run_base.specs.FaultTexts.{reason_text};
ghost use Rattle.run_base.specs.Obstacles.{obstacle_of};

use crate::lines::{push, push_both};
use std::alloc::AllocError;
use std::io;
use std::io::ErrorKind;
use sudo_text::Seq;

/// What keeps a file or a folder from being read.
#[derive(Debug, Drop)]
pub enum Obstacle {
    /// There is no such file.
    NotFound,
    /// The system does not permit it.
    PermissionDenied,
    /// A file is needed, and there is a folder.
    IsFolder,
    /// A folder is needed, and there is a file.
    NotFolder,
    /// A regular file is needed, and there is a pipe, a socket or a device.
    NotFile,
    /// The name, or one of a folder's names, is not UTF-8.
    NotText,
    /// The path leads out of this folder, below which all files are.
    LeadsOut(Seq<u8>),
    /// The path has too many symbolic links.
    TooManyLinks,
    /// Any other one, as a device that fails.
    Other,
}

impl Obstacle {
    /// Returns the obstacle that an error of the system names.
    pub fn of_error(error: &io::Error) -> Obstacle
        ensures { result ≡ obstacle_of (error_kind error.now) }
    {
        match error.kind() {
            ErrorKind::NotFound => Obstacle::NotFound,
            ErrorKind::PermissionDenied => Obstacle::PermissionDenied,
            ErrorKind::IsADirectory => Obstacle::IsFolder,
            ErrorKind::NotADirectory => Obstacle::NotFolder,
            ErrorKind::FilesystemLoop => Obstacle::TooManyLinks,
            _ => Obstacle::Other,
        }
    }
}

/// Appends the reason why a path cannot be read, behind the path: a colon and the obstacle, or nothing for `Other`.
pub(crate) fn push_reason(line: &mut Vec<u8>, why: &Obstacle) -> Result<(), AllocError>
    ensures { OnOk result (line.new.items ≡ line.old.items ++ reason_text why.now) }
{
    match why {
        Obstacle::NotFound => push(line, b": no such file"),
        Obstacle::PermissionDenied => push(line, b": permission denied"),
        Obstacle::IsFolder => push(line, b": is a folder"),
        Obstacle::NotFolder => push(line, b": not a folder"),
        Obstacle::NotFile => push(line, b": not a regular file"),
        Obstacle::NotText => push(line, b": name is not UTF-8"),
        Obstacle::LeadsOut(folder) => push_both(line, b": leads out of ", folder.as_slice()),
        Obstacle::TooManyLinks => push(line, b": too many symbolic links"),
        Obstacle::Other => Ok(()),
    }
}
