//! The faults of loading.

use std::alloc::AllocError;
use sudo_grammar::ParseFault;
use sudo_text::{Place, Seq};
use thiserror::Error;

/// A file or folder that is needed, by its path.
#[derive(Clone, Debug, Drop, PartialEq, Eq)]
pub enum Want {
    File(Seq<u8>),
    Folder(Seq<u8>),
}

/// The reason why files are no policy. The file number of a place is that of a file that was read.
#[derive(Clone, Debug, Drop, PartialEq, Eq, Error)]
pub enum LoadFault {
    /// A file is no policy, or there are more than 4,096 definitions of aliases of one kind in all files.
    #[error(transparent)]
    Parse(ParseFault),
    /// The include line at this place is in a file that is 128 includes deep.
    #[error("{place}: includes too deep")]
    TooNested { place: Place },
    /// The include line at this place needs a 1,025th reading of a file, or of a folder.
    #[error("{place}: too many files")]
    TooMany { place: Place },
    /// This file or folder was not provided.
    #[error("not handed in")]
    Wanted(Want),
    /// The file that the include line at this place names does not exist.
    #[error("{place}: missing file")]
    Missing { place: Place, path: Seq<u8> },
    /// Out of memory.
    #[error("out of memory")]
    Memory,
}

impl From<AllocError> for LoadFault {
    ghost use Rattle.std.specs.Prelude.{◌≡◌};
    ghost use Rattle.sudo_load.specs.declared.fault.LoadFault.TheVariants.{Memory};

    ghost from_gives = { λ _ e. e ≡ Memory };

    fn from(_: AllocError) -> LoadFault {
        LoadFault::Memory
    }
}
