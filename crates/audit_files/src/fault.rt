//! Faults of files.

use std::alloc::AllocError;
use thiserror::Error;

/// The reason why a file is refused. `row` counts the records, from 1 for the header.
#[derive(Clone, Copy, Debug, PartialEq, Eq, Error)]
pub enum FileFault {
    /// The first record is not the header of such a file, or the file has no record.
    #[error("bad header")]
    Header,
    /// A record has another number of fields, or a field of another shape.
    #[error("row {row}: bad row")]
    BadRow { row: u32 },
    /// The number of a request is not greater than the previous one.
    #[error("row {row}: out of order")]
    OutOfOrder { row: u32 },
    /// A record follows the close row.
    #[error("row {row}: row after close")]
    RowAfterClose { row: u32 },
    /// The file has more bytes or rows than allowed.
    #[error("too many rows")]
    TooMany,
    /// A read failed.
    #[error("read failed")]
    Read,
    /// Out of memory.
    #[error("out of memory")]
    Memory,
}

impl From<AllocError> for FileFault {
    ghost use Rattle.std.specs.Prelude.{◌≡◌};
    ghost use Rattle.audit_files.specs.declared.fault.FileFault.TheVariants.{Memory};

    ghost from_gives = { λ _ e. e ≡ Memory };

    fn from(_: AllocError) -> FileFault {
        FileFault::Memory
    }
}
