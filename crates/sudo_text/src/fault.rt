//! The faults of a text.

use crate::Place;
use std::alloc::{AllocError, AllocFailed};
use thiserror::Error;

/// A fault of a text, or of one of its lines.
///
/// `place` is where the logical line begins, and `col` is 1 plus the offset of the fault in the joined text.
#[derive(Clone, Copy, Debug, PartialEq, Eq, Error)]
pub enum TextFault {
    /// A double quote without a closing one; at that quote.
    #[error("{place}:{col}: bad quote")]
    BadQuote { place: Place, col: u32 },
    /// `\x` without two hexadecimal digits after it; at the backslash.
    #[error("{place}:{col}: bad hexadecimal")]
    BadHex { place: Place, col: u32 },
    /// A backslash with nothing after it, or a comment that continues over a join; at the backslash or the `#`.
    #[error("{place}:{col}: bad escape")]
    BadEscape { place: Place, col: u32 },
    /// A control byte outside a comment; at that byte.
    #[error("{place}:{col}: not printable")]
    NotPrintable { place: Place, col: u32 },
    /// The text is over the limit of 16,777,216 bytes.
    #[error("text too long")]
    TooLong { file: u32 },
    /// Out of memory.
    #[error("out of memory")]
    Memory,
}

impl From<AllocError> for TextFault {
    ghost use Rattle.std.specs.Prelude.{◌≡◌};
    ghost use Rattle.sudo_text.specs.declared.fault.TextFault.TheVariants.{Memory};

    ghost from_gives = { λ _ e. e ≡ Memory };

    fn from(_: AllocError) -> TextFault {
        TextFault::Memory
    }
}

impl<T: Drop> From<AllocFailed<T>> for TextFault {
    ghost use Rattle.std.specs.Prelude.{◌≡◌};
    ghost use Rattle.sudo_text.specs.declared.fault.TextFault.TheVariants.{Memory};

    ghost from_gives = { λ _ e. e ≡ Memory };

    fn from(_: AllocFailed<T>) -> TextFault {
        TextFault::Memory
    }
}
