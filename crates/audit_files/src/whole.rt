//! Reading all bytes of a reader.
ghost use Rattle.std.specs.Prelude.{◌≡◌, ◌+◌, ◌≤◌, IfOk, IfErr, IfSome, vec_len};
ghost use Rattle.audit_files.specs.Whole.{IsOfReader, failure_of, whole_of};

use crate::{Failed, Feed};
use std::alloc::{AllocError, Global};
use thiserror::Error;

/// The reason why a text is not read.
#[derive(Clone, Copy, Debug, PartialEq, Eq, Error)]
pub enum ReadFault {
    /// The text has more bytes than the limit.
    #[error("too long")]
    TooLong,
    /// A read failed.
    #[error("read failed")]
    Failed,
    /// Out of memory.
    #[error("out of memory")]
    Memory,
}

impl From<AllocError> for ReadFault {
    ghost use Rattle.std.specs.Prelude.{◌≡◌};
    ghost use Rattle.audit_files.specs.declared.whole.ReadFault.TheVariants.{Memory};

    ghost from_gives = { λ _ e. e ≡ Memory };

    fn from(_: AllocError) -> ReadFault {
        ReadFault::Memory
    }
}

/// Reads to the end, up to a limit, and returns the bytes. Returns `TooLong` if there are more
/// bytes than the limit, `Failed` if a read failed before that, and `Memory` if allocation failed;
/// then it reads no further.
pub fn read_whole<R: Feed>(
    alloc: Global,
    reader: &mut R,
    limit: usize,
) -> Result<Vec<u8>, ReadFault>
    ensures text { IfOk result (λ text. IfSome (R.ahead reader.old)
        (λ a. whole_of limit a ≡ Ok text.items)) }
    ensures limit { IfOk result (λ text. vec_len text ≤ limit) }
    ensures fault { IfErr result (λ e. IsOfReader e
        → IfSome (R.ahead reader.old) (λ a. whole_of limit a ≡ Err e)) }
    ensures failures { R.failed_reads reader.new ≡ R.failed_reads reader.old + failure_of result }
{
    let mut text = Vec::new(alloc);
    let mut buffer = [0; 16384];
    loop {
        let count = match reader.read(&mut buffer) {
            Ok(count) => count,
            Err(Failed) => return Err(ReadFault::Failed),
        };
        if count == 0 {
            return Ok(text);
        }
        if count > limit - text.len() {
            return Err(ReadFault::TooLong);
        }
        text.extend_from_slice(&buffer[..count])?;
    }
}
