//! Reading the bytes of a file.
ghost use Rattle.std.specs.Prelude.{◌≡◌, ◌+◌, Ok, Err, IfOk, IfErr};
ghost use Rattle.audit_files.specs.Faults.{IsNotOutOfMemory, read_failures};
ghost use Rattle.audit_files.specs.Files.{IsRead, itself};

use crate::{Feed, FileFault, ReadFault, read_whole};
use std::alloc::Global;

// The most bytes that a file may have.
const BYTE_LIMIT: usize = 268_435_456;

/// Reads a file to its end, and returns its bytes. Returns `TooMany` for more than 268,435,456
/// bytes, `Read` if a read failed, and `Memory` if allocation failed.
pub fn read_text<R: Feed>(alloc: Global, reader: &mut R) -> Result<Vec<u8>, FileFault>
    ensures text { IfOk result (λ text. IsRead itself (R.ahead reader.old) (Ok text.items)) }
    ensures fault { IfErr result (λ e. IsNotOutOfMemory e → IsRead itself (R.ahead reader.old) (Err
        e)) }
    ensures failures { R.failed_reads reader.new
        ≡ R.failed_reads reader.old + read_failures result }
{
    match read_whole(alloc, reader, BYTE_LIMIT) {
        Ok(text) => Ok(text),
        Err(ReadFault::TooLong) => Err(FileFault::TooMany),
        Err(ReadFault::Failed) => Err(FileFault::Read),
        Err(ReadFault::Memory) => Err(FileFault::Memory),
    }
}
