//! The trait of writers, and writing a whole text.
ghost use Rattle.std.specs.Prelude.{◌≡◌, ◌+◌, ◌<◌, ◌≤◌, ℕ, List, Option, IfOk, IfErr, OnOk, length, take};
ghost use Rattle.std.specs.Io.KnownBytes.{Appends, WriteAppends};
ghost use Rattle.audit_files.specs.Feeding.{failures_of};
ghost use Rattle.audit_files.specs.Sinking.{stalls_of};

use crate::Failed;
use thiserror::Error;

/// A writer of bytes.
pub trait Sink {
    // The bytes that were written, if the writer specifies them.
    ghost taken: { Self → Option (List ℕ) };

    // The number of writes that have failed or written no byte.
    ghost stalled_writes: { Self → ℕ };

    /// Writes the first of these bytes, and returns their number. Returns `Failed` if the write
    /// failed.
    fn write(&mut self, bytes: &[u8]) -> Result<usize, Failed>
        ensures bound { IfOk result (λ n. n ≤ length bytes.now) }
        ensures bytes { WriteAppends (taken self.old) (taken self.new) result bytes.now }
        ensures stalls { stalled_writes self.new ≡ stalled_writes self.old + stalls_of result };
}

/// A write failed or wrote no byte after `written` bytes.
#[derive(Clone, Copy, Debug, PartialEq, Eq, Error)]
#[error("write failed after {written} bytes")]
pub struct WriteFault {
    pub written: u64,
}

/// Writes all of the bytes. Returns `WriteFault` exactly if a write failed or wrote no byte; then
/// the first `written` bytes were written and no more.
pub fn write_all_of<W: Sink>(writer: &mut W, bytes: &[u8]) -> Result<(), WriteFault>
    ensures whole { OnOk result (Appends (W.taken writer.old) (W.taken writer.new) bytes.now) }
    ensures part { IfErr result (λ fault. Appends (W.taken writer.old) (W.taken writer.new)
        (take fault.written bytes.now)) }
    ensures within { IfErr result (λ fault. fault.written < length bytes.now) }
    ensures stalls { W.stalled_writes writer.new
        ≡ W.stalled_writes writer.old + failures_of result }
{
    let mut written = 0;
    while written < bytes.len() {
        match writer.write(&bytes[written..]) {
            Ok(n) if n > 0 => written += n,
            _ => {
                return Err(WriteFault {
                    written: written as u64,
                });
            }
        }
    }
    Ok(())
}
