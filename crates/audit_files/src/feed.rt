//! The trait of readers.
ghost use Rattle.std.specs.Prelude.{◌≡◌, ◌+◌, ◌≤◌, ℕ, Option, IfOk, length};
ghost use Rattle.audit_files.specs.Feeding.{Ahead, Reads, failures_of};

use crate::Failed;

/// A reader of bytes.
pub trait Feed {
    // The bytes still to be read, if the reader specifies them.
    ghost ahead: { Self → Option Ahead };

    // The number of reads that have failed.
    ghost failed_reads: { Self → ℕ };

    /// Reads the next bytes into the front of the buffer, and returns their number. Returns 0 only
    /// at the end or if the buffer is empty, and `Failed` if the read failed.
    fn read(&mut self, buffer: &mut [u8]) -> Result<usize, Failed>
        ensures bound { IfOk result (λ n. n ≤ length buffer.new) }
        ensures bytes { Reads (ahead self.old) (ahead self.new) result buffer.new }
        ensures failures { failed_reads self.new ≡ failed_reads self.old + failures_of result };
}
