//! Readers and writers of the system.
ghost use Rattle.std.specs.Prelude.{◌≡◌, None};
ghost use Rattle.audit_files.specs.Count.{times};

use crate::{Count, Failed, Feed, Sink};
use std::io::{Read, Write};

/// A reader or a writer of the system. Its contracts leave the bytes that it reads or writes
/// unspecified.
#[derive(Drop)]
pub struct Device<T> {
    inner: T,
    failed_reads: Count,
    stalled_writes: Count,
}

impl<T> Device<T> {
    /// Creates a device over a reader or a writer. No call has failed yet.
    pub fn new(inner: T) -> Device<T>
        ensures inner { result.inner ≡ inner }
        ensures reads { times result.failed_reads ≡ 0 }
        ensures writes { times result.stalled_writes ≡ 0 }
    {
        Device {
            inner,
            failed_reads: Count::Never,
            stalled_writes: Count::Never,
        }
    }
}

impl<T: Read> Feed for Device<T> {
    ghost ahead = { λ _. None };

    ghost failed_reads = { λ d. times d.failed_reads };

    fn read(&mut self, buffer: &mut [u8]) -> Result<usize, Failed> {
        match self.inner.read(buffer) {
            Ok(count) => Ok(count),
            Err(_) => {
                self.failed_reads.add_one();
                Err(Failed)
            }
        }
    }
}

impl<T: Write> Sink for Device<T> {
    ghost taken = { λ _. None };

    ghost stalled_writes = { λ d. times d.stalled_writes };

    fn write(&mut self, bytes: &[u8]) -> Result<usize, Failed> {
        let result = match self.inner.write(bytes) {
            Ok(count) => Ok(count),
            Err(_) => Err(Failed),
        };
        if !matches!(&result, Ok(1..)) {
            self.stalled_writes.add_one();
        }
        result
    }
}
