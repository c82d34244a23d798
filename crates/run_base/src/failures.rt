//! Faults that every run may have: no memory, and a write that fails.
ghost use Rattle.run_base.specs.FaultLines.{memory_printed, write_printed};
ghost use Rattle.run_base.specs.Faults.{memory_status, write_status};

use crate::fails::Fails;
use crate::fault_text::push_no_memory;
use crate::lines::{begin_line, push, push_number};
use audit_files::WriteFault;
use std::alloc::{AllocError, Global};

impl Fails for AllocError {
    ghost status = { memory_status };

    ghost printed = { memory_printed };

    ghost explained = { memory_printed };

    fn status(&self) -> u8 {
        4
    }

    fn printed(self, alloc: Global, program: &[u8]) -> Result<Vec<u8>, AllocError> {
        let mut line = begin_line(alloc, program)?;
        push_no_memory(&mut line)?;
        push(&mut line, b"\n")?;
        Ok(line)
    }

    fn explained(self, alloc: Global, program: &[u8]) -> Result<Vec<u8>, AllocError> {
        self.printed(alloc, program)
    }
}

impl Fails for WriteFault {
    ghost status = { write_status };

    ghost printed = { write_printed };

    ghost explained = { write_printed };

    fn status(&self) -> u8 {
        4
    }

    fn printed(self, alloc: Global, program: &[u8]) -> Result<Vec<u8>, AllocError> {
        let mut line = begin_line(alloc, program)?;
        push(&mut line, b"write failed after ")?;
        push_number(&mut line, self.written)?;
        push(&mut line, b" bytes\n")?;
        Ok(line)
    }

    fn explained(self, alloc: Global, program: &[u8]) -> Result<Vec<u8>, AllocError> {
        self.printed(alloc, program)
    }
}
