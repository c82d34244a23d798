//! The end of a run: its output and its exit status.
ghost use Rattle.std.specs.Prelude.{◌≡◌, ◌++◌, codes};
ghost use Rattle.run_base.specs.Endings.{notices, writer_states as sent, Ends, IsFault, IsFaultPrinted, IsPrinted, PrintsLine};
ghost use Rattle.run_base.specs.FaultLines.{memory_line};

use crate::fails::Fails;
use crate::run_output::RunOutput;
use audit_files::{Sink, write_all_of};
use std::alloc::Global;

/// Prints a text as far as writes succeed, and returns this status.
pub fn write_text<E: Sink>(text: &[u8], status: u8, err: &mut E) -> u8
    ensures { PrintsLine status text.now result (sent E.taken E.stalled_writes err.old err.new) }
{
    let _ = write_all_of(err, text);
    status
}

// Prints the line of out of memory as far as writes succeed, without allocation, and returns 4.
fn write_memory_line<E: Sink>(program: &[u8], err: &mut E) -> u8
    ensures { PrintsLine 4 (memory_line program.now) result
        (sent E.taken E.stalled_writes err.old err.new) }
{
    if write_all_of(err, program).is_ok() {
        let _ = write_all_of(err, b": out of memory\n");
    }
    4
}

/// Prints the text of a fault, as the program of this name, and returns its status. If allocation for that text failed,
/// prints the line of `out of memory` and returns 4. Ignores a write that fails.
pub fn report_fault<F: Fails, E: Sink>(alloc: Global, program: &[u8], fault: F, err: &mut E) -> u8
    ensures { IsFaultPrinted (notices F.status F.printed program.now) fault result
        (sent E.taken E.stalled_writes err.old err.new) }
{
    let status = fault.status();
    match fault.printed(alloc, program) {
        Ok(text) => write_text(&text, status, err),
        Err(_) => write_memory_line(program, err),
    }
}

/// Prints the text of a fault as `report_fault` does, with the reason why a path cannot be read.
pub fn report_explained<F: Fails, E: Sink>(
    alloc: Global,
    program: &[u8],
    fault: F,
    err: &mut E,
) -> u8
    ensures { IsFaultPrinted (notices F.status F.explained program.now) fault result
        (sent E.taken E.stalled_writes err.old err.new) }
{
    let status = fault.status();
    match fault.explained(alloc, program) {
        Ok(text) => write_text(&text, status, err),
        Err(_) => write_memory_line(program, err),
    }
}

/// Ends a run of the program of this name: prints its text on `out` and returns its status, or prints the fault on `err`
/// and returns the fault's status. A write on `out` that fails is a fault.
pub fn end_run<F: Fails, O: Sink, E: Sink>(
    alloc: Global,
    program: &[u8],
    ended: Result<RunOutput, F>,
    out: &mut O,
    err: &mut E,
) -> u8
    ensures { Ends (notices F.status F.printed program.now) (IsPrinted ended) (IsFault ended) result
        (sent O.taken O.stalled_writes out.old out.new)
        (sent E.taken E.stalled_writes err.old err.new) }
{
    match ended {
        Ok(printed) => match write_all_of(out, &printed.text) {
            Ok(()) => printed.status,
            Err(lost) => report_fault(alloc, program, lost, err),
        },
        Err(fault) => report_fault(alloc, program, fault, err),
    }
}

/// Ends a run as `end_run` does, with the reason why a path cannot be read.
pub fn end_explained<F: Fails, O: Sink, E: Sink>(
    alloc: Global,
    program: &[u8],
    ended: Result<RunOutput, F>,
    out: &mut O,
    err: &mut E,
) -> u8
    ensures { Ends (notices F.status F.explained program.now) (IsPrinted ended) (IsFault ended)
        result (sent O.taken O.stalled_writes out.old out.new)
        (sent E.taken E.stalled_writes err.old err.new) }
{
    match ended {
        Ok(printed) => match write_all_of(out, &printed.text) {
            Ok(()) => printed.status,
            Err(lost) => report_explained(alloc, program, lost, err),
        },
        Err(fault) => report_explained(alloc, program, fault, err),
    }
}
