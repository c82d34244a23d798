//! The end of a run that prints a notice beside its text.
ghost use Rattle.std.specs.Prelude.{◌≡◌, Err};
ghost use Rattle.run_base.specs.Endings.{notices, writer_states as sent};
ghost use Rattle.review_commands.specs.Endings.{EndsNoted, IsNoted};

use audit_files::{Sink, write_all_of};
use run_base::{Fails, report_explained, write_text};
use std::alloc::Global;

/// The text that a run prints on the output, the notice that it then prints on the error output, and its exit status.
#[derive(Drop)]
pub struct NotedOutput {
    pub text: Vec<u8>,
    pub notice: Vec<u8>,
    pub status: u8,
}

/// Ends a run of the program of this name: prints its text on `out` and then its notice on `err`, and returns its status; or
/// prints the fault on `err`, with the reason why a path cannot be read, and returns the fault's status. A write on `out` that
/// fails is a fault; one on `err` is ignored.
pub fn end_noted<F: Fails, O: Sink, E: Sink>(
    alloc: Global,
    program: &[u8],
    ended: Result<NotedOutput, F>,
    out: &mut O,
    err: &mut E,
) -> u8
    ensures { EndsNoted (notices F.status F.explained program.now) (IsNoted ended)
        (λ fault. ended ≡ Err fault) result
        (sent O.taken O.stalled_writes out.old out.new)
        (sent E.taken E.stalled_writes err.old err.new) }
{
    match ended {
        Ok(noted) => match write_all_of(out, &noted.text) {
            Ok(()) => write_text(&noted.notice, noted.status, err),
            Err(lost) => report_explained(alloc, program, lost, err),
        },
        Err(fault) => report_explained(alloc, program, fault, err),
    }
}
