//! `check`: lists the findings on a policy.
ghost use Rattle.std.specs.Prelude.{IfErr, IfOk};
ghost use Rattle.run_base.specs.Endings.{writer_states as sent, Ends};
ghost use Rattle.run_base.specs.Loading.{IsNoPolicy};
ghost use Rattle.audit_commands.specs.Examining.{IsExamined};
ghost use Rattle.review_commands.specs.CautionLines.{policy_notices};

use crate::program_name::PROGRAM;
use audit_commands::check_output;
use audit_files::Sink;
use run_base::{Files, end_explained};
use std::alloc::Global;

/// Prints on `out` one line for each finding on the policy of a file, then `ok` if none is an error.
///
/// Returns the exit status: 0; 1 if a finding is an error or the policy is refused; 4 if reading, writing or memory failed.
/// Prints a fault as one line on `err`; then nothing was printed on `out`, except by a write that failed part way.
pub fn check_run<F: Files, O: Sink, E: Sink>(
    alloc: Global,
    path: &[u8],
    files: &mut F,
    out: &mut O,
    err: &mut E,
) -> u8
    ensures ends { Ends policy_notices (IsExamined (F.held files.old) path.now)
        (IsNoPolicy (F.held files.old) path.now) result
        (sent O.taken O.stalled_writes out.old out.new)
        (sent E.taken E.stalled_writes err.old err.new) }
{
    let ended = check_output(alloc, path, files);
    end_explained(alloc, PROGRAM, ended, out, err)
}
