//! `check`: lists the findings on a policy.
ghost use Rattle.std.specs.Prelude.{◌≡◌, ◌≤◌, IfErr, IfOk};
ghost use Rattle.run_base.specs.Endings.{writer_states as sent, Ends};
ghost use Rattle.run_base.specs.Loading.{PassesCheck, IsNoPolicy};
ghost use Rattle.audit_commands.specs.Examining.{check_status, check_text, IsExamined};
ghost use Rattle.audit_commands.specs.FaultLines.{check_notices};

use crate::fault::PROGRAM;
use audit_files::Sink;
use run_base::{Files, PolicyFault, RunOutput, end_run, finding_lines, load_policy, push};
use std::alloc::{AllocError, Global};
use std::mem;
use sudo_policy::{Finding, findings, has_error};
use sudo_text::Seq;

// Returns a line for each finding, and `ok` if none is an error.
fn check_lines(alloc: Global, files: &[Seq<u8>], found: &[Finding]) -> Result<RunOutput, AllocError>
    ensures text { IfOk result (λ printed. printed.text.items ≡ check_text files.now found.now) }
    ensures status { IfOk result (λ printed. printed.status ≡ check_status found.now) }
{
    let mut text = finding_lines(alloc, files, found, false)?;
    if has_error(found) {
        return Ok(RunOutput { text, status: 1 });
    }
    push(&mut text, b"ok\n")?;
    Ok(RunOutput { text, status: 0 })
}

/// Returns the text and the status of a check of the policy of a file: one line for each finding, then `ok` if none is an
/// error. Returns the fault of a policy that is not read.
// Forgets the policy: the run ends here, and freeing a large policy item by item takes a tenth of the time.
pub fn check_output<F: Files>(
    alloc: Global,
    path: &[u8],
    files: &mut F,
) -> Result<RunOutput, PolicyFault>
    ensures printed { IfOk result (λ p. IsExamined
        (F.held files.old) path.now p.text.items p.status) }
    ensures fault { IfErr result (IsNoPolicy (F.held files.old) path.now) }
{
    let policy = load_policy(alloc, path, files)?;
    let found = findings(alloc, &policy)?;
    let printed = check_lines(alloc, policy.files.as_slice(), &found)?;
    mem::forget(policy);
    Ok(printed)
}

/// Prints on `out` one line for each finding on the policy of a file, then `ok` if none is an
/// error.
///
/// Returns the exit status: 0; 1 if a finding is an error or the policy is refused; 4 if reading,
/// writing or memory failed. Prints a fault as one line on `err`; then nothing was printed on
/// `out`, except by a write that failed part way.
pub fn check_run<F: Files, O: Sink, E: Sink>(
    alloc: Global,
    path: &[u8],
    files: &mut F,
    out: &mut O,
    err: &mut E,
) -> u8
    ensures most { result ≤ 4 }
    ensures fine { result ≡ 0 → PassesCheck (F.held files.old) path.now }
    ensures ends { Ends check_notices (IsExamined (F.held files.old) path.now)
        (IsNoPolicy (F.held files.old) path.now) result
        (sent O.taken O.stalled_writes out.old out.new)
        (sent E.taken E.stalled_writes err.old err.new) }
{
    let ended = check_output(alloc, path, files);
    end_run(alloc, PROGRAM, ended, out, err)
}
