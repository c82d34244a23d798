//! `subjects`: lists what of a policy reaches nobody.
ghost use Rattle.std.specs.Prelude.{◌≡◌, IfErr, IfOk};
ghost use Rattle.run_base.specs.Endings.{writer_states as sent};
ghost use Rattle.review_commands.specs.Endings.{EndsNoted};
ghost use Rattle.review_commands.specs.SubjectRows.{subjects_status};
ghost use Rattle.review_commands.specs.Surveying.{AreSubjects, Inputs, inputs_by, IsNotSurveyed, IsTabled, table_notices};

use crate::ending::{NotedOutput, end_noted};
use crate::fault::TableFault;
use crate::program_name::PROGRAM;
use crate::subject_rows::subjects_text;
use crate::survey::{noted, or_memory, read_survey};
use audit_files::{Feed, Sink};
use review_subjects::{Subject, subjects};
use run_base::{Files, RunOutput};
use std::alloc::{AllocError, Global};
use sudo_match::Directory;
use sudo_policy::Checked;

// Returns 5 if there is a subject, otherwise 0.
fn status_of(found: &[Subject]) -> u8
    ensures { result ≡ subjects_status found.now }
{
    match found {
        [] => 0,
        _ => 5,
    }
}

// Returns the table of the subjects of a policy, and the status for it.
fn subjects_table(
    alloc: Global,
    policy: &Checked,
    directory: &Directory,
) -> Result<RunOutput, AllocError>
    ensures { IfOk result (λ o. AreSubjects policy.now directory.now o.text.items o.status) }
{
    let found = subjects(alloc, policy, directory)?;
    let text = subjects_text(alloc, policy.policy().files.as_slice(), &found)?;
    let status = status_of(&found);
    drop(found);
    Ok(RunOutput { text, status })
}

// Returns the text, the notice and the status of the subjects of the policy of a file.
fn subjects_output<F: Files, U: Feed, H: Feed>(
    alloc: Global,
    path: &[u8],
    files: &mut F,
    users: &mut U,
    hosts: &mut H,
) -> Result<NotedOutput, TableFault>
    ensures printed { let given : Inputs = inputs_by (F.held files.old) path.now
        (U.ahead users.old) (H.ahead hosts.old) in
        IfOk result (λ p. IsTabled AreSubjects given p.text.items p.notice.items p.status) }
    ensures fault { let given : Inputs = inputs_by (F.held files.old) path.now
        (U.ahead users.old) (H.ahead hosts.old) in
        IfErr result (IsNotSurveyed given) }
{
    let survey = read_survey(alloc, path, files, users, hosts)?;
    let table = or_memory(subjects_table(alloc, &survey.checked.policy, &survey.directory));
    noted(survey, table)
}

/// Prints on `out` the table of what of the policy of a file reaches nobody that the users and hosts files know. Then prints on
/// `err` the line that counts the cautions on the policy, if there is one.
///
/// Returns the exit status: 0; 5 if there is a row; 1 if the policy is refused or has errors; 3 if the users or the hosts are
/// refused; 4 if reading, writing or memory failed. Checks in this order: the policy, the users, the hosts, both together. If
/// the check of the policy finds errors, prints them on `err`; prints any other fault as one line on `err`. Then nothing was
/// printed on `out`, except by a write that failed part way.
pub fn subjects_run<F: Files, U: Feed, H: Feed, O: Sink, E: Sink>(
    alloc: Global,
    path: &[u8],
    files: &mut F,
    users: &mut U,
    hosts: &mut H,
    out: &mut O,
    err: &mut E,
) -> u8
    ensures ends { let given : Inputs = inputs_by (F.held files.old) path.now
        (U.ahead users.old) (H.ahead hosts.old) in
        EndsNoted table_notices (IsTabled AreSubjects given) (IsNotSurveyed given) result
        (sent O.taken O.stalled_writes out.old out.new)
        (sent E.taken E.stalled_writes err.old err.new) }
{
    let ended = subjects_output(alloc, path, files, users, hosts);
    end_noted(alloc, PROGRAM, ended, out, err)
}
