//! `roots`: lists who can become root, on which host, and by which chain.
ghost use Rattle.std.specs.Prelude.{◌≡◌, IfErr, IfOk};
ghost use Rattle.run_base.specs.Endings.{writer_states as sent};
ghost use Rattle.review_commands.specs.Endings.{EndsNoted};
ghost use Rattle.review_commands.specs.RootRows.{AreRootRows};
ghost use Rattle.review_commands.specs.Surveying.{Inputs, inputs_by, IsNotSurveyed, IsTabled, table_notices};

use crate::ending::{NotedOutput, end_noted};
use crate::fault::TableFault;
use crate::program_name::PROGRAM;
use crate::root_rows::{RootTable, roots_text};
use crate::survey::{noted, or_memory, read_survey};
use audit_files::{Feed, Sink};
use review_cautions::decides_passwords;
use review_roots::addable_groups;
use run_base::{Files, RunOutput};
use std::alloc::{AllocError, Global};
use sudo_match::Directory;
use sudo_policy::Checked;

// Returns the table of who can become root under a policy.
fn roots_table(
    alloc: Global,
    policy: &Checked,
    directory: &Directory,
    all: bool,
) -> Result<RunOutput, AllocError>
    ensures { IfOk result (λ o. AreRootRows all policy.now directory.now o.text.items o.status) }
{
    let unsure = decides_passwords(alloc, policy.policy())?;
    let groups = addable_groups(alloc, policy, directory)?;
    let table = RootTable {
        checked: policy,
        directory,
        groups: &groups,
        unsure,
        all,
    };
    let text = roots_text(alloc, table)?;
    drop(groups);
    Ok(RunOutput { text, status: 0 })
}

// Returns the text and the notice of who can become root under the policy of a file.
fn roots_output<F: Files, U: Feed, H: Feed>(
    alloc: Global,
    path: &[u8],
    files: &mut F,
    users: &mut U,
    hosts: &mut H,
    all: bool,
) -> Result<NotedOutput, TableFault>
    ensures printed { let given : Inputs = inputs_by (F.held files.old) path.now
        (U.ahead users.old) (H.ahead hosts.old) in
        IfOk result (λ p. IsTabled (AreRootRows all) given p.text.items p.notice.items p.status) }
    ensures fault { let given : Inputs = inputs_by (F.held files.old) path.now
        (U.ahead users.old) (H.ahead hosts.old) in
        IfErr result (IsNotSurveyed given) }
{
    let survey = read_survey(alloc, path, files, users, hosts)?;
    let table = or_memory(roots_table(alloc, &survey.checked.policy, &survey.directory, all));
    noted(survey, table)
}

/// Prints on `out` the table of who can become root under the policy of a file: for each known host and each known user with ID
/// 0, each known user that can become it there, with the best level of a chain of steps; of the levels `all` and `all-but`, or
/// of `listed` too. Then prints on `err` the line that counts the cautions on the policy, if there is one.
///
/// Returns the exit status: 0; 1 if the policy is refused or has errors; 3 if the users or the hosts are refused; 4 if reading,
/// writing or memory failed. Checks in this order: the policy, the users, the hosts, both together. If the check of the policy
/// finds errors, prints them on `err`; prints any other fault as one line on `err`. Then nothing was printed on `out`, except by
/// a write that failed part way.
pub fn roots_run<F: Files, U: Feed, H: Feed, O: Sink, E: Sink>(
    alloc: Global,
    path: &[u8],
    files: &mut F,
    users: &mut U,
    hosts: &mut H,
    all: bool,
    out: &mut O,
    err: &mut E,
) -> u8
    ensures ends { let given : Inputs = inputs_by (F.held files.old) path.now
        (U.ahead users.old) (H.ahead hosts.old) in
        EndsNoted table_notices (IsTabled (AreRootRows all) given) (IsNotSurveyed given) result
        (sent O.taken O.stalled_writes out.old out.new)
        (sent E.taken E.stalled_writes err.old err.new) }
{
    let ended = roots_output(alloc, path, files, users, hosts, all);
    end_noted(alloc, PROGRAM, ended, out, err)
}
