//! The common input of the tables of a policy: the policy, the known users and hosts, and the cautions.
ghost use Rattle.std.specs.Prelude.{◌≡◌, Ok, Err, IfErr, IfOk};
ghost use Rattle.review_commands.specs.Body.Surveying.{IsMemory};
ghost use Rattle.review_commands.specs.Surveying.{Inputs, inputs_by, IsNotSurveyed, IsSurveyed};
ghost use Rattle.review_commands.specs.Endings.{IsNotedTable};

use crate::ending::NotedOutput;
use crate::fault::TableFault;
use crate::report::notice_on;
use audit_commands::{DirectoryFault, directory_of};
use audit_files::Feed;
use run_base::{CheckedFiles, Files, PolicyFault, RunOutput, checked_files};
use std::alloc::{AllocError, Global};
use std::mem;
use sudo_match::Directory;

/// A policy that passes the check, the known users and hosts, and the line of the cautions on the policy.
#[derive(Drop)]
pub(crate) struct Survey {
    pub(crate) checked: CheckedFiles,
    pub(crate) directory: Directory,
    pub(crate) notice: Vec<u8>,
}

/// Loads the policy of a file, and reads the known users and hosts.
///
/// Returns `Policy` if the policy is refused or has errors, `Directory` if the users, the hosts or both together are refused,
/// and `Memory` if allocation failed.
pub(crate) fn read_survey<F: Files, U: Feed, H: Feed>(
    alloc: Global,
    path: &[u8],
    files: &mut F,
    users: &mut U,
    hosts: &mut H,
) -> Result<Survey, TableFault>
    ensures surveyed { let given : Inputs = inputs_by (F.held files.old) path.now
        (U.ahead users.old) (H.ahead hosts.old) in
        IfOk result (λ s. IsSurveyed given s.checked.policy s.directory s.notice.items) }
    ensures fault { let given : Inputs = inputs_by (F.held files.old) path.now
        (U.ahead users.old) (H.ahead hosts.old) in
        IfErr result (IsNotSurveyed given) }
{
    let checked = match checked_files(alloc, path, files) {
        Ok(checked) => checked,
        Err(PolicyFault::Memory) => return Err(TableFault::Memory),
        Err(fault) => return Err(TableFault::Policy(fault)),
    };
    let notice = match notice_on(alloc, &checked) {
        Ok(notice) => notice,
        Err(_) => return Err(TableFault::Memory),
    };
    match directory_of(alloc, users, hosts) {
        Ok(directory) => Ok(Survey {
            checked,
            directory,
            notice,
        }),
        Err(DirectoryFault::Memory) => Err(TableFault::Memory),
        Err(fault) => Err(TableFault::Directory(fault)),
    }
}

/// Returns a table, or an allocation failure as the fault of a table.
pub(crate) fn or_memory(table: Result<RunOutput, AllocError>) -> Result<RunOutput, TableFault>
    ensures made { IfOk result (λ o. table ≡ Ok o) }
    ensures fault { IfErr result IsMemory }
{
    match table {
        Ok(table) => Ok(table),
        Err(_) => Err(TableFault::Memory),
    }
}

/// Returns a table with the notice that is printed behind it, or the fault in place of the table. Forgets the policy: the run
/// ends here.
pub(crate) fn noted(
    survey: Survey,
    table: Result<RunOutput, TableFault>,
) -> Result<NotedOutput, TableFault>
    ensures noted { IfOk result (λ p. IsNotedTable table survey.notice.items p) }
    ensures fault { IfErr result (λ fault. table ≡ Err fault) }
{
    let Survey {
        checked,
        directory,
        notice,
    } = survey;
    drop(directory);
    mem::forget(checked);
    match table {
        Ok(RunOutput { text, status }) => Ok(NotedOutput {
            text,
            notice,
            status,
        }),
        Err(fault) => Err(fault),
    }
}
