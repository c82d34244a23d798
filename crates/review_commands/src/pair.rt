//! The common input of comparisons: two policies, the known users and hosts, and the cautions on both policies.
ghost use Rattle.std.specs.Prelude.{◌≡◌, Err, IfErr, IfOk};
ghost use Rattle.run_base.specs.Loading.{IsLoadedFrom};
ghost use Rattle.sudo_policy.specs.Checking.{Passes};
ghost use Rattle.audit_commands.specs.Auditing.{IsDirectory};
ghost use Rattle.review_commands.specs.Body.Pairing.{ArePathNotices, IsNotPassing, IsPathNotice};
ghost use Rattle.review_commands.specs.Body.Knowing.{IsNotKnown};
ghost use Rattle.review_commands.specs.Endings.{IsNotedTable};
ghost use Rattle.review_commands.specs.Pairing.{IsNotPaired, IsPaired, PairInputs, pair_by};
ghost use Rattle.review_commands.specs.FileTexts.{texts_of};

use crate::cautions::found_in;
use crate::ending::NotedOutput;
use crate::fault::TableFault;
use crate::lines::notice_at;
use audit_commands::{DirectoryFault, directory_of};
use audit_files::Feed;
use run_base::{CheckedFiles, Files, PolicyFault, RunOutput, checked_files};
use std::alloc::{AllocError, Global};
use std::mem;
use sudo_match::Directory;

/// Two policies that pass the check, the known users and hosts, and the lines of the cautions on each policy.
#[derive(Drop)]
pub struct Pair {
    pub old: CheckedFiles,
    pub new: CheckedFiles,
    pub directory: Directory,
    pub notice: Vec<u8>,
}

// Returns the policy of a file, if it passes the check. Returns `Policy` if it is refused or has errors, and `Memory` if
// allocation failed.
fn passing<F: Files>(alloc: Global, path: &[u8], files: &mut F) -> Result<CheckedFiles, TableFault>
    ensures loaded { IfOk result (λ checked. IsLoadedFrom (F.held files.old) path.now
        checked.text checked.supplies checked.policy) }
    ensures passes { IfOk result (λ checked. Passes checked.policy) }
    ensures fault { IfErr result (IsNotPassing (F.held files.old) path.now) }
{
    match checked_files(alloc, path, files) {
        Ok(checked) => Ok(checked),
        Err(PolicyFault::Memory) => Err(TableFault::Memory),
        Err(fault) => Err(TableFault::Policy(fault)),
    }
}

// Returns the known users and hosts. Returns `Directory` if the users, the hosts or both together are refused, and `Memory` if
// allocation failed.
fn known<U: Feed, H: Feed>(
    alloc: Global,
    users: &mut U,
    hosts: &mut H,
) -> Result<Directory, TableFault>
    ensures directory { IfOk result (IsDirectory (U.ahead users.old) (H.ahead hosts.old)) }
    ensures fault { IfErr result (IsNotKnown (U.ahead users.old) (H.ahead hosts.old)) }
{
    match directory_of(alloc, users, hosts) {
        Ok(directory) => Ok(directory),
        Err(DirectoryFault::Memory) => Err(TableFault::Memory),
        Err(fault) => Err(TableFault::Directory(fault)),
    }
}

// Returns the line of the cautions on a checked policy, by the path of its main file.
fn notice_for(alloc: Global, path: &[u8], checked: &CheckedFiles) -> Result<Vec<u8>, AllocError>
    ensures { let files = checked.now.policy.files in
        let texts = texts_of checked.now.text checked.now.supplies files in
        IfOk result (λ line. IsPathNotice path.now texts checked.now.policy line.items) }
{
    let policy = checked.policy.policy();
    let found = found_in(alloc, &checked.text, &checked.supplies, policy)?;
    notice_at(alloc, path, &found)
}

// Returns the lines of the cautions on both policies.
fn pair_notice(
    alloc: Global,
    old_path: &[u8],
    old: &CheckedFiles,
    new_path: &[u8],
    new: &CheckedFiles,
) -> Result<Vec<u8>, AllocError>
    ensures { let old_texts = texts_of old.now.text old.now.supplies old.now.policy.files in
        let new_texts = texts_of new.now.text new.now.supplies new.now.policy.files in
        IfOk result (λ lines. ArePathNotices old_path.now old_texts old.now.policy
        new_path.now new_texts new.now.policy lines.items) }
{
    let mut lines = notice_for(alloc, old_path, old)?;
    let more = notice_for(alloc, new_path, new)?;
    lines.extend_from_slice(more.as_slice())?;
    Ok(lines)
}

/// Loads two policies, and reads the known users and hosts.
///
/// Returns `Policy` if the old policy is refused or has errors, and otherwise if the new one is or has; `Directory` if the users,
/// the hosts or both together are refused; and `Memory` if allocation failed.
pub fn read_pair<F: Files, G: Files, U: Feed, H: Feed>(
    alloc: Global,
    old_path: &[u8],
    old_files: &mut F,
    new_path: &[u8],
    new_files: &mut G,
    users: &mut U,
    hosts: &mut H,
) -> Result<Pair, TableFault>
    ensures paired { let given : PairInputs = pair_by (F.held old_files.old) old_path.now
        (G.held new_files.old) new_path.now (U.ahead users.old) (H.ahead hosts.old) in
        IfOk result
        (λ p. IsPaired given p.old.policy p.new.policy p.directory p.notice.items) }
    ensures fault { let given : PairInputs = pair_by (F.held old_files.old) old_path.now
        (G.held new_files.old) new_path.now (U.ahead users.old) (H.ahead hosts.old) in
        IfErr result (IsNotPaired given) }
{
    let old = match passing(alloc, old_path, old_files) {
        Ok(checked) => checked,
        Err(fault) => return Err(fault),
    };
    let new = match passing(alloc, new_path, new_files) {
        Ok(checked) => checked,
        Err(fault) => return Err(fault),
    };
    let notice = match pair_notice(alloc, old_path, &old, new_path, &new) {
        Ok(lines) => lines,
        Err(_) => return Err(TableFault::Memory),
    };
    match known(alloc, users, hosts) {
        Ok(directory) => Ok(Pair {
            old,
            new,
            directory,
            notice,
        }),
        Err(fault) => Err(fault),
    }
}

/// Returns a table with the notice that is printed behind it, or the fault in place of the table. Forgets the policies: the run
/// ends here.
pub fn noted_pair<F>(pair: Pair, table: Result<RunOutput, F>) -> Result<NotedOutput, F>
    ensures noted { IfOk result (λ p. IsNotedTable table pair.notice.items p) }
    ensures fault { IfErr result (λ fault. table ≡ Err fault) }
{
    let Pair {
        old,
        new,
        directory,
        notice,
    } = pair;
    drop(directory);
    mem::forget(old);
    mem::forget(new);
    match table {
        Ok(RunOutput { text, status }) => Ok(NotedOutput {
            text,
            notice,
            status,
        }),
        Err(fault) => Err(fault),
    }
}
