//! `audit`: answers requests.
ghost use Rattle.std.specs.Prelude.{◌≡◌, ◌≢◌, ◌≤◌, ◌⊎◌, Ok, Err, IfErr, IfOk, IsSome, map};
ghost use Rattle.run_base.specs.Endings.{writer_states as sent, Ends};
ghost use Rattle.audit_commands.specs.Auditing.{Answers, Given, given_by, IsAnswerUnder, IsAudited, IsDirectory};
ghost use Rattle.audit_commands.specs.Auditing.{IsNoAnswer, IsNoDirectory, IsNotAudited, IsUnreported};
ghost use Rattle.audit_commands.specs.Body.Auditing.{IsFaultNamed, IsPrintedReport};
ghost use Rattle.audit_commands.specs.FaultLines.{audit_notices};
ghost use Rattle.audit_commands.specs.NamedFaults.{fault_named};

use crate::fault::{DirectoryFault, PROGRAM, ReportFault};
use crate::requests_fault::named_fault;
use audit_collect::Report;
use audit_files::{Feed, FileFault, Sink, read_hosts, read_users, report_text};
use audit_run::{AuditFault, Handoff, Open, Source, audit};
use run_base::{Files, PolicyFault, RunOutput, checked_policy, end_run};
use std::alloc::{AllocError, Global};
use std::mem;
use std::sync::Wait;
use std::thread::Threads;
use sudo_match::{DirFault, Directory};
use sudo_policy::Checked;
use sudo_text::Seq;

/// Reads the users and the hosts, and returns the directory of both.
///
/// Returns `Users` if the users are refused, `Hosts` if the hosts are, `Both` if both together are, and `Memory` if allocation
/// failed.
pub fn directory_of<U: Feed, H: Feed>(
    alloc: Global,
    users: &mut U,
    hosts: &mut H,
) -> Result<Directory, DirectoryFault>
    ensures directory { IfOk result (IsDirectory (U.ahead users.old) (H.ahead hosts.old)) }
    ensures fault { IfErr result (IsNoDirectory (U.ahead users.old) (H.ahead hosts.old)) }
{
    let people = match read_users(alloc, users) {
        Ok(people) => people,
        Err(FileFault::Memory) => return Err(DirectoryFault::Memory),
        Err(fault) => return Err(DirectoryFault::Users(fault)),
    };
    let machines = match read_hosts(alloc, hosts) {
        Ok(machines) => machines,
        Err(FileFault::Memory) => return Err(DirectoryFault::Memory),
        Err(fault) => return Err(DirectoryFault::Hosts(fault)),
    };
    match Directory::new(alloc, people, machines) {
        Ok(directory) => Ok(directory),
        Err(DirFault::Memory) => Err(DirectoryFault::Memory),
        Err(fault) => Err(DirectoryFault::Both(fault)),
    }
}

// Returns a copy of the names of the sources, for the faults of their audit.
fn names_of<R>(alloc: Global, sources: &[Source<R>]) -> Result<Vec<Seq<u8>>, AllocError>
    ensures { IfOk result (λ names. names.items ≡ map (λ s. s.name) sources.now) }
{
    let mut names = Vec::new(alloc);
    for source in sources {
        names.push(Seq::from_slice(alloc, source.name.as_slice())?)?;
    }
    Ok(names)
}

// Returns the fault of an audit of sources with these names that has no report.
fn unreported(alloc: Global, names: &[Seq<u8>], fault: AuditFault) -> ReportFault
    requires { fault ≢ AuditFault.Memory → IsSome (fault_named names.now fault) }
    ensures { IsFaultNamed names.now fault result }
{
    match fault {
        AuditFault::Memory => ReportFault::Memory,
        fault => match named_fault(alloc, names, fault) {
            Ok(named) => ReportFault::Requests(named),
            Err(_) => ReportFault::Memory,
        },
    }
}

/// What an audit has to do: the sources of requests, and how many workers judge them.
#[derive(Drop)]
pub struct Work<R> {
    pub sources: Vec<Source<R>>,
    pub workers: u32,
}

/// Returns the report on the requests of the sources, under a policy and a directory.
///
/// Returns `Requests` if the requests are refused, or a thread could not be started, and `Memory` if allocation failed.
pub fn report_under<T: Threads + Wait + Sync, R: Feed + Drop + Send>(
    alloc: Global,
    rt: &T,
    policy: &Checked,
    directory: &Directory,
    sources: Vec<Source<R>>,
    workers: u32,
) -> Result<Report, ReportFault>
    requires { (1 ≤ workers) × (workers ≤ 16) }
    ensures report { let names = map (λ s. s.name) sources.items in
        let readable_bytes = map (λ s. R.ahead s.reader) sources.items in
        IfOk result (λ report. Answers policy.now directory.now names readable_bytes workers
        (Ok report)) }
    ensures fault { let names = map (λ s. s.name) sources.items in
        let readable_bytes = map (λ s. R.ahead s.reader) sources.items in
        IfErr result (IsUnreported policy.now directory.now names readable_bytes workers) }
{
    let names = names_of(alloc, &sources)?;
    let (handoff, mut pass) = Handoff::new(alloc, policy, directory)?;
    let answer = audit(
        alloc, rt, policy, directory, &handoff, &mut pass, sources, workers, &Open,
    );
    match answer {
        Ok(report) => Ok(report),
        Err(fault) => Err(unreported(alloc, &names, fault)),
    }
}

/// Returns the report on the requests of the sources, under a policy and the directory of these users and hosts.
///
/// Returns `Directory` if the users, the hosts or both together are refused, `Requests` if the requests are, or a thread
/// could not be started, and `Memory` if allocation failed.
pub fn answer_requests<T: Threads + Wait + Sync, U: Feed, H: Feed, R: Feed + Drop + Send>(
    alloc: Global,
    rt: &T,
    policy: &Checked,
    users: &mut U,
    hosts: &mut H,
    work: Work<R>,
) -> Result<Report, ReportFault>
    requires { (1 ≤ work.workers) × (work.workers ≤ 16) }
    ensures report { let names = map (λ s. s.name) work.sources.items in
        let readable_bytes = map (λ s. R.ahead s.reader) work.sources.items in
        IfOk result (λ report. IsAnswerUnder policy.now (U.ahead users.old) (H.ahead hosts.old)
        names readable_bytes work.workers (Ok report)) }
    ensures fault { let names = map (λ s. s.name) work.sources.items in
        let readable_bytes = map (λ s. R.ahead s.reader) work.sources.items in
        IfErr result (IsNoAnswer policy.now (U.ahead users.old) (H.ahead hosts.old)
        names readable_bytes work.workers) }
{
    let Work { sources, workers } = work;
    match directory_of(alloc, users, hosts) {
        Ok(directory) => report_under(alloc, rt, policy, &directory, sources, workers),
        Err(DirectoryFault::Memory) => Err(ReportFault::Memory),
        Err(fault) => Err(ReportFault::Directory(fault)),
    }
}

// Returns the text of a report. Forgets the report: the run ends here, and texts of many requests are not freed one by one.
fn printed(
    alloc: Global,
    policy: &Checked,
    answered: Result<Report, ReportFault>,
) -> Result<RunOutput, ReportFault>
    ensures text { IfOk result (λ p. IsPrintedReport policy.now answered p.text.items p.status) }
    ensures fault { IfErr result (λ fault. (fault ≡ ReportFault.Memory) ⊎ (answered ≡ Err fault)) }
{
    match answered {
        Ok(report) => {
            let files = policy.policy().files.as_slice();
            let text = report_text(alloc, &report, files)?;
            mem::forget(report);
            Ok(RunOutput { text, status: 0 })
        }
        Err(fault) => Err(fault),
    }
}

// Returns the text and the status of an audit of the sources, under the policy of a file, which it loads. Forgets the
// policy: the run ends here.
fn audit_output<T: Threads + Wait + Sync, F: Files, U: Feed, H: Feed, R: Feed + Drop + Send>(
    alloc: Global,
    rt: &T,
    path: &[u8],
    files: &mut F,
    users: &mut U,
    hosts: &mut H,
    work: Work<R>,
) -> Result<RunOutput, ReportFault>
    requires { (1 ≤ work.workers) × (work.workers ≤ 16) }
    ensures report { let given : Given = given_by (F.held files.old) path.now
        (U.ahead users.old) (H.ahead hosts.old) (map (λ s. s.name) work.sources.items)
        (map (λ s. R.ahead s.reader) work.sources.items) work.workers in
        IfOk result (λ p. IsAudited given p.text.items p.status) }
    ensures fault { let given : Given = given_by (F.held files.old) path.now
        (U.ahead users.old) (H.ahead hosts.old) (map (λ s. s.name) work.sources.items)
        (map (λ s. R.ahead s.reader) work.sources.items) work.workers in
        IfErr result (IsNotAudited given) }
{
    let policy = match checked_policy(alloc, path, files) {
        Ok(policy) => policy,
        Err(PolicyFault::Memory) => return Err(ReportFault::Memory),
        Err(fault) => return Err(ReportFault::Policy(fault)),
    };
    let answered = answer_requests(alloc, rt, &policy, users, hosts, work);
    let ended = printed(alloc, &policy, answered);
    mem::forget(policy);
    ended
}

/// Prints on `out` the report of the requests of the sources: for each sender, in the order in
/// which their names first appear, and for each of its requests, in the order of their numbers, the
/// verdict of the policy of a file.
///
/// Returns the exit status: 0; 1 if the policy is refused or has errors; 3 if the users, the hosts
/// or the requests are refused; 4 if reading, writing, a thread or memory failed. Checks in this order:
/// the policy, the users, the hosts, both together, the requests. If the check of the policy finds
/// errors, prints them on `err`, as `check` prints them; prints any other fault as one line on
/// `err`. Then nothing was printed on `out`, except by a write that failed part way.
pub fn audit_into<
    T: Threads + Wait + Sync,
    F: Files,
    U: Feed,
    H: Feed,
    R: Feed + Drop + Send,
    O: Sink,
    E: Sink,
>(
    alloc: Global,
    rt: &T,
    path: &[u8],
    files: &mut F,
    users: &mut U,
    hosts: &mut H,
    sources: Vec<Source<R>>,
    workers: u32,
    out: &mut O,
    err: &mut E,
) -> u8
    requires { (1 ≤ workers) × (workers ≤ 16) }
    ensures most { result ≤ 4 }
    ensures ends { let given : Given = given_by (F.held files.old) path.now
        (U.ahead users.old) (H.ahead hosts.old) (map (λ s. s.name) sources.items)
        (map (λ s. R.ahead s.reader) sources.items) workers in
        Ends audit_notices (IsAudited given) (IsNotAudited given) result
        (sent O.taken O.stalled_writes out.old out.new)
        (sent E.taken E.stalled_writes err.old err.new) }
{
    let work = Work { sources, workers };
    let ended = audit_output(alloc, rt, path, files, users, hosts, work);
    end_run(alloc, PROGRAM, ended, out, err)
}
