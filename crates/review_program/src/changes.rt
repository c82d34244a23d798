//! `compare --requests`: lists the requests to which two policies answer differently, or may do so.
ghost use Rattle.std.specs.Prelude.{◌≡◌, ◌≤◌, IfErr, IfOk, map};
ghost use Rattle.run_base.specs.Endings.{writer_states as sent};
ghost use Rattle.audit_commands.specs.Auditing.{IsUnreported};
ghost use Rattle.review_program.specs.Body.Changing.{AreJudged, HasVerdicts, IsFaultOfPair};
ghost use Rattle.review_commands.specs.CautionLines.{report_notices};
ghost use Rattle.review_program.specs.ChangeLaws.{MayDepends, UndependingHold, UnlistedSaySame, UnnotedByVerdicts};
ghost use Rattle.review_program.specs.Changes.{AreChanges, AreNoChanges, ChangeInputs};
ghost use Rattle.review_program.specs.Changes.{change_inputs, changes_status, changes_text};
ghost use Rattle.review_commands.specs.Pairing.{PairInputs, pair_by};
ghost use Rattle.review_commands.specs.Endings.{EndsNoted};

use crate::change_rows::{Judges, changes_table};
use audit_collect::Report;
use audit_commands::{ReportFault, report_under};
use audit_files::{Feed, Sink};
use audit_run::Source;
use review_commands::{NotedOutput, PROGRAM, Pair, TableFault, end_noted, noted_pair, read_pair};
use review_compare::{LineCommands, NotedPolicy};
use run_base::{Files, RunOutput};
use std::alloc::{AllocError, Global};
use std::mem;
use std::sync::Wait;
use std::thread::Threads;
use sudo_verdict::RuleIndex;

// How many workers judge the requests.
const WORKERS: u32 = 2;

// Returns why there is no pair, as the fault of an audit.
fn unpaired(fault: TableFault) -> ReportFault
    ensures { IsFaultOfPair fault result }
{
    match fault {
        TableFault::Policy(fault) => ReportFault::Policy(fault),
        TableFault::Directory(fault) => ReportFault::Directory(fault),
        TableFault::NoSuchUser(_) | TableFault::NoSuchHost(_) | TableFault::Memory => {
            ReportFault::Memory
        }
    }
}

// Returns the table of the requests of a report of the old policy to which both policies answer differently or may do so, and the
// status for it.
fn report_table(alloc: Global, pair: &Pair, report: &Report) -> Result<RunOutput, AllocError>
    requires { HasVerdicts pair.now.old.policy pair.now.directory report.now }
    ensures text { IfOk result (λ o. o.text.items ≡ changes_text pair.now.old.policy
        pair.now.new.policy pair.now.directory report.now) }
    ensures status { IfOk result (λ o. o.status ≡ changes_status pair.now.old.policy
        pair.now.new.policy pair.now.directory report.now) }
{
    let old = &pair.old.policy;
    let new = &pair.new.policy;
    let old_commands = LineCommands::of(alloc, old)?;
    let new_commands = LineCommands::of(alloc, new)?;
    let before = NotedPolicy::of(alloc, &old_commands)?;
    let after = NotedPolicy::of(alloc, &new_commands)?;
    let index = RuleIndex::of(alloc, new)?;
    let judges = Judges {
        old,
        new,
        index: &index,
        directory: &pair.directory,
    };
    changes_table(alloc, judges, &before, &after, report)
}

// Returns the table of the requests of the sources to which both policies answer differently or may do so, and the status for it.
// Forgets the report: the run ends here, and texts of many requests are not freed one by one.
fn judged<T: Threads + Wait + Sync, R: Feed + Drop + Send>(
    alloc: Global,
    rt: &T,
    pair: &Pair,
    sources: Vec<Source<R>>,
) -> Result<RunOutput, ReportFault>
    ensures made { let names = map (λ s. s.name) sources.items in
        let readable_bytes = map (λ s. R.ahead s.reader) sources.items in
        IfOk result (λ o. AreJudged pair.now.old.policy pair.now.new.policy pair.now.directory
        names readable_bytes o.text.items o.status) }
    ensures fault { let names = map (λ s. s.name) sources.items in
        let readable_bytes = map (λ s. R.ahead s.reader) sources.items in
        IfErr result (IsUnreported pair.now.old.policy pair.now.directory
        names readable_bytes 2) }
{
    let old = &pair.old.policy;
    let report = report_under(alloc, rt, old, &pair.directory, sources, WORKERS)?;
    let table = report_table(alloc, pair, &report)?;
    mem::forget(report);
    Ok(table)
}

// Returns the text, the notice and the status of the comparison of the policies of two files by the requests of the sources.
fn changes_output<
    T: Threads + Wait + Sync,
    F: Files,
    G: Files,
    U: Feed,
    H: Feed,
    R: Feed + Drop + Send,
>(
    alloc: Global,
    rt: &T,
    old_path: &[u8],
    old_files: &mut F,
    new_path: &[u8],
    new_files: &mut G,
    users: &mut U,
    hosts: &mut H,
    sources: Vec<Source<R>>,
) -> Result<NotedOutput, ReportFault>
    ensures printed { let pair : PairInputs = pair_by (F.held old_files.old) old_path.now
        (G.held new_files.old) new_path.now (U.ahead users.old) (H.ahead hosts.old) in
        let given : ChangeInputs = change_inputs pair (map (λ s. s.name) sources.items)
        (map (λ s. R.ahead s.reader) sources.items) in
        IfOk result (λ p. AreChanges given p.text.items p.notice.items p.status) }
    ensures fault { let pair : PairInputs = pair_by (F.held old_files.old) old_path.now
        (G.held new_files.old) new_path.now (U.ahead users.old) (H.ahead hosts.old) in
        let given : ChangeInputs = change_inputs pair (map (λ s. s.name) sources.items)
        (map (λ s. R.ahead s.reader) sources.items) in
        IfErr result (AreNoChanges given) }
{
    match read_pair(
        alloc, old_path, old_files, new_path, new_files, users, hosts,
    ) {
        Ok(pair) => {
            let table = judged(alloc, rt, &pair, sources);
            noted_pair(pair, table)
        }
        Err(fault) => Err(unpaired(fault)),
    }
}

/// Prints on `out` the requests of the sources to which the policies of two files answer differently, or may do so by noted
/// conditions: what the change does, the sender and its request, both verdicts, their tags and the places of the grants that
/// decided, in the order of a report; and where a grant of one of the policies stands for a note, what the answers depend on. Then
/// prints on `err` for each policy with cautions the line that counts them.
///
/// Returns the exit status: 0; 5 if there is such a request; 1 if a policy is refused or has errors; 3 if the users, the hosts
/// or the requests are refused; 4 if reading, writing, a thread or memory failed. Checks in this order: the old policy, the new
/// one, the users, the hosts, both together, the requests. If the check of a policy finds errors, prints them on `err`; prints
/// any other fault as one line on `err`. Then nothing was printed on `out`, except by a write that failed part way.
pub fn changes_run<
    T: Threads + Wait + Sync,
    F: Files,
    G: Files,
    U: Feed,
    H: Feed,
    R: Feed + Drop + Send,
    O: Sink,
    E: Sink,
>(
    alloc: Global,
    rt: &T,
    old_path: &[u8],
    old_files: &mut F,
    new_path: &[u8],
    new_files: &mut G,
    users: &mut U,
    hosts: &mut H,
    sources: Vec<Source<R>>,
    out: &mut O,
    err: &mut E,
) -> u8
    ensures ends { let pair : PairInputs = pair_by (F.held old_files.old) old_path.now
        (G.held new_files.old) new_path.now (U.ahead users.old) (H.ahead hosts.old) in
        let given : ChangeInputs = change_inputs pair (map (λ s. s.name) sources.items)
        (map (λ s. R.ahead s.reader) sources.items) in
        EndsNoted report_notices (AreChanges given) (AreNoChanges given) result
        (sent O.taken O.stalled_writes out.old out.new)
        (sent E.taken E.stalled_writes err.old err.new) }
{
    let ended = changes_output(
        alloc, rt, old_path, old_files, new_path, new_files, users, hosts, sources,
    );
    end_noted(alloc, PROGRAM, ended, out, err)
}

/// Where a request has no record, both policies say the same to it, whichever noted conditions hold. Where nothing is named on which
/// the answers depend, the verdicts hold whichever do; a change that may be depends on something that is named. Where no grant stands
/// for a note, the verdicts alone say which requests have a record. Has no effect: its contract is a law.
pub fn changes_hold()
    ensures unlisted { UnlistedSaySame }
    ensures held { UndependingHold }
    ensures may { MayDepends }
    ensures unnoted { UnnotedByVerdicts }
{}
