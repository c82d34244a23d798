//! `report` and `rules`: answers requests, each beside its answer, or counted by the rule that decided.
ghost use Rattle.std.specs.Prelude.{◌≡◌, ◌≤◌, ◌⊎◌, ℕ, List, Ok, Err, IfErr, IfOk, map};
ghost use Rattle.run_base.specs.Endings.{writer_states as sent};
ghost use Rattle.audit_commands.specs.Auditing.{Given, given_by, IsNotAudited};
ghost use Rattle.review_commands.specs.Body.Reviewing.{IsNoticeOn, IsPrintedReview};
ghost use Rattle.review_commands.specs.CautionLines.{report_notices};
ghost use Rattle.review_commands.specs.Endings.{EndsNoted};
ghost use Rattle.review_commands.specs.FileTexts.{texts_of};
ghost use Rattle.review_commands.specs.Reviewing.{IsReviewed, text_in};

use crate::cautions::found_in;
use crate::ending::{NotedOutput, end_noted};
use crate::lines::notice;
use crate::program_name::PROGRAM;
use crate::report_rows::report_text;
use crate::subject_rows::rules_text;
use audit_collect::Report;
use audit_commands::{ReportFault, Work, answer_requests};
use audit_files::{Feed, Sink};
use review_grants::NotedPlaces;
use review_subjects::rule_counts;
use run_base::{CheckedFiles, Files, PolicyFault, checked_files};
use std::alloc::{AllocError, Global};
use std::mem;
use std::sync::Wait;
use std::thread::Threads;
use sudo_policy::Checked;

/// Returns the line of the cautions on a checked policy. Returns `AllocError` if allocation failed.
pub(crate) fn notice_on(alloc: Global, checked: &CheckedFiles) -> Result<Vec<u8>, AllocError>
    ensures { let files = checked.now.policy.files in
        let texts = texts_of checked.now.text checked.now.supplies files in
        IfOk result (λ line. IsNoticeOn texts checked.now.policy line.items) }
{
    let policy = checked.policy.policy();
    let found = found_in(alloc, &checked.text, &checked.supplies, policy)?;
    notice(alloc, &found)
}

/// The forms in which a report of an audit is printed.
#[derive(Clone, Copy, Debug, PartialEq, Eq)]
pub enum Form {
    /// A row for each request, beside its answer.
    Requests,
    /// A row for each rule of the policy, with the number of requests that it decided.
    Rules,
}

// Returns the text of a report under a policy, in a form.
fn text_of(
    alloc: Global,
    policy: &Checked,
    report: &Report,
    form: Form,
) -> Result<Vec<u8>, AllocError>
    ensures { IfOk result (λ text. text.items ≡ text_in form policy.now report.now) }
{
    let noted = NotedPlaces::of(alloc, policy)?;
    match form {
        Form::Requests => report_text(alloc, policy.policy(), &noted, report),
        Form::Rules => {
            let rows = rule_counts(alloc, policy, report)?;
            rules_text(alloc, policy.policy(), &noted, &rows)
        }
    }
}

// Returns the text of a report in a form, with this notice. Forgets the report: the run ends here, and texts of many requests
// are not freed one by one.
fn printed(
    alloc: Global,
    policy: &Checked,
    answered: Result<Report, ReportFault>,
    form: Form,
    notice: Vec<u8>,
) -> Result<NotedOutput, ReportFault>
    ensures text { IfOk result (λ p. IsPrintedReview policy.now form answered p.text.items) }
    ensures notice { IfOk result (λ p. (p.notice.items ≡ notice.items) × (p.status ≡ 0)) }
    ensures fault { IfErr result (λ fault. (fault ≡ ReportFault.Memory) ⊎ (answered ≡ Err fault)) }
{
    match answered {
        Ok(report) => {
            let text = text_of(alloc, policy, &report, form)?;
            mem::forget(report);
            Ok(NotedOutput {
                text,
                notice,
                status: 0,
            })
        }
        Err(fault) => Err(fault),
    }
}

// Returns the text and the notice of a report on the requests of the sources, under the policy of a file, which it loads.
// Forgets the policy: the run ends here.
fn report_output<T: Threads + Wait + Sync, F: Files, U: Feed, H: Feed, R: Feed + Drop + Send>(
    alloc: Global,
    rt: &T,
    path: &[u8],
    files: &mut F,
    users: &mut U,
    hosts: &mut H,
    work: Work<R>,
    form: Form,
) -> Result<NotedOutput, ReportFault>
    requires { (1 ≤ work.workers) × (work.workers ≤ 16) }
    ensures report { let given : Given = given_by (F.held files.old) path.now
        (U.ahead users.old) (H.ahead hosts.old) (map (λ s. s.name) work.sources.items)
        (map (λ s. R.ahead s.reader) work.sources.items) work.workers in
        IfOk result (λ p. IsReviewed given form p.text.items p.notice.items p.status) }
    ensures fault { let given : Given = given_by (F.held files.old) path.now
        (U.ahead users.old) (H.ahead hosts.old) (map (λ s. s.name) work.sources.items)
        (map (λ s. R.ahead s.reader) work.sources.items) work.workers in
        IfErr result (IsNotAudited given) }
{
    let checked = match checked_files(alloc, path, files) {
        Ok(checked) => checked,
        Err(PolicyFault::Memory) => return Err(ReportFault::Memory),
        Err(fault) => return Err(ReportFault::Policy(fault)),
    };
    let notice = match notice_on(alloc, &checked) {
        Ok(notice) => notice,
        Err(_) => return Err(ReportFault::Memory),
    };
    let answered = answer_requests(alloc, rt, &checked.policy, users, hosts, work);
    let ended = printed(alloc, &checked.policy, answered, form, notice);
    mem::forget(checked);
    ended
}

/// Prints on `out` the report of the requests of the sources in a form: as `Requests` each request beside its answer, for each
/// sender, in the order in which their names first appear, and for each of its requests, in the order of their numbers, the
/// verdict of the policy of a file; as `Rules` how many requests each rule of the policy decided, in the policy's order. Then
/// prints on `err` the line that counts the cautions on the policy, if there is one.
///
/// Returns the exit status: 0; 1 if the policy is refused or has errors; 3 if the users, the hosts or the requests are
/// refused; 4 if reading, writing, a thread or memory failed. Checks in this order: the policy, the users, the hosts, both
/// together, the requests. If the check of the policy finds errors, prints them on `err`; prints any other fault as one line
/// on `err`. Then nothing was printed on `out`, except by a write that failed part way.
pub fn report_into<
    T: Threads + Wait + Sync,
    F: Files,
    U: Feed,
    H: Feed,
    R: Feed + Drop + Send,
    O: Sink,
    E: Sink,
>(
    alloc: Global,
    rt: &T,
    path: &[u8],
    files: &mut F,
    users: &mut U,
    hosts: &mut H,
    work: Work<R>,
    form: Form,
    out: &mut O,
    err: &mut E,
) -> u8
    requires { (1 ≤ work.workers) × (work.workers ≤ 16) }
    ensures ends { let given : Given = given_by (F.held files.old) path.now
        (U.ahead users.old) (H.ahead hosts.old) (map (λ s. s.name) work.sources.items)
        (map (λ s. R.ahead s.reader) work.sources.items) work.workers in
        EndsNoted report_notices (IsReviewed given form) (IsNotAudited given) result
        (sent O.taken O.stalled_writes out.old out.new)
        (sent E.taken E.stalled_writes err.old err.new) }
{
    let ended = report_output(alloc, rt, path, files, users, hosts, work, form);
    end_noted(alloc, PROGRAM, ended, out, err)
}
