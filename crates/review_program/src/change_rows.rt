//! The table of the requests to which two policies answer differently, or may do so, record by record.
ghost use Rattle.std.specs.Prelude.{◌≡◌, ◌++◌, ◌∷◌, [], ℕ, List, IfOk, OnOk, filter};
ghost use Rattle.std.specs.List.{list_any};
ghost use Rattle.csv.specs.Writing.{default_writer, field_text, fields_text};
ghost use Rattle.audit_files.specs.Report.{line, verdict_place, verdict_tags};
ghost use Rattle.sudo_verdict.specs.Postings.{Indexes};
ghost use Rattle.sudo_verdict.specs.Verdicts.{verdict_of};
ghost use Rattle.review_grants.specs.Depends.{depends_text, has_mark};
ghost use Rattle.review_texts.specs.Notes.{notes};
ghost use Rattle.review_compare.specs.Cases.{cases_of, policy_of, same_cases};
ghost use Rattle.review_program.specs.Body.Changing.{HasVerdicts, HaveVerdict};
ghost use Rattle.review_commands.specs.Rows.{asker_fields};
ghost use Rattle.review_program.specs.Changes as spec;

use crate::change::{Change, change_between, change_unless};
use audit_collect::{Answer, Report, SenderReport};
use audit_files::{push_field, push_next_field, set_place, set_tags, verdict_word};
use review_commands::{push_asked, push_asker};
use review_compare::{Dependence, NotedPolicy, compared_request};
use run_base::RunOutput;
use std::alloc::{AllocError, Global};
use sudo_match::{Directory, Request, Verdict};
use sudo_policy::Checked;
use sudo_text::Seq;
use sudo_verdict::RuleIndex;

/// Two policies, the index of the new one, and the known users and hosts.
#[derive(Clone, Copy)]
pub(crate) struct Judges<'a> {
    pub(crate) old: &'a Checked,
    pub(crate) new: &'a Checked,
    pub(crate) index: &'a RuleIndex,
    pub(crate) directory: &'a Directory,
}

// Whether a grant of one of the policies stands for a note.
fn are_noted(before: &NotedPolicy<'_>, after: &NotedPolicy<'_>) -> bool
    ensures { result ≡ spec.are_noted (policy_of before.now) (policy_of after.now) }
{
    before.is_noted() || after.is_noted()
}

// Appends the tags of a verdict after a comma.
fn push_tags(alloc: Global, text: &mut Vec<u8>, verdict: &Verdict) -> Result<(), AllocError>
    ensures { OnOk result (text.new.items
        ≡ text.old.items ++ 44 ∷ field_text default_writer (verdict_tags verdict.now)) }
{
    let mut tags = Vec::new(alloc);
    set_tags(&mut tags, verdict)?;
    push_next_field(text, tags.as_slice())
}

// Appends the place of a verdict after a comma.
fn push_place(
    alloc: Global,
    text: &mut Vec<u8>,
    files: &[Seq<u8>],
    verdict: &Verdict,
) -> Result<(), AllocError>
    ensures { OnOk result (text.new.items ≡ text.old.items
        ++ 44 ∷ field_text default_writer (verdict_place files.now verdict.now)) }
{
    let mut place = Vec::new(alloc);
    set_place(&mut place, files, verdict)?;
    push_next_field(text, place.as_slice())
}

// Appends the fields of both verdicts, each after a comma.
#[tactic(auto, unfolding(csv::specs::Writing::fields_text))]
fn push_verdicts(
    alloc: Global,
    text: &mut Vec<u8>,
    judges: Judges<'_>,
    old: &Verdict,
    new: &Verdict,
) -> Result<(), AllocError>
    ensures { OnOk result (text.new.items ≡ text.old.items
        ++ fields_text default_writer (spec.verdicts_fields judges.entry.old.now.files
        judges.entry.new.now.files old.now new.now)) }
{
    push_next_field(text, verdict_word(old))?;
    push_next_field(text, verdict_word(new))?;
    push_tags(alloc, text, old)?;
    push_tags(alloc, text, new)?;
    push_place(alloc, text, judges.old.policy().files.as_slice(), old)?;
    push_place(alloc, text, judges.new.policy().files.as_slice(), new)
}

// Appends a last field after a comma, where something is noted.
#[tactic(auto, unfolding(csv::specs::Writing::fields_text))]
fn push_last(text: &mut Vec<u8>, noted: bool, last: &[u8]) -> Result<(), AllocError>
    ensures { OnOk result (text.new.items ≡ text.old.items
        ++ fields_text default_writer (spec.last_field noted last.now)) }
{
    if noted {
        push_next_field(text, last)
    } else {
        Ok(())
    }
}

// Appends the fields of both verdicts, and what the answers depend on where something is noted, each after a comma.
fn push_end(
    alloc: Global,
    text: &mut Vec<u8>,
    judges: Judges<'_>,
    old: &Verdict,
    new: &Verdict,
    noted: bool,
    depends: &[u8],
) -> Result<(), AllocError>
    ensures { OnOk result (text.new.items ≡ text.old.items
        ++ fields_text default_writer (spec.verdicts_fields judges.entry.old.now.files
        judges.entry.new.now.files old.now new.now ++ spec.last_field noted depends.now)) }
{
    push_verdicts(alloc, text, judges, old, new)?;
    push_last(text, noted, depends)
}

// Appends a sender and the number, the user and the host of its request, each after a comma.
#[tactic(auto, unfolding(csv::specs::Writing::fields_text))]
fn push_head(text: &mut Vec<u8>, sender: &[u8], request: &Request) -> Result<(), AllocError>
    ensures { OnOk result (text.new.items ≡ text.old.items
        ++ fields_text default_writer (sender.now ∷ asker_fields request.now)) }
{
    push_next_field(text, sender)?;
    push_asker(text, request)
}

// Appends the record of a change.
fn push_record(
    alloc: Global,
    text: &mut Vec<u8>,
    judges: Judges<'_>,
    sender: &[u8],
    answer: &Answer,
    verdict: &Verdict,
    noted: bool,
    depends: &[u8],
    change: Change,
) -> Result<(), AllocError>
    ensures { OnOk result (text.new.items ≡ text.old.items
        ++ line (spec.change_fields judges.entry.old.now.files judges.entry.new.now.files
        sender.now answer.now verdict.now (spec.last_field noted depends.now) change)) }
{
    push_field(text, change.name())?;
    push_head(text, sender, &answer.request)?;
    push_asked(text, &answer.request)?;
    push_end(
        alloc,
        text,
        judges,
        &answer.verdict,
        verdict,
        noted,
        depends,
    )?;
    text.push(b'\n')?;
    Ok(())
}

// Returns whether both policies say the same to the request of an answer of the old one, whichever noted conditions hold, and on
// what their answers depend. The verdict is that of the new policy.
fn dependence(
    alloc: Global,
    judges: Judges<'_>,
    before: &NotedPolicy<'_>,
    after: &NotedPolicy<'_>,
    answer: &Answer,
    verdict: &Verdict,
) -> Result<Dependence, AllocError>
    requires before { policy_of before.now ≡ judges.old.now }
    requires after { policy_of after.now ≡ judges.new.now }
    requires old { answer.now.verdict
        ≡ verdict_of judges.old.now judges.directory.now answer.now.request }
    requires new { verdict.now
        ≡ verdict_of judges.new.now judges.directory.now answer.now.request }
    ensures is_same { IfOk result (λ found. found.is_same ≡ same_cases
        (cases_of judges.entry.old.now judges.entry.directory.now answer.now.request)
        (cases_of judges.entry.new.now judges.entry.directory.now answer.now.request)) }
    ensures marks { IfOk result (λ found. depends_text (filter (has_mark found.marks) notes)
        ≡ spec.request_depends judges.entry.old.now judges.entry.new.now
        judges.entry.directory.now answer.now.request) }
{
    compared_request(
        alloc,
        before,
        after,
        judges.directory,
        &answer.request,
        &answer.verdict,
        verdict,
    )
}

// Appends the record of an answer of the old policy, if the new one answers the request otherwise or may do so. Returns whether
// it does.
fn push_change(
    alloc: Global,
    text: &mut Vec<u8>,
    judges: Judges<'_>,
    before: &NotedPolicy<'_>,
    after: &NotedPolicy<'_>,
    sender: &[u8],
    answer: &Answer,
) -> Result<bool, AllocError>
    requires index { Indexes judges.new.now judges.index.now }
    requires before { policy_of before.now ≡ judges.old.now }
    requires after { policy_of after.now ≡ judges.new.now }
    requires verdict { answer.now.verdict
        ≡ verdict_of judges.old.now judges.directory.now answer.now.request }
    ensures text { IfOk result (λ changed. text.new.items ≡ text.old.items
        ++ spec.change_record judges.entry.old.now judges.entry.new.now
        judges.entry.directory.now sender.now answer.now) }
    ensures changed { IfOk result (λ changed. changed ≡ spec.is_changed judges.entry.old.now
        judges.entry.new.now judges.entry.directory.now answer.now) }
{
    let verdict = judges
        .index
        .verdict(judges.new, judges.directory, &answer.request);
    let found = dependence(alloc, judges, before, after, answer, &verdict)?;
    match change_unless(found.is_same, change_between(&answer.verdict, &verdict)) {
        None => Ok(false),
        Some(change) => {
            let noted = are_noted(before, after);
            let depends = found.marks.text();
            push_record(
                alloc, text, judges, sender, answer, &verdict, noted, depends, change,
            )?;
            Ok(true)
        }
    }
}

// Appends the records of a sender. Returns whether there is one.
fn push_sender(
    alloc: Global,
    text: &mut Vec<u8>,
    judges: Judges<'_>,
    before: &NotedPolicy<'_>,
    after: &NotedPolicy<'_>,
    sender: &SenderReport,
) -> Result<bool, AllocError>
    requires index { Indexes judges.new.now judges.index.now }
    requires before { policy_of before.now ≡ judges.old.now }
    requires after { policy_of after.now ≡ judges.new.now }
    requires verdicts { HaveVerdict judges.old.now judges.directory.now sender.now.answers }
    ensures text { IfOk result (λ changed. text.new.items ≡ text.old.items
        ++ spec.sender_changes judges.entry.old.now judges.entry.new.now
        judges.entry.directory.now sender.now) }
    ensures changed { IfOk result (λ changed. changed ≡ list_any
        (spec.is_changed judges.entry.old.now judges.entry.new.now judges.entry.directory.now)
        sender.now.answers) }
{
    let mut changed = false;
    for answer in sender.answers.as_slice() {
        let found = push_change(
            alloc,
            text,
            judges,
            before,
            after,
            sender.name.as_slice(),
            answer,
        )?;
        changed = changed || found;
    }
    Ok(changed)
}

// The names of the columns, as a record.
const HEADER: &[u8] = b"change,sender,number,user,host,runas_user,runas_group,\
    command,arguments,old_verdict,new_verdict,old_tags,new_tags,old_place,new_place\n";

// The same, with the column of what the answers depend on.
const NOTED_HEADER: &[u8] = b"change,sender,number,user,host,runas_user,runas_group,\
    command,arguments,old_verdict,new_verdict,old_tags,new_tags,old_place,new_place,depends\n";

// Returns the record of the names of the columns, the last one where something is noted.
#[tactic(auto, unfolding(csv::specs::Writing::fields_text, csv::specs::Writing::is_blank))]
fn header(noted: bool) -> &'static [u8]
    ensures { result.now ≡ line (spec.change_header noted) }
{
    if noted { NOTED_HEADER } else { HEADER }
}

/// Returns as CSV the requests of a report of the old policy that the new one answers otherwise or may answer otherwise, in the
/// order of the report: what the change does, the sender and its request, both verdicts, their tags and their places; and where a
/// grant of one of the policies stands for a note, what the answers depend on. The status is 5 if there is one, otherwise 0.
/// Returns `AllocError` if allocation failed.
pub(crate) fn changes_table(
    alloc: Global,
    judges: Judges<'_>,
    before: &NotedPolicy<'_>,
    after: &NotedPolicy<'_>,
    report: &Report,
) -> Result<RunOutput, AllocError>
    requires index { Indexes judges.new.now judges.index.now }
    requires before { policy_of before.now ≡ judges.old.now }
    requires after { policy_of after.now ≡ judges.new.now }
    requires verdicts { HasVerdicts judges.old.now judges.directory.now report.now }
    ensures text { IfOk result (λ o. o.text.items ≡ spec.changes_text judges.entry.old.now
        judges.entry.new.now judges.entry.directory.now report.now) }
    ensures status { IfOk result (λ o. o.status ≡ spec.changes_status judges.entry.old.now
        judges.entry.new.now judges.entry.directory.now report.now) }
{
    let mut text = Vec::new(alloc);
    text.extend_from_slice(header(are_noted(before, after)))?;
    let mut changed = false;
    for sender in report.senders.as_slice() {
        let found = push_sender(alloc, &mut text, judges, before, after, sender)?;
        changed = changed || found;
    }
    let status = if changed { 5 } else { 0 };
    Ok(RunOutput { text, status })
}
