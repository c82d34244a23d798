//! The text of a report with the request beside each answer, record by record.
ghost use Rattle.std.specs.Prelude.{◌≡◌, ◌++◌, ◌∷◌, [], ℕ, List, IfOk, OnOk, unwrap_or};
ghost use Rattle.csv.specs.Writing.{default_writer, field_text, fields_text};
ghost use Rattle.audit_files.specs.Report.{line};
ghost use Rattle.review_grants.specs.Depends.{IsNoted};
ghost use Rattle.review_commands.specs.Rows.{answer_fields, asked_fields, asker_fields, header};
ghost use Rattle.review_commands.specs.Rows.{report_text as text_of};
ghost use Rattle.review_commands.specs.Rows.{sender_text, verdict_fields};

use audit_collect::{Answer, Report, SenderReport};
use audit_files::{push_field, push_next_field, set_place, set_tags, verdict_word};
use itoa::Buffer;
use review_grants::NotedPlaces;
use std::alloc::{AllocError, Global};
use sudo_match::{Request, Verdict};
use sudo_policy::Policy;
use sudo_text::Seq;

// Returns the bytes of a target, or no bytes where no target is asked for.
fn asked_bytes(target: &Option<Seq<u8>>) -> &[u8]
    ensures { result.now ≡ unwrap_or target.now [] }
{
    match target {
        Some(name) => name.as_slice(),
        None => &[],
    }
}

/// Appends the number of a request, its user and its host, each after a comma. Returns `AllocError` if allocation failed.
#[tactic(auto, unfolding(csv::specs::Writing::fields_text))]
pub fn push_asker(text: &mut Vec<u8>, request: &Request) -> Result<(), AllocError>
    ensures { OnOk result (text.new.items
        ≡ text.old.items ++ fields_text default_writer (asker_fields request.now)) }
{
    let mut number = Buffer::new();
    push_next_field(text, number.format(request.number).as_bytes())?;
    push_next_field(text, request.user.as_slice())?;
    push_next_field(text, request.host.as_slice())
}

/// Appends what a request asks for, each field after a comma: a target, a group, a command and its arguments. Returns `AllocError` if
/// allocation failed.
#[tactic(auto, unfolding(csv::specs::Writing::fields_text))]
pub fn push_asked(text: &mut Vec<u8>, request: &Request) -> Result<(), AllocError>
    ensures { OnOk result (text.new.items
        ≡ text.old.items ++ fields_text default_writer (asked_fields request.now)) }
{
    push_next_field(text, asked_bytes(&request.runas_user))?;
    push_next_field(text, asked_bytes(&request.runas_group))?;
    push_next_field(text, request.command.as_slice())?;
    push_next_field(text, request.arguments.as_slice())
}

// The parts of a record that many records share or overwrite.
#[derive(Drop)]
struct Scratch {
    // The first field, as it is written.
    sender: Vec<u8>,
    place: Vec<u8>,
    tags: Vec<u8>,
}

// Appends the fields of a verdict under a policy, whose notes these are, each after a comma.
#[tactic(auto, unfolding(csv::specs::Writing::fields_text))]
fn push_verdict(
    text: &mut Vec<u8>,
    scratch: &mut Scratch,
    policy: &Policy,
    noted: &NotedPlaces,
    verdict: &Verdict,
) -> Result<(), AllocError>
    requires { IsNoted policy.now noted.now }
    ensures text { OnOk result (text.new.items
        ≡ text.old.items ++ fields_text default_writer (verdict_fields policy.now verdict.now)) }
    ensures sender { OnOk result (scratch.new.sender.items ≡ scratch.old.sender.items) }
{
    set_place(&mut scratch.place, policy.files.as_slice(), verdict)?;
    set_tags(&mut scratch.tags, verdict)?;
    push_next_field(text, verdict_word(verdict))?;
    push_next_field(text, scratch.place.as_slice())?;
    push_next_field(text, scratch.tags.as_slice())?;
    push_next_field(text, noted.verdict_depends(verdict))
}

// Appends the record of an answer of the sender whose field is in `scratch`.
fn push_answer(
    text: &mut Vec<u8>,
    scratch: &mut Scratch,
    policy: &Policy,
    noted: &NotedPlaces,
    answer: &Answer,
) -> Result<(), AllocError>
    requires { IsNoted policy.now noted.now }
    ensures text { OnOk result ((sender : List ℕ)
        → scratch.old.sender.items ≡ field_text default_writer sender → text.new.items
        ≡ text.old.items ++ line (answer_fields policy.now sender answer.now)) }
    ensures sender { OnOk result (scratch.new.sender.items ≡ scratch.old.sender.items) }
{
    text.extend_from_slice(scratch.sender.as_slice())?;
    push_asker(text, &answer.request)?;
    push_asked(text, &answer.request)?;
    push_verdict(text, scratch, policy, noted, &answer.verdict)?;
    text.push(b'\n')?;
    Ok(())
}

// Appends the records of a sender.
fn push_sender(
    text: &mut Vec<u8>,
    scratch: &mut Scratch,
    policy: &Policy,
    noted: &NotedPlaces,
    sender: &SenderReport,
) -> Result<(), AllocError>
    requires { IsNoted policy.now noted.now }
    ensures { OnOk result (text.new.items
        ≡ text.old.items ++ sender_text policy.now sender.now) }
{
    scratch.sender.clear();
    push_field(&mut scratch.sender, sender.name.as_slice())?;
    for answer in sender.answers.as_slice() {
        push_answer(text, scratch, policy, noted, answer)?;
    }
    Ok(())
}

// The names of the columns, as a record.
const HEADER: &[u8] = b"sender,number,user,host,runas_user,runas_group,\
    command,arguments,verdict,place,tags,depends\n";

// Appends the record of the names of the columns.
#[tactic(auto, unfolding(csv::specs::Writing::fields_text, csv::specs::Writing::is_blank))]
fn push_header(text: &mut Vec<u8>) -> Result<(), AllocError>
    ensures { OnOk result (text.new.items ≡ text.old.items ++ line header) }
{
    text.extend_from_slice(HEADER)
}

/// Returns the report of requests under a policy, whose notes these are, as CSV, with the request beside each answer: the
/// header `sender,number,user,host,runas_user,runas_group,command,arguments,verdict,place,tags,depends`, then for each sender a
/// record for each of its answers, in their order.
///
/// `place` is `PATH:LINE` of the grant that decided, and empty but for `allow` and `deny`; `tags` is empty but for `allow`;
/// `depends` names what the grants at the place depend on. Returns `AllocError` if allocation failed.
pub(crate) fn report_text(
    alloc: Global,
    policy: &Policy,
    noted: &NotedPlaces,
    report: &Report,
) -> Result<Vec<u8>, AllocError>
    requires { IsNoted policy.now noted.now }
    ensures { IfOk result (λ text. text.items ≡ text_of policy.now report.now) }
{
    let mut text = Vec::new(alloc);
    let mut scratch = Scratch {
        sender: Vec::new(alloc),
        place: Vec::new(alloc),
        tags: Vec::new(alloc),
    };
    push_header(&mut text)?;
    for sender in report.senders.as_slice() {
        push_sender(&mut text, &mut scratch, policy, noted, sender)?;
    }
    Ok(text)
}
