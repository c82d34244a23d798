//! The text of a report, record by record.
ghost use Rattle.std.specs.Prelude.{◌≡◌, ◌++◌, ◌∷◌, [], ℕ, List, IfOk, OnOk};
ghost use Rattle.csv.specs.Writing.{default_writer, field_text};
ghost use Rattle.audit_files.specs.Report.{answer_fields, header, line, report_text as text_of, sender_text};
ghost use Rattle.audit_files.specs.Report.{tags_text, verdict_place, verdict_tags, verdict_word as word_of};
ghost use Rattle.audit_files.specs.Report.{with_tag, with_tag_name};

use crate::places::push_place;
use crate::quoting::{push_field, push_four};
use audit_collect::{Answer, Report, SenderReport};
use itoa::Buffer;
use std::alloc::{AllocError, Global};
use sudo_grammar::{TAG_PAIRS, Tag, TagPair};
use sudo_match::{Tags, Verdict, What};
use sudo_text::Seq;

/// Returns the report's word for a verdict: `allow`, `deny` or `nomatch`, or `unknown-user`, `unknown-host`,
/// `unknown-target` or `unknown-group`.
pub fn verdict_word(verdict: &Verdict) -> &'static [u8]
    ensures { result.now ≡ word_of verdict.now }
{
    match verdict {
        Verdict::Allow { .. } => b"allow",
        Verdict::Deny { .. } => b"deny",
        Verdict::NoMatch => b"nomatch",
        Verdict::Unknown(What::User) => b"unknown-user",
        Verdict::Unknown(What::Host) => b"unknown-host",
        Verdict::Unknown(What::Target) => b"unknown-target",
        Verdict::Unknown(What::Group) => b"unknown-group",
    }
}

/// Replaces the text by `PATH:LINE` of the grant that decided; by nothing unless the verdict is `allow` or `deny`. Returns
/// `AllocError` if allocation failed.
pub fn set_place(text: &mut Vec<u8>, files: &[Seq<u8>], verdict: &Verdict) -> Result<(), AllocError>
    ensures { OnOk result (text.new.items ≡ verdict_place files.now verdict.now) }
{
    text.clear();
    match *verdict {
        Verdict::Allow { place, .. } => push_place(text, files, place),
        Verdict::Deny { place } => push_place(text, files, place),
        Verdict::NoMatch | Verdict::Unknown(_) => Ok(()),
    }
}

// Puts a tag's name at the end, after a space unless it is the first.
fn put_name(text: &mut Vec<u8>, tag: Tag) -> Result<(), AllocError>
    ensures { OnOk result (text.new.items ≡ with_tag_name text.old.items tag) }
{
    if !text.is_empty() {
        text.push(b' ')?;
    }
    if !tag.on {
        text.extend_from_slice(b"NO")?;
    }
    text.extend_from_slice(tag.pair.name())?;
    Ok(())
}

// Puts the tag of a choice, if it is made.
fn put_tag(text: &mut Vec<u8>, pair: TagPair, choice: Option<bool>) -> Result<(), AllocError>
    ensures { OnOk result (text.new.items ≡ with_tag text.old.items (pair, choice)) }
{
    match choice {
        Some(on) => put_name(text, Tag { pair, on }),
        None => Ok(()),
    }
}

/// Puts the names of the tags that are set, in the order of the pairs and separated by a space, into an empty text. Returns
/// `AllocError` if allocation failed.
pub fn put_tags(text: &mut Vec<u8>, tags: &Tags) -> Result<(), AllocError>
    requires { text.old.items ≡ [] }
    ensures { OnOk result (text.new.items ≡ tags_text tags.now) }
{
    for (pair, choice) in TAG_PAIRS.iter().zip(tags.choices.iter()) {
        put_tag(text, *pair, *choice)?;
    }
    Ok(())
}

/// Replaces the text by the tags of a verdict, by nothing unless it is `allow`. Returns `AllocError` if allocation failed.
pub fn set_tags(text: &mut Vec<u8>, verdict: &Verdict) -> Result<(), AllocError>
    ensures { OnOk result (text.new.items ≡ verdict_tags verdict.now) }
{
    text.clear();
    match verdict {
        Verdict::Allow { tags, .. } => put_tags(text, tags),
        Verdict::Deny { .. } | Verdict::NoMatch | Verdict::Unknown(_) => Ok(()),
    }
}

// The parts of a record that many records share or overwrite.
#[derive(Drop)]
struct Scratch {
    // The first field, as it is written.
    sender: Vec<u8>,
    place: Vec<u8>,
    tags: Vec<u8>,
}

// Appends the record of an answer of the sender whose field is in `scratch`.
fn put_answer(
    text: &mut Vec<u8>,
    scratch: &mut Scratch,
    files: &[Seq<u8>],
    answer: &Answer,
) -> Result<(), AllocError>
    ensures text { OnOk result ((sender : List ℕ)
        → scratch.old.sender.items ≡ field_text default_writer sender → text.new.items
        ≡ text.old.items ++ line (answer_fields files.now sender answer.now)) }
    ensures sender { OnOk result (scratch.new.sender.items ≡ scratch.old.sender.items) }
{
    let mut number = Buffer::new();
    set_place(&mut scratch.place, files, &answer.verdict)?;
    set_tags(&mut scratch.tags, &answer.verdict)?;
    text.extend_from_slice(scratch.sender.as_slice())?;
    push_four(
        text,
        number.format(answer.request.number).as_bytes(),
        verdict_word(&answer.verdict),
        scratch.place.as_slice(),
        scratch.tags.as_slice(),
    )
}

// Appends the records of a sender.
fn put_sender(
    text: &mut Vec<u8>,
    scratch: &mut Scratch,
    files: &[Seq<u8>],
    sender: &SenderReport,
) -> Result<(), AllocError>
    ensures { OnOk result (text.new.items
        ≡ text.old.items ++ sender_text files.now sender.now) }
{
    scratch.sender.clear();
    push_field(&mut scratch.sender, sender.name.as_slice())?;
    for answer in sender.answers.as_slice() {
        put_answer(text, scratch, files, answer)?;
    }
    Ok(())
}

// Appends the record of the names of the columns.
fn put_header(text: &mut Vec<u8>) -> Result<(), AllocError>
    ensures { OnOk result (text.new.items ≡ text.old.items ++ line header) }
{
    push_field(text, b"sender")?;
    push_four(text, b"number", b"verdict", b"line", b"tags")
}

/// Returns the report as CSV: the header `sender,number,verdict,line,tags`, then for each sender a record for
/// each of its answers, in their order.
///
/// `line` is `PATH:LINE` of the grant that decided, with the path at the place's number in `files`, and
/// empty but for `allow` and `deny`; `tags` is empty but for `allow`. Returns `AllocError` if allocation
/// failed.
pub fn report_text(alloc: Global, report: &Report, files: &[Seq<u8>]) -> Result<Vec<u8>, AllocError>
    ensures { IfOk result (λ text. text.items ≡ text_of files.now report.now) }
{
    let mut text = Vec::new(alloc);
    let mut scratch = Scratch {
        sender: Vec::new(alloc),
        place: Vec::new(alloc),
        tags: Vec::new(alloc),
    };
    put_header(&mut text)?;
    for sender in report.senders.as_slice() {
        put_sender(&mut text, &mut scratch, files, sender)?;
    }
    Ok(text)
}
