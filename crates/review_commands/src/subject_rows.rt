//! The tables of subjects and of rules, record by record.
ghost use Rattle.std.specs.Prelude.{◌≡◌, ◌++◌, ◌∷◌, [], IfOk, OnOk};
ghost use Rattle.csv.specs.Writing.{default_writer, field_text, fields_text};
ghost use Rattle.audit_files.specs.Places.{place_text};
ghost use Rattle.audit_files.specs.Report.{line};
ghost use Rattle.review_grants.specs.Depends.{IsNoted};
ghost use Rattle.review_commands.specs.SubjectRows.{rule_fields, rules_header, rules_text as rules_text_of};
ghost use Rattle.review_commands.specs.SubjectRows.{subject_fields, subjects_header, subjects_text as subjects_text_of};

use audit_files::{push_field, push_next_field, push_place};
use itoa::Buffer;
use review_grants::NotedPlaces;
use review_subjects::{RuleCount, Subject};
use std::alloc::{AllocError, Global};
use sudo_policy::Policy;
use sudo_text::{Place, Seq};

// Appends the first field of a record: a place.
fn push_first(
    alloc: Global,
    text: &mut Vec<u8>,
    files: &[Seq<u8>],
    place: Place,
) -> Result<(), AllocError>
    ensures { OnOk result (text.new.items
        ≡ text.old.items ++ field_text default_writer (place_text files.now place)) }
{
    let mut own = Vec::new(alloc);
    push_place(&mut own, files, place)?;
    push_field(text, &own)
}

// Appends three further fields.
#[tactic(auto, unfolding(csv::specs::Writing::fields_text))]
fn push_three(
    text: &mut Vec<u8>,
    second: &[u8],
    third: &[u8],
    fourth: &[u8],
) -> Result<(), AllocError>
    ensures { OnOk result (text.new.items ≡ text.old.items
        ++ fields_text default_writer (second.now ∷ third.now ∷ fourth.now ∷ [])) }
{
    push_next_field(text, second)?;
    push_next_field(text, third)?;
    push_next_field(text, fourth)
}

// Appends the record of a subject.
fn push_subject(
    alloc: Global,
    text: &mut Vec<u8>,
    files: &[Seq<u8>],
    subject: &Subject,
) -> Result<(), AllocError>
    ensures { OnOk result (text.new.items
        ≡ text.old.items ++ line (subject_fields files.now subject.now)) }
{
    push_first(alloc, text, files, subject.place)?;
    push_three(
        text,
        subject.kind.name(),
        subject.name.as_slice(),
        subject.fault.name(),
    )?;
    text.push(b'\n')?;
    Ok(())
}

// Appends the record of a rule of a policy, whose notes these are.
fn push_rule(
    alloc: Global,
    text: &mut Vec<u8>,
    policy: &Policy,
    noted: &NotedPlaces,
    row: &RuleCount,
) -> Result<(), AllocError>
    requires { IsNoted policy.now noted.now }
    ensures { OnOk result (text.new.items
        ≡ text.old.items ++ line (rule_fields policy.now row.now)) }
{
    let mut commands = Buffer::new();
    let mut allowed = Buffer::new();
    let mut denied = Buffer::new();
    push_first(alloc, text, policy.files.as_slice(), row.place)?;
    push_three(
        text,
        commands.format(row.commands).as_bytes(),
        allowed.format(row.allowed).as_bytes(),
        denied.format(row.denied).as_bytes(),
    )?;
    push_next_field(text, noted.depends(row.place))?;
    text.push(b'\n')?;
    Ok(())
}

#[tactic(auto, unfolding(csv::specs::Writing::fields_text, csv::specs::Writing::is_blank))]
fn push_subjects_header(text: &mut Vec<u8>) -> Result<(), AllocError>
    ensures { OnOk result (text.new.items ≡ text.old.items ++ line subjects_header) }
{
    text.extend_from_slice(b"place,kind,name,what\n")
}

#[tactic(auto, unfolding(csv::specs::Writing::fields_text, csv::specs::Writing::is_blank))]
fn push_rules_header(text: &mut Vec<u8>) -> Result<(), AllocError>
    ensures { OnOk result (text.new.items ≡ text.old.items ++ line rules_header) }
{
    text.extend_from_slice(b"place,commands,allowed,denied,depends\n")
}

/// Returns subjects as CSV: the header `place,kind,name,what`, then a record for each, in their order, with the place as
/// `PATH:LINE`. Returns `AllocError` if allocation failed.
pub(crate) fn subjects_text(
    alloc: Global,
    files: &[Seq<u8>],
    found: &[Subject],
) -> Result<Vec<u8>, AllocError>
    ensures { IfOk result (λ text. text.items ≡ subjects_text_of files.now found.now) }
{
    let mut text = Vec::new(alloc);
    push_subjects_header(&mut text)?;
    for subject in found {
        push_subject(alloc, &mut text, files, subject)?;
    }
    Ok(text)
}

/// Returns counts of the rules of a policy, whose notes these are, as CSV: the header `place,commands,allowed,denied,depends`,
/// then a record for each, in their order, with the place as `PATH:LINE`. `depends` names what the grants at the place depend
/// on. Returns `AllocError` if allocation failed.
pub(crate) fn rules_text(
    alloc: Global,
    policy: &Policy,
    noted: &NotedPlaces,
    rows: &[RuleCount],
) -> Result<Vec<u8>, AllocError>
    requires { IsNoted policy.now noted.now }
    ensures { IfOk result (λ text. text.items ≡ rules_text_of policy.now rows.now) }
{
    let mut text = Vec::new(alloc);
    push_rules_header(&mut text)?;
    for row in rows {
        push_rule(alloc, &mut text, policy, noted, row)?;
    }
    Ok(text)
}
