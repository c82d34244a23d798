//! The lines of cautions, and the line that counts them.
ghost use Rattle.std.specs.Prelude.{◌≡◌, ◌++◌, [], IfOk, OnOk, flat_map, fold};
ghost use Rattle.review_commands.specs.CautionLines.{caution_line, cautions_status, cautions_text, counted_classes};
ghost use Rattle.review_commands.specs.CautionLines.{counted_line, explanation, heading, in_parentheses};
ghost use Rattle.review_commands.specs.CautionLines.{has_class, notice_text, path_beginning, path_notice};
ghost use Rattle.review_commands.specs.CautionLines.{subject_text, with_class, with_found};

use crate::program_name::PROGRAM;
use audit_files::push_place;
use review_cautions::{CAUTION_CLASSES, Caution, CautionClass};
use run_base::{RunOutput, begin_line, push, push_both, push_number};
use std::alloc::{AllocError, Global};
use sudo_text::Seq;

// Appends the subject of a caution, if it has one.
fn push_subject(line: &mut Vec<u8>, subject: &[u8]) -> Result<(), AllocError>
    ensures { OnOk result (line.new.items ≡ line.old.items ++ subject_text subject.now) }
{
    if subject.is_empty() {
        return Ok(());
    }
    push(line, subject)?;
    push(line, b": ")
}

// Appends the class of a caution, between colons.
fn push_heading(lines: &mut Vec<u8>, class: CautionClass) -> Result<(), AllocError>
    ensures { OnOk result (lines.new.items ≡ lines.old.items ++ heading class) }
{
    push(lines, b": caution: ")?;
    push(lines, class.name())?;
    push(lines, b": ")
}

// Appends what a caution says: its subject, if it has one, and the text of its class.
fn push_explanation(lines: &mut Vec<u8>, caution: &Caution) -> Result<(), AllocError>
    ensures { OnOk result (lines.new.items ≡ lines.old.items ++ explanation caution.now) }
{
    push_subject(lines, caution.subject.as_slice())?;
    push(lines, caution.class.text())?;
    push(lines, b"\n")
}

// Appends the line of a caution.
fn push_caution(lines: &mut Vec<u8>, files: &[Seq<u8>], caution: &Caution) -> Result<(), AllocError>
    ensures { OnOk result (lines.new.items ≡ lines.old.items ++ caution_line files.now caution.now) }
{
    push_place(lines, files, caution.place)?;
    push_heading(lines, caution.class)?;
    push_explanation(lines, caution)
}

// Returns a line for each caution.
fn lines_of(alloc: Global, files: &[Seq<u8>], cautions: &[Caution]) -> Result<Vec<u8>, AllocError>
    ensures { IfOk result (λ lines. lines.items ≡ flat_map (caution_line files.now) cautions.now) }
{
    let mut lines = Vec::new(alloc);
    for caution in cautions {
        push_caution(&mut lines, files, caution)?;
    }
    Ok(lines)
}

// Appends `cautions: ` and a number.
fn push_count(lines: &mut Vec<u8>, count: usize) -> Result<(), AllocError>
    ensures { OnOk result (lines.new.items ≡ lines.old.items ++ counted_line count) }
{
    push(lines, b"cautions: ")?;
    push_number(lines, count as u64)?;
    push(lines, b"\n")
}

/// Returns a line for each caution and a last one with their number, and the status: 5 if there is a caution, otherwise 0.
/// Returns `AllocError` if allocation failed.
pub(crate) fn caution_lines(
    alloc: Global,
    files: &[Seq<u8>],
    found: &[Caution],
) -> Result<RunOutput, AllocError>
    ensures text { IfOk result (λ printed. printed.text.items ≡ cautions_text files.now found.now) }
    ensures status { IfOk result (λ printed. printed.status ≡ cautions_status found.now) }
{
    let mut text = lines_of(alloc, files, found)?;
    push_count(&mut text, found.len())?;
    let status = if found.is_empty() { 0 } else { 5 };
    Ok(RunOutput { text, status })
}

// Whether one of the cautions has this class.
fn some_has(found: &[Caution], class: CautionClass) -> bool
    ensures { result ≡ has_class found.now class }
{
    found
        .iter()
        .any(|caution| caution.class.name() == class.name())
}

// Appends the name of a class, after a comma unless it is the first.
fn push_class(names: &mut Vec<u8>, class: CautionClass) -> Result<(), AllocError>
    ensures { OnOk result (names.new.items ≡ with_class names.old.items class) }
{
    if !names.is_empty() {
        push(names, b", ")?;
    }
    push(names, class.name())
}

// Appends the name of a class, if one of the cautions has it.
fn push_found(names: &mut Vec<u8>, found: &[Caution], class: CautionClass) -> Result<(), AllocError>
    ensures { OnOk result (names.new.items ≡ with_found found.now names.old.items class) }
{
    if some_has(found, class) {
        push_class(names, class)
    } else {
        Ok(())
    }
}

// Returns the names of those of the classes that the cautions have.
fn class_names(
    alloc: Global,
    found: &[Caution],
    classes: &[CautionClass],
) -> Result<Vec<u8>, AllocError>
    ensures { IfOk result (λ names. names.items ≡ fold (with_found found.now) [] classes.now) }
{
    let mut names = Vec::new(alloc);
    for class in classes {
        push_found(&mut names, found, *class)?;
    }
    Ok(names)
}

// Appends names of classes in parentheses.
fn push_classes(line: &mut Vec<u8>, names: &[u8]) -> Result<(), AllocError>
    ensures { OnOk result (line.new.items ≡ line.old.items ++ in_parentheses names.now) }
{
    push(line, b" cautions (")?;
    push(line, names)?;
    push(line, b")\n")
}

// Appends the number of cautions, and their classes in parentheses.
fn push_counted(line: &mut Vec<u8>, count: usize, names: &[u8]) -> Result<(), AllocError>
    ensures { OnOk result (line.new.items ≡ line.old.items ++ counted_classes count names.now) }
{
    push_number(line, count as u64)?;
    push_classes(line, names)
}

/// Returns the line that a command which judges ends with: the number of cautions and their classes. Returns nothing if there
/// is no caution, and `AllocError` if allocation failed.
pub(crate) fn notice(alloc: Global, found: &[Caution]) -> Result<Vec<u8>, AllocError>
    ensures { IfOk result (λ line. line.items ≡ notice_text found.now) }
{
    if found.is_empty() {
        return Ok(Vec::new(alloc));
    }
    let names = class_names(alloc, found, &CAUTION_CLASSES)?;
    let mut line = begin_line(alloc, PROGRAM)?;
    push_counted(&mut line, found.len(), &names)?;
    Ok(line)
}

// Returns how a line of the policy of this path begins.
fn begin_at(alloc: Global, path: &[u8]) -> Result<Vec<u8>, AllocError>
    ensures { IfOk result (λ line. line.items ≡ path_beginning path.now) }
{
    let mut line = begin_line(alloc, PROGRAM)?;
    push_both(&mut line, path, b": ")?;
    Ok(line)
}

/// Returns the line that tells the cautions on the policy of this path, one of two: the path, their number and their classes.
/// Returns nothing if there is no caution, and `AllocError` if allocation failed.
pub(crate) fn notice_at(
    alloc: Global,
    path: &[u8],
    found: &[Caution],
) -> Result<Vec<u8>, AllocError>
    ensures { IfOk result (λ line. line.items ≡ path_notice path.now found.now) }
{
    if found.is_empty() {
        return Ok(Vec::new(alloc));
    }
    let names = class_names(alloc, found, &CAUTION_CLASSES)?;
    let mut line = begin_at(alloc, path)?;
    push_counted(&mut line, found.len(), &names)?;
    Ok(line)
}
