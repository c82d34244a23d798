//! Lines that the program prints.
ghost use Rattle.std.specs.Prelude.{◌≡◌, ◌++◌, IfOk, OnOk, codes, decimal};
ghost use Rattle.run_base.specs.FindingLines.{class_text, finding_line, finding_lines as lines_of, keyword_text as keyword_of, listed_line};

use audit_files::push_place;
use itoa::Buffer;
use std::alloc::{AllocError, Global};
use sudo_grammar::Kind;
use sudo_policy::{Class, Finding};
use sudo_text::Seq;

/// Appends bytes to a line.
pub fn push(line: &mut Vec<u8>, bytes: &[u8]) -> Result<(), AllocError>
    ensures { OnOk result (line.new.items ≡ line.old.items ++ bytes.now) }
{
    line.extend_from_slice(bytes)
}

/// Appends two texts, one after the other.
pub fn push_both(line: &mut Vec<u8>, first: &[u8], second: &[u8]) -> Result<(), AllocError>
    ensures { OnOk result (line.new.items ≡ line.old.items ++ (first.now ++ second.now)) }
{
    push(line, first)?;
    push(line, second)
}

/// Appends a number in decimal.
pub fn push_number(line: &mut Vec<u8>, number: u64) -> Result<(), AllocError>
    ensures { OnOk result (line.new.items ≡ line.old.items ++ decimal number) }
{
    let mut digits = Buffer::new();
    line.extend_from_slice(digits.format(number).as_bytes())
}

/// Returns a line that begins with the name of a program, a colon and a space.
pub fn begin_line(alloc: Global, program: &[u8]) -> Result<Vec<u8>, AllocError>
    ensures { IfOk result (λ line. line.items ≡ program.now ++ codes ": ") }
{
    let mut line = Vec::new(alloc);
    push_both(&mut line, program, b": ")?;
    Ok(line)
}

// Returns the keyword of a kind of alias.
fn keyword_text(kind: Kind) -> &'static [u8]
    ensures { result.now ≡ keyword_of kind }
{
    match kind {
        Kind::User => b"User_Alias",
        Kind::Runas => b"Runas_Alias",
        Kind::Host => b"Host_Alias",
        Kind::Cmnd => b"Cmnd_Alias",
    }
}

// Returns the text of a class of findings.
fn called(class: Class) -> &'static [u8]
    ensures { result.now ≡ class_text class }
{
    match class {
        Class::Redefined => b": error: redefined ",
        Class::Undefined => b": error: undefined ",
        Class::Cycle => b": error: cycle ",
        Class::TooDeep => b": error: too deep ",
        Class::TooWide => b": error: too wide ",
        Class::Unused => b": warning: unused ",
    }
}

// Appends the line of a finding, as `PATH:LINE: error: undefined Host_Alias NAME`.
fn push_finding(lines: &mut Vec<u8>, files: &[Seq<u8>], finding: &Finding) -> Result<(), AllocError>
    ensures { OnOk result (lines.new.items ≡ lines.old.items
        ++ finding_line files.now finding.now) }
{
    push_place(lines, files, finding.place)?;
    push(lines, called(finding.class))?;
    push(lines, keyword_text(finding.kind))?;
    push(lines, b" ")?;
    push(lines, finding.name.as_slice())?;
    push(lines, b"\n")
}

// Appends the line of a finding. Appends nothing for a warning if only errors are listed.
fn push_listed(
    lines: &mut Vec<u8>,
    files: &[Seq<u8>],
    finding: &Finding,
    errors_alone: bool,
) -> Result<(), AllocError>
    ensures { OnOk result (lines.new.items ≡ lines.old.items
        ++ listed_line files.now errors_alone finding.now) }
{
    if !errors_alone || finding.class.is_error() {
        push_finding(lines, files, finding)
    } else {
        Ok(())
    }
}

/// Returns a line for each finding, or for each error only.
pub fn finding_lines(
    alloc: Global,
    files: &[Seq<u8>],
    findings: &[Finding],
    errors_alone: bool,
) -> Result<Vec<u8>, AllocError>
    ensures { IfOk result (λ lines. lines.items ≡ lines_of files.now errors_alone findings.now) }
{
    let mut lines = Vec::new(alloc);
    for finding in findings {
        push_listed(&mut lines, files, finding, errors_alone)?;
    }
    Ok(lines)
}
