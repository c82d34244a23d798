//! The texts of faults of a policy, each written once.
ghost use Rattle.std.specs.Prelude.{◌≡◌, ◌++◌, OnOk, codes, decimal};
ghost use Rattle.run_base.specs.FaultTexts.{cannot_read, expected_text as text_of_expected, no_memory, at_column};
ghost use Rattle.run_base.specs.FaultTexts.{at_line, load_fault_text, parse_fault_text, text_fault_text};
ghost use Rattle.run_base.specs.FaultTexts.{unsupported_text as text_of_unsupported, wanted_path as path_of_wanted};

use crate::lines::{push, push_both, push_number};
use audit_files::{push_path, push_place};
use std::alloc::AllocError;
use sudo_grammar::{Expected, ParseFault, Unsupported};
use sudo_load::{LoadFault, Want};
use sudo_text::{Place, Seq, TextFault};

/// Appends the text of out of memory.
pub fn push_no_memory(line: &mut Vec<u8>) -> Result<(), AllocError>
    ensures { OnOk result (line.new.items ≡ line.old.items ++ no_memory) }
{
    push(line, b"out of memory")
}

/// Appends that a file or a folder cannot be read.
pub fn push_cannot_read(line: &mut Vec<u8>, path: &[u8]) -> Result<(), AllocError>
    ensures { OnOk result (line.new.items ≡ line.old.items ++ cannot_read path.now) }
{
    push_both(line, b"cannot read ", path)
}

// Returns the text of an expected form.
fn expected_text(expected: Expected) -> &'static [u8]
    ensures { result.now ≡ text_of_expected expected }
{
    match expected {
        Expected::AliasName => b"alias name",
        Expected::Equals => b"=",
        Expected::Member => b"member",
        Expected::Command => b"command",
        Expected::RightParen => b")",
        Expected::Parameter => b"parameter",
        Expected::Value => b"value",
        Expected::Path => b"path",
        Expected::EndOfLine => b"end of line",
    }
}

// Returns the text of an unsupported form.
fn unsupported_text(what: Unsupported) -> &'static [u8]
    ensures { result.now ≡ text_of_unsupported what }
{
    match what {
        Unsupported::Netgroup => b"netgroup",
        Unsupported::Digest => b"digest",
        Unsupported::RegularExpression => b"regular expression",
        Unsupported::NonUnixGroup => b"non-Unix group",
        Unsupported::CommandOption => b"option",
        Unsupported::List => b"list",
        Unsupported::HostEscape => b"%h",
    }
}

// Appends `PATH:LINE: ` and a fault.
fn push_at_line(
    line: &mut Vec<u8>,
    files: &[Seq<u8>],
    place: Place,
    what: &[u8],
) -> Result<(), AllocError>
    ensures { OnOk result (line.new.items ≡ line.old.items ++ at_line files.now place what.now) }
{
    push_place(line, files, place)?;
    push(line, b": ")?;
    push(line, what)
}

// Appends `PATH:LINE:COLUMN: ` and a fault.
fn push_at_column(
    line: &mut Vec<u8>,
    files: &[Seq<u8>],
    place: Place,
    col: u32,
    what: &[u8],
) -> Result<(), AllocError>
    ensures { OnOk result (line.new.items ≡ line.old.items
        ++ at_column files.now place col what.now) }
{
    push_place(line, files, place)?;
    push(line, b":")?;
    push_number(line, u64::from(col))?;
    push(line, b": ")?;
    push(line, what)
}

// Appends the fault of a text.
fn push_text_fault(
    line: &mut Vec<u8>,
    files: &[Seq<u8>],
    fault: &TextFault,
) -> Result<(), AllocError>
    ensures { OnOk result (line.new.items ≡ line.old.items ++ text_fault_text files.now fault.now) }
{
    match fault {
        TextFault::BadQuote { place, col } => {
            push_at_column(line, files, *place, *col, b"bad quote")
        }
        TextFault::BadHex { place, col } => {
            push_at_column(line, files, *place, *col, b"bad hexadecimal")
        }
        TextFault::BadEscape { place, col } => {
            push_at_column(line, files, *place, *col, b"bad escape")
        }
        TextFault::NotPrintable { place, col } => {
            push_at_column(line, files, *place, *col, b"not printable")
        }
        TextFault::TooLong { file } => {
            push_path(line, files, *file)?;
            push(line, b": text too long")
        }
        TextFault::Memory => push_no_memory(line),
    }
}

// Appends the fault of a policy file.
fn push_parse_fault(
    line: &mut Vec<u8>,
    files: &[Seq<u8>],
    fault: &ParseFault,
) -> Result<(), AllocError>
    ensures { OnOk result (line.new.items ≡ line.old.items
        ++ parse_fault_text files.now fault.now) }
{
    match fault {
        ParseFault::Syntax {
            place,
            col,
            expected,
        } => {
            push_at_column(line, files, *place, *col, b"syntax error, expected ")?;
            push(line, expected_text(*expected))
        }
        ParseFault::Unsupported { place, what } => {
            push_at_line(line, files, *place, b"unsupported ")?;
            push(line, unsupported_text(*what))
        }
        ParseFault::NotCommand { place, col } => {
            push_at_column(line, files, *place, *col, b"not a command")
        }
        ParseFault::BadNumber { place, col } => {
            push_at_column(line, files, *place, *col, b"bad number")
        }
        ParseFault::TooMany { place } => push_at_line(line, files, *place, b"too many aliases"),
        ParseFault::Text(fault) => push_text_fault(line, files, fault),
        ParseFault::Memory => push_no_memory(line),
    }
}

// Returns the path of a needed file or folder.
fn wanted_path(want: &Want) -> &[u8]
    ensures { result.now ≡ path_of_wanted want.now }
{
    match want {
        Want::File(path) | Want::Folder(path) => path.as_slice(),
    }
}

/// Appends the fault of a policy.
pub fn push_load_fault(
    line: &mut Vec<u8>,
    files: &[Seq<u8>],
    fault: &LoadFault,
) -> Result<(), AllocError>
    ensures { OnOk result (line.new.items ≡ line.old.items ++ load_fault_text files.now fault.now) }
{
    match fault {
        LoadFault::Parse(fault) => push_parse_fault(line, files, fault),
        LoadFault::TooNested { place } => push_at_line(line, files, *place, b"includes too deep"),
        LoadFault::TooMany { place } => push_at_line(line, files, *place, b"too many files"),
        LoadFault::Missing { place, path } => {
            push_at_line(line, files, *place, b"missing ")?;
            push(line, path.as_slice())
        }
        LoadFault::Wanted(want) => push_cannot_read(line, wanted_path(want)),
        LoadFault::Memory => push_no_memory(line),
    }
}
