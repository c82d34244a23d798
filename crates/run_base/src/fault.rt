//! Faults of the first stages of a run: a file is opened, a policy is loaded.
ghost use Rattle.std.specs.Prelude.{◌≡◌, ◌++◌, IfOk, OnOk, codes};
ghost use Rattle.run_base.specs.FaultLines.{error_line, open_explained, open_printed, policy_explained};
ghost use Rattle.run_base.specs.FaultLines.{hint_line, policy_printed};
ghost use Rattle.run_base.specs.FaultTexts.{cannot_read, cannot_read_since, load_fault_text};
ghost use Rattle.run_base.specs.FaultTexts.{hint_at_fault as spec_hint_at_fault, hint_in as spec_hint_in};
ghost use Rattle.run_base.specs.Faults.{open_status, policy_status};

use crate::fails::Fails;
use crate::fault_text::{push_cannot_read, push_load_fault};
use crate::lines::{begin_line, push, push_both};
use crate::obstacle::{Obstacle, push_reason};
use review_hints::hint;
use std::alloc::{AllocError, AllocFailed, Global};
use sudo_grammar::ParseFault;
use sudo_load::LoadFault;
use sudo_text::Seq;

/// The reason why a policy is not loaded, or does not pass the check.
#[derive(Debug, Drop)]
pub enum PolicyFault {
    /// The file or the folder at this path cannot be read, for this reason.
    CannotRead(Seq<u8>, Obstacle),
    /// The file at this path is longer than a file of a policy may be.
    TooLong(Seq<u8>),
    /// More files and folders are needed than are handed in at most.
    TooManyFiles,
    /// The files are not a policy: the paths of those that were read, the fault, and the text of the file in which it is, where
    /// it is in a line.
    Refused {
        read: Seq<Seq<u8>>,
        fault: LoadFault,
        text: Option<Seq<u8>>,
    },
    /// The check finds errors in the policy: their lines.
    Errors(Vec<u8>),
    /// Out of memory.
    Memory,
}

impl From<AllocError> for PolicyFault {
    ghost use Rattle.std.specs.Prelude.{◌≡◌};
    ghost use Rattle.run_base.specs.declared.fault.PolicyFault.TheVariants.{Memory};

    ghost from_gives = { λ _ e. e ≡ Memory };

    fn from(_: AllocError) -> PolicyFault {
        PolicyFault::Memory
    }
}

impl<T: Drop> From<AllocFailed<T>> for PolicyFault {
    ghost use Rattle.std.specs.Prelude.{◌≡◌};
    ghost use Rattle.run_base.specs.declared.fault.PolicyFault.TheVariants.{Memory};

    ghost from_gives = { λ _ e. e ≡ Memory };

    fn from(_: AllocFailed<T>) -> PolicyFault {
        PolicyFault::Memory
    }
}

impl Fails for PolicyFault {
    ghost status = { policy_status };

    ghost printed = { policy_printed };

    ghost explained = { policy_explained };

    fn status(&self) -> u8 {
        match self {
            PolicyFault::TooLong(_)
            | PolicyFault::TooManyFiles
            | PolicyFault::Refused { .. }
            | PolicyFault::Errors(_) => 1,
            PolicyFault::CannotRead(..) | PolicyFault::Memory => 4,
        }
    }

    fn printed(self, alloc: Global, program: &[u8]) -> Result<Vec<u8>, AllocError> {
        match self {
            PolicyFault::CannotRead(path, _) => unread_line(alloc, program, path.as_slice()),
            PolicyFault::TooLong(path) => long_line(alloc, program, path.as_slice()),
            PolicyFault::TooManyFiles => many_line(alloc, program),
            PolicyFault::Refused { read, fault, .. } => {
                refused_line(alloc, program, read.as_slice(), &fault)
            }
            PolicyFault::Errors(lines) => Ok(lines),
            PolicyFault::Memory => AllocError.printed(alloc, program),
        }
    }

    fn explained(self, alloc: Global, program: &[u8]) -> Result<Vec<u8>, AllocError> {
        match self {
            PolicyFault::CannotRead(path, why) => {
                explained_line(alloc, program, path.as_slice(), &why)
            }
            PolicyFault::Refused { read, fault, text } => {
                hinted_lines(alloc, program, read.as_slice(), &fault, &text)
            }
            fault => fault.printed(alloc, program),
        }
    }
}

/// The reason why a file is not opened.
#[derive(Debug, Drop)]
pub enum OpenFault {
    /// The file at this path cannot be opened, for this reason.
    CannotRead(Seq<u8>, Obstacle),
    /// Out of memory.
    Memory,
}

impl From<AllocError> for OpenFault {
    ghost use Rattle.std.specs.Prelude.{◌≡◌};
    ghost use Rattle.run_base.specs.declared.fault.OpenFault.TheVariants.{Memory};

    ghost from_gives = { λ _ e. e ≡ Memory };

    fn from(_: AllocError) -> OpenFault {
        OpenFault::Memory
    }
}

impl<T: Drop> From<AllocFailed<T>> for OpenFault {
    ghost use Rattle.std.specs.Prelude.{◌≡◌};
    ghost use Rattle.run_base.specs.declared.fault.OpenFault.TheVariants.{Memory};

    ghost from_gives = { λ _ e. e ≡ Memory };

    fn from(_: AllocFailed<T>) -> OpenFault {
        OpenFault::Memory
    }
}

impl Fails for OpenFault {
    ghost status = { open_status };

    ghost printed = { open_printed };

    ghost explained = { open_explained };

    fn status(&self) -> u8 {
        4
    }

    fn printed(self, alloc: Global, program: &[u8]) -> Result<Vec<u8>, AllocError> {
        match self {
            OpenFault::CannotRead(path, _) => unread_line(alloc, program, path.as_slice()),
            OpenFault::Memory => AllocError.printed(alloc, program),
        }
    }

    fn explained(self, alloc: Global, program: &[u8]) -> Result<Vec<u8>, AllocError> {
        match self {
            OpenFault::CannotRead(path, why) => {
                explained_line(alloc, program, path.as_slice(), &why)
            }
            OpenFault::Memory => AllocError.printed(alloc, program),
        }
    }
}

// Returns the line of a path that cannot be read.
fn unread_line(alloc: Global, program: &[u8], path: &[u8]) -> Result<Vec<u8>, AllocError>
    ensures { IfOk result (λ line. line.items ≡ error_line program.now (cannot_read path.now)) }
{
    let mut line = begin_line(alloc, program)?;
    push_cannot_read(&mut line, path)?;
    push(&mut line, b"\n")?;
    Ok(line)
}

// Returns the line of a path that cannot be read, with the reason.
fn explained_line(
    alloc: Global,
    program: &[u8],
    path: &[u8],
    why: &Obstacle,
) -> Result<Vec<u8>, AllocError>
    ensures { IfOk result (λ line. line.items
        ≡ error_line program.now (cannot_read_since path.now why.now)) }
{
    let mut line = begin_line(alloc, program)?;
    push_cannot_read(&mut line, path)?;
    push_reason(&mut line, why)?;
    push(&mut line, b"\n")?;
    Ok(line)
}

// Returns the line of a file that is too long.
fn long_line(alloc: Global, program: &[u8], path: &[u8]) -> Result<Vec<u8>, AllocError>
    ensures { IfOk result (λ line. line.items
        ≡ error_line program.now (path.now ++ codes ": text too long")) }
{
    let mut line = begin_line(alloc, program)?;
    push_both(&mut line, path, b": text too long")?;
    push(&mut line, b"\n")?;
    Ok(line)
}

// Returns the line of a policy of too many files.
fn many_line(alloc: Global, program: &[u8]) -> Result<Vec<u8>, AllocError>
    ensures { IfOk result (λ line. line.items ≡ error_line program.now (codes "too many files")) }
{
    let mut line = begin_line(alloc, program)?;
    push(&mut line, b"too many files")?;
    push(&mut line, b"\n")?;
    Ok(line)
}

// Returns the line of files that are not a policy, given the paths of those that were read.
fn refused_line(
    alloc: Global,
    program: &[u8],
    read: &[Seq<u8>],
    fault: &LoadFault,
) -> Result<Vec<u8>, AllocError>
    ensures { IfOk result (λ line. line.items
        ≡ error_line program.now (load_fault_text read.now fault.now)) }
{
    let mut line = begin_line(alloc, program)?;
    push_load_fault(&mut line, read, fault)?;
    push(&mut line, b"\n")?;
    Ok(line)
}

// Returns the hint at a fault of a policy's lines, given the text of the file in which it is.
fn hint_in(
    alloc: Global,
    text: &Option<Seq<u8>>,
    fault: &ParseFault,
) -> Result<Option<Seq<u8>>, AllocError>
    ensures { IfOk result (λ hint. hint ≡ spec_hint_in text.now fault.now) }
{
    match text {
        Some(text) => hint(alloc, text.as_slice(), fault),
        None => Ok(None),
    }
}

// Returns the hint at a fault of a policy, given the text of the file in which it is.
fn hint_at_fault(
    alloc: Global,
    text: &Option<Seq<u8>>,
    fault: &LoadFault,
) -> Result<Option<Seq<u8>>, AllocError>
    ensures { IfOk result (λ hint. hint ≡ spec_hint_at_fault text.now fault.now) }
{
    match fault {
        LoadFault::Parse(fault) => hint_in(alloc, text, fault),
        _ => Ok(None),
    }
}

// Appends the line of a hint, if there is one.
fn push_hint(lines: &mut Vec<u8>, program: &[u8], hint: &Option<Seq<u8>>) -> Result<(), AllocError>
    ensures { OnOk result (lines.new.items ≡ lines.old.items ++ hint_line program.now hint.now) }
{
    match hint {
        Some(hint) => {
            push_both(lines, program, b": hint: ")?;
            push_both(lines, hint.as_slice(), b"\n")
        }
        None => Ok(()),
    }
}

// Returns the line of files that are not a policy, and the line of a hint, if there is one, given the paths of the files that
// were read and the text of the faulty one.
fn hinted_lines(
    alloc: Global,
    program: &[u8],
    read: &[Seq<u8>],
    fault: &LoadFault,
    text: &Option<Seq<u8>>,
) -> Result<Vec<u8>, AllocError>
    ensures { IfOk result (λ lines. lines.items
        ≡ error_line program.now (load_fault_text read.now fault.now)
        ++ hint_line program.now (spec_hint_at_fault text.now fault.now)) }
{
    let mut lines = refused_line(alloc, program, read, fault)?;
    let hint = hint_at_fault(alloc, text, fault)?;
    push_hint(&mut lines, program, &hint)?;
    Ok(lines)
}
