//! Faults that end a run of the program, each with its exit status and its line.
ghost use Rattle.std.specs.Prelude.{◌≡◌, ◌++◌, IfOk, codes};
ghost use Rattle.run_base.specs.FaultLines.{error_line};
ghost use Rattle.audit_commands.specs.FaultLines.{directory_printed, expansion_explained, expansion_printed};
ghost use Rattle.audit_commands.specs.FaultLines.{report_explained, report_printed, sources_explained, sources_printed};
ghost use Rattle.audit_commands.specs.FaultTexts.{directory_fault_text, file_fault_text, requests_fault_text};
ghost use Rattle.audit_commands.specs.Faults.{directory_status, expansion_status};
ghost use Rattle.audit_commands.specs.Faults.{file_status as status_of_file, report_status};
ghost use Rattle.audit_commands.specs.Faults.{requests_status as status_of_requests, sources_status};

use crate::fault_text::{push_directory_fault, push_file_fault, push_requests_fault};
use crate::requests_fault::RequestsFault;
use audit_files::FileFault;
use run_base::{Fails, OpenFault, PolicyFault, begin_line, push, push_both};
use std::alloc::{AllocError, AllocFailed, Global};
use sudo_match::DirFault;
use sudo_text::Seq;

/// The name of the program.
pub(crate) const PROGRAM: &[u8] = b"sudo_audit";

/// The reason why users and hosts form no directory.
#[derive(Debug, Drop)]
pub enum DirectoryFault {
    /// The users file is refused.
    Users(FileFault),
    /// The hosts file is refused.
    Hosts(FileFault),
    /// The users and hosts together are refused.
    Both(DirFault),
    /// Out of memory.
    Memory,
}

impl Fails for DirectoryFault {
    ghost status = { directory_status };

    ghost printed = { directory_printed };

    ghost explained = { directory_printed };

    fn status(&self) -> u8 {
        match self {
            DirectoryFault::Users(fault) | DirectoryFault::Hosts(fault) => file_status(*fault),
            DirectoryFault::Both(DirFault::Memory) | DirectoryFault::Memory => 4,
            DirectoryFault::Both(_) => 3,
        }
    }

    fn printed(self, alloc: Global, program: &[u8]) -> Result<Vec<u8>, AllocError> {
        match self {
            DirectoryFault::Users(fault) => file_line(alloc, program, b"users: ", fault),
            DirectoryFault::Hosts(fault) => file_line(alloc, program, b"hosts: ", fault),
            DirectoryFault::Both(fault) => directory_line(alloc, program, &fault),
            DirectoryFault::Memory => AllocError.printed(alloc, program),
        }
    }

    fn explained(self, alloc: Global, program: &[u8]) -> Result<Vec<u8>, AllocError> {
        self.printed(alloc, program)
    }
}

/// The reason why the files of an audit are not opened.
#[derive(Debug, Drop)]
pub enum SourcesFault {
    /// This word is not `NAME=PATH` with the name of a sender.
    BadSender(Seq<u8>),
    /// A file is not opened.
    Unopened(OpenFault),
}

impl From<AllocError> for SourcesFault {
    ghost use Rattle.std.specs.Prelude.{◌≡◌};
    ghost use Rattle.run_base.specs.declared.fault.OpenFault.TheVariants.{Memory};
    ghost use Rattle.audit_commands.specs.declared.fault.SourcesFault.TheVariants.{Unopened};

    ghost from_gives = { λ _ e. e ≡ Unopened Memory };

    fn from(_: AllocError) -> SourcesFault {
        SourcesFault::Unopened(OpenFault::Memory)
    }
}

impl<T: Drop> From<AllocFailed<T>> for SourcesFault {
    ghost use Rattle.std.specs.Prelude.{◌≡◌};
    ghost use Rattle.run_base.specs.declared.fault.OpenFault.TheVariants.{Memory};
    ghost use Rattle.audit_commands.specs.declared.fault.SourcesFault.TheVariants.{Unopened};

    ghost from_gives = { λ _ e. e ≡ Unopened Memory };

    fn from(_: AllocFailed<T>) -> SourcesFault {
        SourcesFault::Unopened(OpenFault::Memory)
    }
}

impl Fails for SourcesFault {
    ghost status = { sources_status };

    ghost printed = { sources_printed };

    ghost explained = { sources_explained };

    fn status(&self) -> u8 {
        match self {
            SourcesFault::BadSender(_) => 2,
            SourcesFault::Unopened(fault) => fault.status(),
        }
    }

    fn printed(self, alloc: Global, program: &[u8]) -> Result<Vec<u8>, AllocError> {
        match self {
            SourcesFault::BadSender(word) => sender_line(alloc, program, word.as_slice()),
            SourcesFault::Unopened(fault) => fault.printed(alloc, program),
        }
    }

    fn explained(self, alloc: Global, program: &[u8]) -> Result<Vec<u8>, AllocError> {
        match self {
            SourcesFault::Unopened(fault) => fault.explained(alloc, program),
            SourcesFault::BadSender(word) => sender_line(alloc, program, word.as_slice()),
        }
    }
}

/// The reason why an alias is not written out.
#[derive(Debug, Drop)]
pub enum ExpansionFault {
    /// There is no policy, or it does not pass the check.
    Policy(PolicyFault),
    /// The policy has no alias of this name.
    NoSuchAlias(Seq<u8>),
    /// Out of memory.
    Memory,
}

impl From<AllocError> for ExpansionFault {
    ghost use Rattle.std.specs.Prelude.{◌≡◌};
    ghost use Rattle.audit_commands.specs.declared.fault.ExpansionFault.TheVariants.{Memory};

    ghost from_gives = { λ _ e. e ≡ Memory };

    fn from(_: AllocError) -> ExpansionFault {
        ExpansionFault::Memory
    }
}

impl Fails for ExpansionFault {
    ghost status = { expansion_status };

    ghost printed = { expansion_printed };

    ghost explained = { expansion_explained };

    fn status(&self) -> u8 {
        match self {
            ExpansionFault::Policy(fault) => fault.status(),
            ExpansionFault::NoSuchAlias(_) => 1,
            ExpansionFault::Memory => 4,
        }
    }

    fn printed(self, alloc: Global, program: &[u8]) -> Result<Vec<u8>, AllocError> {
        match self {
            ExpansionFault::Policy(fault) => fault.printed(alloc, program),
            ExpansionFault::NoSuchAlias(name) => alias_line(alloc, program, name.as_slice()),
            ExpansionFault::Memory => AllocError.printed(alloc, program),
        }
    }

    fn explained(self, alloc: Global, program: &[u8]) -> Result<Vec<u8>, AllocError> {
        match self {
            ExpansionFault::Policy(fault) => fault.explained(alloc, program),
            fault => fault.printed(alloc, program),
        }
    }
}

/// The reason why an audit has no report.
#[derive(Debug, Drop)]
pub enum ReportFault {
    /// There is no policy, or it does not pass the check.
    Policy(PolicyFault),
    /// The users and the hosts are refused.
    Directory(DirectoryFault),
    /// The requests are refused, or a thread could not be started.
    Requests(RequestsFault),
    /// Out of memory.
    Memory,
}

impl From<AllocError> for ReportFault {
    ghost use Rattle.std.specs.Prelude.{◌≡◌};
    ghost use Rattle.audit_commands.specs.declared.fault.ReportFault.TheVariants.{Memory};

    ghost from_gives = { λ _ e. e ≡ Memory };

    fn from(_: AllocError) -> ReportFault {
        ReportFault::Memory
    }
}

impl Fails for ReportFault {
    ghost status = { report_status };

    ghost printed = { report_printed };

    ghost explained = { report_explained };

    fn status(&self) -> u8 {
        match self {
            ReportFault::Policy(fault) => fault.status(),
            ReportFault::Directory(fault) => fault.status(),
            ReportFault::Requests(fault) => requests_status(fault),
            ReportFault::Memory => 4,
        }
    }

    fn printed(self, alloc: Global, program: &[u8]) -> Result<Vec<u8>, AllocError> {
        match self {
            ReportFault::Policy(fault) => fault.printed(alloc, program),
            ReportFault::Directory(fault) => fault.printed(alloc, program),
            ReportFault::Requests(fault) => requests_line(alloc, program, &fault),
            ReportFault::Memory => AllocError.printed(alloc, program),
        }
    }

    fn explained(self, alloc: Global, program: &[u8]) -> Result<Vec<u8>, AllocError> {
        match self {
            ReportFault::Policy(fault) => fault.explained(alloc, program),
            fault => fault.printed(alloc, program),
        }
    }
}

/// Returns the exit status for a CSV file that is refused.
pub fn file_status(fault: FileFault) -> u8
    ensures { result ≡ status_of_file fault }
{
    match fault {
        FileFault::Read | FileFault::Memory => 4,
        _ => 3,
    }
}

// Returns the exit status for requests that have no report.
fn requests_status(fault: &RequestsFault) -> u8
    ensures { result ≡ status_of_requests fault.now }
{
    match fault {
        RequestsFault::File { fault, .. } => file_status(*fault),
        RequestsFault::NoThread => 4,
        _ => 3,
    }
}

// Returns the line of a word that names no sender.
fn sender_line(alloc: Global, program: &[u8], word: &[u8]) -> Result<Vec<u8>, AllocError>
    ensures { IfOk result (λ line. line.items
        ≡ error_line program.now (codes "bad sender " ++ word.now)) }
{
    let mut line = begin_line(alloc, program)?;
    push_both(&mut line, b"bad sender ", word)?;
    push(&mut line, b"\n")?;
    Ok(line)
}

// Returns the line of an alias that the policy does not have.
fn alias_line(alloc: Global, program: &[u8], name: &[u8]) -> Result<Vec<u8>, AllocError>
    ensures { IfOk result (λ line. line.items
        ≡ error_line program.now (codes "no such alias " ++ name.now)) }
{
    let mut line = begin_line(alloc, program)?;
    push_both(&mut line, b"no such alias ", name)?;
    push(&mut line, b"\n")?;
    Ok(line)
}

// Returns the line of `called` and the fault of a file.
fn file_line(
    alloc: Global,
    program: &[u8],
    called: &[u8],
    fault: FileFault,
) -> Result<Vec<u8>, AllocError>
    ensures { IfOk result (λ line. line.items
        ≡ error_line program.now (called.now ++ file_fault_text fault)) }
{
    let mut line = begin_line(alloc, program)?;
    push(&mut line, called)?;
    push_file_fault(&mut line, fault)?;
    push(&mut line, b"\n")?;
    Ok(line)
}

// Returns the line of users and hosts that form no directory.
fn directory_line(alloc: Global, program: &[u8], fault: &DirFault) -> Result<Vec<u8>, AllocError>
    ensures { IfOk result (λ line. line.items
        ≡ error_line program.now (directory_fault_text fault.now)) }
{
    let mut line = begin_line(alloc, program)?;
    push_directory_fault(&mut line, fault)?;
    push(&mut line, b"\n")?;
    Ok(line)
}

// Returns the line of requests that have no report.
fn requests_line(
    alloc: Global,
    program: &[u8],
    fault: &RequestsFault,
) -> Result<Vec<u8>, AllocError>
    ensures { IfOk result (λ line. line.items
        ≡ error_line program.now (requests_fault_text fault.now)) }
{
    let mut line = begin_line(alloc, program)?;
    push_requests_fault(&mut line, fault)?;
    push(&mut line, b"\n")?;
    Ok(line)
}
