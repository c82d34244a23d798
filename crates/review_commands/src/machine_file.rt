//! Files that state something of a machine beside its policy, and their faults.
ghost use Rattle.std.specs.Prelude.{◌≡◌, ◌++◌, IfOk, codes};
ghost use Rattle.audit_commands.specs.FaultTexts.{file_fault_text};
ghost use Rattle.run_base.specs.FaultLines.{error_line};
ghost use Rattle.review_commands.specs.MachineFiles.{machine_file_explained, machine_file_name};
ghost use Rattle.review_commands.specs.MachineFiles.{machine_file_printed, machine_file_status};

use audit_commands::{file_status, push_file_fault};
use audit_files::FileFault;
use run_base::{Fails, OpenFault, begin_line, push};
use std::alloc::{AllocError, Global};

/// A file that states something of a machine.
#[derive(Clone, Copy, Debug, PartialEq, Eq)]
pub enum MachineFile {
    /// Its links to folders.
    Links,
    /// Its netgroups.
    Netgroups,
    /// The hosts that are known.
    Hosts,
    /// The IPv6 addresses of hosts.
    Addresses,
}

/// The reason why a file says nothing of a machine.
#[derive(Debug, Drop)]
pub enum MachineFileFault {
    /// The file is not opened.
    Unopened(OpenFault),
    /// The file is refused.
    Refused { file: MachineFile, fault: FileFault },
}

impl MachineFile {
    // Returns the name by which a fault names the file.
    fn name(self) -> &'static [u8]
        ensures { result.now ≡ machine_file_name self }
    {
        match self {
            MachineFile::Links => b"links",
            MachineFile::Netgroups => b"netgroups",
            MachineFile::Hosts => b"hosts",
            MachineFile::Addresses => b"addresses",
        }
    }
}

// Returns the line of a file that is refused.
fn refused_line(
    alloc: Global,
    program: &[u8],
    file: MachineFile,
    fault: FileFault,
) -> Result<Vec<u8>, AllocError>
    ensures { IfOk result (λ line. line.items ≡ error_line program.now
        (machine_file_name file ++ (codes ": " ++ file_fault_text fault))) }
{
    let mut line = begin_line(alloc, program)?;
    push(&mut line, file.name())?;
    push(&mut line, b": ")?;
    push_file_fault(&mut line, fault)?;
    push(&mut line, b"\n")?;
    Ok(line)
}

impl Fails for MachineFileFault {
    ghost status = { machine_file_status };

    ghost printed = { machine_file_printed };

    ghost explained = { machine_file_explained };

    fn status(&self) -> u8 {
        match self {
            MachineFileFault::Unopened(fault) => fault.status(),
            MachineFileFault::Refused { fault, .. } => file_status(*fault),
        }
    }

    fn printed(self, alloc: Global, program: &[u8]) -> Result<Vec<u8>, AllocError> {
        match self {
            MachineFileFault::Unopened(fault) => fault.printed(alloc, program),
            MachineFileFault::Refused { file, fault } => refused_line(alloc, program, file, fault),
        }
    }

    fn explained(self, alloc: Global, program: &[u8]) -> Result<Vec<u8>, AllocError> {
        match self {
            MachineFileFault::Unopened(fault) => fault.explained(alloc, program),
            MachineFileFault::Refused { file, fault } => refused_line(alloc, program, file, fault),
        }
    }
}
