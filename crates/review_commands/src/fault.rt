//! The faults of a table, each with its exit status and its line.
ghost use Rattle.std.specs.Prelude.{◌≡◌, ◌++◌, IfOk, codes};
ghost use Rattle.run_base.specs.FaultLines.{error_line};
ghost use Rattle.review_commands.specs.Surveying.{table_explained, table_printed, table_status};

use audit_commands::DirectoryFault;
use run_base::{Fails, PolicyFault, begin_line, push, push_both};
use std::alloc::{AllocError, Global};
use sudo_text::Seq;

/// The reason why there is no table of a policy.
#[derive(Debug, Drop)]
pub enum TableFault {
    /// There is no policy, or it does not pass the check.
    Policy(PolicyFault),
    /// The users and the hosts are refused.
    Directory(DirectoryFault),
    /// No known user has this name.
    NoSuchUser(Seq<u8>),
    /// No known host has this name.
    NoSuchHost(Seq<u8>),
    /// Out of memory.
    Memory,
}

impl From<AllocError> for TableFault {
    ghost use Rattle.std.specs.Prelude.{◌≡◌};
    ghost use Rattle.review_commands.specs.declared.fault.TableFault.TheVariants.{Memory};

    ghost from_gives = { λ _ e. e ≡ Memory };

    fn from(_: AllocError) -> TableFault {
        TableFault::Memory
    }
}

// Returns the line of a name that no row has.
fn name_line(
    alloc: Global,
    program: &[u8],
    called: &[u8],
    name: &[u8],
) -> Result<Vec<u8>, AllocError>
    ensures { IfOk result (λ line. line.items
        ≡ error_line program.now (called.now ++ name.now)) }
{
    let mut line = begin_line(alloc, program)?;
    push_both(&mut line, called, name)?;
    push(&mut line, b"\n")?;
    Ok(line)
}

impl Fails for TableFault {
    ghost status = { table_status };

    ghost printed = { table_printed };

    ghost explained = { table_explained };

    fn status(&self) -> u8 {
        match self {
            TableFault::Policy(fault) => fault.status(),
            TableFault::Directory(fault) => fault.status(),
            TableFault::NoSuchUser(_) | TableFault::NoSuchHost(_) => 3,
            TableFault::Memory => 4,
        }
    }

    fn printed(self, alloc: Global, program: &[u8]) -> Result<Vec<u8>, AllocError> {
        match self {
            TableFault::Policy(fault) => fault.printed(alloc, program),
            TableFault::Directory(fault) => fault.printed(alloc, program),
            TableFault::NoSuchUser(name) => {
                name_line(alloc, program, b"no such user ", name.as_slice())
            }
            TableFault::NoSuchHost(name) => {
                name_line(alloc, program, b"no such host ", name.as_slice())
            }
            TableFault::Memory => AllocError.printed(alloc, program),
        }
    }

    fn explained(self, alloc: Global, program: &[u8]) -> Result<Vec<u8>, AllocError> {
        match self {
            TableFault::Policy(fault) => fault.explained(alloc, program),
            fault => fault.printed(alloc, program),
        }
    }
}
