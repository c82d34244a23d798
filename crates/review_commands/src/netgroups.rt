//! The netgroups of a machine, as a file states them.
ghost use Rattle.std.specs.Prelude.{◌≡◌, Ok, IfErr, IfOk};
ghost use Rattle.audit_files.specs.Files.{IsRead};
ghost use Rattle.audit_files.specs.Netgroups.{triples};
ghost use Rattle.review_commands.specs.MachineFiles.{AreNoNetgroups};

use crate::machine_file::{MachineFile, MachineFileFault};
use audit_files::{Feed, Triple, read_netgroups};
use std::alloc::Global;

/// Reads a file of netgroups, with the header `netgroup,host,user,domain`, and returns their triples, in order.
///
/// Returns `Refused` with `Header`, `BadRow` or `TooMany` if the file is refused, with `Read` if a read failed, and with `Memory`
/// if allocation failed.
pub fn machine_netgroups<R: Feed>(
    alloc: Global,
    reader: &mut R,
) -> Result<Vec<Triple>, MachineFileFault>
    ensures stated { IfOk result (λ list. IsRead triples (R.ahead reader.old) (Ok list.items)) }
    ensures fault { IfErr result (AreNoNetgroups (R.ahead reader.old)) }
{
    match read_netgroups(alloc, reader) {
        Ok(list) => Ok(list),
        Err(fault) => Err(MachineFileFault::Refused {
            file: MachineFile::Netgroups,
            fault,
        }),
    }
}
