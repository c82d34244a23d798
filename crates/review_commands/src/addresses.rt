//! The IPv6 addresses of hosts, as a file states them.
ghost use Rattle.std.specs.Prelude.{◌≡◌, Ok, IfErr, IfOk};
ghost use Rattle.audit_files.specs.Files.{IsRead};
ghost use Rattle.review_commands.specs.Addresses.{host_addresses};
ghost use Rattle.review_commands.specs.MachineFiles.{AreNoAddresses};

use crate::address_rows::read_addresses;
use crate::machine_file::{MachineFile, MachineFileFault};
use audit_files::Feed;
use review_texts::HostAddress;
use std::alloc::Global;
use sudo_text::Seq;

/// Reads a file of the IPv6 addresses of hosts, with the header `host,address`, and returns them, in order.
///
/// Returns `Refused` with `Header`, `BadRow` or `TooMany` if the file is refused, with `Read` if a read failed, and with `Memory`
/// if allocation failed.
pub fn machine_addresses<R: Feed>(
    alloc: Global,
    reader: &mut R,
) -> Result<Seq<HostAddress>, MachineFileFault>
    ensures stated { IfOk result (λ list. IsRead host_addresses (R.ahead reader.old) (Ok list)) }
    ensures fault { IfErr result (AreNoAddresses (R.ahead reader.old)) }
{
    match read_addresses(alloc, reader) {
        Ok(list) => Ok(Seq::from_vec(list)),
        Err(fault) => Err(MachineFileFault::Refused {
            file: MachineFile::Addresses,
            fault,
        }),
    }
}
