//! Whether all known hosts have the name for which `%h` is read.
ghost use Rattle.std.specs.Prelude.{◌≡◌, IfErr, IfOk};
ghost use Rattle.review_commands.specs.MachineFiles as spec;

use crate::machine_file::{MachineFile, MachineFileFault};
use audit_files::{Feed, FileFault, read_hosts};
use review_texts::short_name;
use run_base::{begin_line, push, push_both};
use std::alloc::{AllocError, Global};
use sudo_match::Machine;
use sudo_text::Seq;

// Whether a host has the short name of this name.
fn is_called(machine: &Machine, name: &[u8]) -> bool
    ensures { result ≡ spec.is_called name.now machine.now }
{
    short_name(machine.name.as_slice()) == short_name(name)
}

// Returns the name of the first host with another short name, if there is one.
fn other_host(alloc: Global, hosts: &[Machine], name: &[u8]) -> Result<Option<Seq<u8>>, AllocError>
    ensures { IfOk result (λ found. found ≡ spec.other_host name.now hosts.now) }
{
    match hosts.iter().find(|host| !is_called(host, name)) {
        Some(host) => Ok(Some(Seq::from_slice(alloc, host.name.as_slice())?)),
        None => Ok(None),
    }
}

// Returns that the file of hosts is refused.
fn refused(fault: FileFault) -> MachineFileFault
    ensures { result ≡ MachineFileFault.Refused MachineFile.Hosts fault }
{
    MachineFileFault::Refused {
        file: MachineFile::Hosts,
        fault,
    }
}

/// Reads a hosts file, and returns the name of the first host whose short name is not that of this name, if there is one.
///
/// Returns `Refused` with `Header`, `BadRow` or `TooMany` if the file is refused, with `Read` if a read failed, and with `Memory`
/// if allocation failed.
pub fn other_host_in<R: Feed>(
    alloc: Global,
    reader: &mut R,
    name: &[u8],
) -> Result<Option<Seq<u8>>, MachineFileFault>
    ensures stated { IfOk result (spec.IsOtherHost name.now (R.ahead reader.old)) }
    ensures fault { IfErr result (spec.AreNoHosts (R.ahead reader.old)) }
{
    let hosts = match read_hosts(alloc, reader) {
        Ok(hosts) => hosts,
        Err(fault) => return Err(refused(fault)),
    };
    match other_host(alloc, &hosts, name) {
        Ok(found) => Ok(found),
        Err(_) => Err(refused(FileFault::Memory)),
    }
}

/// Returns the hint that `%h` is not read, since a known host has another short name than this one. Returns `AllocError` if allocation
/// fails.
pub fn other_host_line(
    alloc: Global,
    program: &[u8],
    name: &[u8],
    other: &[u8],
) -> Result<Vec<u8>, AllocError>
    ensures { IfOk result (λ line. line.items
        ≡ spec.other_host_line program.now name.now other.now) }
{
    let mut line = begin_line(alloc, program)?;
    push_both(
        &mut line,
        b"hint: %h is not read: the hosts file has ",
        other,
    )?;
    push_both(&mut line, b", which is not ", name)?;
    push(&mut line, b"\n")?;
    Ok(line)
}
