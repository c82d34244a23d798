//! The files of the policy that a command is about.
ghost use Rattle.run_base.specs.Holding.{any_holdings};

use crate::addresses::machine_addresses;
use crate::machine_file::MachineFileFault;
use crate::netgroups::machine_netgroups;
use crate::request::PolicyPath;
use audit_files::Triple;
use review_files::{HostTree, Rooted};
use review_texts::{HostAddress, Masked, Readable};
use run_base::{Disk, Files, FilesFault, OpenFault, SystemOpener, open};
use std::alloc::Global;
use sudo_text::Seq;

/// The files of this machine, or those below a folder of it.
#[derive(Drop)]
pub enum PolicyFiles<'a> {
    Machine(Disk<'a>),
    Below(Rooted<HostTree<'a>>),
}

// Returns the netgroups that the file at a path states; none without one.
fn netgroups_at(rt: &HostRuntime, path: Option<&str>) -> Result<Vec<Triple>, MachineFileFault> {
    let alloc = rt.alloc();
    let Some(path) = path else {
        return Ok(Vec::new(alloc));
    };
    match open(alloc, &SystemOpener::new(rt), path) {
        Ok(mut file) => machine_netgroups(alloc, &mut file),
        Err(fault) => Err(MachineFileFault::Unopened(fault)),
    }
}

// Returns the addresses of hosts that the file at a path states, if one is given.
fn addresses_at(
    rt: &HostRuntime,
    path: Option<&str>,
) -> Result<Option<Seq<HostAddress>>, MachineFileFault> {
    let alloc = rt.alloc();
    let Some(path) = path else {
        return Ok(None);
    };
    match open(alloc, &SystemOpener::new(rt), path) {
        Ok(mut file) => Ok(Some(machine_addresses(alloc, &mut file)?)),
        Err(fault) => Err(MachineFileFault::Unopened(fault)),
    }
}

// Returns the name of a host, if one is given.
fn name_of(rt: &HostRuntime, host: Option<&str>) -> Result<Option<Seq<u8>>, MachineFileFault> {
    let Some(host) = host else {
        return Ok(None);
    };
    match Seq::from_slice(rt.alloc(), host.as_bytes()) {
        Ok(name) => Ok(Some(name)),
        Err(_) => Err(MachineFileFault::Unopened(OpenFault::Memory)),
    }
}

// Returns the files of this machine, or those below a folder of it.
fn files_below<'a>(
    rt: &'a HostRuntime,
    root: Option<&str>,
) -> Result<PolicyFiles<'a>, MachineFileFault> {
    let Some(root) = root else {
        return Ok(PolicyFiles::Machine(Disk::new(rt)));
    };
    match Seq::from_slice(rt.alloc(), root.as_bytes()) {
        Ok(folder) => Ok(PolicyFiles::Below(Rooted::new(HostTree::new(rt), folder))),
        Err(_) => Err(MachineFileFault::Unopened(OpenFault::Memory)),
    }
}

/// The files of a policy, with their masked texts.
pub type MaskedFiles<'a> = Masked<PolicyFiles<'a>>;

// Returns the files of this machine, or those below a folder of it, with their masked texts.
fn masked_files<'a>(
    rt: &'a HostRuntime,
    root: Option<&str>,
    netgroups: Option<&str>,
    addresses: Option<&str>,
    host: Option<&str>,
) -> Result<MaskedFiles<'a>, MachineFileFault> {
    let netgroups = netgroups_at(rt, netgroups)?;
    let addresses = addresses_at(rt, addresses)?;
    let host = name_of(rt, host)?;
    let files = files_below(rt, root)?;
    let readable = Readable {
        noted: true,
        netgroups,
        host,
        addresses,
    };
    Ok(Masked::new(files, readable))
}

/// Returns the files of a policy, with their masked texts: a note stands for each digest, time and root, the members for each
/// netgroup that the file of netgroups has, the hosts for each IPv6 address, if the file of addresses is given, and the name of a host,
/// if one is given, for each `%h`. Returns why one of these files says nothing, if it does not, and `Unopened` with `Memory` if
/// allocation failed.
pub(crate) fn policy_files<'a>(
    rt: &'a HostRuntime,
    policy: PolicyPath<'_>,
    host: Option<&str>,
) -> Result<MaskedFiles<'a>, MachineFileFault> {
    masked_files(rt, policy.root, policy.netgroups, policy.addresses, host)
}

/// Returns the files of this machine twice, with their masked texts, for two policies that are compared. Returns why the file of netgroups
/// or that of addresses says nothing, if it does not, and `Unopened` with `Memory` if allocation failed.
pub fn pair_files<'a>(
    rt: &'a HostRuntime,
    netgroups: Option<&str>,
    addresses: Option<&str>,
    host: Option<&str>,
) -> Result<(MaskedFiles<'a>, MaskedFiles<'a>), MachineFileFault> {
    let old = masked_files(rt, None, netgroups, addresses, host)?;
    let new = masked_files(rt, None, netgroups, addresses, host)?;
    Ok((old, new))
}

impl Files for PolicyFiles<'_> {
    ghost held = { λ _. any_holdings };

    fn file(&mut self, alloc: Global, path: &[u8]) -> Result<Option<Seq<u8>>, FilesFault> {
        match self {
            PolicyFiles::Machine(files) => files.file(alloc, path),
            PolicyFiles::Below(files) => files.file(alloc, path),
        }
    }

    fn main_file(&mut self, alloc: Global, path: &[u8]) -> Result<Option<Seq<u8>>, FilesFault> {
        match self {
            PolicyFiles::Machine(files) => files.main_file(alloc, path),
            PolicyFiles::Below(files) => files.main_file(alloc, path),
        }
    }

    fn folder(&mut self, alloc: Global, path: &[u8]) -> Result<Seq<Seq<u8>>, FilesFault> {
        match self {
            PolicyFiles::Machine(files) => files.folder(alloc, path),
            PolicyFiles::Below(files) => files.folder(alloc, path),
        }
    }
}
