//! Supplies of files and folders, the policy of one file, a directory, and requests.

use std::alloc::{AllocError, Global};
use std::test::Fail;
use sudo_load::{LoadFault, Supply, load};
use sudo_match::{Directory, Group, Interface, Machine, Person};
use sudo_policy::Policy;
use sudo_text::Seq;
use sudo_verdict::Request;

/// Creates the supply of a file with this text.
pub(crate) fn file(alloc: Global, path: &str, text: &str) -> Result<Supply, AllocError> {
    Ok(Supply::File {
        path: Seq::from_slice(alloc, path.as_bytes())?,
        text: Some(Seq::from_slice(alloc, text.as_bytes())?),
    })
}

/// Creates the supply of a file that does not exist.
pub(crate) fn missing(alloc: Global, path: &str) -> Result<Supply, AllocError> {
    Ok(Supply::File {
        path: Seq::from_slice(alloc, path.as_bytes())?,
        text: None,
    })
}

/// Creates the supply of a folder with the files of these names, one a line.
pub(crate) fn folder(alloc: Global, path: &str, lines: &str) -> Result<Supply, AllocError> {
    let mut names = Seq::new(alloc);
    for name in lines.lines() {
        names.push(Seq::from_slice(alloc, name.as_bytes())?)?;
    }
    Ok(Supply::Folder {
        path: Seq::from_slice(alloc, path.as_bytes())?,
        names,
    })
}

/// Returns the policy of one file, or its fault.
pub(crate) fn policy(alloc: Global, text: &str) -> Result<Policy, LoadFault> {
    let supplies: [Supply; 0] = [];
    match load(alloc, b"sudoers", text.as_bytes(), &supplies) {
        Ok(policy) => Ok(policy),
        Err((_files, fault)) => Err(fault),
    }
}

// Returns the user of this name and ID, whose group has the same.
fn person(alloc: Global, name: &str, number: u32) -> Result<Person, AllocError> {
    let mut groups = Seq::new(alloc);
    groups.push(Group {
        name: Seq::from_slice(alloc, name.as_bytes())?,
        gid: number,
    })?;
    Ok(Person {
        name: Seq::from_slice(alloc, name.as_bytes())?,
        uid: number,
        groups,
    })
}

/// Returns the users root, alice and operator.
pub(crate) fn people(alloc: Global) -> Result<Vec<Person>, AllocError> {
    let mut people = Vec::new(alloc);
    people.push(person(alloc, "root", 0)?)?;
    people.push(person(alloc, "alice", 1000)?)?;
    people.push(person(alloc, "operator", 37)?)?;
    Ok(people)
}

// Returns a host with one address.
fn machine(alloc: Global, name: &str, addr: u32) -> Result<Machine, AllocError> {
    let mut interfaces = Seq::new(alloc);
    interfaces.push(Interface { addr, bits: 16 })?;
    Ok(Machine {
        name: Seq::from_slice(alloc, name.as_bytes())?,
        interfaces,
    })
}

/// Returns the hosts web1 and web2.
pub(crate) fn machines(alloc: Global) -> Result<Vec<Machine>, AllocError> {
    let mut machines = Vec::new(alloc);
    machines.push(machine(alloc, "web1", 0x0a01_0203)?)?;
    machines.push(machine(alloc, "web2", 0x0a02_0009)?)?;
    Ok(machines)
}

/// Returns the directory of these users and hosts.
pub(crate) fn directory(alloc: Global) -> Result<Directory, Fail> {
    let people = people(alloc)?;
    let machines = machines(alloc)?;
    Ok(Directory::new(alloc, people, machines)?)
}

/// Creates a request to run a command as root.
pub(crate) fn request(
    alloc: Global,
    user: &str,
    host: &str,
    command: &str,
) -> Result<Request, AllocError> {
    Ok(Request {
        number: 1,
        user: Seq::from_slice(alloc, user.as_bytes())?,
        host: Seq::from_slice(alloc, host.as_bytes())?,
        runas_user: None,
        runas_group: None,
        command: Seq::from_slice(alloc, command.as_bytes())?,
        arguments: Seq::new(alloc),
    })
}
