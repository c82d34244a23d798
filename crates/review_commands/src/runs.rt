//! The runs of the commands that are about one policy, on this machine: opens the files of each, and runs it.
ghost use Rattle.std.specs.Prelude.{◌≤◌};

use crate::cautions::cautions_run;
use crate::check::check_run;
use crate::expand::expand_run;
use crate::grants::{ScopeNames, grants_run};
use crate::links::machine_links;
use crate::machine_file::MachineFileFault;
use crate::other_host::{other_host_in, other_host_line};
use crate::policy_files::{MaskedFiles, policy_files};
use crate::program_name::PROGRAM;
use crate::report::{Form, report_into};
use crate::request::{Paths, PolicyPath};
use crate::roots::roots_run;
use crate::subjects::subjects_run;
use crate::who::who_run;
use audit_commands::{OpenedFiles, Work, open_all};
use audit_files::Device;
use review_cautions::{CautionClass, Link, usual_links};
use review_grants::Sought;
use run_base::{Fails, OpenFault, SystemOpener, open, report_explained, write_text};
use std::fs::File;
use std::sync::Wait;
use std::thread::Threads;
use sudo_grammar::Kind;
use sudo_text::Seq;

// The files that a command reads: those of the policy, of users, of hosts and of requests; and the line that says why `%h` is not read
// as the name that is given, if it is not.
#[derive(Drop)]
struct CommandFiles<'a> {
    policy: MaskedFiles<'a>,
    opened: OpenedFiles<Device<File>>,
    hint: Option<Vec<u8>>,
}

/// The name that `%h` is read as, if there is one, and the line that says why it is not read as the name that is given.
#[derive(Drop)]
pub struct EscapeName<'a> {
    pub name: Option<&'a str>,
    pub hint: Option<Vec<u8>>,
}

/// Prints why a command does not run, and returns the exit status.
pub fn refused<F: Fails>(rt: &HostRuntime, fault: F) -> u8 {
    let mut err = Device::new(rt.stderr());
    report_explained(rt.alloc(), PROGRAM, fault, &mut err)
}

/// Opens the files of users, of hosts and of the requests that the words `NAME=PATH` name. Returns the exit status, with the fault
/// printed, if one is not opened.
pub fn opened_files(
    rt: &HostRuntime,
    users: &str,
    hosts: &str,
    words: &[&str],
) -> Result<OpenedFiles<Device<File>>, u8> {
    match open_all(rt.alloc(), &SystemOpener::new(rt), users, hosts, words) {
        Ok(opened) => Ok(opened),
        Err(fault) => Err(refused(rt, fault)),
    }
}

// Returns the line that says why `%h` is not read as a name.
fn hint_of(rt: &HostRuntime, name: &str, other: &[u8]) -> Result<Vec<u8>, MachineFileFault> {
    match other_host_line(rt.alloc(), PROGRAM, name.as_bytes(), other) {
        Ok(line) => Ok(line),
        Err(_) => Err(MachineFileFault::Unopened(OpenFault::Memory)),
    }
}

// Returns the first known host that has not a name, if one has not.
fn other_host_at(
    rt: &HostRuntime,
    hosts: &str,
    name: &str,
) -> Result<Option<Seq<u8>>, MachineFileFault> {
    let alloc = rt.alloc();
    match open(alloc, &SystemOpener::new(rt), hosts) {
        Ok(mut file) => other_host_in(alloc, &mut file, name.as_bytes()),
        Err(fault) => Err(MachineFileFault::Unopened(fault)),
    }
}

/// Returns the name that `%h` is read as: the one that is given, where each known host has it. What a policy says of another host is not
/// known, since that host reads other files. Returns `Unopened` if the file of the hosts is not opened, and the faults of `other_host_in`.
pub fn escape_name<'a>(
    rt: &HostRuntime,
    given: Option<&'a str>,
    hosts: &str,
) -> Result<EscapeName<'a>, MachineFileFault> {
    let other = match given {
        Some(name) => match other_host_at(rt, hosts, name)? {
            Some(other) => Some(hint_of(rt, name, other.as_slice())?),
            None => None,
        },
        None => None,
    };
    let name = if other.is_some() { None } else { given };
    Ok(EscapeName { name, hint: other })
}

/// Prints why `%h` was not read, if a policy was refused and it was not, and returns the status.
pub fn hinted(rt: &HostRuntime, status: u8, hint: &Option<Vec<u8>>) -> u8 {
    match hint {
        Some(line) if status == 1 => write_text(line, status, &mut Device::new(rt.stderr())),
        _ => status,
    }
}

// Opens the files that a command reads. Returns the exit status, with the fault printed, if one is not opened.
fn command_files<'a>(
    rt: &'a HostRuntime,
    paths: Paths<'_>,
    words: &[&str],
) -> Result<CommandFiles<'a>, u8> {
    let EscapeName { name, hint } = match escape_name(rt, paths.policy.hostname, paths.hosts) {
        Ok(found) => found,
        Err(fault) => return Err(refused(rt, fault)),
    };
    let policy = match policy_files(rt, paths.policy, name) {
        Ok(files) => files,
        Err(fault) => return Err(refused(rt, fault)),
    };
    let opened = opened_files(rt, paths.users, paths.hosts, words)?;
    Ok(CommandFiles {
        policy,
        opened,
        hint,
    })
}

/// Answers the requests of the files that the words `NAME=PATH` name, under a policy, and returns the exit status.
/// `threads` is the runtime, if it can start threads.
pub fn run_report<T: Threads + Wait + Sync>(
    rt: &HostRuntime,
    threads: &T,
    paths: Paths<'_>,
    workers: u32,
    words: &[&str],
    form: Form,
) -> u8
    requires { (1 ≤ workers) × (workers ≤ 16) }
{
    let CommandFiles {
        mut policy,
        opened,
        hint,
    } = match command_files(rt, paths, words) {
        Ok(files) => files,
        Err(status) => return status,
    };
    let OpenedFiles {
        mut users,
        mut hosts,
        sources,
    } = opened;
    let status = report_into(
        rt.alloc(),
        threads,
        paths.policy.file.as_bytes(),
        &mut policy,
        &mut users,
        &mut hosts,
        Work { sources, workers },
        form,
        &mut Device::new(rt.stdout()),
        &mut Device::new(rt.stderr()),
    );
    hinted(rt, status, &hint)
}

// Returns the links of the machine: those of the file at a path, or the usual ones.
fn links_at(rt: &HostRuntime, path: Option<&str>) -> Result<Vec<Link>, MachineFileFault> {
    let alloc = rt.alloc();
    let Some(path) = path else {
        return match usual_links(alloc) {
            Ok(links) => Ok(links),
            Err(_) => Err(MachineFileFault::Unopened(OpenFault::Memory)),
        };
    };
    match open(alloc, &SystemOpener::new(rt), path) {
        Ok(mut file) => machine_links(alloc, &mut file),
        Err(fault) => Err(MachineFileFault::Unopened(fault)),
    }
}

/// Lists the findings on a policy, and returns the exit status.
pub fn run_check(rt: &HostRuntime, policy: PolicyPath<'_>) -> u8 {
    match policy_files(rt, policy, policy.hostname) {
        Ok(mut files) => check_run(
            rt.alloc(),
            policy.file.as_bytes(),
            &mut files,
            &mut Device::new(rt.stdout()),
            &mut Device::new(rt.stderr()),
        ),
        Err(fault) => refused(rt, fault),
    }
}

/// Writes an alias of a policy out, and returns the exit status.
pub fn run_expand(rt: &HostRuntime, policy: PolicyPath<'_>, kind: Kind, name: &str) -> u8 {
    match policy_files(rt, policy, policy.hostname) {
        Ok(mut files) => expand_run(
            rt.alloc(),
            policy.file.as_bytes(),
            &mut files,
            kind,
            name.as_bytes(),
            &mut Device::new(rt.stdout()),
            &mut Device::new(rt.stderr()),
        ),
        Err(fault) => refused(rt, fault),
    }
}

/// Lists the cautions on a policy, and returns the exit status.
pub fn run_cautions(
    rt: &HostRuntime,
    policy: PolicyPath<'_>,
    links: Option<&str>,
    without: &[CautionClass],
) -> u8 {
    let mut files = match policy_files(rt, policy, policy.hostname) {
        Ok(files) => files,
        Err(fault) => return refused(rt, fault),
    };
    match links_at(rt, links) {
        Ok(links) => cautions_run(
            rt.alloc(),
            policy.file.as_bytes(),
            &mut files,
            &links,
            without,
            &mut Device::new(rt.stdout()),
            &mut Device::new(rt.stderr()),
        ),
        Err(fault) => refused(rt, fault),
    }
}

/// Lists the grants of a policy, and returns the exit status.
pub fn run_grants(rt: &HostRuntime, paths: Paths<'_>, names: ScopeNames<'_>) -> u8 {
    let CommandFiles {
        mut policy,
        opened,
        hint,
    } = match command_files(rt, paths, &[]) {
        Ok(files) => files,
        Err(status) => return status,
    };
    let OpenedFiles {
        mut users,
        mut hosts,
        ..
    } = opened;
    let status = grants_run(
        rt.alloc(),
        paths.policy.file.as_bytes(),
        &mut policy,
        &mut users,
        &mut hosts,
        names,
        &mut Device::new(rt.stdout()),
        &mut Device::new(rt.stderr()),
    );
    hinted(rt, status, &hint)
}

/// Lists who may run a command under a policy, and returns the exit status.
pub fn run_who(rt: &HostRuntime, paths: Paths<'_>, sought: Sought<'_>) -> u8 {
    let CommandFiles {
        mut policy,
        opened,
        hint,
    } = match command_files(rt, paths, &[]) {
        Ok(files) => files,
        Err(status) => return status,
    };
    let OpenedFiles {
        mut users,
        mut hosts,
        ..
    } = opened;
    let status = who_run(
        rt.alloc(),
        paths.policy.file.as_bytes(),
        &mut policy,
        &mut users,
        &mut hosts,
        sought,
        &mut Device::new(rt.stdout()),
        &mut Device::new(rt.stderr()),
    );
    hinted(rt, status, &hint)
}

/// Lists who can become root under a policy, and returns the exit status.
pub fn run_roots(rt: &HostRuntime, paths: Paths<'_>, all: bool) -> u8 {
    let CommandFiles {
        mut policy,
        opened,
        hint,
    } = match command_files(rt, paths, &[]) {
        Ok(files) => files,
        Err(status) => return status,
    };
    let OpenedFiles {
        mut users,
        mut hosts,
        ..
    } = opened;
    let status = roots_run(
        rt.alloc(),
        paths.policy.file.as_bytes(),
        &mut policy,
        &mut users,
        &mut hosts,
        all,
        &mut Device::new(rt.stdout()),
        &mut Device::new(rt.stderr()),
    );
    hinted(rt, status, &hint)
}

/// Lists what of a policy reaches nobody, and returns the exit status.
pub fn run_subjects(rt: &HostRuntime, paths: Paths<'_>) -> u8 {
    let CommandFiles {
        mut policy,
        opened,
        hint,
    } = match command_files(rt, paths, &[]) {
        Ok(files) => files,
        Err(status) => return status,
    };
    let OpenedFiles {
        mut users,
        mut hosts,
        ..
    } = opened;
    let status = subjects_run(
        rt.alloc(),
        paths.policy.file.as_bytes(),
        &mut policy,
        &mut users,
        &mut hosts,
        &mut Device::new(rt.stdout()),
        &mut Device::new(rt.stderr()),
    );
    hinted(rt, status, &hint)
}
