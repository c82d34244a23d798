//! A policy, a directory, sources over memory, and audits of them.
ghost use Rattle.std.specs.Prelude.{◌≡◌, ◌≤◌};

use audit_run::{AuditFault, Feed, Gate, Handoff, Report, Script, Source, audit, report_text};
use std::alloc::{AllocError, Global};
use std::sync::Wait;
use std::test::Fail;
use std::thread::Threads;
use sudo_load::{Supply, load};
use sudo_match::{Directory, Group, Interface, Machine, Person};
use sudo_policy::{Checked, check};
use sudo_text::Seq;

const HEADER: &[u8] = b"number,user,host,runas_user,runas_group,command,arguments\n";

fn person(alloc: Global, name: &[u8], id: u32) -> Result<Person, AllocError> {
    let mut groups = Seq::new(alloc);
    groups.push(Group {
        name: Seq::from_slice(alloc, name)?,
        gid: id,
    })?;
    Ok(Person {
        name: Seq::from_slice(alloc, name)?,
        uid: id,
        groups,
    })
}

// Returns the directory of `root` and `alice`, and the host `web1.example.org`.
fn directory(alloc: Global) -> Result<Directory, Fail> {
    let mut people = Vec::new(alloc);
    people.push(person(alloc, b"root", 0)?)?;
    people.push(person(alloc, b"alice", 1000)?)?;
    let mut interfaces = Seq::new(alloc);
    interfaces.push(Interface {
        addr: 0x0a01_0203,
        bits: 16,
    })?;
    let mut machines = Vec::new(alloc);
    machines.push(Machine {
        name: Seq::from_slice(alloc, b"web1.example.org")?,
        interfaces,
    })?;
    match Directory::new(alloc, people, machines) {
        Ok(directory) => Ok(directory),
        Err(_) => Err(Fail::new("the directory has a fault")),
    }
}

// Returns a policy under which alice may run `/bin/kill` on web1 without a password, and not
// `/bin/su`.
fn policy(alloc: Global) -> Result<Checked, Fail> {
    let text = b"alice web1 = NOPASSWD: /bin/kill, !/bin/su\n";
    let supplies: [Supply; 0] = [];
    match load(alloc, b"sudoers", text, &supplies) {
        Ok(policy) => match check(alloc, policy) {
            Ok(checked) => Ok(checked),
            Err(_) => Err(Fail::new("the policy has errors")),
        },
        Err(_) => Err(Fail::new("the policy is not read")),
    }
}

/// The policy and the directory by which requests are judged.
#[derive(Drop)]
pub(crate) struct Ground {
    pub policy: Checked,
    pub directory: Directory,
}

/// Returns the policy and the directory above.
pub(crate) fn make_ground(alloc: Global) -> Result<Ground, Fail> {
    let directory = directory(alloc)?;
    let policy = policy(alloc)?;
    Ok(Ground { policy, directory })
}

/// Returns a requests file with the header and these rows.
pub(crate) fn requests_file(alloc: Global, rows: &[u8]) -> Result<Vec<u8>, AllocError> {
    let mut text = Vec::new(alloc);
    text.extend_from_slice(HEADER)?;
    text.extend_from_slice(rows)?;
    Ok(text)
}

/// Returns a source over memory.
pub(crate) fn source(
    alloc: Global,
    name: &[u8],
    rows: &[u8],
) -> Result<Source<Script>, AllocError> {
    let text = requests_file(alloc, rows)?;
    Ok(Source {
        name: Seq::from_slice(alloc, name)?,
        reader: Script::of(alloc, &text, 100)?,
    })
}

// Audits the sources under this policy and directory.
fn audited_by<R: Threads + Wait + Sync, F: Feed + Drop + Send, G: Gate + Sync>(
    alloc: Global,
    rt: &R,
    ground: &Ground,
    sources: Vec<Source<F>>,
    workers: u32,
    gate: &G,
) -> Result<Result<Report, AuditFault>, Fail>
    requires { (1 ≤ workers) × (workers ≤ 16) }
{
    let policy = &ground.policy;
    let directory = &ground.directory;
    let (handoff, mut pass) = Handoff::new(alloc, policy, directory)?;
    Ok(audit(
        alloc, rt, policy, directory, &handoff, &mut pass, sources, workers, gate,
    ))
}

/// Audits the sources under the policy and the directory above.
pub(crate) fn audited<R: Threads + Wait + Sync, F: Feed + Drop + Send, G: Gate + Sync>(
    alloc: Global,
    rt: &R,
    sources: Vec<Source<F>>,
    workers: u32,
    gate: &G,
) -> Result<Result<Report, AuditFault>, Fail>
    requires { (1 ≤ workers) × (workers ≤ 16) }
{
    let ground = make_ground(alloc)?;
    let answer = audited_by(alloc, rt, &ground, sources, workers, gate);
    drop(ground);
    answer
}

fn report_shown(alloc: Global, report: &Report) -> Result<String, Fail> {
    let mut files = Vec::new(alloc);
    files.push(Seq::from_slice(alloc, b"sudoers")?)?;
    let text = report_text(alloc, report, &files)?;
    Ok(String::from_utf8_lossy(alloc, text.as_slice())?)
}

fn fault_shown(alloc: Global, fault: &AuditFault) -> Result<String, Fail> {
    Ok(format!(in alloc; "{fault}")?)
}

/// Returns the text of the report, or of the fault.
pub(crate) fn shown(alloc: Global, answer: &Result<Report, AuditFault>) -> Result<String, Fail> {
    match answer {
        Ok(report) => report_shown(alloc, report),
        Err(fault) => fault_shown(alloc, fault),
    }
}
