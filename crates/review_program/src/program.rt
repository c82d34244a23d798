//! The program: executes the command that its words ask for.
ghost use Rattle.review_commands.specs.Words.{WorkersFit};

use crate::changes::changes_run;
use crate::compare::compare_run;
use audit_commands::OpenedFiles;
use audit_files::Device;
use clap::Error;
use clap::error::ErrorKind;
use review_commands::{
    Asked, EscapeName, Form, PairPaths, ScopeNames, asked, escape_name, hinted, opened_files,
    pair_files, refused, run_cautions, run_check, run_expand, run_grants, run_report, run_roots,
    run_subjects, run_who, unread,
};
use review_grants::Sought;
use std::alloc::AllocError;
use std::env;
use std::sync::Wait;
use std::thread::Threads;

// Lists what a change of a policy does, and returns the exit status. `threads` is the runtime, if it can start threads.
fn run_compare<T: Threads + Sync>(
    rt: &HostRuntime,
    threads: &T,
    paths: PairPaths<'_>,
    names: ScopeNames<'_>,
) -> u8 {
    let EscapeName { name, hint } = match escape_name(rt, paths.hostname, paths.hosts) {
        Ok(found) => found,
        Err(fault) => return refused(rt, fault),
    };
    let (mut before, mut after) = match pair_files(rt, paths.netgroups, paths.addresses, name) {
        Ok(pair) => pair,
        Err(fault) => return refused(rt, fault),
    };
    let OpenedFiles {
        mut users,
        mut hosts,
        ..
    } = match opened_files(rt, paths.users, paths.hosts, &[]) {
        Ok(opened) => opened,
        Err(status) => return status,
    };
    let status = compare_run(
        rt.alloc(),
        threads,
        paths.old.as_bytes(),
        &mut before,
        paths.new.as_bytes(),
        &mut after,
        &mut users,
        &mut hosts,
        names,
        &mut Device::new(rt.stdout()),
        &mut Device::new(rt.stderr()),
    );
    hinted(rt, status, &hint)
}

// Lists the requests that a change of a policy answers otherwise or may answer otherwise, and returns the exit status. `threads` is
// the runtime, if it can start threads.
fn run_changes<T: Threads + Wait + Sync>(
    rt: &HostRuntime,
    threads: &T,
    paths: PairPaths<'_>,
    words: &[&str],
) -> u8 {
    let EscapeName { name, hint } = match escape_name(rt, paths.hostname, paths.hosts) {
        Ok(found) => found,
        Err(fault) => return refused(rt, fault),
    };
    let (mut before, mut after) = match pair_files(rt, paths.netgroups, paths.addresses, name) {
        Ok(pair) => pair,
        Err(fault) => return refused(rt, fault),
    };
    let OpenedFiles {
        mut users,
        mut hosts,
        sources,
    } = match opened_files(rt, paths.users, paths.hosts, words) {
        Ok(opened) => opened,
        Err(status) => return status,
    };
    let status = changes_run(
        rt.alloc(),
        threads,
        paths.old.as_bytes(),
        &mut before,
        paths.new.as_bytes(),
        &mut after,
        &mut users,
        &mut hosts,
        sources,
        &mut Device::new(rt.stdout()),
        &mut Device::new(rt.stderr()),
    );
    hinted(rt, status, &hint)
}

// Returns the bytes of a text, where one is given.
fn bytes_of<'a>(text: Option<&'a str>) -> Option<&'a [u8]> {
    match text {
        None => None,
        Some(text) => Some(text.as_bytes()),
    }
}

// Executes a command, and returns the exit status.
fn run<T: Threads + Wait + Sync>(rt: &HostRuntime, threads: &T, asked: Asked<'_>) -> u8
    requires { WorkersFit asked }
{
    match asked {
        Asked::Check { policy } => run_check(rt, policy),
        Asked::Expand { policy, kind, name } => run_expand(rt, policy, kind, name),
        Asked::Cautions {
            policy,
            links,
            without,
        } => run_cautions(rt, policy, links, &without),
        Asked::Grants { paths, user, host } => {
            let names = ScopeNames {
                user: bytes_of(user),
                host: bytes_of(host),
            };
            run_grants(rt, paths, names)
        }
        Asked::Who {
            paths,
            command,
            arguments,
            runas,
        } => {
            let sought = Sought {
                command: command.as_bytes(),
                arguments: arguments.unwrap_or("").as_bytes(),
                target: bytes_of(runas),
            };
            run_who(rt, paths, sought)
        }
        Asked::Roots { paths, all } => run_roots(rt, paths, all),
        Asked::Subjects { paths } => run_subjects(rt, paths),
        Asked::Rules {
            paths,
            workers,
            senders,
        } => run_report(rt, threads, paths, workers, &senders, Form::Rules),
        Asked::Report {
            paths,
            workers,
            senders,
        } => run_report(rt, threads, paths, workers, &senders, Form::Requests),
        Asked::Compare { paths, user, host } => {
            let names = ScopeNames {
                user: bytes_of(user),
                host: bytes_of(host),
            };
            run_compare(rt, threads, paths, names)
        }
        Asked::Changes { paths, senders } => run_changes(rt, threads, paths, &senders),
    }
}

// Prints the text of `clap`, and returns the exit status: help or the version, if asked for, goes
// to standard output, with status 0, and a mistake in the words to standard error, with status 2.
fn refuse(rt: &HostRuntime, error: &Error) -> u8 {
    if error.kind() == ErrorKind::OutOfMemory {
        return refused(rt, AllocError);
    }
    let printed = error.print(rt);
    if error.use_stderr() {
        2
    } else if printed.is_ok() {
        0
    } else {
        4
    }
}

// Returns the words of the command line, the program's own name first.
fn words(rt: &HostRuntime) -> Result<Vec<String>, Error> {
    match env::args(rt) {
        Ok(words) => Ok(words.collect(rt.alloc())?),
        Err(error) => Err(unread(rt.alloc(), error.kind())),
    }
}

/// Executes the command that the words of the command line ask for, and returns the exit status.
///
/// `threads` is the runtime, if it can start threads.
pub fn run_program<T: Threads + Wait + Sync>(rt: &HostRuntime, threads: &T) -> u8 {
    let words = match words(rt) {
        Ok(words) => words,
        Err(error) => return refuse(rt, &error),
    };
    match asked(rt.alloc(), words.as_slice()) {
        Ok(asked) => run(rt, threads, asked),
        Err(error) => refuse(rt, &error),
    }
}
