//! A whole audit: starts the threads, gathers their answers, and joins them.
ghost use Rattle.std.specs.Prelude.{◌≡◌, ◌+◌, ◌<◌, ◌≤◌, [], Ok, Err, ℕ, List, IfOk, IfErr, OnOk, None, Some, Option};
ghost use Rattle.std.specs.Prelude.{MatchOption, map, slice_get, vec_len, vec_capacity, length, IsTrue, IfSome};
ghost use Rattle.std.specs.Prelude.{IfNone, ◌↔◌};
ghost use Rattle.std.specs.List.{zip};
ghost use Rattle.audit_files.specs.declared.fault.FileFault.TheVariants.{Memory};
ghost use Rattle.audit_run.specs.Names.{names_under};
ghost use Rattle.audit_run.specs.Passes.{IsEmpty, IsOnlyPass};
ghost use Rattle.audit_run.specs.IsAuditResult.{IsAuditResult, IsFirstFileFault, NoneRefused, most_parts};
ghost use Rattle.audit_run.specs.Body.Concluded.{Concludes};
ghost use Rattle.audit_run.specs.Body.Gathered.{collector_after};
ghost use Rattle.audit_collect.specs.SenderState.{start};
ghost use Rattle.audit_collect.specs.Roster.{IsRoster};
ghost use Rattle.audit_run.specs.Roster.{owners, part_number, roster};
ghost use Rattle.audit_run.specs.Body.Run.{HasRun, IsReady};
ghost use Rattle.audit_run.specs.Body.Work.{part_ahead};
ghost use Rattle.audit_run.specs.declared.fault.AuditFault.TheVariants.{TooManyParts};
ghost use Rattle.sudo_verdict.specs.Postings.{Indexes};

use crate::caller::{drain, gather_all};
use crate::fault::AuditFault;
use crate::gate::Gate;
use crate::gather::Gathering;
use crate::prepared::{EndedRun, PreparedRun, prepare};
use crate::readers::{ReaderHandle, join_readers, start_readers};
use crate::roster::{RegisteredSources, register};
use crate::shared::Shared;
use crate::source::{Part, Source};
use crate::wakes::Wakes;
use crate::workers::{join_workers, start_workers};
use crate::{Handoff, Pass};
use audit_collect::{CollectFault, Refused, Report};
use audit_files::{Feed, FileFault};
use std::alloc::Global;
use std::sync::Wait;
use std::thread;
use std::thread::{Scope, Threads};
use sudo_match::Directory;
use sudo_policy::Checked;
use sudo_text::Seq;
use sudo_verdict::RuleIndex;

/// The most sources that an audit may have.
pub const MOST_PARTS: usize = 256;

// Starts the workers and a thread for each source, gathers until all have ended, and joins them.
// `all_started` is false if a thread could not be started.
fn run<'s, 'e: 's, R: Threads + Wait + Sync, F: Feed + Drop + Send + 'e, G: Gate + Sync>(
    rt: &'e R,
    scope: &Scope<'s, &'e ()>,
    shared: Shared<'e>,
    gate: &'e G,
    prepared: PreparedRun,
    parts: Vec<Part<F>>,
    mut readers: Vec<ReaderHandle<F>>,
) -> EndedRun
    requires ready { IsReady shared.handoff.now shared.policy.now shared.directory.now
        (vec_len parts) prepared }
    requires index { Indexes shared.policy.now shared.index.now }
    requires room { (vec_len readers ≡ 0) × (vec_len parts ≤ vec_capacity readers) }
    ensures { IsTrue result.all_started → HasRun
        (names_under shared.entry.policy.now shared.entry.directory.now)
        (map (λ p. part_ahead p.owner (F.ahead p.reader)) parts.items)
        (vec_len parts) prepared result }
{
    let PreparedRun {
        mut pass,
        mut gathering,
        source_passes,
        worker_passes,
        mut workers,
        mut faults,
    } = prepared;
    let Shared { handoff, wakes, .. } = shared;
    let all_workers = start_workers(rt, scope, shared, gate, worker_passes, &mut workers);
    let all_started = all_workers
        && start_readers(rt, scope, shared, source_passes, parts, &mut readers);
    gather_all(
        rt,
        handoff,
        wakes,
        &mut pass,
        &mut gathering,
        readers.len(),
        workers.len(),
    );
    join_readers(rt, handoff, &mut pass, readers, &mut faults);
    join_workers(rt, shared, &mut pass, workers);
    EndedRun {
        pass,
        gathering,
        faults,
        all_started,
    }
}

// Runs a prepared audit in a thread scope of its own.
fn run_scoped<R: Threads + Wait + Sync, F: Feed + Drop + Send, G: Gate + Sync>(
    rt: &R,
    shared: Shared<'_>,
    gate: &G,
    prepared: PreparedRun,
    parts: Vec<Part<F>>,
    readers: Vec<ReaderHandle<F>>,
) -> EndedRun
    requires ready { IsReady shared.handoff.now shared.policy.now shared.directory.now
        (vec_len parts) prepared }
    requires index { Indexes shared.policy.now shared.index.now }
    requires room { (vec_len readers ≡ 0) × (vec_len parts ≤ vec_capacity readers) }
    ensures { IsTrue result.all_started → HasRun
        (names_under shared.entry.policy.now shared.entry.directory.now)
        (map (λ p. part_ahead p.owner (F.ahead p.reader)) parts.items)
        (vec_len parts) prepared result }
{
    thread::scope(
        thread::scope_env(),
        rt,
        move |scope| -> EndedRun
            requires ready { IsReady shared.handoff.now shared.policy.now shared.directory.now
                (vec_len parts) prepared }
            requires index { Indexes shared.policy.now shared.index.now }
            requires room { (vec_len readers ≡ 0) × (vec_len parts ≤ vec_capacity readers) }
            ensures { IsTrue result.all_started
                → HasRun (names_under shared.entry.policy.now shared.entry.directory.now)
                (map (λ p. part_ahead p.owner (F.ahead p.reader)) parts.items)
                (vec_len parts) prepared result }
        { run(rt, scope, shared, gate, prepared, parts, readers) },
    )
}

// Whether allocation failed for a source.
fn has_memory_fault(faults: &[Option<FileFault>]) -> bool
    ensures { (index : ℕ) → slice_get faults.now index ≡ Some (Some Memory) → IsTrue result }
{
    for index in 0..faults.len() {
        if matches!(faults[index], Some(FileFault::Memory)) {
            return true;
        }
    }
    false
}

// Returns the first source that is refused, by its index, and its fault.
fn first_fault(faults: &[Option<FileFault>]) -> Option<(usize, FileFault)>
    ensures { MatchOption result (NoneRefused faults.now)
        (λ first. IsFirstFileFault faults.now first.0 first.1) }
{
    for index in 0..faults.len() {
        if let Some(fault) = faults[index] {
            return Some((index, fault));
        }
    }
    None
}

// Returns the number of the source at this index among the sources of this name, from 1.
fn part_number(names: &[Seq<u8>], index: usize, name: &[u8]) -> u32
    requires { (index ≤ length names.now) × (length names.now ≤ 256) }
    ensures { result ≡ part_number names.now index name.now }
{
    let mut part = 1;
    for earlier in 0..index {
        if names[earlier].as_slice() == name {
            part += 1;
        }
    }
    part
}

// Returns the report of the gathered arrivals, or the fault.
fn conclude(
    names: Vec<Seq<u8>>,
    faults: &[Option<FileFault>],
    gathering: Gathering,
) -> Result<Report, AuditFault>
    requires { (length faults.now ≡ vec_len names) × (vec_len names ≤ 256) }
    ensures { Concludes names.items faults.now
        (collector_after gathering.collector gathering.refused [])
        result }
{
    let mut names = names;
    if has_memory_fault(faults) || matches!(gathering.refused, Some(Refused::Memory)) {
        return Err(AuditFault::Memory);
    }
    if let Some((index, fault)) = first_fault(faults) {
        let part = part_number(&names, index, names[index].as_slice());
        let name = names.swap_remove(index);
        return Err(AuditFault::Sender { name, part, fault });
    }
    let Gathering {
        collector,
        refused,
        ..
    } = gathering;
    match refused {
        Some(Refused::Memory) => Err(AuditFault::Memory),
        Some(refused) => Err(AuditFault::Collect(CollectFault::Refused(refused))),
        None => match collector.finish() {
            Ok(report) => Ok(report),
            Err((_, unfinished)) => Err(AuditFault::Collect(CollectFault::Unfinished(unfinished))),
        },
    }
}

// Audits registered sources: runs the threads, gathers their answers, and joins them.
fn audit_registered<'e, R: Threads + Wait + Sync, F: Feed + Drop + Send, G: Gate + Sync>(
    rt: &R,
    shared: Shared<'e>,
    gate: &G,
    pass: &mut Pass,
    registered: RegisteredSources<F>,
    workers: u32,
) -> Result<Report, AuditFault>
    requires pass { IsOnlyPass pass.old × IsEmpty pass.old
        × (pass.old.handoff ≡ shared.handoff.now)
        × (pass.old.names ≡ names_under shared.policy.now shared.directory.now) }
    requires workers { (1 ≤ workers) × (workers ≤ 16) }
    requires index { Indexes shared.policy.now shared.index.now }
    requires parts { map (λ p. part_ahead p.owner (F.ahead p.reader)) registered.parts.items
        ≡ zip (owners registered.names.items)
        (map (λ p. F.ahead p.reader) registered.parts.items) }
    requires lengths { (vec_len registered.parts ≡ vec_len registered.names)
        × (vec_len registered.names ≤ 256) }
    requires collector { (registered.collector ≡ start (roster registered.names.items))
        × IsRoster (roster registered.names.items) }
    ensures { IsAuditResult (names_under shared.entry.policy.now shared.entry.directory.now)
        registered.names.items (map (λ p. F.ahead p.reader) registered.parts.items) workers
        pass.old pass.new result }
{
    let RegisteredSources {
        names,
        parts,
        collector,
    } = registered;
    let handles = Vec::with_capacity(shared.alloc, parts.len())?;
    let prepared = prepare(rt, shared, pass, collector, parts.len(), workers as usize)?;
    let EndedRun {
        pass: mine,
        mut gathering,
        faults,
        all_started,
    } = run_scoped(rt, shared, gate, prepared, parts, handles);
    if !all_started {
        return Err(AuditFault::NoThread);
    }
    pass.join(rt, shared.handoff, mine);
    drain(rt, shared, gate, pass, &mut gathering);
    conclude(names, &faults, gathering)
}

// Audits at most 256 sources: registers them, and runs the threads.
fn audit_sources<R: Threads + Wait + Sync, F: Feed + Drop + Send, G: Gate + Sync>(
    rt: &R,
    shared: Shared<'_>,
    gate: &G,
    pass: &mut Pass,
    sources: Vec<Source<F>>,
    workers: u32,
) -> Result<Report, AuditFault>
    requires pass { IsOnlyPass pass.old × IsEmpty pass.old
        × (pass.old.handoff ≡ shared.handoff.now)
        × (pass.old.names ≡ names_under shared.policy.now shared.directory.now) }
    requires workers { (1 ≤ workers) × (workers ≤ 16) }
    requires index { Indexes shared.policy.now shared.index.now }
    requires few { vec_len sources ≤ most_parts }
    ensures { IsAuditResult (names_under shared.entry.policy.now shared.entry.directory.now)
        (map (λ s. s.name) sources.items)
        (map (λ s. F.ahead s.reader) sources.items) workers pass.old pass.new result }
{
    match register(shared.alloc, sources) {
        Ok(registered) => audit_registered(rt, shared, gate, pass, registered, workers),
        Err(fault) => Err(fault),
    }
}

/// Audits the requests of the sources, with one thread for each source and this number of worker
/// threads, 1 to 16. Sources with the same name are the parts of one sender.
///
/// The report has a row for each sender, in the order in which their names first appear, with the
/// verdict of the policy on each request, in the order of their numbers.
///
/// Returns `TooManyParts` for more than 256 sources, and the roster fault for more than 64 senders,
/// both before any thread starts and with the pass unchanged; `NoThread` if a thread could not be
/// started; `Memory` if allocation failed; `Sender` with the first source, in their order, that is
/// refused; or else the first refusal of the collector, or what is missing.
///
/// Afterwards the pass is whole and the queues are empty, except after `NoThread` and `Memory`,
/// when the pass is unspecified.
pub fn audit<R: Threads + Wait + Sync, F: Feed + Drop + Send, G: Gate + Sync>(
    alloc: Global,
    rt: &R,
    policy: &Checked,
    directory: &Directory,
    handoff: &Handoff,
    pass: &mut Pass,
    sources: Vec<Source<F>>,
    workers: u32,
    gate: &G,
) -> Result<Report, AuditFault>
    requires pass { IsOnlyPass pass.old × IsEmpty pass.old × (pass.old.handoff ≡ handoff.now)
        × (pass.old.names ≡ names_under policy.now directory.now) }
    requires workers { (1 ≤ workers) × (workers ≤ 16) }
    ensures parts { (result ≡ Err TooManyParts) ↔ (most_parts < vec_len sources) }
    ensures outcome { IsAuditResult (names_under policy.now directory.now) (map (λ s. s.name)
        sources.items)
        (map (λ s. F.ahead s.reader) sources.items) workers pass.old pass.new result }
{
    if sources.len() > MOST_PARTS {
        return Err(AuditFault::TooManyParts);
    }
    let index = RuleIndex::of(alloc, policy)?;
    let wakes = Wakes::new();
    let shared = Shared {
        alloc,
        policy,
        index: &index,
        directory,
        handoff,
        wakes: &wakes,
    };
    let audited = audit_sources(rt, shared, gate, pass, sources, workers);
    drop(index);
    audited
}
