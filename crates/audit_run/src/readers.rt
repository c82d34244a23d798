//! Starts a thread for each source of requests, and joins them.
ghost use Rattle.std.specs.Prelude.{◌≡◌, [], ◌∷◌, ℕ, ◌+◌, ◌≤◌, List, All, IfSome, Some, map, vec_len, vec_capacity, IsTrue};
ghost use Rattle.audit_run.specs.declared.message.Job.{Job};
ghost use Rattle.audit_run.specs.declared.message.Job.TheVariants.{End};
ghost use Rattle.audit_run.specs.Parts.{HavePut, Stated, fault_in};
ghost use Rattle.audit_run.specs.Body.FreshPasses.{IsFresh};
ghost use Rattle.audit_run.specs.Body.Work.{AreParts, HasSent, HasSentText, joined_sources, part_ahead, putting_jobs};

use crate::sender::{put_end, send, send_rows};
use crate::shared::Shared;
use crate::source::Part;
use crate::wakes::Wakes;
use crate::{Handoff, Pass};
use audit_files::{Feed, FileFault, RequestRows, read_text};
use std::alloc::Global;
use std::snapshot::Snapshot;
use std::sync::Wait;
use std::thread::{Promise, PromisedHandle, Scope, Threads};

/// The result of a source's thread: its pass, and the fault of the source, if it is refused.
#[derive(Drop)]
pub struct Sent {
    pub pass: Pass,
    pub fault: Option<FileFault>,
}

/// The promise of a source's thread: it puts the jobs of what its source states, or some requests and
/// `End` if the source is refused.
#[derive(Drop)]
pub struct SourceRan<F> {
    pub before: Snapshot<Pass>,
    pub owner: u32,
    pub reader: Snapshot<F>,
}

impl<F: Feed> Promise<Sent> for SourceRan<F> {
    ghost kept_by = { λ p r. HasSent (F.ahead p.reader.value) p.before.value p.owner r };
}

/// The handle of a source's thread.
pub type ReaderHandle<F> = PromisedHandle<Sent, SourceRan<F>>;

// Puts `End` for a source that is refused.
fn refuse<R: Wait>(
    rt: &R,
    handoff: &Handoff,
    wakes: &Wakes,
    mut pass: Pass,
    owner: u32,
    fault: FileFault,
) -> Sent
    requires { pass.handoff ≡ handoff.now }
    ensures { (result.pass ≡ putting_jobs pass (End owner ∷ [])) × (result.fault ≡ Some fault) }
{
    put_end(rt, handoff, wakes, &mut pass, owner);
    Sent {
        pass,
        fault: Some(fault),
    }
}

// Puts the jobs of the text of a source, its requests as they are read.
fn send_text<R: Wait>(
    alloc: Global,
    rt: &R,
    handoff: &Handoff,
    wakes: &Wakes,
    mut pass: Pass,
    owner: u32,
    text: Vec<u8>,
) -> Sent
    requires { pass.handoff ≡ handoff.now }
    ensures { HasSentText text.items pass owner result }
{
    let mut rows = RequestRows::of(alloc, text);
    match send_rows(rt, handoff, wakes, &mut pass, owner, &mut rows) {
        Ok(()) => match rows.rest() {
            Ok(left) => Sent {
                pass: send(rt, handoff, wakes, pass, owner, left),
                fault: None,
            },
            Err(fault) => refuse(rt, handoff, wakes, pass, owner, fault),
        },
        Err(_) => refuse(rt, handoff, wakes, pass, owner, FileFault::Memory),
    }
}

// Reads the source and puts its jobs.
fn read_and_send<R: Wait, F: Feed + Drop>(
    alloc: Global,
    rt: &R,
    handoff: &Handoff,
    wakes: &Wakes,
    pass: Pass,
    part: Part<F>,
) -> Sent
    requires { pass.handoff ≡ handoff.now }
    ensures { HasSent (F.ahead part.reader) pass part.owner result }
{
    let Part { owner, mut reader } = part;
    match read_text(alloc, &mut reader) {
        Ok(text) => send_text(alloc, rt, handoff, wakes, pass, owner, text),
        Err(fault) => refuse(rt, handoff, wakes, pass, owner, fault),
    }
}

fn start_reader<'s, 'e: 's, R: Threads + Wait + Sync, F: Feed + Drop + Send + 'e>(
    alloc: Global,
    rt: &'e R,
    scope: &Scope<'s, &'e ()>,
    handoff: &'e Handoff,
    wakes: &'e Wakes,
    pass: Pass,
    part: Part<F>,
) -> Option<ReaderHandle<F>>
    requires { pass.handoff ≡ handoff.now }
    ensures before { IfSome result (λ h. h.promise.before.value ≡ pass) }
    ensures readable_bytes { IfSome result (λ h. part_ahead h.promise.owner (F.ahead
        h.promise.reader.value)
        ≡ part_ahead part.owner (F.ahead part.reader)) }
{
    let promise = SourceRan {
        before: Snapshot::of(&pass),
        owner: part.owner,
        reader: Snapshot::of(&part.reader),
    };
    let body = move || -> Sent
        requires { pass.handoff ≡ handoff.now }
        ensures { HasSent (F.ahead part.reader) pass part.owner result }
    { read_and_send(alloc, rt, handoff, wakes, pass, part) };
    scope.spawn_with(promise, body).ok()
}

/// Starts a thread for each source, and appends its handle, for which `handles` needs capacity.
/// Returns false if one could not be started, and then starts no further one.
pub fn start_readers<'s, 'e: 's, R: Threads + Wait + Sync, F: Feed + Drop + Send + 'e>(
    rt: &'e R,
    scope: &Scope<'s, &'e ()>,
    shared: Shared<'e>,
    mut passes: Vec<Pass>,
    parts: Vec<Part<F>>,
    handles: &mut Vec<ReaderHandle<F>>,
) -> bool
    requires passes { All (λ p. IsFresh shared.handoff.now p) passes.items
        × (vec_len passes ≡ vec_len parts) }
    requires room { (vec_len parts ≤ vec_capacity handles.old) × (vec_len handles.old ≡ 0) }
    ensures fresh { All (λ h. IsFresh shared.entry.handoff.now h.promise.before.value)
        handles.new.items }
    ensures few { vec_len handles.new ≤ vec_len parts }
    ensures all { IsTrue result → map (λ h. part_ahead h.promise.owner
        (F.ahead h.promise.reader.value)) handles.new.items
        ≡ map (λ p. part_ahead p.owner (F.ahead p.reader)) parts.items }
{
    let Shared {
        alloc,
        handoff,
        wakes,
        ..
    } = shared;
    for part in parts {
        let Some(pass) = passes.pop() else {
            unreachable!()
        };
        let Some(handle) = start_reader(alloc, rt, scope, handoff, wakes, pass, part) else {
            return false;
        };
        let Ok(()) = handles.push(handle) else {
            unreachable!()
        };
    }
    true
}

/// Joins the threads of the sources and their passes, and appends the fault of each source, if it
/// is refused, for which `faults` needs capacity.
pub fn join_readers<R: Threads + Wait, F: Feed>(
    rt: &R,
    handoff: &Handoff,
    pass: &mut Pass,
    handles: Vec<ReaderHandle<F>>,
    faults: &mut Vec<Option<FileFault>>,
)
    requires pass { pass.old.handoff ≡ handoff.now }
    requires fresh { All (λ h. IsFresh handoff.now h.promise.before.value) handles.items }
    requires empty { faults.old.items ≡ [] }
    requires room { vec_len faults.old + vec_len handles ≤ vec_capacity faults.old }
    ensures { (parts : List (ℕ × Stated)) × (put : List Job) × AreParts
        (map (λ h. part_ahead h.promise.owner (F.ahead h.promise.reader.value)) handles.items) parts
        × (pass.new ≡ joined_sources pass.old (vec_len handles) put)
        × HavePut parts put
        × (faults.new.items ≡ map (λ part. fault_in part.1) parts) }
{
    for handle in handles {
        let Sent { pass: other, fault } = handle.join(rt);
        pass.join(rt, handoff, other);
        let Ok(()) = faults.push(fault) else {
            unreachable!()
        };
    }
}
