//! Starts the workers of an audit, and joins them.
ghost use Rattle.std.specs.Prelude.{◌≡◌, ◌+◌, ◌≤◌, List, All, IfSome, vec_len, vec_capacity, IsTrue};
ghost use Rattle.audit_run.specs.Names.{names_under};
ghost use Rattle.audit_run.specs.declared.message.Job.{Job};
ghost use Rattle.audit_run.specs.Body.FreshPasses.{fresh};
ghost use Rattle.audit_run.specs.Body.Work.{HasWorked, joined_workers};
ghost use Rattle.sudo_verdict.specs.Postings.{Indexes};

use crate::Pass;
use crate::gate::Gate;
use crate::shared::Shared;
use crate::worker::work;
use std::snapshot::Snapshot;
use std::sync::Wait;
use std::thread::{Promise, PromisedHandle, Scope, Threads};

/// The promise of a worker's thread: it puts the answer of each job that it takes, once.
#[derive(Drop)]
pub struct WorkerRan {
    pub before: Snapshot<Pass>,
}

impl Promise<Pass> for WorkerRan {
    ghost kept_by = { λ p r. HasWorked p.before.value r };
}

/// The handle of a worker's thread.
pub type WorkerHandle = PromisedHandle<Pass, WorkerRan>;

fn start_worker<'s, 'e: 's, R: Threads + Wait + Sync, G: Gate + Sync>(
    rt: &'e R,
    scope: &Scope<'s, &'e ()>,
    shared: Shared<'e>,
    gate: &'e G,
    pass: Pass,
) -> Option<WorkerHandle>
    requires pass { pass.handoff ≡ shared.handoff.now }
    requires names { pass.names ≡ names_under shared.policy.now shared.directory.now }
    requires index { Indexes shared.policy.now shared.index.now }
    ensures { IfSome result (λ h. h.promise.before.value ≡ pass) }
{
    let promise = WorkerRan {
        before: Snapshot::of(&pass),
    };
    // The closure captures plain references: if it captured the whole value, `spawn_with` would
    // lose its contract.
    let Shared {
        alloc,
        policy,
        index,
        directory,
        handoff,
        wakes,
    } = shared;
    let body = move || -> Pass
        requires pass { pass.handoff ≡ handoff.now }
        requires names { pass.names ≡ names_under policy.now directory.now }
        requires index { Indexes policy.now index.now }
        ensures { HasWorked pass result }
    {
        let shared = Shared {
            alloc,
            policy,
            index,
            directory,
            handoff,
            wakes,
        };
        work(rt, shared, gate, pass)
    };
    scope.spawn_with(promise, body).ok()
}

/// Starts a worker for each pass, and appends its handle, for which `handles` needs capacity.
/// Returns false if one could not be started, and then starts no further one.
pub fn start_workers<'s, 'e: 's, R: Threads + Wait + Sync, G: Gate + Sync>(
    rt: &'e R,
    scope: &Scope<'s, &'e ()>,
    shared: Shared<'e>,
    gate: &'e G,
    passes: Vec<Pass>,
    handles: &mut Vec<WorkerHandle>,
) -> bool
    requires passes { All (λ p. p ≡ fresh shared.handoff.now shared.policy.now shared.directory.now)
        passes.items }
    requires fresh { All (λ h. h.promise.before.value
        ≡ fresh shared.handoff.now shared.policy.now shared.directory.now) handles.old.items }
    requires index { Indexes shared.policy.now shared.index.now }
    requires room { vec_len handles.old + vec_len passes ≤ vec_capacity handles.old }
    ensures fresh { All (λ h. h.promise.before.value
        ≡ fresh shared.entry.handoff.now shared.entry.policy.now shared.entry.directory.now)
        handles.new.items }
    ensures all { IsTrue result → vec_len handles.new ≡ vec_len handles.old + vec_len passes }
{
    for pass in passes {
        let Some(handle) = start_worker(rt, scope, shared, gate, pass) else {
            return false;
        };
        let Ok(()) = handles.push(handle) else {
            unreachable!()
        };
    }
    true
}

/// Joins the workers and their passes.
pub fn join_workers<R: Threads + Wait>(
    rt: &R,
    shared: Shared<'_>,
    pass: &mut Pass,
    handles: Vec<WorkerHandle>,
)
    requires pass { pass.old.handoff ≡ shared.handoff.now }
    requires fresh { All (λ h. h.promise.before.value
        ≡ fresh shared.handoff.now shared.policy.now shared.directory.now) handles.items }
    ensures { (jobs : List Job) × (pass.new ≡ joined_workers
        (names_under shared.entry.policy.now shared.entry.directory.now) pass.old
        (vec_len handles) jobs) }
{
    for handle in handles {
        let other = handle.join(rt);
        pass.join(rt, shared.handoff, other);
    }
}
