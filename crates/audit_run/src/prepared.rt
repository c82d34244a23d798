//! The resources of a run, made before any of its threads starts.
ghost use Rattle.std.specs.Prelude.{◌≡◌, ◌+◌, ◌<◌, None, All, IfOk, vec_len};
ghost use Rattle.audit_run.specs.Names.{names_under};
ghost use Rattle.audit_run.specs.Passes.{split_off};
ghost use Rattle.audit_run.specs.Body.FreshPasses.{after_splits};
ghost use Rattle.audit_run.specs.Body.Run.{IsReady};

use crate::gather::Gathering;
use crate::shared::Shared;
use crate::workers::WorkerHandle;
use crate::{Handoff, Pass};
use audit_collect::Collector;
use audit_files::FileFault;
use std::alloc::{AllocError, Global};
use std::sync::Wait;

/// The state before a run: a pass for the caller and one for each thread, and capacity for the
/// results of the threads.
#[derive(Drop)]
pub struct PreparedRun {
    pub pass: Pass,
    pub gathering: Gathering,
    pub source_passes: Vec<Pass>,
    pub worker_passes: Vec<Pass>,
    pub workers: Vec<WorkerHandle>,
    pub faults: Vec<Option<FileFault>>,
}

/// The state after a run. All threads that were started are joined.
#[derive(Drop)]
pub struct EndedRun {
    pub pass: Pass,
    pub gathering: Gathering,
    pub faults: Vec<Option<FileFault>>,
    pub all_started: bool,
}

// Splits off a pass for each of `count` threads.
fn split_passes<R: Wait>(
    alloc: Global,
    rt: &R,
    handoff: &Handoff,
    pass: &mut Pass,
    count: usize,
) -> Result<Vec<Pass>, AllocError>
    requires pass { pass.old.handoff ≡ handoff.now }
    requires weight { count < pass.old.weight }
    ensures { IfOk result (λ v. (vec_len v ≡ count) × All (λ p. p ≡ split_off pass.old) v.items
        × (pass.new ≡ after_splits pass.old count)) }
{
    let mut passes = Vec::with_capacity(alloc, count)?;
    for _index in 0..count {
        passes.push(pass.split(rt, handoff))?;
    }
    Ok(passes)
}

/// Splits off the passes of a run with these numbers of sources and workers, and reserves capacity
/// for the results of their threads. Returns `AllocError` if allocation failed.
pub fn prepare<R: Wait>(
    rt: &R,
    shared: Shared<'_>,
    pass: &mut Pass,
    collector: Collector,
    sources: usize,
    workers: usize,
) -> Result<PreparedRun, AllocError>
    requires pass { (pass.old.handoff ≡ shared.handoff.now)
        × (pass.old.names ≡ names_under shared.policy.now shared.directory.now) }
    requires weight { (sources + workers) + 1 < pass.old.weight }
    ensures ready { IfOk result (λ prepared. IsReady shared.entry.handoff.now
        shared.entry.policy.now
        shared.entry.directory.now sources
        prepared) }
    ensures workers { IfOk result (λ prepared. vec_len prepared.worker_passes ≡ workers) }
    ensures gathering { IfOk result (λ prepared. (prepared.gathering.collector ≡ collector)
        × (prepared.gathering.refused ≡ None)) }
    ensures passes { IfOk result (λ prepared. (prepared.pass ≡ split_off pass.old)
        × (pass.new ≡ after_splits pass.old ((sources + workers) + 1))) }
{
    let Shared { alloc, handoff, .. } = shared;
    let source_passes = split_passes(alloc, rt, handoff, pass, sources)?;
    let worker_passes = split_passes(alloc, rt, handoff, pass, workers)?;
    let workers = Vec::with_capacity(alloc, workers)?;
    let faults = Vec::with_capacity(alloc, sources)?;
    Ok(PreparedRun {
        pass: pass.split(rt, handoff),
        gathering: Gathering {
            collector,
            refused: None,
            sources_running: 0,
            workers_running: 0,
        },
        source_passes,
        worker_passes,
        workers,
        faults,
    })
}
