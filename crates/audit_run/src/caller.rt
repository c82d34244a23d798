//! The caller's part while the threads run: takes outcomes, offers arrivals to the collector, stops
//! the workers.
ghost use Rattle.std.specs.Prelude.{◌≡◌, [], ◌∷◌, false, replicate};
ghost use Rattle.audit_run.specs.Names.{names_under};
ghost use Rattle.audit_run.specs.Passes.{IsOnlyPass, OutcomesLeft, JobsLeft};
ghost use Rattle.audit_run.specs.declared.message.Job.TheVariants as job;
ghost use Rattle.audit_run.specs.declared.message.Outcome.TheVariants.{Arrived};
ghost use Rattle.audit_run.specs.Body.Gathered.{Conducts, Drains, Gathers, HasGatheredAll, HasSameCounts, running_of};
ghost use Rattle.sudo_verdict.specs.Postings.{Indexes};

use crate::gate::Gate;
use crate::gather::{Awaited, Gathering};
use crate::shared::Shared;
use crate::wakes::{Need, Tries, Wakes};
use crate::worker::answer_job;
use crate::{Handoff, Job, Outcome, Pass};
use audit_collect::Arrival;
use std::sync::Wait;

// Offers an arrival to the collector, unless one was refused before.
fn offer(gathering: &mut Gathering, arrival: Arrival)
    ensures gathers { Gathers gathering.old (Arrived arrival ∷ []) gathering.new }
    ensures counts { HasSameCounts gathering.old gathering.new }
{
    if gathering.refused.is_some() {
        return;
    }
    if let Err((_, why)) = gathering.collector.offer(arrival) {
        gathering.refused = Some(why);
    }
}

// Takes an outcome, and counts its thread as ended or offers its arrival. Returns whether there was
// one; if not, there was none at one moment of the call.
fn gather_one<R: Wait>(
    rt: &R,
    handoff: &Handoff,
    pass: &mut Pass,
    gathering: &mut Gathering,
) -> bool
    requires { pass.old.handoff ≡ handoff.now }
    ensures taken { Conducts pass.old gathering.old [] pass.new gathering.new }
    ensures left { IsOnlyPass pass.old → result ≡ false
        → (pass.new ≡ pass.old) × OutcomesLeft pass.old [] }
{
    match handoff.take_outcome(rt, pass) {
        None => return false,
        Some(Outcome::Arrived(arrival)) => offer(gathering, arrival),
        Some(Outcome::End { sender: _ }) => {
            gathering.sources_running = gathering.sources_running.saturating_sub(1);
        }
        Some(Outcome::Stopped) => {
            gathering.workers_running = gathering.workers_running.saturating_sub(1);
        }
    }
    true
}

// Gathers an outcome if there is one; otherwise backs off.
fn gather_or_wait<R: Wait>(
    rt: &R,
    handoff: &Handoff,
    tries: &mut Tries<'_>,
    pass: &mut Pass,
    gathering: &mut Gathering,
)
    requires { pass.old.handoff ≡ handoff.now }
    ensures { Conducts pass.old gathering.old [] pass.new gathering.new }
{
    if gather_one(rt, handoff, pass, gathering) {
        tries.succeeded();
    } else {
        tries.failed(rt);
    }
}

// Gathers until none of the awaited threads runs.
fn gather_until_ended<R: Wait>(
    rt: &R,
    handoff: &Handoff,
    tries: &mut Tries<'_>,
    pass: &mut Pass,
    gathering: &mut Gathering,
    awaited: Awaited,
)
    requires { pass.old.handoff ≡ handoff.now }
    ensures taken { Conducts pass.old gathering.old [] pass.new gathering.new }
    ensures ended { running_of awaited gathering.new ≡ 0 }
{
    for _ in rt.forever() {
        if gathering.running(awaited) == 0 {
            return;
        }
        gather_or_wait(rt, handoff, tries, pass, gathering);
    }
    unreachable!()
}

// Puts `Stop`, and wakes all workers that sleep. While the queue of jobs is full, gathers between
// attempts: each job that a worker takes from it gives an outcome, so the wait for one ends.
fn put_stop<R: Wait>(
    rt: &R,
    handoff: &Handoff,
    wakes: &Wakes,
    tries: &mut Tries<'_>,
    pass: &mut Pass,
    gathering: &mut Gathering,
)
    requires { pass.old.handoff ≡ handoff.now }
    ensures { Conducts pass.old gathering.old (job.Stop ∷ []) pass.new gathering.new }
{
    for _ in rt.forever() {
        match handoff.put_job(rt, pass, Job::Stop) {
            Ok(()) => {
                wakes.wake_all(Need::JobRoom);
                return;
            }
            Err(_full) => {
                wakes.wake_all(Need::JobRoom);
                gather_or_wait(rt, handoff, tries, pass, gathering);
            }
        }
    }
    unreachable!()
}

fn put_stops<R: Wait>(
    rt: &R,
    handoff: &Handoff,
    wakes: &Wakes,
    tries: &mut Tries<'_>,
    pass: &mut Pass,
    gathering: &mut Gathering,
    workers: usize,
)
    requires { pass.old.handoff ≡ handoff.now }
    ensures { Conducts pass.old gathering.old (replicate workers job.Stop) pass.new gathering.new }
{
    for _stopped in 0..workers {
        put_stop(rt, handoff, wakes, tries, pass, gathering);
    }
}

/// Gathers until as many sources have ended as there are, stops the workers, and gathers until as many
/// of them have stopped. Counts each outcome when it is taken, so their order does not matter.
pub fn gather_all<R: Wait>(
    rt: &R,
    handoff: &Handoff,
    wakes: &Wakes,
    pass: &mut Pass,
    gathering: &mut Gathering,
    sources: usize,
    workers: usize,
)
    requires { pass.old.handoff ≡ handoff.now }
    ensures { HasGatheredAll pass.old gathering.old sources workers
        (replicate workers job.Stop) pass.new gathering.new }
{
    gathering.sources_running = sources;
    gathering.workers_running = workers;
    let mut tries = Tries::new(wakes, Need::Outcome);
    let tries = &mut tries;
    gather_until_ended(rt, handoff, tries, pass, gathering, Awaited::Sources);
    put_stops(rt, handoff, wakes, tries, pass, gathering, workers);
    gather_until_ended(rt, handoff, tries, pass, gathering, Awaited::Workers);
}

// Gathers until no outcome is left.
fn gather_rest<R: Wait>(rt: &R, handoff: &Handoff, pass: &mut Pass, gathering: &mut Gathering)
    requires { pass.old.handoff ≡ handoff.now }
    ensures taken { Conducts pass.old gathering.old [] pass.new gathering.new }
    ensures left { IsOnlyPass pass.old → OutcomesLeft pass.new [] }
{
    for _ in rt.forever() {
        if !gather_one(rt, handoff, pass, gathering) {
            return;
        }
    }
    unreachable!()
}

/// Answers each job that is left as a worker does, and gathers all outcomes that are left.
pub fn drain<R: Wait, G: Gate>(
    rt: &R,
    shared: Shared<'_>,
    gate: &G,
    pass: &mut Pass,
    gathering: &mut Gathering,
)
    requires pass { pass.old.handoff ≡ shared.handoff.now }
    requires names { pass.old.names ≡ names_under shared.policy.now shared.directory.now }
    requires index { Indexes shared.policy.now shared.index.now }
    ensures taken { Drains (names_under shared.entry.policy.now shared.entry.directory.now) pass.old
        gathering.old
        pass.new
        gathering.new }
    ensures left { IsOnlyPass pass.old → JobsLeft pass.new [] × OutcomesLeft pass.new [] }
{
    for _ in rt.forever() {
        gather_rest(rt, shared.handoff, pass, gathering);
        match shared.handoff.take_job(rt, pass) {
            Some(job) => answer_job(rt, shared, gate, pass, job),
            None => return,
        }
    }
    unreachable!()
}
