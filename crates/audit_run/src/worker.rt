//! A worker, which takes jobs and puts their outcomes.
ghost use Rattle.std.specs.Prelude.{◌≡◌, ◌∷◌, ◌++◌, [], List, IfSome, MatchOption};
ghost use Rattle.audit_run.specs.Names.{names_under, answer, IsRight};
ghost use Rattle.audit_run.specs.Passes.{with_job_taken, with_outcome_put};
ghost use Rattle.audit_run.specs.declared.message.Job.{Job};
ghost use Rattle.audit_run.specs.Body.Work.{after_work, is_not_stop};
ghost use Rattle.sudo_verdict.specs.Postings.{Indexes};

use crate::gate::Gate;
use crate::shared::Shared;
use crate::wakes::{Need, Tries};
use crate::{Handoff, Job, Outcome, Pass};
use audit_collect::{Answer, Arrival};
use std::sync::Wait;
use sudo_match::Request;

// Puts the outcome of the slot. Waits while the queue is full.
fn put_trying<R: Wait>(
    rt: &R,
    handoff: &Handoff,
    tries: &mut Tries<'_>,
    pass: &mut Pass,
    slot: &mut Option<Outcome>,
)
    requires pass { pass.old.handoff ≡ handoff.now }
    requires verdict { IfSome slot.old (IsRight pass.old.names) }
    ensures { IfSome slot.old (λ outcome. pass.new ≡ with_outcome_put pass.old outcome) }
{
    for _ in rt.forever() {
        if handoff.put_outcome_from(rt, pass, slot) {
            return;
        }
        tries.failed(rt);
    }
    unreachable!()
}

// Puts an outcome. A function of its own owns the tries, so that those with loops own less.
fn put_outcome_waiting<R: Wait>(rt: &R, shared: Shared<'_>, pass: &mut Pass, outcome: Outcome)
    requires pass { pass.old.handoff ≡ shared.handoff.now }
    requires verdict { IsRight pass.old.names outcome }
    ensures { pass.new ≡ with_outcome_put pass.old outcome }
{
    let mut tries = Tries::new(shared.wakes, Need::OutcomeRoom);
    let mut slot = Some(outcome);
    put_trying(rt, shared.handoff, &mut tries, pass, &mut slot);
}

// Takes a job into the slot. Waits while there is none.
fn take_trying<R: Wait>(
    rt: &R,
    handoff: &Handoff,
    tries: &mut Tries<'_>,
    pass: &mut Pass,
    slot: &mut Option<Job>,
)
    requires { pass.old.handoff ≡ handoff.now }
    ensures { MatchOption slot.new ⊥ (λ job. pass.new ≡ with_job_taken pass.old job) }
{
    for _ in rt.forever() {
        handoff.take_job_into(rt, pass, slot);
        if slot.is_some() {
            return;
        }
        tries.failed(rt);
    }
    unreachable!()
}

// Takes a job into the slot.
fn take_job_waiting<R: Wait>(rt: &R, shared: Shared<'_>, pass: &mut Pass, slot: &mut Option<Job>)
    requires { pass.old.handoff ≡ shared.handoff.now }
    ensures { MatchOption slot.new ⊥ (λ job. pass.new ≡ with_job_taken pass.old job) }
{
    let mut tries = Tries::new(shared.wakes, Need::Job);
    take_trying(rt, shared.handoff, &mut tries, pass, slot);
}

// Judges a request and puts the answer, between the two calls of the gate.
fn answer_request<R: Wait, G: Gate>(
    rt: &R,
    shared: Shared<'_>,
    gate: &G,
    pass: &mut Pass,
    sender: u32,
    request: Request,
)
    requires pass { pass.old.handoff ≡ shared.handoff.now }
    requires names { pass.old.names ≡ names_under shared.policy.now shared.directory.now }
    requires index { Indexes shared.policy.now shared.index.now }
    ensures { pass.new ≡ with_outcome_put pass.old
        (answer (names_under shared.entry.policy.now shared.entry.directory.now)
        (Job.Ask sender request)) }
{
    let Shared {
        policy,
        index,
        directory,
        ..
    } = shared;
    let number = request.number;
    gate.before(sender, number);
    let verdict = index.verdict(policy, directory, &request);
    let reply = Answer {
        sender,
        request,
        verdict,
    };
    put_outcome_waiting(rt, shared, pass, Outcome::Arrived(Arrival::Reply(reply)));
    gate.after(sender, number);
}

/// Puts the outcome of a job.
pub fn answer_job<R: Wait, G: Gate>(rt: &R, shared: Shared<'_>, gate: &G, pass: &mut Pass, job: Job)
    requires pass { pass.old.handoff ≡ shared.handoff.now }
    requires names { pass.old.names ≡ names_under shared.policy.now shared.directory.now }
    requires index { Indexes shared.policy.now shared.index.now }
    ensures { pass.new ≡ with_outcome_put pass.old
        (answer (names_under shared.entry.policy.now shared.entry.directory.now) job) }
{
    let outcome = match job {
        Job::Ask { sender, request } => {
            return answer_request(rt, shared, gate, pass, sender, request);
        }
        Job::Close { sender, count } => Outcome::Arrived(Arrival::Close { sender, count }),
        Job::End { sender } => Outcome::End { sender },
        Job::Stop => Outcome::Stopped,
    };
    put_outcome_waiting(rt, shared, pass, outcome);
}

// Takes a job and puts its outcome. Returns false for `Stop`.
fn answer_next<R: Wait, G: Gate>(
    rt: &R,
    shared: Shared<'_>,
    gate: &G,
    pass: &mut Pass,
    slot: &mut Option<Job>,
) -> bool
    requires pass { pass.old.handoff ≡ shared.handoff.now }
    requires names { pass.old.names ≡ names_under shared.policy.now shared.directory.now }
    requires index { Indexes shared.policy.now shared.index.now }
    ensures { (job : Job) × (result ≡ is_not_stop job) × (pass.new ≡ after_work
        (names_under shared.entry.policy.now shared.entry.directory.now) pass.old (job ∷ [])) }
{
    take_job_waiting(rt, shared, pass, slot);
    let Some(job) = slot.take() else {
        unreachable!()
    };
    let goes_on = !matches!(job, Job::Stop);
    answer_job(rt, shared, gate, pass, job);
    goes_on
}

/// Takes jobs and puts their outcomes, up to and including `Stop`.
pub fn work<R: Wait, G: Gate>(rt: &R, shared: Shared<'_>, gate: &G, mut pass: Pass) -> Pass
    requires pass { pass.handoff ≡ shared.handoff.now }
    requires names { pass.names ≡ names_under shared.policy.now shared.directory.now }
    requires index { Indexes shared.policy.now shared.index.now }
    ensures { (jobs : List Job) × (result ≡ after_work
        (names_under shared.entry.policy.now shared.entry.directory.now) pass
        (jobs ++ Job.Stop ∷ [])) }
{
    let mut messages = 0u32;
    let mut slot = None;
    for _ in rt.forever() {
        messages = messages.wrapping_add(1);
        if !answer_next(rt, shared, gate, &mut pass, &mut slot) {
            shared.wakes.wake_all(Need::Job);
            return pass;
        }
        shared.wakes.count(Need::Job, messages);
    }
    unreachable!()
}
