//! The two queues between the threads of an audit, and the passes with which threads use them.
ghost use Rattle.std.specs.Prelude.{◌≡◌, ◌<◌, ◌≤◌, List, Some, None, true, IfOk, IfSome, MatchResult, MatchOption, length, [], ◌∷◌};
ghost use Rattle.std.specs.Bool.{MatchBool};
ghost use Rattle.audit_run.specs.Names.{names_under, IsRight};
ghost use Rattle.audit_run.specs.Passes.{new_pass, with_job_put, with_job_taken, with_outcome_put};
ghost use Rattle.audit_run.specs.Passes.{with_outcome_taken, after_split, split_off, with_joined, IsEmpty};
ghost use Rattle.audit_run.specs.Passes.{IsOnlyPass, JobsLeft, OutcomesLeft};
ghost use Rattle.audit_run.specs.declared.message.Job.{Job};
ghost use Rattle.audit_run.specs.declared.message.Outcome.{Outcome};

use crate::message::{Job, Names, Outcome};
use crate::rule;
use crate::rule::{Naming, QueuePass, RuledQueue};
use std::alloc::{AllocError, Global};
use std::marker::{Brand, Model};
use std::sync::Wait;
use sudo_match::Directory;
use sudo_policy::Checked;

/// Two queues with 256 places each, one for jobs and one for outcomes. Contracts see the identity
/// of the queues.
///
/// A call returns at once, also if the queue is full or empty; a caller that wants to wait tries
/// again. No call but `new` allocates.
#[derive(Drop)]
pub struct Handoff {
    jobs: RuledQueue<Job, Names>,
    outcomes: RuledQueue<Outcome, Names>,
}

impl Model for Handoff {
    ghost use Rattle.std.specs.Prelude.{◌≡◌};
    ghost use Rattle.crossbeam_queue.specs.Passes.{ruled_capacity};
    ghost use Rattle.audit_run.specs.Passes.{HandoffId};

    ghost Value = { HandoffId };

    ghost view = { λ h. (h.jobs.table.shared.table_id, h.outcomes.table.shared.table_id) };

    ghost invariant = { λ h. (ruled_capacity h.jobs ≡ 256) × (ruled_capacity h.outcomes ≡ 256) };
}

/// The permission of one thread to use a handoff. It holds no data: only contracts see its handoff,
/// its policy and directory, its weight, and the lists of the messages that it has put and taken. A
/// pass of weight 1,024 is whole: it is the only one of its handoff.
#[derive(Drop)]
pub struct Pass {
    jobs: QueuePass<Job, Names>,
    outcomes: QueuePass<Outcome, Names>,
}

impl Model for Pass {
    ghost use Rattle.std.specs.Prelude.{◌≡◌, ◌<◌, IsSome, []};
    ghost use Rattle.crossbeam_queue.specs.Passes.{view as known};
    ghost use Rattle.audit_run.specs.Names.{names_in};
    ghost use Rattle.audit_run.specs.Passes.{PassView};

    ghost Value = { PassView };

    ghost view = { λ p. record {
      handoff = (p.jobs.table_id, p.outcomes.table_id);
      names = names_in
          (known p.jobs).names;
      weight = (known p.jobs).weight;
      jobs_put = (known p.jobs).put;
      jobs_taken = (known p.jobs).taken;
      outcomes_put = (known p.outcomes).put;
      outcomes_taken =
          (known p.outcomes).taken;
    } };

    ghost invariant = { λ p. (p.jobs.me.1 ≡ []) × (p.outcomes.me.1 ≡ [])
        × (0 < (known p.jobs).weight) × ((known p.outcomes).weight ≡ (known p.jobs).weight)
        × ((known p.outcomes).names ≡ (known p.jobs).names) × IsSome (known p.jobs).names };
}

// Creates the queues for the names of `J`, which the call chooses.
fn opened<J: Naming<Names>>(
    alloc: Global,
    policy: &Checked,
    directory: &Directory,
) -> Result<(Handoff, Pass), AllocError>
    requires { J.names ≡ Some (names_under policy.now directory.now) }
    ensures { IfOk result (λ r. r.1 ≡ new_pass r.0 policy.now directory.now) }
{
    let (jobs, jobs_seat) = rule::open::<Job, Names, J>(alloc)?;
    let (outcomes, outcomes_seat) = rule::open::<Outcome, Names, J>(alloc)?;
    let handoff = Handoff { jobs, outcomes };
    let pass = Pass {
        jobs: jobs_seat,
        outcomes: outcomes_seat,
    };
    Ok((handoff, pass))
}

impl Handoff {
    /// Creates an empty handoff and its one pass, which is whole and names the policy and the
    /// directory. Returns `AllocError` if allocation failed.
    pub fn new(
        alloc: Global,
        policy: &Checked,
        directory: &Directory,
    ) -> Result<(Handoff, Pass), AllocError>
        ensures pass { IfOk result (λ r. r.1 ≡ new_pass r.0 policy.now directory.now) }
        ensures empty { IfOk result (λ r. IsEmpty r.1) }
    {
        opened::<Brand>(alloc, policy, directory)
    }

    /// Puts a job. Returns it only if the queue was full at some moment of the call; for a whole
    /// pass, exactly if 256 jobs were left.
    pub fn put_job<R: Wait>(&self, rt: &R, pass: &mut Pass, job: Job) -> Result<(), Job>
        requires pass { pass.old.handoff ≡ self.now }
        ensures answer { MatchResult result (λ _. pass.new ≡ with_job_put pass.old job)
            (λ back. (back ≡ job) × (pass.new ≡ pass.old)) }
        ensures whole { IsOnlyPass pass.old → (left : List Job) × JobsLeft pass.old left
            × MatchResult result (λ _. length left < 256) (λ _. length left ≡ 256) }
    {
        rule::put(rt, &self.jobs, &mut pass.jobs, job)
    }

    /// Takes a job. Returns `None` only if the queue was empty at some moment of the call; for a
    /// whole pass, exactly if none was left.
    pub fn take_job<R: Wait>(&self, rt: &R, pass: &mut Pass) -> Option<Job>
        requires pass { pass.old.handoff ≡ self.now }
        ensures answer { MatchOption result (pass.new ≡ pass.old)
            (λ job. pass.new ≡ with_job_taken pass.old job) }
        ensures whole { IsOnlyPass pass.old → MatchOption result (JobsLeft pass.old [])
            (λ job. (rest : List Job) × JobsLeft pass.old (job ∷ rest)) }
    {
        rule::take(rt, &self.jobs, &mut pass.jobs)
    }

    /// Puts the job of the slot, as `put_job` does, and returns whether the slot is then empty.
    pub(crate) fn put_job_from<R: Wait>(
        &self,
        rt: &R,
        pass: &mut Pass,
        slot: &mut Option<Job>,
    ) -> bool
        requires pass { pass.old.handoff ≡ self.now }
        ensures none { slot.old ≡ None → (result ≡ true) × (slot.new ≡ None)
            × (pass.new ≡ pass.old) }
        ensures answer { IfSome slot.old (λ job. MatchBool result
            ((slot.new ≡ None) × (pass.new ≡ with_job_put pass.old job))
            ((slot.new ≡ slot.old) × (pass.new ≡ pass.old))) }
        ensures whole { IfSome slot.old (λ _. IsOnlyPass pass.old
            → (left : List Job) × JobsLeft pass.old left
            × MatchBool result (length left < 256) (length left ≡ 256)) }
    {
        rule::put_from(rt, &self.jobs, &mut pass.jobs, slot)
    }

    /// Takes a job into the slot, as `take_job` does, in place of what it held.
    pub(crate) fn take_job_into<R: Wait>(&self, rt: &R, pass: &mut Pass, slot: &mut Option<Job>)
        requires pass { pass.old.handoff ≡ self.now }
        ensures answer { MatchOption slot.new (pass.new ≡ pass.old)
            (λ job. pass.new ≡ with_job_taken pass.old job) }
        ensures whole { IsOnlyPass pass.old → MatchOption slot.new (JobsLeft pass.old [])
            (λ job. (rest : List Job) × JobsLeft pass.old (job ∷ rest)) }
    {
        rule::take_into(rt, &self.jobs, &mut pass.jobs, slot);
    }

    /// Puts the outcome of the slot, as `put_outcome` does, and returns whether the slot is then
    /// empty.
    pub(crate) fn put_outcome_from<R: Wait>(
        &self,
        rt: &R,
        pass: &mut Pass,
        slot: &mut Option<Outcome>,
    ) -> bool
        requires pass { pass.old.handoff ≡ self.now }
        requires verdict { IfSome slot.old (IsRight pass.old.names) }
        ensures none { slot.old ≡ None → (result ≡ true) × (slot.new ≡ None)
            × (pass.new ≡ pass.old) }
        ensures answer { IfSome slot.old (λ outcome. MatchBool result
            ((slot.new ≡ None) × (pass.new ≡ with_outcome_put pass.old outcome))
            ((slot.new ≡ slot.old) × (pass.new ≡ pass.old))) }
        ensures whole { IfSome slot.old (λ _. IsOnlyPass pass.old
            → (left : List Outcome) × OutcomesLeft pass.old left
            × MatchBool result (length left < 256) (length left ≡ 256)) }
    {
        rule::put_from(rt, &self.outcomes, &mut pass.outcomes, slot)
    }

    /// Puts an outcome, as `put_job` puts a job. A reply must have the verdict of the pass's policy
    /// and directory.
    pub fn put_outcome<R: Wait>(
        &self,
        rt: &R,
        pass: &mut Pass,
        outcome: Outcome,
    ) -> Result<(), Outcome>
        requires pass { pass.old.handoff ≡ self.now }
        requires verdict { IsRight pass.old.names outcome }
        ensures answer { MatchResult result (λ _. pass.new ≡ with_outcome_put pass.old outcome)
            (λ back. (back ≡ outcome) × (pass.new ≡ pass.old)) }
        ensures whole { IsOnlyPass pass.old → (left : List Outcome) × OutcomesLeft pass.old left
            × MatchResult result (λ _. length left < 256) (λ _. length left ≡ 256) }
    {
        rule::put(rt, &self.outcomes, &mut pass.outcomes, outcome)
    }

    /// Takes an outcome, as `take_job` takes a job. A reply has the verdict of the pass's policy
    /// and directory, whichever thread put it.
    pub fn take_outcome<R: Wait>(&self, rt: &R, pass: &mut Pass) -> Option<Outcome>
        requires pass { pass.old.handoff ≡ self.now }
        ensures answer { MatchOption result (pass.new ≡ pass.old)
            (λ outcome. pass.new ≡ with_outcome_taken pass.old outcome) }
        ensures verdict { IfSome result (IsRight pass.old.names) }
        ensures whole { IsOnlyPass pass.old → MatchOption result (OutcomesLeft pass.old [])
            (λ outcome. (rest : List Outcome) × OutcomesLeft pass.old (outcome ∷ rest)) }
    {
        rule::take(rt, &self.outcomes, &mut pass.outcomes)
    }
}

impl Pass {
    /// Splits off another pass of the handoff, with 1 of the weight.
    pub fn split<R: Wait>(&mut self, _rt: &R, handoff: &Handoff) -> Pass
        requires pass { self.old.handoff ≡ handoff.now }
        requires weight { 2 ≤ self.old.weight }
        ensures { (self.new ≡ after_split self.old) × (result ≡ split_off self.old) }
    {
        Pass {
            jobs: rule::split(&handoff.jobs, &mut self.jobs),
            outcomes: rule::split(&handoff.outcomes, &mut self.outcomes),
        }
    }

    /// Joins a pass of the handoff to this one, with its weight and its lists.
    pub fn join<R: Wait>(&mut self, _rt: &R, handoff: &Handoff, other: Pass)
        requires pass { (self.old.handoff ≡ handoff.now) × (other.handoff ≡ handoff.now) }
        ensures { self.new ≡ with_joined self.old other }
    {
        let Pass { jobs, outcomes } = other;
        rule::join(&handoff.jobs, &mut self.jobs, jobs);
        rule::join(&handoff.outcomes, &mut self.outcomes, outcomes);
    }
}
