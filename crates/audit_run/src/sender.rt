//! What the thread of a source does: puts the jobs of one requests file.
ghost use Rattle.std.specs.Prelude.{◌≡◌, [], ℕ, List, IfSome, OnOk, map};
ghost use Rattle.audit_files.specs.RequestRows.{HasRead};
ghost use Rattle.audit_run.specs.Passes.{with_job_put};
ghost use Rattle.audit_run.specs.Parts.{asking, jobs_of};
ghost use Rattle.audit_run.specs.declared.message.Job.TheVariants.{End};
ghost use Rattle.audit_run.specs.Body.Work.{putting_jobs};
ghost use Rattle.sudo_match.specs.declared.request.Request.{Request};

use crate::wakes::{Need, Tries, Wakes};
use crate::{Handoff, Job, Pass};
use audit_files::{RequestRows, Requests};
use std::alloc::AllocError;
use std::sync::Wait;
use sudo_match::Request;

// The number of messages after which a sender gives back the room of its requests.
const GIVEN_BACK: u32 = 32_768;

// Puts the job of the slot. Waits while the queue is full.
fn put_waiting<R: Wait>(
    rt: &R,
    handoff: &Handoff,
    tries: &mut Tries<'_>,
    pass: &mut Pass,
    slot: &mut Option<Job>,
)
    requires { pass.old.handoff ≡ handoff.now }
    ensures { IfSome slot.old (λ job. pass.new ≡ with_job_put pass.old job) }
{
    for _ in rt.forever() {
        if handoff.put_job_from(rt, pass, slot) {
            return;
        }
        tries.failed(rt);
    }
    unreachable!()
}

// Puts a job. A function of its own owns the tries, so that those with loops own less.
fn put_job<R: Wait>(rt: &R, handoff: &Handoff, wakes: &Wakes, pass: &mut Pass, job: Job)
    requires { pass.old.handoff ≡ handoff.now }
    ensures { pass.new ≡ with_job_put pass.old job }
{
    let mut tries = Tries::new(wakes, Need::JobRoom);
    let mut slot = Some(job);
    put_waiting(rt, handoff, &mut tries, pass, &mut slot);
}

/// Puts `End`, and wakes all workers that sleep: the sender puts no further job.
pub fn put_end<R: Wait>(rt: &R, handoff: &Handoff, wakes: &Wakes, pass: &mut Pass, sender: u32)
    requires { pass.old.handoff ≡ handoff.now }
    ensures { pass.new ≡ with_job_put pass.old (End sender) }
{
    put_job(rt, handoff, wakes, pass, Job::End { sender });
    wakes.wake_all(Need::JobRoom);
}

// Gives back the room of the requests that were put, after each batch of messages.
fn give_back(left: &mut Vec<Request>, messages: u32)
    ensures { left.new.items ≡ left.old.items }
{
    if messages % GIVEN_BACK == 0 {
        left.shrink_to_fit();
    }
}

/// Puts the requests of the rows, each as it is read, up to where the others are read at once. Fails
/// only if allocation failed.
pub fn send_rows<R: Wait>(
    rt: &R,
    handoff: &Handoff,
    wakes: &Wakes,
    pass: &mut Pass,
    sender: u32,
    rows: &mut RequestRows,
) -> Result<(), AllocError>
    requires { pass.old.handoff ≡ handoff.now }
    ensures { (sent : List Request) × (pass.new ≡ putting_jobs pass.old (asking sender sent))
        × OnOk result ((text : List ℕ) → HasRead rows.old text [] → HasRead rows.new text sent) }
{
    let mut messages = 0u32;
    for _ in rt.forever() {
        let Some(request) = rows.next()? else {
            return Ok(());
        };
        put_job(rt, handoff, wakes, pass, Job::Ask { sender, request });
        messages = messages.wrapping_add(1);
        wakes.count(Need::JobRoom, messages);
    }
    unreachable!()
}

/// Puts the requests in order, the close mark if there is one, and `End`.
pub fn send<R: Wait>(
    rt: &R,
    handoff: &Handoff,
    wakes: &Wakes,
    mut pass: Pass,
    sender: u32,
    requests: Requests,
) -> Pass
    requires { pass.handoff ≡ handoff.now }
    ensures { result ≡ putting_jobs pass (jobs_of sender requests) }
{
    let Requests { list, close } = requests;
    let mut left = list.into_vec();
    left.reverse();
    let mut messages = 0u32;
    while let Some(request) = left.pop() {
        put_job(rt, handoff, wakes, &mut pass, Job::Ask { sender, request });
        messages = messages.wrapping_add(1);
        wakes.count(Need::JobRoom, messages);
        give_back(&mut left, messages);
    }
    if let Some(count) = close {
        put_job(rt, handoff, wakes, &mut pass, Job::Close { sender, count });
    }
    put_end(rt, handoff, wakes, &mut pass, sender);
    pass
}
