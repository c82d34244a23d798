//! The queue of jobs, used by one thread.
ghost use Rattle.std.specs.Prelude.{◌≡◌};

use crate::fixtures::{Ground, make_ground};
use audit_run::{Handoff, Job, Pass};
use std::alloc::Global;
use std::sync::Wait;
use std::test::Fail;

// Puts a close mark with this count, and returns whether that succeeded.
fn puts_close<R: Wait>(rt: &R, handoff: &Handoff, pass: &mut Pass, count: u32) -> bool
    requires { pass.old.handoff ≡ handoff.now }
    ensures { pass.new.handoff ≡ handoff.now }
{
    match handoff.put_job(rt, pass, Job::Close { sender: 0, count }) {
        Ok(()) => true,
        Err(_back) => false,
    }
}

// Puts close marks with the counts 1 to 256, and returns how many succeeded.
fn filled<R: Wait>(rt: &R, handoff: &Handoff, pass: &mut Pass) -> u32
    requires { pass.old.handoff ≡ handoff.now }
    ensures { pass.new.handoff ≡ handoff.now }
{
    let mut put = 0u32;
    for count in 1..257u32 {
        if puts_close(rt, handoff, pass, count) {
            put = put.saturating_add(1);
        }
    }
    put
}

// Whether putting a close mark with the count 257 hands it back.
fn hands_back<R: Wait>(rt: &R, handoff: &Handoff, pass: &mut Pass) -> bool
    requires { pass.old.handoff ≡ handoff.now }
    ensures { pass.new.handoff ≡ handoff.now }
{
    let last = Job::Close {
        sender: 0,
        count: 257,
    };
    match handoff.put_job(rt, pass, last) {
        Ok(()) => false,
        Err(back) => matches!(
            &back,
            Job::Close {
                sender: 0,
                count: 257
            }
        ),
    }
}

// Takes a job, and returns the count of the close mark that it is.
fn taken_count<R: Wait>(rt: &R, handoff: &Handoff, pass: &mut Pass) -> Option<u32>
    requires { pass.old.handoff ≡ handoff.now }
    ensures { pass.new.handoff ≡ handoff.now }
{
    match handoff.take_job(rt, pass)? {
        Job::Close { sender: 0, count } => Some(count),
        _ => None,
    }
}

/// Returns how many of 256 close marks were put, whether the 257th was handed back, and the count of the
/// first one taken.
pub(crate) fn used<R: Wait>(rt: &R, handoff: &Handoff, pass: &mut Pass) -> (u32, bool, Option<u32>)
    requires { pass.old.handoff ≡ handoff.now }
{
    let put = filled(rt, handoff, pass);
    let is_back = hands_back(rt, handoff, pass);
    (put, is_back, taken_count(rt, handoff, pass))
}

// Returns the same for a new handoff.
fn used_by<R: Wait>(
    alloc: Global,
    rt: &R,
    ground: &Ground,
) -> Result<(u32, bool, Option<u32>), Fail> {
    let (handoff, mut pass) = Handoff::new(alloc, &ground.policy, &ground.directory)?;
    Ok(used(rt, &handoff, &mut pass))
}

// A function of its own drops the ground, so that no assertion has to.
fn used_anew<R: Wait>(alloc: Global, rt: &R) -> Result<(u32, bool, Option<u32>), Fail> {
    let ground = make_ground(alloc)?;
    let used = used_by(alloc, rt, &ground);
    drop(ground);
    used
}

#[test]
fn a_full_queue_hands_back(rt: HostRuntime) -> Result<(), Fail> {
    let (put, is_back, first) = used_anew(rt.alloc(), &rt)?;
    assert_eq!(rt; put, 256);
    assert!(rt; is_back);
    assert_eq!(rt; first, Some(1));
    Ok(())
}
