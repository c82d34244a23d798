//! Threads that sleep and wake: many short audits by each number of workers, queues that stay full,
//! and a worker that stands still while others go on. Each audit ends, with the right report.

ghost use Rattle.std.specs.Prelude.{◌≤◌};

use crate::fixtures::{audited, shown};
use crate::rows::{REPORT, SOURCES, printed, sources};
use crate::standing_trials::wait_until;
use audit_run::{Gate, Open};
use std::alloc::{AllocError, Global};
use std::sync::Wait;
use std::sync::atomic::{AtomicU64, Ordering};
use std::test::Fail;
use std::thread;
use std::thread::Threads;

// Whether each of 625 audits by so many workers ends in the report: 10,000 audits in the four tests below.
fn short_audits_end<R: Threads + Wait + Sync>(
    alloc: Global,
    rt: &R,
    workers: u32,
) -> Result<bool, Fail>
    requires { (1 ≤ workers) × (workers ≤ 16) }
{
    for _ in 0..625u32 {
        let text = printed(alloc, rt, SOURCES, workers)?;
        if text.as_str() != REPORT {
            return Ok(false);
        }
    }
    Ok(true)
}

#[test]
fn short_audits_by_1_to_4_workers_end(rt: HostRuntime) -> Result<(), Fail> {
    for workers in 1..5u32 {
        assert!(rt; short_audits_end(rt.alloc(), &rt, workers)?);
    }
    Ok(())
}

#[test]
fn short_audits_by_5_to_8_workers_end(rt: HostRuntime) -> Result<(), Fail> {
    for workers in 5..9u32 {
        assert!(rt; short_audits_end(rt.alloc(), &rt, workers)?);
    }
    Ok(())
}

#[test]
fn short_audits_by_9_to_12_workers_end(rt: HostRuntime) -> Result<(), Fail> {
    for workers in 9..13u32 {
        assert!(rt; short_audits_end(rt.alloc(), &rt, workers)?);
    }
    Ok(())
}

#[test]
fn short_audits_by_13_to_16_workers_end(rt: HostRuntime) -> Result<(), Fail> {
    for workers in 13..17u32 {
        assert!(rt; short_audits_end(rt.alloc(), &rt, workers)?);
    }
    Ok(())
}

// A gate under which workers yield before each request, so that senders and the caller wait.
#[derive(Clone, Copy)]
struct Slow {
    turns: u32,
}

impl Gate for Slow {
    fn before(&self, _sender: u32, _number: u32) {
        for _ in 0..self.turns {
            thread::yield_now();
        }
    }

    fn after(&self, _sender: u32, _number: u32) {}
}

// A gate that lets the first request of the first sender be judged only after so many others.
#[derive(Drop)]
struct Holding {
    until: u64,
    answered: AtomicU64,
    late: AtomicU64,
}

impl Gate for Holding {
    fn before(&self, sender: u32, number: u32) {
        if sender == 0 && number == 1 {
            wait_until(&self.answered, self.until, &self.late);
        }
    }

    fn after(&self, _sender: u32, _number: u32) {
        self.answered.fetch_add(1, Ordering::SeqCst);
    }
}

// Returns the words of a source with this name, with requests 1 to 1,000 and this close mark.
fn thousand(alloc: Global, name: &str, close: u32) -> Result<String, AllocError> {
    let mut text = format!(in alloc; "{name}:")?;
    for number in 1..1001u32 {
        let word = format!(in alloc; " {number}=kill")?;
        text.push_str(word.as_str())?;
    }
    let word = format!(in alloc; " close={close}")?;
    text.push_str(word.as_str())?;
    Ok(text)
}

// Audits two sources of 1,000 requests each, and returns the output.
fn two_thousand<R: Threads + Wait + Sync, G: Gate + Sync>(
    alloc: Global,
    rt: &R,
    workers: u32,
    gate: &G,
) -> Result<String, Fail>
    requires { (1 ≤ workers) × (workers ≤ 16) }
{
    let first = thousand(alloc, "s", 1000)?;
    let second = thousand(alloc, "t", 1000)?;
    let both = format!(in alloc; "{first}|{second}")?;
    let answer = audited(alloc, rt, sources(alloc, both.as_str())?, workers, gate)?;
    shown(alloc, &answer)
}

#[test]
fn full_queues_empty_again(rt: HostRuntime) -> Result<(), Fail> {
    let wanted = two_thousand(rt.alloc(), &rt, 1, &Open)?;
    assert_eq!(rt; wanted.as_str().lines().count(), 2001);
    for workers in [1u32, 2, 16] {
        let text = two_thousand(rt.alloc(), &rt, workers, &Slow { turns: 50 })?;
        assert!(rt; text.as_str() == wanted.as_str());
    }
    Ok(())
}

// Whether all others are answered while a worker holds the first request, and the report is this.
fn goes_on<R: Threads + Wait + Sync>(
    alloc: Global,
    rt: &R,
    workers: u32,
    wanted: &str,
) -> Result<bool, Fail>
    requires { (1 ≤ workers) × (workers ≤ 16) }
{
    let gate = Holding {
        until: 1999,
        answered: AtomicU64::new(0),
        late: AtomicU64::new(0),
    };
    let text = two_thousand(alloc, rt, workers, &gate)?;
    Ok(text.as_str() == wanted && gate.late.load(Ordering::SeqCst) == 0)
}

#[test]
fn a_worker_may_stand_still(rt: HostRuntime) -> Result<(), Fail> {
    let wanted = two_thousand(rt.alloc(), &rt, 1, &Open)?;
    for workers in [2u32, 16] {
        assert!(rt; goes_on(rt.alloc(), &rt, workers, wanted.as_str())?);
    }
    Ok(())
}

// A source of more than a queue holds, before one that is refused and after it.
#[test]
fn a_refused_source_holds_nobody(rt: HostRuntime) -> Result<(), Fail> {
    let alloc = rt.alloc();
    let long = thousand(alloc, "s", 1000)?;
    let text = format!(in alloc; "t: 2=su 1=su|{long}|u: 2=su 1=kill")?;
    for workers in [1u32, 16] {
        let found = printed(alloc, &rt, text.as_str(), workers)?;
        assert_eq!(rt; found.as_str(), "part 1: row 3: out of order");
    }
    Ok(())
}
