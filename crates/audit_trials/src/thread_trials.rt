//! Threads that run at the same time: one could not end before the other has begun.

use crate::fixtures::{audited, requests_file};
use crate::rows::sources;
use audit_run::{Failed, Feed, Gate, Open, Script, Source};
use std::alloc::{AllocError, Global};
use std::sync::Wait;
use std::sync::atomic::{AtomicU64, Ordering};
use std::test::Fail;
use std::thread;
use std::thread::Threads;
use sudo_text::Seq;

// How often a thread yields before it counts as one that waits in vain.
const TURNS: u32 = 10_000_000;

// Waits until the flag is not 0, and counts a wait that is in vain.
fn wait_for(flag: &AtomicU64, late: &AtomicU64) {
    for _ in 0..TURNS {
        if flag.load(Ordering::SeqCst) != 0 {
            return;
        }
        thread::yield_now();
    }
    late.fetch_add(1, Ordering::SeqCst);
}

// How often a worker began and ended a request.
#[derive(Drop)]
struct Calls {
    before: AtomicU64,
    after: AtomicU64,
}

impl Calls {
    fn none() -> Calls {
        Calls {
            before: AtomicU64::new(0),
            after: AtomicU64::new(0),
        }
    }

    fn are_once(&self) -> bool {
        self.before.load(Ordering::SeqCst) == 1 && self.after.load(Ordering::SeqCst) == 1
    }
}

// A gate that lets request `waiting` be judged only after request `other` is answered.
#[derive(Drop)]
struct Order {
    waiting: u32,
    other: u32,
    waiting_calls: Calls,
    other_calls: Calls,
    late: AtomicU64,
}

impl Gate for Order {
    fn before(&self, _sender: u32, number: u32) {
        if number == self.other {
            self.other_calls.before.fetch_add(1, Ordering::SeqCst);
        }
        if number == self.waiting {
            self.waiting_calls.before.fetch_add(1, Ordering::SeqCst);
            wait_for(&self.other_calls.after, &self.late);
        }
    }

    fn after(&self, _sender: u32, number: u32) {
        if number == self.other {
            self.other_calls.after.fetch_add(1, Ordering::SeqCst);
        }
        if number == self.waiting {
            self.waiting_calls.after.fetch_add(1, Ordering::SeqCst);
        }
    }
}

// Whether two workers judge each of requests 1 and 2 once, and none waits in vain.
fn is_judged_after<R: Threads + Wait + Sync>(
    alloc: Global,
    rt: &R,
    waiting: u32,
    other: u32,
) -> Result<bool, Fail> {
    let gate = Order {
        waiting,
        other,
        waiting_calls: Calls::none(),
        other_calls: Calls::none(),
        late: AtomicU64::new(0),
    };
    let sources = sources(alloc, "s: 1=kill 2=stranger close=2")?;
    let answer = audited(alloc, rt, sources, 2, &gate)?;
    Ok(
        answer.is_ok()
            && gate.waiting_calls.are_once()
            && gate.other_calls.are_once()
            && gate.late.load(Ordering::SeqCst) == 0,
    )
}

#[test]
fn two_workers_run_at_once(rt: HostRuntime) -> Result<(), Fail> {
    assert!(rt; is_judged_after(rt.alloc(), &rt, 1, 2)?);
    assert!(rt; is_judged_after(rt.alloc(), &rt, 2, 1)?);
    Ok(())
}

// A reader whose reads return only after another reader was called.
#[derive(Drop)]
struct Meeting<'a, F> {
    inner: F,
    mine: &'a AtomicU64,
    other: &'a AtomicU64,
    late: &'a AtomicU64,
}

impl<'a, F: Feed> Feed for Meeting<'a, F> {
    ghost ahead = { λ meeting. F.ahead meeting.inner };

    ghost failed_reads = { λ meeting. F.failed_reads meeting.inner };

    fn read(&mut self, buffer: &mut [u8]) -> Result<usize, Failed> {
        self.mine.store(1, Ordering::SeqCst);
        wait_for(self.other, self.late);
        self.inner.read(buffer)
    }
}

// Returns a source with this name and these rows, whose reader waits for the other.
fn meeting_source<'a>(
    alloc: Global,
    name: &[u8],
    rows: &[u8],
    mine: &'a AtomicU64,
    other: &'a AtomicU64,
    late: &'a AtomicU64,
) -> Result<Source<Meeting<'a, Script>>, AllocError> {
    let text = requests_file(alloc, rows)?;
    Ok(Source {
        name: Seq::from_slice(alloc, name)?,
        reader: Meeting {
            inner: Script::of(alloc, &text, 10)?,
            mine,
            other,
            late,
        },
    })
}

// Whether sources with these names, each of which waits for the other's first read, are both read
// without a wait in vain.
fn are_read_at_once<R: Threads + Wait + Sync>(
    alloc: Global,
    rt: &R,
    first: &[u8],
    second: &[u8],
) -> Result<bool, Fail> {
    let one = AtomicU64::new(0);
    let two = AtomicU64::new(0);
    let late = AtomicU64::new(0);
    let closed = meeting_source(alloc, first, b"close,0,,,,,\n", &one, &two, &late)?;
    let open = meeting_source(alloc, second, b"", &two, &one, &late)?;
    let mut sources = Vec::new(alloc);
    sources.push(closed)?;
    sources.push(open)?;
    let _answer = audited(alloc, rt, sources, 1, &Open)?;
    Ok(
        one.load(Ordering::SeqCst) == 1
            && two.load(Ordering::SeqCst) == 1
            && late.load(Ordering::SeqCst) == 0,
    )
}

#[test]
fn sources_are_read_at_once(rt: HostRuntime) -> Result<(), Fail> {
    assert!(rt; are_read_at_once(rt.alloc(), &rt, b"s", b"t")?);
    assert!(rt; are_read_at_once(rt.alloc(), &rt, b"s", b"s")?);
    Ok(())
}
