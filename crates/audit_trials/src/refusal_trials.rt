//! Audits that are refused before any thread starts: no source is read, and no worker judges a
//! request.

use crate::fixtures::audited;
use audit_run::{Failed, Feed, Gate, Source};
use std::alloc::{AllocError, Global};
use std::sync::Wait;
use std::sync::atomic::{AtomicU64, Ordering};
use std::test::Fail;
use std::thread::Threads;
use sudo_text::Seq;

// A reader that has no bytes, and counts its calls.
#[derive(Drop)]
struct Counting<'a> {
    calls: &'a AtomicU64,
}

impl Feed for Counting<'_> {
    ghost use Rattle.std.specs.Prelude.{None};

    ghost ahead = { λ _. None };

    ghost failed_reads = { λ _. 0 };

    fn read(&mut self, _buffer: &mut [u8]) -> Result<usize, Failed> {
        self.calls.fetch_add(1, Ordering::SeqCst);
        Ok(0)
    }
}

// Counts the calls of workers.
#[derive(Drop)]
struct Watch {
    calls: AtomicU64,
}

impl Gate for Watch {
    fn before(&self, _sender: u32, _number: u32) {
        self.calls.fetch_add(1, Ordering::SeqCst);
    }

    fn after(&self, _sender: u32, _number: u32) {
        self.calls.fetch_add(1, Ordering::SeqCst);
    }
}

// Returns this number of sources, each of a sender of its own if `apart`, else all of one.
fn sources<'a>(
    alloc: Global,
    count: u32,
    apart: bool,
    calls: &'a AtomicU64,
) -> Result<Vec<Source<Counting<'a>>>, AllocError> {
    let mut sources = Vec::new(alloc);
    for number in 0..count {
        let shown = if apart { number } else { 0 };
        let name = format!(in alloc; "a{shown}")?;
        sources.push(Source {
            name: Seq::from_slice(alloc, name.as_str().as_bytes())?,
            reader: Counting { calls },
        })?;
    }
    Ok(sources)
}

// Audits these sources, and returns how often readers and workers are called, and whether the audit
// is refused.
fn calls_of<R: Threads + Wait + Sync>(
    alloc: Global,
    rt: &R,
    count: u32,
    apart: bool,
) -> Result<(u64, bool), Fail> {
    let reads = AtomicU64::new(0);
    let watch = Watch {
        calls: AtomicU64::new(0),
    };
    let answer = audited(alloc, rt, sources(alloc, count, apart, &reads)?, 2, &watch)?;
    let calls = watch.calls.load(Ordering::SeqCst);
    Ok((
        reads.load(Ordering::SeqCst).saturating_add(calls),
        answer.is_err(),
    ))
}

#[test]
fn sources_are_refused_before_they_are_read(rt: HostRuntime) -> Result<(), Fail> {
    let alloc = rt.alloc();
    assert_eq!(rt; calls_of(alloc, &rt, 257, false)?, (0, true));
    assert_eq!(rt; calls_of(alloc, &rt, 65, true)?, (0, true));
    let (calls, refused) = calls_of(alloc, &rt, 64, true)?;
    assert!(rt; refused);
    assert!(rt; calls >= 64);
    Ok(())
}
