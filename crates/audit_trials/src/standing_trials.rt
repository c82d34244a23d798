//! Many parts, and a part whose reader waits while others run.

ghost use Rattle.std.specs.Prelude.{◌≤◌};

use crate::fixtures::{audited, requests_file, shown};
use crate::rows::HEAD;
use audit_run::{Failed, Feed, Gate, Script, Source};
use std::alloc::{AllocError, Global};
use std::sync::Wait;
use std::sync::atomic::{AtomicU64, Ordering};
use std::test::Fail;
use std::thread;
use std::thread::Threads;
use sudo_text::Seq;

// How often a thread yields before it counts as one that waits in vain.
const TURNS: u32 = 10_000_000;

// Counts the requests that are answered.
#[derive(Drop)]
struct Answered<'a> {
    count: &'a AtomicU64,
}

impl Gate for Answered<'_> {
    fn before(&self, _sender: u32, _number: u32) {}

    fn after(&self, _sender: u32, _number: u32) {
        self.count.fetch_add(1, Ordering::SeqCst);
    }
}

// A reader that waits until this number of requests is answered.
#[derive(Drop)]
struct Standing<'a, F> {
    inner: F,
    until: u64,
    count: &'a AtomicU64,
    late: &'a AtomicU64,
}

/// Waits until the count reaches `until`, and counts a wait that is in vain.
pub(crate) fn wait_until(count: &AtomicU64, until: u64, late: &AtomicU64) {
    for _ in 0..TURNS {
        if count.load(Ordering::SeqCst) >= until {
            return;
        }
        thread::yield_now();
    }
    late.fetch_add(1, Ordering::SeqCst);
}

impl<'a, F: Feed> Feed for Standing<'a, F> {
    ghost ahead = { λ standing. F.ahead standing.inner };

    ghost failed_reads = { λ standing. F.failed_reads standing.inner };

    fn read(&mut self, buffer: &mut [u8]) -> Result<usize, Failed> {
        wait_until(self.count, self.until, self.late);
        self.inner.read(buffer)
    }
}

// A part: its sender, its requests from `first` to below `end`, its last row, and after how many
// answers it is read.
#[derive(Clone, Copy)]
struct Part {
    name: &'static str,
    first: u32,
    end: u32,
    close: &'static str,
    until: u64,
}

// Returns the bytes of a part.
fn text_of(alloc: Global, part: Part) -> Result<Vec<u8>, AllocError> {
    let mut rows = String::new(alloc);
    for number in part.first..part.end {
        let row = format!(in alloc; "{number},alice,web1.example.org,,,/bin/kill,\n")?;
        rows.push_str(row.as_str())?;
    }
    rows.push_str(part.close)?;
    requests_file(alloc, rows.as_str().as_bytes())
}

// Returns the sources of these parts.
fn sources<'a>(
    alloc: Global,
    parts: &[Part],
    count: &'a AtomicU64,
    late: &'a AtomicU64,
) -> Result<Vec<Source<Standing<'a, Script>>>, AllocError> {
    let mut sources = Vec::new(alloc);
    for part in parts {
        let text = text_of(alloc, *part)?;
        sources.push(Source {
            name: Seq::from_slice(alloc, part.name.as_bytes())?,
            reader: Standing {
                inner: Script::of(alloc, &text, 1000)?,
                until: part.until,
                count,
                late,
            },
        })?;
    }
    Ok(sources)
}

// Audits these parts, and returns the output, how many requests were answered, and how many waits
// were in vain.
fn printed<R: Threads + Wait + Sync>(
    alloc: Global,
    rt: &R,
    parts: &[Part],
    workers: u32,
) -> Result<(String, u64, u64), Fail>
    requires { (1 ≤ workers) × (workers ≤ 16) }
{
    let count = AtomicU64::new(0);
    let late = AtomicU64::new(0);
    let gate = Answered { count: &count };
    let sources = sources(alloc, parts, &count, &late)?;
    let answer = audited(alloc, rt, sources, workers, &gate)?;
    let text = shown(alloc, &answer)?;
    Ok((
        text,
        count.load(Ordering::SeqCst),
        late.load(Ordering::SeqCst),
    ))
}

// Returns the report of this number of requests of the sender `s`.
fn report(alloc: Global, count: u32) -> Result<String, AllocError> {
    let mut text = String::from_str(alloc, HEAD)?;
    for before in 0..count {
        let number = before.saturating_add(1);
        let line = format!(in alloc; "s,{number},allow,sudoers:1,NOPASSWD\n")?;
        text.push_str(line.as_str())?;
    }
    Ok(text)
}

// The first part is read only after the 600 requests of the others are answered: more than the
// queues hold.
const ONE_STANDS: [Part; 3] = [
    Part {
        name: "s",
        first: 601,
        end: 701,
        close: "close,700,,,,,\n",
        until: 600,
    },
    Part {
        name: "s",
        first: 1,
        end: 301,
        close: "",
        until: 0,
    },
    Part {
        name: "s",
        first: 301,
        end: 601,
        close: "",
        until: 0,
    },
];

#[test]
fn a_part_may_stand_still(rt: HostRuntime) -> Result<(), Fail> {
    let alloc = rt.alloc();
    let wanted = report(alloc, 700)?;
    for workers in [1u32, 16] {
        let (text, answered, late) = printed(alloc, &rt, &ONE_STANDS, workers)?;
        assert!(rt; text.as_str() == wanted.as_str());
        assert_eq!(rt; (answered, late), (700, 0));
    }
    Ok(())
}

// Returns this number of parts of `s` with one request each, and a part with the close mark alone.
fn many(alloc: Global, count: u32) -> Result<Vec<Part>, AllocError> {
    let mut parts = Vec::new(alloc);
    parts.push(Part {
        name: "s",
        first: 0,
        end: 0,
        close: "close,255,,,,,\n",
        until: 0,
    })?;
    for first in 1..count.saturating_add(1) {
        parts.push(Part {
            name: "s",
            first,
            end: first.saturating_add(1),
            close: "",
            until: 0,
        })?;
    }
    Ok(parts)
}

#[test]
fn many_parts_give_one_report(rt: HostRuntime) -> Result<(), Fail> {
    let alloc = rt.alloc();
    let parts = many(alloc, 255)?;
    let (text, answered, _late) = printed(alloc, &rt, &parts, 16)?;
    assert!(rt; text.as_str() == report(alloc, 255)?.as_str());
    assert_eq!(rt; answered, 255);
    Ok(())
}
