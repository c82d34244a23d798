//! A source whose reader fails, and requests that are read one by one.

use crate::fixtures::{audited, requests_file, shown, source};
use crate::rows::rows;
use audit_files::{RequestRows, read_text};
use audit_run::{Open, Script, Source};
use std::alloc::{AllocError, Global};
use std::sync::Wait;
use std::test::Fail;
use std::thread::Threads;
use sudo_text::Seq;

// Returns a source of 151 bytes, of which each read returns 60; the read with this number, from 1,
// fails.
fn failing(alloc: Global, call: u64) -> Result<Source<Script>, AllocError> {
    let rows = rows(alloc, "1=kill 2=stranger close=2")?;
    let text = requests_file(alloc, rows.as_str().as_bytes())?;
    Ok(Source {
        name: Seq::from_slice(alloc, b"s")?,
        reader: Script::of(alloc, &text, 60)?.failing_at(call),
    })
}

// Returns the text that is printed if the second source fails at this read.
fn printed<R: Threads + Wait + Sync>(alloc: Global, rt: &R, call: u64) -> Result<String, Fail> {
    let mut sources = Vec::new(alloc);
    sources.push(source(alloc, b"t", b"close,0,,,,,\n")?)?;
    sources.push(failing(alloc, call)?)?;
    let answer = audited(alloc, rt, sources, 2, &Open)?;
    shown(alloc, &answer)
}

#[test]
fn each_read_may_fail(rt: HostRuntime) -> Result<(), Fail> {
    for call in 1..5u64 {
        let text = printed(rt.alloc(), &rt, call)?;
        assert_eq!(rt; text.as_str(), "part 1: read failed", "at read {call}");
    }
    let text = printed(rt.alloc(), &rt, 5)?;
    assert!(rt;
        text.as_str()
            .starts_with("sender,number,verdict,line,tags\ns,1,allow,")
    );
    Ok(())
}

// Returns the numbers of the requests that are read one by one, a bar, those of the rest, and the
// count of the close row.
fn numbers(alloc: Global, words: &str) -> Result<String, Fail> {
    let rows = rows(alloc, words)?;
    let file = requests_file(alloc, rows.as_str().as_bytes())?;
    let mut reader = Script::of(alloc, &file, 60)?;
    let mut requests = RequestRows::of(alloc, read_text(alloc, &mut reader)?);
    let mut text = String::new(alloc);
    for _ in 0..9 {
        let Some(request) = requests.next()? else {
            break;
        };
        let number = request.number;
        text.push_str(format!(in alloc; "{number} ")?.as_str())?;
    }
    text.push('|')?;
    let rest = requests.rest()?;
    for request in rest.list.as_slice() {
        let number = request.number;
        text.push_str(format!(in alloc; " {number}")?.as_str())?;
    }
    if let Some(count) = rest.close {
        text.push_str(format!(in alloc; " close {count}")?.as_str())?;
    }
    Ok(text)
}

#[test]
fn requests_are_read_one_by_one(rt: HostRuntime) -> Result<(), Fail> {
    let text = numbers(rt.alloc(), "1=kill 3=stranger close=3")?;
    assert_eq!(rt; text.as_str(), "1 3 | close 3");
    let text = numbers(rt.alloc(), "1=su 2=quoted 4=kill")?;
    assert_eq!(rt; text.as_str(), "1 | 2 4");
    Ok(())
}
