//! Files below a folder, and hints, with little memory.

use crate::hint_trials::hint_at;
use crate::rooted_trials::files;
use limited_memory::{End, Memory, ROOM, Trial, swept};
use run_base::{Files, FilesFault};
use std::alloc::Global;
use std::sync::Wait;
use std::test::Fail;
use std::thread::Threads;
use sudo_text::Seq;

/// Returns how a call ended that returned a fault.
fn end_of_fault(fault: &FilesFault) -> End {
    match fault {
        FilesFault::Memory => End::Refused,
        _ => End::Wrong,
    }
}

/// Returns how a read ended, by whether the text is `main`.
fn end_of_reading(read: Result<Option<Seq<u8>>, FilesFault>) -> End {
    match read {
        Ok(Some(text)) => End::of(text.as_slice() == b"main".as_slice()),
        Ok(None) => End::Wrong,
        Err(fault) => end_of_fault(&fault),
    }
}

/// Returns how a listing ended, by whether it has four names.
fn end_of_listing(listed: Result<Seq<Seq<u8>>, FilesFault>) -> End {
    match listed {
        Ok(names) => End::of(names.len() == 4),
        Err(fault) => end_of_fault(&fault),
    }
}

/// A file below the folder, behind two links, read.
#[derive(Drop)]
struct Reading {
    alloc: Global,
}

impl Trial for Reading {
    fn once<R: Threads + Wait + Sync>(&self, _rt: &R, memory: &mut Memory) -> Result<End, Fail> {
        let mut files = files(self.alloc)?;
        memory.take();
        let text = files.file(self.alloc, b"/conf/twice");
        memory.give_back();
        Ok(end_of_reading(text))
    }
}

/// A folder below the folder, behind a link, listed.
#[derive(Drop)]
struct Listing {
    alloc: Global,
}

impl Trial for Listing {
    fn once<R: Threads + Wait + Sync>(&self, _rt: &R, memory: &mut Memory) -> Result<End, Fail> {
        let mut files = files(self.alloc)?;
        memory.take();
        let names = files.folder(self.alloc, b"/down");
        memory.give_back();
        Ok(end_of_listing(names))
    }
}

#[test]
fn memory_for_files_below_a_folder(rt: HostRuntime) -> Result<(), Fail> {
    let alloc = rt.alloc();
    swept(alloc, &rt, ROOM, &[Reading { alloc }])?;
    swept(alloc, &rt, ROOM, &[Listing { alloc }])
}

/// The hint at the fault of a policy.
#[derive(Drop)]
struct Hinting<'a> {
    alloc: Global,
    policy: &'a [u8],
    wanted: &'a [u8],
}

impl Trial for Hinting<'_> {
    fn once<R: Threads + Wait + Sync>(&self, _rt: &R, memory: &mut Memory) -> Result<End, Fail> {
        memory.take();
        let found = hint_at(self.alloc, self.policy);
        memory.give_back();
        Ok(match found {
            Ok(found) => End::of(found.as_slice() == self.wanted),
            Err(_) => End::Refused,
        })
    }
}

#[test]
fn memory_for_hints(rt: HostRuntime) -> Result<(), Fail> {
    let alloc = rt.alloc();
    let keyword = Hinting {
        alloc,
        policy: b"User_alias A = bob\n",
        wanted: b"did you mean User_Alias?",
    };
    let tag = Hinting {
        alloc,
        policy: b"bob ALL = NOPASWD: ALL\n",
        wanted: b"did you mean NOPASSWD?",
    };
    swept(alloc, &rt, ROOM, &[keyword, tag])
}
