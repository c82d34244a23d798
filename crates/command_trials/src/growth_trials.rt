//! Words that are read, and tables that are made, with little memory.

use crate::runs::{FILES, HOSTS, Readers, Shelf, TABLES, USERS, table_shown, table_text};
use audit_commands::{Asked, asked};
use audit_files::Script;
use clap::error::ErrorKind;
use limited_memory::{End, Memory, ROOM, Trial, swept};
use std::alloc::Global;
use std::sync::Wait;
use std::test::Fail;
use std::thread::Threads;

/// The words of a command line, read.
#[derive(Drop)]
struct Reading<'a> {
    alloc: Global,
    words: &'a [&'a str],
}

/// Whether a command is the check of the policy `p`.
fn is_check(asked: &Asked<'_>) -> bool {
    match asked {
        Asked::Check { file } => *file == "p",
        _ => false,
    }
}

impl Trial for Reading<'_> {
    fn once<R: Threads + Wait + Sync>(&self, _rt: &R, memory: &mut Memory) -> Result<End, Fail> {
        memory.take();
        let answer = asked(self.alloc, self.words);
        memory.give_back();
        Ok(match answer {
            Ok(command) => End::of(is_check(&command)),
            Err(error) => {
                if error.kind() == ErrorKind::OutOfMemory {
                    End::Refused
                } else {
                    End::Wrong
                }
            }
        })
    }
}

#[test]
fn memory_for_the_words(rt: HostRuntime) -> Result<(), Fail> {
    let alloc = rt.alloc();
    let words = ["sudo_audit", "check", "p"];
    let reading = Reading {
        alloc,
        words: &words,
    };
    swept(alloc, &rt, ROOM, &[reading])
}

/// The table that a word names.
#[derive(Drop)]
struct Tabling<'a> {
    alloc: Global,
    word: &'a str,
}

impl Trial for Tabling<'_> {
    fn once<R: Threads + Wait + Sync>(&self, _rt: &R, memory: &mut Memory) -> Result<End, Fail> {
        let readers = Readers {
            users: Script::of(self.alloc, USERS, 1000)?,
            hosts: Script::of(self.alloc, HOSTS, 1000)?,
            requests: Script::of(self.alloc, b"", 1000)?,
        };
        let out = Script::of(self.alloc, b"", 1000)?;
        let wanted = format!(in self.alloc;
            "0 {}! sudo_review: 1 cautions (linked);",
            table_text(self.word)
        )?;
        memory.take();
        let shown = table_shown(
            self.alloc,
            self.word,
            &mut Shelf { items: &FILES },
            readers,
            out,
        );
        memory.give_back();
        Ok(match shown {
            Ok(line) if line == wanted => End::Answered,
            Ok(line) => {
                if line.starts_with("4 ") {
                    End::Refused
                } else {
                    End::Wrong
                }
            }
            Err(_) => End::Refused,
        })
    }
}

#[test]
fn memory_for_the_tables(rt: HostRuntime) -> Result<(), Fail> {
    let alloc = rt.alloc();
    for word in TABLES {
        swept(alloc, &rt, ROOM, &[Tabling { alloc, word }])?;
    }
    Ok(())
}
