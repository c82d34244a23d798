//! Directories and indexes of rules that memory is refused to, and an index beyond its budget.

ghost use Rattle.sudo_verdict.specs.Postings.{Indexes};

use crate::fixtures::{directory, machines, people, policy, request};
use limited_memory::{End, Memory, ROOM, Trial, swept};
use std::alloc::{AllocError, Global};
use std::sync::Wait;
use std::test::Fail;
use std::thread::Threads;
use sudo_match::{DirFault, Directory, Person};
use sudo_policy::{Checked, check};
use sudo_text::Seq;
use sudo_verdict::{Budget, Request, RuleIndex, verdict};

/// A directory made of the rows of users and hosts, all users twice where told to.
#[derive(Drop)]
struct Rows {
    alloc: Global,
    is_twice: bool,
    wanted: Directory,
}

impl Rows {
    fn new(alloc: Global, is_twice: bool) -> Result<Rows, Fail> {
        let wanted = directory(alloc)?;
        Ok(Rows {
            alloc,
            is_twice,
            wanted,
        })
    }

    /// Returns the rows of users.
    fn users(&self) -> Result<Vec<Person>, AllocError> {
        let mut users = people(self.alloc)?;
        if self.is_twice {
            users.append(&mut people(self.alloc)?)?;
        }
        Ok(users)
    }
}

/// Whether the directories have the same user of this name, and the same host and group of those.
fn are_alike(one: &Directory, other: &Directory, user: &[u8], host: &[u8], group: &[u8]) -> bool {
    one.user(user) == other.user(user)
        && one.host(host) == other.host(host)
        && one.group(group) == other.group(group)
}

/// How the making of a directory ended.
fn end_of_rows(answer: &Result<Directory, DirFault>, rows: &Rows) -> End {
    match answer {
        Ok(made) => End::of(
            !rows.is_twice
                && are_alike(made, &rows.wanted, b"operator", b"WEB2", b"alice")
                && are_alike(made, &rows.wanted, b"nobody", b"web3", b"none"),
        ),
        Err(DirFault::Memory) => End::Refused,
        Err(fault) => End::of(rows.is_twice && is_twice(fault)),
    }
}

/// Whether the fault is that the user root stands twice.
fn is_twice(fault: &DirFault) -> bool {
    match fault {
        DirFault::UserTwice { name } => name.as_slice() == b"root".as_slice(),
        _ => false,
    }
}

impl Trial for Rows {
    fn once<R: Threads + Wait + Sync>(&self, _rt: &R, memory: &mut Memory) -> Result<End, Fail> {
        let rows = self.users()?;
        let machines = machines(self.alloc)?;
        memory.take();
        let answer = Directory::new(self.alloc, rows, machines);
        memory.give_back();
        let end = end_of_rows(&answer, self);
        drop(answer);
        Ok(end)
    }
}

#[test]
fn memory_for_a_directory(rt: HostRuntime) -> Result<(), Fail> {
    let alloc = rt.alloc();
    swept(
        alloc,
        &rt,
        ROOM,
        &[Rows::new(alloc, false)?, Rows::new(alloc, true)?],
    )
}

/// Rules for alice, not operator, and for a group of its own.
fn rules(alloc: Global) -> Result<String, AllocError> {
    let mut text = String::from_str(alloc, "User_Alias S = alice, operator\n")?;
    for number in 0..20u32 {
        let line = format!(in alloc;
            "S, !operator web1 = /bin/c{number}\n%operator ALL = /bin/o\n"
        )?;
        text.push_str(line.as_str())?;
    }
    Ok(text)
}

/// Returns the policy of these rules, checked.
fn checked_rules(alloc: Global) -> Result<Checked, Fail> {
    let text = rules(alloc)?;
    let policy = policy(alloc, text.as_str())?;
    Ok(check(alloc, policy)?)
}

/// Returns requests of which the first and the last are granted.
fn requests(alloc: Global) -> Result<Seq<Request>, AllocError> {
    let mut list = Seq::new(alloc);
    list.push(request(alloc, "alice", "web1", "/bin/c7")?)?;
    list.push(request(alloc, "operator", "web1", "/bin/c7")?)?;
    list.push(request(alloc, "operator", "web2", "/bin/o")?)?;
    Ok(list)
}

/// Requests of users and hosts that a directory knows.
#[derive(Drop)]
struct Known {
    directory: Directory,
    requests: Seq<Request>,
}

impl Known {
    fn new(alloc: Global) -> Result<Known, Fail> {
        let requests = requests(alloc)?;
        Ok(Known {
            directory: directory(alloc)?,
            requests,
        })
    }
}

/// An index of rules, made.
#[derive(Drop)]
struct Indexing {
    alloc: Global,
    checked: Checked,
    known: Known,
}

impl Indexing {
    fn new(alloc: Global) -> Result<Indexing, Fail> {
        let checked = checked_rules(alloc)?;
        Ok(Indexing {
            alloc,
            checked,
            known: Known::new(alloc)?,
        })
    }

    /// Returns whether each verdict by the index of the policy is the one without.
    fn agrees(&self, index: &RuleIndex) -> bool
        requires { Indexes self.now.checked index.now }
    {
        let directory = &self.known.directory;
        for request in self.known.requests.as_slice() {
            let found = index.verdict(&self.checked, directory, request);
            if found != verdict(&self.checked, directory, request) {
                return false;
            }
        }
        true
    }

    /// Returns whether each verdict by an index within the budget is the one without.
    fn agrees_within(&self, budget: Budget) -> Result<bool, Fail> {
        let index = RuleIndex::within(self.alloc, &self.checked, budget)?;
        let agrees = self.agrees(&index);
        drop(index);
        Ok(agrees)
    }
}

impl Trial for Indexing {
    fn once<R: Threads + Wait + Sync>(&self, _rt: &R, memory: &mut Memory) -> Result<End, Fail> {
        memory.take();
        let answer = RuleIndex::of(self.alloc, &self.checked);
        memory.give_back();
        match answer {
            Ok(index) => {
                let agrees = self.agrees(&index);
                drop(index);
                Ok(End::of(agrees))
            }
            Err(_) => Ok(End::Refused),
        }
    }
}

#[test]
fn memory_for_an_index_of_rules(rt: HostRuntime) -> Result<(), Fail> {
    swept(rt.alloc(), &rt, ROOM, &[Indexing::new(rt.alloc())?])
}

/// Whether each verdict by an index that is beyond its budget is the one without.
fn agrees_beyond_budget(alloc: Global) -> Result<bool, Fail> {
    let budget = Budget {
        words: 1,
        members: 3,
    };
    let indexing = Indexing::new(alloc)?;
    let agrees = indexing.agrees_within(budget);
    drop(indexing);
    agrees
}

#[test]
fn an_index_beyond_its_budget(rt: HostRuntime) -> Result<(), Fail> {
    assert!(rt; agrees_beyond_budget(rt.alloc())?);
    Ok(())
}
