//! Calls that memory is refused to: each returns that memory was refused, or what it returns with memory.

use crate::fixtures::{file, folder, policy};
use limited_memory::{End, Memory, ROOM, Trial, swept};
use std::alloc::{AllocError, Global};
use std::sync::Wait;
use std::test::Fail;
use std::thread::Threads;
use sudo_load::{LoadFault, Supply, load};
use sudo_policy::{
    CheckFault, Checked, ExpandFault, Finding, Kind, Policy, Signed, check, expand, findings,
    member_text,
};

/// Aliases `A0` to `A30`, each but the last of which names the next, and a rule for each.
fn long(alloc: Global) -> Result<String, AllocError> {
    let mut text = String::from_str(alloc, "Cmnd_Alias A30 = /bin/ls\n")?;
    for number in 0..30u32 {
        let next = number.saturating_add(1);
        let line = format!(in alloc; "Cmnd_Alias A{number} = A{next}, !/bin/c{number}\n")?;
        text.push_str(line.as_str())?;
        let rule = format!(in alloc; "alice ALL = A{number}\n")?;
        text.push_str(rule.as_str())?;
    }
    Ok(text)
}

/// The policy of this text.
fn long_policy(alloc: Global) -> Result<Policy, Fail> {
    let text = long(alloc)?;
    Ok(policy(alloc, text.as_str())?)
}

/// The long policy, whose alias `A0` is written out.
#[derive(Drop)]
struct Expanding {
    alloc: Global,
    checked: Checked,
}

impl Expanding {
    fn new(alloc: Global) -> Result<Expanding, Fail> {
        let policy = long_policy(alloc)?;
        Ok(Expanding {
            alloc,
            checked: check(alloc, policy)?,
        })
    }

    /// Returns the members of the alias.
    fn members(&self) -> Result<Vec<Signed>, ExpandFault> {
        expand(self.alloc, &self.checked, Kind::Cmnd, b"A0")
    }
}

impl Trial for Expanding {
    fn once<R: Threads + Wait + Sync>(&self, _rt: &R, memory: &mut Memory) -> Result<End, Fail> {
        memory.take();
        let answer = self.members();
        memory.give_back();
        match answer {
            Ok(members) => Ok(End::of(members.len() == 31 && members == self.members()?)),
            Err(ExpandFault::Memory) => Ok(End::Refused),
            Err(ExpandFault::NoSuchAlias) => Ok(End::Wrong),
        }
    }
}

#[test]
fn memory_for_an_alias_written_out(rt: HostRuntime) -> Result<(), Fail> {
    swept(rt.alloc(), &rt, ROOM, &[Expanding::new(rt.alloc())?])
}

/// A member of an alias that is written out, as text.
#[derive(Drop)]
struct Printing {
    alloc: Global,
    members: Vec<Signed>,
}

impl Trial for Printing {
    fn once<R: Threads + Wait + Sync>(&self, _rt: &R, memory: &mut Memory) -> Result<End, Fail> {
        let Some(member) = self.members.last() else {
            return Ok(End::Wrong);
        };
        memory.take();
        let answer = member_text(self.alloc, member);
        memory.give_back();
        Ok(match answer {
            Ok(text) => End::of(text.as_slice() == b"!/bin/c0".as_slice()),
            Err(_) => End::Refused,
        })
    }
}

#[test]
fn memory_for_the_text_of_a_member(rt: HostRuntime) -> Result<(), Fail> {
    let expanding = Expanding::new(rt.alloc())?;
    let members = expanding.members();
    drop(expanding);
    let printing = Printing {
        alloc: rt.alloc(),
        members: members?,
    };
    swept(rt.alloc(), &rt, ROOM, &[printing])
}

/// The findings on a policy.
#[derive(Drop)]
struct Finds {
    alloc: Global,
    policy: Policy,
    wanted: Vec<Finding>,
}

impl Trial for Finds {
    fn once<R: Threads + Wait + Sync>(&self, _rt: &R, memory: &mut Memory) -> Result<End, Fail> {
        memory.take();
        let answer = findings(self.alloc, &self.policy);
        memory.give_back();
        Ok(match answer {
            Ok(found) => End::of(found.len() == 3 && found == self.wanted),
            Err(_) => End::Refused,
        })
    }
}

/// The long policy with an alias twice, an unused one, and one that is not there.
fn faulty(alloc: Global) -> Result<Policy, Fail> {
    let mut text = long(alloc)?;
    text.push_str("Cmnd_Alias A0 = NONE\nHost_Alias WEB = web1\n")?;
    Ok(policy(alloc, text.as_str())?)
}

impl Finds {
    /// The three findings on that policy.
    fn new(alloc: Global) -> Result<Finds, Fail> {
        let policy = faulty(alloc)?;
        let wanted = findings(alloc, &policy)?;
        Ok(Finds {
            alloc,
            policy,
            wanted,
        })
    }
}

#[test]
fn memory_for_findings(rt: HostRuntime) -> Result<(), Fail> {
    swept(rt.alloc(), &rt, ROOM, &[Finds::new(rt.alloc())?])
}

/// The check of a policy.
#[derive(Drop)]
struct Checking {
    alloc: Global,
    given: Policy,
}

/// How a check of a policy ended.
fn end_of_check(answer: &Result<Checked, CheckFault>, given: &Policy) -> End {
    match answer {
        Ok(checked) => End::of(checked.policy() == given),
        Err(CheckFault::Memory(back)) => {
            if back == given {
                End::Refused
            } else {
                End::Wrong
            }
        }
        Err(CheckFault::Findings(_back, _found)) => End::Wrong,
    }
}

impl Trial for Checking {
    fn once<R: Threads + Wait + Sync>(&self, _rt: &R, memory: &mut Memory) -> Result<End, Fail> {
        let policy = long_policy(self.alloc)?;
        memory.take();
        let answer = check(self.alloc, policy);
        memory.give_back();
        let end = end_of_check(&answer, &self.given);
        drop(answer);
        Ok(end)
    }
}

impl Checking {
    /// The check of the long policy.
    fn new(alloc: Global) -> Result<Checking, Fail> {
        let given = long_policy(alloc)?;
        Ok(Checking { alloc, given })
    }
}

#[test]
fn memory_for_a_check(rt: HostRuntime) -> Result<(), Fail> {
    swept(rt.alloc(), &rt, ROOM, &[Checking::new(rt.alloc())?])
}

/// Whether a policy that is refused for its findings is handed back as it was.
fn comes_back(answer: &Result<Checked, CheckFault>, given: &Policy) -> bool {
    match answer {
        Err(CheckFault::Findings(back, _found)) => back == given,
        _ => false,
    }
}

/// Whether the check of that faulty policy hands it back.
fn hands_back(alloc: Global, given: &Policy) -> Result<bool, Fail> {
    let answer = check(alloc, faulty(alloc)?);
    let is_same = comes_back(&answer, given);
    drop(answer);
    Ok(is_same)
}

#[test]
fn a_policy_with_errors_comes_back(rt: HostRuntime) -> Result<(), Fail> {
    let given = faulty(rt.alloc())?;
    assert!(rt; hands_back(rt.alloc(), &given)?);
    Ok(())
}

/// What a policy includes.
fn supplies(alloc: Global) -> Result<Vec<Supply>, AllocError> {
    let mut supplies = Vec::new(alloc);
    supplies.push(file(alloc, "p/k", "Cmnd_Alias K = /bin/kill, L\n")?)?;
    supplies.push(folder(alloc, "p/d", "b\na\nc.old\n")?)?;
    supplies.push(file(alloc, "p/d/a", "@include /l\nalice ALL = K\n")?)?;
    supplies.push(file(alloc, "p/d/b", "bob ALL = (root) /bin/ls -l\n")?)?;
    supplies.push(file(alloc, "/l", "Cmnd_Alias L = /bin/ls\n")?)?;
    Ok(supplies)
}

/// A policy with includes, loaded.
#[derive(Drop)]
struct Loading {
    alloc: Global,
    supplies: Vec<Supply>,
    same: Vec<Supply>,
    wanted: Policy,
}

const MAIN: &[u8] = b"@include k\n@includedir d\nalice ALL = !K\n";

impl Trial for Loading {
    fn once<R: Threads + Wait + Sync>(&self, _rt: &R, memory: &mut Memory) -> Result<End, Fail> {
        memory.take();
        let answer = load(self.alloc, b"p/sudoers", MAIN, &self.supplies);
        memory.give_back();
        if self.supplies != self.same {
            return Ok(End::Wrong);
        }
        match answer {
            Ok(policy) => Ok(End::of(policy.files.len() == 5 && policy == self.wanted)),
            Err((files, fault)) => {
                if fault == LoadFault::Memory && files.is_empty() {
                    Ok(End::Refused)
                } else {
                    Ok(End::Wrong)
                }
            }
        }
    }
}

impl Loading {
    /// A policy of five files and five entries.
    fn new(alloc: Global) -> Result<Loading, Fail> {
        let given = supplies(alloc)?;
        let same = supplies(alloc)?;
        match load(alloc, b"p/sudoers", MAIN, &given) {
            Ok(wanted) => Ok(Loading {
                alloc,
                supplies: given,
                same,
                wanted,
            }),
            Err(_refusal) => Err(Fail::new("the policy is not read")),
        }
    }
}

#[test]
fn memory_for_includes(rt: HostRuntime) -> Result<(), Fail> {
    swept(rt.alloc(), &rt, ROOM, &[Loading::new(rt.alloc())?])
}
