//! Calls that memory is refused to: each returns that memory or a thread was refused, or what it returns with memory.

use crate::fixtures::{Ground, make_ground, requests_file, shown};
use crate::order_trials::{Step, in_order, roster, two_and_one};
use crate::queue_trials::used;
use crate::report_trials::{TWO_ANSWERS, two_answers, two_files};
use crate::rows::{REPORT, SOURCES, sources};
use audit_collect::{Arrival, CollectFault, Collector, Refused, Report, RosterFault, collect_all};
use audit_files::{
    FileFault, Requests, Script, read_hosts, read_requests, read_users, report_text, write_all_of,
};
use audit_run::{AuditFault, Handoff, Open, audit};
use limited_memory::{End, Memory, ROOM, ROOM_WITH_THREADS, Trial, swept};
use std::alloc::{AllocError, Global};
use std::sync::Wait;
use std::test::Fail;
use std::thread::Threads;
use sudo_match::{Machine, Person};
use sudo_text::Seq;

/// Arrivals of two senders, in the order of this number, and the report on them.
#[derive(Drop)]
struct Arrivals<'a> {
    alloc: Global,
    order: usize,
    wanted: &'a Report,
}

/// Offers the last of the arrivals, then the one before it and so on. One that is refused stays the last.
fn offer(collector: &mut Collector, arrivals: &mut Vec<Arrival>) -> Option<Refused> {
    for _ in 0..arrivals.len() {
        let arrival = arrivals.pop()?;
        if let Err((back, refused)) = collector.offer(arrival) {
            return match arrivals.push(back) {
                Ok(()) => Some(refused),
                Err(_) => Some(Refused::Stranger { sender: 0 }),
            };
        }
    }
    None
}

/// Whether the arrivals that are left make the report, with memory.
fn makes(collector: Collector, arrivals: Vec<Arrival>, wanted: &Report) -> bool {
    let mut collector = collector;
    let mut arrivals = arrivals;
    if offer(&mut collector, &mut arrivals).is_some() {
        return false;
    }
    match collector.finish() {
        Ok(report) => report == *wanted,
        Err(_lacking) => false,
    }
}

impl Arrivals<'_> {
    /// Returns the arrivals, the last of which comes first.
    fn arrivals(&self) -> Result<Vec<Arrival>, AllocError> {
        let steps = [
            Step::Reply(0, 1),
            Step::Reply(0, 2),
            Step::Close(0, 2),
            Step::Reply(1, 1),
            Step::Close(1, 1),
        ];
        in_order(self.alloc, &steps, self.order)
    }
}

/// How the arrivals ended, which are offered with little memory, and what is left of them with memory.
fn arrived(
    collector: Collector,
    arrivals: Vec<Arrival>,
    memory: &mut Memory,
    wanted: &Report,
) -> End {
    let mut collector = collector;
    let mut arrivals = arrivals;
    memory.take();
    let refused = offer(&mut collector, &mut arrivals);
    let answer = collector.finish();
    memory.give_back();
    match answer {
        Ok(report) => End::of(refused.is_none() && report == *wanted),
        Err((collector, _lacking)) => {
            if refused == Some(Refused::Memory) && makes(collector, arrivals, wanted) {
                End::Refused
            } else {
                End::Wrong
            }
        }
    }
}

impl Trial for Arrivals<'_> {
    fn once<R: Threads + Wait + Sync>(&self, _rt: &R, memory: &mut Memory) -> Result<End, Fail> {
        let arrivals = self.arrivals()?;
        let collector = Collector::new(self.alloc, roster(self.alloc, b"ab")?)?;
        Ok(arrived(collector, arrivals, memory, self.wanted))
    }
}

/// So many orders of the arrivals.
fn orders<'a>(
    alloc: Global,
    count: usize,
    wanted: &'a Report,
) -> Result<Vec<Arrivals<'a>>, AllocError> {
    let mut orders = Vec::new(alloc);
    for order in 0..count {
        orders.push(Arrivals {
            alloc,
            order,
            wanted,
        })?;
    }
    Ok(orders)
}

#[test]
fn memory_for_arrivals_in_any_of_120_orders(rt: HostRuntime) -> Result<(), Fail> {
    let wanted = two_and_one(rt.alloc())?;
    let orders = orders(rt.alloc(), 120, &wanted)?;
    swept(rt.alloc(), &rt, ROOM, &orders)
}

/// A collector, made, or all arrivals collected by one call.
#[derive(Clone, Copy)]
enum Call {
    New,
    CollectAll,
}

/// How a collection ended that was refused.
fn end_of_collect_fault(fault: &CollectFault) -> End {
    match fault {
        CollectFault::Roster(RosterFault::Memory) | CollectFault::Refused(Refused::Memory) => {
            End::Refused
        }
        _ => End::Wrong,
    }
}

/// A call for those arrivals in the first order.
#[derive(Drop)]
struct Collecting<'a> {
    arrivals: Arrivals<'a>,
    call: Call,
}

impl Collecting<'_> {
    /// Makes a collector with little memory, which then collects the arrivals with memory.
    fn made(&self, memory: &mut Memory) -> Result<End, Fail> {
        let alloc = self.arrivals.alloc;
        let arrivals = self.arrivals.arrivals()?;
        let names = roster(alloc, b"ab")?;
        memory.take();
        let answer = Collector::new(alloc, names);
        memory.give_back();
        Ok(match answer {
            Ok(collector) => End::of(makes(collector, arrivals, self.arrivals.wanted)),
            Err(RosterFault::Memory) => End::Refused,
            Err(_) => End::Wrong,
        })
    }

    /// Collects the arrivals with little memory.
    fn collected(&self, memory: &mut Memory) -> Result<End, Fail> {
        let alloc = self.arrivals.alloc;
        let arrivals = self.arrivals.arrivals()?;
        let names = roster(alloc, b"ab")?;
        memory.take();
        let answer = collect_all(alloc, names, arrivals);
        memory.give_back();
        Ok(match answer {
            Ok(report) => End::of(report == *self.arrivals.wanted),
            Err(fault) => end_of_collect_fault(&fault),
        })
    }
}

impl Trial for Collecting<'_> {
    fn once<R: Threads + Wait + Sync>(&self, _rt: &R, memory: &mut Memory) -> Result<End, Fail> {
        match self.call {
            Call::New => self.made(memory),
            Call::CollectAll => self.collected(memory),
        }
    }
}

#[test]
fn memory_for_a_collector(rt: HostRuntime) -> Result<(), Fail> {
    let alloc = rt.alloc();
    let wanted = two_and_one(alloc)?;
    let collecting = |call: Call| -> Collecting<'_> {
        Collecting {
            arrivals: Arrivals {
                alloc,
                order: 0,
                wanted: &wanted,
            },
            call,
        }
    };
    swept(
        alloc,
        &rt,
        ROOM,
        &[collecting(Call::New), collecting(Call::CollectAll)],
    )
}

const USERS: &[u8] = b"user,uid,groups\nroot,0,root:0\nalice,1000,alice:1000 adm:4\n";

const MEMBERSHIPS: &[u8] =
    b"user,uid,gid,group\nroot,0,0,root\nalice,1000,1000,alice\nalice,1000,4,adm\n";

const HOSTS: &[u8] = b"host,interfaces\nweb1.example.org,10.1.2.3/16 127.0.0.1/8\ndb,\n";

const ROWS: &[u8] =
    b"1,alice,web1.example.org,,,/bin/kill,-9 7\n2,carol,db,,,/bin/su,\nclose,2,,,,,\n";

/// A file of an audit, which is read.
#[derive(Clone, Copy)]
enum Kind {
    Users,
    Memberships,
    Hosts,
    Requests,
}

/// How a reading ended that was refused.
fn end_of_fault(fault: FileFault) -> End {
    if fault == FileFault::Memory {
        End::Refused
    } else {
        End::Wrong
    }
}

/// The users of a file, read with memory.
fn users(alloc: Global, text: &[u8]) -> Result<Vec<Person>, Fail> {
    let mut reader = Script::of(alloc, text, 50)?;
    Ok(read_users(alloc, &mut reader)?)
}

fn read_users_once(alloc: Global, text: &[u8], memory: &mut Memory) -> Result<End, Fail> {
    let mut reader = Script::of(alloc, text, 50)?;
    memory.take();
    let answer = read_users(alloc, &mut reader);
    memory.give_back();
    match answer {
        Ok(people) => Ok(End::of(people.len() == 2 && people == users(alloc, USERS)?)),
        Err(fault) => Ok(end_of_fault(fault)),
    }
}

/// The hosts of the file, read with memory.
fn hosts(alloc: Global) -> Result<Vec<Machine>, Fail> {
    let mut reader = Script::of(alloc, HOSTS, 50)?;
    Ok(read_hosts(alloc, &mut reader)?)
}

fn read_hosts_once(alloc: Global, memory: &mut Memory) -> Result<End, Fail> {
    let mut reader = Script::of(alloc, HOSTS, 50)?;
    memory.take();
    let answer = read_hosts(alloc, &mut reader);
    memory.give_back();
    match answer {
        Ok(machines) => Ok(End::of(machines.len() == 2 && machines == hosts(alloc)?)),
        Err(fault) => Ok(end_of_fault(fault)),
    }
}

/// A reader of the requests.
fn requests_reader(alloc: Global) -> Result<Script, AllocError> {
    let text = requests_file(alloc, ROWS)?;
    Script::of(alloc, text.as_slice(), 50)
}

/// The requests of the file, read with memory.
fn requests(alloc: Global) -> Result<Requests, Fail> {
    let mut reader = requests_reader(alloc)?;
    Ok(read_requests(alloc, &mut reader)?)
}

fn read_requests_once(alloc: Global, memory: &mut Memory) -> Result<End, Fail> {
    let mut reader = requests_reader(alloc)?;
    memory.take();
    let answer = read_requests(alloc, &mut reader);
    memory.give_back();
    match answer {
        Ok(read) => Ok(End::of(read.close == Some(2) && read.list == requests(alloc)?.list)),
        Err(fault) => Ok(end_of_fault(fault)),
    }
}

/// A file, read.
#[derive(Clone, Copy)]
struct Reading {
    alloc: Global,
    kind: Kind,
}

impl Trial for Reading {
    fn once<R: Threads + Wait + Sync>(&self, _rt: &R, memory: &mut Memory) -> Result<End, Fail> {
        match self.kind {
            Kind::Users => read_users_once(self.alloc, USERS, memory),
            Kind::Memberships => read_users_once(self.alloc, MEMBERSHIPS, memory),
            Kind::Hosts => read_hosts_once(self.alloc, memory),
            Kind::Requests => read_requests_once(self.alloc, memory),
        }
    }
}

#[test]
fn memory_for_files(rt: HostRuntime) -> Result<(), Fail> {
    let alloc = rt.alloc();
    let reading = |kind: Kind| -> Reading { Reading { alloc, kind } };
    swept(
        alloc,
        &rt,
        ROOM,
        &[
            reading(Kind::Users),
            reading(Kind::Memberships),
            reading(Kind::Hosts),
            reading(Kind::Requests),
        ],
    )
}

/// How the text of a report was made and written.
fn end_of_text(alloc: Global, report: &Report, files: &[Seq<u8>], writer: &mut Script) -> End {
    let Ok(text) = report_text(alloc, report, files) else {
        return End::Refused;
    };
    if text.as_slice() != TWO_ANSWERS {
        return End::Wrong;
    }
    match write_all_of(writer, text.as_slice()) {
        Ok(()) => End::of(writer.taken() == TWO_ANSWERS),
        Err(fault) => {
            let taken = writer.taken();
            if taken.len() as u64 == fault.written && TWO_ANSWERS.starts_with(taken) {
                End::Refused
            } else {
                End::Wrong
            }
        }
    }
}

/// The text of a report, made and written.
#[derive(Drop)]
struct Writing<'a> {
    alloc: Global,
    report: &'a Report,
    files: &'a [Seq<u8>],
}

impl Trial for Writing<'_> {
    fn once<R: Threads + Wait + Sync>(&self, _rt: &R, memory: &mut Memory) -> Result<End, Fail> {
        let mut writer = Script::of(self.alloc, b"", 16)?;
        memory.take();
        let end = end_of_text(self.alloc, self.report, self.files, &mut writer);
        memory.give_back();
        Ok(end)
    }
}

#[test]
fn memory_for_a_report(rt: HostRuntime) -> Result<(), Fail> {
    let alloc = rt.alloc();
    let report = two_answers(alloc)?;
    let files = two_files(alloc)?;
    swept(
        alloc,
        &rt,
        ROOM,
        &[Writing {
            alloc,
            report: &report,
            files: files.as_slice(),
        }],
    )
}

/// The queues of an audit, made.
#[derive(Drop)]
struct Queues<'a> {
    alloc: Global,
    ground: &'a Ground,
}

impl Trial for Queues<'_> {
    fn once<R: Threads + Wait + Sync>(&self, rt: &R, memory: &mut Memory) -> Result<End, Fail> {
        memory.take();
        let answer = Handoff::new(self.alloc, &self.ground.policy, &self.ground.directory);
        memory.give_back();
        match answer {
            Ok((handoff, mut pass)) => {
                let (put, is_back, first) = used(rt, &handoff, &mut pass);
                Ok(End::of(put == 256 && is_back && first == Some(1)))
            }
            Err(_) => Ok(End::Refused),
        }
    }
}

#[test]
fn memory_for_queues(rt: HostRuntime) -> Result<(), Fail> {
    let alloc = rt.alloc();
    let ground = make_ground(alloc)?;
    let queues = [Queues {
        alloc,
        ground: &ground,
    }];
    let ended = swept(alloc, &rt, ROOM_WITH_THREADS, &queues);
    drop(ground);
    ended
}

/// An audit of three sources by two workers.
#[derive(Drop)]
struct Auditing<'a> {
    alloc: Global,
    ground: &'a Ground,
}

impl Auditing<'_> {
    /// Returns the answer of the audit.
    fn answer<R: Threads + Wait + Sync>(
        &self,
        rt: &R,
        memory: &mut Memory,
    ) -> Result<Result<Report, AuditFault>, Fail> {
        let Ground { policy, directory } = self.ground;
        let sources = sources(self.alloc, SOURCES)?;
        let (handoff, mut pass) = Handoff::new(self.alloc, policy, directory)?;
        memory.take();
        let answer = audit(
            self.alloc, rt, policy, directory, &handoff, &mut pass, sources, 2, &Open,
        );
        memory.give_back();
        Ok(answer)
    }
}

impl Trial for Auditing<'_> {
    fn once<R: Threads + Wait + Sync>(&self, rt: &R, memory: &mut Memory) -> Result<End, Fail> {
        let answer = self.answer(rt, memory)?;
        if matches!(&answer, Err(AuditFault::Memory | AuditFault::NoThread)) {
            return Ok(End::Refused);
        }
        let text = shown(self.alloc, &answer)?;
        Ok(End::of(text.as_str() == REPORT))
    }
}

/// Two audits. A thread that has ended leaves its stack to the next one, so threads are refused in the first alone.
fn two_audits<R: Threads + Wait + Sync>(
    alloc: Global,
    rt: &R,
    ground: &Ground,
) -> Result<(), Fail> {
    let audit = || Auditing { alloc, ground };
    swept(alloc, rt, ROOM_WITH_THREADS, &[audit(), audit()])
}

#[test]
fn memory_for_an_audit(rt: HostRuntime) -> Result<(), Fail> {
    let ground = make_ground(rt.alloc())?;
    let ended = two_audits(rt.alloc(), &rt, &ground);
    drop(ground);
    ended
}
