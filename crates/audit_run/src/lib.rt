//! Audits requests against a policy with several threads: one for each source of requests, and
//! workers that judge them.
//!
//! Two queues join the threads, and each thread uses them with a pass: senders put jobs, workers
//! take them and put outcomes, and the caller takes those. Contracts see the messages that a pass
//! has put and taken, so no message is lost, duplicated or invented between threads, in whatever
//! order they run. The `laws` relate the messages that have arrived to what the sources state.
#![tactic(auto)]

mod auditing;
mod caller;
mod fault;
mod gate;
mod gather;
mod handoff;
pub mod laws;
mod message;
mod prepared;
mod readers;
mod roster;
mod rule;
mod sender;
mod shared;
mod source;
mod wakes;
mod worker;
mod workers;

pub use audit_collect::{
    Answer, Arrival, CollectFault, Refused, Report, RosterFault, SenderReport, Unfinished,
};
pub use audit_files::{
    Device, Failed, Feed, FileFault, Requests, Script, Sink, WriteFault, read_hosts, read_requests,
    read_users, report_text, write_all_of,
};
pub use auditing::audit;
pub use fault::AuditFault;
pub use gate::{Gate, Open};
pub use handoff::{Handoff, Pass};
pub use message::{Job, Names, Outcome};
pub use roster::roster_of;
pub use source::Source;
