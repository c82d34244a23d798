//! Faults of a collector.

use sudo_text::Seq;
use thiserror::Error;

/// The reason why a roster has no collector.
#[derive(Clone, Debug, Drop, PartialEq, Eq, Error)]
pub enum RosterFault {
    /// A name repeats an earlier one; this is the first such.
    #[error("a sender twice")]
    SenderTwice { name: Seq<u8> },
    /// There are more than 64 senders.
    #[error("too many senders")]
    TooManySenders,
    /// Out of memory.
    #[error("out of memory")]
    Memory,
}

/// The reason why an arrival is refused. `sender` is the sender's index in the roster, from 0.
#[derive(Clone, Copy, Debug, PartialEq, Eq, Error)]
pub enum Refused {
    /// The sender is not in the roster.
    #[error("no sender {sender}")]
    Stranger { sender: u32 },
    /// The number of a reply is 0.
    #[error("sender {sender}: zero as a number")]
    ZeroNumber { sender: u32 },
    /// A reply with this number was accepted from this sender before.
    #[error("sender {sender}: request {number} twice")]
    Double { sender: u32, number: u32 },
    /// The sender was closed before.
    #[error("sender {sender}: closed twice")]
    ClosedTwice { sender: u32 },
    /// A reply's number exceeds the count of its sender's close mark; or the count of a close mark is
    /// below an accepted number, which `number` then is.
    #[error("sender {sender}: request {number} past close")]
    PastClose { sender: u32, number: u32 },
    /// Out of memory.
    #[error("out of memory")]
    Memory,
}

/// The reason why there is no report yet. `sender` is the sender's index in the roster, from 0.
#[derive(Clone, Copy, Debug, PartialEq, Eq, Error)]
pub enum Unfinished {
    /// The sender is not closed.
    #[error("sender {sender}: not closed")]
    Open { sender: u32 },
    /// No reply has this number; it is the least such number up to the sender's count.
    #[error("sender {sender}: request {number} missing")]
    Gap { sender: u32, number: u32 },
}

/// The reason why a list of arrivals has no report.
#[derive(Clone, Debug, Drop, PartialEq, Eq, Error)]
pub enum CollectFault {
    /// The roster has no collector.
    #[error(transparent)]
    Roster(RosterFault),
    /// An arrival is refused; this is the first such.
    #[error(transparent)]
    Refused(Refused),
    /// Something is missing after the last arrival.
    #[error(transparent)]
    Unfinished(Unfinished),
}
