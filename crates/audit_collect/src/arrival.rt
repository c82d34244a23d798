//! Messages to a collector.

use sudo_match::{Request, Verdict};

/// The verdict on one request of a sender.
#[derive(Clone, Debug, Drop, PartialEq, Eq)]
pub struct Answer {
    /// The sender's index in the roster, from 0.
    pub sender: u32,
    pub request: Request,
    pub verdict: Verdict,
}

/// A message to a collector.
#[derive(Clone, Debug, Drop, PartialEq, Eq)]
pub enum Arrival {
    /// The answer to a request.
    Reply(Answer),
    /// The close mark of a sender: how many requests it sent.
    Close { sender: u32, count: u32 },
}
