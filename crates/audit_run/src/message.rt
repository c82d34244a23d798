//! The messages in the two queues.

use crate::rule::Message;
use audit_collect::Arrival;
use sudo_match::{Directory, Request};
use sudo_policy::Checked;

/// The policy and the directory that a pass names. Only contracts see it; no value of it exists.
pub struct Names {
    pub policy: Checked,
    pub directory: Directory,
}

/// A message of a sender to the workers, or `Stop`, which the caller puts for each worker. `sender`
/// is the sender's index in the roster, from 0.
#[derive(Drop)]
pub enum Job {
    /// A request to be judged.
    Ask { sender: u32, request: Request },
    /// The sender's close mark.
    Close { sender: u32, count: u32 },
    /// The last message of one source of the sender.
    End { sender: u32 },
    /// The last message that a worker takes.
    Stop,
}

/// A message of a worker to the caller.
#[derive(Drop)]
pub enum Outcome {
    /// An arrival for the collector.
    Arrived(Arrival),
    /// The answer to `Job::End`.
    End { sender: u32 },
    /// The answer to `Job::Stop`.
    Stopped,
}

impl Message<Names> for Job {
    ghost use Rattle.std.specs.Prelude.{⊤};

    ghost fits = { λ names job. ⊤ };
}

impl Message<Names> for Outcome {
    ghost use Rattle.audit_run.specs.Names.{IsRight};

    ghost fits = { λ names outcome. IsRight names outcome };
}
