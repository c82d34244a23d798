//! The arrivals that the caller gathers.
ghost use Rattle.std.specs.Prelude.{◌≡◌};
ghost use Rattle.audit_run.specs.Body.Gathered.{running_of};

use audit_collect::{Collector, Refused};

/// A collector, its first refusal, and how many threads still run.
#[derive(Drop)]
pub struct Gathering {
    pub collector: Collector,
    pub refused: Option<Refused>,
    /// The number of sources that have not put `End` yet.
    pub sources_running: usize,
    /// The number of workers that have not put `Stopped` yet.
    pub workers_running: usize,
}

/// The threads that a run waits for.
#[derive(Clone, Copy)]
pub enum Awaited {
    Sources,
    Workers,
}

impl Gathering {
    /// Returns the number of awaited threads that still run.
    pub fn running(&self, awaited: Awaited) -> usize
        ensures { result ≡ running_of awaited self.now }
    {
        match awaited {
            Awaited::Sources => self.sources_running,
            Awaited::Workers => self.workers_running,
        }
    }
}
