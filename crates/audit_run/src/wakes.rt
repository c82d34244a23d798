//! Where the threads of an audit sleep while a queue is empty or full, and how others wake them.
//!
//! After a failed try a thread spins for a few turns, and then yields for some: where messages come
//! fast, to sleep and to be woken takes longer. Then it announces that it will sleep, and tries once
//! more, so that no change between its last try and its sleep is missed. To wake a thread is a call
//! of the system, so it is not done for each message: a thread wakes others at some of its messages,
//! whenever it is about to sleep itself, and when it ends. So no message and no room stays unseen
//! when all threads sleep.
//!
//! Contracts see nothing of this: no clause says that a thread wakes.

use crossbeam_utils::sync::{EventCount, Key};
use std::sync::Wait;
use std::sync::atomic::{AtomicU64, Ordering};
use std::{hint, thread};

// The number of messages after which a thread looks whether to wake others.
const BATCH: u32 = 16;

// The number of jobs, done by all workers, after which one of them wakes a sender and the caller:
// half of what a queue holds.
const HALF: u64 = 128;

// The number of failed tries between which a thread yields, after those between which it spins.
const YIELDS: u32 = 8;

/// What a thread may wait for.
#[derive(Clone, Copy)]
pub enum Need {
    /// A job, for a worker.
    Job,
    /// Room for a job, for a sender.
    JobRoom,
    /// An outcome, for the caller.
    Outcome,
    /// Room for an outcome, for a worker.
    OutcomeRoom,
}

impl Need {
    // Returns the number of failed tries between which a thread spins. A job that is put wakes no
    // worker at once, so workers spin longer.
    fn spins(self) -> u32 {
        match self {
            Need::Job => 7,
            Need::JobRoom | Need::Outcome | Need::OutcomeRoom => 5,
        }
    }
}

/// The events for which threads sleep.
#[derive(Drop)]
pub struct Wakes {
    job: EventCount,
    job_room: EventCount,
    outcome: EventCount,
    outcome_room: EventCount,
    // How many jobs the workers have done, in whole batches.
    done: AtomicU64,
}

impl Wakes {
    /// Returns the events of an audit. No thread sleeps yet.
    pub fn new() -> Wakes {
        Wakes {
            job: EventCount::new(),
            job_room: EventCount::new(),
            outcome: EventCount::new(),
            outcome_room: EventCount::new(),
            done: AtomicU64::new(0),
        }
    }

    // Returns the event that ends the wait for a need.
    fn event(&self, need: Need) -> &EventCount {
        match need {
            Need::Job => &self.job,
            Need::JobRoom => &self.job_room,
            Need::Outcome => &self.outcome,
            Need::OutcomeRoom => &self.outcome_room,
        }
    }

    /// Wakes all threads that wait for what a thread with this need puts, or for the room that it
    /// frees. A thread calls this before it sleeps, and when it ends.
    pub fn wake_all(&self, need: Need) {
        match need {
            Need::JobRoom => self.job.notify_all(),
            Need::Outcome => self.outcome_room.notify_all(),
            Need::Job | Need::OutcomeRoom => {
                self.job_room.notify_all();
                self.outcome.notify_all();
            }
        }
    }

    /// Wakes others after each batch of the messages that a thread with this need puts or takes. The
    /// number of messages so far may wrap.
    #[inline]
    pub fn count(&self, need: Need, messages: u32) {
        if messages % BATCH == 0 {
            self.wake_after_batch(need);
        }
    }

    // Wakes one thread of each kind that a thread with this need can wake, after a batch of its
    // messages. Workers do so after each half queue of jobs that they have done together.
    fn wake_after_batch(&self, need: Need) {
        match need {
            Need::JobRoom => self.job.notify_one(),
            Need::Outcome => self.outcome_room.notify_one(),
            Need::Job | Need::OutcomeRoom => {
                let done = self.done.fetch_add(u64::from(BATCH), Ordering::SeqCst);
                if done % HALF == 0 {
                    self.job_room.notify_one();
                    self.outcome.notify_one();
                }
            }
        }
    }
}

/// The tries of one thread to put or take messages of one kind.
#[derive(Drop)]
pub struct Tries<'e> {
    wakes: &'e Wakes,
    need: Need,
    // How often the thread has failed since it succeeded or slept.
    failures: u32,
    // How many messages the thread has put or taken; it may wrap.
    messages: u32,
    // The announcement, if the next failure is to end in sleep.
    announced: Option<Key<'e>>,
}

impl<'e> Tries<'e> {
    /// Returns the tries of a thread that has made none.
    pub fn new(wakes: &'e Wakes, need: Need) -> Tries<'e> {
        Tries {
            wakes,
            need,
            failures: 0,
            messages: 0,
            announced: None,
        }
    }

    /// Counts a message, after a try that succeeded.
    pub fn succeeded(&mut self) {
        if self.failures != 0 {
            self.failures = 0;
            self.announced = None;
        }
        self.messages = self.messages.wrapping_add(1);
        self.wakes.count(self.need, self.messages);
    }

    /// Passes the time after a failed try: spins, or yields, or announces that the thread will sleep,
    /// or wakes others and sleeps. The thread has to try again after each call.
    pub fn failed<R: Wait>(&mut self, rt: &R) {
        if let Some(key) = self.announced.take() {
            self.wakes.wake_all(self.need);
            key.wait(rt);
            self.failures = 0;
        } else if self.failures < self.need.spins() {
            spin(self.failures);
            self.failures += 1;
        } else if self.failures < self.need.spins().saturating_add(YIELDS) {
            thread::yield_now();
            self.failures += 1;
        } else {
            self.announced = Some(self.wakes.event(self.need).prepare_wait());
        }
    }
}

// Spins for a time that doubles with each failure.
fn spin(failures: u32) {
    for _ in 0..1u32 << failures.min(6) {
        hint::spin_loop();
    }
}
