//! Calls with little memory: all but a budget is taken, and the budget grows from call to call until nothing is refused.
//!
//! What is taken is never written to, so it costs addresses and little memory. It takes an allocator that runs out of them:
//! that of `rt test` does, and that of `rt try` does not, so a test that needs a budget fails there.
#![tactic(auto)]

ghost use Rattle.std.specs.Thread.{IsSync};

use std::alloc::{AllocError, Global};
use std::sync::Wait;
use std::test::Fail;
use std::thread::Threads;

/// How a call ended.
#[derive(Clone, Copy)]
pub enum End {
    /// Memory was refused, and what was handed in is as before.
    Refused,
    /// The answer came that comes with memory.
    Answered,
    /// Anything else.
    Wrong,
}

impl End {
    /// Returns how a call ended that returned an answer, by whether it is the right one.
    pub fn of(is_right: bool) -> End {
        if is_right { End::Answered } else { End::Wrong }
    }
}

/// The bytes of memory beside the budget, which are there before and after a call.
pub const ROOM: usize = 1 << 22;

/// The same with the stacks of several threads.
pub const ROOM_WITH_THREADS: usize = 1 << 28;

const UNLIMITED: &str = "memory is not limited here";

/// Takes blocks of falling sizes, down to 8 bytes at last. Returns whether no more of the last size can be taken.
fn fill(alloc: Global, blocks: &mut Vec<Vec<u8>>, largest: usize, last: usize) -> bool {
    let mut size = largest;
    for _ in 0..1_000_000u32 {
        if size < last {
            return true;
        }
        if blocks.len() >= blocks.capacity() {
            return false;
        }
        match Vec::<u8>::with_capacity(alloc, size) {
            Ok(block) => {
                if blocks.push(block).is_err() {
                    return false;
                }
            }
            Err(_) if size > 1024 => size /= 2,
            Err(_) => size = size.saturating_sub(8),
        }
    }
    false
}

/// The memory of a call.
#[derive(Drop)]
pub struct Memory {
    alloc: Global,
    /// The bytes beside the budget.
    room: usize,
    /// The bytes that the call may use; `None` for all that there are.
    budget: Option<usize>,
    /// What is taken during the call.
    taken: Vec<Vec<u8>>,
    /// Whether all was taken each time.
    is_limited: bool,
}

impl Memory {
    /// Returns memory with no bytes beside this room.
    fn new(alloc: Global, room: usize) -> Result<Memory, AllocError> {
        Ok(Memory {
            alloc,
            room,
            budget: Some(0),
            taken: Vec::with_capacity(alloc, 2000)?,
            is_limited: true,
        })
    }

    /// Takes all memory but the budget.
    pub fn take(&mut self) {
        if let Some(budget) = self.budget {
            let held = Vec::<u8>::with_capacity(self.alloc, budget);
            if !fill(self.alloc, &mut self.taken, self.room, 8) {
                self.is_limited = false;
            }
            drop(held);
        }
    }

    /// Gives back what was taken.
    pub fn give_back(&mut self) {
        self.taken.clear();
    }

    /// Makes the budget larger by an eighth and 16 bytes.
    fn grow(&mut self) {
        if let Some(budget) = self.budget {
            self.budget = Some(budget.saturating_add(budget / 8 + 16));
        }
    }
}

/// A call that memory may be refused to.
pub trait Trial {
    /// Makes the call between `take` and `give_back`, and returns how it ended.
    fn once<R: Threads + Wait + Sync>(&self, rt: &R, memory: &mut Memory) -> Result<End, Fail>
        requires sync { IsSync R.row };
}

/// Makes the call with larger and larger budgets, from none, until one is not refused. Fails if an answer is another than with
/// memory, or if no budget is refused, or each.
fn grown<R: Threads + Wait + Sync, T: Trial>(
    rt: &R,
    trial: &T,
    memory: &mut Memory,
) -> Result<(), Fail> {
    memory.budget = Some(0);
    for refused in 0..200u32 {
        let end = trial.once(rt, memory)?;
        if !memory.is_limited {
            return Err(Fail::new(UNLIMITED));
        }
        match end {
            End::Refused => memory.grow(),
            End::Answered if refused > 0 => return Ok(()),
            End::Answered => return Err(Fail::new("no budget is refused")),
            End::Wrong => return Err(Fail::new("another answer")),
        }
    }
    Err(Fail::new("each budget is refused"))
}

/// Makes each call with larger and larger budgets until one is not refused, and then with all memory. Fails if an answer is
/// another than with memory, or if no budget of a call is refused, or each. `room` is the bytes that are there beside a budget,
/// before and after a call: `ROOM`, or `ROOM_WITH_THREADS` where the calls start threads.
pub fn swept<R: Threads + Wait + Sync, T: Trial>(
    alloc: Global,
    rt: &R,
    room: usize,
    trials: &[T],
) -> Result<(), Fail> {
    let mut memory = Memory::new(alloc, room)?;
    let room = Vec::<u8>::with_capacity(alloc, room)?;
    let mut blocks = Vec::with_capacity(alloc, 100_000)?;
    if !fill(alloc, &mut blocks, 1 << 46, 1 << 20) {
        return Err(Fail::new(UNLIMITED));
    }
    drop(room);
    for trial in trials {
        grown(rt, trial, &mut memory)?;
    }
    drop(blocks);
    memory.budget = None;
    for trial in trials {
        if !matches!(trial.once(rt, &mut memory)?, End::Answered) {
            return Err(Fail::new("another answer with all memory"));
        }
    }
    Ok(())
}
