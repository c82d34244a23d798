//! The rows of an index that have the rules of a user or of a command.

ghost use Rattle.std.specs.Prelude.{ℕ, ◌≡◌, ◌+◌, ◌*◌, ◌<◌, false, length};
ghost use Rattle.sudo_verdict.specs.Postings.{bit, is_in_row};
ghost use Rattle.sudo_verdict.specs.Body.Blocks.{IsMissed};

use crate::index::rows::{Rows, set_all};

// The most rows that are listed.
const LISTED: usize = 64;

/// The rows of some numbers, without those that are empty. Where there are more than 64, all rules count as theirs.
#[derive(Clone, Copy)]
pub(crate) struct RowList {
    numbers: [u16; LISTED],
    // The number of rows; one more than can be listed stands for all rules.
    count: usize,
}

impl RowList {
    /// Creates an empty list.
    pub(crate) fn new() -> RowList {
        RowList {
            numbers: [0; LISTED],
            count: 0,
        }
    }

    /// Adds the row of a number.
    pub(crate) fn add(&mut self, rows: &Rows, number: usize)
        requires rows { 0 < length rows.now.rows.items }
        requires number { number < 16384 }
        ensures adds { (rule : ℕ) → IsMissed rows.now.rows.items self.new rule
            → is_in_row rows.now.rows.items number rule ≡ false }
        ensures keeps { (rule : ℕ) → IsMissed rows.now.rows.items self.new rule
            → IsMissed rows.now.rows.items self.old rule }
    {
        if rows.is_empty(number) {
            return;
        }
        if self.count < LISTED {
            self.numbers[self.count] = number as u16;
            self.count += 1;
        } else {
            self.count = LISTED + 1;
        }
    }

    /// Adds the rules of the rows to those of a block, which begins at word `first`.
    pub(crate) fn add_to(&self, rows: &Rows, first: usize, block: &mut [u64])
        requires { 0 < length rows.now.rows.items }
        ensures count { length block.new ≡ length block.old }
        ensures has { (i : ℕ) → i < 64 * length block.new → bit block.new i ≡ 0
            → IsMissed rows.now.rows.items self.now (64 * first + i) }
    {
        if self.count > LISTED {
            set_all(block);
            return;
        }
        for index in 0..self.count {
            rows.add_to(self.numbers[index] as usize, first, block);
        }
    }
}
