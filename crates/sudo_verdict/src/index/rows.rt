//! Rules by number, as rows of bits.

ghost use Rattle.std.specs.Prelude.{ℕ, ◌≡◌, ◌+◌, ◌%◌, ◌*◌, ◌<◌, ◌≤◌, true, false, IfOk, OnOk, length};
ghost use Rattle.sudo_verdict.specs.Postings.{bit, is_in_row};
ghost use Rattle.sudo_verdict.specs.Body.Postings.{Grows};
ghost use Rattle.sudo_verdict.specs.Body.Blocks.{AddsWords, StartsAt, UnitesRow};

use crate::index::numbers::NUMBERS;
use std::alloc::{AllocError, Global};

/// The rules that are posted under each number, a bit for each rule.
#[derive(Drop)]
pub(crate) struct Rows {
    pub(crate) rows: Vec<Vec<u64>>,
}

/// Sets the bit of a rule, which is within the words.
pub(crate) fn set_bit(words: &mut [u64], rule: usize)
    requires { rule < 64 * length words.old }
    ensures count { length words.new ≡ length words.old }
    ensures sets { bit words.new rule ≡ 1 }
    ensures keeps { (other : ℕ) → bit words.old other ≡ 1 → bit words.new other ≡ 1 }
{
    words[rule / 64] |= 1 << (rule % 64);
}

/// Sets all bits of a block.
pub(crate) fn set_all(block: &mut [u64])
    ensures count { length block.new ≡ length block.old }
    ensures sets { (i : ℕ) → i < 64 * length block.new → bit block.new i ≡ 1 }
{
    for index in 0..block.len() {
        block[index] = u64::MAX;
    }
}

// Sets the bit of a rule in a row, extending the row up to it. Returns `AllocError` if allocation fails.
fn post_in(row: &mut Vec<u64>, rule: usize) -> Result<(), AllocError>
    ensures sets { OnOk result (bit row.new.items rule ≡ 1) }
    ensures keeps { (other : ℕ) → bit row.old.items other ≡ 1 → bit row.new.items other ≡ 1 }
{
    while row.len() <= rule / 64 {
        row.push(0)?;
    }
    set_bit(row.as_mut_slice(), rule);
    Ok(())
}

// Adds the bits of words to those of a block, up to its end.
fn or_words(block: &mut [u64], words: &[u64])
    ensures count { length block.new ≡ length block.old }
    ensures adds { AddsWords words.now block.old block.new }
{
    let count = block.len().min(words.len());
    for index in 0..count {
        block[index] |= words[index];
    }
}

// Returns the number of words before the first that is not zero, or `limit` if that is less.
fn zeros_before(words: &[u64], limit: usize) -> usize
    ensures zeros { (i : ℕ) → i < 64 * result → bit words.now i ≡ 0 }
    ensures within { result ≤ limit }
{
    let count = words.len().min(limit);
    for at in 0..count {
        if words[at] != 0 {
            return at;
        }
    }
    limit
}

impl Rows {
    /// Creates empty rows for this many rules, of this many words of 64 rules in all: if a row for each number would need
    /// more, several numbers share a row. Returns `AllocError` if allocation fails.
    pub(crate) fn new(alloc: Global, rules: usize, words: usize) -> Result<Rows, AllocError>
        ensures { IfOk result (λ r. 0 < length r.rows.items) }
    {
        let count = (words / (rules / 64 + 1)).clamp(1, NUMBERS);
        let mut rows = Vec::with_capacity(alloc, count)?;
        for _ in 0..count {
            rows.push(Vec::new(alloc))?;
        }
        Ok(Rows { rows })
    }

    // Returns the index of the row of a number. A remainder is dear, and in most indexes each number has a row.
    fn row_index(&self, number: usize) -> usize
        requires { 0 < length self.now.rows.items }
        ensures { result ≡ number % length self.now.rows.items }
    {
        let count = self.rows.len();
        if number < count {
            number
        } else {
            number % count
        }
    }

    /// Whether the row of a number is empty. False if it may have a rule.
    pub(crate) fn is_empty(&self, number: usize) -> bool
        requires { 0 < length self.now.rows.items }
        ensures { result ≡ true
            → (rule : ℕ) → is_in_row self.now.rows.items number rule ≡ false }
    {
        self.rows[self.row_index(number)].as_slice().is_empty()
    }

    /// Posts a rule to the row of a number. Returns `AllocError` if allocation fails.
    pub(crate) fn post(&mut self, number: usize, rule: usize) -> Result<(), AllocError>
        requires { 0 < length self.old.rows.items }
        ensures count { length self.new.rows.items ≡ length self.old.rows.items }
        ensures grows { Grows self.old.rows.items self.new.rows.items }
        ensures posted { OnOk result (is_in_row self.new.rows.items number rule ≡ true) }
    {
        let index = self.row_index(number);
        post_in(&mut self.rows[index], rule)
    }

    /// Adds the rules of a number to those of a block, which begins at word `first`.
    pub(crate) fn add_to(&self, number: usize, first: usize, block: &mut [u64])
        requires { 0 < length self.now.rows.items }
        ensures count { length block.new ≡ length block.old }
        ensures adds { UnitesRow self.now.rows.items number first block.old block.new }
    {
        let row = self.rows[self.row_index(number)].as_slice();
        if first < row.len() {
            or_words(block, &row[first..]);
        }
    }

    /// Returns a number of words before which no row has a rule, at most `limit`.
    pub(crate) fn start(&self, limit: usize) -> usize
        ensures { StartsAt self.now.rows.items result }
    {
        let mut start = limit;
        for row in self.rows.as_slice() {
            start = zeros_before(row.as_slice(), start);
        }
        start
    }
}
