//! Sets of numbers and of marks as bits, by which members of lists are passed over.

ghost use Rattle.std.specs.Prelude.{ℕ, ◌≡◌, true};
ghost use Rattle.sudo_verdict.specs.Body.NumberSets.{has_mark, has_marks, set_has};

use crate::index::numbers::group_mark;
use crate::index::rows::set_bit;
use sudo_match::Group;

// The number of bits, of which several numbers share each.
const BITS: usize = 1024;

/// A set of numbers, which may have further ones.
#[derive(Clone, Copy)]
pub(crate) struct NumberSet {
    words: [u64; BITS / 64],
}

impl NumberSet {
    /// Creates an empty set.
    pub(crate) fn new() -> NumberSet {
        NumberSet {
            words: [0; BITS / 64],
        }
    }

    /// Adds a number to the set.
    pub(crate) fn add(&mut self, number: usize)
        ensures adds { set_has self.new.words number ≡ true }
        ensures keeps { (other : ℕ) → set_has self.old.words other ≡ true
            → set_has self.new.words other ≡ true }
    {
        set_bit(&mut self.words, number % BITS);
    }

    /// Whether the set has the number.
    pub(crate) fn has(&self, number: usize) -> bool
        ensures { result ≡ set_has self.now.words number }
    {
        let bit = number % BITS;
        self.words[bit / 64] >> (bit % 64) & 1 == 1
    }
}

/// A set of marks of groups' names.
#[derive(Clone, Copy)]
pub(crate) struct MarkSet {
    words: [u64; 1],
}

impl MarkSet {
    // Adds a mark to the set.
    fn add(&mut self, mark: usize)
        ensures adds { has_mark self.new.words mark ≡ true }
        ensures keeps { (other : ℕ) → has_mark self.old.words other ≡ true
            → has_mark self.new.words other ≡ true }
    {
        set_bit(&mut self.words, mark % 64);
    }

    /// Whether the set has the mark.
    pub(crate) fn has(&self, mark: usize) -> bool
        ensures { result ≡ has_mark self.now.words mark }
    {
        let bit = mark % 64;
        self.words[bit / 64] >> (bit % 64) & 1 == 1
    }

    /// Returns the set of the marks of groups.
    pub(crate) fn of_groups(groups: &[Group]) -> MarkSet
        ensures { has_marks result.words groups.now ≡ true }
    {
        let mut marks = MarkSet { words: [0; 1] };
        for group in groups {
            marks.add(group_mark(group.name.as_slice()));
        }
        marks
    }
}
