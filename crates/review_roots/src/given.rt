//! What rows give, whatever the command.
ghost use Rattle.std.specs.Prelude.{◌≡◌, if◌then◌else◌};
ghost use Rattle.review_roots.specs.Asked as asked;
ghost use Rattle.review_roots.specs.Blocks as blocks;
ghost use Rattle.review_roots.specs.Body.Rows as behind;
ghost use Rattle.review_roots.specs.States.{level_for};
ghost use Rattle.review_roots.specs.declared.level.Level.TheVariants as level;

use crate::Level;
use crate::block::Block;
use review_grants::{Marks, UNMARKED};
use sudo_match::Tags;
use sudo_text::Place;

/// A row that allows: the place of its rule, and its tags.
#[derive(Clone, Copy, Debug, PartialEq, Eq)]
pub struct AllowingRow {
    /// The place of its rule.
    pub place: Place,
    /// The tags in force at its command.
    pub tags: Tags,
}

/// What rows give, whatever the command: an upper bound over every choice of the notes that are met.
#[derive(Clone, Copy, Debug, PartialEq, Eq)]
pub struct Given {
    /// The level of what they allow.
    pub level: Level,
    /// Whether every command is allowed with NOPASSWD: the level is then `All`.
    pub free: bool,
    /// Whether a command may be allowed with NOPASSWD.
    pub unasked: bool,
    /// The last of them that allows, if any.
    pub by: Option<AllowingRow>,
    /// The notes on which the bound depends. Without notes the bound is exact.
    pub marks: Marks,
}

/// Which steps count.
#[derive(Clone, Copy, Debug, PartialEq, Eq)]
pub(crate) enum Counted {
    /// All.
    Any,
    /// Those that allow a command with NOPASSWD, perhaps.
    Unasked,
    /// Those that allow every command with NOPASSWD.
    Free,
}

/// What no row gives.
pub(crate) const NOTHING: Given = Given {
    level: Level::None,
    free: false,
    unasked: false,
    by: None,
    marks: UNMARKED,
};

impl Given {
    /// Returns what is given with the rows of a further block.
    pub(crate) fn with_block(self, block: &Block<'_>) -> Given
        ensures { result ≡ blocks.with_rows self (blocks.block_rows block.now) }
    {
        Given {
            level: block.effect.level_after(self.level),
            free: block.effect.is_free_after(self.free),
            unasked: block.effect.is_unasked_after(self.unasked),
            by: self.by_behind(block),
            marks: block.effect.marks_after(self.marks),
        }
    }

    // Returns the last row that allows, of those before the block and of its own.
    fn by_behind(self, block: &Block<'_>) -> Option<AllowingRow>
        ensures { result ≡ behind.by_behind block.now self.by }
    {
        if block.effect.allows {
            Some(AllowingRow {
                place: block.place,
                tags: block.tags,
            })
        } else {
            self.by
        }
    }

    // Whether the other is free of passwords, or lets a command go unasked, where this one does not.
    fn is_eased(self, other: Given) -> bool
        ensures { result ≡ asked.is_easier self other }
    {
        (other.free && !self.free) || (other.unasked && !self.unasked)
    }

    // Whether the other is better: by the level, and then by the password.
    fn is_improved(self, other: Given) -> bool
        ensures { result ≡ asked.is_better self other }
    {
        let (own, its) = (self.level.rank(), other.level.rank());
        own < its || (own == its && self.is_eased(other))
    }

    /// Returns the level, if the step counts, and otherwise `None`.
    pub(crate) fn level_for(self, counted: Counted) -> Level
        ensures { result ≡ level_for counted self }
    {
        match counted {
            Counted::Any => self.level,
            Counted::Unasked => self.level_if(self.unasked),
            Counted::Free => self.level_if(self.free),
        }
    }

    // Returns the level, if that counts, and otherwise `None`.
    fn level_if(self, counts: bool) -> Level
        ensures { result ≡ (if counts then self.level else level.None) }
    {
        if counts { self.level } else { Level::None }
    }

    /// Returns the better of the two: by the level, and then by the password.
    pub(crate) fn better(self, other: Given) -> Given
        ensures { result ≡ asked.better self other }
    {
        if self.is_improved(other) { other } else { self }
    }
}
