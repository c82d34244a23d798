//! What rows may give at best, where it is not known which of their blocks stand.
ghost use Rattle.std.specs.Prelude.{◌≡◌, if◌then◌else◌};
ghost use Rattle.review_roots.specs.Body.May as spec;
ghost use Rattle.review_roots.specs.declared.level.Level.TheVariants as level;

use crate::Level;
use crate::block::Block;
use crate::effect::Effect;
use crate::given::Counted;

/// What rows may give at best: the level, the level where a command may go unasked, and whether they may be free of passwords.
#[derive(Clone, Copy, Debug, PartialEq, Eq)]
pub(crate) struct May {
    pub(crate) level: Level,
    pub(crate) unasked: Level,
    pub(crate) free: bool,
}

/// What may be given without a row: nothing.
pub(crate) const MAY_NOTHING: May = May {
    level: Level::None,
    unasked: Level::None,
    free: false,
};

impl May {
    // Returns the best level behind the rows of this effect where a command may go unasked.
    fn unasked_behind(self, effect: Effect) -> Level
        ensures { result ≡ spec.unasked_behind self effect }
    {
        if effect.is_unasked_after(false) {
            effect.level_after(self.level)
        } else if effect.is_unasked_after(true) {
            effect.level_after(self.unasked)
        } else {
            Level::None
        }
    }

    /// Returns what may be given with the rows of a further block, which may stand or not.
    pub(crate) fn with_block(self, block: &Block<'_>) -> May
        ensures { result ≡ spec.may_with self block.now }
    {
        May {
            level: self.level.best(block.effect.level_after(self.level)),
            unasked: self.unasked.best(self.unasked_behind(block.effect)),
            free: self.free || block.effect.is_free_after(self.free),
        }
    }

    /// Returns the best level of a step that counts.
    pub(crate) fn level_for(self, counted: Counted) -> Level
        ensures { result ≡ spec.may_for counted self }
    {
        match counted {
            Counted::Any => self.level,
            Counted::Unasked => self.unasked,
            Counted::Free => self.level_if_free(),
        }
    }

    // Returns the level if the rows may be free of passwords, and otherwise `None`.
    fn level_if_free(self) -> Level
        ensures { result ≡ (if self.free then self.level else level.None) }
    {
        if self.free { self.level } else { Level::None }
    }
}
