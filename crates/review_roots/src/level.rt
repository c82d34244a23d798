//! How much of what can be asked a list of rows allows.
ghost use Rattle.std.specs.Prelude.{◌≡◌};
ghost use Rattle.review_roots.specs.Levels.{lowered, raised, after_row, after_signed};
ghost use Rattle.review_roots.specs.Ranks.{best, rank, is_at_least, least, level_name};

use review_grants::Marks;

/// What the rows that let a user run commands as one target allow, whatever the command.
#[derive(Clone, Copy, Debug, PartialEq, Eq)]
pub enum Level {
    /// No command.
    None,
    /// Commands that are listed, if any.
    Listed,
    /// Every command but some that are listed.
    AllBut,
    /// Every command.
    All,
}

impl Level {
    /// Returns the name of the level.
    pub fn name(self) -> &'static [u8]
        ensures { result.now ≡ level_name self }
    {
        match self {
            Level::None => b"none",
            Level::Listed => b"listed",
            Level::AllBut => b"all-but",
            Level::All => b"all",
        }
    }

    /// Returns the place of the level in their order, from the least on.
    pub(crate) fn rank(self) -> u8
        ensures { result ≡ rank self }
    {
        match self {
            Level::None => 0,
            Level::Listed => 1,
            Level::AllBut => 2,
            Level::All => 3,
        }
    }

    /// Whether the level is another one or a better one.
    pub fn is_at_least(self, other: Level) -> bool
        ensures { result ≡ is_at_least other self }
    {
        other.rank() <= self.rank()
    }

    /// Returns the lesser of two levels.
    pub fn least(self, other: Level) -> Level
        ensures { result ≡ least self other }
    {
        if other.is_at_least(self) { self } else { other }
    }

    /// Returns the better of two levels.
    pub(crate) fn best(self, other: Level) -> Level
        ensures { result ≡ best self other }
    {
        if other.is_at_least(self) { other } else { self }
    }

    // Returns the level after a listed command that is denied.
    fn lowered(self) -> Level
        ensures { result ≡ lowered self }
    {
        match self {
            Level::All => Level::AllBut,
            Level::None | Level::Listed | Level::AllBut => self,
        }
    }

    // Returns the level after a listed command that is allowed.
    fn raised(self) -> Level
        ensures { result ≡ raised self }
    {
        match self {
            Level::None => Level::Listed,
            Level::Listed | Level::AllBut | Level::All => self,
        }
    }

    // Returns the level after a further row without notes: whether it is negated, and whether its command is `ALL`.
    fn after_signed(self, negated: bool, is_all: bool) -> Level
        ensures { result ≡ after_signed self negated is_all }
    {
        match (negated, is_all) {
            (true, true) => Level::None,
            (true, false) => self.lowered(),
            (false, true) => Level::All,
            (false, false) => self.raised(),
        }
    }

    /// Returns the level after a further row of a rule with these notes: the better of the levels with and without the row.
    pub(crate) fn after(self, marks: Marks, negated: bool, is_all: bool) -> Level
        ensures { result ≡ after_row marks self negated is_all }
    {
        let after = self.after_signed(negated, is_all);
        if marks.is_unmarked() {
            after
        } else {
            self.best(after)
        }
    }
}
