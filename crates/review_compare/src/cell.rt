//! The cells of two policies: who asks, where, and as whom.

/// What is asked: the indices of a known user and of a group, if any.
#[derive(Clone, Copy, Debug, PartialEq, Eq)]
pub struct Ask {
    /// The user that is asked for.
    pub target: Option<usize>,
    /// The group that is asked for.
    pub group: Option<usize>,
}

/// Which users are asked for.
#[derive(Clone, Copy, Debug, PartialEq, Eq, PartialOrd, Ord)]
pub enum AskedTargets {
    /// No one, or the user at an index.
    One(Option<usize>),
    /// The users from an index on, up to, but without, the one at another index.
    Range {
        /// The first index.
        first: usize,
        /// The index behind the last.
        end: usize,
    },
}

/// Which groups are asked for with a target.
#[derive(Clone, Copy, Debug, PartialEq, Eq)]
pub enum AskedGroups {
    /// No group, or the one at an index.
    One(Option<usize>),
    /// Each group that the target has.
    Own,
    /// Each group that the target has not.
    Others,
}

/// A user on a host who asks.
#[derive(Clone, Copy, Debug, PartialEq, Eq)]
pub struct Cell {
    /// The index of the user among the known ones.
    pub user: usize,
    /// The index of the host among the known ones.
    pub host: usize,
    /// What is asked.
    pub ask: Ask,
}
