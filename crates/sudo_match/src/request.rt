//! Requests and verdicts.

use sudo_grammar::TAG_PAIRS;
use sudo_text::{Place, Seq};

/// A request to run a command: who asks, where, and as whom.
#[derive(Clone, Debug, Drop, PartialEq, Eq)]
pub struct Request {
    /// The number that its sender gives it, from 1.
    pub number: u32,
    /// The name of the invoking user.
    pub user: Seq<u8>,
    /// The name of the host on which the command is to run.
    pub host: Seq<u8>,
    /// The user to run it as, where one is asked for.
    pub runas_user: Option<Seq<u8>>,
    /// The group to run it with, where one is asked for.
    pub runas_group: Option<Seq<u8>>,
    /// The command, by its absolute path, or `sudoedit`.
    pub command: Seq<u8>,
    /// Its arguments, joined by spaces.
    pub arguments: Seq<u8>,
}

/// A choice for each pair of tags, or none: `Some(true)` is the tag (`EXEC`), `Some(false)` its opposite (`NOEXEC`).
#[derive(Clone, Copy, Debug, PartialEq, Eq)]
pub struct Tags {
    /// In the order of `TAG_PAIRS`.
    pub choices: [Option<bool>; TAG_PAIRS.len()],
}

/// Which name of a request is unknown.
#[derive(Clone, Copy, Debug, PartialEq, Eq)]
pub enum What {
    /// The invoking user.
    User,
    /// The host.
    Host,
    /// The user to run as.
    Target,
    /// The group to run with.
    Group,
}

/// What a policy says to a request: the last grant that applies decides, as in sudoers(5).
#[derive(Clone, Copy, Debug, PartialEq, Eq)]
pub enum Verdict {
    /// The command may run, by the grant at this place, with these tags.
    Allow { place: Place, tags: Tags },
    /// The command may not run, by the negated grant at this place.
    Deny { place: Place },
    /// No grant applies, so the command may not run.
    NoMatch,
    /// A name of the request is not known.
    Unknown(What),
}
