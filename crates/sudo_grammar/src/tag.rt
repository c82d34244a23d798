//! The tags of a command, in pairs: each tag beside its opposite.
ghost use Rattle.std.specs.Prelude.{◌≡◌, Some, position};
ghost use Rattle.sudo_grammar.specs.Tags.{pair_name, pairs, same_pair};

/// A pair of tags: one with a name of its own, and its opposite.
#[derive(Clone, Copy, Debug, PartialEq, Eq)]
pub enum TagPair {
    Exec,
    Follow,
    Intercept,
    LogInput,
    LogOutput,
    Mail,
    Passwd,
    SetEnv,
}

/// The pairs of tags, in the order in which a report has them.
pub const TAG_PAIRS: [TagPair; 8] = [
    TagPair::Exec,
    TagPair::Follow,
    TagPair::Intercept,
    TagPair::LogInput,
    TagPair::LogOutput,
    TagPair::Mail,
    TagPair::Passwd,
    TagPair::SetEnv,
];

impl TagPair {
    /// Returns the name of the pair's tag. That of its opposite has `NO` before it.
    pub fn name(self) -> &'static [u8]
        ensures { result.now ≡ pair_name self }
    {
        match self {
            TagPair::Exec => b"EXEC",
            TagPair::Follow => b"FOLLOW",
            TagPair::Intercept => b"INTERCEPT",
            TagPair::LogInput => b"LOG_INPUT",
            TagPair::LogOutput => b"LOG_OUTPUT",
            TagPair::Mail => b"MAIL",
            TagPair::Passwd => b"PASSWD",
            TagPair::SetEnv => b"SETENV",
        }
    }

    /// Returns the pair's place in `TAG_PAIRS`, counted from 0.
    pub fn position(self) -> usize
        ensures { Some result ≡ position (same_pair self) pairs }
    {
        self as usize
    }
}

/// A tag of a command.
#[derive(Clone, Copy, Debug, PartialEq, Eq)]
pub struct Tag {
    pub pair: TagPair,
    /// Whether it is the pair's tag (`EXEC`), and not the opposite (`NOEXEC`).
    pub on: bool,
}
