//! The kinds of subjects, and what is wrong with a subject.
ghost use Rattle.std.specs.Prelude.{◌≡◌};
ghost use Rattle.review_subjects.specs.Kinds.{fault_name, kind_name};

/// The kinds of subjects: those of an atom, a rule, and the definition of an alias.
#[derive(Clone, Copy, Debug, PartialEq, Eq)]
pub enum SubjectKind {
    /// A user by name.
    User,
    /// A user by ID.
    Uid,
    /// A group by name.
    Group,
    /// A group by ID.
    Gid,
    /// A host by a pattern.
    Host,
    /// An address of a host.
    Address,
    /// A network.
    Network,
    /// A rule.
    Rule,
    /// The definition of an alias.
    Alias,
}

/// What is wrong with a subject.
#[derive(Clone, Copy, Debug, PartialEq, Eq)]
pub enum SubjectFault {
    /// No known user, group or host fits the atom.
    Unknown,
    /// The rule or the alias allows no known one.
    ReachesNobody,
}

impl SubjectKind {
    /// Returns the name of the kind.
    pub fn name(self) -> &'static [u8]
        ensures { result.now ≡ kind_name self }
    {
        match self {
            SubjectKind::User => b"user",
            SubjectKind::Uid => b"uid",
            SubjectKind::Group => b"group",
            SubjectKind::Gid => b"gid",
            SubjectKind::Host => b"host",
            SubjectKind::Address => b"address",
            SubjectKind::Network => b"network",
            SubjectKind::Rule => b"rule",
            SubjectKind::Alias => b"alias",
        }
    }
}

impl SubjectFault {
    /// Returns the words that say what is wrong.
    pub fn name(self) -> &'static [u8]
        ensures { result.now ≡ fault_name self }
    {
        match self {
            SubjectFault::Unknown => b"unknown",
            SubjectFault::ReachesNobody => b"reaches nobody",
        }
    }
}
