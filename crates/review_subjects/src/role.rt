//! What the members of a list stand for.
ghost use Rattle.std.specs.Prelude.{◌≡◌};
ghost use Rattle.review_subjects.specs.Unknown as spec;

use sudo_policy::Kind;

/// What the atoms of a list stand for.
#[derive(Clone, Copy)]
pub(crate) enum Role {
    /// Users, by themselves or by a group.
    Users,
    /// Groups.
    Groups,
    /// Users or groups, as the list is used: an alias of the kind Runas.
    Targets,
    /// Hosts.
    Hosts,
    /// Commands, of which none is known or unknown.
    Commands,
}

impl Role {
    /// Returns what the lists of the aliases of a kind stand for.
    pub(crate) fn of_kind(kind: Kind) -> Role
        ensures { result ≡ spec.role_of kind }
    {
        match kind {
            Kind::User => Role::Users,
            Kind::Runas => Role::Targets,
            Kind::Host => Role::Hosts,
            Kind::Cmnd => Role::Commands,
        }
    }
}
