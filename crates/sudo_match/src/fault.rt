//! The faults of the rows of a directory.
ghost use Rattle.std.specs.Prelude.{Some};
ghost use Rattle.sudo_match.specs.KnownRows.{IsDirectoryFault};

use std::alloc::{AllocError, Global};
use sudo_text::Seq;
use thiserror::Error;

/// The reasons why rows of users and hosts make no directory, in the order in which they are looked for. Those with a
/// name have that of the first row that shows the fault.
#[derive(Clone, Debug, Drop, PartialEq, Eq, Error)]
pub enum DirFault {
    /// Two rows have this user name.
    #[error("a user twice")]
    UserTwice { name: Seq<u8> },
    /// Two rows have this host name, ignoring ASCII case.
    #[error("a host twice")]
    HostTwice { name: Seq<u8> },
    /// This group has the name of an earlier one but another ID, or its ID but another name.
    #[error("a group clashes")]
    GroupClash { name: Seq<u8> },
    /// This user has no group.
    #[error("a user has no group")]
    NoGroup { user: Seq<u8> },
    /// No user is named `root`.
    #[error("no user root")]
    NoRoot,
    /// Out of memory.
    #[error("out of memory")]
    Memory,
}

impl From<AllocError> for DirFault {
    ghost use Rattle.std.specs.Prelude.{◌≡◌};
    ghost use Rattle.sudo_match.specs.declared.fault.DirFault.TheVariants.{Memory};

    ghost from_gives = { λ _ e. e ≡ Memory };

    fn from(_: AllocError) -> DirFault {
        DirFault::Memory
    }
}

impl DirFault {
    ghost use Rattle.sudo_match.specs.declared.fault.DirFault.TheVariants.{UserTwice, HostTwice, GroupClash, NoGroup};

    /// Returns `UserTwice` for a name, or `Memory` if copying the name fails.
    pub(crate) fn user_twice(alloc: Global, name: &[u8]) -> DirFault
        ensures { IsDirectoryFault (Some (UserTwice name.now)) result }
    {
        match Seq::from_slice(alloc, name) {
            Ok(name) => DirFault::UserTwice { name },
            Err(_) => DirFault::Memory,
        }
    }

    /// Returns `HostTwice` for a name, or `Memory` if copying the name fails.
    pub(crate) fn host_twice(alloc: Global, name: &[u8]) -> DirFault
        ensures { IsDirectoryFault (Some (HostTwice name.now)) result }
    {
        match Seq::from_slice(alloc, name) {
            Ok(name) => DirFault::HostTwice { name },
            Err(_) => DirFault::Memory,
        }
    }

    /// Returns `GroupClash` for a name, or `Memory` if copying the name fails.
    pub(crate) fn group_clash(alloc: Global, name: &[u8]) -> DirFault
        ensures { IsDirectoryFault (Some (GroupClash name.now)) result }
    {
        match Seq::from_slice(alloc, name) {
            Ok(name) => DirFault::GroupClash { name },
            Err(_) => DirFault::Memory,
        }
    }

    /// Returns `NoGroup` for the name of a user, or `Memory` if copying the name fails.
    pub(crate) fn no_group(alloc: Global, user: &[u8]) -> DirFault
        ensures { IsDirectoryFault (Some (NoGroup user.now)) result }
    {
        match Seq::from_slice(alloc, user) {
            Ok(user) => DirFault::NoGroup { user },
            Err(_) => DirFault::Memory,
        }
    }
}
