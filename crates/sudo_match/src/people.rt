//! Users, with their groups, and hosts, with their interfaces.
ghost use Rattle.std.specs.Prelude.{◌≡◌, ◌≤◌, bytes_eq, ◌==◌};
ghost use Rattle.std.specs.List.{list_any};

use sudo_text::Seq;

/// A user: the name, the ID and the groups, with the primary group first.
#[derive(Clone, Debug, Drop, PartialEq, Eq)]
pub struct Person {
    pub name: Seq<u8>,
    pub uid: u32,
    pub groups: Seq<Group>,
}

impl Person {
    /// Whether the user has a group of this name.
    pub fn has_group_named(&self, name: &[u8]) -> bool
        ensures { result ≡ list_any (λ g. bytes_eq g.name name.now) self.now.groups }
    {
        self.groups
            .as_slice()
            .iter()
            .any(|group| group.name.as_slice() == name)
    }

    /// Whether the user has the group of this ID.
    pub fn has_gid(&self, gid: u32) -> bool
        ensures { result ≡ list_any (λ g. g.gid == gid) self.now.groups }
    {
        self.groups.as_slice().iter().any(|group| group.gid == gid)
    }
}

/// A group: its name and its ID.
#[derive(Clone, Debug, Drop, PartialEq, Eq)]
pub struct Group {
    pub name: Seq<u8>,
    pub gid: u32,
}

/// A host: its name and its interfaces.
#[derive(Clone, Debug, Drop, PartialEq, Eq)]
pub struct Machine {
    pub name: Seq<u8>,
    pub interfaces: Seq<Interface>,
}

/// An interface of a host: its address, and the number of bits of it that name the network.
#[derive(Clone, Copy, Debug, PartialEq, Eq)]
pub struct Interface {
    /// The IPv4 address, with its first group in the highest byte.
    pub addr: u32,
    /// The number of bits that are set in the mask, at most 32.
    pub bits: u8,
    pub ghost in_range: { bits ≤ 32 },
}
