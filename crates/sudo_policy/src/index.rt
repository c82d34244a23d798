//! An index of the definitions in force.
ghost use Rattle.std.specs.Prelude.{◌≡◌, None, [], ◌∷◌, ◌++◌, false, OnOk, length, option_copied};
ghost use Rattle.sudo_base.specs.NameIndices.{index_of};
ghost use Rattle.sudo_grammar.specs.declared.kind.Kind.{Kind};
ghost use Rattle.sudo_grammar.specs.Kinds.{same_kind};
ghost use Rattle.sudo_policy.specs.Positions.{members_at};
ghost use Rattle.sudo_policy.specs.Body.Positions.{position_in, names_of_kind};

use std::alloc::{AllocError, Global};
use sudo_base::Names;
use sudo_grammar::{EntryBody, Kind, Member, Policy};

/// The position of a definition: the index of the entry, and the index of the definition in it.
#[derive(Clone, Copy, Debug)]
pub struct Position {
    /// The index of the entry in the policy.
    pub entry: usize,
    /// The index of the definition in the entry.
    pub definition: usize,
}

/// The definitions in force: for each kind, the number of each name's definition, and the position of each definition.
#[derive(Drop)]
pub(crate) struct Index {
    pub(crate) users: Names,
    pub(crate) runas: Names,
    pub(crate) hosts: Names,
    pub(crate) commands: Names,
    pub(crate) positions: Vec<Position>,
}

impl Index {
    /// Creates an empty index.
    pub(crate) fn new(alloc: Global) -> Index
        ensures names { (kind : Kind) → names_of_kind result kind ≡ [] }
        ensures positions { result.positions.items ≡ [] }
    {
        Index {
            users: Names::new(alloc),
            runas: Names::new(alloc),
            hosts: Names::new(alloc),
            commands: Names::new(alloc),
            positions: Vec::new(alloc),
        }
    }

    /// Adds the definition of a new name.
    pub(crate) fn insert(
        &mut self,
        alloc: Global,
        kind: Kind,
        name: &[u8],
        position: Position,
    ) -> Result<(), AllocError>
        requires { index_of (names_of_kind self.old kind) name.now ≡ None }
        ensures names { OnOk result (names_of_kind self.new kind
            ≡ names_of_kind self.old kind ++ (name.now, length self.old.positions.items) ∷ []) }
        ensures others { OnOk result ((other : Kind) → same_kind other kind ≡ false
            → names_of_kind self.new other ≡ names_of_kind self.old other) }
        ensures positions { OnOk result (self.new.positions.items
            ≡ self.old.positions.items ++ position ∷ []) }
    {
        let number = self.positions.len();
        self.positions.push(position)?;
        match kind {
            Kind::User => self.users.insert(alloc, name, number),
            Kind::Runas => self.runas.insert(alloc, name, number),
            Kind::Host => self.hosts.insert(alloc, name, number),
            Kind::Cmnd => self.commands.insert(alloc, name, number),
        }
    }

    /// Returns the number of the name's definition in force.
    pub(crate) fn number(&self, kind: Kind, name: &[u8]) -> Option<usize>
        ensures { result ≡ index_of (names_of_kind self.now kind) name.now }
    {
        match kind {
            Kind::User => self.users.get(name),
            Kind::Runas => self.runas.get(name),
            Kind::Host => self.hosts.get(name),
            Kind::Cmnd => self.commands.get(name),
        }
    }

    /// Returns the position of the name's definition in force.
    pub(crate) fn position(&self, kind: Kind, name: &[u8]) -> Option<Position>
        ensures { result ≡ position_in self.now kind name.now }
    {
        let number = self.number(kind, name)?;
        self.positions.get(number).copied()
    }
}

/// Returns the members of the definition at a position.
pub(crate) fn members_at(policy: &Policy, position: Position) -> Option<&[Member]>
    ensures { option_copied result ≡ members_at policy.now position }
{
    let entry = policy.entries.get(position.entry)?;
    match &entry.body {
        EntryBody::Aliases { definitions, .. } => {
            let definition = definitions.get(position.definition)?;
            Some(definition.members.as_slice())
        }
        _ => None,
    }
}
