//! The number of definitions of aliases that are still allowed.
ghost use Rattle.std.specs.Prelude.{◌≡◌};

use sudo_grammar::{EntryBody, Kind};

// The maximum number of definitions of aliases of one kind.
const ALIAS_LIMIT: u32 = 4096;

/// The number of definitions of aliases of each kind that are still allowed.
#[derive(Clone, Copy, Debug)]
pub(crate) struct Room {
    pub user: u32,
    pub runas: u32,
    pub host: u32,
    pub cmnd: u32,
}

impl Room {
    ghost use Rattle.std.specs.Prelude.{[], IsTrue, ◌≤◌, ◌-◌, if◌then◌else◌};
    ghost use Rattle.sudo_grammar.specs.Kinds.{same_kind};
    ghost use Rattle.sudo_parser.specs.Limits.{less};
    ghost use Rattle.sudo_parser.specs.Body.Limits.{room_of};
    ghost use Rattle.sudo_parser.specs.Parsed.{room_after, fits_room};
    ghost use Rattle.sudo_grammar.specs.Faults.{HasRoom};

    /// Returns the room before the first definition.
    pub(crate) fn whole() -> Room
        ensures { room_of result ≡ room_after [] }
    {
        Room {
            user: ALIAS_LIMIT,
            runas: ALIAS_LIMIT,
            host: ALIAS_LIMIT,
            cmnd: ALIAS_LIMIT,
        }
    }

    /// Whether there is room for the definitions of an entry.
    pub(crate) fn fits(&self, body: &EntryBody) -> bool
        ensures test { result ≡ fits_room (room_of self.now) body.now }
        ensures has_room { IsTrue result → HasRoom (room_of self.now) body.now }
    {
        match body {
            EntryBody::Aliases { kind, definitions } => {
                definitions.len() <= self.of_kind(*kind) as usize
            }
            _ => true,
        }
    }

    /// Returns the room that is left after an entry.
    pub(crate) fn after(self, body: &EntryBody) -> Room
        requires { HasRoom (room_of self) body.now }
        ensures { room_of result ≡ less (room_of self) body.now }
    {
        match body {
            EntryBody::Aliases { kind, definitions } => { self.less(*kind, definitions.len()) }
            _ => self,
        }
    }

    fn less(self, kind: Kind, count: usize) -> Room
        requires { count ≤ room_of self kind }
        ensures { room_of result ≡ (λ k. room_of self k - (if same_kind kind k then count else 0)) }
    {
        match kind {
            Kind::User => Room {
                user: self.user - count as u32,
                ..self
            },
            Kind::Runas => Room {
                runas: self.runas - count as u32,
                ..self
            },
            Kind::Host => Room {
                host: self.host - count as u32,
                ..self
            },
            Kind::Cmnd => Room {
                cmnd: self.cmnd - count as u32,
                ..self
            },
        }
    }

    pub(crate) fn of_kind(&self, kind: Kind) -> u32
        ensures { result ≡ room_of self.now kind }
    {
        match kind {
            Kind::User => self.user,
            Kind::Runas => self.runas,
            Kind::Host => self.host,
            Kind::Cmnd => self.cmnd,
        }
    }
}
