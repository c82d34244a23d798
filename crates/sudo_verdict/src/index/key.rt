//! What is known of an atom without a look at it.

ghost use Rattle.std.specs.Prelude.{◌≡◌, slice_get, unwrap_or};

use sudo_base::Seq;
use sudo_policy::Position;

/// The key of an atom, by which most members of a list are passed over.
#[derive(Clone, Copy, Debug)]
pub(crate) enum Key {
    /// An atom of which nothing is known.
    Other,
    /// An alias, by the position of its definition.
    Alias(Position),
    /// A user's name, by its number.
    Name(usize),
    /// A user, by ID.
    Uid(u32),
    /// A group, by the mark of its name.
    Group(usize),
    /// A command, by the number of its path.
    Command(usize),
    /// A host's name, by the index of one of its characters and the byte of that in lower case. Neither this character nor
    /// one before it is special.
    Host { index: usize, byte: u8 },
}

/// Returns the key at an index; if there is none, that of an atom of which nothing is known.
pub(crate) fn key_at(keys: &[Key], index: usize) -> &Key
    ensures { result.now ≡ unwrap_or (slice_get keys.now index) Key.Other }
{
    match keys.get(index) {
        Some(key) => key,
        None => &Key::Other,
    }
}

/// The keys of the lists of a section.
#[derive(Drop)]
pub(crate) struct SectionKeys {
    pub(crate) hosts: Seq<Key>,
    pub(crate) commands: Seq<Key>,
}

/// The keys of the lists of an entry: of its definitions, if it has some, or of its users and its sections.
#[derive(Drop)]
pub(crate) struct EntryKeys {
    pub(crate) definitions: Seq<Seq<Key>>,
    pub(crate) users: Seq<Key>,
    pub(crate) sections: Seq<SectionKeys>,
}
