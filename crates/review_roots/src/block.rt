//! A command of a section, written out.
ghost use Rattle.std.specs.Prelude.{◌≡◌};
ghost use Rattle.review_roots.specs.Body.Effects.{effect_of};

use crate::effect::Effect;
use review_grants::Marks;
use sudo_match::Tags;
use sudo_policy::{Member, Runas};
use sudo_text::Place;

/// Whether an atom of a command allows nothing, since it is negated or stands for a note, and whether it is `ALL`.
#[derive(Clone, Copy, Debug, PartialEq, Eq)]
pub(crate) struct Sign {
    pub(crate) negated: bool,
    pub(crate) all: bool,
}

/// A command of a section, written out: the place and the users of its rule, the hosts of its section, the runas and the tags
/// in force, the notes of its rule, and the signs of its atoms.
#[derive(Drop)]
pub(crate) struct Block<'a> {
    pub(crate) place: Place,
    pub(crate) users: &'a [Member],
    pub(crate) hosts: &'a [Member],
    pub(crate) runas: Option<&'a Runas>,
    pub(crate) tags: Tags,
    pub(crate) marks: Marks,
    pub(crate) signs: Vec<Sign>,
    // What its rows make of what was given before them.
    pub(crate) effect: Effect,
    ghost effective: { effect ≡ effect_of marks tags signs.items },
}
