//! Policies with their notes.
ghost use Rattle.std.specs.Prelude.{◌≡◌, is_some};
ghost use Rattle.std.specs.Option.{ForSome};
ghost use Rattle.review_grants.specs.Depends.{IsMarked};
ghost use Rattle.review_compare.specs.Body.Commands as body;

use crate::side::Side;
use review_grants::NotedPlaces;
use sudo_policy::{Atom, Checked};

/// Whether a grant of a policy stands for a note, and then the commands of all grants.
#[derive(Drop)]
pub struct LineCommands<'a> {
    pub(crate) checked: &'a Checked,
    pub(crate) is_noted: bool,
    pub(crate) atoms: Vec<Atom>,
    ghost noted_is: { is_noted ≡ body.is_noted checked.now },
    ghost atoms_are: { body.AreCommands checked.now atoms.items },
}

/// A policy, what the grants at each of its places depend on, and its rows, if one of its grants stands for a note.
#[derive(Drop)]
pub struct NotedPolicy<'a> {
    pub(crate) checked: &'a Checked,
    pub(crate) places: NotedPlaces,
    pub(crate) side: Option<Side<'a>>,
    ghost marked: { IsMarked checked.now places },
    ghost side_is: { ForSome side (λ s. s.checked.now ≡ checked.now) },
    ghost noted_is: { is_some side ≡ body.is_noted checked.now },
}
