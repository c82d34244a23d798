//! Walks towards a path.

use crate::Kind;
use run_base::Obstacle;
use sudo_text::Seq;

/// A walk below a folder, towards a path.
#[derive(Drop)]
pub(crate) struct Walk {
    /// The names of the folders that were entered and not left.
    pub(crate) names: Seq<Seq<u8>>,
    /// The path that is left.
    pub(crate) left: Seq<u8>,
    /// How many symbolic links were replaced by their targets.
    pub(crate) links: u32,
}

/// Where a path leads.
#[derive(Drop)]
pub(crate) enum Outcome {
    /// To an entry of this kind, which has these names below the folder.
    At(Seq<Seq<u8>>, Kind),
    /// To nothing.
    Missing,
    /// Nowhere, for this reason.
    Stopped(Obstacle),
}

/// What a step of a walk makes.
#[derive(Drop)]
pub(crate) enum Step {
    /// The walk goes on.
    On(Walk),
    /// The walk ends.
    End(Outcome),
}
