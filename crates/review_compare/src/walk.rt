//! Where a walk through the rows of a policy is.
ghost use Rattle.std.specs.Prelude.{◌≤◌, length};

use sudo_policy::Atom;
use sudo_text::Place;

/// Where a walk through the rows is: the place of its line, the commands from the beginning of the line on, how many of them are
/// passed, and whether one of these stands for a note.
#[derive(Clone, Copy)]
pub(crate) struct Walk<'a> {
    pub(crate) place: Place,
    pub(crate) rest: &'a [Atom],
    pub(crate) passed: usize,
    pub(crate) noted: bool,
    ghost within: { passed ≤ length rest.now },
}
