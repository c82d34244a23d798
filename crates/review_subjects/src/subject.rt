//! Subjects.

use crate::{SubjectFault, SubjectKind};
use sudo_text::{Place, Seq};

/// An atom, a rule or a definition of an alias that reaches nobody.
#[derive(Clone, Debug, Drop, PartialEq, Eq)]
pub struct Subject {
    /// The place of the entry.
    pub place: Place,
    pub kind: SubjectKind,
    /// The atom, as a written-out list has it, or the name of the alias; empty for a rule.
    pub name: Seq<u8>,
    pub fault: SubjectFault,
}
