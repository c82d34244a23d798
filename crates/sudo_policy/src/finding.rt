//! The findings of the check of a policy's aliases.

use sudo_grammar::Kind;
use sudo_text::{Place, Seq};

/// The classes of findings, in the order in which they are listed: those of the strict check of visudo(8), and the
/// limits of this program. The first five are errors, the last one is a warning.
#[derive(Clone, Copy, Debug, PartialEq, Eq)]
pub enum Class {
    /// A further definition of a name of the same kind.
    Redefined,
    /// A use of a name without a definition of that kind.
    Undefined,
    /// An alias that is reached from itself.
    Cycle,
    /// An alias that begins a chain of more than 64 aliases.
    TooDeep,
    /// An alias that has more than 65,536 members when it is written out.
    TooWide,
    /// An alias that no rule and no bound `Defaults` line reaches.
    Unused,
}

/// A finding: its class, the place of its line, and the kind and the name of the alias.
#[derive(Debug, Drop, PartialEq, Eq)]
pub struct Finding {
    pub class: Class,
    pub place: Place,
    pub kind: Kind,
    pub name: Seq<u8>,
}
