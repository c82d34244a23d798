//! Logical lines and their places.

use crate::Seq;
use std::fmt;

/// The place of a logical line: its file, and the number of its first physical line.
#[derive(Clone, Copy, Debug, PartialEq, Eq)]
pub struct Place {
    /// The number of the file, from 0, in the order in which files are read.
    pub file: u32,
    /// The number of the first physical line, from 1.
    pub line: u32,
}

/// Shows the line number alone; a caller that knows the file's path writes the path before it.
impl fmt::Display for Place {
    fn fmt<W: fmt::Write>(&self, f: &mut fmt::Formatter<W>) -> fmt::Result {
        write!(f, "{}", self.line)
    }
}

/// A logical line: a physical line and those that continue it, joined.
#[derive(Clone, Debug, Drop, PartialEq, Eq)]
pub struct Line {
    /// The place where it begins.
    pub first: Place,
    /// The joined text, without leading blanks of physical lines and without the backslashes at the joins.
    pub text: Seq<u8>,
    /// The offsets in `text` at which the further physical lines begin, in order.
    pub joins: Seq<u32>,
}
