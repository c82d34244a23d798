//! Masks.

use sudo_grammar::Unsupported;
use sudo_text::Seq;

/// What a line is refused for that can be masked.
#[derive(Clone, Copy, Debug, PartialEq, Eq)]
pub enum Form {
    /// A form that is refused by name.
    Named(Unsupported),
    /// An IPv6 address in a list of hosts, which is refused as a syntax error.
    Ipv6,
}

/// A form that can be masked, its span, the bytes of the line's text from `start` up to `end`, and what
/// stands in its place.
#[derive(Debug, Drop, PartialEq, Eq)]
pub struct Mask {
    pub form: Form,
    pub start: usize,
    pub end: usize,
    pub put: Seq<u8>,
}
