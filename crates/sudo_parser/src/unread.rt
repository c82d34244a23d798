//! The tokens of a line that are still to be read.
ghost use Rattle.std.specs.Prelude.{◌≤◌, length};

mod taking;

use sudo_text::Token;

/// The tokens of a line, of which the first `read` are read. One list serves line after line.
#[derive(Drop)]
pub(crate) struct Unread {
    tokens: Vec<Token>,
    read: usize,
    ghost within: { read ≤ length tokens.items },
}
