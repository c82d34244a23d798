//! Sources of requests.

use sudo_text::Seq;

/// A source of requests: the name of its sender, and a reader of a requests file. Sources with the
/// same name are the parts of one sender's requests, in no particular order.
#[derive(Drop)]
pub struct Source<R> {
    pub name: Seq<u8>,
    pub reader: R,
}

/// A source with its owner, the index of its sender in the roster, from 0.
#[derive(Drop)]
pub struct Part<R> {
    pub owner: u32,
    pub reader: R,
}
