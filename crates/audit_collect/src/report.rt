//! Reports of a collector.

use crate::arrival::Answer;
use sudo_text::Seq;

/// The answers to one sender's requests, in the order of their numbers.
#[derive(Clone, Debug, Drop, PartialEq, Eq)]
pub struct SenderReport {
    pub name: Seq<u8>,
    pub answers: Seq<Answer>,
}

/// The answers to the requests of each sender, in the order of the roster.
#[derive(Clone, Debug, Drop, PartialEq, Eq)]
pub struct Report {
    pub senders: Seq<SenderReport>,
}
