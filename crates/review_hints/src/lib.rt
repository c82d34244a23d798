//! Hints: what a fault of a policy often comes from, in a few words.
//!
//! A hint stands beside the fault and never replaces it. There are few hints, and only where another cause is unlikely.
#![tactic(auto)]

mod addresses;
mod bytes;
mod faulty_line;
mod first_words;
mod hints;
mod names;
mod tags;

pub use hints::hint;
