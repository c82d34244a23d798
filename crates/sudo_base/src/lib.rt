//! The base of all crates of the policy and of the audit: lists that contracts see as lists, and maps from names to
//! numbers.
#![tactic(auto)]

mod names;
mod seq;

pub use names::Names;
pub use seq::Seq;

#[cfg(test)]
mod tests;
