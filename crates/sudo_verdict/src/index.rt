//! An index of the rules of a policy: which rules a request may meet, so that few are looked at.

pub(crate) mod aliases;
pub(crate) mod candidates;
pub(crate) mod key;
pub(crate) mod keys;
pub(crate) mod number_set;
pub(crate) mod numbers;
mod postings;
pub(crate) mod request_numbers;
mod row_list;
mod rows;
mod rule_index;

pub use postings::Budget;
pub use rule_index::RuleIndex;
