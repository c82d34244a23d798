//! The verdict of a checked policy on a request: may this user run this command on this host, and by which line?
//!
//! sudoers(5), "User Specification": the last match is used.
#![tactic(auto)]

mod decision;
mod index;
mod listing;
mod query;
mod search;
mod tags;

pub use index::{Budget, RuleIndex};
pub use listing::{Asker, allows_runas, lists_host, lists_user};
pub use search::{runas_before_end, verdict};
pub use sudo_match::{Request, Tags, Verdict, What};
pub use tags::tags_before_end;
