//! The data of an audit (users, hosts, requests and verdicts), patterns, the directory of known users and hosts, and
//! the matching of one atom of a policy.
#![tactic(auto)]

mod beginning;
mod directory;
mod fault;
mod ids;
mod indexing;
mod laws;
mod matchers;
mod pattern;
mod patterns;
mod people;
mod positions;
mod request;
mod unclosed;

pub use directory::Directory;
pub use fault::DirFault;
pub use laws::{brackets_are_cut, characters_are_parts, unclosed_brackets_are_bytes};
pub use matchers::{command_matches, group_matches, host_matches, user_matches};
pub use pattern::Pattern;
pub use patterns::{Slash, is_special};
pub use people::{Group, Interface, Machine, Person};
pub use request::{Request, Tags, Verdict, What};
