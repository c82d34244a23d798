//! Who may do what: the grants of a written-out policy, with the known users and hosts that their lists allow, and what they
//! depend on.
#![tactic(auto)]

mod depends;
mod fields;
mod in_force;
mod laws;
mod marks;
mod names;
mod noted;
mod rows;
mod runas_text;
mod who;
mod writing;

pub use depends::NotedPlaces;
pub use laws::{last_row_decides, unlisted_may_not, unnoted_verdicts_hold};
pub use marks::{Marks, UNMARKED};
pub use rows::Scope;
pub use who::{Sought, write_who};
pub use writing::{Stopped, write_grants};
