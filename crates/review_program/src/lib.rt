//! The comparison of two policies, and the program: executes the command that its words ask for.
#![tactic(auto)]

mod change;
mod change_rows;
mod changes;
mod compare;
mod program;

pub use changes::{changes_hold, changes_run};
pub use compare::{compare_run, quiet_comparisons_say_same};
pub use program::run_program;
