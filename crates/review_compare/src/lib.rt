//! What a change of a policy does, for every command: who may run what that could not before, and the reverse.
//!
//! sudoers(5), "User Specification", "Cmnd_List" and "Wildcards".
#![tactic(auto)]

mod alike;
mod answer;
mod ask_class;
mod asks;
mod block;
mod brief;
mod candidates;
mod cases;
mod cell;
mod changed;
mod characters;
mod common;
mod compared;
mod comparison;
mod copied;
mod differences;
mod finder;
mod host_class;
mod host_marks;
mod index_set;
mod laws;
mod lines;
mod near;
mod noted_policy;
mod overlap;
mod pair;
mod probes;
mod reach;
mod request_cases;
mod row;
mod row_reaches;
mod ruling;
mod same_runas;
mod settled;
mod shape;
mod shared;
mod side;
mod spot;
mod targets;
mod text;
mod trials;
mod user_paths;
mod walk;
mod whoever;
mod witness;

pub use answer::{Answer, answer_between};
pub use cell::{Ask, AskedGroups, AskedTargets, Cell};
pub use compared::{Compared, Decider};
pub use differences::compared_policies;
pub use laws::{
    agreeing_rows_say_same, cases_say_what_policies_say, commands_agree, policies_agree,
    rows_decide, rulings_agree, same_cells_answer_alike, simple_tests_are_sound, tests_are_sound,
};
pub use noted_policy::{LineCommands, NotedPolicy};
pub use request_cases::{Dependence, compared_request};
pub use row::Row;
pub use text::differences_text;
pub use witness::Witness;
