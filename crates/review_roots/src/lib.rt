//! Who can become root on a host, and by which chain of steps: what each user may run as another, with which level and
//! with whose password.
//!
//! sudoers(5), "User Specification", "Runas_Spec", "Tag_Spec"; sudo(8), options -u and -g.
#![tactic(auto)]

mod addable;
mod alike;
mod base;
mod block;
mod blocks;
mod candidate;
mod chains;
mod cut;
mod deciding;
mod effect;
mod firsts;
mod given;
mod ground;
mod groups;
mod host;
mod kept;
mod laws;
mod layer;
mod level;
mod listing;
mod may;
mod naming;
mod order;
mod raising;
mod roots;
mod rules;
mod runas;
mod search;
mod starts;
mod state;
mod steps;
mod toward;
mod turned;
mod unnamed;
mod way;

pub use addable::addable_groups;
pub use given::{AllowingRow, Given};
pub use groups::{known_groups, named_groups};
pub use host::HostSteps;
pub use laws::{
    all_allows_all, asked_always, chains_are_paths, free_needs_no_password, none_allows_none,
    other_groups_change_no_list,
};
pub use level::Level;
pub use order::user_name;
pub use roots::{Root, roots_on};
pub use rules::Rules;
pub use state::State;
pub use way::{Password, Way};
