//! What of a policy reaches nobody (atoms that no known user, group or host fits, and rules and aliases that allow no known
//! one), and how many answers each rule decided.
//!
//! sudoers(5), "Aliases" and "User Specification". The known ones are the rows of a directory.
#![tactic(auto)]

mod collecting;
mod entries;
mod kind;
mod laws;
mod places;
mod reach;
mod role;
mod rules;
mod subject;
mod unknown;
mod written;

pub use collecting::subjects;
pub use kind::{SubjectFault, SubjectKind};
pub use laws::{
    counts_add_up, definitions_are_in_force, idle_rules_never_apply, verdicts_are_of_rules,
};
pub use rules::{RuleCount, rule_counts};
pub use subject::Subject;
