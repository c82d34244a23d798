//! The grammar of sudoers(5): the tree of a policy, the faults of its text, and the written forms of every entry.
//!
//! The tree and the faults are types. The grammar itself is a set of definitions, which only contracts use; the parser
//! is proved against them. Each function is a law, but for those of a pair of tags.
#![tactic(auto)]

mod fault;
mod kind;
mod laws;
mod policy;
mod tag;

pub use fault::{Expected, ParseFault, Refusal, Unsupported};
pub use kind::{Atom, Kind, Member, Signed};
pub use laws::{
    expected_could_stand, faults_are_leftmost, forms_are_read, forms_have_one_entry,
    lines_are_written_or_faulty, lines_have_one_fault, states_mean_forms, what_is_read_is_written,
};
pub use policy::{
    Binding, CommandSpec, Definition, Entry, EntryBody, Operator, Parameter, Policy, Runas, Section,
};
pub use tag::{TAG_PAIRS, Tag, TagPair};
