//! Checked sudo policies: the findings on their aliases, and aliases written out.
//!
//! sudoers(5), "Aliases"; visudo(8), its strict check; cvtsudoers(1), its option -e.
#![tactic(auto)]

mod checked;
mod checking;
mod cycle;
mod examination;
mod expansion;
mod finding;
mod graph;
mod index;
mod law;
mod member;
mod reach;
mod survey;

pub use checked::Checked;
pub use checking::{CheckFault, check, has_error};
pub use examination::findings;
pub use expansion::{ExpandFault, expand, write_out};
pub use finding::{Class, Finding};
pub use index::Position;
pub use law::{findings_are_one_list, lists_are_written, written_form_is_one};
pub use member::{alias_name, is_negated};
pub use sudo_grammar::{
    Atom, Binding, CommandSpec, Definition, Entry, EntryBody, Expected, Kind, Member, Operator,
    Parameter, ParseFault, Policy, Runas, Section, Signed, TAG_PAIRS, Tag, TagPair, Unsupported,
};
pub use sudo_parser::{member_text, parse};
pub use survey::{MemberList, lists};
