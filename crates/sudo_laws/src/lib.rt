//! Laws of the definitions, in the words of sudoers(5). The functions have no effect: each contract is a law.
#![tactic(auto)]

mod aliases;
mod commands;
mod existence;
mod includes;
mod members;
mod policies;
mod reports;
mod texts;
mod verdicts;
mod wildcards;

pub use aliases::lists_are_written_by_equations;
pub use commands::{last_runas_is_in_force, last_tag_of_a_pair_is_in_force};
pub use existence::{
    arrivals_have_a_report_or_a_fault, files_are_loaded_or_refused, lines_have_entries_or_a_fault,
    lines_have_tokens_or_a_fault, policies_pass_or_fail,
};
pub use includes::include_lines_are_replaced;
pub use members::{alias_decides_as_its_list, exclamation_mark_turns, last_member_decides};
pub use policies::sound_aliases_pass;
pub use reports::reports_read_back;
pub use texts::{bytes_spell_characters, members_read_back, patterns_read_back};
pub use verdicts::{last_grant_decides, rule_behind_others_decides};
pub use wildcards::{plain_patterns_fit_their_bytes, wildcards_of_paths_fit_no_slash};
