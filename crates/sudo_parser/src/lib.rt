//! The parser of sudoers(5): from the tokens of logical lines to the tree of a policy, and from members to their text.
#![tactic(auto)]

mod aliases;
mod defaults;
mod laws;
mod likely;
mod line;
mod lists;
mod members;
mod numbers;
mod parsing;
mod room;
mod rules;
mod runas;
mod stops;
mod tokens;
mod unread;
mod words;
mod writing;

pub use laws::lines_have_one_reading;
pub use parsing::{first_over_limit, parse, parse_lines};
pub use writing::member_text;
