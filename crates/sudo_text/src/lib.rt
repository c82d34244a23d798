//! The text of a sudoers file: logical lines, and the tokens of a line.
//!
//! A file is first cut into logical lines: a comment line stands alone, and a line that ends in a backslash is
//! continued by the next one. Each logical line is then cut into tokens, whose escapes are undone.
#![tactic(auto)]

mod bytes;
mod fault;
mod folding;
mod laws;
mod line;
mod piece;
mod rules;
mod run;
mod scan;
mod token;

pub use fault::TextFault;
pub use folding::{TEXT_LIMIT, lines};
pub use laws::{
    arguments_of_commands, blanks_of_arguments, faults_name_their_line, no_fault_beside_tokens,
    one_leftmost_fault, one_token_list, plain_runs, quotes_close, quotes_end_runs,
    quotes_end_words, runs_are_whole, what_begins_a_run,
};
pub use line::{Line, Place};
pub use scan::{read_tokens, tokens};
pub use sudo_base::Seq;
pub use token::{Ch, Mark, Token, TokenKind};
