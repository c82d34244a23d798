//! What the programs over a policy share: its files and their loading, the opening of further files, lines, faults and
//! their texts, the arguments of command lines, and the end of a run.
#![tactic(auto)]

mod argument_values;
mod arguments;
mod ending;
mod fails;
mod failures;
mod fault;
mod fault_text;
mod files;
mod lines;
mod loading;
mod obstacle;
mod opening;
mod run_output;

pub use argument_values::{value, values, workers};
pub use arguments::{file, path_option, senders_words, with_subcommand, word, workers_option};
pub use ending::{end_explained, end_run, report_explained, report_fault, write_text};
pub use fails::Fails;
pub use fault::{OpenFault, PolicyFault};
pub use fault_text::push_no_memory;
pub use files::{Disk, Files, FilesFault};
pub use lines::{begin_line, finding_lines, push, push_both, push_number};
pub use loading::{CheckedFiles, Loaded, checked_files, checked_policy, load_files, load_policy};
pub use obstacle::Obstacle;
pub use opening::{Opener, SystemOpener, open};
pub use run_output::RunOutput;
