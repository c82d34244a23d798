//! The words of the command line, and the commands of the reviewer that are about one policy.
#![tactic(auto)]

mod address_rows;
mod addresses;
mod cautions;
mod check;
mod command_line;
mod ending;
mod expand;
mod fault;
mod file_texts;
mod grants;
mod lines;
mod links;
mod machine_file;
mod netgroups;
mod other_host;
mod pair;
mod policy_files;
mod program_name;
mod report;
mod report_rows;
mod request;
mod root_rows;
mod roots;
mod runs;
mod subject_rows;
mod subjects;
mod survey;
mod who;
mod words;

pub use addresses::machine_addresses;
pub use cautions::cautions_run;
pub use check::check_run;
pub use ending::{NotedOutput, end_noted};
pub use expand::expand_run;
pub use fault::TableFault;
pub use grants::{ScopeNames, grants_run, scope_of};
pub use links::machine_links;
pub use machine_file::{MachineFile, MachineFileFault};
pub use netgroups::machine_netgroups;
pub use other_host::{other_host_in, other_host_line};
pub use pair::{Pair, noted_pair, read_pair};
pub use policy_files::{MaskedFiles, PolicyFiles, pair_files};
pub use program_name::PROGRAM;
pub use report::{Form, report_into};
pub use report_rows::{push_asked, push_asker};
pub use request::{Asked, PairPaths, Paths, PolicyPath};
pub use roots::roots_run;
pub use runs::{
    EscapeName, escape_name, hinted, opened_files, refused, run_cautions, run_check, run_expand,
    run_grants, run_report, run_roots, run_subjects, run_who,
};
pub use subjects::subjects_run;
pub use who::who_run;
pub use words::{asked, unread};
