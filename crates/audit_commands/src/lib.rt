//! The words of the command line, the three commands of the auditor, and the status and the text of each of their faults.
#![tactic(auto)]

mod audit;
mod check;
mod command_line;
mod expand;
mod fault;
mod fault_text;
mod program;
mod request;
mod requests_fault;
mod sender;
mod sources;
mod words;

pub use audit::{Work, answer_requests, audit_into, directory_of, report_under};
pub use check::{check_output, check_run};
pub use expand::expand_run;
pub use fault::{DirectoryFault, ExpansionFault, ReportFault, SourcesFault, file_status};
pub use fault_text::push_file_fault;
pub use program::run_program;
pub use request::Asked;
pub use requests_fault::RequestsFault;
pub use run_base::{Disk, Files, FilesFault, Obstacle, Opener};
pub use sender::sender_of;
pub use sources::{OpenedFiles, open_all};
pub use words::{asked, unread};
