//! The program: a reviewer of sudoers policies.
#![tactic(auto)]

pub use review_commands::{Asked, asked, cautions_run, report_into};
use review_program::run_program;
use std::process::ExitCode;

fn main(rt: HostRuntime) -> ExitCode {
    ExitCode::from(run_program(&rt, &rt))
}
