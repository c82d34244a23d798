//! The program: an auditor of sudoers policies.
#![tactic(auto)]

use audit_commands::run_program;
pub use audit_commands::{Asked, asked, audit_into, check_run, expand_run, sender_of};
use std::process::ExitCode;

fn main(rt: HostRuntime) -> ExitCode {
    ExitCode::from(run_program(&rt, &rt))
}
