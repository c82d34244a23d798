//! Policies in several files, with includes resolved as in sudoers(5), "Including other files from within sudoers".
//!
//! `load` reads no file itself. The caller provides the files and folders that it may need, and `load` returns the next
//! one that it needs.
#![tactic(auto)]

mod fault;
mod file;
mod include;
mod laws;
mod loading;
mod paths;
mod supply;

pub use fault::{LoadFault, Want};
pub use include::{folder_files, included};
pub use laws::files_have_one_load;
pub use loading::load;
pub use supply::Supply;
