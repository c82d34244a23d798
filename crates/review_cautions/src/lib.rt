//! Cautions: the constructs of a policy that sudo reads or judges otherwise than this reader, though both accept them.
//!
//! sudoers(5). A policy without a caution may still be judged otherwise: no list of such constructs is complete.
#![tactic(auto)]

mod addresses;
mod arguments;
mod brackets;
mod bytes;
mod caution;
mod class;
mod collecting;
mod comments;
mod defaults;
mod entries;
mod escapes;
mod groups;
mod joins;
mod lines;
mod link;
mod lists;
mod looked;
mod marked;
mod marks;
mod notes;
mod passwords;
mod reserved;
mod scanned;
mod signs;
mod unknown;
mod uses;

pub use caution::Caution;
pub use class::{CAUTION_CLASSES, CautionClass, class_named};
pub use collecting::{cautions, cautions_by_links};
pub use link::{Link, usual_links};
pub use passwords::decides_passwords;
