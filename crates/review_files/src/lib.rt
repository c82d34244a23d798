//! The files of a policy below a folder, as of a copied tree of another machine.
//!
//! A path is resolved name by name, as after chroot(2): an absolute path, or an absolute target of a symbolic link, begins
//! at the folder again. The system is only asked for paths of which no name below the folder is a link.
#![tactic(auto)]

mod host_tree;
mod laws;
mod listing;
mod paths;
mod resolving;
mod rooted;
mod tree;
mod walk;

pub use host_tree::HostTree;
pub use laws::resolved_paths_stay_below;
pub use rooted::Rooted;
pub use tree::{Entry, Kind, Tree};
