//! The files of an audit: readers and writers whose contracts specify the bytes that pass through
//! them and count failures; users, hosts and requests from CSV files; and the text of a report.
#![tactic(auto)]

mod count;
mod device;
mod failed;
mod fault;
mod feed;
mod fields;
mod hosts;
pub mod laws;
mod links;
mod memberships;
mod netgroups;
mod number;
mod parts;
mod places;
mod plain;
mod quoting;
mod report;
mod request_rows;
mod requests;
mod rows;
mod script;
mod sink;
mod table;
mod text;
mod users;
mod whole;

pub use count::Count;
pub use device::Device;
pub use failed::Failed;
pub use fault::FileFault;
pub use feed::Feed;
pub use hosts::read_hosts;
pub use links::{LinkPaths, read_links};
pub use netgroups::{Triple, read_netgroups};
pub use places::{push_path, push_place};
pub use quoting::{push_field, push_next_field};
pub use report::{put_tags, report_text, set_place, set_tags, verdict_word};
pub use request_rows::RequestRows;
pub use requests::{Requests, read_requests};
pub use script::Script;
pub use sink::{Sink, WriteFault, write_all_of};
pub use text::read_text;
pub use users::read_users;
pub use whole::{ReadFault, read_whole};
