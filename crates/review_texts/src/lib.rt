//! Texts that `sudo_audit` refuses by name, made readable.
#![tactic(auto)]

mod addressed;
mod bytes;
mod digests;
mod expressions;
mod files;
mod hostnames;
mod ipv6;
mod laws;
mod listed;
mod mask;
mod masks;
mod netgroups;
mod note;
mod options;
mod places;
mod readable;
mod reading;
mod standing;
mod texts;
mod words;

pub use files::Masked;
pub use hostnames::{is_hostname, short_name};
pub use ipv6::{HostAddress, Ipv6Member, address_of, matches, prefix_of};
pub use laws::{
    bounds_hold, each_is_expression, hosts_matter_for_escapes, lines_stay, names_stand_for_escapes,
    no_command_is_listed, notes_fit_nothing, read_lines_are_left_alone, texts_have_one_mask,
};
pub use mask::{Form, Mask};
pub use masks::{as_written, mask_line, mask_of};
pub use netgroups::{Group, Members};
pub use note::{Note, note_in};
pub use readable::Readable;
pub use texts::mask_text;
