//! What of a policy is made readable.

use crate::HostAddress;
use audit_files::Triple;
use sudo_text::Seq;

/// What is made readable besides options of a command and `list`.
#[derive(Debug, Drop)]
pub struct Readable {
    /// Whether notes stand for digests, times and roots.
    pub noted: bool,
    /// The triples of the netgroups, and of the non-Unix groups, whose members are read in their place.
    pub netgroups: Vec<Triple>,
    /// The name of the host whose part before the first dot is read in place of `%h` in the path of an include line.
    pub host: Option<Seq<u8>>,
    /// The IPv6 addresses of hosts, by which an address in a list of hosts is read as the hosts that have it, if they are known.
    pub addresses: Option<Seq<HostAddress>>,
}
