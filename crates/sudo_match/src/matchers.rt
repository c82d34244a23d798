//! The matching of one atom of a policy, as in sudoers(5), "User_List", "Host_List" and "Cmnd_List".
ghost use Rattle.std.specs.Prelude.{◌≡◌, ◌==◌, ◌^◌, ◌-◌, ◌≤◌};
ghost use Rattle.std.specs.List.{list_any};
ghost use Rattle.sudo_match.specs.Matching.{user_fits, group_fits, host_fits, command_fits, compared_name};
ghost use Rattle.sudo_match.specs.Matching.{short_name, pattern_has_dot, mask_of, is_loopback, address_fits};
ghost use Rattle.sudo_match.specs.Matching.{net_fits, spells_text, arguments_fit};

use crate::beginning::is_named_otherwise;
use crate::{Group, Interface, Machine, Pattern, Person, Slash};
use sudo_grammar::Atom;
use sudo_text::{Ch, Seq};

/// Whether the atom matches the user. False for an alias and for an atom of another kind.
#[tactic(auto, unfolding(crate::specs::Matching::user_fits))]
pub fn user_matches(atom: &Atom, user: &Person) -> bool
    ensures { result ≡ user_fits atom.now user.now }
{
    match atom {
        Atom::All => true,
        Atom::Name(name) => name.as_slice() == user.name.as_slice(),
        Atom::Uid(id) => *id == user.uid,
        Atom::Group(name) => user.has_group_named(name.as_slice()),
        Atom::Gid(id) => user.has_gid(*id),
        _ => false,
    }
}

/// Whether the atom of a group list matches the group. False for an alias and for an atom of another kind.
#[tactic(auto, unfolding(crate::specs::Matching::group_fits))]
pub fn group_matches(atom: &Atom, group: &Group) -> bool
    ensures { result ≡ group_fits atom.now group.now }
{
    match atom {
        Atom::All => true,
        Atom::Name(name) => name.as_slice() == group.name.as_slice(),
        Atom::Group(name) => name.as_slice() == group.name.as_slice(),
        Atom::Uid(id) => *id == group.gid,
        Atom::Gid(id) => *id == group.gid,
        _ => false,
    }
}

// Returns the mask with the given number of leading bits set.
fn mask_of(bits: u8) -> u32
    requires { bits ≤ 32 }
    ensures { result ≡ mask_of bits }
{
    let size: u64 = 1 << (32 - bits);
    ((1 << 32) - size) as u32
}

// Whether the address is in 127.0.0.0/8.
fn is_loopback(addr: u32) -> bool
    ensures { result ≡ is_loopback addr }
{
    addr / (1 << 24) == 127
}

// Whether the address is that of the interface, or of the interface's network.
fn address_fits(addr: u32, interface: Interface) -> bool
    ensures { result ≡ address_fits addr interface }
{
    if is_loopback(interface.addr) {
        return false;
    }
    addr == interface.addr || addr == interface.addr & mask_of(interface.bits)
}

// Whether the interface's address is in the network.
fn net_fits(addr: u32, mask: u32, interface: Interface) -> bool
    ensures { result ≡ net_fits addr mask interface }
{
    if is_loopback(interface.addr) {
        return false;
    }
    addr & mask == interface.addr & mask
}

fn any_has_address(interfaces: &[Interface], addr: u32) -> bool
    ensures { result ≡ list_any (address_fits addr) interfaces.now }
{
    interfaces
        .iter()
        .any(|interface| address_fits(addr, *interface))
}

fn any_is_in_net(interfaces: &[Interface], addr: u32, mask: u32) -> bool
    ensures { result ≡ list_any (net_fits addr mask) interfaces.now }
{
    interfaces
        .iter()
        .any(|interface| net_fits(addr, mask, *interface))
}

// Returns a host's name up to its first dot.
fn short_name(name: &[u8]) -> &[u8]
    ensures { result.now ≡ short_name name.now }
{
    for (end, byte) in name.iter().enumerate() {
        if *byte == b'.' {
            return &name[..end];
        }
    }
    name
}

fn has_dot(chars: &[Ch]) -> bool
    ensures { result ≡ pattern_has_dot chars.now }
{
    chars.iter().any(|ch| ch.byte == b'.')
}

// Returns the part of a host's name that is compared with a pattern: the whole name for a pattern with a dot, otherwise
// the part before the first dot.
fn compared_name<'a>(chars: &[Ch], name: &'a [u8]) -> &'a [u8]
    ensures { result.now ≡ compared_name chars.now name.now }
{
    if has_dot(chars) {
        name
    } else {
        short_name(name)
    }
}

/// Whether the atom matches the host. Interfaces in 127.0.0.0/8 are ignored. False for an alias and for an atom of
/// another kind.
#[tactic(auto, unfolding(crate::specs::Matching::host_fits))]
pub fn host_matches(atom: &Atom, host: &Machine) -> bool
    ensures { result ≡ host_fits atom.now host.now }
{
    match atom {
        Atom::All => true,
        Atom::Host { chars, quoted } => {
            if is_named_otherwise(chars.as_slice(), host.name.as_slice()) {
                return false;
            }
            let name = compared_name(chars.as_slice(), host.name.as_slice());
            Pattern::of_host(chars.as_slice(), *quoted).matches_lower(name)
        }
        Atom::Address(addr) => any_has_address(host.interfaces.as_slice(), *addr),
        Atom::Net { addr, mask } => any_is_in_net(host.interfaces.as_slice(), *addr, *mask),
        _ => false,
    }
}

// Whether the characters are these bytes, none of them escaped.
fn spells_text(name: &[u8], chars: &[Ch]) -> bool
    ensures { result ≡ spells_text name.now chars.now }
{
    chars.len() == name.len() && crate::pattern::begins_with(chars, name)
}

// Whether arguments are allowed: a command without arguments allows any, `""` allows none, and any other text is a
// pattern.
fn arguments_fit(slash: Slash, args: &Option<Seq<Ch>>, arguments: &[u8]) -> bool
    ensures { result ≡ arguments_fit slash args.now arguments.now }
{
    match args {
        None => true,
        Some(chars) => {
            if spells_text(b"\"\"", chars.as_slice()) {
                arguments.is_empty()
            } else {
                Pattern::of(chars.as_slice()).matches(arguments, slash)
            }
        }
    }
}

/// Whether the atom matches the command with its arguments. False for an alias and for an atom of another kind.
#[tactic(auto, unfolding(crate::specs::Matching::command_fits))]
pub fn command_matches(atom: &Atom, command: &[u8], arguments: &[u8]) -> bool
    ensures { result ≡ command_fits atom.now command.now arguments.now }
{
    match atom {
        Atom::All => true,
        Atom::Command { path, args } => {
            let path = path.as_slice();
            if !Pattern::of_path(path).matches(command, Slash::Not) {
                return false;
            }
            let slash = if spells_text(b"sudoedit", path) {
                Slash::Not
            } else {
                Slash::Any
            };
            arguments_fit(slash, args, arguments)
        }
        _ => false,
    }
}
