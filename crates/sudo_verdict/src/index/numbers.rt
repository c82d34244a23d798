//! Numbers under which rules are found: those of users, of their groups, and of commands.
//!
//! Each user and each command has a few numbers, and each atom has one. If an atom matches a user or a command, its
//! number is one of theirs.

ghost use Rattle.std.specs.Prelude.{ℕ, ◌≡◌, ◌+◌, ◌*◌, ◌%◌, ◌<◌};
ghost use Rattle.sudo_match.specs.Pattern.{is_folder_path};
ghost use Rattle.sudo_verdict.specs.Numbers as spec;
ghost use Rattle.sudo_verdict.specs.Body.Numbers.{atom_number};

use sudo_match::is_special;
use sudo_policy::Atom;
use sudo_text::Ch;

/// The upper bound of numbers, all of which are below it.
pub(crate) const NUMBERS: usize = 16_384;

/// The number under which rules are found for every user, or for every command.
pub(crate) const EVERYONE: usize = 0;

/// The number of the empty beginning of a command, from which those of longer beginnings are computed.
pub(crate) const BEGINNING: usize = 3;

// The byte by which the number of a whole command is extended. With this one few usual commands share a row with a beginning
// of another one.
const END: u8 = 6;

/// Extends the number of some bytes by one more byte.
pub(crate) fn next_number(number: usize, byte: u8) -> usize
    requires { number < 16384 }
    ensures value { result ≡ spec.next_number number byte }
    ensures below { result < 16384 }
{
    (number * 31 + byte as usize) % NUMBERS
}

// Returns the number of a name, computed from `seed`.
fn number_from(seed: usize, name: &[u8]) -> usize
    requires { seed < 16384 }
    ensures value { result ≡ spec.number_from seed name.now }
    ensures below { result < 16384 }
{
    let mut number = seed;
    let mut left = name;
    while let Some((byte, rest)) = left.split_first() {
        number = next_number(number, *byte);
        left = rest;
    }
    number
}

/// Returns the number of a user's name.
pub(crate) fn user_number(name: &[u8]) -> usize
    ensures { result ≡ spec.user_number name.now }
{
    number_from(1, name)
}

/// Returns the number of a group's name.
pub(crate) fn group_number(name: &[u8]) -> usize
    ensures value { result ≡ spec.group_number name.now }
    ensures below { result < 16384 }
{
    number_from(2, name)
}

/// Returns the mark of a group's name, by its last two bytes.
pub(crate) fn group_mark(name: &[u8]) -> usize
    ensures { result ≡ spec.group_mark name.now }
{
    let count = name.len();
    if count < 2 {
        return 0;
    }
    (name[count - 1] as usize + 10 * name[count - 2] as usize) % 64
}

/// Returns the number of a whole command from that of its bytes.
pub(crate) fn whole_number(number: usize) -> usize
    requires { number < 16384 }
    ensures value { result ≡ spec.next_number number 6 }
    ensures below { result < 16384 }
{
    next_number(number, END)
}

/// Returns the number of a user ID.
pub(crate) fn uid_number(uid: u32) -> usize
    ensures { result ≡ spec.uid_number uid }
{
    (uid as usize * 2 + 1) % NUMBERS
}

/// Returns the number of a group ID.
pub(crate) fn gid_number(gid: u32) -> usize
    ensures { result ≡ spec.gid_number gid }
{
    (gid as usize * 2 + 3) % NUMBERS
}

/// Returns the number under which a path is found: that of its bytes before the first special character; for a path
/// without special characters, that of all its bytes, as a beginning for a folder and otherwise as a whole command.
pub(crate) fn path_number(path: &[Ch]) -> usize
    ensures { result ≡ spec.path_number path.now }
{
    let mut number = BEGINNING;
    let mut left = path;
    while let Some((ch, rest)) = left.split_first() {
        if is_special(*ch) {
            return number;
        }
        number = next_number(number, ch.byte);
        left = rest;
    }
    if is_folder(path) {
        number
    } else {
        whole_number(number)
    }
}

// Whether the path ends in `/`, so that it stands for the files of a folder.
fn is_folder(path: &[Ch]) -> bool
    ensures { result ≡ is_folder_path path.now }
{
    match path.last() {
        Some(ch) => ch.byte == b'/',
        None => false,
    }
}

/// Returns the number under which an atom of a user list or of a command list is found.
#[tactic(auto, unfolding(crate::specs::Body::Numbers::atom_number))]
pub(crate) fn atom_number(atom: &Atom) -> usize
    ensures { result ≡ atom_number atom.now }
{
    match atom {
        Atom::Name(name) => user_number(name.as_slice()),
        Atom::Uid(uid) => uid_number(*uid),
        Atom::Group(name) => group_number(name.as_slice()),
        Atom::Gid(gid) => gid_number(*gid),
        Atom::Command { path, .. } => path_number(path.as_slice()),
        _ => EVERYONE,
    }
}
