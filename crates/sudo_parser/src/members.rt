//! The meaning of a token as a member of a list.
ghost use Rattle.std.specs.Prelude.{◌≡◌, IfOk, ◌==◌, false, None};
ghost use Rattle.std.specs.List.{list_any};
ghost use Rattle.sudo_grammar.specs.Words.{bytes_of};
ghost use Rattle.sudo_grammar.specs.Members.{atom_of, expected_in, other_atom, user_of, group_of, cut_at, address_of};
ghost use Rattle.sudo_grammar.specs.Members.{network_of, is_slash, host_of, unquoted_host_of, plain_host_of};
ghost use Rattle.sudo_grammar.specs.Members.{command_of, no_command, begins_with_caret, ends_in_dollar};
ghost use Rattle.sudo_parser.specs.Body.Gives.{AgreesWith};
ghost use Rattle.sudo_grammar.specs.Members;

use crate::numbers::{address, cut, mask, number};
use crate::words::{ALL, bytes, is_text, is_unescaped, plain, spells, spells_name};
use std::alloc::{AllocError, Global};
use sudo_grammar::{Atom, Expected, Kind, Refusal, Unsupported};
use sudo_text::{Ch, Seq, TokenKind};

const LIST: &[u8] = b"list";

/// A refusal of a token as a member, or out of memory.
#[derive(Clone, Copy)]
pub(crate) enum MemberFault {
    Refused(Refusal),
    Memory,
}

impl From<AllocError> for MemberFault {
    ghost use Rattle.std.specs.Prelude.{◌≡◌};
    ghost use Rattle.sudo_parser.specs.declared.members.MemberFault.TheVariants.{Memory};

    ghost from_gives = { λ _ e. e ≡ Memory };

    fn from(_: AllocError) -> MemberFault {
        MemberFault::Memory
    }
}

// Reads a network: an address and a mask.
fn network(front: &[u8], back: &[u8]) -> Result<Atom, MemberFault>
    ensures { AgreesWith result (network_of (address_of front.now) back.now) }
{
    match address(front) {
        None => Err(MemberFault::Refused(Refusal::BadNumber)),
        Some(Err(refusal)) => Err(MemberFault::Refused(refusal)),
        Some(Ok(addr)) => match mask(back) {
            Ok(mask) => Ok(Atom::Net { addr, mask }),
            Err(refusal) => Err(MemberFault::Refused(refusal)),
        },
    }
}

// Copies characters.
fn copied(alloc: Global, chars: &[Ch]) -> Result<Seq<Ch>, AllocError>
    ensures { IfOk result (λ copy. copy ≡ chars.now) }
{
    Seq::from_slice(alloc, chars)
}

// Returns a host's name.
fn host_name(alloc: Global, chars: &[Ch], quoted: bool) -> Result<Atom, MemberFault>
    ensures { AgreesWith result (Ok (Atom.Host chars.now quoted)) }
{
    let chars = copied(alloc, chars)?;
    Ok(Atom::Host { chars, quoted })
}

// Whether the first character is a digit.
fn begins_with_digit(chars: &[Ch]) -> bool
    ensures { result ≡ false → address_of (bytes_of chars.now) ≡ None }
{
    match chars.first() {
        Some(c) => c.byte.is_ascii_digit(),
        None => false,
    }
}

// Whether a character is a slash, escaped or not.
fn has_slash_byte(chars: &[Ch]) -> bool
    ensures { result ≡ list_any (λ c. c.byte == 47) chars.now }
{
    chars.iter().any(|c| c.byte == b'/')
}

// Whether a word may be an address or a network: most hosts' names are neither, and their bytes are not copied.
#[tactic(auto, using(crate::proofs::Addresses::no_cut))]
fn may_be_address(chars: &[Ch]) -> bool
    ensures address { result ≡ false → address_of (bytes_of chars.now) ≡ None }
    ensures network { result ≡ false → cut_at 47 (bytes_of chars.now) ≡ None }
{
    begins_with_digit(chars) || has_slash_byte(chars)
}

// Reads an unquoted host word without escapes: an address, a network or a name.
fn plain_host(alloc: Global, chars: &[Ch]) -> Result<Atom, MemberFault>
    ensures { AgreesWith result (plain_host_of chars.now (bytes_of chars.now)
        (cut_at 47 (bytes_of chars.now))) }
{
    if !may_be_address(chars) {
        return host_name(alloc, chars, false);
    }
    let bytes = bytes(alloc, chars)?;
    match cut(&bytes, b'/') {
        Some((front, back)) => network(front, back),
        None => match address(&bytes) {
            None => host_name(alloc, chars, false),
            Some(Ok(addr)) => Ok(Atom::Address(addr)),
            Some(Err(refusal)) => Err(MemberFault::Refused(refusal)),
        },
    }
}

fn has_slash(chars: &[Ch]) -> bool
    ensures { result ≡ list_any is_slash chars.now }
{
    chars.iter().any(|c| !c.escaped && c.byte == b'/')
}

fn unquoted_host(alloc: Global, chars: &[Ch]) -> Result<Atom, MemberFault>
    ensures { AgreesWith result (unquoted_host_of chars.now) }
{
    if is_unescaped(chars) {
        plain_host(alloc, chars)
    } else if has_slash(chars) {
        Err(MemberFault::Refused(Refusal::BadNumber))
    } else {
        host_name(alloc, chars, false)
    }
}

fn unsupported(what: Unsupported) -> MemberFault
    ensures { result ≡ MemberFault.Refused (Refusal.Unsupported what) }
{
    MemberFault::Refused(Refusal::Unsupported(what))
}

fn no_member() -> MemberFault
    ensures { result ≡ MemberFault.Refused Members.no_member }
{
    MemberFault::Refused(Refusal::Syntax(Expected::Member))
}

/// Returns the expected token in a list of a kind.
pub(crate) fn expected(kind: Kind) -> Expected
    ensures { result ≡ expected_in kind }
{
    match kind {
        Kind::Cmnd => Expected::Command,
        _ => Expected::Member,
    }
}

// Reads a host.
fn host(alloc: Global, quoted: bool, chars: &[Ch]) -> Result<Atom, MemberFault>
    ensures { AgreesWith result (host_of quoted chars.now) }
{
    match chars {
        [] => Err(no_member()),
        [first, ..] => {
            if !first.escaped && first.byte == b'+' {
                return Err(unsupported(Unsupported::Netgroup));
            }
            if quoted {
                return host_name(alloc, chars, true);
            }
            unquoted_host(alloc, chars)
        }
    }
}

// Reads a group, by the characters after `%`.
fn group(alloc: Global, chars: &[Ch]) -> Result<Atom, MemberFault>
    ensures { AgreesWith result (group_of (bytes_of chars.now)) }
{
    match chars {
        [] => Err(no_member()),
        [first, rest @ ..] => match first.byte {
            b':' => Err(unsupported(Unsupported::NonUnixGroup)),
            b'#' => {
                let digits = bytes(alloc, rest)?;
                match number(&digits) {
                    Some(id) => Ok(Atom::Gid(id)),
                    None => Err(MemberFault::Refused(Refusal::BadNumber)),
                }
            }
            _ => Ok(Atom::Group(bytes(alloc, chars)?)),
        },
    }
}

// Reads a user, a group or one of their refused forms, by the first byte if it is unescaped.
fn user(alloc: Global, chars: &[Ch]) -> Result<Atom, MemberFault>
    ensures { AgreesWith result (user_of chars.now) }
{
    match chars {
        [] => Err(no_member()),
        [first, rest @ ..] => {
            if first.escaped {
                return Ok(Atom::Name(bytes(alloc, chars)?));
            }
            match first.byte {
                b'+' => Err(unsupported(Unsupported::Netgroup)),
                b'%' => group(alloc, rest),
                b'#' => {
                    let digits = bytes(alloc, rest)?;
                    match number(&digits) {
                        Some(id) => Ok(Atom::Uid(id)),
                        None => Err(MemberFault::Refused(Refusal::BadNumber)),
                    }
                }
                _ => Ok(Atom::Name(bytes(alloc, chars)?)),
            }
        }
    }
}

// Whether the first character is an unescaped `^`.
fn has_caret(chars: &[Ch]) -> bool
    ensures { result ≡ begins_with_caret chars.now }
{
    match chars.first() {
        Some(c) => !c.escaped && c.byte == b'^',
        None => false,
    }
}

// Whether the last character is an unescaped `$`.
fn has_dollar(chars: &[Ch]) -> bool
    ensures { result ≡ ends_in_dollar chars.now }
{
    match chars.last() {
        Some(c) => !c.escaped && c.byte == b'$',
        None => false,
    }
}

// Reads a command: its path, and its arguments. Refuses arguments that are a regular expression.
fn command(alloc: Global, path: &[Ch], args: &Option<Seq<Ch>>) -> Result<Atom, MemberFault>
    ensures { AgreesWith result (command_of path.now args.now) }
{
    match args {
        None => Ok(Atom::Command {
            path: copied(alloc, path)?,
            args: None,
        }),
        Some(args) => {
            if has_caret(args) && has_dollar(args) {
                return Err(unsupported(Unsupported::RegularExpression));
            }
            Ok(Atom::Command {
                path: copied(alloc, path)?,
                args: Some(copied(alloc, args)?),
            })
        }
    }
}

// Returns the refusal of a word as a command.
fn not_command(quoted: bool, chars: &[Ch]) -> Refusal
    ensures { result ≡ no_command quoted chars.now }
{
    if quoted {
        Refusal::NotCommand
    } else if has_caret(chars) {
        Refusal::Unsupported(Unsupported::RegularExpression)
    } else if is_text(chars, LIST) {
        Refusal::Unsupported(Unsupported::List)
    } else {
        Refusal::NotCommand
    }
}

// Reads a token that is neither `ALL` nor the name of an alias.
fn other(alloc: Global, kind: Kind, token: &TokenKind) -> Result<Atom, MemberFault>
    ensures { AgreesWith result (other_atom kind token.now) }
{
    match token {
        TokenKind::Word { quoted, chars } => match kind {
            Kind::User | Kind::Runas => user(alloc, chars),
            Kind::Host => host(alloc, *quoted, chars),
            Kind::Cmnd => Err(MemberFault::Refused(not_command(*quoted, chars))),
        },
        TokenKind::Command { path, args } => match kind {
            Kind::Cmnd => command(alloc, path, args),
            _ => Err(no_member()),
        },
        _ => Err(MemberFault::Refused(Refusal::Syntax(expected(kind)))),
    }
}

/// Returns the meaning of a token in a list of a kind, or its refusal: see sudoers(5), "SUDOERS FILE FORMAT".
pub(crate) fn atom(alloc: Global, kind: Kind, token: &TokenKind) -> Result<Atom, MemberFault>
    ensures { AgreesWith result (atom_of kind token.now) }
{
    match plain(token) {
        Some(word) => {
            if spells(word, ALL) {
                Ok(Atom::All)
            } else if spells_name(word) {
                Ok(Atom::Alias(bytes(alloc, word)?))
            } else {
                other(alloc, kind, token)
            }
        }
        None => other(alloc, kind, token),
    }
}
