//! Properties of the members of lists.
ghost use Rattle.std.specs.Prelude.{◌≡◌, option_copied, IfOk};
ghost use Rattle.sudo_policy.specs.Definitions.{alias_named};
ghost use Rattle.sudo_policy.specs.Written as written;

use std::alloc::{AllocError, Global};
use sudo_grammar::{Atom, Member};
use sudo_text::{Ch, Seq};

/// Returns the name of the alias that an atom is, or `None` for any other atom.
pub fn alias_name(atom: &Atom) -> Option<&[u8]>
    ensures { option_copied result ≡ alias_named atom.now }
{
    match atom {
        Atom::Alias(name) => Some(name.as_slice()),
        _ => None,
    }
}

/// Whether a member is negated: whether it has an odd number of exclamation marks.
pub fn is_negated(member: &Member) -> bool
    ensures { result ≡ written.is_negated member.now }
{
    member.bangs % 2 == 1
}

/// Copies an atom. Returns `AllocError` if allocation fails.
pub(crate) fn atom_copied(alloc: Global, atom: &Atom) -> Result<Atom, AllocError>
    ensures { IfOk result (λ copy. copy ≡ atom.now) }
{
    Ok(match atom {
        Atom::All => Atom::All,
        Atom::Alias(name) => Atom::Alias(Seq::from_slice(alloc, name.as_slice())?),
        Atom::Name(name) => Atom::Name(Seq::from_slice(alloc, name.as_slice())?),
        Atom::Uid(id) => Atom::Uid(*id),
        Atom::Group(name) => Atom::Group(Seq::from_slice(alloc, name.as_slice())?),
        Atom::Gid(id) => Atom::Gid(*id),
        Atom::Host { chars, quoted } => Atom::Host {
            chars: Seq::from_slice(alloc, chars.as_slice())?,
            quoted: *quoted,
        },
        Atom::Address(addr) => Atom::Address(*addr),
        Atom::Net { addr, mask } => Atom::Net {
            addr: *addr,
            mask: *mask,
        },
        Atom::Command { path, args } => command_copied(alloc, path, args)?,
    })
}

fn command_copied(alloc: Global, path: &Seq<Ch>, args: &Option<Seq<Ch>>) -> Result<Atom, AllocError>
    ensures { IfOk result (λ copy. copy ≡ Atom.Command path.now args.now) }
{
    let path = Seq::from_slice(alloc, path.as_slice())?;
    let args = match args {
        Some(args) => Some(Seq::from_slice(alloc, args.as_slice())?),
        None => None,
    };
    Ok(Atom::Command { path, args })
}
