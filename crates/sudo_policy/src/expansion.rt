//! Aliases written out.
ghost use Rattle.std.specs.Prelude.{◌≡◌, Some, None, List, ◌++◌, map, OnOk, IfOk, IfErr, IsTrue};
ghost use Rattle.std.specs.declared.result.Result.TheVariants.{Err};
ghost use Rattle.sudo_policy.specs.Definitions.{in_force};
ghost use Rattle.sudo_policy.specs.Resolving.{resolves};
ghost use Rattle.sudo_policy.specs.Written.{differ, negated_if, written_form, IsWrittenOut};

use crate::Checked;
use crate::member::{alias_name, atom_copied, is_negated};
use std::alloc::{AllocError, Global};
use sudo_grammar::{Kind, Member, Signed};
use thiserror::Error;

/// The reason why an alias cannot be written out.
#[derive(Clone, Copy, Debug, PartialEq, Eq, Error)]
pub enum ExpandFault {
    /// The name has no definition of that kind.
    #[error("no such alias")]
    NoSuchAlias,
    /// Out of memory.
    #[error("out of memory")]
    Memory,
}

impl From<AllocError> for ExpandFault {
    ghost use Rattle.std.specs.Prelude.{◌≡◌};
    ghost use Rattle.sudo_policy.specs.declared.expansion.ExpandFault.TheVariants.{Memory};

    ghost from_gives = { λ _ e. e ≡ Memory };

    fn from(_: AllocError) -> ExpandFault {
        ExpandFault::Memory
    }
}

// Whether exactly one of the two is true.
fn differ(a: bool, b: bool) -> bool
    ensures { result ≡ differ a b }
{
    if a { !b } else { b }
}

/// Returns the alias written out, as cvtsudoers(1) does with its option -e: its members in order, with each alias
/// replaced by the members of its definition, each negated once for each odd negation on the way to it.
///
/// Returns `NoSuchAlias` exactly if the name has no definition of that kind, and `Memory` if allocation fails.
pub fn expand(
    alloc: Global,
    checked: &Checked,
    kind: Kind,
    name: &[u8],
) -> Result<Vec<Signed>, ExpandFault>
    ensures written { IfOk result (λ atoms. (members : List Member)
        × (in_force kind checked.now name.now ≡ Some members)
        × IsWrittenOut kind checked.now members atoms.items) }
    ensures no_such_alias { in_force kind checked.now name.now ≡ None
        → result ≡ Err ExpandFault.NoSuchAlias }
    ensures known { IfErr result (λ fault. fault ≡ ExpandFault.NoSuchAlias
        → in_force kind checked.now name.now ≡ None) }
{
    let Some(members) = checked.definition(kind, name) else {
        return Err(ExpandFault::NoSuchAlias);
    };
    let mut atoms = Vec::new(alloc);
    write_out(alloc, checked, kind, members, false, &mut atoms)?;
    Ok(atoms)
}

/// Appends a list written out: its members in order, each alias replaced by the members of its definition, each negated
/// once for each odd negation on the way to it, and once more if `negate` is true. Returns `AllocError` if allocation
/// fails.
pub fn write_out(
    alloc: Global,
    checked: &Checked,
    kind: Kind,
    members: &[Member],
    negate: bool,
    atoms: &mut Vec<Signed>,
) -> Result<(), AllocError>
    requires { IsTrue (resolves kind checked.now members.now) }
    ensures { OnOk result (atoms.new.items ≡ atoms.old.items
        ++ map (negated_if negate) (written_form kind checked.now members.now)) }
{
    for member in members {
        let negated = differ(negate, is_negated(member));
        match alias_name(&member.atom) {
            Some(name) => match checked.definition(kind, name) {
                Some(definition) => write_out(alloc, checked, kind, definition, negated, atoms)?,
                None => unreachable!(),
            },
            None => atoms.push(Signed {
                negated,
                atom: atom_copied(alloc, &member.atom)?,
            })?,
        }
    }
    Ok(())
}
