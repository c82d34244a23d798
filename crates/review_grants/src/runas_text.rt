//! The text of a runas, its aliases written out.
ghost use Rattle.std.specs.Prelude.{◌≡◌, ◌++◌, ◌∷◌, flat_map, IfOk, IsTrue, OnOk, Some};
ghost use Rattle.sudo_grammar.specs.declared.kind.Kind.TheVariants as kind;
ghost use Rattle.sudo_parser.specs.Texts.{signed_text};
ghost use Rattle.sudo_policy.specs.Resolving.{list_resolves, resolves, runas_resolves};
ghost use Rattle.sudo_policy.specs.Written.{written_form};
ghost use Rattle.review_grants.specs.GrantRows.{groups_part, members_text, runas_text, users_part};

use crate::fields::push_joined;
use std::alloc::{AllocError, Global};
use sudo_grammar::Signed;
use sudo_parser::member_text;
use sudo_policy::{Checked, Kind, Member, Runas, write_out};
use sudo_text::Seq;

/// Returns a list written out. Returns `AllocError` if allocation failed.
pub(crate) fn written(
    alloc: Global,
    checked: &Checked,
    kind: Kind,
    members: &[Member],
) -> Result<Vec<Signed>, AllocError>
    requires { IsTrue (resolves kind checked.now members.now) }
    ensures { IfOk result (λ atoms. atoms.items ≡ written_form kind checked.now members.now) }
{
    let mut atoms = Vec::new(alloc);
    write_out(alloc, checked, kind, members, false, &mut atoms)?;
    Ok(atoms)
}

// Appends members, each behind a comma and a space.
fn push_separated(alloc: Global, text: &mut Vec<u8>, members: &[Signed]) -> Result<(), AllocError>
    ensures { OnOk result (text.new.items ≡ text.old.items
        ++ flat_map (λ s. 44 ∷ 32 ∷ signed_text s) members.now) }
{
    for member in members {
        let own = member_text(alloc, member)?;
        text.extend_from_slice(b", ")?;
        text.extend_from_slice(own.as_slice())?;
    }
    Ok(())
}

// Appends a list of users or groups, its aliases written out.
fn push_members(
    alloc: Global,
    text: &mut Vec<u8>,
    checked: &Checked,
    members: &[Member],
) -> Result<(), AllocError>
    requires { IsTrue (resolves kind.Runas checked.now members.now) }
    ensures { OnOk result (text.new.items ≡ text.old.items
        ++ members_text checked.now members.now) }
{
    let atoms = written(alloc, checked, Kind::Runas, members)?;
    let mut separated = Vec::new(alloc);
    push_separated(alloc, &mut separated, &atoms)?;
    push_joined(text, &separated)
}

fn push_users(
    alloc: Global,
    text: &mut Vec<u8>,
    checked: &Checked,
    users: &Option<Seq<Member>>,
) -> Result<(), AllocError>
    requires { IsTrue (list_resolves checked.now users.now) }
    ensures { OnOk result (text.new.items ≡ text.old.items ++ users_part checked.now users.now) }
{
    match users {
        None => Ok(()),
        Some(members) => push_members(alloc, text, checked, members.as_slice()),
    }
}

fn push_groups(
    alloc: Global,
    text: &mut Vec<u8>,
    checked: &Checked,
    groups: &Option<Seq<Member>>,
) -> Result<(), AllocError>
    requires { IsTrue (list_resolves checked.now groups.now) }
    ensures { OnOk result (text.new.items ≡ text.old.items ++ groups_part checked.now groups.now) }
{
    match groups {
        None => Ok(()),
        Some(members) => {
            text.extend_from_slice(b" : ")?;
            push_members(alloc, text, checked, members.as_slice())
        }
    }
}

/// Appends a runas as it would stand in a policy, its aliases written out: in parentheses, the users, and the groups behind a
/// colon. Returns `AllocError` if allocation failed.
pub(crate) fn push_runas(
    alloc: Global,
    text: &mut Vec<u8>,
    checked: &Checked,
    runas: &Runas,
) -> Result<(), AllocError>
    requires { IsTrue (runas_resolves checked.now (Some runas.now)) }
    ensures { OnOk result (text.new.items ≡ text.old.items
        ++ runas_text checked.now (Some runas.now)) }
{
    text.extend_from_slice(b"(")?;
    push_users(alloc, text, checked, &runas.users)?;
    push_groups(alloc, text, checked, &runas.groups)?;
    text.extend_from_slice(b")")
}
