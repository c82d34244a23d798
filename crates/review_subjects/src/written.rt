//! Lists that are written out, and the values of those of users and groups to run as.
ghost use Rattle.std.specs.Prelude.{◌≡◌, IfOk, IsTrue};
ghost use Rattle.std.specs.List.{list_any};
ghost use Rattle.sudo_match.specs.Matching.{user_fits, group_fits};
ghost use Rattle.sudo_policy.specs.Resolving.{resolves};
ghost use Rattle.sudo_policy.specs.Written.{written_form};
ghost use Rattle.review_subjects.specs.Body.Written as spec;

use std::alloc::{AllocError, Global};
use sudo_match::{Group, Person, group_matches, user_matches};
use sudo_policy::{Checked, Kind, Member, Signed, write_out};

/// Returns a list, written out. Returns `AllocError` if allocation fails.
pub(crate) fn written(
    alloc: Global,
    checked: &Checked,
    kind: Kind,
    members: &[Member],
) -> Result<Vec<Signed>, AllocError>
    requires { IsTrue (resolves kind checked.now members.now) }
    ensures { IfOk result (λ atoms. atoms.items ≡ written_form kind checked.now members.now) }
{
    let mut atoms = Vec::new(alloc);
    write_out(alloc, checked, kind, members, false, &mut atoms)?;
    Ok(atoms)
}

// Returns the value of a written-out list for a user.
fn user_value(atoms: &[Signed], user: &Person) -> Option<bool>
    ensures { result ≡ spec.written_value atoms.now (λ a. user_fits a user.now) }
{
    let mut left = atoms;
    while let Some((signed, rest)) = left.split_last() {
        if user_matches(&signed.atom, user) {
            return Some(!signed.negated);
        }
        left = rest;
    }
    None
}

// Returns the value of a written-out list for a group.
fn group_value(atoms: &[Signed], group: &Group) -> Option<bool>
    ensures { result ≡ spec.written_value atoms.now (λ a. group_fits a group.now) }
{
    let mut left = atoms;
    while let Some((signed, rest)) = left.split_last() {
        if group_matches(&signed.atom, group) {
            return Some(!signed.negated);
        }
        left = rest;
    }
    None
}

/// Whether a written-out list allows one of these users.
pub(crate) fn allows_user(atoms: &[Signed], people: &[Person]) -> bool
    ensures { result ≡ spec.allows_user atoms.now people.now }
{
    people
        .iter()
        .any(|person| user_value(atoms, person).unwrap_or(false))
}

// Whether a written-out list allows a group of a user.
fn allows_own_group(atoms: &[Signed], person: &Person) -> bool
    ensures { result ≡ spec.allows_own_group atoms.now person.now }
{
    let groups = person.groups.as_slice();
    groups
        .iter()
        .any(|group| group_value(atoms, group).unwrap_or(false))
}

// Whether a written-out list allows a group of one of these users.
fn allows_group(atoms: &[Signed], people: &[Person]) -> bool
    ensures { result ≡ spec.allows_group atoms.now people.now }
{
    people.iter().any(|person| allows_own_group(atoms, person))
}

/// Whether a written-out list allows one of these users, or a group of one.
pub(crate) fn allows_target(atoms: &[Signed], people: &[Person]) -> bool
    ensures { result ≡ spec.allows_target atoms.now people.now }
{
    allows_user(atoms, people) || allows_group(atoms, people)
}

// Whether a written-out list does not deny some group of a user.
fn spares_own_group(atoms: &[Signed], person: &Person) -> bool
    ensures { result ≡ spec.spares_own_group atoms.now person.now }
{
    let groups = person.groups.as_slice();
    groups
        .iter()
        .any(|group| group_value(atoms, group).unwrap_or(true))
}

// Whether a command with these users and groups can be run as a user. `any_group`: the groups allow some group.
fn pair_reaches(users: &[Signed], groups: &[Signed], any_group: bool, person: &Person) -> bool
    ensures { result ≡ spec.pair_reaches users.now groups.now any_group person.now }
{
    match user_value(users, person) {
        Some(allowed) => allowed,
        None => any_group || spares_own_group(groups, person),
    }
}

/// Whether a command with these users and groups can be run as one of these.
pub(crate) fn pair_reaches_any(users: &[Signed], groups: &[Signed], people: &[Person]) -> bool
    ensures { result ≡ list_any (spec.pair_reaches users.now groups.now
        (spec.allows_group groups.now people.now)) people.now }
{
    let any_group = allows_group(groups, people);
    people
        .iter()
        .any(|person| pair_reaches(users, groups, any_group, person))
}
