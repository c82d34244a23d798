//! Indexes of users, hosts and groups by their names.
ghost use Rattle.std.specs.Prelude.{◌≡◌, ◌==◌, ◌||◌, ◌∷◌, [], ◌≤◌, IfOk, IfErr, OnOk, length, bytes_eq, option_and_then, slice_get};
ghost use Rattle.std.specs.Option.{option_copied};
ghost use Rattle.sudo_base.specs.NameIndices.{index_of};
ghost use Rattle.sudo_match.specs.Class.{lower_text};
ghost use Rattle.sudo_match.specs.KnownRows.{same_user, same_host, groups_clash, groups_of, user_fault, host_fault};
ghost use Rattle.sudo_match.specs.KnownRows.{group_fault, IsDirectoryFault};
ghost use Rattle.sudo_match.specs.Body.Indexing.{AreApart, ArePositions, with_name, differs};

use crate::ids::Ids;
use crate::positions::{GroupPosition, group_at, group_found};
use crate::{DirFault, Group, Machine, Person};
use std::alloc::{AllocError, Global};
use sudo_base::Names;

/// Returns the indices of users by name. Returns `UserTwice` for the first user whose name an earlier one has.
pub(crate) fn user_names(alloc: Global, people: &[Person]) -> Result<Names, DirFault>
    ensures names { IfOk result (AreApart same_user (λ u. u.name) people.now) }
    ensures fault { IfErr result (IsDirectoryFault (user_fault people.now)) }
{
    let mut names = Names::new(alloc);
    for (at, person) in people.iter().enumerate() {
        let name = person.name.as_slice();
        if names.get(name).is_some() {
            return Err(DirFault::user_twice(alloc, name));
        }
        names.insert(alloc, name, at)?;
    }
    Ok(names)
}

// Copies a name in lower case.
fn in_lower_case(alloc: Global, name: &[u8]) -> Result<Vec<u8>, AllocError>
    ensures { IfOk result (λ v. v.items ≡ lower_text name.now) }
{
    name.iter()
        .map(|byte| byte.to_ascii_lowercase())
        .collect(alloc)
}

/// Returns the indices of hosts by name in lower case. Returns `HostTwice` for the first host whose name an earlier one
/// has.
pub(crate) fn host_names(alloc: Global, machines: &[Machine]) -> Result<Names, DirFault>
    ensures names { IfOk result (AreApart same_host (λ m. lower_text m.name) machines.now) }
    ensures fault { IfErr result (IsDirectoryFault (host_fault machines.now)) }
{
    let mut names = Names::new(alloc);
    for (at, machine) in machines.iter().enumerate() {
        let name = in_lower_case(alloc, machine.name.as_slice())?;
        if names.get(name.as_slice()).is_some() {
            return Err(DirFault::host_twice(alloc, machine.name.as_slice()));
        }
        names.insert(alloc, name.as_slice(), at)?;
    }
    Ok(names)
}

// The greatest length of a name that is looked up through the index: a longer one is not a host name by RFC 1123.
const LONGEST: usize = 255;

/// Returns the index of a host, ignoring ASCII case. Does not allocate: the name is put in lower case on the stack.
pub(crate) fn host_place(names: &Names, name: &[u8]) -> Option<usize>
    requires { length name.now ≤ 255 }
    ensures { result ≡ index_of names.now (lower_text name.now) }
{
    let mut lower = [0u8; LONGEST];
    for (at, byte) in name.iter().enumerate() {
        lower[at] = byte.to_ascii_lowercase();
    }
    names.get(&lower[..name.len()])
}

// Inserts the index of a name, unless the name has one.
fn note(names: &mut Names, alloc: Global, name: &[u8], index: usize) -> Result<(), AllocError>
    ensures { OnOk result (names.new ≡ with_name names.old name.now index) }
{
    if names.get(name).is_some() {
        return Ok(());
    }
    names.insert(alloc, name, index)
}

fn has_other_id(found: Option<&Group>, gid: u32) -> bool
    ensures { result ≡ differs (λ g. g.gid == gid) (option_copied found.entry) }
{
    match found {
        None => false,
        Some(group) => group.gid != gid,
    }
}

fn has_other_name(found: Option<&Group>, name: &[u8]) -> bool
    ensures { result ≡ differs (λ g. bytes_eq g.name name.now) (option_copied found.entry) }
{
    match found {
        None => false,
        Some(group) => group.name.as_slice() != name,
    }
}

// Whether the first group of the same name has another ID, or the first group of the same ID has another name.
fn clashes(
    people: &[Person],
    positions: &[GroupPosition],
    by_name: Option<usize>,
    by_id: Option<usize>,
    group: &Group,
) -> bool
    requires { ArePositions people.now positions.now }
    ensures { result ≡ (differs (λ g. g.gid == group.now.gid)
        (option_and_then (slice_get (groups_of people.now)) by_name)
        || differs (λ g. bytes_eq g.name group.now.name)
        (option_and_then (slice_get (groups_of people.now)) by_id)) }
{
    has_other_id(group_found(people, positions, by_name), group.gid)
        | has_other_name(group_found(people, positions, by_id), group.name.as_slice())
}

/// Returns the indices of groups, among all groups, by name. Returns `GroupClash` for the first group that clashes with
/// an earlier one.
pub(crate) fn group_names(
    alloc: Global,
    people: &[Person],
    positions: &[GroupPosition],
) -> Result<Names, DirFault>
    requires { ArePositions people.now positions.now }
    ensures names { IfOk result (AreApart groups_clash (λ g. g.name) (groups_of people.now)) }
    ensures fault { IfErr result (IsDirectoryFault (group_fault people.now)) }
{
    let mut names = Names::new(alloc);
    let mut ids = Ids::new(alloc);
    for at in 0..positions.len() {
        let Some(group) = group_at(people, positions, at) else {
            return Ok(names);
        };
        let name = group.name.as_slice();
        if clashes(
            people,
            positions,
            names.get(name),
            ids.get(group.gid),
            group,
        ) {
            return Err(DirFault::group_clash(alloc, name));
        }
        note(&mut names, alloc, name, at)?;
        ids.note(group.gid, at)?;
    }
    Ok(names)
}
