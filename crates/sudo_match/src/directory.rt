//! The directory of known users and hosts.
ghost use Rattle.std.specs.Prelude.{◌≡◌, find, bytes_eq, codes, IfOk, IfErr, Some, None};
ghost use Rattle.std.specs.Option.{option_copied};
ghost use Rattle.sudo_match.specs.Class.{lower_text};
ghost use Rattle.sudo_base.specs.NameIndices.{index_of};
ghost use Rattle.sudo_match.specs.Body.Indexing.{AreApart, ArePositions, IsKept, ungrouped_or_root_fault};
ghost use Rattle.sudo_match.specs.KnownRows.{user_named, host_named, group_named, same_user, groups_clash, groups_of};
ghost use Rattle.sudo_match.specs.KnownRows.{group_fault, directory_fault, is_no_group, IsDirectoryFault};

use crate::indexing::{group_names, host_names, host_place, user_names};
use crate::positions::{GroupPosition, group_found, positions_of};
use crate::{DirFault, Group, Machine, Person};
use std::alloc::Global;
use std::marker::Model;
use sudo_base::Names;
use sudo_text::Seq;

/// The known users and hosts. Contracts see the rows from which it was created, which have no fault.
#[derive(Drop)]
pub struct Directory {
    people: Seq<Person>,
    machines: Seq<Machine>,
    users: Names,
    hosts: Names,
    groups: Names,
    positions: Vec<GroupPosition>,
    // The index of the user root.
    root: usize,
}

impl Model for Directory {
    ghost use Rattle.sudo_match.specs.KnownRows.{KnownRows};
    ghost use Rattle.sudo_match.specs.Body.Indexing.{IsKept};

    ghost Value = { KnownRows };

    ghost view = { λ d. record { people = d.people; machines = d.machines } };

    ghost invariant = { λ d. IsKept d.people d.machines d.users d.hosts d.groups
        d.positions.items d.root };
}

impl Directory {
    /// Creates a directory of these rows, which are kept as they are, in time about linear in their number on average.
    ///
    /// Returns the first fault of `UserTwice`, `HostTwice`, `GroupClash`, `NoGroup` and `NoRoot`, in this order,
    /// exactly if the rows have it, and `Memory` if allocation fails.
    pub fn new(
        alloc: Global,
        people: Vec<Person>,
        machines: Vec<Machine>,
    ) -> Result<Directory, DirFault>
        ensures known { IfOk result (λ d. (d.people ≡ people.items)
            × (d.machines ≡ machines.items)) }
        ensures faultless { IfOk result (λ d. directory_fault people.items machines.items ≡ None) }
        ensures fault { IfErr result (IsDirectoryFault (directory_fault people.items
            machines.items)) }
    {
        let people = Seq::from_vec(people);
        let machines = Seq::from_vec(machines);
        let RowNames {
            users,
            hosts,
            groups,
            positions,
            root,
        } = row_names(alloc, people.as_slice(), machines.as_slice())?;
        Ok(Directory {
            people,
            machines,
            users,
            hosts,
            groups,
            positions,
            root,
        })
    }

    /// A law: the rows of each directory have no fault. The function has an empty body.
    pub fn has_no_fault(&self)
        ensures { directory_fault self.now.people self.now.machines ≡ None }
    {
        let _people = &self.people;
    }

    /// Returns the known users, in the order of their rows.
    pub fn people(&self) -> &[Person]
        ensures { result.now ≡ self.now.people }
    {
        self.people.as_slice()
    }

    /// Returns the known hosts, in the order of their rows.
    pub fn machines(&self) -> &[Machine]
        ensures { result.now ≡ self.now.machines }
    {
        self.machines.as_slice()
    }

    /// Returns the user of this name, or `None` if there is none. Does not allocate.
    pub fn user(&self, name: &[u8]) -> Option<&Person>
        ensures { option_copied result ≡ user_named self.now name.now }
    {
        let at = self.users.get(name)?;
        self.people.get(at)
    }

    /// Returns the user root, whom each directory has. Does not allocate.
    pub fn root(&self) -> Option<&Person>
        ensures { option_copied result ≡ user_named self.now (codes "root") }
    {
        self.people.get(self.root)
    }

    /// Returns the host of this name, ignoring ASCII case, or `None` if there is none. Does not allocate.
    pub fn host(&self, name: &[u8]) -> Option<&Machine>
        ensures { option_copied result ≡ host_named self.now name.now }
    {
        if name.len() > 255 {
            return scanned(self.machines.as_slice(), name);
        }
        let at = host_place(&self.hosts, name)?;
        self.machines.get(at)
    }

    /// Returns the group of this name, or `None` if no user has one. Does not allocate.
    pub fn group(&self, name: &[u8]) -> Option<&Group>
        ensures { option_copied result ≡ group_named self.now name.now }
    {
        group_found(
            self.people.as_slice(),
            self.positions.as_slice(),
            self.groups.get(name),
        )
    }
}

// The names of rows, where their groups are, and the index of the user root.
#[derive(Drop)]
struct RowNames {
    users: Names,
    hosts: Names,
    groups: Names,
    positions: Vec<GroupPosition>,
    root: usize,
}

// Returns the names of these rows, or the fault of the rows.
fn row_names(alloc: Global, people: &[Person], machines: &[Machine]) -> Result<RowNames, DirFault>
    ensures kept { IfOk result (λ n. IsKept people.now machines.now n.users n.hosts n.groups
        n.positions.items n.root) }
    ensures fault { IfErr result (IsDirectoryFault (directory_fault people.now machines.now)) }
{
    let users = user_names(alloc, people)?;
    let hosts = host_names(alloc, machines)?;
    let (positions, groups) = grouped(alloc, people)?;
    let root = root_index(alloc, people, &users)?;
    Ok(RowNames {
        users,
        hosts,
        groups,
        positions,
        root,
    })
}

// Returns where the groups of these users are, and the indices of the groups by name.
fn grouped(alloc: Global, people: &[Person]) -> Result<(Vec<GroupPosition>, Names), DirFault>
    ensures positions { IfOk result (λ g. ArePositions people.now g.0.items) }
    ensures names { IfOk result (λ g. AreApart groups_clash (λ g. g.name) (groups_of people.now)
        g.1) }
    ensures fault { IfErr result (IsDirectoryFault (group_fault people.now)) }
{
    let positions = positions_of(alloc, people)?;
    let names = group_names(alloc, people, positions.as_slice())?;
    Ok((positions, names))
}

// Returns the index of the user root. Returns `NoGroup` for the first user without a group, else `NoRoot` if there is no
// such user, and `Memory` if allocation fails.
fn root_index(alloc: Global, people: &[Person], users: &Names) -> Result<usize, DirFault>
    requires { AreApart same_user (λ u. u.name) people.now users.now }
    ensures root { IfOk result (λ root. index_of users.now (codes "root") ≡ Some root) }
    ensures faultless { IfOk result (λ root. ungrouped_or_root_fault people.now ≡ None) }
    ensures fault { IfErr result (IsDirectoryFault (ungrouped_or_root_fault people.now)) }
{
    if let Some(person) = ungrouped(people) {
        return Err(DirFault::no_group(alloc, person.name.as_slice()));
    }
    match users.get(b"root") {
        Some(root) => Ok(root),
        None => Err(DirFault::NoRoot),
    }
}

// Returns the first user without a group.
fn ungrouped(people: &[Person]) -> Option<&Person>
    ensures { option_copied result ≡ find (λ u. is_no_group u.groups) people.now }
{
    people.iter().find(|person| person.groups.is_empty())
}

fn is_same_host(a: &[u8], b: &[u8]) -> bool
    ensures { result ≡ bytes_eq (lower_text a.now) (lower_text b.now) }
{
    a.eq_ignore_ascii_case(b)
}

// Returns the first host of this name, ignoring ASCII case, by a linear search.
fn scanned<'a>(machines: &'a [Machine], name: &[u8]) -> Option<&'a Machine>
    ensures { option_copied result ≡ find (λ m. bytes_eq (lower_text m.name) (lower_text name.now))
        machines.now }
{
    let mut left = machines;
    while let Some((machine, rest)) = left.split_first() {
        if is_same_host(machine.name.as_slice(), name) {
            return Some(machine);
        }
        left = rest;
    }
    None
}
