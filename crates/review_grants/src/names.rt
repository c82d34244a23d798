//! The names of known users and hosts that a list allows.
ghost use Rattle.std.specs.Prelude.{◌≡◌, ◌++◌, flat_map, IfOk, IsTrue, OnOk, map, zip};
ghost use Rattle.std.specs.List.{list_all};
ghost use Rattle.sudo_grammar.specs.declared.kind.Kind.TheVariants as kind;
ghost use Rattle.sudo_parser.specs.Texts.{user_text};
ghost use Rattle.sudo_policy.specs.Resolving.{resolves};
ghost use Rattle.sudo_verdict.specs.Values.{user_allowed, host_allowed};
ghost use Rattle.review_grants.specs.Body.Heads.{AreNames, separated};
ghost use Rattle.review_grants.specs.GrantRows.{hosts_text, marked_text, users_text};

use crate::fields::push_joined;
use std::alloc::{AllocError, Global};
use sudo_grammar::{Atom, Signed};
use sudo_match::{Directory, Machine, Person};
use sudo_parser::member_text;
use sudo_policy::{Checked, Member};
use sudo_text::Seq;
use sudo_verdict::{lists_host, lists_user};

/// The names of the known users and hosts, each as it would stand in a policy.
#[derive(Drop)]
pub(crate) struct Names {
    pub(crate) users: Vec<Vec<u8>>,
    pub(crate) hosts: Vec<Vec<u8>>,
}

// Returns a name as it would stand in a list of users.
fn name_text(alloc: Global, name: &[u8]) -> Result<Vec<u8>, AllocError>
    ensures { IfOk result (λ text. text.items ≡ user_text name.now) }
{
    let atom = Atom::Name(Seq::from_slice(alloc, name)?);
    let member = Signed {
        negated: false,
        atom,
    };
    member_text(alloc, &member)
}

fn user_names(alloc: Global, people: &[Person]) -> Result<Vec<Vec<u8>>, AllocError>
    ensures { IfOk result (λ names. map (λ v. v.items) names.items
        ≡ map (λ u. user_text u.name) people.now) }
{
    let mut names = Vec::new(alloc);
    for person in people {
        names.push(name_text(alloc, person.name.as_slice())?)?;
    }
    Ok(names)
}

fn host_names(alloc: Global, machines: &[Machine]) -> Result<Vec<Vec<u8>>, AllocError>
    ensures { IfOk result (λ names. map (λ v. v.items) names.items
        ≡ map (λ m. user_text m.name) machines.now) }
{
    let mut names = Vec::new(alloc);
    for machine in machines {
        names.push(name_text(alloc, machine.name.as_slice())?)?;
    }
    Ok(names)
}

impl Names {
    /// Returns the names of the users and hosts of a directory. Returns `AllocError` if allocation failed.
    pub(crate) fn of(alloc: Global, directory: &Directory) -> Result<Names, AllocError>
        ensures { IfOk result (AreNames directory.now) }
    {
        Ok(Names {
            users: user_names(alloc, directory.people())?,
            hosts: host_names(alloc, directory.machines())?,
        })
    }
}

// Appends a name behind a comma and a space, if it is marked.
fn push_marked(text: &mut Vec<u8>, mark: bool, name: &[u8]) -> Result<(), AllocError>
    ensures { OnOk result (text.new.items ≡ text.old.items ++ separated (mark, name.now)) }
{
    if mark {
        text.extend_from_slice(b", ")?;
        text.extend_from_slice(name)?;
    }
    Ok(())
}

// Appends the names that are marked, each behind a comma and a space.
fn push_all_marked(text: &mut Vec<u8>, marks: &[bool], names: &[Vec<u8>]) -> Result<(), AllocError>
    ensures { OnOk result (text.new.items ≡ text.old.items
        ++ flat_map separated (zip marks.now (map (λ v. v.items) names.now))) }
{
    let mut left = names;
    for mark in marks {
        let Some((name, rest)) = left.split_first() else {
            return Ok(());
        };
        push_marked(text, *mark, name.as_slice())?;
        left = rest;
    }
    Ok(())
}

fn are_all(marks: &[bool]) -> bool
    ensures { result ≡ list_all (λ m. m) marks.now }
{
    marks.iter().all(|mark| *mark)
}

// Returns the names that are marked, each behind a comma and a space.
fn separated_names(alloc: Global, marks: &[bool], names: &[Vec<u8>]) -> Result<Vec<u8>, AllocError>
    ensures { IfOk result (λ text. text.items
        ≡ flat_map separated (zip marks.now (map (λ v. v.items) names.now))) }
{
    let mut text = Vec::new(alloc);
    push_all_marked(&mut text, marks, names)?;
    Ok(text)
}

// Returns the names that are marked, or `ALL` where each is.
fn marked_names(alloc: Global, marks: &[bool], names: &[Vec<u8>]) -> Result<Vec<u8>, AllocError>
    ensures { IfOk result (λ text. text.items
        ≡ marked_text marks.now (map (λ v. v.items) names.now)) }
{
    if are_all(marks) {
        return Vec::from_slice(alloc, b"ALL");
    }
    let separated = separated_names(alloc, marks, names)?;
    let mut text = Vec::new(alloc);
    push_joined(&mut text, &separated)?;
    Ok(text)
}

// Returns which known users a user list allows.
fn users_marks(
    alloc: Global,
    checked: &Checked,
    users: &[Member],
    people: &[Person],
) -> Result<Vec<bool>, AllocError>
    requires { IsTrue (resolves kind.User checked.now users.now) }
    ensures { IfOk result (λ marks. marks.items
        ≡ map (user_allowed checked.now users.now) people.now) }
{
    let mut marks = Vec::new(alloc);
    for person in people {
        marks.push(lists_user(checked, users, person))?;
    }
    Ok(marks)
}

// Returns which known hosts a host list allows.
fn hosts_marks(
    alloc: Global,
    checked: &Checked,
    hosts: &[Member],
    machines: &[Machine],
) -> Result<Vec<bool>, AllocError>
    requires { IsTrue (resolves kind.Host checked.now hosts.now) }
    ensures { IfOk result (λ marks. marks.items
        ≡ map (host_allowed checked.now hosts.now) machines.now) }
{
    let mut marks = Vec::new(alloc);
    for machine in machines {
        marks.push(lists_host(checked, hosts, machine))?;
    }
    Ok(marks)
}

impl Names {
    /// Returns the known users that a user list allows, or `ALL` where it allows each. Returns `AllocError` if allocation failed.
    pub(crate) fn allowed_users(
        &self,
        alloc: Global,
        checked: &Checked,
        directory: &Directory,
        users: &[Member],
    ) -> Result<Vec<u8>, AllocError>
        requires names { AreNames directory.now self.now }
        requires resolves { IsTrue (resolves kind.User checked.now users.now) }
        ensures { IfOk result (λ text. text.items
            ≡ users_text checked.now directory.now users.now) }
    {
        let marks = users_marks(alloc, checked, users, directory.people())?;
        marked_names(alloc, &marks, &self.users)
    }

    /// Returns the known hosts that a host list allows, or `ALL` where it allows each. Returns `AllocError` if allocation failed.
    pub(crate) fn allowed_hosts(
        &self,
        alloc: Global,
        checked: &Checked,
        directory: &Directory,
        hosts: &[Member],
    ) -> Result<Vec<u8>, AllocError>
        requires names { AreNames directory.now self.now }
        requires resolves { IsTrue (resolves kind.Host checked.now hosts.now) }
        ensures { IfOk result (λ text. text.items
            ≡ hosts_text checked.now directory.now hosts.now) }
    {
        let marks = hosts_marks(alloc, checked, hosts, directory.machines())?;
        marked_names(alloc, &marks, &self.hosts)
    }
}
