//! Rules and definitions of aliases that allow no known user, group or host.
ghost use Rattle.std.specs.Prelude.{◌≡◌, ◌||◌, false, IfOk, IsTrue, Some, All};
ghost use Rattle.std.specs.List.{list_any, list_all};
ghost use Rattle.sudo_grammar.specs.declared.kind.Kind.TheVariants as kinds;
ghost use Rattle.sudo_policy.specs.Resolving.{resolves, runas_resolves};
ghost use Rattle.sudo_policy.specs.Body.Resolving.{command_resolves, section_resolves, rule_resolves};
ghost use Rattle.sudo_verdict.specs.Values.{user_allowed, host_allowed};
ghost use Rattle.review_subjects.specs.Reach as spec;

use crate::written::{allows_target, allows_user, pair_reaches_any, written};
use std::alloc::{AllocError, Global};
use sudo_match::{Directory, Machine, Person};
use sudo_policy::{Checked, CommandSpec, Kind, Member, Runas, Section};
use sudo_verdict::{lists_host, lists_user};

// Whether a list of users allows one of these.
fn lists_some_user(checked: &Checked, users: &[Member], people: &[Person]) -> bool
    requires { IsTrue (resolves kinds.User checked.now users.now) }
    ensures { result ≡ list_any (user_allowed checked.now users.now) people.now }
{
    for person in people {
        if lists_user(checked, users, person) {
            return true;
        }
    }
    false
}

// Whether a list of hosts allows one of these.
fn lists_some_host(checked: &Checked, hosts: &[Member], machines: &[Machine]) -> bool
    requires { IsTrue (resolves kinds.Host checked.now hosts.now) }
    ensures { result ≡ list_any (host_allowed checked.now hosts.now) machines.now }
{
    for machine in machines {
        if lists_host(checked, hosts, machine) {
            return true;
        }
    }
    false
}

// Whether a list of users to run as allows one of these.
#[tactic(auto, unfolding(sudo_verdict::specs::Values::value))]
fn users_reach(
    alloc: Global,
    checked: &Checked,
    users: &[Member],
    people: &[Person],
) -> Result<bool, AllocError>
    requires { IsTrue (resolves kinds.Runas checked.now users.now) }
    ensures { IfOk result (λ reaches. reaches ≡ spec.allows_user checked.now users.now people.now) }
{
    let atoms = written(alloc, checked, Kind::Runas, users)?;
    Ok(allows_user(atoms.as_slice(), people))
}

// Whether a command with these users and groups can be run as one of these.
#[tactic(auto, unfolding(sudo_verdict::specs::Values::value))]
fn pair_reaches(
    alloc: Global,
    checked: &Checked,
    users: &[Member],
    groups: &[Member],
    people: &[Person],
) -> Result<bool, AllocError>
    requires users { IsTrue (resolves kinds.Runas checked.now users.now) }
    requires groups { IsTrue (resolves kinds.Runas checked.now groups.now) }
    ensures { IfOk result (λ reaches. reaches ≡ list_any (spec.pair_reaches checked.now users.now
        groups.now (spec.allows_group checked.now groups.now people.now)) people.now) }
{
    let users = written(alloc, checked, Kind::Runas, users)?;
    let groups = written(alloc, checked, Kind::Runas, groups)?;
    Ok(pair_reaches_any(users.as_slice(), groups.as_slice(), people))
}

// Whether a runas reaches one of these users.
fn runas_reaches(
    alloc: Global,
    checked: &Checked,
    runas: &Runas,
    people: &[Person],
) -> Result<bool, AllocError>
    requires { IsTrue (runas_resolves checked.now (Some runas.now)) }
    ensures { IfOk result (λ reaches. reaches
        ≡ spec.runas_reaches checked.now people.now runas.now) }
{
    let Some(users) = &runas.users else {
        return Ok(true);
    };
    match &runas.groups {
        Some(groups) => pair_reaches(alloc, checked, users.as_slice(), groups.as_slice(), people),
        None => users_reach(alloc, checked, users.as_slice(), people),
    }
}

// Whether the runas of a command reaches one of these users; `otherwise` if the command has none.
fn own_reaches(
    alloc: Global,
    checked: &Checked,
    runas: &Option<Runas>,
    otherwise: bool,
    people: &[Person],
) -> Result<bool, AllocError>
    requires { IsTrue (runas_resolves checked.now runas.now) }
    ensures { IfOk result (λ reaches. reaches
        ≡ spec.own_reaches checked.now people.now otherwise runas.now) }
{
    match runas {
        Some(runas) => runas_reaches(alloc, checked, runas, people),
        None => Ok(otherwise),
    }
}

// Whether one of the runas that these commands name reaches one of these users.
fn named_reach(
    alloc: Global,
    checked: &Checked,
    commands: &[CommandSpec],
    people: &[Person],
) -> Result<bool, AllocError>
    requires { All (λ c. IsTrue (command_resolves checked.now c)) commands.now }
    ensures { IfOk result (λ reaches. reaches ≡ list_any (λ c. spec.own_reaches checked.now
        people.now false c.runas) commands.now) }
{
    for command in commands {
        if own_reaches(alloc, checked, &command.runas, false, people)? {
            return Ok(true);
        }
    }
    Ok(false)
}

// Whether the commands of a section reach one of these users.
fn commands_reach(
    alloc: Global,
    checked: &Checked,
    commands: &[CommandSpec],
    people: &[Person],
) -> Result<bool, AllocError>
    requires { IsTrue (list_all (command_resolves checked.now) commands.now) }
    ensures { IfOk result (λ reaches. reaches
        ≡ spec.commands_reach checked.now people.now commands.now) }
{
    match commands {
        [] => Ok(false),
        [first, rest @ ..] => {
            if own_reaches(alloc, checked, &first.runas, true, people)? {
                return Ok(true);
            }
            named_reach(alloc, checked, rest, people)
        }
    }
}

// Whether a section reaches somebody.
fn section_reaches(
    alloc: Global,
    checked: &Checked,
    directory: &Directory,
    section: &Section,
) -> Result<bool, AllocError>
    requires { IsTrue (section_resolves checked.now section.now) }
    ensures { IfOk result (λ reaches. reaches
        ≡ spec.section_reaches checked.now directory.now section.now) }
{
    if !lists_some_host(checked, section.hosts.as_slice(), directory.machines()) {
        return Ok(false);
    }
    commands_reach(
        alloc,
        checked,
        section.commands.as_slice(),
        directory.people(),
    )
}

// Whether one of these sections reaches somebody.
fn sections_reach(
    alloc: Global,
    checked: &Checked,
    directory: &Directory,
    sections: &[Section],
) -> Result<bool, AllocError>
    requires { All (λ s. IsTrue (section_resolves checked.now s)) sections.now }
    ensures { IfOk result (λ reaches. reaches
        ≡ list_any (spec.section_reaches checked.now directory.now) sections.now) }
{
    for section in sections {
        if section_reaches(alloc, checked, directory, section)? {
            return Ok(true);
        }
    }
    Ok(false)
}

/// Whether a rule reaches somebody. Returns `AllocError` if allocation fails.
pub(crate) fn rule_reaches(
    alloc: Global,
    checked: &Checked,
    directory: &Directory,
    users: &[Member],
    sections: &[Section],
) -> Result<bool, AllocError>
    requires { IsTrue (rule_resolves checked.now users.now sections.now) }
    ensures { IfOk result (λ reaches. reaches
        ≡ spec.rule_reaches checked.now directory.now users.now sections.now) }
{
    if !lists_some_user(checked, users, directory.people()) {
        return Ok(false);
    }
    sections_reach(alloc, checked, directory, sections)
}

// Whether the list of an alias of the kind Runas allows one of these users, or a group of one.
#[tactic(auto, unfolding(sudo_verdict::specs::Values::value))]
fn targets_reach(
    alloc: Global,
    checked: &Checked,
    members: &[Member],
    people: &[Person],
) -> Result<bool, AllocError>
    requires { IsTrue (resolves kinds.Runas checked.now members.now) }
    ensures { IfOk result (λ reaches. reaches
        ≡ (spec.allows_user checked.now members.now people.now
        || spec.allows_group checked.now members.now people.now)) }
{
    let atoms = written(alloc, checked, Kind::Runas, members)?;
    Ok(allows_target(atoms.as_slice(), people))
}

/// Whether the list of an alias of a kind allows a known one. Returns `AllocError` if allocation fails.
pub(crate) fn alias_reaches(
    alloc: Global,
    checked: &Checked,
    directory: &Directory,
    kind: Kind,
    members: &[Member],
) -> Result<bool, AllocError>
    requires { IsTrue (resolves kind checked.now members.now) }
    ensures { IfOk result (λ reaches. reaches
        ≡ spec.alias_reaches checked.now directory.now kind members.now) }
{
    match kind {
        Kind::User => Ok(lists_some_user(checked, members, directory.people())),
        Kind::Runas => targets_reach(alloc, checked, members, directory.people()),
        Kind::Host => Ok(lists_some_host(checked, members, directory.machines())),
        Kind::Cmnd => Ok(true),
    }
}
