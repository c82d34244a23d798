//! The subjects of an entry.
ghost use Rattle.std.specs.Prelude.{◌≡◌, ◌++◌, OnOk, IsTrue, flat_map, All};
ghost use Rattle.sudo_policy.specs.Body.Resolving.{rule_resolves};
ghost use Rattle.review_subjects.specs.declared.role.Role.TheVariants.{Users};
ghost use Rattle.review_subjects.specs.Unknown.{list_subjects, role_of};
ghost use Rattle.review_subjects.specs.Subjects as spec;

use crate::reach::{alias_reaches, rule_reaches};
use crate::role::Role;
use crate::unknown::push_list;
use crate::{Subject, SubjectFault, SubjectKind};
use std::alloc::{AllocError, Global};
use sudo_match::Directory;
use sudo_policy::{
    Binding, Checked, CommandSpec, Definition, Entry, EntryBody, Kind, Member, Runas, Section,
};
use sudo_text::{Place, Seq};

// Appends the unknown atoms of a list, if there is one.
fn push_option(
    alloc: Global,
    directory: &Directory,
    place: Place,
    role: Role,
    members: &Option<Seq<Member>>,
    found: &mut Vec<Subject>,
) -> Result<(), AllocError>
    ensures { OnOk result (found.new.items
        ≡ found.old.items ++ spec.option_subjects directory.now place role members.now) }
{
    match members {
        Some(members) => push_list(alloc, directory, place, role, members.as_slice(), found),
        None => Ok(()),
    }
}

// Appends the unknown atoms of a runas, if there is one.
fn push_runas(
    alloc: Global,
    directory: &Directory,
    place: Place,
    runas: &Option<Runas>,
    found: &mut Vec<Subject>,
) -> Result<(), AllocError>
    ensures { OnOk result (found.new.items
        ≡ found.old.items ++ spec.runas_subjects directory.now place runas.now) }
{
    match runas {
        Some(runas) => {
            push_option(alloc, directory, place, Role::Users, &runas.users, found)?;
            push_option(alloc, directory, place, Role::Groups, &runas.groups, found)
        }
        None => Ok(()),
    }
}

// Appends the unknown atoms of the runas of commands.
fn push_commands(
    alloc: Global,
    directory: &Directory,
    place: Place,
    commands: &[CommandSpec],
    found: &mut Vec<Subject>,
) -> Result<(), AllocError>
    ensures { OnOk result (found.new.items
        ≡ found.old.items ++ spec.command_subjects directory.now place commands.now) }
{
    for command in commands {
        push_runas(alloc, directory, place, &command.runas, found)?;
    }
    Ok(())
}

// Appends the unknown atoms of a section.
fn push_section(
    alloc: Global,
    directory: &Directory,
    place: Place,
    section: &Section,
    found: &mut Vec<Subject>,
) -> Result<(), AllocError>
    ensures { OnOk result (found.new.items
        ≡ found.old.items ++ spec.section_subjects directory.now place section.now) }
{
    push_list(
        alloc,
        directory,
        place,
        Role::Hosts,
        section.hosts.as_slice(),
        found,
    )?;
    push_commands(alloc, directory, place, section.commands.as_slice(), found)
}

// Appends the unknown atoms of sections.
fn push_sections(
    alloc: Global,
    directory: &Directory,
    place: Place,
    sections: &[Section],
    found: &mut Vec<Subject>,
) -> Result<(), AllocError>
    ensures { OnOk result (found.new.items ≡ found.old.items
        ++ flat_map (spec.section_subjects directory.now place) sections.now) }
{
    for section in sections {
        push_section(alloc, directory, place, section, found)?;
    }
    Ok(())
}

// Appends the unknown atoms of the list to which a `Defaults` line is bound.
fn push_binding(
    alloc: Global,
    directory: &Directory,
    place: Place,
    binding: &Binding,
    found: &mut Vec<Subject>,
) -> Result<(), AllocError>
    ensures { OnOk result (found.new.items
        ≡ found.old.items ++ spec.binding_subjects directory.now place binding.now) }
{
    match binding {
        Binding::Hosts(members) => {
            push_list(
                alloc,
                directory,
                place,
                Role::Hosts,
                members.as_slice(),
                found,
            )
        }
        Binding::Users(members) => {
            push_list(
                alloc,
                directory,
                place,
                Role::Users,
                members.as_slice(),
                found,
            )
        }
        Binding::Commands(_) => Ok(()),
        Binding::Runas(members) => {
            push_list(
                alloc,
                directory,
                place,
                Role::Users,
                members.as_slice(),
                found,
            )
        }
    }
}

// Appends the unknown atoms of definitions of aliases.
fn push_defined(
    alloc: Global,
    directory: &Directory,
    place: Place,
    role: Role,
    definitions: &[Definition],
    found: &mut Vec<Subject>,
) -> Result<(), AllocError>
    ensures { OnOk result (found.new.items
        ≡ found.old.items ++ spec.defined_subjects directory.now place role definitions.now) }
{
    for definition in definitions {
        push_list(
            alloc,
            directory,
            place,
            role,
            definition.members.as_slice(),
            found,
        )?;
    }
    Ok(())
}

// Appends the definition of an alias, if it reaches nobody.
fn push_idle(
    alloc: Global,
    place: Place,
    reaches: bool,
    definition: &Definition,
    found: &mut Vec<Subject>,
) -> Result<(), AllocError>
    ensures { OnOk result (found.new.items ≡ found.old.items
        ++ spec.idle_unless reaches (spec.idle_alias place definition.now)) }
{
    if reaches {
        return Ok(());
    }
    found.push(Subject {
        place,
        kind: SubjectKind::Alias,
        name: Seq::from_slice(alloc, definition.name.as_slice())?,
        fault: SubjectFault::ReachesNobody,
    })?;
    Ok(())
}

/// What decides whether somebody is reached.
#[derive(Clone, Copy)]
pub(crate) struct Finder<'a> {
    pub(crate) checked: &'a Checked,
    pub(crate) directory: &'a Directory,
}

// Appends the definitions of aliases of a kind that reach nobody.
fn push_idle_aliases(
    alloc: Global,
    finder: &Finder<'_>,
    place: Place,
    kind: Kind,
    definitions: &[Definition],
    found: &mut Vec<Subject>,
) -> Result<(), AllocError>
    requires { All (λ x. IsTrue (spec.definition_resolves finder.now.checked.now kind x))
        definitions.now }
    ensures { OnOk result (found.new.items ≡ found.old.items
        ++ spec.aliases_subjects finder.now.checked.now finder.now.directory.now place kind
        definitions.now) }
{
    for definition in definitions {
        let members = definition.members.as_slice();
        let reaches = alias_reaches(alloc, finder.checked, finder.directory, kind, members)?;
        push_idle(alloc, place, reaches, definition, found)?;
    }
    Ok(())
}

// Appends a rule, if it reaches nobody.
fn push_idle_rule(
    alloc: Global,
    finder: &Finder<'_>,
    place: Place,
    users: &[Member],
    sections: &[Section],
    found: &mut Vec<Subject>,
) -> Result<(), AllocError>
    requires { IsTrue (rule_resolves finder.now.checked.now users.now sections.now) }
    ensures { OnOk result (found.new.items ≡ found.old.items
        ++ spec.rule_subjects finder.now.checked.now finder.now.directory.now place
        users.now sections.now) }
{
    if rule_reaches(alloc, finder.checked, finder.directory, users, sections)? {
        return Ok(());
    }
    found.push(Subject {
        place,
        kind: SubjectKind::Rule,
        name: Seq::new(alloc),
        fault: SubjectFault::ReachesNobody,
    })?;
    Ok(())
}

// Appends the subjects of a rule.
fn push_rule(
    alloc: Global,
    finder: &Finder<'_>,
    place: Place,
    users: &[Member],
    sections: &[Section],
    found: &mut Vec<Subject>,
) -> Result<(), AllocError>
    requires { IsTrue (rule_resolves finder.now.checked.now users.now sections.now) }
    ensures { OnOk result (found.new.items ≡ found.old.items
        ++ (list_subjects finder.now.directory.now place Users users.now
        ++ (flat_map (spec.section_subjects finder.now.directory.now place) sections.now
        ++ spec.rule_subjects finder.now.checked.now finder.now.directory.now place
        users.now sections.now))) }
{
    push_list(alloc, finder.directory, place, Role::Users, users, found)?;
    push_sections(alloc, finder.directory, place, sections, found)?;
    push_idle_rule(alloc, finder, place, users, sections, found)
}

// Appends the subjects of an alias line.
fn push_aliases(
    alloc: Global,
    finder: &Finder<'_>,
    place: Place,
    kind: Kind,
    definitions: &[Definition],
    found: &mut Vec<Subject>,
) -> Result<(), AllocError>
    requires { All (λ x. IsTrue (spec.definition_resolves finder.now.checked.now kind x))
        definitions.now }
    ensures { OnOk result (found.new.items ≡ found.old.items
        ++ (spec.defined_subjects finder.now.directory.now place (role_of kind) definitions.now
        ++ spec.aliases_subjects finder.now.checked.now finder.now.directory.now place kind
        definitions.now)) }
{
    push_defined(
        alloc,
        finder.directory,
        place,
        Role::of_kind(kind),
        definitions,
        found,
    )?;
    push_idle_aliases(alloc, finder, place, kind, definitions, found)
}

/// Appends the subjects of an entry. Returns `AllocError` if allocation fails.
pub(crate) fn push_entry(
    alloc: Global,
    finder: &Finder<'_>,
    entry: &Entry,
    found: &mut Vec<Subject>,
) -> Result<(), AllocError>
    requires { IsTrue (spec.entry_resolves finder.now.checked.now entry.now) }
    ensures { OnOk result (found.new.items ≡ found.old.items
        ++ spec.entry_subjects finder.now.checked.now finder.now.directory.now entry.now) }
{
    match &entry.body {
        EntryBody::Aliases { kind, definitions } => {
            push_aliases(
                alloc,
                finder,
                entry.place,
                *kind,
                definitions.as_slice(),
                found,
            )
        }
        EntryBody::Defaults { binding, .. } => match binding {
            Some(binding) => push_binding(alloc, finder.directory, entry.place, binding, found),
            None => Ok(()),
        },
        EntryBody::Rule { users, sections } => push_rule(
            alloc,
            finder,
            entry.place,
            users.as_slice(),
            sections.as_slice(),
            found,
        ),
        EntryBody::Include { .. } => Ok(()),
    }
}
