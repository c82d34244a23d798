//! Cautions on rules and definitions of aliases.
ghost use Rattle.std.specs.Prelude.{◌≡◌, ◌++◌, ◌∷◌, [], OnOk, None, false, fold, if◌then◌else◌};
ghost use Rattle.std.specs.List.{list_any};
ghost use Rattle.review_cautions.specs.EntryTests as spec;
ghost use Rattle.review_cautions.specs.Cautions.{caution_at, entry_cautions};

use crate::reserved::body_is_reserved;
use crate::{Caution, CautionClass};
use std::alloc::{AllocError, Global};
use sudo_policy::{
    Atom, CommandSpec, Definition, Entry, EntryBody, Kind, Member, Runas, Section, Tag, TagPair,
};
use sudo_text::Seq;

// Whether a runas, if there is one, has a list of groups alone.
fn names_groups_alone(runas: &Option<Runas>) -> bool
    ensures { result ≡ spec.names_groups_alone runas.now }
{
    match runas {
        Some(runas) => runas.users.is_none() && runas.groups.is_some(),
        None => false,
    }
}

// Whether an atom is `%group` or `%#gid`.
fn is_group_of_users(atom: &Atom) -> bool
    ensures { result ≡ spec.is_group_of_users atom.now }
{
    matches!(atom, Atom::Group(_) | Atom::Gid(_))
}

// Whether such a member stands in a list of groups, if there is one.
fn has_group_of_users(groups: &Option<Seq<Member>>) -> bool
    ensures { result ≡ spec.has_group_of_users groups.now }
{
    match groups {
        Some(groups) => are_groups_of_users(groups.as_slice()),
        None => false,
    }
}

// Whether one of some members is such.
fn are_groups_of_users(members: &[Member]) -> bool
    ensures { result ≡ list_any (λ m. spec.is_group_of_users m.atom) members.now }
{
    members.iter().any(|member| is_group_of_users(&member.atom))
}

// Whether a runas, if there is one, has such a member among its groups.
fn names_users_as_groups(runas: &Option<Runas>) -> bool
    ensures { result ≡ spec.names_users_as_groups runas.now }
{
    match runas {
        Some(runas) => has_group_of_users(&runas.groups),
        None => false,
    }
}

// Whether a command of a section has a runas of one of the two kinds.
fn has_group_form(section: &Section) -> bool
    ensures { result ≡ spec.has_group_form section.now }
{
    let commands = section.commands.as_slice();
    commands.iter().any(|command| {
        names_groups_alone(&command.runas) || names_users_as_groups(&command.runas)
    })
}

// Whether one of the sections is such.
fn sections_have_group_form(sections: &[Section]) -> bool
    ensures { result ≡ list_any spec.has_group_form sections.now }
{
    sections.iter().any(|section| has_group_form(section))
}

// Whether the content of an entry is a rule with such a section.
fn body_has_group_form(body: &EntryBody) -> bool
    ensures { result ≡ spec.body_has_group_form body.now }
{
    match body {
        EntryBody::Rule { sections, .. } => sections_have_group_form(sections.as_slice()),
        _ => false,
    }
}

// Whether an atom is `ALL`.
fn is_all(atom: &Atom) -> bool
    ensures { result ≡ spec.is_all atom.now }
{
    matches!(atom, Atom::All)
}

// Whether a tag is SETENV or NOSETENV.
fn is_environment(tag: Tag) -> bool
    ensures { result ≡ spec.is_environment tag.pair }
{
    matches!(tag.pair, TagPair::SetEnv)
}

// Whether the own tags of a command have one of the two.
fn tags_environment(command: &CommandSpec) -> bool
    ensures { result ≡ spec.tags_environment command.now }
{
    let tags = command.tags.as_slice();
    tags.iter().any(|tag| is_environment(*tag))
}

// Returns which of the two holds behind a tag, if any does, where one of them may hold before.
fn environment_behind(held: Option<bool>, tag: Tag) -> Option<bool>
    ensures { result ≡ spec.environment_behind held tag }
{
    if is_environment(tag) {
        Some(tag.on)
    } else {
        held
    }
}

// Returns the same behind tags.
fn held_behind(held: Option<bool>, tags: &[Tag]) -> Option<bool>
    ensures { result ≡ fold spec.environment_behind held tags.now }
{
    match tags {
        [] => held,
        [tag, tags @ ..] => held_behind(environment_behind(held, *tag), tags),
    }
}

// Whether a command is denied.
fn is_denied(command: &CommandSpec) -> bool
    ensures { result ≡ spec.is_denied command.now }
{
    command.command.bangs % 2 == 1
}

// Whether a command is `ALL`, granted and without such a tag of its own: for sudo a tag before it ends there.
fn drops_environment(command: &CommandSpec) -> bool
    ensures { result ≡ spec.drops_environment command.now }
{
    is_all(&command.command.atom) && !is_denied(command) && !tags_environment(command)
}

// Whether such a tag has ended for sudo, and does not end here, for the commands behind this one.
fn dropped_behind(dropped: bool, command: &CommandSpec) -> bool
    ensures { result ≡ spec.dropped_behind dropped command.now }
{
    !tags_environment(command) && (dropped || drops_environment(command))
}

// Whether a command has another such tag for sudo.
fn gives_otherwise(held: Option<bool>, dropped: bool, command: &CommandSpec) -> bool
    ensures { result ≡ spec.gives_otherwise held dropped command.now }
{
    if is_denied(command) || tags_environment(command) {
        return false;
    }
    if is_all(&command.command.atom) {
        held == Some(false)
    } else {
        dropped && held.is_some()
    }
}

// Whether one of the commands of a section is such.
fn section_has_environment(section: &Section) -> bool
    ensures { result ≡ spec.section_has_environment section.now }
{
    has_environment(section.commands.as_slice())
}

// Whether one of the commands is such.
fn has_environment(commands: &[CommandSpec]) -> bool
    ensures { result ≡ spec.has_environment None false commands.now }
{
    let mut held = None;
    let mut dropped = false;
    for command in commands {
        if gives_otherwise(held, dropped, command) {
            return true;
        }
        held = held_behind(held, command.tags.as_slice());
        dropped = dropped_behind(dropped, command);
    }
    false
}

// Whether one of the sections is such.
fn sections_have_environment(sections: &[Section]) -> bool
    ensures { result ≡ list_any spec.section_has_environment sections.now }
{
    sections
        .iter()
        .any(|section| section_has_environment(section))
}

// Whether a definition has the member `ALL`.
fn defines_all(definition: &Definition) -> bool
    ensures { result ≡ spec.defines_all definition.now }
{
    let members: &[Member] = definition.members.as_slice();
    members.iter().any(|member| is_all(&member.atom))
}

// Whether one of the definitions has the member `ALL`.
fn define_all(definitions: &[Definition]) -> bool
    ensures { result ≡ list_any spec.defines_all definitions.now }
{
    definitions.iter().any(|definition| defines_all(definition))
}

// Whether an atom is an alias.
fn is_alias(atom: &Atom) -> bool
    ensures { result ≡ spec.is_alias atom.now }
{
    matches!(atom, Atom::Alias(_))
}

// Whether a command of a section is an alias.
fn section_has_alias(section: &Section) -> bool
    ensures { result ≡ spec.section_has_alias section.now }
{
    let commands = section.commands.as_slice();
    commands
        .iter()
        .any(|command| is_alias(&command.command.atom))
}

// Whether one of the sections is such.
fn sections_have_alias(sections: &[Section]) -> bool
    ensures { result ≡ list_any spec.section_has_alias sections.now }
{
    sections.iter().any(|section| section_has_alias(section))
}

// Whether the content of an entry is a rule with such a section.
fn body_has_alias(body: &EntryBody) -> bool
    ensures { result ≡ spec.body_has_alias body.now }
{
    match body {
        EntryBody::Rule { sections, .. } => sections_have_alias(sections.as_slice()),
        _ => false,
    }
}

// Whether a rule of the policy has an alias among its commands.
fn rules_have_alias(entries: &[Entry]) -> bool
    ensures { result ≡ spec.rules_have_alias entries.now }
{
    entries.iter().any(|entry| body_has_alias(&entry.body))
}

// Whether the content of an entry gives SETENV otherwise than sudo does, where `used` says the same.
fn body_has_environment(used: bool, body: &EntryBody) -> bool
    ensures { result ≡ spec.body_has_environment used body.now }
{
    match body {
        EntryBody::Rule { sections, .. } => sections_have_environment(sections.as_slice()),
        EntryBody::Aliases { kind, definitions } => {
            used && matches!(*kind, Kind::Cmnd) && define_all(definitions.as_slice())
        }
        _ => false,
    }
}

// Whether the content of an entry has the construct of a class, where `used` says that a rule has an alias among its commands.
fn body_holds(class: CautionClass, used: bool, body: &EntryBody) -> bool
    ensures { result ≡ spec.body_holds class used body.now }
{
    match class {
        CautionClass::Setenv => body_has_environment(used, body),
        CautionClass::GroupForm => body_has_group_form(body),
        CautionClass::Reserved => body_is_reserved(body),
        _ => false,
    }
}

// Appends the caution on an entry, if it has the construct of the class.
fn push_entry(
    alloc: Global,
    class: CautionClass,
    used: bool,
    entry: &Entry,
    found: &mut Vec<Caution>,
) -> Result<(), AllocError>
    ensures { OnOk result (found.new.items ≡ found.old.items
        ++ (if spec.body_holds class used entry.now.body
        then caution_at class entry.now.place ∷ [] else [])) }
{
    if body_holds(class, used, &entry.body) {
        found.push(Caution::on_line(alloc, class, entry.place))?;
    }
    Ok(())
}

/// Appends the cautions of a class on entries, one for each.
pub(crate) fn push_entries(
    alloc: Global,
    class: CautionClass,
    entries: &[Entry],
    found: &mut Vec<Caution>,
) -> Result<(), AllocError>
    ensures { OnOk result (found.new.items ≡ found.old.items
        ++ entry_cautions class entries.now) }
{
    let used = rules_have_alias(entries);
    for entry in entries {
        push_entry(alloc, class, used, entry, found)?;
    }
    Ok(())
}
