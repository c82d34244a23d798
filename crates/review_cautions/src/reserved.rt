//! Aliases with names that sudo reserves.
ghost use Rattle.std.specs.Prelude.{◌≡◌};
ghost use Rattle.std.specs.List.{list_any};
ghost use Rattle.review_cautions.specs.ReservedNames as spec;

use crate::bytes::is_text;
use sudo_policy::{Atom, Definition, EntryBody, Member, Runas, Section};
use sudo_text::Seq;

// Whether a name is that of an option.
fn is_option(name: &[u8]) -> bool
    ensures { result ≡ spec.is_option name.now }
{
    is_text(name, b"TIMEOUT")
        || is_text(name, b"NOTBEFORE")
        || is_text(name, b"NOTAFTER")
        || is_text(name, b"CWD")
        || is_text(name, b"CHROOT")
        || is_text(name, b"ROLE")
        || is_text(name, b"TYPE")
        || is_text(name, b"APPARMOR_PROFILE")
        || is_text(name, b"PRIVS")
        || is_text(name, b"LIMITPRIVS")
}

// Whether one of the definitions has such a name.
fn define_option(definitions: &[Definition]) -> bool
    ensures { result ≡ list_any (λ d. spec.is_option d.name) definitions.now }
{
    definitions
        .iter()
        .any(|definition| is_option(definition.name.as_slice()))
}

/// Whether a name is that of a tag.
pub(crate) fn is_tag(name: &[u8]) -> bool
    ensures { result ≡ spec.is_tag name.now }
{
    is_text(name, b"EXEC")
        || is_text(name, b"NOEXEC")
        || is_text(name, b"FOLLOW")
        || is_text(name, b"NOFOLLOW")
        || is_text(name, b"INTERCEPT")
        || is_text(name, b"NOINTERCEPT")
        || is_text(name, b"LOG_INPUT")
        || is_text(name, b"NOLOG_INPUT")
        || is_text(name, b"LOG_OUTPUT")
        || is_text(name, b"NOLOG_OUTPUT")
        || is_text(name, b"MAIL")
        || is_text(name, b"NOMAIL")
        || is_text(name, b"PASSWD")
        || is_text(name, b"NOPASSWD")
        || is_text(name, b"SETENV")
        || is_text(name, b"NOSETENV")
}

// Whether an atom is an alias with the name of a tag.
fn is_tag_alias(atom: &Atom) -> bool
    ensures { result ≡ spec.is_tag_alias atom.now }
{
    match atom {
        Atom::Alias(name) => is_tag(name.as_slice()),
        _ => false,
    }
}

// Whether the last of some members is one.
fn end_in_tag(members: &[Member]) -> bool
    ensures { result ≡ spec.end_in_tag members.now }
{
    let front = members.len().saturating_sub(1);
    let last = &members[front..];
    last.iter().any(|member| is_tag_alias(&member.atom))
}

// Whether one of some definitions but the last ends in one.
fn definitions_have_tag(definitions: &[Definition]) -> bool
    ensures { result ≡ spec.definitions_have_tag definitions.now }
{
    let count = definitions.len().saturating_sub(1);
    let front = &definitions[..count];
    front
        .iter()
        .any(|definition| end_in_tag(definition.members.as_slice()))
}

// Whether a list of users, if there is one, ends in one.
fn users_end_in_tag(users: &Option<Seq<Member>>) -> bool
    ensures { result ≡ spec.users_end_in_tag users.now }
{
    match users {
        Some(users) => end_in_tag(users.as_slice()),
        None => false,
    }
}

// Whether the users of a runas, if there is one, end in one before the colon of its groups.
fn runas_has_tag(runas: &Option<Runas>) -> bool
    ensures { result ≡ spec.runas_has_tag runas.now }
{
    match runas {
        Some(runas) => runas.groups.is_some() && users_end_in_tag(&runas.users),
        None => false,
    }
}

// Whether a command of a section has such a runas.
fn section_has_tag(section: &Section) -> bool
    ensures { result ≡ spec.section_has_tag section.now }
{
    let commands = section.commands.as_slice();
    commands.iter().any(|command| runas_has_tag(&command.runas))
}

// Whether the last command of a section is such an alias.
fn section_ends_in_tag(section: &Section) -> bool
    ensures { result ≡ spec.section_ends_in_tag section.now }
{
    let commands = section.commands.as_slice();
    let front = commands.len().saturating_sub(1);
    let last = &commands[front..];
    last.iter()
        .any(|command| is_tag_alias(&command.command.atom))
}

// Whether one of some sections has such a runas.
fn any_has_tag(sections: &[Section]) -> bool
    ensures { result ≡ list_any spec.section_has_tag sections.now }
{
    sections.iter().any(|section| section_has_tag(section))
}

// Whether one of some sections ends in such an alias.
fn any_ends_in_tag(sections: &[Section]) -> bool
    ensures { result ≡ list_any spec.section_ends_in_tag sections.now }
{
    sections.iter().any(|section| section_ends_in_tag(section))
}

// Whether one of some sections has such a runas, or one but the last ends in such an alias.
fn sections_have_tag(sections: &[Section]) -> bool
    ensures { result ≡ spec.sections_have_tag sections.now }
{
    let count = sections.len().saturating_sub(1);
    any_has_tag(sections) || any_ends_in_tag(&sections[..count])
}

/// Whether the content of an entry defines an alias with the name of an option, or has one with the name of a tag directly
/// before a colon.
pub(crate) fn body_is_reserved(body: &EntryBody) -> bool
    ensures { result ≡ spec.body_is_reserved body.now }
{
    match body {
        EntryBody::Aliases { definitions, .. } => {
            let definitions = definitions.as_slice();
            define_option(definitions) || definitions_have_tag(definitions)
        }
        EntryBody::Rule { sections, .. } => sections_have_tag(sections.as_slice()),
        _ => false,
    }
}
