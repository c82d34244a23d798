//! The keys of the members of a policy's lists.

ghost use Rattle.std.specs.Prelude.{◌≡◌, ◌≤◌, List, true, false, Some, IfOk, IfSome, length, option_copied};
ghost use Rattle.std.specs.Prelude.{option_and_then, option_map, slice_get, take};
ghost use Rattle.std.specs.List.{list_any};
ghost use Rattle.sudo_grammar.specs.declared.kind.Atom.{Atom as TheAtom};
ghost use Rattle.sudo_grammar.specs.declared.kind.Kind.{Kind as TheKind};
ghost use Rattle.sudo_grammar.specs.declared.kind.Member.{Member as TheMember};
ghost use Rattle.sudo_grammar.specs.declared.policy.Entry.{Entry as TheEntry};
ghost use Rattle.sudo_grammar.specs.declared.policy.EntryBody.TheVariants as body;
ghost use Rattle.sudo_grammar.specs.declared.policy.Policy.{Policy};
ghost use Rattle.sudo_grammar.specs.declared.policy.Section.{Section as TheSection};
ghost use Rattle.sudo_match.specs.Beginnings.{is_special};
ghost use Rattle.sudo_policy.specs.Definitions.{in_force};
ghost use Rattle.sudo_policy.specs.Positions.{members_at};
ghost use Rattle.sudo_verdict.specs.Keys.{Pairwise, IsKeyOf, HaveKeys, HaveCommandKeys, HaveSectionKeys};
ghost use Rattle.sudo_verdict.specs.Keys.{HaveRuleKeys, HaveDefinitionKeys, HaveBodyKeys, AreKeys};
ghost use Rattle.sudo_verdict.specs.declared.index.key.SectionKeys.{SectionKeys as TheKeys};
ghost use Rattle.sudo_verdict.specs.Body.Known.{AreKnown, keys_at as spec_keys_at};

use crate::index::key::{EntryKeys, Key, SectionKeys};
use crate::index::numbers::{group_mark, path_number, user_number};
use std::alloc::{AllocError, Global};
use sudo_base::Seq;
use sudo_match::is_special;
use sudo_policy::{
    Atom, Checked, CommandSpec, Definition, EntryBody, Kind, Member, Position, Section,
};
use sudo_text::Ch;

// Returns the number of characters before the first special one or the first dot.
fn literal_count(chars: &[Ch]) -> usize
    ensures within { result ≤ length chars.now }
    ensures literal { list_any is_special (take result chars.now) ≡ false }
{
    for index in 0..chars.len() {
        let ch = chars[index];
        if is_special(ch) || ch.byte == b'.' {
            return index;
        }
    }
    chars.len()
}

// Returns the key of a host's name: the last character before any special one and any dot.
fn host_key(chars: &[Ch]) -> Key
    ensures { (p : Policy) (kind : TheKind) (quoted : _)
        → IsKeyOf p kind result (TheAtom.Host chars.now quoted) }
{
    let count = literal_count(chars);
    if count == 0 {
        return Key::Other;
    }
    let index = count - 1;
    Key::Host {
        index,
        byte: chars[index].byte.to_ascii_lowercase(),
    }
}

// Returns the key of an alias.
fn alias_key(checked: &Checked, kind: Kind, name: &[u8]) -> Key
    ensures { IsKeyOf checked.now kind result (TheAtom.Alias name.now) }
{
    match checked.position(kind, name) {
        Some(position) => Key::Alias(position),
        None => Key::Other,
    }
}

// Returns the key of an atom of a list of a kind.
fn atom_key(checked: &Checked, kind: Kind, atom: &Atom) -> Key
    ensures { IsKeyOf checked.now kind result atom.now }
{
    match atom {
        Atom::Alias(name) => alias_key(checked, kind, name.as_slice()),
        Atom::Name(name) => Key::Name(user_number(name.as_slice())),
        Atom::Uid(uid) => Key::Uid(*uid),
        Atom::Group(name) => Key::Group(group_mark(name.as_slice())),
        Atom::Command { path, .. } => Key::Command(path_number(path.as_slice())),
        Atom::Host { chars, .. } => host_key(chars.as_slice()),
        _ => Key::Other,
    }
}

// Returns the keys of the members of a list of a kind. Returns `AllocError` if allocation fails.
fn member_keys(
    alloc: Global,
    checked: &Checked,
    kind: Kind,
    members: &[Member],
) -> Result<Seq<Key>, AllocError>
    ensures { IfOk result (λ keys. HaveKeys checked.now kind keys members.now) }
{
    let mut keys = Vec::with_capacity(alloc, members.len())?;
    for member in members {
        keys.push(atom_key(checked, kind, &member.atom))?;
    }
    Ok(Seq::from_vec(keys))
}

// Returns the keys of the members of definitions of a kind. Returns `AllocError` if allocation fails.
fn definition_keys(
    alloc: Global,
    checked: &Checked,
    kind: Kind,
    definitions: &[Definition],
) -> Result<Seq<Seq<Key>>, AllocError>
    ensures { IfOk result (λ keys. HaveDefinitionKeys checked.now kind keys definitions.now) }
{
    let mut keys = Vec::with_capacity(alloc, definitions.len())?;
    for definition in definitions {
        keys.push(member_keys(alloc, checked, kind, definition.members.as_slice())?)?;
    }
    Ok(Seq::from_vec(keys))
}

// Returns the keys of the commands of a section. Returns `AllocError` if allocation fails.
fn command_keys(
    alloc: Global,
    checked: &Checked,
    commands: &[CommandSpec],
) -> Result<Seq<Key>, AllocError>
    ensures { IfOk result (λ keys. HaveCommandKeys checked.now keys commands.now) }
{
    let mut keys = Vec::with_capacity(alloc, commands.len())?;
    for spec in commands {
        keys.push(atom_key(checked, Kind::Cmnd, &spec.command.atom))?;
    }
    Ok(Seq::from_vec(keys))
}

// Returns the keys of a section. Returns `AllocError` if allocation fails.
fn section_keys(
    alloc: Global,
    checked: &Checked,
    section: &Section,
) -> Result<SectionKeys, AllocError>
    ensures { IfOk result (λ keys. HaveSectionKeys checked.now keys section.now) }
{
    Ok(SectionKeys {
        hosts: member_keys(alloc, checked, Kind::Host, section.hosts.as_slice())?,
        commands: command_keys(alloc, checked, section.commands.as_slice())?,
    })
}

// Returns the keys of sections. Returns `AllocError` if allocation fails.
fn sections_keys(
    alloc: Global,
    checked: &Checked,
    sections: &[Section],
) -> Result<Seq<SectionKeys>, AllocError>
    ensures { IfOk result (λ keys. Pairwise (HaveSectionKeys checked.now) keys sections.now) }
{
    let mut keys = Vec::with_capacity(alloc, sections.len())?;
    for section in sections {
        keys.push(section_keys(alloc, checked, section)?)?;
    }
    Ok(Seq::from_vec(keys))
}

// Returns the keys of an entry. Returns `AllocError` if allocation fails.
fn body_keys(alloc: Global, checked: &Checked, body: &EntryBody) -> Result<EntryKeys, AllocError>
    ensures { IfOk result (λ keys. HaveBodyKeys checked.now keys body.now) }
{
    match body {
        EntryBody::Aliases { kind, definitions } => Ok(EntryKeys {
            definitions: definition_keys(alloc, checked, *kind, definitions.as_slice())?,
            users: Seq::new(alloc),
            sections: Seq::new(alloc),
        }),
        EntryBody::Rule { users, sections } => Ok(EntryKeys {
            definitions: Seq::new(alloc),
            users: member_keys(alloc, checked, Kind::User, users.as_slice())?,
            sections: sections_keys(alloc, checked, sections.as_slice())?,
        }),
        _ => Ok(EntryKeys {
            definitions: Seq::new(alloc),
            users: Seq::new(alloc),
            sections: Seq::new(alloc),
        }),
    }
}

/// The key of each member of each list of a policy but those of runas.
#[derive(Drop)]
pub(crate) struct Keys {
    pub(crate) rows: Seq<EntryKeys>,
}

impl Keys {
    /// Returns the keys of a policy. Returns `AllocError` if allocation fails.
    pub(crate) fn of(alloc: Global, checked: &Checked) -> Result<Keys, AllocError>
        ensures { IfOk result (λ keys. AreKeys checked.now keys.rows) }
    {
        let entries = checked.policy().entries.as_slice();
        let mut rows = Vec::with_capacity(alloc, entries.len())?;
        for entry in entries {
            rows.push(body_keys(alloc, checked, &entry.body)?)?;
        }
        Ok(Keys {
            rows: Seq::from_vec(rows),
        })
    }
}

// Whether two kinds are the same.
fn is_same_kind(one: Kind, other: Kind) -> bool
    ensures { result ≡ true → one ≡ other }
{
    one == other
}

// Returns the keys of the definition at a position; none if there is none.
fn keys_at(rows: &Seq<EntryKeys>, position: Position) -> &[Key]
    ensures { result.now ≡ spec_keys_at rows.now position }
{
    let Some(row) = rows.get(position.entry) else {
        return &[];
    };
    match row.definitions.get(position.definition) {
        Some(keys) => keys.as_slice(),
        None => &[],
    }
}

/// A list of members with their keys, or with none where they are not known.
#[derive(Clone, Copy)]
pub(crate) struct Listed<'a> {
    pub(crate) members: &'a [Member],
    pub(crate) keys: &'a [Key],
}

/// The keys of a rule's lists, or none where they are not known.
#[derive(Clone, Copy)]
pub(crate) struct RuleKeys<'a> {
    pub(crate) users: &'a [Key],
    pub(crate) sections: &'a [SectionKeys],
}

/// The keys of the lists of a section, or none where they are not known.
#[derive(Clone, Copy)]
pub(crate) struct SectionLists<'a> {
    pub(crate) hosts: &'a [Key],
    pub(crate) commands: &'a [Key],
}

/// Returns the keys of the section at an index.
pub(crate) fn section_at<'a>(keys: &'a [SectionKeys], index: usize) -> SectionLists<'a>
    ensures { (p : Policy) (s : TheSection)
        → ((k : TheKeys) → slice_get keys.now index ≡ Some k → HaveSectionKeys p k s)
        → HaveKeys p TheKind.Host result.hosts.now s.hosts
        × HaveCommandKeys p result.commands.now s.commands }
{
    match keys.get(index) {
        Some(section) => SectionLists {
            hosts: section.hosts.as_slice(),
            commands: section.commands.as_slice(),
        },
        None => SectionLists {
            hosts: &[],
            commands: &[],
        },
    }
}

/// A checked policy, with the keys of its lists if they are known.
#[derive(Clone, Copy)]
pub(crate) struct Lists<'a> {
    pub(crate) checked: &'a Checked,
    pub(crate) keys: Option<&'a Keys>,
    ghost known: { AreKnown checked.now (option_copied keys) },
}

impl Lists<'_> {
    /// Returns the keys of the rule at an index; none if they are not known.
    pub(crate) fn rule_keys(&self, index: usize) -> RuleKeys<'_>
        ensures { (e : TheEntry) (users : List TheMember) (sections : List TheSection)
            → slice_get self.now.checked.now.entries index ≡ Some e
            → e.body ≡ body.Rule users sections
            → HaveRuleKeys self.now.checked.now result.users.now result.sections.now users
            sections }
    {
        let Some(keys) = self.keys else {
            return RuleKeys {
                users: &[],
                sections: &[],
            };
        };
        match keys.rows.get(index) {
            Some(row) => RuleKeys {
                users: row.users.as_slice(),
                sections: row.sections.as_slice(),
            },
            None => RuleKeys {
                users: &[],
                sections: &[],
            },
        }
    }

    /// Returns the position of the definition of an alias with this key. If there is none, returns `None` or a position
    /// at which no list is found.
    pub(crate) fn position(&self, kind: Kind, name: &[u8], key: &Key) -> Option<Position>
        requires { IsKeyOf self.now.checked.now kind key.now (TheAtom.Alias name.now) }
        ensures { in_force kind self.now.checked.now name.now
            ≡ option_and_then (members_at self.now.checked.now) result }
    {
        match key {
            Key::Alias(position) => Some(*position),
            _ => self.checked.position(kind, name),
        }
    }

    /// Returns the list of the definition at a position, or `None` if there is none. Its keys are known if it has this kind.
    pub(crate) fn definition_at(&self, kind: Kind, position: Position) -> Option<Listed<'_>>
        ensures members { option_map (λ l. l.members.now) result
            ≡ members_at self.now.checked.now position }
        ensures keys { IfSome result
            (λ l. HaveKeys self.now.checked.now kind l.keys.now l.members.now) }
    {
        let entry = self.checked.policy().entries.get(position.entry)?;
        match &entry.body {
            EntryBody::Aliases {
                kind: own,
                definitions,
            } => {
                let definition = definitions.get(position.definition)?;
                let keys = match self.keys {
                    Some(keys) if is_same_kind(*own, kind) => keys_at(&keys.rows, position),
                    _ => &[],
                };
                Some(Listed {
                    members: definition.members.as_slice(),
                    keys,
                })
            }
            _ => None,
        }
    }
}
