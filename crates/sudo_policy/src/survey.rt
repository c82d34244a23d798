//! The definitions and the lists of a policy, in the order of the file.
ghost use Rattle.std.specs.Prelude.{◌≡◌, ◌++◌, [], ◌∷◌, List, All, map, flat_map, filter, is_some, IfOk, OnOk, Some, slice_get};
ghost use Rattle.sudo_grammar.specs.declared.policy.Policy.{Policy};
ghost use Rattle.sudo_policy.specs.Definitions.{AliasDefinition, definitions, definitions_of, definitions_of_list};
ghost use Rattle.sudo_policy.specs.Definitions.{list_view, lists, lists_of_body, lists_of_list, binding_lists_of, section_lists};
ghost use Rattle.sudo_policy.specs.Definitions.{command_lists, runas_lists, option_lists, granting_list};
ghost use Rattle.sudo_policy.specs.Body.DefinitionRef.{alias_view, link_of, row_of, row_of_alias};
ghost use Rattle.sudo_policy.specs.Body.DefinitionRef.{granting_row, IsSurvey, IsAtItsPosition, StandAt};

use crate::index::{Index, Position};
use crate::member::alias_name;
use std::alloc::{AllocError, Global};
use sudo_grammar::{
    Binding, CommandSpec, Definition, Entry, EntryBody, Kind, Member, Policy, Runas, Section,
};
use sudo_text::{Place, Seq};

/// A definition of an alias, and its position.
#[derive(Clone, Copy)]
pub(crate) struct DefinitionRef<'a> {
    pub(crate) kind: Kind,
    pub(crate) place: Place,
    pub(crate) name: &'a [u8],
    pub(crate) members: &'a [Member],
    pub(crate) position: Position,
}

/// A list of members: the kind of its members, the place of its line, and whether it belongs to a rule or to a bound
/// `Defaults` line.
#[derive(Clone, Copy)]
pub struct MemberList<'a> {
    pub kind: Kind,
    pub place: Place,
    pub granting: bool,
    pub members: &'a [Member],
}

// Returns every definition of the policy, in order.
fn definitions(alloc: Global, policy: &Policy) -> Result<Vec<DefinitionRef<'_>>, AllocError>
    ensures all { IfOk result (λ all. map alias_view all.items ≡ definitions policy.now) }
    ensures placed { IfOk result (λ all. All (IsAtItsPosition policy.now) all.items) }
{
    let mut all = Vec::new(alloc);
    for (at, entry) in policy.entries.as_slice().iter().enumerate() {
        push_entry(entry, at, &mut all)?;
    }
    Ok(all)
}

// Appends the definitions of an entry.
fn push_entry<'a>(
    entry: &'a Entry,
    at: usize,
    all: &mut Vec<DefinitionRef<'a>>,
) -> Result<(), AllocError>
    ensures placed { OnOk result ((p : Policy) → slice_get p.entries at ≡ Some entry.now
        → All (IsAtItsPosition p) all.old.items → All (IsAtItsPosition p) all.new.items) }
    ensures all { OnOk result (map alias_view all.new.items
        ≡ map alias_view all.old.items ++ definitions_of entry.now) }
{
    match &entry.body {
        EntryBody::Aliases { kind, definitions } => {
            push_definitions(*kind, entry.place, at, definitions.as_slice(), all)?;
            Ok(())
        }
        EntryBody::Defaults { .. } => Ok(()),
        EntryBody::Rule { .. } => Ok(()),
        EntryBody::Include { .. } => Ok(()),
    }
}

// Appends the definitions of an alias line.
fn push_definitions<'a>(
    kind: Kind,
    place: Place,
    entry: usize,
    definitions: &'a [Definition],
    all: &mut Vec<DefinitionRef<'a>>,
) -> Result<(), AllocError>
    ensures placed { OnOk result ((p : Policy) → StandAt p entry definitions.now
        → All (IsAtItsPosition p) all.old.items → All (IsAtItsPosition p) all.new.items) }
    ensures all { OnOk result (map alias_view all.new.items
        ≡ map alias_view all.old.items ++ definitions_of_list kind place definitions.now) }
{
    for (at, definition) in definitions.iter().enumerate() {
        all.push(DefinitionRef {
            kind,
            place,
            name: definition.name.as_slice(),
            members: definition.members.as_slice(),
            position: Position {
                entry,
                definition: at,
            },
        })?;
    }
    Ok(())
}

/// Returns every list of the policy, in the order of its lines. Returns `AllocError` only if allocation failed.
pub fn lists(alloc: Global, policy: &Policy) -> Result<Vec<MemberList<'_>>, AllocError>
    ensures { IfOk result (λ all. map list_view all.items ≡ lists policy.now) }
{
    let mut all = Vec::new(alloc);
    for entry in policy.entries.as_slice() {
        push_lists(entry.place, &entry.body, &mut all)?;
    }
    Ok(all)
}

// Appends the lists of an entry.
fn push_lists<'a>(
    place: Place,
    body: &'a EntryBody,
    all: &mut Vec<MemberList<'a>>,
) -> Result<(), AllocError>
    ensures { OnOk result (map list_view all.new.items
        ≡ map list_view all.old.items ++ lists_of_body place body.now) }
{
    match body {
        EntryBody::Aliases { kind, definitions } => {
            push_defined(*kind, place, definitions.as_slice(), all)?;
            Ok(())
        }
        EntryBody::Defaults { binding, .. } => match binding {
            Some(binding) => push_binding(place, binding, all),
            None => Ok(()),
        },
        EntryBody::Rule { users, sections } => {
            push_granting(Kind::User, place, users.as_slice(), all)?;
            push_sections(place, sections.as_slice(), all)
        }
        EntryBody::Include { .. } => Ok(()),
    }
}

// Appends the lists of definitions.
fn push_defined<'a>(
    kind: Kind,
    place: Place,
    definitions: &'a [Definition],
    all: &mut Vec<MemberList<'a>>,
) -> Result<(), AllocError>
    ensures { OnOk result (map list_view all.new.items
        ≡ map list_view all.old.items ++ lists_of_list kind place definitions.now) }
{
    for definition in definitions {
        all.push(MemberList {
            kind,
            place,
            granting: false,
            members: definition.members.as_slice(),
        })?;
    }
    Ok(())
}

// Appends a list of a rule or of a bound `Defaults` line.
fn push_granting<'a>(
    kind: Kind,
    place: Place,
    members: &'a [Member],
    all: &mut Vec<MemberList<'a>>,
) -> Result<(), AllocError>
    ensures { OnOk result (map list_view all.new.items
        ≡ map list_view all.old.items ++ granting_list kind place members.now ∷ []) }
{
    all.push(MemberList {
        kind,
        place,
        granting: true,
        members,
    })?;
    Ok(())
}

// Appends the list to which a `Defaults` line is bound.
fn push_binding<'a>(
    place: Place,
    binding: &'a Binding,
    all: &mut Vec<MemberList<'a>>,
) -> Result<(), AllocError>
    ensures { OnOk result (map list_view all.new.items
        ≡ map list_view all.old.items ++ binding_lists_of place binding.now) }
{
    match binding {
        Binding::Hosts(members) => push_granting(Kind::Host, place, members.as_slice(), all),
        Binding::Users(members) => push_granting(Kind::User, place, members.as_slice(), all),
        Binding::Commands(members) => push_granting(Kind::Cmnd, place, members.as_slice(), all),
        Binding::Runas(members) => push_granting(Kind::Runas, place, members.as_slice(), all),
    }
}

// Appends the lists of a rule's sections.
fn push_sections<'a>(
    place: Place,
    sections: &'a [Section],
    all: &mut Vec<MemberList<'a>>,
) -> Result<(), AllocError>
    ensures { OnOk result (map list_view all.new.items
        ≡ map list_view all.old.items ++ flat_map (section_lists place) sections.now) }
{
    for section in sections {
        push_granting(Kind::Host, place, section.hosts.as_slice(), all)?;
        push_commands(place, section.commands.as_slice(), all)?;
    }
    Ok(())
}

// Appends the lists of the commands of a section.
fn push_commands<'a>(
    place: Place,
    commands: &'a [CommandSpec],
    all: &mut Vec<MemberList<'a>>,
) -> Result<(), AllocError>
    ensures { OnOk result (map list_view all.new.items
        ≡ map list_view all.old.items ++ flat_map (command_lists place) commands.now) }
{
    for command in commands {
        push_command(place, command, all)?;
    }
    Ok(())
}

// Appends the lists of a command of a section: those of its runas, and the command itself.
fn push_command<'a>(
    place: Place,
    command: &'a CommandSpec,
    all: &mut Vec<MemberList<'a>>,
) -> Result<(), AllocError>
    ensures { OnOk result (map list_view all.new.items
        ≡ map list_view all.old.items ++ command_lists place command.now) }
{
    push_runas(place, &command.runas, all)?;
    push_granting(
        Kind::Cmnd,
        place,
        std::slice::from_ref(&command.command),
        all,
    )
}

// Appends the lists of a runas, if any.
fn push_runas<'a>(
    place: Place,
    runas: &'a Option<Runas>,
    all: &mut Vec<MemberList<'a>>,
) -> Result<(), AllocError>
    ensures { OnOk result (map list_view all.new.items
        ≡ map list_view all.old.items ++ runas_lists place runas.now) }
{
    match runas {
        Some(runas) => {
            push_option(place, &runas.users, all)?;
            push_option(place, &runas.groups, all)
        }
        None => Ok(()),
    }
}

// Appends a list of a runas, if it is present.
fn push_option<'a>(
    place: Place,
    members: &'a Option<Seq<Member>>,
    all: &mut Vec<MemberList<'a>>,
) -> Result<(), AllocError>
    ensures { OnOk result (map list_view all.new.items
        ≡ map list_view all.old.items ++ option_lists Kind.Runas place members.now) }
{
    match members {
        Some(members) => push_granting(Kind::Runas, place, members.as_slice(), all),
        None => Ok(()),
    }
}

/// The definitions in force, in the order of the file and by their names, and the redefinitions: further definitions of
/// names.
#[derive(Drop)]
pub(crate) struct Survey<'a> {
    pub(crate) aliases: Vec<DefinitionRef<'a>>,
    pub(crate) redefinitions: Vec<DefinitionRef<'a>>,
    pub(crate) index: Index,
}

impl<'a> Survey<'a> {
    // Adds a definition: to those in force if its name is new, otherwise to the redefinitions.
    fn add(&mut self, alloc: Global, definition: DefinitionRef<'a>) -> Result<(), AllocError>
        ensures kept { OnOk result ((p : Policy) (done : List AliasDefinition)
            → IsAtItsPosition p definition.entry → IsSurvey p done self.old → IsSurvey p
            (done ++ alias_view definition.entry ∷ []) self.new) }
    {
        match self.index.number(definition.kind, definition.name) {
            Some(_) => self.redefinitions.push(definition)?,
            None => {
                self.index.insert(alloc, definition.kind, definition.name, definition.position)?;
                self.aliases.push(definition)?;
            }
        }
        Ok(())
    }
}

/// Divides the definitions of a policy into those in force and the redefinitions.
pub(crate) fn survey_policy(alloc: Global, policy: &Policy) -> Result<Survey<'_>, AllocError>
    ensures { IfOk result (λ survey. IsSurvey policy.now (definitions policy.now) survey) }
{
    let all = definitions(alloc, policy)?;
    Ok(take_survey(alloc, all.as_slice())?)
}

// Divides definitions into those in force and the redefinitions.
fn take_survey<'a>(
    alloc: Global,
    definitions: &[DefinitionRef<'a>],
) -> Result<Survey<'a>, AllocError>
    ensures { IfOk result (λ survey. (p : Policy) → All (IsAtItsPosition p) definitions.now
        → IsSurvey p (map alias_view definitions.now) survey) }
{
    let mut survey = Survey {
        aliases: Vec::new(alloc),
        redefinitions: Vec::new(alloc),
        index: Index::new(alloc),
    };
    for definition in definitions {
        survey.add(alloc, *definition)?;
    }
    Ok(survey)
}

/// Returns, for each alias, the numbers of the aliases that its members name.
pub(crate) fn links(
    alloc: Global,
    index: &Index,
    aliases: &[DefinitionRef<'_>],
) -> Result<Vec<Seq<Option<usize>>>, AllocError>
    ensures { IfOk result (λ rows. rows.items
        ≡ map (row_of_alias index.now) (map alias_view aliases.now)) }
{
    let mut rows = Vec::new(alloc);
    for alias in aliases {
        rows.push(row(alloc, index, alias.kind, alias.members)?)?;
    }
    Ok(rows)
}

/// Returns, for each member, the number of the alias that it names, if any.
pub(crate) fn row(
    alloc: Global,
    index: &Index,
    kind: Kind,
    members: &[Member],
) -> Result<Seq<Option<usize>>, AllocError>
    ensures { IfOk result (λ row. row ≡ row_of index.now kind members.now) }
{
    let mut row = Vec::with_capacity(alloc, members.len())?;
    push_row(index, kind, members, &mut row)?;
    Ok(Seq::from_vec(row))
}

// Appends, for each member, the number of the alias that it names, if any.
fn push_row(
    index: &Index,
    kind: Kind,
    members: &[Member],
    row: &mut Vec<Option<usize>>,
) -> Result<(), AllocError>
    ensures { OnOk result (row.new.items ≡ row.old.items ++ row_of index.now kind members.now) }
{
    for member in members {
        row.push(link(index, kind, member))?;
    }
    Ok(())
}

// Returns the number of the alias that a member names, if any.
fn link(index: &Index, kind: Kind, member: &Member) -> Option<usize>
    ensures { result ≡ link_of index.now kind member.now }
{
    match alias_name(&member.atom) {
        Some(name) => index.number(kind, name),
        None => None,
    }
}

/// Returns the numbers of the aliases that the lists of rules and of bound `Defaults` lines name.
pub(crate) fn roots(
    alloc: Global,
    index: &Index,
    lists: &[MemberList<'_>],
) -> Result<Vec<Option<usize>>, AllocError>
    ensures { IfOk result (λ roots. roots.items
        ≡ flat_map (granting_row index.now) (map list_view lists.now)) }
{
    let mut roots = Vec::new(alloc);
    for list in lists {
        push_roots(index, list, &mut roots)?;
    }
    Ok(roots)
}

// Appends the numbers of the aliases that a list names, if it belongs to a rule or to a bound `Defaults` line.
fn push_roots(
    index: &Index,
    list: &MemberList<'_>,
    roots: &mut Vec<Option<usize>>,
) -> Result<(), AllocError>
    ensures { OnOk result (roots.new.items ≡ roots.old.items
        ++ granting_row index.now (list_view list.now)) }
{
    if !list.granting {
        return Ok(());
    }
    for member in list.members {
        push_root(link(index, list.kind, member), roots)?;
    }
    Ok(())
}

// Appends the number of an alias, if there is one.
fn push_root(link: Option<usize>, roots: &mut Vec<Option<usize>>) -> Result<(), AllocError>
    ensures { OnOk result (roots.new.items ≡ roots.old.items ++ filter is_some (link ∷ [])) }
{
    if link.is_some() {
        roots.push(link)?;
    }
    Ok(())
}
