//! Which lists of a policy decide: not those of the definitions of unused aliases.
ghost use Rattle.std.specs.Prelude.{◌≡◌, ◌++◌, ◌||◌, ℕ, List, map, is_some, bytes_eq, IfOk, OnOk};
ghost use Rattle.std.specs.List.{list_any};
ghost use Rattle.sudo_base.specs.NameIndices.{index_of};
ghost use Rattle.sudo_grammar.specs.Kinds.{same_kind};
ghost use Rattle.sudo_grammar.specs.declared.kind.Kind.{Kind};
ghost use Rattle.sudo_policy.specs.Definitions as policies;
ghost use Rattle.sudo_policy.specs.Definitions.{list_view};
ghost use Rattle.sudo_policy.specs.Found.{AreFindings};
ghost use Rattle.review_cautions.specs.Uses.{AreDeciding};
ghost use Rattle.review_cautions.specs.Body.Looking.{scanned_view};
ghost use Rattle.review_cautions.specs.Body.Deciding as deciding;
ghost use Rattle.review_cautions.specs.Body.UnusedNames as body;

use crate::scanned::ScannedList;
use std::alloc::{AllocError, Global};
use sudo_base::Names;
use sudo_policy::{
    Class, Definition, Entry, EntryBody, Finding, Kind, MemberList, Policy, findings,
};

/// The names of the unused aliases of each kind.
#[derive(Drop)]
struct UnusedNames {
    users: Names,
    runas: Names,
    hosts: Names,
    commands: Names,
}

impl UnusedNames {
    // Whether the unused aliases of a kind have a name.
    fn contains(&self, kind: Kind, name: &[u8]) -> bool
        ensures { result ≡ body.has_name self.now kind name.now }
    {
        match kind {
            Kind::User => self.users.get(name).is_some(),
            Kind::Runas => self.runas.get(name).is_some(),
            Kind::Host => self.hosts.get(name).is_some(),
            Kind::Cmnd => self.commands.get(name).is_some(),
        }
    }
}

// Whether two kinds are the same.
fn is_same_kind(one: Kind, other: Kind) -> bool
    ensures { result ≡ same_kind one other }
{
    match one {
        Kind::User => matches!(other, Kind::User),
        Kind::Runas => matches!(other, Kind::Runas),
        Kind::Host => matches!(other, Kind::Host),
        Kind::Cmnd => matches!(other, Kind::Cmnd),
    }
}

// Whether a finding says that an alias is unused.
fn is_on_unused(finding: &Finding) -> bool
    ensures { result ≡ body.is_unused finding.now.class }
{
    matches!(finding.class, Class::Unused)
}

// Whether a finding says that an alias of a kind is unused.
fn is_of_kind(kind: Kind, finding: &Finding) -> bool
    ensures { result ≡ body.is_of_kind kind finding.now }
{
    is_on_unused(finding) && is_same_kind(kind, finding.kind)
}

// Adds a name, which may be there.
fn add(alloc: Global, name: &[u8], names: &mut Names) -> Result<(), AllocError>
    ensures { OnOk result ((other : List ℕ) → is_some (index_of names.new other)
        ≡ (is_some (index_of names.old other) || bytes_eq other name.now)) }
{
    if names.get(name).is_none() {
        names.insert(alloc, name, 0)?;
    }
    Ok(())
}

// Adds the name of a finding that says that an alias of a kind is unused.
fn add_found(
    alloc: Global,
    kind: Kind,
    finding: &Finding,
    names: &mut Names,
) -> Result<(), AllocError>
    ensures { OnOk result ((other : List ℕ) → is_some (index_of names.new other)
        ≡ (is_some (index_of names.old other) || body.is_on kind other finding.now)) }
{
    if is_of_kind(kind, finding) {
        add(alloc, finding.name.as_slice(), names)?;
    }
    Ok(())
}

// Returns the names of the aliases of a kind that are unused by these findings.
fn names_found(alloc: Global, kind: Kind, findings: &[Finding]) -> Result<Names, AllocError>
    ensures { IfOk result (λ names. (name : List ℕ) → is_some (index_of names name)
        ≡ list_any (body.is_on kind name) findings.now) }
{
    let mut names = Names::new(alloc);
    for finding in findings {
        add_found(alloc, kind, finding, &mut names)?;
    }
    Ok(names)
}

// Returns the names of the aliases that are unused by these findings.
fn unused_names(alloc: Global, findings: &[Finding]) -> Result<UnusedNames, AllocError>
    ensures { IfOk result (λ unused. (kind : Kind) (name : List ℕ) → body.has_name unused kind name
        ≡ list_any (body.is_on kind name) findings.now) }
{
    Ok(UnusedNames {
        users: names_found(alloc, Kind::User, findings)?,
        runas: names_found(alloc, Kind::Runas, findings)?,
        hosts: names_found(alloc, Kind::Host, findings)?,
        commands: names_found(alloc, Kind::Cmnd, findings)?,
    })
}

// Appends for each definition of a line whether its alias is unused.
fn push_definitions(
    unused: &UnusedNames,
    kind: Kind,
    definitions: &[Definition],
    marks: &mut Vec<bool>,
) -> Result<(), AllocError>
    ensures { OnOk result (marks.new.items ≡ marks.old.items
        ++ map (λ d. body.has_name unused.now kind d.name) definitions.now) }
{
    for definition in definitions {
        marks.push(unused.contains(kind, definition.name.as_slice()))?;
    }
    Ok(())
}

// Appends the same of an entry.
fn push_entry(unused: &UnusedNames, entry: &Entry, marks: &mut Vec<bool>) -> Result<(), AllocError>
    ensures { OnOk result (marks.new.items ≡ marks.old.items
        ++ body.marks_in unused.now entry.now.body) }
{
    match &entry.body {
        EntryBody::Aliases { kind, definitions } => {
            push_definitions(unused, *kind, definitions.as_slice(), marks)
        }
        _ => Ok(()),
    }
}

// Returns for each definition of a policy, in order, whether its alias is unused.
fn marks_of(alloc: Global, unused: &UnusedNames, entries: &[Entry]) -> Result<Vec<bool>, AllocError>
    ensures { IfOk result (λ marks. marks.items ≡ body.marks_of unused.now entries.now) }
{
    let mut marks = Vec::new(alloc);
    for entry in entries {
        push_entry(unused, entry, &mut marks)?;
    }
    Ok(marks)
}

// Whether a list is that of a definition, and the first mark says that its alias is unused.
fn is_left_out(marks: &[bool], list: &MemberList<'_>) -> bool
    ensures { result ≡ body.is_left_out marks.now (list_view list.now) }
{
    !list.granting && matches!(marks, [true, ..])
}

// Returns the marks for the lists behind this one.
fn marks_behind<'a>(marks: &'a [bool], list: &MemberList<'_>) -> &'a [bool]
    ensures { result.now ≡ body.marks_behind marks.now (list_view list.now) }
{
    match marks {
        [_, behind @ ..] if !list.granting => behind,
        _ => marks,
    }
}

// Returns the lists but for those of definitions whose mark is true.
fn left_by<'a>(
    alloc: Global,
    lists: &[ScannedList<'a>],
    marks: &[bool],
) -> Result<Vec<ScannedList<'a>>, AllocError>
    ensures { IfOk result (λ left. map scanned_view left.items
        ≡ body.left_by marks.now (map scanned_view lists.now)) }
{
    let mut left = Vec::with_capacity(alloc, lists.len())?;
    let mut ahead = marks;
    let mut rest = lists;
    while let [list, behind @ ..] = rest {
        if ahead.is_empty() {
            left.extend_from_slice(rest)?;
            return Ok(left);
        }
        if !is_left_out(ahead, &list.list) {
            left.push(*list)?;
        }
        ahead = marks_behind(ahead, &list.list);
        rest = behind;
    }
    Ok(left)
}

// Whether one of the findings says so.
fn find_unused(findings: &[Finding]) -> bool
    ensures { result ≡ list_any (λ f. body.is_unused f.class) findings.now }
{
    findings.iter().any(|finding| is_on_unused(finding))
}

// Returns the lists of a policy but for those of the definitions of aliases that are unused by these findings.
fn left_behind<'a>(
    alloc: Global,
    policy: &Policy,
    findings: &[Finding],
    lists: &[ScannedList<'a>],
) -> Result<Vec<ScannedList<'a>>, AllocError>
    requires all { map scanned_view lists.now ≡ policies.lists policy.now }
    requires found { AreFindings policy.now findings.now }
    ensures { IfOk result (λ left. AreDeciding policy.now (map scanned_view left.items)) }
{
    let unused = unused_names(alloc, findings)?;
    let marks = marks_of(alloc, &unused, policy.entries.as_slice())?;
    left_by(alloc, lists, &marks)
}

/// Returns those of the lists of a policy that decide, and `None` if all do. Returns `AllocError` if allocation failed.
pub(crate) fn deciding_lists<'a>(
    alloc: Global,
    policy: &Policy,
    lists: &[ScannedList<'a>],
) -> Result<Option<Vec<ScannedList<'a>>>, AllocError>
    requires { map scanned_view lists.now ≡ policies.lists policy.now }
    ensures { IfOk result (λ left. AreDeciding policy.now
        (deciding.lists_left left (map scanned_view lists.now))) }
{
    let found = findings(alloc, policy)?;
    if find_unused(&found) {
        return Ok(Some(left_behind(alloc, policy, &found, lists)?));
    }
    Ok(None)
}
