//! Where a netgroup or a non-Unix group stands, and in which list.
ghost use Rattle.std.specs.Prelude.{◌≡◌, ℕ, ◌≤◌, ◌+◌, List, Decides, IfOk, MatchOption, IsTrue, length, true};
ghost use Rattle.std.specs.Option.{option_copied};
ghost use Rattle.sudo_grammar.specs.declared.policy.EntryBody.{EntryBody as AnEntry};
ghost use Rattle.review_texts.specs.declared.netgroups.Members.{Members as TheMembers};
ghost use Rattle.review_texts.specs.Places as spec;

use crate::bytes::newline_count;
use crate::netgroups::{Group, Members, group_at, list_for, sign_at, spells_group};
use crate::places::{last_spec, line_with};
use crate::reading::{entry_in, is_bad_number};
use audit_files::Triple;
use std::alloc::{AllocError, Global};
use sudo_grammar::EntryBody;
use sudo_text::{Line, Seq, TEXT_LIMIT};

/// Whether a member of a list of users is read at an offset. Returns `AllocError` if allocation fails.
pub(crate) fn takes_user(alloc: Global, line: &Line, at: usize) -> Result<bool, AllocError>
    requires within { at ≤ length line.now.text }
    requires short { length line.now.text + 16 ≤ TEXT_LIMIT }
    ensures { IfOk result (λ takes. Decides takes (spec.TakesUser line.now at)) }
{
    let front = line_with(alloc, line, at, b"%#4294967296")?;
    is_bad_number(alloc, &front, at)
}

/// Whether a member of a list of hosts is read at an offset. Returns `AllocError` if allocation fails.
pub(crate) fn takes_host(alloc: Global, line: &Line, at: usize) -> Result<bool, AllocError>
    requires within { at ≤ length line.now.text }
    requires short { length line.now.text + 16 ≤ TEXT_LIMIT }
    ensures { IfOk result (λ takes. Decides takes (spec.TakesHost line.now at)) }
{
    let front = line_with(alloc, line, at, b"256.0.0.0")?;
    is_bad_number(alloc, &front, at)
}

// Whether the last command of a rule has a runas with a list of groups.
fn has_groups(entry: &EntryBody) -> bool
    ensures { result ≡ spec.has_groups (spec.last_spec entry.now) }
{
    match last_spec(entry) {
        Some(spec) => match &spec.runas {
            Some(runas) => runas.groups.is_some(),
            None => false,
        },
        None => false,
    }
}

// Whether a line by itself is a rule whose last command has a runas with a list of groups.
fn reads_groups(alloc: Global, line: &Line) -> Result<bool, AllocError>
    requires { length line.now.text ≤ TEXT_LIMIT }
    ensures yes { IfOk result (λ found. IsTrue found → (entry : AnEntry)
        × spec.IsEntryIn line.now entry × (spec.has_groups (spec.last_spec entry) ≡ true)) }
    ensures only { IfOk result (λ found. (entry : AnEntry) → spec.IsEntryIn line.now entry
        → spec.has_groups (spec.last_spec entry) ≡ true → IsTrue found) }
{
    match entry_in(alloc, line)? {
        Some(entry) => Ok(has_groups(&entry)),
        None => Ok(false),
    }
}

// Whether a member of the list of groups of a runas is read at an offset.
fn takes_group(alloc: Global, line: &Line, at: usize) -> Result<bool, AllocError>
    requires within { at ≤ length line.now.text }
    requires short { length line.now.text + 16 ≤ TEXT_LIMIT }
    ensures yes { IfOk result (λ takes. IsTrue takes → spec.TakesGroup line.now at) }
    ensures only { IfOk result (λ takes. spec.TakesGroup line.now at → IsTrue takes) }
{
    let front = line_with(alloc, line, at, b"x) ALL")?;
    reads_groups(alloc, &front)
}

// Returns the list for the group at an offset.
fn list_at(
    alloc: Global,
    group: Group,
    kind: Members,
    known: &[Triple],
    text: &[u8],
    at: usize,
) -> Result<Seq<u8>, AllocError>
    requires { at ≤ length text.now }
    ensures { IfOk result (λ list. list ≡ spec.list_at group kind known.now text.now at) }
{
    list_for(
        alloc,
        kind,
        known,
        sign_at(&text[..at]),
        group_at(group, text, at),
    )
}

// Whether a list of hosts may have such a group.
fn has_hosts(group: Group) -> bool
    ensures { result ≡ spec.has_hosts group }
{
    match group {
        Group::Net => true,
        Group::NonUnix => false,
    }
}

// Returns the kind of the members of the list that goes on at an offset, if one of users or hosts does that may have such a group.
fn kind_at(
    alloc: Global,
    group: Group,
    line: &Line,
    at: usize,
) -> Result<Option<Members>, AllocError>
    requires within { at ≤ length line.now.text }
    requires short { length line.now.text + 16 ≤ TEXT_LIMIT }
    ensures { IfOk result (λ found. MatchOption found
        ((kind : TheMembers) → spec.IsListOf kind group line.now at → ⊥)
        (λ kind. spec.IsListOf kind group line.now at)) }
{
    if takes_user(alloc, line, at)? {
        return Ok(Some(Members::Users));
    }
    if has_hosts(group) && takes_host(alloc, line, at)? {
        return Ok(Some(Members::Hosts));
    }
    Ok(None)
}

// Returns the members of the group at an offset, if a list that may have it goes on there.
fn members_at(
    alloc: Global,
    group: Group,
    known: &[Triple],
    line: &Line,
    at: usize,
) -> Result<Option<Seq<u8>>, AllocError>
    requires within { at ≤ length line.now.text }
    requires short { length line.now.text + 16 ≤ TEXT_LIMIT }
    ensures { IfOk result (λ found. MatchOption found
        ((put : List ℕ) → spec.IsMembers group known.now line.now at put → ⊥)
        (λ put. spec.IsMembers group known.now line.now at put)) }
{
    let Some(kind) = kind_at(alloc, group, line, at)? else {
        return Ok(None);
    };
    let put = list_at(alloc, group, kind, known, line.text.as_slice(), at)?;
    Ok(Some(put))
}

/// Returns the members of the group at an offset, if one stands there that is known. Returns `AllocError` if allocation fails.
pub(crate) fn group_members(
    alloc: Global,
    group: Group,
    known: &[Triple],
    line: &Line,
    at: usize,
) -> Result<Option<Seq<u8>>, AllocError>
    requires within { at ≤ length line.now.text }
    requires short { length line.now.text + 16 ≤ TEXT_LIMIT }
    ensures { IfOk result (λ found. MatchOption found
        ((put : List ℕ) → spec.StandsGroup group known.now line.now at put → ⊥)
        (λ put. spec.StandsGroup group known.now line.now at put)) }
{
    if !spells_group(group, known, line.text.as_slice(), at) {
        return Ok(None);
    }
    if takes_group(alloc, line, at)? {
        return Ok(None);
    }
    let Some(put) = members_at(alloc, group, known, line, at)? else {
        return Ok(None);
    };
    if newline_count(put.as_slice()) > 0 {
        return Ok(None);
    }
    Ok(Some(put))
}
