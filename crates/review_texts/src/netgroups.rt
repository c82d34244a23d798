//! The members for which a netgroup or a non-Unix group stands.
ghost use Rattle.std.specs.Prelude.{◌≡◌, ◌≤◌, ◌<◌, ◌+◌, ◌++◌, IfOk, IsTrue, OnOk, drop, length, max, take};
ghost use Rattle.std.specs.List.{list_all, list_any, take_while};
ghost use Rattle.sudo_grammar.specs.Words as words;
ghost use Rattle.sudo_text.specs.Bytes.{is_digit};
ghost use Rattle.sudo_parser.specs.Texts.{user_text};
ghost use Rattle.review_texts.specs.Body.MemberLists.{with_member_if};
ghost use Rattle.review_texts.specs.Netgroups as spec;

use crate::bytes::{from, front, is_blank, is_control, is_digit, is_mark_byte, is_text, peek};
use crate::options::is_name_byte;
use audit_files::Triple;
use std::alloc::{AllocError, Global};
use sudo_grammar::{Atom, Signed};
use sudo_parser::member_text;
use sudo_text::Seq;

/// What a file states members of.
#[derive(Clone, Copy, Debug, PartialEq, Eq)]
pub enum Group {
    /// A netgroup, `+name`.
    Net,
    /// A group that only a plugin of sudo knows, `%:name`.
    NonUnix,
}

/// The kind of members for which a group stands.
#[derive(Clone, Copy, Debug, PartialEq, Eq)]
pub enum Members {
    Users,
    Hosts,
}

// Returns a user as a member of a list.
fn user_text(alloc: Global, name: &[u8]) -> Result<Seq<u8>, AllocError>
    ensures { IfOk result (λ text. text ≡ user_text name.now) }
{
    let atom = Atom::Name(Seq::from_slice(alloc, name)?);
    let member = Signed {
        negated: false,
        atom,
    };
    Ok(Seq::from_vec(member_text(alloc, &member)?))
}

fn begins_upper(name: &[u8]) -> bool
    ensures { result ≡ words.begins_upper name.now }
{
    match name {
        [] => false,
        [first, ..] => first.is_ascii_uppercase(),
    }
}

fn has_name_bytes(name: &[u8]) -> bool
    ensures { result ≡ list_all words.is_name_byte name.now }
{
    name.iter().all(|byte| is_name_byte(*byte))
}

/// Returns a host as a member of a list.
pub(crate) fn host_text(alloc: Global, name: &[u8]) -> Result<Seq<u8>, AllocError>
    ensures { IfOk result (λ text. text ≡ spec.host_text name.now) }
{
    if !(begins_upper(name) && has_name_bytes(name)) {
        return Seq::from_slice(alloc, name);
    }
    let mut text = Seq::from_slice(alloc, b"\\")?;
    text.extend_from_slice(name)?;
    Ok(text)
}

// Returns a user or a host as a member of a list.
fn name_text(alloc: Global, kind: Members, name: &[u8]) -> Result<Seq<u8>, AllocError>
    ensures { IfOk result (λ text. text ≡ spec.name_text kind name.now) }
{
    match kind {
        Members::Users => user_text(alloc, name),
        Members::Hosts => host_text(alloc, name),
    }
}

// Returns the field of a triple that is read in a list.
fn field_in(kind: Members, triple: &Triple) -> &[u8]
    ensures { result.now ≡ spec.field_in kind triple.now }
{
    match kind {
        Members::Users => triple.user.as_slice(),
        Members::Hosts => triple.host.as_slice(),
    }
}

// Returns the member that a field stands for, if any.
fn member_for(alloc: Global, kind: Members, field: &[u8]) -> Result<Option<Seq<u8>>, AllocError>
    ensures { IfOk result (λ member. member ≡ spec.member_for kind field.now) }
{
    if field.is_empty() {
        return Ok(Some(Seq::from_slice(alloc, b"ALL")?));
    }
    if is_text(field, b"-") {
        return Ok(None);
    }
    Ok(Some(name_text(alloc, kind, field)?))
}

// Returns the member that a triple adds to the list of a group, if any.
fn member_of(
    alloc: Global,
    kind: Members,
    name: &[u8],
    triple: &Triple,
) -> Result<Option<Seq<u8>>, AllocError>
    ensures { IfOk result (λ member. member ≡ spec.member_of kind name.now triple.now) }
{
    if !is_text(triple.netgroup.as_slice(), name) {
        return Ok(None);
    }
    member_for(alloc, kind, field_in(kind, triple))
}

/// Appends a member to a list, behind a comma and this sign if it is not the first.
pub(crate) fn push_member(
    sign: &[u8],
    member: Seq<u8>,
    list: &mut Seq<u8>,
) -> Result<(), AllocError>
    ensures { OnOk result (list.new ≡ spec.with_member sign.now list.old member) }
{
    if !list.is_empty() {
        list.push(b',')?;
        list.extend_from_slice(sign)?;
    }
    list.append(member)
}

// Appends the member that a triple adds to the list of a group, if any.
fn push_triple(
    alloc: Global,
    kind: Members,
    sign: &[u8],
    name: &[u8],
    triple: &Triple,
    list: &mut Seq<u8>,
) -> Result<(), AllocError>
    ensures { OnOk result (list.new
        ≡ with_member_if sign.now list.old (spec.member_of kind name.now triple.now)) }
{
    match member_of(alloc, kind, name, triple)? {
        Some(member) => push_member(sign, member, list),
        None => Ok(()),
    }
}

// Returns the list of the members that triples add to that of a group.
fn members_of(
    alloc: Global,
    kind: Members,
    sign: &[u8],
    name: &[u8],
    triples: &[Triple],
) -> Result<Seq<u8>, AllocError>
    ensures { IfOk result (λ list. list ≡ spec.members_of kind sign.now name.now triples.now) }
{
    let mut list = Seq::new(alloc);
    let mut left = triples;
    while let Some((triple, rest)) = left.split_first() {
        push_triple(alloc, kind, sign, name, triple, &mut list)?;
        left = rest;
    }
    Ok(list)
}

/// Returns what stands for a group without members.
pub(crate) fn nobody(kind: Members) -> &'static [u8]
    ensures { result.now ≡ spec.nobody kind }
{
    match kind {
        Members::Users => b"\\x00",
        Members::Hosts => b"[z-a]",
    }
}

/// Returns the list that stands for a group: its members of a kind, each but the first behind a comma and a sign, or one that
/// nobody is. Returns `AllocError` if allocation fails.
pub(crate) fn list_for(
    alloc: Global,
    kind: Members,
    known: &[Triple],
    sign: &[u8],
    name: &[u8],
) -> Result<Seq<u8>, AllocError>
    ensures { IfOk result (λ list. list ≡ spec.list_for kind known.now sign.now name.now) }
{
    let list = members_of(alloc, kind, sign, name, known)?;
    if list.is_empty() {
        return Seq::from_slice(alloc, nobody(kind));
    }
    Ok(list)
}

// Whether a group is known.
fn is_known(known: &[Triple], name: &[u8]) -> bool
    ensures { result ≡ spec.is_known known.now name.now }
{
    known
        .iter()
        .any(|triple| is_text(triple.netgroup.as_slice(), name))
}

// Returns the offset of the mark of a group at an offset.
fn mark_at(text: &[u8], at: usize) -> usize
    requires { at ≤ length text.now }
    ensures mark { result ≡ spec.mark_at text.now at }
    ensures near { result ≤ at + 1 }
{
    if peek(text, at) == b'"' { at + 1 } else { at }
}

// Returns the length of the mark of a group.
fn mark_len(group: Group) -> usize
    ensures len { result ≡ spec.mark_len group }
    ensures short { result ≤ 2 }
{
    match group {
        Group::Net => 1,
        Group::NonUnix => 2,
    }
}

// Whether the mark of a group stands at an offset.
fn is_marked(group: Group, text: &[u8], at: usize) -> bool
    requires { at ≤ length text.now + 1 }
    ensures { result ≡ spec.is_marked group text.now at }
{
    match group {
        Group::Net => peek(text, at) == b'+',
        Group::NonUnix => peek(text, at) == b'%' && peek(text, at + 1) == b':',
    }
}

// Whether a byte may stand in a name between double quotes.
fn is_quoted_byte(byte: u8) -> bool
    ensures { result ≡ spec.is_quoted_byte byte }
{
    !(is_control(byte) || byte == b'"' || byte == b'\\')
}

// Whether a byte may stand in a name without double quotes.
fn is_bare_byte(byte: u8) -> bool
    ensures { result ≡ spec.is_bare_byte byte }
{
    is_quoted_byte(byte) && !(is_blank(byte) || is_mark_byte(byte) || byte == b'#')
}

// Whether `#` and a digit begin a text.
fn is_id(text: &[u8]) -> bool
    ensures { result ≡ spec.is_id text.now }
{
    peek(text, 0) == b'#' && is_digit(peek(text, 1))
}

// Returns the number of digits that begin a text.
fn digit_count(text: &[u8]) -> usize
    ensures count { result ≡ length (take_while is_digit text.now) }
    ensures within { result ≤ length text.now }
{
    text.iter().take_while(|byte| is_digit(**byte)).count()
}

// Returns the number of bytes that begin a text and may stand in a name without double quotes.
fn bare_count(text: &[u8]) -> usize
    ensures count { result ≡ length (take_while spec.is_bare_byte text.now) }
    ensures within { result ≤ length text.now }
{
    text.iter().take_while(|byte| is_bare_byte(**byte)).count()
}

// Returns the number of bytes of a name between double quotes that begins a text.
fn quoted_count(text: &[u8]) -> usize
    ensures count { result ≡ length (take_while spec.is_quoted_byte text.now) }
    ensures within { result ≤ length text.now }
{
    text.iter()
        .take_while(|byte| is_quoted_byte(**byte))
        .count()
}

// Returns the number of bytes of a name without double quotes that begins a text.
fn bare_len(group: Group, text: &[u8]) -> usize
    ensures len { result ≡ spec.bare_len group text.now }
    ensures within { result ≤ length text.now + 1 }
{
    match group {
        Group::Net => bare_count(text),
        Group::NonUnix => {
            if is_id(text) {
                1 + digit_count(from(text, 1))
            } else {
                bare_count(text)
            }
        }
    }
}

// Returns the number of bytes of a name that begins a text.
fn name_len(group: Group, quoted: bool, text: &[u8]) -> usize
    ensures len { result ≡ spec.name_len group quoted text.now }
    ensures within { result ≤ length text.now + 1 }
{
    if quoted {
        quoted_count(text)
    } else {
        bare_len(group, text)
    }
}

// Returns the length of the name of the group at an offset.
fn len_at(group: Group, text: &[u8], at: usize) -> usize
    requires { at ≤ length text.now }
    ensures len { result ≡ spec.len_at group text.now at }
    ensures within { result ≤ length text.now + 1 }
{
    let rest = from(text, mark_at(text, at) + mark_len(group));
    name_len(group, peek(text, at) == b'"', rest)
}

/// Returns the name of the group at an offset, as a file has it.
pub(crate) fn group_at(group: Group, text: &[u8], at: usize) -> &[u8]
    requires { at ≤ length text.now }
    ensures { result.now ≡ spec.group_at group text.now at }
{
    let len = len_at(group, text, at);
    let mark = mark_at(text, at);
    match group {
        Group::Net => front(from(text, mark + 1), len),
        Group::NonUnix => front(from(text, mark), len + 2),
    }
}

// Returns the offset behind that name.
fn group_stop(group: Group, text: &[u8], at: usize) -> usize
    requires { at ≤ length text.now }
    ensures stop { result ≡ spec.group_stop group text.now at }
    ensures within { result ≤ at + length text.now + 4 }
{
    mark_at(text, at) + mark_len(group) + len_at(group, text, at)
}

/// Returns the end of the group at an offset.
pub(crate) fn group_end(group: Group, text: &[u8], at: usize) -> usize
    requires { at ≤ length text.now }
    ensures { result ≡ spec.group_end group text.now at }
{
    let stop = group_stop(group, text, at);
    if peek(text, at) == b'"' {
        stop + 1
    } else {
        stop
    }
}

/// Whether a text ends at an offset, or a blank, a mark or a comment stands there.
pub(crate) fn ends_item(text: &[u8], at: usize) -> bool
    ensures { result ≡ spec.ends_item text.now at }
{
    text.len() <= at
        || is_blank(peek(text, at))
        || is_mark_byte(peek(text, at))
        || peek(text, at) == b'#'
}

// Whether the name of a group at an offset ends, and its item with it.
fn ends_name(group: Group, text: &[u8], at: usize) -> bool
    requires { at ≤ length text.now }
    ensures { result ≡ spec.ends_name group text.now at }
{
    let stop = group_stop(group, text, at);
    if peek(text, at) == b'"' {
        peek(text, stop) == b'"' && ends_item(text, stop + 1)
    } else {
        ends_item(text, stop)
    }
}

// Whether the name of a group at an offset is one of such a group.
fn is_named(group: Group, text: &[u8], at: usize) -> bool
    requires { at ≤ length text.now }
    ensures { result ≡ spec.is_named group text.now at }
{
    match group {
        Group::Net => !group_at(group, text, at).starts_with(b"%:"),
        Group::NonUnix => len_at(group, text, at) > 0,
    }
}

/// Whether a group that is known is spelled at an offset.
#[tactic(auto, unfolding(crate::specs::Netgroups::spells_group))]
pub(crate) fn spells_group(group: Group, known: &[Triple], text: &[u8], at: usize) -> bool
    requires { at ≤ length text.now }
    ensures { result ≡ spec.spells_group group known.now text.now at }
{
    is_marked(group, text, mark_at(text, at))
        && ends_name(group, text, at)
        && is_named(group, text, at)
        && is_known(known, group_at(group, text, at))
}

// Returns the number of exclamation marks and blanks that end a text.
fn sign_len(text: &[u8]) -> usize
    ensures len { result ≡ spec.sign_len text.now }
    ensures within { result ≤ length text.now }
{
    text.iter()
        .rev()
        .take_while(|byte| is_blank(**byte) || **byte == b'!')
        .count()
}

/// Returns the sign of the member that begins behind a text: `!` or nothing.
pub(crate) fn sign_at(text: &[u8]) -> &'static [u8]
    ensures { result.now ≡ spec.sign_at text.now }
{
    let marks = &text[text.len() - sign_len(text)..];
    if marks.iter().filter(|byte| **byte == b'!').count() % 2 == 1 {
        b"!"
    } else {
        b""
    }
}
