//! Where a form stands, and what stands in its place.
ghost use Rattle.std.specs.Prelude.{◌≡◌, ℕ, ◌≤◌, ◌+◌, ◌++◌, ◌∷◌, ◌==◌, [], List, IfOk};
ghost use Rattle.std.specs.Prelude.{MatchOption, OnOk, Some, length, filter, if◌then◌else◌, not};
ghost use Rattle.review_texts.specs.Masks as spec;
ghost use Rattle.review_texts.specs.Hostnames as hosts;
ghost use Rattle.review_texts.specs.Hostnames.{StandsName};
ghost use Rattle.review_texts.specs.Masks.{Stands, StandsAt};
ghost use Rattle.review_texts.specs.Addressed.{StandsIpv6};
ghost use Rattle.review_texts.specs.Notes.{note_path};

use crate::addressed::member_hosts;
use crate::bytes::{from, is_text};
use crate::digests::{digest_at, digest_end, digest_start};
use crate::expressions::{command_at, dollar_of, expression_at, push_hex};
use crate::hostnames::{escape_stands, is_hostname, short_name};
use crate::ipv6::ipv6_end;
use crate::listed::group_members;
use crate::netgroups::{Group, group_end};
use crate::options::{name_at, option_end, value_at, value_of};
use crate::places::{NO_PATH, digest_stands, expression_stands, list_stands, option_stands};
use crate::{Form, HostAddress, Note, Readable};
use std::alloc::{AllocError, Global};
use sudo_grammar::Unsupported;
use sudo_text::{Line, Seq, TEXT_LIMIT};

/// The end of a form, and what stands in its place.
#[derive(Drop)]
pub(crate) struct Standing {
    pub(crate) end: usize,
    pub(crate) put: Seq<u8>,
}

// Returns the note of an option, if it has one.
fn option_note(name: &[u8]) -> Option<Note>
    ensures { result ≡ spec.option_note name.now }
{
    if is_text(name, b"CHROOT") {
        Some(Note::Chroot)
    } else if is_text(name, b"NOTBEFORE") || is_text(name, b"NOTAFTER") {
        Some(Note::Time)
    } else {
        None
    }
}

// Returns how the path of a note begins.
fn note_path(note: Note) -> &'static [u8]
    ensures { result.now ≡ note_path note }
{
    match note {
        Note::Digest => b"/d[z-a]",
        Note::Time => b"/t[z-a]",
        Note::Chroot => b"/c[z-a]",
        Note::Regex => b"/r[z-a]",
    }
}

// Returns what an option notes before its value.
fn noted_letter(name: &[u8]) -> &'static [u8]
    ensures { result.now ≡ spec.noted_letter name.now }
{
    if is_text(name, b"NOTBEFORE") {
        b"b"
    } else if is_text(name, b"NOTAFTER") {
        b"a"
    } else {
        b""
    }
}

// Returns the note of an option with this value, as a command before others; nothing for one without a note.
fn noted_option(alloc: Global, name: &[u8], value: &[u8]) -> Result<Seq<u8>, AllocError>
    ensures { IfOk result (λ text. text
        ≡ spec.noted_option (spec.option_note name.now) name.now value.now) }
{
    let Some(note) = option_note(name) else {
        return Ok(Seq::new(alloc));
    };
    let mut text = Seq::from_slice(alloc, note_path(note))?;
    text.extend_from_slice(noted_letter(name))?;
    text.extend_from_slice(value)?;
    text.push(b',')?;
    Ok(text)
}

// Returns what stands in place of the option that begins at an offset of a text.
fn option_text(alloc: Global, text: &[u8], at: usize) -> Result<Seq<u8>, AllocError>
    requires { at ≤ length text.now }
    ensures { IfOk result (λ put. put ≡ spec.option_text text.now at) }
{
    noted_option(alloc, name_at(text, at), value_at(text, value_of(text, at)))
}

// Appends a value without its padding.
fn push_unpadded(value: &[u8], text: &mut Seq<u8>) -> Result<(), AllocError>
    ensures { OnOk result (text.new ≡ text.old ++ filter (λ b. not (b == 61)) value.now) }
{
    let mut left = value;
    while let Some((byte, rest)) = left.split_first() {
        push_unless_padding(*byte, text)?;
        left = rest;
    }
    Ok(())
}

// Appends a byte that is no padding.
fn push_unless_padding(byte: u8, text: &mut Seq<u8>) -> Result<(), AllocError>
    ensures { OnOk result (text.new ≡ text.old ++ (if not (byte == 61) then byte ∷ [] else [])) }
{
    if byte != b'=' {
        text.push(byte)?;
    }
    Ok(())
}

// Returns what stands in place of the digest that begins at an offset of a text.
fn digest_text(alloc: Global, text: &[u8], at: usize) -> Result<Seq<u8>, AllocError>
    requires { at + 7 ≤ length text.now }
    ensures { IfOk result (λ put. put ≡ spec.digest_text text.now at) }
{
    let mut put = Seq::from_slice(alloc, b"/d[z-a]")?;
    push_unpadded(digest_at(text, digest_start(text, at)), &mut put)?;
    put.push(b',')?;
    Ok(put)
}

// Returns what stands in place of the regular expression that begins at an offset of a text.
fn expression_text(alloc: Global, text: &[u8], at: usize) -> Result<Seq<u8>, AllocError>
    requires { at ≤ length text.now }
    ensures { IfOk result (λ put. put ≡ spec.expression_text text.now at) }
{
    let mut put = Seq::from_slice(alloc, b"/r[z-a]")?;
    push_hex(expression_at(text, at), &mut put)?;
    put.push(b',')?;
    put.extend_from_slice(command_at(text, at))?;
    Ok(put)
}

// Returns what stands for `%h` at an offset of a text, up to its end, if this is the name of the host.
fn named_text(alloc: Global, name: &[u8], text: &[u8], at: usize) -> Result<Seq<u8>, AllocError>
    requires { at ≤ length text.now }
    ensures { IfOk result (λ put. put ≡ hosts.named_text name.now text.now at) }
{
    let mut put = Seq::from_slice(alloc, short_name(name))?;
    put.extend_from_slice(from(text, at + 2))?;
    put.extend_from_slice(b"  ")?;
    Ok(put)
}

// Returns the end of the option at an offset, and what stands in its place, if it stands there.
fn option_standing(
    alloc: Global,
    readable: &Readable,
    line: &Line,
    at: usize,
) -> Result<Option<Standing>, AllocError>
    requires within { at ≤ length line.now.text }
    requires short { length line.now.text + 16 ≤ TEXT_LIMIT }
    ensures { IfOk result (λ found. MatchOption found
        ((end : ℕ) (put : List ℕ)
        → Stands readable.now line.now Unsupported.CommandOption at end put → ⊥)
        (λ s. Stands readable.now line.now Unsupported.CommandOption at s.end s.put)) }
{
    if !option_stands(alloc, readable.noted, line, at)? {
        return Ok(None);
    }
    let text = line.text.as_slice();
    let put = option_text(alloc, text, at)?;
    let end = option_end(text, at) + 1;
    Ok(Some(Standing { end, put }))
}

// The same of `list`.
fn list_standing(
    alloc: Global,
    readable: &Readable,
    line: &Line,
    at: usize,
) -> Result<Option<Standing>, AllocError>
    requires within { at ≤ length line.now.text }
    requires short { length line.now.text + 16 ≤ TEXT_LIMIT }
    ensures { IfOk result (λ found. MatchOption found
        ((end : ℕ) (put : List ℕ) → Stands readable.now line.now Unsupported.List at end put → ⊥)
        (λ s. Stands readable.now line.now Unsupported.List at s.end s.put)) }
{
    if !list_stands(alloc, line, at)? {
        return Ok(None);
    }
    let put = Seq::from_slice(alloc, NO_PATH)?;
    Ok(Some(Standing { end: at + 4, put }))
}

// The same of a digest.
fn digest_standing(
    alloc: Global,
    readable: &Readable,
    line: &Line,
    at: usize,
) -> Result<Option<Standing>, AllocError>
    requires within { at ≤ length line.now.text }
    requires short { length line.now.text + 16 ≤ TEXT_LIMIT }
    ensures { IfOk result (λ found. MatchOption found
        ((end : ℕ) (put : List ℕ)
        → Stands readable.now line.now Unsupported.Digest at end put → ⊥)
        (λ s. Stands readable.now line.now Unsupported.Digest at s.end s.put)) }
{
    if !readable.noted || !digest_stands(alloc, line, at)? {
        return Ok(None);
    }
    let text = line.text.as_slice();
    let put = digest_text(alloc, text, at)?;
    let end = digest_end(text, at);
    Ok(Some(Standing { end, put }))
}

// The same of a regular expression.
fn expression_standing(
    alloc: Global,
    readable: &Readable,
    line: &Line,
    at: usize,
) -> Result<Option<Standing>, AllocError>
    requires within { at ≤ length line.now.text }
    requires short { length line.now.text + 16 ≤ TEXT_LIMIT }
    ensures { IfOk result (λ found. MatchOption found
        ((end : ℕ) (put : List ℕ)
        → Stands readable.now line.now Unsupported.RegularExpression at end put → ⊥)
        (λ s. Stands readable.now line.now Unsupported.RegularExpression at s.end s.put)) }
{
    if !readable.noted || !expression_stands(alloc, line, at)? {
        return Ok(None);
    }
    let text = line.text.as_slice();
    let put = expression_text(alloc, text, at)?;
    let end = dollar_of(text, at) + 1;
    Ok(Some(Standing { end, put }))
}

// The same of a netgroup or a non-Unix group.
fn group_standing(
    alloc: Global,
    group: Group,
    readable: &Readable,
    line: &Line,
    at: usize,
) -> Result<Option<Standing>, AllocError>
    requires within { at ≤ length line.now.text }
    requires short { length line.now.text + 16 ≤ TEXT_LIMIT }
    ensures { IfOk result (λ found. MatchOption found
        ((end : ℕ) (put : List ℕ)
        → spec.StandsAs group readable.now line.now at end put → ⊥)
        (λ s. spec.StandsAs group readable.now line.now at s.end s.put)) }
{
    let Some(put) = group_members(alloc, group, &readable.netgroups, line, at)? else {
        return Ok(None);
    };
    let end = group_end(group, line.text.as_slice(), at);
    Ok(Some(Standing { end, put }))
}

// The same of `%h`, up to the end of the line.
fn host_standing(
    alloc: Global,
    readable: &Readable,
    line: &Line,
    at: usize,
) -> Result<Option<Standing>, AllocError>
    requires within { at ≤ length line.now.text }
    requires short { length line.now.text + 16 ≤ TEXT_LIMIT }
    ensures { IfOk result (λ found. MatchOption found
        ((end : ℕ) (put : List ℕ)
        → Stands readable.now line.now Unsupported.HostEscape at end put → ⊥)
        (λ s. Stands readable.now line.now Unsupported.HostEscape at s.end s.put)) }
{
    match &readable.host {
        Some(host) => named_standing(alloc, host.as_slice(), line, at),
        None => Ok(None),
    }
}

// The same, where this is the name of the host.
fn named_standing(
    alloc: Global,
    name: &[u8],
    line: &Line,
    at: usize,
) -> Result<Option<Standing>, AllocError>
    requires within { at ≤ length line.now.text }
    requires short { length line.now.text + 16 ≤ TEXT_LIMIT }
    ensures { IfOk result (λ found. MatchOption found
        ((end : ℕ) (put : List ℕ) → StandsName (Some name.now) line.now at end put → ⊥)
        (λ s. StandsName (Some name.now) line.now at s.end s.put)) }
{
    if !is_hostname(name) || !escape_stands(alloc, line, at)? {
        return Ok(None);
    }
    let text = line.text.as_slice();
    let put = named_text(alloc, name, text, at)?;
    let end = text.len();
    Ok(Some(Standing { end, put }))
}

// Returns the end of a form that is refused by name and begins at an offset, and what stands in its place, if it stands there.
fn named_stands(
    alloc: Global,
    readable: &Readable,
    line: &Line,
    form: Unsupported,
    at: usize,
) -> Result<Option<Standing>, AllocError>
    requires within { at ≤ length line.now.text }
    requires short { length line.now.text + 16 ≤ TEXT_LIMIT }
    ensures { IfOk result (λ found. MatchOption found
        ((end : ℕ) (put : List ℕ) → Stands readable.now line.now form at end put → ⊥)
        (λ s. Stands readable.now line.now form at s.end s.put)) }
{
    match form {
        Unsupported::CommandOption => option_standing(alloc, readable, line, at),
        Unsupported::List => list_standing(alloc, readable, line, at),
        Unsupported::Digest => digest_standing(alloc, readable, line, at),
        Unsupported::Netgroup => group_standing(alloc, Group::Net, readable, line, at),
        Unsupported::NonUnixGroup => group_standing(alloc, Group::NonUnix, readable, line, at),
        Unsupported::RegularExpression => expression_standing(alloc, readable, line, at),
        Unsupported::HostEscape => host_standing(alloc, readable, line, at),
    }
}

// Returns the end of an IPv6 address at an offset, and the list of the hosts that have it, if it stands there.
fn ipv6_standing(
    alloc: Global,
    readable: &Readable,
    line: &Line,
    at: usize,
) -> Result<Option<Standing>, AllocError>
    requires within { at ≤ length line.now.text }
    requires short { length line.now.text + 16 ≤ TEXT_LIMIT }
    ensures { IfOk result (λ found. MatchOption found
        ((end : ℕ) (put : List ℕ) → StandsAt readable.now line.now Form.Ipv6 at end put → ⊥)
        (λ s. StandsAt readable.now line.now Form.Ipv6 at s.end s.put)) }
{
    match &readable.addresses {
        Some(known) => member_standing(alloc, known.as_slice(), line, at),
        None => Ok(None),
    }
}

// The same, where these addresses of hosts are known.
fn member_standing(
    alloc: Global,
    known: &[HostAddress],
    line: &Line,
    at: usize,
) -> Result<Option<Standing>, AllocError>
    requires within { at ≤ length line.now.text }
    requires short { length line.now.text + 16 ≤ TEXT_LIMIT }
    ensures { IfOk result (λ found. MatchOption found
        ((end : ℕ) (put : List ℕ) → StandsIpv6 (Some known.now) line.now at end put → ⊥)
        (λ s. StandsIpv6 (Some known.now) line.now at s.end s.put)) }
{
    let Some(put) = member_hosts(alloc, known, line, at)? else {
        return Ok(None);
    };
    let end = ipv6_end(line.text.as_slice(), at);
    Ok(Some(Standing { end, put }))
}

/// Returns the end of a form that begins at an offset, and what stands in its place, if it stands there. Returns `AllocError` if
/// allocation fails.
pub(crate) fn stands(
    alloc: Global,
    readable: &Readable,
    line: &Line,
    form: Form,
    at: usize,
) -> Result<Option<Standing>, AllocError>
    requires within { at ≤ length line.now.text }
    requires short { length line.now.text + 16 ≤ TEXT_LIMIT }
    ensures { IfOk result (λ found. MatchOption found
        ((end : ℕ) (put : List ℕ) → StandsAt readable.now line.now form at end put → ⊥)
        (λ s. StandsAt readable.now line.now form at s.end s.put)) }
{
    match form {
        Form::Named(form) => named_stands(alloc, readable, line, form, at),
        Form::Ipv6 => ipv6_standing(alloc, readable, line, at),
    }
}
