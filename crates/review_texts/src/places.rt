//! Where a form stands that can be masked.
ghost use Rattle.std.specs.Prelude.{◌≡◌, ℕ, ◌≤◌, ◌+◌, ◌++◌, length, take, IfOk, MatchOption, IsTrue, true};
ghost use Rattle.std.specs.Option.{option_copied};
ghost use Rattle.sudo_grammar.specs.declared.policy.EntryBody.{EntryBody as AnEntry};
ghost use Rattle.review_texts.specs.Places as spec;

use crate::bytes::{begins_defaults, from, is_blank, peek, skip};
use crate::digests::spells_digest;
use crate::expressions::{dollar_of, holds_expression};
use crate::options::{name_end, spells_option};
use crate::reading::entry_in;
use std::alloc::{AllocError, Global};
use sudo_grammar::{Binding, CommandSpec, EntryBody, Member, Unsupported};
use sudo_text::{Line, Seq, TEXT_LIMIT};

/// What stands in place of `list`: a path that no command has.
pub(crate) const NO_PATH: &[u8] = b"/list[z-a]";

/// Returns a line of a text, without joins, at the place of another.
pub(crate) fn with_text(alloc: Global, line: &Line, text: Seq<u8>) -> Line
    ensures { result ≡ spec.with_text line.now text }
{
    Line {
        first: line.first,
        text,
        joins: Seq::new(alloc),
    }
}

/// Returns the last command of a rule, with what stands before it.
pub(crate) fn last_spec(entry: &EntryBody) -> Option<&CommandSpec>
    ensures { option_copied result ≡ spec.last_spec entry.now }
{
    match entry {
        EntryBody::Rule { sections, .. } => match sections.as_slice().last() {
            Some(section) => section.commands.as_slice().last(),
            None => None,
        },
        _ => None,
    }
}

// Whether the last command of a rule has neither a tag nor `!` before it, and begins at an offset.
fn is_bare_at(at: usize, entry: &EntryBody) -> bool
    ensures { result ≡ spec.is_bare_at at (spec.last_spec entry.now) }
{
    match last_spec(entry) {
        Some(spec) => {
            spec.tags.len() == 0
                && spec.command.bangs == 0
                && spec.command.token.start as usize == at
        }
        None => false,
    }
}

// Returns the last member of the list of commands that ends a line, or to which a Defaults line is bound.
fn last_command(entry: &EntryBody) -> Option<&Member>
    ensures { option_copied result ≡ spec.last_command entry.now }
{
    match entry {
        EntryBody::Rule { .. } => match last_spec(entry) {
            Some(spec) => Some(&spec.command),
            None => None,
        },
        EntryBody::Aliases { definitions, .. } => match definitions.as_slice().last() {
            Some(definition) => definition.members.as_slice().last(),
            None => None,
        },
        EntryBody::Defaults {
            binding: Some(Binding::Commands(members)),
            ..
        } => members.as_slice().last(),
        _ => None,
    }
}

// Whether that member begins at an offset.
fn begins_at(at: usize, entry: &EntryBody) -> bool
    ensures { result ≡ spec.begins_at at (spec.last_command entry.now) }
{
    match last_command(entry) {
        Some(member) => member.token.start as usize == at,
        None => false,
    }
}

// Whether that member has no `!` before it, and begins at an offset.
fn is_first_at(at: usize, entry: &EntryBody) -> bool
    ensures { result ≡ spec.is_first_at at (spec.last_command entry.now) }
{
    match last_command(entry) {
        Some(member) => member.bangs == 0 && member.token.start as usize == at,
        None => false,
    }
}

// Returns the line up to an offset.
fn line_before(alloc: Global, line: &Line, at: usize) -> Result<Line, AllocError>
    requires { at ≤ length line.now.text }
    ensures front { IfOk result (λ front. front
        ≡ spec.with_text line.now (take at line.now.text)) }
{
    let text = Seq::from_slice(alloc, &line.text.as_slice()[..at])?;
    Ok(with_text(alloc, line, text))
}

/// Returns the line up to an offset, with this there.
pub(crate) fn line_with(
    alloc: Global,
    line: &Line,
    at: usize,
    put: &[u8],
) -> Result<Line, AllocError>
    requires { at ≤ length line.now.text }
    ensures front { IfOk result (λ front. front ≡ spec.line_with line.now at put.now) }
    ensures short { IfOk result (λ front. length front.text ≤ at + length put.now) }
{
    let mut text = Seq::from_slice(alloc, &line.text.as_slice()[..at])?;
    text.extend_from_slice(put)?;
    Ok(with_text(alloc, line, text))
}

// Returns the line up to an offset, with a path there.
fn line_with_path(alloc: Global, line: &Line, at: usize) -> Result<Line, AllocError>
    requires { at ≤ length line.now.text }
    ensures front { IfOk result (λ front. front
        ≡ spec.with_text line.now (spec.with_path line.now.text at)) }
    ensures short { IfOk result (λ front. length front.text ≤ at + 12) }
{
    let mut text = Seq::from_slice(alloc, &line.text.as_slice()[..at])?;
    text.extend_from_slice(NO_PATH)?;
    if begins_defaults(line.text.as_slice()) {
        text.extend_from_slice(b" x")?;
    }
    Ok(with_text(alloc, line, text))
}

// Whether the list of commands may go on or end at an offset, after a command without arguments.
fn may_follow(text: &[u8], at: usize) -> bool
    requires { at ≤ length text.now }
    ensures { result ≡ spec.may_follow text.now at }
{
    if begins_defaults(text) {
        return is_blank(peek(text, at)) || peek(text, at) == b',';
    }
    let next = skip(text, at);
    text.len() <= next
        || peek(text, next) == b','
        || peek(text, next) == b':'
        || peek(text, next) == b'#'
}

// Whether `list` is spelled at an offset, and no argument follows it.
#[tactic(auto, unfolding(crate::specs::Places::spells_list))]
fn spells_list(text: &[u8], at: usize) -> bool
    requires { at ≤ length text.now }
    ensures list { result ≡ spec.spells_list text.now at }
    ensures within { IsTrue result → at + 4 ≤ length text.now }
{
    from(text, at).starts_with(b"list") && may_follow(text, at + 4)
}

// Whether a line by itself is a rule whose last command has neither a tag nor `!` before it, and begins at an offset.
// Returns `AllocError` if allocation fails.
fn reads_bare(alloc: Global, line: &Line, at: usize) -> Result<bool, AllocError>
    requires { length line.now.text ≤ TEXT_LIMIT }
    ensures yes { IfOk result (λ found. IsTrue found → (entry : AnEntry)
        × spec.IsEntryIn line.now entry × (spec.is_bare_at at (spec.last_spec entry) ≡ true)) }
    ensures only { IfOk result (λ found. (entry : AnEntry) → spec.IsEntryIn line.now entry
        → spec.is_bare_at at (spec.last_spec entry) ≡ true → IsTrue found) }
{
    match entry_in(alloc, line)? {
        Some(entry) => Ok(is_bare_at(at, &entry)),
        None => Ok(false),
    }
}

// Whether a line by itself ends in a list of commands, or is bound to one, whose last one begins at an offset. Returns
// `AllocError` if allocation fails.
fn reads_command(alloc: Global, line: &Line, at: usize) -> Result<bool, AllocError>
    requires { length line.now.text ≤ TEXT_LIMIT }
    ensures yes { IfOk result (λ found. IsTrue found → (entry : AnEntry)
        × spec.IsEntryIn line.now entry × (spec.begins_at at (spec.last_command entry) ≡ true)) }
    ensures only { IfOk result (λ found. (entry : AnEntry) → spec.IsEntryIn line.now entry
        → spec.begins_at at (spec.last_command entry) ≡ true → IsTrue found) }
{
    match entry_in(alloc, line)? {
        Some(entry) => Ok(begins_at(at, &entry)),
        None => Ok(false),
    }
}

// The same of a line whose last command has no `!` before it.
fn reads_first(alloc: Global, line: &Line, at: usize) -> Result<bool, AllocError>
    requires { length line.now.text ≤ TEXT_LIMIT }
    ensures yes { IfOk result (λ found. IsTrue found → (entry : AnEntry)
        × spec.IsEntryIn line.now entry × (spec.is_first_at at (spec.last_command entry) ≡ true)) }
    ensures only { IfOk result (λ found. (entry : AnEntry) → spec.IsEntryIn line.now entry
        → spec.is_first_at at (spec.last_command entry) ≡ true → IsTrue found) }
{
    match entry_in(alloc, line)? {
        Some(entry) => Ok(is_first_at(at, &entry)),
        None => Ok(false),
    }
}

/// Whether an option stands at an offset. Returns `AllocError` if allocation fails.
pub(crate) fn option_stands(
    alloc: Global,
    noted: bool,
    line: &Line,
    at: usize,
) -> Result<bool, AllocError>
    requires within { at ≤ length line.now.text }
    requires short { length line.now.text ≤ TEXT_LIMIT }
    ensures yes { IfOk result (λ found. IsTrue found → spec.StandsOption noted line.now at) }
    ensures only { IfOk result (λ found. spec.StandsOption noted line.now at → IsTrue found) }
{
    let text = line.text.as_slice();
    if !spells_option(noted, text, at) {
        return Ok(false);
    }
    let front = line_before(alloc, line, name_end(text, at))?;
    reads_bare(alloc, &front, at)
}

/// Whether `list` stands at an offset as a command. Returns `AllocError` if allocation fails.
pub(crate) fn list_stands(alloc: Global, line: &Line, at: usize) -> Result<bool, AllocError>
    requires within { at ≤ length line.now.text }
    requires short { length line.now.text + 16 ≤ TEXT_LIMIT }
    ensures yes { IfOk result (λ found. IsTrue found → spec.StandsList line.now at) }
    ensures only { IfOk result (λ found. spec.StandsList line.now at → IsTrue found) }
{
    if !spells_list(line.text.as_slice(), at) {
        return Ok(false);
    }
    let front = line_with_path(alloc, line, at)?;
    reads_command(alloc, &front, at)
}

/// Whether a digest stands at an offset. Returns `AllocError` if allocation fails.
pub(crate) fn digest_stands(alloc: Global, line: &Line, at: usize) -> Result<bool, AllocError>
    requires within { at ≤ length line.now.text }
    requires short { length line.now.text + 16 ≤ TEXT_LIMIT }
    ensures yes { IfOk result (λ found. IsTrue found → spec.StandsDigest line.now at) }
    ensures only { IfOk result (λ found. spec.StandsDigest line.now at → IsTrue found) }
    ensures long { IfOk result (λ found. IsTrue found → at + 7 ≤ length line.now.text) }
{
    if !spells_digest(line.text.as_slice(), at) {
        return Ok(false);
    }
    let front = line_with_path(alloc, line, at)?;
    reads_first(alloc, &front, at)
}

// Whether a regular expression is spelled at an offset, and the list of commands goes on or ends behind it.
#[tactic(auto, unfolding(crate::specs::Places::spells_expression))]
fn spells_expression(text: &[u8], at: usize) -> bool
    requires { at ≤ length text.now }
    ensures { result ≡ spec.spells_expression text.now at }
{
    holds_expression(text, at)
        && may_follow(text, dollar_of(text, at) + 1)
        && !begins_defaults(text)
}

/// Whether a regular expression stands at an offset. Returns `AllocError` if allocation fails.
pub(crate) fn expression_stands(alloc: Global, line: &Line, at: usize) -> Result<bool, AllocError>
    requires within { at ≤ length line.now.text }
    requires short { length line.now.text + 16 ≤ TEXT_LIMIT }
    ensures yes { IfOk result (λ found. IsTrue found → spec.StandsExpression line.now at) }
    ensures only { IfOk result (λ found. spec.StandsExpression line.now at → IsTrue found) }
{
    if !spells_expression(line.text.as_slice(), at) {
        return Ok(false);
    }
    let front = line_with_path(alloc, line, at)?;
    reads_first(alloc, &front, at)
}
