//! The parsing of a file's lines into its entries.
ghost use Rattle.std.specs.Prelude.{◌≡◌, ◌≢◌, ◌≤◌, ◌<◌, ◌-◌, ◌++◌, List, Option, [], length, drop, IfOk, IfErr, OnOk};
ghost use Rattle.std.specs.Prelude.{MatchResult, All, true};
ghost use Rattle.sudo_text.specs.Tokens.{spells};
ghost use Rattle.sudo_grammar.specs.declared.policy.Entry.{Entry as AnEntry};
ghost use Rattle.sudo_grammar.specs.declared.policy.EntryBody.{EntryBody as ABody};
ghost use Rattle.sudo_parser.specs.Body.Limits.{room_of};
ghost use Rattle.sudo_parser.specs.Parsed as spec;
ghost use Rattle.sudo_parser.specs.Body.Parsed.{text_fault as parsed_text_fault};
ghost use Rattle.sudo_parser.specs.Parsed.{room_after, IsEntryOf, entry_of, AreEntries, IsLineFault, IsFirstFault};
ghost use Rattle.sudo_parser.specs.Parsed.{over_limit};
ghost use Rattle.sudo_parser.specs.Body.Parsed.{GivesOr, Adds};

use crate::line::entry;
use crate::room::Room;
use crate::stops::ParserStop;
use crate::unread::Unread;
use std::alloc::Global;
use sudo_grammar::{Entry, EntryBody, ParseFault, Refusal};
use sudo_text::{Line, Place, Seq, TEXT_LIMIT, TextFault, Token, tokens};

// Returns the fault of a text as a fault of a policy.
fn text_fault(fault: TextFault) -> ParseFault
    ensures { result ≡ parsed_text_fault fault }
{
    match fault {
        TextFault::Memory => ParseFault::Memory,
        fault => ParseFault::Text(fault),
    }
}

// Returns the column of the token from which on `left` tokens are left, or of the line's end.
fn column(line: &Line, tokens: &[Token], left: usize) -> u32
    requires left { left ≤ length tokens.now }
    requires short { length line.now.text ≤ TEXT_LIMIT }
    requires inside { All (λ t. t.start < length line.now.text) tokens.now }
    ensures { result ≡ spec.column line.now (drop (length tokens.now - left) tokens.now) }
{
    match &tokens[tokens.len() - left..] {
        [first, ..] => first.start + 1,
        [] => line.text.len() as u32 + 1,
    }
}

// Returns the fault of a line that is refused with `left` tokens left.
fn refused(line: &Line, tokens: &[Token], refusal: Refusal, left: usize) -> ParseFault
    requires left { left ≤ length tokens.now }
    requires short { length line.now.text ≤ TEXT_LIMIT }
    requires inside { All (λ t. t.start < length line.now.text) tokens.now }
    ensures { result ≡ spec.fault_at line.now.first
        (spec.column line.now (drop (length tokens.now - left) tokens.now)) refusal }
{
    let (place, col) = (line.first, column(line, tokens, left));
    match refusal {
        Refusal::Syntax(expected) => ParseFault::Syntax {
            place,
            col,
            expected,
        },
        Refusal::Unsupported(what) => ParseFault::Unsupported { place, what },
        Refusal::NotCommand => ParseFault::NotCommand { place, col },
        Refusal::BadNumber => ParseFault::BadNumber { place, col },
        Refusal::TooMany => ParseFault::TooMany { place },
    }
}

// Returns the fault of a line that is refused with `left` tokens left. Splits the line again, since its tokens are taken.
fn refused_line(alloc: Global, line: &Line, refusal: Refusal, left: usize) -> ParseFault
    requires short { length line.now.text ≤ TEXT_LIMIT }
    requires left { (ts : List Token) → spells line.now ts ≡ true → left ≤ length ts }
    ensures { result ≢ ParseFault.Memory → (ts : List Token) → spells line.now ts ≡ true
        → result ≡ spec.fault_at line.now.first
        (spec.column line.now (drop (length ts - left) ts)) refusal }
{
    match tokens(alloc, line) {
        Ok(tokens) => refused(line, &tokens, refusal, left),
        Err(fault) => text_fault(fault),
    }
}

// Reads a line: returns no entry if it has no tokens, and otherwise its entry. `unread` may hold tokens of the line before.
fn line_entry(
    alloc: Global,
    room: &Room,
    unread: &mut Unread,
    line: &Line,
) -> Result<Option<EntryBody>, ParseFault>
    requires { length line.now.text ≤ TEXT_LIMIT }
    ensures says { IfOk result (λ body. IsEntryOf (room_of room.now) line.now body) }
    ensures only { (body : Option ABody) → IsEntryOf (room_of room.now) line.now body
        → GivesOr body result }
    ensures fault { IfErr result (λ fault. fault ≢ ParseFault.Memory
        → IsLineFault (room_of room.now) line.now fault) }
{
    match unread.read_line(alloc, line) {
        Ok(()) => {}
        Err(fault) => return Err(text_fault(fault)),
    }
    if unread.len() == 0 {
        return Ok(None);
    }
    match entry(alloc, room, unread) {
        Ok(body) => Ok(Some(body)),
        Err(ParserStop::At { refusal, left }) => Err(refused_line(alloc, line, refusal, left)),
        Err(ParserStop::Memory) => Err(ParseFault::Memory),
    }
}

// Appends a line's entry, if any, to the entries of the lines before. `unread` may hold tokens of the line before.
fn add_line(
    alloc: Global,
    room: &mut Room,
    unread: &mut Unread,
    entries: &mut Seq<Entry>,
    line: &Line,
) -> Result<(), ParseFault>
    requires short { length line.now.text ≤ TEXT_LIMIT }
    requires room { room_of room.old ≡ room_after entries.old }
    ensures room { OnOk result (room_of room.new ≡ room_after entries.new) }
    ensures added { OnOk result (Adds entries.old line.now entries.new) }
    ensures only { (body : Option ABody) → IsEntryOf (room_after entries.old) line.now body
        → MatchResult result
        (λ _. entries.new ≡ entries.old ++ entry_of line.now body)
        (λ fault. fault ≡ ParseFault.Memory) }
    ensures fault { IfErr result (λ fault. fault ≢ ParseFault.Memory
        → IsLineFault (room_after entries.old) line.now fault) }
{
    match line_entry(alloc, room, unread, line) {
        Ok(None) => Ok(()),
        Ok(Some(body)) => {
            *room = room.after(&body);
            entries.push(Entry {
                place: line.first,
                body,
            })?;
            Ok(())
        }
        Err(fault) => Err(fault),
    }
}

/// Returns the entries of a file's lines, in order; a line without tokens has none.
///
/// The first faulty line decides, and in it the leftmost fault. Returns `Text` with the fault of the line's text if it
/// has one; otherwise `Syntax`, `NotCommand` and `BadNumber` with the column of the first token that cannot continue
/// the line, or of the line's end, `Unsupported` for a form of sudoers(5) that is recognized and refused, and `TooMany`
/// for the definition past 4,096 of its kind. Returns `Memory` only if allocation fails.
pub fn parse(alloc: Global, lines: &[Line]) -> Result<Vec<Entry>, ParseFault>
    requires { All (λ line. length line.text ≤ TEXT_LIMIT) lines.now }
    ensures entries { IfOk result (λ entries. AreEntries lines.now entries.items) }
    // Lines that have entries are read, or allocation fails.
    ensures only { (entries : List AnEntry) → AreEntries lines.now entries → MatchResult result
        (λ read. read.items ≡ entries)
        (λ fault. fault ≡ ParseFault.Memory) }
    ensures fault { IfErr result (λ fault. fault ≢ ParseFault.Memory
        → IsFirstFault lines.now fault) }
{
    match entries_of(alloc, lines) {
        Ok(entries) => Ok(entries.into_vec()),
        Err(fault) => Err(fault),
    }
}

// Returns the entries of lines, or the first fault.
fn entries_of(alloc: Global, lines: &[Line]) -> Result<Seq<Entry>, ParseFault>
    requires { All (λ line. length line.text ≤ TEXT_LIMIT) lines.now }
    ensures entries { IfOk result (λ entries. AreEntries lines.now entries) }
    ensures only { (entries : List AnEntry) → AreEntries lines.now entries
        → GivesOr entries result }
    ensures fault { IfErr result (λ fault. fault ≢ ParseFault.Memory
        → IsFirstFault lines.now fault) }
{
    let mut room = Room::whole();
    let mut unread = Unread::empty(alloc);
    let mut entries = Seq::new(alloc);
    let mut left = lines;
    while let Some((line, rest)) = left.split_first() {
        match add_line(alloc, &mut room, &mut unread, &mut entries, line) {
            Ok(()) => {}
            Err(fault) => return Err(fault),
        }
        left = rest;
    }
    Ok(entries)
}

/// Returns the entries of a file's lines as `parse` does, with the same faults, and frees each line once it is read.
pub fn parse_lines(alloc: Global, lines: Vec<Line>) -> Result<Vec<Entry>, ParseFault>
    requires { All (λ line. length line.text ≤ TEXT_LIMIT) lines.items }
    ensures entries { IfOk result (λ entries. AreEntries lines.items entries.items) }
    // Lines that have entries are read, or allocation fails.
    ensures only { (entries : List AnEntry) → AreEntries lines.items entries → MatchResult result
        (λ read. read.items ≡ entries)
        (λ fault. fault ≡ ParseFault.Memory) }
    ensures fault { IfErr result (λ fault. fault ≢ ParseFault.Memory
        → IsFirstFault lines.items fault) }
{
    let mut room = Room::whole();
    let mut unread = Unread::empty(alloc);
    let mut entries = Seq::new(alloc);
    for line in lines {
        add_line(alloc, &mut room, &mut unread, &mut entries, &line)?;
    }
    Ok(entries.into_vec())
}

/// Returns the place of the first entry with a definition of an alias past 4,096 of its kind, in all entries together.
pub fn first_over_limit(entries: &[Entry]) -> Option<Place>
    ensures { result ≡ over_limit entries.now }
{
    let mut room = Room::whole();
    let mut left = entries;
    while let Some((entry, rest)) = left.split_first() {
        if !room.fits(&entry.body) {
            return Some(entry.place);
        }
        room = room.after(&entry.body);
        left = rest;
    }
    None
}
