//! One line of a policy.
ghost use Rattle.std.specs.Prelude.{◌≡◌, ◌+◌, ◌^◌, ◌<◌, ◌∷◌, length, Some, slice_get, IfOk, IfErr, Ok};
ghost use Rattle.sudo_grammar.specs.Words.{bytes_of};
ghost use Rattle.sudo_grammar.specs.Members.{is_bare};
ghost use Rattle.sudo_text.specs.declared.token.Token.{Token};
ghost use Rattle.sudo_text.specs.declared.token.TokenKind.TheVariants as tokens;
ghost use Rattle.sudo_grammar.specs.Openings as grammar;
ghost use Rattle.sudo_grammar.specs.Faults as faults;
ghost use Rattle.sudo_grammar.specs.Body.States.{Start};
ghost use Rattle.sudo_grammar.specs.Body.Reading.{reading};
ghost use Rattle.sudo_grammar.specs.Faults.{WritesWithin};
ghost use Rattle.sudo_grammar.specs.declared.policy.EntryBody.{EntryBody};
ghost use Rattle.sudo_parser.specs.Body.Stops.{GivesEntry};
ghost use Rattle.sudo_parser.specs.Body.Openings.{opening_view, IsInclude};
ghost use Rattle.sudo_parser.specs.Body.Limits.{room_of};
ghost use Rattle.sudo_parser.specs.Body.Faults.{HasGrammarFault};
ghost use Rattle.sudo_parser.specs.Body.Unread.{tokens_left};

use crate::aliases::aliases;
use crate::defaults::defaults;
use crate::room::Room;
use crate::rules::rule;
use crate::stops::{ParserStop, wants};
use crate::tokens::first_token;
use crate::unread::Unread;
use crate::words::{is_unescaped, spells};
use std::alloc::Global;
use sudo_grammar::{EntryBody, Expected, Kind, Refusal, Unsupported};
use sudo_text::{Ch, Seq, Token, TokenKind};

// The kind of line that a first token opens, if it is no include directive.
#[derive(Clone, Copy)]
enum Opening {
    Aliases(Kind),
    Defaults,
    Rule,
}

// Returns the kind of line that a word of unescaped characters opens.
fn word_opening(chars: &[Ch]) -> Opening
    ensures { opening_view result ≡ grammar.plain_opening (Some (bytes_of chars.now)) }
{
    if spells(chars, b"User_Alias") {
        Opening::Aliases(Kind::User)
    } else if spells(chars, b"Runas_Alias") {
        Opening::Aliases(Kind::Runas)
    } else if spells(chars, b"Host_Alias") {
        Opening::Aliases(Kind::Host)
    } else if spells(chars, b"Cmnd_Alias") || spells(chars, b"Cmd_Alias") {
        Opening::Aliases(Kind::Cmnd)
    } else if spells(chars, b"Defaults") {
        Opening::Defaults
    } else {
        Opening::Rule
    }
}

// Returns the kind of line that a token opens.
fn first_opening(token: &TokenKind) -> Opening
    ensures { (IsInclude token.now → ⊥) → opening_view result ≡ grammar.opening_of token.now }
{
    match token {
        TokenKind::Word { quoted, chars } if !*quoted && is_unescaped(chars) => word_opening(chars),
        _ => Opening::Rule,
    }
}

fn is_byte(c: &Ch, byte: u8) -> bool
    ensures { result ≡ is_bare byte (Some c.now) }
{
    !c.escaped && c.byte == byte
}

fn begins_with(chars: &[Ch], byte: u8) -> bool
    ensures { result ≡ is_bare byte (slice_get chars.now 0) }
{
    match chars {
        [first, ..] => is_byte(first, byte),
        [] => false,
    }
}

// Whether a path contains an unescaped `%h`.
fn has_host_escape(path: &[Ch]) -> bool
    ensures { result ≡ grammar.has_host_escape path.now }
{
    let mut rest = path;
    'chars: loop {
        match rest {
            [] => return false,
            [first, after @ ..] => {
                if is_byte(first, b'%') && begins_with(after, b'h') {
                    return true;
                }
                rest = after;
            }
        }
    }
}

// Reads an include line with `left` tokens from its directive on, of which `rest` are those after it.
fn include(
    alloc: Global,
    folder: bool,
    hash: bool,
    path: &[Ch],
    left: usize,
    rest: &[Token],
) -> Result<EntryBody, ParserStop>
    requires { left ≡ length rest.now + 1 }
    ensures { (room : faults.Room) (t : Token) → t.kind ≡ tokens.Include folder hash path.now
        → GivesEntry result (reading room Start (t ∷ rest.now)) }
{
    if path.is_empty() {
        return Err(wants(Expected::Path, left));
    }
    if has_host_escape(path) {
        return Err(ParserStop::At {
            refusal: Refusal::Unsupported(Unsupported::HostEscape),
            left,
        });
    }
    if !rest.is_empty() {
        return Err(wants(Expected::EndOfLine, rest.len()));
    }
    let path = Seq::from_slice(alloc, path)?;
    Ok(EntryBody::Include { folder, hash, path })
}

// Reads a line's tokens as an entry, or stops at the first of them that cannot continue the line.
fn read(alloc: Global, room: &Room, unread: &mut Unread) -> Result<EntryBody, ParserStop>
    requires { length (tokens_left unread.old) < 2 ^ 32 }
    ensures { GivesEntry result (reading (room_of room.now) Start (tokens_left unread.old)) }
{
    let (first, rest) = match first_token(unread.as_slice()) {
        Some(found) => found,
        None => return Err(wants(Expected::Member, 0)),
    };
    match &first.kind {
        TokenKind::Include { folder, hash, path } => {
            include(alloc, *folder, *hash, path, unread.len(), rest)
        }
        kind => match first_opening(kind) {
            Opening::Aliases(kind) => {
                unread.skip(1);
                aliases(alloc, kind, room.of_kind(kind), unread)
            }
            Opening::Defaults => {
                unread.skip(1);
                defaults(alloc, unread)
            }
            Opening::Rule => rule(alloc, unread),
        },
    }
}

/// Returns the entry of which the tokens are a written form, within the room for definitions; otherwise the line's
/// grammar fault.
pub(crate) fn entry(
    alloc: Global,
    room: &Room,
    unread: &mut Unread,
) -> Result<EntryBody, ParserStop>
    requires { length (tokens_left unread.old) < 2 ^ 32 }
    ensures written { IfOk result
        (λ e. WritesWithin (room_of room.now) e (tokens_left unread.old)) }
    ensures only { (e : EntryBody) → WritesWithin (room_of room.now) e (tokens_left unread.old)
        → GivesEntry result (Ok e) }
    ensures fault { IfErr result (HasGrammarFault (room_of room.now) (tokens_left unread.old)) }
{
    read(alloc, room, unread)
}
