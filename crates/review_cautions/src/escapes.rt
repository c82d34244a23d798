//! Escapes that sudo reads otherwise.
ghost use Rattle.std.specs.Prelude.{◌≡◌, ◌==◌};
ghost use Rattle.std.specs.List.{list_any};
ghost use Rattle.review_cautions.specs.Escapes as spec;

use crate::bytes::{is_blank, is_digit};
use sudo_policy::{Atom, Member};
use sudo_text::{Ch, Seq, TokenKind};

// Whether an escape yields a character, and sudo knows no such escape in a path.
fn is_path_escape(ch: Ch) -> bool
    ensures { result ≡ spec.is_path_escape ch }
{
    let byte = ch.byte;
    ch.escaped && !(byte == b',' || byte == b':' || byte == b'=' || byte == b'#' || is_blank(byte))
}

// Whether a path has such a character.
fn has_path_escape(path: &[Ch]) -> bool
    ensures { result ≡ list_any spec.is_path_escape path.now }
{
    path.iter().any(|ch| is_path_escape(*ch))
}

// Whether arguments may escape a byte, for sudo and here alike.
fn is_argument_byte(byte: u8) -> bool
    ensures { result ≡ spec.is_argument_byte byte }
{
    byte == b'*'
        || byte == b'?'
        || byte == b'['
        || byte == b']'
        || byte == b'!'
        || byte == b'^'
        || byte == b':'
        || byte == b','
        || byte == b'='
        || byte == b'#'
        || is_blank(byte)
}

// Whether an escape yields a character, and sudo reads it otherwise in arguments.
fn is_argument_escape(ch: Ch) -> bool
    ensures { result ≡ spec.is_argument_escape ch }
{
    ch.escaped && !is_argument_byte(ch.byte)
}

// Whether characters of arguments have such a character.
fn has_argument_escape(chars: &[Ch]) -> bool
    ensures { result ≡ list_any spec.is_argument_escape chars.now }
{
    chars.iter().any(|ch| is_argument_escape(*ch))
}

// Whether arguments, if any are given, have such a character.
fn arguments_have_escape(arguments: &Option<Seq<Ch>>) -> bool
    ensures { result ≡ spec.arguments_have_escape arguments.now }
{
    match arguments {
        Some(arguments) => has_argument_escape(arguments.as_slice()),
        None => false,
    }
}

// Whether the first character is this byte.
fn begins_with(byte: u8, chars: &[Ch]) -> bool
    ensures { result ≡ spec.begins_with byte chars.now }
{
    match chars {
        [] => false,
        [first, ..] => first.byte == byte,
    }
}

/// Whether a path is longer than `sudoedit`, and begins with no slash.
pub(crate) fn is_long_sudoedit(path: &[Ch]) -> bool
    ensures { result ≡ spec.is_long_sudoedit path.now }
{
    path.len() > 8 && !begins_with(b'/', path)
}

// Whether a character is `*`, `?` or a backslash that an escape yields.
fn is_escaped_mark(ch: Ch) -> bool
    ensures { result ≡ spec.is_escaped_mark ch }
{
    ch.escaped && (ch.byte == b'*' || ch.byte == b'?' || ch.byte == b'\\')
}

// Whether a host has such a character.
fn has_escaped_mark(chars: &[Ch]) -> bool
    ensures { result ≡ list_any spec.is_escaped_mark chars.now }
{
    chars.iter().any(|ch| is_escaped_mark(*ch))
}

// Whether a character is a mark of a bracket that an escape yields.
fn is_escaped_bracket_mark(ch: Ch) -> bool
    ensures { result ≡ spec.is_escaped_bracket_mark ch }
{
    let byte = ch.byte;
    ch.escaped && (byte == b'[' || byte == b']' || byte == b'-' || byte == b'^')
}

// Whether a host has such a mark.
fn has_escaped_bracket_mark(chars: &[Ch]) -> bool
    ensures { result ≡ list_any spec.is_escaped_bracket_mark chars.now }
{
    chars.iter().any(|ch| is_escaped_bracket_mark(*ch))
}

// Whether a host has a byte, escaped or not.
fn has_byte(byte: u8, chars: &[Ch]) -> bool
    ensures { result ≡ list_any (λ c. c.byte == byte) chars.now }
{
    chars.iter().any(|ch| ch.byte == byte)
}

// Whether a host may have a bracket for sudo.
fn may_have_bracket(chars: &[Ch]) -> bool
    ensures { result ≡ spec.may_have_bracket chars.now }
{
    has_byte(b'[', chars) && has_byte(b']', chars)
}

// Whether a host has an escape that sudo takes for a mark of its pattern, or an escaped tab.
fn host_has_escape(chars: &[Ch]) -> bool
    ensures { result ≡ spec.host_has_escape chars.now }
{
    has_escaped_mark(chars)
        || (has_escaped_bracket_mark(chars) && may_have_bracket(chars))
        || has_escaped_tab(chars)
}

// Whether characters begin as a number may for sudo.
fn begins_number(chars: &[Ch]) -> bool
    ensures { result ≡ spec.begins_number chars.now }
{
    match chars {
        [] => false,
        [first, ..] => {
            let byte = first.byte;
            is_digit(byte) || byte == b'-' || byte == b'+' || byte <= b' '
        }
    }
}

// Whether a `#` that an escape yields is the first character, and a number may follow.
fn begins_as_id(chars: &[Ch]) -> bool
    ensures { result ≡ spec.begins_as_id chars.now }
{
    match chars {
        [] => false,
        [first, number @ ..] => first.escaped && first.byte == b'#' && begins_number(number),
    }
}

// Whether characters have an escaped tab.
fn has_escaped_tab(chars: &[Ch]) -> bool
    ensures { result ≡ list_any spec.is_escaped_tab chars.now }
{
    chars.iter().any(|ch| ch.escaped && ch.byte == b'\t')
}

// Whether an escape yields one of the characters.
fn has_escaped(chars: &[Ch]) -> bool
    ensures { result ≡ list_any spec.is_escaped chars.now }
{
    chars.iter().any(|ch| ch.escaped)
}

// Whether a name begins with an escaped `#` that a number may follow, or has an escaped tab.
fn name_has_escape(chars: &[Ch]) -> bool
    ensures { result ≡ spec.name_has_escape chars.now }
{
    begins_as_id(chars) || has_escaped_tab(chars)
}

// Whether the digits of a group ID have an escape, and its `#` none.
fn group_id_has_escape(chars: &[Ch]) -> bool
    ensures { result ≡ spec.group_id_has_escape chars.now }
{
    match chars {
        [_, sign, digits @ ..] => !sign.escaped && has_escaped(digits),
        _ => false,
    }
}

// Returns the characters of an unquoted word, and none of another token.
fn unquoted(token: &TokenKind) -> &[Ch]
    ensures { result.now ≡ spec.unquoted token.now }
{
    match token {
        TokenKind::Word { quoted, chars } if !*quoted => chars.as_slice(),
        _ => &[],
    }
}

/// Whether a member has an escape that sudo reads otherwise.
pub(crate) fn has_other_escape(member: &Member) -> bool
    ensures { result ≡ spec.has_other_escape member.now }
{
    let word = unquoted(&member.token.kind);
    match &member.atom {
        Atom::Name(_) => name_has_escape(word),
        Atom::Group(_) => has_escaped_tab(word),
        Atom::Uid(_) => has_escaped(word),
        Atom::Gid(_) => group_id_has_escape(word),
        Atom::Host { chars, quoted } => !*quoted && host_has_escape(chars.as_slice()),
        Atom::Command { path, args } => {
            let path = path.as_slice();
            has_path_escape(path) || is_long_sudoedit(path) || arguments_have_escape(args)
        }
        _ => false,
    }
}

// Whether a character is a mark of patterns, escaped or not.
fn is_mark(ch: Ch) -> bool
    ensures { result ≡ spec.is_mark ch }
{
    ch.byte == b'*' || ch.byte == b'?' || ch.byte == b'[' || ch.byte == b'\\'
}

// Whether characters have such a mark.
fn has_mark(chars: &[Ch]) -> bool
    ensures { result ≡ list_any spec.is_mark chars.now }
{
    chars.iter().any(|ch| is_mark(*ch))
}

/// Whether an atom is a quoted host with a mark of patterns.
pub(crate) fn has_quoted_mark(atom: &Atom) -> bool
    ensures { result ≡ spec.has_quoted_mark atom.now }
{
    match atom {
        Atom::Host { chars, quoted } => *quoted && has_mark(chars.as_slice()),
        _ => false,
    }
}

// Whether an escape yields a character, other than a double quote.
fn is_escaped_byte(ch: Ch) -> bool
    ensures { result ≡ spec.is_escaped_byte ch }
{
    ch.escaped && ch.byte != b'"'
}

// Whether characters have such a character.
fn has_escaped_byte(chars: &[Ch]) -> bool
    ensures { result ≡ list_any spec.is_escaped_byte chars.now }
{
    chars.iter().any(|ch| is_escaped_byte(*ch))
}

/// Whether a token is a quoted word with an escape, other than that of a double quote.
pub(crate) fn has_quoted_escape(token: &TokenKind) -> bool
    ensures { result ≡ spec.has_quoted_escape token.now }
{
    match token {
        TokenKind::Word { quoted, chars } => *quoted && has_escaped_byte(chars.as_slice()),
        _ => false,
    }
}
