//! The meaning of words: names of aliases, tags, options and digests.
ghost use Rattle.std.specs.Prelude.{◌≡◌, ◌&&◌, IfOk, length};
ghost use Rattle.std.specs.Str.{bytes_eq};
ghost use Rattle.std.specs.List.{list_all};
ghost use Rattle.std.specs.Option.{option_map};
ghost use Rattle.sudo_grammar.specs.Words.{bytes_of, has_no_escape, plain_word, is_name, is_name_byte, begins_upper};
ghost use Rattle.sudo_grammar.specs.Words.{name_of, tag_of, tag_of_name, is_option_name, is_digest_name};
ghost use Rattle.sudo_grammar.specs.Tags.{tag_name};
ghost use Rattle.sudo_grammar.specs.Words as words;
ghost use Rattle.sudo_grammar.specs.Openings as openings;

use std::alloc::{AllocError, Global};
use sudo_grammar::{TAG_PAIRS, Tag};
use sudo_text::{Ch, Seq, TokenKind};

pub(crate) const ALL: &[u8] = b"ALL";

// Writes the bytes of characters over as many others.
fn fill_bytes(bytes: &mut [u8], chars: &[Ch])
    requires { length bytes.old ≡ length chars.now }
    ensures { bytes.new ≡ bytes_of chars.now }
{
    for index in 0..chars.len() {
        bytes[index] = chars[index].byte;
    }
}

/// Copies the bytes of characters.
pub(crate) fn bytes(alloc: Global, chars: &[Ch]) -> Result<Seq<u8>, AllocError>
    ensures { IfOk result (λ bytes. bytes ≡ bytes_of chars.now) }
{
    let mut bytes = Vec::with_capacity(alloc, chars.len())?;
    bytes.resize(chars.len(), 0)?;
    fill_bytes(bytes.as_mut_slice(), chars);
    Ok(Seq::from_vec(bytes))
}

/// Whether none of the characters is escaped.
pub(crate) fn is_unescaped(chars: &[Ch]) -> bool
    ensures { result ≡ has_no_escape chars.now }
{
    chars.iter().all(|c| !c.escaped)
}

/// Returns the characters of a token, if it is an unquoted word without escapes.
pub(crate) fn plain(token: &TokenKind) -> Option<&[Ch]>
    ensures { option_map (λ word. bytes_of word.now) result ≡ plain_word token.now }
{
    match token {
        TokenKind::Word { quoted, chars } if !*quoted && is_unescaped(chars) => Some(chars),
        _ => None,
    }
}

fn is_in_names(byte: u8) -> bool
    ensures { result ≡ is_name_byte byte }
{
    byte.is_ascii_uppercase() || byte.is_ascii_digit() || byte == b'_'
}

fn begins_with_upper(word: &[u8]) -> bool
    ensures { result ≡ begins_upper word.now }
{
    match word {
        [] => false,
        [first, ..] => first.is_ascii_uppercase(),
    }
}

fn has_name_bytes(word: &[u8]) -> bool
    ensures { result ≡ list_all is_name_byte word.now }
{
    word.iter().all(|b| is_in_names(*b))
}

/// Whether a word is the name of an alias: an upper-case letter, followed by upper-case letters, digits and
/// underscores, and not `ALL`.
pub(crate) fn is_alias_name(word: &[u8]) -> bool
    ensures { result ≡ is_name word.now }
{
    begins_with_upper(word) && has_name_bytes(word) && word != ALL
}

/// Whether the bytes of characters are `text`.
pub(crate) fn spells(chars: &[Ch], text: &[u8]) -> bool
    ensures { result ≡ bytes_eq (bytes_of chars.now) text.now }
{
    match (chars, text) {
        ([], []) => true,
        ([c, chars @ ..], [b, text @ ..]) => c.byte == *b && spells(chars, text),
        _ => false,
    }
}

fn spells_upper(chars: &[Ch]) -> bool
    ensures { result ≡ begins_upper (bytes_of chars.now) }
{
    match chars {
        [] => false,
        [first, ..] => first.byte.is_ascii_uppercase(),
    }
}

fn spells_name_bytes(chars: &[Ch]) -> bool
    ensures { result ≡ list_all (λ c. is_name_byte c.byte) chars.now }
{
    chars.iter().all(|c| is_in_names(c.byte))
}

/// Whether the bytes of characters are the name of an alias.
#[tactic(auto, using(crate::proofs::Names::name_bytes))]
pub(crate) fn spells_name(chars: &[Ch]) -> bool
    ensures { result ≡ is_name (bytes_of chars.now) }
{
    spells_upper(chars) && spells_name_bytes(chars) && !spells(chars, ALL)
}

/// Whether the characters spell `text` without escapes.
pub(crate) fn is_text(chars: &[Ch], text: &[u8]) -> bool
    ensures { result ≡ (has_no_escape chars.now && bytes_eq (bytes_of chars.now) text.now) }
{
    is_unescaped(chars) && spells(chars, text)
}

/// Returns the name of an alias that a token spells, if any.
pub(crate) fn name(alloc: Global, token: &TokenKind) -> Result<Option<Seq<u8>>, AllocError>
    ensures { IfOk result (λ name. name ≡ name_of token.now) }
{
    match plain(token) {
        Some(word) => {
            if spells_name(word) {
                Ok(Some(bytes(alloc, word)?))
            } else {
                Ok(None)
            }
        }
        None => Ok(None),
    }
}

/// Whether a name is that of a tag.
fn is_name_of(name: &[u8], tag: Tag) -> bool
    ensures { result ≡ bytes_eq name.now (tag_name tag) }
{
    if tag.on {
        return name == tag.pair.name();
    }
    match name {
        [first, second, rest @ ..] => *first == b'N' && *second == b'O' && rest == tag.pair.name(),
        _ => false,
    }
}

/// Returns the tag that a name spells, if any: among the pairs' own tags if `on`, else among their opposites.
fn tag_switched(name: &[u8], on: bool) -> Option<Tag>
    ensures { result ≡ words.tag_switched name.now on }
{
    TAG_PAIRS
        .iter()
        .map(|pair| Tag { pair: *pair, on })
        .find(|tag| is_name_of(name, *tag))
}

/// Returns the tag that a name spells, if any.
fn tag_named(name: &[u8]) -> Option<Tag>
    ensures { result ≡ tag_of_name name.now }
{
    tag_switched(name, true).or(tag_switched(name, false))
}

/// Returns the tag that a token spells, if any.
pub(crate) fn tag(alloc: Global, token: &TokenKind) -> Result<Option<Tag>, AllocError>
    ensures { IfOk result (λ tag. tag ≡ tag_of token.now) }
{
    match name(alloc, token)? {
        Some(name) => Ok(tag_named(&name)),
        None => Ok(None),
    }
}

fn is_option_text(chars: &[Ch]) -> bool
    ensures { result ≡ is_option_name (bytes_of chars.now) }
{
    spells(chars, b"ROLE")
        || spells(chars, b"TYPE")
        || spells(chars, b"APPARMOR_PROFILE")
        || spells(chars, b"CWD")
        || spells(chars, b"CHROOT")
        || spells(chars, b"TIMEOUT")
        || spells(chars, b"NOTBEFORE")
        || spells(chars, b"NOTAFTER")
        || spells(chars, b"PRIVS")
        || spells(chars, b"LIMITPRIVS")
}

/// Whether a token is the name of a command's option.
pub(crate) fn is_option(token: &TokenKind) -> bool
    ensures { result ≡ openings.word_passes is_option_name (plain_word token.now) }
{
    match token {
        TokenKind::Word { quoted, chars } => {
            !*quoted && is_unescaped(chars) && is_option_text(chars)
        }
        _ => false,
    }
}

fn is_digest_text(chars: &[Ch]) -> bool
    ensures { result ≡ is_digest_name (bytes_of chars.now) }
{
    spells(chars, b"sha224")
        || spells(chars, b"sha256")
        || spells(chars, b"sha384")
        || spells(chars, b"sha512")
}

/// Whether a token is the name of a command's digest.
pub(crate) fn is_digest(token: &TokenKind) -> bool
    ensures { result ≡ openings.word_passes is_digest_name (plain_word token.now) }
{
    match token {
        TokenKind::Word { quoted, chars } => {
            !*quoted && is_unescaped(chars) && is_digest_text(chars)
        }
        _ => false,
    }
}

/// Whether a token is a single percent sign, in double quotes or not.
pub(crate) fn is_percent(token: &TokenKind) -> bool
    ensures { result ≡ openings.is_percent token.now }
{
    match token {
        TokenKind::Word { chars, .. } => match chars.as_slice() {
            [c] => !c.escaped && c.byte == b'%',
            _ => false,
        },
        _ => false,
    }
}
