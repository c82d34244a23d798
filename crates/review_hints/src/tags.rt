//! Misspelled tags.
ghost use Rattle.std.specs.Prelude.{◌≡◌, ◌≤◌, IfOk, length, map};
ghost use Rattle.review_hints.specs.Tags as spec;

use crate::bytes::{
    before_end, first_byte, is_blank, last_byte, split_name, split_word, without_indent,
};
use crate::first_words::begins_with_keyword;
use crate::names::meant_hint;
use std::alloc::{AllocError, Global};
use sudo_grammar::Expected;
use sudo_text::Seq;

/// The tags.
const TAG_NAMES: [&[u8]; 16] = [
    b"EXEC",
    b"FOLLOW",
    b"INTERCEPT",
    b"LOG_INPUT",
    b"LOG_OUTPUT",
    b"MAIL",
    b"PASSWD",
    b"SETENV",
    b"NOEXEC",
    b"NOFOLLOW",
    b"NOINTERCEPT",
    b"NOLOG_INPUT",
    b"NOLOG_OUTPUT",
    b"NOMAIL",
    b"NOPASSWD",
    b"NOSETENV",
];

// Returns the tags.
#[tactic(auto, unfolding(crate::specs::Tags::tag_names))]
fn tag_names() -> &'static [&'static [u8]]
    ensures { map (λ n. n.now) result.now ≡ spec.tag_names }
{
    &TAG_NAMES
}

// Whether a tag may stand behind a text of a line.
fn lets_tag_follow(text: &[u8]) -> bool
    ensures { result ≡ spec.lets_tag_follow text.now }
{
    let byte = last_byte(text);
    text.is_empty()
        || is_blank(byte)
        || byte == b'='
        || byte == b','
        || byte == b')'
        || byte == b':'
}

// Returns the name that ends a text, if a tag may stand there, and nothing otherwise.
fn tag_at_end(text: &[u8]) -> &[u8]
    ensures { result.now ≡ spec.tag_at_end text.now }
{
    let (front, name) = split_name(text);
    if lets_tag_follow(front) { name } else { &[] }
}

// Returns the word in place of a tag before a syntax error, and nothing if there is none.
fn word_before(text: &[u8], expected: Expected) -> &[u8]
    ensures { result.now ≡ spec.word_before text.now expected }
{
    match expected {
        Expected::Equals => tag_at_end(before_end(before_end(text, b"ALL"), b":")),
        Expected::Member => tag_at_end(before_end(text, b":")),
        Expected::AliasName
        | Expected::Command
        | Expected::RightParen
        | Expected::Parameter
        | Expected::Value
        | Expected::Path
        | Expected::EndOfLine => &[],
    }
}

// Returns the word that begins a text, if a colon follows, and nothing otherwise.
fn word_behind(text: &[u8]) -> &[u8]
    ensures { result.now ≡ spec.word_behind text.now }
{
    let (word, rest) = split_word(text);
    if first_byte(without_indent(rest)) == b':' {
        word
    } else {
        &[]
    }
}

// Returns the word in place of a tag near an offset of a line, and nothing if there is none.
fn word_near(line: &[u8], at: usize, expected: Option<Expected>) -> &[u8]
    requires { at ≤ length line.now }
    ensures { result.now ≡ spec.word_near line.now at expected }
{
    match expected {
        Some(expected) => word_before(&line[..at], expected),
        None => word_behind(&line[at..]),
    }
}

/// Returns the hint at a misspelled tag near a fault, if any, given the first physical line of a rule, the physical line
/// of the fault, its offset there, and what is expected, if it is a syntax error.
pub(crate) fn tag_hint(
    alloc: Global,
    first: &[u8],
    line: &[u8],
    at: usize,
    expected: Option<Expected>,
) -> Result<Option<Seq<u8>>, AllocError>
    requires { at ≤ length line.now }
    ensures { IfOk result (λ hint. hint ≡ spec.tag_hint first.now line.now at expected) }
{
    if begins_with_keyword(first) {
        return Ok(None);
    }
    meant_hint(alloc, word_near(line, at, expected), tag_names())
}
