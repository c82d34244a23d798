//! The words that begin a line.
ghost use Rattle.std.specs.Prelude.{◌≡◌, IfOk, map, bytes_eq};
ghost use Rattle.std.specs.List.{list_any};
ghost use Rattle.review_hints.specs.FirstWords as spec;

use crate::bytes::{before_blank, first_byte, is_blank, split_word};
use crate::names::{is_one_of, meant_hint};
use std::alloc::{AllocError, Global};
use sudo_text::Seq;

/// The keywords that begin a line.
const KEYWORDS: [&[u8]; 6] = [
    b"Defaults",
    b"User_Alias",
    b"Runas_Alias",
    b"Host_Alias",
    b"Cmnd_Alias",
    b"Cmd_Alias",
];

/// The include directives.
const DIRECTIVES: [&[u8]; 2] = [b"@include", b"@includedir"];

// Returns the keywords that begin a line.
#[tactic(auto, unfolding(crate::specs::FirstWords::keywords))]
fn keywords() -> &'static [&'static [u8]]
    ensures { map (λ n. n.now) result.now ≡ spec.keywords }
{
    &KEYWORDS
}

// Returns the include directives.
#[tactic(auto, unfolding(crate::specs::FirstWords::directives))]
fn directives() -> &'static [&'static [u8]]
    ensures { map (λ n. n.now) result.now ≡ spec.directives }
{
    &DIRECTIVES
}

/// Whether a keyword begins a line, which then is no rule.
pub(crate) fn begins_with_keyword(line: &[u8]) -> bool
    ensures { result ≡ spec.begins_with_keyword line.now }
{
    let (word, _) = split_word(line);
    is_one_of(word, keywords())
}

// Whether the bytes behind a word let it be a keyword.
fn ends_keyword(rest: &[u8]) -> bool
    ensures { result ≡ spec.ends_keyword rest.now }
{
    let byte = first_byte(rest);
    rest.is_empty()
        || is_blank(byte)
        || byte == b'@'
        || byte == b':'
        || byte == b'!'
        || byte == b'>'
}

// Returns the hint at the keyword that the first word of a line may mean, if any.
fn keyword_hint(alloc: Global, line: &[u8]) -> Result<Option<Seq<u8>>, AllocError>
    ensures { IfOk result (λ hint. hint ≡ spec.keyword_hint line.now) }
{
    let (word, rest) = split_word(line);
    if ends_keyword(rest) {
        meant_hint(alloc, word, keywords())
    } else {
        Ok(None)
    }
}

// Returns the hint at the directive that begins a line misspelled, if any.
fn directive_hint(alloc: Global, line: &[u8]) -> Result<Option<Seq<u8>>, AllocError>
    ensures { IfOk result (λ hint. hint ≡ spec.directive_hint line.now) }
{
    meant_hint(alloc, before_blank(line), directives())
}

/// Returns the hint at the beginning of a line, if any.
pub(crate) fn beginning_hint(alloc: Global, line: &[u8]) -> Result<Option<Seq<u8>>, AllocError>
    ensures { IfOk result (λ hint. hint ≡ spec.beginning_hint line.now) }
{
    match keyword_hint(alloc, line)? {
        Some(hint) => Ok(Some(hint)),
        None => directive_hint(alloc, line),
    }
}
