//! The masks of a line.
ghost use Rattle.std.specs.Prelude.{◌≡◌, ℕ, ◌≤◌, ◌<◌, ◌+◌, ◌++◌, List, length, IfOk, OnOk, MatchOption, IsTrue};
ghost use Rattle.std.specs.List.{list_any};
ghost use Rattle.review_texts.specs.Masks as spec;
ghost use Rattle.review_texts.specs.Masks.{StandsAt, IsFirstStand, IsMask, IsUnmasked, IsMasked, IsBehind};

use crate::bytes::{from, has_byte, is_blank, is_text, newline_count, peek};
use crate::places::{NO_PATH, with_text};
use crate::reading::refused_as;
use crate::standing::{Standing, stands};
use crate::words::has_word;
use crate::{Form, Mask, Readable};
use std::alloc::{AllocError, Global};
use sudo_text::{Line, Seq, TEXT_LIMIT};

// The most masks of a line, after its first.
const MOST_MASKS: u32 = 256;

// Whether neither a blank nor a comma stands before a join, or an escaped one, or a colon stands behind it.
fn is_tight(text: &[u8], join: u32) -> bool
    ensures { result ≡ spec.is_tight text.now join }
{
    let join = join as usize;
    let before = peek(text, join.saturating_sub(1));
    !(is_blank(before) || before == b',')
        || peek(text, join.saturating_sub(2)) == b'\\'
        || peek(text, join) == b':'
}

// Whether joins rise.
fn is_rising(joins: &[u32]) -> bool
    ensures { result ≡ spec.is_rising joins.now }
{
    let Some((first, after)) = joins.split_first() else {
        return true;
    };
    let mut last = *first;
    let mut left = after;
    while let Some((join, rest)) = left.split_first() {
        if *join <= last {
            return false;
        }
        last = *join;
        left = rest;
    }
    true
}

// Whether one of these joins is tight.
fn has_tight_join(text: &[u8], joins: &[u32]) -> bool
    ensures { result ≡ list_any (spec.is_tight text.now) joins.now }
{
    joins.iter().any(|join| is_tight(text, *join))
}

/// Whether sudo joins a text there as the reader does.
pub(crate) fn are_alike(text: &[u8], joins: &[u32]) -> bool
    ensures { result ≡ spec.are_alike text.now joins.now }
{
    !has_tight_join(text, joins) && is_rising(joins) && (joins.is_empty() || !has_byte(text, b'#'))
}

// Whether a line may have a mask.
fn is_fit(line: &Line) -> bool
    ensures fit { result ≡ spec.is_fit line.now }
    ensures short { IsTrue result → length line.now.text + 16 ≤ TEXT_LIMIT }
{
    has_word(line.text.as_slice())
        && are_alike(line.text.as_slice(), line.joins.as_slice())
        && line.text.len() <= TEXT_LIMIT - 16
        && newline_count(line.text.as_slice()) == 0
}

// Returns the first place at which a form stands, if it does. Returns `AllocError` if allocation fails.
fn first_stand(
    alloc: Global,
    readable: &Readable,
    line: &Line,
    form: Form,
) -> Result<Option<Mask>, AllocError>
    requires { length line.now.text + 16 ≤ TEXT_LIMIT }
    ensures { IfOk result (λ found. MatchOption found
        ((start end : ℕ) (put : List ℕ) → StandsAt readable.now line.now form start end put → ⊥)
        (λ mask. IsFirstStand readable.now line.now form mask)) }
{
    for at in 0..line.text.len() {
        if let Some(standing) = stands(alloc, readable, line, form, at)? {
            let Standing { end, put } = standing;
            return Ok(Some(Mask {
                form,
                start: at,
                end,
                put,
            }));
        }
    }
    Ok(None)
}

/// Returns the mask of a line, if it has one. Returns `AllocError` if allocation fails.
pub fn mask_of(alloc: Global, readable: &Readable, line: &Line) -> Result<Option<Mask>, AllocError>
    ensures { IfOk result (λ found. MatchOption found (IsUnmasked readable.now line.now)
        (λ mask. IsMask readable.now line.now mask)) }
{
    if !is_fit(line) {
        return Ok(None);
    }
    let Some(form) = refused_as(alloc, line)? else {
        return Ok(None);
    };
    let found = first_stand(alloc, readable, line, form)?;
    Ok(found)
}

// Appends a text, with blanks behind it up to a length.
fn push_padded(alloc: Global, len: usize, put: &[u8], text: &mut Seq<u8>) -> Result<(), AllocError>
    ensures { OnOk result (text.new ≡ text.old ++ spec.padded len put.now) }
{
    let mut blanks = Vec::new(alloc);
    blanks.resize(len.saturating_sub(put.len()), b' ')?;
    text.extend_from_slice(put)?;
    text.append(Seq::from_vec(blanks))
}

/// Returns the text of a command as a policy has it: `list` for the path that stands in its place.
pub fn as_written(text: &[u8]) -> &[u8]
    ensures { result.now ≡ spec.as_written text.now }
{
    if is_text(text, NO_PATH) {
        b"list"
    } else {
        text
    }
}

// Returns a line with what stands in place of a mask. Returns `AllocError` if allocation fails.
fn behind(alloc: Global, line: &Line, mask: &Mask) -> Result<Line, AllocError>
    requires { mask.now.start ≤ length line.now.text }
    ensures { IfOk result (λ masked. masked ≡ spec.behind line.now mask.now) }
{
    let bytes = line.text.as_slice();
    let mut text = Seq::from_slice(alloc, &bytes[..mask.start])?;
    let len = mask.end.saturating_sub(mask.start);
    push_padded(alloc, len, mask.put.as_slice(), &mut text)?;
    text.extend_from_slice(from(bytes, mask.end))?;
    Ok(with_text(alloc, line, text))
}

// Returns a line behind its masks, at most so many, one after another. Returns `AllocError` if allocation fails.
fn behind_masks(
    alloc: Global,
    readable: &Readable,
    most: u32,
    line: Line,
) -> Result<Line, AllocError>
    ensures { IfOk result (λ masked. IsBehind readable.now most line masked) }
{
    let mut line = line;
    let mut left = most;
    while left > 0 {
        let Some(mask) = mask_of(alloc, readable, &line)? else {
            return Ok(line);
        };
        line = behind(alloc, &line, &mask)?;
        left -= 1;
    }
    Ok(line)
}

/// Returns a line behind all its masks, or `None` if it has none. Returns `AllocError` if allocation fails.
pub fn mask_line(
    alloc: Global,
    readable: &Readable,
    line: &Line,
) -> Result<Option<Line>, AllocError>
    ensures { IfOk result (λ found. MatchOption found (IsUnmasked readable.now line.now)
        (λ masked. IsMasked readable.now line.now masked)) }
{
    let Some(mask) = mask_of(alloc, readable, line)? else {
        return Ok(None);
    };
    let masked = behind(alloc, line, &mask)?;
    Ok(Some(behind_masks(alloc, readable, MOST_MASKS, masked)?))
}
