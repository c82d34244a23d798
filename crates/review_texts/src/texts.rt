//! The masked text of a file.
ghost use Rattle.std.specs.Prelude.{◌≡◌, ℕ, suc, ◌≤◌, ◌++◌, List, length, drop, replicate, unwrap_or};
ghost use Rattle.std.specs.Prelude.{◌<◌, Decides, IfOk, IsTrue, MatchOption, OnOk};
ghost use Rattle.review_texts.specs.MaskedTexts as spec;
ghost use Rattle.review_texts.specs.MaskedTexts.{front_lines, written, IsReadSpaced, MayStand, MaySpace};
ghost use Rattle.review_texts.specs.MaskedTexts.{IsBlock, IsBlockBy, IsPlainBlock, AreBlocks, IsTextBy, IsMaskedText};
ghost use Rattle.sudo_text.specs.Lines.{lines_of};

use crate::Readable;
use crate::bytes::{has_byte, newline_count};
use crate::masks::{are_alike, mask_line};
use crate::places::with_text;
use crate::reading::{has_entries, is_read};
use crate::words::has_word;
use std::alloc::{AllocError, Global};
use sudo_text::{Line, Seq, TEXT_LIMIT, TextFault, lines};

// Returns the length of the first physical lines of a text, one more than `joins`, with their newlines.
fn front_len(text: &[u8], joins: usize) -> usize
    ensures len { result ≡ length (front_lines (suc joins) text.now) }
    ensures within { result ≤ length text.now }
{
    let mut rest = text;
    let mut left = joins;
    while let Some((byte, after)) = rest.split_first() {
        if *byte == b'\n' {
            if left == 0 {
                return text.len() - after.len();
            }
            left -= 1;
        }
        rest = after;
    }
    text.len()
}

// Returns the bytes that a logical line was written as, at the front of a text, and the text after them.
#[tactic(auto, using(crate::proofs::Blocks::take_written))]
fn cut_written<'a>(line: &Line, text: &'a [u8]) -> (&'a [u8], &'a [u8])
    ensures front { result.0.now ≡ written line.now text.now }
    ensures rest { result.1.now ≡ drop (length (written line.now text.now)) text.now }
{
    text.split_at(front_len(text, line.joins.len()))
}

// Returns so many newlines.
fn newlines(alloc: Global, count: usize) -> Result<Seq<u8>, AllocError>
    ensures { IfOk result (λ bytes. bytes ≡ replicate count 10) }
{
    let mut bytes = Vec::new(alloc);
    bytes.resize(count, b'\n')?;
    Ok(Seq::from_vec(bytes))
}

// Returns the text of a line, followed by so many newlines.
fn followed(alloc: Global, line: Line, count: usize) -> Result<Seq<u8>, AllocError>
    ensures { IfOk result (λ block. block ≡ line.text ++ replicate count 10) }
{
    let Line { mut text, .. } = line;
    text.append(newlines(alloc, count)?)?;
    Ok(text)
}

// Whether no carriage return is in the bytes.
fn has_no_return(bytes: &[u8]) -> bool
    ensures { result ≡ spec.has_no_return bytes.now }
{
    !has_byte(bytes, b'\r')
}

// Whether each fault of a line behind its masks has the column of the line as it is written.
fn keeps_columns(line: &Line, masked: &Line) -> bool
    ensures { result ≡ spec.keeps_columns line.now masked.now }
{
    line.joins.is_empty() && masked.text.len() == line.text.len()
}

// Whether a line behind its masks may stand for the bytes of the line. Returns `AllocError` if allocation fails.
fn may_stand(alloc: Global, line: &Line, masked: &Line, bytes: &[u8]) -> Result<bool, AllocError>
    ensures { IfOk result (λ may. Decides may (MayStand line.now masked.now bytes.now)) }
{
    if !has_no_return(bytes) {
        return Ok(false);
    }
    if keeps_columns(line, masked) {
        return Ok(true);
    }
    is_read(alloc, masked)
}

// Returns what the bytes of a line become, by the line behind its masks, if they change.
fn block_by(
    alloc: Global,
    line: &Line,
    masked: Line,
    bytes: &[u8],
) -> Result<Option<Seq<u8>>, AllocError>
    ensures { IfOk result (λ block. IsBlockBy line.now masked bytes.now (unwrap_or block bytes.now)) }
{
    if !may_stand(alloc, line, &masked, bytes)? {
        return Ok(None);
    }
    Ok(Some(followed(alloc, masked, newline_count(bytes))?))
}

// Whether a text with these joins begins with the word `Defaults`, torn off by the first join.
fn tears_defaults(text: &[u8], joins: &[u32]) -> bool
    ensures tears { result ≡ spec.tears_defaults text.now joins.now }
    ensures word { IsTrue result → 8 ≤ length text.now }
    ensures fits { IsTrue result → length text.now < TEXT_LIMIT }
{
    match joins {
        [] => false,
        [join, later @ ..] => {
            *join == 8
                && text.starts_with(b"Defaults")
                && are_alike(text, later)
                && text.len() < TEXT_LIMIT
                && newline_count(text) == 0
        }
    }
}

// Returns a line with a blank behind the word `Defaults`.
fn spaced(alloc: Global, line: &Line) -> Result<Line, AllocError>
    requires { 8 ≤ length line.now.text }
    ensures { IfOk result (λ spaced. spaced ≡ spec.spaced line.now) }
{
    let (word, rest) = line.text.as_slice().split_at(8);
    let mut text = Seq::from_slice(alloc, word)?;
    text.push(b' ')?;
    text.extend_from_slice(rest)?;
    Ok(with_text(alloc, line, text))
}

// Returns a line with a blank behind the word `Defaults`, if that is read and the line is not.
fn spaced_if_unread(alloc: Global, line: &Line) -> Result<Option<Line>, AllocError>
    requires word { 8 ≤ length line.now.text }
    requires fits { length line.now.text ≤ TEXT_LIMIT }
    ensures { IfOk result (λ found. MatchOption found (IsReadSpaced line.now → ⊥)
        (λ other. IsReadSpaced line.now × (other ≡ spec.spaced line.now))) }
{
    if has_entries(alloc, line)? {
        return Ok(None);
    }
    let other = spaced(alloc, line)?;
    if !is_read(alloc, &other)? {
        return Ok(None);
    }
    Ok(Some(other))
}

// Returns a line with a blank behind the word `Defaults`, if it may stand for the bytes of the line.
fn spaced_for(alloc: Global, line: &Line, bytes: &[u8]) -> Result<Option<Line>, AllocError>
    ensures { IfOk result (λ found. MatchOption found (MaySpace line.now bytes.now → ⊥)
        (λ other. MaySpace line.now bytes.now × (other ≡ spec.spaced line.now))) }
{
    if !tears_defaults(line.text.as_slice(), line.joins.as_slice()) {
        return Ok(None);
    }
    if !has_no_return(bytes) {
        return Ok(None);
    }
    spaced_if_unread(alloc, line)
}

// Returns what the bytes of a line without a mask become, if they change.
fn plain_block(alloc: Global, line: &Line, bytes: &[u8]) -> Result<Option<Seq<u8>>, AllocError>
    ensures { IfOk result (λ block.
        IsPlainBlock line.now bytes.now (unwrap_or block bytes.now)) }
{
    match spaced_for(alloc, line, bytes)? {
        Some(other) => Ok(Some(followed(alloc, other, newline_count(bytes))?)),
        None => Ok(None),
    }
}

// Returns what the bytes of a line become, if they change.
fn block_of(
    alloc: Global,
    readable: &Readable,
    line: &Line,
    bytes: &[u8],
) -> Result<Option<Seq<u8>>, AllocError>
    ensures { IfOk result (λ block. IsBlock readable.now line.now bytes.now (unwrap_or block bytes.now)) }
{
    match mask_line(alloc, readable, line)? {
        Some(masked) => block_by(alloc, line, masked, bytes),
        None => plain_block(alloc, line, bytes),
    }
}

// Appends what the bytes of a line become.
fn push_block(
    alloc: Global,
    readable: &Readable,
    line: &Line,
    bytes: &[u8],
    masked: &mut Seq<u8>,
) -> Result<(), AllocError>
    ensures { OnOk result ((block : List ℕ) × IsBlock readable.now line.now bytes.now block
        × (masked.new ≡ masked.old ++ block)) }
{
    match block_of(alloc, readable, line, bytes)? {
        Some(block) => masked.append(block),
        None => masked.extend_from_slice(bytes),
    }
}

// Returns what a text becomes that begins with logical lines.
fn mask_lines(
    alloc: Global,
    readable: &Readable,
    lines: &[Line],
    text: &[u8],
) -> Result<Seq<u8>, AllocError>
    ensures { IfOk result (λ masked. AreBlocks readable.now lines.now text.now masked) }
{
    let mut masked = Seq::new(alloc);
    let mut rest = text;
    let mut left = lines;
    while let Some((line, after)) = left.split_first() {
        let (bytes, behind) = cut_written(line, rest);
        push_block(alloc, readable, line, bytes, &mut masked)?;
        rest = behind;
        left = after;
    }
    masked.extend_from_slice(rest)?;
    Ok(masked)
}

// Returns the masked text of a text in which one of the words stands.
fn mask_words(alloc: Global, readable: &Readable, text: &[u8]) -> Result<Seq<u8>, AllocError>
    ensures { IfOk result (λ masked. IsTextBy readable.now (lines_of 0 text.now) text.now masked) }
{
    match lines(alloc, 0, text) {
        Ok(lines) => mask_lines(alloc, readable, &lines, text),
        Err(TextFault::Memory) => Err(AllocError),
        Err(_) => Seq::from_slice(alloc, text),
    }
}

/// Returns the masked text of a file. Returns `AllocError` if allocation fails.
pub fn mask_text(alloc: Global, readable: &Readable, text: Seq<u8>) -> Result<Seq<u8>, AllocError>
    ensures { IfOk result (λ masked. IsMaskedText readable.now text masked) }
{
    if !has_word(text.as_slice()) {
        return Ok(text);
    }
    mask_words(alloc, readable, text.as_slice())
}
