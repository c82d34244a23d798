//! Regular expressions as a command or as its arguments.
ghost use Rattle.std.specs.Prelude.{◌≡◌, ◌==◌, ◌≤◌, ◌<◌, ◌+◌, ◌++◌, length, not, reverse, slice_index, OnOk, IsTrue};
ghost use Rattle.std.specs.List.{list_all, take_while};
ghost use Rattle.review_texts.specs.Expressions as spec;

use crate::bytes::{from, has_byte, is_blank, is_digit, peek, skip};
use crate::options::{is_lower, value_at};
use std::alloc::{AllocError, Global};
use sudo_text::Seq;

/// What was read of an expression last.
#[derive(Clone, Copy)]
pub(crate) enum Phase {
    /// A branch begins.
    Start,
    /// A piece ends that may be repeated.
    Piece,
    /// A piece ends that is repeated.
    Repeated,
    /// A backslash stands before a sign.
    Escaped,
    /// Brackets begin.
    Opened,
    /// Brackets begin whose members are left out.
    Negated,
    /// A member of brackets ends, from which a range may go on.
    Member(u8),
    /// A `-` stands behind that member.
    Range(u8),
    /// A range ends.
    Ranged,
    /// A `-` stands behind a range, as the last member.
    Dash,
}

// Whether a byte may stand in an expression.
fn is_expression_byte(byte: u8) -> bool
    ensures { result ≡ spec.is_expression_byte byte }
{
    32 <= byte && byte <= 126 && !has_byte(b"\"#$,:={}", byte)
}

// Whether a byte stands for itself outside of brackets, or for any.
fn is_literal(byte: u8) -> bool
    ensures { result ≡ spec.is_literal byte }
{
    is_expression_byte(byte) && !has_byte(b"()*+?[\\]^|", byte)
}

// Whether a byte stands for itself behind a backslash.
fn is_sign(byte: u8) -> bool
    ensures { result ≡ spec.is_sign byte }
{
    has_byte(b"()*+.?[]^|", byte)
}

// Whether a byte stands for itself between brackets.
fn is_member(byte: u8) -> bool
    ensures { result ≡ spec.is_member byte }
{
    is_expression_byte(byte) && !has_byte(b"*+-?[\\]^", byte)
}

// Whether a byte repeats the piece before it.
fn is_repetition(byte: u8) -> bool
    ensures { result ≡ spec.is_repetition byte }
{
    byte == b'*' || byte == b'+' || byte == b'?'
}

// Whether a range goes from a digit or a letter to one of its kind.
fn is_range(first: u8, last: u8) -> bool
    ensures { result ≡ spec.is_range first last }
{
    first <= last
        && ((is_digit(first) && is_digit(last))
            || (is_lower(first) && is_lower(last))
            || (first.is_ascii_uppercase() && last.is_ascii_uppercase()))
}

// Returns what is read behind a byte that begins a piece.
fn piece_after(byte: u8) -> Option<Phase>
    ensures { result ≡ spec.piece_after byte }
{
    if byte == b'[' {
        Some(Phase::Opened)
    } else if byte == b'\\' {
        Some(Phase::Escaped)
    } else if is_literal(byte) {
        Some(Phase::Piece)
    } else {
        None
    }
}

// Returns what is read behind a member of brackets.
fn member_after(byte: u8) -> Option<Phase>
    ensures { result ≡ spec.member_after byte }
{
    if is_member(byte) {
        Some(Phase::Member(byte))
    } else {
        None
    }
}

// Returns what is read behind a member of brackets, or behind their end.
fn member_or_end(byte: u8) -> Option<Phase>
    ensures { result ≡ spec.member_or_end byte }
{
    if byte == b']' {
        Some(Phase::Piece)
    } else {
        member_after(byte)
    }
}

// Returns what is read behind the last byte of a range, or behind the brackets.
fn range_after(first: u8, byte: u8) -> Option<Phase>
    ensures { result ≡ spec.range_after first byte }
{
    if byte == b']' {
        Some(Phase::Piece)
    } else if is_range(first, byte) {
        Some(Phase::Ranged)
    } else {
        None
    }
}

// Returns what is read behind a further byte, if it may stand there.
fn phase_after(phase: Phase, byte: u8) -> Option<Phase>
    ensures { result ≡ spec.phase_after phase byte }
{
    match phase {
        Phase::Start | Phase::Repeated => piece_after(byte),
        Phase::Piece if is_repetition(byte) => Some(Phase::Repeated),
        Phase::Piece => piece_after(byte),
        Phase::Escaped if is_sign(byte) => Some(Phase::Piece),
        Phase::Opened if byte == b'^' => Some(Phase::Negated),
        Phase::Opened | Phase::Negated => member_after(byte),
        Phase::Member(first) if byte == b'-' => Some(Phase::Range(first)),
        Phase::Ranged if byte == b'-' => Some(Phase::Dash),
        Phase::Member(_) | Phase::Ranged => member_or_end(byte),
        Phase::Range(first) => range_after(first, byte),
        Phase::Dash if byte == b']' => Some(Phase::Piece),
        Phase::Escaped | Phase::Dash => None,
    }
}

// Whether what was read last is outside of brackets.
fn is_outside(phase: Phase) -> bool
    ensures { result ≡ spec.is_outside phase }
{
    matches!(phase, Phase::Start | Phase::Piece | Phase::Repeated)
}

// Whether a branch may end.
fn ends_branch(phase: Phase) -> bool
    ensures { result ≡ spec.ends_branch phase }
{
    matches!(phase, Phase::Piece | Phase::Repeated)
}

// Whether brackets are open whose members are left out, and none of these has ended.
fn is_negated(phase: Phase) -> bool
    ensures { result ≡ spec.is_negated phase }
{
    matches!(phase, Phase::Negated)
}

// Whether an expression may leave the folder of its names by a byte, behind so many open groups.
fn may_leave(groups: usize, phase: Phase, byte: u8) -> bool
    ensures { result ≡ spec.may_leave groups phase byte }
{
    (is_outside(phase) && (byte == b'.' || (byte == b'|' && groups == 0))) || is_negated(phase)
}

// Whether a text is the rest of an expression, before which so many groups are open; if `inside`, of one that leaves no
// folder.
fn is_rest(inside: bool, groups: usize, phase: Phase, text: &[u8]) -> bool
    requires { groups + length text.now ≤ 1022 }
    ensures { result ≡ spec.is_rest inside groups phase text.now }
{
    match text {
        [] => groups == 0 && ends_branch(phase),
        [byte, rest @ ..] => {
            if inside && may_leave(groups, phase, *byte) {
                false
            } else if is_outside(phase) && *byte == b'(' {
                is_rest(inside, groups + 1, Phase::Start, rest)
            } else if is_outside(phase) && *byte == b')' {
                ends_branch(phase) && 0 < groups && is_rest(inside, groups - 1, Phase::Piece, rest)
            } else if is_outside(phase) && *byte == b'|' {
                ends_branch(phase) && is_rest(inside, groups, Phase::Start, rest)
            } else {
                match phase_after(phase, *byte) {
                    Some(next) => is_rest(inside, groups, next, rest),
                    None => false,
                }
            }
        }
    }
}

// Whether a text is an expression, without its `^` and its `$`; if `inside`, one that leaves no folder.
fn is_expression(inside: bool, text: &[u8]) -> bool
    ensures { result ≡ spec.is_expression inside text.now }
{
    text.len() <= 1022 && is_rest(inside, 0, Phase::Start, text)
}

// Whether a byte of a path stands for itself in an expression.
fn is_path_byte(byte: u8) -> bool
    ensures { result ≡ spec.is_path_byte byte }
{
    is_digit(byte)
        || is_lower(byte)
        || byte.is_ascii_uppercase()
        || byte == b'-'
        || byte == b'/'
        || byte == b'_'
}

// Whether each byte stands for itself.
fn is_path(text: &[u8]) -> bool
    ensures { result ≡ list_all spec.is_path_byte text.now }
{
    text.iter().all(|b| is_path_byte(*b))
}

// Returns the number of bytes behind the last slash of a text.
fn name_len(text: &[u8]) -> usize
    ensures len { result ≡ length (take_while (λ b. not (b == 47)) (reverse text.now)) }
    ensures within { result ≤ length text.now }
{
    text.iter().rev().take_while(|byte| **byte != b'/').count()
}

// Returns the length of a text up to its last slash.
fn folder_len(text: &[u8]) -> usize
    ensures len { result ≡ spec.folder_len text.now }
    ensures within { result ≤ length text.now }
{
    text.len() - name_len(text)
}

// Whether a text up to its last slash is the path of a folder, and behind it is an expression that leaves no
// folder.
fn is_below_folder(text: &[u8]) -> bool
    ensures { result ≡ spec.is_below_folder text.now }
{
    let len = folder_len(text);
    peek(text, 0) == b'/' && is_path(&text[..len]) && is_expression(true, &text[len..])
}

// Returns the command that fits each path that an expression fits: the folder of whose files they are, or `ALL`.
fn bound_of(text: &[u8]) -> &[u8]
    ensures { result.now ≡ spec.bound_of text.now }
{
    if is_below_folder(text) {
        &text[..folder_len(text)]
    } else {
        b"ALL"
    }
}

// Whether a path of no folder is spelled at an offset, with a blank behind it.
fn is_file_at(text: &[u8], at: usize) -> bool
    requires { at ≤ length text.now }
    ensures { result ≡ spec.is_file_at text.now at }
{
    let end = at + value_at(text, at).len();
    peek(text, at) == b'/' && peek(text, end.saturating_sub(1)) != b'/' && is_blank(peek(text, end))
}

// Returns the offset of the `^`, if an expression is spelled at an offset.
fn caret_of(text: &[u8], at: usize) -> usize
    requires { at ≤ length text.now }
    ensures caret { result ≡ spec.caret_of text.now at }
    ensures within { result ≤ length text.now }
{
    if peek(text, at) == b'/' {
        skip(text, at + value_at(text, at).len())
    } else {
        at
    }
}

// Returns the number of bytes of an expression that begin a text.
fn expression_len(text: &[u8]) -> usize
    ensures count { result ≡ length (take_while spec.is_expression_byte text.now) }
    ensures within { result ≤ length text.now }
{
    text.iter().take_while(|b| is_expression_byte(**b)).count()
}

/// Returns the bytes behind the `^` up to the `$`.
#[tactic(auto, using(crate::proofs::Fronts::take_front))]
pub(crate) fn expression_at(text: &[u8], at: usize) -> &[u8]
    requires { at ≤ length text.now }
    ensures { result.now ≡ spec.expression_at text.now at }
{
    let rest = from(text, caret_of(text, at) + 1);
    &rest[..expression_len(rest)]
}

/// Returns the offset of the `$`.
pub(crate) fn dollar_of(text: &[u8], at: usize) -> usize
    requires { at ≤ length text.now }
    ensures dollar { result ≡ spec.dollar_of text.now at }
    ensures within { result ≤ length text.now + 1 }
{
    let start = caret_of(text, at) + 1;
    start + expression_len(from(text, start))
}

/// Returns the command at an offset without its expression: its path, or what bounds a path that is one.
pub(crate) fn command_at(text: &[u8], at: usize) -> &[u8]
    requires { at ≤ length text.now }
    ensures { result.now ≡ spec.command_at text.now at }
{
    if peek(text, at) == b'/' {
        value_at(text, at)
    } else {
        bound_of(expression_at(text, at))
    }
}

// Whether a `$` stands at an offset.
fn is_dollar_at(text: &[u8], at: usize) -> bool
    ensures dollar { result ≡ (slice_index text.now at == 36) }
    ensures within { IsTrue result → at < length text.now }
{
    at < text.len() && text[at] == b'$'
}

/// Whether an expression is spelled at an offset, as a command or behind a path.
pub(crate) fn holds_expression(text: &[u8], at: usize) -> bool
    requires { at ≤ length text.now }
    ensures holds { result ≡ spec.holds_expression text.now at }
    ensures within { IsTrue result → spec.dollar_of text.now at < length text.now }
{
    (is_file_at(text, at) || peek(text, at) == b'^')
        && peek(text, caret_of(text, at)) == b'^'
        && is_expression(false, expression_at(text, at))
        && is_dollar_at(text, dollar_of(text, at))
}

// Returns a hexadecimal digit.
fn hex_digit(value: u8) -> u8
    requires { value < 16 }
    ensures { result ≡ spec.hex_digit value }
{
    if value < 10 {
        b'0' + value
    } else {
        b'a' - 10 + value
    }
}

/// Appends bytes in hexadecimal digits. Returns `AllocError` if allocation fails.
pub(crate) fn push_hex(bytes: &[u8], text: &mut Seq<u8>) -> Result<(), AllocError>
    ensures { OnOk result (text.new ≡ text.old ++ spec.hex_of bytes.now) }
{
    let mut left = bytes;
    while let Some((byte, rest)) = left.split_first() {
        push_digits(*byte, text)?;
        left = rest;
    }
    Ok(())
}

// Appends the two hexadecimal digits of a byte.
fn push_digits(byte: u8, text: &mut Seq<u8>) -> Result<(), AllocError>
    ensures { OnOk result (text.new ≡ text.old ++ spec.digits_of byte) }
{
    text.push(hex_digit(byte / 16))?;
    text.push(hex_digit(byte % 16))
}
