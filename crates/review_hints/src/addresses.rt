//! IPv6 addresses in place of a host.
ghost use Rattle.std.specs.Prelude.{◌≡◌, ◌==◌, ◌≤◌, ◌<◌, ◌+◌, IfOk, length, reverse, take, drop, count_by, codes};
ghost use Rattle.std.specs.List.{list_any, take_while};
ghost use Rattle.review_hints.specs.Addresses as spec;

use crate::bytes::{first_byte, is_blank, last_byte, split_word};
use crate::first_words::begins_with_keyword;
use std::alloc::{AllocError, Global};
use sudo_grammar::Expected;
use sudo_text::Seq;

// Whether a byte is a hexadecimal digit or a colon.
fn is_address_byte(byte: u8) -> bool
    ensures { result ≡ spec.is_address_byte byte }
{
    byte.is_ascii_hexdigit() || byte == b':'
}

// Whether a text has at most four digits between two colons, after a number of digits.
fn has_short_groups(count: usize, text: &[u8]) -> bool
    requires { count ≤ 4 }
    ensures { result ≡ spec.has_short_groups count text.now }
{
    match text {
        [] => true,
        [b':', rest @ ..] => has_short_groups(0, rest),
        [_, rest @ ..] => count < 4 && has_short_groups(count + 1, rest),
    }
}

// Returns the number of colons directly behind a colon; the byte before the text is a colon or not.
fn gap_count(colon: bool, text: &[u8]) -> usize
    ensures count { result ≡ spec.gap_count colon text.now }
    ensures within { result ≤ length text.now }
{
    match text {
        [] => 0,
        [byte, rest @ ..] => {
            let is_colon = *byte == b':';
            let gaps = gap_count(is_colon, rest);
            if colon && is_colon { 1 + gaps } else { gaps }
        }
    }
}

// Returns the number of colons of a text.
fn colon_count(text: &[u8]) -> usize
    ensures { result ≡ spec.colon_count text.now }
{
    text.iter().filter(|b| **b == b':').count()
}

// Whether a digit begins and ends a text.
fn has_outer_digits(text: &[u8]) -> bool
    ensures { result ≡ spec.has_outer_digits text.now }
{
    first_byte(text) != b':' && last_byte(text) != b':'
}

// Whether a text has eight groups, or fewer with `::` at one place.
fn has_groups(text: &[u8]) -> bool
    ensures { result ≡ spec.has_groups text.now }
{
    match gap_count(false, text) {
        0 => has_outer_digits(text) && colon_count(text) == 7,
        1 => colon_count(text) <= 7,
        _ => false,
    }
}

// Whether a text of hexadecimal digits and colons is an address.
fn is_address(text: &[u8]) -> bool
    ensures { result ≡ spec.is_address text.now }
{
    text.len() <= 39 && has_short_groups(0, text) && has_groups(text)
}

// Returns the number of bytes of an address directly before an offset.
fn count_before(line: &[u8], at: usize) -> usize
    requires { at ≤ length line.now }
    ensures count { result ≡ spec.count_before line.now at }
    ensures within { result ≤ at }
{
    let text = &line[..at];
    text.iter()
        .rev()
        .take_while(|b| is_address_byte(**b))
        .count()
}

// Returns the number of bytes of an address that begin a text.
fn address_len(text: &[u8]) -> usize
    ensures count { result ≡ length (take_while spec.is_address_byte text.now) }
    ensures within { result ≤ length text.now }
{
    text.iter().take_while(|b| is_address_byte(**b)).count()
}

// Returns the number of bytes of an address from an offset on.
fn count_behind(line: &[u8], at: usize) -> usize
    requires { at ≤ length line.now }
    ensures count { result ≡ spec.count_behind line.now at }
    ensures within { at + result ≤ length line.now }
{
    address_len(&line[at..])
}

// Returns the text before the bytes of an address at an offset.
fn front(line: &[u8], at: usize) -> &[u8]
    requires { at ≤ length line.now }
    ensures { result.now ≡ spec.front line.now at }
{
    &line[..at - count_before(line, at)]
}

// Returns the bytes of an address directly before an offset.
fn before(line: &[u8], at: usize) -> &[u8]
    requires { at ≤ length line.now }
    ensures { result.now ≡ spec.before line.now at }
{
    &line[at - count_before(line, at)..at]
}

// Returns the bytes of an address around an offset.
fn around(line: &[u8], at: usize) -> &[u8]
    requires { at ≤ length line.now }
    ensures { result.now ≡ spec.around line.now at }
{
    &line[at - count_before(line, at)..at + count_behind(line, at)]
}

// Returns the text behind the bytes of an address at an offset.
fn back(line: &[u8], at: usize) -> &[u8]
    requires { at ≤ length line.now }
    ensures { result.now ≡ spec.back line.now at }
{
    &line[at + count_behind(line, at)..]
}

// Whether a host may begin behind a text.
fn lets_host_follow(text: &[u8]) -> bool
    ensures { result ≡ spec.lets_host_follow text.now }
{
    let byte = last_byte(text);
    text.is_empty()
        || is_blank(byte)
        || byte == b','
        || byte == b'='
        || byte == b'!'
        || byte == b'@'
}

// Whether an address may end before a text.
fn lets_address_end(text: &[u8]) -> bool
    ensures { result ≡ spec.lets_address_end text.now }
{
    let byte = first_byte(text);
    text.is_empty()
        || is_blank(byte)
        || byte == b','
        || byte == b'='
        || byte == b'/'
        || byte == b'%'
}

// Whether an address surrounds an offset of a line.
fn has_address(line: &[u8], at: usize) -> bool
    requires { at ≤ length line.now }
    ensures { result ≡ spec.has_address line.now at }
{
    is_address(around(line, at))
        && lets_host_follow(front(line, at))
        && lets_address_end(back(line, at))
}

// Whether a colon is at an offset of a line.
fn is_at_colon(line: &[u8], at: usize) -> bool
    requires { at ≤ length line.now }
    ensures { result ≡ spec.is_at_colon line.now at }
{
    first_byte(&line[at..]) == b':'
}

// Whether a colon stands in a text.
fn has_colon(text: &[u8]) -> bool
    ensures { result ≡ list_any (λ b. b == 58) text.now }
{
    text.iter().any(|byte| *byte == b':')
}

// Whether the first colon of an address is at an offset of a line.
fn is_at_first_colon(line: &[u8], at: usize) -> bool
    requires { at ≤ length line.now }
    ensures { result ≡ spec.is_at_first_colon line.now at }
{
    is_at_colon(line, at) && !has_colon(before(line, at))
}

// Whether a fault is one that an address in place of a host gives.
fn is_host_fault(first: &[u8], line: &[u8], at: usize, expected: Expected) -> bool
    requires { at ≤ length line.now }
    ensures { result ≡ spec.is_host_fault first.now line.now at expected }
{
    match expected {
        Expected::Equals => !begins_with_keyword(first) && is_at_first_colon(line, at),
        Expected::Member => {
            !begins_with_keyword(first) && is_at_colon(line, at) && before(line, at).is_empty()
        }
        Expected::Parameter => is_at_first_colon(line, at) && last_byte(front(line, at)) == b'@',
        Expected::AliasName
        | Expected::Command
        | Expected::RightParen
        | Expected::Value
        | Expected::Path
        | Expected::EndOfLine => false,
    }
}

// Whether a line defines aliases of hosts.
fn defines_hosts(first: &[u8]) -> bool
    ensures { result ≡ spec.defines_hosts first.now }
{
    let (word, _) = split_word(first);
    word == b"Host_Alias".as_slice()
}

/// Returns the hint at an address in place of a host near a fault, if any, given the first physical line of the faulty
/// line, the physical line of the fault, its offset there, and what is expected, if it is a syntax error.
pub(crate) fn address_hint(
    alloc: Global,
    first: &[u8],
    line: &[u8],
    at: usize,
    expected: Option<Expected>,
) -> Result<Option<Seq<u8>>, AllocError>
    requires { at ≤ length line.now }
    ensures { IfOk result (λ hint. hint ≡ spec.address_hint first.now line.now at expected) }
{
    let Some(expected) = expected else {
        return Ok(None);
    };
    let is_of_host = defines_hosts(first) || is_host_fault(first, line, at, expected);
    if is_of_host && has_address(line, at) {
        Ok(Some(Seq::from_slice(alloc, b"IPv6 addresses are not supported")?))
    } else {
        Ok(None)
    }
}
