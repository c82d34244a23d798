//! Options of a command.
ghost use Rattle.std.specs.Prelude.{◌≡◌, ◌≤◌, ◌+◌, ◌-◌, length};
ghost use Rattle.std.specs.List.{take_while};
ghost use Rattle.sudo_grammar.specs.Words as words;
ghost use Rattle.review_texts.specs.Options as spec;

use crate::bytes::{from, is_blank, is_control, is_digit, is_mark_byte, is_text, peek, skip};

// Whether an option says how a command runs, and not who may run it.
fn is_exact_option(name: &[u8]) -> bool
    ensures { result ≡ spec.is_exact_option name.now }
{
    is_text(name, b"CWD")
        || is_text(name, b"TIMEOUT")
        || is_text(name, b"ROLE")
        || is_text(name, b"TYPE")
}

// Whether an option says below which root a command is, or when it may be run.
fn is_noted_option(name: &[u8]) -> bool
    ensures { result ≡ spec.is_noted_option name.now }
{
    is_text(name, b"CHROOT") || is_text(name, b"NOTBEFORE") || is_text(name, b"NOTAFTER")
}

// Whether an option is masked: if `noted`, also one that says below which root a command is, or when it may be run.
fn is_option(noted: bool, name: &[u8]) -> bool
    ensures { result ≡ spec.is_option noted name.now }
{
    is_exact_option(name) || (noted && is_noted_option(name))
}

// Whether a byte may stand in a value.
fn is_value_byte(byte: u8) -> bool
    ensures { result ≡ spec.is_value_byte byte }
{
    !(is_blank(byte)
        || is_mark_byte(byte)
        || is_control(byte)
        || byte == b'"'
        || byte == b'#'
        || byte == b'>'
        || byte == b'\\')
}

// Whether CWD and CHROOT take a value.
fn is_directory(value: &[u8]) -> bool
    ensures { result ≡ spec.is_directory value.now }
{
    is_text(value, b"*") || peek(value, 0) == b'/' || peek(value, 0) == b'~'
}

// Returns the number of digits that a value begins with.
fn digit_count(value: &[u8]) -> usize
    ensures count { result ≡ spec.digit_count value.now }
    ensures within { result ≤ length value.now }
{
    value.iter().take_while(|b| is_digit(**b)).count()
}

// Whether one to four digits begin a value.
fn has_count(value: &[u8]) -> bool
    ensures { result ≡ spec.has_count value.now }
{
    let count = digit_count(value);
    1 <= count && count <= 4
}

// Whether a byte is a letter, in either case.
fn is_letter(letter: u8, byte: u8) -> bool
    ensures { result ≡ spec.is_letter letter byte }
{
    byte == letter || byte as u32 + 32 == letter as u32
}

// Whether a value is counts of some of these units, in their order, each with the unit's letter, and then nothing or a
// count of seconds.
fn is_time_in(units: &[u8], value: &[u8]) -> bool
    ensures { result ≡ spec.is_time_in units.now value.now }
{
    match units {
        [] => value.is_empty() || (has_count(value) && digit_count(value) == value.len()),
        [unit, units @ ..] => {
            is_time_in(units, value)
                || (has_count(value)
                    && is_letter(*unit, peek(value, digit_count(value)))
                    && is_time_in(units, from(value, digit_count(value) + 1)))
        }
    }
}

// Whether TIMEOUT takes a value.
fn is_time(value: &[u8]) -> bool
    ensures { result ≡ spec.is_time value.now }
{
    !value.is_empty() && is_time_in(b"dhms", value)
}

// Whether a value is a date of this many digits, and then nothing or `Z`.
fn is_date_of(count: usize, value: &[u8]) -> bool
    ensures { result ≡ spec.is_date_of count value.now }
{
    digit_count(value) == count && (value.len() == count || is_text(from(value, count), b"Z"))
}

// Whether NOTBEFORE and NOTAFTER take a value.
fn is_date(value: &[u8]) -> bool
    ensures { result ≡ spec.is_date value.now }
{
    b'2' <= peek(value, 0)
        && (is_date_of(10, value) || is_date_of(12, value) || is_date_of(14, value))
}

/// Whether a byte is a lower-case letter.
pub(crate) fn is_lower(byte: u8) -> bool
    ensures { result ≡ spec.is_lower byte }
{
    b'a' <= byte && byte <= b'z'
}

// Whether a word of sudoers itself begins so.
fn is_reserved(value: &[u8]) -> bool
    ensures { result ≡ spec.is_reserved value.now }
{
    is_text(value, b"sudoedit")
        || is_text(value, b"sha224")
        || is_text(value, b"sha256")
        || is_text(value, b"sha384")
        || is_text(value, b"sha512")
}

// Whether any other option takes a value.
fn is_plain_value(value: &[u8]) -> bool
    ensures { result ≡ spec.is_plain_value value.now }
{
    is_lower(peek(value, 0)) && !is_reserved(value)
}

// Whether an option takes a value.
fn takes(option: &[u8], value: &[u8]) -> bool
    ensures { result ≡ spec.takes option.now value.now }
{
    if is_text(option, b"CWD") || is_text(option, b"CHROOT") {
        is_directory(value)
    } else if is_text(option, b"TIMEOUT") {
        is_time(value)
    } else if is_text(option, b"NOTBEFORE") || is_text(option, b"NOTAFTER") {
        is_date(value)
    } else {
        is_plain_value(value)
    }
}

/// Whether a byte may stand in a name.
pub(crate) fn is_name_byte(byte: u8) -> bool
    ensures { result ≡ words.is_name_byte byte }
{
    byte.is_ascii_uppercase() || byte.is_ascii_digit() || byte == b'_'
}

// Returns the number of bytes of a name that begin a text.
fn name_len(text: &[u8]) -> usize
    ensures len { result ≡ length (take_while words.is_name_byte text.now) }
    ensures within { result ≤ length text.now }
{
    text.iter().take_while(|b| is_name_byte(**b)).count()
}

/// Returns the name at an offset: upper-case letters, digits and underscores.
#[tactic(auto, using(crate::proofs::Fronts::take_front))]
pub(crate) fn name_at(text: &[u8], at: usize) -> &[u8]
    requires { at ≤ length text.now }
    ensures name { result.now ≡ spec.name_at text.now at }
    ensures within { at + length result.now ≤ length text.now }
{
    let rest = from(text, at);
    &rest[..name_len(rest)]
}

/// Returns the offset after the name at an offset.
pub(crate) fn name_end(text: &[u8], at: usize) -> usize
    requires { at ≤ length text.now }
    ensures end { result ≡ spec.name_end text.now at }
    ensures within { result ≤ length text.now }
{
    at + name_at(text, at).len()
}

// Returns the offset after that name at which `=` is expected.
fn equals_of(text: &[u8], at: usize) -> usize
    requires { at ≤ length text.now }
    ensures equals { result ≡ spec.equals_of text.now at }
    ensures within { result ≤ length text.now }
{
    skip(text, name_end(text, at))
}

/// Returns the offset at which the value of the option at an offset is expected.
pub(crate) fn value_of(text: &[u8], at: usize) -> usize
    requires { at ≤ length text.now }
    ensures value { result ≡ spec.value_of text.now at }
    ensures within { result ≤ length text.now + 1 }
{
    skip(text, equals_of(text, at) + 1)
}

// Returns the number of bytes of a value that begin a text.
fn value_len(text: &[u8]) -> usize
    ensures len { result ≡ length (take_while spec.is_value_byte text.now) }
    ensures within { result ≤ length text.now }
{
    text.iter().take_while(|b| is_value_byte(**b)).count()
}

/// Returns the value at an offset.
#[tactic(auto, using(crate::proofs::Fronts::take_front))]
pub(crate) fn value_at(text: &[u8], at: usize) -> &[u8]
    ensures value { result.now ≡ spec.value_at text.now at }
    ensures within { length result.now ≤ length text.now - at }
{
    let rest = from(text, at);
    &rest[..value_len(rest)]
}

/// Returns the offset after the value of the option at an offset.
pub(crate) fn option_end(text: &[u8], at: usize) -> usize
    requires { at ≤ length text.now }
    ensures end { result ≡ spec.option_end text.now at }
    ensures within { result ≤ length text.now + 1 }
{
    let start = value_of(text, at);
    start + value_at(text, start).len()
}

/// Whether an option is spelled at an offset, with a blank after it, and no runas behind that. Looks first whether a name
/// begins there, so that each one is read once.
#[tactic(auto, unfolding(crate::specs::Options::spells_option))]
pub(crate) fn spells_option(noted: bool, text: &[u8], at: usize) -> bool
    requires { at ≤ length text.now }
    ensures { result ≡ spec.spells_option noted text.now at }
{
    !is_name_byte(peek(text, at.saturating_sub(1)))
        && is_option(noted, name_at(text, at))
        && peek(text, equals_of(text, at)) == b'='
        && takes(name_at(text, at), value_at(text, value_of(text, at)))
        && is_blank(peek(text, option_end(text, at)))
        && peek(text, skip(text, option_end(text, at))) != b'('
}
