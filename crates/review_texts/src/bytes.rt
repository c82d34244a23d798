//! Bytes of lines.
ghost use Rattle.std.specs.Prelude.{◌≡◌, ◌==◌, ◌≤◌, ◌+◌, max, length, slice_index, drop, take};
ghost use Rattle.std.specs.List.{list_any, take_while};
ghost use Rattle.std.specs.Str.{bytes_eq};
ghost use Rattle.sudo_text.specs.Bytes as spec;
ghost use Rattle.sudo_text.specs.Pieces as pieces;
ghost use Rattle.sudo_text.specs.Rules as rules;
ghost use Rattle.review_texts.specs.Words.{newline_count as the_count};

/// Whether a byte is a space or a tab.
pub(crate) fn is_blank(byte: u8) -> bool
    ensures { result ≡ spec.is_blank byte }
{
    byte == b' ' || byte == b'\t'
}

/// Whether a byte is below 32 and not a tab, or is 127.
pub(crate) fn is_control(byte: u8) -> bool
    ensures { result ≡ spec.is_control byte }
{
    (byte < 32 && byte != b'\t') || byte == 127
}

/// Whether a byte is a decimal digit.
pub(crate) fn is_digit(byte: u8) -> bool
    ensures { result ≡ spec.is_digit byte }
{
    b'0' <= byte && byte <= b'9'
}

/// Whether a byte is a hexadecimal digit.
pub(crate) fn is_hex(byte: u8) -> bool
    ensures { result ≡ spec.is_hex byte }
{
    is_digit(byte) || (b'a' <= byte && byte <= b'f') || (b'A' <= byte && byte <= b'F')
}

/// Whether a byte is one of `! = , : ( )`.
pub(crate) fn is_mark_byte(byte: u8) -> bool
    ensures { result ≡ pieces.is_mark_byte byte }
{
    byte == b'!' || byte == b'=' || byte == b',' || byte == b':' || byte == b'(' || byte == b')'
}

/// Whether two texts are equal.
pub(crate) fn is_text(bytes: &[u8], text: &[u8]) -> bool
    ensures { result ≡ bytes_eq bytes.now text.now }
{
    bytes == text
}

/// Returns the byte at an offset, or 0 past the end.
pub(crate) fn peek(text: &[u8], at: usize) -> u8
    ensures { result ≡ slice_index text.now at }
{
    if at < text.len() { text[at] } else { 0 }
}

/// Returns the text from an offset on, which is empty past the end.
pub(crate) fn from(text: &[u8], at: usize) -> &[u8]
    ensures { result.now ≡ drop at text.now }
{
    if at < text.len() { &text[at..] } else { &[] }
}

/// Returns so many bytes that begin a text, or all of fewer.
#[tactic(auto, using(crate::proofs::Fronts::take_shorter))]
pub(crate) fn front(text: &[u8], len: usize) -> &[u8]
    ensures { result.now ≡ take len text.now }
{
    if len < text.len() { &text[..len] } else { text }
}

/// Returns the number of blanks that begin a text.
fn blank_count(text: &[u8]) -> usize
    ensures count { result ≡ length (take_while spec.is_blank text.now) }
    ensures within { result ≤ length text.now }
{
    text.iter().take_while(|b| is_blank(**b)).count()
}

/// Returns the first offset from `at` on that is not a blank.
pub(crate) fn skip(text: &[u8], at: usize) -> usize
    requires { at ≤ length text.now + 1 }
    ensures skip { result ≡ pieces.skip text.now at }
    ensures within { result ≤ max at (length text.now) }
{
    at + blank_count(from(text, at))
}

/// Whether a text begins as a Defaults line does.
#[tactic(auto, unfolding(sudo_text::specs::Rules::begins_defaults))]
pub(crate) fn begins_defaults(text: &[u8]) -> bool
    ensures { result ≡ rules.begins_defaults text.now }
{
    let next = peek(text, 8);
    text.starts_with(b"Defaults")
        && (text.len() == 8
            || is_blank(next)
            || next == b'@'
            || next == b':'
            || next == b'!'
            || next == b'>')
}

/// Returns the number of newlines of a text.
pub(crate) fn newline_count(text: &[u8]) -> usize
    ensures { result ≡ the_count text.now }
{
    text.iter().filter(|byte| **byte == b'\n').count()
}

/// Whether a byte stands in a text.
pub(crate) fn has_byte(text: &[u8], byte: u8) -> bool
    ensures { result ≡ list_any (λ b. b == byte) text.now }
{
    text.iter().any(|b| *b == byte)
}
