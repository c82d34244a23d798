//! Bytes of lines.
ghost use Rattle.std.specs.Prelude.{◌≡◌, ◌≤◌, length, not, reverse};
ghost use Rattle.std.specs.List.{take_while};
ghost use Rattle.sudo_text.specs.Bytes as spec;
ghost use Rattle.sudo_grammar.specs.Words as words;
ghost use Rattle.review_hints.specs.Stretches as stretches;

/// Whether a byte is a space or a tab.
pub(crate) fn is_blank(byte: u8) -> bool
    ensures { result ≡ spec.is_blank byte }
{
    byte == b' ' || byte == b'\t'
}

/// Whether a byte is an upper-case letter, a digit or an underscore.
pub(crate) fn is_name_byte(byte: u8) -> bool
    ensures { result ≡ words.is_name_byte byte }
{
    byte.is_ascii_uppercase() || byte.is_ascii_digit() || byte == b'_'
}

/// Whether a byte is a letter, a digit or an underscore.
pub(crate) fn is_word_byte(byte: u8) -> bool
    ensures { result ≡ stretches.is_word_byte byte }
{
    byte.is_ascii_lowercase() || is_name_byte(byte)
}

/// Returns the first byte of a text, and 0 if it is empty.
pub(crate) fn first_byte(text: &[u8]) -> u8
    ensures { result ≡ stretches.first_byte text.now }
{
    if text.is_empty() { 0 } else { text[0] }
}

/// Returns the last byte of a text, and 0 if it is empty.
pub(crate) fn last_byte(text: &[u8]) -> u8
    ensures { result ≡ stretches.last_byte text.now }
{
    if text.is_empty() {
        0
    } else {
        text[text.len() - 1]
    }
}

// Returns the number of blanks that begin a text.
fn blank_count(text: &[u8]) -> usize
    ensures count { result ≡ length (take_while spec.is_blank text.now) }
    ensures within { result ≤ length text.now }
{
    text.iter().take_while(|b| is_blank(**b)).count()
}

/// Strips the blanks from the front of a text.
pub(crate) fn without_indent(text: &[u8]) -> &[u8]
    ensures { result.now ≡ stretches.without_indent text.now }
{
    &text[blank_count(text)..]
}

// Returns the number of blanks at the end of a text.
fn end_blank_count(text: &[u8]) -> usize
    ensures count { result ≡ length (take_while spec.is_blank (reverse text.now)) }
    ensures within { result ≤ length text.now }
{
    text.iter().rev().take_while(|b| is_blank(**b)).count()
}

/// Strips the blanks from the end of a text.
pub(crate) fn trimmed(text: &[u8]) -> &[u8]
    ensures { result.now ≡ stretches.trimmed text.now }
{
    &text[..text.len() - end_blank_count(text)]
}

/// Returns the text before its end, without blanks around that end; nothing if it ends otherwise.
pub(crate) fn before_end<'a>(text: &'a [u8], end: &[u8]) -> &'a [u8]
    ensures { result.now ≡ stretches.before_end text.entry.now end.now }
{
    let text = trimmed(text);
    if text.ends_with(end) {
        trimmed(&text[..text.len() - end.len()])
    } else {
        &[]
    }
}

// Returns the number of letters, digits and underscores that begin a text.
fn word_len(text: &[u8]) -> usize
    ensures count { result ≡ length (take_while stretches.is_word_byte text.now) }
    ensures within { result ≤ length text.now }
{
    text.iter().take_while(|b| is_word_byte(**b)).count()
}

/// Splits a text into the word that begins it, of letters, digits and underscores, and the bytes behind that.
pub(crate) fn split_word(text: &[u8]) -> (&[u8], &[u8])
    ensures word { result.0.now ≡ stretches.first_word text.now }
    ensures rest { result.1.now ≡ stretches.after_word text.now }
{
    text.split_at(word_len(text))
}

// Returns the number of bytes before the first blank.
fn unbroken_len(text: &[u8]) -> usize
    ensures count { result ≡ length (take_while (λ b. not (spec.is_blank b)) text.now) }
    ensures within { result ≤ length text.now }
{
    text.iter().take_while(|b| !is_blank(**b)).count()
}

/// Returns the bytes before the first blank.
pub(crate) fn before_blank(text: &[u8]) -> &[u8]
    ensures { result.now ≡ stretches.before_blank text.now }
{
    &text[..unbroken_len(text)]
}

// Returns the number of upper-case letters, digits and underscores at the end of a text.
fn name_len(text: &[u8]) -> usize
    ensures count { result ≡ length (take_while words.is_name_byte (reverse text.now)) }
    ensures within { result ≤ length text.now }
{
    text.iter().rev().take_while(|b| is_name_byte(**b)).count()
}

/// Splits a text into the bytes before the name at its end, of upper-case letters, digits and underscores, and that name.
pub(crate) fn split_name(text: &[u8]) -> (&[u8], &[u8])
    ensures front { result.0.now ≡ stretches.before_name text.now }
    ensures name { result.1.now ≡ stretches.last_name text.now }
{
    text.split_at(text.len() - name_len(text))
}
