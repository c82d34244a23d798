//! What the join of a physical line to the next one tears apart. Lines are given as the reader joins them: without a
//! carriage return at their ends and blanks at their fronts.
ghost use Rattle.std.specs.Prelude.{◌≡◌, ◌≤◌, length};
ghost use Rattle.sudo_text.specs.Lines.{without_escape as without_escape_of};
ghost use Rattle.review_cautions.specs.PhysicalLines as spec;

use crate::bytes::{end_blank_count, ends_in_escape, is_blank, is_text, peek};
use crate::reserved::is_tag;

/// Whether a slash stands in a line, and so a command may.
pub(crate) fn has_slash(line: &[u8]) -> bool
    ensures { result ≡ spec.has_slash line.now }
{
    line.iter().any(|byte| *byte == b'/')
}

// Whether a byte stands between words; `command` says that a command may stand in the line, whose arguments may contain
// the byte.
fn parts_words(command: bool, byte: u8) -> bool
    ensures { result ≡ spec.parts_words command byte }
{
    is_blank(byte)
        || byte == b','
        || byte == b':'
        || (!command
            && (byte == b'"' || byte == b'=' || byte == b'(' || byte == b')' || byte == b'!'))
}

// Returns the last byte of a line, or 0 if it is empty.
fn last_byte(line: &[u8]) -> u8
    ensures { result ≡ spec.last_byte line.now }
{
    match line {
        [] => 0,
        [.., last] => *last,
    }
}

// Returns a line without its last byte, if it has one.
fn without_escape(line: &[u8]) -> &[u8]
    ensures { result.now ≡ without_escape_of line.now }
{
    match line {
        [] => line,
        [front @ .., _] => front,
    }
}

// Whether the last byte of a line belongs to a word.
fn ends_in_word(command: bool, line: &[u8]) -> bool
    ensures { result ≡ spec.ends_in_word command line.now }
{
    !line.is_empty()
        && (!parts_words(command, last_byte(line)) || ends_in_escape(without_escape(line)))
}

// Whether the first byte of a line belongs to a word.
fn begins_in_word(command: bool, line: &[u8]) -> bool
    ensures { result ≡ spec.begins_in_word command line.now }
{
    !line.is_empty() && !(peek(line, 0) == b'#' || parts_words(command, peek(line, 0)))
}

// Whether a line is the word `Defaults` alone, or with the mark of a list to which the line is bound.
fn is_keyword(line: &[u8]) -> bool
    ensures { result ≡ spec.is_keyword line.now }
{
    is_text(line, b"Defaults")
        || is_text(line, b"Defaults@")
        || is_text(line, b"Defaults:")
        || is_text(line, b"Defaults!")
        || is_text(line, b"Defaults>")
}

// Returns a line without the blanks at its end.
fn without_end_blanks(line: &[u8]) -> &[u8]
    ensures { result.now ≡ spec.without_end_blanks line.now }
{
    &line[..line.len() - end_blank_count(line)]
}

// Returns the number of bytes at the end of a line that belong to one word.
fn end_word_length(line: &[u8]) -> usize
    ensures count { result ≡ spec.end_word_length line.now }
    ensures within { result ≤ length line.now }
{
    line.iter()
        .rev()
        .take_while(|byte| !parts_words(false, **byte))
        .count()
}

// Returns the word at the end of a line.
fn end_word(line: &[u8]) -> &[u8]
    ensures { result.now ≡ spec.end_word line.now }
{
    &line[line.len() - end_word_length(line)..]
}

// Whether a line begins with a byte, or has nothing but a backslash.
fn may_begin(byte: u8, line: &[u8]) -> bool
    ensures { result ≡ spec.may_begin byte line.now }
{
    peek(line, 0) == byte || is_text(line, b"\\")
}

// Whether a line ends in the name of a tag, and blanks or none, and the next one may begin with its colon.
fn tears_tag(line: &[u8], next: &[u8]) -> bool
    ensures { result ≡ spec.tears_tag line.now next.now }
{
    may_begin(b':', next) && is_tag(end_word(without_end_blanks(line)))
}

// Whether a line ends in `!`, and the next one may begin with another.
fn tears_bangs(line: &[u8], next: &[u8]) -> bool
    ensures { result ≡ spec.tears_bangs line.now next.now }
{
    last_byte(line) == b'!' && may_begin(b'!', next)
}

// Whether a line ends in a percent sign, as before the name of a group.
fn tears_group(line: &[u8]) -> bool
    ensures { result ≡ spec.tears_group line.now }
{
    last_byte(line) == b'%'
}

// Whether a line ends in `+` or `-`, and the next one begins with `=`.
fn tears_operator(line: &[u8], next: &[u8]) -> bool
    ensures { result ≡ spec.tears_operator line.now next.now }
{
    let last = last_byte(line);
    (last == b'+' || last == b'-') && peek(next, 0) == b'='
}

// Whether a line begins as a definition of aliases or a Defaults line does.
fn begins_definition(line: &[u8]) -> bool
    ensures { result ≡ spec.begins_definition line.now }
{
    line.starts_with(b"Defaults")
        || line.starts_with(b"User_Alias")
        || line.starts_with(b"Runas_Alias")
        || line.starts_with(b"Host_Alias")
        || line.starts_with(b"Cmnd_Alias")
        || line.starts_with(b"Cmd_Alias")
}

// Whether nothing stands in a line, and a definition of aliases or a Defaults line is the next one.
fn tears_definition(line: &[u8], next: &[u8]) -> bool
    ensures { result ≡ spec.tears_definition line.now next.now }
{
    is_text(line, b"") && begins_definition(next)
}

// Whether a line ends in a mark that the next one ends, or has nothing before a definition.
fn ends_in_mark(line: &[u8], next: &[u8]) -> bool
    ensures { result ≡ spec.ends_in_mark line.now next.now }
{
    is_keyword(line)
        || tears_group(line)
        || tears_tag(line, next)
        || tears_bangs(line, next)
        || tears_operator(line, next)
        || tears_definition(line, next)
}

/// Whether a line is joined to the next one inside a word.
pub(crate) fn tears_word(line: &[u8], next: &[u8]) -> bool
    ensures { result ≡ spec.tears_word line.now next.now }
{
    if !ends_in_escape(line) {
        return false;
    }
    let command = has_slash(line);
    ends_in_word(command, without_escape(line)) && begins_in_word(command, next)
}

/// Whether a line is joined to the next one within a mark that sudo wants on one line.
pub(crate) fn tears_mark(line: &[u8], next: &[u8]) -> bool
    ensures { result ≡ spec.tears_mark line.now next.now }
{
    ends_in_escape(line) && ends_in_mark(without_escape(line), next)
}
