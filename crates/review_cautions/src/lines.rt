//! Cautions on physical lines.
ghost use Rattle.std.specs.Prelude.{◌≡◌, ◌++◌, OnOk, false};
ghost use Rattle.sudo_text.specs.Lines as text;
ghost use Rattle.sudo_text.specs.Lines.{cut};
ghost use Rattle.review_cautions.specs.PhysicalLines as spec;
ghost use Rattle.review_cautions.specs.PhysicalLines.{is_remark, stripped, first_line};
ghost use Rattle.review_cautions.specs.Body.Signs as body;

use crate::bytes::{
    cut_first, end_blank_count, ends_in_escape, has_byte, is_blank, is_comment, is_include, peek,
    strip, without_return,
};
use crate::comments::has_other_comment;
use crate::groups::has_empty_group;
use crate::joins::{has_slash, tears_mark, tears_word};
use crate::{Caution, CautionClass};
use std::alloc::{AllocError, Global};
use sudo_text::Place;

/// A physical line: its place, whether it continues another line, its bytes, and the text after it.
#[derive(Clone, Copy)]
pub(crate) struct PhysicalLine<'a> {
    pub(crate) place: Place,
    pub(crate) continuing: bool,
    pub(crate) bytes: &'a [u8],
    pub(crate) after: &'a [u8],
}

/// Whether the next line continues a physical line, which continues another one or not.
pub(crate) fn is_continued(continuing: bool, line: &[u8]) -> bool
    ensures { result ≡ text.is_continued continuing (stripped line.now) }
{
    let line = strip(line);
    (continuing || !is_comment(line)) && ends_in_escape(line)
}

// Whether a physical line, which continues another one or not, is a comment.
fn is_comment_line(continuing: bool, line: &[u8]) -> bool
    ensures { result ≡ is_remark continuing line.now }
{
    !continuing && is_comment(strip(line))
}

// Whether a word stands somewhere in a line.
fn contains(word: &[u8], line: &[u8]) -> bool
    ensures { result ≡ spec.contains word.now line.now }
{
    let mut rest = line;
    while let [_, after @ ..] = rest {
        if rest.starts_with(word) {
            return true;
        }
        rest = after;
    }
    false
}

// Whether a command may stand in a line, which continues another one or not.
fn may_have_command(continuing: bool, line: &[u8]) -> bool
    ensures { result ≡ spec.may_have_command continuing line.now }
{
    continuing || has_slash(line) || contains(b"sudoedit", line)
}

// Whether a carriage return that sudo may not drop ends a line.
fn ends_in_return(continuing: bool, line: &[u8]) -> bool
    ensures { result ≡ spec.ends_in_return continuing line.now }
{
    matches!(line, [.., b'\r'])
        && (may_have_command(continuing, line) || ends_in_escape(without_return(line)))
}

// Whether blanks end a line and an odd number of backslashes stands before them.
fn ends_in_escaped_blanks(line: &[u8]) -> bool
    ensures { result ≡ spec.ends_in_escaped_blanks line.now }
{
    let blanks = end_blank_count(line);
    blanks > 0 && ends_in_escape(&line[..line.len() - blanks])
}

// Whether a backslash stands directly before a byte in a line.
fn has_escape_of(byte: u8, line: &[u8]) -> bool
    ensures { result ≡ spec.has_escape_of byte false line.now }
{
    let mut behind = false;
    for other in line {
        if behind && *other == byte {
            return true;
        }
        behind = *other == b'\\';
    }
    false
}

// Whether an include line has a backslash that sudo reads otherwise.
fn has_path_escape(line: &[u8]) -> bool
    ensures { result ≡ spec.has_path_escape line.now }
{
    (has_byte(b'\\', line) && has_byte(b'"', line))
        || has_escape_of(b'x', line)
        || has_escape_of(b'%', line)
}

// Whether a line, as it is joined, is an include line with such a backslash, and continues no other.
fn is_escaped_include(continuing: bool, line: &[u8]) -> bool
    ensures { result ≡ spec.is_escaped_include continuing line.now }
{
    !continuing && is_include(line) && has_path_escape(line)
}

// Whether a physical line is an include line that begins with `#` behind blanks, and continues no other.
fn is_indented_include(continuing: bool, line: &[u8]) -> bool
    ensures { result ≡ spec.is_indented_include continuing line.now }
{
    if continuing || !is_blank(peek(line, 0)) {
        return false;
    }
    let text = strip(line);
    peek(text, 0) == b'#' && is_include(text)
}

// Whether a line begins as a Defaults line, bound or not.
fn is_defaults(line: &[u8]) -> bool
    ensures { result ≡ spec.is_defaults line.now }
{
    let behind = peek(line, 8);
    line.starts_with(b"Defaults")
        && (is_blank(behind)
            || behind == b'@'
            || behind == b':'
            || behind == b'!'
            || behind == b'>')
}

// Returns the first physical line of a text, and an empty one if the text has none.
fn first_of(text: &[u8]) -> &[u8]
    ensures { result.now ≡ first_line (cut text.now) }
{
    if text.is_empty() {
        return &[];
    }
    let (line, _) = cut_first(text);
    line
}

// Whether a physical line, which continues another one or not, has the construct of a class, before this text.
fn line_holds(class: CautionClass, continuing: bool, line: &[u8], after: &[u8]) -> bool
    ensures { result ≡ spec.line_holds class continuing line.now (first_line (cut after.now)) }
{
    match class {
        CautionClass::Return => ends_in_return(continuing, line),
        CautionClass::BlankAfterBackslash => ends_in_escaped_blanks(without_return(line)),
        CautionClass::Join => {
            let line = strip(line);
            ends_in_escape(line) && tears_word(line, strip(first_of(after)))
        }
        CautionClass::TornMark => {
            let line = strip(line);
            ends_in_escape(line) && tears_mark(line, strip(first_of(after)))
        }
        CautionClass::IncludeEscape => is_escaped_include(continuing, strip(line)),
        CautionClass::IncludeIndent => is_indented_include(continuing, line),
        CautionClass::Comment => has_other_comment(strip(line)) && !is_include(strip(line)),
        CautionClass::EmptyGroup => {
            let line = strip(line);
            has_empty_group(line, strip(first_of(after))) && !is_defaults(line)
        }
        _ => false,
    }
}

// Whether a physical line has the construct of a class, and is no comment but for the class of these.
fn is_marked(class: CautionClass, line: &PhysicalLine<'_>) -> bool
    ensures { result ≡ spec.is_marked class line.now.continuing line.now.bytes.now
        (first_line (cut line.now.after.now)) }
{
    line_holds(class, line.continuing, line.bytes, line.after)
        && (matches!(class, CautionClass::Comment) || !is_comment_line(line.continuing, line.bytes))
}

// Appends the caution on a physical line, if it has the construct of the class.
fn push_line(
    alloc: Global,
    class: CautionClass,
    line: &PhysicalLine<'_>,
    found: &mut Vec<Caution>,
) -> Result<(), AllocError>
    ensures { OnOk result (found.new.items ≡ found.old.items ++ body.line_cautions class line.now) }
{
    if is_marked(class, line) {
        found.push(Caution::on_line(alloc, class, line.place))?;
    }
    Ok(())
}

/// Appends the cautions of a class on physical lines. Returns `AllocError` if allocation fails.
pub(crate) fn push_lines(
    alloc: Global,
    class: CautionClass,
    lines: &[PhysicalLine<'_>],
    found: &mut Vec<Caution>,
) -> Result<(), AllocError>
    ensures { OnOk result (found.new.items ≡ found.old.items ++ body.cautions_on class lines.now) }
{
    for line in lines {
        push_line(alloc, class, line, found)?;
    }
    Ok(())
}
