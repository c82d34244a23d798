//! The physical lines with a sign (a carriage return, a backslash or a `#`), or with a colon or a blank before a `)`. No
//! other line has the construct of a class.
ghost use Rattle.std.specs.Prelude.{◌≡◌, ◌++◌, ◌≤◌, length, map, IfOk, OnOk, false};
ghost use Rattle.std.specs.List.{list_any};
ghost use Rattle.sudo_text.specs.Lines.{cut, place};
ghost use Rattle.review_cautions.specs.Cautions as cautions;
ghost use Rattle.review_cautions.specs.Cautions.{caution_at};
ghost use Rattle.review_cautions.specs.PhysicalLines.{numbers_of};
ghost use Rattle.review_cautions.specs.Body.Signs as spec;
ghost use Rattle.review_cautions.specs.declared.class.CautionClass.{CautionClass};

use crate::bytes::{cut_first, strip};
use crate::groups::has_late_close;
use crate::lines::{PhysicalLine, is_continued};
use memchr::memchr3;
use std::alloc::{AllocError, Global};
use sudo_text::{Place, TEXT_LIMIT};

// Whether a line has a sign.
fn has_sign(line: &[u8]) -> bool
    ensures { result ≡ list_any spec.is_sign line.now }
{
    memchr3(b'\r', b'\\', b'#', line).is_some()
}

// Whether a line may have the construct of a class.
fn may_hold(line: &[u8]) -> bool
    ensures { result ≡ spec.may_hold line.now }
{
    has_sign(line) || has_late_close(strip(line))
}

// Appends a physical line, if it may have the construct of a class.
fn push_signed<'a>(
    line: PhysicalLine<'a>,
    lines: &mut Vec<PhysicalLine<'a>>,
) -> Result<(), AllocError>
    ensures { OnOk result ((class : CautionClass) → spec.cautions_on class lines.new.items
        ≡ spec.cautions_on class lines.old.items ++ spec.line_cautions class line.entry) }
{
    if may_hold(line.bytes) {
        lines.push(line)?;
    }
    Ok(())
}

// Appends the physical lines of a file that may have the construct of a class.
fn push_signed_lines<'a>(
    file: u32,
    text: &'a [u8],
    lines: &mut Vec<PhysicalLine<'a>>,
) -> Result<(), AllocError>
    requires { length text.now ≤ TEXT_LIMIT }
    ensures { OnOk result ((class : CautionClass) → spec.cautions_on class lines.new.items
        ≡ spec.cautions_on class lines.old.items
        ++ map (λ number. caution_at class (place file number))
        (numbers_of class false 1 (cut text.now))) }
{
    let mut rest = text;
    let mut number = 1;
    let mut continuing = false;
    while !rest.is_empty() {
        let (bytes, after) = cut_first(rest);
        let line = PhysicalLine {
            place: Place { file, line: number },
            continuing,
            bytes,
            after,
        };
        push_signed(line, lines)?;
        continuing = is_continued(continuing, bytes);
        rest = after;
        number += 1;
    }
    Ok(())
}

// Appends these lines of a file, if it can be a file of a policy.
fn push_file<'a>(
    file: usize,
    text: &'a [u8],
    lines: &mut Vec<PhysicalLine<'a>>,
) -> Result<(), AllocError>
    ensures { OnOk result ((class : CautionClass) → spec.cautions_on class lines.new.items
        ≡ spec.cautions_on class lines.old.items ++ cautions.file_cautions class file text.now) }
{
    if file <= u32::MAX as usize && text.len() <= TEXT_LIMIT {
        push_signed_lines(file as u32, text, lines)
    } else {
        Ok(())
    }
}

/// Returns the physical lines of files that may have a caution. Returns `AllocError` if allocation fails.
pub(crate) fn signed_lines<'a>(
    alloc: Global,
    texts: &[&'a [u8]],
) -> Result<Vec<PhysicalLine<'a>>, AllocError>
    ensures { IfOk result (λ lines. (class : CautionClass) → spec.cautions_on class lines.items
        ≡ cautions.text_cautions class (map (λ t. t.now) texts.now)) }
{
    let mut lines = Vec::new(alloc);
    for (file, text) in texts.iter().enumerate() {
        push_file(file, text, &mut lines)?;
    }
    Ok(lines)
}
