//! Tables as text: one row a line, with ` =>` between a text and the expected result. A line that begins with `//` is a
//! comment.

use std::alloc::{AllocError, Global};

// Splits a row into its text and its expected result. Returns `None` for an empty line and a comment. A line without
// the arrow always fails.
fn row(line: &str) -> Option<(&str, &str)> {
    if line.is_empty() || line.starts_with("//") {
        return None;
    }
    Some(line.split_once(" =>").unwrap_or((line, "a row")))
}

// Returns the text of a row, with each backquote replaced by a newline.
fn unfolded(alloc: Global, text: &str) -> Result<String, AllocError> {
    let mut lines = String::new(alloc);
    for c in text.chars() {
        lines.push(if c == '`' { '\n' } else { c })?;
    }
    Ok(lines)
}

// Appends the row and its actual result, if that differs from the expected one.
fn compare(
    alloc: Global,
    wrong: &mut String,
    line: &str,
    wanted: &str,
    given: &str,
) -> Result<(), AllocError> {
    if given == wanted.trim() {
        return Ok(());
    }
    let found = format!(in alloc; "{line}, and not {given}\n")?;
    wrong.push_str(found.as_str())
}

// Returns the result for the text of a row.
fn given<S>(alloc: Global, text: &str, shown: &S) -> Result<String, AllocError>
where
    S: Fn(Global, &str) -> Result<String, AllocError>,
    requires { S.IsAlwaysCallable shown.now }
{
    let text = unfolded(alloc, text)?;
    shown(alloc, text.as_str())
}

// Checks one row: appends the row and its actual result, if that differs from the expected one.
fn check_row<S>(alloc: Global, wrong: &mut String, line: &str, shown: &S) -> Result<(), AllocError>
where
    S: Fn(Global, &str) -> Result<String, AllocError>,
    requires { S.IsAlwaysCallable shown.now }
{
    let Some((text, wanted)) = row(line) else {
        return Ok(());
    };
    let given = given(alloc, text, shown)?;
    compare(alloc, wrong, line, wanted, given.as_str())
}

/// Returns the rows of a table that fail, each with its actual result.
pub(crate) fn wrong_rows<S>(alloc: Global, table: &str, shown: S) -> Result<String, AllocError>
where
    S: Fn(Global, &str) -> Result<String, AllocError>,
    requires { S.IsAlwaysCallable shown }
{
    let mut wrong = String::new(alloc);
    for line in table.lines() {
        check_row(alloc, &mut wrong, line, &shown)?;
    }
    Ok(wrong)
}
