//! Rows without quotes, read in place.
ghost use Rattle.std.specs.Prelude.{◌≡◌, ◌≤◌, ◌<◌, ◌∷◌, ◌++◌, [], ℕ, List, true, IfSome, length, take};
ghost use Rattle.std.specs.List.{list_all};
ghost use Rattle.csv.specs.Reading.{default_config, records};
ghost use Rattle.audit_files.specs.Body.Requests.{fields_in};
ghost use Rattle.audit_files.specs.Rows.{records_of};
ghost use Rattle.audit_files.specs.Body.Plain.{IsBehind, IsFieldBefore, is_field_byte as field_test};

use crate::requests::RequestRow;

// Whether a byte stands for itself within a field: it is no comma, quote or end of a line.
fn is_field_byte(byte: u8) -> bool
    ensures { result ≡ field_test byte }
{
    byte != b',' && byte != b'"' && byte != b'\r' && byte != b'\n'
}

// Returns how many plain bytes a text begins with.
fn plain_bytes(text: &[u8]) -> usize
    ensures within { result ≤ length text.now }
    ensures plain { list_all field_test (take result text.now) ≡ true }
{
    for (at, byte) in text.iter().enumerate() {
        if !is_field_byte(*byte) {
            return at;
        }
    }
    text.len()
}

// Returns the field before a comma, and the text after the comma, if the field is plain.
fn field_before(text: &[u8]) -> Option<(&[u8], &[u8])>
    ensures { IfSome result (λ p. IsFieldBefore text.now p.0.now (44 ∷ p.1.now)) }
{
    let at = plain_bytes(text);
    if at >= text.len() || text[at] != b',' {
        return None;
    }
    Some((&text[..at], &text[at + 1..]))
}

// Returns the field before a line feed, and the text from the line feed on, if the field is plain.
fn last_field(text: &[u8]) -> Option<(&[u8], &[u8])>
    ensures { IfSome result (λ p. (after : List ℕ) × (p.1.now ≡ 10 ∷ after)
        × IsFieldBefore text.now p.0.now (10 ∷ after)) }
{
    let at = plain_bytes(text);
    if at >= text.len() || text[at] != b'\n' {
        return None;
    }
    Some((&text[..at], &text[at..]))
}

// Returns the row of seven plain fields that a text begins with, and the text from the end of its
// line on.
fn plain_row(text: &[u8]) -> Option<(RequestRow<'_>, &[u8])>
    ensures reads { IfSome result (λ p. records default_config text.now
        ≡ fields_in p.0 ∷ records_of p.1.now) }
    ensures behind { IfSome result (λ p. IsBehind text.now p.1.now) }
{
    let (number, rest) = field_before(text)?;
    let (user, rest) = field_before(rest)?;
    let (host, rest) = field_before(rest)?;
    let (runas_user, rest) = field_before(rest)?;
    let (runas_group, rest) = field_before(rest)?;
    let (command, rest) = field_before(rest)?;
    let (arguments, rest) = last_field(rest)?;
    let row = RequestRow {
        number,
        user,
        host,
        runas_user,
        runas_group,
        command,
        arguments,
    };
    Some((row, rest))
}

/// Returns the first row of a text and the text from the end of its line on, if the row is plain. A
/// byte order mark is not plain.
pub(crate) fn first_row(text: &[u8]) -> Option<(RequestRow<'_>, &[u8])>
    ensures reads { IfSome result (λ p. records_of text.now ≡ fields_in p.0 ∷ records_of p.1.now) }
    ensures behind { IfSome result (λ p. IsBehind text.now p.1.now) }
{
    let Some((first, _)) = text.split_first() else {
        return None;
    };
    if *first >= 128 {
        return None;
    }
    plain_row(text)
}

/// Returns the row after the end of a line, and the text from the end of its own line on, if the
/// row is plain.
pub(crate) fn next_row(text: &[u8]) -> Option<(RequestRow<'_>, &[u8])>
    ensures reads { IfSome result (λ p. records_of text.now ≡ fields_in p.0 ∷ records_of p.1.now) }
    ensures behind { IfSome result (λ p. IsBehind text.now p.1.now) }
{
    let Some((end, row)) = text.split_first() else {
        return None;
    };
    if *end != b'\n' {
        return None;
    }
    plain_row(row)
}
