//! CSV records written to memory, field by field.
ghost use Rattle.std.specs.Prelude.{◌≡◌, ◌++◌, ◌∷◌, [], ℕ, List, OnOk};
ghost use Rattle.csv.specs.Writing.{default_writer, escaped, field_text, row_text, needs_quotes as quotes_needed};
ghost use Rattle.csv.specs.Quoting.{needs_byte};

use std::alloc::AllocError;

// Whether a byte may stand only in a field between quotes.
fn is_special(byte: u8) -> bool
    ensures { result ≡ needs_byte default_writer byte }
{
    byte == b',' || byte == b'"' || byte == b'\r' || byte == b'\n'
}

fn needs_quotes(field: &[u8]) -> bool
    ensures { result ≡ quotes_needed default_writer field.now }
{
    field.iter().any(|byte| is_special(*byte))
}

// Appends a byte of a field between quotes: a quote is doubled.
#[tactic(auto, using(crate::proofs::QuotedRows::escaped_quote, crate::proofs::QuotedRows::escaped_other))]
fn push_escaped(text: &mut Vec<u8>, byte: u8) -> Result<(), AllocError>
    ensures { OnOk result (text.new.items
        ≡ text.old.items ++ escaped default_writer (byte ∷ [])) }
{
    if byte == b'"' {
        return text.extend_from_slice(b"\"\"");
    }
    text.push(byte)?;
    Ok(())
}

// Appends a field between quotes.
fn push_quoted(text: &mut Vec<u8>, field: &[u8]) -> Result<(), AllocError>
    ensures { OnOk result (text.new.items
        ≡ text.old.items ++ 34 ∷ (escaped default_writer field.now ++ 34 ∷ [])) }
{
    text.push(b'"')?;
    for byte in field {
        push_escaped(text, *byte)?;
    }
    text.push(b'"')?;
    Ok(())
}

/// Appends a field of a CSV record, between quotes if it has a byte that calls for them. Returns `AllocError` if
/// allocation failed.
pub fn push_field(text: &mut Vec<u8>, field: &[u8]) -> Result<(), AllocError>
    ensures { OnOk result (text.new.items
        ≡ text.old.items ++ field_text default_writer field.now) }
{
    if needs_quotes(field) {
        return push_quoted(text, field);
    }
    text.extend_from_slice(field)
}

/// Appends a comma and a field of a CSV record, as `push_field` does.
pub fn push_next_field(text: &mut Vec<u8>, field: &[u8]) -> Result<(), AllocError>
    ensures { OnOk result (text.new.items
        ≡ text.old.items ++ 44 ∷ field_text default_writer field.now) }
{
    text.push(b',')?;
    push_field(text, field)
}

/// Appends four fields after a first, each after a comma, and the end of the record.
pub(crate) fn push_four(
    text: &mut Vec<u8>,
    second: &[u8],
    third: &[u8],
    fourth: &[u8],
    fifth: &[u8],
) -> Result<(), AllocError>
    ensures { OnOk result ((first start : List ℕ)
        → text.old.items ≡ start ++ field_text default_writer first
        → text.new.items ≡ start ++ row_text default_writer
        (first ∷ second.now ∷ third.now ∷ fourth.now ∷ fifth.now ∷ [])) }
{
    push_next_field(text, second)?;
    push_next_field(text, third)?;
    push_next_field(text, fourth)?;
    push_next_field(text, fifth)?;
    text.push(b'\n')?;
    Ok(())
}
