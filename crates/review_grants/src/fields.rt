//! Texts with a comma and a space between them, and fields of a record.
ghost use Rattle.std.specs.Prelude.{◌≡◌, ◌++◌, ◌∷◌, [], OnOk, drop};
ghost use Rattle.csv.specs.Writing.{default_writer, fields_text};

use audit_files::push_next_field;
use std::alloc::AllocError;

/// Appends texts that each stand behind a comma and a space, without the first of these. Returns `AllocError` if allocation
/// failed.
pub(crate) fn push_joined(text: &mut Vec<u8>, separated: &[u8]) -> Result<(), AllocError>
    ensures { OnOk result (text.new.items ≡ text.old.items ++ drop 2 separated.now) }
{
    match separated {
        [_, _, rest @ ..] => text.extend_from_slice(rest),
        _ => Ok(()),
    }
}

/// Appends one further field of a record. Returns `AllocError` if allocation failed.
#[tactic(auto, unfolding(csv::specs::Writing::fields_text))]
pub(crate) fn push_one(text: &mut Vec<u8>, field: &[u8]) -> Result<(), AllocError>
    ensures { OnOk result (text.new.items
        ≡ text.old.items ++ fields_text default_writer (field.now ∷ [])) }
{
    push_next_field(text, field)
}
