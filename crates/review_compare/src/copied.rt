//! Copies of the outcome of a comparison.
ghost use Rattle.std.specs.Prelude.{◌≡◌, IfOk, take};
ghost use Rattle.review_compare.specs.Body.Comparisons as body;

use crate::compared::{Compared, Decider};
use crate::text::atom_copied;
use crate::witness::Witness;
use std::alloc::{AllocError, Global};
use sudo_text::Seq;

// Returns a copy of a command with both verdicts.
fn copied_witness(alloc: Global, witness: &Witness) -> Result<Witness, AllocError>
    ensures { IfOk result (λ copy. copy ≡ witness.now) }
{
    Ok(Witness {
        command: Seq::from_slice(alloc, witness.command.as_slice())?,
        arguments: Seq::from_slice(alloc, witness.arguments.as_slice())?,
        old: witness.old,
        new: witness.new,
        answer: witness.answer,
    })
}

// Returns copies of commands with both verdicts.
fn copied_witnesses(alloc: Global, found: &[Witness]) -> Result<Vec<Witness>, AllocError>
    ensures { IfOk result (λ copies. copies.items ≡ found.now) }
{
    let mut copies = Vec::new(alloc);
    for witness in found {
        copies.push(copied_witness(alloc, witness)?)?;
    }
    Ok(copies)
}

// Returns a copy of a row, if there is one.
fn copied_decider(alloc: Global, decider: &Option<Decider>) -> Result<Option<Decider>, AllocError>
    ensures { IfOk result (λ copy. copy ≡ decider.now) }
{
    match decider {
        None => Ok(None),
        Some(decider) => Ok(Some(Decider {
            place: decider.place,
            answer: decider.answer,
            atom: atom_copied(alloc, &decider.atom)?,
        })),
    }
}

/// Returns a copy of the outcome of a comparison. Returns `AllocError` if allocation fails.
pub(crate) fn copied(alloc: Global, found: &Compared) -> Result<Compared, AllocError>
    ensures { IfOk result (body.IsCopy found.now) }
{
    match found {
        Compared::Same => Ok(Compared::Same),
        Compared::Differs(found) => {
            let copies = copied_witnesses(alloc, found.as_slice())?;
            Ok(Compared::Differs(Seq::from_vec(copies)))
        }
        Compared::May { old, new } => Ok(Compared::May {
            old: copied_decider(alloc, old)?,
            new: copied_decider(alloc, new)?,
        }),
    }
}
