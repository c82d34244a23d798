//! The blocks of rows without which no level is reached.
ghost use Rattle.std.specs.Prelude.{◌≡◌, ◌++◌, ◌∷◌, [], IfOk, OnOk, if◌then◌else◌};
ghost use Rattle.review_roots.specs.Body.Raising as spec;

use crate::Level;
use crate::block::{Block, Sign};
use std::alloc::{AllocError, Global};

/// Appends the index, if its block passes.
pub(crate) fn push_if(found: &mut Vec<usize>, index: usize, passes: bool) -> Result<(), AllocError>
    ensures { OnOk result (found.new.items
        ≡ found.old.items ++ (if passes then index ∷ [] else [])) }
{
    if passes {
        found.push(index)?;
    }
    Ok(())
}

// Whether the level is the least one or a better one behind the sign, whatever it was before.
fn raises(least: Level, sign: Sign) -> bool
    ensures { result ≡ spec.raises least sign }
{
    !sign.negated && (sign.all || Level::Listed.is_at_least(least))
}

/// Whether a sign of the block raises.
pub(crate) fn block_raises(least: Level, block: &Block<'_>) -> bool
    ensures { result ≡ spec.block_raises least block.now }
{
    block.signs.iter().any(|sign| raises(least, *sign))
}

/// Returns the indices of the blocks that raise. Returns `AllocError` if allocation fails.
pub(crate) fn raising_of(
    alloc: Global,
    least: Level,
    blocks: &[Block<'_>],
) -> Result<Vec<usize>, AllocError>
    ensures { IfOk result (λ raising. raising.items
        ≡ spec.indices (spec.block_raises least) blocks.now) }
{
    let mut raising = Vec::new(alloc);
    for index in 0..blocks.len() {
        let passes = block_raises(least, &blocks[index]);
        push_if(&mut raising, index, passes)?;
    }
    Ok(raising)
}
