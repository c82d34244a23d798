//! The blocks of rows that decide whether a step has the least level.
ghost use Rattle.std.specs.Prelude.{◌≡◌};
ghost use Rattle.std.specs.List.{list_all};
ghost use Rattle.review_roots.specs.Body.Deciding as spec;

use crate::Level;
use crate::block::Block;
use crate::raising::block_raises;

// Whether the block does not raise, or settles what is given.
fn is_settled(least: Level, block: &Block<'_>) -> bool
    ensures { result ≡ spec.is_settled least block.now }
{
    !block_raises(least, block) || block.effect.settles()
}

/// Whether each of the blocks that raises settles what is given.
pub(crate) fn are_settled(least: Level, blocks: &[Block<'_>]) -> bool
    ensures { result ≡ list_all (spec.is_settled least) blocks.now }
{
    blocks.iter().all(|block| is_settled(least, block))
}

/// Returns the blocks from the first one on that raises.
pub(crate) fn from_raising<'b, 'a>(least: Level, blocks: &'b [Block<'a>]) -> &'b [Block<'a>]
    ensures { result.now ≡ spec.from_raising least blocks.now }
{
    let mut left = blocks;
    while let [first, rest @ ..] = left {
        if block_raises(least, first) {
            return left;
        }
        left = rest;
    }
    left
}

/// Returns the blocks that decide whether a step has the least level: those from the first one on that raises, if each block that
/// raises settles what is given, and otherwise all.
pub(crate) fn deciding<'b, 'a>(least: Level, blocks: &'b [Block<'a>]) -> &'b [Block<'a>]
    ensures { result.now ≡ spec.deciding least blocks.now }
{
    if are_settled(least, blocks) {
        from_raising(least, blocks)
    } else {
        blocks
    }
}
