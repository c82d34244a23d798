//! What is known on all hosts.
ghost use Rattle.std.specs.Prelude.{◌≡◌, IsTrue};
ghost use Rattle.std.specs.List.{list_all};
ghost use Rattle.review_roots.specs.Blocks.{block_resolves};
ghost use Rattle.review_roots.specs.Body.Alike.{AreFirsts, AreFirstsBy, HaveAlikeRunas, user_list};
ghost use Rattle.review_roots.specs.Body.Raising.{block_raises, indices};

use crate::Level;
use crate::block::Block;
use sudo_match::{Directory, Group};
use sudo_policy::Checked;

/// The policy, the known users, the groups that may be added, the least level of a chain, the rows in blocks, and which of these
/// raise.
#[derive(Clone, Copy)]
pub(crate) struct Ground<'g, 'a> {
    pub(crate) checked: &'a Checked,
    pub(crate) directory: &'a Directory,
    pub(crate) groups: &'a [Group],
    pub(crate) least: Level,
    pub(crate) blocks: &'g [Block<'a>],
    // The indices of the blocks that raise.
    pub(crate) raising: &'g [usize],
    // For some blocks, the index of an earlier one with the same user list.
    pub(crate) alike: &'g [usize],
    // For some blocks, the index of an earlier one with the same runas.
    pub(crate) runas: &'g [usize],
    // Whether what steps to states with an added group depend on is kept.
    pub(crate) keeps: bool,
    ghost raised: { raising.now ≡ indices (block_raises least) blocks.now },
    ghost likened: { AreFirsts user_list blocks.now alike.now },
    ghost alike_runas: { AreFirstsBy HaveAlikeRunas blocks.now runas.now },
    ghost resolve: { IsTrue (list_all (block_resolves checked.now) blocks.now) },
}
