//! Which blocks decide for a user: one that lists a user of one name alone decides for no other.
ghost use Rattle.std.specs.Prelude.{◌≡◌, ◌≤◌, IfOk, IsTrue, false, length, option_copied, true};
ghost use Rattle.std.specs.List.{list_all};
ghost use Rattle.sudo_grammar.specs.declared.policy.Policy.{Policy as ThePolicy};
ghost use Rattle.sudo_match.specs.declared.people.Person.{Person as ThePerson};
ghost use Rattle.review_roots.specs.Blocks.{block_resolves, lists};
ghost use Rattle.review_roots.specs.Body.Deciding.{AreCutIds, IsCut, IsPassed, is_called};

use crate::Level;
use crate::block::Block;
use crate::deciding::{are_settled, deciding, from_raising};
use crate::listing::sole_name;
use crate::raising::block_raises;
use crate::unnamed::named_ids;
use std::alloc::{AllocError, Global};
use sudo_match::Group;
use sudo_policy::Checked;

/// The name that is alone the user list of the first block that raises, if it is one name; where the blocks begin that decide for users of
/// other names; and the IDs of the groups that count for the user of the name, and for the others.
#[derive(Drop)]
pub(crate) struct Cut<'a> {
    pub(crate) name: Option<&'a [u8]>,
    pub(crate) start: usize,
    pub(crate) own_ids: Vec<u32>,
    pub(crate) ids: Vec<u32>,
}

// Returns the name that is alone the user list of the first block that raises, if it is one name.
fn front_name<'a>(least: Level, blocks: &[Block<'a>]) -> Option<&'a [u8]> {
    match from_raising(least, blocks) {
        [first, ..] => sole_name(first.users),
        [] => None,
    }
}

// Whether the user list of the block is the name alone.
fn is_of(name: Option<&[u8]>, block: &Block<'_>) -> bool
    ensures { result ≡ true → (p : ThePolicy) (u : ThePerson)
        → is_called (option_copied name.entry) u ≡ false → lists p u block.now ≡ false }
{
    match (name, sole_name(block.users)) {
        (Some(name), Some(sole)) => sole == name,
        _ => false,
    }
}

// Whether the block does not raise, or its user list is the name alone.
fn is_passed(least: Level, name: Option<&[u8]>, block: &Block<'_>) -> bool
    ensures { result ≡ true → IsPassed least (option_copied name.entry) block.now }
{
    !block_raises(least, block) || is_of(name, block)
}

// Returns the index of the first block that raises, and whose user list is not the name alone; or the beginning, if a block that raises
// does not settle what is given.
fn start_of(least: Level, blocks: &[Block<'_>], name: Option<&[u8]>) -> usize
    ensures inside { result ≤ length blocks.now }
    ensures cut { IsCut least (option_copied name.entry) blocks.now result }
{
    if !are_settled(least, blocks) {
        return 0;
    }
    for index in 0..blocks.len() {
        if !is_passed(least, name, &blocks[index]) {
            return index;
        }
    }
    blocks.len()
}

/// Returns which groups count for whom. Returns `AllocError` if allocation fails.
pub(crate) fn cut_of<'a>(
    alloc: Global,
    checked: &Checked,
    least: Level,
    blocks: &[Block<'a>],
    groups: &[Group],
) -> Result<Cut<'a>, AllocError>
    requires { IsTrue (list_all (block_resolves checked.now) blocks.now) }
    ensures { IfOk result (λ cut. AreCutIds checked.now least blocks.now groups.now cut) }
{
    let name = front_name(least, blocks);
    let start = start_of(least, blocks, name);
    let own_ids = named_ids(alloc, checked, deciding(least, blocks), blocks, groups)?;
    let ids = named_ids(alloc, checked, &blocks[start..], blocks, groups)?;
    Ok(Cut {
        name,
        start,
        own_ids,
        ids,
    })
}
