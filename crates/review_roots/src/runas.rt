//! Blocks whose runas are alike: what one of them allows, each other one does.
ghost use Rattle.std.specs.Prelude.{◌≡◌, IfOk, option_copied, true};
ghost use Rattle.review_roots.specs.Body.Alike as spec;

use crate::alike::{are_alike, first_met};
use crate::block::Block;
use std::alloc::{AllocError, Global};
use sudo_base::Names;
use sudo_policy::{Atom, Member, Runas};
use sudo_text::Seq;

// Whether both lists are alike, or there is neither.
fn are_alike_or_none(list: &Option<Seq<Member>>, other: &Option<Seq<Member>>) -> bool
    ensures { result ≡ true → spec.AreAlikeOrNone list.now other.now }
{
    match (list, other) {
        (None, None) => true,
        (Some(list), Some(other)) => are_alike(list.as_slice(), other.as_slice()),
        _ => false,
    }
}

// Whether both runas have lists that are alike, or there is neither.
fn allow_alike(runas: Option<&Runas>, other: Option<&Runas>) -> bool
    ensures { result ≡ true → spec.AllowAlike (option_copied runas.entry)
        (option_copied other.entry) }
{
    match (runas, other) {
        (None, None) => true,
        (Some(runas), Some(other)) => {
            are_alike_or_none(&runas.users, &other.users)
                && are_alike_or_none(&runas.groups, &other.groups)
        }
        _ => false,
    }
}

// Returns the name of the first member of the list, if it has one.
fn first_name(list: &Option<Seq<Member>>) -> &[u8] {
    let Some(members) = list else {
        return b"";
    };
    match members.as_slice() {
        [first, ..] => {
            match &first.atom {
                Atom::Alias(name) => name.as_slice(),
                Atom::Name(name) => name.as_slice(),
                _ => b"",
            }
        }
        [] => b"",
    }
}

// Returns a text by which a runas like this one is found.
fn key_of(alloc: Global, runas: Option<&Runas>) -> Result<Vec<u8>, AllocError> {
    let mut key = Vec::new(alloc);
    if let Some(runas) = runas {
        key.push(b'(')?;
        key.extend_from_slice(first_name(&runas.users))?;
        if runas.groups.is_some() {
            key.push(b':')?;
            key.extend_from_slice(first_name(&runas.groups))?;
        }
    }
    Ok(key)
}

// Returns the other index if the runas of both blocks are alike, and otherwise the first one.
fn first_of_runas(blocks: &[Block<'_>], index: usize, other: usize) -> usize
    ensures { spec.IsFirstBy spec.HaveAlikeRunas blocks.now index result }
{
    match (blocks.get(index), blocks.get(other)) {
        (Some(block), Some(first)) if allow_alike(first.runas, block.runas) => other,
        _ => index,
    }
}

/// Returns for each block the index of an earlier one whose runas is alike, if one is found; otherwise its own. Returns `AllocError` if
/// allocation fails.
pub(crate) fn alike_runas(alloc: Global, blocks: &[Block<'_>]) -> Result<Vec<usize>, AllocError>
    ensures { IfOk result (λ firsts. spec.AreFirstsBy spec.HaveAlikeRunas blocks.now
        firsts.items) }
{
    let mut names = Names::new(alloc);
    let mut firsts = Vec::new(alloc);
    for index in 0..blocks.len() {
        let key = key_of(alloc, blocks[index].runas)?;
        let other = first_met(alloc, &mut names, &key, index)?;
        firsts.push(first_of_runas(blocks, index, other))?;
    }
    Ok(firsts)
}
