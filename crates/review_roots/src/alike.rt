//! Lists that are one alias or name alone, or `ALL`: what one of them answers, each other one of the same does.
ghost use Rattle.std.specs.Prelude.{◌≡◌, ◌<◌, ◌∷◌, [], ℕ, IfOk, Some, slice_get, true};
ghost use Rattle.review_roots.specs.Body.Alike as spec;

use crate::block::Block;
use std::alloc::{AllocError, Global};
use sudo_base::Names;
use sudo_policy::{Atom, Member, alias_name};

// Whether both atoms are `ALL`, the same alias, or the same name.
fn is_same_atom(atom: &Atom, other: &Atom) -> bool
    ensures { result ≡ true → atom.now ≡ other.now }
{
    match (atom, other) {
        (Atom::All, Atom::All) => true,
        (Atom::Alias(name), Atom::Alias(another)) => name == another,
        (Atom::Name(name), Atom::Name(another)) => name == another,
        _ => false,
    }
}

// Whether the list is the same such atom alone as the member, as often negated.
fn is_sole(list: &[Member], member: &Member) -> bool
    ensures { result ≡ true → spec.AreAlike (member.now ∷ []) list.now }
{
    match list {
        [one] => one.bangs == member.bangs && is_same_atom(&one.atom, &member.atom),
        _ => false,
    }
}

/// Whether both lists are one such atom alone, the same one, as often negated.
pub(crate) fn are_alike(list: &[Member], other: &[Member]) -> bool
    ensures { result ≡ true → spec.AreAlike list.now other.now }
{
    match list {
        [one] => is_sole(other, one),
        _ => false,
    }
}

/// Returns the index with which the name was met first: this one, if it was not met. Returns `AllocError` if allocation fails.
pub(crate) fn first_met(
    alloc: Global,
    names: &mut Names,
    name: &[u8],
    index: usize,
) -> Result<usize, AllocError> {
    if let Some(first) = names.get(name) {
        return Ok(first);
    }
    names.insert(alloc, name, index)?;
    Ok(index)
}

// Returns the index with which the alias was met first that the list is alone; or this one.
fn first_with(
    alloc: Global,
    names: &mut Names,
    list: &[Member],
    index: usize,
) -> Result<usize, AllocError> {
    let [member] = list else {
        return Ok(index);
    };
    let Some(name) = alias_name(&member.atom) else {
        return Ok(index);
    };
    let first = first_met(alloc, names, name, index)?;
    Ok(first)
}

// Returns the other index if the user lists of both blocks are alike, and otherwise the first one.
fn first_of_users(blocks: &[Block<'_>], index: usize, other: usize) -> usize
    ensures { spec.IsFirst spec.user_list blocks.now index result }
{
    match (blocks.get(index), blocks.get(other)) {
        (Some(block), Some(first)) if are_alike(first.users, block.users) => other,
        _ => index,
    }
}

// Returns the other index if the host lists of both blocks are alike, and otherwise the first one.
fn first_of_hosts(blocks: &[Block<'_>], index: usize, other: usize) -> usize
    ensures { spec.IsFirst spec.host_list blocks.now index result }
{
    match (blocks.get(index), blocks.get(other)) {
        (Some(block), Some(first)) if are_alike(first.hosts, block.hosts) => other,
        _ => index,
    }
}

/// Returns for each block the index of the first one whose user list is the same alias alone; otherwise its own. Returns `AllocError` if
/// allocation fails.
pub(crate) fn alike_users(alloc: Global, blocks: &[Block<'_>]) -> Result<Vec<usize>, AllocError>
    ensures { IfOk result (λ firsts. spec.AreFirsts spec.user_list blocks.now firsts.items) }
{
    let mut names = Names::new(alloc);
    let mut firsts = Vec::new(alloc);
    for index in 0..blocks.len() {
        let other = first_with(alloc, &mut names, blocks[index].users, index)?;
        firsts.push(first_of_users(blocks, index, other))?;
    }
    Ok(firsts)
}

/// Returns the same by the host lists. Returns `AllocError` if allocation fails.
pub(crate) fn alike_hosts(alloc: Global, blocks: &[Block<'_>]) -> Result<Vec<usize>, AllocError>
    ensures { IfOk result (λ firsts. spec.AreFirsts spec.host_list blocks.now firsts.items) }
{
    let mut names = Names::new(alloc);
    let mut firsts = Vec::new(alloc);
    for index in 0..blocks.len() {
        let other = first_with(alloc, &mut names, blocks[index].hosts, index)?;
        firsts.push(first_of_hosts(blocks, index, other))?;
    }
    Ok(firsts)
}

/// Returns the index of the first block with such a list, if that is another one before it.
pub(crate) fn earlier(firsts: &[usize], index: usize) -> Option<usize>
    ensures { (first : ℕ) → result ≡ Some first
        → (slice_get firsts.now index ≡ Some first) × (first < index) }
{
    match firsts.get(index) {
        Some(first) => { if *first < index { Some(*first) } else { None } }
        None => None,
    }
}
