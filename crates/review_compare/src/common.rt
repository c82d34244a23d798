//! The common prefix and suffix of two policies' blocks: blocks that answer the same to every question. Where no block between
//! them stands for a question, both policies say the same to every command.
ghost use Rattle.std.specs.Prelude.{◌≡◌, ◌≤◌, ◌+◌, ℕ, IfOk, IsTrue, length, map, option_copied, option_map, true};
ghost use Rattle.sudo_grammar.specs.declared.kind.Kind.TheVariants as kind;
ghost use Rattle.sudo_policy.specs.Resolving.{list_resolves, resolves, runas_resolves};
ghost use Rattle.sudo_policy.specs.Written.{written_form};
ghost use Rattle.sudo_verdict.specs.Questions.{Question};
ghost use Rattle.sudo_verdict.specs.RunasForms.{runas_allows};
ghost use Rattle.review_compare.specs.Blocks.{block_resolves};
ghost use Rattle.review_compare.specs.Cells.{ruling_by};
ghost use Rattle.review_compare.specs.Body.Chosen.{deciders_at};
ghost use Rattle.review_compare.specs.Body.Unchanged as body;

use crate::alike::is_same_atom;
use crate::block::Block;
use crate::compared::have_same_rulings;
use crate::side::{Side, rows_at};
use std::alloc::{AllocError, Global};
use sudo_policy::{Checked, Kind, Member, Runas, Signed, write_out};
use sudo_text::Seq;

/// The lengths of the common prefix and suffix of two policies' blocks.
#[derive(Clone, Copy)]
pub(crate) struct Common {
    pub(crate) front: usize,
    pub(crate) back: usize,
}

// Whether two members of lists that are written out are the same.
fn is_same_signed(signed: &Signed, other: &Signed) -> bool
    ensures { result ≡ true → signed.now ≡ other.now }
{
    if signed.negated != other.negated {
        return false;
    }
    is_same_atom(&signed.atom, &other.atom)
}

// Whether two lists that are written out are the same.
fn are_same_signed(list: &[Signed], others: &[Signed]) -> bool
    ensures { result ≡ true → list.now ≡ others.now }
{
    let mut own = list;
    let mut left = others;
    while let [signed, rest @ ..] = own {
        let [other, more @ ..] = left else {
            return false;
        };
        if !is_same_signed(signed, other) {
            return false;
        }
        own = rest;
        left = more;
    }
    left.is_empty()
}

// Returns a list written out.
fn written(
    alloc: Global,
    checked: &Checked,
    kind: Kind,
    list: &[Member],
) -> Result<Vec<Signed>, AllocError>
    requires { IsTrue (resolves kind checked.now list.now) }
    ensures { IfOk result (λ atoms. atoms.items ≡ written_form kind checked.now list.now) }
{
    let mut atoms = Vec::new(alloc);
    write_out(alloc, checked, kind, list, false, &mut atoms)?;
    Ok(atoms)
}

// Whether a list of one policy and a list of the other are the same, written out.
fn are_written_alike(
    alloc: Global,
    kind: Kind,
    old: &Checked,
    list: &[Member],
    new: &Checked,
    other: &[Member],
) -> Result<bool, AllocError>
    requires old { IsTrue (resolves kind old.now list.now) }
    requires new { IsTrue (resolves kind new.now other.now) }
    ensures { IfOk result (λ alike. alike ≡ true
        → written_form kind old.now list.now ≡ written_form kind new.now other.now) }
{
    let own = written(alloc, old, kind, list)?;
    let others = written(alloc, new, kind, other)?;
    Ok(are_same_signed(&own, &others))
}

// Whether two lists of a runas, either of which may be absent, are the same, written out.
fn are_runas_alike(
    alloc: Global,
    old: &Checked,
    list: &Option<Seq<Member>>,
    new: &Checked,
    other: &Option<Seq<Member>>,
) -> Result<bool, AllocError>
    requires old { IsTrue (list_resolves old.now list.now) }
    requires new { IsTrue (list_resolves new.now other.now) }
    ensures { IfOk result (λ alike. alike ≡ true
        → body.written_if old.now list.now ≡ body.written_if new.now other.now) }
{
    match (list, other) {
        (None, None) => Ok(true),
        (Some(list), Some(other)) => {
            let (list, other) = (list.as_slice(), other.as_slice());
            are_written_alike(alloc, Kind::Runas, old, list, new, other)
        }
        _ => Ok(false),
    }
}

// Whether both lists of a runas of one policy and of one of the other are the same, written out.
fn are_parts_alike(
    alloc: Global,
    old: &Checked,
    runas: &Runas,
    new: &Checked,
    other: &Runas,
) -> Result<bool, AllocError>
    requires old { IsTrue (list_resolves old.now runas.now.users)
        × IsTrue (list_resolves old.now runas.now.groups) }
    requires new { IsTrue (list_resolves new.now other.now.users)
        × IsTrue (list_resolves new.now other.now.groups) }
    ensures { IfOk result (λ alike. alike ≡ true → body.ArePartsAlike old.now runas.now new.now
        other.now) }
{
    if !are_runas_alike(alloc, old, &runas.users, new, &other.users)? {
        return Ok(false);
    }
    are_runas_alike(alloc, old, &runas.groups, new, &other.groups)
}

/// Whether the runas of two blocks allow the same targets and groups, by their lists written out. Returns `AllocError` if
/// allocation fails.
pub(crate) fn allow_alike(
    alloc: Global,
    old: &Checked,
    runas: Option<&Runas>,
    new: &Checked,
    other: Option<&Runas>,
) -> Result<bool, AllocError>
    requires old { IsTrue (runas_resolves old.now (option_copied runas)) }
    requires new { IsTrue (runas_resolves new.now (option_copied other)) }
    ensures { IfOk result (λ alike. alike ≡ true → (q : Question)
        → runas_allows old.now q (option_copied runas.entry)
        ≡ runas_allows new.now q (option_copied other.entry)) }
{
    match (runas, other) {
        (None, None) => Ok(true),
        (Some(runas), Some(other)) => are_parts_alike(alloc, old, runas, new, other),
        _ => Ok(false),
    }
}

// Whether two blocks stand for the same questions, by their lists written out.
fn stand_alike(
    alloc: Global,
    old: &Checked,
    block: &Block<'_>,
    new: &Checked,
    other: &Block<'_>,
) -> Result<bool, AllocError>
    requires old { IsTrue (block_resolves old.now block.now) }
    requires new { IsTrue (block_resolves new.now other.now) }
    ensures { IfOk result (λ alike. alike ≡ true
        → body.StandAlike old.now block.now new.now other.now) }
{
    if !are_written_alike(alloc, Kind::User, old, block.users, new, other.users)? {
        return Ok(false);
    }
    if !are_written_alike(alloc, Kind::Host, old, block.hosts, new, other.hosts)? {
        return Ok(false);
    }
    allow_alike(alloc, old, block.runas, new, other.runas)
}

/// Whether the rows of the blocks at these indices answer the same, one by one. Returns `AllocError` if allocation fails.
pub(crate) fn have_same_rows(
    alloc: Global,
    old: &[Block<'_>],
    index: usize,
    new: &[Block<'_>],
    other: usize,
) -> Result<bool, AllocError>
    ensures { IfOk result (λ same. same ≡ true → map ruling_by (deciders_at old.now index)
        ≡ map ruling_by (deciders_at new.now other)) }
{
    let own = rows_at(alloc, old, &[index])?;
    let others = rows_at(alloc, new, &[other])?;
    Ok(have_same_rulings(&own, &others))
}

// Whether the blocks at these indices answer the same to every question.
fn are_alike_at(
    alloc: Global,
    old: &Side<'_>,
    index: usize,
    new: &Side<'_>,
    other: usize,
) -> Result<bool, AllocError>
    ensures { IfOk result (λ alike. alike ≡ true
        → body.AreAlikeAt old.now.checked.now old.now.blocks.items new.now.checked.now
        new.now.blocks.items index other) }
{
    let (Some(block), Some(counterpart)) = (old.blocks.get(index), new.blocks.get(other)) else {
        return Ok(false);
    };
    if !stand_alike(alloc, old.checked, block, new.checked, counterpart)? {
        return Ok(false);
    }
    have_same_rows(alloc, &old.blocks, index, &new.blocks, other)
}

// Returns the length of the common prefix.
fn front_of(alloc: Global, old: &Side<'_>, new: &Side<'_>) -> Result<usize, AllocError>
    ensures alike { IfOk result (body.IsFront old.now.checked.now old.now.blocks.items
        new.now.checked.now new.now.blocks.items) }
    ensures within { IfOk result (λ front. (front ≤ length old.now.blocks.items)
        × (front ≤ length new.now.blocks.items)) }
{
    let most = old.blocks.len().min(new.blocks.len());
    for front in 0..most {
        if !are_alike_at(alloc, old, front, new, front)? {
            return Ok(front);
        }
    }
    Ok(most)
}

// Returns the length of the common suffix of the blocks behind a common prefix of this length.
fn back_of(alloc: Global, old: &Side<'_>, new: &Side<'_>, front: usize) -> Result<usize, AllocError>
    requires { (front ≤ length old.now.blocks.items) × (front ≤ length new.now.blocks.items) }
    ensures alike { IfOk result (body.IsBack old.now.checked.now old.now.blocks.items
        new.now.checked.now new.now.blocks.items) }
    ensures within { IfOk result (λ back. (front + back ≤ length old.now.blocks.items)
        × (front + back ≤ length new.now.blocks.items)) }
{
    let old_end = old.blocks.len();
    let new_end = new.blocks.len();
    let most = (old_end - front).min(new_end - front);
    for back in 0..most {
        if !are_alike_at(alloc, old, old_end - back - 1, new, new_end - back - 1)? {
            return Ok(back);
        }
    }
    Ok(most)
}

/// Returns the lengths of the common prefix and suffix. Returns `AllocError` if allocation fails.
pub(crate) fn common_of(alloc: Global, old: &Side<'_>, new: &Side<'_>) -> Result<Common, AllocError>
    ensures { IfOk result (body.AreCommon old.now.checked.now old.now.blocks.items
        new.now.checked.now new.now.blocks.items) }
{
    let front = front_of(alloc, old, new)?;
    let back = back_of(alloc, old, new, front)?;
    Ok(Common { front, back })
}
