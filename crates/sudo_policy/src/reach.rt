//! The aliases that links reach.
ghost use Rattle.std.specs.Prelude.{◌≡◌, ◌↔◌, ◌∷◌, [], ℕ, true, Some, Contains, IfOk, OnOk, length};
ghost use Rattle.sudo_policy.specs.Body.Graph.{IsClosed, IsInside, IsReached, MarksOf};
ghost use Rattle.sudo_policy.specs.Body.Marking.{AreSet, MarksRow, ReachedPast};

use std::alloc::{AllocError, Global};
use sudo_text::Seq;

/// Returns, for each alias, whether a root is it or reaches it.
pub(crate) fn reached(
    alloc: Global,
    links: &[Seq<Option<usize>>],
    roots: &[Option<usize>],
) -> Result<Vec<bool>, AllocError>
    requires closed { IsClosed links.now }
    requires inside { IsInside roots.now (length links.now) }
    ensures { IfOk result (λ marks. MarksOf (length links.now)
        (IsReached links.now roots.now) marks.items) }
{
    let mut marks = vec![in alloc; false; links.len()]?;
    spread(alloc, links, roots, marks.as_mut_slice())?;
    Ok(marks)
}

/// Marks the aliases that a root is or reaches along unmarked aliases, and returns those that it has marked.
pub(crate) fn spread(
    alloc: Global,
    links: &[Seq<Option<usize>>],
    roots: &[Option<usize>],
    marks: &mut [bool],
) -> Result<Vec<usize>, AllocError>
    requires closed { IsClosed links.now }
    requires inside { IsInside roots.now (length links.now) }
    requires sizes { length marks.old ≡ length links.now }
    ensures found { IfOk result (λ found. (i : ℕ) →
        Contains found.items i ↔ ReachedPast links.now roots.now marks.old i) }
    ensures marked { IfOk result (λ found. AreSet true found.items marks.old marks.new) }
{
    let mut found = Vec::new(alloc);
    let mut work = Vec::new(alloc);
    mark_row(roots, marks, &mut work)?;
    while let Some(alias) = work.pop() {
        found.push(alias)?;
        mark_row(links[alias].as_slice(), marks, &mut work)?;
    }
    Ok(found)
}

// Marks the aliases to which a row leads, and appends to `work` those that were unmarked.
fn mark_row(
    row: &[Option<usize>],
    marks: &mut [bool],
    work: &mut Vec<usize>,
) -> Result<(), AllocError>
    requires inside { IsInside row.now (length marks.old) }
    ensures { OnOk result (MarksRow row.now marks.old work.old.items marks.new work.new.items) }
{
    for link in row {
        mark_link(*link, marks, work)?;
    }
    Ok(())
}

// Marks the alias to which a link leads, and appends it to `work` if it was unmarked.
fn mark_link(
    link: Option<usize>,
    marks: &mut [bool],
    work: &mut Vec<usize>,
) -> Result<(), AllocError>
    requires inside { IsInside (link ∷ []) (length marks.old) }
    ensures { OnOk result (MarksRow (link ∷ []) marks.old work.old.items marks.new work.new.items) }
{
    let Some(alias) = link else {
        return Ok(());
    };
    if marks[alias] {
        return Ok(());
    }
    marks[alias] = true;
    work.push(alias)?;
    Ok(())
}
