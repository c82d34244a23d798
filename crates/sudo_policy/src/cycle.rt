//! The aliases on cycles.
ghost use Rattle.std.specs.Prelude.{◌≡◌, ◌↔◌, ◌<◌, ◌∷◌, [], ℕ, Contains, IfOk, OnOk, length, map, not, replicate, true};
ghost use Rattle.sudo_policy.specs.Body.Graph.{IsClosed, IsInside, MarksOf, Path, StatesHold, IsSettled, is_looped};
ghost use Rattle.sudo_policy.specs.declared.graph.State.{State};
ghost use Rattle.std.specs.Prelude.{Some, slice_get};
ghost use Rattle.std.specs.List.{list_any};
ghost use Rattle.sudo_policy.specs.Body.Marking.{AreSet, DecidesCycles, IsMarked, IsUnmarked, IsClosedOverCycles};
ghost use Rattle.sudo_policy.specs.Body.Marking.{PathPast, ReversesRow, ReversesUpTo};

use crate::graph::State;
use crate::reach::spread;
use std::alloc::{AllocError, Global};
use sudo_text::Seq;

/// Returns, for each alias, whether it reaches itself.
///
/// The result does not depend on the order of `looped`. The time is linear if `looped` contains the aliases that reach
/// a cycle, in the order in which their visits ended.
pub(crate) fn cycles(
    alloc: Global,
    links: &[Seq<Option<usize>>],
    states: &[State],
    looped: &[usize],
) -> Result<Vec<bool>, AllocError>
    requires closed { IsClosed links.now }
    requires sizes { length states.now ≡ length links.now }
    requires holds { StatesHold links.now states.now }
    requires settled { (i : ℕ) (s : State) → slice_get states.now i ≡ Some s → IsSettled s }
    ensures { IfOk result (λ marks.
        MarksOf (length links.now) (λ i. Path links.now i i) marks.items) }
{
    let mut cyclic = vec![in alloc; false; links.len()]?;
    if !any_looped(states) {
        return Ok(cyclic);
    }
    let back = reversed(alloc, links)?;
    let mut done = not_looped(alloc, states)?;
    let mut aside = vec![in alloc; true; links.len()]?;
    decide_all(
        alloc,
        links,
        back.as_slice(),
        looped,
        done.as_mut_slice(),
        aside.as_mut_slice(),
        cyclic.as_mut_slice(),
    )?;
    Ok(cyclic)
}

// Whether some alias reaches a cycle.
fn any_looped(states: &[State]) -> bool
    ensures { result ≡ list_any is_looped states.now }
{
    states.iter().any(|state| matches!(state, State::Looped))
}

// Returns, for each alias, whether it reaches no cycle.
fn not_looped(alloc: Global, states: &[State]) -> Result<Vec<bool>, AllocError>
    ensures { IfOk result (λ marks. marks.items ≡ map (λ s. not (is_looped s)) states.now) }
{
    states
        .iter()
        .map(|state| !matches!(state, State::Looped))
        .collect(alloc)
}

// Decides, for each alias, whether it is on a cycle: first for those that reach one, beginning with the last of them.
fn decide_all(
    alloc: Global,
    links: &[Seq<Option<usize>>],
    back: &[Seq<Option<usize>>],
    looped: &[usize],
    done: &mut [bool],
    aside: &mut [bool],
    cyclic: &mut [bool],
) -> Result<(), AllocError>
    requires closed { IsClosed links.now }
    requires turned { ReversesUpTo links.now (length links.now) back.now }
    requires decided { DecidesCycles links.now done.old cyclic.old }
    requires aside { aside.old ≡ replicate (length links.now) true }
    ensures { OnOk result (MarksOf (length links.now) (λ i. Path links.now i i) cyclic.new) }
{
    for node in looped.iter().rev() {
        decide(alloc, links, back, *node, done, aside, cyclic)?;
    }
    for node in 0..links.len() {
        decide(alloc, links, back, node, done, aside, cyclic)?;
    }
    Ok(())
}

// Decides whether an alias is on a cycle, and with it the aliases on a cycle through it.
fn decide(
    alloc: Global,
    links: &[Seq<Option<usize>>],
    back: &[Seq<Option<usize>>],
    node: usize,
    done: &mut [bool],
    aside: &mut [bool],
    cyclic: &mut [bool],
) -> Result<(), AllocError>
    requires closed { IsClosed links.now }
    requires turned { ReversesUpTo links.now (length links.now) back.now }
    requires decided { DecidesCycles links.now done.old cyclic.old }
    requires aside { aside.old ≡ replicate (length links.now) true }
    ensures decided { OnOk result (DecidesCycles links.now done.new cyclic.new) }
    ensures aside { OnOk result (aside.new ≡ aside.old) }
    ensures kept { OnOk result ((i : ℕ) → IsMarked done.old i → IsMarked done.new i) }
    ensures here { OnOk result (node < length links.now → IsMarked done.new node) }
{
    if node >= done.len() || done[node] {
        return Ok(());
    }
    let round = round(alloc, links, back, node, done, aside)?;
    set_marks(true, round.as_slice(), cyclic);
    set_marks(true, round.as_slice(), done);
    done[node] = true;
    Ok(())
}

// Returns the aliases that an alias both reaches and is reached from.
//
// Skips the aliases that are done; these include, with each alias, all that it both reaches and is reached from.
// `aside` marks every alias, before and after.
fn round(
    alloc: Global,
    links: &[Seq<Option<usize>>],
    back: &[Seq<Option<usize>>],
    node: usize,
    done: &mut [bool],
    aside: &mut [bool],
) -> Result<Vec<usize>, AllocError>
    requires closed { IsClosed links.now }
    requires turned { ReversesUpTo links.now (length links.now) back.now }
    requires sizes { length done.old ≡ length links.now }
    requires whole { IsClosedOverCycles links.now done.old }
    requires new { IsUnmarked done.old node }
    requires aside { aside.old ≡ replicate (length links.now) true }
    ensures found { IfOk result (λ round. (i : ℕ) →
        Contains round.items i ↔ (Path links.now node i × Path links.now i node)) }
    ensures same { OnOk result (done.new ≡ done.old) }
    ensures aside { OnOk result (aside.new ≡ aside.old) }
{
    let behind = ahead(alloc, back, node, done)?;
    set_marks(false, behind.as_slice(), aside);
    let round = ahead(alloc, links, node, aside)?;
    set_marks(true, behind.as_slice(), aside);
    Ok(round)
}

// Returns the aliases that an alias reaches along unmarked ones. The marks are the same after the call.
fn ahead(
    alloc: Global,
    links: &[Seq<Option<usize>>],
    node: usize,
    marks: &mut [bool],
) -> Result<Vec<usize>, AllocError>
    requires closed { IsClosed links.now }
    requires inside { node < length links.now }
    requires sizes { length marks.old ≡ length links.now }
    ensures found { IfOk result (λ found. (i : ℕ) →
        Contains found.items i ↔ PathPast links.now marks.old node i) }
    ensures same { OnOk result (marks.new ≡ marks.old) }
{
    let found = spread(alloc, links, links[node].as_slice(), marks)?;
    set_marks(false, found.as_slice(), marks);
    Ok(found)
}

// Sets the marks of the given aliases to `mark`.
fn set_marks(mark: bool, aliases: &[usize], marks: &mut [bool])
    requires inside { (i : ℕ) → Contains aliases.now i → i < length marks.old }
    ensures { AreSet mark aliases.now marks.old marks.new }
{
    for alias in aliases {
        marks[*alias] = mark;
    }
}

// Returns the reversed links: for each alias, those that name it.
fn reversed(
    alloc: Global,
    links: &[Seq<Option<usize>>],
) -> Result<Vec<Seq<Option<usize>>>, AllocError>
    requires closed { IsClosed links.now }
    ensures { IfOk result (λ back. ReversesUpTo links.now (length links.now) back.items) }
{
    let mut back = Vec::new(alloc);
    for _ in 0..links.len() {
        back.push(Seq::new(alloc))?;
    }
    for (from, row) in links.iter().enumerate() {
        turn_row(from, row.as_slice(), back.as_mut_slice())?;
    }
    Ok(back)
}

// Adds the links of a row, reversed.
fn turn_row(
    from: usize,
    row: &[Option<usize>],
    back: &mut [Seq<Option<usize>>],
) -> Result<(), AllocError>
    requires inside { IsInside row.now (length back.old) }
    ensures { OnOk result (ReversesRow from row.now back.old back.new) }
{
    for link in row {
        turn_link(from, *link, back)?;
    }
    Ok(())
}

// Adds a link, reversed.
fn turn_link(
    from: usize,
    link: Option<usize>,
    back: &mut [Seq<Option<usize>>],
) -> Result<(), AllocError>
    requires inside { IsInside (link ∷ []) (length back.old) }
    ensures { OnOk result (ReversesRow from (link ∷ []) back.old back.new) }
{
    if let Some(to) = link {
        back[to].push(Some(from))?;
    }
    Ok(())
}
