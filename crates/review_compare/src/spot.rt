//! The comparison for a known user on a known host.
ghost use Rattle.std.specs.Prelude.{◌≡◌, ◌∷◌, [], All, IfOk, OnOk};
ghost use Rattle.review_compare.specs.Body.AskClasses.{AreAsked, HaveAsk, IsAskClass, IsAskedWith, on_new, on_old};
ghost use Rattle.review_compare.specs.Differences.{Asking};
ghost use Rattle.review_compare.specs.Witnesses.{IsCompared};
ghost use Rattle.review_compare.specs.Body.Comparisons.{AreRight};
ghost use Rattle.review_compare.specs.Body.Classes.{AreRightIn, IsRightIn};
ghost use Rattle.review_compare.specs.Body.Merged.{AddsFound, IsOnAmong};
ghost use Rattle.review_compare.specs.Body.Progress as body;

use crate::ask_class::{AskClass, AskedWith};
use crate::compared::Compared;
use crate::comparison::{Comparisons, found_of};
use crate::copied::copied;
use crate::finder::Finder;
use crate::pair::Pair;
use crate::row::{Dimension, Row, absorb};
use std::alloc::{AllocError, Global};
use sudo_match::{Machine, Person};

/// The indices of blocks of both policies.
#[derive(Drop)]
pub(crate) struct Listed {
    pub(crate) old: Vec<usize>,
    pub(crate) new: Vec<usize>,
}

/// A known user on a known host, by their indices.
#[derive(Clone, Copy)]
pub(crate) struct Spot<'a> {
    pub(crate) user: usize,
    pub(crate) host: usize,
    pub(crate) person: &'a Person,
    pub(crate) machine: &'a Machine,
}

// Compares the policies on the host of the spot for the asks of a class.
fn found_on(
    alloc: Global,
    pair: &Pair<'_>,
    spot: Spot<'_>,
    class: &AskClass,
    comparisons: &mut Comparisons,
) -> Result<Compared, AllocError>
    requires spot { body.IsSpot pair.now spot }
    requires right { AreRight pair.now comparisons.old }
    ensures found { IfOk result (IsCompared (on_old pair.entry.now spot.entry.machine.now
        class.now.allowing) (on_new pair.entry.now spot.entry.machine.now class.now.allowing)) }
    ensures right { OnOk result (AreRight pair.entry.now comparisons.new) }
{
    let (machine, allowing) = (spot.machine, &class.allowing);
    let old_marks = pair.old_marks(spot.host);
    let new_marks = pair.new_marks(spot.host);
    let old = pair.old.on_host(alloc, machine, &allowing.old, old_marks)?;
    let new = pair.new.on_host(alloc, machine, &allowing.new, new_marks)?;
    found_of(alloc, pair, comparisons, old, new)
}

// Compares the policies at the spot for the asks of a class.
fn found_at(
    alloc: Global,
    pair: &Pair<'_>,
    spot: Spot<'_>,
    class: &AskClass,
    comparisons: &mut Comparisons,
) -> Result<Compared, AllocError>
    requires spot { body.IsSpot pair.now spot }
    requires class { IsAskClass pair.now spot.person.now class.now }
    requires right { AreRight pair.now comparisons.old }
    ensures found { IfOk result (IsRightIn pair.entry.now spot.entry.user (spot.entry.host ∷ [])
        (AreAsked (body.asking pair.entry.now) class.entry.now.asked.items)) }
    ensures right { OnOk result (AreRight pair.entry.now comparisons.new) }
{
    found_on(alloc, pair, spot, class, comparisons)
}

/// Compares the policies at the spot for the asks of each class. Returns `AllocError` if allocation fails.
pub(crate) fn founds_at(
    alloc: Global,
    pair: &Pair<'_>,
    spot: Spot<'_>,
    classes: &[AskClass],
    comparisons: &mut Comparisons,
) -> Result<Vec<Compared>, AllocError>
    requires spot { body.IsSpot pair.now spot }
    requires classes { All (IsAskClass pair.now spot.person.now) classes.now }
    requires right { AreRight pair.now comparisons.old }
    ensures founds { IfOk result (λ founds. AreRightIn pair.entry.now spot.entry.user
        (spot.entry.host ∷ []) classes.entry.now founds.items) }
    ensures right { OnOk result (AreRight pair.entry.now comparisons.new) }
{
    let mut founds = Vec::new(alloc);
    for class in classes {
        let found = found_at(alloc, pair, spot, class, comparisons)?;
        founds.push(found)?;
    }
    Ok(founds)
}

// Adds the outcome for the targets with their groups.
fn add_found(
    alloc: Global,
    user: usize,
    hosts: &[usize],
    asked: &AskedWith,
    found: &Compared,
    rows: &mut Vec<Row>,
    finder: &mut Finder,
) -> Result<(), AllocError>
    ensures { OnOk result ((asks : Asking) → AddsFound asks rows.old.items user hosts.entry.now
        (IsAskedWith asks asked.entry.now) found.entry.now rows.new.items) }
{
    let copy = copied(alloc, found)?;
    let row = Row::of(alloc, user, hosts, asked, copy)?;
    absorb(rows, row, Dimension::Targets, finder)
}

// Adds the outcome for all asks of a class.
fn add_each(
    alloc: Global,
    user: usize,
    hosts: &[usize],
    asked: &[AskedWith],
    found: &Compared,
    rows: &mut Vec<Row>,
    finder: &mut Finder,
) -> Result<(), AllocError>
    ensures { OnOk result ((asks : Asking) → AddsFound asks rows.old.items user hosts.entry.now
        (AreAsked asks asked.entry.now) found.entry.now rows.new.items) }
{
    for targets in asked {
        add_found(alloc, user, hosts, targets, found, rows, finder)?;
    }
    Ok(())
}

/// Adds the outcome for a class of asks on the hosts for the user, unless both policies say the same. Returns `AllocError` if allocation
/// fails.
pub(crate) fn add_class(
    alloc: Global,
    pair: &Pair<'_>,
    user: usize,
    hosts: &[usize],
    class: &AskClass,
    found: &Compared,
    rows: &mut Vec<Row>,
    finder: &mut Finder,
) -> Result<(), AllocError>
    requires { IsRightIn pair.now user hosts.now
        (AreAsked (body.asking pair.now) class.now.asked.items) found.now }
    ensures { OnOk result (body.Progress pair.entry.now rows.old.items rows.new.items
        (IsOnAmong user hosts.entry.now
        (AreAsked (body.asking pair.entry.now) class.entry.now.asked.items))) }
{
    match found {
        Compared::Same => Ok(()),
        found => add_each(alloc, user, hosts, &class.asked, found, rows, finder),
    }
}
