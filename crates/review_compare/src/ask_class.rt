//! Classes of asks: of the blocks near a change that list a user, the runas of the same ones allows each ask of a class. On a host
//! the same comparison holds for all of them.
ghost use Rattle.std.specs.Prelude.{◌≡◌, ◌<◌, ◌++◌, ◌∷◌, [], All, get_or, IfOk, IfSome, length, map, OnOk, true};
ghost use Rattle.std.specs.List.{Contains};
ghost use Rattle.review_compare.specs.declared.ask_class.AskClass.{AskClass as TheAskClass};
ghost use Rattle.review_compare.specs.declared.ask_class.AskedWith.{AskedWith as TheAskedWith};
ghost use Rattle.review_compare.specs.declared.cell.Ask.{Ask as TheAsk};
ghost use Rattle.review_compare.specs.declared.cell.AskedTargets.TheVariants as TheTargets;
ghost use Rattle.review_compare.specs.Body.AskClasses as body;
ghost use Rattle.review_compare.specs.Body.Classes.{AreSameBlocks};
ghost use Rattle.review_compare.specs.Body.Progress.{AreListedFor, asking};
ghost use Rattle.review_compare.specs.Body.SharedAsks.{HaveShared, IsShared};

use crate::asks::{group_at, person_at};
use crate::cell::{Ask, AskedGroups, AskedTargets};
use crate::host_class::are_same_blocks;
use crate::pair::Pair;
use crate::row::is_same_groups;
use crate::shared::SharedAsks;
use crate::spot::Listed;
use crate::targets::{is_asked, push_targets};
use std::alloc::{AllocError, Global};
use sudo_match::{Machine, Person};
use sudo_verdict::Asker;

/// The targets of asks for the same groups: known users, or no one alone.
#[derive(Drop)]
pub(crate) struct AskedWith {
    pub(crate) groups: AskedGroups,
    pub(crate) targets: Vec<AskedTargets>,
}

/// A class of asks of a user: the asks, and the blocks that list the user and whose runas allows them.
#[derive(Drop)]
pub(crate) struct AskClass {
    pub(crate) allowing: Listed,
    pub(crate) asked: Vec<AskedWith>,
}

// Returns those of the blocks for the user whose runas allows the ask.
fn allowing(
    alloc: Global,
    pair: &Pair<'_>,
    person: &Person,
    machine: &Machine,
    listed: &Listed,
    firsts: &Listed,
    ask: Ask,
) -> Result<Listed, AllocError>
    requires listed { AreListedFor pair.now person.now listed.now }
    requires firsts { body.AreFirstsOf pair.now listed.now firsts.now }
    ensures { IfOk result (body.Decide pair.entry.now person.entry.now ask) }
{
    let asker = Asker {
        user: person,
        host: machine,
        target: person_at(pair.directory, ask.target),
        group: group_at(pair.groups, ask.group),
    };
    let old = pair
        .old
        .allowing(alloc, pair.directory, asker, &listed.old, &firsts.old)?;
    let new = pair
        .new
        .allowing(alloc, pair.directory, asker, &listed.new, &firsts.new)?;
    Ok(Listed { old, new })
}

// Returns for each of the blocks the position of the first with the same runas.
fn firsts_of(alloc: Global, pair: &Pair<'_>, listed: &Listed) -> Result<Listed, AllocError>
    ensures { IfOk result (body.AreFirstsOf pair.now listed.now) }
{
    let old = pair.old.runas_firsts(alloc, &listed.old)?;
    let new = pair.new.runas_firsts(alloc, &listed.new)?;
    Ok(Listed { old, new })
}

impl AskedWith {
    // Whether these groups are asked for, with users exactly if the target is one.
    fn takes(&self, target: Option<usize>, groups: AskedGroups) -> bool
        ensures { result ≡ true → self.now.groups ≡ groups }
    {
        is_asked(&self.targets) == target.is_some() && is_same_groups(self.groups, groups)
    }
}

// Returns the index of the targets with the same groups to which this one belongs, if there are any.
fn taking_index(asked: &[AskedWith], target: Option<usize>, groups: AskedGroups) -> Option<usize>
    ensures { IfSome result (λ i. (i < length asked.now) × ((d : TheAskedWith)
        → (get_or asked.now i d).groups ≡ groups)) }
{
    for index in 0..asked.len() {
        if asked[index].takes(target, groups) {
            return Some(index);
        }
    }
    None
}

// Returns the target alone, with the groups.
fn asked_alone(
    alloc: Global,
    target: Option<usize>,
    groups: AskedGroups,
) -> Result<AskedWith, AllocError>
    ensures { IfOk result (λ w. (w.groups ≡ groups)
        × (w.targets.items ≡ TheTargets.One target ∷ [])) }
{
    let mut targets = Vec::new(alloc);
    targets.push(AskedTargets::One(target))?;
    Ok(AskedWith { groups, targets })
}

/// Adds the asks for a target with some groups. Returns `AllocError` if allocation fails.
pub(crate) fn push_target(
    alloc: Global,
    asked: &mut Vec<AskedWith>,
    target: Option<usize>,
    groups: AskedGroups,
) -> Result<(), AllocError>
    ensures { OnOk result (body.AddsTarget asked.old.items target groups asked.new.items) }
{
    match taking_index(asked, target, groups) {
        Some(index) => {
            push_targets(&mut asked[index].targets, AskedTargets::One(target))?;
        }
        None => {
            let alone = asked_alone(alloc, target, groups)?;
            asked.push(alone)?;
        }
    }
    Ok(())
}

/// Adds the ask. Returns `AllocError` if allocation fails.
pub(crate) fn push_asked(
    alloc: Global,
    pair: &Pair<'_>,
    asked: &mut Vec<AskedWith>,
    ask: Ask,
) -> Result<(), AllocError>
    ensures { OnOk result (body.AddsAsked pair.now asked.old.items ask asked.new.items) }
{
    push_target(alloc, asked, ask.target, AskedGroups::One(ask.group))
}

// Returns the index of the class of these blocks, if there is one.
fn class_index(classes: &[AskClass], allowing: &Listed) -> Option<usize>
    ensures { IfSome result (λ i. (i < length classes.now) × ((d : TheAskClass)
        → AreSameBlocks (get_or classes.now i d).allowing allowing.now)) }
{
    for index in 0..classes.len() {
        if are_same_blocks(&classes[index].allowing, allowing) {
            return Some(index);
        }
    }
    None
}

// Returns the class of the ask alone.
fn class_alone(
    alloc: Global,
    pair: &Pair<'_>,
    allowing: Listed,
    ask: Ask,
) -> Result<AskClass, AllocError>
    ensures { IfOk result (λ k. (k.allowing ≡ allowing)
        × body.AddsAsked pair.now [] ask k.asked.items) }
{
    let mut asked = Vec::new(alloc);
    push_asked(alloc, pair, &mut asked, ask)?;
    Ok(AskClass { allowing, asked })
}

// Adds the ask to the class of the blocks that allow it.
fn add_ask(
    alloc: Global,
    pair: &Pair<'_>,
    person: &Person,
    allowing: Listed,
    ask: Ask,
    classes: &mut Vec<AskClass>,
) -> Result<(), AllocError>
    requires decide { body.Decide pair.now person.now ask allowing }
    requires are { All (body.IsAskClass pair.now person.now) classes.old.items }
    ensures are { OnOk result (All (body.IsAskClass pair.entry.now person.entry.now)
        classes.new.items) }
    ensures has { OnOk result (body.HaveAsk (asking pair.entry.now) classes.new.items ask) }
    ensures kept { OnOk result ((a : TheAsk) → body.HaveAsk (asking pair.entry.now) classes.old.items a
        → body.HaveAsk (asking pair.entry.now) classes.new.items a) }
{
    match class_index(classes, &allowing) {
        Some(index) => push_asked(alloc, pair, &mut classes[index].asked, ask),
        None => {
            let class = class_alone(alloc, pair, allowing, ask)?;
            classes.push(class)?;
            Ok(())
        }
    }
}

// Appends copies of targets with their groups.
fn push_copies(
    alloc: Global,
    asked: &[AskedWith],
    copies: &mut Vec<AskedWith>,
) -> Result<(), AllocError>
    ensures { OnOk result (map body.plain copies.new.items
        ≡ map body.plain copies.old.items ++ map body.plain asked.now) }
{
    for with in asked {
        let targets = Vec::from_slice(alloc, &with.targets)?;
        copies.push(AskedWith {
            groups: with.groups,
            targets,
        })?;
    }
    Ok(())
}

// Returns the class of these asks alone.
fn class_copied(
    alloc: Global,
    allowing: Listed,
    asked: &[AskedWith],
) -> Result<AskClass, AllocError>
    ensures { IfOk result (λ k. (k.allowing ≡ allowing)
        × (map body.plain k.asked.items ≡ map body.plain asked.now)) }
{
    let mut copies = Vec::new(alloc);
    push_copies(alloc, asked, &mut copies)?;
    Ok(AskClass {
        allowing,
        asked: copies,
    })
}

// Adds the asks that the same near rows decide, whoever asks, to the class of the blocks that allow them.
fn add_shared(
    alloc: Global,
    pair: &Pair<'_>,
    person: &Person,
    allowing: Listed,
    shared: &SharedAsks,
    classes: &mut Vec<AskClass>,
) -> Result<(), AllocError>
    requires decide { body.Decide pair.now person.now shared.now.first allowing }
    requires shared { IsShared pair.now shared.now }
    requires are { All (body.IsAskClass pair.now person.now) classes.old.items }
    ensures are { OnOk result (All (body.IsAskClass pair.entry.now person.entry.now)
        classes.new.items) }
    ensures has { OnOk result ((a : TheAsk) → body.AreAsked (asking pair.entry.now) shared.entry.now.asked.items a
        → body.HaveAsk (asking pair.entry.now) classes.new.items a) }
    ensures kept { OnOk result ((a : TheAsk) → body.HaveAsk (asking pair.entry.now) classes.old.items a
        → body.HaveAsk (asking pair.entry.now) classes.new.items a) }
{
    match class_index(classes, &allowing) {
        Some(index) => push_copies(alloc, &shared.asked, &mut classes[index].asked),
        None => {
            let class = class_copied(alloc, allowing, &shared.asked)?;
            classes.push(class)?;
            Ok(())
        }
    }
}

// Returns the classes of the asks of a user.
fn own_classes(
    alloc: Global,
    pair: &Pair<'_>,
    person: &Person,
    machine: &Machine,
    listed: &Listed,
    firsts: &Listed,
    asks: &[Ask],
) -> Result<Vec<AskClass>, AllocError>
    requires listed { AreListedFor pair.now person.now listed.now }
    requires firsts { body.AreFirstsOf pair.now listed.now firsts.now }
    ensures are { IfOk result (λ classes. All (body.IsAskClass pair.entry.now person.entry.now)
        classes.items) }
    ensures all { IfOk result (λ classes. (a : TheAsk) → Contains asks.entry.now a
        → body.HaveAsk (asking pair.entry.now) classes.items a) }
{
    let mut classes = Vec::new(alloc);
    for ask in asks {
        let allowing = allowing(alloc, pair, person, machine, listed, firsts, *ask)?;
        add_ask(alloc, pair, person, allowing, *ask, &mut classes)?;
    }
    Ok(classes)
}

/// Returns the classes of the asks of a user, and of those that the same near rows decide, whoever asks. Returns `AllocError` if
/// allocation fails.
pub(crate) fn ask_classes(
    alloc: Global,
    pair: &Pair<'_>,
    person: &Person,
    machine: &Machine,
    listed: &Listed,
    asks: &[Ask],
    shared: &[SharedAsks],
) -> Result<Vec<AskClass>, AllocError>
    requires listed { AreListedFor pair.now person.now listed.now }
    requires shared { All (IsShared pair.now) shared.now }
    ensures are { IfOk result (λ classes. All (body.IsAskClass pair.entry.now person.entry.now)
        classes.items) }
    ensures own { IfOk result (λ classes. (a : TheAsk) → Contains asks.entry.now a
        → body.HaveAsk (asking pair.entry.now) classes.items a) }
    ensures shared { IfOk result (λ classes. (a : TheAsk) → HaveShared (asking pair.entry.now) shared.entry.now a
        → body.HaveAsk (asking pair.entry.now) classes.items a) }
{
    let firsts = firsts_of(alloc, pair, listed)?;
    let mut classes = own_classes(alloc, pair, person, machine, listed, &firsts, asks)?;
    for each in shared {
        let allowing = allowing(alloc, pair, person, machine, listed, &firsts, each.first)?;
        add_shared(alloc, pair, person, allowing, each, &mut classes)?;
    }
    Ok(classes)
}
