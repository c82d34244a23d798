//! Asks in brief: a target that is asked for with each group that it has, or with each that it has not, takes one entry for these
//! groups.
ghost use Rattle.std.specs.Prelude.{◌≡◌, ◌≤◌, ◌<◌, [], IfOk, IfSome, length, OnOk, true};
ghost use Rattle.std.specs.List.{Contains};
ghost use Rattle.review_compare.specs.Differences as differences;
ghost use Rattle.review_compare.specs.Body.AskClasses.{AddsAsks, IsAskedFor};
ghost use Rattle.review_compare.specs.Body.Brief as body;
ghost use Rattle.review_compare.specs.Body.Progress.{asking};

use crate::ask_class::{AskedWith, push_asked, push_target};
use crate::asks::{group_at, person_at};
use crate::cell::{Ask, AskedGroups};
use crate::differences::push_if;
use crate::pair::Pair;
use crate::row::is_same_number;
use std::alloc::{AllocError, Global};

// Whether the target that is asked for has the group, if both are known.
fn has_if(pair: &Pair<'_>, ask: Ask) -> Option<bool>
    ensures { result ≡ differences.has_if
        (differences.known_at pair.now.directory.now.people ask.target)
        (differences.known_at pair.now.groups.now ask.group) }
{
    match (
        person_at(pair.directory, ask.target),
        group_at(pair.groups, ask.group),
    ) {
        (Some(target), Some(group)) => Some(target.has_gid(group.gid)),
        _ => None,
    }
}

// Whether the group of the ask is one of these, with its target.
fn is_asked(pair: &Pair<'_>, groups: AskedGroups, ask: Ask) -> bool
    ensures { result ≡ asking pair.now ask.target ask.group groups }
{
    match groups {
        AskedGroups::One(group) => is_same_number(ask.group, group),
        AskedGroups::Own => has_if(pair, ask).unwrap_or(false),
        AskedGroups::Others => !has_if(pair, ask).unwrap_or(true),
    }
}

// Returns the first index, from one on, at which this is asked.
fn index_from(run: &[Ask], start: usize, ask: Ask) -> Option<usize>
    ensures { IfSome result (λ i. Contains run.now ask) }
{
    let mut at = start;
    while at < run.len() {
        if is_same_ask(run[at], ask) {
            return Some(at);
        }
        at += 1;
    }
    None
}

fn is_same_ask(ask: Ask, other: Ask) -> bool
    ensures { result ≡ true → ask ≡ other }
{
    is_same_number(ask.target, other.target) && is_same_number(ask.group, other.group)
}

// Whether the target is asked for with each of these groups, and there is one. The asks are in the order of the groups.
fn has_each(pair: &Pair<'_>, run: &[Ask], target: Option<usize>, groups: AskedGroups) -> bool
    ensures { result ≡ true → body.HasEachBelow pair.now run.now target groups
        (length pair.now.groups.now) }
{
    let mut at = 0;
    let mut is_any = false;
    for group in 0..pair.groups.len() {
        let ask = Ask {
            target,
            group: Some(group),
        };
        if is_asked(pair, groups, ask) {
            let Some(index) = index_from(run, at, ask) else {
                return false;
            };
            at = index;
            is_any = true;
        }
    }
    is_any
}

// Returns those groups by the target, the asks for which are all among these, unless all its asks are.
fn groups_of(pair: &Pair<'_>, run: &[Ask], target: Option<usize>) -> Option<AskedGroups>
    ensures { IfSome result (body.HasEach pair.now run.now target) }
{
    let own = has_each(pair, run, target, AskedGroups::Own);
    let others = has_each(pair, run, target, AskedGroups::Others);
    match (own, others) {
        (true, false) => Some(AskedGroups::Own),
        (false, true) => Some(AskedGroups::Others),
        _ => None,
    }
}

// Adds each ask by itself.
fn push_each(
    alloc: Global,
    pair: &Pair<'_>,
    asks: &[Ask],
    brief: &mut Vec<AskedWith>,
) -> Result<(), AllocError>
    ensures { OnOk result (AddsAsks pair.now brief.old.items asks.now brief.new.items) }
{
    for ask in asks {
        push_asked(alloc, pair, brief, *ask)?;
    }
    Ok(())
}

// Whether the ask is for the target, with one of the groups.
fn is_told(pair: &Pair<'_>, target: Option<usize>, groups: AskedGroups, ask: Ask) -> bool
    ensures { result ≡ true → IsAskedFor (asking pair.now) target groups ask }
{
    is_same_number(target, ask.target) && is_asked(pair, groups, ask)
}

// Returns the asks but those for the target with one of the groups.
fn asks_but(
    alloc: Global,
    pair: &Pair<'_>,
    asks: &[Ask],
    target: Option<usize>,
    groups: AskedGroups,
) -> Result<Vec<Ask>, AllocError>
    ensures { IfOk result (λ left. body.AreBut pair.now target groups asks.now left.items) }
{
    let mut left = Vec::new(alloc);
    for ask in asks {
        push_if(&mut left, *ask, !is_told(pair, target, groups, *ask))?;
    }
    Ok(left)
}

// Adds asks: one entry for the groups that the target has, or has not, if it is asked for with each of these, and each other ask.
fn push_run(
    alloc: Global,
    pair: &Pair<'_>,
    run: &[Ask],
    target: Option<usize>,
    brief: &mut Vec<AskedWith>,
) -> Result<(), AllocError>
    ensures { OnOk result (AddsAsks pair.now brief.old.items run.now brief.new.items) }
{
    match groups_of(pair, run, target) {
        None => push_each(alloc, pair, run, brief),
        Some(groups) => {
            let left = asks_but(alloc, pair, run, target, groups)?;
            push_each(alloc, pair, &left, brief)?;
            push_target(alloc, brief, target, groups)
        }
    }
}

// Returns how many asks at the beginning are for the target of the first.
fn run_len(asks: &[Ask]) -> usize
    requires { 0 < length asks.now }
    ensures some { 0 < result }
    ensures within { result ≤ length asks.now }
{
    let mut len = 1;
    while len < asks.len() && is_same_number(asks[len].target, asks[0].target) {
        len += 1;
    }
    len
}

/// Returns asks with one entry for the groups of a target where it can. Asks that do not stand together by targets, in the order of the
/// groups, get entries of their own. Returns `AllocError` if allocation fails.
pub(crate) fn brief_asks(
    alloc: Global,
    pair: &Pair<'_>,
    asks: &[Ask],
) -> Result<Vec<AskedWith>, AllocError>
    ensures { IfOk result (λ brief. AddsAsks pair.now [] asks.now brief.items) }
{
    let mut brief = Vec::new(alloc);
    let mut left = asks;
    while let [first, ..] = left {
        let target = first.target;
        let (run, rest) = left.split_at(run_len(left));
        push_run(alloc, pair, run, target, &mut brief)?;
        left = rest;
    }
    Ok(brief)
}
