//! Hosts on which the same blocks list a user: the comparison on one of them holds on each.
ghost use Rattle.std.specs.Prelude.{◌≡◌, ◌<◌, ◌∷◌, [], All, get_or, IfOk, IfSome, IsPermutation, length, OnOk, true};
ghost use Rattle.review_compare.specs.declared.host_class.FoundHosts.{FoundHosts as TheFoundHosts};
ghost use Rattle.review_compare.specs.declared.host_class.HostClass.{HostClass as TheHostClass};
ghost use Rattle.review_compare.specs.Body.AskClasses.{AreAsked, HaveAsk, IsAskClass};
ghost use Rattle.review_compare.specs.Body.Classes as of_hosts;
ghost use Rattle.review_compare.specs.Body.Comparisons.{AreRight};
ghost use Rattle.review_compare.specs.Body.Merged.{IsOnAmong};
ghost use Rattle.review_compare.specs.Body.Progress as body;

use crate::alike::is_same_found;
use crate::ask_class::AskClass;
use crate::compared::Compared;
use crate::comparison::{Comparisons, are_same_indices};
use crate::finder::Finder;
use crate::pair::Pair;
use crate::row::{BUCKETS, Row, merged};
use crate::spot::{Listed, Spot, add_class, founds_at};
use std::alloc::{AllocError, Global};
use sudo_match::Person;

/// A class of hosts on which the same is found for each class of asks: its first host, the blocks that list the user there, what
/// is found for each class, and all its hosts.
#[derive(Drop)]
pub(crate) struct HostClass<'a> {
    spot: Spot<'a>,
    listed: Listed,
    founds: Vec<Compared>,
    hosts: Vec<usize>,
}

/// Whether the blocks are the same.
pub(crate) fn are_same_blocks(listed: &Listed, other: &Listed) -> bool
    ensures { result ≡ true → of_hosts.AreSameBlocks listed.now other.now }
{
    if !are_same_indices(&listed.old, &other.old) {
        return false;
    }
    are_same_indices(&listed.new, &other.new)
}

// Returns the index of the class of these blocks, if there is one.
fn class_index(classes: &[HostClass<'_>], listed: &Listed) -> Option<usize>
    ensures { IfSome result (λ i. (i < length classes.now) × ((d : TheHostClass)
        → of_hosts.AreSameBlocks (get_or classes.now i d).listed listed.now)) }
{
    for index in 0..classes.len() {
        if are_same_blocks(&classes[index].listed, listed) {
            return Some(index);
        }
    }
    None
}

impl HostClass<'_> {
    // Adds hosts.
    fn add(&mut self, hosts: &[usize]) -> Result<(), AllocError>
        ensures { OnOk result (of_hosts.IsWith hosts.now self.old self.new) }
    {
        self.hosts.extend_from_slice(hosts)
    }
}

// Compares the policies at the spot, and makes its host the first of a class.
fn begin_class<'a>(
    alloc: Global,
    pair: &Pair<'_>,
    spot: Spot<'a>,
    listed: Listed,
    asked: &[AskClass],
    classes: &mut Vec<HostClass<'a>>,
    comparisons: &mut Comparisons,
) -> Result<(), AllocError>
    requires spot { body.IsSpot pair.now spot }
    requires listed { body.AreListedIn pair.now spot listed }
    requires asked { All (IsAskClass pair.now spot.person.now) asked.now }
    requires classes { All (of_hosts.IsClass pair.now spot.user spot.person.now asked.now)
        classes.old.items }
    requires right { AreRight pair.now comparisons.old }
    ensures added { OnOk result (of_hosts.AddsHosts classes.old.items (spot.entry.host ∷ [])
        classes.new.items) }
    ensures classes { OnOk result (All (of_hosts.IsClass pair.entry.now spot.entry.user
        spot.entry.person.now asked.entry.now) classes.new.items) }
    ensures right { OnOk result (AreRight pair.entry.now comparisons.new) }
{
    let founds = founds_at(alloc, pair, spot, asked, comparisons)?;
    let mut hosts = Vec::new(alloc);
    hosts.push(spot.host)?;
    classes.push(HostClass {
        spot,
        listed,
        founds,
        hosts,
    })?;
    Ok(())
}

// Adds the host of the spot to a class on whose hosts the same blocks list the user.
fn add_moved<'a>(
    pair: &Pair<'_>,
    spot: Spot<'a>,
    listed: &Listed,
    asked: &[AskClass],
    index: usize,
    classes: &mut Vec<HostClass<'a>>,
) -> Result<(), AllocError>
    requires spot { body.IsSpot pair.now spot }
    requires listed { body.AreListedIn pair.now spot listed.now }
    requires classes { All (of_hosts.IsClass pair.now spot.user spot.person.now asked.now)
        classes.old.items }
    requires within { index < length classes.old.items }
    requires same { (d : TheHostClass) → of_hosts.AreSameBlocks
        (get_or classes.old.items index d).listed listed.now }
    ensures added { OnOk result (of_hosts.AddsHosts classes.old.items (spot.entry.host ∷ [])
        classes.new.items) }
    ensures classes { OnOk result (All (of_hosts.IsClass pair.entry.now spot.entry.user
        spot.entry.person.now asked.entry.now) classes.new.items) }
{
    classes[index].add(&[spot.host])
}

/// Adds the host of the spot to the class on whose hosts the same blocks list the user; otherwise the policies are compared
/// there, and the host begins a class. Returns `AllocError` if allocation fails.
pub(crate) fn add_spot<'a>(
    alloc: Global,
    pair: &Pair<'_>,
    spot: Spot<'a>,
    listed: Listed,
    asked: &[AskClass],
    classes: &mut Vec<HostClass<'a>>,
    comparisons: &mut Comparisons,
) -> Result<(), AllocError>
    requires spot { body.IsSpot pair.now spot }
    requires listed { body.AreListedIn pair.now spot listed }
    requires asked { All (IsAskClass pair.now spot.person.now) asked.now }
    requires classes { All (of_hosts.IsClass pair.now spot.user spot.person.now asked.now)
        classes.old.items }
    requires right { AreRight pair.now comparisons.old }
    ensures added { OnOk result (of_hosts.AddsHosts classes.old.items (spot.entry.host ∷ [])
        classes.new.items) }
    ensures classes { OnOk result (All (of_hosts.IsClass pair.entry.now spot.entry.user
        spot.entry.person.now asked.entry.now) classes.new.items) }
    ensures right { OnOk result (AreRight pair.entry.now comparisons.new) }
{
    match class_index(classes, &listed) {
        Some(index) => add_moved(pair, spot, &listed, asked, index, classes),
        None => begin_class(alloc, pair, spot, listed, asked, classes, comparisons),
    }
}

// Hosts on which this is found for a class of asks.
#[derive(Drop)]
struct FoundHosts<'a> {
    found: &'a Compared,
    hosts: Vec<usize>,
}

// Returns the index of the hosts on which this is found, if there are any.
fn found_index(hosts: &[FoundHosts<'_>], found: &Compared) -> Option<usize>
    ensures { IfSome result (λ i. (i < length hosts.now) × ((d : TheFoundHosts)
        → (get_or hosts.now i d).found.now ≡ found.now)) }
{
    for index in 0..hosts.len() {
        if is_same_found(hosts[index].found, found) {
            return Some(index);
        }
    }
    None
}

// Adds hosts on which this is found.
fn add_hosts<'a>(
    alloc: Global,
    found: &'a Compared,
    hosts: &[usize],
    groups: &mut Vec<FoundHosts<'a>>,
) -> Result<(), AllocError>
    ensures { OnOk result (of_hosts.AddsFoundOn groups.old.items found.entry.now hosts.now
        groups.new.items) }
{
    match found_index(groups, found) {
        Some(index) => {
            groups[index].hosts.extend_from_slice(hosts)?;
        }
        None => {
            let hosts = Vec::from_slice(alloc, hosts)?;
            groups.push(FoundHosts { found, hosts })?;
        }
    }
    Ok(())
}

// Adds the hosts of a class by what is found there for the class of asks at an index, if there is one.
#[tactic(auto, using(crate::proofs::FoundLemmas::class_without))]
fn add_class_hosts<'a>(
    alloc: Global,
    class: &'a HostClass<'_>,
    index: usize,
    groups: &mut Vec<FoundHosts<'a>>,
) -> Result<(), AllocError>
    ensures { OnOk result (of_hosts.AddsClass groups.old.items class.entry.now index
        groups.new.items) }
{
    match class.founds.get(index) {
        Some(found) => add_hosts(alloc, found, &class.hosts, groups),
        None => Ok(()),
    }
}

// Returns the hosts of classes by what is found for the class of asks at an index.
fn hosts_by_found<'a>(
    alloc: Global,
    classes: &'a [HostClass<'_>],
    index: usize,
) -> Result<Vec<FoundHosts<'a>>, AllocError>
    ensures { IfOk result (λ groups. of_hosts.AreFoundOn classes.entry.now index groups.items) }
{
    let mut groups = Vec::new(alloc);
    for class in classes {
        add_class_hosts(alloc, class, index, &mut groups)?;
    }
    Ok(groups)
}

// Returns hosts in order.
fn in_order(alloc: Global, hosts: &[usize]) -> Result<Vec<usize>, AllocError>
    ensures { IfOk result (λ ordered. IsPermutation hosts.now ordered.items) }
{
    let mut ordered = Vec::from_slice(alloc, hosts)?;
    ordered.sort_unstable();
    Ok(ordered)
}

// Adds the rows for the hosts on which the same is found for a class of asks.
fn add_found_hosts(
    alloc: Global,
    pair: &Pair<'_>,
    user: usize,
    asks: &AskClass,
    group: &FoundHosts<'_>,
    rows: &mut Vec<Row>,
    finder: &mut Finder,
) -> Result<(), AllocError>
    requires { of_hosts.AreRightOn pair.now user asks.now group.now }
    ensures { OnOk result (body.Progress pair.entry.now rows.old.items rows.new.items
        (IsOnAmong user group.entry.now.hosts.items
        (AreAsked (body.asking pair.entry.now) asks.entry.now.asked.items))) }
{
    let hosts = in_order(alloc, &group.hosts)?;
    add_class(alloc, pair, user, &hosts, asks, group.found, rows, finder)
}

// Adds the rows for hosts by what is found there for a class of asks.
fn add_groups(
    alloc: Global,
    pair: &Pair<'_>,
    user: usize,
    asks: &AskClass,
    groups: &[FoundHosts<'_>],
    rows: &mut Vec<Row>,
    finder: &mut Finder,
) -> Result<(), AllocError>
    requires { All (of_hosts.AreRightOn pair.now user asks.now) groups.now }
    ensures { OnOk result (body.Progress pair.entry.now rows.old.items rows.new.items
        (of_hosts.IsOnFound user groups.entry.now
        (AreAsked (body.asking pair.entry.now) asks.entry.now.asked.items))) }
{
    for group in groups {
        add_found_hosts(alloc, pair, user, asks, group, rows, finder)?;
    }
    Ok(())
}

// Adds the rows for the findings for a class of asks, the one at the index, on the hosts of classes.
fn add_asks(
    alloc: Global,
    pair: &Pair<'_>,
    user: usize,
    person: &Person,
    asked: &[AskClass],
    index: usize,
    asks: &AskClass,
    classes: &[HostClass<'_>],
    rows: &mut Vec<Row>,
    finder: &mut Finder,
) -> Result<(), AllocError>
    requires within { index < length asked.now }
    requires asks { asks.now ≡ get_or asked.now index asks.now }
    requires classes { All (of_hosts.IsClass pair.now user person.now asked.now) classes.now }
    ensures { OnOk result (body.Progress pair.entry.now rows.old.items rows.new.items
        (of_hosts.IsOnClasses user classes.entry.now
        (AreAsked (body.asking pair.entry.now) asks.entry.now.asked.items))) }
{
    let groups = hosts_by_found(alloc, classes, index)?;
    add_groups(alloc, pair, user, asks, &groups, rows, finder)
}

/// Returns the rows of the comparison on the hosts of classes: those that differ in the host alone are one, with its hosts in order; and
/// then those that differ in the target alone, and in the group alone. Returns `AllocError` if allocation fails.
pub(crate) fn rows_of(
    alloc: Global,
    pair: &Pair<'_>,
    user: usize,
    person: &Person,
    asked: &[AskClass],
    classes: &[HostClass<'_>],
) -> Result<Vec<Row>, AllocError>
    requires { All (of_hosts.IsClass pair.now user person.now asked.now) classes.now }
    ensures { IfOk result (λ rows. body.Progress pair.entry.now [] rows.items
        (of_hosts.IsOnClasses user classes.entry.now (HaveAsk (body.asking pair.entry.now) asked.entry.now))) }
{
    let mut finder = Finder::new(alloc, BUCKETS)?;
    let mut rows = Vec::new(alloc);
    for index in 0..asked.len() {
        add_asks(
            alloc,
            pair,
            user,
            person,
            asked,
            index,
            &asked[index],
            classes,
            &mut rows,
            &mut finder,
        )?;
    }
    merged(alloc, rows)
}
