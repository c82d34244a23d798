//! The differences of two policies, cell by cell.
ghost use Rattle.std.specs.Prelude.{◌≡◌, ◌<◌, ◌+◌, ◌*◌, ◌^◌, ◌++◌, ◌∷◌, [], All, if◌then◌else◌, IfOk, IsTrue};
ghost use Rattle.std.specs.Prelude.{OnOk, Some, option_copied, slice_get, vec_len};
ghost use Rattle.std.specs.List.{list_all};
ghost use Rattle.review_compare.specs.Blocks.{AreGrants, block_resolves};
ghost use Rattle.review_compare.specs.Differences as differences;
ghost use Rattle.review_compare.specs.Body.AskClasses.{HaveAsk, IsAskClass};
ghost use Rattle.review_compare.specs.declared.cell.Cell.{Cell};
ghost use Rattle.review_compare.specs.Body.Classes.{AddsCells, IsClass, IsClassed};
ghost use Rattle.review_compare.specs.Body.Comparisons.{AreRight};
ghost use Rattle.review_compare.specs.Body.LineAtoms.{AreLineAtoms};
ghost use Rattle.review_compare.specs.Body.Progress as body;
ghost use Rattle.review_compare.specs.Body.SharedAsks.{IsSplit};

use crate::ask_class::{AskClass, ask_classes};
use crate::asks::all_asks;
use crate::block::{Block, blocks_of};
use crate::cell::Ask;
use crate::comparison::Comparisons;
use crate::finder::Finder;
use crate::host_class::{HostClass, add_spot, rows_of};
use crate::lines::line_atoms;
use crate::pair::Pair;
use crate::row::{BUCKETS, Dimension, Row, absorb_all};
use crate::shared::{SplitAsks, split_asks, unshared_asks};
use crate::side::Side;
use crate::spot::{Listed, Spot};
use review_grants::Scope;
use std::alloc::{AllocError, Global};
use std::thread;
use std::thread::Threads;
use sudo_match::{Directory, Group, Machine, Person};
use sudo_policy::{Atom, Checked};

// Whether the user is the one that is asked about, if any.
fn is_this_user(scope: Option<&Person>, person: &Person) -> bool
    ensures { result ≡ differences.is_this_user (option_copied scope.entry) person.now }
{
    match scope {
        None => true,
        Some(asked) => person.name.as_slice() == asked.name.as_slice(),
    }
}

// Whether the host is the one that is asked about, if any.
fn is_this_host(scope: Option<&Machine>, machine: &Machine) -> bool
    ensures { result ≡ differences.is_this_host (option_copied scope.entry) machine.now }
{
    match scope {
        None => true,
        Some(asked) => machine.name.as_slice() == asked.name.as_slice(),
    }
}

// Returns the blocks of both policies for the user.
fn listed_for(alloc: Global, pair: &Pair<'_>, person: &Person) -> Result<Listed, AllocError>
    ensures { IfOk result (body.AreListedFor pair.now person.now) }
{
    let old = pair.old.listed_for(alloc, person, &pair.near.old)?;
    let new = pair.new.listed_for(alloc, person, &pair.near.new)?;
    Ok(Listed { old, new })
}

// Returns those of the blocks that are for the host too.
fn listed_on(
    alloc: Global,
    pair: &Pair<'_>,
    spot: Spot<'_>,
    listed: &Listed,
) -> Result<Listed, AllocError>
    requires spot { body.IsSpot pair.now spot }
    requires listed { body.AreListedFor pair.now spot.person.now listed.now }
    ensures { IfOk result (body.AreListedIn pair.now spot.entry) }
{
    let (person, machine) = (spot.person, spot.machine);
    let old_marks = pair.old_marks(spot.host);
    let new_marks = pair.new_marks(spot.host);
    let old = pair
        .old
        .listed_on(alloc, person, machine, &listed.old, old_marks)?;
    let new = pair
        .new
        .listed_on(alloc, person, machine, &listed.new, new_marks)?;
    Ok(Listed { old, new })
}

// Adds the host to the classes, if it is asked about and the policies may say something else there.
fn add_host<'a>(
    alloc: Global,
    pair: &Pair<'_>,
    spot: Spot<'a>,
    scope: Option<&Machine>,
    listed: &Listed,
    asked: &[AskClass],
    classes: &mut Vec<HostClass<'a>>,
    comparisons: &mut Comparisons,
) -> Result<(), AllocError>
    requires spot { body.IsSpot pair.now spot }
    requires listed { body.AreListedFor pair.now spot.person.now listed.now }
    requires asked { All (IsAskClass pair.now spot.person.now) asked.now }
    requires classes { All (IsClass pair.now spot.user spot.person.now asked.now)
        classes.old.items }
    requires right { AreRight pair.now comparisons.old }
    ensures added { OnOk result (AddsCells pair.entry.now classes.old.items
        (body.IsOnAsked pair.entry.now (option_copied scope.entry) spot.entry.user
        spot.entry.host (HaveAsk (body.asking pair.entry.now) asked.entry.now)) classes.new.items) }
    ensures classes { OnOk result (All (IsClass pair.entry.now spot.entry.user
        spot.entry.person.now asked.entry.now) classes.new.items) }
    ensures right { OnOk result (AreRight pair.entry.now comparisons.new) }
{
    if !is_this_host(scope, spot.machine) {
        return Ok(());
    }
    if !pair.may_differ_on(spot.person, spot.machine) {
        return Ok(());
    }
    let on = listed_on(alloc, pair, spot, listed)?;
    add_spot(alloc, pair, spot, on, asked, classes, comparisons)
}

/// Appends an ask, if it is kept. Returns `AllocError` if allocation fails.
pub(crate) fn push_if(asks: &mut Vec<Ask>, ask: Ask, keep: bool) -> Result<(), AllocError>
    ensures { OnOk result (asks.new.items
        ≡ asks.old.items ++ (if keep then ask ∷ [] else [])) }
{
    if keep {
        asks.push(ask)?;
    }
    Ok(())
}

// Returns the asks of the user to which the policies may say something else on some host.
fn asks_left(
    alloc: Global,
    pair: &Pair<'_>,
    person: &Person,
    machine: &Machine,
    asks: &[Ask],
) -> Result<Vec<Ask>, AllocError>
    ensures { IfOk result (λ left. body.AreLeft pair.now person.now asks.now left.items) }
{
    let mut left = Vec::new(alloc);
    for ask in asks {
        push_if(&mut left, *ask, pair.may_differ_at(person, machine, *ask))?;
    }
    Ok(left)
}

// Returns classes of the hosts that are asked about, for the user.
fn classes_for<'a>(
    alloc: Global,
    pair: &Pair<'a>,
    user: usize,
    person: &'a Person,
    scope: Option<&Machine>,
    listed: &Listed,
    asked: &[AskClass],
    comparisons: &mut Comparisons,
) -> Result<Vec<HostClass<'a>>, AllocError>
    requires user { slice_get pair.now.directory.now.people user ≡ Some person.now }
    requires listed { body.AreListedFor pair.now person.now listed.now }
    requires asked { All (IsAskClass pair.now person.now) asked.now }
    requires right { AreRight pair.now comparisons.old }
    ensures all { IfOk result (λ classes. (c : Cell) → body.IsOnEach pair.entry.now
        (option_copied scope.entry) user (HaveAsk (body.asking pair.entry.now) asked.entry.now) c
        → IsClassed pair.entry.now classes.items c) }
    ensures classes { IfOk result (λ classes. All (IsClass pair.entry.now user person.entry.now
        asked.entry.now) classes.items) }
    ensures right { OnOk result (AreRight pair.entry.now comparisons.new) }
{
    let mut classes = Vec::new(alloc);
    let machines = pair.directory.machines();
    for host in 0..machines.len() {
        let spot = Spot {
            user,
            host,
            person,
            machine: &machines[host],
        };
        add_host(
            alloc,
            pair,
            spot,
            scope,
            listed,
            asked,
            &mut classes,
            comparisons,
        )?;
    }
    Ok(classes)
}

// Returns what is found for the user on the hosts that are asked about, where this is asked.
fn rows_for_asked(
    alloc: Global,
    pair: &Pair<'_>,
    user: usize,
    person: &Person,
    scope: Option<&Machine>,
    listed: &Listed,
    asked: &[AskClass],
    comparisons: &mut Comparisons,
) -> Result<Vec<Row>, AllocError>
    requires user { slice_get pair.now.directory.now.people user ≡ Some person.now }
    requires listed { body.AreListedFor pair.now person.now listed.now }
    requires asked { All (IsAskClass pair.now person.now) asked.now }
    requires right { AreRight pair.now comparisons.old }
    ensures all { IfOk result (λ rows. body.Progress pair.entry.now [] rows.items
        (body.IsOnEach pair.entry.now (option_copied scope.entry) user
        (HaveAsk (body.asking pair.entry.now) asked.entry.now))) }
    ensures right { OnOk result (AreRight pair.entry.now comparisons.new) }
{
    let classes = classes_for(alloc, pair, user, person, scope, listed, asked, comparisons)?;
    rows_of(alloc, pair, user, person, asked, &classes)
}

// Returns what is found for the user on the hosts that are asked about. The machine is any known host.
fn rows_beside(
    alloc: Global,
    pair: &Pair<'_>,
    user: usize,
    person: &Person,
    machine: &Machine,
    scope: Option<&Machine>,
    asks: &SplitAsks,
    comparisons: &mut Comparisons,
) -> Result<Vec<Row>, AllocError>
    requires user { slice_get pair.now.directory.now.people user ≡ Some person.now }
    requires split { IsSplit pair.now asks.now }
    requires right { AreRight pair.now comparisons.old }
    ensures all { IfOk result (λ rows. body.Progress pair.entry.now [] rows.items
        (body.IsForAsked pair.entry.now (option_copied scope.entry) user
        asks.entry.now.all.items)) }
    ensures right { OnOk result (AreRight pair.entry.now comparisons.new) }
{
    let left = asks_left(alloc, pair, person, machine, &asks.own)?;
    let listed = listed_for(alloc, pair, person)?;
    comparisons.begin_user(alloc, pair, &listed)?;
    let asked = ask_classes(alloc, pair, person, machine, &listed, &left, &asks.shared)?;
    rows_for_asked(
        alloc,
        pair,
        user,
        person,
        scope,
        &listed,
        &asked,
        comparisons,
    )
}

// Returns what is found for the user on the hosts that are asked about.
fn rows_for(
    alloc: Global,
    pair: &Pair<'_>,
    user: usize,
    person: &Person,
    scope: Option<&Machine>,
    asks: &SplitAsks,
    comparisons: &mut Comparisons,
) -> Result<Vec<Row>, AllocError>
    requires user { slice_get pair.now.directory.now.people user ≡ Some person.now }
    requires split { IsSplit pair.now asks.now }
    requires right { AreRight pair.now comparisons.old }
    ensures all { IfOk result (λ rows. body.Progress pair.entry.now [] rows.items
        (body.IsForAsked pair.entry.now (option_copied scope.entry) user
        asks.entry.now.all.items)) }
    ensures right { OnOk result (AreRight pair.entry.now comparisons.new) }
{
    match pair.directory.machines().first() {
        None => Ok(Vec::new(alloc)),
        Some(machine) => {
            rows_beside(alloc, pair, user, person, machine, scope, asks, comparisons)
        }
    }
}

// Adds what is found for the user, if it is asked about; rows that differ in the user alone become one.
fn add_user(
    alloc: Global,
    pair: &Pair<'_>,
    user: usize,
    person: &Person,
    scope: Scope<'_>,
    asks: &SplitAsks,
    comparisons: &mut Comparisons,
    rows: &mut Vec<Row>,
    finder: &mut Finder,
) -> Result<(), AllocError>
    requires user { slice_get pair.now.directory.now.people user ≡ Some person.now }
    requires split { IsSplit pair.now asks.now }
    requires right { AreRight pair.now comparisons.old }
    ensures added { OnOk result (body.Progress pair.entry.now rows.old.items rows.new.items
        (body.IsForUser pair.entry.now (option_copied scope.entry.user)
        (option_copied scope.entry.host) user asks.entry.now.all.items)) }
    ensures right { OnOk result (AreRight pair.entry.now comparisons.new) }
{
    if !is_this_user(scope.user, person) {
        return Ok(());
    }
    if !pair.may_differ_for(person) {
        return Ok(());
    }
    let more = rows_for(alloc, pair, user, person, scope.host, asks, comparisons)?;
    absorb_all(rows, more, Dimension::Users, finder)
}

// Returns the rows of the users from `first` on and before `end`, on the hosts that are asked about.
fn rows_between(
    alloc: Global,
    pair: &Pair<'_>,
    scope: Scope<'_>,
    asks: &SplitAsks,
    first: usize,
    end: usize,
) -> Result<Vec<Row>, AllocError>
    requires { IsSplit pair.now asks.now }
    ensures { IfOk result (λ rows. body.Progress pair.now [] rows.items
        (body.IsUserBetween pair.now (option_copied scope.entry.user)
        (option_copied scope.entry.host) first end asks.now.all.items)) }
{
    let mut comparisons = Comparisons::none(alloc)?;
    let mut finder = Finder::new(alloc, BUCKETS)?;
    let mut rows = Vec::new(alloc);
    let people = pair.directory.people();
    for user in first..end.min(people.len()) {
        add_user(
            alloc,
            pair,
            user,
            &people[user],
            scope,
            asks,
            &mut comparisons,
            &mut rows,
            &mut finder,
        )?;
    }
    Ok(rows)
}

/// The number of parts of the known hosts, each of which is looked up in a thread of its own, and of the known users, each of which is
/// compared in one.
pub(crate) const PARTS: usize = 4;

// The number of buckets in which the rows of all users are found.
const BUCKETS_OF_ALL: usize = 16384;

// Returns the rows of all parts, each of `size` users. Rows that differ in the user alone become one.
fn joined_rows(
    alloc: Global,
    pair: &Pair<'_>,
    scope: Scope<'_>,
    asks: &SplitAsks,
    size: usize,
    parts: Vec<Result<Vec<Row>, AllocError>>,
) -> Result<Vec<Row>, AllocError>
    requires { body.AreParts pair.now (option_copied scope.user) (option_copied scope.host)
        asks.now.all.items size parts.items }
    ensures { IfOk result (λ rows. body.Progress pair.now [] rows.items
        (body.IsUserBefore pair.now (option_copied scope.entry.user)
        (option_copied scope.entry.host) (vec_len parts * size) asks.now.all.items)) }
{
    let mut finder = Finder::new(alloc, BUCKETS_OF_ALL)?;
    let mut rows = Vec::new(alloc);
    for part in parts {
        absorb_all(&mut rows, part?, Dimension::Users, &mut finder)?;
    }
    Ok(rows)
}

// Returns what is found for the users on the hosts that are asked about.
fn all_rows<T: Threads + Sync>(
    alloc: Global,
    threads: &T,
    pair: &Pair<'_>,
    scope: Scope<'_>,
    asks: &SplitAsks,
) -> Result<Vec<Row>, AllocError>
    requires { IsSplit pair.now asks.now }
    ensures { IfOk result (λ rows. body.Progress pair.now [] rows.items
        (body.IsAsked pair.now (option_copied scope.entry.user)
        (option_copied scope.entry.host) asks.now.all.items)) }
{
    let size = pair.directory.people().len() / PARTS + 1;
    let parts = thread::map_indices(
        threads,
        alloc,
        PARTS,
        &|part: usize| -> Result<Vec<Row>, AllocError>
            requires split { IsSplit pair.now asks.now }
            requires room { part * size + size < 2 ^ 64 }
            ensures { IfOk result (λ rows. body.Progress pair.entry.now [] rows.items
                (body.IsUserBetween pair.entry.now (option_copied scope.entry.user)
                (option_copied scope.entry.host) (part * size) (part * size + size)
                asks.entry.now.all.items)) }
        {
            let first = part * size;
            rows_between(alloc, pair, scope, asks, first, first + size)
        },
    )?;
    joined_rows(alloc, pair, scope, asks, size, parts)
}

// Returns the asks to which the policies may say something else, to some user on some host.
fn asks_left_for_all(
    alloc: Global,
    pair: &Pair<'_>,
    person: &Person,
    machine: &Machine,
    asks: &[Ask],
) -> Result<Vec<Ask>, AllocError>
    ensures { IfOk result (λ left. body.AreLeftForAll pair.now asks.now left.items) }
{
    let mut left = Vec::new(alloc);
    for ask in asks {
        push_if(
            &mut left,
            *ask,
            pair.may_differ_asked(person, machine, *ask),
        )?;
    }
    Ok(left)
}

// Returns what is found for the users on the hosts that are asked about, where one of these is asked.
fn rows_where_asked<T: Threads + Sync>(
    alloc: Global,
    threads: &T,
    pair: &Pair<'_>,
    scope: Scope<'_>,
    asks: Vec<Ask>,
) -> Result<Vec<Row>, AllocError>
    ensures { IfOk result (λ rows. body.Progress pair.now [] rows.items
        (body.IsAsked pair.now (option_copied scope.entry.user)
        (option_copied scope.entry.host) asks.items)) }
{
    match (
        pair.directory.people().first(),
        pair.directory.machines().first(),
    ) {
        (Some(person), Some(machine)) => {
            let left = asks_left_for_all(alloc, pair, person, machine, &asks)?;
            drop(asks);
            let split = split_asks(alloc, pair, person, machine, left)?;
            all_rows(alloc, threads, pair, scope, &split)
        }
        _ => {
            let split = unshared_asks(alloc, pair, asks)?;
            all_rows(alloc, threads, pair, scope, &split)
        }
    }
}

// Compares two policies by their grants, with the commands of these if one of them stands for a note.
fn compared_grants<'a, T: Threads + Sync>(
    alloc: Global,
    threads: &T,
    old: &'a Checked,
    old_grants: Vec<Block<'a>>,
    old_atoms: &'a [Atom],
    new: &'a Checked,
    new_grants: Vec<Block<'a>>,
    new_atoms: &'a [Atom],
    directory: &'a Directory,
    groups: &'a [Group],
    scope: Scope<'_>,
) -> Result<Vec<Row>, AllocError>
    requires old { AreGrants old.now old_grants.items }
    requires old_resolve { IsTrue (list_all (block_resolves old.now) old_grants.items) }
    requires old_atoms { AreLineAtoms old_grants.items old_atoms.now }
    requires new { AreGrants new.now new_grants.items }
    requires new_resolve { IsTrue (list_all (block_resolves new.now) new_grants.items) }
    requires new_atoms { AreLineAtoms new_grants.items new_atoms.now }
    ensures { IfOk result (λ rows. differences.AreDifferences old.entry.now new.entry.now
        directory.entry.now groups.entry.now (option_copied scope.entry.user)
        (option_copied scope.entry.host) rows.items) }
{
    let asks = all_asks(alloc, directory, groups)?;
    let old_side = Side::of(alloc, old, old_grants, old_atoms)?;
    let new_side = Side::of(alloc, new, new_grants, new_atoms)?;
    let pair = Pair::of(alloc, threads, old_side, new_side, directory, groups)?;
    rows_where_asked(alloc, threads, &pair, scope, asks)
}

/// Compares two policies in the cells of the users and hosts that are asked about: each target (none, and each known user) with
/// each of the groups (none, and each of them). What a row says is so in each of its cells; in a cell without a row both
/// policies say the same to every command, whichever noted conditions hold: a command that follows a note in its line may apply or
/// not, and two equal commands that follow equal ones in their lines apply alike.
///
/// Of cells that differ in the host alone, those of which the same is found are one row, with its hosts in order; then rows that differ in
/// the target alone, with its targets in the order of the known users, in the group alone, and in the user alone. The hosts are looked up
/// and the users compared in several threads, where these can be made; the rows are the same without. Returns `AllocError` if allocation
/// fails.
pub fn compared_policies<T: Threads + Sync>(
    alloc: Global,
    threads: &T,
    old: &Checked,
    new: &Checked,
    directory: &Directory,
    groups: &[Group],
    scope: Scope<'_>,
) -> Result<Vec<Row>, AllocError>
    ensures { IfOk result (λ rows. differences.AreDifferences old.now new.now directory.now
        groups.now (option_copied scope.entry.user) (option_copied scope.entry.host)
        rows.items) }
{
    let old_grants = blocks_of(alloc, old)?;
    let new_grants = blocks_of(alloc, new)?;
    let old_atoms = line_atoms(alloc, &old_grants)?;
    let new_atoms = line_atoms(alloc, &new_grants)?;
    compared_grants(
        alloc, threads, old, old_grants, &old_atoms, new, new_grants, &new_atoms, directory,
        groups, scope,
    )
}
