//! Rows of the table: cells of which one thing is found.
ghost use Rattle.std.specs.Prelude.{◌≡◌, ◌<◌, [], IsPermutation, IfOk, IfSome, OnOk, get_or, length, true};
ghost use Rattle.review_compare.specs.declared.row.Row.{Row as TheRow};
ghost use Rattle.review_compare.specs.Differences as differences;
ghost use Rattle.review_compare.specs.Body.Merged as body;

use crate::alike::is_same_found;
use crate::ask_class::AskedWith;
use crate::cell::{AskedGroups, AskedTargets};
use crate::compared::Compared;
use crate::finder::{Finder, digest_of};
use crate::targets::{are_same_targets, in_order, is_asked};
use std::alloc::{AllocError, Global};
use sudo_text::Seq;

/// Cells with one finding: those of each user on each host, with each target and each group of the row.
#[derive(Debug, Drop, PartialEq, Eq)]
pub struct Row {
    /// The indices of the users.
    pub users: Seq<usize>,
    /// The indices of the hosts.
    pub hosts: Seq<usize>,
    /// Which users are asked for, or that no one is.
    pub targets: Seq<AskedTargets>,
    /// Which groups are asked for.
    pub groups: Seq<AskedGroups>,
    /// What is found.
    pub found: Compared,
}

/// The number of buckets in which the rows of one user, or of a part of the users, are found.
pub(crate) const BUCKETS: usize = 1024;

/// In what two rows may differ that become one.
#[derive(Clone, Copy, Debug, PartialEq, Eq)]
pub(crate) enum Dimension {
    Users,
    Targets,
    Groups,
}

fn are_same(numbers: &Seq<usize>, others: &Seq<usize>) -> bool
    ensures { result ≡ true → numbers.now ≡ others.now }
{
    numbers == others
}

/// Whether both are the same number, or neither is one.
pub(crate) fn is_same_number(number: Option<usize>, other: Option<usize>) -> bool
    ensures { result ≡ differences.same_number number other }
{
    match (number, other) {
        (None, None) => true,
        (Some(own), Some(its)) => own == its,
        _ => false,
    }
}

fn are_same_asked(targets: &Seq<AskedTargets>, others: &Seq<AskedTargets>) -> bool
    ensures { result ≡ true → targets.now ≡ others.now }
{
    are_same_targets(targets.as_slice(), others.as_slice())
}

/// Whether the same groups are asked for.
pub(crate) fn is_same_groups(groups: AskedGroups, others: AskedGroups) -> bool
    ensures { result ≡ true → groups ≡ others }
{
    match (groups, others) {
        (AskedGroups::One(own), AskedGroups::One(its)) => own == its,
        (AskedGroups::Own, AskedGroups::Own) => true,
        (AskedGroups::Others, AskedGroups::Others) => true,
        _ => false,
    }
}

fn have_same_groups(groups: &[AskedGroups], others: &[AskedGroups]) -> bool
    ensures { result ≡ true → groups.now ≡ others.now }
{
    let mut own = groups;
    let mut left = others;
    while let [each, rest @ ..] = own {
        let [other, more @ ..] = left else {
            return false;
        };
        if !is_same_groups(*each, *other) {
            return false;
        }
        own = rest;
        left = more;
    }
    left.is_empty()
}

fn are_same_groups(groups: &Seq<AskedGroups>, others: &Seq<AskedGroups>) -> bool
    ensures { result ≡ true → groups.now ≡ others.now }
{
    have_same_groups(groups.as_slice(), others.as_slice())
}

impl Row {
    /// Returns the row of the targets with their groups, for a user on hosts. Returns `AllocError` if allocation fails.
    pub(crate) fn of(
        alloc: Global,
        user: usize,
        hosts: &[usize],
        asked: &AskedWith,
        found: Compared,
    ) -> Result<Row, AllocError>
        ensures { IfOk result (body.IsRowOf user hosts.entry.now asked.now found) }
    {
        let users = Seq::from_slice(alloc, &[user])?;
        let hosts = Seq::from_slice(alloc, hosts)?;
        let targets = Seq::from_slice(alloc, &asked.targets)?;
        let groups = Seq::from_slice(alloc, &[asked.groups])?;
        Ok(Row {
            users,
            hosts,
            targets,
            groups,
            found,
        })
    }

    // Whether the rows differ in this alone. Rows with a target and without one differ in more.
    fn is_like(&self, other: &Row, dimension: Dimension) -> bool
        ensures { result ≡ true → body.AreLike dimension self.now other.now }
    {
        match dimension {
            Dimension::Users => self.is_like_but_users(other),
            Dimension::Targets => self.is_like_but_targets(other),
            Dimension::Groups => self.is_like_but_groups(other),
        }
    }

    fn is_like_but_users(&self, other: &Row) -> bool
        ensures { result ≡ true → body.AreLike Dimension.Users self.now other.now }
    {
        if !are_same_groups(&self.groups, &other.groups) {
            return false;
        }
        if !are_same(&self.hosts, &other.hosts) {
            return false;
        }
        if !are_same_asked(&self.targets, &other.targets) {
            return false;
        }
        is_same_found(&self.found, &other.found)
    }

    fn is_like_but_targets(&self, other: &Row) -> bool
        ensures { result ≡ true → body.AreLike Dimension.Targets self.now other.now }
    {
        if is_asked(self.targets.as_slice()) != is_asked(other.targets.as_slice()) {
            return false;
        }
        if !are_same_groups(&self.groups, &other.groups) {
            return false;
        }
        if !are_same(&self.users, &other.users) {
            return false;
        }
        if !are_same(&self.hosts, &other.hosts) {
            return false;
        }
        is_same_found(&self.found, &other.found)
    }

    fn is_like_but_groups(&self, other: &Row) -> bool
        ensures { result ≡ true → body.AreLike Dimension.Groups self.now other.now }
    {
        if names_group(&self.groups) != names_group(&other.groups) {
            return false;
        }
        if !are_same(&self.users, &other.users) {
            return false;
        }
        if !are_same(&self.hosts, &other.hosts) {
            return false;
        }
        if !are_same_asked(&self.targets, &other.targets) {
            return false;
        }
        is_same_found(&self.found, &other.found)
    }

    // Appends what the other has in this.
    fn extend(&mut self, other: &Row, dimension: Dimension) -> Result<(), AllocError>
        requires { body.AreLike dimension self.old other.now }
        ensures { OnOk result (body.IsJoined self.old other.now self.new) }
    {
        match dimension {
            Dimension::Users => self.users.extend_from_slice(other.users.as_slice()),
            Dimension::Targets => self.targets.extend_from_slice(other.targets.as_slice()),
            Dimension::Groups => self.groups.extend_from_slice(other.groups.as_slice()),
        }
    }
}

// Whether there is a row at the index that differs from this one in the dimension alone.
fn is_like_at(rows: &[Row], index: usize, row: &Row, dimension: Dimension) -> bool
    ensures { result ≡ true → (index < length rows.now) × ((d : TheRow)
        → body.AreLike dimension (get_or rows.now index d) row.now) }
{
    if index >= rows.len() {
        return false;
    }
    rows[index].is_like(row, dimension)
}

// Returns the first of the indices at which a row differs from this one in the dimension alone.
fn like_index(rows: &[Row], row: &Row, dimension: Dimension, indices: &[usize]) -> Option<usize>
    ensures { IfSome result (λ i. (i < length rows.now) × ((d : TheRow)
        → body.AreLike dimension (get_or rows.now i d) row.now)) }
{
    for index in indices {
        if is_like_at(rows, *index, row, dimension) {
            return Some(*index);
        }
    }
    None
}

/// Merges a row into the row that differs from it in this dimension alone, if the finder has one; otherwise appends it. Returns
/// `AllocError` if allocation fails.
pub(crate) fn absorb(
    rows: &mut Vec<Row>,
    row: Row,
    dimension: Dimension,
    finder: &mut Finder,
) -> Result<(), AllocError>
    ensures { OnOk result (body.Absorbs rows.old.items row rows.new.items) }
{
    let digest = digest_of(&row, dimension);
    match like_index(rows, &row, dimension, finder.indices(digest)) {
        Some(index) => rows[index].extend(&row, dimension),
        None => {
            finder.add(digest, rows.len())?;
            rows.push(row)?;
            Ok(())
        }
    }
}

/// Adds rows, one after the other. Returns `AllocError` if allocation fails.
pub(crate) fn absorb_all(
    rows: &mut Vec<Row>,
    more: Vec<Row>,
    dimension: Dimension,
    finder: &mut Finder,
) -> Result<(), AllocError>
    ensures { OnOk result (body.AbsorbsAll rows.old.items more.items rows.new.items) }
{
    for row in more {
        absorb(rows, row, dimension, finder)?;
    }
    Ok(())
}

// Returns the row with its targets in order.
fn ordered_row(alloc: Global, row: Row) -> Result<Row, AllocError>
    ensures { IfOk result (body.IsOrdered row) }
{
    let Row {
        users,
        hosts,
        targets,
        groups,
        found,
    } = row;
    Ok(Row {
        users,
        hosts,
        targets: in_order(alloc, targets)?,
        groups,
        found,
    })
}

// Returns the rows, the targets of each in order.
fn ordered(alloc: Global, rows: Vec<Row>) -> Result<Vec<Row>, AllocError>
    ensures { IfOk result (λ ordered. body.AreOrdered rows.items ordered.items) }
{
    let mut ordered = Vec::new(alloc);
    for row in rows {
        ordered.push(ordered_row(alloc, row)?)?;
    }
    Ok(ordered)
}

// Returns the rows, those that differ in the group alone as one.
fn grouped(alloc: Global, rows: Vec<Row>) -> Result<Vec<Row>, AllocError>
    ensures { IfOk result (λ grouped. body.AbsorbsAll [] rows.items grouped.items) }
{
    let mut finder = Finder::new(alloc, BUCKETS)?;
    let mut grouped = Vec::new(alloc);
    for row in rows {
        absorb(&mut grouped, row, Dimension::Groups, &mut finder)?;
    }
    Ok(grouped)
}

/// Returns the rows, the targets of each in order, and those that differ in the group alone as one. Returns `AllocError` if allocation
/// fails.
pub(crate) fn merged(alloc: Global, rows: Vec<Row>) -> Result<Vec<Row>, AllocError>
    ensures { IfOk result (λ merged. body.AreMerged rows.items merged.items) }
{
    let ordered = ordered(alloc, rows)?;
    grouped(alloc, ordered)
}

// Whether the first of them are groups.
fn names_group(groups: &Seq<AskedGroups>) -> bool {
    match groups.as_slice() {
        [] => false,
        [AskedGroups::One(first), ..] => first.is_some(),
        _ => true,
    }
}
