//! Which of the blocks near a change list a known host, looked up once for all users.
ghost use Rattle.std.specs.Prelude.{◌≡◌, ◌<◌, ◌+◌, ◌*◌, ◌^◌, get_or, IfOk, None, Some, slice_get, vec_len};
ghost use Rattle.sudo_match.specs.declared.people.Machine.{Machine as TheMachine};
ghost use Rattle.review_compare.specs.Body.Chosen.{AreMarks, host_at};
ghost use Rattle.review_compare.specs.Body.HostMarks as body;

use crate::common::Common;
use crate::differences::PARTS;
use crate::pair::Pair;
use crate::side::Side;
use crate::spot::Listed;
use std::alloc::{AllocError, Global};
use std::thread;
use std::thread::Threads;
use sudo_match::{Directory, Machine};

/// Whether the host lists of blocks of both policies allow a host, by the indices of the blocks, where that was looked up.
#[derive(Drop)]
pub(crate) struct HostMarks {
    pub(crate) old: Vec<Option<bool>>,
    pub(crate) new: Vec<Option<bool>>,
}

// Returns the mark at an index, if there is one.
fn mark_at(marks: &[Option<bool>], index: usize) -> Option<bool>
    ensures { result ≡ get_or marks.now index None }
{
    if index < marks.len() {
        marks[index]
    } else {
        None
    }
}

impl Side<'_> {
    // Looks up whether the host list of the block at an index allows the host.
    fn mark_host(&self, index: usize, host: &Machine, marks: &mut Vec<Option<bool>>)
        ensures { AreMarks self.now.checked.now self.now.blocks.items host.now marks.old.items
            → AreMarks self.now.checked.now self.now.blocks.items host.now marks.new.items }
    {
        if index < marks.len() {
            marks[index] = Some(self.lists_host_at(index, host));
        }
    }

    // Returns which of the blocks at these indices have a host list that allows the host.
    fn marks_for(
        &self,
        alloc: Global,
        host: &Machine,
        near: &[usize],
    ) -> Result<Vec<Option<bool>>, AllocError>
        ensures { IfOk result (λ marks. AreMarks self.now.checked.now self.now.blocks.items
            host.now marks.items) }
    {
        let mut marks = Vec::new(alloc);
        marks.resize(self.blocks.len(), None)?;
        for index in near {
            self.mark_host(*index, host, &mut marks);
        }
        Ok(marks)
    }

    // Whether a block between the common prefix and suffix lists the host. Otherwise the policies say the same there.
    fn is_for_host(&self, common: Common, host: &Machine) -> bool {
        for index in common.front..self.blocks.len().saturating_sub(common.back) {
            if self.lists_host_at(index, host) {
                return true;
            }
        }
        false
    }

    /// Whether the host list of the block at an index allows the host, which was looked up for some blocks.
    pub(crate) fn lists_host_by(&self, marks: &[Option<bool>], index: usize, host: &Machine) -> bool
        requires { AreMarks self.now.checked.now self.now.blocks.items host.now marks.now }
        ensures { result
            ≡ host_at self.now.checked.now self.now.blocks.items host.now index }
    {
        match mark_at(marks, index) {
            Some(lists) => lists,
            None => self.lists_host_at(index, host),
        }
    }
}

// Returns which of the blocks near the change list the host, if that is to be kept and a block between the common prefix and suffix
// lists it.
fn marks_of(
    alloc: Global,
    old: &Side<'_>,
    new: &Side<'_>,
    common: Common,
    near: &Listed,
    host: &Machine,
    is_kept: bool,
) -> Result<HostMarks, AllocError>
    ensures { IfOk result (body.AreHostMarks old.now new.now host.now) }
{
    if !is_kept || !old.is_for_host(common, host) && !new.is_for_host(common, host) {
        return Ok(HostMarks {
            old: Vec::new(alloc),
            new: Vec::new(alloc),
        });
    }
    let old = old.marks_for(alloc, host, &near.old)?;
    let new = new.marks_for(alloc, host, &near.new)?;
    Ok(HostMarks { old, new })
}

// The most marks that are kept.
const MOST_MARKS: usize = 32_000_000;

// Returns for how many hosts the marks of both policies are kept.
fn most_hosts(old: &Side<'_>, new: &Side<'_>) -> usize {
    let blocks = old.blocks.len().saturating_add(new.blocks.len());
    MOST_MARKS.checked_div(blocks).unwrap_or(0)
}

// Returns the marks of the host at an index, and none if there is no such host.
fn marks_at(
    alloc: Global,
    old: &Side<'_>,
    new: &Side<'_>,
    common: Common,
    near: &Listed,
    directory: &Directory,
    host: usize,
) -> Result<HostMarks, AllocError>
    ensures { IfOk result (λ marks. (m : TheMachine) → body.AreHostMarks old.now new.now
        (get_or directory.now.machines host m) marks) }
{
    match directory.machines().get(host) {
        Some(machine) => {
            let is_kept = host < most_hosts(old, new);
            marks_of(alloc, old, new, common, near, machine, is_kept)
        }
        None => Ok(HostMarks {
            old: Vec::new(alloc),
            new: Vec::new(alloc),
        }),
    }
}

// Returns the marks of so many hosts from `first` on; there are none behind the last host.
fn marks_from(
    alloc: Global,
    old: &Side<'_>,
    new: &Side<'_>,
    common: Common,
    near: &Listed,
    directory: &Directory,
    first: usize,
    count: usize,
) -> Result<Vec<HostMarks>, AllocError>
    requires { first + count < 2 ^ 64 }
    ensures len { IfOk result (λ marks. vec_len marks ≡ count) }
    ensures marks { IfOk result (λ marks. body.HaveMarksFrom first old.now new.now
        directory.now.machines marks.items) }
{
    let mut marks = Vec::new(alloc);
    for host in first..first + count {
        marks.push(marks_at(alloc, old, new, common, near, directory, host)?)?;
    }
    Ok(marks)
}

// Returns the marks of all parts, each of so many hosts.
fn joined_marks(
    alloc: Global,
    old: &Side<'_>,
    new: &Side<'_>,
    directory: &Directory,
    count: usize,
    parts: Vec<Result<Vec<HostMarks>, AllocError>>,
) -> Result<Vec<HostMarks>, AllocError>
    requires { body.AreMarkParts count old.now new.now directory.now.machines parts.items }
    ensures { IfOk result (λ marks. body.HaveHostMarks old.now new.now
        directory.now.machines marks.items) }
{
    let mut marks = Vec::new(alloc);
    for part in parts {
        marks.append(&mut part?)?;
    }
    Ok(marks)
}

/// Returns for each known host on which the policies may differ which of the blocks near the change list it. The hosts are looked up
/// in several threads, where these can be made. Returns `AllocError` if allocation fails.
pub(crate) fn host_marks<T: Threads + Sync>(
    alloc: Global,
    threads: &T,
    old: &Side<'_>,
    new: &Side<'_>,
    common: Common,
    near: &Listed,
    directory: &Directory,
) -> Result<Vec<HostMarks>, AllocError>
    ensures { IfOk result (λ marks. body.HaveHostMarks old.now new.now
        directory.now.machines marks.items) }
{
    let count = directory.machines().len() / PARTS + 1;
    let parts = thread::map_indices(
        threads,
        alloc,
        PARTS,
        &|part: usize| -> Result<Vec<HostMarks>, AllocError>
            requires { part * count + count < 2 ^ 64 }
            ensures { body.IsMarkPart count old.entry.now new.entry.now
                directory.entry.now.machines part result }
        {
            let first = part * count;
            marks_from(alloc, old, new, common, near, directory, first, count)
        },
    )?;
    joined_marks(alloc, old, new, directory, count, parts)
}

impl Pair<'_> {
    /// Returns which of the old policy's blocks near the change list the host at an index.
    pub(crate) fn old_marks(&self, host: usize) -> &[Option<bool>]
        ensures { (m : TheMachine) → slice_get self.now.directory.now.machines host ≡ Some m
            → AreMarks self.now.old.checked.now self.now.old.blocks.items m result.now }
    {
        if host < self.marks.len() {
            &self.marks[host].old
        } else {
            &[]
        }
    }

    /// Returns which of the new policy's blocks near the change list the host at an index.
    pub(crate) fn new_marks(&self, host: usize) -> &[Option<bool>]
        ensures { (m : TheMachine) → slice_get self.now.directory.now.machines host ≡ Some m
            → AreMarks self.now.new.checked.now self.now.new.blocks.items m result.now }
    {
        if host < self.marks.len() {
            &self.marks[host].new
        } else {
            &[]
        }
    }
}
