//! A policy with its grants in blocks, and which of them stand for a question.
ghost use Rattle.std.specs.Prelude.{◌≡◌, filter, IfOk, IsTrue, OnOk, option_copied, true};
ghost use Rattle.std.specs.List.{list_all};
ghost use Rattle.sudo_verdict.specs.Questions.{Question, question_as};
ghost use Rattle.review_compare.specs.Blocks.{AreBlocks, AreGrants, block_resolves};
ghost use Rattle.review_compare.specs.Body.Chosen as body;
ghost use Rattle.review_compare.specs.Body.LineAtoms.{AreLineAtoms};
ghost use Rattle.review_compare.specs.Body.Shown.{all_shown};
ghost use Rattle.review_compare.specs.Body.Unchanged.{IsQuiet};
ghost use Rattle.std.specs.Prelude.{◌++◌, ◌∷◌, ◌&&◌, [], false, if◌then◌else◌};
ghost use Rattle.sudo_match.specs.declared.people.Machine.{Machine as TheMachine};
ghost use Rattle.sudo_match.specs.declared.people.Person.{Person as ThePerson};

use crate::block::Block;
use crate::common::Common;
use crate::lines::lined_blocks;
use crate::ruling::Ruled;
use std::alloc::{AllocError, Global};
use sudo_match::{Directory, Machine, Person};
use sudo_policy::{Atom, Checked, Runas};
use sudo_verdict::{Asker, allows_runas, lists_host, lists_user};

/// A policy with its grants in blocks.
#[derive(Drop)]
pub(crate) struct Side<'a> {
    pub(crate) checked: &'a Checked,
    pub(crate) blocks: Vec<Block<'a>>,
    ghost are_blocks: { AreBlocks checked.now blocks.items },
    ghost resolve: { IsTrue (list_all (block_resolves checked.now) blocks.items) },
}

/// Appends the index, if it is kept. Returns `AllocError` if allocation fails.
pub(crate) fn push_if(indices: &mut Vec<usize>, index: usize, keep: bool) -> Result<(), AllocError>
    ensures { OnOk result (indices.new.items
        ≡ indices.old.items ++ (if keep then index ∷ [] else [])) }
{
    if keep {
        indices.push(index)?;
    }
    Ok(())
}

/// Whether the runas may allow the target to one user and not to another. It cannot without a list of groups, unless it has no
/// list at all.
pub(crate) fn depends_on_user(runas: Option<&Runas>, target: Option<&Person>) -> bool
    ensures { result ≡ body.depends_on_user (option_copied runas.entry)
        (option_copied target.entry) }
{
    match (runas, target) {
        (_, None) => true,
        (None, Some(_)) => false,
        (Some(runas), Some(_)) => runas.groups.is_some() || runas.users.is_none(),
    }
}

impl<'a> Side<'a> {
    /// Returns the policy with its rows in blocks, each with what stands before it in its line: of its grants, and their commands
    /// if one of them stands for a note. Returns `AllocError` if allocation fails.
    pub(crate) fn of(
        alloc: Global,
        checked: &'a Checked,
        grants: Vec<Block<'a>>,
        atoms: &'a [Atom],
    ) -> Result<Side<'a>, AllocError>
        requires grants { AreGrants checked.now grants.items }
        requires resolve { IsTrue (list_all (block_resolves checked.now) grants.items) }
        requires atoms { AreLineAtoms grants.items atoms.now }
        ensures { IfOk result (λ side. side.checked.now ≡ checked.now) }
    {
        let blocks = lined_blocks(alloc, checked, grants, atoms)?;
        Ok(Side { checked, blocks })
    }
}

impl Side<'_> {
    // Whether the user list of the block at an index allows the user.
    fn lists_user_at(&self, index: usize, user: &Person) -> bool
        ensures { result
            ≡ body.user_at self.now.checked.now self.now.blocks.items user.now index }
    {
        match self.blocks.get(index) {
            None => false,
            Some(block) => lists_user(self.checked, block.users, user),
        }
    }

    /// Whether the host list of the block at an index allows the host.
    pub(crate) fn lists_host_at(&self, index: usize, host: &Machine) -> bool
        ensures { result
            ≡ body.host_at self.now.checked.now self.now.blocks.items host.now index }
    {
        match self.blocks.get(index) {
            None => false,
            Some(block) => lists_host(self.checked, block.hosts, host),
        }
    }

    /// Whether the runas of the block at an index allows the target and the group.
    pub(crate) fn allows_at(&self, index: usize, directory: &Directory, asker: Asker<'_>) -> bool
        ensures { result ≡ body.runas_at self.now.checked.now self.now.blocks.items
            (question_as directory.now asker.entry.user.now asker.entry.host.now
            (option_copied asker.entry.target) (option_copied asker.entry.group)) index }
    {
        match self.blocks.get(index) {
            None => false,
            Some(block) => allows_runas(self.checked, directory, asker, block.runas),
        }
    }

    /// Whether a block between the common prefix and suffix lists the user.
    pub(crate) fn is_for_user(&self, common: Common, user: &Person) -> bool
        ensures { result ≡ false → (q : Question) → q.user ≡ user.now
            → IsQuiet self.now.checked.now self.now.blocks.items common q }
    {
        for index in common.front..self.blocks.len().saturating_sub(common.back) {
            if self.lists_user_at(index, user) {
                return true;
            }
        }
        false
    }

    // Whether the lists of the block at an index allow the user and the host.
    fn lists_spot_at(&self, index: usize, user: &Person, host: &Machine) -> bool
        ensures { result ≡ (body.user_at self.now.checked.now self.now.blocks.items user.now index
            && body.host_at self.now.checked.now self.now.blocks.items host.now index) }
    {
        self.lists_user_at(index, user) && self.lists_host_at(index, host)
    }

    /// Whether a block between the common prefix and suffix lists the user and the host.
    pub(crate) fn is_for_spot(&self, common: Common, user: &Person, host: &Machine) -> bool
        ensures { result ≡ false → (q : Question) → q.user ≡ user.now → q.host ≡ host.now
            → IsQuiet self.now.checked.now self.now.blocks.items common q }
    {
        for index in common.front..self.blocks.len().saturating_sub(common.back) {
            if self.lists_spot_at(index, user, host) {
                return true;
            }
        }
        false
    }

    // Whether the runas of the block at an index allows the target and the group, and its user list the user.
    fn lists_asker_at(&self, index: usize, directory: &Directory, asker: Asker<'_>) -> bool
        ensures { result ≡ (body.runas_at self.now.checked.now self.now.blocks.items
            (question_as directory.now asker.entry.user.now asker.entry.host.now
            (option_copied asker.entry.target) (option_copied asker.entry.group)) index
            && body.user_at self.now.checked.now self.now.blocks.items
            asker.entry.user.now index) }
    {
        self.allows_at(index, directory, asker) && self.lists_user_at(index, asker.user)
    }

    /// Whether a block between the common prefix and suffix lists the user, and its runas allows the target and the group. Its
    /// host list is not asked.
    pub(crate) fn is_for_asker(
        &self,
        common: Common,
        directory: &Directory,
        asker: Asker<'_>,
    ) -> bool
        ensures { result ≡ false → (m : TheMachine)
            → IsQuiet self.now.checked.now self.now.blocks.items common
            (question_as directory.now asker.entry.user.now m
            (option_copied asker.entry.target) (option_copied asker.entry.group)) }
    {
        for index in common.front..self.blocks.len().saturating_sub(common.back) {
            if self.lists_asker_at(index, directory, asker) {
                return true;
            }
        }
        false
    }

    // Whether the runas of the block at an index may allow the target and the group to some user. Where it is not the same for
    // all users, it may.
    fn may_allow_at(&self, index: usize, directory: &Directory, asker: Asker<'_>) -> bool
        ensures { result ≡ false → (u : ThePerson) (m : TheMachine)
            → body.runas_at self.now.checked.now self.now.blocks.items (question_as directory.now u m
            (option_copied asker.entry.target) (option_copied asker.entry.group)) index ≡ false }
    {
        match self.blocks.get(index) {
            None => false,
            Some(block) => {
                depends_on_user(block.runas, asker.target)
                    || allows_runas(self.checked, directory, asker, block.runas)
            }
        }
    }

    /// Whether the runas of a block between the common prefix and suffix may allow the target and the group to some user. Its
    /// lists are not asked.
    pub(crate) fn may_allow(&self, common: Common, directory: &Directory, asker: Asker<'_>) -> bool
        ensures { result ≡ false → (u : ThePerson) (m : TheMachine)
            → IsQuiet self.now.checked.now self.now.blocks.items common
            (question_as directory.now u m (option_copied asker.entry.target)
            (option_copied asker.entry.group)) }
    {
        for index in common.front..self.blocks.len().saturating_sub(common.back) {
            if self.may_allow_at(index, directory, asker) {
                return true;
            }
        }
        false
    }

    /// Returns those of the indices whose blocks' user lists allow the user. Returns `AllocError` if allocation fails.
    pub(crate) fn listed_for(
        &self,
        alloc: Global,
        user: &Person,
        near: &[usize],
    ) -> Result<Vec<usize>, AllocError>
        ensures all { IfOk result (λ indices. body.HaveAllOf self.now.checked.now
            self.now.blocks.items near.now user.now indices.items) }
        ensures each { IfOk result (λ indices. list_all (body.user_at self.now.checked.now
            self.now.blocks.items user.now) indices.items ≡ true) }
    {
        let mut indices = Vec::with_capacity(alloc, near.len())?;
        for index in near {
            push_if(&mut indices, *index, self.lists_user_at(*index, user))?;
        }
        Ok(indices)
    }

    /// Returns those of the indices whose host list allows the host. Returns `AllocError` if allocation fails.
    pub(crate) fn listed_on(
        &self,
        alloc: Global,
        user: &Person,
        host: &Machine,
        listed: &[usize],
        marks: &[Option<bool>],
    ) -> Result<Vec<usize>, AllocError>
        requires listed { list_all (body.user_at self.now.checked.now self.now.blocks.items
            user.now) listed.now ≡ true }
        requires marks { body.AreMarks self.now.checked.now self.now.blocks.items host.now marks.now }
        ensures all { IfOk result (λ indices. body.HaveAllOn self.now.checked.now
            self.now.blocks.items listed.now host.now indices.items) }
        ensures each { IfOk result (λ indices. list_all (body.listed_at self.now.checked.now
            self.now.blocks.items user.now host.now) indices.items ≡ true) }
    {
        let mut indices = Vec::with_capacity(alloc, listed.len())?;
        for index in listed {
            push_if(
                &mut indices,
                *index,
                self.lists_host_by(marks, *index, host),
            )?;
        }
        Ok(indices)
    }

    /// Returns those of the indices whose host list allows the host, which was looked up for some blocks. Returns `AllocError` if
    /// allocation fails.
    pub(crate) fn on_host(
        &self,
        alloc: Global,
        host: &Machine,
        indices: &[usize],
        marks: &[Option<bool>],
    ) -> Result<Vec<usize>, AllocError>
        requires { body.AreMarks self.now.checked.now self.now.blocks.items host.now marks.now }
        ensures { IfOk result (λ on. on.items ≡ filter (body.host_at self.now.checked.now
            self.now.blocks.items host.now) indices.now) }
    {
        let mut on = Vec::with_capacity(alloc, indices.len())?;
        for index in indices {
            push_if(&mut on, *index, self.lists_host_by(marks, *index, host))?;
        }
        Ok(on)
    }
}

/// Appends the rows of the block. Returns `AllocError` if allocation fails.
pub(crate) fn push_rows<'b>(
    block: &'b Block<'_>,
    rows: &mut Vec<Ruled<'b>>,
) -> Result<(), AllocError>
    ensures { OnOk result (all_shown rows.new.items
        ≡ all_shown rows.old.items ++ body.deciders_of block.now) }
{
    for row in &block.rows {
        rows.push(Ruled {
            place: block.place,
            answer: row.answer,
            before: row.before,
            shape: &row.shape,
        })?;
    }
    Ok(())
}

// Appends the rows of the block at an index.
fn push_at<'b>(
    blocks: &'b [Block<'_>],
    index: usize,
    rows: &mut Vec<Ruled<'b>>,
) -> Result<(), AllocError>
    ensures { OnOk result (all_shown rows.new.items
        ≡ all_shown rows.old.items ++ body.deciders_at blocks.now index) }
{
    if index < blocks.len() {
        push_rows(&blocks[index], rows)
    } else {
        Ok(())
    }
}

/// Returns the rows of the blocks at these indices. Returns `AllocError` if allocation fails.
pub(crate) fn rows_at<'b>(
    alloc: Global,
    blocks: &'b [Block<'_>],
    indices: &[usize],
) -> Result<Vec<Ruled<'b>>, AllocError>
    ensures { IfOk result (λ rows. all_shown rows.items ≡ body.chosen blocks.now indices.now) }
{
    let mut rows = Vec::with_capacity(alloc, indices.len())?;
    for index in indices {
        push_at(blocks, *index, &mut rows)?;
    }
    Ok(rows)
}
