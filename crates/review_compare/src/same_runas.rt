//! Blocks with the same runas, written out: for each ask it is evaluated once for all of them.
ghost use Rattle.std.specs.Prelude.{◌≡◌, ◌≤◌, ◌<◌, filter, get_or, IfOk, IfSome, length, option_copied, true};
ghost use Rattle.sudo_verdict.specs.Questions.{Question, question_as};
ghost use Rattle.review_compare.specs.Body.Chosen.{runas_at};
ghost use Rattle.review_compare.specs.Body.SameRunas as body;

use crate::common::allow_alike;
use crate::side::{Side, push_if};
use std::alloc::{AllocError, Global};
use sudo_match::Directory;
use sudo_verdict::Asker;

// Returns the answer of the first block with the same runas, if that block comes before this one.
fn answer_before(answers: &[bool], firsts: &[usize], at: usize) -> Option<bool>
    ensures { IfSome result (λ answer. (get_or firsts.now at at < length answers.now)
        × (answer ≡ get_or answers.now (get_or firsts.now at at) answer)) }
{
    match firsts.get(at) {
        None => None,
        Some(first) => answers.get(*first).copied(),
    }
}

impl Side<'_> {
    /// Whether the runas of the blocks at two indices are the same, written out. Returns `AllocError` if allocation fails.
    pub(crate) fn have_same_runas(
        &self,
        alloc: Global,
        index: usize,
        other: usize,
    ) -> Result<bool, AllocError>
        ensures { IfOk result (λ same. same ≡ true → (q : Question)
            → runas_at self.now.checked.now self.now.blocks.items q index
            ≡ runas_at self.now.checked.now self.now.blocks.items q other) }
    {
        match (self.blocks.get(index), self.blocks.get(other)) {
            (Some(block), Some(another)) => allow_alike(
                alloc,
                self.checked,
                block.runas,
                self.checked,
                another.runas,
            ),
            _ => Ok(false),
        }
    }

    // Returns the position of the first of the indices whose block has the same runas as that at this position.
    fn first_alike(&self, alloc: Global, indices: &[usize], at: usize) -> Result<usize, AllocError>
        requires { at < length indices.now }
        ensures { IfOk result (λ first. (q : Question)
            → runas_at self.now.checked.now self.now.blocks.items q (get_or indices.now first 0)
            ≡ runas_at self.now.checked.now self.now.blocks.items q (get_or indices.now at 0)) }
    {
        for first in 0..at {
            if self.have_same_runas(alloc, indices[first], indices[at])? {
                return Ok(first);
            }
        }
        Ok(at)
    }

    /// Returns for each of the indices the position of the first whose block has the same runas. Returns `AllocError` if
    /// allocation fails.
    pub(crate) fn runas_firsts(
        &self,
        alloc: Global,
        indices: &[usize],
    ) -> Result<Vec<usize>, AllocError>
        ensures { IfOk result (λ firsts. body.AreFirsts self.now.checked.now
            self.now.blocks.items indices.now firsts.items) }
    {
        let mut firsts = Vec::new(alloc);
        for at in 0..indices.len() {
            firsts.push(self.first_alike(alloc, indices, at)?)?;
        }
        Ok(firsts)
    }

    // Whether the runas of the block at the position allows the target and the group, by the answers of those before it.
    fn answer_at(
        &self,
        directory: &Directory,
        asker: Asker<'_>,
        listed: &[usize],
        firsts: &[usize],
        answers: &[bool],
        at: usize,
    ) -> bool
        requires at { at < length listed.now }
        requires firsts { body.AreFirsts self.now.checked.now self.now.blocks.items listed.now
            firsts.now }
        requires answers { body.AreAnswers self.now.checked.now self.now.blocks.items
            (question_as directory.now asker.user.now asker.host.now
            (option_copied asker.target) (option_copied asker.group)) listed.now answers.now }
        ensures { result ≡ runas_at self.now.checked.now self.now.blocks.items
            (question_as directory.now asker.entry.user.now asker.entry.host.now
            (option_copied asker.entry.target) (option_copied asker.entry.group))
            (get_or listed.now at 0) }
    {
        match answer_before(answers, firsts, at) {
            Some(answer) => answer,
            None => self.allows_at(listed[at], directory, asker),
        }
    }

    /// Returns those of the indices whose runas allows the target and the group. The positions are those of the first with the
    /// same runas. Returns `AllocError` if allocation fails.
    pub(crate) fn allowing(
        &self,
        alloc: Global,
        directory: &Directory,
        asker: Asker<'_>,
        listed: &[usize],
        firsts: &[usize],
    ) -> Result<Vec<usize>, AllocError>
        requires { body.AreFirsts self.now.checked.now self.now.blocks.items listed.now
            firsts.now }
        ensures { IfOk result (λ indices. indices.items
            ≡ filter (runas_at self.now.checked.now self.now.blocks.items
            (question_as directory.now asker.entry.user.now asker.entry.host.now
            (option_copied asker.entry.target) (option_copied asker.entry.group))) listed.now) }
    {
        let mut answers = Vec::with_capacity(alloc, listed.len())?;
        let mut indices = Vec::with_capacity(alloc, listed.len())?;
        for at in 0..listed.len() {
            let allows = self.answer_at(directory, asker, listed, firsts, &answers, at);
            answers.push(allows)?;
            push_if(&mut indices, listed[at], allows)?;
        }
        Ok(indices)
    }
}
