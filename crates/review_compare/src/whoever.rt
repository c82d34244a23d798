//! What the runas of blocks answers to whoever asks.
ghost use Rattle.std.specs.Prelude.{◌≡◌, ℕ, IfOk, IfSome, IsTrue, OnOk, option_copied, Some, true};
ghost use Rattle.sudo_policy.specs.Resolving.{runas_resolves};
ghost use Rattle.sudo_verdict.specs.RunasForms as forms;
ghost use Rattle.review_compare.specs.Body.Whoever as body;

use crate::side::{Side, depends_on_user};
use std::alloc::{AllocError, Global};
use sudo_match::{Directory, Person};
use sudo_policy::{Checked, Runas};
use sudo_verdict::{Asker, allows_runas};

/// Whether both answers are the same.
pub(crate) fn are_equal(answer: bool, other: bool) -> bool
    ensures { result ≡ true → answer ≡ other }
{
    answer == other
}

fn is_same_user(person: &Person, other: &Person) -> bool
    ensures { result ≡ forms.is_same_user person.now other.now }
{
    person.name.as_slice() == other.name.as_slice()
}

// Whether the runas has a list of users and one of groups.
fn has_both_lists(runas: &Runas) -> bool
    ensures { result ≡ body.has_both_lists runas.now }
{
    runas.users.is_some() && runas.groups.is_some()
}

// Returns what the runas answers to the target and to one other user, if that is the same: then it is so for each user.
fn answer_to_two(
    checked: &Checked,
    directory: &Directory,
    asker: Asker<'_>,
    runas: &Runas,
    target: &Person,
) -> Option<bool>
    requires resolves { IsTrue (runas_resolves checked.now (Some runas.now)) }
    requires target { option_copied asker.target ≡ Some target.now }
    ensures { IfSome result (body.AllowsWhoever checked.entry.now directory.entry.now
        (option_copied asker.entry.target) (option_copied asker.entry.group)
        (Some runas.entry.now)) }
{
    if is_same_user(target, asker.user) || !has_both_lists(runas) {
        return None;
    }
    let own = Asker {
        user: target,
        host: asker.host,
        target: asker.target,
        group: asker.group,
    };
    let to_target = allows_runas(checked, directory, own, Some(runas));
    let to_other = allows_runas(checked, directory, asker, Some(runas));
    if are_equal(to_target, to_other) {
        Some(to_other)
    } else {
        None
    }
}

// Returns what the runas answers to each user, if that is known to be the same. The user is any known one.
fn answer_to_all(
    checked: &Checked,
    directory: &Directory,
    asker: Asker<'_>,
    runas: Option<&Runas>,
) -> Option<bool>
    requires { IsTrue (runas_resolves checked.now (option_copied runas)) }
    ensures { IfSome result (body.AllowsWhoever checked.entry.now directory.entry.now
        (option_copied asker.entry.target) (option_copied asker.entry.group)
        (option_copied runas.entry)) }
{
    if !depends_on_user(runas, asker.target) {
        return Some(allows_runas(checked, directory, asker, runas));
    }
    match (runas, asker.target) {
        (Some(own), Some(target)) => answer_to_two(checked, directory, asker, own, target),
        _ => None,
    }
}

impl Side<'_> {
    // Returns what the runas of the block at an index answers to each user, if that is known to be the same.
    fn whoever_at(&self, index: usize, directory: &Directory, asker: Asker<'_>) -> Option<bool>
        ensures { IfSome result (body.AnswersWhoever self.now.checked.now self.now.blocks.items
            directory.now (option_copied asker.entry.target) (option_copied asker.entry.group) index) }
    {
        match self.blocks.get(index) {
            None => Some(false),
            Some(block) => answer_to_all(self.checked, directory, asker, block.runas),
        }
    }

    // Whether one of these blocks has the same runas, written out.
    fn has_form(&self, alloc: Global, forms: &[usize], index: usize) -> Result<bool, AllocError>
        ensures { IfOk result (λ has. has ≡ true → body.HasForm self.now.checked.now
            self.now.blocks.items forms.now index) }
    {
        for form in forms {
            if self.have_same_runas(alloc, *form, index)? {
                return Ok(true);
            }
        }
        Ok(false)
    }

    // Appends the index, unless one of the blocks has the same runas.
    fn push_form(
        &self,
        alloc: Global,
        index: usize,
        forms: &mut Vec<usize>,
    ) -> Result<(), AllocError>
        ensures has { OnOk result (body.HasForm self.now.checked.now self.now.blocks.items
            forms.new.items index) }
        ensures kept { OnOk result ((i : ℕ) → body.HasForm self.now.checked.now
            self.now.blocks.items forms.old.items i
            → body.HasForm self.now.checked.now self.now.blocks.items forms.new.items i) }
    {
        if !self.has_form(alloc, forms, index)? {
            forms.push(index)?;
        }
        Ok(())
    }

    /// Returns of the blocks one for each runas. Returns `AllocError` if allocation fails.
    pub(crate) fn forms_of(
        &self,
        alloc: Global,
        indices: &[usize],
    ) -> Result<Vec<usize>, AllocError>
        ensures { IfOk result (λ forms. body.AreForms self.now.checked.now self.now.blocks.items
            indices.now forms.items) }
    {
        let mut forms = Vec::new(alloc);
        for index in indices {
            self.push_form(alloc, *index, &mut forms)?;
        }
        Ok(forms)
    }
    /// Returns what the runas of each of the blocks answers to whoever asks, if that is known to be the same. Returns `AllocError` if
    /// allocation fails.
    pub(crate) fn answers_by(
        &self,
        alloc: Global,
        directory: &Directory,
        asker: Asker<'_>,
        forms: &[usize],
    ) -> Result<Option<Vec<bool>>, AllocError>
        ensures { IfOk result (λ found. IfSome found (λ answers. body.AreAnsweredBy
            self.now.checked.now self.now.blocks.items directory.now
            (option_copied asker.entry.target) (option_copied asker.entry.group)
            forms.now answers.items)) }
    {
        let mut answers = Vec::new(alloc);
        for form in forms {
            match self.whoever_at(*form, directory, asker) {
                None => return Ok(None),
                Some(answer) => answers.push(answer)?,
            }
        }
        Ok(Some(answers))
    }
}
