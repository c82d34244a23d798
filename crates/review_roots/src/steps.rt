//! What the steps of users on one host give.
ghost use Rattle.std.specs.Prelude.{◌≡◌, ◌≤◌, ℕ, ◌&&◌, IfOk, IsTrue, None, Some, drop, false, fold, length, true, option_copied, slice_get};
ghost use Rattle.std.specs.Borrow.{Bor};
ghost use Rattle.std.specs.List.{list_all, list_any, slice_index_or};
ghost use Rattle.sudo_verdict.specs.Questions.{question_as};
ghost use Rattle.sudo_verdict.specs.RunasForms.{runas_allows};
ghost use Rattle.review_roots.specs.Asked.{given_alone, given_asked, given_towards, nothing};
ghost use Rattle.review_roots.specs.Blocks.{block_resolves, with_rows};
ghost use Rattle.review_roots.specs.Body.Candidates as spec;
ghost use Rattle.review_roots.specs.Body.Found.{IsCandidate, IsTowardOf};
ghost use Rattle.review_roots.specs.Body.May as most;
ghost use Rattle.review_roots.specs.Body.Settled.{given_at, settles_at, settles_of};
ghost use Rattle.review_roots.specs.Body.Raising.{passes_at};
ghost use Rattle.review_roots.specs.Body.Towards.{HasStrong, IsToward, asker_allowed};
ghost use Rattle.review_roots.specs.Ranks.{is_at_least};
ghost use Rattle.review_roots.specs.States.{level_for, person_of, step_given};
ghost use Rattle.review_roots.specs.declared.candidate.Candidate.{Candidate as TheCandidate};
ghost use Rattle.review_roots.specs.declared.given.Counted.{Counted as TheCounted};
ghost use Rattle.review_roots.specs.declared.level.Level.{Level as TheLevel};
ghost use Rattle.review_roots.specs.declared.toward.Toward.{Toward as TheToward};

use crate::Level;
use crate::block::Block;
use crate::candidate::{Candidate, candidate_at, is_same_user};
use crate::given::{Counted, Given, NOTHING};
use crate::ground::Ground;
use crate::host::HostSteps;
use crate::may::{MAY_NOTHING, May};
use crate::state::{State, group_at};
use crate::toward::{Toward, toward_at};
use std::alloc::{AllocError, Global};
use sudo_match::{Directory, Group, Person};
use sudo_policy::Checked;
use sudo_verdict::{Asker, allows_runas};

/// Whether the list has true at the index.
pub(crate) fn is_at(list: &[bool], index: usize) -> bool
    ensures { result ≡ slice_index_or list.now index false }
{
    match list.get(index) {
        Some(stands) => *stands,
        None => false,
    }
}

// Whether both lists have true at the index.
fn both_at(one: &[bool], other: &[bool], index: usize) -> bool
    ensures { result ≡ spec.both_at one.now other.now index }
{
    is_at(one, index) && is_at(other, index)
}

// Whether the block at the index is for the host, and its runas allows what is asked.
fn stands_at(
    checked: &Checked,
    directory: &Directory,
    blocks: &[Block<'_>],
    on: &[bool],
    asker: Asker<'_>,
    index: usize,
) -> bool
    requires { IsTrue (list_all (block_resolves checked.now) blocks.now) }
    ensures { result ≡ passes_at (λ b. slice_index_or on.now index false
        && asker_allowed checked.now directory.now asker.entry b) blocks.now index }
{
    match blocks.get(index) {
        Some(block) => is_at(on, index) && allows_runas(checked, directory, asker, block.runas),
        None => false,
    }
}

impl<'r, 'a> HostSteps<'r, 'a> {
    /// Returns the candidate of a state, if there is one. Those of a user stand behind its first one.
    pub(crate) fn known(&self, state: State) -> Option<&'r Candidate>
        ensures { (c : Bor TheCandidate) → result ≡ Some c
            → (c.now.state ≡ state) × IsCandidate self.now c.now }
    {
        let first = (*self.places.get(state.user)?)?;
        for index in first..self.candidates.len() {
            let candidate = &self.candidates[index];
            if candidate.state == state {
                return Some(candidate);
            }
            if candidate.state.user != state.user {
                return None;
            }
        }
        None
    }

    /// Returns what the steps to a state depend on, if that is kept.
    pub(crate) fn known_toward(&self, state: State) -> Option<&'r Toward>
        ensures toward { (t : Bor TheToward) → result ≡ Some t → IsTowardOf self.now state t.now }
        ensures strong { (t : Bor TheToward) → result ≡ Some t → HasStrong self.now.least
            self.now.blocks.now t.now }
    {
        let Some(known) = self.known(state) else {
            return None;
        };
        match &known.toward {
            Some(toward) => Some(toward),
            None => None,
        }
    }

    /// Returns what the steps to a state depend on. Returns `AllocError` if allocation fails.
    pub(crate) fn toward(&self, alloc: Global, state: State) -> Result<Toward, AllocError>
        ensures toward { IfOk result (λ toward. IsToward self.now.checked.now
            self.now.directory.now self.now.groups.now self.now.blocks.now state toward) }
        ensures strong { IfOk result (λ toward. HasStrong self.now.least self.now.blocks.now
            toward) }
    {
        let ground = Ground {
            checked: self.checked,
            directory: self.directory,
            groups: self.groups,
            least: self.least,
            blocks: self.blocks,
            raising: self.raising,
            alike: &[],
            runas: self.runas,
            keeps: false,
        };
        toward_at(alloc, ground, state)
    }

    // Returns the candidate of a state, or `None` if its user is unknown.
    fn candidate(&self, alloc: Global, state: State) -> Result<Option<Candidate>, AllocError>
        ensures known { IfOk result (λ found. (c : TheCandidate) → found ≡ Some c
            → (c.state ≡ state) × IsCandidate self.now c) }
        ensures unknown { IfOk result (λ found. found ≡ None
            → person_of self.now.directory.now self.now.groups.now state ≡ None) }
    {
        let ground = Ground {
            checked: self.checked,
            directory: self.directory,
            groups: self.groups,
            least: self.least,
            blocks: self.blocks,
            raising: self.raising,
            alike: &[],
            runas: self.runas,
            keeps: false,
        };
        candidate_at(alloc, ground, state)
    }

    // Returns the known user of a state, without its added group.
    fn user_at(&self, state: State) -> Option<&'a Person>
        ensures { option_copied result ≡ slice_get self.now.directory.now.people state.user }
    {
        self.directory.people().get(state.user)
    }

    // Whether a block on the host that raises lists the candidate.
    fn is_raised(&self, candidate: &Candidate) -> bool
        ensures { result ≡ list_any (λ i. slice_index_or self.now.on.items i false)
            candidate.now.strong.items }
    {
        candidate.strong.iter().any(|index| is_at(&self.on, *index))
    }

    /// Whether a block on the host that raises lists the candidate, which is not the target.
    pub(crate) fn is_heard(&self, target: usize, candidate: &Candidate) -> bool
        ensures { result ≡ spec.is_heard self.now.on.items target candidate.now }
    {
        if candidate.state.user == target {
            false
        } else {
            self.is_raised(candidate)
        }
    }

    // Returns what may be given with the rows of the block at an index, if it is for the host.
    fn may_with(&self, may: May, index: usize) -> May
        ensures { result ≡ most.may_at self.now.on.items self.now.blocks.now may index }
    {
        match self.blocks.get(index) {
            Some(block) => {
                if is_at(&self.on, index) {
                    may.with_block(block)
                } else {
                    may
                }
            }
            None => may,
        }
    }

    // Returns what the candidate may be given on the way to any state.
    fn may_give(&self, candidate: &Candidate) -> May
        ensures { result ≡ fold (most.may_at self.now.on.items self.now.blocks.now)
            most.may_nothing candidate.now.listed.items }
    {
        let mut may = MAY_NOTHING;
        for index in &candidate.listed {
            may = self.may_with(may, *index);
        }
        may
    }

    // Whether a step of the candidate that counts may have the least level.
    fn may_reach_least(&self, candidate: &Candidate, counted: Counted) -> bool
        ensures { result ≡ most.may_reach self.now.on.items self.now.blocks.now self.now.least
            counted candidate.now.listed.items }
    {
        self.may_give(candidate)
            .level_for(counted)
            .is_at_least(self.least)
    }

    /// Whether a step of the candidate that counts may have the least level. Of all steps that is not looked up: a block that raises
    /// and lists the candidate nearly always has it.
    pub(crate) fn may_count(&self, candidate: &Candidate, counted: Counted) -> bool
        ensures { result ≡ most.may_count self.now.on.items self.now.blocks.now self.now.least
            counted candidate.now.listed.items }
    {
        match counted {
            Counted::Any => true,
            Counted::Unasked | Counted::Free => self.may_reach_least(candidate, counted),
        }
    }

    // Returns what is given with the rows of the block at an index, if it is for the host and its runas allows the question.
    fn with_asked(&self, given: Given, asker: Asker<'_>, index: usize) -> Given
        ensures { result ≡ with_rows given (spec.part_at (λ i b. slice_index_or
            self.now.on.items i false && runas_allows self.now.checked.now (question_as
            self.now.directory.now asker.entry.user.now asker.entry.host.now
            (option_copied asker.entry.target) (option_copied asker.entry.group))
            (option_copied b.runas)) self.now.blocks.now index) }
    {
        let stands = stands_at(
            self.checked,
            self.directory,
            self.blocks,
            &self.on,
            asker,
            index,
        );
        self.with_block_if(given, index, stands)
    }

    // Returns what the rows give the user that asks for a target by name, if any, and for a group, if any.
    fn asked(&self, candidate: &Candidate, target: Option<&Person>, group: Option<&Group>) -> Given
        requires { IsCandidate self.now candidate.now }
        ensures { result ≡ given_asked self.now.checked.now self.now.directory.now
            candidate.now.person self.now.host.now (option_copied target.entry)
            (option_copied group.entry) }
    {
        let asker = Asker {
            user: &candidate.person,
            host: self.host,
            target,
            group,
        };
        let mut given = NOTHING;
        for index in &candidate.listed {
            given = self.with_asked(given, asker, *index);
        }
        given
    }

    // Returns what the user is given who asks for a group alone, if the target is the user itself.
    fn alone(&self, candidate: &Candidate, target: &Person, group: Option<&Group>) -> Given
        requires { IsCandidate self.now candidate.now }
        ensures { result ≡ given_alone self.now.checked.now self.now.directory.now
            self.now.host.now candidate.now.person target.now
            (option_copied group.entry) }
    {
        if is_same_user(target, &candidate.person) && group.is_some() {
            self.asked(candidate, None, group)
        } else {
            NOTHING
        }
    }

    // Returns what the user is given on the way to a target with a group, if any.
    fn towards(&self, candidate: &Candidate, target: &Person, group: Option<&Group>) -> Given
        requires { IsCandidate self.now candidate.now }
        ensures { result ≡ given_towards self.now.checked.now self.now.directory.now
            self.now.host.now candidate.now.person target.now
            (option_copied group.entry) }
    {
        let by_name = self.asked(candidate, Some(target), group);
        by_name.better(self.alone(candidate, target, group))
    }

    // Returns what is given with the rows of the block at an index, if it stands.
    fn with_block_if(&self, given: Given, index: usize, stands: bool) -> Given
        ensures { result ≡ with_rows given (spec.part_at (λ i b. stands) self.now.blocks.now
            index) }
    {
        if !stands {
            return given;
        }
        match self.blocks.get(index) {
            Some(block) => given.with_block(block),
            None => given,
        }
    }

    // Returns what the rows of the blocks at these indices give that are for the host and allow the target.
    fn chosen_of(&self, listed: &[usize], toward: &Toward) -> Given
        ensures { result ≡ given_at self.now.on.items toward.now.allowed.items self.now.blocks.now
            listed.now }
    {
        let mut given = NOTHING;
        for index in listed {
            let stands = both_at(&self.on, &toward.allowed, *index);
            given = self.with_block_if(given, *index, stands);
        }
        given
    }

    // Whether there is a block at the index, and its rows settle what is given.
    fn settles(&self, index: usize) -> bool
        ensures { result ≡ settles_of (slice_get self.now.blocks.now index) }
    {
        match self.blocks.get(index) {
            Some(block) => block.effect.settles(),
            None => false,
        }
    }

    // Whether the block at the index is for the host, allows the target, and settles what is given.
    fn settles_at(&self, toward: &Toward, index: usize) -> bool
        ensures { result ≡ settles_at self.now.on.items toward.now.allowed.items
            self.now.blocks.now index }
    {
        both_at(&self.on, &toward.allowed, index) && self.settles(index)
    }

    // Returns before which index a block is sought that settles what is given: before none if listed commands count, since then few of
    // the blocks that raise settle it.
    fn settled_before(&self, listed: &[usize]) -> usize
        ensures { result ≤ length listed.now }
    {
        match self.least {
            Level::AllBut | Level::All => listed.len(),
            Level::None | Level::Listed => 0,
        }
    }

    // Returns where the last of these blocks is that settles what is given, or the beginning: from there on they give what all give.
    fn settled_from(&self, listed: &[usize], toward: &Toward) -> usize
        ensures inside { result ≤ length listed.now }
        ensures same { given_at self.now.on.items toward.now.allowed.items self.now.blocks.now
            (drop result listed.now) ≡ given_at self.now.on.items toward.now.allowed.items
            self.now.blocks.now listed.now }
    {
        let mut at = self.settled_before(listed);
        while at > 0 {
            at -= 1;
            if self.settles_at(toward, listed[at]) {
                return at;
            }
        }
        0
    }

    // Returns what the rows of the blocks for the host give that list the user and allow the target.
    fn chosen(&self, candidate: &Candidate, toward: &Toward) -> Given
        ensures { result ≡ given_at self.now.on.items toward.now.allowed.items self.now.blocks.now
            candidate.now.listed.items }
    {
        let listed = candidate.listed.as_slice();
        let from = self.settled_from(listed, toward);
        self.chosen_of(&listed[from..], toward)
    }

    // Whether a block for the host that raises lists the user and allows the target.
    fn may_reach(&self, candidate: &Candidate, toward: &Toward) -> bool
        ensures { result ≡ list_any (spec.both_at self.now.on.items toward.now.allowed.items)
            candidate.now.strong.items }
    {
        candidate
            .strong
            .iter()
            .any(|index| both_at(&self.on, &toward.allowed, *index))
    }

    /// Returns what the step of a candidate to the state gives.
    pub(crate) fn step_toward(&self, candidate: &Candidate, toward: &Toward) -> Given
        requires candidate { IsCandidate self.now candidate.now }
        requires toward { IsToward self.now.checked.now self.now.directory.now self.now.groups.now
            self.now.blocks.now toward.now.state toward.now }
        ensures { result ≡ step_given self.now.checked.now self.now.directory.now
            self.now.host.now self.now.groups.now candidate.now.state toward.now.state }
    {
        match self.user_at(toward.state) {
            Some(target) => {
                if is_same_user(target, &candidate.person) {
                    let group = group_at(self.groups, toward.state.added);
                    self.towards(candidate, target, group)
                } else {
                    self.chosen(candidate, toward)
                }
            }
            None => NOTHING,
        }
    }

    /// Whether no block that raises stands for the step of a candidate to the state, where they are two users. Then the step
    /// has not the least level.
    pub(crate) fn is_barred(&self, candidate: &Candidate, toward: &Toward) -> bool
        requires candidate { IsCandidate self.now candidate.now }
        requires toward { IsToward self.now.checked.now self.now.directory.now self.now.groups.now
            self.now.blocks.now toward.now.state toward.now }
        ensures { result ≡ true → (k : TheCounted) (l : TheLevel)
            → is_at_least self.now.least l ≡ true → is_at_least l (level_for k (step_given
            self.now.checked.now self.now.directory.now self.now.host.now self.now.groups.now
            candidate.now.state toward.now.state)) ≡ false }
    {
        candidate.state.user != toward.state.user && !self.may_reach(candidate, toward)
    }

    // Returns what the step of a candidate to a state gives, found by its runas.
    fn step_asked(&self, candidate: &Candidate, to: State) -> Given
        requires { IsCandidate self.now candidate.now }
        ensures { result ≡ step_given self.now.checked.now self.now.directory.now
            self.now.host.now self.now.groups.now candidate.now.state to }
    {
        match self.directory.people().get(to.user) {
            Some(target) => self.towards(candidate, target, group_at(self.groups, to.added)),
            None => NOTHING,
        }
    }

    // Returns what the step of a candidate to a state gives.
    fn step(&self, candidate: &Candidate, to: State) -> Given
        requires { IsCandidate self.now candidate.now }
        ensures { result ≡ step_given self.now.checked.now self.now.directory.now
            self.now.host.now self.now.groups.now candidate.now.state to }
    {
        match self.known_toward(to) {
            Some(toward) => self.step_toward(candidate, toward),
            None => self.step_asked(candidate, to),
        }
    }

    /// Returns what the step from a state to another one gives: the level of what may be run as the user of the second,
    /// with its added group, whatever the command. Returns `AllocError` if allocation fails.
    pub fn between(&self, alloc: Global, from: State, to: State) -> Result<Given, AllocError>
        ensures { IfOk result (λ given. given ≡ step_given self.now.checked.now
            self.now.directory.now self.now.host.now self.now.groups.now from to) }
    {
        if let Some(known) = self.known(from) {
            return Ok(self.step(known, to));
        }
        let found = self.candidate(alloc, from)?;
        match found {
            Some(candidate) => Ok(self.step(&candidate, to)),
            None => Ok(NOTHING),
        }
    }
}
