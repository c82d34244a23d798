//! Two policies that are compared, and where they may differ.
ghost use Rattle.std.specs.Prelude.{◌≡◌, false, IfOk};
ghost use Rattle.sudo_match.specs.declared.people.Machine.{Machine as TheMachine};
ghost use Rattle.sudo_match.specs.declared.people.Person.{Person as ThePerson};
ghost use Rattle.sudo_verdict.specs.Questions.{Question, question_as};
ghost use Rattle.review_compare.specs.Cells.{SaySame};
ghost use Rattle.review_compare.specs.Differences.{known_at};
ghost use Rattle.review_compare.specs.Body.HostMarks.{HaveHostMarks};
ghost use Rattle.review_compare.specs.Body.Near.{AreNear, HaveParts, changed_rows};
ghost use Rattle.review_compare.specs.Body.RowReaches.{HaveReaches};
ghost use Rattle.review_compare.specs.Body.Settled.{AreTwins};
ghost use Rattle.review_compare.specs.Body.Unchanged.{AreCommon};

use crate::asks::{group_at, person_at};
use crate::cell::Ask;
use crate::common::{Common, common_of};
use crate::host_marks::{HostMarks, host_marks};
use crate::near::{Parts, changed_rows, near_change, parts_near};
use crate::probes::{Change, Probes};
use crate::row_reaches::Reaches;
use crate::settled::twins_of;
use crate::side::Side;
use crate::spot::Listed;
use std::alloc::{AllocError, Global};
use std::thread::Threads;
use sudo_match::{Directory, Group, Machine, Person};
use sudo_verdict::Asker;

/// Two policies, with the known users, hosts and groups, the blocks near a change, the blocks with their near rows alone, what
/// these give to try, which of them answer alike, and which of the near blocks list each host.
#[derive(Drop)]
pub(crate) struct Pair<'a> {
    pub(crate) old: Side<'a>,
    pub(crate) new: Side<'a>,
    pub(crate) directory: &'a Directory,
    pub(crate) groups: &'a [Group],
    pub(crate) common: Common,
    pub(crate) near: Listed,
    pub(crate) parts: Parts<'a>,
    pub(crate) probes: Probes,
    pub(crate) reaches: Reaches<'a>,
    pub(crate) twins: Vec<Option<usize>>,
    pub(crate) marks: Vec<HostMarks>,
    ghost are_common: { AreCommon old.checked.now old.blocks.items new.checked.now
        new.blocks.items common },
    ghost are_marks: { HaveHostMarks old new directory.now.machines marks.items },
    ghost are_near: { AreNear common old.blocks.items new.blocks.items near },
    ghost old_parts: { HaveParts (changed_rows common old.blocks.items new.blocks.items)
        old.blocks.items parts.old.items },
    ghost are_reaches: { HaveReaches parts reaches },
    ghost are_twins: { AreTwins parts twins.items },
    ghost new_parts: { HaveParts (changed_rows common old.blocks.items new.blocks.items)
        new.blocks.items parts.new.items },
}

// Returns what the near rows of both policies give to try.
fn probes_near(
    alloc: Global,
    old: &Side<'_>,
    new: &Side<'_>,
    common: Common,
    parts: &Parts<'_>,
) -> Result<Probes, AllocError> {
    let changed = changed_rows(alloc, &old.blocks, &new.blocks, common)?;
    let change = Change {
        common,
        rows: &changed,
        parts,
    };
    Probes::of(alloc, &change)
}

impl<'a> Pair<'a> {
    /// Returns two policies with their common prefix and suffix, and the blocks near a change. Returns `AllocError` if
    /// allocation fails.
    pub(crate) fn of<T: Threads + Sync>(
        alloc: Global,
        threads: &T,
        old: Side<'a>,
        new: Side<'a>,
        directory: &'a Directory,
        groups: &'a [Group],
    ) -> Result<Pair<'a>, AllocError>
        ensures { IfOk result (λ pair. (pair.old.checked.now ≡ old.entry.checked.now)
            × (pair.new.checked.now ≡ new.entry.checked.now) × (pair.directory.now ≡ directory.now)
            × (pair.groups.now ≡ groups.now)) }
    {
        let common = common_of(alloc, &old, &new)?;
        let near = near_change(alloc, &old, &new, common)?;
        let parts = parts_near(alloc, &old, &new, common)?;
        let probes = probes_near(alloc, &old, &new, common, &parts)?;
        let reaches = Reaches::of(alloc, &old, &new, common, &parts)?;
        let twins = twins_of(alloc, &parts, common)?;
        let marks = host_marks(alloc, threads, &old, &new, common, &near, directory)?;
        Ok(Pair {
            old,
            new,
            directory,
            groups,
            common,
            near,
            parts,
            probes,
            reaches,
            twins,
            marks,
        })
    }
}

impl Pair<'_> {
    /// Whether the policies may differ for the user: a block between the common prefix and suffix lists the user.
    pub(crate) fn may_differ_for(&self, person: &Person) -> bool
        ensures { result ≡ false → (q : Question) → q.user ≡ person.now
            → SaySame self.now.old.checked.now self.now.new.checked.now q }
    {
        self.old.is_for_user(self.common, person) || self.new.is_for_user(self.common, person)
    }

    /// Whether the policies may differ for the user on the host.
    pub(crate) fn may_differ_on(&self, person: &Person, machine: &Machine) -> bool
        ensures { result ≡ false → (q : Question) → q.user ≡ person.now → q.host ≡ machine.now
            → SaySame self.now.old.checked.now self.now.new.checked.now q }
    {
        self.old.is_for_spot(self.common, person, machine)
            || self.new.is_for_spot(self.common, person, machine)
    }

    /// Whether the policies may differ for the user who asks for a target and a group, on any host.
    pub(crate) fn may_differ_at(&self, person: &Person, machine: &Machine, ask: Ask) -> bool
        ensures { result ≡ false → (m : TheMachine)
            → SaySame self.now.old.checked.now self.now.new.checked.now
            (question_as self.now.directory.now person.now m
            (known_at self.now.directory.now.people ask.target)
            (known_at self.now.groups.now ask.group)) }
    {
        let asker = Asker {
            user: person,
            host: machine,
            target: person_at(self.directory, ask.target),
            group: group_at(self.groups, ask.group),
        };
        self.old.is_for_asker(self.common, self.directory, asker)
            || self.new.is_for_asker(self.common, self.directory, asker)
    }

    /// Whether the policies may differ for some user who asks for a target and a group, on some host. The user and the host are
    /// any known ones.
    pub(crate) fn may_differ_asked(&self, person: &Person, machine: &Machine, ask: Ask) -> bool
        ensures { result ≡ false → (u : ThePerson) (m : TheMachine)
            → SaySame self.now.old.checked.now self.now.new.checked.now
            (question_as self.now.directory.now u m
            (known_at self.now.directory.now.people ask.target)
            (known_at self.now.groups.now ask.group)) }
    {
        let asker = Asker {
            user: person,
            host: machine,
            target: person_at(self.directory, ask.target),
            group: group_at(self.groups, ask.group),
        };
        self.old.may_allow(self.common, self.directory, asker)
            || self.new.may_allow(self.common, self.directory, asker)
    }
}
