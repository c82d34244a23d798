//! The lists to examine for each class of lists.
ghost use Rattle.std.specs.Prelude.{◌≡◌, List, IfOk, map};
ghost use Rattle.sudo_policy.specs.Definitions.{MemberList};
ghost use Rattle.review_cautions.specs.Body.Deciding as body;
ghost use Rattle.review_cautions.specs.Body.Looking.{scanned_view};
ghost use Rattle.review_cautions.specs.Cautions as spec;

use crate::CautionClass;
use crate::lists::is_of_matching;
use crate::marked::MarkedLists;
use crate::scanned::ScannedList;
use std::alloc::{AllocError, Global};

/// All lists of a policy, and those that decide unless all do.
#[derive(Drop)]
pub(crate) struct LookedLists<'a> {
    all: MarkedLists<'a>,
    left: Option<MarkedLists<'a>>,
}

// Returns the lists that are left of all, if some are left out, with the marked ones of them.
fn marked_left<'a>(
    alloc: Global,
    left: Option<Vec<ScannedList<'a>>>,
) -> Result<Option<MarkedLists<'a>>, AllocError>
    ensures { IfOk result (λ marked. (all : List MemberList)
        → body.marked_left marked all ≡ body.lists_left left.entry all) }
{
    match left {
        Some(left) => Ok(Some(MarkedLists::of(alloc, left)?)),
        None => Ok(None),
    }
}

impl<'a> LookedLists<'a> {
    /// Returns all lists, and those that decide unless all do. Returns `AllocError` if allocation fails.
    pub(crate) fn of(
        alloc: Global,
        all: Vec<ScannedList<'a>>,
        left: Option<Vec<ScannedList<'a>>>,
    ) -> Result<LookedLists<'a>, AllocError>
        ensures { IfOk result (λ looked. (looked.all.lists ≡ all.entry)
            × (body.deciding looked ≡ body.lists_left left.entry (map scanned_view all.entry.items))) }
    {
        let all = MarkedLists::of(alloc, all)?;
        let left = marked_left(alloc, left)?;
        Ok(LookedLists { all, left })
    }

    // Returns the lists that decide.
    fn deciding(&self) -> &MarkedLists<'a>
        ensures { map scanned_view result.now.lists.items ≡ body.deciding self.now }
    {
        match &self.left {
            Some(left) => left,
            None => &self.all,
        }
    }

    /// Returns the lists to examine for a class: no other list has its construct.
    pub(crate) fn lists(&self, class: CautionClass) -> &[ScannedList<'a>]
        ensures { spec.list_cautions class (map scanned_view result.now)
            ≡ spec.class_cautions class (map scanned_view self.now.all.lists.items)
            (body.deciding self.now) }
    {
        if is_of_matching(class) {
            self.deciding().examined(class)
        } else {
            self.all.examined(class)
        }
    }

    /// Returns the lists that decide.
    pub(crate) fn deciding_lists(&self) -> &[ScannedList<'a>]
        ensures { map scanned_view result.now ≡ body.deciding self.now }
    {
        &self.deciding().lists
    }

    /// Returns those of the lists that decide to examine for notes: no other one of them has one.
    pub(crate) fn noted_lists(&self) -> &[ScannedList<'a>]
        ensures { spec.noted_cautions (map scanned_view result.now)
            ≡ spec.noted_cautions (body.deciding self.now) }
    {
        self.deciding().noted()
    }
}
