//! Lists of a policy, and the marked ones of them.
ghost use Rattle.std.specs.Prelude.{◌≡◌, ◌++◌, ◌∷◌, [], filter, if◌then◌else◌, IfOk, map, OnOk};
ghost use Rattle.review_cautions.specs.Body.Looking.{scanned_view};
ghost use Rattle.review_cautions.specs.Cautions as spec;
ghost use Rattle.review_cautions.specs.Marks.{list_is_marked};

use crate::CautionClass;
use crate::marks::needs_mark;
use crate::scanned::ScannedList;
use std::alloc::{AllocError, Global};

/// Lists, and the marked ones of them.
#[derive(Drop)]
pub(crate) struct MarkedLists<'a> {
    pub(crate) lists: Vec<ScannedList<'a>>,
    marked: Vec<ScannedList<'a>>,
    ghost are_marked: { map scanned_view marked.items
        ≡ filter list_is_marked (map scanned_view lists.items) },
}

// Appends the list, if it is marked.
fn push_marked<'a>(
    list: ScannedList<'a>,
    marked: &mut Vec<ScannedList<'a>>,
) -> Result<(), AllocError>
    ensures { OnOk result (map scanned_view marked.new.items ≡ map scanned_view marked.old.items
        ++ filter list_is_marked (scanned_view list.entry ∷ [])) }
{
    if list.marked {
        marked.push(list)?;
    }
    Ok(())
}

// Returns those of the lists that are marked.
fn marked_of<'a>(
    alloc: Global,
    lists: &[ScannedList<'a>],
) -> Result<Vec<ScannedList<'a>>, AllocError>
    ensures { IfOk result (λ marked. map scanned_view marked.items
        ≡ filter list_is_marked (map scanned_view lists.now)) }
{
    let mut marked = Vec::new(alloc);
    for list in lists {
        push_marked(*list, &mut marked)?;
    }
    Ok(marked)
}

impl<'a> MarkedLists<'a> {
    /// Returns the lists, with the marked ones of them. Returns `AllocError` if allocation fails.
    pub(crate) fn of(
        alloc: Global,
        lists: Vec<ScannedList<'a>>,
    ) -> Result<MarkedLists<'a>, AllocError>
        ensures { IfOk result (λ both. both.lists ≡ lists.entry) }
    {
        let marked = marked_of(alloc, &lists)?;
        Ok(MarkedLists { lists, marked })
    }

    /// Returns those of the lists to examine for a class: no other one of them has its construct.
    pub(crate) fn examined(&self, class: CautionClass) -> &[ScannedList<'a>]
        ensures { spec.list_cautions class (map scanned_view result.now)
            ≡ spec.list_cautions class (map scanned_view self.now.lists.items) }
    {
        if needs_mark(class) {
            &self.marked
        } else {
            &self.lists
        }
    }

    /// Returns those of the lists to examine for notes: no other one of them has a command that stands for one.
    pub(crate) fn noted(&self) -> &[ScannedList<'a>]
        ensures { spec.noted_cautions (map scanned_view result.now)
            ≡ spec.noted_cautions (map scanned_view self.now.lists.items) }
    {
        &self.marked
    }
}
