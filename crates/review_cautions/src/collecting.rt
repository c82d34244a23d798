//! The cautions on a policy.
ghost use Rattle.std.specs.Prelude.{◌≡◌, ◌++◌, IfOk, OnOk, map};
ghost use Rattle.review_cautions.specs.Cautions as spec;
ghost use Rattle.review_cautions.specs.Cautions.{AreCautionsOn};
ghost use Rattle.review_cautions.specs.ListTests as lists_spec;
ghost use Rattle.review_cautions.specs.Body.Deciding as body;
ghost use Rattle.review_cautions.specs.Body.Looking.{scanned_view};

use crate::defaults::push_defaults;
use crate::entries::push_entries;
use crate::lines::push_lines;
use crate::link::usual_links;
use crate::lists::{push_linked, push_lists};
use crate::looked::LookedLists;
use crate::marks::scanned_lists;
use crate::notes::push_notes;
use crate::signs::signed_lines;
use crate::unknown::push_unknown;
use crate::uses::deciding_lists;
use crate::{Caution, CautionClass, Link};
use std::alloc::{AllocError, Global};
use sudo_policy::{Policy, lists};

// Appends the cautions of a class on the lists to examine for it.
fn push_looked(
    alloc: Global,
    class: CautionClass,
    looked: &LookedLists<'_>,
    found: &mut Vec<Caution>,
) -> Result<(), AllocError>
    ensures { OnOk result (found.new.items ≡ found.old.items ++ spec.class_cautions class
        (map scanned_view looked.now.all.lists.items) (body.deciding looked.now)) }
{
    push_lists(alloc, class, looked.lists(class), found)
}

// Appends the cautions on the physical lines of files.
fn push_all_texts(
    alloc: Global,
    texts: &[&[u8]],
    found: &mut Vec<Caution>,
) -> Result<(), AllocError>
    ensures { OnOk result (found.new.items ≡ found.old.items
        ++ spec.all_text_cautions (map (λ t. t.now) texts.now)) }
{
    let lines = signed_lines(alloc, texts)?;
    push_lines(alloc, CautionClass::Return, &lines, found)?;
    push_lines(alloc, CautionClass::BlankAfterBackslash, &lines, found)?;
    push_lines(alloc, CautionClass::Join, &lines, found)?;
    push_lines(alloc, CautionClass::TornMark, &lines, found)?;
    push_lines(alloc, CautionClass::IncludeEscape, &lines, found)?;
    push_lines(alloc, CautionClass::IncludeIndent, &lines, found)?;
    push_lines(alloc, CautionClass::Comment, &lines, found)?;
    push_lines(alloc, CautionClass::EmptyGroup, &lines, found)
}

/// Returns the cautions on a policy: class by class, and within a class in the order of the files and of their lines,
/// or of the loaded policy.
///
/// `texts` are the texts of the policy's files, in the order of `policy.files`. A text that is longer than a file of a
/// policy may be has no cautions. Constructs that change only what a list matches are looked for in the lists that decide:
/// not in the definitions of unused aliases. Returns `AllocError` only if allocation fails.
pub fn cautions(alloc: Global, texts: &[&[u8]], policy: &Policy) -> Result<Vec<Caution>, AllocError>
    ensures { IfOk result (λ found. AreCautionsOn lists_spec.usual_links
        (map (λ t. t.now) texts.now) policy.now found.items) }
{
    let links = usual_links(alloc)?;
    cautions_by_links(alloc, &links, texts, policy)
}

/// Returns the same on a machine that has these links to folders.
pub fn cautions_by_links(
    alloc: Global,
    links: &[Link],
    texts: &[&[u8]],
    policy: &Policy,
) -> Result<Vec<Caution>, AllocError>
    ensures { IfOk result (λ found. AreCautionsOn links.now
        (map (λ t. t.now) texts.now) policy.now found.items) }
{
    let all = scanned_lists(alloc, lists(alloc, policy)?)?;
    let left = deciding_lists(alloc, policy, &all)?;
    let looked = LookedLists::of(alloc, all, left)?;
    let entries = policy.entries.as_slice();
    let mut found = Vec::new(alloc);
    push_all_texts(alloc, texts, &mut found)?;
    push_looked(alloc, CautionClass::Caret, &looked, &mut found)?;
    push_looked(alloc, CautionClass::Escape, &looked, &mut found)?;
    push_looked(alloc, CautionClass::Case, &looked, &mut found)?;
    push_looked(alloc, CautionClass::QuotedHost, &looked, &mut found)?;
    push_looked(alloc, CautionClass::QuotedEscape, &looked, &mut found)?;
    push_linked(alloc, links, looked.deciding_lists(), &mut found)?;
    push_defaults(alloc, entries, &mut found)?;
    push_unknown(alloc, entries, &mut found)?;
    push_looked(alloc, CautionClass::Sudoedit, &looked, &mut found)?;
    push_looked(alloc, CautionClass::Network, &looked, &mut found)?;
    push_looked(alloc, CautionClass::Bracket, &looked, &mut found)?;
    push_entries(alloc, CautionClass::Setenv, entries, &mut found)?;
    push_entries(alloc, CautionClass::GroupForm, entries, &mut found)?;
    push_entries(alloc, CautionClass::Reserved, entries, &mut found)?;
    push_looked(alloc, CautionClass::Arguments, &looked, &mut found)?;
    push_notes(alloc, looked.noted_lists(), &mut found)?;
    Ok(found)
}
