//! What the grants of a rule depend on that is not judged.
ghost use Rattle.std.specs.Prelude.{◌≡◌, ◌||◌, IfOk, OnOk};
ghost use Rattle.std.specs.HashMap.{get};
ghost use Rattle.std.specs.List.{list_any};
ghost use Rattle.sudo_grammar.specs.declared.policy.Policy.{Policy as ThePolicy};
ghost use Rattle.sudo_text.specs.declared.line.Place.{Place as ThePlace};
ghost use Rattle.review_texts.specs.declared.note.Note.{Note as TheNote};
ghost use Rattle.review_grants.specs.Body.Noted.{is_noted};
ghost use Rattle.review_grants.specs.Depends as spec;

use crate::marks::{Marks, UNMARKED};
use crate::noted::{Noted, policy_notes};
use std::alloc::{AllocError, Global};
use std::collections::HashMap;
use sudo_match::Verdict;
use sudo_policy::Checked;
use sudo_text::Place;

// Returns the marks at a place.
fn marks_at(marks: &HashMap<(u32, u32), Marks>, place: Place) -> Marks
    ensures { (note : TheNote) → spec.has_mark result note
        ≡ spec.is_marked (get spec.same_key marks.now (spec.key_of place)) note }
{
    match marks.get(&(place.file, place.line)) {
        Some(found) => *found,
        None => UNMARKED,
    }
}

// Adds a note at its place.
fn add_note(marks: &mut HashMap<(u32, u32), Marks>, noted: Noted) -> Result<(), AllocError>
    ensures { OnOk result ((at : ThePlace) (note : TheNote)
        → spec.is_marked (get spec.same_key marks.new (spec.key_of at)) note
        ≡ (spec.is_marked (get spec.same_key marks.old (spec.key_of at)) note
        || is_noted at note noted)) }
{
    let place = noted.place;
    let found = marks_at(marks, place).with_note(noted.note);
    marks.insert((place.file, place.line), found)?;
    Ok(())
}

// Returns the notes at each place.
fn marked(alloc: Global, found: &[Noted]) -> Result<HashMap<(u32, u32), Marks>, AllocError>
    ensures { IfOk result (λ marks. (at : ThePlace) (note : TheNote)
        → spec.is_marked (get spec.same_key marks (spec.key_of at)) note
        ≡ list_any (is_noted at note) found.now) }
{
    let mut marks = HashMap::new(alloc);
    for noted in found {
        add_note(&mut marks, *noted)?;
    }
    Ok(marks)
}

/// What the grants of a policy depend on, by their places.
#[derive(Drop)]
pub struct NotedPlaces {
    marks: HashMap<(u32, u32), Marks>,
}

impl NotedPlaces {
    /// Returns what the grants of a policy depend on: the notes among its written-out commands. The time is linear in these; a
    /// policy without a note is only looked through as it stands. Returns `AllocError` if allocation failed.
    pub fn of(alloc: Global, checked: &Checked) -> Result<NotedPlaces, AllocError>
        ensures noted { IfOk result (spec.IsNoted checked.now) }
        ensures marked { IfOk result (spec.IsMarked checked.now) }
    {
        let found = policy_notes(alloc, checked)?;
        let marks = marked(alloc, found.as_slice())?;
        Ok(NotedPlaces { marks })
    }

    /// Returns which notes the grants at a place have.
    pub fn marks(&self, at: Place) -> Marks
        ensures { result ≡ spec.marks_in self.now at }
    {
        marks_at(&self.marks, at)
    }

    /// Returns the names of what the grants at a place depend on, `digest`, `time`, `chroot` and `regex`, with a blank between
    /// them.
    pub fn depends(&self, at: Place) -> &'static [u8]
        ensures { result.now ≡ spec.depends_text (spec.noted_in self.now at) }
    {
        if self.marks.is_empty() {
            return b"";
        }
        self.marks(at).text()
    }

    /// Returns the names of what a verdict depends on: what the grants at its place do, and nothing where no grant decides.
    pub fn verdict_depends(&self, verdict: &Verdict) -> &'static [u8]
        ensures text { result.now ≡ spec.depends_text (spec.noted_by self.now verdict.now) }
        ensures known { (p : ThePolicy) → spec.IsNoted p self.now
            → result.now ≡ spec.verdict_depends p verdict.now }
    {
        match verdict {
            Verdict::Allow { place, .. } => self.depends(*place),
            Verdict::Deny { place } => self.depends(*place),
            _ => b"",
        }
    }
}
