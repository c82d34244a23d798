//! What the rows of one command make of what was given before them.
ghost use Rattle.std.specs.Prelude.{◌≡◌};
ghost use Rattle.review_roots.specs.Passwords.{free_after, free_row, nopasswd, unasked_after, unasked_row};
ghost use Rattle.review_roots.specs.Body.Effects as spec;
ghost use Rattle.review_roots.specs.Body.Settled.{agree, settles};

use crate::Level;
use crate::block::Sign;
use review_grants::{Marks, UNMARKED};
use sudo_match::Tags;

/// What rows of the same notes and tags make of what was given before them: the level behind each level; whether every command is
/// allowed without a password behind rows for which that was not so, and behind rows for which it was; the same of whether a
/// command may be; whether one of them allows; whether they depend on no note, whatever was before; and their notes.
#[derive(Clone, Copy, Debug, PartialEq, Eq)]
pub(crate) struct Effect {
    none: Level,
    listed: Level,
    all_but: Level,
    all: Level,
    newly_free: bool,
    free: bool,
    newly_unasked: bool,
    unasked: bool,
    pub(crate) allows: bool,
    clears: bool,
    marks: Marks,
}

// Whether the tags say NOPASSWD: the pair PASSWD has place 6.
fn is_nopasswd(tags: Tags) -> bool
    ensures { result ≡ nopasswd tags }
{
    match tags.choices[6] {
        Some(on) => !on,
        None => false,
    }
}

// Whether no password is asked after a further row without notes.
fn is_free_after(free: bool, tags: Tags, sign: Sign) -> bool
    ensures { result ≡ free_after free sign.negated tags sign.all }
{
    if sign.negated {
        false
    } else if is_nopasswd(tags) {
        sign.all || free
    } else {
        false
    }
}

// Whether no password is asked after a further row of a rule with these notes, met or not.
fn is_free_row(marks: Marks, tags: Tags, free: bool, sign: Sign) -> bool
    ensures { result ≡ free_row marks free sign.negated tags sign.all }
{
    let after = is_free_after(free, tags, sign);
    if marks.is_unmarked() {
        after
    } else {
        free || after
    }
}

// Returns the level behind rows of these notes and signs.
fn level_behind(marks: Marks, level: Level, signs: &[Sign]) -> Level
    ensures { result ≡ spec.level_behind marks level signs.now }
{
    let mut level = level;
    for sign in signs {
        level = level.after(marks, sign.negated, sign.all);
    }
    level
}

// Whether every command is allowed without a password behind rows of these notes, tags and signs.
fn is_free_behind(marks: Marks, tags: Tags, free: bool, signs: &[Sign]) -> bool
    ensures { result ≡ spec.free_behind marks tags free signs.now }
{
    let mut free = free;
    for sign in signs {
        free = is_free_row(marks, tags, free, *sign);
    }
    free
}

// Whether a command may be allowed without a password after a further row without notes.
fn is_unasked_after(unasked: bool, tags: Tags, sign: Sign) -> bool
    ensures { result ≡ unasked_after unasked sign.negated tags sign.all }
{
    if sign.all {
        !sign.negated && is_nopasswd(tags)
    } else if sign.negated {
        unasked
    } else {
        is_nopasswd(tags) || unasked
    }
}

// Whether a command may be allowed without a password after a further row of a rule with these notes, met or not.
fn is_unasked_row(marks: Marks, tags: Tags, unasked: bool, sign: Sign) -> bool
    ensures { result ≡ unasked_row marks unasked sign.negated tags sign.all }
{
    let after = is_unasked_after(unasked, tags, sign);
    if marks.is_unmarked() {
        after
    } else {
        unasked || after
    }
}

// Whether a command may be allowed without a password behind rows of these notes, tags and signs.
fn is_unasked_behind(marks: Marks, tags: Tags, unasked: bool, signs: &[Sign]) -> bool
    ensures { result ≡ spec.unasked_behind marks tags unasked signs.now }
{
    let mut unasked = unasked;
    for sign in signs {
        unasked = is_unasked_row(marks, tags, unasked, *sign);
    }
    unasked
}

// Whether a row of these signs allows.
fn allows_one(signs: &[Sign]) -> bool
    ensures { result ≡ spec.allows_one signs.now }
{
    signs.iter().any(|sign| !sign.negated)
}

// Whether a row of these signs is `ALL`.
fn has_all(signs: &[Sign]) -> bool
    ensures { result ≡ spec.has_all signs.now }
{
    signs.iter().any(|sign| sign.all)
}

// Whether the rows have no note, and one is `ALL`.
fn clears(marks: Marks, signs: &[Sign]) -> bool
    ensures { result ≡ spec.clears marks signs.now }
{
    marks.is_unmarked() && has_all(signs)
}

// Returns the notes of rows, if there are any rows.
fn own_marks(marks: Marks, signs: &[Sign]) -> Marks
    ensures { result ≡ spec.own_marks marks signs.now }
{
    if signs.is_empty() { UNMARKED } else { marks }
}

/// Returns the effect of rows of these notes, tags and signs.
pub(crate) fn effect_of(marks: Marks, tags: Tags, signs: &[Sign]) -> Effect
    ensures { result ≡ spec.effect_of marks tags signs.now }
{
    Effect {
        none: level_behind(marks, Level::None, signs),
        listed: level_behind(marks, Level::Listed, signs),
        all_but: level_behind(marks, Level::AllBut, signs),
        all: level_behind(marks, Level::All, signs),
        newly_free: is_free_behind(marks, tags, false, signs),
        free: is_free_behind(marks, tags, true, signs),
        newly_unasked: is_unasked_behind(marks, tags, false, signs),
        unasked: is_unasked_behind(marks, tags, true, signs),
        allows: allows_one(signs),
        clears: clears(marks, signs),
        marks: own_marks(marks, signs),
    }
}

// Whether both hold, or none does.
fn agree(one: bool, other: bool) -> bool
    ensures { result ≡ agree one other }
{
    if one { other } else { !other }
}

impl Effect {
    /// Whether what is given behind the rows is the same whatever was given before them.
    pub(crate) fn settles(self) -> bool
        ensures { result ≡ settles self }
    {
        let all = self.all.rank();
        self.clears
            && self.allows
            && self.none.rank() == all
            && self.listed.rank() == all
            && self.all_but.rank() == all
            && agree(self.newly_free, self.free)
            && agree(self.newly_unasked, self.unasked)
    }

    /// Returns the level behind the rows.
    pub(crate) fn level_after(self, before: Level) -> Level
        ensures { result ≡ spec.level_by self before }
    {
        match before {
            Level::None => self.none,
            Level::Listed => self.listed,
            Level::AllBut => self.all_but,
            Level::All => self.all,
        }
    }

    /// Whether every command is allowed without a password behind the rows.
    pub(crate) fn is_free_after(self, before: bool) -> bool
        ensures { result ≡ spec.free_by self before }
    {
        if before { self.free } else { self.newly_free }
    }

    /// Whether a command may be allowed without a password behind the rows.
    pub(crate) fn is_unasked_after(self, before: bool) -> bool
        ensures { result ≡ spec.unasked_by self before }
    {
        if before {
            self.unasked
        } else {
            self.newly_unasked
        }
    }

    /// Returns the notes on which it depends behind the rows.
    pub(crate) fn marks_after(self, before: Marks) -> Marks
        ensures { result ≡ spec.marks_by self before }
    {
        if self.clears {
            UNMARKED
        } else {
            before.joined(self.marks)
        }
    }
}
