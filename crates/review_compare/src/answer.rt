//! What the change of a verdict does.
ghost use Rattle.std.specs.Prelude.{◌≡◌};
ghost use Rattle.review_compare.specs.Cells as cells;
ghost use Rattle.review_grants.specs.Targets as targets;
ghost use Rattle.review_compare.specs.Names as names;
ghost use Rattle.review_compare.specs.Compared as compared;

use sudo_match::{Tags, Verdict};

/// What a change of a policy does to a command.
#[derive(Clone, Copy, Debug, PartialEq, Eq)]
pub enum Answer {
    /// It is allowed, and was not.
    Gained,
    /// It was allowed, and is not.
    Lost,
    /// It is allowed with other tags, or is denied where nothing matched, or the reverse.
    Other,
}

impl Answer {
    /// Returns the name of the answer.
    pub fn name(self) -> &'static [u8]
        ensures { result.now ≡ names.answer_name self }
    {
        match self {
            Answer::Gained => b"gained",
            Answer::Lost => b"lost",
            Answer::Other => b"other",
        }
    }
}

fn is_same_choice(first: Option<bool>, second: Option<bool>) -> bool
    ensures { result ≡ compared.same_choice first second }
{
    match (first, second) {
        (None, None) | (Some(true), Some(true)) | (Some(false), Some(false)) => true,
        _ => false,
    }
}

// Whether the lists have the same choices.
fn are_same_choices(first: &[Option<bool>], second: &[Option<bool>]) -> bool
    ensures { result ≡ compared.same_choices first.now second.now }
{
    let mut own = first;
    let mut left = second;
    while let Some((choice, rest)) = own.split_first() {
        let Some((other, more)) = left.split_first() else {
            return false;
        };
        if !is_same_choice(*choice, *other) {
            return false;
        }
        own = rest;
        left = more;
    }
    left.is_empty()
}

/// Whether two answers are the same: leave with the same tags, or a refusal.
pub(crate) fn is_same_answer(first: &Option<Tags>, second: &Option<Tags>) -> bool
    ensures { result ≡ compared.same_answer first.now second.now }
{
    match (first, second) {
        (None, None) => true,
        (Some(own), Some(others)) => are_same_choices(&own.choices, &others.choices),
        _ => false,
    }
}

// Whether two verdicts say the same, at whatever places.
fn says_same(old: &Verdict, new: &Verdict) -> bool
    ensures { result ≡ cells.same_said (compared.said old.now) (compared.said new.now) }
{
    match (old, new) {
        (Verdict::Allow { tags, .. }, Verdict::Allow { tags: others, .. }) => {
            are_same_choices(&tags.choices, &others.choices)
        }
        (Verdict::Deny { .. }, Verdict::Deny { .. }) => true,
        (Verdict::NoMatch | Verdict::Unknown(_), Verdict::NoMatch | Verdict::Unknown(_)) => true,
        _ => false,
    }
}

fn is_allowed(verdict: &Verdict) -> bool
    ensures { result ≡ targets.allowed verdict.now }
{
    match verdict {
        Verdict::Allow { .. } => true,
        _ => false,
    }
}

/// Returns what the change of a verdict does, or `None` if both say the same.
pub fn answer_between(old: &Verdict, new: &Verdict) -> Option<Answer>
    ensures { result ≡ cells.answer_between old.now new.now }
{
    if says_same(old, new) {
        return None;
    }
    match (is_allowed(old), is_allowed(new)) {
        (false, true) => Some(Answer::Gained),
        (true, false) => Some(Answer::Lost),
        _ => Some(Answer::Other),
    }
}
