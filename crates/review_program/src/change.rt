//! What a change from one verdict to another does.
ghost use Rattle.std.specs.Prelude.{◌≡◌};
ghost use Rattle.review_program.specs.Changes as spec;

use review_compare::{Answer, answer_between};
use sudo_match::{Tags, Verdict};
use sudo_policy::TagPair;

/// What a change of a policy does to a request.
#[derive(Clone, Copy, Debug, PartialEq, Eq)]
pub(crate) enum Change {
    /// It is allowed, and was not; or it is allowed with tags that leave the user freer.
    Gained,
    /// It is allowed with tags that leave the user freer in one thing and less free in another.
    GainedAndLost,
    /// It was allowed, and is not; or it is allowed with tags that leave the user less free.
    Lost,
    /// It is allowed with other tags that change none of this, or is denied where nothing matched, or the reverse.
    Other,
    /// Both verdicts say the same, and noted conditions decide whether it is answered alike.
    May,
}

impl Change {
    /// Returns the name of the change.
    pub(crate) fn name(self) -> &'static [u8]
        ensures { result.now ≡ spec.change_name self }
    {
        match self {
            Change::Gained => b"gained",
            Change::GainedAndLost => b"gained and lost",
            Change::Lost => b"lost",
            Change::Other => b"other",
            Change::May => b"may",
        }
    }
}

// Whether a choice leaves the user free to do what the other choice of the pair forbids.
fn is_free(pair: TagPair, choice: Option<bool>) -> bool
    ensures { result ≡ spec.is_free pair choice }
{
    match pair {
        TagPair::Passwd => matches!(choice, Some(false)),
        TagPair::SetEnv | TagPair::Follow => matches!(choice, Some(true)),
        TagPair::Exec => !matches!(choice, Some(false)),
        TagPair::Intercept => !matches!(choice, Some(true)),
        TagPair::LogInput | TagPair::LogOutput | TagPair::Mail => false,
    }
}

// Whether by a choice of a pair the user is free, and was not by an earlier one.
fn is_freer(pair: TagPair, before: Option<bool>, after: Option<bool>) -> bool
    ensures { result ≡ spec.is_freer pair before after }
{
    is_free(pair, after) && !is_free(pair, before)
}

// Whether tags leave the user freer than earlier ones in one thing at least.
fn are_freer(old: &Tags, new: &Tags) -> bool
    ensures { result ≡ spec.are_freer old.now new.now }
{
    is_freer(TagPair::Exec, old.choices[0], new.choices[0])
        || is_freer(TagPair::Follow, old.choices[1], new.choices[1])
        || is_freer(TagPair::Intercept, old.choices[2], new.choices[2])
        || is_freer(TagPair::Passwd, old.choices[6], new.choices[6])
        || is_freer(TagPair::SetEnv, old.choices[7], new.choices[7])
}

// Returns what the change of the tags of an allowed command does.
fn tags_change(gained: bool, lost: bool) -> Change
    ensures { result ≡ spec.tags_change gained lost }
{
    match (gained, lost) {
        (true, true) => Change::GainedAndLost,
        (true, false) => Change::Gained,
        (false, true) => Change::Lost,
        (false, false) => Change::Other,
    }
}

// Returns what a change does to a command that both policies allow, or neither does.
fn other_change(old: &Verdict, new: &Verdict) -> Change
    ensures { result ≡ spec.other_change old.now new.now }
{
    match (old, new) {
        (Verdict::Allow { tags: before, .. }, Verdict::Allow { tags: after, .. }) => {
            tags_change(are_freer(before, after), are_freer(after, before))
        }
        _ => Change::Other,
    }
}

/// Returns what a change from one verdict to another does, or `None` if they differ in nothing but their places.
pub(crate) fn change_between(old: &Verdict, new: &Verdict) -> Option<Change>
    ensures { result ≡ spec.change_between old.now new.now }
{
    match answer_between(old, new) {
        None => None,
        Some(Answer::Gained) => Some(Change::Gained),
        Some(Answer::Lost) => Some(Change::Lost),
        Some(Answer::Other) => Some(other_change(old, new)),
    }
}

/// Returns the change of verdicts, if there is one. Otherwise there may be a change, unless both policies say the same whichever
/// noted conditions hold.
pub(crate) fn change_unless(same: bool, change: Option<Change>) -> Option<Change>
    ensures { result ≡ spec.change_unless same change }
{
    match (change, same) {
        (Some(change), _) => Some(change),
        (None, true) => None,
        (None, false) => Some(Change::May),
    }
}
