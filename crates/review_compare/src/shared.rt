//! Asks that the same near rows decide, whoever asks: which blocks these are is found once for all of them.
ghost use Rattle.std.specs.Prelude.{◌≡◌, ◌<◌, ◌⊎◌, ◌∷◌, [], All, get_or, IfOk, IfSome, length, OnOk, true};
ghost use Rattle.std.specs.List.{Contains};
ghost use Rattle.review_compare.specs.declared.cell.Ask.{Ask as TheAsk};
ghost use Rattle.review_compare.specs.declared.shared.AnsweredAsks.{AnsweredAsks as TheAnsweredAsks};
ghost use Rattle.review_compare.specs.Body.SharedAsks as body;
ghost use Rattle.sudo_verdict.specs.Questions.{Question};
ghost use Rattle.review_compare.specs.Body.Chosen.{runas_at};
ghost use Rattle.review_compare.specs.Body.Whoever.{AreAnswered, AreFormsAlike, AreFormsIn};

use crate::ask_class::AskedWith;
use crate::asks::{group_at, person_at};
use crate::brief::brief_asks;
use crate::cell::Ask;
use crate::common::allow_alike;
use crate::pair::Pair;
use crate::spot::Listed;
use crate::whoever::are_equal;
use std::alloc::{AllocError, Global};
use sudo_match::{Machine, Person};
use sudo_verdict::Asker;

/// Asks to which the blocks near a change answer the same, whoever asks: the first, and all of them.
#[derive(Drop)]
pub(crate) struct SharedAsks {
    pub(crate) first: Ask,
    pub(crate) asked: Vec<AskedWith>,
}

/// All asks, those of them in classes for all users, and the others.
#[derive(Drop)]
pub(crate) struct SplitAsks {
    pub(crate) all: Vec<Ask>,
    pub(crate) shared: Vec<SharedAsks>,
    pub(crate) own: Vec<Ask>,
}

// What blocks of both policies answer.
#[derive(Drop)]
struct Answers {
    old: Vec<bool>,
    new: Vec<bool>,
}

// Asks to which blocks answer the same, whoever asks: the first, what they answer, and all asks.
#[derive(Drop)]
struct AnsweredAsks {
    first: Ask,
    answers: Answers,
    asks: Vec<Ask>,
}

// Returns of the blocks near the change one for each runas.
fn forms_near(alloc: Global, pair: &Pair<'_>) -> Result<Listed, AllocError>
    ensures { IfOk result (AreFormsIn pair.now) }
{
    let old = pair.old.forms_of(alloc, &pair.near.old)?;
    let new = pair.new.forms_of(alloc, &pair.near.new)?;
    Ok(Listed { old, new })
}

// Whether the runas of a block of the old policy and that of one of the new policy are the same, written out.
fn allow_alike_at(
    alloc: Global,
    pair: &Pair<'_>,
    index: usize,
    other: usize,
) -> Result<bool, AllocError>
    ensures { IfOk result (λ alike. alike ≡ true → (q : Question)
        → runas_at pair.now.old.checked.now pair.now.old.blocks.items q index
        ≡ runas_at pair.now.new.checked.now pair.now.new.blocks.items q other) }
{
    match (pair.old.blocks.get(index), pair.new.blocks.get(other)) {
        (Some(block), Some(counterpart)) => allow_alike(
            alloc,
            pair.old.checked,
            block.runas,
            pair.new.checked,
            counterpart.runas,
        ),
        _ => Ok(false),
    }
}

// Whether these blocks of both policies allow the same, one by one.
fn are_forms_alike(alloc: Global, pair: &Pair<'_>, forms: &Listed) -> Result<bool, AllocError>
    ensures { IfOk result (λ alike. alike ≡ true → AreFormsAlike pair.now forms.now) }
{
    let (old, new) = (forms.old.as_slice(), forms.new.as_slice());
    if old.len() != new.len() {
        return Ok(false);
    }
    for at in 0..old.len() {
        if !allow_alike_at(alloc, pair, old[at], new[at])? {
            return Ok(false);
        }
    }
    Ok(true)
}

// Returns what the blocks answer to each user who asks for this, if that is known to be the same. The user and the host are any
// known ones. Where the blocks of both policies allow the same, those of the old policy answer for both.
fn answers_to(
    alloc: Global,
    pair: &Pair<'_>,
    person: &Person,
    machine: &Machine,
    forms: &Listed,
    are_alike: bool,
    ask: Ask,
) -> Result<Option<Answers>, AllocError>
    requires { are_alike ≡ true → AreFormsAlike pair.now forms.now }
    ensures { IfOk result (λ found. IfSome found (λ answers.
        AreAnswered pair.now forms.now ask answers.old.items answers.new.items)) }
{
    let asker = Asker {
        user: person,
        host: machine,
        target: person_at(pair.directory, ask.target),
        group: group_at(pair.groups, ask.group),
    };
    let Some(old) = pair
        .old
        .answers_by(alloc, pair.directory, asker, &forms.old)?
    else {
        return Ok(None);
    };
    if are_alike {
        let new = Vec::from_slice(alloc, &old)?;
        return Ok(Some(Answers { old, new }));
    }
    let Some(new) = pair
        .new
        .answers_by(alloc, pair.directory, asker, &forms.new)?
    else {
        return Ok(None);
    };
    Ok(Some(Answers { old, new }))
}

fn are_same_answers(answers: &[bool], others: &[bool]) -> bool
    ensures { result ≡ true → answers.now ≡ others.now }
{
    let mut own = answers;
    let mut left = others;
    while let [answer, rest @ ..] = own {
        let [other, more @ ..] = left else {
            return false;
        };
        if !are_equal(*answer, *other) {
            return false;
        }
        own = rest;
        left = more;
    }
    left.is_empty()
}

// Whether the blocks of both policies answer so to the asks.
fn are_answered(answered: &AnsweredAsks, answers: &Answers) -> bool
    ensures { result ≡ true
        → (answered.now.answers.old.items ≡ answers.now.old.items)
        × (answered.now.answers.new.items ≡ answers.now.new.items) }
{
    if !are_same_answers(&answered.answers.old, &answers.old) {
        return false;
    }
    are_same_answers(&answered.answers.new, &answers.new)
}

// Returns the index of the asks to which the blocks answer so, if there are any.
fn index_of(answered: &[AnsweredAsks], answers: &Answers) -> Option<usize>
    ensures { IfSome result (λ i. (i < length answered.now) × ((d : TheAnsweredAsks)
        → ((get_or answered.now i d).answers.old.items ≡ answers.now.old.items)
        × ((get_or answered.now i d).answers.new.items ≡ answers.now.new.items))) }
{
    for index in 0..answered.len() {
        if are_answered(&answered[index], answers) {
            return Some(index);
        }
    }
    None
}

// Returns the ask alone, with what the blocks answer to it.
fn answered_alone(alloc: Global, answers: Answers, ask: Ask) -> Result<AnsweredAsks, AllocError>
    ensures { IfOk result (λ s. (s.first ≡ ask) × (s.answers ≡ answers)
        × (s.asks.items ≡ ask ∷ [])) }
{
    let mut asks = Vec::new(alloc);
    asks.push(ask)?;
    Ok(AnsweredAsks {
        first: ask,
        answers,
        asks,
    })
}

// Adds the ask to those to which the blocks answer so.
fn add_answered(
    alloc: Global,
    pair: &Pair<'_>,
    forms: &Listed,
    answers: Answers,
    ask: Ask,
    answered: &mut Vec<AnsweredAsks>,
) -> Result<(), AllocError>
    requires answers { AreAnswered pair.now forms.now ask answers.old.items answers.new.items }
    requires are { All (body.IsAnsweredAlike pair.now forms.now) answered.old.items }
    ensures are { OnOk result (All (body.IsAnsweredAlike pair.entry.now forms.entry.now)
        answered.new.items) }
    ensures has { OnOk result (body.HaveAnswered answered.new.items ask) }
    ensures kept { OnOk result ((a : TheAsk) → body.HaveAnswered answered.old.items a
        → body.HaveAnswered answered.new.items a) }
{
    match index_of(answered, &answers) {
        Some(index) => {
            answered[index].asks.push(ask)?;
        }
        None => {
            let alone = answered_alone(alloc, answers, ask)?;
            answered.push(alone)?;
        }
    }
    Ok(())
}

// Adds the ask to those to which the blocks answer the same, whoever asks, if they do, and otherwise to the others.
fn split_ask(
    alloc: Global,
    pair: &Pair<'_>,
    person: &Person,
    machine: &Machine,
    forms: &Listed,
    are_alike: bool,
    ask: Ask,
    answered: &mut Vec<AnsweredAsks>,
    own: &mut Vec<Ask>,
) -> Result<(), AllocError>
    requires alike { are_alike ≡ true → AreFormsAlike pair.now forms.now }
    requires answered { All (body.IsAnsweredAlike pair.now forms.now) answered.old.items }
    ensures are { OnOk result (All (body.IsAnsweredAlike pair.entry.now forms.entry.now)
        answered.new.items) }
    ensures has { OnOk result (Contains own.new.items ask
        ⊎ body.HaveAnswered answered.new.items ask) }
    ensures kept { OnOk result ((a : TheAsk) → (Contains own.old.items a → Contains own.new.items a)
        × (body.HaveAnswered answered.old.items a → body.HaveAnswered answered.new.items a)) }
{
    match answers_to(alloc, pair, person, machine, forms, are_alike, ask)? {
        Some(answers) => add_answered(alloc, pair, forms, answers, ask, answered),
        None => {
            own.push(ask)?;
            Ok(())
        }
    }
}

// Returns the classes with brief entries for their asks.
fn shared_asks(
    alloc: Global,
    pair: &Pair<'_>,
    answered: &[AnsweredAsks],
) -> Result<Vec<SharedAsks>, AllocError>
    ensures { IfOk result (λ shared. body.AreBriefly pair.now answered.now shared.items) }
{
    let mut shared = Vec::new(alloc);
    for each in answered {
        shared.push(SharedAsks {
            first: each.first,
            asked: brief_asks(alloc, pair, &each.asks)?,
        })?;
    }
    Ok(shared)
}

/// Splits asks into those that the same near rows decide, whoever asks, in classes, and the others. The user and the host are any
/// known ones. Returns `AllocError` if allocation fails.
pub(crate) fn split_asks(
    alloc: Global,
    pair: &Pair<'_>,
    person: &Person,
    machine: &Machine,
    asks: Vec<Ask>,
) -> Result<SplitAsks, AllocError>
    ensures split { IfOk result (body.IsSplit pair.now) }
    ensures all { IfOk result (λ split. split.all.items ≡ asks.items) }
{
    let forms = forms_near(alloc, pair)?;
    let are_alike = are_forms_alike(alloc, pair, &forms)?;
    let mut answered = Vec::new(alloc);
    let mut own = Vec::new(alloc);
    for ask in asks.as_slice() {
        split_ask(
            alloc,
            pair,
            person,
            machine,
            &forms,
            are_alike,
            *ask,
            &mut answered,
            &mut own,
        )?;
    }
    let shared = shared_asks(alloc, pair, &answered)?;
    Ok(SplitAsks {
        all: asks,
        shared,
        own,
    })
}

/// Returns asks of which none is shared. Returns `AllocError` if allocation fails.
pub(crate) fn unshared_asks(
    alloc: Global,
    pair: &Pair<'_>,
    asks: Vec<Ask>,
) -> Result<SplitAsks, AllocError>
    ensures split { IfOk result (body.IsSplit pair.now) }
    ensures all { IfOk result (λ split. split.all.items ≡ asks.items) }
{
    let own = Vec::from_slice(alloc, &asks)?;
    Ok(SplitAsks {
        all: asks,
        shared: Vec::new(alloc),
        own,
    })
}
