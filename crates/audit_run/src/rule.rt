//! A queue between threads under one rule, for any type of message and any property that each
//! message in it must have.
//!
//! The rule is in `specs/Body/Rule.antt`. Each kind of step (a queue created with its first pass, a
//! pass split, a push with or without success, a pop with or without a message, passes joined)
//! keeps it, whichever threads take the steps and in whatever order.
ghost use Rattle.std.specs.Prelude.{◌≡◌, ◌<◌, ◌≤◌, List, Option, Some, None, Ok, Err, true, IfOk, IfSome};
ghost use Rattle.std.specs.Prelude.{MatchResult, MatchOption, length, [], ◌∷◌};
ghost use Rattle.std.specs.Bool.{MatchBool};
ghost use Rattle.crossbeam_queue.specs.Passes.{view, IsPassOf, IsSamePass, ruled_capacity};
ghost use Rattle.audit_run.specs.Body.Rule.{tally, putting, taking, kept_by_split, given_by_split, joined, Leaves};
ghost use Rattle.audit_run.specs.Body.Rule.{Suits, PutsMessage, TakesMessage};

use crossbeam_queue::protocol::{Join, Lesson, Outcome, Protocol, Split};
use crossbeam_queue::{Pass, RuledArrayQueue};
use std::alloc::{AllocError, Global};
use std::collections::LinkedList;
use std::marker::{Brand, PhantomData};
use std::sync::Wait;

/// The capacity of a queue.
pub const PLACES: usize = 256;

/// A message, and the property that it must have for the names that the passes of its queue share.
pub trait Message<N> {
    ghost fits: { N → Self → Type 0 };
}

/// The knowledge of one pass of a queue: its weight, the names, and the messages that it has put
/// and taken. No value of it exists.
pub struct Tally<T, N> {
    pub weight: u64,
    pub names: Option<N>,
    pub put: LinkedList<T>,
    pub taken: LinkedList<T>,
}

/// The rule of a queue, as a protocol.
pub struct Counted;

impl<T: Message<N>, N> Protocol<T, Tally<T, N>> for Counted {
    ghost use Rattle.audit_run.specs.Body.Rule.{first, KeepsRule};

    ghost holds = { KeepsRule T.fits };

    ghost first = { first };
}

/// A queue under the rule.
pub type RuledQueue<T, N> = RuledArrayQueue<T, Tally<T, N>, Counted>;

/// A pass of such a queue.
pub type QueuePass<T, N> = Pass<T, Tally<T, N>>;

/// The names that a queue is opened for. The call that opens it chooses them.
pub trait Naming<N> {
    ghost names: { Option N };
}

impl<N> Naming<N> for Brand {
    ghost names = { None };
}

struct Named<J> {
    marker: PhantomData<J>,
}

impl<T, N, J: Naming<N>> Split<Tally<T, N>> for Named<J> {
    ghost use Rattle.audit_run.specs.Body.Rule.{named, spent};

    ghost left = { λ v. named J.names v };

    ghost right = { λ v. spent };
}

struct Halved;

impl<T, N> Split<Tally<T, N>> for Halved {
    ghost use Rattle.audit_run.specs.Body.Rule.{kept_by_split, given_by_split};

    ghost left = { λ v. kept_by_split v };

    ghost right = { λ v. given_by_split v };
}

struct Together;

impl<T, N> Join<Tally<T, N>> for Together {
    ghost use Rattle.audit_run.specs.Body.Rule.{joined, spent};

    ghost both = { λ v w. joined v w };

    ghost spent = { spent };
}

struct Puts;

impl<T, N> Outcome<T, Tally<T, N>> for Puts {
    ghost use Rattle.audit_run.specs.Body.Rule.{PutsMessage};

    ghost then = { λ v x w. PutsMessage v x w };
}

impl<T, N> Lesson<T, Tally<T, N>> for Puts {
    ghost use Rattle.audit_run.specs.Body.Rule.{SeesQueue};

    ghost fact = { λ v items. SeesQueue v items };
}

struct Takes;

impl<T: Message<N>, N> Outcome<T, Tally<T, N>> for Takes {
    ghost use Rattle.audit_run.specs.Body.Rule.{TakesMessage};

    ghost then = { λ v x w. TakesMessage T.fits v x w };
}

impl<T: Message<N>, N> Lesson<T, Tally<T, N>> for Takes {
    ghost use Rattle.audit_run.specs.Body.Rule.{SeesQueue};

    ghost fact = { λ v items. SeesQueue v items };
}

/// Creates a queue of 256 places with its first pass, which is whole and has these names. Returns
/// `AllocError` if allocation failed.
pub fn open<T: Message<N>, N, J: Naming<N>>(
    alloc: Global,
) -> Result<(RuledQueue<T, N>, QueuePass<T, N>), AllocError>
    ensures { IfOk result (λ r. (ruled_capacity r.0 ≡ 256) × IsPassOf r.0 r.1
        × (view r.1 ≡ tally 1024 J.names [] [])) }
{
    let (line, mut seat) = RuledQueue::<T, N>::ruled(alloc, PLACES)?;
    let _spent = line.another::<Named<J>>(&mut seat);
    Ok((line, seat))
}

/// Puts a message. Returns it only if the queue was full at some moment of the call.
pub fn put<T: Message<N>, N, R: Wait>(
    rt: &R,
    line: &RuledQueue<T, N>,
    seat: &mut QueuePass<T, N>,
    message: T,
) -> Result<(), T>
    requires line { IsPassOf line.now seat.old × (ruled_capacity line.now ≡ 256) }
    requires weight { 0 < (view seat.old).weight }
    requires fits { Suits T.fits (view seat.old).names message }
    ensures line { IsSamePass seat.old seat.new }
    ensures answer { MatchResult result (λ _. view seat.new ≡ putting (view seat.old) message)
        (λ back. (back ≡ message) × (view seat.new ≡ view seat.old)) }
    ensures whole { (view seat.old).weight ≡ 1024
        → (left : List T) × Leaves (view seat.old) left
        × MatchResult result (λ _. length left < 256) (λ _. length left ≡ 256) }
{
    line.push_as::<Puts, R>(rt, seat, message)
}

/// Takes a message. Returns `None` only if the queue was empty at some moment of the call.
pub fn take<T: Message<N>, N, R: Wait>(
    rt: &R,
    line: &RuledQueue<T, N>,
    seat: &mut QueuePass<T, N>,
) -> Option<T>
    requires line { IsPassOf line.now seat.old × (ruled_capacity line.now ≡ 256) }
    requires weight { 0 < (view seat.old).weight }
    ensures line { IsSamePass seat.old seat.new }
    ensures answer { MatchOption result (view seat.new ≡ view seat.old)
        (λ x. (view seat.new ≡ taking (view seat.old) x) × Suits T.fits (view seat.old).names x) }
    ensures whole { (view seat.old).weight ≡ 1024
        → MatchOption result (Leaves (view seat.old) [])
        (λ x. (rest : List T) × Leaves (view seat.old) (x ∷ rest)) }
{
    line.pop_as::<Takes, R>(rt, seat)
}

/// Puts the message of the slot, and returns whether the slot is then empty. If it is not, the queue
/// was full at some moment of the call, and the slot keeps its message.
pub fn put_from<T: Message<N> + Drop, N, R: Wait>(
    rt: &R,
    line: &RuledQueue<T, N>,
    seat: &mut QueuePass<T, N>,
    slot: &mut Option<T>,
) -> bool
    requires line { IsPassOf line.now seat.old × (ruled_capacity line.now ≡ 256) }
    requires weight { 0 < (view seat.old).weight }
    requires fits { IfSome slot.old (Suits T.fits (view seat.old).names) }
    ensures line { IsSamePass seat.old seat.new }
    ensures none { slot.old ≡ None → (result ≡ true) × (slot.new ≡ None)
        × (view seat.new ≡ view seat.old) }
    ensures answer { IfSome slot.old (λ message. MatchBool result
        ((slot.new ≡ None) × (view seat.new ≡ putting (view seat.old) message))
        ((slot.new ≡ slot.old) × (view seat.new ≡ view seat.old))) }
    ensures whole { IfSome slot.old (λ _. (view seat.old).weight ≡ 1024
        → (left : List T) × Leaves (view seat.old) left
        × MatchBool result (length left < 256) (length left ≡ 256)) }
{
    let Some(message) = slot.take() else {
        return true;
    };
    match put(rt, line, seat, message) {
        Ok(()) => true,
        Err(back) => {
            *slot = Some(back);
            false
        }
    }
}

/// Takes a message into the slot, in place of what it held. Leaves it empty only if the queue was
/// empty at some moment of the call.
pub fn take_into<T: Message<N> + Drop, N, R: Wait>(
    rt: &R,
    line: &RuledQueue<T, N>,
    seat: &mut QueuePass<T, N>,
    slot: &mut Option<T>,
)
    requires line { IsPassOf line.now seat.old × (ruled_capacity line.now ≡ 256) }
    requires weight { 0 < (view seat.old).weight }
    ensures line { IsSamePass seat.old seat.new }
    ensures answer { MatchOption slot.new (view seat.new ≡ view seat.old)
        (λ x. (view seat.new ≡ taking (view seat.old) x) × Suits T.fits (view seat.old).names x) }
    ensures whole { (view seat.old).weight ≡ 1024
        → MatchOption slot.new (Leaves (view seat.old) [])
        (λ x. (rest : List T) × Leaves (view seat.old) (x ∷ rest)) }
{
    *slot = take(rt, line, seat);
}

/// Splits off another pass of the queue, with 1 of the weight.
pub fn split<T: Message<N>, N>(
    line: &RuledQueue<T, N>,
    seat: &mut QueuePass<T, N>,
) -> QueuePass<T, N>
    requires line { IsPassOf line.now seat.old }
    requires weight { 2 ≤ (view seat.old).weight }
    ensures line { IsSamePass seat.old seat.new × IsPassOf line.now result }
    ensures views { (view seat.new ≡ kept_by_split (view seat.old))
        × (view result ≡ given_by_split (view seat.old)) }
{
    line.another::<Halved>(seat)
}

/// Joins a pass of the queue to this one.
pub fn join<T: Message<N>, N>(
    line: &RuledQueue<T, N>,
    seat: &mut QueuePass<T, N>,
    other: QueuePass<T, N>,
)
    requires line { IsPassOf line.now seat.old × IsPassOf line.now other }
    requires weight { (0 < (view seat.old).weight) × (0 < (view other).weight) }
    ensures line { IsSamePass seat.old seat.new }
    ensures views { view seat.new ≡ joined (view seat.old) (view other) }
{
    line.absorb::<Together>(seat, other);
}
