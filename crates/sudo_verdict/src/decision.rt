//! The decision of a list on a user, a group, a host or a command.

ghost use Rattle.std.specs.Prelude.{ℕ, ◌≡◌, ◌==◌, ◌<◌, ◌≤◌, ◌∷◌, [], Bool, true, false, not, take, IsTrue, Some};
ghost use Rattle.std.specs.Prelude.{option_copied, option_map, slice_get, unwrap_or};
ghost use Rattle.std.specs.List.{list_any};
ghost use Rattle.sudo_grammar.specs.declared.kind.Atom.{Atom};
ghost use Rattle.sudo_policy.specs.Resolving.{resolves};
ghost use Rattle.sudo_match.specs.Matching.{user_fits, group_fits, host_fits, command_fits};
ghost use Rattle.sudo_verdict.specs.Values as values;
ghost use Rattle.sudo_verdict.specs.Body.Known.{IsPassed};
ghost use Rattle.sudo_verdict.specs.Body.NumberSets.{has_marks, set_has};
ghost use Rattle.sudo_verdict.specs.declared.index.number_set.NumberSet.{NumberSet as TheNumbers};
ghost use Rattle.sudo_verdict.specs.Keys.{HaveKeys, IsKeyOf};
ghost use Rattle.sudo_verdict.specs.Numbers.{lacks_command, user_number};
ghost use Rattle.sudo_verdict.specs.Body.Recalling.{Recalls};
ghost use Rattle.sudo_verdict.specs.Decided.{list_decision};
ghost use Rattle.sudo_verdict.specs.Body.Decided.{negated_once};

use crate::index::aliases::{Aliases, Numbers, REMEMBERED, Slot, number_of, recall, remember};
use crate::index::key::{Key, key_at};
use crate::index::keys::Lists;
use crate::index::number_set::{MarkSet, NumberSet};
use crate::index::numbers::user_number;
use sudo_match::{
    Group, Machine, Person, command_matches, group_matches, host_matches, user_matches,
};
use sudo_policy::{Atom, Kind, Member, is_negated};

/// A user, a group, a host or a command, with which the members of a list are matched.
pub(crate) trait Subject: Copy {
    ghost fits: { Self → Atom → Bool };

    /// Whether the atom matches the subject.
    fn matches(&self, atom: &Atom) -> bool
        ensures { result ≡ fits self.now atom.now };

    /// Whether no atom with this key matches the subject. False where that is not known, and for an alias.
    fn misses(&self, key: &Key) -> bool
        ensures { result ≡ true → IsPassed (fits self.now) key.now };
}

/// A user, matched with the members of a user list.
#[derive(Clone, Copy)]
pub(crate) struct AsUser<'a> {
    pub(crate) user: &'a Person,
    // The number of the user's name.
    number: usize,
    // The marks of the user's groups.
    marks: MarkSet,
    ghost known: { number ≡ user_number user.now.name },
    ghost marked: { has_marks marks.words user.now.groups ≡ true },
}

impl<'a> AsUser<'a> {
    /// Returns a user as a subject.
    pub(crate) fn of(user: &'a Person) -> AsUser<'a>
        ensures { result.user.now ≡ user.now }
    {
        AsUser {
            user,
            number: user_number(user.name.as_slice()),
            marks: MarkSet::of_groups(user.groups.as_slice()),
        }
    }

    /// Returns the number of the user's name.
    pub(crate) fn number(&self) -> usize
        ensures { result ≡ user_number self.now.user.now.name }
    {
        self.number
    }
}

impl Subject for AsUser<'_> {
    ghost fits = { λ s a. user_fits a s.user.now };

    fn matches(&self, atom: &Atom) -> bool {
        user_matches(atom, self.user)
    }

    fn misses(&self, key: &Key) -> bool {
        match key {
            Key::Name(number) => *number != self.number,
            Key::Uid(uid) => *uid != self.user.uid,
            Key::Group(mark) => !self.marks.has(*mark),
            _ => false,
        }
    }
}

/// A user to run a command as, matched with the members of a runas user list.
#[derive(Clone, Copy)]
pub(crate) struct AsTarget<'a> {
    pub(crate) target: &'a Person,
}

impl Subject for AsTarget<'_> {
    ghost fits = { λ s a. user_fits a s.target.now };

    fn matches(&self, atom: &Atom) -> bool {
        user_matches(atom, self.target)
    }

    fn misses(&self, _key: &Key) -> bool {
        false
    }
}

/// A group, matched with the members of a runas group list.
#[derive(Clone, Copy)]
pub(crate) struct AsGroup<'a> {
    pub(crate) group: &'a Group,
}

impl Subject for AsGroup<'_> {
    ghost fits = { λ s a. group_fits a s.group.now };

    fn matches(&self, atom: &Atom) -> bool {
        group_matches(atom, self.group)
    }

    fn misses(&self, _key: &Key) -> bool {
        false
    }
}

// Returns the number of bytes before the first dot of a host's name.
fn short_length(name: &[u8]) -> usize
    ensures { list_any (λ b. b == 46) (take result name.now) ≡ false }
{
    for index in 0..name.len() {
        if name[index] == b'.' {
            return index;
        }
    }
    name.len()
}

/// A host, matched with the members of a host list.
#[derive(Clone, Copy)]
pub(crate) struct AsHost<'a> {
    pub(crate) host: &'a Machine,
    // The number of bytes before the first dot of its name.
    short_length: usize,
    ghost known: { list_any (λ b. b == 46) (take short_length host.now.name) ≡ false },
}

impl<'a> AsHost<'a> {
    /// Returns a host as a subject.
    pub(crate) fn of(host: &'a Machine) -> AsHost<'a>
        ensures { result.host.now ≡ host.now }
    {
        AsHost {
            host,
            short_length: short_length(host.name.as_slice()),
        }
    }

    // Whether the byte at an index is before the first dot, and is another one in lower case.
    fn differs_at(&self, index: usize, byte: u8) -> bool
        ensures { result ≡ true → IsPassed (λ a. host_fits a self.now.host.now)
            (Key.Host index byte) }
    {
        if index >= self.short_length {
            return false;
        }
        match self.host.name.get(index) {
            Some(own) => own.to_ascii_lowercase() != byte,
            None => false,
        }
    }
}

impl Subject for AsHost<'_> {
    ghost fits = { λ s a. host_fits a s.host.now };

    fn matches(&self, atom: &Atom) -> bool {
        host_matches(atom, self.host)
    }

    fn misses(&self, key: &Key) -> bool {
        match key {
            Key::Host { index, byte } => self.differs_at(*index, *byte),
            _ => false,
        }
    }
}

/// A command with its arguments, matched with the members of a command list.
#[derive(Clone, Copy)]
pub(crate) struct AsCommand<'a> {
    pub(crate) command: &'a [u8],
    pub(crate) arguments: &'a [u8],
    /// The numbers of the atoms that may match the command, if they are known.
    pub(crate) number_set: Option<&'a NumberSet>,
    ghost covers: { (s : TheNumbers) → option_copied number_set ≡ Some s
        → lacks_command (λ n. not (set_has s.words n)) command.now ≡ true },
}

impl Subject for AsCommand<'_> {
    ghost fits = { λ s a. command_fits a s.command.now s.arguments.now };

    fn matches(&self, atom: &Atom) -> bool {
        command_matches(atom, self.command, self.arguments)
    }

    fn misses(&self, key: &Key) -> bool {
        match key {
            Key::Command(number) => match self.number_set {
                Some(number_set) => !number_set.has(*number),
                None => false,
            },
            _ => false,
        }
    }
}

/// The decision of a list: the sign of the last member of the written-out list that matches, and whether it is `ALL`.
#[derive(Clone, Copy)]
pub(crate) struct Decision {
    pub(crate) negated: bool,
    pub(crate) all: bool,
}

// Returns the decision of a member from that of its alias: with the opposite sign if the member is negated.
fn with_sign(found: Option<Decision>, negated: bool) -> Option<Decision>
    ensures { result ≡ option_map (negated_once negated) found }
{
    let decision = found?;
    Some(Decision {
        negated: if negated {
            !decision.negated
        } else {
            decision.negated
        },
        all: decision.all,
    })
}

/// Whether the atom is `ALL`.
pub(crate) fn is_all(atom: &Atom) -> bool
    ensures { result ≡ values.is_all atom.now }
{
    match atom {
        Atom::All => true,
        _ => false,
    }
}

/// Returns the sign of the last member of the written-out list that matches (true for allow), or `None` if none
/// matches.
pub(crate) fn value<S: Subject>(
    lists: Lists<'_>,
    kind: Kind,
    members: &[Member],
    keys: &[Key],
    subject: &S,
    aliases: Option<&Aliases>,
) -> Option<bool>
    requires keys { HaveKeys lists.checked.now kind keys.now members.now }
    requires resolves { IsTrue (resolves kind lists.checked.now members.now) }
    ensures { result ≡ values.value kind lists.entry.checked.now members.now (S.fits subject.now) }
{
    match decide_list(lists, kind, members, keys, subject, aliases) {
        Some(decision) => Some(!decision.negated),
        None => None,
    }
}

/// Returns the decision of a list, or `None` if no member matches. Decides each of `aliases` at most once.
pub(crate) fn decide_list<S: Subject>(
    lists: Lists<'_>,
    kind: Kind,
    members: &[Member],
    keys: &[Key],
    subject: &S,
    aliases: Option<&Aliases>,
) -> Option<Decision>
    requires keys { HaveKeys lists.checked.now kind keys.now members.now }
    requires resolves { IsTrue (resolves kind lists.checked.now members.now) }
    ensures { result ≡ list_decision kind lists.entry.checked.now members.now (S.fits subject.now) }
{
    match aliases {
        None => decide(lists, kind, members, keys, subject, None, &mut []),
        Some(aliases) => {
            let mut slots = [None; REMEMBERED];
            decide(
                lists,
                kind,
                members,
                keys,
                subject,
                Some(aliases.of_kind(kind)),
                &mut slots,
            )
        }
    }
}

/// Returns the decision of a list of one member, or `None` if it does not match. Decides each of `aliases` at most
/// once.
pub(crate) fn decide_one<S: Subject>(
    lists: Lists<'_>,
    kind: Kind,
    member: &Member,
    key: &Key,
    subject: &S,
    aliases: Option<&Aliases>,
) -> Option<Decision>
    requires key { IsKeyOf lists.checked.now kind key.now member.now.atom }
    requires resolves { IsTrue (resolves kind lists.checked.now (member.now ∷ [])) }
    ensures { result ≡ list_decision kind lists.entry.checked.now (member.now ∷ [])
        (S.fits subject.now) }
{
    if subject.misses(key) {
        return None;
    }
    match aliases {
        None => decide_member(lists, kind, member, key, subject, None, &mut []),
        Some(aliases) => {
            let mut slots = [None; REMEMBERED];
            decide_member(
                lists,
                kind,
                member,
                key,
                subject,
                Some(aliases.of_kind(kind)),
                &mut slots,
            )
        }
    }
}

// Returns the position after the last member before `end` that its key does not pass over, or 0 if there is none.
fn kept_before<S: Subject>(keys: &[Key], subject: S, end: usize) -> usize
    ensures within { result ≤ end }
    ensures passed { (i : ℕ) → result ≤ i → i < end
        → IsPassed (S.fits subject) (unwrap_or (slice_get keys.now i) Key.Other) }
{
    if keys.len() < end {
        return end;
    }
    let mut end = end;
    while end > 0 {
        let key = &keys[end - 1];
        if !subject.misses(key) {
            return end;
        }
        end -= 1;
    }
    0
}

// Returns the decision of the list: tries its members from the last to the first and stops at the first that matches.
// `keys` holds the keys of the members, if they are known, and `slots` the known decisions of aliases, by the numbers of
// the aliases.
#[cycle(deciding)]
fn decide<S: Subject>(
    lists: Lists<'_>,
    kind: Kind,
    members: &[Member],
    keys: &[Key],
    subject: &S,
    numbers: Option<&Numbers>,
    slots: &mut [Slot],
) -> Option<Decision>
    requires resolves { IsTrue (resolves kind lists.checked.now members.now) }
    requires keys { HaveKeys lists.checked.now kind keys.now members.now }
    requires recalls { Recalls kind lists.checked.now (option_copied numbers) (S.fits subject.now)
        slots.old }
    ensures value { result
        ≡ list_decision kind lists.entry.checked.now members.now (S.fits subject.now) }
    ensures recalls { Recalls kind lists.entry.checked.now (option_copied numbers.entry)
        (S.fits subject.now) slots.new }
{
    let mut end = members.len();
    loop {
        end = kept_before(keys, *subject, end);
        if end == 0 {
            return None;
        }
        end -= 1;
        let (member, key) = (&members[end], key_at(keys, end));
        let decided = decide_member(lists, kind, member, key, subject, numbers, slots);
        if decided.is_some() {
            return decided;
        }
    }
}

// Returns the decision of one member: its own, or that of its alias with the sign of the member.
#[cycle(deciding)]
fn decide_member<S: Subject>(
    lists: Lists<'_>,
    kind: Kind,
    member: &Member,
    key: &Key,
    subject: &S,
    numbers: Option<&Numbers>,
    slots: &mut [Slot],
) -> Option<Decision>
    requires key { IsKeyOf lists.checked.now kind key.now member.now.atom }
    requires resolves { IsTrue (resolves kind lists.checked.now (member.now ∷ [])) }
    requires recalls { Recalls kind lists.checked.now (option_copied numbers) (S.fits subject.now)
        slots.old }
    ensures value { result
        ≡ list_decision kind lists.entry.checked.now (member.now ∷ []) (S.fits subject.now) }
    ensures recalls { Recalls kind lists.entry.checked.now (option_copied numbers.entry)
        (S.fits subject.now)
        slots.new }
{
    match &member.atom {
        Atom::Alias(name) => {
            let position = lists.position(kind, name.as_slice(), key)?;
            let listed = lists.definition_at(kind, position)?;
            let number = number_of(numbers, name.as_slice());
            if let Some(known) = recall(slots, number) {
                return with_sign(known, is_negated(member));
            }
            let found = decide(
                lists,
                kind,
                listed.members,
                listed.keys,
                subject,
                numbers,
                slots,
            );
            remember(slots, number, found);
            with_sign(found, is_negated(member))
        }
        atom => {
            if subject.matches(atom) {
                Some(Decision {
                    negated: is_negated(member),
                    all: is_all(atom),
                })
            } else {
                None
            }
        }
    }
}
