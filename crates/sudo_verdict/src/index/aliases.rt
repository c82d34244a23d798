//! Numbers of aliases, and the decisions of aliases that are remembered while a list is decided.
//!
//! Aliases that name several others may write out to very many members. So if some alias names more than one other,
//! the decision of each alias that others name is remembered while a list is decided.

ghost use Rattle.std.specs.Prelude.{ℕ, ◌≡◌, ◌⊎◌, Option, Some, None, IfSome, slice_get, option_copied};
ghost use Rattle.sudo_base.specs.NameIndices.{index_of};
ghost use Rattle.sudo_verdict.specs.declared.decision.Decision.{Decision as TheDecision};
ghost use Rattle.sudo_verdict.specs.Body.Recalling.{HasOneNamePerNumber, IsNumbering, IsOneToOne, number_in};

use crate::decision::Decision;
use std::alloc::{AllocError, Global};
use std::marker::Model;
use sudo_base::Names;
use sudo_policy::{Atom, Checked, Definition, EntryBody, Kind, Member};

/// The most aliases of a kind that are remembered: as many as a policy may define.
pub(crate) const REMEMBERED: usize = 4096;

/// The decision of an alias, if it is remembered.
pub(crate) type Slot = Option<Option<Decision>>;

/// Names of aliases, each with a number of its own.
#[derive(Drop)]
pub(crate) struct Numbers {
    names: Names,
}

impl Model for Numbers {
    ghost use Rattle.std.specs.Prelude.{List, ℕ};
    ghost use Rattle.sudo_verdict.specs.Body.Recalling.{IsOneToOne};

    ghost Value = { List (List ℕ × ℕ) };

    ghost view = { λ n. n.names };

    ghost invariant = { λ n. IsOneToOne n.names };
}

impl Numbers {
    // Wraps names that have numbers of their own.
    fn new(names: Names) -> Numbers
        requires { IsOneToOne names }
        ensures { result ≡ names }
    {
        Numbers { names }
    }

    /// Returns the number of a name, or `None` if it has none.
    pub(crate) fn get(&self, name: &[u8]) -> Option<usize>
        ensures value { result ≡ index_of self.now name.now }
        ensures apart { IsOneToOne self.now }
    {
        self.names.get(name)
    }
}

/// The aliases of each kind that other aliases name, with their numbers.
#[derive(Drop)]
pub(crate) struct Aliases {
    users: Numbers,
    runas: Numbers,
    hosts: Numbers,
    commands: Numbers,
}

// Assigns the next number to a name that has none. Returns `AllocError` if allocation fails.
fn add_name(
    alloc: Global,
    names: &mut Names,
    count: &mut usize,
    name: &[u8],
) -> Result<(), AllocError>
    requires { IsNumbering names.old count.old }
    ensures { IsNumbering names.new count.new }
{
    match names.get(name) {
        None if *count < usize::MAX => {
            names.insert(alloc, name, *count)?;
            *count += 1;
            Ok(())
        }
        _ => Ok(()),
    }
}

// Numbers the aliases that a list names. Returns `AllocError` if allocation fails.
fn add_members(
    alloc: Global,
    names: &mut Names,
    count: &mut usize,
    members: &[Member],
) -> Result<(), AllocError>
    requires { IsNumbering names.old count.old }
    ensures { IsNumbering names.new count.new }
{
    for member in members {
        if let Atom::Alias(name) = &member.atom {
            add_name(alloc, names, count, name.as_slice())?;
        }
    }
    Ok(())
}

// Numbers the aliases that definitions name. Returns `AllocError` if allocation fails.
fn add_definitions(
    alloc: Global,
    names: &mut Names,
    count: &mut usize,
    definitions: &[Definition],
) -> Result<(), AllocError>
    requires { IsNumbering names.old count.old }
    ensures { IsNumbering names.new count.new }
{
    for definition in definitions {
        add_members(alloc, names, count, definition.members.as_slice())?;
    }
    Ok(())
}

// Numbers the aliases that definitions of a kind name. Returns `AllocError` if allocation fails.
fn named(alloc: Global, checked: &Checked, wanted: Kind) -> Result<Numbers, AllocError> {
    let mut names = Names::new(alloc);
    let mut count = 0;
    for entry in checked.policy().entries.as_slice() {
        if let EntryBody::Aliases { kind, definitions } = &entry.body {
            if *kind == wanted {
                add_definitions(alloc, &mut names, &mut count, definitions.as_slice())?;
            }
        }
    }
    Ok(Numbers::new(names))
}

// Numbers the aliases that definitions of two kinds name. (Four owned values and as many `?` in one function take longer to
// prove.) Returns `AllocError` if allocation fails.
fn named_both(
    alloc: Global,
    checked: &Checked,
    one: Kind,
    other: Kind,
) -> Result<(Numbers, Numbers), AllocError> {
    let of_one = named(alloc, checked, one)?;
    let of_other = named(alloc, checked, other)?;
    Ok((of_one, of_other))
}

// Whether the list names more than one alias.
fn names_several(members: &[Member]) -> bool {
    let mut has_one = false;
    for member in members {
        if let Atom::Alias(_) = &member.atom {
            if has_one {
                return true;
            }
            has_one = true;
        }
    }
    false
}

// Whether some alias names more than one other: only then can an alias write out to more members than all aliases have
// together.
fn branches(checked: &Checked) -> bool {
    checked
        .policy()
        .entries
        .as_slice()
        .iter()
        .any(|entry| match &entry.body {
            EntryBody::Aliases { definitions, .. } => definitions
                .as_slice()
                .iter()
                .any(|definition| names_several(definition.members.as_slice())),
            _ => false,
        })
}

impl Aliases {
    /// Returns the aliases that others name, or `None` if no alias names more than one. Returns `AllocError` if
    /// allocation fails.
    pub(crate) fn of(alloc: Global, checked: &Checked) -> Result<Option<Aliases>, AllocError> {
        if !branches(checked) {
            return Ok(None);
        }
        let (users, runas) = named_both(alloc, checked, Kind::User, Kind::Runas)?;
        let (hosts, commands) = named_both(alloc, checked, Kind::Host, Kind::Cmnd)?;
        Ok(Some(Aliases {
            users,
            runas,
            hosts,
            commands,
        }))
    }

    /// Returns the numbers of the aliases of a kind.
    pub(crate) fn of_kind(&self, kind: Kind) -> &Numbers {
        match kind {
            Kind::User => &self.users,
            Kind::Runas => &self.runas,
            Kind::Host => &self.hosts,
            Kind::Cmnd => &self.commands,
        }
    }
}

/// Remembers the decision of the alias with this number, if it has a slot.
pub(crate) fn remember(slots: &mut [Slot], number: Option<usize>, found: Option<Decision>)
    ensures { (n : ℕ) (o : Option TheDecision) → slice_get slots.new n ≡ Some (Some o)
        → (slice_get slots.old n ≡ Some (Some o)) ⊎ ((number ≡ Some n) × (o ≡ found)) }
{
    let Some(number) = number else {
        return;
    };
    if number < slots.len() {
        slots[number] = Some(found);
    }
}

/// Returns the decision of the alias with this number, or `None` if it is not remembered.
pub(crate) fn recall(slots: &[Slot], number: Option<usize>) -> Option<Option<Decision>>
    ensures there { IfSome result (λ o. IfSome number (λ n. slice_get slots.now n
        ≡ Some (Some o))) }
    ensures numbered { number ≡ None → result ≡ None }
{
    *slots.get(number?)?
}

/// Returns the number of an alias, or `None` if aliases have no numbers or it has none.
pub(crate) fn number_of(numbers: Option<&Numbers>, name: &[u8]) -> Option<usize>
    ensures value { result ≡ number_in (option_copied numbers.entry) name.now }
    ensures apart { HasOneNamePerNumber (option_copied numbers.entry) }
{
    match numbers {
        Some(numbers) => numbers.get(name),
        None => None,
    }
}
