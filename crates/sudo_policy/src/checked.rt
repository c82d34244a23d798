//! Checked policies.
ghost use Rattle.std.specs.Prelude.{◌≡◌, Some, None, List, option_copied, option_and_then, IfOk, IfErr, IfSome, IsTrue};
ghost use Rattle.sudo_policy.specs.Checking.{Passes};
ghost use Rattle.sudo_policy.specs.Definitions.{in_force};
ghost use Rattle.sudo_policy.specs.Positions.{members_at};
ghost use Rattle.sudo_policy.specs.Body.Positions.{IsIndex};
ghost use Rattle.sudo_policy.specs.Resolving.{resolves, IsSound};

use crate::index::{Index, Position, members_at};
use std::marker::Model;
use sudo_grammar::{Kind, Member, Policy};

/// A checked policy: none of its findings is an error. Contracts see the policy.
#[derive(Drop)]
pub struct Checked {
    policy: Policy,
    index: Index,
}

impl Model for Checked {
    ghost use Rattle.sudo_grammar.specs.declared.policy.Policy.{Policy};
    ghost use Rattle.sudo_policy.specs.Checking.{Passes};
    ghost use Rattle.sudo_policy.specs.Body.Positions.{IsIndex};
    ghost use Rattle.sudo_policy.specs.Resolving.{IsSound};

    ghost Value = { Policy };

    ghost view = { λ c. c.policy };

    ghost invariant = { λ c. IsIndex c.policy c.index × Passes c.policy × IsSound c.policy };
}

impl Checked {
    /// Creates a checked policy from a policy without errors and the index of its definitions.
    pub(crate) fn new(policy: Policy, index: Index) -> Checked
        requires index { IsIndex policy index }
        requires passes { Passes policy }
        requires sound { IsSound policy }
        ensures { result ≡ policy }
    {
        Checked { policy, index }
    }

    /// Returns the policy.
    pub fn policy(&self) -> &Policy
        ensures value { result.now ≡ self.now }
        ensures passes { Passes self.now }
        ensures sound { IsSound self.now }
    {
        &self.policy
    }

    /// Returns the list of the alias's definition in force, or `None` if there is none. Does not allocate.
    pub fn definition(&self, kind: Kind, name: &[u8]) -> Option<&[Member]>
        ensures value { option_copied result ≡ in_force kind self.now name.now }
        ensures resolves { IfSome result (λ members. IsTrue (resolves kind self.now members.now)) }
    {
        let position = self.index.position(kind, name)?;
        members_at(&self.policy, position)
    }

    /// Returns the position of the alias's definition in force. If there is none, returns `None` or a position at which
    /// [`Checked::members_at`] finds none. Does not allocate.
    pub fn position(&self, kind: Kind, name: &[u8]) -> Option<Position>
        ensures { in_force kind self.now name.now ≡ option_and_then (members_at self.now) result }
    {
        self.index.position(kind, name)
    }

    /// Returns the list of the definition at a position, or `None` if there is none. Does not allocate.
    pub fn members_at(&self, position: Position) -> Option<&[Member]>
        ensures { option_copied result ≡ members_at self.now position }
    {
        members_at(&self.policy, position)
    }
}
