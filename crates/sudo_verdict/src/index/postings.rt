//! The rows of the rules of a policy, by user and by command.
//!
//! A list decides nothing for a user, or for a command, that has none of the numbers of its atoms. So a rule decides
//! nothing unless it is in a row of one of the user's numbers and in a row of one of the command's.

ghost use Rattle.std.specs.Prelude.{ℕ, ◌≡◌, ◌+◌, ◌<◌, true, false, Bool, None, [], ◌∷◌, IsTrue, IfOk, OnOk, length};
ghost use Rattle.std.specs.List.{list_all};
ghost use Rattle.sudo_grammar.specs.declared.kind.Atom.{Atom};
ghost use Rattle.sudo_grammar.specs.declared.kind.Kind.TheVariants as kind;
ghost use Rattle.sudo_policy.specs.Resolving.{resolves};
ghost use Rattle.sudo_policy.specs.Body.Resolving.{section_resolves, command_resolves};
ghost use Rattle.sudo_verdict.specs.Decided.{list_decision};
ghost use Rattle.sudo_verdict.specs.Postings.{Covers};
ghost use Rattle.sudo_verdict.specs.Body.Postings.{Grows};
ghost use Rattle.sudo_verdict.specs.Body.Silence.{IsSilent, CommandsSilent, SectionsSilent, EntrySilent};
ghost use Rattle.sudo_verdict.specs.Body.Resolved.{body_resolves};

use crate::index::numbers::{EVERYONE, atom_number};
use crate::index::rows::Rows;
use std::alloc::{AllocError, Global};
use sudo_policy::{Atom, Checked, CommandSpec, Entry, EntryBody, Kind, Member, Section};

/// How large an index may become. A smaller one finds more rules for a request; the verdicts are the same.
#[derive(Clone, Copy, Debug)]
pub struct Budget {
    /// The words, of 64 rules each, of the rows of users, and as many of those of commands. If a row for each number would
    /// need more, several numbers share a row.
    pub words: usize,
    /// The members of users' lists that are posted one by one, and as many of commands. A rule with further members is found
    /// by everyone.
    pub members: usize,
}

impl Budget {
    /// Returns the budget of an audit: 32 MiB of rows each, and 4,194,304 members each.
    pub fn standard() -> Budget
        ensures { result ≡ record { words = 4194304; members = 4194304 } }
    {
        Budget {
            words: 1 << 22,
            members: 1 << 22,
        }
    }
}

/// Rows to which rules are posted.
#[derive(Drop)]
pub(crate) struct Posting {
    pub(crate) rows: Rows,
    // The number of members that may still be posted one by one.
    left: usize,
}

impl Posting {
    // Creates empty rows for this many rules. Returns `AllocError` if allocation fails.
    fn new(alloc: Global, rules: usize, budget: Budget) -> Result<Posting, AllocError>
        ensures { IfOk result (λ r. 0 < length r.rows.rows.items) }
    {
        Ok(Posting {
            rows: Rows::new(alloc, rules, budget.words)?,
            left: budget.members,
        })
    }

    // Posts a rule under each atom of a list. Returns `AllocError` if allocation fails.
    #[cycle(posting)]
    fn post_members(
        &mut self,
        checked: &Checked,
        kind: Kind,
        members: &[Member],
        rule: usize,
    ) -> Result<(), AllocError>
        requires rows { 0 < length self.old.rows.rows.items }
        requires resolves { IsTrue (resolves kind checked.now members.now) }
        ensures count { length self.new.rows.rows.items ≡ length self.old.rows.rows.items }
        ensures grows { Grows self.old.rows.rows.items self.new.rows.rows.items }
        ensures covers { OnOk result ((test : Atom → Bool)
            → IsSilent self.new.rows.rows.items rule test
            → list_decision kind checked.now members.now test ≡ None) }
    {
        let mut left = members;
        while let Some((member, rest)) = left.split_last() {
            self.post_member(checked, kind, member, rule)?;
            left = rest;
        }
        Ok(())
    }

    // Posts a rule under a member of a list: under its atom, or under those of its alias. Returns `AllocError` if
    // allocation fails.
    #[cycle(posting)]
    fn post_member(
        &mut self,
        checked: &Checked,
        kind: Kind,
        member: &Member,
        rule: usize,
    ) -> Result<(), AllocError>
        requires rows { 0 < length self.old.rows.rows.items }
        requires resolves { IsTrue (resolves kind checked.now (member.now ∷ [])) }
        ensures count { length self.new.rows.rows.items ≡ length self.old.rows.rows.items }
        ensures grows { Grows self.old.rows.rows.items self.new.rows.rows.items }
        ensures covers { OnOk result ((test : Atom → Bool)
            → IsSilent self.new.rows.rows.items rule test
            → list_decision kind checked.now (member.now ∷ []) test ≡ None) }
    {
        if self.left == 0 {
            return self.rows.post(EVERYONE, rule);
        }
        self.left -= 1;
        match &member.atom {
            Atom::Alias(name) => match checked.definition(kind, name.as_slice()) {
                Some(members) => self.post_members(checked, kind, members, rule),
                None => Ok(()),
            },
            atom => self.rows.post(atom_number(atom), rule),
        }
    }

    // Posts a rule under each command of a section. Returns `AllocError` if allocation fails.
    fn post_commands(
        &mut self,
        checked: &Checked,
        commands: &[CommandSpec],
        rule: usize,
    ) -> Result<(), AllocError>
        requires rows { 0 < length self.old.rows.rows.items }
        requires resolves { IsTrue (list_all (command_resolves checked.now) commands.now) }
        ensures count { length self.new.rows.rows.items ≡ length self.old.rows.rows.items }
        ensures grows { Grows self.old.rows.rows.items self.new.rows.rows.items }
        ensures covers { OnOk result ((test : Atom → Bool)
            → IsSilent self.new.rows.rows.items rule test
            → CommandsSilent checked.now test commands.now) }
    {
        let mut left = commands;
        while let Some((spec, rest)) = left.split_last() {
            self.post_member(checked, Kind::Cmnd, &spec.command, rule)?;
            left = rest;
        }
        Ok(())
    }

    // Posts a rule under each command of its sections. Returns `AllocError` if allocation fails.
    fn post_sections(
        &mut self,
        checked: &Checked,
        sections: &[Section],
        rule: usize,
    ) -> Result<(), AllocError>
        requires rows { 0 < length self.old.rows.rows.items }
        requires resolves { IsTrue (list_all (section_resolves checked.now) sections.now) }
        ensures count { length self.new.rows.rows.items ≡ length self.old.rows.rows.items }
        ensures grows { Grows self.old.rows.rows.items self.new.rows.rows.items }
        ensures covers { OnOk result ((test : Atom → Bool)
            → IsSilent self.new.rows.rows.items rule test
            → SectionsSilent checked.now test sections.now) }
    {
        let mut left = sections;
        while let Some((section, rest)) = left.split_last() {
            self.post_commands(checked, section.commands.as_slice(), rule)?;
            left = rest;
        }
        Ok(())
    }
}

/// The rows by user, and those by command.
#[derive(Drop)]
pub(crate) struct Postings {
    pub(crate) users: Posting,
    pub(crate) commands: Posting,
}

impl Postings {
    // Posts an entry if it is a rule. Returns `AllocError` if allocation fails.
    fn post_entry(
        &mut self,
        checked: &Checked,
        entry: &Entry,
        rule: usize,
    ) -> Result<(), AllocError>
        requires users { 0 < length self.old.users.rows.rows.items }
        requires commands { 0 < length self.old.commands.rows.rows.items }
        requires resolves { IsTrue (body_resolves checked.now entry.now.body) }
        ensures users { length self.new.users.rows.rows.items
            ≡ length self.old.users.rows.rows.items }
        ensures commands { length self.new.commands.rows.rows.items
            ≡ length self.old.commands.rows.rows.items }
        ensures users_grow { Grows self.old.users.rows.rows.items self.new.users.rows.rows.items }
        ensures commands_grow { Grows self.old.commands.rows.rows.items
            self.new.commands.rows.rows.items }
        ensures covers { OnOk result (EntrySilent checked.now self.new.users.rows.rows.items
            self.new.commands.rows.rows.items rule entry.now) }
    {
        match &entry.body {
            EntryBody::Rule { users, sections } => {
                self.users
                    .post_members(checked, Kind::User, users.as_slice(), rule)?;
                self.commands
                    .post_sections(checked, sections.as_slice(), rule)
            }
            _ => Ok(()),
        }
    }

    /// Creates the rows of a policy. Returns `AllocError` if allocation fails.
    pub(crate) fn of(
        alloc: Global,
        checked: &Checked,
        budget: Budget,
    ) -> Result<Postings, AllocError>
        ensures users { IfOk result (λ all. 0 < length all.users.rows.rows.items) }
        ensures commands { IfOk result (λ all. 0 < length all.commands.rows.rows.items) }
        ensures covers { IfOk result (λ all. Covers checked.now (length checked.now.entries)
            all.users.rows.rows.items all.commands.rows.rows.items) }
    {
        let entries = checked.policy().entries.as_slice();
        let mut all = Postings {
            users: Posting::new(alloc, entries.len(), budget)?,
            commands: Posting::new(alloc, entries.len(), budget)?,
        };
        for (rule, entry) in entries.iter().enumerate() {
            all.post_entry(checked, entry, rule)?;
        }
        Ok(all)
    }
}
