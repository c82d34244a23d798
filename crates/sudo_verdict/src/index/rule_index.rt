//! An index of the rules of a policy by user and by command, for many requests.

ghost use Rattle.std.specs.Prelude.{ℕ, ◌≡◌, ◌+◌, ◌-◌, ◌*◌, ◌<◌, ◌≤◌, false, Option, None, Some, IfOk, map, take, length, slice_get};
ghost use Rattle.std.specs.Option.{option_or};
ghost use Rattle.sudo_grammar.specs.declared.policy.Entry.{Entry};
ghost use Rattle.sudo_verdict.specs.Last.{last_set};
ghost use Rattle.sudo_verdict.specs.Body.Blocks.{ListsCommand, ListsUser, StartsAt, both_have};
ghost use Rattle.sudo_verdict.specs.Body.Queries.{question};
ghost use Rattle.sudo_verdict.specs.Verdicts.{verdict_of};
ghost use Rattle.sudo_verdict.specs.Found.{entry_found};
ghost use Rattle.sudo_verdict.specs.Postings.{Indexes};

use crate::index::aliases::Aliases;
use crate::index::candidates::last_in_both_before;
use crate::index::keys::{Keys, Lists};
use crate::index::postings::{Budget, Postings};
use crate::index::request_numbers::RequestNumbers;
use crate::index::row_list::RowList;
use crate::index::rows::Rows;
use crate::query::{Query, query_of, with_numbers};
use crate::search::search_candidate;
use std::alloc::{AllocError, Global};
use std::marker::Model;
use sudo_match::{Directory, Request, Verdict};
use sudo_policy::Checked;

// The number of words, of 64 rules each, that are searched at a time.
const BLOCK: usize = 8;

/// An index of the rules of a policy that may decide for a user and for a command. Holds numbers and names of aliases,
/// but borrows nothing from the policy. Contracts see its rows.
#[derive(Drop)]
pub struct RuleIndex {
    users: Rows,
    commands: Rows,
    // The number of words before the first with a rule.
    start: usize,
    keys: Keys,
    aliases: Option<Aliases>,
}

impl Model for RuleIndex {
    ghost use Rattle.sudo_verdict.specs.Postings.{Index};
    ghost use Rattle.sudo_verdict.specs.Body.Blocks.{StartsAt};

    ghost Value = { Index };

    ghost view = { λ i. (i.users.rows.items, (i.commands.rows.items, i.keys.rows)) };

    ghost invariant = { λ i. StartsAt i.users.rows.items i.start };
}

impl RuleIndex {
    /// Returns the index of a policy, in time about linear in the user and command lists of its rules as written out.
    ///
    /// Returns `AllocError` if allocation fails.
    pub fn of(alloc: Global, checked: &Checked) -> Result<RuleIndex, AllocError>
        ensures { IfOk result (Indexes checked.now) }
    {
        RuleIndex::within(alloc, checked, Budget::standard())
    }

    /// Returns the same as `of`, within a budget: a smaller index finds more rules for a request, and the verdicts are the
    /// same.
    ///
    /// Returns `AllocError` if allocation fails.
    pub fn within(alloc: Global, checked: &Checked, budget: Budget) -> Result<RuleIndex, AllocError>
        ensures { IfOk result (Indexes checked.now) }
    {
        let postings = Postings::of(alloc, checked, budget)?;
        let start = postings
            .users
            .rows
            .start(checked.policy().entries.len() / 64);
        Ok(RuleIndex {
            start,
            users: postings.users.rows,
            commands: postings.commands.rows,
            keys: Keys::of(alloc, checked)?,
            aliases: Aliases::of(alloc, checked)?,
        })
    }

    // Returns the number of words before the first with a rule.
    fn start(&self) -> usize
        ensures { StartsAt self.now.0 result }
    {
        self.start
    }

    /// Returns the verdict on the request, as [`crate::verdict`] does, under the policy of this index. Searches only
    /// the rules that may decide for the user and the command. Does not allocate.
    pub fn verdict(&self, checked: &Checked, directory: &Directory, request: &Request) -> Verdict
        requires { Indexes checked.now self.now }
        ensures { result ≡ verdict_of checked.now directory.now request.now }
    {
        match query_of(directory, request, self.aliases.as_ref()) {
            Ok(query) => {
                let user = query.user;
                let mut numbers = RequestNumbers::new();
                numbers.add_user(&self.users, user.user, user.number());
                numbers.add_command(&self.commands, query.command.command);
                let query = with_numbers(query, &numbers.set);
                let lists = Lists {
                    checked,
                    keys: Some(&self.keys),
                };
                match search_indexed(lists, self, &query, &numbers.users, &numbers.commands) {
                    Some(verdict) => verdict,
                    None => Verdict::NoMatch,
                }
            }
            Err(what) => Verdict::Unknown(what),
        }
    }
}

// Returns the verdict of the last entry that decides, searching block by block from the end back.
fn search_indexed(
    lists: Lists<'_>,
    index: &RuleIndex,
    query: &Query<'_>,
    users: &RowList,
    commands: &RowList,
) -> Option<Verdict>
    requires index { Indexes lists.checked.now index.now }
    requires users { ListsUser index.now.0 users.now (question query.now).user }
    requires commands { ListsCommand index.now.1.0 commands.now (question query.now).command }
    ensures { result ≡ last_set (map (entry_found lists.entry.checked.now (question query.now))
        lists.entry.checked.now.entries) }
{
    let mut end = lists.checked.policy().entries.len();
    while end > 0 {
        let last = (end - 1) / 64;
        let start = index.start();
        if last < start {
            return None;
        }
        let first = (last / BLOCK * BLOCK).max(start);
        let found = search_block(lists, index, query, users, commands, first, end);
        if found.is_some() {
            return found;
        }
        end = 64 * first;
    }
    None
}

// Returns the verdict of the last entry that decides, of those before `end` in the block that begins at word `first`.
fn search_block(
    lists: Lists<'_>,
    index: &RuleIndex,
    query: &Query<'_>,
    users: &RowList,
    commands: &RowList,
    first: usize,
    end: usize,
) -> Option<Verdict>
    requires index { Indexes lists.checked.now index.now }
    requires users { ListsUser index.now.0 users.now (question query.now).user }
    requires commands { ListsCommand index.now.1.0 commands.now (question query.now).command }
    requires begins { 64 * first < end }
    requires block { end ≤ 64 * first + 512 }
    requires within { end ≤ length lists.checked.now.entries }
    ensures { last_set (map (entry_found lists.entry.checked.now (question query.now))
        (take end lists.entry.checked.now.entries))
        ≡ option_or result (last_set (map (entry_found lists.entry.checked.now (question query.now))
        (take (64 * first) lists.entry.checked.now.entries))) }
{
    let words = (end - 1) / 64 + 1 - first;
    let mut user_block = [0u64; BLOCK];
    let mut command_block = [0u64; BLOCK];
    users.add_to(&index.users, first, &mut user_block[..words]);
    commands.add_to(&index.commands, first, &mut command_block[..words]);
    search_candidates(
        lists,
        query,
        &user_block[..words],
        &command_block[..words],
        64 * first,
        end,
    )
}

// Returns the verdict of the last entry that decides, of those from `start` to before `end` that are in both blocks.
fn search_candidates(
    lists: Lists<'_>,
    query: &Query<'_>,
    users: &[u64],
    commands: &[u64],
    start: usize,
    end: usize,
) -> Option<Verdict>
    requires begins { start < end }
    requires within { end ≤ length lists.checked.now.entries }
    requires users { end ≤ start + 64 * length users.now }
    requires commands { end ≤ start + 64 * length commands.now }
    requires silent { (i : ℕ) (e : Entry) → start + i < end
        → slice_get lists.checked.now.entries (start + i) ≡ Some e
        → both_have users.now commands.now i ≡ false
        → entry_found lists.checked.now (question query.now) e ≡ None }
    ensures { last_set (map (entry_found lists.entry.checked.now (question query.now))
        (take end lists.entry.checked.now.entries))
        ≡ option_or result (last_set (map (entry_found lists.entry.checked.now (question query.now))
        (take start lists.entry.checked.now.entries))) }
{
    let entries = lists.checked.policy().entries.as_slice();
    let mut left = end - start;
    loop {
        left = last_in_both_before(users, commands, left);
        if left == 0 {
            return None;
        }
        left -= 1;
        let found = search_candidate(lists, query, &entries[start + left], start + left);
        if found.is_some() {
            return found;
        }
    }
}
