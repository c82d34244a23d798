//! The verdict by a search back from the last grant, which stops at the first that applies and does not allocate.

ghost use Rattle.std.specs.Prelude.{◌≡◌, true, false, ◌++◌, ◌∷◌, [], IsTrue, Option, map, length, Some, slice_get, option_copied};
ghost use Rattle.std.specs.List.{list_all};
ghost use Rattle.sudo_policy.specs.Body.Resolving.{section_resolves, command_resolves};
ghost use Rattle.sudo_grammar.specs.declared.kind.Kind.{Kind as TheKind};
ghost use Rattle.sudo_verdict.specs.Keys.{Pairwise, IsKeyOf, HaveKeys, HaveCommandKeys, HaveSectionKeys};
ghost use Rattle.sudo_verdict.specs.Last.{last_set};
ghost use Rattle.sudo_verdict.specs.Tagged.{runas_before, tags_before};
ghost use Rattle.sudo_verdict.specs.RunasForms.{runas_allows};
ghost use Rattle.sudo_verdict.specs.Body.Queries.{question};
ghost use Rattle.sudo_verdict.specs.Verdicts.{verdict_of};
ghost use Rattle.sudo_verdict.specs.Body.Resolved.{body_resolves};
ghost use Rattle.sudo_verdict.specs.Found.{verdict_from, command_found, commands_found, section_found, entry_found};

use crate::decision::{Decision, decide_one};
use crate::index::key::{Key, SectionKeys, key_at};
use crate::index::keys::{Lists, SectionLists, section_at};
use crate::query::{Query, query_of};
use crate::tags::{tags_before_end, tags_given};
use sudo_match::{Directory, Request, Verdict};
use sudo_policy::{Checked, CommandSpec, Entry, EntryBody, Kind, Runas, Section};
use sudo_text::Place;

/// Returns the verdict on the request: the first unknown name of the user, the host, the target and the group;
/// otherwise the verdict of the last grant of the policy that applies; otherwise `NoMatch`. Does not allocate.
///
/// sudoers(5): "Where there are multiple matches, the last match is used". The definition is about written-out lists;
/// the law [`sudo_policy::lists_are_written`] states that each list of a checked policy has a written form.
pub fn verdict<'a>(checked: &Checked, directory: &'a Directory, request: &'a Request) -> Verdict
    ensures { result ≡ verdict_of checked.now directory.now request.now }
{
    match query_of(directory, request, None) {
        Ok(query) => {
            let lists = Lists {
                checked,
                keys: None,
            };
            match search(lists, &query) {
                Some(verdict) => verdict,
                None => Verdict::NoMatch,
            }
        }
        Err(what) => Verdict::Unknown(what),
    }
}

fn search(lists: Lists<'_>, query: &Query<'_>) -> Option<Verdict>
    ensures { result ≡ last_set (map (entry_found lists.entry.checked.now (question query.now))
        lists.entry.checked.now.entries) }
{
    let policy = lists.checked.policy();
    let mut left = policy.entries.as_slice();
    while let Some((entry, rest)) = left.split_last() {
        if let Some(verdict) = search_entry(lists, query, entry) {
            return Some(verdict);
        }
        left = rest;
    }
    None
}

/// Returns the verdict of the last grant of the entry that applies, or `None`.
#[tactic(auto, unfolding(crate::specs::Found::rule_found))]
pub(crate) fn search_entry(lists: Lists<'_>, query: &Query<'_>, entry: &Entry) -> Option<Verdict>
    requires { IsTrue (body_resolves lists.checked.now entry.now.body) }
    ensures { result ≡ entry_found lists.entry.checked.now (question query.now) entry.now }
{
    match &entry.body {
        EntryBody::Rule { users, sections } => {
            if query.user_listed(lists, users.as_slice(), &[]) {
                search_sections(lists, query, entry.place, sections.as_slice(), &[])
            } else {
                None
            }
        }
        _ => None,
    }
}

/// Returns the same as `search_entry`, for the entry at an index. Decides the user list last: an index has found the entry
/// by its user list, which then mostly allows the user.
#[tactic(auto, unfolding(crate::specs::Found::rule_found))]
pub(crate) fn search_candidate(
    lists: Lists<'_>,
    query: &Query<'_>,
    entry: &Entry,
    index: usize,
) -> Option<Verdict>
    requires resolves { IsTrue (body_resolves lists.checked.now entry.now.body) }
    requires there { slice_get lists.checked.now.entries index ≡ Some entry.now }
    ensures { result ≡ entry_found lists.entry.checked.now (question query.now) entry.now }
{
    match &entry.body {
        EntryBody::Rule { users, sections } => {
            let keys = lists.rule_keys(index);
            let sections = sections.as_slice();
            let found = search_sections(lists, query, entry.place, sections, keys.sections)?;
            if query.user_listed(lists, users.as_slice(), keys.users) {
                Some(found)
            } else {
                None
            }
        }
        _ => None,
    }
}

fn search_sections(
    lists: Lists<'_>,
    query: &Query<'_>,
    place: Place,
    sections: &[Section],
    keys: &[SectionKeys],
) -> Option<Verdict>
    requires keys { Pairwise (HaveSectionKeys lists.checked.now) keys.now sections.now }
    requires resolves { IsTrue (list_all (section_resolves lists.checked.now) sections.now) }
    ensures { result ≡ last_set (map (section_found lists.entry.checked.now
        (question query.now) place)
        sections.now) }
{
    let mut left = sections;
    while let Some((section, rest)) = left.split_last() {
        let keys = section_at(keys, rest.len());
        if let Some(verdict) = search_section(lists, query, place, section, keys) {
            return Some(verdict);
        }
        left = rest;
    }
    None
}

#[tactic(auto, unfolding(crate::specs::Found::section_found))]
fn search_section(
    lists: Lists<'_>,
    query: &Query<'_>,
    place: Place,
    section: &Section,
    keys: SectionLists<'_>,
) -> Option<Verdict>
    requires hosts { HaveKeys lists.checked.now TheKind.Host keys.hosts.now section.now.hosts }
    requires commands { HaveCommandKeys lists.checked.now keys.commands.now section.now.commands }
    requires resolves { IsTrue (section_resolves lists.checked.now section.now) }
    ensures { result ≡ section_found lists.entry.checked.now
        (question query.now) place section.now }
{
    if query.host_listed(lists, section.hosts.as_slice(), keys.hosts) {
        search_places(
            lists,
            query,
            place,
            section.commands.as_slice(),
            keys.commands,
        )
    } else {
        None
    }
}

fn search_places(
    lists: Lists<'_>,
    query: &Query<'_>,
    place: Place,
    commands: &[CommandSpec],
    keys: &[Key],
) -> Option<Verdict>
    requires keys { HaveCommandKeys lists.checked.now keys.now commands.now }
    requires resolves { IsTrue (list_all (command_resolves lists.checked.now) commands.now) }
    ensures { result ≡ commands_found lists.entry.checked.now
        (question query.now) place commands.now
        (length commands.now) }
{
    let mut refused = false;
    let mut left = commands;
    while let Some((spec, rest)) = left.split_last() {
        let key = key_at(keys, rest.len());
        let examined = search_command(lists, query, place, left, spec, key, refused);
        if let Some(verdict) = examined.verdict {
            return Some(verdict);
        }
        refused = examined.refused & spec.runas.is_none();
        left = rest;
    }
    None
}

// The result of the search at a command.
#[derive(Clone, Copy)]
struct Examined {
    verdict: Option<Verdict>,
    // Whether the command's runas is known not to allow the request. The commands before it that share the runas are
    // then skipped.
    refused: bool,
}

// Judges `spec`, the last of `commands`, by its key. `refused`: its runas is known not to allow the request.
#[tactic(auto, unfolding(crate::specs::Found::command_found))]
fn search_command(
    lists: Lists<'_>,
    query: &Query<'_>,
    place: Place,
    commands: &[CommandSpec],
    spec: &CommandSpec,
    key: &Key,
    refused: bool,
) -> Examined
    requires key { IsKeyOf lists.checked.now TheKind.Cmnd key.now spec.now.command.atom }
    requires all { IsTrue (list_all (command_resolves lists.checked.now) commands.now) }
    requires last { IsTrue (command_resolves lists.checked.now spec.now) }
    requires refused { refused ≡ true → runas_allows lists.checked.now (question query.now)
        (runas_before commands.now) ≡ false }
    ensures verdict { result.verdict ≡ command_found lists.entry.checked.now
        (question query.now) place commands.now spec.now }
    ensures refused { result.refused
        ≡ true → runas_allows lists.entry.checked.now (question query.now)
        (runas_before commands.now) ≡ false }
{
    if refused {
        return Examined {
            verdict: None,
            refused,
        };
    }
    let Some(decision) = decide_one(
        lists,
        Kind::Cmnd,
        &spec.command,
        key,
        &query.command,
        query.aliases,
    ) else {
        return Examined {
            verdict: None,
            refused,
        };
    };
    if query.runas_allows(lists, runas_before_end(commands)) {
        Examined {
            verdict: Some(verdict_at(place, commands, decision)),
            refused,
        }
    } else {
        Examined {
            verdict: None,
            refused: true,
        }
    }
}

/// Returns the verdict at the last of these commands: deny if the decision is negated, otherwise allow with the tags
/// that are in force there.
pub(crate) fn verdict_at(place: Place, commands: &[CommandSpec], decision: Decision) -> Verdict
    ensures { result ≡ verdict_from place (tags_before commands.now) decision }
{
    if decision.negated {
        Verdict::Deny { place }
    } else {
        Verdict::Allow {
            place,
            tags: tags_given(tags_before_end(commands), decision.all),
        }
    }
}

/// Returns the runas named last among these commands, or `None`. Searches from the last command back.
pub fn runas_before_end(commands: &[CommandSpec]) -> Option<&Runas>
    ensures { option_copied result ≡ runas_before commands.now }
{
    let mut left = commands;
    while let Some((spec, rest)) = left.split_last() {
        if let Some(runas) = &spec.runas {
            return Some(runas);
        }
        left = rest;
    }
    None
}
