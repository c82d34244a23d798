//! Rules: who may run which commands on which hosts.
ghost use Rattle.std.specs.Prelude.{◌≡◌, ◌^◌, ◌<◌, ◌≤◌, [], drop, length, IfSome, IfOk, IfErr, MatchOption};
ghost use Rattle.sudo_grammar.specs.Faults.{Room};
ghost use Rattle.sudo_grammar.specs.Body.States.{Users, Item};
ghost use Rattle.sudo_grammar.specs.Body.Reading.{reading};
ghost use Rattle.sudo_parser.specs.Body.Stops.{GivesEntry};
ghost use Rattle.sudo_parser.specs.Body.Rules.{IsTagNext, IsNoTagNext, ReadsTags, ReadsSpec, StopsInSpec, ReadsSpecs};
ghost use Rattle.sudo_parser.specs.Body.Rules.{StopsInSpecs, ReadsSection, StopsInSection, ReadsSections};
ghost use Rattle.sudo_parser.specs.Body.Rules.{StopsInSections};
ghost use Rattle.sudo_parser.specs.Body.Unread.{tokens_left};

use crate::likely::{empty_list, likely_commands, likely_parts};
use crate::lists::{item, members};
use crate::runas::runas;
use crate::stops::{ParserStop, wants};
use crate::tokens::{first_token, is_next};
use crate::unread::Unread;
use crate::words::tag;
use std::alloc::{AllocError, Global};
use sudo_grammar::{CommandSpec, EntryBody, Expected, Kind, Section, Tag};
use sudo_text::{Mark, Seq, Token};

// Returns the tag that comes next with a colon after it, if any.
fn next_tag(alloc: Global, tokens: &[Token]) -> Result<Option<Tag>, AllocError>
    ensures tag { IfOk result (λ r. MatchOption r (IsNoTagNext tokens.now)
        (λ tag. IsTagNext tokens.now tag (drop 2 tokens.now))) }
    ensures some { IfOk result (λ r. IfSome r (λ _. 2 ≤ length tokens.now)) }
{
    let (first, rest) = match first_token(tokens) {
        Some(found) => found,
        None => return Ok(None),
    };
    if !is_next(rest, Mark::Colon) {
        return Ok(None);
    }
    tag(alloc, &first.kind)
}

// Reads the tags that come next.
fn tags(alloc: Global, unread: &mut Unread) -> Result<Seq<Tag>, AllocError>
    ensures { IfOk result
        (λ tags. ReadsTags (tokens_left unread.old) tags (tokens_left unread.new)) }
{
    let mut tags = Seq::new(alloc);
    'tags: loop {
        match next_tag(alloc, unread.as_slice())? {
            Some(tag) => {
                unread.skip(2);
                tags.push(tag)?;
            }
            None => return Ok(tags),
        }
    }
}

// Reads a command with its runas and tags.
fn spec(alloc: Global, unread: &mut Unread) -> Result<CommandSpec, ParserStop>
    requires { length (tokens_left unread.old) < 2 ^ 32 }
    ensures reads { IfOk result
        (λ s. ReadsSpec (tokens_left unread.old) s (tokens_left unread.new)) }
    ensures stops { IfErr result (StopsInSpec (tokens_left unread.old)) }
{
    let runas = runas(alloc, unread)?;
    let tags = tags(alloc, unread)?;
    let command = item(alloc, Kind::Cmnd, unread)?;
    Ok(CommandSpec {
        runas,
        tags,
        command,
    })
}

// Reads the commands of a section.
fn specs(alloc: Global, unread: &mut Unread) -> Result<Seq<CommandSpec>, ParserStop>
    requires { length (tokens_left unread.old) < 2 ^ 32 }
    ensures reads { IfOk result
        (λ cs. ReadsSpecs (tokens_left unread.old) cs (tokens_left unread.new)) }
    ensures stops { IfErr result (StopsInSpecs (tokens_left unread.old)) }
{
    let mut specs = empty_list(alloc, likely_commands(unread.as_slice()))?;
    'specs: loop {
        let spec = spec(alloc, unread)?;
        specs.push(spec)?;
        if !unread.take_mark(Mark::Comma) {
            return Ok(specs);
        }
    }
}

// Reads a section: a list of hosts and the commands granted there.
fn section(alloc: Global, unread: &mut Unread) -> Result<Section, ParserStop>
    requires { length (tokens_left unread.old) < 2 ^ 32 }
    ensures reads { IfOk result
        (λ s. ReadsSection (tokens_left unread.old) s (tokens_left unread.new)) }
    ensures stops { IfErr result (StopsInSection (tokens_left unread.old)) }
{
    let hosts = members(alloc, Kind::Host, unread)?;
    if !unread.take_mark(Mark::Equals) {
        return Err(wants(Expected::Equals, unread.len()));
    }
    let commands = specs(alloc, unread)?;
    Ok(Section { hosts, commands })
}

// Reads the sections of a rule, up to the end of its line.
fn sections(alloc: Global, unread: &mut Unread) -> Result<Seq<Section>, ParserStop>
    requires { length (tokens_left unread.old) < 2 ^ 32 }
    ensures reads { IfOk result (ReadsSections (tokens_left unread.old)) }
    ensures stops { IfErr result (StopsInSections (tokens_left unread.old)) }
{
    let mut sections = empty_list(alloc, likely_parts(unread.as_slice()))?;
    'sections: loop {
        let section = section(alloc, unread)?;
        sections.push(section)?;
        if !unread.take_mark(Mark::Colon) {
            return match unread.len() {
                0 => Ok(sections),
                left => Err(wants(Expected::EndOfLine, left)),
            };
        }
    }
}

/// Reads a rule: its users and its sections.
pub(crate) fn rule(alloc: Global, unread: &mut Unread) -> Result<EntryBody, ParserStop>
    requires { length (tokens_left unread.old) < 2 ^ 32 }
    ensures { (room : Room)
        → GivesEntry result (reading room (Item Users 0 []) (tokens_left unread.old)) }
{
    let users = members(alloc, Kind::User, unread)?;
    let sections = sections(alloc, unread)?;
    Ok(EntryBody::Rule { users, sections })
}
