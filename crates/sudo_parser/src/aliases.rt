//! Definitions of aliases.
ghost use Rattle.std.specs.Prelude.{◌≡◌, ◌^◌, ◌<◌, [], length, IfOk, IfErr};
ghost use Rattle.sudo_grammar.specs.Faults.{Room};
ghost use Rattle.sudo_grammar.specs.Body.States.{AliasName};
ghost use Rattle.sudo_grammar.specs.Body.Reading.{reading};
ghost use Rattle.sudo_parser.specs.Body.Stops.{GivesEntry};
ghost use Rattle.sudo_parser.specs.Body.Aliases.{ReadsName, StopsInName, ReadsDefinition, StopsInDefinition};
ghost use Rattle.sudo_parser.specs.Body.Unread.{tokens_left};

use crate::likely::{empty_list, likely_parts};
use crate::lists::members;
use crate::stops::{ParserStop, wants};
use crate::unread::Unread;
use crate::words::name;
use std::alloc::Global;
use sudo_grammar::{Definition, EntryBody, Expected, Kind, Refusal};
use sudo_text::{Mark, Seq};

// Reads the name of a definition. Refuses any name if `is_full`: the limit of its kind is reached.
fn definition_name(alloc: Global, is_full: bool, unread: &mut Unread) -> Result<Seq<u8>, ParserStop>
    ensures reads { IfOk result
        (λ w. ReadsName is_full (tokens_left unread.old) w (tokens_left unread.new)) }
    ensures stops { IfErr result (StopsInName is_full (tokens_left unread.old)) }
{
    let left = unread.len();
    match unread.next() {
        None => Err(wants(Expected::AliasName, 0)),
        Some(token) => match name(alloc, &token.kind)? {
            None => Err(wants(Expected::AliasName, left)),
            Some(name) => {
                if is_full {
                    return Err(ParserStop::At {
                        refusal: Refusal::TooMany,
                        left,
                    });
                }
                Ok(name)
            }
        },
    }
}

// Reads the definition of an alias.
fn definition(
    alloc: Global,
    kind: Kind,
    is_full: bool,
    unread: &mut Unread,
) -> Result<Definition, ParserStop>
    requires { length (tokens_left unread.old) < 2 ^ 32 }
    ensures reads { IfOk result
        (λ d. ReadsDefinition kind is_full (tokens_left unread.old) d (tokens_left unread.new)) }
    ensures stops { IfErr result (StopsInDefinition kind is_full (tokens_left unread.old)) }
{
    let name = definition_name(alloc, is_full, unread)?;
    if !unread.take_mark(Mark::Equals) {
        return Err(wants(Expected::Equals, unread.len()));
    }
    let members = members(alloc, kind, unread)?;
    Ok(Definition { name, members })
}

/// Reads the definitions of a line, after its keyword. At most `limit` of them are allowed.
pub(crate) fn aliases(
    alloc: Global,
    kind: Kind,
    limit: u32,
    unread: &mut Unread,
) -> Result<EntryBody, ParserStop>
    requires { length (tokens_left unread.old) < 2 ^ 32 }
    ensures { (room : Room) → room kind ≡ limit
        → GivesEntry result (reading room (AliasName kind []) (tokens_left unread.old)) }
{
    let mut definitions = empty_list(alloc, likely_parts(unread.as_slice()))?;
    'definitions: loop {
        let is_full = limit as usize <= definitions.len();
        let definition = definition(alloc, kind, is_full, unread)?;
        definitions.push(definition)?;
        if !unread.take_mark(Mark::Colon) {
            return match unread.len() {
                0 => Ok(EntryBody::Aliases { kind, definitions }),
                left => Err(wants(Expected::EndOfLine, left)),
            };
        }
    }
}
