//! The parentheses before a command: the users and groups that it may be run as.
ghost use Rattle.std.specs.Prelude.{◌≡◌, ◌^◌, ◌<◌, length, IfOk, IfErr};
ghost use Rattle.sudo_parser.specs.Body.Runas.{ReadsUsers, StopsInUsers, ReadsGroups, StopsInGroups, ReadsLists, ReadsRunas, StopsInRunas};
ghost use Rattle.sudo_parser.specs.Body.Unread.{tokens_left};

use crate::lists::members;
use crate::stops::{ParserStop, wants};
use crate::tokens::is_next;
use crate::unread::Unread;
use std::alloc::Global;
use sudo_grammar::{Expected, Kind, Member, Runas};
use sudo_text::{Mark, Seq};

// Reads the users, if any.
fn runas_users(alloc: Global, unread: &mut Unread) -> Result<Option<Seq<Member>>, ParserStop>
    requires { length (tokens_left unread.old) < 2 ^ 32 }
    ensures reads { IfOk result
        (λ us. ReadsUsers (tokens_left unread.old) us (tokens_left unread.new)) }
    ensures stops { IfErr result (StopsInUsers (tokens_left unread.old)) }
{
    let tokens = unread.as_slice();
    if is_next(tokens, Mark::Colon) || is_next(tokens, Mark::RightParen) {
        return Ok(None);
    }
    let users = members(alloc, Kind::Runas, unread)?;
    Ok(Some(users))
}

// Reads the groups after the colon, if any.
fn runas_groups(alloc: Global, unread: &mut Unread) -> Result<Option<Seq<Member>>, ParserStop>
    requires { length (tokens_left unread.old) < 2 ^ 32 }
    ensures reads { IfOk result
        (λ gs. ReadsGroups (tokens_left unread.old) gs (tokens_left unread.new)) }
    ensures stops { IfErr result (StopsInGroups (tokens_left unread.old)) }
{
    if is_next(unread.as_slice(), Mark::RightParen) {
        return Ok(None);
    }
    let groups = members(alloc, Kind::Runas, unread)?;
    Ok(Some(groups))
}

// Reads the lists between the parentheses, up to the closing one.
fn runas_lists(alloc: Global, unread: &mut Unread) -> Result<Runas, ParserStop>
    requires { length (tokens_left unread.old) < 2 ^ 32 }
    ensures reads { IfOk result
        (λ r. ReadsLists (tokens_left unread.old) r (tokens_left unread.new)) }
    ensures stops { IfErr result (StopsInUsers (tokens_left unread.old)) }
{
    let users = runas_users(alloc, unread)?;
    if !unread.take_mark(Mark::Colon) {
        let groups = None;
        return Ok(Runas { users, groups });
    }
    let groups = runas_groups(alloc, unread)?;
    Ok(Runas { users, groups })
}

/// Reads the parentheses, if they come next.
pub(crate) fn runas(alloc: Global, unread: &mut Unread) -> Result<Option<Runas>, ParserStop>
    requires { length (tokens_left unread.old) < 2 ^ 32 }
    ensures reads { IfOk result
        (λ r. ReadsRunas (tokens_left unread.old) r (tokens_left unread.new)) }
    ensures stops { IfErr result (StopsInRunas (tokens_left unread.old)) }
{
    if !unread.take_mark(Mark::LeftParen) {
        return Ok(None);
    }
    let runas = runas_lists(alloc, unread)?;
    if unread.take_mark(Mark::RightParen) {
        Ok(Some(runas))
    } else {
        Err(wants(Expected::RightParen, unread.len()))
    }
}
