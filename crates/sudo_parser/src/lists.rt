//! Lists of members.
ghost use Rattle.std.specs.Prelude.{◌≡◌, ◌^◌, ◌<◌, length, IfOk, IfErr};
ghost use Rattle.sudo_grammar.specs.Refusals as refusals;
ghost use Rattle.sudo_parser.specs.Body.Stops.{IsNotNext};
ghost use Rattle.sudo_parser.specs.Body.Lists.{option_begins, IsTaken, StopsAtMember, ReadsItem, StopsInItem};
ghost use Rattle.sudo_parser.specs.Body.Lists.{ReadsItems, StopsInItems, stop_of_member};
ghost use Rattle.sudo_parser.specs.Body.Unread.{tokens_left};

use crate::likely::{empty_list, likely_members};
use crate::members::{MemberFault, atom, expected};
use crate::stops::{ParserStop, wants};
use crate::tokens::{colon_comes, colon_comes_at, equals_comes};
use crate::unread::Unread;
use crate::words::{is_digest, is_option, is_percent};
use std::alloc::Global;
use sudo_grammar::{Kind, Member, Refusal, Unsupported};
use sudo_text::{Mark, Seq, Token};

// Returns the refusal of a token, or the one that the next token decides: `%` with a colon directly after it is a
// non-Unix group, and the name of a digest with a colon after it is a digest.
fn renamed(kind: Kind, token: &Token, rest: &[Token], refusal: Refusal) -> Refusal
    ensures { result ≡ refusals.with_next kind token.now rest.now refusal }
{
    match kind {
        Kind::Cmnd => {
            if is_digest(&token.kind) && colon_comes(rest) {
                Refusal::Unsupported(Unsupported::Digest)
            } else {
                refusal
            }
        }
        Kind::Host => refusal,
        Kind::User | Kind::Runas => {
            if is_percent(&token.kind) && colon_comes_at(token.end, rest) {
                Refusal::Unsupported(Unsupported::NonUnixGroup)
            } else {
                refusal
            }
        }
    }
}

// Returns the stop at a token that is no member, with `left` tokens from it on.
fn member_stop(
    kind: Kind,
    token: &Token,
    rest: &[Token],
    why: MemberFault,
    left: usize,
) -> ParserStop
    ensures { result ≡ stop_of_member kind token.now rest.now why left }
{
    match why {
        MemberFault::Refused(refusal) => ParserStop::At {
            refusal: renamed(kind, token, rest, refusal),
            left,
        },
        MemberFault::Memory => ParserStop::Memory,
    }
}

// Whether a token among commands is an option: its name, with an equals sign after it.
fn begins_option(kind: Kind, token: &Token, rest: &[Token]) -> bool
    ensures { result ≡ option_begins kind token.now rest.now }
{
    match kind {
        Kind::Cmnd => is_option(&token.kind) && equals_comes(rest),
        _ => false,
    }
}

// Reads the next token as a member after `bangs` exclamation marks.
fn member(alloc: Global, kind: Kind, bangs: u32, unread: &mut Unread) -> Result<Member, ParserStop>
    requires { IsNotNext Mark.Bang (tokens_left unread.old) }
    ensures reads { IfOk result
        (λ m. IsTaken kind bangs (tokens_left unread.old) m (tokens_left unread.new)) }
    ensures stops { IfErr result (StopsAtMember kind bangs (tokens_left unread.old)) }
{
    let left = unread.len();
    match unread.next() {
        None => Err(wants(expected(kind), 0)),
        Some(token) => {
            let rest = unread.as_slice();
            let atom = match atom(alloc, kind, &token.kind) {
                Ok(atom) => atom,
                Err(e) => return Err(member_stop(kind, &token, rest, e, left)),
            };
            if begins_option(kind, &token, rest) {
                return Err(ParserStop::At {
                    refusal: Refusal::Unsupported(Unsupported::CommandOption),
                    left: rest.len(),
                });
            }
            Ok(Member { bangs, token, atom })
        }
    }
}

/// Reads one member with the exclamation marks before it.
pub(crate) fn item(alloc: Global, kind: Kind, unread: &mut Unread) -> Result<Member, ParserStop>
    requires { length (tokens_left unread.old) < 2 ^ 32 }
    ensures reads { IfOk result
        (λ m. ReadsItem kind (tokens_left unread.old) m (tokens_left unread.new)) }
    ensures stops { IfErr result (StopsInItem kind (tokens_left unread.old)) }
{
    let bangs = unread.take_bangs();
    member(alloc, kind, bangs, unread)
}

/// Reads a list of a kind.
pub(crate) fn members(
    alloc: Global,
    kind: Kind,
    unread: &mut Unread,
) -> Result<Seq<Member>, ParserStop>
    requires { length (tokens_left unread.old) < 2 ^ 32 }
    ensures reads { IfOk result
        (λ ms. ReadsItems kind (tokens_left unread.old) ms (tokens_left unread.new)) }
    ensures stops { IfErr result (StopsInItems kind (tokens_left unread.old)) }
{
    let mut members = empty_list(alloc, likely_members(unread.as_slice()))?;
    'items: loop {
        let member = item(alloc, kind, unread)?;
        members.push(member)?;
        if !unread.take_mark(Mark::Comma) {
            return Ok(members);
        }
    }
}
