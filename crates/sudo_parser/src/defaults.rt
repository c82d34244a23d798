//! Defaults lines: their bindings and their parameters.
ghost use Rattle.std.specs.Prelude.{◌≡◌, ◌^◌, ◌<◌, ◌==◌, drop, length, IfOk, IfErr, IfSome, MatchOption};
ghost use Rattle.sudo_grammar.specs.Openings.{is_direct, kind_of_mark, operator_of};
ghost use Rattle.sudo_grammar.specs.Faults.{Room};
ghost use Rattle.sudo_grammar.specs.Body.States.{DefaultsStart, bound_to};
ghost use Rattle.sudo_grammar.specs.Body.Reading.{reading};
ghost use Rattle.sudo_parser.specs.Body.Stops.{GivesEntry};
ghost use Rattle.sudo_parser.specs.Body.Defaults.{ReadsBinding, StopsInBinding, IsWordNext, IsWordMissing};
ghost use Rattle.sudo_parser.specs.Body.Defaults.{IsOperatorNext, IsNoOperatorNext, ReadsParameter, StopsInParameter};
ghost use Rattle.sudo_parser.specs.Body.Defaults.{ReadsParameters, StopsInParameters};
ghost use Rattle.sudo_parser.specs.Body.Unread.{tokens_left};

use crate::lists::members;
use crate::stops::{ParserStop, wants};
use crate::tokens::first_token;
use crate::unread::Unread;
use std::alloc::Global;
use sudo_grammar::{Binding, EntryBody, Expected, Kind, Member, Operator, Parameter};
use sudo_text::{Mark, Seq, Token, TokenKind};

// The length of `Defaults` in bytes: a mark that begins at this offset binds the line.
const DEFAULTS_LEN: u32 = 8;

// Returns the kind of list that a mark begins.
fn bound_kind(token: &TokenKind) -> Option<Kind>
    ensures { result ≡ kind_of_mark token.now }
{
    match token {
        TokenKind::Mark(Mark::At) => Some(Kind::Host),
        TokenKind::Mark(Mark::Colon) => Some(Kind::User),
        TokenKind::Mark(Mark::Bang) => Some(Kind::Cmnd),
        TokenKind::Mark(Mark::Greater) => Some(Kind::Runas),
        _ => None,
    }
}

// Returns the binding of a line to a list of a kind.
fn bound(kind: Kind, members: Seq<Member>) -> Binding
    ensures { result ≡ bound_to kind members }
{
    match kind {
        Kind::User => Binding::Users(members),
        Kind::Runas => Binding::Runas(members),
        Kind::Host => Binding::Hosts(members),
        Kind::Cmnd => Binding::Commands(members),
    }
}

// Reads the binding of a line, if any.
fn binding(alloc: Global, unread: &mut Unread) -> Result<Option<Binding>, ParserStop>
    requires { length (tokens_left unread.old) < 2 ^ 32 }
    ensures reads { IfOk result
        (λ b. ReadsBinding (tokens_left unread.old) b (tokens_left unread.new)) }
    ensures stops { IfErr result (StopsInBinding (tokens_left unread.old)) }
{
    let first = match first_token(unread.as_slice()) {
        Some((first, _)) => first,
        None => return Ok(None),
    };
    if first.start != DEFAULTS_LEN {
        return Ok(None);
    }
    let kind = match bound_kind(&first.kind) {
        Some(kind) => kind,
        None => return Err(wants(Expected::Parameter, unread.len())),
    };
    unread.skip(1);
    let members = members(alloc, kind, unread)?;
    Ok(Some(bound(kind, members)))
}

// Reads a word.
fn word(expected: Expected, unread: &mut Unread) -> Result<Token, ParserStop>
    ensures reads { IfOk result
        (λ w. IsWordNext (tokens_left unread.old) w (tokens_left unread.new)) }
    ensures stops { IfErr result (IsWordMissing expected (tokens_left unread.old)) }
{
    let left = unread.len();
    match unread.next() {
        Some(token) => {
            if matches!(&token.kind, TokenKind::Word { .. }) {
                Ok(token)
            } else {
                Err(wants(expected, left))
            }
        }
        None => Err(wants(expected, 0)),
    }
}

// Returns the operator that a mark denotes.
fn operator_named(token: &TokenKind) -> Option<Operator>
    ensures { result ≡ operator_of token.now }
{
    match token {
        TokenKind::Mark(Mark::Equals) => Some(Operator::Set),
        TokenKind::Mark(Mark::PlusEquals) => Some(Operator::Add),
        TokenKind::Mark(Mark::MinusEquals) => Some(Operator::Remove),
        _ => None,
    }
}

// Returns the operator that comes next, if any.
fn next_operator(tokens: &[Token]) -> Option<Operator>
    ensures operator { MatchOption result (IsNoOperatorNext tokens.now)
        (λ o. IsOperatorNext tokens.now o (drop 1 tokens.now)) }
    ensures some { IfSome result (λ _. 0 < length tokens.now) }
{
    match first_token(tokens) {
        Some((first, _)) => operator_named(&first.kind),
        None => None,
    }
}

// Reads a parameter.
fn parameter(unread: &mut Unread) -> Result<Parameter, ParserStop>
    requires { length (tokens_left unread.old) < 2 ^ 32 }
    ensures reads { IfOk result
        (λ x. ReadsParameter (tokens_left unread.old) x (tokens_left unread.new)) }
    ensures stops { IfErr result (StopsInParameter (tokens_left unread.old)) }
{
    let bangs = unread.take_bangs();
    let name = word(Expected::Parameter, unread)?;
    if bangs != 0 {
        return Ok(Parameter::Switch { bangs, name });
    }
    match next_operator(unread.as_slice()) {
        None => Ok(Parameter::Switch { bangs, name }),
        Some(operator) => {
            unread.skip(1);
            let value = word(Expected::Value, unread)?;
            Ok(Parameter::Assign {
                name,
                operator,
                value,
            })
        }
    }
}

// Reads the parameters of a line, up to its end.
fn parameters(alloc: Global, unread: &mut Unread) -> Result<Seq<Parameter>, ParserStop>
    requires { length (tokens_left unread.old) < 2 ^ 32 }
    ensures reads { IfOk result (ReadsParameters (tokens_left unread.old)) }
    ensures stops { IfErr result (StopsInParameters (tokens_left unread.old)) }
{
    let mut parameters = Seq::new(alloc);
    'parameters: loop {
        let parameter = parameter(unread)?;
        parameters.push(parameter)?;
        if !unread.take_mark(Mark::Comma) {
            return match unread.len() {
                0 => Ok(parameters),
                left => Err(wants(Expected::EndOfLine, left)),
            };
        }
    }
}

/// Reads a Defaults line, after its first word.
pub(crate) fn defaults(alloc: Global, unread: &mut Unread) -> Result<EntryBody, ParserStop>
    requires { length (tokens_left unread.old) < 2 ^ 32 }
    ensures { (room : Room)
        → GivesEntry result (reading room DefaultsStart (tokens_left unread.old)) }
{
    let binding = binding(alloc, unread)?;
    let parameters = parameters(alloc, unread)?;
    Ok(EntryBody::Defaults {
        binding,
        parameters,
    })
}
