//! The next tokens of a line.
ghost use Rattle.std.specs.Prelude.{◌≡◌, ◌^◌, ◌<◌, ◌≤◌, ◌↔◌, false, [], ◌∷◌, drop, length, IsTrue, MatchOption};
ghost use Rattle.sudo_grammar.specs.Refusals as refusals;
ghost use Rattle.sudo_parser.specs.Body.Stops.{IsMark, IsNotNext, IsNext};
ghost use Rattle.sudo_parser.specs.Body.Lists.{ReadsBangs};

use sudo_text::{Mark, Token, TokenKind};

pub(crate) fn is_mark(token: &Token, mark: Mark) -> bool
    ensures { IsTrue result ↔ IsMark mark token.now }
{
    match &token.kind {
        TokenKind::Mark(found) => *found == mark,
        _ => false,
    }
}

/// Splits off the first token.
pub(crate) fn first_token(tokens: &[Token]) -> Option<(&Token, &[Token])>
    ensures { MatchOption result (tokens.now ≡ []) (λ r. tokens.now ≡ r.0.now ∷ r.1.now) }
{
    match tokens {
        [] => None,
        [first, rest @ ..] => Some((first, rest)),
    }
}

/// Whether the next token is a mark.
pub(crate) fn is_next(tokens: &[Token], mark: Mark) -> bool
    ensures yes { IsTrue result → IsNext mark tokens.now (drop 1 tokens.now) }
    ensures some { IsTrue result → 0 < length tokens.now }
    ensures no { result ≡ false → IsNotNext mark tokens.now }
{
    match first_token(tokens) {
        Some((first, _)) => is_mark(first, mark),
        None => false,
    }
}

/// Whether the next token is a colon.
pub(crate) fn colon_comes(tokens: &[Token]) -> bool
    ensures { result ≡ refusals.is_next Mark.Colon tokens.now }
{
    match first_token(tokens) {
        Some((first, _)) => matches!(&first.kind, TokenKind::Mark(Mark::Colon)),
        None => false,
    }
}

/// Whether the next token is a colon that begins at an offset in the line's text.
pub(crate) fn colon_comes_at(start: u32, tokens: &[Token]) -> bool
    ensures { result ≡ refusals.is_next_at start Mark.Colon tokens.now }
{
    match first_token(tokens) {
        Some((first, _)) => {
            matches!(&first.kind, TokenKind::Mark(Mark::Colon)) && first.start == start
        }
        None => false,
    }
}

/// Whether the next token is an equals sign.
pub(crate) fn equals_comes(tokens: &[Token]) -> bool
    ensures { result ≡ refusals.is_next Mark.Equals tokens.now }
{
    match first_token(tokens) {
        Some((first, _)) => matches!(&first.kind, TokenKind::Mark(Mark::Equals)),
        None => false,
    }
}

/// Returns the number of exclamation marks that come first.
pub(crate) fn bang_count(tokens: &[Token]) -> u32
    requires { length tokens.now < 2 ^ 32 }
    ensures reads { ReadsBangs tokens.now result (drop result tokens.now) }
    ensures no_more { IsNotNext Mark.Bang (drop result tokens.now) }
    ensures within { result ≤ length tokens.now }
{
    let mut count: u32 = 0;
    for token in tokens {
        if !is_mark(token, Mark::Bang) {
            return count;
        }
        count += 1;
    }
    count
}
