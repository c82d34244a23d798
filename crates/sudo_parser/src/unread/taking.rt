//! The taking of the tokens of a line.
ghost use Rattle.std.specs.Prelude.{◌≡◌, ◌≢◌, ◌^◌, ◌<◌, ◌≤◌, ◌∷◌, [], List, Ok, false, true, drop, length, IsTrue};
ghost use Rattle.std.specs.Prelude.{IfErr, OnOk, MatchOption};
ghost use Rattle.sudo_text.specs.Faults.{Gives};
ghost use Rattle.sudo_text.specs.Tokens.{LeftmostFault, spells};
ghost use Rattle.sudo_parser.specs.Body.Lists.{ReadsBangs};
ghost use Rattle.sudo_parser.specs.Body.Stops.{IsNext, IsNotNext};
ghost use Rattle.sudo_parser.specs.Body.Unread.{tokens_left};

use super::Unread;
use crate::tokens::{bang_count, is_next};
use std::alloc::Global;
use std::mem;
use sudo_text::{Line, Mark, TEXT_LIMIT, TextFault, Token, TokenKind, read_tokens};

// Returns what stands in the place of a token that is taken.
fn taken() -> Token {
    Token {
        kind: TokenKind::Mark(Mark::Comma),
        start: 0,
        end: 0,
    }
}

impl Unread {
    /// Returns a list without tokens, into which lines can be read.
    #[tactic(auto, unfolding(crate::specs::Body::Unread::tokens_left))]
    pub(crate) fn empty(alloc: Global) -> Unread
        ensures { tokens_left result ≡ [] }
    {
        let tokens = Vec::new(alloc);
        Unread { tokens, read: 0 }
    }

    /// Reads the tokens of a line in place of those of the line before, so that one list serves all lines.
    #[tactic(auto, unfolding(crate::specs::Body::Unread::tokens_left))]
    pub(crate) fn read_line(&mut self, alloc: Global, line: &Line) -> Result<(), TextFault>
        requires { length line.now.text ≤ TEXT_LIMIT }
        ensures tokens { OnOk result (spells line.now (tokens_left self.new) ≡ true) }
        ensures few { OnOk result (length (tokens_left self.new) ≤ length line.now.text) }
        ensures only { (ts : List Token) → spells line.now ts ≡ true
            → Gives (λ _. tokens_left self.new) result (Ok ts) }
        ensures fault { IfErr result (λ f. f ≢ TextFault.Memory → LeftmostFault line.now f) }
    {
        self.read = 0;
        read_tokens(alloc, line, &mut self.tokens)
    }

    /// Returns the tokens that are left.
    #[tactic(auto, unfolding(crate::specs::Body::Unread::tokens_left))]
    pub(crate) fn as_slice(&self) -> &[Token]
        ensures { result.now ≡ tokens_left self.now }
    {
        &self.tokens.as_slice()[self.read..]
    }

    /// Returns the number of tokens that are left.
    #[tactic(auto, unfolding(crate::specs::Body::Unread::tokens_left))]
    pub(crate) fn len(&self) -> usize
        ensures { result ≡ length (tokens_left self.now) }
    {
        self.tokens.len() - self.read
    }

    /// Takes the next token.
    #[tactic(auto, unfolding(crate::specs::Body::Unread::tokens_left), using(crate::proofs::UnreadLemmas::taken_next))]
    pub(crate) fn next(&mut self) -> Option<Token>
        ensures { MatchOption result (tokens_left self.old ≡ [])
            (λ token. tokens_left self.old ≡ token ∷ tokens_left self.new) }
    {
        let read = self.read;
        if self.tokens.len() <= read {
            return None;
        }
        let token = mem::replace(&mut self.tokens[read], taken());
        self.read = read + 1;
        Some(token)
    }

    /// Passes over the next `count` tokens.
    #[tactic(auto, unfolding(crate::specs::Body::Unread::tokens_left))]
    pub(crate) fn skip(&mut self, count: usize)
        requires { count ≤ length (tokens_left self.old) }
        ensures { tokens_left self.new ≡ drop count (tokens_left self.old) }
    {
        self.read += count;
    }

    /// Passes over the next token if it is this mark, and returns whether it is.
    pub(crate) fn take_mark(&mut self, mark: Mark) -> bool
        ensures yes { IsTrue result → IsNext mark (tokens_left self.old) (tokens_left self.new) }
        ensures no { result ≡ false
            → IsNotNext mark (tokens_left self.old) × (self.new ≡ self.old) }
    {
        let comes = is_next(self.as_slice(), mark);
        if comes {
            self.skip(1);
        }
        comes
    }

    /// Passes over the exclamation marks that come first, and returns their number.
    pub(crate) fn take_bangs(&mut self) -> u32
        requires { length (tokens_left self.old) < 2 ^ 32 }
        ensures reads { ReadsBangs (tokens_left self.old) result (tokens_left self.new) }
        ensures no_more { IsNotNext Mark.Bang (tokens_left self.new) }
    {
        let count = bang_count(self.as_slice());
        self.skip(count as usize);
        count
    }
}
