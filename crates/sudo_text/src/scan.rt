//! The tokens of a line.
ghost use Rattle.std.specs.Prelude.{◌≡◌, ◌+◌, ◌<◌, ◌≤◌, ◌^◌, ◌≢◌, length, drop, Some, true, false, [], ◌-◌, IsTrue};
ghost use Rattle.std.specs.Prelude.{IfOk, IfErr, OnOk, OnErr, All};
ghost use Rattle.sudo_text.specs.Pieces.{Breaks};
ghost use Rattle.sudo_text.specs.Body.Pieces.{takes_first};
ghost use Rattle.sudo_text.specs.Body.Rules.{RuleFits, KindFits};
ghost use Rattle.sudo_text.specs.Body.Refusals.{Refuses};
ghost use Rattle.sudo_text.specs.Tokens as spec;
ghost use Rattle.sudo_text.specs.Tokens.{quoted_end, command_end, path_end, token_by, token_end};
ghost use Rattle.sudo_text.specs.Body.Tokens.{WordEnds};
ghost use Rattle.sudo_text.specs.Tokens.{QuotedFlaw, CommandFlaw, PathFlaw, FlawBy};
ghost use Rattle.sudo_text.specs.Body.Tokens.{FlawNext, IsDone, IfToken};
ghost use Rattle.sudo_text.specs.Tokens.{closes_line, stands, spells, LeftmostFault};
ghost use Rattle.sudo_text.specs.Body.Tokens.{IsFaultOf};
ghost use Rattle.sudo_text.specs.Faults.{Gives};
ghost use Rattle.sudo_text.specs.declared.token.Token.{Token};
ghost use Rattle.std.specs.Prelude.{List, Ok};

use crate::bytes::peek;
use crate::folding::TEXT_LIMIT;
use crate::piece::{Flaw, Style, ends_run, plain, skip_blanks};
use crate::rules::{
    Before, LineKind, Rule, before_of, directive_len, is_defaults, line_kind, mark_len, rule_at,
    word_style,
};
use crate::run::{Refusal, run};
use crate::{Ch, Line, Place, Seq, TextFault, Token, TokenKind};
use std::alloc::{AllocError, Global};

// Whether a byte closes a quoted word; `taken` says that a backslash escapes it.
fn closes(taken: bool, byte: u8) -> bool
    ensures { result ≡ spec.closes taken byte }
{
    !taken && byte == b'"'
}

// Whether a byte is a backslash that escapes the next byte; `taken` says that it is escaped itself.
fn takes_next(taken: bool, byte: u8) -> bool
    ensures { result ≡ spec.takes_next taken byte }
{
    !taken && byte == b'\\'
}

// Whether the text after an opening double quote contains the closing one.
fn has_closing(text: &[u8]) -> bool
    ensures { result ≡ spec.has_closing false text.now }
{
    let mut taken = false;
    for byte in text {
        if closes(taken, *byte) {
            return true;
        }
        taken = takes_next(taken, *byte);
    }
    false
}

// Reads the quoted word at an offset. Returns its characters and its end.
#[tactic(auto, unfolding(crate::specs::Tokens::quoted_end))]
fn quoted(alloc: Global, text: &[u8], at: usize) -> Result<(Seq<Ch>, usize), Refusal>
    requires at { at < length text.now }
    requires fits { length text.now < 2 ^ 32 }
    ensures end { IfOk result (λ x. quoted_end text.now at x.0 ≡ Some x.1) }
    ensures within { IfOk result (λ x. (at < x.1) × (x.1 ≤ length text.now)) }
    ensures flaw { IfErr result (Refuses (QuotedFlaw text.now at)) }
    ensures inside { IfErr result (Refuses (λ _ offset. offset < length text.now)) }
{
    if !has_closing(&text[at + 1..]) {
        return Err(Refusal::Wrong(Flaw::BadQuote, at));
    }
    let (chars, end) = run(alloc, Style::Quoted, text, at + 1)?;
    if end < text.len() {
        Ok((chars, end + 1))
    } else {
        unreachable!()
    }
}

// Whether arguments follow a command's path that ends at an offset.
#[tactic(auto, unfolding(crate::specs::Tokens::has_arguments))]
fn has_arguments(kind: LineKind, text: &[u8], end: usize) -> bool
    requires end { end ≤ length text.now }
    requires fits { length text.now < 2 ^ 32 }
    ensures { result ≡ spec.has_arguments kind text.now end }
{
    let next = skip_blanks(text, end);
    !is_defaults(kind)
        && end < next
        && next < text.len()
        && !ends_run(Style::Arguments, text, next, next)
}

// Reads the command at an offset. Returns it and its end.
#[tactic(auto, unfolding(crate::specs::Tokens::command_end))]
fn command(
    alloc: Global,
    kind: LineKind,
    text: &[u8],
    at: usize,
) -> Result<(Seq<Ch>, Option<Seq<Ch>>, usize), Refusal>
    requires at { at < length text.now }
    requires fits { length text.now < 2 ^ 32 }
    ensures end { IfOk result (λ x. command_end kind text.now at x.0 x.1 ≡ Some x.2) }
    ensures within { IfOk result (λ x. (at < x.2) × (x.2 ≤ length text.now)) }
    ensures flaw { IfErr result (Refuses (CommandFlaw kind text.now at)) }
    ensures inside { IfErr result (Refuses (λ _ offset. offset < length text.now)) }
{
    let (path, end) = run(alloc, Style::Path, text, at)?;
    if !has_arguments(kind, text, end) {
        return Ok((path, None, end));
    }
    let (arguments, end) = run(alloc, Style::Arguments, text, skip_blanks(text, end))?;
    Ok((path, Some(arguments), end))
}

// Reads the path of an include line whose directive ends at an offset. Returns the path and its end.
#[tactic(auto, unfolding(crate::specs::Tokens::path_end))]
fn include_path(alloc: Global, text: &[u8], directive: usize) -> Result<(Seq<Ch>, usize), Refusal>
    requires directive { directive ≤ length text.now }
    requires fits { length text.now < 2 ^ 32 }
    ensures end { IfOk result (λ x. path_end text.now directive x.0 ≡ Some x.1) }
    ensures within { IfOk result (λ x. (directive ≤ x.1) × (x.1 ≤ length text.now)) }
    ensures flaw { IfErr result (Refuses (PathFlaw text.now directive)) }
    ensures inside { IfErr result (Refuses (λ _ offset. offset < length text.now)) }
{
    let at = skip_blanks(text, directive);
    if text.len() <= at {
        Ok((Seq::new(alloc), directive))
    } else if peek(text, at) == b'"' {
        quoted(alloc, text, at)
    } else {
        run(alloc, Style::Include, text, at)
    }
}

// Returns the characters of the word `Defaults`.
fn defaults_word(alloc: Global) -> Result<Seq<Ch>, AllocError>
    ensures { IfOk result (λ s. s ≡ spec.defaults_word) }
{
    let chars = [
        plain(b'D'),
        plain(b'e'),
        plain(b'f'),
        plain(b'a'),
        plain(b'u'),
        plain(b'l'),
        plain(b't'),
        plain(b's'),
    ];
    Seq::from_slice(alloc, &chars)
}

// Reads an unquoted word or a value. Returns it and its end.
fn word(alloc: Global, style: Style, text: &[u8], at: usize) -> Result<(TokenKind, usize), Refusal>
    requires at { at < length text.now }
    requires fits { length text.now < 2 ^ 32 }
    requires first { takes_first style ≡ true }
    ensures end { IfOk result (λ x. WordEnds style text.now at x.0 x.1) }
    ensures within { IfOk result (λ x. (at < x.1) × (x.1 ≤ length text.now)) }
    ensures flaw { IfErr result (Refuses (Breaks style text.now at)) }
    ensures inside { IfErr result (Refuses (λ _ offset. offset < length text.now)) }
{
    let (chars, end) = run(alloc, style, text, at)?;
    let quoted = false;
    Ok((TokenKind::Word { quoted, chars }, end))
}

// Reads the token at an offset by the given rule, which must not be `Comment`. Returns it and its end.
#[tactic(auto, unfolding(crate::specs::Tokens::keyword_end))]
fn token_at(
    alloc: Global,
    kind: LineKind,
    rule: Rule,
    text: &[u8],
    at: usize,
) -> Result<(TokenKind, usize), Refusal>
    requires at { at < length text.now }
    requires fits { length text.now < 2 ^ 32 }
    requires rule { RuleFits rule (length text.now - at) }
    requires token { spec.is_comment rule ≡ false }
    ensures end { IfOk result (λ x. token_by rule kind text.now at x.0 ≡ Some x.1) }
    ensures within { IfOk result (λ x. (at < x.1) × (x.1 ≤ length text.now)) }
    ensures flaw { IfErr result (Refuses (FlawBy rule kind text.now [] at)) }
    ensures inside { IfErr result (Refuses (λ _ offset. offset < length text.now)) }
{
    match rule {
        Rule::Include { folder, hash } => {
            let directive = at + directive_len(folder);
            let (path, end) = include_path(alloc, text, directive)?;
            Ok((TokenKind::Include { folder, hash, path }, end))
        }
        Rule::Keyword => {
            let (quoted, chars) = (false, defaults_word(alloc)?);
            Ok((TokenKind::Word { quoted, chars }, at + 8))
        }
        Rule::Quoted => {
            let (chars, end) = quoted(alloc, text, at)?;
            let quoted = true;
            Ok((TokenKind::Word { quoted, chars }, end))
        }
        Rule::Value => word(alloc, Style::Value, text, at),
        Rule::Word => word(alloc, word_style(kind), text, at),
        Rule::Command => {
            let (path, args, end) = command(alloc, kind, text, at)?;
            Ok((TokenKind::Command { path, args }, end))
        }
        Rule::Mark(mark) => Ok((TokenKind::Mark(mark), at + mark_len(mark))),
        Rule::Comment => unreachable!(),
    }
}

// Whether one of the joins lies after an offset.
fn has_join_after(joins: &[u32], at: usize) -> bool
    ensures { result ≡ spec.has_join_after joins.now at }
{
    joins.iter().any(|join| at < *join as usize)
}

// Returns the first token after an offset, or `None` if the line has no further one.
#[tactic(auto, unfolding(crate::specs::Tokens::closes_line, crate::specs::Tokens::stands, crate::specs::Tokens::token_end))]
fn next_token(
    alloc: Global,
    kind: LineKind,
    before: Before,
    line: &Line,
    from: usize,
) -> Result<Option<Token>, Refusal>
    requires from { from ≤ length line.now.text }
    requires fits { length line.now.text < 2 ^ 32 }
    requires kind { KindFits kind (length line.now.text) }
    ensures none { IsDone result → closes_line kind line.now.text line.now.joins from before
        ≡ true }
    ensures some { IfToken result (λ t. stands kind line.now.text from before t ≡ true) }
    ensures within { IfToken result (λ t. (from < t.end) × (t.end ≤ length line.now.text)) }
    ensures inside_text { IfToken result (λ t. t.start < length line.now.text) }
    ensures flaw { IfErr result (Refuses (FlawNext kind line.now.text line.now.joins from before)) }
    ensures inside { IfErr result (Refuses (λ _ offset. offset < length line.now.text)) }
{
    let text = line.text.as_slice();
    let at = skip_blanks(text, from);
    if text.len() <= at {
        return Ok(None);
    }
    let rule = rule_at(kind, before, text, at);
    if matches!(rule, Rule::Comment) {
        if has_join_after(line.joins.as_slice(), at) {
            return Err(Refusal::Wrong(Flaw::BadEscape, at));
        }
        return Ok(None);
    }
    let (token, end) = token_at(alloc, kind, rule, text, at)?;
    Ok(Some(Token {
        kind: token,
        start: at as u32,
        end: end as u32,
    }))
}

// Returns the fault of a line for a refusal.
fn fault_of(first: Place, refusal: Refusal) -> TextFault
    requires { Refuses (λ _ offset. offset + 1 < 2 ^ 32) refusal }
    ensures { IsFaultOf first refusal result }
{
    match refusal {
        Refusal::Memory => TextFault::Memory,
        Refusal::Wrong(flaw, offset) => {
            let (place, col) = (first, (offset + 1) as u32);
            match flaw {
                Flaw::BadQuote => TextFault::BadQuote { place, col },
                Flaw::BadHex => TextFault::BadHex { place, col },
                Flaw::BadEscape => TextFault::BadEscape { place, col },
                Flaw::NotPrintable => TextFault::NotPrintable { place, col },
            }
        }
    }
}

// Returns about how many tokens a line has, for the memory that they are given at first; a short line's are mostly fewer.
fn likely_count(line: &Line) -> usize
    ensures { result ≤ 64 }
{
    if line.text.len() < 252 {
        line.text.len() / 4 + 1
    } else {
        64
    }
}

// Appends the tokens of a line to an empty list, or returns the line's leftmost fault.
fn all_tokens(alloc: Global, line: &Line, tokens: &mut Vec<Token>) -> Result<(), TextFault>
    requires short { length line.now.text ≤ TEXT_LIMIT }
    requires empty { tokens.old.items ≡ [] }
    ensures tokens { OnOk result (spells line.now tokens.new.items ≡ true) }
    ensures few { OnOk result (length tokens.new.items ≤ length line.now.text) }
    ensures inside { OnOk result
        (All (λ t. t.start < length line.now.text) tokens.new.items) }
    ensures fault { IfErr result (λ f. f ≢ TextFault.Memory → LeftmostFault line.now f) }
{
    let kind = line_kind(line.text.as_slice());
    let mut before = Before::Nothing;
    let mut from = 0;
    'tokens: loop {
        match next_token(alloc, kind, before, line, from) {
            Ok(None) => return Ok(()),
            Ok(Some(token)) => {
                before = before_of(&token.kind);
                from = token.end as usize;
                tokens.push(token)?;
            }
            Err(refusal) => return Err(fault_of(line.first, refusal)),
        }
    }
}

/// Splits a line into tokens, as `tokens` does, and puts them into a list in place of what it holds, so that many lines
/// can be read into one list.
///
/// Returns the faults that `tokens` returns. After a fault the list is empty.
pub fn read_tokens(alloc: Global, line: &Line, tokens: &mut Vec<Token>) -> Result<(), TextFault>
    requires { length line.now.text ≤ TEXT_LIMIT }
    // The line spells the tokens that the list then holds, whatever it held before.
    ensures tokens { OnOk result (spells line.now tokens.new.items ≡ true) }
    // There are at most as many tokens as bytes in the line, and each begins within it.
    ensures few { OnOk result (length tokens.new.items ≤ length line.now.text) }
    ensures inside { OnOk result
        (All (λ t. t.start < length line.now.text) tokens.new.items) }
    // If the line spells a list of tokens, the list then holds them, or allocation fails.
    ensures only { (ts : List Token) → spells line.now ts ≡ true
        → Gives (λ _. tokens.new.items) result (Ok ts) }
    // Any other fault is the line's leftmost one.
    ensures fault { IfErr result (λ f. f ≢ TextFault.Memory → LeftmostFault line.now f) }
    ensures empty { OnErr result (tokens.new.items ≡ []) }
{
    tokens.clear();
    match all_tokens(alloc, line, tokens) {
        Ok(()) => Ok(()),
        Err(fault) => {
            tokens.clear();
            Err(fault)
        }
    }
}

/// Splits a line into tokens; a blank line and a comment line have none.
///
/// Blanks separate tokens. At each offset the first rule that applies is taken, and every word is as long as possible.
/// The leftmost fault decides. Returns `BadQuote` for an unclosed double quote, `BadHex` for `\x` without two
/// hexadecimal digits, `BadEscape` for a backslash with nothing after it and for a comment that continues over a join,
/// `NotPrintable` for a control byte outside a comment, and `Memory` only if allocation fails.
pub fn tokens(alloc: Global, line: &Line) -> Result<Vec<Token>, TextFault>
    requires { length line.now.text ≤ TEXT_LIMIT }
    // The line spells the tokens that are returned.
    ensures tokens { IfOk result (λ v. spells line.now v.items ≡ true) }
    // There are at most as many tokens as bytes in the line, and each begins within it.
    ensures few { IfOk result (λ v. length v.items ≤ length line.now.text) }
    ensures inside { IfOk result (λ v. All (λ t. t.start < length line.now.text) v.items) }
    // If the line spells a list of tokens, that list is returned, or allocation fails.
    ensures only { (ts : List Token) → spells line.now ts ≡ true
        → Gives (λ v. v.items) result (Ok ts) }
    // Any other fault is the line's leftmost one.
    ensures fault { IfErr result (λ f. f ≢ TextFault.Memory → LeftmostFault line.now f) }
{
    let mut tokens = Vec::with_capacity(alloc, likely_count(line))?;
    match read_tokens(alloc, line, &mut tokens) {
        Ok(()) => Ok(tokens),
        Err(fault) => Err(fault),
    }
}
