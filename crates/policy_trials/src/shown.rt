//! The text of tokens, as the tables write it.

use std::alloc::{AllocError, Global};
use sudo_text::{Ch, Line, Mark, Seq, TEXT_LIMIT, TextFault, Token, TokenKind, lines, tokens};

fn mark_text(mark: Mark) -> &'static str {
    match mark {
        Mark::Bang => "!",
        Mark::Equals => "=",
        Mark::Comma => ",",
        Mark::Colon => ":",
        Mark::LeftParen => "(",
        Mark::RightParen => ")",
        Mark::At => "@",
        Mark::Greater => ">",
        Mark::PlusEquals => "+=",
        Mark::MinusEquals => "-=",
    }
}

// Appends characters, with a `~` before each escaped one.
fn push_chars(text: &mut String, chars: &[Ch]) -> Result<(), AllocError> {
    for ch in chars {
        if ch.escaped {
            text.push('~')?;
        }
        text.push(char::from(ch.byte))?;
    }
    Ok(())
}

fn directive(folder: bool, hash: bool) -> &'static str {
    match (folder, hash) {
        (false, false) => "@include:",
        (false, true) => "#include:",
        (true, false) => "@includedir:",
        (true, true) => "#includedir:",
    }
}

fn push_word(text: &mut String, quoted: bool, chars: &[Ch]) -> Result<(), AllocError> {
    text.push_str(if quoted { "quoted:" } else { "word:" })?;
    push_chars(text, chars)
}

// Appends a `|` and the arguments of a command.
fn push_arguments(text: &mut String, args: &[Ch]) -> Result<(), AllocError> {
    text.push('|')?;
    push_chars(text, args)
}

fn push_command(text: &mut String, path: &[Ch], args: &Option<Seq<Ch>>) -> Result<(), AllocError> {
    text.push_str("command:")?;
    push_chars(text, path)?;
    match args {
        Some(args) => push_arguments(text, args.as_slice()),
        None => Ok(()),
    }
}

fn push_include(
    text: &mut String,
    folder: bool,
    hash: bool,
    path: &[Ch],
) -> Result<(), AllocError> {
    text.push_str(directive(folder, hash))?;
    push_chars(text, path)
}

// Appends the kind and content of a token.
fn push_kind(text: &mut String, kind: &TokenKind) -> Result<(), AllocError> {
    match kind {
        TokenKind::Word { quoted, chars } => push_word(text, *quoted, chars.as_slice()),
        TokenKind::Command { path, args } => push_command(text, path.as_slice(), args),
        TokenKind::Mark(mark) => text.push_str(mark_text(*mark)),
        TokenKind::Include { folder, hash, path } => {
            push_include(text, *folder, *hash, path.as_slice())
        }
    }
}

// Appends the start and the end of a token, its kind and content, and a `;`.
fn push_token(alloc: Global, text: &mut String, token: &Token) -> Result<(), AllocError> {
    let span = format!(in alloc; "{}-{} ", token.start, token.end)?;
    text.push_str(span.as_str())?;
    push_kind(text, &token.kind)?;
    text.push(';')
}

fn push_tokens(alloc: Global, text: &mut String, tokens: &[Token]) -> Result<(), AllocError> {
    for token in tokens {
        push_token(alloc, text, token)?;
    }
    Ok(())
}

fn push_fault(alloc: Global, text: &mut String, fault: TextFault) -> Result<(), AllocError> {
    let fault = format!(in alloc; "{fault}")?;
    text.push_str(fault.as_str())
}

// Appends the tokens of a line, or its fault.
fn push_line(alloc: Global, text: &mut String, line: &Line) -> Result<(), AllocError> {
    if line.text.len() > TEXT_LIMIT {
        return text.push_str("too long");
    }
    match tokens(alloc, line) {
        Ok(tokens) => push_tokens(alloc, text, tokens.as_slice()),
        Err(fault) => push_fault(alloc, text, fault),
    }
}

// Appends lines, with a `/` between two.
fn push_lines(alloc: Global, text: &mut String, lines: &[Line]) -> Result<(), AllocError> {
    let mut between = "";
    for line in lines {
        text.push_str(between)?;
        push_line(alloc, text, line)?;
        between = "/";
    }
    Ok(())
}

/// Returns the tokens of a text's lines, with a `;` after each token and a `/` between two lines. A faulty line shows
/// its fault, and a text without lines shows the text's fault.
pub(crate) fn tokens_of(alloc: Global, text: &str) -> Result<String, AllocError> {
    let mut shown = String::new(alloc);
    match lines(alloc, 0, text.as_bytes()) {
        Ok(lines) => push_lines(alloc, &mut shown, lines.as_slice())?,
        Err(fault) => push_fault(alloc, &mut shown, fault)?,
    }
    Ok(shown)
}
