//! The likely lengths of lists, for the memory that they are given at first.
ghost use Rattle.std.specs.Prelude.{◌≡◌, ◌≤◌, ◌<◌, [], IfOk};

use crate::tokens::is_mark;
use std::alloc::{AllocError, Global};
use sudo_text::{Mark, Seq, Token, TokenKind};

// The largest number of items that a list is given memory for before any is read.
const MOST: usize = 1024;

/// Returns an empty list with memory for `count` items, or `AllocError` if there is none.
pub(crate) fn empty_list<T>(alloc: Global, count: usize) -> Result<Seq<T>, AllocError>
    ensures { IfOk result (λ list. list ≡ []) }
{
    Ok(Seq::from_vec(Vec::with_capacity(alloc, count)?))
}

/// Returns how many members a list has if it can be read: one more than commas follow one member each.
pub(crate) fn likely_members(tokens: &[Token]) -> usize
    ensures { result ≤ MOST }
{
    let mut count = 1;
    let mut wants_member = true;
    for token in tokens {
        match &token.kind {
            TokenKind::Mark(Mark::Bang) => {}
            TokenKind::Mark(Mark::Comma) => {
                if wants_member || count == MOST {
                    return count;
                }
                count += 1;
                wants_member = true;
            }
            TokenKind::Mark(_) => return count,
            _ => {
                if !wants_member {
                    return count;
                }
                wants_member = false;
            }
        }
    }
    count
}

/// Returns one more than the commas outside parentheses before the next equals sign: the number of a section's commands,
/// with the hosts of a section after it.
pub(crate) fn likely_commands(tokens: &[Token]) -> usize
    ensures { result ≤ MOST }
{
    let mut count = 1;
    let mut inside = false;
    for token in tokens {
        match &token.kind {
            TokenKind::Mark(Mark::LeftParen) => inside = true,
            TokenKind::Mark(Mark::RightParen) => inside = false,
            TokenKind::Mark(Mark::Equals) => return count,
            TokenKind::Mark(Mark::Comma) => {
                if count == MOST {
                    return count;
                }
                if !inside {
                    count += 1;
                }
            }
            _ => {}
        }
    }
    count
}

/// Returns the number of equals signs: each section of a rule and each definition of an alias has one.
pub(crate) fn likely_parts(tokens: &[Token]) -> usize
    ensures { result ≤ MOST }
{
    let count = tokens
        .iter()
        .filter(|token| is_mark(token, Mark::Equals))
        .count();
    if count < MOST { count } else { MOST }
}
