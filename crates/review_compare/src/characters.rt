//! Patterns without brackets, character by character: whether one covers another, and whether no text fits both.
ghost use Rattle.std.specs.Prelude.{◌≡◌, ◌&&◌, ◌==◌, not, false, length, nat_le, filter, codes, map, true};
ghost use Rattle.std.specs.List.{list_all, list_any};
ghost use Rattle.sudo_match.specs.Pattern as pattern;
ghost use Rattle.sudo_match.specs.Pattern.{fits, begins};
ghost use Rattle.sudo_match.specs.Matching as matching;
ghost use Rattle.review_compare.specs.Covering as covering;
ghost use Rattle.review_compare.specs.Simply as simply;
ghost use Rattle.review_compare.specs.Simply.{char_part};
ghost use Rattle.review_compare.specs.Body.Characters as body;

use sudo_match::Slash;
use sudo_text::Ch;

/// Whether the character is this byte, unescaped.
pub(crate) fn is_plain(ch: Ch, byte: u8) -> bool
    ensures { result ≡ pattern.is_plain byte ch }
{
    !ch.escaped && ch.byte == byte
}

// Whether `*` and `?` fit the byte.
fn is_free(slash: Slash, byte: u8) -> bool
    ensures { result ≡ pattern.is_free slash byte }
{
    match slash {
        Slash::Any => true,
        Slash::Not => byte != b'/',
    }
}

// The most characters of a pattern that is compared.
const LONGEST: usize = 2000;

// The most stars of a pattern that is tried as a cover.
const MOST_STARS: usize = 2;

fn has_bracket(chars: &[Ch]) -> bool
    ensures { result ≡ list_any (pattern.is_plain 91) chars.now }
{
    chars.iter().any(|ch| is_plain(*ch, b'['))
}

/// Whether the pattern is read character by character: it has no bracket and is not too long.
pub(crate) fn is_simple(chars: &[Ch]) -> bool
    ensures { result ≡ simply.is_simple chars.now }
{
    !has_bracket(chars) && chars.len() <= LONGEST
}

fn stars(chars: &[Ch]) -> usize
    ensures { result ≡ length (filter (pattern.is_plain 42) chars.now) }
{
    let mut count = 0;
    for ch in chars {
        if is_plain(*ch, b'*') {
            count += 1;
        }
    }
    count
}

/// Whether the pattern has few enough stars to be tried as a cover.
pub(crate) fn has_few_stars(chars: &[Ch]) -> bool
    ensures { result ≡ simply.has_few_stars chars.now }
{
    stars(chars) <= MOST_STARS
}

// Whether the first character's part fits each byte that the second's fits. A star does and has none.
fn one_covers(slash: Slash, first: Ch, second: Ch) -> bool
    ensures { result ≡ body.one_covers slash (char_part first) (char_part second) }
{
    if is_plain(first, b'*') || is_plain(second, b'*') {
        false
    } else if is_plain(first, b'?') {
        is_plain(second, b'?') || is_free(slash, second.byte)
    } else {
        !is_plain(second, b'?') && second.byte == first.byte
    }
}

// Whether a star may fit each byte that the character's part fits.
fn one_is_free(slash: Slash, ch: Ch) -> bool
    ensures { result ≡ body.one_is_free slash (char_part ch) }
{
    if is_plain(ch, b'*') {
        false
    } else {
        is_plain(ch, b'?') || is_free(slash, ch.byte)
    }
}

// Whether a star, and then these characters, cover the others.
#[cycle(covering)]
fn star_covers(slash: Slash, rest: &[Ch], others: &[Ch]) -> bool
    ensures { result ≡ covering.star_covers slash
        (covering.parts_cover slash (map char_part rest.now)) (map char_part others.now) }
{
    let mut left = others;
    while let Some((other, more)) = left.split_first() {
        if !is_plain(*other, b'*') {
            if parts_cover(slash, rest, left) {
                return true;
            }
            if !one_is_free(slash, *other) {
                return false;
            }
        }
        left = more;
    }
    parts_cover(slash, rest, left)
}

/// Whether the first characters fit each text that the others fit.
#[cycle(covering)]
pub(crate) fn parts_cover(slash: Slash, first: &[Ch], others: &[Ch]) -> bool
    ensures { result
        ≡ covering.parts_cover slash (map char_part first.now) (map char_part others.now) }
{
    let mut own = first;
    let mut left = others;
    while let Some((ch, rest)) = own.split_first() {
        if is_plain(*ch, b'*') {
            return star_covers(slash, rest, left);
        }
        let Some((other, more)) = left.split_first() else {
            return false;
        };
        if !one_covers(slash, *ch, *other) {
            return false;
        }
        own = rest;
        left = more;
    }
    left.is_empty()
}

/// Whether the first pattern fits each text that the second fits, as far as it is seen.
pub(crate) fn chars_cover(slash: Slash, first: &[Ch], second: &[Ch]) -> bool
    ensures { result ≡ simply.chars_cover slash first.now second.now }
{
    is_simple(first)
        && has_few_stars(first)
        && is_simple(second)
        && parts_cover(slash, first, second)
}

// Whether no byte is fitted by both parts, seen from one that fits a single byte.
fn ones_apart(slash: Slash, other_slash: Slash, first: Ch, second: Ch) -> bool
    ensures { result
        ≡ body.ones_apart slash other_slash (char_part first) (char_part second) }
{
    if is_plain(first, b'*') || is_plain(second, b'*') {
        false
    } else if is_plain(first, b'?') {
        !is_plain(second, b'?') && !is_free(slash, second.byte)
    } else if is_plain(second, b'?') {
        !is_free(other_slash, first.byte)
    } else {
        first.byte != second.byte
    }
}

// Whether each character is a star.
fn are_stars(chars: &[Ch]) -> bool
    ensures { result ≡ list_all (pattern.is_plain 42) chars.now }
{
    chars.iter().all(|ch| is_plain(*ch, b'*'))
}

/// Whether no text fits both, seen from the front up to the first star.
pub(crate) fn parts_apart(slash: Slash, other_slash: Slash, first: &[Ch], second: &[Ch]) -> bool
    ensures { result ≡ covering.parts_apart slash other_slash
        (map char_part first.now) (map char_part second.now) }
{
    let mut own = first;
    let mut left = second;
    while let Some((ch, rest)) = own.split_first() {
        if is_plain(*ch, b'*') {
            return false;
        }
        let Some((other, more)) = left.split_first() else {
            return true;
        };
        if is_plain(*other, b'*') {
            return false;
        }
        if ones_apart(slash, other_slash, *ch, *other) {
            return true;
        }
        own = rest;
        left = more;
    }
    !are_stars(left)
}

/// Whether the two lists have the same characters, of which the same are escaped.
pub(crate) fn same_chars(first: &[Ch], second: &[Ch]) -> bool
    ensures { result ≡ simply.same_chars first.now second.now }
{
    let mut own = first;
    let mut left = second;
    while let Some((ch, rest)) = own.split_first() {
        let Some((other, more)) = left.split_first() else {
            return false;
        };
        if ch.byte != other.byte || ch.escaped != other.escaped {
            return false;
        }
        own = rest;
        left = more;
    }
    left.is_empty()
}
