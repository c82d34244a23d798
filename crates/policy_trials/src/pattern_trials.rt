//! Tests of patterns.

use std::alloc::{AllocError, Global};
use std::test::Fail;
use sudo_match::{Pattern, Slash};
use sudo_text::{Ch, Seq};

// Returns the characters of a word, in which a backslash escapes the next one.
fn chars(alloc: Global, text: &[u8]) -> Result<Seq<Ch>, AllocError> {
    let mut chars = Seq::new(alloc);
    let mut escaped = false;
    for byte in text {
        if *byte == b'\\' && !escaped {
            escaped = true;
        } else {
            chars.push(Ch {
                byte: *byte,
                escaped,
            })?;
            escaped = false;
        }
    }
    Ok(chars)
}

// Returns for which values of `Slash` a pattern matches a text.
fn fitting(alloc: Global, pattern: &[u8], text: &[u8]) -> Result<&'static str, AllocError> {
    let chars = chars(alloc, pattern)?;
    let pattern = Pattern::of(chars.as_slice());
    let any = pattern.matches(text, Slash::Any);
    let not = pattern.matches(text, Slash::Not);
    Ok(match (any, not) {
        (true, true) => "both",
        (true, false) => "any",
        (false, true) => "not",
        (false, false) => "none",
    })
}

// Fails with a row if its answer is not the one that it ends in.
fn told(alloc: Global, row: &str, answer: &str, want: &str) -> Result<(), Fail> {
    if answer == want {
        return Ok(());
    }
    Err(Fail::new(String::from_str(alloc, row)?))
}

// Fails if a row does not hold: a pattern, a text, and for which values of `Slash` they match.
fn pattern_row_holds(alloc: Global, row: &str) -> Result<(), Fail> {
    let Some((pattern, rest)) = row.split_once(' ') else {
        return Err(Fail::new("a row without a text"));
    };
    let Some((text, want)) = rest.split_once(' ') else {
        return Err(Fail::new("a row without an answer"));
    };
    let answer = fitting(alloc, pattern.as_bytes(), text.as_bytes())?;
    told(alloc, row, answer, want)
}

// Fails if a row of the table does not hold.
fn patterns_hold(alloc: Global, table: &str) -> Result<(), Fail> {
    for row in table.lines() {
        pattern_row_holds(alloc, row)?;
    }
    Ok(())
}

const STARS: &str = "*  both
a* a both
* a/b any
? / any
?  none
\\* * both
\\* a none
*a*b caxab both
/usr/* /usr/.x both";

#[test]
fn stars_and_questions(rt: HostRuntime) -> Result<(), Fail> {
    patterns_hold(rt.alloc(), STARS)
}

const BRACKETS: &str = "[!a]* b/c any
[!a]* a/c none
[]x] ] both
[]x] x both
[z-a] m none
[z-a] z none
[ab [ab both
[ab a none
[!] [!] both
[--0] . both
[--0] / any
[+--] , both
[]-a] ^ both
[a-] - both";

#[test]
fn brackets(rt: HostRuntime) -> Result<(), Fail> {
    patterns_hold(rt.alloc(), BRACKETS)
}

const CLASSES: &str = "[[:alpha:]] q both
[[:alpha:]] 1 none
[[\\:alpha\\:]] q both
[[:al\\pha:]] q none
[[:word:]] w] both
[[:word:]] w none
[![:digit:]] 7 none";

#[test]
fn classes(rt: HostRuntime) -> Result<(), Fail> {
    patterns_hold(rt.alloc(), CLASSES)
}

// Returns a pattern of 1,000 times `*a`, followed by `*b`.
fn many_stars(alloc: Global) -> Result<Seq<Ch>, AllocError> {
    let star = Ch {
        byte: b'*',
        escaped: false,
    };
    let mut chars = Seq::new(alloc);
    for _ in 0..1000u32 {
        chars.push(star)?;
        chars.push(Ch {
            byte: b'a',
            escaped: false,
        })?;
    }
    chars.push(star)?;
    chars.push(Ch {
        byte: b'b',
        escaped: false,
    })?;
    Ok(chars)
}

#[test]
fn many_stars_are_fast(rt: HostRuntime) -> Result<(), Fail> {
    let chars = many_stars(rt.alloc())?;
    let mut text = Seq::new(rt.alloc());
    for _ in 0..5000u32 {
        text.push(b'a')?;
    }
    assert!(rt; !Pattern::of(chars.as_slice()).matches(text.as_slice(), Slash::Any));
    assert!(rt; !Pattern::of(chars.as_slice()).matches(text.as_slice(), Slash::Not));
    text.push(b'b')?;
    assert!(rt; Pattern::of(chars.as_slice()).matches(text.as_slice(), Slash::Any));
    assert!(rt; Pattern::of(chars.as_slice()).matches(text.as_slice(), Slash::Not));
    Ok(())
}

// Whether a star and 300 times the characters of `unit` fit 300 bytes `[` followed by 300 times `fitted`, for both
// values of `Slash`, but not with an `x` after the text.
fn fit_repeated(rt: HostRuntime, unit: &[u8], fitted: &[u8]) -> Result<bool, Fail> {
    let mut chars = chars(rt.alloc(), b"*")?;
    let mut text = Seq::new(rt.alloc());
    for _ in 0..300u32 {
        text.push(b'[')?;
    }
    for _ in 0..300u32 {
        for byte in unit {
            chars.push(Ch {
                byte: *byte,
                escaped: false,
            })?;
        }
        for byte in fitted {
            text.push(*byte)?;
        }
    }
    let pattern = Pattern::of(chars.as_slice());
    let fits = pattern.matches(text.as_slice(), Slash::Any)
        && pattern.matches(text.as_slice(), Slash::Not);
    text.push(b'x')?;
    Ok(fits && !pattern.matches(text.as_slice(), Slash::Any))
}

#[test]
fn many_unclosed_brackets_are_fast(rt: HostRuntime) -> Result<(), Fail> {
    assert!(rt; fit_repeated(rt, b"[", b"[")?);
    assert!(rt; fit_repeated(rt, b"[[:alpha:]", b"[a")?);
    assert!(rt; fit_repeated(rt, b"[-", b"[-")?);
    assert!(rt; fit_repeated(rt, b"[x-[[:alpha:]", b"[x-[a")?);
    Ok(())
}
