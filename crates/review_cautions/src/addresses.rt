//! Addresses and networks that sudo reads otherwise.
ghost use Rattle.std.specs.Prelude.{◌≡◌, false};
ghost use Rattle.review_cautions.specs.Addresses as spec;

use crate::bytes::is_digit;
use sudo_policy::{Atom, Member};
use sudo_text::{Ch, TokenKind};

// Whether a number of two or more digits begins with a zero.
fn has_leading_zero(chars: &[Ch]) -> bool
    ensures { result ≡ spec.has_leading_zero false false chars.now }
{
    let mut inside = false;
    let mut zero = false;
    for ch in chars {
        if zero && is_digit(ch.byte) {
            return true;
        }
        zero = !inside && ch.byte == b'0';
        inside = is_digit(ch.byte);
    }
    false
}

// Whether a token is a word with such a number.
fn word_has_leading_zero(token: &TokenKind) -> bool
    ensures { result ≡ spec.word_has_leading_zero token.now }
{
    match token {
        TokenKind::Word { chars, .. } => has_leading_zero(chars.as_slice()),
        _ => false,
    }
}

// Whether a dot stands behind a slash.
fn has_dotted_mask(chars: &[Ch]) -> bool
    ensures { result ≡ spec.has_dotted_mask false chars.now }
{
    let mut behind = false;
    for ch in chars {
        if behind && ch.byte == b'.' {
            return true;
        }
        behind = behind || ch.byte == b'/';
    }
    false
}

// Whether a token is a word with such a dot.
fn word_has_dotted_mask(token: &TokenKind) -> bool
    ensures { result ≡ spec.word_has_dotted_mask token.now }
{
    match token {
        TokenKind::Word { chars, .. } => has_dotted_mask(chars.as_slice()),
        _ => false,
    }
}

// Whether an address is one of 127.0.0.0/8.
fn is_loopback(addr: u32) -> bool
    ensures { result ≡ spec.is_loopback addr }
{
    addr / 0x100_0000 == 127
}

/// Whether a member is an address or a network that sudo reads otherwise.
pub(crate) fn has_other_address(member: &Member) -> bool
    ensures { result ≡ spec.has_other_address member.now }
{
    let token = &member.token.kind;
    match &member.atom {
        Atom::Address(addr) => is_loopback(*addr) || word_has_leading_zero(token),
        Atom::Net { addr, mask } => {
            (*mask == 0 && !word_has_dotted_mask(token))
                || is_loopback(*addr)
                || word_has_leading_zero(token)
        }
        _ => false,
    }
}
