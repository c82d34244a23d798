//! A cheap test that most hosts of a policy fail: they begin otherwise than the name of the host.

ghost use Rattle.std.specs.Prelude.{◌≡◌, ◌≤◌, length, drop};
ghost use Rattle.sudo_match.specs.Body.Beginnings.{is_named_otherwise};

use crate::patterns::is_special;
use sudo_text::Ch;

// Returns the number of letters with which both begin: no special character and no dot is among them.
fn same_letters(chars: &[Ch], name: &[u8]) -> usize
    ensures within { result ≤ length chars.now }
    ensures rest { is_named_otherwise chars.now name.now
        ≡ is_named_otherwise (drop result chars.now) (drop result name.now) }
{
    let count = chars.len().min(name.len());
    for at in 0..count {
        let byte = name[at];
        if (byte <= b'[') | (byte != chars[at].byte) {
            return at;
        }
    }
    count
}

/// Whether a character differs from the byte at its place in a host's name, without regard to case, before any special
/// character and any dot of the name: then neither the name nor its part before the first dot is what they fit.
pub(crate) fn is_named_otherwise(chars: &[Ch], name: &[u8]) -> bool
    ensures { result ≡ is_named_otherwise chars.now name.now }
{
    let count = chars.len().min(name.len());
    for at in same_letters(chars, name)..count {
        let ch = chars[at];
        let byte = name[at];
        if is_special(ch) | (byte == b'.') {
            return false;
        }
        if byte.to_ascii_lowercase() != ch.byte.to_ascii_lowercase() {
            return true;
        }
    }
    false
}
