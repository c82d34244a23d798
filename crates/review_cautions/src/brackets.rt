//! Brackets of patterns that sudo reads otherwise.
ghost use Rattle.std.specs.Prelude.{◌≡◌, false};
ghost use Rattle.review_cautions.specs.Brackets as spec;

use sudo_policy::Atom;
use sudo_text::{Ch, Seq};

// Whether a character is a `[` that no escape yields.
fn opens_bracket(ch: Ch) -> bool
    ensures { result ≡ spec.opens_bracket ch }
{
    !ch.escaped && ch.byte == b'['
}

// Whether a `^` stands directly behind such a `[`.
fn has_caret(chars: &[Ch]) -> bool
    ensures { result ≡ spec.has_caret false chars.now }
{
    let mut opened = false;
    for ch in chars {
        if opened && ch.byte == b'^' {
            return true;
        }
        opened = opens_bracket(*ch);
    }
    false
}

// Whether arguments, if any are given, have such a `^`.
fn arguments_have_caret(arguments: &Option<Seq<Ch>>) -> bool
    ensures { result ≡ spec.arguments_have_caret arguments.now }
{
    match arguments {
        Some(arguments) => has_caret(arguments.as_slice()),
        None => false,
    }
}

/// Whether a pattern of a host or of a command has such a `^`.
pub(crate) fn atom_has_caret(atom: &Atom) -> bool
    ensures { result ≡ spec.atom_has_caret atom.now }
{
    match atom {
        Atom::Host { chars, quoted } => !*quoted && has_caret(chars.as_slice()),
        Atom::Command { path, args } => has_caret(path.as_slice()) || arguments_have_caret(args),
        _ => false,
    }
}

// Whether a `]` that no escape yields closes a bracket for certain, behind a byte.
fn closes_bracket(before: u8, ch: Ch) -> bool
    ensures { result ≡ spec.closes_bracket before ch }
{
    let is_doubtful = before == b'['
        || before == b'!'
        || before == b'^'
        || before == b':'
        || before == b'='
        || before == b'.';
    !ch.escaped && ch.byte == b']' && !is_doubtful
}

// Whether a character keeps a bracket open, or opens one.
fn is_open_after(inside: bool, before: u8, ch: Ch) -> bool
    ensures { result ≡ spec.is_open_after inside before ch }
{
    opens_bracket(ch) || (inside && !closes_bracket(before, ch))
}

// Whether a slash stands in a bracket of a path.
fn has_slash_inside(path: &[Ch]) -> bool
    ensures { result ≡ spec.has_slash_inside false 0 path.now }
{
    let mut inside = false;
    let mut before = 0;
    for ch in path {
        if inside && ch.byte == b'/' {
            return true;
        }
        inside = is_open_after(inside, before, *ch);
        before = ch.byte;
    }
    false
}

// Whether characters begin with `:` and an unescaped `]`.
fn ends_class(chars: &[Ch]) -> bool
    ensures { result ≡ spec.ends_class chars.now }
{
    match chars {
        [colon, close, ..] => colon.byte == b':' && !close.escaped && close.byte == b']',
        _ => false,
    }
}

// Whether characters begin with the name of a class, no letter escaped, and the end of a class.
fn names_class(name: &[u8], chars: &[Ch]) -> bool
    ensures { result ≡ spec.names_class name.now chars.now }
{
    match name {
        [] => ends_class(chars),
        [byte, name @ ..] => match chars {
            [] => false,
            [ch, chars @ ..] => !ch.escaped && ch.byte == *byte && names_class(name, chars),
        },
    }
}

// Whether characters begin with the name of a class that the reader and sudo read alike, and its end.
fn is_class(host: bool, chars: &[Ch]) -> bool
    ensures { result ≡ spec.is_class host chars.now }
{
    names_class(b"alnum", chars)
        || names_class(b"alpha", chars)
        || names_class(b"blank", chars)
        || names_class(b"cntrl", chars)
        || names_class(b"digit", chars)
        || names_class(b"graph", chars)
        || names_class(b"lower", chars)
        || names_class(b"print", chars)
        || names_class(b"punct", chars)
        || names_class(b"space", chars)
        || names_class(b"xdigit", chars)
        || (!host && names_class(b"upper", chars))
}

// Whether characters begin with letters that may name a class for sudo, possibly none, and the end of a class.
fn names_any_class(chars: &[Ch]) -> bool
    ensures { result ≡ spec.names_any_class chars.now }
{
    match chars {
        [] => false,
        [ch, after @ ..] => {
            ends_class(chars) || (b'a' <= ch.byte && ch.byte <= b'y' && names_any_class(after))
        }
    }
}

// Whether characters begin with the name of another class, and its end.
fn names_other_class(host: bool, chars: &[Ch]) -> bool
    ensures { result ≡ spec.names_other_class host chars.now }
{
    !is_class(host, chars) && (host || names_any_class(chars))
}

// Whether characters directly behind a `[` begin an equivalence, a collating symbol or another class.
fn begins_other_class(host: bool, chars: &[Ch]) -> bool
    ensures { result ≡ spec.begins_other_class host chars.now }
{
    match chars {
        [] => false,
        [ch, after @ ..] => {
            ch.byte == b'='
                || ch.byte == b'.'
                || (ch.byte == b':' && names_other_class(host, after))
        }
    }
}

// Whether such characters stand directly behind a `[` that no escape yields.
fn has_other_class(host: bool, chars: &[Ch]) -> bool
    ensures { result ≡ spec.has_other_class host chars.now }
{
    let mut rest = chars;
    while let [ch, after @ ..] = rest {
        if opens_bracket(*ch) && begins_other_class(host, after) {
            return true;
        }
        rest = after;
    }
    false
}

// Whether arguments, if any are given, have such characters.
fn arguments_have_other_class(arguments: &Option<Seq<Ch>>) -> bool
    ensures { result ≡ spec.arguments_have_other_class arguments.now }
{
    match arguments {
        Some(arguments) => has_other_class(false, arguments.as_slice()),
        None => false,
    }
}

/// Whether a pattern of a host or of a command has a bracket that sudo reads otherwise.
pub(crate) fn atom_has_other_bracket(atom: &Atom) -> bool
    ensures { result ≡ spec.atom_has_other_bracket atom.now }
{
    match atom {
        Atom::Host { chars, quoted } => !*quoted && has_other_class(true, chars.as_slice()),
        Atom::Command { path, args } => {
            let path = path.as_slice();
            has_slash_inside(path)
                || has_other_class(false, path)
                || arguments_have_other_class(args)
        }
        _ => false,
    }
}
