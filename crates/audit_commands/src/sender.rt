//! Senders as the command line names them.
ghost use Rattle.std.specs.Prelude.{◌≡◌, ◌++◌, ◌∷◌, List, ℕ, true, IfSome, IfNone};
ghost use Rattle.std.specs.List.{list_all};
ghost use Rattle.audit_commands.specs.Senders.{is_sender_byte as name_byte, is_sender_name as sender_name};

// Whether a byte is an ASCII letter, a digit, `_` or `-`.
fn is_sender_byte(b: u8) -> bool
    ensures { result ≡ name_byte b }
{
    matches!(b, b'0'..=b'9' | b'A'..=b'Z' | b'a'..=b'z' | b'_' | b'-')
}

// Whether all bytes may occur in a name.
fn all_name_bytes(text: &[u8]) -> bool
    ensures { result ≡ list_all name_byte text.now }
{
    text.iter().all(|b| is_sender_byte(*b))
}

// Whether a name has 1 to 64 bytes, each of which may occur in a name.
fn is_sender_name(name: &[u8]) -> bool
    ensures { result ≡ sender_name name.now }
{
    !name.is_empty() && name.len() <= 64 && all_name_bytes(name)
}

/// Splits a word `NAME=PATH` at its first `=`. Returns `None` exactly if it has none, or NAME is
/// not 1 to 64 ASCII letters, digits, `_` or `-`. PATH may be empty.
pub fn sender_of(word: &str) -> Option<(&str, &str)>
    ensures parts { IfSome result (λ p. word.now ≡ p.0.now ++ 61 ∷ p.1.now) }
    ensures name { IfSome result (λ p. sender_name p.0.now ≡ true) }
    ensures none { IfNone result ((name path : List ℕ) → word.now ≡ name ++ 61 ∷ path
        → sender_name name ≡ true → ⊥) }
{
    let Some((name, path)) = word.split_once('=') else {
        return None;
    };
    if !is_sender_name(name.as_bytes()) {
        return None;
    }
    Some((name, path))
}
