//! Patterns as other modules use them: of a command's path, of arguments, of a host.

ghost use Rattle.std.specs.Prelude.{◌≡◌, map};
ghost use Rattle.sudo_match.specs.Class.{lower_text};
ghost use Rattle.sudo_match.specs.Pattern.{is_plain, begins, parts, path_chars, fits};

use crate::patterns::{Chars, Reading, Slash, Text};
use std::marker::Model;
use sudo_text::Ch;

/// A pattern that borrows its characters. Contracts see its parts.
#[derive(Drop)]
pub struct Pattern<'a> {
    chars: Chars<'a>,
}

impl<'a> Model for Pattern<'a> {
    ghost use Rattle.std.specs.Prelude.{List};
    ghost use Rattle.sudo_match.specs.Pattern.{Part, parts};

    ghost Value = { List Part };

    ghost use Rattle.sudo_match.specs.Reading.{seen};

    ghost view = { λ p. parts (seen p.chars) };
}

impl<'a> Pattern<'a> {
    ghost use Rattle.sudo_match.specs.Matching.{host_pattern};

    /// Creates the pattern that these characters spell: unescaped `*`, `?` and brackets are as in glob(7).
    pub fn of(chars: &'a [Ch]) -> Self
        ensures { result ≡ parts chars.now }
    {
        Pattern {
            chars: Chars {
                chars,
                reading: Reading::Exact,
                is_folder: false,
            },
        }
    }

    /// Creates the pattern of a command's path. A path that ends in `/` stands for each file of that folder.
    pub(crate) fn of_path(chars: &'a [Ch]) -> Self
        ensures { result ≡ parts (path_chars chars.now) }
    {
        let is_folder = match chars.last() {
            Some(ch) => ch.byte == b'/',
            None => false,
        };
        Pattern {
            chars: Chars {
                chars,
                reading: Reading::Exact,
                is_folder,
            },
        }
    }

    /// Creates the pattern of a host, for names in lower case. If `quoted`, no character is special.
    pub(crate) fn of_host(chars: &'a [Ch], quoted: bool) -> Self
        ensures { result ≡ parts (host_pattern chars.now quoted) }
    {
        let reading = if quoted {
            Reading::Quoted
        } else {
            Reading::Host
        };
        Pattern {
            chars: Chars {
                chars,
                reading,
                is_folder: false,
            },
        }
    }

    /// Whether the pattern fits the whole text.
    pub fn matches(&self, text: &[u8], slash: Slash) -> bool
        ensures { result ≡ fits self.now text.now slash }
    {
        let text = Text {
            bytes: text,
            lower: false,
        };
        self.chars.fits(&text, slash)
    }

    /// Whether the pattern fits the whole text, read in lower case.
    pub(crate) fn matches_lower(&self, text: &[u8]) -> bool
        ensures { result ≡ fits self.now (lower_text text.now) Slash.Any }
    {
        let text = Text {
            bytes: text,
            lower: true,
        };
        self.chars.fits(&text, Slash::Any)
    }
}

/// Whether the characters begin with these bytes, all unescaped.
pub(crate) fn begins_with(chars: &[Ch], name: &[u8]) -> bool
    ensures { result ≡ begins (map is_plain name.now) chars.now }
{
    let chars = Chars {
        chars,
        reading: Reading::Exact,
        is_folder: false,
    };
    chars.spells_at(0, name)
}
