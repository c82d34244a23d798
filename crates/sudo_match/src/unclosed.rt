//! The known positions of unclosed brackets.

ghost use Rattle.std.specs.Prelude.{List, ◌≡◌, true};
ghost use Rattle.sudo_match.specs.Body.Closing.{Knows};
ghost use Rattle.sudo_text.specs.declared.token.Ch.{Ch};

/// Three consecutive positions, each flagged if a bracket with an item there is known to be unclosed.
///
/// Three are enough: each reading of an unclosed bracket begins an item wherever a class is, and otherwise advances by
/// one or three characters, so it begins an item at one of any three consecutive positions. Thus every reading is
/// remembered, and a pattern with many unclosed brackets is read about once rather than once for each of them.
#[derive(Clone, Copy)]
pub(crate) struct Unclosed {
    /// The first of the positions.
    pub at: usize,
    pub first: bool,
    pub second: bool,
    pub third: bool,
}

impl Unclosed {
    /// Creates a window from `at` on, with no position known.
    pub fn none(at: usize) -> Unclosed
        ensures nothing { (cs : List Ch) → Knows cs result }
        ensures at { result.at ≡ at }
    {
        Unclosed {
            at,
            first: false,
            second: false,
            third: false,
        }
    }

    pub fn is_empty(self) -> bool {
        !self.first && !self.second && !self.third
    }

    /// Whether the position is known.
    pub fn has(self, at: usize) -> bool
        ensures { result ≡ true → (self.first ≡ true) × (self.at ≡ at) }
    {
        self.first && self.at == at
    }

    /// Returns the window with its first position flagged.
    pub fn with_first(self) -> Unclosed
        ensures { result ≡ record {
          at = self.at;
          first = true;
          second = self.second;
          third =
              self.third;
        } }
    {
        Unclosed {
            first: true,
            ..self
        }
    }
}
