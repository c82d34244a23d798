//! Laws of patterns: the parts into which characters are cut.
ghost use Rattle.std.specs.Prelude.{◌≡◌, ◌∷◌, List, Bool, true, false};
ghost use Rattle.sudo_text.specs.declared.token.Ch.{Ch};
ghost use Rattle.sudo_match.specs.Pattern.{is_plain, Item, One, Star, Only, AnyByte, Bracket, parts};
ghost use Rattle.sudo_match.specs.Brackets.{WritesBracket};

/// `[`, an optional `!`, items, and `]` are one part: the bracket of these items.
pub fn brackets_are_cut()
    ensures { (start : Ch) (complement : Bool) (items : List Item) (cs rest : List Ch)
        → is_plain 91 start ≡ true → WritesBracket complement items cs rest
        → parts (start ∷ cs) ≡ One (Bracket complement items) ∷ parts rest }
{}

/// A `[` that begins no bracket is a part by itself, which fits `[` alone.
pub fn unclosed_brackets_are_bytes()
    ensures { (start : Ch) (cs : List Ch) → is_plain 91 start ≡ true
        → ((complement : Bool) (items : List Item) (rest : List Ch)
        → WritesBracket complement items cs rest → ⊥)
        → parts (start ∷ cs) ≡ One (Only start.byte) ∷ parts cs }
{}

/// Each other character is a part by itself: an unescaped `*` is a star, an unescaped `?` fits any byte, and any other
/// character fits its byte.
pub fn characters_are_parts()
    ensures star { (c : Ch) (cs : List Ch) → is_plain 42 c ≡ true
        → parts (c ∷ cs) ≡ Star ∷ parts cs }
    ensures question { (c : Ch) (cs : List Ch) → is_plain 63 c ≡ true
        → parts (c ∷ cs) ≡ One AnyByte ∷ parts cs }
    ensures other { (c : Ch) (cs : List Ch) → is_plain 42 c ≡ false → is_plain 63 c ≡ false
        → is_plain 91 c ≡ false → parts (c ∷ cs) ≡ One (Only c.byte) ∷ parts cs }
{}
