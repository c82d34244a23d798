//! Laws of patterns. glob(7); sudoers(5), "Wildcards".
ghost use Rattle.std.specs.Prelude.{◌≡◌, ◌==◌, ◌↔◌, All, count_by, false, List, Option, true, ℕ};
ghost use Rattle.sudo_grammar.specs.Words.{bytes_of};
ghost use Rattle.sudo_grammar.specs.declared.kind.Atom.TheVariants.{Command};
ghost use Rattle.sudo_laws.specs.Slashes.{is_slash_part};
ghost use Rattle.sudo_match.specs.Beginnings.{is_special};
ghost use Rattle.sudo_match.specs.Matching.{command_fits};
ghost use Rattle.sudo_match.specs.Pattern.{fits, is_byte, is_plain, parts};
ghost use Rattle.sudo_match.specs.declared.patterns.Slash.{Slash};
ghost use Rattle.sudo_match.specs.declared.patterns.Slash.TheVariants.{Not};
ghost use Rattle.sudo_text.specs.declared.token.Ch.{Ch};

/// A pattern without an unescaped `*`, `?` or `[` fits its own bytes, and no other text.
pub fn plain_patterns_fit_their_bytes()
    ensures { (chars : List Ch) (text : List ℕ) (slash : Slash)
        → All (λ c. is_special c ≡ false) chars
        → (fits (parts chars) text slash ≡ true) ↔ (text ≡ bytes_of chars) }
{}

/// In a path no `*`, `?` or bracket fits a `/`: a command that fits has as many `/` as the path writes outside of its
/// brackets.
pub fn wildcards_of_paths_fit_no_slash()
    ensures parts { (chars : List Ch) (text : List ℕ) → fits (parts chars) text Not ≡ true
        → count_by (λ b. b == 47) text ≡ count_by is_slash_part (parts chars) }
    ensures paths { (path : List Ch) (arguments : Option (List Ch)) (command given : List ℕ)
        → All (λ c. is_plain 91 c ≡ false) path
        → command_fits (Command path arguments) command given ≡ true
        → count_by (λ b. b == 47) command ≡ count_by (is_byte 47) path }
{}
