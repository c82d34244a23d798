//! Laws of parsing.
ghost use Rattle.std.specs.Prelude.{◌≡◌, List};
ghost use Rattle.sudo_text.specs.declared.line.Line.{Line};
ghost use Rattle.sudo_grammar.specs.declared.policy.Entry.{Entry};
ghost use Rattle.sudo_grammar.specs.declared.fault.ParseFault.{ParseFault};
ghost use Rattle.sudo_parser.specs.Parsed.{AreEntries, IsFirstFault};

/// The lines of a file have at most one list of entries and at most one first fault, and never both.
pub fn lines_have_one_reading()
    ensures entries { (lines : List Line) (a b : List Entry) → AreEntries lines a
        → AreEntries lines b → a ≡ b }
    ensures fault { (lines : List Line) (a b : ParseFault) → IsFirstFault lines a
        → IsFirstFault lines b → a ≡ b }
    ensures apart { (lines : List Line) (entries : List Entry) (fault : ParseFault)
        → AreEntries lines entries → IsFirstFault lines fault → ⊥ }
{}
