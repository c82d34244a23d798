//! Laws of the grammar.
ghost use Rattle.std.specs.Prelude.{◌≡◌, ◌++◌, ◌⊎◌, List, Some, Ok, Err};
ghost use Rattle.sudo_text.specs.declared.token.Token.{Token};
ghost use Rattle.sudo_grammar.specs.declared.policy.EntryBody.{EntryBody};
ghost use Rattle.sudo_grammar.specs.declared.fault.Expected.{Expected};
ghost use Rattle.sudo_grammar.specs.declared.fault.Refusal.TheVariants.{Syntax};
ghost use Rattle.sudo_grammar.specs.Forms.{Writes};
ghost use Rattle.sudo_grammar.specs.Faults.{Room, Stop, HasRoom, WritesWithin, IsGrammarFault};
ghost use Rattle.sudo_grammar.specs.Body.States.{State, Start, state_after};
ghost use Rattle.sudo_grammar.specs.Body.Reading.{reading};
ghost use Rattle.sudo_grammar.specs.Body.Remaining.{Completes};
ghost use Rattle.sudo_grammar.specs.Standing.{CanStand};

/// Each written form of an entry within the limits is read as that entry.
pub fn forms_are_read()
    ensures { (room : Room) (e : EntryBody) (ts : List Token) → Writes e ts → HasRoom room e
        → reading room Start ts ≡ Ok e }
{}

/// Tokens that are read as an entry are a written form of that entry, within the limits.
pub fn what_is_read_is_written()
    ensures { (room : Room) (e : EntryBody) (ts : List Token) → reading room Start ts ≡ Ok e
        → Writes e ts × HasRoom room e }
{}

/// If a line is no entry, the reading stops at the line's grammar fault; and wherever a line has a grammar fault, its
/// reading stops there.
pub fn faults_are_leftmost()
    ensures is_fault { (room : Room) (ts : List Token) (stop : Stop)
        → reading room Start ts ≡ Err stop → IsGrammarFault room ts stop }
    ensures stops { (room : Room) (ts : List Token) (stop : Stop) → IsGrammarFault room ts stop
        → reading room Start ts ≡ Err stop }
{}

/// No list of tokens is a written form of two entries.
pub fn forms_have_one_entry()
    ensures { (a b : EntryBody) (ts : List Token) → Writes a ts → Writes b ts → a ≡ b }
{}

/// No list of tokens has two grammar faults.
pub fn lines_have_one_fault()
    ensures { (room : Room) (ts : List Token) (a b : Stop) → IsGrammarFault room ts a
        → IsGrammarFault room ts b → a ≡ b }
{}

/// A list of tokens either is a written form of an entry within the limits or has a grammar fault, and never both.
pub fn lines_are_written_or_faulty()
    ensures some { (room : Room) (ts : List Token)
        → ((e : EntryBody) × WritesWithin room e ts)
        ⊎ ((stop : Stop) × IsGrammarFault room ts stop) }
    ensures one { (room : Room) (ts : List Token) (e : EntryBody) (stop : Stop)
        → WritesWithin room e ts → IsGrammarFault room ts stop → ⊥ }
{}

/// Each token that a syntax error expects could have stood at the fault, after the tokens before it; and if the error
/// expects the end of the line, the line could have ended there.
pub fn expected_could_stand()
    ensures { (room : Room) (ts : List Token) (stop : Stop) (fault : IsGrammarFault room ts stop)
        (x : Expected) → stop.refusal ≡ Syntax x → CanStand x fault.front }
{}

/// Each parser state accepts exactly the remaining forms: after the tokens that lead to it, further tokens complete an
/// entry exactly if they have one of these forms.
pub fn states_mean_forms()
    ensures completes { (room : Room) (front : List Token) (state : State) (e : EntryBody)
        (ts : List Token) → state_after room Start front ≡ Some state → Writes e (front ++ ts)
        → Completes state e ts }
    ensures is_written { (room : Room) (front : List Token) (state : State) (e : EntryBody)
        (ts : List Token) → state_after room Start front ≡ Some state → Completes state e ts
        → Writes e (front ++ ts) }
{}
