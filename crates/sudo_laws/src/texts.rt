//! Laws of texts: how characters are spelled. sudoers(5), "Other special characters and reserved words".
ghost use Rattle.std.specs.Prelude.{[], ◌≡◌, ◌+◌, ◌^◌, ◌<◌, ◌∷◌, ◌++◌, ◌&&◌, ◌==◌, ◌||◌, All, Bool, bytes_eq, codes, drop};
ghost use Rattle.std.specs.Prelude.{false, List, Ok, Some, None, take, true, ℕ};
ghost use Rattle.sudo_grammar.specs.Members.{atom_of, group_of};
ghost use Rattle.sudo_grammar.specs.Words.{is_name};
ghost use Rattle.sudo_grammar.specs.declared.kind.Atom.TheVariants.{Address, Alias, Command, Gid, Group, Host as Pattern, Name, Net};
ghost use Rattle.sudo_grammar.specs.declared.kind.Atom.TheVariants.{Uid};
ghost use Rattle.sudo_grammar.specs.declared.kind.Kind.{Kind};
ghost use Rattle.sudo_grammar.specs.declared.kind.Kind.TheVariants.{Host};
ghost use Rattle.sudo_laws.specs.Spelled.{ReadAsUser, SpellsAll, SpellSome};
ghost use Rattle.sudo_parser.specs.Texts.{atom_text};
ghost use Rattle.sudo_text.specs.Bytes.{is_control};
ghost use Rattle.sudo_text.specs.Pieces.{has_hex, is_arguments, run_end};
ghost use Rattle.sudo_text.specs.declared.token.Ch.{Ch};
ghost use Rattle.sudo_text.specs.declared.token.TokenKind.TheVariants.{Word};

/// The bytes of a word, a value, a path or arguments spell its characters: each is a byte, an escaped byte, `\xHH` where
/// it is read so, or one space for blanks among arguments. None of these bytes is a control byte, and but for blanks among
/// arguments they spell no other characters.
pub fn bytes_spell_characters()
    ensures spelled { (style : _) (text : List ℕ) (start len : ℕ) (chars : List Ch)
        → run_end style text start chars ≡ Some (start + len)
        → SpellsAll (has_hex style) (is_arguments style) chars (take len (drop start text)) }
    ensures printable { (style : _) (text : List ℕ) (start len : ℕ) (chars : List Ch)
        → run_end style text start chars ≡ Some (start + len)
        → All (λ b. is_control b ≡ false) (take len (drop start text)) }
    ensures one { (hex : Bool) (chars other : List Ch) (bytes : List ℕ)
        → SpellsAll hex false chars bytes → SpellsAll hex false other bytes → chars ≡ other }
{}

/// The text of a member spells characters, and no others, that are read as that member: an alias, a user, of which the text
/// may be between double quotes, a group, an ID, an address and a network.
pub fn members_read_back()
    ensures aliases { (kind : Kind) (name : List ℕ) → is_name name ≡ true
        → SpellSome (atom_text (Alias name))
        (λ chars. atom_of kind (Word false chars) ≡ Ok (Alias name)) }
    ensures users { (first : ℕ) (rest : List ℕ)
        → (is_name (first ∷ rest) || bytes_eq (first ∷ rest) (codes "ALL")) ≡ false
        → SpellSome (atom_text (Name (first ∷ rest)))
        (λ chars. ReadAsUser false chars (Name (first ∷ rest))) }
    ensures quoted_users { (first : ℕ) (rest : List ℕ)
        → (is_name (first ∷ rest) || bytes_eq (first ∷ rest) (codes "ALL")) ≡ true
        → (atom_text (Name (first ∷ rest)) ≡ 34 ∷ (first ∷ rest) ++ 34 ∷ [])
        × SpellSome (first ∷ rest) (λ chars. ReadAsUser true chars (Name (first ∷ rest))) }
    ensures groups { (name : List ℕ) → group_of name ≡ Ok (Group name)
        → SpellSome (atom_text (Group name)) (λ chars. ReadAsUser false chars (Group name)) }
    ensures user_ids { (id : ℕ) → id < 2 ^ 32
        → SpellSome (atom_text (Uid id)) (λ chars. ReadAsUser false chars (Uid id)) }
    ensures group_ids { (id : ℕ) → id < 2 ^ 32
        → SpellSome (atom_text (Gid id)) (λ chars. ReadAsUser false chars (Gid id)) }
    ensures addresses { (addr : ℕ) → addr < 2 ^ 32
        → SpellSome (atom_text (Address addr))
        (λ chars. atom_of Host (Word false chars) ≡ Ok (Address addr)) }
    ensures networks { (addr mask : ℕ) → addr < 2 ^ 32 → mask < 2 ^ 32
        → SpellSome (atom_text (Net addr mask))
        (λ chars. atom_of Host (Word false chars) ≡ Ok (Net addr mask)) }
{}

/// The text of a pattern spells the characters of the pattern, and no others: of the path of a command, and of a host
/// without a control byte and without an escaped `x`. `bytes` are those from which it was read.
pub fn patterns_read_back()
    ensures hosts { (chars : List Ch) (bytes : List ℕ) → SpellsAll true false chars bytes
        → All (λ c. is_control c.byte ≡ false) chars
        → All (λ c. (c.escaped && (c.byte == 120)) ≡ false) chars
        → SpellsAll true false chars (atom_text (Pattern chars false)) }
    ensures paths { (path : List Ch) (bytes : List ℕ) → SpellsAll false false path bytes
        → SpellsAll false false path (atom_text (Command path None)) }
{}
