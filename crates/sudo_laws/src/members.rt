//! Laws of lists of members: which member decides. sudoers(5), "User_List" and the other lists.
ghost use Rattle.std.specs.Prelude.{◌≡◌, ◌+◌, [], ◌∷◌, ◌++◌, All, Bool, Contains, if◌then◌else◌, List, not, None, option_map};
ghost use Rattle.std.specs.Prelude.{Some, ℕ};
ghost use Rattle.sudo_grammar.specs.declared.kind.Atom.{Atom};
ghost use Rattle.sudo_grammar.specs.declared.kind.Atom.TheVariants.{Alias};
ghost use Rattle.sudo_grammar.specs.declared.kind.Kind.{Kind};
ghost use Rattle.sudo_grammar.specs.declared.kind.Member.{Member};
ghost use Rattle.sudo_grammar.specs.declared.policy.Policy.{Policy};
ghost use Rattle.sudo_policy.specs.Definitions.{alias_named, in_force, lists, MemberList};
ghost use Rattle.sudo_policy.specs.Written.{is_negated};
ghost use Rattle.sudo_verdict.specs.Values.{value};

use sudo_policy::Checked;

/// The last member of a list that decides, decides for the list; without one the list decides nothing. An atom decides
/// where it matches: yes, or no if it is negated.
pub fn last_member_decides()
    ensures last { (kind : Kind) (p : Policy) (before after : List Member) (m : Member)
        (test : Atom → Bool) (decision : Bool) → value kind p (m ∷ []) test ≡ Some decision
        → All (λ later. value kind p (later ∷ []) test ≡ None) after
        → value kind p (before ++ m ∷ after) test ≡ Some decision }
    ensures none { (kind : Kind) (p : Policy) (list : List Member) (test : Atom → Bool)
        → All (λ m. value kind p (m ∷ []) test ≡ None) list → value kind p list test ≡ None }
    ensures atom { (kind : Kind) (p : Policy) (m : Member) (test : Atom → Bool)
        → alias_named m.atom ≡ None → value kind p (m ∷ []) test
        ≡ (if test m.atom then Some (not (is_negated m)) else None) }
{}

/// A `!` before a member, an alias too, turns what it decides.
pub fn exclamation_mark_turns()
    ensures { (kind : Kind) (p : Policy) (m marked : Member) (test : Atom → Bool)
        → marked.atom ≡ m.atom → marked.bangs ≡ m.bangs + 1
        → value kind p (marked ∷ []) test ≡ option_map not (value kind p (m ∷ []) test) }
{}

/// In a list of a checked policy an alias decides what its definition does, or the opposite if it is negated.
pub fn alias_decides_as_its_list(checked: &Checked)
    ensures { (l : MemberList) (m : Member) (name : List ℕ) (definition : List Member)
        (test : Atom → Bool) → Contains (lists checked.now) l → Contains l.members m
        → m.atom ≡ Alias name → in_force l.kind checked.now name ≡ Some definition
        → value l.kind checked.now (m ∷ []) test
        ≡ (if is_negated m then option_map not (value l.kind checked.now definition test)
        else value l.kind checked.now definition test) }
{
    let _policy = checked.policy();
}
