//! Laws of the commands of a section: which runas and which tags are in force at a command. sudoers(5), "Runas_Spec" and
//! "Tag_Spec".
ghost use Rattle.std.specs.Prelude.{◌≡◌, Bool, List, None, Some, slice_get, ℕ};
ghost use Rattle.sudo_grammar.specs.Tags.{pairs};
ghost use Rattle.sudo_grammar.specs.declared.policy.CommandSpec.{CommandSpec};
ghost use Rattle.sudo_grammar.specs.declared.policy.Runas.{Runas};
ghost use Rattle.sudo_grammar.specs.declared.tag.TagPair.{TagPair};
ghost use Rattle.sudo_laws.specs.InForce.{HaveNone, IsNamedAt, IsTaggedAt, UpTo};
ghost use Rattle.sudo_verdict.specs.Tagged.{runas_at, tags_at};

/// The runas at a command is the one that was named last, at that command or before it in its section; without one, none.
pub fn last_runas_is_in_force()
    ensures named { (commands : List CommandSpec) (i : ℕ) (runas : Runas)
        → IsNamedAt commands i runas → runas_at commands i ≡ Some runas }
    ensures none { (commands : List CommandSpec) (i : ℕ)
        → UpTo commands i (λ c. c.runas ≡ None) → runas_at commands i ≡ None }
{}

/// Of each pair of tags the choice at a command is the tag that was named last, at that command or before it in its
/// section; without one, none. `n` is the place of the pair in a list of tags.
pub fn last_tag_of_a_pair_is_in_force()
    ensures named { (commands : List CommandSpec) (i n : ℕ) (pair : TagPair) (on : Bool)
        → slice_get pairs n ≡ Some pair → IsTaggedAt pair commands i on
        → slice_get (tags_at commands i).choices n ≡ Some (Some on) }
    ensures none { (commands : List CommandSpec) (i n : ℕ) (pair : TagPair)
        → slice_get pairs n ≡ Some pair
        → UpTo commands i (λ c. HaveNone pair c.tags)
        → slice_get (tags_at commands i).choices n ≡ Some None }
{}
