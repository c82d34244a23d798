//! Laws of verdicts: which grant decides, and what one more rule changes. sudoers(5), "SUDOERS FILE FORMAT".
ghost use Rattle.std.specs.Prelude.{◌≡◌, ◌∷◌, ◌++◌, All, false, List, Ok, true};
ghost use Rattle.sudo_grammar.specs.declared.policy.Entry.{Entry};
ghost use Rattle.sudo_grammar.specs.declared.policy.Policy.{Policy};
ghost use Rattle.sudo_laws.specs.Longer.{AddsRule};
ghost use Rattle.sudo_match.specs.KnownRows.{KnownRows};
ghost use Rattle.sudo_match.specs.declared.request.Request.{Request};
ghost use Rattle.sudo_match.specs.declared.request.Verdict.TheVariants.{NoMatch};
ghost use Rattle.sudo_verdict.specs.Grants.{applies, entry_grants, Grant, grants};
ghost use Rattle.sudo_verdict.specs.Questions.{Question, question_of};
ghost use Rattle.sudo_verdict.specs.Verdicts.{verdict_by, verdict_of};

/// The last grant that applies decides, whatever grants are before it. If none applies, there is no match.
pub fn last_grant_decides()
    ensures last { (p : Policy) (d : KnownRows) (r : Request) (q : Question)
        (before after : List Grant) (g : Grant) → question_of d r ≡ Ok q
        → grants p ≡ before ++ g ∷ after → applies p q g ≡ true
        → All (λ h. applies p q h ≡ false) after → verdict_of p d r ≡ verdict_by g }
    ensures none { (p : Policy) (d : KnownRows) (r : Request) (q : Question)
        → question_of d r ≡ Ok q → All (λ g. applies p q g ≡ false) (grants p)
        → verdict_of p d r ≡ NoMatch }
{}

/// A rule behind all others decides where a grant of it applies, by the last one that does. Where none applies, or a
/// name is unknown, the verdict stays as it was.
pub fn rule_behind_others_decides()
    ensures there { (p longer : Policy) (rule : Entry) → AddsRule p rule longer
        → (d : KnownRows) (r : Request) (q : Question) → question_of d r ≡ Ok q
        → (before after : List Grant) (g : Grant) → entry_grants longer rule ≡ before ++ g ∷ after
        → applies longer q g ≡ true → All (λ h. applies longer q h ≡ false) after
        → verdict_of longer d r ≡ verdict_by g }
    ensures elsewhere { (p longer : Policy) (rule : Entry) → AddsRule p rule longer
        → (d : KnownRows) (r : Request)
        → ((q : Question) → question_of d r ≡ Ok q
        → All (λ h. applies longer q h ≡ false) (entry_grants longer rule))
        → verdict_of longer d r ≡ verdict_of p d r }
{}
