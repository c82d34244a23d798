//! A law of loading.
ghost use Rattle.std.specs.Prelude.{ℕ, List, Result};
ghost use Rattle.sudo_grammar.specs.declared.policy.Policy.{Policy};
ghost use Rattle.sudo_load.specs.declared.supply.Supply.{Supply};
ghost use Rattle.sudo_load.specs.Load.{IsLoad, SameLoad};
ghost use Rattle.sudo_load.specs.Unfolding.{Refusal};

/// A main file, with the provided files and folders, has at most one policy or one refusal.
pub fn files_have_one_load()
    ensures { (path text : List ℕ) (supplies : List Supply) (a b : Result Policy Refusal)
        → IsLoad path text supplies a → IsLoad path text supplies b → SameLoad a b }
{}
