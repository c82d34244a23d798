//! A law of loading. sudoers(5), "Including other files from within sudoers".
ghost use Rattle.std.specs.Prelude.{◌≡◌, List, Ok, ℕ};
ghost use Rattle.sudo_grammar.specs.declared.policy.Policy.{Policy};
ghost use Rattle.sudo_laws.specs.Replaced.{IsReplaced};
ghost use Rattle.sudo_load.specs.Load.{IsLoad};
ghost use Rattle.sudo_load.specs.declared.supply.Supply.{Supply};

/// The entries of a policy are those of the lines of its main file, each include line replaced by the entries of the file
/// that it names, or of the kept files of its folder, in the order of their names' bytes. Its paths are in reading order,
/// and the position of a path is the number of its file. No other policy has these entries and paths.
pub fn include_lines_are_replaced()
    ensures replaced { (supplies : List Supply) (path text : List ℕ) (policy : Policy)
        → IsLoad path text supplies (Ok policy) → IsReplaced supplies path text policy }
    ensures alone { (supplies : List Supply) (path text : List ℕ) (policy other : Policy)
        → IsReplaced supplies path text policy → IsReplaced supplies path text other
        → (policy.files ≡ other.files) × (policy.entries ≡ other.entries) }
{}
