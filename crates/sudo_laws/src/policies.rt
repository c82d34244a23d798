//! A law of checked policies. visudo(8), strict mode.
ghost use Rattle.std.specs.Prelude.{◌↔◌, List};
ghost use Rattle.sudo_grammar.specs.declared.policy.Policy.{Policy};
ghost use Rattle.sudo_laws.specs.SoundAliases.{HasSoundAliases};
ghost use Rattle.sudo_policy.specs.Checking.{Passes};
ghost use Rattle.sudo_policy.specs.Found.{AreFindings};
ghost use Rattle.sudo_policy.specs.declared.finding.Finding.{Finding};

/// A policy passes if and only if no name is defined twice, each name that is used is defined, no alias reaches itself, and
/// depth and width are within the limits. `found` are its findings, whichever they are.
pub fn sound_aliases_pass()
    ensures { (p : Policy) (found : List Finding) → AreFindings p found
        → Passes p ↔ HasSoundAliases p }
{}
