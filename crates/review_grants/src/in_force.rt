//! The runas and the tags in force at a command of a section, from the first command on.
ghost use Rattle.std.specs.Prelude.{◌≡◌, ◌++◌, ◌∷◌, [], IsTrue, List, OnOk, Option};
ghost use Rattle.std.specs.Option.{option_or};
ghost use Rattle.sudo_grammar.specs.declared.policy.CommandSpec.{CommandSpec as TheSpec};
ghost use Rattle.sudo_grammar.specs.declared.policy.Policy.{Policy as ThePolicy};
ghost use Rattle.sudo_grammar.specs.declared.policy.Runas.{Runas as TheRunas};
ghost use Rattle.sudo_grammar.specs.declared.tag.Tag.{Tag as TheTag};
ghost use Rattle.sudo_policy.specs.Resolving.{runas_resolves};
ghost use Rattle.sudo_verdict.specs.Tagged.{or_tags, tags_named};
ghost use Rattle.review_grants.specs.Body.Heads.{HoldsBehind};
ghost use Rattle.review_grants.specs.GrantRows.{runas_text};

use crate::runas_text::push_runas;
use std::alloc::{AllocError, Global};
use sudo_match::Tags;
use sudo_policy::{Checked, CommandSpec, Runas, Tag};
use sudo_verdict::tags_before_end;

/// The text of the runas and the tags in force behind some commands of a section.
#[derive(Drop)]
pub(crate) struct InForce {
    pub(crate) runas: Vec<u8>,
    pub(crate) tags: Tags,
}

// Returns the tags with a later one in place of that of its pair.
fn with_later(mut tags: Tags, tag: Tag) -> Tags
    ensures { result ≡ or_tags (tags_named (tag ∷ [])) tags }
{
    tags.choices[tag.pair.position()] = Some(tag.on);
    tags
}

// Returns the tags with later ones, in order.
fn with_all_later(mut tags: Tags, later: &[Tag]) -> Tags
    ensures { (before : List TheTag) → tags ≡ tags_named before
        → result ≡ tags_named (before ++ later.now) }
{
    for tag in later {
        tags = with_later(tags, *tag);
    }
    tags
}

// Replaces the text of a runas by that of a later one, if there is one.
fn set_runas(
    alloc: Global,
    text: &mut Vec<u8>,
    checked: &Checked,
    later: &Option<Runas>,
) -> Result<(), AllocError>
    requires { IsTrue (runas_resolves checked.now later.now) }
    ensures { OnOk result ((earlier : Option TheRunas)
        → text.old.items ≡ runas_text checked.now earlier
        → text.new.items ≡ runas_text checked.now (option_or later.now earlier)) }
{
    match later {
        None => Ok(()),
        Some(runas) => {
            text.clear();
            push_runas(alloc, text, checked, runas)
        }
    }
}

impl InForce {
    /// Returns what is in force before the first command of a section: no runas and no tag.
    pub(crate) fn nothing(alloc: Global) -> InForce
        ensures { (p : ThePolicy) → HoldsBehind p [] result }
    {
        InForce {
            runas: Vec::new(alloc),
            tags: tags_before_end(&[]),
        }
    }

    /// Adds what is named at one command more. Returns `AllocError` if allocation failed.
    pub(crate) fn pass(
        &mut self,
        alloc: Global,
        checked: &Checked,
        spec: &CommandSpec,
    ) -> Result<(), AllocError>
        requires { IsTrue (runas_resolves checked.now spec.now.runas) }
        ensures { OnOk result ((before : List TheSpec) → HoldsBehind checked.now before self.old
            → HoldsBehind checked.now (before ++ spec.now ∷ []) self.new) }
    {
        self.tags = with_all_later(self.tags, spec.tags.as_slice());
        set_runas(alloc, &mut self.runas, checked, &spec.runas)
    }
}
