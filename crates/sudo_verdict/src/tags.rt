//! Which tags hold at a position of a section.

ghost use Rattle.std.specs.Prelude.{◌≡◌, ◌∷◌, []};
ghost use Rattle.sudo_verdict.specs.Tagged as tagged;

use sudo_match::Tags;
use sudo_policy::{CommandSpec, TAG_PAIRS, Tag, TagPair};

/// The tag SETENV.
const SETENV: Tag = Tag {
    pair: TagPair::SetEnv,
    on: true,
};

/// Returns the tags, with SETENV added if the command is `ALL` and that pair is not set.
pub(crate) fn tags_given(tags: Tags, all: bool) -> Tags
    ensures { result ≡ tagged.tags_given all tags }
{
    if all {
        with_earlier(tags, SETENV)
    } else {
        tags
    }
}

/// Returns the choices of no tag.
#[tactic(auto, unfolding(crate::specs::Tagged::tags_named))]
fn no_tags() -> Tags
    ensures { result ≡ tagged.tags_named [] }
{
    Tags {
        choices: [None; TAG_PAIRS.len()],
    }
}

/// Returns the tags with an earlier one added, if its pair is not set.
fn with_earlier(tags: Tags, tag: Tag) -> Tags
    ensures { result ≡ tagged.or_tags tags (tagged.tags_named (tag ∷ [])) }
{
    let mut tags = tags;
    let position = tag.pair.position();
    tags.choices[position] = tags.choices[position].or(Some(tag.on));
    tags
}

/// Returns the tags with those of an earlier list added, for pairs that are not set.
#[tactic(auto, using(crate::proofs::TagLists::or_tags_push, crate::proofs::TagLists::or_tags_end, crate::proofs::TagLists::or_tags_whole))]
fn with_all_earlier(later: Tags, earlier: &[Tag]) -> Tags
    ensures { result ≡ tagged.or_tags later (tagged.tags_named earlier.now) }
{
    let mut tags = later;
    let mut left = earlier;
    while let Some((tag, rest)) = left.split_last() {
        tags = with_earlier(tags, *tag);
        left = rest;
    }
    tags
}

/// Returns for each pair the tag that is named last among these commands. Searches from the last command back.
#[tactic(auto, using(crate::proofs::TagLists::commands_lemmas))]
pub fn tags_before_end(commands: &[CommandSpec]) -> Tags
    ensures { result ≡ tagged.tags_before commands.now }
{
    let mut tags = no_tags();
    let mut left = commands;
    while let Some((spec, rest)) = left.split_last() {
        tags = with_all_earlier(tags, spec.tags.as_slice());
        left = rest;
    }
    tags
}
