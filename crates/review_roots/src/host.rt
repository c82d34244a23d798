//! A policy on one host.
ghost use Rattle.std.specs.Prelude.{◌≡◌, ◌<◌, IfOk, IsTrue, None, length, map, take};
ghost use Rattle.std.specs.List.{list_all};
ghost use Rattle.sudo_match.specs.KnownRows.{directory_fault};
ghost use Rattle.review_roots.specs.Blocks.{AreBlocks, block_resolves, is_for};
ghost use Rattle.review_roots.specs.Body.Alike.{AreFirsts, AreFirstsBy, HaveAlikeRunas, host_list};
ghost use Rattle.review_roots.specs.Body.Candidates.{AreCandidates, has_state, states_of};
ghost use Rattle.review_roots.specs.Order.{IsInOrder};
ghost use Rattle.review_roots.specs.Body.Deciding.{AreCutIds};
ghost use Rattle.review_roots.specs.Body.Kept.{ids_by, kept_states};
ghost use Rattle.review_roots.specs.Body.Raising.{block_raises, indices, passes_at};
ghost use Rattle.review_roots.specs.Ranks.{is_at_least};
ghost use Rattle.review_roots.specs.declared.level.Level.TheVariants as level;
ghost use Rattle.review_roots.specs.declared.state.State.{State as TheState};

use crate::Level;
use crate::alike::earlier;
use crate::block::Block;
use crate::candidate::Candidate;
use crate::cut::Cut;
use crate::rules::Rules;
use crate::state::State;
use crate::steps::is_at;
use std::alloc::{AllocError, Global};
use sudo_match::{Directory, Group, Machine};
use sudo_policy::Checked;
use sudo_verdict::lists_host;

/// What the steps of users on a host depend on.
#[derive(Drop)]
pub struct HostSteps<'r, 'a> {
    /// The policy.
    pub checked: &'a Checked,
    /// The known users.
    pub directory: &'a Directory,
    pub host: &'r Machine,
    /// The groups that may be added.
    pub groups: &'a [Group],
    /// The least level of a chain.
    pub least: Level,
    pub(crate) blocks: &'r [Block<'a>],
    // The indices of the blocks that raise.
    pub(crate) raising: &'r [usize],
    // For some blocks, the index of an earlier one with the same runas.
    pub(crate) runas: &'r [usize],
    // Which groups count for whom.
    pub(crate) cut: &'r Cut<'a>,
    // The states that stand for all, in their order.
    pub(crate) states: &'r [State],
    pub(crate) candidates: &'r [Candidate],
    pub(crate) places: &'r [Option<usize>],
    // Whether few states are kept.
    pub(crate) few: bool,
    // For each block, whether it is for the host.
    pub(crate) on: Vec<bool>,
    ghost listed: { IsTrue (is_at_least level.Listed least) },
    ghost tied: { AreBlocks checked.now blocks.now },
    ghost raised: { raising.now ≡ indices (block_raises least) blocks.now },
    ghost alike_runas: { AreFirstsBy HaveAlikeRunas blocks.now runas.now },
    ghost resolve: { IsTrue (list_all (block_resolves checked.now) blocks.now) },
    ghost here: { on.items ≡ map (is_for checked.now host.now) blocks.now },
    ghost covered: { AreCandidates checked.now directory.now groups.now least blocks.now
        states.now candidates.now },
    ghost unnamed: { AreCutIds checked.now least blocks.now groups.now cut.now },
    ghost kept: { (s : TheState) → has_state states.now s
        ≡ has_state (kept_states directory.now groups.now (ids_by cut.now)) s },
    ghost states_order: { IsInOrder directory.now states.now },
    ghost candidates_order: { IsInOrder directory.now (states_of candidates.now) },
    ghost faultless: { directory_fault directory.now.people directory.now.machines ≡ None },
}

// Whether there is a block at the index, and it is for the host, where that is known of those before it: looked up, unless one of them has
// the same host list.
fn is_for_behind(
    checked: &Checked,
    blocks: &[Block<'_>],
    alike: &[usize],
    on: &[bool],
    index: usize,
    host: &Machine,
) -> bool
    requires resolve { IsTrue (list_all (block_resolves checked.now) blocks.now) }
    requires alike { AreFirsts host_list blocks.now alike.now }
    requires inside { index < length blocks.now }
    requires known { on.now ≡ map (is_for checked.now host.now) (take index blocks.now) }
    ensures { result ≡ passes_at (is_for checked.now host.now) blocks.now index }
{
    match earlier(alike, index) {
        Some(first) => is_at(on, first),
        None => lists_host(checked, blocks[index].hosts, host),
    }
}

// Returns for each block whether it is for the host.
fn on_host(
    alloc: Global,
    checked: &Checked,
    blocks: &[Block<'_>],
    alike: &[usize],
    host: &Machine,
) -> Result<Vec<bool>, AllocError>
    requires resolve { IsTrue (list_all (block_resolves checked.now) blocks.now) }
    requires alike { AreFirsts host_list blocks.now alike.now }
    ensures { IfOk result (λ on. on.items ≡ map (is_for checked.now host.now) blocks.now) }
{
    let mut on = Vec::new(alloc);
    for index in 0..blocks.len() {
        let stands = is_for_behind(checked, blocks, alike, &on, index, host);
        on.push(stands)?;
    }
    Ok(on)
}

impl<'r, 'a> HostSteps<'r, 'a> {
    /// Returns the steps on a host. Returns `AllocError` if allocation fails.
    pub fn new(
        alloc: Global,
        rules: &'r Rules<'a>,
        host: &'r Machine,
    ) -> Result<HostSteps<'r, 'a>, AllocError>
        ensures checked { IfOk result (λ steps. steps.checked.now ≡ rules.now.checked.now) }
        ensures directory { IfOk result (λ steps. steps.directory.now ≡ rules.now.directory.now) }
        ensures host { IfOk result (λ steps. steps.host.now ≡ host.now) }
        ensures groups { IfOk result (λ steps. steps.groups.now ≡ rules.now.groups.now) }
        ensures least { IfOk result (λ steps. steps.least ≡ rules.now.least) }
    {
        let blocks = rules.blocks.as_slice();
        let on = on_host(alloc, rules.checked, blocks, &rules.alike, host)?;
        Ok(HostSteps {
            checked: rules.checked,
            directory: rules.directory,
            host,
            groups: rules.groups,
            least: rules.least,
            blocks,
            raising: rules.raising.as_slice(),
            runas: rules.runas.as_slice(),
            cut: &rules.cut,
            states: rules.states.as_slice(),
            candidates: rules.candidates.as_slice(),
            places: rules.places.as_slice(),
            few: rules.few,
            on,
        })
    }
}
