//! The rows of a policy, with the users that may take steps, on all hosts.
ghost use Rattle.std.specs.Prelude.{◌≡◌, ◌++◌, ◌∷◌, [], List, IfOk, IsTrue, None, OnOk};
ghost use Rattle.std.specs.List.{list_all};
ghost use Rattle.sudo_match.specs.KnownRows.{KnownRows, directory_fault};
ghost use Rattle.review_roots.specs.Blocks.{AreBlocks, block_resolves};
ghost use Rattle.review_roots.specs.Body.Alike.{AreFirsts, AreFirstsBy, HaveAlikeRunas, host_list};
ghost use Rattle.review_roots.specs.Body.Candidates.{AreCandidates, has_state, states_of};
ghost use Rattle.review_roots.specs.Order.{IsInOrder};
ghost use Rattle.review_roots.specs.Body.Deciding.{AreCutIds};
ghost use Rattle.review_roots.specs.Body.Kept.{ids_by, kept_states};
ghost use Rattle.review_roots.specs.Body.Naming.{AreRows, IsBase};
ghost use Rattle.review_roots.specs.Body.Raising.{block_raises, indices};
ghost use Rattle.review_roots.specs.Ranks.{is_at_least};
ghost use Rattle.review_roots.specs.declared.level.Level.TheVariants as level;
ghost use Rattle.review_roots.specs.declared.state.State.{State as TheState};

use crate::Level;
use crate::alike::{alike_hosts, alike_users};
use crate::base::{Base, base_of};
use crate::block::Block;
use crate::blocks::blocks_of;
use crate::candidate::{Candidate, hopeful};
use crate::cut::{Cut, cut_of};
use crate::ground::Ground;
use crate::kept::{are_few, have_room, kept_states};
use crate::naming::naming;
use crate::order::sort_states;
use crate::raising::raising_of;
use crate::runas::alike_runas;
use crate::state::State;
use std::alloc::{AllocError, Global};
use sudo_match::{Directory, Group};
use sudo_policy::Checked;

/// What the steps of users depend on, on all hosts: the policy, the known users, and the groups that may be added (all known
/// ones, or, for less work, those that user lists name: [`crate::known_groups`], [`crate::named_groups`]); and the least level
/// of the chains that are sought.
#[derive(Drop)]
pub struct Rules<'a> {
    /// The policy.
    pub checked: &'a Checked,
    /// The known users.
    pub directory: &'a Directory,
    /// The groups that may be added.
    pub groups: &'a [Group],
    /// The least level of a chain.
    pub least: Level,
    pub(crate) blocks: Vec<Block<'a>>,
    // The indices of the blocks that raise.
    pub(crate) raising: Vec<usize>,
    // For some blocks, the index of an earlier one with the same host list.
    pub(crate) alike: Vec<usize>,
    // For some blocks, the index of an earlier one with the same runas.
    pub(crate) runas: Vec<usize>,
    // Which groups count for whom.
    pub(crate) cut: Cut<'a>,
    // The states that stand for all, in their order.
    pub(crate) states: Vec<State>,
    pub(crate) candidates: Vec<Candidate>,
    // For each user, the index of its first candidate, if any.
    pub(crate) places: Vec<Option<usize>>,
    // Whether few states are kept.
    pub(crate) few: bool,
    ghost listed: { IsTrue (is_at_least level.Listed least) },
    ghost tied: { AreBlocks checked.now blocks.items },
    ghost raised: { raising.items ≡ indices (block_raises least) blocks.items },
    ghost likened: { AreFirsts host_list blocks.items alike.items },
    ghost alike_runas: { AreFirstsBy HaveAlikeRunas blocks.items runas.items },
    ghost resolve: { IsTrue (list_all (block_resolves checked.now) blocks.items) },
    ghost covered: { AreCandidates checked.now directory.now groups.now least blocks.items
        states.items candidates.items },
    ghost unnamed: { AreCutIds checked.now least blocks.items groups.now cut },
    ghost kept: { (s : TheState) → has_state states.items s
        ≡ has_state (kept_states directory.now groups.now (ids_by cut)) s },
    ghost states_order: { IsInOrder directory.now states.items },
    ghost candidates_order: { IsInOrder directory.now (states_of candidates.items) },
    ghost faultless: { directory_fault directory.now.people directory.now.machines ≡ None },
}

// The candidates of the states so far, and for each user the index of its first one, if any.
#[derive(Drop)]
struct Gathered {
    candidates: Vec<Candidate>,
    places: Vec<Option<usize>>,
}

// Notes the index of a candidate of the user, if it is the first one.
fn set_place(places: &mut [Option<usize>], user: usize, index: usize) {
    if user < places.len() && places[user].is_none() {
        places[user] = Some(index);
    }
}

// Appends the candidate of a state, if it may take a step.
fn gather_state(
    alloc: Global,
    ground: Ground<'_, '_>,
    rows: &[Vec<bool>],
    state: State,
    base: &mut Base,
    gathered: &mut Gathered,
) -> Result<(), AllocError>
    requires rows { AreRows ground.checked.now ground.blocks.now ground.groups.now rows.now }
    requires base { IsBase ground.checked.now ground.directory.now ground.blocks.now base.now }
    ensures base { OnOk result (IsBase ground.entry.checked.now ground.entry.directory.now
        ground.entry.blocks.now base.new) }
    ensures candidates { OnOk result ((before : List TheState) → AreCandidates ground.entry.checked.now
        ground.entry.directory.now ground.entry.groups.now ground.entry.least
        ground.entry.blocks.now before gathered.old.candidates.items
        → AreCandidates ground.entry.checked.now ground.entry.directory.now
        ground.entry.groups.now ground.entry.least ground.entry.blocks.now
        (before ++ state ∷ []) gathered.new.candidates.items) }
    ensures order { OnOk result ((d : KnownRows) (after : List TheState) → IsInOrder d
        (states_of gathered.old.candidates.items ++ state ∷ after)
        → IsInOrder d (states_of gathered.new.candidates.items ++ after)) }
{
    if let Some(candidate) = hopeful(alloc, ground, rows, base, state)? {
        let index = gathered.candidates.len();
        set_place(gathered.places.as_mut_slice(), state.user, index);
        gathered.candidates.push(candidate)?;
    }
    Ok(())
}

// Returns the candidates of the states.
fn gather(alloc: Global, ground: Ground<'_, '_>, states: &[State]) -> Result<Gathered, AllocError>
    ensures candidates { IfOk result (λ gathered. AreCandidates ground.entry.checked.now
        ground.entry.directory.now ground.entry.groups.now ground.entry.least
        ground.entry.blocks.now states.now gathered.candidates.items) }
    ensures order { IfOk result (λ gathered. (d : KnownRows) → IsInOrder d states.now
        → IsInOrder d (states_of gathered.candidates.items)) }
{
    let rows = naming(alloc, ground)?;
    let mut base = base_of(alloc, ground, 0)?;
    let mut places = Vec::new(alloc);
    places.resize(ground.directory.people().len(), None)?;
    let mut gathered = Gathered {
        candidates: Vec::new(alloc),
        places,
    };
    for state in states {
        gather_state(alloc, ground, &rows, *state, &mut base, &mut gathered)?;
    }
    Ok(gathered)
}

impl<'a> Rules<'a> {
    /// Returns what the steps depend on, for chains of the least level or a better one. Returns `AllocError` if allocation
    /// fails.
    pub fn new(
        alloc: Global,
        checked: &'a Checked,
        directory: &'a Directory,
        groups: &'a [Group],
        least: Level,
    ) -> Result<Rules<'a>, AllocError>
        requires { IsTrue (is_at_least level.Listed least) }
        ensures checked { IfOk result (λ rules. rules.checked.now ≡ checked.now) }
        ensures directory { IfOk result (λ rules. rules.directory.now ≡ directory.now) }
        ensures groups { IfOk result (λ rules. rules.groups.now ≡ groups.now) }
        ensures least { IfOk result (λ rules. rules.least ≡ least) }
    {
        let blocks = blocks_of(alloc, checked)?;
        let raising = raising_of(alloc, least, &blocks)?;
        let users = alike_users(alloc, &blocks)?;
        let alike = alike_hosts(alloc, &blocks)?;
        let runas = alike_runas(alloc, &blocks)?;
        directory.has_no_fault();
        let cut = cut_of(alloc, checked, least, &blocks, groups)?;
        let mut states = kept_states(alloc, directory, groups, &cut)?;
        sort_states(directory, &mut states)?;
        let few = are_few(directory.people().len(), &states);
        let ground = Ground {
            checked,
            directory,
            groups,
            least,
            blocks: blocks.as_slice(),
            raising: raising.as_slice(),
            alike: users.as_slice(),
            runas: runas.as_slice(),
            keeps: few || have_room(&states, blocks.len()),
        };
        let Gathered { candidates, places } = gather(alloc, ground, &states)?;
        Ok(Rules {
            checked,
            directory,
            groups,
            least,
            blocks,
            raising,
            alike,
            runas,
            cut,
            states,
            candidates,
            places,
            few,
        })
    }
}
