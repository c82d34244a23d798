//! Steps of many users to one state: which blocks of rows allow it, found once for all hosts.
ghost use Rattle.std.specs.Prelude.{◌≡◌, ◌<◌, List, false, filter, IfOk, length, map, option_copied, slice_get, take};
ghost use Rattle.std.specs.List.{slice_index_or};
ghost use Rattle.sudo_grammar.specs.declared.policy.Policy.{Policy};
ghost use Rattle.sudo_match.specs.KnownRows.{KnownRows};
ghost use Rattle.sudo_match.specs.declared.people.Group.{Group as TheGroup};
ghost use Rattle.sudo_verdict.specs.RunasForms.{is_same_user};
ghost use Rattle.review_roots.specs.Body.Raising.{passes_at};
ghost use Rattle.review_roots.specs.Body.Towards.{asker_allowed, AllowAlone, AllowOf, AreAllowed, HasStrong, IsToward, block_allows};
ghost use Rattle.review_roots.specs.declared.block.Block.{Block as TheBlock};
ghost use Rattle.review_roots.specs.declared.level.Level.{Level as TheLevel};

use crate::alike::earlier;
use crate::ground::Ground;
use crate::raising::push_if;
use crate::state::{State, group_at};
use crate::steps::is_at;
use std::alloc::{AllocError, Global};
use sudo_match::{Group, Machine, Person};
use sudo_text::Seq;
use sudo_verdict::{Asker, allows_runas};

/// A state to which steps are sought; for each block of rows whether its runas allows the user of the state, with its added
/// group, to users of another name; the indices of those that do and raise; and whether the same blocks are known to allow the user
/// without an added group.
#[derive(Drop)]
pub(crate) struct Toward {
    pub(crate) state: State,
    pub(crate) allowed: Vec<bool>,
    pub(crate) strong: Vec<usize>,
    pub(crate) as_alone: bool,
}

// Returns a user of another name.
fn stranger_to(alloc: Global, person: &Person) -> Result<Person, AllocError>
    ensures { IfOk result (λ other. is_same_user person.now other ≡ false) }
{
    let name = match person.name.as_slice() {
        [] => Seq::from_slice(alloc, b"x")?,
        _ => Seq::new(alloc),
    };
    Ok(Person {
        name,
        uid: person.uid,
        groups: Seq::new(alloc),
    })
}

// Whether the runas of the block at an index allows what is asked, where that is known of those before it: looked up, unless one of
// them has the same runas.
fn allows_behind(ground: Ground<'_, '_>, allowed: &[bool], index: usize, asker: Asker<'_>) -> bool
    requires inside { index < length ground.blocks.now }
    requires known { allowed.now ≡ map (asker_allowed ground.checked.now ground.directory.now asker)
        (take index ground.blocks.now) }
    ensures { result ≡ passes_at (asker_allowed ground.entry.checked.now ground.entry.directory.now
        asker.entry) ground.entry.blocks.now index }
{
    match earlier(ground.runas, index) {
        Some(first) => is_at(allowed, first),
        None => {
            let runas = ground.blocks[index].runas;
            allows_runas(ground.checked, ground.directory, asker, runas)
        }
    }
}

// Returns for each block whether its runas allows the target and the group to a user, on a host.
fn allowed_to(
    alloc: Global,
    ground: Ground<'_, '_>,
    user: &Person,
    host: &Machine,
    target: &Person,
    group: Option<&Group>,
) -> Result<Vec<bool>, AllocError>
    ensures { IfOk result (λ allowed. allowed.items ≡ map (block_allows ground.entry.checked.now
        ground.entry.directory.now user.now host.now target.now (option_copied group.entry))
        ground.entry.blocks.now) }
{
    let asker = Asker {
        user,
        host,
        target: Some(target),
        group,
    };
    let mut allowed = Vec::new(alloc);
    for index in 0..ground.blocks.len() {
        let stands = allows_behind(ground, &allowed, index, asker);
        allowed.push(stands)?;
    }
    Ok(allowed)
}

// Returns for each block whether its runas allows the target and the group to users of another name, on any host.
fn allowed(
    alloc: Global,
    ground: Ground<'_, '_>,
    target: &Person,
    group: Option<&Group>,
) -> Result<Vec<bool>, AllocError>
    ensures { IfOk result (λ allowed. AreAllowed ground.entry.checked.now
        ground.entry.directory.now ground.entry.blocks.now target.now
        (option_copied group.entry) allowed.items) }
{
    let stranger = stranger_to(alloc, target)?;
    let host = Machine {
        name: Seq::new(alloc),
        interfaces: Seq::new(alloc),
    };
    allowed_to(alloc, ground, &stranger, &host, target, group)
}

// Returns the same for the user of an index, if it is known.
fn allowed_at(
    alloc: Global,
    ground: Ground<'_, '_>,
    user: usize,
    group: Option<&Group>,
) -> Result<Vec<bool>, AllocError>
    ensures { IfOk result (λ allowed. AllowOf ground.entry.checked.now
        ground.entry.directory.now ground.entry.blocks.now
        (slice_get ground.entry.directory.now.people user) (option_copied group.entry)
        allowed.items) }
{
    match ground.directory.people().get(user) {
        Some(target) => allowed(alloc, ground, target, group),
        None => Ok(Vec::new(alloc)),
    }
}

/// Returns for each block whether its runas allows the user of an index, without an added group, to users of another name. Returns
/// `AllocError` if allocation fails.
pub(crate) fn allowed_alone(
    alloc: Global,
    ground: Ground<'_, '_>,
    user: usize,
) -> Result<Vec<bool>, AllocError>
    ensures { IfOk result (λ allowed. AllowAlone ground.entry.checked.now
        ground.entry.directory.now ground.entry.blocks.now user allowed.items) }
{
    allowed_at(alloc, ground, user, None)
}

// Returns the indices of the blocks that raise at which the list is true.
fn strong_to(
    alloc: Global,
    ground: Ground<'_, '_>,
    allowed: &[bool],
) -> Result<Vec<usize>, AllocError>
    ensures { IfOk result (λ strong. strong.items
        ≡ filter (λ i. slice_index_or allowed.now i false) ground.entry.raising.now) }
{
    let mut strong = Vec::new(alloc);
    for index in ground.raising {
        push_if(&mut strong, *index, is_at(allowed, *index))?;
    }
    Ok(strong)
}

/// Returns what the steps to a state depend on. Returns `AllocError` if allocation fails.
pub(crate) fn toward_at(
    alloc: Global,
    ground: Ground<'_, '_>,
    state: State,
) -> Result<Toward, AllocError>
    ensures toward { IfOk result (λ toward. IsToward ground.entry.checked.now
        ground.entry.directory.now ground.entry.groups.now ground.entry.blocks.now state toward) }
    ensures strong { IfOk result (λ toward. HasStrong ground.entry.least ground.entry.blocks.now
        toward) }
{
    let group = group_at(ground.groups, state.added);
    let allowed = allowed_at(alloc, ground, state.user, group)?;
    let strong = strong_to(alloc, ground, &allowed)?;
    Ok(Toward {
        state,
        allowed,
        strong,
        as_alone: state.added.is_none(),
    })
}

/// Notes whether the same blocks allow the user without an added group: those at which the list is true.
pub(crate) fn beside(toward: Toward, alone: &[bool]) -> Toward
    ensures toward { (p : Policy) (d : KnownRows) (gs : List TheGroup) (bs : List TheBlock)
        → IsToward p d gs bs toward.state toward
        → AllowAlone p d bs toward.state.user alone.now
        → IsToward p d gs bs toward.state result }
    ensures strong { (l : TheLevel) (bs : List TheBlock) → HasStrong l bs toward
        → HasStrong l bs result }
{
    let Toward {
        state,
        allowed,
        strong,
        as_alone: _,
    } = toward;
    let as_alone = allowed.as_slice() == alone;
    Toward {
        state,
        allowed,
        strong,
        as_alone,
    }
}
