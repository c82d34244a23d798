//! How a path below a folder is resolved.
ghost use Rattle.std.specs.Prelude.{◌≡◌, ◌<◌, ◌++◌, ◌∷◌, [], IfOk};
ghost use Rattle.review_files.specs.Paths as paths;
ghost use Rattle.review_files.specs.Resolving as spec;

use crate::paths::{
    after_name, first_name, has_slash, is_absolute, is_parent, is_same, path_below,
};
use crate::walk::{Outcome, Step, Walk};
use crate::{Entry, Kind, Tree};
use run_base::Obstacle;
use std::alloc::{AllocError, Global};
use sudo_text::Seq;

// The most links of a path.
const MOST_LINKS: u32 = 40;

// The greatest length of a path, in bytes.
const MOST_BYTES: usize = 4096;

// The most names of a path, with those of the targets of its links.
const MOST_STEPS: u32 = 4096;

// Goes on with names, behind the first name of the path that is left.
fn further(alloc: Global, names: Seq<Seq<u8>>, left: &[u8], links: u32) -> Result<Walk, AllocError>
    ensures { IfOk result (λ walk. walk
        ≡ record { names = names; left = paths.after_name left.now; links = links }) }
{
    let left = Seq::from_slice(alloc, after_name(left))?;
    Ok(Walk { names, left, links })
}

// Returns the names with the first one of the path that is left.
fn names_next(alloc: Global, names: Seq<Seq<u8>>, left: &[u8]) -> Result<Seq<Seq<u8>>, AllocError>
    ensures { IfOk result (λ next. next ≡ names ++ paths.first_name left.now ∷ []) }
{
    let mut names = names;
    names.push(Seq::from_slice(alloc, first_name(left))?)?;
    Ok(names)
}

// Returns the step to the folder above, which must be below the folder.
fn step_up(alloc: Global, folder: &[u8], walk: Walk) -> Result<Step, AllocError>
    ensures { IfOk result (λ step. step ≡ spec.step_up folder.now walk) }
{
    let mut names = walk.names;
    match names.pop() {
        Some(_) => Ok(Step::On(further(alloc, names, walk.left.as_slice(), walk.links)?)),
        None => {
            let folder = Seq::from_slice(alloc, folder)?;
            Ok(Step::End(Outcome::Stopped(Obstacle::LeadsOut(folder))))
        }
    }
}

// Returns the path that is left after a link to a target.
fn left_after(alloc: Global, left: &[u8], target: Seq<u8>) -> Result<Seq<u8>, AllocError>
    ensures { IfOk result (λ after. after ≡ spec.left_after left.now target) }
{
    let mut path = target;
    if has_slash(left) {
        path.push(b'/')?;
        path.extend_from_slice(after_name(left))?;
    }
    Ok(path)
}

// Returns the walk to the target of a link.
fn linked(alloc: Global, walk: Walk, target: Seq<u8>) -> Result<Walk, AllocError>
    requires { walk.links < 40 }
    ensures { IfOk result (λ next. next ≡ spec.linked walk target) }
{
    let Walk { names, left, links } = walk;
    let names = if is_absolute(target.as_slice()) {
        Seq::new(alloc)
    } else {
        names
    };
    let left = left_after(alloc, left.as_slice(), target)?;
    Ok(Walk {
        names,
        left,
        links: links + 1,
    })
}

// Returns the step at an entry that is no link.
fn kind_step(alloc: Global, walk: Walk, kind: Kind) -> Result<Step, AllocError>
    ensures { IfOk result (λ step. step ≡ spec.kind_step walk kind) }
{
    let names = names_next(alloc, walk.names, walk.left.as_slice())?;
    match kind {
        Kind::Folder => Ok(Step::On(further(alloc, names, walk.left.as_slice(), walk.links)?)),
        Kind::File | Kind::Other => {
            if has_slash(walk.left.as_slice()) {
                Ok(Step::End(Outcome::Stopped(Obstacle::NotFolder)))
            } else {
                Ok(Step::End(Outcome::At(names, kind)))
            }
        }
    }
}

// Returns the step at an entry.
fn entry_step(alloc: Global, walk: Walk, entry: Entry) -> Result<Step, AllocError>
    ensures { IfOk result (λ step. step ≡ spec.entry_step walk entry) }
{
    match entry {
        Entry::Absent => Ok(Step::End(Outcome::Missing)),
        Entry::Link(target) => {
            if walk.links < MOST_LINKS {
                Ok(Step::On(linked(alloc, walk, target)?))
            } else {
                Ok(Step::End(Outcome::Stopped(Obstacle::TooManyLinks)))
            }
        }
        Entry::Is(kind) => kind_step(alloc, walk, kind),
        Entry::Unseen(why) => Ok(Step::End(Outcome::Stopped(why))),
    }
}

// Looks at the next name of a walk.
fn look<T: Tree>(tree: &T, alloc: Global, folder: &[u8], walk: &Walk) -> Result<Entry, AllocError>
    ensures { IfOk result (T.shows tree.now
        (paths.path_below folder.now (spec.names_next walk.now))) }
{
    let mut path = path_below(alloc, folder, walk.names.as_slice())?;
    path.push(b'/')?;
    path.extend_from_slice(first_name(walk.left.as_slice()))?;
    tree.look(alloc, path.as_slice())
}

// Returns the step at the next name of a walk, which names an entry.
fn look_step<T: Tree>(
    tree: &T,
    alloc: Global,
    folder: &[u8],
    walk: Walk,
) -> Result<Step, AllocError>
    ensures { IfOk result (spec.IsLookStep (T.shows tree.now) folder.now walk) }
{
    let entry = look(tree, alloc, folder, &walk)?;
    entry_step(alloc, walk, entry)
}

// Returns the step at the next name of a walk.
fn name_step<T: Tree>(
    tree: &T,
    alloc: Global,
    folder: &[u8],
    walk: Walk,
) -> Result<Step, AllocError>
    ensures { IfOk result (spec.IsNameStep (T.shows tree.now) folder.now walk) }
{
    if is_same(first_name(walk.left.as_slice())) {
        return Ok(Step::On(further(alloc, walk.names, walk.left.as_slice(), walk.links)?));
    }
    if is_parent(first_name(walk.left.as_slice())) {
        return step_up(alloc, folder, walk);
    }
    look_step(tree, alloc, folder, walk)
}

// Returns the next step of a walk.
fn step<T: Tree>(tree: &T, alloc: Global, folder: &[u8], walk: Walk) -> Result<Step, AllocError>
    ensures { IfOk result (spec.IsStep (T.shows tree.now) folder.now walk) }
{
    if walk.left.is_empty() {
        Ok(Step::End(Outcome::At(walk.names, Kind::Folder)))
    } else {
        name_step(tree, alloc, folder, walk)
    }
}

// Returns where a walk leads.
fn lead<T: Tree>(tree: &T, alloc: Global, folder: &[u8], walk: Walk) -> Result<Outcome, AllocError>
    ensures { IfOk result (spec.Leads (T.shows tree.now) folder.now spec.most_steps walk) }
{
    let mut walk = walk;
    let mut count = MOST_STEPS;
    while count > 0 {
        count -= 1;
        match step(tree, alloc, folder, walk)? {
            Step::On(next) => walk = next,
            Step::End(outcome) => return Ok(outcome),
        }
    }
    Ok(Outcome::Stopped(Obstacle::Other))
}

/// Returns where a path below a folder leads.
pub(crate) fn resolve<T: Tree>(
    tree: &T,
    alloc: Global,
    folder: &[u8],
    path: &[u8],
) -> Result<Outcome, AllocError>
    ensures { IfOk result (spec.Resolves (T.shows tree.now) folder.now path.now) }
{
    if path.is_empty() {
        return Ok(Outcome::Missing);
    }
    if path.len() > MOST_BYTES {
        return Ok(Outcome::Stopped(Obstacle::Other));
    }
    let left = Seq::from_slice(alloc, path)?;
    let walk = Walk {
        names: Seq::new(alloc),
        left,
        links: 0,
    };
    lead(tree, alloc, folder, walk)
}
