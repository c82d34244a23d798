//! The names of a folder below the folder.
ghost use Rattle.std.specs.Prelude.{◌≡◌, ◌++◌, ℕ, List, IfOk, OnOk};
ghost use Rattle.review_files.specs.Paths.{in_folder};
ghost use Rattle.review_files.specs.Reading as spec;
ghost use Rattle.review_files.specs.Resolving.{Resolves};

use crate::paths::in_folder;
use crate::resolving::resolve;
use crate::walk::Outcome;
use crate::{Kind, Tree};
use std::alloc::{AllocError, Global};
use sudo_text::Seq;

// Whether an entry that leads to this is listed.
fn is_listed(outcome: &Outcome) -> bool
    ensures { result ≡ spec.is_listed outcome.now }
{
    match outcome {
        Outcome::At(_, Kind::File) | Outcome::Stopped(_) => true,
        Outcome::At(_, Kind::Folder | Kind::Other) | Outcome::Missing => false,
    }
}

// Returns where the entry of a name leads, in the folder at a path.
fn resolve_entry<T: Tree>(
    tree: &T,
    alloc: Global,
    folder: &[u8],
    path: &[u8],
    name: &[u8],
) -> Result<Outcome, AllocError>
    ensures { IfOk result (Resolves (T.shows tree.now) folder.now (in_folder path.now name.now)) }
{
    let whole = in_folder(alloc, path, name)?;
    resolve(tree, alloc, folder, whole.as_slice())
}

// Appends a name, if its entry in the folder at a path is listed.
fn push_listed<T: Tree>(
    tree: &T,
    alloc: Global,
    folder: &[u8],
    path: &[u8],
    name: &[u8],
    listed: &mut Seq<Seq<u8>>,
) -> Result<(), AllocError>
    ensures { OnOk result ((listing : List (List ℕ))
        × spec.IsListing (T.shows tree.now) folder.now path.now name.now listing
        × (listed.new ≡ listed.old ++ listing)) }
{
    let outcome = resolve_entry(tree, alloc, folder, path, name)?;
    if is_listed(&outcome) {
        listed.push(Seq::from_slice(alloc, name)?)?;
    }
    Ok(())
}

/// Returns those of the names of a folder's entries that are listed.
pub(crate) fn listed<T: Tree>(
    tree: &T,
    alloc: Global,
    folder: &[u8],
    path: &[u8],
    names: &[Seq<u8>],
) -> Result<Seq<Seq<u8>>, AllocError>
    ensures { IfOk result (spec.AreListed (T.shows tree.now) folder.now path.now names.now) }
{
    let mut listed = Seq::new(alloc);
    for name in names {
        push_listed(tree, alloc, folder, path, name.as_slice(), &mut listed)?;
    }
    Ok(listed)
}
