//! The files of a policy below a folder.
ghost use Rattle.std.specs.Prelude.{◌≡◌, ◌≢◌, ◌⊎◌, IfErr, IfOk, IsErrOf};
ghost use Rattle.run_base.specs.Holding.{IsFileFault, IsFolderFault};
ghost use Rattle.review_files.specs.Reading as spec;
ghost use Rattle.review_files.specs.declared.tree.Kind.TheVariants as kinds;
ghost use Rattle.review_files.specs.declared.walk.Outcome.TheVariants as outcomes;

use crate::listing::listed;
use crate::paths::path_below;
use crate::resolving::resolve;
use crate::walk::Outcome;
use crate::{Kind, Tree};
use run_base::{Files, FilesFault, Obstacle};
use std::alloc::Global;
use sudo_text::Seq;

/// The files of a policy below a folder, in which they lie as on another machine. Only regular files are read.
///
/// The folder's own path is that of its user, and may have symbolic links. The tree below it must not change while it is
/// read: a name that becomes a link after the look at it is followed by the system.
#[derive(Drop)]
pub struct Rooted<T> {
    tree: T,
    folder: Seq<u8>,
}

impl<T: Tree> Rooted<T> {
    /// Creates the files below the folder at a path of a tree.
    pub fn new(tree: T, folder: Seq<u8>) -> Rooted<T>
        ensures tree { result.tree ≡ tree }
        ensures folder { result.folder ≡ folder }
    {
        Rooted { tree, folder }
    }
}

// Returns the text of the file to which a path leads.
fn text_at<T: Tree>(
    tree: &T,
    alloc: Global,
    folder: &[u8],
    outcome: Outcome,
) -> Result<Option<Seq<u8>>, FilesFault>
    ensures { spec.GivesText (T.reads tree.now) folder.now outcome result
        ⊎ IsErrOf result FilesFault.Memory }
{
    match outcome {
        Outcome::At(names, Kind::File) => {
            let path = path_below(alloc, folder, names.as_slice())?;
            tree.text(alloc, path.as_slice())
        }
        Outcome::At(_, Kind::Folder) => Err(FilesFault::Failed(Obstacle::IsFolder)),
        Outcome::At(_, Kind::Other) => Err(FilesFault::Failed(Obstacle::NotFile)),
        Outcome::Missing => Ok(None),
        Outcome::Stopped(why) => Err(FilesFault::Failed(why)),
    }
}

// Returns the text of the file at a path below a folder.
fn text_below<T: Tree>(
    tree: &T,
    alloc: Global,
    folder: &[u8],
    path: &[u8],
) -> Result<Option<Seq<u8>>, FilesFault>
    ensures { spec.IsText (T.shows tree.now) (T.reads tree.now) folder.now path.now result }
{
    let outcome = resolve(tree, alloc, folder, path)?;
    text_at(tree, alloc, folder, outcome)
}

// Returns the listed names of the entries of the folder of these names.
fn names_of<T: Tree>(
    tree: &T,
    alloc: Global,
    folder: &[u8],
    path: &[u8],
    names: &[Seq<u8>],
) -> Result<Seq<Seq<u8>>, FilesFault>
    ensures names { spec.GivesNames (T.shows tree.now) (T.lists tree.now) folder.now path.now
        (outcomes.At names.now kinds.Folder) result }
    ensures fault { IfErr result (λ e. e ≢ FilesFault.TooLong) }
{
    let whole = path_below(alloc, folder, names)?;
    let entries = tree.names(alloc, whole.as_slice())?;
    Ok(listed(tree, alloc, folder, path, entries.as_slice())?)
}

// Returns the listed names of the folder to which a path leads.
fn names_at<T: Tree>(
    tree: &T,
    alloc: Global,
    folder: &[u8],
    path: &[u8],
    outcome: Outcome,
) -> Result<Seq<Seq<u8>>, FilesFault>
    ensures names { spec.GivesNames (T.shows tree.now) (T.lists tree.now) folder.now path.now
        outcome result }
    ensures fault { IfErr result (λ e. e ≢ FilesFault.TooLong) }
{
    match outcome {
        Outcome::At(names, Kind::Folder) => {
            names_of(tree, alloc, folder, path, names.as_slice())
        }
        Outcome::At(_, Kind::File | Kind::Other) => Err(FilesFault::Failed(Obstacle::NotFolder)),
        Outcome::Missing => Ok(Seq::new(alloc)),
        Outcome::Stopped(why) => Err(FilesFault::Failed(why)),
    }
}

// Returns the listed names of the folder at a path below a folder.
fn names_below<T: Tree>(
    tree: &T,
    alloc: Global,
    folder: &[u8],
    path: &[u8],
) -> Result<Seq<Seq<u8>>, FilesFault>
    ensures names { spec.AreNames (T.shows tree.now) (T.lists tree.now) folder.now path.now
        result }
    ensures fault { IfErr result (λ e. e ≢ FilesFault.TooLong) }
{
    let outcome = resolve(tree, alloc, folder, path)?;
    names_at(tree, alloc, folder, path, outcome)
}

impl<T: Tree> Files for Rooted<T> {
    ghost held = { λ s. spec.below (T.shows s.tree) (T.reads s.tree) (T.lists s.tree) s.folder };

    fn file(&mut self, alloc: Global, path: &[u8]) -> Result<Option<Seq<u8>>, FilesFault>
        ensures text { let held = spec.below (T.shows self.old.tree) (T.reads self.old.tree)
            (T.lists self.old.tree) self.old.folder in
            IfOk result (λ text. held.is_file path.now text) }
        ensures fault { let held = spec.below (T.shows self.old.tree) (T.reads self.old.tree)
            (T.lists self.old.tree) self.old.folder in
            IfErr result (IsFileFault held path.now) }
        ensures same { self.new ≡ self.old }
        ensures below { spec.IsText (T.shows self.old.tree) (T.reads self.old.tree)
            self.old.folder path.now result }
    {
        text_below(&self.tree, alloc, self.folder.as_slice(), path)
    }

    fn folder(&mut self, alloc: Global, path: &[u8]) -> Result<Seq<Seq<u8>>, FilesFault>
        ensures names { let held = spec.below (T.shows self.old.tree) (T.reads self.old.tree)
            (T.lists self.old.tree) self.old.folder in
            IfOk result (λ names. held.is_folder path.now names) }
        ensures fault { let held = spec.below (T.shows self.old.tree) (T.reads self.old.tree)
            (T.lists self.old.tree) self.old.folder in
            IfErr result (IsFolderFault held path.now) }
        ensures same { self.new ≡ self.old }
        ensures below { spec.AreNames (T.shows self.old.tree) (T.lists self.old.tree)
            self.old.folder path.now result }
    {
        names_below(&self.tree, alloc, self.folder.as_slice(), path)
    }
}
