//! Laws of resolved paths.
ghost use Rattle.review_files.specs.Laws.{PathsStayBelow};

use crate::Tree;

/// A path below a folder of a tree that leads to an entry leads to one below the folder: its names are names of entries, and
/// a look at each of them may show no link.
pub fn resolved_paths_stay_below<T: Tree>(tree: &T)
    ensures { PathsStayBelow (T.shows tree.now) }
{}
