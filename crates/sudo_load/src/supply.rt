//! The files and folders that a caller provides.
ghost use Rattle.std.specs.Prelude.{◌≡◌};
ghost use Rattle.std.specs.Option.{option_copied};
ghost use Rattle.sudo_load.specs.Supplies.{file_in, folder_in, supplied_file, supplied_folder};

use sudo_text::Seq;

/// A provided file or folder, by its path. Of two supplies of one kind and path the first counts.
#[derive(Clone, Debug, Drop, PartialEq, Eq)]
pub enum Supply {
    /// A file and its text, or `None` if there is no such file.
    File {
        path: Seq<u8>,
        text: Option<Seq<u8>>,
    },
    /// A folder and the names of its regular files; a folder that does not exist has none.
    Folder {
        path: Seq<u8>,
        names: Seq<Seq<u8>>,
    },
}

impl Supply {
    // Returns the text of the file at this path, or that it is missing, if this is its supply.
    fn file(&self, path: &[u8]) -> Option<&Option<Seq<u8>>>
        ensures { option_copied result ≡ file_in path.now self.now }
    {
        match self {
            Supply::File { path: found, text } => {
                if found.as_slice() == path {
                    Some(text)
                } else {
                    None
                }
            }
            Supply::Folder { .. } => None,
        }
    }

    // Returns the names in the folder at this path, if this is its supply.
    fn folder(&self, path: &[u8]) -> Option<&Seq<Seq<u8>>>
        ensures { option_copied result ≡ folder_in path.now self.now }
    {
        match self {
            Supply::File { .. } => None,
            Supply::Folder { path: found, names } => {
                if found.as_slice() == path {
                    Some(names)
                } else {
                    None
                }
            }
        }
    }
}

/// Returns the text of the file at a path, or that it is missing; `None` if it is not provided.
pub(crate) fn find_file<'a>(supplies: &'a [Supply], path: &[u8]) -> Option<&'a Option<Seq<u8>>>
    ensures { option_copied result ≡ supplied_file supplies.now path.now }
{
    let mut left = supplies;
    while let Some((supply, rest)) = left.split_first() {
        if let Some(text) = supply.file(path) {
            return Some(text);
        }
        left = rest;
    }
    None
}

/// Returns the names in the folder at a path; `None` if it is not provided.
pub(crate) fn find_folder<'a>(supplies: &'a [Supply], path: &[u8]) -> Option<&'a Seq<Seq<u8>>>
    ensures { option_copied result ≡ supplied_folder supplies.now path.now }
{
    let mut left = supplies;
    while let Some((supply, rest)) = left.split_first() {
        if let Some(names) = supply.folder(path) {
            return Some(names);
        }
        left = rest;
    }
    None
}
