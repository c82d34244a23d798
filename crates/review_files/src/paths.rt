//! The names of a path.
ghost use Rattle.std.specs.Prelude.{◌≡◌, ◌≤◌, IfOk, length};
ghost use Rattle.review_files.specs.Paths as spec;

use std::alloc::{AllocError, Global};
use sudo_text::Seq;

// Returns the number of bytes before the first slash of a path.
fn name_len(path: &[u8]) -> usize
    ensures count { result ≡ spec.name_len path.now }
    ensures within { result ≤ length path.now }
{
    path.iter().take_while(|b| **b != b'/').count()
}

/// Returns the first name of a path: the bytes before its first slash.
pub(crate) fn first_name(path: &[u8]) -> &[u8]
    ensures { result.now ≡ spec.first_name path.now }
{
    &path[..name_len(path)]
}

/// Whether a slash follows the first name of a path.
pub(crate) fn has_slash(path: &[u8]) -> bool
    ensures { result ≡ spec.has_slash path.now }
{
    name_len(path) < path.len()
}

/// Returns the path behind the first slash of a path.
pub(crate) fn after_name(path: &[u8]) -> &[u8]
    ensures { result.now ≡ spec.after_name path.now }
{
    let len = name_len(path);
    if len < path.len() {
        &path[len + 1..]
    } else {
        &[]
    }
}

/// Whether a path is absolute.
pub(crate) fn is_absolute(path: &[u8]) -> bool
    ensures { result ≡ spec.is_absolute path.now }
{
    !path.is_empty() && path[0] == b'/'
}

/// Whether a name leads to the folder in which it is.
pub(crate) fn is_same(name: &[u8]) -> bool
    ensures { result ≡ spec.is_same name.now }
{
    name.is_empty() || name == b".".as_slice()
}

/// Whether a name leads to the folder above.
pub(crate) fn is_parent(name: &[u8]) -> bool
    ensures { result ≡ spec.is_parent name.now }
{
    name == b"..".as_slice()
}

/// Returns the path of names below a folder.
pub(crate) fn path_below(
    alloc: Global,
    folder: &[u8],
    names: &[Seq<u8>],
) -> Result<Seq<u8>, AllocError>
    ensures { IfOk result (λ path. path ≡ spec.path_below folder.now names.now) }
{
    let mut path = Seq::from_slice(alloc, folder)?;
    for name in names {
        path.push(b'/')?;
        path.extend_from_slice(name.as_slice())?;
    }
    Ok(path)
}

/// Returns the path of a name in the folder at a path.
pub(crate) fn in_folder(alloc: Global, path: &[u8], name: &[u8]) -> Result<Seq<u8>, AllocError>
    ensures { IfOk result (λ whole. whole ≡ spec.in_folder path.now name.now) }
{
    let mut whole = Seq::from_slice(alloc, path)?;
    whole.push(b'/')?;
    whole.extend_from_slice(name)?;
    Ok(whole)
}
