//! The files and folders that include lines name.
ghost use Rattle.std.specs.Prelude.{◌≡◌, ℕ, List, map, filter, IfOk};
ghost use Rattle.std.specs.List.{filter_map};
ghost use Rattle.sudo_load.specs.Unfolding.{IsFolderOrder, include_of as spec_followed};
ghost use Rattle.sudo_load.specs.Paths.{is_kept as spec_is_kept, in_folder as spec_in_folder};
ghost use Rattle.sudo_load.specs.Included.{IncludedBy, wanted_by as spec_named};

use crate::fault::Want;
use crate::file::read;
use crate::paths::{beside, bytes, in_folder, is_kept};
use std::alloc::{AllocError, Global};
use sudo_grammar::{Entry, EntryBody, ParseFault};
use sudo_text::Seq;

// Returns the files of a folder that are read, in the order of their names' bytes.
fn folder_order(alloc: Global, names: &[Seq<u8>]) -> Result<Vec<Seq<u8>>, AllocError>
    ensures { IfOk result (λ v. IsFolderOrder names.now v.items) }
{
    let mut kept = kept_names(alloc, names)?;
    kept.sort_unstable();
    Ok(kept)
}

// Returns the names of the files that are read.
fn kept_names(alloc: Global, names: &[Seq<u8>]) -> Result<Vec<Seq<u8>>, AllocError>
    ensures { IfOk result (λ v. v.items ≡ filter spec_is_kept names.now) }
{
    let mut kept = Vec::new(alloc);
    for name in names {
        if is_kept(name.as_slice()) {
            kept.push(name.clone()?)?;
        }
    }
    Ok(kept)
}

// Returns the paths of a folder's files.
fn paths_in(alloc: Global, folder: &[u8], names: &[Seq<u8>]) -> Result<Vec<Seq<u8>>, AllocError>
    ensures { IfOk result (λ v. v.items ≡ map (spec_in_folder folder.now) names.now) }
{
    let mut paths = Vec::new(alloc);
    for name in names {
        paths.push(in_folder(alloc, folder, name.as_slice())?)?;
    }
    Ok(paths)
}

/// Returns the paths of a folder's files that are read, in the order of their names' bytes; names that end in `~` or
/// contain `.` are skipped. Returns `AllocError` if allocation fails.
pub fn folder_files(
    alloc: Global,
    folder: &[u8],
    names: &[Seq<u8>],
) -> Result<Vec<Seq<u8>>, AllocError>
    ensures { IfOk result (λ v. (ordered : List (List ℕ)) × IsFolderOrder names.now ordered
        × (v.items ≡ map (spec_in_folder folder.now) ordered)) }
{
    let ordered = folder_order(alloc, names)?;
    paths_in(alloc, folder, &ordered)
}

/// Returns, for an include line of a file, whether it names a folder, and the path; `None` for any other line.
pub(crate) fn include_of(
    alloc: Global,
    file: &[u8],
    body: &EntryBody,
) -> Result<Option<(bool, Seq<u8>)>, AllocError>
    ensures { IfOk result (λ wanted_by. wanted_by ≡ spec_followed file.now body.now) }
{
    match body {
        EntryBody::Include { folder, path, .. } => {
            let path = bytes(alloc, path.as_slice())?;
            let path = beside(alloc, file, path.as_slice())?;
            Ok(Some((*folder, path)))
        }
        _ => Ok(None),
    }
}

// Returns the file or folder that a line of a file names, if it is an include line.
fn wanted_by(alloc: Global, file: &[u8], entry: &Entry) -> Result<Option<Want>, AllocError>
    ensures { IfOk result (λ want. want ≡ spec_named file.now entry.now) }
{
    match include_of(alloc, file, &entry.body)? {
        Some((true, path)) => Ok(Some(Want::Folder(path))),
        Some((false, path)) => Ok(Some(Want::File(path))),
        None => Ok(None),
    }
}

// Returns the files and folders that the include lines among a file's entries name.
fn named_in(alloc: Global, file: &[u8], entries: &[Entry]) -> Result<Vec<Want>, AllocError>
    ensures { IfOk result (λ wants. wants.items ≡ filter_map (spec_named file.now) entries.now) }
{
    let mut wants = Vec::new(alloc);
    for entry in entries {
        if let Some(want) = wanted_by(alloc, file, entry)? {
            wants.push(want)?;
        }
    }
    Ok(wants)
}

/// Returns the files and folders that the include lines of one file name, in order, by its path and text; none if the
/// text has a fault. A caller that reads them ahead saves calls of `load`. Returns `AllocError` if allocation fails.
pub fn included(alloc: Global, path: &[u8], text: &[u8]) -> Result<Vec<Want>, AllocError>
    ensures { IfOk result (λ wants. IncludedBy path.now text.now wants.items) }
{
    match read(alloc, 0, text) {
        Ok(entries) => named_in(alloc, path, entries.as_slice()),
        Err(ParseFault::Memory) => Err(AllocError),
        Err(_) => Ok(Vec::new(alloc)),
    }
}
