//! The loading of a policy from files that include files.
ghost use Rattle.std.specs.Prelude.{◌≡◌, ℕ, ◌≤◌, ◌<◌, ◌^◌, length, IfOk, IfErr, Ok, []};
ghost use Rattle.sudo_load.specs.Unfolding.{FileLoads, FilesLoad, FolderLoads, EntryLoads, EntriesLoad, TextLoads};
ghost use Rattle.sudo_load.specs.Unfolding.{nothing_loaded as spec_nothing, with_file as spec_with_file};
ghost use Rattle.sudo_load.specs.Unfolding.{with_entry as spec_with_entry};
ghost use Rattle.sudo_parser.specs.Parsed.{over_limit};
ghost use Rattle.sudo_load.specs.Body.Outcomes.{GivesBy};
ghost use Rattle.sudo_load.specs.Load.{Closes, LoadGives};
ghost use Rattle.sudo_load.specs.Body.IsConsistent.{IsConsistent};
ghost use Rattle.sudo_load.specs.FaultFiles.{IsInFiles};

use crate::fault::{LoadFault, Want};
use crate::file::read;
use crate::include::{folder_files, include_of};
use crate::supply::{Supply, find_file, find_folder};
use std::alloc::{AllocError, Global};
use sudo_grammar::{Entry, ParseFault, Policy};
use sudo_parser::first_over_limit;
use sudo_text::{Place, Seq};

// The maximum number of files that are read, and of folders.
const READING_LIMIT: usize = 1024;

// The maximum depth of nested includes.
const NESTING_LIMIT: u32 = 128;

/// The state of loading.
#[derive(Drop)]
pub(crate) struct LoadState {
    /// The paths of the files read, by file number.
    pub files: Seq<Seq<u8>>,
    /// The number of folders read.
    pub folders: usize,
    /// The entries read, in order.
    pub entries: Seq<Entry>,
}

/// A fault, with the paths of the files read up to it.
pub(crate) type Refusal = (Seq<Seq<u8>>, LoadFault);

// Returns a refusal for an allocation failure. It contains no paths.
fn out_of_memory(alloc: Global) -> Refusal
    ensures { (result.0 ≡ []) × (result.1 ≡ LoadFault.Memory) }
{
    (Seq::new(alloc), LoadFault::Memory)
}

// Returns the initial state.
fn nothing_loaded(alloc: Global) -> LoadState
    ensures { result ≡ spec_nothing }
{
    LoadState {
        files: Seq::new(alloc),
        folders: 0,
        entries: Seq::new(alloc),
    }
}

// Appends the path of a file.
fn with_file(loaded: LoadState, path: &Seq<u8>) -> Result<LoadState, AllocError>
    ensures { IfOk result (λ l. l ≡ spec_with_file loaded path.now) }
{
    let LoadState {
        mut files,
        folders,
        entries,
    } = loaded;
    files.push(path.clone()?)?;
    Ok(LoadState {
        files,
        folders,
        entries,
    })
}

// Appends an entry.
fn with_entry(loaded: LoadState, entry: Entry) -> Result<LoadState, AllocError>
    ensures { IfOk result (λ l. l ≡ spec_with_entry loaded entry) }
{
    let LoadState {
        files,
        folders,
        mut entries,
    } = loaded;
    entries.push(entry)?;
    Ok(LoadState {
        files,
        folders,
        entries,
    })
}

// Includes the files at these paths at a place, one after another.
#[cycle(loading)]
fn load_files(
    alloc: Global,
    levels: u32,
    supplies: &[Supply],
    loaded: LoadState,
    place: Place,
    paths: Vec<Seq<u8>>,
) -> Result<LoadState, Refusal>
    ensures { GivesBy (FilesLoad (FileLoads levels supplies.now) loaded place paths.items) result }
{
    let mut loaded = loaded;
    for path in paths {
        loaded = match load_file(alloc, levels, supplies, loaded, place, path) {
            Ok(loaded) => loaded,
            Err(refusal) => return Err(refusal),
        };
    }
    Ok(loaded)
}

// Includes the file at a path at a place, with `levels` levels of includes left.
#[cycle(loading)]
fn load_file(
    alloc: Global,
    levels: u32,
    supplies: &[Supply],
    loaded: LoadState,
    place: Place,
    path: Seq<u8>,
) -> Result<LoadState, Refusal>
    ensures { GivesBy (FileLoads levels supplies.now loaded place path) result }
{
    if levels == 0 {
        return Err((loaded.files, LoadFault::TooNested { place }));
    }
    if loaded.files.len() >= READING_LIMIT {
        return Err((loaded.files, LoadFault::TooMany { place }));
    }
    match find_file(supplies, path.as_slice()) {
        None => Err((loaded.files, LoadFault::Wanted(Want::File(path)))),
        Some(None) => Err((loaded.files, LoadFault::Missing { place, path })),
        Some(Some(text)) => load_text(alloc, levels - 1, supplies, loaded, path, text.as_slice()),
    }
}

// Includes the folder at a path at a place.
#[cycle(loading)]
fn load_folder(
    alloc: Global,
    levels: u32,
    supplies: &[Supply],
    loaded: LoadState,
    place: Place,
    path: Seq<u8>,
) -> Result<LoadState, Refusal>
    ensures { GivesBy (FolderLoads (FileLoads levels supplies.now) supplies.now loaded place path)
        result }
{
    if loaded.folders >= READING_LIMIT {
        return Err((loaded.files, LoadFault::TooMany { place }));
    }
    let Some(names) = find_folder(supplies, path.as_slice()) else {
        return Err((loaded.files, LoadFault::Wanted(Want::Folder(path))));
    };
    let Ok(paths) = folder_files(alloc, path.as_slice(), names.as_slice()) else {
        return Err(out_of_memory(alloc));
    };
    let loaded = LoadState {
        files: loaded.files,
        folders: loaded.folders + 1,
        entries: loaded.entries,
    };
    load_files(alloc, levels, supplies, loaded, place, paths)
}

// Loads a line of a file: includes the file or folder of an include line, and appends any other entry.
#[cycle(loading)]
fn load_entry(
    alloc: Global,
    levels: u32,
    supplies: &[Supply],
    file: &[u8],
    loaded: LoadState,
    entry: Entry,
) -> Result<LoadState, Refusal>
    ensures { GivesBy (EntryLoads (FileLoads levels supplies.now) supplies.now file.now loaded
        entry) result }
{
    let place = entry.place;
    match include_of(alloc, file, &entry.body) {
        Ok(None) => match with_entry(loaded, entry) {
            Ok(loaded) => Ok(loaded),
            Err(_) => Err(out_of_memory(alloc)),
        },
        Ok(Some((is_folder, path))) => {
            drop(entry);
            if is_folder {
                load_folder(alloc, levels, supplies, loaded, place, path)
            } else {
                load_file(alloc, levels, supplies, loaded, place, path)
            }
        }
        Err(_) => Err(out_of_memory(alloc)),
    }
}

// Loads the lines of a file, one after another.
#[cycle(loading)]
fn load_entries(
    alloc: Global,
    levels: u32,
    supplies: &[Supply],
    file: &[u8],
    loaded: LoadState,
    entries: Vec<Entry>,
) -> Result<LoadState, Refusal>
    ensures { GivesBy (EntriesLoad (FileLoads levels supplies.now) supplies.now file.now loaded
        entries.items) result }
{
    let mut loaded = loaded;
    for entry in entries {
        loaded = match load_entry(alloc, levels, supplies, file, loaded, entry) {
            Ok(loaded) => loaded,
            Err(refusal) => return Err(refusal),
        };
    }
    Ok(loaded)
}

// Loads the text of a file. It is parsed whole before its includes are resolved.
#[cycle(loading)]
fn load_text(
    alloc: Global,
    levels: u32,
    supplies: &[Supply],
    loaded: LoadState,
    path: Seq<u8>,
    text: &[u8],
) -> Result<LoadState, Refusal>
    requires { length loaded.files < 1024 }
    ensures { GivesBy (TextLoads (FileLoads levels supplies.now) supplies.now loaded path text.now)
        result }
{
    let number = loaded.files.len() as u32;
    let Ok(loaded) = with_file(loaded, &path) else {
        return Err(out_of_memory(alloc));
    };
    match read(alloc, number, text) {
        Ok(entries) => load_entries(
            alloc,
            levels,
            supplies,
            path.as_slice(),
            loaded,
            entries.into_vec(),
        ),
        Err(ParseFault::Memory) => Err(out_of_memory(alloc)),
        Err(fault) => Err((loaded.files, LoadFault::Parse(fault))),
    }
}

// Returns the policy that was loaded. Returns `Parse(TooMany)` if there are too many definitions in all files together.
fn policy_of(loaded: LoadState) -> Result<Policy, Refusal>
    requires { IsConsistent loaded }
    ensures closes { Closes loaded (over_limit loaded.entries) result }
    ensures placed { IfErr result (λ refusal. IsInFiles refusal) }
{
    match first_over_limit(loaded.entries.as_slice()) {
        None => Ok(Policy {
            files: loaded.files,
            entries: loaded.entries,
        }),
        Some(place) => Err((
            loaded.files,
            LoadFault::Parse(ParseFault::TooMany { place }),
        )),
    }
}

/// Returns the policy of a main file, by its path and text, and of the provided files and folders that it includes.
///
/// Each include line is replaced by the entries of its file, or of its folder's files in the order of their names;
/// names that end in `~` or contain `.` are skipped. A relative path is in the including file's folder. A file is
/// parsed whole before its includes are resolved, and files are numbered in the order in which they are read.
///
/// Otherwise returns the first fault, with the paths of the files read up to it, including a faulty one. For an include
/// line it is the first of these that applies: for a file `TooNested` past 128 levels, `TooMany` past 1,024 files,
/// `Wanted` if it is not provided, `Missing`, and `Parse`; for a folder `TooMany` past 1,024 folders, and `Wanted`.
/// Last, returns `Parse(TooMany)` for the first definition past 4,096 of its kind in all files. Returns `Memory` only
/// if allocation fails, without paths. The file number in a fault is below the number of paths. Supplies that are not
/// needed have no effect.
pub fn load(
    alloc: Global,
    path: &[u8],
    text: &[u8],
    supplies: &[Supply],
) -> Result<Policy, (Seq<Seq<u8>>, LoadFault)>
    ensures load { LoadGives path.now text.now supplies.now result }
    ensures memory { IfErr result (λ refusal. refusal.1 ≡ LoadFault.Memory → refusal.0 ≡ []) }
    ensures placed { IfErr result (λ refusal. IsInFiles refusal) }
{
    let Ok(path) = Seq::from_slice(alloc, path) else {
        return Err(out_of_memory(alloc));
    };
    match load_text(
        alloc,
        NESTING_LIMIT,
        supplies,
        nothing_loaded(alloc),
        path,
        text,
    ) {
        Ok(loaded) => policy_of(loaded),
        Err(refusal) => Err(refusal),
    }
}
