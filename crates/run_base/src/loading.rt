//! Reads a policy from its files.
ghost use Rattle.std.specs.Prelude.{◌≡◌, ◌<◌, ◌⊎◌, Some, IfErr, IfOk, OnOk, length, true, vec_len};
ghost use Rattle.sudo_policy.specs.Checking.{Passes};
ghost use Rattle.audit_files.specs.Places as places;
ghost use Rattle.sudo_load.specs.Supplies.{file_in};
ghost use Rattle.run_base.specs.Holding.{AreHeld, IsFileFault, IsHeld, file_at};
ghost use Rattle.run_base.specs.Loading.{IsChecked, IsLoaded, IsLoadedFrom, IsNoPolicy, IsNotChecked, fault_place};
ghost use Rattle.run_base.specs.FaultTexts.{wanted_path};
ghost use Rattle.run_base.specs.Loading.{text_at_fault, text_of_file as spec_text_of_file};
ghost use Rattle.run_base.specs.Body.Loading.{IsNotCheckedOf, IsNotHanded, IsUnfetched};

use crate::fault::PolicyFault;
use crate::files::{Files, FilesFault};
use crate::lines::finding_lines;
use crate::obstacle::Obstacle;
use std::alloc::{AllocError, Global};
use sudo_grammar::{ParseFault, Policy};
use sudo_load::{LoadFault, Supply, Want, folder_files, included, load};
use sudo_policy::{CheckFault, Checked, check};
use sudo_text::{Place, Seq, TextFault};

// The most files and folders that are handed in. `load` needs at most 1,024 of each.
const MOST_SUPPLIES: usize = 2048;

// Returns the fault of a main file that cannot be read, for this reason.
fn unread_main(alloc: Global, path: &[u8], why: Obstacle) -> PolicyFault
    ensures { (result ≡ PolicyFault.Memory) ⊎ (result ≡ PolicyFault.CannotRead path.now why) }
{
    match Seq::from_slice(alloc, path) {
        Ok(path) => PolicyFault::CannotRead(path, why),
        Err(_) => PolicyFault::Memory,
    }
}

// Returns the fault of a main file that is too long.
fn long_main(alloc: Global, path: &[u8]) -> PolicyFault
    ensures { (result ≡ PolicyFault.Memory) ⊎ (result ≡ PolicyFault.TooLong path.now) }
{
    match Seq::from_slice(alloc, path) {
        Ok(path) => PolicyFault::TooLong(path),
        Err(_) => PolicyFault::Memory,
    }
}

// Returns the text of the main file, which must exist.
fn main_text<F: Files>(alloc: Global, files: &mut F, path: &[u8]) -> Result<Seq<u8>, PolicyFault>
    ensures held { IfOk result (λ text. (F.held files.old).is_file path.now (Some text)) }
    ensures same { files.new ≡ files.old }
    ensures fault { IfErr result (IsNoPolicy (F.held files.old) path.now) }
{
    match files.main_file(alloc, path) {
        Ok(Some(text)) => Ok(text),
        Ok(None) => Err(unread_main(alloc, path, Obstacle::NotFound)),
        Err(FilesFault::Failed(why)) => Err(unread_main(alloc, path, why)),
        Err(FilesFault::TooLong) => Err(long_main(alloc, path)),
        Err(FilesFault::Memory) => Err(PolicyFault::Memory),
    }
}

// Reads a needed file or folder. Returns its path and the fault if that fails.
fn fetch<F: Files>(
    alloc: Global,
    files: &mut F,
    want: Want,
) -> Result<Supply, (Seq<u8>, FilesFault)>
    ensures held { IfOk result (IsHeld (F.held files.old)) }
    ensures same { files.new ≡ files.old }
    ensures fault { IfErr result (λ e. IsFileFault (F.held files.old) e.0 e.1) }
    ensures path { IfErr result (λ e. e.0 ≡ wanted_path want) }
{
    match want {
        Want::File(path) => match files.file(alloc, path.as_slice()) {
            Ok(text) => Ok(Supply::File { path, text }),
            Err(fault) => Err((path, fault)),
        },
        Want::Folder(path) => match files.folder(alloc, path.as_slice()) {
            Ok(names) => Ok(Supply::Folder { path, names }),
            Err(fault) => Err((path, fault)),
        },
    }
}

// Whether a file or a folder was read before.
fn is_read(supplies: &[Supply], want: &Want) -> bool
    ensures { result ≡ true → 0 < length supplies.now }
{
    supplies.iter().any(|supply| match (supply, want) {
        (Supply::File { path, .. }, Want::File(wanted)) => path == wanted,
        (Supply::Folder { path, .. }, Want::Folder(wanted)) => path == wanted,
        _ => false,
    })
}

// Returns the files and folders that the include lines of a file name, none if there is no such
// file.
fn named_by_file(
    alloc: Global,
    path: &Seq<u8>,
    text: &Option<Seq<u8>>,
) -> Result<Vec<Want>, AllocError> {
    match text {
        Some(text) => included(alloc, path.as_slice(), text.as_slice()),
        None => Ok(Vec::new(alloc)),
    }
}

// Returns the files of a folder.
fn named_by_folder(
    alloc: Global,
    path: &Seq<u8>,
    names: &Seq<Seq<u8>>,
) -> Result<Vec<Want>, AllocError> {
    let mut wants = Vec::new(alloc);
    for file in folder_files(alloc, path.as_slice(), names.as_slice())? {
        wants.push(Want::File(file))?;
    }
    Ok(wants)
}

// Returns the files and folders that a file or a folder names.
fn named_by(alloc: Global, supply: &Supply) -> Result<Vec<Want>, AllocError> {
    match supply {
        Supply::File { path, text } => named_by_file(alloc, path, text),
        Supply::Folder { path, names } => named_by_folder(alloc, path, names),
    }
}

// Reads a file or a folder, and notes what it names. Skips what cannot be read, since it may not be
// needed. Returns `AllocError` only if allocation failed.
fn read_one<F: Files>(
    alloc: Global,
    files: &mut F,
    want: Want,
    supplies: &mut Vec<Supply>,
    pending: &mut Vec<Want>,
) -> Result<(), AllocError>
    requires { AreHeld (F.held files.old) supplies.old.items }
    ensures held { AreHeld (F.held files.new) supplies.new.items }
    ensures same { files.new ≡ files.old }
{
    match fetch(alloc, files, want) {
        Ok(supply) => {
            pending.append(&mut named_by(alloc, &supply)?)?;
            Ok(supplies.push(supply)?)
        }
        Err((_, FilesFault::Failed(_) | FilesFault::TooLong)) => Ok(()),
        Err((_, FilesFault::Memory)) => Err(AllocError),
    }
}

// Reads ahead what a file includes, so that `load` is rarely called again and no file is parsed
// repeatedly. It decides nothing: what it skipped is read when it is needed, and it gives back all that it read if
// allocation fails, so that `load` has as much memory as without it.
fn read_ahead<F: Files>(alloc: Global, files: &mut F, path: &[u8], text: &[u8]) -> Vec<Supply>
    ensures held { AreHeld (F.held files.new) result.items }
    ensures same { files.new ≡ files.old }
{
    let mut supplies = Vec::new(alloc);
    let Ok(mut pending) = included(alloc, path, text) else {
        return supplies;
    };
    for _turn in 0..MOST_SUPPLIES {
        let Some(want) = pending.pop() else {
            break;
        };
        if is_read(&supplies, &want) {
            continue;
        }
        if read_one(alloc, files, want, &mut supplies, &mut pending).is_err() {
            return Vec::new(alloc);
        }
    }
    supplies
}

// Returns the fault of a path that is needed and could not be read.
fn unfetched(path: Seq<u8>, fault: FilesFault) -> PolicyFault
    ensures { IsUnfetched path fault result }
{
    match fault {
        FilesFault::Failed(why) => PolicyFault::CannotRead(path, why),
        FilesFault::TooLong => PolicyFault::TooLong(path),
        FilesFault::Memory => PolicyFault::Memory,
    }
}

// Reads a needed file or folder.
fn push_wanted<F: Files>(
    alloc: Global,
    files: &mut F,
    want: Want,
    supplies: &mut Vec<Supply>,
) -> Result<(), PolicyFault>
    requires { AreHeld (F.held files.old) supplies.old.items }
    ensures held { OnOk result (AreHeld (F.held files.new) supplies.new.items) }
    ensures more { OnOk result (vec_len supplies.old < vec_len supplies.new) }
    ensures same { files.new ≡ files.old }
    ensures fault { IfErr result (IsNotHanded (F.held files.old) want) }
{
    match fetch(alloc, files, want) {
        Ok(supply) => Ok(supplies.push(supply)?),
        Err((path, fault)) => Err(unfetched(path, fault)),
    }
}

// Reads a needed file or folder. The first time, reads ahead all that the main file includes.
fn hand_in<F: Files>(
    alloc: Global,
    files: &mut F,
    path: &[u8],
    text: &[u8],
    want: Want,
    supplies: &mut Vec<Supply>,
) -> Result<(), PolicyFault>
    requires { AreHeld (F.held files.old) supplies.old.items }
    ensures held { OnOk result (AreHeld (F.held files.new) supplies.new.items) }
    ensures more { OnOk result (vec_len supplies.old < vec_len supplies.new) }
    ensures same { files.new ≡ files.old }
    ensures fault { IfErr result (IsNotHanded (F.held files.old) want) }
{
    if supplies.is_empty() {
        *supplies = read_ahead(alloc, files, path, text);
        if is_read(supplies, &want) {
            return Ok(());
        }
    }
    push_wanted(alloc, files, want, supplies)
}

/// A policy, and what it was read from: the text of its main file, and the files and folders that were read for it.
#[derive(Drop)]
pub struct Loaded {
    pub text: Seq<u8>,
    pub supplies: Seq<Supply>,
    pub policy: Policy,
}

// Returns the place of a fault in a line.
fn place_of(fault: &LoadFault) -> Option<Place>
    ensures { result ≡ fault_place fault.now }
{
    match fault {
        LoadFault::Parse(fault) => match fault {
            ParseFault::Syntax { place, .. }
            | ParseFault::Unsupported { place, .. }
            | ParseFault::NotCommand { place, .. }
            | ParseFault::BadNumber { place, .. }
            | ParseFault::TooMany { place }
            | ParseFault::Text(
                TextFault::BadQuote { place, .. }
                | TextFault::BadHex { place, .. }
                | TextFault::BadEscape { place, .. }
                | TextFault::NotPrintable { place, .. },
            ) => Some(*place),
            ParseFault::Text(TextFault::TooLong { .. } | TextFault::Memory) | ParseFault::Memory =>
                None,
        },
        _ => None,
    }
}

// Returns the text of the file at a path, or that it is missing, if this is its supply.
fn text_in(supply: Supply, path: &[u8]) -> Option<Option<Seq<u8>>>
    ensures { result ≡ file_in path.now supply }
{
    match supply {
        Supply::File { path: found, text } => {
            if found.as_slice() == path {
                Some(text)
            } else {
                None
            }
        }
        Supply::Folder { .. } => None,
    }
}

// Returns the text of the file at a path, if it was read.
fn read_text(supplies: Vec<Supply>, path: &[u8]) -> Option<Seq<u8>>
    ensures { result ≡ file_at supplies.items path.now }
{
    for supply in supplies {
        if let Some(text) = text_in(supply, path) {
            return text;
        }
    }
    None
}

// Returns the path of the file with a number, empty if there is none.
fn path_at(read: &[Seq<u8>], file: u32) -> &[u8]
    ensures { result.now ≡ places.path_of read.now file }
{
    match read.get(file as usize) {
        Some(path) => path.as_slice(),
        None => &[],
    }
}

// Returns the text of the file with a number, given the text of the main file, what was read for it, and the paths of the
// files in their order.
fn text_of_file(
    main: Seq<u8>,
    supplies: Vec<Supply>,
    read: &[Seq<u8>],
    number: u32,
) -> Option<Seq<u8>>
    ensures { result ≡ spec_text_of_file main supplies.items read.now number }
{
    if number == 0 {
        return Some(main);
    }
    drop(main);
    read_text(supplies, path_at(read, number))
}

// Returns the text of the file in which a fault is.
fn faulty_text(
    main: Seq<u8>,
    supplies: Vec<Supply>,
    read: &[Seq<u8>],
    fault: &LoadFault,
) -> Option<Seq<u8>>
    ensures { result ≡ text_at_fault main supplies.items read.now fault.now }
{
    match place_of(fault) {
        Some(place) => text_of_file(main, supplies, read, place.file),
        None => None,
    }
}

/// Returns the policy of a file and of all that it includes, with what was read. Reads what `load` needs, and calls `load`
/// again.
///
/// Returns `CannotRead` with the path of the main file, or of what is needed after what was read, and the obstacle, if it cannot be read,
/// `TooLong` if it is longer than a file of a policy may be; `TooManyFiles` if 2,048 files and folders were read and
/// more are needed; `Refused` with the text of the faulty file if the content of the files is refused; `Memory` if allocation failed.
pub fn load_files<F: Files>(
    alloc: Global,
    path: &[u8],
    files: &mut F,
) -> Result<Loaded, PolicyFault>
    ensures loaded { IfOk result (λ loaded. IsLoadedFrom (F.held files.old) path.now
        loaded.text loaded.supplies loaded.policy) }
    ensures fault { IfErr result (IsNoPolicy (F.held files.old) path.now) }
{
    let text = main_text(alloc, files, path)?;
    let mut supplies = Vec::new(alloc);
    for _call in 0..MOST_SUPPLIES {
        match load(alloc, path, text.as_slice(), &supplies) {
            Ok(policy) => {
                return Ok(Loaded {
                    text,
                    supplies: Seq::from_vec(supplies),
                    policy,
                });
            }
            Err((read, fault)) => match fault {
                LoadFault::Wanted(want) => {
                    let bytes = text.as_slice();
                    match hand_in(alloc, files, path, bytes, want, &mut supplies) {
                        Ok(()) => {}
                        Err(fault) => return Err(fault),
                    }
                }
                LoadFault::Memory => return Err(PolicyFault::Memory),
                fault => {
                    let text = faulty_text(text, supplies, read.as_slice(), &fault);
                    return Err(PolicyFault::Refused { read, fault, text });
                }
            },
        }
    }
    Err(PolicyFault::TooManyFiles)
}

/// Returns the policy of a file and of all that it includes. Returns the faults of `load_files`.
pub fn load_policy<F: Files>(
    alloc: Global,
    path: &[u8],
    files: &mut F,
) -> Result<Policy, PolicyFault>
    ensures loaded { IfOk result (λ policy. IsLoaded (F.held files.old) path.now policy) }
    ensures fault { IfErr result (IsNoPolicy (F.held files.old) path.now) }
{
    let loaded = load_files(alloc, path, files)?;
    Ok(loaded.policy)
}

/// Returns the policy of a file and of all that it includes, if it passes the check. Returns the faults of `load_files`, or
/// `Errors` with the lines of the errors that the check finds.
pub fn checked_policy<F: Files>(
    alloc: Global,
    path: &[u8],
    files: &mut F,
) -> Result<Checked, PolicyFault>
    ensures checked { IfOk result (IsChecked (F.held files.old) path.now) }
    ensures fault { IfErr result (IsNotChecked (F.held files.old) path.now) }
{
    let policy = load_policy(alloc, path, files)?;
    checked_or_errors(alloc, policy)
}

/// A policy that passes the check, and what it was read from: the text of its main file, and the files and folders that
/// were read for it.
#[derive(Drop)]
pub struct CheckedFiles {
    pub text: Seq<u8>,
    pub supplies: Seq<Supply>,
    pub policy: Checked,
}

/// Returns the policy of a file and of all that it includes, if it passes the check, with what was read. Returns the faults of
/// `checked_policy`.
pub fn checked_files<F: Files>(
    alloc: Global,
    path: &[u8],
    files: &mut F,
) -> Result<CheckedFiles, PolicyFault>
    ensures loaded { IfOk result (λ checked. IsLoadedFrom (F.held files.old) path.now
        checked.text checked.supplies checked.policy) }
    ensures passes { IfOk result (λ checked. Passes checked.policy) }
    ensures fault { IfErr result (IsNotChecked (F.held files.old) path.now) }
{
    let Loaded {
        text,
        supplies,
        policy,
    } = load_files(alloc, path, files)?;
    match checked_or_errors(alloc, policy) {
        Ok(policy) => Ok(CheckedFiles {
            text,
            supplies,
            policy,
        }),
        Err(fault) => Err(fault),
    }
}

// Returns a policy that passes the check, or `Errors` with the lines of its errors.
fn checked_or_errors(alloc: Global, policy: Policy) -> Result<Checked, PolicyFault>
    ensures same { IfOk result (λ checked. checked ≡ policy) }
    ensures passes { IfOk result (λ checked. Passes policy) }
    ensures fault { IfErr result (IsNotCheckedOf policy) }
{
    match check(alloc, policy) {
        Ok(checked) => Ok(checked),
        Err(CheckFault::Findings(policy, findings)) => {
            let lines = finding_lines(alloc, policy.files.as_slice(), findings.as_slice(), true)?;
            Err(PolicyFault::Errors(lines))
        }
        Err(CheckFault::Memory(_)) => Err(PolicyFault::Memory),
    }
}
