//! Paths of included files.
ghost use Rattle.std.specs.Prelude.{◌≡◌, ◌≤◌, ◌==◌, ◌++◌, not, length, reverse, IfOk, map};
ghost use Rattle.std.specs.List.{take_while};
ghost use Rattle.sudo_load.specs.Paths as spec;

use std::alloc::{AllocError, Global};
use sudo_text::{Ch, Seq};

// Returns the number of bytes after the last `/` of a path.
fn name_len(path: &[u8]) -> usize
    ensures len { result ≡ length (take_while (λ b. not (b == 47)) (reverse path.now)) }
    ensures within { result ≤ length path.now }
{
    path.iter().rev().take_while(|b| **b != b'/').count()
}

// Returns the folder of a path: its bytes up to and including the last `/`.
fn folder_of(path: &[u8]) -> &[u8]
    ensures { result.now ≡ spec.folder_of path.now }
{
    &path[..path.len() - name_len(path)]
}

// Whether a path is absolute.
fn is_absolute(path: &[u8]) -> bool
    ensures { result ≡ spec.is_absolute path.now }
{
    match path {
        [first, ..] => *first == b'/',
        [] => false,
    }
}

// Whether a path ends in `/`.
fn ends_in_slash(path: &[u8]) -> bool
    ensures { result ≡ spec.ends_in_slash path.now }
{
    match path {
        [.., last] => *last == b'/',
        [] => false,
    }
}

/// Returns the bytes of the characters of a path.
pub(crate) fn bytes(alloc: Global, chars: &[Ch]) -> Result<Seq<u8>, AllocError>
    ensures { IfOk result (λ s. s ≡ map (λ c. c.byte) chars.now) }
{
    let bytes: Vec<u8> = chars.iter().map(|c| c.byte).collect(alloc)?;
    Ok(Seq::from_vec(bytes))
}

/// Resolves a path that a file names: a relative one is in the file's folder.
pub(crate) fn beside(alloc: Global, file: &[u8], path: &[u8]) -> Result<Seq<u8>, AllocError>
    ensures { IfOk result (λ s. s ≡ spec.beside file.now path.now) }
{
    let mut whole = Seq::new(alloc);
    if !is_absolute(path) {
        whole.extend_from_slice(folder_of(file))?;
    }
    whole.extend_from_slice(path)?;
    Ok(whole)
}

/// Returns the path of a file in a folder.
pub(crate) fn in_folder(alloc: Global, folder: &[u8], name: &[u8]) -> Result<Seq<u8>, AllocError>
    ensures { IfOk result (λ s. s ≡ spec.in_folder folder.now name.now) }
{
    let mut whole = Seq::from_slice(alloc, folder)?;
    if !ends_in_slash(folder) {
        whole.push(b'/')?;
    }
    whole.extend_from_slice(name)?;
    Ok(whole)
}

/// Whether a folder's file is read: whether its name neither ends in `~` nor contains `.`.
pub(crate) fn is_kept(name: &[u8]) -> bool
    ensures { result ≡ spec.is_kept name.now }
{
    !has_dot(name) && !ends_in_tilde(name)
}

fn has_dot(name: &[u8]) -> bool
    ensures { result ≡ spec.has_dot name.now }
{
    name.iter().any(|b| *b == b'.')
}

fn ends_in_tilde(name: &[u8]) -> bool
    ensures { result ≡ spec.ends_in_tilde name.now }
{
    match name {
        [.., last] => *last == b'~',
        [] => false,
    }
}
