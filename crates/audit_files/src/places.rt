//! Places of a policy, as they are printed.
ghost use Rattle.std.specs.Prelude.{◌≡◌, ◌++◌, OnOk};
ghost use Rattle.audit_files.specs.Places.{path_of, place_text};

use itoa::Buffer;
use std::alloc::AllocError;
use sudo_text::{Place, Seq};

/// Appends the path of the file with this number.
pub fn push_path(text: &mut Vec<u8>, files: &[Seq<u8>], file: u32) -> Result<(), AllocError>
    ensures { OnOk result (text.new.items ≡ text.old.items ++ path_of files.now file) }
{
    match files.get(file as usize) {
        Some(path) => text.extend_from_slice(path.as_slice()),
        None => Ok(()),
    }
}

/// Appends a place as `PATH:LINE`.
pub fn push_place(text: &mut Vec<u8>, files: &[Seq<u8>], place: Place) -> Result<(), AllocError>
    ensures { OnOk result (text.new.items ≡ text.old.items ++ place_text files.now place) }
{
    push_path(text, files, place.file)?;
    text.extend_from_slice(b":")?;
    let mut digits = Buffer::new();
    text.extend_from_slice(digits.format(place.line).as_bytes())
}
