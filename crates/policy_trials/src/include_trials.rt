//! Tests of what is loaded of the files that are handed in, and of what is then wanted.

use crate::fixtures::{file, missing};
use std::alloc::Global;
use std::test::Fail;
use sudo_load::{LoadFault, Supply, Want, load};
use sudo_text::{Place, Seq};

// Returns the first file or folder that is wanted to load a main file; `None` if the policy is loaded, or refused.
fn wanted(alloc: Global, main: &[u8], supplies: &[Supply]) -> Option<Want> {
    let Err((_files, fault)) = load(alloc, b"p/sudoers", main, supplies) else {
        return None;
    };
    match fault {
        LoadFault::Wanted(want) => Some(want),
        _ => None,
    }
}

#[test]
fn what_is_not_handed_in_is_wanted(rt: HostRuntime) -> Result<(), Fail> {
    let alloc = rt.alloc();
    let supplies = [missing(alloc, "p/gone")?];
    let file = Want::File(Seq::from_slice(alloc, b"/x/y")?);
    assert!(rt; wanted(alloc, b"@include /x/y", &supplies) == Some(file));
    let folder = Want::Folder(Seq::from_slice(alloc, b"p/d")?);
    assert!(rt; wanted(alloc, b"#includedir d", &supplies) == Some(folder));
    // What is known to be missing is not wanted.
    assert!(rt; wanted(alloc, b"@include gone", &supplies).is_none());
    Ok(())
}

// Returns the place of the last entry of a policy.
fn last_place(alloc: Global, main: &[u8], supplies: &[Supply]) -> Option<Place> {
    match load(alloc, b"sudoers", main, supplies) {
        Ok(policy) => policy.entries.last().map(|entry| entry.place),
        Err(_) => None,
    }
}

#[test]
fn a_file_read_twice_has_two_numbers(rt: HostRuntime) -> Result<(), Fail> {
    let alloc = rt.alloc();
    // Of two supplies of one path the first counts.
    let supplies = [
        file(alloc, "a", "alice ALL = ALL\n")?,
        file(alloc, "a", "\n\nalice ALL = ALL\n")?,
    ];
    let place = last_place(alloc, b"@include a\n@include a\n", &supplies);
    assert!(rt; place == Some(Place { file: 2, line: 1 }));
    Ok(())
}
