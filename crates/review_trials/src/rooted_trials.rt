//! Files below the folder `/r` of a tree over memory, which follows no link: what a path leads to there is read, and nothing
//! else is looked at.
//!
//! Each line of a table has a path, ` =>`, and the text of the file or the names of the folder; or why there are none, after `!`.

use review_files::{Entry, Kind, Rooted, Tree};
use run_base::{Files, FilesFault, Obstacle};
use std::alloc::{AllocError, Global};
use std::test::Fail;
use sudo_text::Seq;

// What is at a path of the tree.
#[derive(Clone, Copy)]
enum Node {
    Folder,
    File(&'static str),
    Link(&'static str),
    Pipe,
    Denied,
}

// The tree. There is a file of the same name beside the folder `/r`.
const NODES: [(&str, Node); 24] = [
    ("/etc/sudoers", Node::File("outside")),
    ("/r/etc", Node::Folder),
    ("/r/etc/sudoers", Node::File("main")),
    ("/r/etc/absolute", Node::Link("/etc/sudoers")),
    ("/r/etc/relative", Node::Link("./sudoers")),
    ("/r/etc/above", Node::Link("../etc//sudoers")),
    ("/r/etc/top", Node::Link("/..//etc/sudoers")),
    ("/r/etc/out", Node::Link("../../etc/sudoers")),
    ("/r/etc/twice", Node::Link("absolute")),
    ("/r/etc/loop", Node::Link("pool")),
    ("/r/etc/pool", Node::Link("loop")),
    ("/r/etc/nowhere", Node::Link("none")),
    ("/r/conf", Node::Link("/etc")),
    ("/r/down", Node::Link("etc/d/")),
    ("/r/etc/d", Node::Folder),
    ("/r/etc/d/web", Node::File("web")),
    ("/r/etc/d/linked", Node::Link("../sudoers")),
    ("/r/etc/d/nowhere", Node::Link("/none")),
    ("/r/etc/d/out", Node::Link("../../../etc/sudoers")),
    ("/r/etc/d/folder", Node::Folder),
    ("/r/etc/d/up", Node::Link("..")),
    ("/r/etc/d/pipe", Node::Pipe),
    ("/r/etc/d/denied", Node::Denied),
    ("/r/dot.", Node::File("dot")),
];

/// The tree of these nodes.
#[derive(Drop)]
pub(crate) struct Grove;

// Returns the node at a path.
fn node_at(path: &[u8]) -> Option<Node> {
    for (place, node) in &NODES {
        if place.as_bytes() == path {
            return Some(*node);
        }
    }
    None
}

// Returns the name of an entry of a folder, if the path is one of it.
fn name_in<'a>(folder: &[u8], path: &'a [u8]) -> Option<&'a [u8]> {
    match path.strip_prefix(folder)? {
        [b'/', name @ ..] if !name.contains(&b'/') => Some(name),
        _ => None,
    }
}

impl Tree for Grove {
    ghost use Rattle.std.specs.Prelude.{⊤};

    ghost shows = { λ _ _ _. ⊤ };

    ghost reads = { λ _ _ _. ⊤ };

    ghost lists = { λ _ _ _. ⊤ };

    fn look(&self, alloc: Global, path: &[u8]) -> Result<Entry, AllocError> {
        match node_at(path) {
            None => Ok(Entry::Absent),
            Some(Node::Folder) => Ok(Entry::Is(Kind::Folder)),
            Some(Node::File(_)) => Ok(Entry::Is(Kind::File)),
            Some(Node::Link(target)) => {
                Ok(Entry::Link(Seq::from_slice(alloc, target.as_bytes())?))
            }
            Some(Node::Pipe) => Ok(Entry::Is(Kind::Other)),
            Some(Node::Denied) => Ok(Entry::Unseen(Obstacle::PermissionDenied)),
        }
    }

    fn text(&self, alloc: Global, path: &[u8]) -> Result<Option<Seq<u8>>, FilesFault> {
        match node_at(path) {
            Some(Node::File(text)) => Ok(Some(Seq::from_slice(alloc, text.as_bytes())?)),
            _ => Err(FilesFault::Failed(Obstacle::Other)),
        }
    }

    fn names(&self, alloc: Global, path: &[u8]) -> Result<Seq<Seq<u8>>, FilesFault> {
        let mut names = Seq::new(alloc);
        for (place, _) in &NODES {
            if let Some(name) = name_in(path, place.as_bytes()) {
                names.push(Seq::from_slice(alloc, name)?)?;
            }
        }
        Ok(names)
    }
}

/// Returns the files below `/r`.
pub(crate) fn files(alloc: Global) -> Result<Rooted<Grove>, AllocError> {
    Ok(Rooted::new(Grove, Seq::from_slice(alloc, b"/r")?))
}

// Appends what a fault says.
fn push_fault(line: &mut Seq<u8>, fault: &FilesFault) -> Result<(), AllocError> {
    match fault {
        FilesFault::Failed(Obstacle::LeadsOut(folder)) => {
            line.extend_from_slice(b" !out of ")?;
            line.extend_from_slice(folder.as_slice())
        }
        FilesFault::Failed(Obstacle::TooManyLinks) => line.extend_from_slice(b" !links"),
        FilesFault::Failed(Obstacle::IsFolder) => line.extend_from_slice(b" !folder"),
        FilesFault::Failed(Obstacle::NotFolder) => line.extend_from_slice(b" !no folder"),
        FilesFault::Failed(Obstacle::NotFile) => line.extend_from_slice(b" !no file"),
        FilesFault::Failed(Obstacle::PermissionDenied) => line.extend_from_slice(b" !denied"),
        FilesFault::Failed(Obstacle::Other) => line.extend_from_slice(b" !other"),
        _ => line.extend_from_slice(b" !"),
    }
}

// Returns the text of the file at a path, or why there is none, on a line.
fn file_shown(alloc: Global, path: &[u8]) -> Result<Seq<u8>, AllocError> {
    let mut line = Seq::new(alloc);
    match files(alloc)?.file(alloc, path) {
        Ok(Some(text)) => {
            line.push(b' ')?;
            line.extend_from_slice(text.as_slice())?;
        }
        Ok(None) => line.extend_from_slice(b" none")?,
        Err(fault) => push_fault(&mut line, &fault)?,
    }
    Ok(line)
}

// Returns the names of the folder at a path, or why there are none, on a line.
fn folder_shown(alloc: Global, path: &[u8]) -> Result<Seq<u8>, AllocError> {
    let mut line = Seq::new(alloc);
    match files(alloc)?.folder(alloc, path) {
        Ok(names) => {
            for name in &names {
                line.push(b' ')?;
                line.extend_from_slice(name.as_slice())?;
            }
        }
        Err(fault) => push_fault(&mut line, &fault)?,
    }
    Ok(line)
}

// Whether a line of a table has the text of its file, or else the names of its folder.
fn is_shown(alloc: Global, row: &str, is_folder: bool) -> Result<bool, AllocError> {
    let Some((path, wanted)) = row.split_once(" =>") else {
        return Ok(false);
    };
    let shown = if is_folder {
        folder_shown(alloc, path.as_bytes())?
    } else {
        file_shown(alloc, path.as_bytes())?
    };
    Ok(shown.as_slice() == wanted.as_bytes())
}

// Whether each line of a table has what its path leads to, as files or as folders.
fn are_shown(alloc: Global, table: &str, are_folders: bool) -> Result<bool, AllocError> {
    for row in table.lines() {
        if !is_shown(alloc, row, are_folders)? {
            return Ok(false);
        }
    }
    Ok(true)
}

#[test]
fn paths_and_links_begin_at_the_folder(rt: HostRuntime) -> Result<(), Fail> {
    let table = "\
/etc/sudoers => main
etc/sudoers => main
//etc/.//sudoers => main
/etc/d/../sudoers => main
/dot. => dot
/../etc/sudoers => !out of /r
/etc/../../r/etc/sudoers => !out of /r
/none => none
/none/../etc/sudoers => none
 => none
/etc/absolute => main
/etc/relative => main
/etc/above => main
/etc/twice => main
/conf/sudoers => main
/conf/../conf/d/web => web
/down/web => web
/down/../absolute => main
/etc/top => !out of /r
/etc/out => !out of /r
/etc/d/up/d/up/sudoers => main
/etc/loop => !links
/etc/nowhere => none";
    assert!(rt; are_shown(rt.alloc(), table, false)?);
    Ok(())
}

#[test]
fn regular_files_alone_are_read(rt: HostRuntime) -> Result<(), Fail> {
    let table = "\
/ => !folder
/etc => !folder
/conf => !folder
/etc/sudoers/ => !no folder
/etc/absolute/ => !no folder
/etc/sudoers/x => !no folder
/etc/sudoers/.. => !no folder
/etc/d/pipe => !no file
/etc/d/denied => !denied
/etc/d/denied/x => !denied";
    assert!(rt; are_shown(rt.alloc(), table, false)?);
    Ok(())
}

#[test]
fn folders_list_what_may_be_files(rt: HostRuntime) -> Result<(), Fail> {
    let table = "\
/etc/d => web linked out denied
/etc/d/ => web linked out denied
conf/d => web linked out denied
/ => dot.
/none =>
/etc/sudoers => !no folder
/etc/d/pipe => !no folder
/etc/d/out => !out of /r
/etc/loop => !links";
    assert!(rt; are_shown(rt.alloc(), table, true)?);
    Ok(())
}

// Returns the path of the file behind as many links as `pairs` says, two for each.
fn linked_path(alloc: Global, pairs: u32) -> Result<Seq<u8>, AllocError> {
    let mut path = Seq::new(alloc);
    for _ in 0..pairs {
        path.extend_from_slice(b"conf/d/up/../")?;
    }
    path.extend_from_slice(b"etc/sudoers")?;
    Ok(path)
}

// Returns the path of the file with this number of bytes, eleven or more.
fn long_path(alloc: Global, len: usize) -> Result<Seq<u8>, AllocError> {
    let mut path = Seq::new(alloc);
    for _ in 11..len {
        path.push(b'/')?;
    }
    path.extend_from_slice(b"etc/sudoers")?;
    Ok(path)
}

#[test]
fn links_and_lengths_have_limits(rt: HostRuntime) -> Result<(), Fail> {
    let alloc = rt.alloc();
    let linked = file_shown(alloc, linked_path(alloc, 20)?.as_slice())?;
    assert!(rt; linked.as_slice() == b" main".as_slice());
    let over = file_shown(alloc, linked_path(alloc, 21)?.as_slice())?;
    assert!(rt; over.as_slice() == b" !links".as_slice());
    let long = file_shown(alloc, long_path(alloc, 4096)?.as_slice())?;
    assert!(rt; long.as_slice() == b" main".as_slice());
    let longer = file_shown(alloc, long_path(alloc, 4097)?.as_slice())?;
    assert!(rt; longer.as_slice() == b" !other".as_slice());
    Ok(())
}
