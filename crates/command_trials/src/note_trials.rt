//! Cautions on notes: on the commands that stand for a digest, a time or a root.

use crate::runs::{Item, Shelf, cautions_shown};
use audit_files::Script;
use std::test::Fail;

// Policies in which such commands stand before others, and alone.
const LINES: [Item<'static>; 1] = [Item {
    path: b"p",
    text: b"alice ALL = /t[z-a], /opt/x\nbob ALL = /c[z-a], /d[z-a], /opt/x\n",
}];

const LINKED: [Item<'static>; 1] = [Item {
    path: b"p",
    text: b"alice ALL = /d[z-a], /bin/ls\n",
}];

#[test]
fn notes_are_named_one_by_one(rt: HostRuntime) -> Result<(), Fail> {
    let alloc = rt.alloc();
    let out = Script::of(alloc, b"", 1000)?;
    let shown = cautions_shown(alloc, &mut Shelf { items: &LINES }, out)?;
    assert_eq!(rt;
        shown.as_str(),
        "5 p:2: caution: depends: digest: sudo asks for it too: not judged here;\
        p:1: caution: depends: time: sudo asks for it too: not judged here;\
        p:2: caution: depends: chroot: sudo asks for it too: not judged here;cautions: 3;"
    );
    Ok(())
}

#[test]
fn notes_have_no_other_caution(rt: HostRuntime) -> Result<(), Fail> {
    let alloc = rt.alloc();
    let out = Script::of(alloc, b"", 1000)?;
    let shown = cautions_shown(alloc, &mut Shelf { items: &LINKED }, out)?;
    assert_eq!(rt;
        shown.as_str(),
        "5 p:1: caution: linked: a command is below a folder that is a link on most machines: \
        two paths here, for sudo one file;\
        p:1: caution: depends: digest: sudo asks for it too: not judged here;cautions: 2;"
    );
    Ok(())
}
