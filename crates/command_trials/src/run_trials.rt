//! Runs in which what cannot be read is not reached, and files that are told beforehand.

ghost use Rattle.std.specs.Prelude.{◌≢◌};

use crate::runs::{Item, Shelf};
use audit_commands::{check_run, unread};
use audit_files::Script;
use clap::error::ErrorKind;
use run_base::{Files, FilesFault, Obstacle};
use std::alloc::{AllocError, Global};
use std::io::ErrorKind as ReadKind;
use std::test::Fail;
use sudo_text::Seq;

// The faults of reading that are tried.
#[derive(Clone, Copy)]
enum Refusal {
    Denied,
    TooLong,
    Memory,
}

// Files over memory, and one path that cannot be read, for this reason.
#[derive(Clone, Copy)]
struct Locked<'a> {
    shelf: Shelf<'a>,
    path: &'a [u8],
    refusal: Refusal,
}

// Returns the fault of a refusal.
fn fault_of(refusal: Refusal) -> FilesFault {
    match refusal {
        Refusal::Denied => FilesFault::Failed(Obstacle::PermissionDenied),
        Refusal::TooLong => FilesFault::TooLong,
        Refusal::Memory => FilesFault::Memory,
    }
}

// Returns the fault of a refusal of a folder, which is never too long.
fn folder_fault(refusal: Refusal) -> FilesFault
    ensures { result ≢ FilesFault.TooLong }
{
    match refusal {
        Refusal::Denied | Refusal::TooLong => FilesFault::Failed(Obstacle::PermissionDenied),
        Refusal::Memory => FilesFault::Memory,
    }
}

impl Files for Locked<'_> {
    ghost use Rattle.run_base.specs.Holding.{any_holdings};

    ghost held = { λ _. any_holdings };

    fn file(&mut self, alloc: Global, path: &[u8]) -> Result<Option<Seq<u8>>, FilesFault> {
        if path == self.path {
            return Err(fault_of(self.refusal));
        }
        self.shelf.file(alloc, path)
    }

    fn folder(&mut self, alloc: Global, path: &[u8]) -> Result<Seq<Seq<u8>>, FilesFault> {
        if path == self.path {
            return Err(folder_fault(self.refusal));
        }
        self.shelf.folder(alloc, path)
    }
}

// Whether `check` of this policy ends with this status and output, if reading `locked` fails for
// this reason.
fn checks_locked(
    alloc: Global,
    policy: &[u8],
    refusal: Refusal,
    status: u8,
    err_text: &[u8],
) -> Result<bool, AllocError> {
    let items = [Item {
        path: b"p",
        text: policy,
    }];
    let mut files = Locked {
        shelf: Shelf { items: &items },
        path: b"locked",
        refusal,
    };
    let mut out = Script::of(alloc, b"", 1000)?;
    let mut err = Script::of(alloc, b"", 1000)?;
    let ended = check_run(alloc, b"p", &mut files, &mut out, &mut err);
    Ok(ended == status && out.taken().is_empty() && err.taken() == err_text)
}

#[test]
fn leaves_what_is_not_reached(rt: HostRuntime) -> Result<(), Fail> {
    let alloc = rt.alloc();
    let missing = b"@include gone\n@include locked\n@includedir locked\n";
    let broken = b"alice ALL =\n@include locked\n";
    let reached = b"@include locked\n@include gone\n";
    for refusal in [Refusal::Denied, Refusal::TooLong, Refusal::Memory] {
        assert!(rt;
            checks_locked(
                alloc,
                missing,
                refusal,
                1,
                b"sudo_audit: p:1: missing gone\n"
            )?
        );
        let line = b"sudo_audit: p:1:12: syntax error, expected command\n";
        assert!(rt; checks_locked(alloc, broken, refusal, 1, line)?);
    }
    let line = b"sudo_audit: cannot read locked\n";
    assert!(rt; checks_locked(alloc, reached, Refusal::Denied, 4, line)?);
    let line = b"sudo_audit: locked: text too long\n";
    assert!(rt; checks_locked(alloc, reached, Refusal::TooLong, 1, line)?);
    let line = b"sudo_audit: out of memory\n";
    assert!(rt; checks_locked(alloc, reached, Refusal::Memory, 4, line)?);
    Ok(())
}

#[test]
fn counts_what_went_out(rt: HostRuntime) -> Result<(), Fail> {
    let alloc = rt.alloc();
    let items = [Item {
        path: b"p",
        text: b"alice NET = ALL\n",
    }];
    let mut shelf = Shelf { items: &items };
    let mut out = Script::of(alloc, b"", 10)?.failing_at(3);
    let mut err = Script::of(alloc, b"", 1000)?;
    let ended = check_run(alloc, b"p", &mut shelf, &mut out, &mut err);
    assert!(rt; ended == 4 && out.taken() == b"p:1: error: undefine".as_slice());
    assert!(rt; err.taken() == b"sudo_audit: write failed after 20 bytes\n".as_slice());
    let mut out = Script::of(alloc, b"", 0)?;
    let mut err = Script::of(alloc, b"", 10)?.failing_at(2);
    let ended = check_run(alloc, b"p", &mut shelf, &mut out, &mut err);
    assert!(rt; ended == 4 && out.taken().is_empty());
    assert!(rt; err.taken() == b"sudo_audit".as_slice());
    Ok(())
}

// One file over memory, and nothing else. Its contracts specify the file.
#[derive(Drop)]
struct Alone {
    path: Seq<u8>,
    text: Seq<u8>,
}

impl Files for Alone {
    ghost use Rattle.std.specs.Prelude.{Some, [], ◌∷◌};
    ghost use Rattle.run_base.specs.Holding.{holdings_of};
    ghost use Rattle.sudo_load.specs.declared.supply.Supply.TheVariants.{File};

    ghost held = { λ s. holdings_of (File s.path (Some s.text) ∷ []) [] };

    fn file(&mut self, alloc: Global, path: &[u8]) -> Result<Option<Seq<u8>>, FilesFault> {
        if self.path.as_slice() != path {
            return Ok(None);
        }
        match Seq::from_slice(alloc, self.text.as_slice()) {
            Ok(text) => Ok(Some(text)),
            Err(_) => Err(FilesFault::Memory),
        }
    }

    fn folder(&mut self, alloc: Global, _path: &[u8]) -> Result<Seq<Seq<u8>>, FilesFault> {
        Ok(Seq::new(alloc))
    }
}

#[test]
fn reads_what_is_told(rt: HostRuntime) -> Result<(), Fail> {
    let alloc = rt.alloc();
    let mut alone = Alone {
        path: Seq::from_slice(alloc, b"p")?,
        text: Seq::from_slice(alloc, b"alice ALL = ALL\n@includedir d\n")?,
    };
    let mut out = Script::of(alloc, b"", 1000)?;
    let mut err = Script::of(alloc, b"", 1000)?;
    let ended = check_run(alloc, b"p", &mut alone, &mut out, &mut err);
    assert!(rt; ended == 0 && out.taken() == b"ok\n".as_slice());
    let ended = check_run(alloc, b"q", &mut alone, &mut out, &mut err);
    assert!(rt; ended == 4 && err.taken() == b"sudo_audit: cannot read q\n".as_slice());
    Ok(())
}

#[test]
fn tells_words_that_are_not_read(rt: HostRuntime) {
    let alloc = rt.alloc();
    let text = unread(alloc, ReadKind::InvalidData);
    assert!(rt; text.use_stderr() && text.kind() == ErrorKind::ValueValidation);
    let memory = unread(alloc, ReadKind::OutOfMemory);
    assert!(rt; memory.kind() == ErrorKind::OutOfMemory);
}
