//! Opening of the files that the command line names.
ghost use Rattle.std.specs.Prelude.{ℕ, List, ⊤, IfErr, IfOk};
ghost use Rattle.run_base.specs.Opening.{HasNoReader};
ghost use Rattle.run_base.specs.declared.obstacle.Obstacle.{Obstacle};

use crate::fault::OpenFault;
use crate::obstacle::Obstacle;
use audit_files::Device;
use std::alloc::Global;
use std::fs::File;
use sudo_text::Seq;

/// Opens files for reading, by their paths.
pub trait Opener<R> {
    // Whether a reader may be that of the file at a path.
    ghost opens: { Self → List ℕ → R → Type 0 };

    // Whether a path may have no reader, for this reason.
    ghost closed: { Self → List ℕ → Obstacle → Type 0 };

    /// Opens a file for reading. Returns the obstacle if that fails.
    fn open(&self, path: &str) -> Result<R, Obstacle>
        ensures opened { IfOk result (opens self.now path.now) }
        ensures closed { IfErr result (closed self.now path.now) };
}

/// Opens the files of this machine. Its contracts leave the content of the files unspecified.
#[derive(Drop)]
pub struct SystemOpener<'a> {
    rt: &'a HostRuntime,
}

impl<'a> SystemOpener<'a> {
    /// Creates an opener of the files of this machine.
    pub fn new(rt: &'a HostRuntime) -> SystemOpener<'a> {
        SystemOpener { rt }
    }
}

impl Opener<Device<File>> for SystemOpener<'_> {
    ghost opens = { λ _ _ _. ⊤ };

    ghost closed = { λ _ _ _. ⊤ };

    fn open(&self, path: &str) -> Result<Device<File>, Obstacle> {
        match File::open(self.rt, path) {
            Ok(file) => Ok(Device::new(file)),
            Err(error) => Err(Obstacle::of_error(&error)),
        }
    }
}

/// Opens a file. Returns `CannotRead` with its path and the obstacle if that fails, and `Memory` if allocation failed.
pub fn open<R, O: Opener<R>>(alloc: Global, opener: &O, path: &str) -> Result<R, OpenFault>
    ensures opened { IfOk result (O.opens opener.now path.now) }
    ensures fault { IfErr result (HasNoReader (O.closed opener.now) path.now) }
{
    match opener.open(path) {
        Ok(reader) => Ok(reader),
        Err(why) => match Seq::from_slice(alloc, path.as_bytes()) {
            Ok(path) => Err(OpenFault::CannotRead(path, why)),
            Err(_) => Err(OpenFault::Memory),
        },
    }
}
