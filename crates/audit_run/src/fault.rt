//! Faults of an audit.

use audit_collect::CollectFault;
use audit_files::FileFault;
use std::alloc::AllocError;
use sudo_text::Seq;
use thiserror::Error;

/// The reason why an audit returns no report.
#[derive(Clone, Debug, Drop, PartialEq, Eq, Error)]
pub enum AuditFault {
    /// A source is refused; it is the first such, in their order. `part` counts the sender's
    /// sources from 1.
    #[error("part {part}: {fault}")]
    Sender {
        name: Seq<u8>,
        part: u32,
        fault: FileFault,
    },
    /// The collector refuses the roster or what the sources state.
    #[error(transparent)]
    Collect(CollectFault),
    /// A thread could not be started.
    #[error("no thread")]
    NoThread,
    /// Out of memory.
    #[error("out of memory")]
    Memory,
    /// There are more than 256 sources.
    #[error("too many parts")]
    TooManyParts,
}

impl From<AllocError> for AuditFault {
    ghost use Rattle.std.specs.Prelude.{◌≡◌};
    ghost use Rattle.audit_run.specs.declared.fault.AuditFault.TheVariants.{Memory};

    ghost from_gives = { λ _ e. e ≡ Memory };

    fn from(_: AllocError) -> AuditFault {
        AuditFault::Memory
    }
}
