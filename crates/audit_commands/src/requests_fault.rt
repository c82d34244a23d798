//! Faults of the requests of an audit, with the names of the senders.
ghost use Rattle.std.specs.Prelude.{◌≡◌, IfOk, None, Some, IsSome, [], slice_index_or};
ghost use Rattle.audit_run.specs.Roster.{roster};
ghost use Rattle.audit_commands.specs.NamedFaults.{fault_named, has_parts as two_have, lack_named, part_named, refusal_named};

use audit_collect::{CollectFault, Refused, RosterFault, Unfinished};
use audit_files::FileFault;
use audit_run::{AuditFault, roster_of};
use std::alloc::{AllocError, Global};
use sudo_text::Seq;

/// The reason why the requests of an audit have no report.
#[derive(Debug, Drop)]
pub enum RequestsFault {
    /// A requests file is refused. `part` counts the files of the sender from 1, if it has several.
    File {
        sender: Seq<u8>,
        part: Option<u32>,
        fault: FileFault,
    },
    /// Two files of the sender have a request of this number.
    Twice {
        sender: Seq<u8>,
        number: u32,
    },
    /// Two files of the sender have a close row.
    ClosedTwice {
        sender: Seq<u8>,
    },
    /// The number of a request exceeds the count of the close row.
    PastClose {
        sender: Seq<u8>,
        number: u32,
    },
    /// No file of the sender has a close row.
    NotClosed {
        sender: Seq<u8>,
    },
    /// No file of the sender has the request of this number, which the close row counts.
    Missing {
        sender: Seq<u8>,
        number: u32,
    },
    /// There are more than 64 senders.
    TooManySenders,
    /// There are more than 256 requests files.
    TooManyParts,
    /// A thread could not be started.
    NoThread,
}

// Returns the name of the sender at this index of the roster, which holds each of the sources' names once. Returns an empty
// name if the roster ends before this index.
fn sender_at(alloc: Global, names: &[Seq<u8>], sender: u32) -> Result<Seq<u8>, AllocError>
    ensures { IfOk result (λ name. name ≡ slice_index_or (roster names.now) sender []) }
{
    let roster = roster_of(alloc, names)?;
    match roster.get(sender as usize) {
        Some(name) => Seq::from_slice(alloc, name.as_slice()),
        None => Ok(Seq::new(alloc)),
    }
}

// Whether at least two sources have the name.
fn has_parts(names: &[Seq<u8>], name: &Seq<u8>) -> bool
    ensures { result ≡ two_have names.now name.now }
{
    names.iter().filter(|other| *other == name).count() > 1
}

// Returns the number of the part if at least two sources have the name.
fn named_part(names: &[Seq<u8>], name: &Seq<u8>, part: u32) -> Option<u32>
    ensures { result ≡ part_named names.now name.now part }
{
    if has_parts(names, name) {
        Some(part)
    } else {
        None
    }
}

// Returns the collector's refusal of what the sources state, with the name of the sender.
fn named_refusal(
    alloc: Global,
    names: &[Seq<u8>],
    refused: Refused,
) -> Result<RequestsFault, AllocError>
    requires { IsSome (refusal_named names.now refused) }
    ensures { IfOk result (λ fault. refusal_named names.now refused ≡ Some fault) }
{
    match refused {
        Refused::Double { sender, number } => {
            let sender = sender_at(alloc, names, sender)?;
            Ok(RequestsFault::Twice { sender, number })
        }
        Refused::ClosedTwice { sender } => {
            let sender = sender_at(alloc, names, sender)?;
            Ok(RequestsFault::ClosedTwice { sender })
        }
        Refused::PastClose { sender, number } => {
            let sender = sender_at(alloc, names, sender)?;
            Ok(RequestsFault::PastClose { sender, number })
        }
        Refused::Stranger { .. } | Refused::ZeroNumber { .. } | Refused::Memory => unreachable!(),
    }
}

// Returns what the sources lack, with the name of the sender.
fn named_lack(
    alloc: Global,
    names: &[Seq<u8>],
    lack: Unfinished,
) -> Result<RequestsFault, AllocError>
    ensures { IfOk result (λ fault. fault ≡ lack_named names.now lack) }
{
    match lack {
        Unfinished::Open { sender } => {
            let sender = sender_at(alloc, names, sender)?;
            Ok(RequestsFault::NotClosed { sender })
        }
        Unfinished::Gap { sender, number } => {
            let sender = sender_at(alloc, names, sender)?;
            Ok(RequestsFault::Missing { sender, number })
        }
    }
}

/// Returns the fault of an audit of sources with these names, with the name of the sender in place of its index. Returns
/// `AllocError` only if allocation failed.
pub(crate) fn named_fault(
    alloc: Global,
    names: &[Seq<u8>],
    fault: AuditFault,
) -> Result<RequestsFault, AllocError>
    requires { IsSome (fault_named names.now fault) }
    ensures { IfOk result (λ named. fault_named names.now fault ≡ Some named) }
{
    match fault {
        AuditFault::Sender { name, part, fault } => {
            let part = named_part(names, &name, part);
            Ok(RequestsFault::File {
                sender: name,
                part,
                fault,
            })
        }
        AuditFault::Collect(CollectFault::Refused(refused)) => {
            named_refusal(alloc, names, refused)
        }
        AuditFault::Collect(CollectFault::Unfinished(lack)) => named_lack(alloc, names, lack),
        AuditFault::Collect(CollectFault::Roster(RosterFault::TooManySenders)) => {
            Ok(RequestsFault::TooManySenders)
        }
        AuditFault::TooManyParts => Ok(RequestsFault::TooManyParts),
        AuditFault::NoThread => Ok(RequestsFault::NoThread),
        AuditFault::Collect(CollectFault::Roster(_)) | AuditFault::Memory => unreachable!(),
    }
}
