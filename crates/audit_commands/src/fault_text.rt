//! The texts of faults, each written once.
ghost use Rattle.std.specs.Prelude.{◌≡◌, ◌++◌, OnOk, codes};
ghost use Rattle.audit_commands.specs.FaultTexts.{directory_fault_text, file_fault_text, part_text, request_text};
ghost use Rattle.audit_commands.specs.FaultTexts.{requests_fault_text, row_text, sender_text};

use crate::requests_fault::RequestsFault;
use audit_files::FileFault;
use run_base::{push, push_both, push_no_memory, push_number};
use std::alloc::AllocError;
use sudo_match::DirFault;
use sudo_text::Seq;

// Appends `row ROW: ` and a fault.
fn push_row(line: &mut Vec<u8>, row: u32, what: &[u8]) -> Result<(), AllocError>
    ensures { OnOk result (line.new.items ≡ line.old.items ++ row_text row what.now) }
{
    push(line, b"row ")?;
    push_number(line, u64::from(row))?;
    push(line, b": ")?;
    push(line, what)
}

/// Appends the fault of a CSV file, as one of users, of hosts or of requests.
pub fn push_file_fault(line: &mut Vec<u8>, fault: FileFault) -> Result<(), AllocError>
    ensures { OnOk result (line.new.items ≡ line.old.items ++ file_fault_text fault) }
{
    match fault {
        FileFault::Header => push(line, b"bad header"),
        FileFault::BadRow { row } => push_row(line, row, b"bad row"),
        FileFault::OutOfOrder { row } => push_row(line, row, b"out of order"),
        FileFault::RowAfterClose { row } => push_row(line, row, b"row after close"),
        FileFault::TooMany => push(line, b"too many rows"),
        FileFault::Read => push(line, b"read failed"),
        FileFault::Memory => push_no_memory(line),
    }
}

// Appends a name between two texts.
fn push_named(
    line: &mut Vec<u8>,
    before: &[u8],
    name: &Seq<u8>,
    after: &[u8],
) -> Result<(), AllocError>
    ensures { OnOk result (line.new.items ≡ line.old.items
        ++ (before.now ++ name.now ++ after.now)) }
{
    push(line, before)?;
    push(line, name.as_slice())?;
    push(line, after)
}

/// Appends the fault of users and hosts that form no directory.
pub(crate) fn push_directory_fault(line: &mut Vec<u8>, fault: &DirFault) -> Result<(), AllocError>
    ensures { OnOk result (line.new.items ≡ line.old.items ++ directory_fault_text fault.now) }
{
    match fault {
        DirFault::UserTwice { name } => push_named(line, b"user ", name, b" twice"),
        DirFault::HostTwice { name } => push_named(line, b"host ", name, b" twice"),
        DirFault::GroupClash { name } => push_named(line, b"group ", name, b" clashes"),
        DirFault::NoGroup { user } => push_named(line, b"user ", user, b" has no group"),
        DirFault::NoRoot => push(line, b"no user root"),
        DirFault::Memory => push_no_memory(line),
    }
}

// Appends `sender NAME` and what the sender states wrongly.
fn push_sender(line: &mut Vec<u8>, sender: &Seq<u8>, what: &[u8]) -> Result<(), AllocError>
    ensures { OnOk result (line.new.items ≡ line.old.items ++ sender_text sender.now what.now) }
{
    push_both(line, b"sender ", sender.as_slice())?;
    push(line, what)
}

// Appends `sender NAME: request NUMBER` and a fault.
fn push_request(
    line: &mut Vec<u8>,
    sender: &Seq<u8>,
    number: u32,
    what: &[u8],
) -> Result<(), AllocError>
    ensures { OnOk result (line.new.items ≡ line.old.items
        ++ request_text sender.now number what.now) }
{
    push_sender(line, sender, b": request ")?;
    push_number(line, u64::from(number))?;
    push(line, what)
}

// Appends ` part PART` if the sender has several parts.
fn push_part(line: &mut Vec<u8>, part: Option<u32>) -> Result<(), AllocError>
    ensures { OnOk result (line.new.items ≡ line.old.items ++ part_text part) }
{
    match part {
        Some(part) => {
            push(line, b" part ")?;
            push_number(line, u64::from(part))
        }
        None => Ok(()),
    }
}

// Appends the fault of a requests file.
fn push_requests_file(
    line: &mut Vec<u8>,
    sender: &Seq<u8>,
    part: Option<u32>,
    fault: FileFault,
) -> Result<(), AllocError>
    ensures { OnOk result (line.new.items ≡ line.old.items
        ++ sender_text sender.now (part_text part ++ (codes ": " ++ file_fault_text fault))) }
{
    push_sender(line, sender, b"")?;
    push_part(line, part)?;
    push(line, b": ")?;
    push_file_fault(line, fault)
}

/// Appends the fault of the requests of an audit.
pub(crate) fn push_requests_fault(
    line: &mut Vec<u8>,
    fault: &RequestsFault,
) -> Result<(), AllocError>
    ensures { OnOk result (line.new.items ≡ line.old.items ++ requests_fault_text fault.now) }
{
    match fault {
        RequestsFault::File {
            sender,
            part,
            fault,
        } => push_requests_file(line, sender, *part, *fault),
        RequestsFault::Twice { sender, number } => push_request(line, sender, *number, b" twice"),
        RequestsFault::ClosedTwice { sender } => push_sender(line, sender, b": closed twice"),
        RequestsFault::PastClose { sender, number } => {
            push_request(line, sender, *number, b" past close")
        }
        RequestsFault::NotClosed { sender } => push_sender(line, sender, b": not closed"),
        RequestsFault::Missing { sender, number } => {
            push_request(line, sender, *number, b" missing")
        }
        RequestsFault::TooManySenders => push(line, b"too many senders"),
        RequestsFault::TooManyParts => push(line, b"too many parts"),
        RequestsFault::NoThread => push(line, b"no thread"),
    }
}
