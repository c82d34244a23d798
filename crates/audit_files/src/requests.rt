//! Requests files.
ghost use Rattle.std.specs.Prelude.{◌≡◌, ◌≢◌, ◌<◌, ◌+◌, ◌∷◌, ◌++◌, [], Some, Ok, Err, List, ℕ, IfOk, OnOk, IfErr};
ghost use Rattle.std.specs.Prelude.{IfSome, IfNone, length, slice_get, take};
ghost use Rattle.csv.specs.Records.{fields_of};
ghost use Rattle.audit_files.specs.Faults.{IsNotOutOfMemory, failures_in, read_failures};
ghost use Rattle.audit_files.specs.Body.Gathering.{HoldsRecords};
ghost use Rattle.audit_files.specs.Files.{IsStatedBy, after_header, same_fields};
ghost use Rattle.audit_files.specs.Body.Files.{first_record_fault};
ghost use Rattle.audit_files.specs.Rows.{Fields, first_fault, records_of};
ghost use Rattle.audit_files.specs.Requests.{asked_for, asked_number as number_asked, close_of, closes_in};
ghost use Rattle.audit_files.specs.Body.Requests.{fields_in};
ghost use Rattle.audit_files.specs.Requests.{request_fault, requests_header, requests_in, requests_of_file};
ghost use Rattle.audit_files.specs.Requests.{is_command as command_test, last_number as number_of_last};
ghost use Rattle.audit_files.specs.Requests.{order_fault as fault_of_order, request_of};

use crate::fields::field;
use crate::number::number;
use crate::plain::{first_row, next_row};
use crate::table::{Table, gather, gather_from};
use crate::text::read_text;
use crate::{Feed, FileFault};
use csv::ByteRecord;
use std::alloc::{AllocError, Global};
use sudo_match::Request;
use sudo_text::Seq;

// A row has about as many bytes, or more: a list begins with room for so many requests.
const BYTES_OF_A_ROW: usize = 32;

/// The content of a requests file: its requests in order, and the count of its close row, if it has
/// one.
#[derive(Drop)]
pub struct Requests {
    pub list: Seq<Request>,
    pub close: Option<u32>,
}

/// The fields of a row.
#[derive(Clone, Copy)]
pub(crate) struct RequestRow<'a> {
    pub(crate) number: &'a [u8],
    pub(crate) user: &'a [u8],
    pub(crate) host: &'a [u8],
    pub(crate) runas_user: &'a [u8],
    pub(crate) runas_group: &'a [u8],
    pub(crate) command: &'a [u8],
    pub(crate) arguments: &'a [u8],
}

impl<'a> RequestRow<'a> {
    // Returns the fields of a record as a row, if there are seven.
    #[tactic(auto, using(crate::proofs::FieldLemmas::seven_fields))]
    fn of(record: &'a ByteRecord) -> Option<RequestRow<'a>>
        ensures some { IfSome result (λ row. fields_of record.entry.now ≡ fields_in row) }
        ensures none { IfNone result (length (fields_of record.entry.now) ≢ 7) }
    {
        if record.len() != 7 {
            return None;
        }
        Some(RequestRow {
            number: field(record, 0),
            user: field(record, 1),
            host: field(record, 2),
            runas_user: field(record, 3),
            runas_group: field(record, 4),
            command: field(record, 5),
            arguments: field(record, 6),
        })
    }

    pub(crate) fn is_header(self) -> bool
        ensures { result ≡ same_fields (fields_in self.entry) requests_header }
    {
        self.number == b"number".as_slice()
            && self.user == b"user".as_slice()
            && self.host == b"host".as_slice()
            && self.runas_user == b"runas_user".as_slice()
            && self.runas_group == b"runas_group".as_slice()
            && self.command == b"command".as_slice()
            && self.arguments == b"arguments".as_slice()
    }

    // Returns the count, if this is a close row.
    fn close(self) -> Option<u32>
        ensures { result ≡ close_of (fields_in self.entry) }
    {
        let is_close = self.number == b"close".as_slice()
            && self.host.is_empty()
            && self.runas_user.is_empty()
            && self.runas_group.is_empty()
            && self.command.is_empty()
            && self.arguments.is_empty();
        if is_close { number(self.user) } else { None }
    }

    // Returns the number, if this is a request.
    pub(crate) fn asked_number(self) -> Option<u32>
        ensures { result ≡ number_asked self.entry.number.now self.entry.user.now
            self.entry.host.now self.entry.command.now }
    {
        if self.user.is_empty() || self.host.is_empty() || !is_command(self.command) {
            return None;
        }
        match number(self.number) {
            Some(0) => None,
            found => found,
        }
    }

    // Returns the request of this row, whose number is `number`.
    pub(crate) fn request(self, alloc: Global, number: u32) -> Result<Request, AllocError>
        requires { number_asked self.number.now self.user.now self.host.now self.command.now
            ≡ Some number }
        ensures stated { IfOk result (λ r. request_of (fields_in self.entry) ≡ Some r) }
        ensures number { IfOk result (λ r. r.number ≡ number) }
    {
        Ok(Request {
            number,
            user: Seq::from_slice(alloc, self.user)?,
            host: Seq::from_slice(alloc, self.host)?,
            runas_user: target(alloc, self.runas_user)?,
            runas_group: target(alloc, self.runas_group)?,
            command: Seq::from_slice(alloc, self.command)?,
            arguments: Seq::from_slice(alloc, self.arguments)?,
        })
    }
}

// Whether a command is `sudoedit` or a path from the root.
fn is_command(text: &[u8]) -> bool
    ensures { result ≡ command_test text.now }
{
    match text.first() {
        None => false,
        Some(first) => *first == b'/' || text == b"sudoedit".as_slice(),
    }
}

// Returns the target that an optional field asks for; `None` if it is empty.
fn target(alloc: Global, text: &[u8]) -> Result<Option<Seq<u8>>, AllocError>
    ensures { IfOk result (λ o. o ≡ asked_for text.now) }
{
    if text.is_empty() {
        return Ok(None);
    }
    Ok(Some(Seq::from_slice(alloc, text)?))
}

// Returns the fault of a request with this number after so many requests, the last of which has the
// number `last`, if it has one.
pub(crate) fn order_fault(row: u32, last: u32, count: usize, number: u32) -> Option<FileFault>
    ensures fault { (before : List Request) → last ≡ number_of_last before
        → count ≡ length before → result ≡ fault_of_order row before number }
    ensures room { IfNone result (count < 1_000_000) }
    ensures no_read { IfSome result (λ e. failures_in e ≡ 0) }
{
    if number <= last {
        return Some(FileFault::OutOfOrder { row });
    }
    if count >= 1_000_000 {
        return Some(FileFault::TooMany);
    }
    None
}

// The requests and the close row that were read so far.
#[derive(Drop)]
pub(crate) struct RequestList {
    alloc: Global,
    // How many requests were read before those of the list.
    earlier: u32,
    list: Vec<Request>,
    // The number of the last request, or 0.
    last: u32,
    close: Option<u32>,
}

impl Table for RequestList {
    ghost use Rattle.audit_files.specs.Body.Gathering.{HoldsRecords};
    ghost use Rattle.audit_files.specs.Requests.{request_fault, requests_header};

    ghost header = { requests_header };

    ghost fault = { request_fault };

    ghost holds = { HoldsRecords };

    ghost earlier = { λ read. read.earlier };

    #[tactic(auto, using(crate::proofs::FieldLemmas::no_header))]
    fn is_header(&self, record: &ByteRecord) -> bool {
        match RequestRow::of(record) {
            Some(row) => row.is_header(),
            None => false,
        }
    }

    fn add(&mut self, row: u32, record: &ByteRecord) -> Result<(), FileFault> {
        match RequestRow::of(record) {
            Some(fields) => self.add_row(row, fields),
            None => Err(FileFault::BadRow { row }),
        }
    }
}

impl RequestList {
    // Adds a row of seven fields, which has the number `row`.
    fn add_row(&mut self, row: u32, fields: RequestRow<'_>) -> Result<(), FileFault>
        ensures ok { OnOk result ((before : List Fields) → HoldsRecords self.old before
            → row ≡ length before + 2
            → (request_fault before (fields_in fields.entry) ≡ None)
            × HoldsRecords self.new (before ++ fields_in fields.entry ∷ [])) }
        ensures err { IfErr result (λ e. IsNotOutOfMemory e → (before : List Fields)
            → HoldsRecords self.old before → row ≡ length before + 2
            → request_fault before (fields_in fields.entry) ≡ Some e) }
        ensures no_read { IfErr result (λ e. failures_in e ≡ 0) }
        ensures earlier { self.new.earlier ≡ self.old.earlier }
    {
        if self.close.is_some() {
            return Err(FileFault::RowAfterClose { row });
        }
        if let Some(count) = fields.close() {
            self.close = Some(count);
            return Ok(());
        }
        let Some(number) = fields.asked_number() else {
            return Err(FileFault::BadRow { row });
        };
        let count = self.earlier as usize + self.list.len();
        if let Some(fault) = order_fault(row, self.last, count, number) {
            return Err(fault);
        }
        match self.keep(fields, number) {
            Ok(()) => Ok(()),
            Err(_) => Err(FileFault::Memory),
        }
    }

    // Keeps the request of this row, whose number is `number`.
    fn keep(&mut self, fields: RequestRow<'_>, number: u32) -> Result<(), AllocError>
        requires { number_asked fields.number.now fields.user.now fields.host.now fields.command.now
            ≡ Some number }
        ensures kept { OnOk result ((r : Request) × (request_of (fields_in fields.entry) ≡ Some r)
            × (r.number ≡ number)
            × (self.new.list.items ≡ self.old.list.items ++ r ∷ [])) }
        ensures last { OnOk result (self.new.last ≡ number) }
        ensures same { (self.new.close ≡ self.old.close) × (self.new.earlier ≡ self.old.earlier) }
    {
        let request = fields.request(self.alloc, number)?;
        self.list.push(request)?;
        self.last = number;
        Ok(())
    }

    /// Creates an empty list, behind so many requests, the last of which has the number `last`.
    pub(crate) fn behind(alloc: Global, earlier: u32, last: u32, list: Vec<Request>) -> RequestList
        requires { list.items ≡ [] }
        ensures holds { (before : List Fields) → length (requests_in before) ≡ earlier
            → number_of_last (requests_in before) ≡ last → closes_in before ≡ []
            → HoldsRecords result before }
        ensures earlier { result.earlier ≡ earlier }
    {
        RequestList {
            alloc,
            earlier,
            list,
            last,
            close: None,
        }
    }

    /// Returns the requests of the list, and the count of the close row.
    pub(crate) fn into_requests(self) -> Requests
        ensures { (before : List Fields) → HoldsRecords self before
            → (take self.earlier (requests_in before) ++ result.list ≡ requests_in before)
            × (result.close ≡ slice_get (closes_in before) 0) }
    {
        Requests {
            list: Seq::from_vec(self.list),
            close: self.close,
        }
    }
}

// Adds the rows of a text that begins with the end of a line, and stops at the first fault. Reads
// rows without quotes in place; the first other row and those after it are read as CSV.
fn gather_rows(alloc: Global, text: &[u8], table: &mut RequestList) -> Result<(), FileFault>
    requires { HoldsRecords table.old [] }
    ensures ok { OnOk result ((first_fault request_fault [] (records_of text.now) ≡ None)
        × HoldsRecords table.new (records_of text.now)) }
    ensures err { IfErr result (λ e. IsNotOutOfMemory e
        → first_fault request_fault [] (records_of text.now) ≡ Some e) }
    ensures no_read { IfErr result (λ e. failures_in e ≡ 0) }
    ensures earlier { table.new.earlier ≡ table.old.earlier }
{
    let mut rest = text;
    for row in 2..u32::MAX {
        let Some((fields, after)) = next_row(rest) else {
            return gather_from(alloc, rest, table, row);
        };
        table.add_row(row, fields)?;
        rest = after;
    }
    Err(FileFault::Memory)
}

// Adds the rows of a requests file, and stops at the first fault. Returns `Header` if the first
// record is not the header.
fn gather_requests(alloc: Global, text: &[u8], table: &mut RequestList) -> Result<(), FileFault>
    requires { HoldsRecords table.old [] }
    ensures ok { OnOk result ((rest : List Fields)
        × (after_header requests_header (records_of text.now) ≡ Some rest)
        × (first_fault request_fault [] rest ≡ None) × HoldsRecords table.new rest) }
    ensures err { IfErr result (λ e. IsNotOutOfMemory e
        → first_record_fault request_fault (after_header requests_header (records_of text.now))
        ≡ Some e) }
    ensures no_read { IfErr result (λ e. failures_in e ≡ 0) }
    ensures earlier { table.new.earlier ≡ table.old.earlier }
{
    match first_row(text) {
        Some((first, rest)) if first.is_header() => gather_rows(alloc, rest, table),
        _ => gather(alloc, text, table),
    }
}

/// Returns the content of a requests file from its bytes, or its first fault. Otherwise fails only
/// with `Memory`.
pub(crate) fn requests_of_text(alloc: Global, text: &[u8]) -> Result<Requests, FileFault>
    ensures stated { IfOk result (λ requests. requests_of_file text.now ≡ Ok requests) }
    ensures fault { IfErr result (λ e. IsNotOutOfMemory e → requests_of_file text.now ≡ Err e) }
    ensures no_read { IfErr result (λ e. failures_in e ≡ 0) }
{
    let room = (text.len() / BYTES_OF_A_ROW).min(1_000_000);
    let list = Vec::with_capacity(alloc, room)?;
    let mut table = RequestList::behind(alloc, 0, 0, list);
    gather_requests(alloc, text, &mut table)?;
    Ok(table.into_requests())
}

/// Reads a requests file to its end, and returns its requests, whose numbers rise, and the count of
/// its close row.
///
/// The header is `number,user,host,runas_user,runas_group,command,arguments`. A row has a number
/// from 1, a user, a host, and a command that is `sudoedit` or begins with `/`; an empty target
/// user or group asks for none. The last row is `close,COUNT,,,,,`.
///
/// Returns `Header` if the header is another or missing. The first faulty record decides, by the
/// first of these that applies: `BadRow` if it has another number of fields, `RowAfterClose` if it
/// follows the close row, `BadRow` if a field has another shape, `OutOfOrder` if its number is not
/// greater than the previous one, `TooMany` if it is past 1,000,000 requests. Returns `TooMany`
/// also for more than 268,435,456 bytes, before any row is read, `Read` if a read failed, and
/// `Memory` if allocation failed.
pub fn read_requests<R: Feed>(alloc: Global, reader: &mut R) -> Result<Requests, FileFault>
    ensures states { IsStatedBy requests_of_file (R.ahead reader.old) result }
    ensures failures { R.failed_reads reader.new
        ≡ R.failed_reads reader.old + read_failures result }
{
    match read_text(alloc, reader) {
        Ok(text) => requests_of_text(alloc, text.as_slice()),
        Err(fault) => Err(fault),
    }
}
