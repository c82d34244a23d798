//! The rows of a file of the IPv6 addresses of hosts.
ghost use Rattle.std.specs.Prelude.{◌≡◌, ◌≤◌, ◌<◌, ◌+◌, ◌==◌, ◌∷◌, ◌++◌, [], List, Some, None, Ok, Err, IfErr, IfOk, OnOk, filter_map};
ghost use Rattle.std.specs.Prelude.{length, not, true};
ghost use Rattle.std.specs.Bool.{MatchBool};
ghost use Rattle.std.specs.List.{list_all, list_any, take_while};
ghost use Rattle.csv.specs.Records.{fields_of};
ghost use Rattle.sudo_text.specs.Bytes as bytes;
ghost use Rattle.audit_files.specs.Faults.{IsNotOutOfMemory};
ghost use Rattle.audit_files.specs.Files.{IsRead, after_header, same_fields};
ghost use Rattle.audit_files.specs.Netgroups as hosts;
ghost use Rattle.audit_files.specs.Rows.{Fields, first_fault, records_of};
ghost use Rattle.audit_files.specs.Body.Files.{field_in, first_record_fault};
ghost use Rattle.audit_files.specs.Body.Rows.{IsReader, records_left};
ghost use Rattle.review_commands.specs.Addresses as spec;
ghost use Rattle.review_commands.specs.Body.AddressRows.{AreOf};

use audit_files::{Feed, FileFault, read_text};
use csv::{ByteRecord, Reader, ReaderBuilder};
use review_texts::{HostAddress, address_of, prefix_of};
use std::alloc::{AllocError, Global};
use sudo_text::Seq;

// Whether a byte is a letter.
fn is_letter(byte: u8) -> bool
    ensures { result ≡ hosts.is_letter byte }
{
    (b'A' <= byte && byte <= b'Z') || (b'a' <= byte && byte <= b'z')
}

// Whether a byte is a decimal digit.
fn is_digit(byte: u8) -> bool
    ensures { result ≡ bytes.is_digit byte }
{
    b'0' <= byte && byte <= b'9'
}

// Whether a byte may stand in the name of a host.
fn is_host_byte(byte: u8) -> bool
    ensures { result ≡ hosts.is_host_byte byte }
{
    is_letter(byte) || is_digit(byte) || byte == b'-' || byte == b'.' || byte == b'_'
}

// Whether each byte of a field may stand in the name of a host.
fn has_host_bytes(field: &[u8]) -> bool
    ensures { result ≡ list_all hosts.is_host_byte field.now }
{
    field.iter().all(|byte| is_host_byte(*byte))
}

// Whether a field has a letter.
fn has_letter(field: &[u8]) -> bool
    ensures { result ≡ list_any hosts.is_letter field.now }
{
    field.iter().any(|byte| is_letter(*byte))
}

// Whether a field is the name of a host, and not an address or a pattern.
fn is_host_name(field: &[u8]) -> bool
    ensures { result ≡ hosts.is_host_name field.now }
{
    has_host_bytes(field) && has_letter(field)
}

// Whether each byte of a text is a decimal digit.
fn has_digits(text: &[u8]) -> bool
    ensures { result ≡ list_all bytes.is_digit text.now }
{
    text.iter().all(|byte| is_digit(*byte))
}

// Returns the length of a prefix, in decimal digits.
fn len_of(digits: &[u8]) -> Option<u8>
    ensures { result ≡ spec.len_of digits.now }
{
    if has_digits(digits) {
        prefix_of(digits)
    } else {
        None
    }
}

// Returns the offset of the first slash of a text, or the length of one without.
fn slash_at(text: &[u8]) -> usize
    ensures slash { result ≡ spec.slash_at text.now }
    ensures within { result ≤ length text.now }
{
    text.iter().take_while(|byte| **byte != b'/').count()
}

// Returns the address that a text is, and the length of its prefix.
fn interface_of(alloc: Global, text: &[u8]) -> Result<Option<(u128, u8)>, AllocError>
    ensures { IfOk result (λ interface. interface ≡ spec.interface_of text.now) }
{
    let slash = slash_at(text);
    if slash == text.len() {
        return match address_of(alloc, text)? {
            Some(address) => Ok(Some((address, 128))),
            None => Ok(None),
        };
    }
    let Some(address) = address_of(alloc, &text[..slash])? else {
        return Ok(None);
    };
    match len_of(&text[slash + 1..]) {
        Some(len) => Ok(Some((address, len))),
        None => Ok(None),
    }
}

// Returns the address of a host that two fields state, if they state one.
fn address_by(alloc: Global, host: &[u8], address: &[u8]) -> Result<Option<HostAddress>, AllocError>
    ensures { IfOk result (λ found. found ≡ spec.host_address_of (host.now ∷ address.now ∷ [])) }
{
    if !is_host_name(host) {
        return Ok(None);
    }
    let Some((address, len)) = interface_of(alloc, address)? else {
        return Ok(None);
    };
    let host = Seq::from_slice(alloc, host)?;
    Ok(Some(HostAddress { host, address, len }))
}

// Returns the field of a record at an index.
#[tactic(auto, using(audit_files::proofs::FieldLemmas::field_is))]
fn field(record: &ByteRecord, at: usize) -> &[u8]
    requires { at < length (fields_of «record».now) }
    ensures { result.now ≡ field_in (fields_of «record».now) at }
{
    record.get(at).unwrap()
}

// Returns the address of a host that a record states, if it states one.
#[tactic(auto, using(audit_files::proofs::FieldLemmas::two_fields))]
fn stated_address(alloc: Global, record: &ByteRecord) -> Result<Option<HostAddress>, AllocError>
    ensures { IfOk result (λ found. found ≡ spec.host_address_of (fields_of «record».now)) }
{
    if record.len() != 2 {
        return Ok(None);
    }
    address_by(alloc, field(record, 0), field(record, 1))
}

// Whether a record is the header.
#[tactic(auto, using(audit_files::proofs::FieldLemmas::no_header, audit_files::proofs::FieldLemmas::two_fields))]
fn is_header(record: &ByteRecord) -> bool
    ensures { result ≡ same_fields (fields_of «record».now) spec.addresses_header }
{
    record.len() == 2
        && field(record, 0) == b"host".as_slice()
        && field(record, 1) == b"address".as_slice()
}

// Appends an address.
fn keep(address: HostAddress, list: &mut Vec<HostAddress>) -> Result<(), AllocError>
    ensures { OnOk result (list.new.items ≡ list.old.items ++ address ∷ []) }
{
    list.push(address)?;
    Ok(())
}

// Appends the address that the record of a row states.
fn push_address(
    alloc: Global,
    row: u32,
    record: &ByteRecord,
    list: &mut Vec<HostAddress>,
) -> Result<(), FileFault>
    ensures ok { OnOk result ((before : List Fields) → AreOf before list.old.items
        → row ≡ length before + 2 → (spec.address_fault before (fields_of «record».now) ≡ None)
        × AreOf (before ++ fields_of «record».now ∷ []) list.new.items) }
    ensures err { IfErr result (λ e. IsNotOutOfMemory e → (before : List Fields)
        → AreOf before list.old.items → row ≡ length before + 2
        → spec.address_fault before (fields_of «record».now) ≡ Some e) }
{
    let found = match stated_address(alloc, record) {
        Ok(found) => found,
        Err(_) => return Err(FileFault::Memory),
    };
    let Some(address) = found else {
        return Err(FileFault::BadRow { row });
    };
    if list.len() >= 100_000 {
        return Err(FileFault::TooMany);
    }
    match keep(address, list) {
        Ok(()) => Ok(()),
        Err(_) => Err(FileFault::Memory),
    }
}

// The records of a text, read one after another into the same record.
#[derive(Drop)]
struct Rows<'a> {
    reader: Reader<&'a [u8]>,
    record: ByteRecord,
}

impl<'a> Rows<'a> {
    // Creates a reader of all records of the text.
    fn new(alloc: Global, text: &'a [u8]) -> Rows<'a>
        ensures reading { IsReader result.reader }
        ensures left { records_left result.reader ≡ records_of text.entry.now }
    {
        let reader = ReaderBuilder::new()
            .has_headers(false)
            .flexible(true)
            .from_reader(alloc, text);
        Rows {
            reader,
            record: ByteRecord::new(alloc),
        }
    }

    // Reads the next record, and returns whether there was one. Fails only if allocation failed.
    fn next(&mut self) -> Result<bool, AllocError>
        requires { IsReader self.old.reader }
        ensures reading { IfOk result (λ found. found ≡ true → IsReader self.new.reader) }
        ensures left { IfOk result (λ found. MatchBool found
            (records_left self.old.reader
            ≡ fields_of self.new.«record» ∷ records_left self.new.reader)
            (records_left self.old.reader ≡ [])) }
    {
        if let Ok(found) = self.reader.read_byte_record(&mut self.record) {
            return Ok(found);
        }
        Err(AllocError)
    }
}

// Returns the addresses of all records that are left, the first of which has the number 2, or their first fault.
fn addresses_left(alloc: Global, rows: &mut Rows<'_>) -> Result<Vec<HostAddress>, FileFault>
    requires { IsReader rows.old.reader }
    ensures ok { IfOk result (λ list.
        (first_fault spec.address_fault [] (records_left rows.old.reader) ≡ None)
        × (list.items ≡ filter_map spec.host_address_of (records_left rows.old.reader))) }
    ensures err { IfErr result (λ e. IsNotOutOfMemory e
        → first_fault spec.address_fault [] (records_left rows.old.reader) ≡ Some e) }
{
    let mut list = Vec::new(alloc);
    for row in 2..u32::MAX {
        if !rows.next()? {
            return Ok(list);
        }
        push_address(alloc, row, &rows.record, &mut list)?;
    }
    Err(FileFault::Memory)
}

// Returns the addresses of the records of a text after its header, or its first fault.
fn addresses_behind(alloc: Global, text: &[u8]) -> Result<Vec<HostAddress>, FileFault>
    ensures ok { IfOk result (λ list. (rest : List Fields)
        × (after_header spec.addresses_header (records_of text.now) ≡ Some rest)
        × (first_fault spec.address_fault [] rest ≡ None)
        × (list.items ≡ filter_map spec.host_address_of rest)) }
    ensures err { IfErr result (λ e. IsNotOutOfMemory e → first_record_fault spec.address_fault
        (after_header spec.addresses_header (records_of text.now)) ≡ Some e) }
{
    let mut rows = Rows::new(alloc, text);
    if !rows.next()? {
        return Err(FileFault::Header);
    }
    if !is_header(&rows.record) {
        return Err(FileFault::Header);
    }
    addresses_left(alloc, &mut rows)
}

/// Returns the addresses that the bytes of a file state, in order.
///
/// The header is `host,address`. A row has the name of a host, of letters, digits, dots, hyphens and underscores, at least one of
/// them a letter, and one of its IPv6 addresses, with the length of its prefix behind a slash, or without.
///
/// Returns `Header` if the header is another or missing. The first faulty record decides: returns `BadRow` if it has another number
/// of fields, an invalid host or an invalid address, and otherwise `TooMany` if it is past 100,000 rows. Returns `Memory` if allocation
/// failed.
pub(crate) fn addresses_of_text(alloc: Global, text: &[u8]) -> Result<Vec<HostAddress>, FileFault>
    ensures stated { IfOk result (λ list. spec.host_addresses text.now ≡ Ok list.items) }
    ensures fault { IfErr result (λ e. IsNotOutOfMemory e
        → spec.host_addresses text.now ≡ Err e) }
{
    addresses_behind(alloc, text)
}

/// Reads a file of the IPv6 addresses of hosts to its end, and returns them, in order. Returns the faults of `addresses_of_text`,
/// `TooMany` also for more than 268,435,456 bytes, before any row is read, `Read` if a read failed, and `Memory` if allocation failed.
pub(crate) fn read_addresses<R: Feed>(
    alloc: Global,
    reader: &mut R,
) -> Result<Vec<HostAddress>, FileFault>
    ensures stated { IfOk result (λ list.
        IsRead spec.host_addresses (R.ahead reader.old) (Ok list.items)) }
    ensures fault { IfErr result (λ e. IsNotOutOfMemory e
        → IsRead spec.host_addresses (R.ahead reader.old) (Err e)) }
{
    match read_text(alloc, reader) {
        Ok(text) => addresses_of_text(alloc, text.as_slice()),
        Err(fault) => Err(fault),
    }
}
