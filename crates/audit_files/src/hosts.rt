//! Hosts files.
ghost use Rattle.std.specs.Prelude.{◌≡◌, ◌+◌, ◌∷◌, ◌++◌, [], Ok, Err, IfOk, IfErr, OnOk, IfSome, filter_map, length};
ghost use Rattle.csv.specs.Records.{fields_of};
ghost use Rattle.audit_files.specs.Faults.{IsNotOutOfMemory, failures_in, read_failures};
ghost use Rattle.audit_files.specs.Files.{IsRead};
ghost use Rattle.audit_files.specs.Hosts.{address_by, host_address, interface_of, interface_with, machine_of, machines, address_byte};

use crate::fields::field;
use crate::number::number;
use crate::parts::{Item, cut, items};
use crate::table::{Table, gather};
use crate::text::read_text;
use crate::{Feed, FileFault};
use csv::ByteRecord;
use std::alloc::{AllocError, Global};
use sudo_match::{Interface, Machine};
use sudo_text::Seq;

// Returns the byte of an address that a text denotes: a number below 256.
fn octet(text: &[u8]) -> Option<u8>
    ensures { result ≡ address_byte text.now }
{
    match number(text) {
        Some(found) if found < 256 => Some(found as u8),
        _ => None,
    }
}

// Returns the address of four bytes, the first one highest, if all are present.
fn address_from(
    first: Option<u8>,
    second: Option<u8>,
    third: Option<u8>,
    fourth: Option<u8>,
) -> Option<u32>
    ensures { result ≡ address_by first second third fourth }
{
    match (first, second, third, fourth) {
        (Some(a), Some(b), Some(c), Some(d)) => {
            let high = u32::from(a) * 256 + u32::from(b);
            Some((high * 256 + u32::from(c)) * 256 + u32::from(d))
        }
        _ => None,
    }
}

// Returns the address that a text denotes: four bytes, separated by dots.
fn address(text: &[u8]) -> Option<u32>
    ensures { result ≡ host_address text.now }
{
    let (first, rest) = cut(text, b'.')?;
    let (second, rest) = cut(rest, b'.')?;
    let (third, fourth) = cut(rest, b'.')?;
    address_from(octet(first), octet(second), octet(third), octet(fourth))
}

// Returns the interface with this number of network bits, if they are at most 32.
fn interface(addr: u32, bits: u32) -> Option<Interface>
    ensures { result ≡ interface_with addr bits }
{
    if bits > 32 {
        return None;
    }
    Some(Interface {
        addr,
        bits: bits as u8,
    })
}

impl Item for Interface {
    ghost stated = { interface_of };

    fn read(_alloc: Global, word: &[u8]) -> Result<Option<Interface>, AllocError> {
        let Some((address_text, bits_text)) = cut(word, b'/') else {
            return Ok(None);
        };
        let Some(addr) = address(address_text) else {
            return Ok(None);
        };
        let Some(bits) = number(bits_text) else {
            return Ok(None);
        };
        Ok(interface(addr, bits))
    }
}

// Returns the host that a record states, if it states one.
#[tactic(auto, using(crate::proofs::FieldLemmas::two_fields))]
fn machine(alloc: Global, record: &ByteRecord) -> Result<Option<Machine>, AllocError>
    ensures { IfOk result (λ o. o ≡ machine_of (fields_of «record».now)) }
{
    if record.len() != 2 {
        return Ok(None);
    }
    machine_by(alloc, field(record, 0), field(record, 1))
}

// Returns the host that two fields state, if they state one.
fn machine_by(alloc: Global, host: &[u8], interfaces: &[u8]) -> Result<Option<Machine>, AllocError>
    ensures { IfOk result (λ o. o ≡ machine_of (host.now ∷ interfaces.now ∷ [])) }
{
    if host.is_empty() {
        return Ok(None);
    }
    let Some(interfaces) = items::<Interface>(alloc, interfaces)? else {
        return Ok(None);
    };
    let name = Seq::from_slice(alloc, host)?;
    Ok(Some(Machine {
        name,
        interfaces: Seq::from_vec(interfaces),
    }))
}

// The hosts that were read so far.
#[derive(Drop)]
struct HostList {
    alloc: Global,
    list: Vec<Machine>,
}

impl Table for HostList {
    ghost use Rattle.audit_files.specs.Hosts.{machine_fault, hosts_header};

    ghost header = { hosts_header };

    ghost fault = { machine_fault };

    // One host for each record.
    ghost holds = { λ list before. (list.list.items ≡ filter_map machine_of before)
        × (length list.list.items ≡ length before) };

    ghost earlier = { λ table. 0 };

    #[tactic(auto, using(crate::proofs::FieldLemmas::no_header, crate::proofs::FieldLemmas::two_fields))]
    fn is_header(&self, record: &ByteRecord) -> bool {
        record.len() == 2
            && field(record, 0) == b"host".as_slice()
            && field(record, 1) == b"interfaces".as_slice()
    }

    fn add(&mut self, row: u32, record: &ByteRecord) -> Result<(), FileFault> {
        let found = match machine(self.alloc, record) {
            Ok(found) => found,
            Err(_) => return Err(FileFault::Memory),
        };
        let Some(machine) = found else {
            return Err(FileFault::BadRow { row });
        };
        if self.list.len() >= 100_000 {
            return Err(FileFault::TooMany);
        }
        match self.keep(machine) {
            Ok(()) => Ok(()),
            Err(_) => Err(FileFault::Memory),
        }
    }
}

impl HostList {
    fn keep(&mut self, machine: Machine) -> Result<(), AllocError>
        ensures { OnOk result (self.new.list.items ≡ self.old.list.items ++ machine ∷ []) }
    {
        self.list.push(machine)?;
        Ok(())
    }
}

// Returns the hosts that the bytes of a hosts file state, in order, or its first fault.
fn hosts_of_text(alloc: Global, text: &[u8]) -> Result<Vec<Machine>, FileFault>
    ensures stated { IfOk result (λ list. machines text.now ≡ Ok list.items) }
    ensures fault { IfErr result (λ e. IsNotOutOfMemory e → machines text.now ≡ Err e) }
    ensures no_read { IfErr result (λ e. failures_in e ≡ 0) }
{
    let mut table = HostList {
        alloc,
        list: Vec::new(alloc),
    };
    gather(alloc, text, &mut table)?;
    Ok(table.list)
}

/// Reads a hosts file to its end, and returns its hosts, in order.
///
/// The header is `host,interfaces`. A row has a nonempty host, and interfaces as `a.b.c.d/bits`,
/// separated by one space, possibly none, with bits from 0 to 32.
///
/// Returns `Header` if the header is another or missing. The first faulty record decides: returns
/// `BadRow` if it has another number of fields or a field of another shape, or else `TooMany` if it
/// is past 100,000 rows. Returns `TooMany` also for more than 268,435,456 bytes, before any row is
/// read, `Read` if a read failed, and `Memory` if allocation failed.
pub fn read_hosts<R: Feed>(alloc: Global, reader: &mut R) -> Result<Vec<Machine>, FileFault>
    ensures stated { IfOk result (λ list. IsRead machines (R.ahead reader.old) (Ok list.items)) }
    ensures fault { IfErr result (λ e. IsNotOutOfMemory e
        → IsRead machines (R.ahead reader.old) (Err e)) }
    ensures failures { R.failed_reads reader.new
        ≡ R.failed_reads reader.old + read_failures result }
{
    match read_text(alloc, reader) {
        Ok(text) => hosts_of_text(alloc, text.as_slice()),
        Err(fault) => Err(fault),
    }
}
