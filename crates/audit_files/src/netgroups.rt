//! Files of netgroups.
ghost use Rattle.std.specs.Prelude.{◌≡◌, ◌+◌, ◌∷◌, ◌++◌, [], Ok, Err, IfOk, IfErr, OnOk, filter_map, length};
ghost use Rattle.csv.specs.Records.{fields_of};
ghost use Rattle.audit_files.specs.Faults.{IsNotOutOfMemory, failures_in, read_failures};
ghost use Rattle.audit_files.specs.Files.{IsRead};
ghost use Rattle.std.specs.List.{list_all, list_any};
ghost use Rattle.audit_files.specs.Netgroups as spec;
ghost use Rattle.audit_files.specs.Netgroups.{triple_of, triples};

use crate::fields::field;
use crate::table::{Table, gather};
use crate::text::read_text;
use crate::{Feed, FileFault};
use csv::ByteRecord;
use std::alloc::{AllocError, Global};
use sudo_text::Seq;

/// A triple of a netgroup, without its domain. An empty field stands for any host or user, and `-` for none.
#[derive(Debug, Drop, PartialEq, Eq)]
pub struct Triple {
    pub netgroup: Seq<u8>,
    pub host: Seq<u8>,
    pub user: Seq<u8>,
}

// Whether a byte may stand in the name of a host.
fn is_host_byte(byte: u8) -> bool
    ensures { result ≡ spec.is_host_byte byte }
{
    is_letter(byte)
        || (b'0' <= byte && byte <= b'9')
        || byte == b'-'
        || byte == b'.'
        || byte == b'_'
}

fn is_letter(byte: u8) -> bool
    ensures { result ≡ spec.is_letter byte }
{
    (b'A' <= byte && byte <= b'Z') || (b'a' <= byte && byte <= b'z')
}

fn has_host_bytes(field: &[u8]) -> bool
    ensures { result ≡ list_all spec.is_host_byte field.now }
{
    field.iter().all(|byte| is_host_byte(*byte))
}

fn has_letter(field: &[u8]) -> bool
    ensures { result ≡ list_any spec.is_letter field.now }
{
    field.iter().any(|byte| is_letter(*byte))
}

// Whether a field states any host, none, or one.
fn is_host_field(field: &[u8]) -> bool
    ensures { result ≡ spec.is_host_field field.now }
{
    field.is_empty() || field == b"-".as_slice() || (has_host_bytes(field) && has_letter(field))
}

// Returns the triple that the fields of a record before its domain state, if they state one.
fn triple_by(
    alloc: Global,
    netgroup: &[u8],
    host: &[u8],
    user: &[u8],
    domain: &[u8],
) -> Result<Option<Triple>, AllocError>
    ensures { IfOk result (λ o. o
        ≡ triple_of (netgroup.now ∷ host.now ∷ user.now ∷ domain.now ∷ [])) }
{
    if netgroup.is_empty() || !is_host_field(host) {
        return Ok(None);
    }
    let netgroup = Seq::from_slice(alloc, netgroup)?;
    let host = Seq::from_slice(alloc, host)?;
    let user = Seq::from_slice(alloc, user)?;
    Ok(Some(Triple {
        netgroup,
        host,
        user,
    }))
}

// Returns the triple that a record states, if it states one.
#[tactic(auto, using(crate::proofs::FieldLemmas::four_fields))]
fn stated_triple(alloc: Global, record: &ByteRecord) -> Result<Option<Triple>, AllocError>
    ensures { IfOk result (λ o. o ≡ triple_of (fields_of «record».now)) }
{
    if record.len() != 4 {
        return Ok(None);
    }
    triple_by(
        alloc,
        field(record, 0),
        field(record, 1),
        field(record, 2),
        field(record, 3),
    )
}

// The triples that were read so far.
#[derive(Drop)]
struct TripleList {
    alloc: Global,
    list: Vec<Triple>,
}

impl Table for TripleList {
    ghost use Rattle.audit_files.specs.Netgroups.{netgroups_header, triple_fault};

    ghost header = { netgroups_header };

    ghost fault = { triple_fault };

    // One triple for each record.
    ghost holds = { λ list before. (list.list.items ≡ filter_map triple_of before)
        × (length list.list.items ≡ length before) };

    ghost earlier = { λ table. 0 };

    #[tactic(auto, using(crate::proofs::FieldLemmas::no_header, crate::proofs::FieldLemmas::four_fields))]
    fn is_header(&self, record: &ByteRecord) -> bool {
        record.len() == 4
            && field(record, 0) == b"netgroup".as_slice()
            && field(record, 1) == b"host".as_slice()
            && field(record, 2) == b"user".as_slice()
            && field(record, 3) == b"domain".as_slice()
    }

    fn add(&mut self, row: u32, record: &ByteRecord) -> Result<(), FileFault> {
        let found = match stated_triple(self.alloc, record) {
            Ok(found) => found,
            Err(_) => return Err(FileFault::Memory),
        };
        let Some(triple) = found else {
            return Err(FileFault::BadRow { row });
        };
        if self.list.len() >= 100_000 {
            return Err(FileFault::TooMany);
        }
        match self.keep(triple) {
            Ok(()) => Ok(()),
            Err(_) => Err(FileFault::Memory),
        }
    }
}

impl TripleList {
    fn keep(&mut self, triple: Triple) -> Result<(), AllocError>
        ensures { OnOk result (self.new.list.items ≡ self.old.list.items ++ triple ∷ []) }
    {
        self.list.push(triple)?;
        Ok(())
    }
}

// Returns the triples that the bytes of a file state, in order, or its first fault.
fn triples_of_text(alloc: Global, text: &[u8]) -> Result<Vec<Triple>, FileFault>
    ensures stated { IfOk result (λ list. triples text.now ≡ Ok list.items) }
    ensures fault { IfErr result (λ e. IsNotOutOfMemory e → triples text.now ≡ Err e) }
    ensures no_read { IfErr result (λ e. failures_in e ≡ 0) }
{
    let mut table = TripleList {
        alloc,
        list: Vec::new(alloc),
    };
    gather(alloc, text, &mut table)?;
    Ok(table.list)
}

/// Reads a file of netgroups to its end, and returns their triples, in order.
///
/// The header is `netgroup,host,user,domain`. A row has the name of a netgroup and one of its triples: an empty field stands for
/// any host or user, and `-` for none. The name of a host consists of letters, digits, dots, hyphens and underscores, at least one
/// of them a letter. The domain is not kept.
///
/// Returns `Header` if the header is another or missing. The first faulty record decides: returns `BadRow` if it has another
/// number of fields, no netgroup or an invalid host, and otherwise `TooMany` if it is past 100,000 rows. Returns `TooMany`
/// also for more than 268,435,456 bytes, before any row is read, `Read` if a read failed, and `Memory` if allocation failed.
pub fn read_netgroups<R: Feed>(alloc: Global, reader: &mut R) -> Result<Vec<Triple>, FileFault>
    ensures stated { IfOk result (λ list. IsRead triples (R.ahead reader.old) (Ok list.items)) }
    ensures fault { IfErr result (λ e. IsNotOutOfMemory e
        → IsRead triples (R.ahead reader.old) (Err e)) }
    ensures failures { R.failed_reads reader.new
        ≡ R.failed_reads reader.old + read_failures result }
{
    match read_text(alloc, reader) {
        Ok(text) => triples_of_text(alloc, text.as_slice()),
        Err(fault) => Err(fault),
    }
}
