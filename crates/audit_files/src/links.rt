//! Files of links to folders.
ghost use Rattle.std.specs.Prelude.{◌≡◌, ◌+◌, ◌∷◌, ◌++◌, [], Ok, Err, IfOk, IfErr, OnOk, filter_map, length};
ghost use Rattle.csv.specs.Records.{fields_of};
ghost use Rattle.audit_files.specs.Faults.{IsNotOutOfMemory, failures_in, read_failures};
ghost use Rattle.audit_files.specs.Files.{IsRead};
ghost use Rattle.audit_files.specs.Links.{is_folder_path as spec_is_folder_path, link_of, links};

use crate::fields::field;
use crate::table::{Table, gather};
use crate::text::read_text;
use crate::{Feed, FileFault};
use csv::ByteRecord;
use std::alloc::{AllocError, Global};
use sudo_text::Seq;

/// The path of a link, and that of the folder to which it leads.
pub type LinkPaths = (Seq<u8>, Seq<u8>);

// Whether a path may be that of a folder: absolute, and without a slash at its end.
fn is_folder_path(path: &[u8]) -> bool
    ensures { result ≡ spec_is_folder_path path.now }
{
    path.len() > 1 && path[0] == b'/' && path[path.len() - 1] != b'/'
}

// Returns the link that two fields state, if they state one.
fn link_by(alloc: Global, from: &[u8], to: &[u8]) -> Result<Option<LinkPaths>, AllocError>
    ensures { IfOk result (λ o. o ≡ link_of (from.now ∷ to.now ∷ [])) }
{
    if !is_folder_path(from) || !is_folder_path(to) {
        return Ok(None);
    }
    let from = Seq::from_slice(alloc, from)?;
    let to = Seq::from_slice(alloc, to)?;
    Ok(Some((from, to)))
}

// Returns the link that a record states, if it states one.
#[tactic(auto, using(crate::proofs::FieldLemmas::two_fields))]
fn link(alloc: Global, record: &ByteRecord) -> Result<Option<LinkPaths>, AllocError>
    ensures { IfOk result (λ o. o ≡ link_of (fields_of «record».now)) }
{
    if record.len() != 2 {
        return Ok(None);
    }
    link_by(alloc, field(record, 0), field(record, 1))
}

// The links that were read so far.
#[derive(Drop)]
struct LinkList {
    alloc: Global,
    list: Vec<LinkPaths>,
}

impl Table for LinkList {
    ghost use Rattle.audit_files.specs.Links.{link_fault, links_header};

    ghost header = { links_header };

    ghost fault = { link_fault };

    // One link for each record.
    ghost holds = { λ list before. (list.list.items ≡ filter_map link_of before)
        × (length list.list.items ≡ length before) };

    ghost earlier = { λ table. 0 };

    #[tactic(auto, using(crate::proofs::FieldLemmas::no_header, crate::proofs::FieldLemmas::two_fields))]
    fn is_header(&self, record: &ByteRecord) -> bool {
        record.len() == 2
            && field(record, 0) == b"from".as_slice()
            && field(record, 1) == b"to".as_slice()
    }

    fn add(&mut self, row: u32, record: &ByteRecord) -> Result<(), FileFault> {
        let found = match link(self.alloc, record) {
            Ok(found) => found,
            Err(_) => return Err(FileFault::Memory),
        };
        let Some(link) = found else {
            return Err(FileFault::BadRow { row });
        };
        if self.list.len() >= 100_000 {
            return Err(FileFault::TooMany);
        }
        match self.keep(link) {
            Ok(()) => Ok(()),
            Err(_) => Err(FileFault::Memory),
        }
    }
}

impl LinkList {
    fn keep(&mut self, link: LinkPaths) -> Result<(), AllocError>
        ensures { OnOk result (self.new.list.items ≡ self.old.list.items ++ link ∷ []) }
    {
        self.list.push(link)?;
        Ok(())
    }
}

// Returns the links that the bytes of a file state, in order, or its first fault.
fn links_of_text(alloc: Global, text: &[u8]) -> Result<Vec<LinkPaths>, FileFault>
    ensures stated { IfOk result (λ list. links text.now ≡ Ok list.items) }
    ensures fault { IfErr result (λ e. IsNotOutOfMemory e → links text.now ≡ Err e) }
    ensures no_read { IfErr result (λ e. failures_in e ≡ 0) }
{
    let mut table = LinkList {
        alloc,
        list: Vec::new(alloc),
    };
    gather(alloc, text, &mut table)?;
    Ok(table.list)
}

/// Reads a file of links to folders to its end, and returns their paths, in order.
///
/// The header is `from,to`. A row has the path of a link and that of the folder to which it leads, both absolute and without
/// a slash at their end.
///
/// Returns `Header` if the header is another or missing. The first faulty record decides: returns `BadRow` if it has another
/// number of fields or a field of another shape, or else `TooMany` if it is past 100,000 rows. Returns `TooMany` also for
/// more than 268,435,456 bytes, before any row is read, `Read` if a read failed, and `Memory` if allocation failed.
pub fn read_links<R: Feed>(alloc: Global, reader: &mut R) -> Result<Vec<LinkPaths>, FileFault>
    ensures stated { IfOk result (λ list. IsRead links (R.ahead reader.old) (Ok list.items)) }
    ensures fault { IfErr result (λ e. IsNotOutOfMemory e
        → IsRead links (R.ahead reader.old) (Err e)) }
    ensures failures { R.failed_reads reader.new
        ≡ R.failed_reads reader.old + read_failures result }
{
    match read_text(alloc, reader) {
        Ok(text) => links_of_text(alloc, text.as_slice()),
        Err(fault) => Err(fault),
    }
}
