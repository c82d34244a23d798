//! The links to folders of a machine, as a file states them.
ghost use Rattle.std.specs.Prelude.{◌≡◌, IfErr, IfOk, map};
ghost use Rattle.review_commands.specs.MachineFiles.{AreLinks, IsNoLinks, link_of_paths};

use crate::machine_file::{MachineFile, MachineFileFault};
use audit_files::{Feed, FileFault, LinkPaths, read_links};
use review_cautions::Link;
use std::alloc::{AllocError, Global};

// Returns the link with these paths.
fn link_of(paths: LinkPaths) -> Link
    ensures { result ≡ link_of_paths paths }
{
    let (from, to) = paths;
    Link { from, to }
}

// Returns the links with these paths.
fn links_of(alloc: Global, rows: Vec<LinkPaths>) -> Result<Vec<Link>, AllocError>
    ensures { IfOk result (λ links. links.items ≡ map link_of_paths rows.items) }
{
    let mut links = Vec::new(alloc);
    for paths in rows {
        links.push(link_of(paths))?;
    }
    Ok(links)
}

// Returns that the file of links is refused.
fn refused(fault: FileFault) -> MachineFileFault
    ensures { result ≡ MachineFileFault.Refused MachineFile.Links fault }
{
    MachineFileFault::Refused {
        file: MachineFile::Links,
        fault,
    }
}

/// Reads a file of links to folders, with the header `from,to`, and returns its links, in order.
///
/// Returns `Refused` with `Header`, `BadRow` or `TooMany` if the file is refused, with `Read` if a read failed, and with `Memory`
/// if allocation failed.
pub fn machine_links<R: Feed>(alloc: Global, reader: &mut R) -> Result<Vec<Link>, MachineFileFault>
    ensures stated { IfOk result (λ links. AreLinks (R.ahead reader.old) links.items) }
    ensures fault { IfErr result (IsNoLinks (R.ahead reader.old)) }
{
    let rows = match read_links(alloc, reader) {
        Ok(rows) => rows,
        Err(fault) => return Err(refused(fault)),
    };
    match links_of(alloc, rows) {
        Ok(links) => Ok(links),
        Err(_) => Err(refused(FileFault::Memory)),
    }
}
