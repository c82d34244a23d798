//! The roster of an audit: the name of each sender once, in the order of first appearance.
ghost use Rattle.std.specs.Prelude.{◌≡◌, ◌<◌, ◌≤◌, ◌^◌, IfOk, IfErr, length, map, vec_len};
ghost use Rattle.std.specs.List.{zip};
ghost use Rattle.audit_collect.specs.SenderState.{start};
ghost use Rattle.audit_collect.specs.Roster.{AreDistinct, IsRoster};
ghost use Rattle.audit_run.specs.Body.Concluded.{RefusesSenders};
ghost use Rattle.audit_run.specs.Roster.{owners, index_in, indices_in, roster};
ghost use Rattle.audit_run.specs.Body.Work.{part_ahead};

use crate::fault::AuditFault;
use crate::source::{Part, Source};
use audit_collect::{CollectFault, Collector, RosterFault};
use audit_files::Feed;
use std::alloc::{AllocError, Global};
use sudo_text::Seq;

// Separates the names of the sources from their readers.
fn split_sources<F: Drop>(
    alloc: Global,
    sources: Vec<Source<F>>,
) -> Result<(Vec<Seq<u8>>, Vec<F>), AllocError>
    ensures names { IfOk result (λ r. r.0.items ≡ map (λ s. s.name) sources.items) }
    ensures readers { IfOk result (λ r. r.1.items ≡ map (λ s. s.reader) sources.items) }
    ensures lengths { IfOk result (λ r. (vec_len r.0 ≡ vec_len sources)
        × (vec_len r.1 ≡ vec_len sources)) }
{
    let mut names = Vec::with_capacity(alloc, sources.len())?;
    let mut readers = Vec::with_capacity(alloc, sources.len())?;
    for source in sources {
        let Source { name, reader } = source;
        names.push(name)?;
        readers.push(reader)?;
    }
    Ok((names, readers))
}

// Returns the index of the first name equal to this one, or the number of names if there is none.
fn index_within(names: &[Seq<u8>], name: &[u8]) -> usize
    ensures index { result ≡ index_in name.now names.now }
    ensures within { result ≤ length names.now }
{
    let mut index = 0;
    let mut left = names;
    while let Some((first, rest)) = left.split_first() {
        if first.as_slice() == name {
            return index;
        }
        index += 1;
        left = rest;
    }
    index
}

/// Returns each name once, in the order of first appearance: the senders of sources with these names. Returns `AllocError`
/// if allocation failed.
pub fn roster_of(alloc: Global, names: &[Seq<u8>]) -> Result<Vec<Seq<u8>>, AllocError>
    ensures names { IfOk result (λ r. r.items ≡ roster names.now) }
    ensures few { IfOk result (λ r. vec_len r ≤ length names.now) }
{
    let mut found: Vec<Seq<u8>> = Vec::new(alloc);
    let mut left = names;
    while let Some((name, rest)) = left.split_first() {
        if index_within(&found, name.as_slice()) == found.len() {
            found.push(Seq::from_slice(alloc, name.as_slice())?)?;
        }
        left = rest;
    }
    Ok(found)
}

// Returns each reader with its owner, the index of its name in the roster.
fn parts_of<F: Feed + Drop>(
    alloc: Global,
    roster: &[Seq<u8>],
    names: &[Seq<u8>],
    readers: Vec<F>,
) -> Result<Vec<Part<F>>, AllocError>
    requires { (length names.now ≡ vec_len readers) × (length roster.now < 2 ^ 32) }
    ensures parts { IfOk result (λ r. map (λ p. part_ahead p.owner (F.ahead p.reader)) r.items
        ≡ zip (indices_in roster.now names.now) (map F.ahead readers.items)) }
    ensures length { IfOk result (λ r. vec_len r ≡ vec_len readers) }
{
    let mut parts = Vec::with_capacity(alloc, readers.len())?;
    let mut left = names;
    for reader in readers {
        let Some((name, rest)) = left.split_first() else {
            unreachable!()
        };
        let owner = index_within(roster, name.as_slice()) as u32;
        parts.push(Part { owner, reader })?;
        left = rest;
    }
    Ok(parts)
}

// Creates the collector for the senders of the sources.
fn collector_for(alloc: Global, names: Vec<Seq<u8>>) -> Result<Collector, AuditFault>
    requires { AreDistinct names.items }
    ensures ok { IfOk result (λ collector. (collector ≡ start names.items) × IsRoster names.items) }
    ensures err { IfErr result (RefusesSenders names.items) }
{
    match Collector::new(alloc, names) {
        Ok(collector) => Ok(collector),
        Err(RosterFault::Memory) => Err(AuditFault::Memory),
        Err(RosterFault::TooManySenders) => Err(AuditFault::Collect(CollectFault::Roster(
            RosterFault::TooManySenders,
        ))),
        Err(RosterFault::SenderTwice { name: _ }) => unreachable!(),
    }
}

/// The sources of an audit, registered: their names, each source with its owner, and a collector
/// for their senders.
#[derive(Drop)]
pub struct RegisteredSources<F> {
    pub names: Vec<Seq<u8>>,
    pub parts: Vec<Part<F>>,
    pub collector: Collector,
}

/// Builds the roster of at most 256 sources and finds the index of each source in it. Returns the
/// roster fault for more than 64 senders, and `Memory` if allocation failed.
pub fn register<F: Feed + Drop>(
    alloc: Global,
    sources: Vec<Source<F>>,
) -> Result<RegisteredSources<F>, AuditFault>
    requires { vec_len sources ≤ 256 }
    ensures names { IfOk result (λ e. e.names.items ≡ map (λ s. s.name) sources.items) }
    ensures parts { IfOk result (λ e. map (λ p. part_ahead p.owner (F.ahead p.reader)) e.parts.items
        ≡ zip (owners (map (λ s. s.name) sources.items))
        (map (λ s. F.ahead s.reader) sources.items)) }
    ensures lengths { IfOk result (λ e. (vec_len e.names ≡ vec_len sources)
        × (vec_len e.parts ≡ vec_len sources)) }
    ensures collector { IfOk result (λ e. (e.collector
        ≡ start (roster (map (λ s. s.name) sources.items)))
        × IsRoster (roster (map (λ s. s.name) sources.items))) }
    ensures err { IfErr result (RefusesSenders (roster (map (λ s. s.name) sources.items))) }
{
    let (names, readers) = split_sources(alloc, sources)?;
    let roster = roster_of(alloc, &names)?;
    let parts = parts_of(alloc, &roster, &names, readers)?;
    match collector_for(alloc, roster) {
        Ok(collector) => Ok(RegisteredSources {
            names,
            parts,
            collector,
        }),
        Err(fault) => Err(fault),
    }
}
