//! Where rows stand that another may be merged with: hints, each of which is checked before it is used.
use crate::cell::{AskedGroups, AskedTargets};
use crate::compared::{Compared, Decider};
use crate::row::{Dimension, Row};
use crate::witness::Witness;
use std::alloc::{AllocError, Global};

/// The indices of rows, in buckets by digests of what they have in common with the rows that may be merged with them.
#[derive(Drop)]
pub(crate) struct Finder {
    buckets: Vec<Vec<usize>>,
}

impl Finder {
    /// Returns so many buckets without indices. Returns `AllocError` if allocation fails.
    pub(crate) fn new(alloc: Global, count: usize) -> Result<Finder, AllocError> {
        let mut buckets = Vec::new(alloc);
        for _ in 0..count {
            buckets.push(Vec::new(alloc))?;
        }
        Ok(Finder { buckets })
    }

    // Returns the number of the bucket for a digest.
    fn bucket(&self, digest: usize) -> usize {
        if self.buckets.is_empty() {
            return 0;
        }
        digest % self.buckets.len()
    }

    /// Returns the indices of rows with digests like this one.
    pub(crate) fn indices(&self, digest: usize) -> &[usize] {
        match self.buckets.get(self.bucket(digest)) {
            None => &[],
            Some(bucket) => bucket.as_slice(),
        }
    }

    /// Forgets all indices.
    pub(crate) fn clear(&mut self) {
        for index in 0..self.buckets.len() {
            self.buckets[index].clear();
        }
    }

    /// Adds the index of a row with this digest. Returns `AllocError` if allocation fails.
    pub(crate) fn add(&mut self, digest: usize, index: usize) -> Result<(), AllocError> {
        let at = self.bucket(digest);
        if let Some(bucket) = self.buckets.get_mut(at) {
            bucket.push(index)?;
        }
        Ok(())
    }
}

// Returns the digest with a further number.
fn with_number(digest: usize, number: usize) -> usize {
    (digest ^ number)
        .wrapping_mul(0x9E37_79B9_7F4A_7C15)
        .rotate_left(15)
}

/// Returns a digest of the indices of blocks of both policies.
pub(crate) fn digest_of_blocks(old: &[usize], new: &[usize]) -> usize {
    let mut digest = with_number(old.len(), new.len());
    for index in old {
        digest = with_number(digest, *index);
    }
    for index in new {
        digest = with_number(digest, *index);
    }
    digest
}

// How many numbers of a list a digest takes in, at most.
const TAKEN: usize = 16;

// Returns the digest with numbers: of many the count and some of them, spread evenly.
fn with_numbers(digest: usize, numbers: &[usize]) -> usize {
    let mut digest = with_number(digest, numbers.len());
    let step = numbers.len() / TAKEN + 1;
    let mut at: usize = 0;
    for _ in 0..TAKEN {
        if let Some(number) = numbers.get(at) {
            digest = with_number(digest, *number);
        }
        at = at.wrapping_add(step);
    }
    digest
}

fn with_targets(digest: usize, targets: &[AskedTargets]) -> usize {
    let mut digest = with_number(digest, targets.len());
    for each in targets {
        digest = match each {
            AskedTargets::One(number) => with_number(digest, number.unwrap_or(usize::MAX)),
            AskedTargets::Range { first, end } => with_number(with_number(digest, *first), *end),
        };
    }
    digest
}

fn with_groups(digest: usize, groups: &[AskedGroups]) -> usize {
    let mut digest = with_number(digest, groups.len());
    for each in groups {
        digest = match each {
            AskedGroups::One(number) => with_number(digest, number.unwrap_or(usize::MAX)),
            AskedGroups::Own => with_number(digest, usize::MAX - 1),
            AskedGroups::Others => with_number(digest, usize::MAX - 2),
        };
    }
    digest
}

fn with_bytes(digest: usize, bytes: &[u8]) -> usize {
    let mut digest = with_number(digest, bytes.len());
    for byte in bytes {
        digest = with_number(digest, *byte as usize);
    }
    digest
}

fn with_witness(digest: usize, witness: &Witness) -> usize {
    let digest = with_bytes(digest, witness.command.as_slice());
    with_bytes(digest, witness.arguments.as_slice())
}

fn with_witnesses(digest: usize, witnesses: &[Witness]) -> usize {
    let mut digest = digest;
    for witness in witnesses {
        digest = with_witness(digest, witness);
    }
    digest
}

fn with_decider(digest: usize, decider: &Option<Decider>) -> usize {
    match decider {
        None => with_number(digest, 0),
        Some(decider) => with_number(digest, decider.place.line as usize),
    }
}

fn with_found(digest: usize, found: &Compared) -> usize {
    match found {
        Compared::Same => digest,
        Compared::Differs(witnesses) => with_witnesses(digest, witnesses.as_slice()),
        Compared::May { old, new } => with_decider(with_decider(digest, old), new),
    }
}

/// Returns a digest of what the row has in common with the rows that differ from it in the dimension alone.
pub(crate) fn digest_of(row: &Row, dimension: Dimension) -> usize {
    let digest = with_found(0, &row.found);
    let (users, hosts) = (row.users.as_slice(), row.hosts.as_slice());
    let (targets, groups) = (row.targets.as_slice(), row.groups.as_slice());
    match dimension {
        Dimension::Users => with_groups(with_targets(with_numbers(digest, hosts), targets), groups),
        Dimension::Targets => with_groups(with_numbers(with_numbers(digest, users), hosts), groups),
        Dimension::Groups => with_targets(
            with_numbers(with_numbers(digest, users), hosts),
            targets,
        ),
    }
}
