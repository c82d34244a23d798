//! Users files with one row per membership.
ghost use Rattle.std.specs.Prelude.{◌≡◌, ◌∷◌, [], IfOk, IfErr, OnOk, is_some, length, option_map};
ghost use Rattle.std.specs.Option.{option_copied};
ghost use Rattle.csv.specs.Records.{fields_of};
ghost use Rattle.audit_files.specs.Faults.{IsNotOutOfMemory, failures_in};
ghost use Rattle.audit_files.specs.Files.{after_header, same_fields, value_in_file};
ghost use Rattle.audit_files.specs.Rows.{records_of};
ghost use Rattle.audit_files.specs.Users.{goes_after, groups_of_row, has_groups as group_test, last_of, member_of};
ghost use Rattle.audit_files.specs.Users.{membership_fault, memberships_header, row_behind, users_of, with_row};

use crate::FileFault;
use crate::fields::field;
use crate::number::number;
use crate::rows::Rows;
use crate::table::{Table, gather};
use csv::ByteRecord;
use std::alloc::{AllocError, Global};
use sudo_match::{Group, Person};
use sudo_text::Seq;

// Whether a record is the header of a file with one row per membership.
#[tactic(auto, using(crate::proofs::FieldLemmas::no_header, crate::proofs::FieldLemmas::four_fields))]
fn is_header(record: &ByteRecord) -> bool
    ensures { result ≡ same_fields (fields_of «record».now) memberships_header }
{
    record.len() == 4
        && field(record, 0) == b"user".as_slice()
        && field(record, 1) == b"uid".as_slice()
        && field(record, 2) == b"gid".as_slice()
        && field(record, 3) == b"group".as_slice()
}

/// Whether a text has the header of a file with one row per membership.
pub(crate) fn has_header(alloc: Global, text: &[u8]) -> Result<bool, AllocError>
    ensures { IfOk result (λ found. found ≡ is_some
        (after_header memberships_header (records_of text.now))) }
{
    let mut rows = Rows::new(alloc, text);
    if !rows.next()? {
        return Ok(false);
    }
    Ok(is_header(&rows.record))
}

// Returns the group that two fields state, as a list, which is empty if both fields are; `None` for
// any other fields.
fn groups(alloc: Global, gid: &[u8], name: &[u8]) -> Result<Option<Seq<Group>>, AllocError>
    ensures { IfOk result (λ o. o ≡ groups_of_row gid.now name.now) }
{
    let mut groups = Seq::new(alloc);
    if name.is_empty() {
        return Ok(if gid.is_empty() { Some(groups) } else { None });
    }
    let Some(gid) = number(gid) else {
        return Ok(None);
    };
    let name = Seq::from_slice(alloc, name)?;
    groups.push(Group { name, gid })?;
    Ok(Some(groups))
}

// Returns the user that a record states, with one group or none, if it states one.
#[tactic(auto, using(crate::proofs::FieldLemmas::four_fields))]
fn member(alloc: Global, record: &ByteRecord) -> Result<Option<Person>, AllocError>
    ensures { IfOk result (λ o. o ≡ member_of (fields_of «record».now)) }
{
    if record.len() != 4 {
        return Ok(None);
    }
    member_by(
        alloc,
        field(record, 0),
        field(record, 1),
        field(record, 2),
        field(record, 3),
    )
}

// Returns the user that four fields state, if they state one.
fn member_by(
    alloc: Global,
    user: &[u8],
    uid: &[u8],
    gid: &[u8],
    group: &[u8],
) -> Result<Option<Person>, AllocError>
    ensures { IfOk result (λ o. o ≡ member_of (user.now ∷ uid.now ∷ gid.now ∷ group.now ∷ [])) }
{
    if user.is_empty() {
        return Ok(None);
    }
    let Some(uid) = number(uid) else {
        return Ok(None);
    };
    let Some(groups) = groups(alloc, gid, group)? else {
        return Ok(None);
    };
    let name = Seq::from_slice(alloc, user)?;
    Ok(Some(Person { name, uid, groups }))
}

fn has_groups(person: &Person) -> bool
    ensures { result ≡ group_test person.now }
{
    !person.groups.is_empty()
}

// Whether a row may follow the rows of this user.
fn may_follow(last: &Person, row: &Person) -> bool
    ensures { result ≡ goes_after last.now row.now }
{
    last.name.as_slice() != row.name.as_slice()
        || (last.uid == row.uid && has_groups(last) && has_groups(row))
}

// The users whose memberships were read so far.
#[derive(Drop)]
struct Memberships {
    alloc: Global,
    list: Vec<Person>,
}

impl Table for Memberships {
    ghost use Rattle.audit_files.specs.Users.{membership_fault, memberships_header};

    ghost header = { memberships_header };

    ghost fault = { membership_fault };

    ghost holds = { λ table before. table.list.items ≡ users_of before };

    ghost earlier = { λ table. 0 };

    fn is_header(&self, record: &ByteRecord) -> bool {
        is_header(record)
    }

    fn add(&mut self, row: u32, record: &ByteRecord) -> Result<(), FileFault> {
        let found = match member(self.alloc, record) {
            Ok(found) => found,
            Err(_) => return Err(FileFault::Memory),
        };
        let Some(member) = found else {
            return Err(FileFault::BadRow { row });
        };
        if !self.fits(&member) {
            return Err(FileFault::BadRow { row });
        }
        if row >= 100_002 {
            return Err(FileFault::TooMany);
        }
        match self.keep(member) {
            Ok(()) => Ok(()),
            Err(_) => Err(FileFault::Memory),
        }
    }
}

impl Memberships {
    // Whether a row may follow the rows so far.
    fn fits(&self, row: &Person) -> bool
        ensures { result ≡ is_some (row_behind (last_of self.now.list.items) (Some row.now)) }
    {
        match self.list.last() {
            Some(last) => may_follow(last, row),
            None => true,
        }
    }

    // Adds the group of a row to the last user if the row is of that user, or else appends the row
    // as another user.
    fn keep(&mut self, row: Person) -> Result<(), AllocError>
        ensures { OnOk result (self.new.list.items ≡ with_row self.old.list.items row) }
    {
        let Some(mut last) = self.list.pop() else {
            self.list.push(row)?;
            return Ok(());
        };
        if last.name.as_slice() == row.name.as_slice() {
            last.groups.append(row.groups)?;
            self.list.push(last)?;
            return Ok(());
        }
        self.list.push(last)?;
        self.list.push(row)?;
        Ok(())
    }
}

/// Returns the users that the bytes of a file with one row per membership state, in order, or its
/// first fault.
pub(crate) fn users_by_membership(alloc: Global, text: &[u8]) -> Result<Vec<Person>, FileFault>
    ensures stated { IfOk result (λ list. value_in_file memberships_header membership_fault users_of
        (records_of text.now) ≡ Ok list.items) }
    ensures fault { IfErr result (λ e. IsNotOutOfMemory e
        → value_in_file memberships_header membership_fault users_of (records_of text.now)
        ≡ Err e) }
    ensures no_read { IfErr result (λ e. failures_in e ≡ 0) }
{
    let mut table = Memberships {
        alloc,
        list: Vec::new(alloc),
    };
    gather(alloc, text, &mut table)?;
    Ok(table.list)
}
