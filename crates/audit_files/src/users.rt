//! Users files.
ghost use Rattle.std.specs.Prelude.{◌≡◌, ◌+◌, ◌∷◌, ◌++◌, [], Ok, Err, IfOk, IfErr, OnOk, IfSome, filter_map, length};
ghost use Rattle.csv.specs.Records.{fields_of};
ghost use Rattle.audit_files.specs.Faults.{IsNotOutOfMemory, failures_in, read_failures};
ghost use Rattle.audit_files.specs.Files.{IsRead, value_in_file};
ghost use Rattle.audit_files.specs.Rows.{records_of};
ghost use Rattle.audit_files.specs.Users.{membership_of, people, person_fault, person_of, users_header};

use crate::fields::field;
use crate::memberships::{self, users_by_membership};
use crate::number::number;
use crate::parts::{Item, cut, items};
use crate::table::{Table, gather};
use crate::text::read_text;
use crate::{Feed, FileFault};
use csv::ByteRecord;
use std::alloc::{AllocError, Global};
use sudo_match::{Group, Person};
use sudo_text::Seq;

impl Item for Group {
    ghost stated = { membership_of };

    fn read(alloc: Global, word: &[u8]) -> Result<Option<Group>, AllocError> {
        let Some((name, gid)) = cut(word, b':') else {
            return Ok(None);
        };
        if name.is_empty() {
            return Ok(None);
        }
        let Some(gid) = number(gid) else {
            return Ok(None);
        };
        let name = Seq::from_slice(alloc, name)?;
        Ok(Some(Group { name, gid }))
    }
}

// Returns the user that a record states, if it states one.
#[tactic(auto, using(crate::proofs::FieldLemmas::three_fields))]
fn person(alloc: Global, record: &ByteRecord) -> Result<Option<Person>, AllocError>
    ensures { IfOk result (λ o. o ≡ person_of (fields_of «record».now)) }
{
    if record.len() != 3 {
        return Ok(None);
    }
    person_by(alloc, field(record, 0), field(record, 1), field(record, 2))
}

// Returns the user that three fields state, if they state one.
fn person_by(
    alloc: Global,
    user: &[u8],
    uid: &[u8],
    groups: &[u8],
) -> Result<Option<Person>, AllocError>
    ensures { IfOk result (λ o. o ≡ person_of (user.now ∷ uid.now ∷ groups.now ∷ [])) }
{
    if user.is_empty() {
        return Ok(None);
    }
    let Some(uid) = number(uid) else {
        return Ok(None);
    };
    let Some(groups) = items::<Group>(alloc, groups)? else {
        return Ok(None);
    };
    let name = Seq::from_slice(alloc, user)?;
    Ok(Some(Person {
        name,
        uid,
        groups: Seq::from_vec(groups),
    }))
}

// The users that were read so far.
#[derive(Drop)]
struct UserList {
    alloc: Global,
    list: Vec<Person>,
}

impl Table for UserList {
    ghost use Rattle.audit_files.specs.Users.{person_fault, users_header};

    ghost header = { users_header };

    ghost fault = { person_fault };

    // One user for each record.
    ghost holds = { λ people before. (people.list.items ≡ filter_map person_of before)
        × (length people.list.items ≡ length before) };

    ghost earlier = { λ table. 0 };

    #[tactic(auto, using(crate::proofs::FieldLemmas::no_header, crate::proofs::FieldLemmas::three_fields))]
    fn is_header(&self, record: &ByteRecord) -> bool {
        record.len() == 3
            && field(record, 0) == b"user".as_slice()
            && field(record, 1) == b"uid".as_slice()
            && field(record, 2) == b"groups".as_slice()
    }

    fn add(&mut self, row: u32, record: &ByteRecord) -> Result<(), FileFault> {
        let found = match person(self.alloc, record) {
            Ok(found) => found,
            Err(_) => return Err(FileFault::Memory),
        };
        let Some(person) = found else {
            return Err(FileFault::BadRow { row });
        };
        if self.list.len() >= 100_000 {
            return Err(FileFault::TooMany);
        }
        match self.keep(person) {
            Ok(()) => Ok(()),
            Err(_) => Err(FileFault::Memory),
        }
    }
}

impl UserList {
    fn keep(&mut self, person: Person) -> Result<(), AllocError>
        ensures { OnOk result (self.new.list.items ≡ self.old.list.items ++ person ∷ []) }
    {
        self.list.push(person)?;
        Ok(())
    }
}

// Returns the users that the bytes of a file with one row per user state, in order, or its first
// fault.
fn users_by_user(alloc: Global, text: &[u8]) -> Result<Vec<Person>, FileFault>
    ensures stated { IfOk result (λ list. value_in_file users_header person_fault (filter_map
        person_of)
        (records_of text.now) ≡ Ok list.items) }
    ensures fault { IfErr result (λ e. IsNotOutOfMemory e
        → value_in_file users_header person_fault (filter_map person_of) (records_of text.now)
        ≡ Err e) }
    ensures no_read { IfErr result (λ e. failures_in e ≡ 0) }
{
    let mut table = UserList {
        alloc,
        list: Vec::new(alloc),
    };
    gather(alloc, text, &mut table)?;
    Ok(table.list)
}

// Returns the users that the bytes of a users file state, in order, or its first fault.
fn users_of_text(alloc: Global, text: &[u8]) -> Result<Vec<Person>, FileFault>
    ensures stated { IfOk result (λ list. people text.now ≡ Ok list.items) }
    ensures fault { IfErr result (λ e. IsNotOutOfMemory e → people text.now ≡ Err e) }
    ensures no_read { IfErr result (λ e. failures_in e ≡ 0) }
{
    if memberships::has_header(alloc, text)? {
        return users_by_membership(alloc, text);
    }
    users_by_user(alloc, text)
}

/// Reads a users file to its end, and returns its users, in order.
///
/// The header is `user,uid,groups` or `user,uid,gid,group`.
///
/// Under the first header a row is a user: a nonempty name, a number, and groups as `name:gid`,
/// separated by one space, possibly none.
///
/// Under the second header a row is a membership: a nonempty name, a number, and the number and the
/// name of one group, which may have any nonempty name. Consecutive rows of one user are one user,
/// with the groups in the order of the rows, the primary group first. A user without groups has one
/// row, in which both fields of the group are empty. A row after one of the same user is a `BadRow`
/// if its number differs, or if one of the two has no group. Rows of a user that return after those
/// of another are a further user of the same name.
///
/// Returns `Header` if the header is another or missing. The first faulty record decides: returns
/// `BadRow` if it has another number of fields, has a field of another shape, or may not follow, or
/// else `TooMany` if it is past 100,000 rows. Returns `TooMany` also for more than 268,435,456
/// bytes, before any row is read, `Read` if a read failed, and `Memory` if allocation failed.
pub fn read_users<R: Feed>(alloc: Global, reader: &mut R) -> Result<Vec<Person>, FileFault>
    ensures stated { IfOk result (λ list. IsRead people (R.ahead reader.old) (Ok list.items)) }
    ensures fault { IfErr result (λ e. IsNotOutOfMemory e → IsRead people (R.ahead reader.old) (Err
        e)) }
    ensures failures { R.failed_reads reader.new
        ≡ R.failed_reads reader.old + read_failures result }
{
    match read_text(alloc, reader) {
        Ok(text) => users_of_text(alloc, text.as_slice()),
        Err(fault) => Err(fault),
    }
}
