//! The table of who may run a command, and on which host, written as it is made.
ghost use Rattle.std.specs.Prelude.{◌≡◌, ◌+◌, ◌++◌, [], IfErr, IfOk, OnOk, option_copied};
ghost use Rattle.std.specs.Io.KnownBytes.{Appends};
ghost use Rattle.csv.specs.Writing.{default_writer, fields_text};
ghost use Rattle.audit_files.specs.Report.{line};
ghost use Rattle.sudo_verdict.specs.Postings.{Indexes};
ghost use Rattle.review_grants.specs.Body.Pending.{Puts, StopsIn};
ghost use Rattle.review_grants.specs.Body.Who.{IsRequestOf, users_lines, with_host};
ghost use Rattle.review_grants.specs.Depends.{IsNoted};
ghost use Rattle.review_grants.specs.WhoRows.{sought_by, host_line, hosts_lines, request_at, request_line};
ghost use Rattle.review_grants.specs.WhoRows.{user_lines, verdict_fields, who_fields, who_header, who_text};
ghost use Rattle.review_grants.specs.Writing.{IsStopped, failures_of};

use crate::depends::NotedPlaces;
use crate::writing::{MOST_PENDING, Pending, Stopped, write_pending};
use audit_files::{Sink, push_field, push_next_field, set_place, set_tags, verdict_word};
use std::alloc::{AllocError, Global};
use std::mem;
use sudo_match::{Directory, Machine, Person, Request, Verdict};
use sudo_policy::Checked;
use sudo_text::Seq;
use sudo_verdict::RuleIndex;

/// The command that is sought, for each known user on each known host.
#[derive(Clone, Copy)]
pub struct Sought<'a> {
    /// The command, by its absolute path, or `sudoedit`.
    pub command: &'a [u8],
    /// Its arguments, joined by spaces.
    pub arguments: &'a [u8],
    /// The name of the user to run it as, where one is asked for.
    pub target: Option<&'a [u8]>,
}

// What judges each request: a checked policy, the index of its rules and its notes; the known users and hosts; and what is
// sought.
#[derive(Clone, Copy)]
struct Judged<'a> {
    checked: &'a Checked,
    index: &'a RuleIndex,
    noted: &'a NotedPlaces,
    directory: &'a Directory,
    sought: Sought<'a>,
    ghost indexed: { Indexes checked.now index.now },
    ghost knows: { IsNoted checked.now noted.now },
}

// The request at hand, and texts that each record overwrites.
#[derive(Drop)]
struct Row {
    request: Request,
    place: Vec<u8>,
    tags: Vec<u8>,
}

// Returns the name to run as, if one is asked for.
fn target_of(alloc: Global, target: Option<&[u8]>) -> Result<Option<Seq<u8>>, AllocError>
    ensures { IfOk result (λ name. name ≡ option_copied target.entry) }
{
    match target {
        None => Ok(None),
        Some(name) => Ok(Some(Seq::from_slice(alloc, name)?)),
    }
}

// Returns the request of a user, on no host yet.
fn request_of(alloc: Global, sought: Sought<'_>, user: &[u8]) -> Result<Request, AllocError>
    ensures { IfOk result (λ r. r ≡ request_at (sought_by sought.entry) user.now []) }
{
    Ok(Request {
        number: 1,
        user: Seq::from_slice(alloc, user)?,
        host: Seq::new(alloc),
        runas_user: target_of(alloc, sought.target)?,
        runas_group: None,
        command: Seq::from_slice(alloc, sought.command)?,
        arguments: Seq::from_slice(alloc, sought.arguments)?,
    })
}

// Replaces the host of a request.
fn set_host(alloc: Global, request: &mut Request, host: &[u8]) -> Result<(), AllocError>
    ensures { OnOk result (request.new ≡ with_host request.old host.now) }
{
    let mut name = mem::replace(&mut request.host, Seq::new(alloc)).into_vec();
    name.clear();
    name.extend_from_slice(host)?;
    request.host = Seq::from_vec(name);
    Ok(())
}

// Appends the fields of a verdict, each after a comma.
#[tactic(auto, unfolding(csv::specs::Writing::fields_text))]
fn push_verdict(
    text: &mut Vec<u8>,
    row: &mut Row,
    judged: Judged<'_>,
    verdict: &Verdict,
) -> Result<(), AllocError>
    ensures text { OnOk result (text.new.items ≡ text.old.items
        ++ fields_text default_writer (verdict_fields judged.entry.checked.now verdict.now)) }
    ensures request { row.new.request ≡ row.old.request }
{
    let files = judged.checked.policy().files.as_slice();
    set_place(&mut row.place, files, verdict)?;
    set_tags(&mut row.tags, verdict)?;
    push_next_field(text, verdict_word(verdict))?;
    push_next_field(text, row.place.as_slice())?;
    push_next_field(text, row.tags.as_slice())?;
    push_next_field(text, judged.noted.verdict_depends(verdict))
}

// Appends the record of a verdict on the request at hand.
#[tactic(auto, unfolding(csv::specs::Writing::fields_text, csv::specs::Writing::is_blank))]
fn push_record(
    text: &mut Vec<u8>,
    row: &mut Row,
    judged: Judged<'_>,
    verdict: &Verdict,
) -> Result<(), AllocError>
    ensures text { OnOk result (text.new.items ≡ text.old.items
        ++ line (who_fields judged.entry.checked.now row.old.request verdict.now)) }
    ensures request { row.new.request ≡ row.old.request }
{
    push_field(text, row.request.user.as_slice())?;
    push_next_field(text, row.request.host.as_slice())?;
    push_verdict(text, row, judged, verdict)?;
    text.push(b'\n')?;
    Ok(())
}

// Appends the record of the request at hand, if a rule allows or denies it.
fn push_request(text: &mut Vec<u8>, row: &mut Row, judged: Judged<'_>) -> Result<(), AllocError>
    ensures text { OnOk result (text.new.items ≡ text.old.items ++ request_line
        judged.entry.checked.now judged.entry.directory.now row.old.request) }
    ensures request { row.new.request ≡ row.old.request }
{
    let verdict = judged
        .index
        .verdict(judged.checked, judged.directory, &row.request);
    match &verdict {
        Verdict::Allow { .. } | Verdict::Deny { .. } => push_record(text, row, judged, &verdict),
        Verdict::NoMatch | Verdict::Unknown(_) => Ok(()),
    }
}

// Writes the record of a user on a host, or has it wait until there are more.
fn put_host<O: Sink>(
    alloc: Global,
    judged: Judged<'_>,
    row: &mut Row,
    machine: &Machine,
    pending: &mut Pending,
    out: &mut O,
) -> Result<(), Stopped>
    requires { IsRequestOf (sought_by judged.sought) row.old.request.user row.old.request }
    ensures request { OnOk result (IsRequestOf (sought_by judged.entry.sought)
        row.old.request.user row.new.request) }
    ensures written { OnOk result (Puts (O.taken out.old) (O.taken out.new) pending.old pending.new
        (host_line judged.entry.checked.now judged.entry.directory.now
        (sought_by judged.entry.sought) row.old.request.user machine.now)) }
    ensures stopped { IfErr result (StopsIn (O.taken out.old) (O.taken out.new) pending.old
        (host_line judged.entry.checked.now judged.entry.directory.now
        (sought_by judged.entry.sought) row.old.request.user machine.now)) }
    ensures failures { O.stalled_writes out.new ≡ O.stalled_writes out.old + failures_of result }
{
    set_host(alloc, &mut row.request, machine.name.as_slice())?;
    push_request(&mut pending.text, row, judged)?;
    if pending.text.len() < MOST_PENDING {
        return Ok(());
    }
    write_pending(pending, out)
}

// Writes the records of a user on each host.
fn put_hosts<O: Sink>(
    alloc: Global,
    judged: Judged<'_>,
    row: &mut Row,
    pending: &mut Pending,
    out: &mut O,
) -> Result<(), Stopped>
    requires { IsRequestOf (sought_by judged.sought) row.old.request.user row.old.request }
    ensures written { OnOk result (Puts (O.taken out.old) (O.taken out.new) pending.old pending.new
        (hosts_lines judged.entry.checked.now judged.entry.directory.now
        (sought_by judged.entry.sought) row.old.request.user)) }
    ensures stopped { IfErr result (StopsIn (O.taken out.old) (O.taken out.new) pending.old
        (hosts_lines judged.entry.checked.now judged.entry.directory.now
        (sought_by judged.entry.sought) row.old.request.user)) }
    ensures failures { O.stalled_writes out.new ≡ O.stalled_writes out.old + failures_of result }
{
    for machine in judged.directory.machines() {
        put_host(alloc, judged, row, machine, pending, out)?;
    }
    Ok(())
}

// Returns the request of a user, with empty texts beside it.
fn row_of(alloc: Global, sought: Sought<'_>, user: &[u8]) -> Result<Row, AllocError>
    ensures { IfOk result (λ row. row.request ≡ request_at (sought_by sought.entry) user.now []) }
{
    Ok(Row {
        request: request_of(alloc, sought, user)?,
        place: Vec::new(alloc),
        tags: Vec::new(alloc),
    })
}

// Writes the records of a user.
fn put_user<O: Sink>(
    alloc: Global,
    judged: Judged<'_>,
    person: &Person,
    pending: &mut Pending,
    out: &mut O,
) -> Result<(), Stopped>
    ensures written { OnOk result (Puts (O.taken out.old) (O.taken out.new) pending.old pending.new
        (user_lines judged.entry.checked.now judged.entry.directory.now
        (sought_by judged.entry.sought) person.now)) }
    ensures stopped { IfErr result (StopsIn (O.taken out.old) (O.taken out.new) pending.old
        (user_lines judged.entry.checked.now judged.entry.directory.now
        (sought_by judged.entry.sought) person.now)) }
    ensures failures { O.stalled_writes out.new ≡ O.stalled_writes out.old + failures_of result }
{
    let mut row = row_of(alloc, judged.sought, person.name.as_slice())?;
    let ended = put_hosts(alloc, judged, &mut row, pending, out);
    drop(row);
    ended
}

// Writes the records of all users.
fn put_users<O: Sink>(
    alloc: Global,
    judged: Judged<'_>,
    pending: &mut Pending,
    out: &mut O,
) -> Result<(), Stopped>
    ensures written { OnOk result (Puts (O.taken out.old) (O.taken out.new) pending.old pending.new
        (users_lines judged.entry.checked.now judged.entry.directory.now
        (sought_by judged.entry.sought))) }
    ensures stopped { IfErr result (StopsIn (O.taken out.old) (O.taken out.new) pending.old
        (users_lines judged.entry.checked.now judged.entry.directory.now
        (sought_by judged.entry.sought))) }
    ensures failures { O.stalled_writes out.new ≡ O.stalled_writes out.old + failures_of result }
{
    for person in judged.directory.people() {
        put_user(alloc, judged, person, pending, out)?;
    }
    Ok(())
}

// The names of the columns, as a record.
const HEADER: &[u8] = b"user,host,verdict,place,tags,depends\n";

// Appends the record of the names of the columns.
#[tactic(auto, unfolding(csv::specs::Writing::fields_text, csv::specs::Writing::is_blank))]
fn push_header(text: &mut Vec<u8>) -> Result<(), AllocError>
    ensures { OnOk result (text.new.items ≡ text.old.items ++ line who_header) }
{
    text.extend_from_slice(HEADER)
}

// Returns the header, which waits to be written.
fn pending_header(alloc: Global) -> Result<Pending, AllocError>
    ensures { IfOk result (λ p. (p.text.items ≡ line who_header) × (p.written ≡ 0)) }
{
    let mut text = Vec::new(alloc);
    push_header(&mut text)?;
    Ok(Pending { text, written: 0 })
}

// Writes the header and the records of all users.
fn write_table<O: Sink>(alloc: Global, judged: Judged<'_>, out: &mut O) -> Result<(), Stopped>
    ensures whole { OnOk result (Appends (O.taken out.old) (O.taken out.new)
        (who_text judged.entry.checked.now judged.entry.directory.now
        (sought_by judged.entry.sought))) }
    ensures stopped { IfErr result (IsStopped (O.taken out.old) (O.taken out.new)
        (who_text judged.entry.checked.now judged.entry.directory.now
        (sought_by judged.entry.sought))) }
    ensures failures { O.stalled_writes out.new ≡ O.stalled_writes out.old + failures_of result }
{
    let mut pending = pending_header(alloc)?;
    put_users(alloc, judged, &mut pending, out)?;
    write_pending(&mut pending, out)
}

/// Writes as CSV who may run a command, and on which host: the header `user,host,verdict,place,tags,depends`, then for each
/// known user, in their order, a record for each known host, in their order, where a rule of the checked policy allows or
/// denies the request of that user on that host. Writes the records as they are made, so that memory holds an index of the
/// rules and what they depend on beside the policy.
///
/// `verdict` is `allow` or `deny`, `place` is `PATH:LINE` of the grant that decides, `tags` is empty but for `allow`, and
/// `depends` names what the grants at the place depend on. There is no record for a target that is not known. Returns `Write`
/// if a write failed, and `Memory` if allocation failed; then the first bytes of the table were written, and no more.
pub fn write_who<O: Sink>(
    alloc: Global,
    checked: &Checked,
    directory: &Directory,
    sought: Sought<'_>,
    out: &mut O,
) -> Result<(), Stopped>
    ensures whole { OnOk result (Appends (O.taken out.old) (O.taken out.new)
        (who_text checked.now directory.now (sought_by sought.entry))) }
    ensures stopped { IfErr result (IsStopped (O.taken out.old) (O.taken out.new)
        (who_text checked.now directory.now (sought_by sought.entry))) }
    ensures failures { O.stalled_writes out.new ≡ O.stalled_writes out.old + failures_of result }
{
    let index = RuleIndex::of(alloc, checked)?;
    let noted = NotedPlaces::of(alloc, checked)?;
    let judged = Judged {
        checked,
        index: &index,
        noted: &noted,
        directory,
        sought,
    };
    let ended = write_table(alloc, judged, out);
    drop(noted);
    drop(index);
    ended
}
