//! The table of the grants of a policy, written as it is made.
ghost use Rattle.std.specs.Prelude.{◌≡◌, ◌+◌, [], IfErr, IfOk, IsTrue, OnOk, option_copied};
ghost use Rattle.std.specs.Io.KnownBytes.{Appends};
ghost use Rattle.sudo_verdict.specs.Body.Resolved.{body_resolves};
ghost use Rattle.sudo_verdict.specs.Grants.{entry_grants};
ghost use Rattle.review_grants.specs.Body.Heads as heads;
ghost use Rattle.review_grants.specs.Body.Pending.{Empties, Puts, StopsIn};
ghost use Rattle.review_grants.specs.GrantRows.{grants_header, grants_text};
ghost use Rattle.audit_files.specs.Report.{line};
ghost use Rattle.review_grants.specs.Writing.{IsStopped, failures_of};

use crate::depends::NotedPlaces;
use crate::names::Names;
use crate::rows::{Scope, Table, push_entry, push_header};
use audit_files::{Sink, WriteFault, write_all_of};
use std::alloc::{AllocError, Global};
use sudo_grammar::Entry;
use sudo_match::Directory;
use sudo_policy::Checked;

/// The most bytes that wait before they are written.
pub(crate) const MOST_PENDING: usize = 65_536;

/// The reason why a table is not written whole.
#[derive(Clone, Copy, Debug, PartialEq, Eq)]
pub enum Stopped {
    /// A write failed, after this many bytes of the table.
    Write(WriteFault),
    /// Out of memory.
    Memory,
}

impl From<AllocError> for Stopped {
    ghost use Rattle.std.specs.Prelude.{◌≡◌};
    ghost use Rattle.review_grants.specs.declared.writing.Stopped.TheVariants.{Memory};

    ghost from_gives = { λ _ e. e ≡ Memory };

    fn from(_: AllocError) -> Stopped {
        Stopped::Memory
    }
}

/// Records that are made and not yet written, and how many bytes were written before them.
#[derive(Drop)]
pub(crate) struct Pending {
    pub(crate) text: Vec<u8>,
    pub(crate) written: u64,
}

/// Writes the records that wait.
pub(crate) fn write_pending<O: Sink>(pending: &mut Pending, out: &mut O) -> Result<(), Stopped>
    ensures written { OnOk result (Empties (O.taken out.old) (O.taken out.new)
        pending.old pending.new) }
    ensures stopped { IfErr result (StopsIn (O.taken out.old) (O.taken out.new) pending.old []) }
    ensures failures { O.stalled_writes out.new ≡ O.stalled_writes out.old + failures_of result }
{
    match write_all_of(out, &pending.text) {
        Ok(()) => {
            let count = pending.text.len() as u64;
            pending.written = pending.written.saturating_add(count);
            pending.text.clear();
            Ok(())
        }
        Err(lost) => Err(Stopped::Write(WriteFault {
            written: pending.written.saturating_add(lost.written),
        })),
    }
}

// Writes the records of an entry, or has them wait until there are more.
fn put_entry<O: Sink>(
    alloc: Global,
    table: Table<'_>,
    entry: &Entry,
    pending: &mut Pending,
    out: &mut O,
) -> Result<(), Stopped>
    requires { IsTrue (body_resolves table.checked.now entry.now.body) }
    ensures written { OnOk result (Puts (O.taken out.old) (O.taken out.new) pending.old pending.new
        (heads.lines_of table.entry.checked.now table.entry.directory.now
        (option_copied table.entry.scope.user) (option_copied table.entry.scope.host)
        (entry_grants table.entry.checked.now entry.now))) }
    ensures stopped { IfErr result (StopsIn (O.taken out.old) (O.taken out.new) pending.old
        (heads.lines_of table.entry.checked.now table.entry.directory.now
        (option_copied table.entry.scope.user) (option_copied table.entry.scope.host)
        (entry_grants table.entry.checked.now entry.now))) }
    ensures failures { O.stalled_writes out.new ≡ O.stalled_writes out.old + failures_of result }
{
    push_entry(alloc, &mut pending.text, table, entry)?;
    if pending.text.len() < MOST_PENDING {
        return Ok(());
    }
    write_pending(pending, out)
}

// Returns the header, which waits to be written.
fn pending_header(alloc: Global) -> Result<Pending, AllocError>
    ensures { IfOk result (λ p. (p.text.items ≡ line grants_header) × (p.written ≡ 0)) }
{
    let mut text = Vec::new(alloc);
    push_header(&mut text)?;
    Ok(Pending { text, written: 0 })
}

// Writes the header and the records of all entries.
fn write_table<O: Sink>(alloc: Global, table: Table<'_>, out: &mut O) -> Result<(), Stopped>
    ensures whole { OnOk result (Appends (O.taken out.old) (O.taken out.new)
        (grants_text table.entry.checked.now table.entry.directory.now
        (option_copied table.entry.scope.user) (option_copied table.entry.scope.host))) }
    ensures stopped { IfErr result (IsStopped (O.taken out.old) (O.taken out.new)
        (grants_text table.entry.checked.now table.entry.directory.now
        (option_copied table.entry.scope.user) (option_copied table.entry.scope.host))) }
    ensures failures { O.stalled_writes out.new ≡ O.stalled_writes out.old + failures_of result }
{
    let mut pending = pending_header(alloc)?;
    for entry in table.checked.policy().entries.as_slice() {
        put_entry(alloc, table, entry, &mut pending, out)?;
    }
    write_pending(&mut pending, out)
}

/// Writes the table of the grants of a checked policy as CSV: the header
/// `place,users,hosts,runas,sign,command,tags,depends`, then a record for each command of the written-out policy, in its
/// order, whose lists allow the user and the host of the scope; a command that stands for a note has none. Writes the records
/// of a rule before it makes many more, so that memory holds those of one rule beside the policy and its notes.
///
/// `place` is `PATH:LINE` of its rule; `users` and `hosts` are the known ones that the lists of the rule and of its section
/// allow, each as it would stand in a policy, and `ALL` where they allow each; `runas` is the runas in force, its aliases
/// written out, and empty without one; `sign` is `!` for a command that is denied; `tags` are those in force; `depends` names
/// the notes at the place of the rule, with a blank between them. Returns `Write` if a write failed, and `Memory` if allocation
/// failed; then the first bytes of the table were written, and no more.
pub fn write_grants<O: Sink>(
    alloc: Global,
    checked: &Checked,
    directory: &Directory,
    scope: Scope<'_>,
    out: &mut O,
) -> Result<(), Stopped>
    ensures whole { OnOk result (Appends (O.taken out.old) (O.taken out.new)
        (grants_text checked.now directory.now (option_copied scope.entry.user)
        (option_copied scope.entry.host))) }
    ensures stopped { IfErr result (IsStopped (O.taken out.old) (O.taken out.new)
        (grants_text checked.now directory.now (option_copied scope.entry.user)
        (option_copied scope.entry.host))) }
    ensures failures { O.stalled_writes out.new ≡ O.stalled_writes out.old + failures_of result }
{
    let names = Names::of(alloc, directory)?;
    let noted = NotedPlaces::of(alloc, checked)?;
    let table = Table {
        checked,
        noted: &noted,
        directory,
        names: &names,
        scope,
    };
    let ended = write_table(alloc, table, out);
    drop(noted);
    drop(names);
    ended
}
