//! `grants`: lists the grants of a policy, with the known users and hosts of each.
ghost use Rattle.std.specs.Prelude.{◌≡◌, Some, IfErr, IfOk, option_copied};
ghost use Rattle.run_base.specs.Endings.{PrintsOrNoMemory, writer_states as sent};
ghost use Rattle.sudo_match.specs.KnownRows.{host_named, user_named};
ghost use Rattle.sudo_verdict.specs.Questions.{looked_up};
ghost use Rattle.review_commands.specs.CautionLines.{program_name};
ghost use Rattle.review_commands.specs.Endings.{EndsAsWritten, stop_line};
ghost use Rattle.review_commands.specs.Body.Surveying.{AreNamedGrants, AreScopedGrants, IsNothing};
ghost use Rattle.review_commands.specs.Surveying.{AreGrants, Inputs, IsNotGranted, IsNotInScope, IsTabled, inputs_by};
ghost use Rattle.review_commands.specs.Surveying.{table_notices};

use crate::fault::TableFault;
use crate::program_name::PROGRAM;
use crate::survey::{Survey, read_survey};
use audit_files::{Feed, Sink};
use review_grants::{Scope, Stopped, write_grants};
use run_base::{Files, report_explained, write_text};
use std::alloc::{AllocError, Global};
use std::mem;
use sudo_match::Directory;
use sudo_text::Seq;

/// The names of the user and of the host that a table is about, where one is given.
#[derive(Clone, Copy)]
pub struct ScopeNames<'a> {
    pub user: Option<&'a [u8]>,
    pub host: Option<&'a [u8]>,
}

/// Returns the known user and host of these names, where one is given. Returns `NoSuchUser` or `NoSuchHost` with a name that
/// no known one has, that of the user first, and `Memory` if allocation failed.
pub fn scope_of<'a>(
    alloc: Global,
    directory: &'a Directory,
    names: ScopeNames<'_>,
) -> Result<Scope<'a>, TableFault>
    ensures user { IfOk result (λ s. looked_up (user_named directory.now)
        (option_copied names.entry.user) ≡ Some (option_copied s.user)) }
    ensures host { IfOk result (λ s. looked_up (host_named directory.now)
        (option_copied names.entry.host) ≡ Some (option_copied s.host)) }
    ensures fault { IfErr result (IsNotInScope directory.now (option_copied names.entry.user)
        (option_copied names.entry.host)) }
{
    let user = match names.user {
        None => None,
        Some(name) => match directory.user(name) {
            Some(user) => Some(user),
            None => return Err(TableFault::NoSuchUser(Seq::from_slice(alloc, name)?)),
        },
    };
    let host = match names.host {
        None => None,
        Some(name) => match directory.host(name) {
            Some(host) => Some(host),
            None => return Err(TableFault::NoSuchHost(Seq::from_slice(alloc, name)?)),
        },
    };
    Ok(Scope { user, host })
}

/// Prints the line that says why a table stopped part way, and returns 4.
pub(crate) fn report_stop<E: Sink>(alloc: Global, stopped: Stopped, err: &mut E) -> u8
    ensures { PrintsOrNoMemory program_name 4 (stop_line program_name stopped) result
        (sent E.taken E.stalled_writes err.old err.new) }
{
    match stopped {
        Stopped::Write(lost) => report_explained(alloc, PROGRAM, lost, err),
        Stopped::Memory => report_explained(alloc, PROGRAM, AllocError, err),
    }
}

// Prints the table of grants in a scope as it is made, and then the notice of the survey. Returns the status.
fn write_scope<O: Sink, E: Sink>(
    alloc: Global,
    survey: &Survey,
    scope: Scope<'_>,
    out: &mut O,
    err: &mut E,
) -> u8
    ensures { EndsAsWritten table_notices (AreScopedGrants survey.now (option_copied scope.entry.user)
        (option_copied scope.entry.host)) IsNothing result
        (sent O.taken O.stalled_writes out.old out.new)
        (sent E.taken E.stalled_writes err.old err.new) }
{
    match write_grants(alloc, &survey.checked.policy, &survey.directory, scope, out) {
        Ok(()) => write_text(&survey.notice, 0, err),
        Err(stopped) => report_stop(alloc, stopped, err),
    }
}

// Prints the table of grants for these names as it is made, and then the notice of the survey; or the fault, if no known one
// has a name. Returns the status.
fn write_named<O: Sink, E: Sink>(
    alloc: Global,
    survey: &Survey,
    names: ScopeNames<'_>,
    out: &mut O,
    err: &mut E,
) -> u8
    ensures { EndsAsWritten table_notices (AreNamedGrants survey.now (option_copied names.entry.user)
        (option_copied names.entry.host)) (IsNotInScope survey.now.directory
        (option_copied names.entry.user) (option_copied names.entry.host)) result
        (sent O.taken O.stalled_writes out.old out.new)
        (sent E.taken E.stalled_writes err.old err.new) }
{
    match scope_of(alloc, &survey.directory, names) {
        Ok(scope) => write_scope(alloc, survey, scope, out, err),
        Err(fault) => report_explained(alloc, PROGRAM, fault, err),
    }
}

/// Prints on `out` the table of the grants of the policy of a file, each with the known users and hosts that its lists allow:
/// all, or those of the user and the host of these names, as it is made. Then prints on `err` the line that counts the
/// cautions on the policy, if there is one.
///
/// Returns the exit status: 0; 1 if the policy is refused or has errors; 3 if the users or the hosts are refused, or no known
/// one has a name that is given; 4 if reading, writing or memory failed. Checks in this order: the policy, the users, the
/// hosts, both together, the names. If the check of the policy finds errors, prints them on `err`; prints any other fault as
/// one line on `err`. Then nothing was printed on `out`, except where a write or memory failed part way.
pub fn grants_run<F: Files, U: Feed, H: Feed, O: Sink, E: Sink>(
    alloc: Global,
    path: &[u8],
    files: &mut F,
    users: &mut U,
    hosts: &mut H,
    names: ScopeNames<'_>,
    out: &mut O,
    err: &mut E,
) -> u8
    ensures ends { let given : Inputs = inputs_by (F.held files.old) path.now
        (U.ahead users.old) (H.ahead hosts.old) in
        EndsAsWritten table_notices
        (IsTabled (AreGrants (option_copied names.entry.user) (option_copied names.entry.host)) given)
        (IsNotGranted given (option_copied names.entry.user) (option_copied names.entry.host)) result
        (sent O.taken O.stalled_writes out.old out.new)
        (sent E.taken E.stalled_writes err.old err.new) }
{
    match read_survey(alloc, path, files, users, hosts) {
        Ok(survey) => {
            let status = write_named(alloc, &survey, names, out, err);
            // The run ends here, and freeing a large policy item by item takes long.
            mem::forget(survey);
            status
        }
        Err(fault) => report_explained(alloc, PROGRAM, fault, err),
    }
}
