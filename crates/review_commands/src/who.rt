//! `who`: lists who may run a command, and on which host.
ghost use Rattle.std.specs.Prelude.{None};
ghost use Rattle.run_base.specs.Endings.{writer_states as sent};
ghost use Rattle.review_grants.specs.WhoRows.{sought_by};
ghost use Rattle.review_commands.specs.Endings.{EndsAsWritten};
ghost use Rattle.review_commands.specs.Surveying.{Inputs, IsNotGranted, IsNotInScope, IsTabled, IsWho, inputs_by};
ghost use Rattle.review_commands.specs.Body.Surveying.{IsNothing, IsWhoFound, IsWhoKnown};
ghost use Rattle.review_commands.specs.Surveying.{table_notices};

use crate::grants::{ScopeNames, report_stop, scope_of};
use crate::program_name::PROGRAM;
use crate::survey::{Survey, read_survey};
use audit_files::{Feed, Sink};
use review_grants::{Sought, write_who};
use run_base::{Files, report_explained, write_text};
use std::alloc::Global;
use std::mem;

// Prints the table of who may run a command as it is made, and then the notice of the survey. Returns the status.
fn write_found<O: Sink, E: Sink>(
    alloc: Global,
    survey: &Survey,
    sought: Sought<'_>,
    out: &mut O,
    err: &mut E,
) -> u8
    ensures { EndsAsWritten table_notices (IsWhoFound survey.now (sought_by sought.entry))
        IsNothing result
        (sent O.taken O.stalled_writes out.old out.new)
        (sent E.taken E.stalled_writes err.old err.new) }
{
    match write_who(
        alloc,
        &survey.checked.policy,
        &survey.directory,
        sought,
        out,
    ) {
        Ok(()) => write_text(&survey.notice, 0, err),
        Err(stopped) => report_stop(alloc, stopped, err),
    }
}

// Prints the same if the user to run the command as is known, and otherwise the fault. Returns the status.
fn write_known<O: Sink, E: Sink>(
    alloc: Global,
    survey: &Survey,
    sought: Sought<'_>,
    out: &mut O,
    err: &mut E,
) -> u8
    ensures { EndsAsWritten table_notices (IsWhoKnown survey.now (sought_by sought.entry))
        (IsNotInScope survey.now.directory (sought_by sought.entry).target None) result
        (sent O.taken O.stalled_writes out.old out.new)
        (sent E.taken E.stalled_writes err.old err.new) }
{
    let names = ScopeNames {
        user: sought.target,
        host: None,
    };
    match scope_of(alloc, &survey.directory, names) {
        Ok(_) => write_found(alloc, survey, sought, out, err),
        Err(fault) => report_explained(alloc, PROGRAM, fault, err),
    }
}

/// Prints on `out` the table of who may run a command, and on which host, under the policy of a file: a row for each known user
/// on each known host where a rule allows or denies it, as it is made. Then prints on `err` the line that counts the cautions
/// on the policy, if there is one.
///
/// Returns the exit status: 0; 1 if the policy is refused or has errors; 3 if the users or the hosts are refused, or no known
/// user has the name to run as; 4 if reading, writing or memory failed. Checks in this order: the policy, the users, the hosts,
/// both together, the name. If the check of the policy finds errors, prints them on `err`; prints any other fault as one line
/// on `err`. Then nothing was printed on `out`, except where a write or memory failed part way.
pub fn who_run<F: Files, U: Feed, H: Feed, O: Sink, E: Sink>(
    alloc: Global,
    path: &[u8],
    files: &mut F,
    users: &mut U,
    hosts: &mut H,
    sought: Sought<'_>,
    out: &mut O,
    err: &mut E,
) -> u8
    ensures ends { let given : Inputs = inputs_by (F.held files.old) path.now
        (U.ahead users.old) (H.ahead hosts.old) in
        EndsAsWritten table_notices (IsTabled (IsWho (sought_by sought.entry)) given)
        (IsNotGranted given (sought_by sought.entry).target None) result
        (sent O.taken O.stalled_writes out.old out.new)
        (sent E.taken E.stalled_writes err.old err.new) }
{
    match read_survey(alloc, path, files, users, hosts) {
        Ok(survey) => {
            let status = write_known(alloc, &survey, sought, out, err);
            // The run ends here, and freeing a large policy item by item takes long.
            mem::forget(survey);
            status
        }
        Err(fault) => report_explained(alloc, PROGRAM, fault, err),
    }
}
