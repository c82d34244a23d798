//! The command that `clap` reads.
ghost use Rattle.std.specs.Prelude.{◌≡◌, IfOk, false};
ghost use Rattle.clap.specs.Words.{app_of};
ghost use Rattle.clap.specs.declared.builder.command.Command.TheViews.{out-Command as fields_of};
ghost use Rattle.audit_commands.specs.Words.{audit_app, audit_paths_app, check_app, expand_app, named_app};
ghost use Rattle.audit_commands.specs.Words.{program_app};

use clap::Command;
use run_base::{file, path_option, senders_words, with_subcommand, word, workers_option};
use std::alloc::{AllocError, Global};

// Returns `check FILE`.
fn check<'a>(alloc: Global) -> Result<Command<'a>, AllocError>
    ensures app { IfOk result (λ c. app_of c ≡ check_app) }
    ensures local { IfOk result (λ c. (fields_of c).has_globals ≡ false) }
{
    Command::new(alloc, "check")
        .about("Lists what is wrong with the aliases of a policy")
        .arg(file(alloc))
}

// Returns `expand FILE KIND NAME`.
fn expand<'a>(alloc: Global) -> Result<Command<'a>, AllocError>
    ensures app { IfOk result (λ c. app_of c ≡ expand_app) }
    ensures local { IfOk result (λ c. (fields_of c).has_globals ≡ false) }
{
    Command::new(alloc, "expand")
        .about("Prints the members of an alias, written out")
        .arg(file(alloc))?
        .arg(word(alloc, "kind", "user, runas, host or cmnd"))?
        .arg(word(alloc, "name", "The alias"))
}

// Returns `audit FILE --users F --hosts F`.
fn audit_paths<'a>(alloc: Global) -> Result<Command<'a>, AllocError>
    ensures app { IfOk result (λ c. app_of c ≡ audit_paths_app) }
    ensures local { IfOk result (λ c. (fields_of c).has_globals ≡ false) }
{
    Command::new(alloc, "audit")
        .about("Prints what a policy grants to each request")
        .arg(file(alloc))?
        .arg(path_option(alloc, "users", "The known users, as CSV"))?
        .arg(path_option(alloc, "hosts", "The known hosts, as CSV"))
}

// Returns `audit FILE --users F --hosts F [--workers N] [NAME=PATH]...`.
fn audit<'a>(alloc: Global) -> Result<Command<'a>, AllocError>
    ensures app { IfOk result (λ c. app_of c ≡ audit_app) }
    ensures local { IfOk result (λ c. (fields_of c).has_globals ≡ false) }
{
    audit_paths(alloc)?
        .arg(workers_option(alloc))?
        .arg(senders_words(alloc))
}

// Returns the program's name and version, without a subcommand.
fn named<'a>(alloc: Global) -> Command<'a>
    ensures app { app_of result ≡ named_app }
    ensures local { (fields_of result).has_globals ≡ false }
{
    Command::new(alloc, "sudo_audit")
        .version("0.1.0")
        .subcommand_required(true)
}

/// Returns the program's command, with its three subcommands.
pub(crate) fn program<'a>(alloc: Global) -> Result<Command<'a>, AllocError>
    ensures app { IfOk result (λ c. app_of c ≡ program_app) }
{
    let checks = with_subcommand(named(alloc), check(alloc))?;
    let expands = with_subcommand(checks, expand(alloc))?;
    with_subcommand(expands, audit(alloc))
}
