//! The command that `clap` reads.
ghost use Rattle.std.specs.Prelude.{◌≡◌, IfOk, codes, false};
ghost use Rattle.clap.specs.Words.{app_of, rule_of};
ghost use Rattle.clap.specs.declared.builder.command.Command.TheViews.{out-Command as fields_of};
ghost use Rattle.review_commands.specs.Words.{addresses_rule, all_rule, cautions_app, compare_app, expand_app, grants_app};
ghost use Rattle.review_commands.specs.Words.{file_app, files_app, judging_app, name_rule};
ghost use Rattle.review_commands.specs.Words.{named_app, pair_app, paths_app, policies_app, policy_app, program_app, requests_rule};
ghost use Rattle.review_commands.specs.Words.{hostname_rule, netgroups_rule, root_rule, roots_app};
ghost use Rattle.review_commands.specs.Words.{who_app, without_rule};

use clap::{Arg, ArgAction, Command};
use run_base::{file, path_option, senders_words, with_subcommand, word, workers_option};
use std::alloc::{AllocError, Global};

// Returns `--without CLASS`, any number of times.
fn without<'a>(alloc: Global) -> Arg<'a>
    ensures rule { rule_of result ≡ without_rule }
    ensures local { result.global ≡ false }
{
    Arg::new(alloc, "without")
        .long("without")
        .action(ArgAction::Append)
        .help("A class of cautions that is not listed")
}

// Returns `--root DIR`.
fn root<'a>(alloc: Global) -> Arg<'a>
    ensures rule { rule_of result ≡ root_rule }
    ensures local { result.global ≡ false }
{
    name_option(
        alloc,
        "root",
        "The folder below which all files of the policy are",
    )
}

// Returns `--netgroups F`.
fn netgroups<'a>(alloc: Global) -> Arg<'a>
    ensures rule { rule_of result ≡ netgroups_rule }
    ensures local { result.global ≡ false }
{
    name_option(alloc, "netgroups", "The known netgroups, as CSV")
}

// Returns `--addresses F`.
fn addresses<'a>(alloc: Global) -> Arg<'a>
    ensures rule { rule_of result ≡ addresses_rule }
    ensures local { result.global ≡ false }
{
    name_option(alloc, "addresses", "The IPv6 addresses of hosts, as CSV")
}

// Returns `--hostname NAME`.
fn hostname<'a>(alloc: Global) -> Arg<'a>
    ensures rule { rule_of result ≡ hostname_rule }
    ensures local { result.global ≡ false }
{
    name_option(
        alloc,
        "hostname",
        "The name of the host for which %h is read in include lines",
    )
}

// Returns `NAME FILE [--root DIR] [--netgroups F]`.
fn with_file<'a>(alloc: Global, name: &'a str, about: &'a str) -> Result<Command<'a>, AllocError>
    ensures app { IfOk result (λ c. app_of c ≡ file_app name.entry.now) }
    ensures local { IfOk result (λ c. (fields_of c).has_globals ≡ false) }
{
    Command::new(alloc, name)
        .about(about)
        .arg(file(alloc))?
        .arg(root(alloc))?
        .arg(netgroups(alloc))
}

// Returns `NAME FILE [--root DIR] [--netgroups F] [--addresses F] [--hostname NAME]`.
fn with_policy<'a>(alloc: Global, name: &'a str, about: &'a str) -> Result<Command<'a>, AllocError>
    ensures app { IfOk result (λ c. app_of c ≡ policy_app name.entry.now) }
    ensures local { IfOk result (λ c. (fields_of c).has_globals ≡ false) }
{
    with_file(alloc, name, about)?
        .arg(addresses(alloc))?
        .arg(hostname(alloc))
}

// Returns `check FILE [--root DIR] [--netgroups F] [--addresses F] [--hostname NAME]`.
fn check<'a>(alloc: Global) -> Result<Command<'a>, AllocError>
    ensures app { IfOk result (λ c. app_of c ≡ policy_app (codes "check")) }
    ensures local { IfOk result (λ c. (fields_of c).has_globals ≡ false) }
{
    let about = "Lists undefined, cyclic and unused aliases";
    with_policy(alloc, "check", about)
}

// Returns `expand FILE KIND NAME [--root DIR] [--netgroups F] [--addresses F] [--hostname NAME]`.
fn expand<'a>(alloc: Global) -> Result<Command<'a>, AllocError>
    ensures app { IfOk result (λ c. app_of c ≡ expand_app) }
    ensures local { IfOk result (λ c. (fields_of c).has_globals ≡ false) }
{
    with_policy(
        alloc,
        "expand",
        "Prints the members of an alias, written out",
    )?
    .arg(word(alloc, "kind", "user, runas, host or cmnd"))?
    .arg(word(alloc, "name", "The alias"))
}

// Returns `cautions FILE [--root DIR] [--netgroups F] [--addresses F] [--hostname NAME] [--links F] [--without CLASS]...`.
fn cautions<'a>(alloc: Global) -> Result<Command<'a>, AllocError>
    ensures app { IfOk result (λ c. app_of c ≡ cautions_app) }
    ensures local { IfOk result (λ c. (fields_of c).has_globals ≡ false) }
{
    let about = "Lists what sudo reads or judges otherwise";
    with_policy(alloc, "cautions", about)?
        .arg(name_option(
            alloc,
            "links",
            "The links to folders of the machine, as CSV",
        ))?
        .arg(without(alloc))
}

// Returns `NAME FILE [--root DIR] [--netgroups F] [--addresses F] [--hostname NAME] --users F --hosts F`.
fn with_paths<'a>(alloc: Global, name: &'a str, about: &'a str) -> Result<Command<'a>, AllocError>
    ensures app { IfOk result (λ c. app_of c ≡ paths_app name.entry.now) }
    ensures local { IfOk result (λ c. (fields_of c).has_globals ≡ false) }
{
    with_policy(alloc, name, about)?
        .arg(path_option(alloc, "users", "The known users, as CSV"))?
        .arg(path_option(alloc, "hosts", "The known hosts, as CSV"))
}

// Returns `--ID WORD`, which may be left out.
fn name_option<'a>(alloc: Global, id: &'a str, help: &'a str) -> Arg<'a>
    ensures rule { rule_of result ≡ name_rule id.entry.now }
    ensures local { result.global ≡ false }
{
    Arg::new(alloc, id).long(id).help(help)
}

// Returns `grants FILE [--root DIR] [--netgroups F] [--addresses F] [--hostname NAME] --users F --hosts F [--user NAME] [--host NAME]`.
fn grants<'a>(alloc: Global) -> Result<Command<'a>, AllocError>
    ensures app { IfOk result (λ c. app_of c ≡ grants_app) }
    ensures local { IfOk result (λ c. (fields_of c).has_globals ≡ false) }
{
    let about = "Lists the grants of a policy, with the known users and hosts of each";
    with_paths(alloc, "grants", about)?
        .arg(name_option(alloc, "user", "Only the grants of this user"))?
        .arg(name_option(alloc, "host", "Only the grants on this host"))
}

// Returns `who FILE [--root DIR] [--netgroups F] [--addresses F] [--hostname NAME] --users F --hosts F --command PATH [--arguments TEXT]
// [--runas USER]`.
fn who<'a>(alloc: Global) -> Result<Command<'a>, AllocError>
    ensures app { IfOk result (λ c. app_of c ≡ who_app) }
    ensures local { IfOk result (λ c. (fields_of c).has_globals ≡ false) }
{
    let about = "Lists who may run a command, and on which host";
    with_paths(alloc, "who", about)?
        .arg(path_option(alloc, "command", "The path of the command, or sudoedit"))?
        .arg(name_option(
            alloc,
            "arguments",
            "Its arguments, with blanks between them",
        ))?
        .arg(name_option(alloc, "runas", "The user to run it as"))
}

// Returns `--all`.
fn all<'a>(alloc: Global) -> Arg<'a>
    ensures rule { rule_of result ≡ all_rule }
    ensures local { result.global ≡ false }
{
    Arg::new(alloc, "all")
        .long("all")
        .action(ArgAction::SetTrue)
        .help("Also who can by listed commands alone")
}

// Returns `roots FILE [--root DIR] [--netgroups F] [--addresses F] [--hostname NAME] --users F --hosts F [--all]`.
fn roots<'a>(alloc: Global) -> Result<Command<'a>, AllocError>
    ensures app { IfOk result (λ c. app_of c ≡ roots_app) }
    ensures local { IfOk result (λ c. (fields_of c).has_globals ≡ false) }
{
    let about = "Lists who can become root, on which host, and by which chain";
    with_paths(alloc, "roots", about)?.arg(all(alloc))
}

// Returns `subjects FILE [--root DIR] [--netgroups F] [--addresses F] [--hostname NAME] --users F --hosts F`.
fn subjects<'a>(alloc: Global) -> Result<Command<'a>, AllocError>
    ensures app { IfOk result (λ c. app_of c ≡ paths_app (codes "subjects")) }
    ensures local { IfOk result (λ c. (fields_of c).has_globals ≡ false) }
{
    let about = "Lists what of a policy reaches nobody that the users and hosts files know";
    with_paths(alloc, "subjects", about)
}

// Returns `rules FILE [--root DIR] [--netgroups F] [--addresses F] [--hostname NAME] --users F --hosts F [--workers N] [NAME=PATH]...`.
fn rules<'a>(alloc: Global) -> Result<Command<'a>, AllocError>
    ensures app { IfOk result (λ c. app_of c ≡ judging_app (codes "rules")) }
    ensures local { IfOk result (λ c. (fields_of c).has_globals ≡ false) }
{
    let about = "Counts the requests that each rule of a policy decides";
    with_paths(alloc, "rules", about)?
        .arg(workers_option(alloc))?
        .arg(senders_words(alloc))
}

// Returns `report FILE [--root DIR] [--netgroups F] [--addresses F] [--hostname NAME] --users F --hosts F [--workers N] [NAME=PATH]...`.
fn report<'a>(alloc: Global) -> Result<Command<'a>, AllocError>
    ensures app { IfOk result (λ c. app_of c ≡ judging_app (codes "report")) }
    ensures local { IfOk result (λ c. (fields_of c).has_globals ≡ false) }
{
    let about = "Prints what a policy grants to each request, beside the request";
    with_paths(alloc, "report", about)?
        .arg(workers_option(alloc))?
        .arg(senders_words(alloc))
}

// Returns `compare OLD NEW [--netgroups F]`.
fn pair_of_files<'a>(alloc: Global) -> Result<Command<'a>, AllocError>
    ensures app { IfOk result (λ c. app_of c ≡ files_app) }
    ensures local { IfOk result (λ c. (fields_of c).has_globals ≡ false) }
{
    Command::new(alloc, "compare")
        .about("Lists what a change of a policy does, for every command")
        .arg(word(alloc, "old", "The main file of the policy before"))?
        .arg(word(alloc, "new", "The main file of the policy after"))?
        .arg(netgroups(alloc))
}

// Returns `compare OLD NEW [--netgroups F] [--addresses F] [--hostname NAME]`.
fn policies<'a>(alloc: Global) -> Result<Command<'a>, AllocError>
    ensures app { IfOk result (λ c. app_of c ≡ policies_app) }
    ensures local { IfOk result (λ c. (fields_of c).has_globals ≡ false) }
{
    pair_of_files(alloc)?
        .arg(addresses(alloc))?
        .arg(hostname(alloc))
}

// Returns `compare OLD NEW [--netgroups F] [--addresses F] [--hostname NAME] --users F --hosts F`.
fn pair<'a>(alloc: Global) -> Result<Command<'a>, AllocError>
    ensures app { IfOk result (λ c. app_of c ≡ pair_app) }
    ensures local { IfOk result (λ c. (fields_of c).has_globals ≡ false) }
{
    policies(alloc)?
        .arg(path_option(alloc, "users", "The known users, as CSV"))?
        .arg(path_option(alloc, "hosts", "The known hosts, as CSV"))
}

// Returns `--requests NAME=PATH`, any number of times.
fn requests<'a>(alloc: Global) -> Arg<'a>
    ensures rule { rule_of result ≡ requests_rule }
    ensures local { result.global ≡ false }
{
    Arg::new(alloc, "requests")
        .long("requests")
        .action(ArgAction::Append)
        .help("In place of all commands, the requests of a sender's file, as NAME=PATH")
}

// Returns `compare OLD NEW [--netgroups F] [--addresses F] [--hostname NAME] --users F --hosts F [--user NAME] [--host NAME] [--requests
// NAME=PATH]...`.
fn compare<'a>(alloc: Global) -> Result<Command<'a>, AllocError>
    ensures app { IfOk result (λ c. app_of c ≡ compare_app) }
    ensures local { IfOk result (λ c. (fields_of c).has_globals ≡ false) }
{
    pair(alloc)?
        .arg(name_option(alloc, "user", "Only what this user may run"))?
        .arg(name_option(alloc, "host", "Only what may be run on this host"))?
        .arg(requests(alloc))
}

// Returns the program's name and version, without a subcommand.
fn named<'a>(alloc: Global) -> Command<'a>
    ensures app { app_of result ≡ named_app }
    ensures local { (fields_of result).has_globals ≡ false }
{
    Command::new(alloc, "sudo_review")
        .version("0.1.0")
        .subcommand_required(true)
}

/// Returns the program's command, with its subcommands.
pub(crate) fn program<'a>(alloc: Global) -> Result<Command<'a>, AllocError>
    ensures app { IfOk result (λ c. app_of c ≡ program_app) }
{
    let with_check = with_subcommand(named(alloc), check(alloc))?;
    let with_expand = with_subcommand(with_check, expand(alloc))?;
    let with_cautions = with_subcommand(with_expand, cautions(alloc))?;
    let with_report = with_subcommand(with_cautions, report(alloc))?;
    let with_grants = with_subcommand(with_report, grants(alloc))?;
    let with_who = with_subcommand(with_grants, who(alloc))?;
    let with_roots = with_subcommand(with_who, roots(alloc))?;
    let with_subjects = with_subcommand(with_roots, subjects(alloc))?;
    let with_rules = with_subcommand(with_subjects, rules(alloc))?;
    with_subcommand(with_rules, compare(alloc))
}
