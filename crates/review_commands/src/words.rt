//! The words of the command line.
ghost use Rattle.std.specs.Prelude.{◌≡◌, ◌≢◌, [], None, Some, IfErr, IfOk, IfSome, List, codes, map, true, unwrap_or};
ghost use Rattle.clap.specs.Words.{Row, Text, all_of, app_of, first_of, found_of, kind_of as error_kind, one_of, rows_of};
ghost use Rattle.clap.specs.Words.{subcommand_of, subcommand_rows_of};
ghost use Rattle.run_base.specs.Arguments.{IsUnaskedKind, IsUnreadableWord};
ghost use Rattle.review_cautions.specs.Classes.{class_name};
ghost use Rattle.review_cautions.specs.declared.class.CautionClass.{CautionClass};
ghost use Rattle.review_commands.specs.Words.{AsksNothing, IsErrorOfWords};
ghost use Rattle.audit_files.specs.Requests.{is_command as command_test};
ghost use Rattle.review_commands.specs.Body.Paths.{LackPair, LackPaths};
ghost use Rattle.sudo_grammar.specs.declared.kind.Kind.{Kind as TheKind};
ghost use Rattle.review_commands.specs.Words.{HavePair, HavePaths, HavePolicy, HoldsCommand, IsFlag, fits_hostname};
ghost use Rattle.review_commands.specs.Words.{WorkersFit, kind_word, program_app};

use crate::command_line::program;
use crate::request::{Asked, PairPaths, Paths, PolicyPath};
use clap::error::ErrorKind;
use clap::{ArgMatches, Command, Error};
use review_cautions::{CautionClass, class_named};
use review_texts::is_hostname;
use run_base::{value, values, workers};
use std::alloc::{AllocError, AllocFailed, Global};
use std::convert::AsStr;
use std::io::ErrorKind as ReadKind;
use sudo_grammar::Kind;

// The reason why a subcommand with its values asks for no command.
#[derive(Clone, Copy)]
enum Unasked {
    // A required argument has no value, or the number of workers is outside 1 to 16.
    Missing,
    // A word names no class of cautions.
    BadClass,
    // A word names no kind of alias.
    BadKind,
    // A path of a command is neither one from the root nor `sudoedit`.
    BadCommand,
    // A user or a host is named beside requests.
    Scoped,
    // The host name is invalid.
    BadHostname,
    // Out of memory.
    Memory,
}

impl From<AllocError> for Unasked {
    ghost use Rattle.std.specs.Prelude.{◌≡◌};
    ghost use Rattle.review_commands.specs.declared.words.Unasked.TheVariants.{Memory};

    ghost from_gives = { λ _ e. e ≡ Memory };

    fn from(_: AllocError) -> Unasked {
        Unasked::Memory
    }
}

impl<T: Drop> From<AllocFailed<T>> for Unasked {
    ghost use Rattle.std.specs.Prelude.{◌≡◌};
    ghost use Rattle.review_commands.specs.declared.words.Unasked.TheVariants.{Memory};

    ghost from_gives = { λ _ e. e ≡ Memory };

    fn from(_: AllocFailed<T>) -> Unasked {
        Unasked::Memory
    }
}

// Returns the classes that words name.
fn classes_named(alloc: Global, words: &[&str]) -> Result<Vec<CautionClass>, Unasked>
    ensures named { IfOk result (λ v. map class_name v.items ≡ map (λ w. w.now) words.now) }
    ensures bad { IfErr result (λ e. e ≢ Unasked.Memory → (classes : List CautionClass)
        → map class_name classes ≢ map (λ w. w.now) words.now) }
{
    let mut classes = Vec::new(alloc);
    for word in words {
        match class_named(word.as_bytes()) {
            Some(class) => classes.push(class)?,
            None => return Err(Unasked::BadClass),
        }
    }
    Ok(classes)
}

// Returns the policy that a command is about, or `None` if it has no main file.
fn policy_of<'a>(given: &ArgMatches<'a>) -> Option<PolicyPath<'a>>
    requires { fits_hostname (first_of (codes "hostname") (rows_of (found_of given.now))) ≡ true }
    ensures stated { IfSome result (HavePolicy (rows_of (found_of given.now))) }
    ensures none { result ≡ None → first_of (codes "file") (rows_of (found_of given.now)) ≡ None }
{
    let file = value(given, "file")?;
    let root = value(given, "root");
    let netgroups = value(given, "netgroups");
    let addresses = value(given, "addresses");
    let hostname = value(given, "hostname");
    Some(PolicyPath {
        file,
        root,
        netgroups,
        addresses,
        hostname,
    })
}

// Returns the command of the values of `check`.
fn asked_check<'a>(given: &ArgMatches<'a>) -> Result<Asked<'a>, Unasked>
    requires { fits_hostname (first_of (codes "hostname") (rows_of (found_of given.now))) ≡ true }
    ensures stated { IfOk result
        (λ a. HoldsCommand a (codes "check", rows_of (found_of given.now))) }
    ensures workers { IfOk result WorkersFit }
    ensures nothing { IfErr result (λ e. e ≢ Unasked.Memory
        → AsksNothing (codes "check", rows_of (found_of given.now))) }
{
    match policy_of(given) {
        Some(policy) => Ok(Asked::Check { policy }),
        None => Err(Unasked::Missing),
    }
}

// Returns the kind that a word names, if it names one.
fn kind_of(word: &str) -> Option<Kind>
    ensures some { IfSome result (λ k. word.now ≡ kind_word k) }
    ensures none { result ≡ None → (k : TheKind) → word.now ≢ kind_word k }
{
    if word == "user" {
        return Some(Kind::User);
    }
    if word == "runas" {
        return Some(Kind::Runas);
    }
    if word == "host" {
        return Some(Kind::Host);
    }
    if word == "cmnd" {
        return Some(Kind::Cmnd);
    }
    None
}

// Returns the command of the values of `expand`.
fn asked_expand<'a>(given: &ArgMatches<'a>) -> Result<Asked<'a>, Unasked>
    requires { fits_hostname (first_of (codes "hostname") (rows_of (found_of given.now))) ≡ true }
    ensures stated { IfOk result
        (λ a. HoldsCommand a (codes "expand", rows_of (found_of given.now))) }
    ensures workers { IfOk result WorkersFit }
    ensures nothing { IfErr result (λ e. e ≢ Unasked.Memory
        → AsksNothing (codes "expand", rows_of (found_of given.now))) }
{
    let Some(policy) = policy_of(given) else {
        return Err(Unasked::Missing);
    };
    let Some(word) = value(given, "kind") else {
        return Err(Unasked::Missing);
    };
    let Some(kind) = kind_of(word) else {
        return Err(Unasked::BadKind);
    };
    let Some(name) = value(given, "name") else {
        return Err(Unasked::Missing);
    };
    Ok(Asked::Expand { policy, kind, name })
}

// Returns the command of the values of `cautions`.
fn asked_cautions<'a>(alloc: Global, given: &ArgMatches<'a>) -> Result<Asked<'a>, Unasked>
    requires { fits_hostname (first_of (codes "hostname") (rows_of (found_of given.now))) ≡ true }
    ensures stated { IfOk result
        (λ a. HoldsCommand a (codes "cautions", rows_of (found_of given.now))) }
    ensures workers { IfOk result WorkersFit }
    ensures nothing { IfErr result (λ e. e ≢ Unasked.Memory
        → AsksNothing (codes "cautions", rows_of (found_of given.now))) }
{
    let Some(policy) = policy_of(given) else {
        return Err(Unasked::Missing);
    };
    let words = values(alloc, given, "without")?;
    let without = classes_named(alloc, &words)?;
    let links = value(given, "links");
    Ok(Asked::Cautions {
        policy,
        links,
        without,
    })
}

// Returns the paths that a command takes, or `None` if one has no value.
fn paths_of<'a>(given: &ArgMatches<'a>) -> Option<Paths<'a>>
    requires { fits_hostname (first_of (codes "hostname") (rows_of (found_of given.now))) ≡ true }
    ensures stated { IfSome result (HavePaths (rows_of (found_of given.now))) }
    ensures none { result ≡ None → LackPaths (rows_of (found_of given.now)) }
{
    let policy = policy_of(given)?;
    let users = value(given, "users")?;
    let hosts = value(given, "hosts")?;
    Some(Paths {
        policy,
        users,
        hosts,
    })
}

// Returns the command of the values of `grants`.
fn asked_grants<'a>(given: &ArgMatches<'a>) -> Result<Asked<'a>, Unasked>
    requires { fits_hostname (first_of (codes "hostname") (rows_of (found_of given.now))) ≡ true }
    ensures stated { IfOk result
        (λ a. HoldsCommand a (codes "grants", rows_of (found_of given.now))) }
    ensures workers { IfOk result WorkersFit }
    ensures nothing { IfErr result (λ e. e ≢ Unasked.Memory
        → AsksNothing (codes "grants", rows_of (found_of given.now))) }
{
    let Some(paths) = paths_of(given) else {
        return Err(Unasked::Missing);
    };
    Ok(Asked::Grants {
        paths,
        user: value(given, "user"),
        host: value(given, "host"),
    })
}

// Whether a text is `sudoedit`, or a path from the root.
fn is_command(text: &[u8]) -> bool
    ensures { result ≡ command_test text.now }
{
    match text {
        [] => false,
        [first, ..] => *first == b'/' || text == b"sudoedit".as_slice(),
    }
}

// Returns the command of the values of `who`.
fn asked_who<'a>(given: &ArgMatches<'a>) -> Result<Asked<'a>, Unasked>
    requires { fits_hostname (first_of (codes "hostname") (rows_of (found_of given.now))) ≡ true }
    ensures stated { IfOk result
        (λ a. HoldsCommand a (codes "who", rows_of (found_of given.now))) }
    ensures workers { IfOk result WorkersFit }
    ensures nothing { IfErr result (λ e. e ≢ Unasked.Memory
        → AsksNothing (codes "who", rows_of (found_of given.now))) }
{
    let Some(paths) = paths_of(given) else {
        return Err(Unasked::Missing);
    };
    let Some(command) = value(given, "command") else {
        return Err(Unasked::Missing);
    };
    if !is_command(command.as_bytes()) {
        return Err(Unasked::BadCommand);
    }
    Ok(Asked::Who {
        paths,
        command,
        arguments: value(given, "arguments"),
        runas: value(given, "runas"),
    })
}

// Returns the paths that a comparison takes, or `None` if one has no value.
fn pair_of<'a>(given: &ArgMatches<'a>) -> Option<PairPaths<'a>>
    requires { fits_hostname (first_of (codes "hostname") (rows_of (found_of given.now))) ≡ true }
    ensures stated { IfSome result (HavePair (rows_of (found_of given.now))) }
    ensures none { result ≡ None → LackPair (rows_of (found_of given.now)) }
{
    let old = value(given, "old")?;
    let new = value(given, "new")?;
    let users = value(given, "users")?;
    let hosts = value(given, "hosts")?;
    let netgroups = value(given, "netgroups");
    let addresses = value(given, "addresses");
    let hostname = value(given, "hostname");
    Some(PairPaths {
        old,
        new,
        users,
        hosts,
        netgroups,
        addresses,
        hostname,
    })
}

// Returns the command of a comparison by requests, of which there are some, unless a user or a host is named.
fn asked_changes<'a>(
    given: &ArgMatches<'a>,
    paths: PairPaths<'a>,
    senders: Vec<&'a str>,
) -> Result<Asked<'a>, Unasked>
    requires pair { HavePair (rows_of (found_of given.now)) paths }
    requires senders { unwrap_or (all_of (codes "requests") (rows_of (found_of given.now))) []
        ≡ map (λ s. s.now) senders.items }
    requires some { senders.items ≢ [] }
    ensures stated { IfOk result
        (λ a. HoldsCommand a (codes "compare", rows_of (found_of given.now))) }
    ensures workers { IfOk result WorkersFit }
    ensures nothing { IfErr result (λ e. e ≢ Unasked.Memory
        → AsksNothing (codes "compare", rows_of (found_of given.now))) }
{
    if value(given, "user").is_some() {
        return Err(Unasked::Scoped);
    }
    if value(given, "host").is_some() {
        return Err(Unasked::Scoped);
    }
    Ok(Asked::Changes { paths, senders })
}

// Returns the command of the values of `compare`.
fn asked_compare<'a>(alloc: Global, given: &ArgMatches<'a>) -> Result<Asked<'a>, Unasked>
    requires { fits_hostname (first_of (codes "hostname") (rows_of (found_of given.now))) ≡ true }
    ensures stated { IfOk result
        (λ a. HoldsCommand a (codes "compare", rows_of (found_of given.now))) }
    ensures workers { IfOk result WorkersFit }
    ensures nothing { IfErr result (λ e. e ≢ Unasked.Memory
        → AsksNothing (codes "compare", rows_of (found_of given.now))) }
{
    let Some(paths) = pair_of(given) else {
        return Err(Unasked::Missing);
    };
    let senders = values(alloc, given, "requests")?;
    if !senders.is_empty() {
        return asked_changes(given, paths, senders);
    }
    Ok(Asked::Compare {
        paths,
        user: value(given, "user"),
        host: value(given, "host"),
    })
}

// Whether a flag is given.
fn flag(given: &ArgMatches<'_>, id: &str) -> bool
    ensures { IsFlag result (one_of id.now (rows_of (found_of given.now))) }
{
    given.get_flag(id)
}

// Returns the command of the values of `roots`.
fn asked_roots<'a>(given: &ArgMatches<'a>) -> Result<Asked<'a>, Unasked>
    requires { fits_hostname (first_of (codes "hostname") (rows_of (found_of given.now))) ≡ true }
    ensures stated { IfOk result
        (λ a. HoldsCommand a (codes "roots", rows_of (found_of given.now))) }
    ensures workers { IfOk result WorkersFit }
    ensures nothing { IfErr result (λ e. e ≢ Unasked.Memory
        → AsksNothing (codes "roots", rows_of (found_of given.now))) }
{
    let Some(paths) = paths_of(given) else {
        return Err(Unasked::Missing);
    };
    Ok(Asked::Roots {
        paths,
        all: flag(given, "all"),
    })
}

// Returns the command of the values of `subjects`.
fn asked_subjects<'a>(given: &ArgMatches<'a>) -> Result<Asked<'a>, Unasked>
    requires { fits_hostname (first_of (codes "hostname") (rows_of (found_of given.now))) ≡ true }
    ensures stated { IfOk result
        (λ a. HoldsCommand a (codes "subjects", rows_of (found_of given.now))) }
    ensures workers { IfOk result WorkersFit }
    ensures nothing { IfErr result (λ e. e ≢ Unasked.Memory
        → AsksNothing (codes "subjects", rows_of (found_of given.now))) }
{
    match paths_of(given) {
        Some(paths) => Ok(Asked::Subjects { paths }),
        None => Err(Unasked::Missing),
    }
}

// Returns the command of the values of `rules`.
fn asked_rules<'a>(alloc: Global, given: &ArgMatches<'a>) -> Result<Asked<'a>, Unasked>
    requires { fits_hostname (first_of (codes "hostname") (rows_of (found_of given.now))) ≡ true }
    ensures stated { IfOk result
        (λ a. HoldsCommand a (codes "rules", rows_of (found_of given.now))) }
    ensures workers { IfOk result WorkersFit }
    ensures nothing { IfErr result (λ e. e ≢ Unasked.Memory
        → AsksNothing (codes "rules", rows_of (found_of given.now))) }
{
    let Some(paths) = paths_of(given) else {
        return Err(Unasked::Missing);
    };
    let Some(workers) = workers(given) else {
        return Err(Unasked::Missing);
    };
    let senders = values(alloc, given, "senders")?;
    Ok(Asked::Rules {
        paths,
        workers,
        senders,
    })
}

// Returns the command of the values of `report`.
fn asked_report<'a>(alloc: Global, given: &ArgMatches<'a>) -> Result<Asked<'a>, Unasked>
    requires { fits_hostname (first_of (codes "hostname") (rows_of (found_of given.now))) ≡ true }
    ensures stated { IfOk result
        (λ a. HoldsCommand a (codes "report", rows_of (found_of given.now))) }
    ensures workers { IfOk result WorkersFit }
    ensures nothing { IfErr result (λ e. e ≢ Unasked.Memory
        → AsksNothing (codes "report", rows_of (found_of given.now))) }
{
    let Some(paths) = paths_of(given) else {
        return Err(Unasked::Missing);
    };
    let Some(workers) = workers(given) else {
        return Err(Unasked::Missing);
    };
    let senders = values(alloc, given, "senders")?;
    Ok(Asked::Report {
        paths,
        workers,
        senders,
    })
}

// Returns the command that a subcommand asks for. Its host name, if given, is valid.
fn asked_named<'a>(alloc: Global, name: &str, given: &ArgMatches<'a>) -> Result<Asked<'a>, Unasked>
    requires { fits_hostname (first_of (codes "hostname") (rows_of (found_of given.now))) ≡ true }
    ensures stated { IfOk result (λ a. HoldsCommand a (name.now, rows_of (found_of given.now))) }
    ensures workers { IfOk result WorkersFit }
    ensures nothing { IfErr result (λ e. e ≢ Unasked.Memory
        → AsksNothing (name.now, rows_of (found_of given.now))) }
{
    if name == "cautions" {
        return asked_cautions(alloc, given);
    }
    if name == "check" {
        return asked_check(given);
    }
    if name == "compare" {
        return asked_compare(alloc, given);
    }
    if name == "expand" {
        return asked_expand(given);
    }
    if name == "grants" {
        return asked_grants(given);
    }
    if name == "report" {
        return asked_report(alloc, given);
    }
    if name == "roots" {
        return asked_roots(given);
    }
    if name == "rules" {
        return asked_rules(alloc, given);
    }
    if name == "subjects" {
        return asked_subjects(given);
    }
    if name == "who" {
        return asked_who(given);
    }
    Err(Unasked::Missing)
}

// Whether the host name, if given, is valid.
fn hostname_fits(given: &ArgMatches<'_>) -> bool
    ensures { result ≡ fits_hostname (first_of (codes "hostname") (rows_of (found_of given.now))) }
{
    match value(given, "hostname") {
        Some(name) => is_hostname(name.as_bytes()),
        None => true,
    }
}

// Returns the command that a subcommand asks for.
fn asked_by<'a>(alloc: Global, name: &str, given: &ArgMatches<'a>) -> Result<Asked<'a>, Unasked>
    ensures stated { IfOk result (λ a. HoldsCommand a (name.now, rows_of (found_of given.now))) }
    ensures workers { IfOk result WorkersFit }
    ensures nothing { IfErr result (λ e. e ≢ Unasked.Memory
        → AsksNothing (name.now, rows_of (found_of given.now))) }
{
    if !hostname_fits(given) {
        return Err(Unasked::BadHostname);
    }
    asked_named(alloc, name, given)
}

// Returns the command that the subcommand asks for.
fn asked_subcommand<'a>(alloc: Global, matches: &ArgMatches<'a>) -> Result<Asked<'a>, Unasked>
    ensures stated { IfOk result (λ a. (p : Text × List Row)
        × (subcommand_rows_of matches.now ≡ Some p) × HoldsCommand a p) }
    ensures workers { IfOk result WorkersFit }
    ensures nothing { IfErr result (λ e. e ≢ Unasked.Memory → (p : Text × List Row)
        → subcommand_rows_of matches.now ≡ Some p → AsksNothing p) }
{
    match matches.subcommand() {
        Some((name, given)) => asked_by(alloc, name, given),
        None => Err(Unasked::Missing),
    }
}

// Returns the error for words that ask for no command.
fn unasked_error(command: &mut Command<'_>, unasked: Unasked) -> Result<Error, AllocError>
    ensures memory { unasked ≡ Unasked.Memory
        → IfOk result (λ e. error_kind e ≡ ErrorKind.OutOfMemory) }
    ensures kinds { unasked ≢ Unasked.Memory
        → IfOk result (λ e. IsUnaskedKind (error_kind e)) }
{
    match unasked {
        Unasked::Missing => command.error(
            ErrorKind::MissingRequiredArgument,
            "a required argument was not provided",
        ),
        Unasked::BadClass => command.error(
            ErrorKind::InvalidValue,
            "CLASS is none of the classes of cautions",
        ),
        Unasked::BadKind => command.error(
            ErrorKind::InvalidValue,
            "KIND is user, runas, host or cmnd",
        ),
        Unasked::BadCommand => command.error(
            ErrorKind::InvalidValue,
            "PATH begins with a slash, or is sudoedit",
        ),
        Unasked::Scoped => command.error(
            ErrorKind::InvalidValue,
            "--user and --host cannot be used with --requests",
        ),
        Unasked::BadHostname => command.error(
            ErrorKind::InvalidValue,
            "NAME is not a host name: letters, digits, - and _ in parts with dots between them",
        ),
        Unasked::Memory => Ok(Error::from(AllocError)),
    }
}

// Returns the command that the words ask for, as the program's command reads them.
fn asked_of<'a, S: AsStr>(
    alloc: Global,
    command: &mut Command<'a>,
    words: &'a [S],
) -> Result<Asked<'a>, Error>
    requires { app_of command.old ≡ program_app }
    ensures stated { IfOk result (λ a. (p : Text × List Row)
        × (subcommand_of program_app (map S.text words.entry.now) ≡ Some p) × HoldsCommand a p) }
    ensures workers { IfOk result WorkersFit }
    ensures refused { IfErr result (λ e. IsErrorOfWords (map S.text words.entry.now) e) }
{
    let matches = command.try_get_matches_from_mut(words)?;
    match asked_subcommand(alloc, &matches) {
        Ok(asked) => Ok(asked),
        Err(unasked) => Err(unasked_error(command, unasked)?),
    }
}

/// Returns the command that the words ask for, the program's own name first, as `clap` reads them:
/// `check FILE`, `expand FILE KIND NAME`, `cautions FILE [--links F] [--without CLASS]...`,
/// `report FILE --users F --hosts F [--workers N] [NAME=PATH]...`,
/// `grants FILE --users F --hosts F [--user NAME] [--host NAME]`,
/// `who FILE --users F --hosts F --command PATH [--arguments TEXT] [--runas USER]`, `roots FILE --users F --hosts F [--all]`,
/// `subjects FILE --users F --hosts F`,
/// `rules FILE --users F --hosts F [--workers N] [NAME=PATH]...`,
/// `compare OLD NEW --users F --hosts F [--user NAME] [--host NAME]`, or
/// `compare OLD NEW --users F --hosts F --requests NAME=PATH...`, where N is 1 to 16, by default 2; each but `compare`
/// takes `--root DIR` behind its name, and each `--netgroups F`, `--addresses F` and `--hostname NAME`.
///
/// Returns `clap`'s error, apart from allocation failure, exactly if `clap` does not accept the
/// words (they are no such command, or ask for help or for the version), a CLASS is no class of cautions, a KIND no kind of alias, a
/// PATH neither begins with a slash nor is `sudoedit`, a user or a host is named beside requests, or the NAME of `--hostname` is no valid
/// host name.
pub fn asked<'a, S: AsStr>(alloc: Global, words: &'a [S]) -> Result<Asked<'a>, Error>
    ensures stated { IfOk result (λ a. (p : Text × List Row)
        × (subcommand_of program_app (map S.text words.entry.now) ≡ Some p) × HoldsCommand a p) }
    ensures workers { IfOk result WorkersFit }
    ensures refused { IfErr result (λ e. IsErrorOfWords (map S.text words.entry.now) e) }
{
    let mut command = program(alloc)?;
    let asked = asked_of(alloc, &mut command, words);
    drop(command);
    asked
}

// Returns the error for a word that is not text.
fn no_text(alloc: Global) -> Result<Error, AllocError>
    ensures { IfOk result (λ e. error_kind e ≡ ErrorKind.ValueValidation) }
{
    let mut program = program(alloc)?;
    program.error(
        ErrorKind::ValueValidation,
        "invalid UTF-8 was detected in one or more arguments",
    )
}

/// Returns the error for words of the command line that could not be read, by its kind: out of
/// memory, or else a word that is not text, which is misuse.
pub fn unread(alloc: Global, kind: ReadKind) -> Error
    ensures memory { kind ≡ ReadKind.OutOfMemory → error_kind result ≡ ErrorKind.OutOfMemory }
    ensures kinds { IsUnreadableWord (error_kind result) }
{
    if kind == ReadKind::OutOfMemory {
        return Error::from(AllocError);
    }
    match no_text(alloc) {
        Ok(error) => error,
        Err(refused) => Error::from(refused),
    }
}
