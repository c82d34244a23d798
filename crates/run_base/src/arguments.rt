//! The arguments that several commands take, as `clap` reads them.
ghost use Rattle.std.specs.Prelude.{◌≡◌, IfOk, IsOkAnd, codes, false};
ghost use Rattle.clap.specs.Words.{AddsSubcommand, rule_of};
ghost use Rattle.run_base.specs.Arguments.{required_word, required_option, senders_rule, workers_rule};

use clap::builder::ValueParser;
use clap::{Arg, Command};
use std::alloc::{AllocError, Global};

/// Returns a required positional word.
pub fn word<'a>(alloc: Global, id: &'a str, help: &'a str) -> Arg<'a>
    ensures rule { rule_of result ≡ required_word id.entry.now }
    ensures local { result.global ≡ false }
{
    Arg::new(alloc, id).required(true).help(help)
}

/// Returns `FILE`.
pub fn file<'a>(alloc: Global) -> Arg<'a>
    ensures rule { rule_of result ≡ required_word (codes "file") }
    ensures local { result.global ≡ false }
{
    word(alloc, "file", "The main file of the policy")
}

/// Returns `--ID PATH`.
pub fn path_option<'a>(alloc: Global, id: &'a str, help: &'a str) -> Arg<'a>
    ensures rule { rule_of result ≡ required_option id.entry.now }
    ensures local { result.global ≡ false }
{
    Arg::new(alloc, id).long(id).required(true).help(help)
}

/// Returns `--workers N`, from 1 to 16 and by default 2.
pub fn workers_option<'a>(alloc: Global) -> Arg<'a>
    ensures rule { rule_of result ≡ workers_rule }
    ensures local { result.global ≡ false }
{
    Arg::new(alloc, "workers")
        .long("workers")
        .value_parser(ValueParser::Signed(1, 16))
        .default_value("2")
        .help("How many workers judge the requests, from 1 to 16")
}

/// Returns `[NAME=PATH]...`.
pub fn senders_words<'a>(alloc: Global) -> Arg<'a>
    ensures rule { rule_of result ≡ senders_rule }
    ensures local { result.global ≡ false }
{
    Arg::new(alloc, "senders")
        .num_args(..)
        .help("NAME=PATH: a sender, and a file of its requests")
}

/// Returns the command with this subcommand. Returns `AllocError` if that of the subcommand failed, or this one.
pub fn with_subcommand<'a>(
    command: Command<'a>,
    subcommand: Result<Command<'a>, AllocError>,
) -> Result<Command<'a>, AllocError>
    ensures { IfOk result (λ c. IsOkAnd subcommand.entry (λ s. AddsSubcommand command.entry s c)) }
{
    match subcommand {
        Ok(subcommand) => command.subcommand(subcommand),
        Err(refused) => {
            drop(command);
            Err(refused)
        }
    }
}
