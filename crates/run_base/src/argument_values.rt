//! The values that `clap` read.
ghost use Rattle.std.specs.Prelude.{◌≡◌, ◌≤◌, [], None, IfOk, IfSome, map, option_map, unwrap_or};
ghost use Rattle.clap.specs.Words.{all_of, first_of, found_of, rows_of};
ghost use Rattle.run_base.specs.Arguments.{HasNoWorkers, IsNumberIn};

use clap::ArgMatches;
use std::alloc::{AllocError, Global};

/// Returns the value of a required argument, or `None` if it has none.
#[tactic(auto, using(crate::proofs::RowLemmas::row_lemmas))]
pub fn value<'a>(given: &ArgMatches<'a>, id: &str) -> Option<&'a str>
    ensures { option_map (λ s. s.now) result ≡ first_of id.now (rows_of (found_of given.now)) }
{
    given.get_str(id)
}

/// Returns the values of an argument, possibly none.
#[tactic(auto, using(crate::proofs::RowLemmas::row_lemmas))]
pub fn values<'a>(
    alloc: Global,
    given: &ArgMatches<'a>,
    id: &str,
) -> Result<Vec<&'a str>, AllocError>
    ensures { IfOk result (λ v. unwrap_or (all_of id.now (rows_of (found_of given.now))) []
        ≡ map (λ s. s.now) v.items) }
{
    match given.get_strs(id) {
        Some(words) => Vec::from_slice(alloc, words),
        None => Ok(Vec::new(alloc)),
    }
}

/// Returns the number of workers, or `None` if it is none from 1 to 16.
#[tactic(auto, using(crate::proofs::RowLemmas::row_lemmas))]
pub fn workers(given: &ArgMatches<'_>) -> Option<u32>
    ensures few { IfSome result (λ n. (1 ≤ n) × (n ≤ 16)) }
    ensures read { IfSome result (λ n. IsNumberIn n (rows_of (found_of given.now))) }
    ensures none { result ≡ None → HasNoWorkers (rows_of (found_of given.now)) }
{
    match given.get_one::<u32>("workers") {
        Some(count) if 1 <= count && count <= 16 => Some(count),
        _ => None,
    }
}
