//! Where an IPv6 address stands in a list of hosts.
ghost use Rattle.std.specs.Prelude.{◌≡◌, ℕ, ◌≤◌, ◌+◌, List, Decides, IfOk, MatchOption, length, true};
ghost use Rattle.review_texts.specs.Addressed as spec;
ghost use Rattle.review_texts.specs.Ipv6.{spells_ipv6};
ghost use Rattle.review_texts.specs.Places.{TakesHost, TakesUser};

use crate::HostAddress;
use crate::bytes::newline_count;
use crate::ipv6::{host_list, member_at, spells_ipv6};
use crate::listed::{takes_host, takes_user};
use crate::netgroups::sign_at;
use std::alloc::{AllocError, Global};
use sudo_text::{Line, Seq, TEXT_LIMIT};

// Whether the bytes of an address are spelled at an offset, and a list of hosts goes on there.
fn takes_member(alloc: Global, line: &Line, at: usize) -> Result<bool, AllocError>
    requires within { at ≤ length line.now.text }
    requires short { length line.now.text + 16 ≤ TEXT_LIMIT }
    ensures { IfOk result (λ takes. Decides takes ((spells_ipv6 line.now.text at ≡ true)
        × TakesHost line.now at × (TakesUser line.now at → ⊥))) }
{
    if !spells_ipv6(line.text.as_slice(), at) {
        return Ok(false);
    }
    if takes_user(alloc, line, at)? {
        return Ok(false);
    }
    takes_host(alloc, line, at)
}

// Returns the list for the address or the network at an offset.
fn list_at(
    alloc: Global,
    known: &[HostAddress],
    text: &[u8],
    at: usize,
) -> Result<Option<Seq<u8>>, AllocError>
    requires { at ≤ length text.now }
    ensures { IfOk result (λ list. list ≡ spec.list_at known.now text.now at) }
{
    match member_at(alloc, text, at)? {
        Some(member) => Ok(Some(host_list(alloc, known, sign_at(&text[..at]), member)?)),
        None => Ok(None),
    }
}

/// Returns the list of the hosts that have the address or the network at an offset, if one stands there. Returns `AllocError` if
/// allocation fails.
pub(crate) fn member_hosts(
    alloc: Global,
    known: &[HostAddress],
    line: &Line,
    at: usize,
) -> Result<Option<Seq<u8>>, AllocError>
    requires within { at ≤ length line.now.text }
    requires short { length line.now.text + 16 ≤ TEXT_LIMIT }
    ensures { IfOk result (λ found. MatchOption found
        ((put : List ℕ) → spec.StandsMember known.now line.now at put → ⊥)
        (λ put. spec.StandsMember known.now line.now at put)) }
{
    if !takes_member(alloc, line, at)? {
        return Ok(None);
    }
    let Some(put) = list_at(alloc, known, line.text.as_slice(), at)? else {
        return Ok(None);
    };
    if newline_count(put.as_slice()) > 0 {
        return Ok(None);
    }
    Ok(Some(put))
}
