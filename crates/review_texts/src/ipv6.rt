//! IPv6 addresses, and the hosts that have them.
ghost use Rattle.std.specs.Prelude.{◌≡◌, ◌≤◌, ◌<◌, ◌+◌, ◌-◌, ◌++◌, ◌==◌, [], IfOk, IfSome, OnOk, Some, count_by, length, replicate};
ghost use Rattle.std.specs.List.{list_any, take_while};
ghost use Rattle.std.specs.Str.{bytes_eq};
ghost use Rattle.sudo_text.specs.Bytes as bytes;
ghost use Rattle.review_texts.specs.Ipv6 as spec;

use crate::bytes::{begins_defaults, from, front, is_blank, is_digit, is_hex, is_text, peek};
use crate::netgroups::{Members, ends_item, host_text, nobody, push_member};
use std::alloc::{AllocError, Global};
use sudo_text::Seq;

/// An IPv6 address or a network as a member of a list of hosts.
#[derive(Clone, Copy, Debug, PartialEq, Eq)]
pub enum Ipv6Member {
    Address(u128),
    /// An address of the network, and the length of its prefix.
    Network(u128, u8),
}

/// An IPv6 address of a host, and the length of the prefix of its network.
#[derive(Debug, Drop)]
pub struct HostAddress {
    pub host: Seq<u8>,
    pub address: u128,
    pub len: u8,
}

// Returns the value of a hexadecimal digit, or 0 of another byte.
fn hex_value(byte: u8) -> u16
    ensures value { result ≡ bytes.hex_value byte }
    ensures small { result < 16 }
{
    if b'0' <= byte && byte <= b'9' {
        (byte - b'0') as u16
    } else if b'a' <= byte && byte <= b'f' {
        (byte - b'a' + 10) as u16
    } else if b'A' <= byte && byte <= b'F' {
        (byte - b'A' + 10) as u16
    } else {
        0
    }
}

// Returns the groups of a text with a byte, if it is such groups.
fn groups_in(alloc: Global, text: &[u8]) -> Result<Option<Seq<u16>>, AllocError>
    ensures { IfOk result (λ groups. groups ≡ spec.groups_after [] 0 0 text.now) }
{
    let mut done = Seq::new(alloc);
    let mut count: u8 = 0;
    let mut value: u16 = 0;
    let mut left = text;
    while let Some((byte, rest)) = left.split_first() {
        if *byte == b':' {
            if count == 0 {
                return Ok(None);
            }
            done.push(value)?;
            count = 0;
            value = 0;
        } else {
            if !is_hex(*byte) {
                return Ok(None);
            }
            if count >= 4 {
                return Ok(None);
            }
            value = 16 * value + hex_value(*byte);
            count += 1;
        }
        left = rest;
    }
    if count == 0 {
        return Ok(None);
    }
    done.push(value)?;
    Ok(Some(done))
}

// Returns the groups of a text, if it is groups with a colon between two.
fn groups_of(alloc: Global, text: &[u8]) -> Result<Option<Seq<u16>>, AllocError>
    ensures { IfOk result (λ groups. groups ≡ spec.groups_of text.now) }
{
    if text.is_empty() {
        return Ok(Some(Seq::new(alloc)));
    }
    groups_in(alloc, text)
}

// Returns the value of four groups from a place on.
fn value_at(groups: &[u16], at: usize) -> u64
    requires { at + 4 ≤ length groups.now }
    ensures { result ≡ spec.value_at groups.now at }
{
    (1 << 48) * (groups[at] as u64)
        + (1 << 32) * (groups[at + 1] as u64)
        + (1 << 16) * (groups[at + 2] as u64)
        + groups[at + 3] as u64
}

// Returns the value of eight groups.
fn value_of(groups: &[u16]) -> Option<u128>
    ensures { result ≡ spec.value_of groups.now }
{
    if groups.len() != 8 {
        return None;
    }
    Some((1 << 64) * (value_at(groups, 0) as u128) + value_at(groups, 4) as u128)
}

// Returns so many groups of zeros.
fn zeros(alloc: Global, count: usize) -> Result<Seq<u16>, AllocError>
    ensures { IfOk result (λ groups. groups ≡ replicate count 0) }
{
    let mut groups = Vec::new(alloc);
    groups.resize(count, 0)?;
    Ok(Seq::from_vec(groups))
}

// Returns the groups before and behind `::`, with so many groups of zeros between them.
fn with_zeros(
    alloc: Global,
    front: &[u16],
    count: usize,
    back: &[u16],
) -> Result<Seq<u16>, AllocError>
    ensures { IfOk result (λ groups. groups ≡ front.now ++ replicate count 0 ++ back.now) }
{
    let mut groups = Seq::from_slice(alloc, front)?;
    groups.append(zeros(alloc, count)?)?;
    groups.extend_from_slice(back)?;
    Ok(groups)
}

// Returns the value of the groups before and behind `::`.
fn filled(alloc: Global, front: &[u16], back: &[u16]) -> Result<Option<u128>, AllocError>
    ensures { IfOk result (λ value. value ≡ spec.filled (Some front.now) (Some back.now)) }
{
    if front.len() + back.len() >= 8 {
        return Ok(None);
    }
    let groups = with_zeros(alloc, front, 8 - (front.len() + back.len()), back)?;
    Ok(value_of(groups.as_slice()))
}

// Returns the offset of the first `::`, or the length of a text without one.
fn gap_at(text: &[u8]) -> usize
    ensures gap { result ≡ spec.gap_at text.now }
    ensures within { result ≤ length text.now }
{
    let mut at = 0;
    let mut left = text;
    while let Some((_, rest)) = left.split_first() {
        if left.starts_with(b"::") {
            return at;
        }
        at += 1;
        left = rest;
    }
    at
}

/// Returns the IPv6 address that a text is, if it is one. Returns `AllocError` if allocation fails.
pub fn address_of(alloc: Global, text: &[u8]) -> Result<Option<u128>, AllocError>
    ensures { IfOk result (λ address. address ≡ spec.address_of text.now) }
{
    let gap = gap_at(text);
    if gap >= text.len() {
        return match groups_of(alloc, text)? {
            Some(groups) => Ok(value_of(groups.as_slice())),
            None => Ok(None),
        };
    }
    let Some(before) = groups_of(alloc, &text[..gap])? else {
        return Ok(None);
    };
    let Some(behind) = groups_of(alloc, from(text, gap + 2))? else {
        return Ok(None);
    };
    filled(alloc, before.as_slice(), behind.as_slice())
}

// Returns the value of a decimal digit, or another number of another byte.
fn digit_value(byte: u8) -> u32
    ensures value { result ≡ byte - 48 }
    ensures small { result < 256 }
{
    byte.saturating_sub(b'0') as u32
}

// Returns the number that one to three digits are, without a zero before another digit.
fn number_of(digits: &[u8]) -> Option<u32>
    ensures { result ≡ spec.number_of digits.now }
{
    match digits {
        [] => None,
        [a] => Some(digit_value(*a)),
        [b'0', _] => None,
        [a, b] => Some(10 * digit_value(*a) + digit_value(*b)),
        [b'0', _, _] => None,
        [a, b, c] => { Some(100 * digit_value(*a) + 10 * digit_value(*b) + digit_value(*c)) }
        [_, _, _, _, ..] => None,
    }
}

/// Returns the length of a prefix that digits are, if they are one of at most 128, without a zero before another digit.
pub fn prefix_of(digits: &[u8]) -> Option<u8>
    ensures prefix { result ≡ spec.prefix_of digits.now }
    ensures small { IfSome result (λ len. len ≤ 128) }
{
    let number = number_of(digits)?;
    if number <= 128 {
        Some(number as u8)
    } else {
        None
    }
}

// Returns the number of the network of an address.
fn network_of(len: u8, address: u128) -> u128
    ensures { result ≡ spec.network_of len address }
{
    if len == 0 {
        return 0;
    }
    if len >= 128 {
        return address;
    }
    let size: u128 = 1 << (128 - len);
    address - address % size
}

/// Whether the address of a host matches a member.
pub fn matches(member: Ipv6Member, known: &HostAddress) -> bool
    ensures { result ≡ spec.matches member known.now }
{
    if known.address <= 1 {
        return false;
    }
    match member {
        Ipv6Member::Address(address) => {
            known.address == address || network_of(known.len, known.address) == address
        }
        Ipv6Member::Network(address, len) => {
            len > 0 && network_of(len, known.address) == network_of(len, address)
        }
    }
}

// Whether a host is one of these.
fn is_among(hosts: &[Seq<u8>], host: &[u8]) -> bool
    ensures { result ≡ list_any (λ other. bytes_eq other host.now) hosts.now }
{
    hosts.iter().any(|other| is_text(other.as_slice(), host))
}

// Appends the host of an address which matches a member, if it is not one of these hosts.
fn push_host(
    alloc: Global,
    member: Ipv6Member,
    known: &HostAddress,
    hosts: &mut Seq<Seq<u8>>,
) -> Result<(), AllocError>
    ensures { OnOk result (hosts.new ≡ spec.with_host member hosts.old known.now) }
{
    if matches(member, known) && !is_among(hosts.as_slice(), known.host.as_slice()) {
        hosts.push(Seq::from_slice(alloc, known.host.as_slice())?)?;
    }
    Ok(())
}

// Returns the hosts that have an address which matches a member, each once.
fn hosts_of(
    alloc: Global,
    known: &[HostAddress],
    member: Ipv6Member,
) -> Result<Seq<Seq<u8>>, AllocError>
    ensures { IfOk result (λ hosts. hosts ≡ spec.hosts_of known.now member) }
{
    let mut hosts = Seq::new(alloc);
    let mut left = known;
    while let Some((first, rest)) = left.split_first() {
        push_host(alloc, member, first, &mut hosts)?;
        left = rest;
    }
    Ok(hosts)
}

// Returns the list of hosts as members, each but the first behind a comma and a sign.
fn members_of(alloc: Global, sign: &[u8], hosts: &[Seq<u8>]) -> Result<Seq<u8>, AllocError>
    ensures { IfOk result (λ list. list ≡ spec.members_of sign.now hosts.now) }
{
    let mut list = Seq::new(alloc);
    let mut left = hosts;
    while let Some((host, rest)) = left.split_first() {
        push_member(sign, host_text(alloc, host.as_slice())?, &mut list)?;
        left = rest;
    }
    Ok(list)
}

/// Returns the list that stands for a member: the hosts that have it, each but the first behind a comma and a sign, or one that nothing
/// is. Returns `AllocError` if allocation fails.
pub(crate) fn host_list(
    alloc: Global,
    known: &[HostAddress],
    sign: &[u8],
    member: Ipv6Member,
) -> Result<Seq<u8>, AllocError>
    ensures { IfOk result (λ list. list ≡ spec.host_list known.now sign.now member) }
{
    let hosts = hosts_of(alloc, known, member)?;
    let list = members_of(alloc, sign, hosts.as_slice())?;
    if list.is_empty() {
        return Seq::from_slice(alloc, nobody(Members::Hosts));
    }
    Ok(list)
}

// Whether a byte is one of an IPv6 address.
fn is_ipv6_byte(byte: u8) -> bool
    ensures { result ≡ spec.is_ipv6_byte byte }
{
    is_hex(byte) || byte == b':'
}

// Returns the number of bytes of an address that begin a text.
fn run_len(text: &[u8]) -> usize
    ensures len { result ≡ length (take_while spec.is_ipv6_byte text.now) }
    ensures within { result ≤ length text.now }
{
    text.iter().take_while(|byte| is_ipv6_byte(**byte)).count()
}

// Returns the number of digits that begin a text.
fn digit_count(text: &[u8]) -> usize
    ensures len { result ≡ length (take_while bytes.is_digit text.now) }
    ensures within { result ≤ length text.now }
{
    text.iter().take_while(|byte| is_digit(**byte)).count()
}

// Returns the bytes of an address that begin a text.
fn run_of(text: &[u8]) -> &[u8]
    ensures { result.now ≡ take_while spec.is_ipv6_byte text.now }
{
    front(text, run_len(text))
}

// Returns the digits that begin a text.
fn digits_of(text: &[u8]) -> &[u8]
    ensures { result.now ≡ take_while bytes.is_digit text.now }
{
    front(text, digit_count(text))
}

// Returns the address at an offset.
fn run_at(text: &[u8], at: usize) -> &[u8]
    ensures { result.now ≡ spec.run_at text.now at }
{
    run_of(from(text, at))
}

// Returns the offset behind it.
fn run_end(text: &[u8], at: usize) -> usize
    requires { at ≤ length text.now }
    ensures end { result ≡ spec.run_end text.now at }
    ensures within { result ≤ length text.now }
{
    at + run_len(from(text, at))
}

// Whether a slash stands behind it.
fn has_slash(text: &[u8], at: usize) -> bool
    requires { at ≤ length text.now }
    ensures { result ≡ spec.has_slash text.now at }
{
    peek(text, run_end(text, at)) == b'/'
}

// Returns the digits behind a slash behind it.
fn digits_at(text: &[u8], at: usize) -> &[u8]
    requires { at ≤ length text.now }
    ensures { result.now ≡ spec.digits_at text.now at }
{
    digits_of(from(text, run_end(text, at) + 1))
}

/// Returns the offset behind the member at an offset.
pub(crate) fn ipv6_end(text: &[u8], at: usize) -> usize
    requires { at ≤ length text.now }
    ensures { result ≡ spec.ipv6_end text.now at }
{
    let end = run_end(text, at);
    if has_slash(text, at) {
        end + 1 + digits_at(text, at).len()
    } else {
        end
    }
}

/// Returns the member at an offset, if an address or a network is spelled there. Returns `AllocError` if allocation fails.
pub(crate) fn member_at(
    alloc: Global,
    text: &[u8],
    at: usize,
) -> Result<Option<Ipv6Member>, AllocError>
    requires { at ≤ length text.now }
    ensures { IfOk result (λ member. member ≡ spec.member_at text.now at) }
{
    let Some(address) = address_of(alloc, run_at(text, at))? else {
        return Ok(None);
    };
    if !has_slash(text, at) {
        return Ok(Some(Ipv6Member::Address(address)));
    }
    match prefix_of(digits_at(text, at)) {
        Some(len) => Ok(Some(Ipv6Member::Network(address, len))),
        None => Ok(None),
    }
}

// Whether a host may begin behind a byte.
fn lets_host_begin(byte: u8) -> bool
    ensures { result ≡ spec.lets_host_begin byte }
{
    is_blank(byte) || byte == b',' || byte == b'=' || byte == b'!' || byte == b'@'
}

// Returns the number of colons of a text.
fn colon_count(text: &[u8]) -> usize
    ensures { result ≡ count_by (λ b. b == 58) text.now }
{
    text.iter().filter(|byte| **byte == b':').count()
}

/// Whether the bytes of an address or a network stand at an offset, and nothing else of an item before or behind them.
#[tactic(auto, unfolding(crate::specs::Ipv6::spells_ipv6))]
pub(crate) fn spells_ipv6(text: &[u8], at: usize) -> bool
    requires { at ≤ length text.now }
    ensures { result ≡ spec.spells_ipv6 text.now at }
{
    is_ipv6_byte(peek(text, at))
        && lets_host_begin(peek(text, at.saturating_sub(1)))
        && ends_item(text, ipv6_end(text, at))
        && colon_count(run_at(text, at)) <= 7
        && !(begins_defaults(text) && peek(text, at) == b':')
}
