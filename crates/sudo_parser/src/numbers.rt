//! Numbers, addresses and masks.
ghost use Rattle.std.specs.Prelude.{◌≡◌, ◌<◌, length, position, IfSome, ◌==◌};
ghost use Rattle.std.specs.Option.{option_map};
ghost use Rattle.std.specs.List.{list_all};
ghost use Rattle.sudo_text.specs.Bytes.{is_digit};
ghost use Rattle.sudo_grammar.specs.Members.{number_of, cut_at, dotted_groups, address_of, mask_in};
ghost use Rattle.sudo_grammar.specs.Members.{address_of_numbers, is_octet, octet_of, mask_of_bits};

use sudo_grammar::Refusal;

/// Returns the value of one or more decimal digits, if it fits 32 bits.
pub(crate) fn number(bytes: &[u8]) -> Option<u32>
    ensures { result ≡ number_of bytes.now }
{
    if bytes.is_empty() {
        return None;
    }
    let mut value: u32 = 0;
    for b in bytes {
        if !b.is_ascii_digit() {
            return None;
        }
        value = value.checked_mul(10)?.checked_add(u32::from(*b - b'0'))?;
    }
    Some(value)
}

// Returns the index of the first separator.
fn index_of(bytes: &[u8], separator: u8) -> Option<usize>
    ensures index { result ≡ position (λ b. b == separator) bytes.now }
    ensures inside { IfSome result (λ at. at < length bytes.now) }
{
    bytes.iter().position(|b| *b == separator)
}

/// Splits bytes at the first separator.
pub(crate) fn cut(bytes: &[u8], separator: u8) -> Option<(&[u8], &[u8])>
    ensures { option_map (λ parts. (parts.0.now, parts.1.now)) result ≡ cut_at separator bytes.now }
{
    match index_of(bytes, separator) {
        Some(at) => {
            let (front, _) = bytes.split_at(at);
            let (_, rest) = bytes.split_at(at + 1);
            Some((front, rest))
        }
        None => None,
    }
}

fn has_digits_alone(bytes: &[u8]) -> bool
    ensures { result ≡ list_all is_digit bytes.now }
{
    bytes.iter().all(|b| b.is_ascii_digit())
}

// Whether bytes are one to three digits.
fn is_group(bytes: &[u8]) -> bool
    ensures { result ≡ is_octet bytes.now }
{
    0 < bytes.len() && bytes.len() < 4 && has_digits_alone(bytes)
}

// Four groups of bytes with three dots between them.
#[derive(Clone, Copy)]
struct Groups<'a> {
    first: &'a [u8],
    second: &'a [u8],
    third: &'a [u8],
    fourth: &'a [u8],
}

fn four_groups(bytes: &[u8]) -> Option<Groups<'_>>
    ensures { option_map (λ g. (g.first.now, g.second.now, g.third.now, g.fourth.now)) result
        ≡ dotted_groups bytes.now }
{
    let (first, rest) = cut(bytes, b'.')?;
    let (second, rest) = cut(rest, b'.')?;
    let (third, fourth) = cut(rest, b'.')?;
    Some(Groups {
        first,
        second,
        third,
        fourth,
    })
}

// Returns the value of one to three digits.
fn octet(bytes: &[u8]) -> Option<u32>
    ensures { result ≡ octet_of bytes.now }
{
    if is_group(bytes) { number(bytes) } else { None }
}

// Returns the address of four numbers. Returns `BadNumber` if one is over 255.
fn address_from(a: u32, b: u32, c: u32, d: u32) -> Result<u32, Refusal>
    ensures { result ≡ address_of_numbers a b c d }
{
    if a < 256 && b < 256 && c < 256 && d < 256 {
        Ok((a << 24) + (b << 16) + (c << 8) + d)
    } else {
        Err(Refusal::BadNumber)
    }
}

/// Returns the address that bytes spell: four groups of one to three digits with dots between them. Returns `None` for
/// bytes of another shape, and `BadNumber` if a group is over 255.
pub(crate) fn address(bytes: &[u8]) -> Option<Result<u32, Refusal>>
    ensures { result ≡ address_of bytes.now }
{
    let groups = four_groups(bytes)?;
    let a = octet(groups.first)?;
    let b = octet(groups.second)?;
    let c = octet(groups.third)?;
    let d = octet(groups.fourth)?;
    Some(address_from(a, b, c, d))
}

// Returns the mask of `bits` leading bits. Returns `BadNumber` if there are over 32.
fn leading_bits(bits: u32) -> Result<u32, Refusal>
    ensures { result ≡ mask_of_bits bits }
{
    match bits {
        0 => Ok(0),
        1..=32 => Ok(u32::MAX << (32 - bits)),
        _ => Err(Refusal::BadNumber),
    }
}

/// Reads a mask: a number of bits up to 32, or an address.
pub(crate) fn mask(bytes: &[u8]) -> Result<u32, Refusal>
    ensures { result ≡ mask_in bytes.now }
{
    match number(bytes) {
        Some(bits) => leading_bits(bits),
        None => match address(bytes) {
            Some(mask) => mask,
            None => Err(Refusal::BadNumber),
        },
    }
}
