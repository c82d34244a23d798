//! Known names that a misspelled one may mean.
ghost use Rattle.std.specs.Prelude.{◌≡◌, IfOk, filter, find, map};
ghost use Rattle.std.specs.Prelude.{option_map, bytes_eq};
ghost use Rattle.std.specs.List.{list_any};
ghost use Rattle.std.specs.Option.{option_or};
ghost use Rattle.review_hints.specs.Names as spec;

use std::alloc::{AllocError, Global};
use strsim::generic_levenshtein;
use sudo_text::Seq;

/// Whether a name is one of several.
pub(crate) fn is_one_of(name: &[u8], names: &[&'static [u8]]) -> bool
    ensures { result ≡ list_any (bytes_eq name.now) (map (λ n. n.now) names.now) }
{
    match names {
        [] => false,
        [first, others @ ..] => name == *first || is_one_of(name, others),
    }
}

// Returns how many edits turn one name into another.
fn edits(alloc: Global, name: &[u8], known: &[u8]) -> Result<usize, AllocError>
    ensures { IfOk result (λ edits. edits ≡ spec.edits name.now known.now) }
{
    generic_levenshtein(alloc, name, known)
}

// Returns the most edits after which a name may mean a known one.
fn most_edits(known: &[u8]) -> usize
    ensures { result ≡ spec.most_edits known.now }
{
    if known.len() < 6 { 1 } else { 2 }
}

// Whether both names begin with the same byte.
fn begin_alike(name: &[u8], other: &[u8]) -> bool
    ensures { result ≡ spec.begin_alike name.now other.now }
{
    match (name, other) {
        ([byte, ..], [first, ..]) => byte == first,
        _ => false,
    }
}

// Whether the lengths differ by two at most.
fn are_of_like_length(name: &[u8], known: &[u8]) -> bool
    ensures { result ≡ spec.are_of_like_length name.now known.now }
{
    name.len().abs_diff(known.len()) <= 2
}

// Whether a name is near to a known one.
fn is_near(alloc: Global, name: &[u8], known: &[u8]) -> Result<bool, AllocError>
    ensures { IfOk result (λ near. near ≡ spec.is_near name.now known.now) }
{
    if begin_alike(name, known) && are_of_like_length(name, known) {
        return Ok(edits(alloc, name, known)? <= most_edits(known));
    }
    Ok(false)
}

// Returns those of the known names that are near to a name.
fn near_names(
    alloc: Global,
    name: &[u8],
    known: &[&'static [u8]],
) -> Result<Vec<&'static [u8]>, AllocError>
    ensures { IfOk result (λ near. map (λ n. n.now) near.items
        ≡ filter (spec.is_near name.now) (map (λ n. n.now) known.now)) }
{
    let mut near = Vec::new(alloc);
    for other in known {
        if is_near(alloc, name, other)? {
            near.push(*other)?;
        }
    }
    Ok(near)
}

// Returns the one of two names that has fewer edits.
fn closer(
    alloc: Global,
    name: &[u8],
    one: &'static [u8],
    other: &'static [u8],
) -> Result<&'static [u8], AllocError>
    ensures { IfOk result (λ near. near.now ≡ spec.closer name.now one.entry.now other.entry.now) }
{
    if edits(alloc, name, other)? < edits(alloc, name, one)? {
        Ok(other)
    } else {
        Ok(one)
    }
}

// Returns the name with the fewest edits, the first if several have as many.
fn closest(
    alloc: Global,
    name: &[u8],
    near: &[&'static [u8]],
) -> Result<Option<&'static [u8]>, AllocError>
    ensures { IfOk result (λ found. option_map (λ n. n.now) found
        ≡ spec.closest name.now (map (λ n. n.now) near.now)) }
{
    let [first, others @ ..] = near else {
        return Ok(None);
    };
    let mut found = *first;
    for other in others {
        found = closer(alloc, name, found, other)?;
    }
    Ok(Some(found))
}

// Whether two names are equal but for the case of letters.
fn is_same_word(name: &[u8], known: &[u8]) -> bool
    ensures { result ≡ spec.is_same_word name.now known.now }
{
    name.eq_ignore_ascii_case(known)
}

// Returns the first known name that differs from a name in letter case alone.
fn same_word(name: &[u8], known: &[&'static [u8]]) -> Option<&'static [u8]>
    ensures { option_map (λ n. n.now) result
        ≡ find (spec.is_same_word name.now) (map (λ n. n.now) known.now) }
{
    match known {
        [] => None,
        [first, others @ ..] => {
            if is_same_word(name, first) {
                Some(*first)
            } else {
                same_word(name, others)
            }
        }
    }
}

// Returns the known name that is nearest to a name, if one is near.
fn nearest(
    alloc: Global,
    name: &[u8],
    known: &[&'static [u8]],
) -> Result<Option<&'static [u8]>, AllocError>
    ensures { IfOk result (λ found. option_map (λ n. n.now) found
        ≡ spec.closest name.now (filter (spec.is_near name.now) (map (λ n. n.now) known.now))) }
{
    let near = near_names(alloc, name, known)?;
    closest(alloc, name, &near)
}

// Returns the known name that an unknown one may mean.
fn meant(
    alloc: Global,
    name: &[u8],
    known: &[&'static [u8]],
) -> Result<Option<&'static [u8]>, AllocError>
    ensures { IfOk result (λ found. option_map (λ n. n.now) found
        ≡ spec.meant (map (λ n. n.now) known.now) name.now) }
{
    if is_one_of(name, known) {
        return Ok(None);
    }
    match same_word(name, known) {
        Some(word) => Ok(Some(word)),
        None => nearest(alloc, name, known),
    }
}

// Returns the hint at a known name.
fn hint_at(alloc: Global, known: &[u8]) -> Result<Seq<u8>, AllocError>
    ensures { IfOk result (λ hint. Some hint ≡ spec.meant_hint (Some known.now)) }
{
    let mut hint = Seq::from_slice(alloc, b"did you mean ")?;
    hint.extend_from_slice(known)?;
    hint.extend_from_slice(b"?")?;
    Ok(hint)
}

/// Returns the hint at the known name that an unknown one may mean, if any.
pub(crate) fn meant_hint(
    alloc: Global,
    name: &[u8],
    known: &[&'static [u8]],
) -> Result<Option<Seq<u8>>, AllocError>
    ensures { IfOk result (λ hint. hint
        ≡ spec.meant_hint (spec.meant (map (λ n. n.now) known.now) name.now)) }
{
    match meant(alloc, name, known)? {
        Some(word) => Ok(Some(hint_at(alloc, word)?)),
        None => Ok(None),
    }
}
