//! Whether two findings are the same.
ghost use Rattle.std.specs.Prelude.{◌≡◌, true};

use crate::answer::{Answer, is_same_answer};
use crate::characters::same_chars;
use crate::compared::{Compared, Decider};
use crate::shape::are_same_arguments;
use crate::witness::Witness;
use sudo_grammar::Atom;
use sudo_match::{Tags, Verdict};
use sudo_text::{Ch, Place, Seq};

fn are_same_bytes(text: &Seq<u8>, other: &Seq<u8>) -> bool
    ensures { result ≡ true → text.now ≡ other.now }
{
    text == other
}

fn is_same_place(place: Place, other: Place) -> bool
    ensures { result ≡ true → place ≡ other }
{
    place.file == other.file && place.line == other.line
}

fn is_same_change(answer: Answer, other: Answer) -> bool
    ensures { result ≡ true → answer ≡ other }
{
    match (answer, other) {
        (Answer::Gained, Answer::Gained)
        | (Answer::Lost, Answer::Lost)
        | (Answer::Other, Answer::Other) => true,
        _ => false,
    }
}

fn are_same_tags(tags: Tags, other: Tags) -> bool
    ensures { result ≡ true → tags ≡ other }
{
    is_same_answer(&Some(tags), &Some(other))
}

fn is_same_verdict(verdict: &Verdict, other: &Verdict) -> bool
    ensures { result ≡ true → verdict.now ≡ other.now }
{
    match (verdict, other) {
        (
            Verdict::Allow { place, tags },
            Verdict::Allow {
                place: other_place,
                tags: other_tags,
            },
        ) => {
            if !is_same_place(*place, *other_place) {
                return false;
            }
            are_same_tags(*tags, *other_tags)
        }
        (Verdict::Deny { place }, Verdict::Deny { place: other_place }) => {
            is_same_place(*place, *other_place)
        }
        (Verdict::NoMatch, Verdict::NoMatch) => true,
        _ => false,
    }
}

fn is_same_witness(witness: &Witness, other: &Witness) -> bool
    ensures { result ≡ true → witness.now ≡ other.now }
{
    if !are_same_bytes(&witness.command, &other.command) {
        return false;
    }
    if !are_same_bytes(&witness.arguments, &other.arguments) {
        return false;
    }
    if !is_same_verdict(&witness.old, &other.old) {
        return false;
    }
    if !is_same_verdict(&witness.new, &other.new) {
        return false;
    }
    is_same_change(witness.answer, other.answer)
}

fn are_same_witnesses(witnesses: &[Witness], others: &[Witness]) -> bool
    ensures { result ≡ true → witnesses.now ≡ others.now }
{
    let mut own = witnesses;
    let mut left = others;
    while let [witness, rest @ ..] = own {
        let [other, more @ ..] = left else {
            return false;
        };
        if !is_same_witness(witness, other) {
            return false;
        }
        own = rest;
        left = more;
    }
    left.is_empty()
}

// Whether two patterns of hosts have the same characters.
fn are_same_patterns(chars: &Seq<Ch>, other: &Seq<Ch>) -> bool
    ensures { result ≡ true → chars.now ≡ other.now }
{
    same_chars(chars.as_slice(), other.as_slice())
}

/// Whether two atoms are the same. Aliases count as different: no list that is written out has one.
pub(crate) fn is_same_atom(atom: &Atom, other: &Atom) -> bool
    ensures { result ≡ true → atom.now ≡ other.now }
{
    match (atom, other) {
        (Atom::All, Atom::All) => true,
        (Atom::Name(name), Atom::Name(other)) => are_same_bytes(name, other),
        (Atom::Uid(id), Atom::Uid(other)) => *id == *other,
        (Atom::Group(name), Atom::Group(other)) => are_same_bytes(name, other),
        (Atom::Gid(id), Atom::Gid(other)) => *id == *other,
        (
            Atom::Host { chars, quoted },
            Atom::Host {
                chars: other_chars,
                quoted: other_quoted,
            },
        ) => {
            if *quoted != *other_quoted {
                return false;
            }
            are_same_patterns(chars, other_chars)
        }
        (Atom::Address(address), Atom::Address(other)) => *address == *other,
        (
            Atom::Net { addr, mask },
            Atom::Net {
                addr: other_addr,
                mask: other_mask,
            },
        ) => *addr == *other_addr && *mask == *other_mask,
        (
            Atom::Command { path, args },
            Atom::Command {
                path: other_path,
                args: other_args,
            },
        ) => {
            if !same_chars(path.as_slice(), other_path.as_slice()) {
                return false;
            }
            are_same_arguments(args, other_args)
        }
        _ => false,
    }
}

/// Whether two lists of atoms are the same.
pub(crate) fn are_same_atoms(atoms: &[Atom], others: &[Atom]) -> bool
    ensures { result ≡ true → atoms.now ≡ others.now }
{
    let mut own = atoms;
    let mut left = others;
    while let [atom, rest @ ..] = own {
        let [other, more @ ..] = left else {
            return false;
        };
        if !is_same_atom(atom, other) {
            return false;
        }
        own = rest;
        left = more;
    }
    left.is_empty()
}

fn is_same_decider(decider: &Decider, other: &Decider) -> bool
    ensures { result ≡ true → decider.now ≡ other.now }
{
    if !is_same_place(decider.place, other.place) {
        return false;
    }
    if !is_same_answer(&decider.answer, &other.answer) {
        return false;
    }
    is_same_atom(&decider.atom, &other.atom)
}

fn is_same_row(row: &Option<Decider>, other: &Option<Decider>) -> bool
    ensures { result ≡ true → row.now ≡ other.now }
{
    match (row, other) {
        (None, None) => true,
        (Some(row), Some(other)) => is_same_decider(row, other),
        _ => false,
    }
}

/// Whether two findings are the same.
pub(crate) fn is_same_found(found: &Compared, other: &Compared) -> bool
    ensures { result ≡ true → found.now ≡ other.now }
{
    match (found, other) {
        (Compared::Same, Compared::Same) => true,
        (Compared::Differs(witnesses), Compared::Differs(others)) => {
            are_same_witnesses(witnesses.as_slice(), others.as_slice())
        }
        (
            Compared::May { old, new },
            Compared::May {
                old: other_old,
                new: other_new,
            },
        ) => {
            if !is_same_row(old, other_old) {
                return false;
            }
            is_same_row(new, other_new)
        }
        _ => false,
    }
}
