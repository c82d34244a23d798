//! Commands of a policy beside others: whether one fits whatever the other fits, and whether nothing fits both.
ghost use Rattle.std.specs.Prelude.{◌≡◌, ◌&&◌, ◌||◌, [], false, IfOk, IsTrue, List, map, option_map, Some, ℕ};
ghost use Rattle.sudo_match.specs.Matching as matching;
ghost use Rattle.sudo_match.specs.Matching.{command_fits};
ghost use Rattle.sudo_match.specs.Pattern as pattern;
ghost use Rattle.review_compare.specs.Covering as covering;
ghost use Rattle.review_compare.specs.Simply as simply;
ghost use Rattle.review_compare.specs.Simply.{arguments_of, char_part, chars_text, path_of};

use crate::characters::{
    chars_cover, has_few_stars, is_plain, is_simple, parts_apart, parts_cover, same_chars,
};
use std::alloc::{AllocError, Global};
use sudo_grammar::Atom;
use sudo_match::{Pattern, Slash, command_matches};
use sudo_text::{Ch, Seq};

/// A command of a policy, with what the tests of pairs need of it.
#[derive(Drop)]
pub(crate) struct Shape {
    pub(crate) atom: Atom,
    // The characters of its path, with those that a folder's path stands for.
    path: Vec<Ch>,
    // Whether the path is read character by character, and whether it is tried as a cover.
    is_simple: bool,
    is_cover: bool,
    // The one path that it fits, and its one text of arguments, where the parts are single bytes.
    path_text: Option<Vec<u8>>,
    arguments_text: Option<Vec<u8>>,
    ghost path_is: { path.items ≡ path_of atom },
    ghost simple_is: { is_simple ≡ simply.is_simple path.items },
    ghost cover_is: { is_cover ≡ (simply.is_simple path.items && simply.has_few_stars path.items) },
    ghost path_text_is: { option_map (λ v. v.items) path_text ≡ chars_text path.items },
    ghost arguments_text_is: { option_map (λ v. v.items) arguments_text
        ≡ chars_text (arguments_of atom) },
}

// Whether the character is a `*` or a `?`, unescaped.
fn is_open(ch: Ch) -> bool
    ensures { result ≡ (pattern.is_plain 42 ch || pattern.is_plain 63 ch) }
{
    is_plain(ch, b'*') || is_plain(ch, b'?')
}

// Returns the one text that the characters fit, if there is one.
fn single_text(alloc: Global, chars: &[Ch]) -> Result<Option<Vec<u8>>, AllocError>
    ensures { IfOk result (λ text. option_map (λ v. v.items) text ≡ chars_text chars.now) }
{
    let mut text = Vec::new(alloc);
    for ch in chars {
        if is_open(*ch) {
            return Ok(None);
        }
        text.push(ch.byte)?;
    }
    Ok(Some(text))
}

// Whether the last character is a `/`.
fn is_folder_path(chars: &[Ch]) -> bool
    ensures { result ≡ pattern.is_folder_path chars.now }
{
    match chars.last() {
        Some(ch) => ch.byte == b'/',
        None => false,
    }
}

// Returns the characters of a path, with those that a folder's path stands for.
fn path_chars(alloc: Global, chars: &[Ch]) -> Result<Vec<Ch>, AllocError>
    ensures { IfOk result (λ whole. whole.items ≡ pattern.path_chars chars.now) }
{
    let mut whole = Vec::from_slice(alloc, chars)?;
    if is_folder_path(chars) {
        whole.push(Ch {
            byte: b'?',
            escaped: false,
        })?;
        whole.push(Ch {
            byte: b'*',
            escaped: false,
        })?;
    }
    Ok(whole)
}

// Returns the characters of the command's path.
fn path_of(alloc: Global, atom: &Atom) -> Result<Vec<Ch>, AllocError>
    ensures { IfOk result (λ whole. whole.items ≡ path_of atom.now) }
{
    match atom {
        Atom::Command { path, .. } => path_chars(alloc, path.as_slice()),
        _ => Ok(Vec::new(alloc)),
    }
}

// Returns the one text of arguments of the command, if there is one.
fn arguments_text(alloc: Global, atom: &Atom) -> Result<Option<Vec<u8>>, AllocError>
    ensures { IfOk result (λ text. option_map (λ v. v.items) text
        ≡ chars_text (arguments_of atom.now)) }
{
    match atom {
        Atom::Command {
            args: Some(chars),
            ..
        } => single_text(alloc, chars.as_slice()),
        _ => single_text(alloc, &[]),
    }
}

// Whether the characters begin with these bytes, all unescaped.
#[tactic(auto, unfolding(sudo_match::specs::Pattern::begins))]
fn begins_with(chars: &[Ch], name: &[u8]) -> bool
    ensures { result ≡ pattern.begins (map pattern.is_plain name.now) chars.now }
{
    let mut left = chars;
    let mut names = name;
    while let Some((byte, others)) = names.split_first() {
        let Some((ch, rest)) = left.split_first() else {
            return false;
        };
        if !is_plain(*ch, *byte) {
            return false;
        }
        left = rest;
        names = others;
    }
    true
}

// Whether the characters are these bytes, none of them escaped.
fn spells(name: &[u8], chars: &[Ch]) -> bool
    ensures { result ≡ matching.spells_text name.now chars.now }
{
    chars.len() == name.len() && begins_with(chars, name)
}

// Whether the arguments are `""`: there are none.
fn are_none(chars: &[Ch]) -> bool
    ensures { result ≡ covering.no_arguments chars.now }
{
    spells(b"\"\"", chars)
}

// Returns whether a star in the arguments of the command fits a `/`.
fn arguments_slash(path: &[Ch]) -> Slash
    ensures { result ≡ matching.arguments_slash path.now }
{
    if spells(b"sudoedit", path) {
        Slash::Not
    } else {
        Slash::Any
    }
}

fn is_same_slash(first: Slash, second: Slash) -> bool
    ensures { result ≡ covering.same_slash first second }
{
    match (first, second) {
        (Slash::Any, Slash::Any) | (Slash::Not, Slash::Not) => true,
        _ => false,
    }
}

// Whether the arguments fit where none are given.
fn fit_none(slash: Slash, chars: &[Ch]) -> bool
    ensures { result ≡ matching.arguments_fit slash (Some chars.now) [] }
{
    are_none(chars) || Pattern::of(chars).matches(b"", slash)
}

// Whether the first arguments fit whatever the second fit, as far as it is seen.
fn given_cover(
    slash: Slash,
    other_slash: Slash,
    first: &Option<Seq<Ch>>,
    second: &Option<Seq<Ch>>,
) -> bool
    ensures { result ≡ simply.given_cover slash other_slash first.now second.now }
{
    match (first, second) {
        (None, _) => true,
        (Some(_), None) => false,
        (Some(own), Some(others)) => {
            let (own, others) = (own.as_slice(), others.as_slice());
            if are_none(others) {
                fit_none(slash, own)
            } else if are_none(own) {
                false
            } else {
                is_same_slash(slash, other_slash) && chars_cover(slash, own, others)
            }
        }
    }
}

/// Whether the arguments are written alike.
pub(crate) fn are_same_arguments(first: &Option<Seq<Ch>>, second: &Option<Seq<Ch>>) -> bool
    ensures { result ≡ simply.same_arguments first.now second.now }
{
    match (first, second) {
        (None, None) => true,
        (Some(own), Some(others)) => same_chars(own.as_slice(), others.as_slice()),
        _ => false,
    }
}

/// Whether two commands are written alike.
pub(crate) fn same_command(atom: &Atom, other: &Atom) -> bool
    ensures { result ≡ simply.same_command atom.now other.now }
{
    match (atom, other) {
        (Atom::All, Atom::All) => true,
        (
            Atom::Command { path, args },
            Atom::Command {
                path: other_path,
                args: others,
            },
        ) => {
            same_chars(path.as_slice(), other_path.as_slice()) && are_same_arguments(args, others)
        }
        _ => false,
    }
}

/// Whether two lists of commands are written alike.
pub(crate) fn same_commands(atoms: &[Atom], others: &[Atom]) -> bool
    ensures { result ≡ simply.same_commands atoms.now others.now }
{
    let mut own = atoms;
    let mut left = others;
    while let [atom, rest @ ..] = own {
        let [other, more @ ..] = left else {
            return false;
        };
        if !same_command(atom, other) {
            return false;
        }
        own = rest;
        left = more;
    }
    left.is_empty()
}

// Whether the text, if there is one, is not fitted by the characters.
fn misses(slash: Slash, chars: &[Ch], text: &Option<Vec<u8>>) -> bool
    requires { IsTrue (simply.is_simple chars.now) }
    ensures { result ≡ covering.misses slash (map char_part chars.now)
        (option_map (λ v. v.items) text.now) }
{
    match text {
        None => false,
        Some(text) => !Pattern::of(chars).matches(text.as_slice(), slash),
    }
}

// Whether no text fits both patterns, as far as it is seen; with the one text of each, if there is one, and whether both are
// read character by character.
fn chars_disjoint(
    slashes: (Slash, Slash),
    first: &[Ch],
    second: &[Ch],
    first_text: &Option<Vec<u8>>,
    second_text: &Option<Vec<u8>>,
    are_simple: bool,
) -> bool
    requires first { option_map (λ v. v.items) first_text.now ≡ chars_text first.now }
    requires second { option_map (λ v. v.items) second_text.now ≡ chars_text second.now }
    requires simple { are_simple ≡ (simply.is_simple first.now && simply.is_simple second.now) }
    ensures { result ≡ simply.chars_disjoint slashes.0 slashes.1 first.now second.now }
{
    if !are_simple {
        return false;
    }
    misses(slashes.1, second, first_text)
        || misses(slashes.0, first, second_text)
        || parts_apart(slashes.0, slashes.1, first, second)
}

// Whether no arguments fit both, as far as it is seen; with the one text of each, if there is one.
fn given_disjoint(
    slashes: (Slash, Slash),
    first: &Shape,
    second: &Shape,
    own: &Option<Seq<Ch>>,
    others: &Option<Seq<Ch>>,
) -> bool
    requires first { option_map (λ v. v.items) first.now.arguments_text
        ≡ chars_text (simply.given own.now) }
    requires second { option_map (λ v. v.items) second.now.arguments_text
        ≡ chars_text (simply.given others.now) }
    ensures { result ≡ simply.given_disjoint slashes.0 slashes.1 own.now others.now }
{
    match (own, others) {
        (Some(own), Some(others)) => {
            let (own, others) = (own.as_slice(), others.as_slice());
            if are_none(others) {
                !fit_none(slashes.0, own)
            } else if are_none(own) {
                !fit_none(slashes.1, others)
            } else {
                chars_disjoint(
                    slashes,
                    own,
                    others,
                    &first.arguments_text,
                    &second.arguments_text,
                    is_simple(own) && is_simple(others),
                )
            }
        }
        _ => false,
    }
}

impl Shape {
    /// Returns a command with what the tests of pairs need of it. Returns `AllocError` if allocation fails.
    pub(crate) fn of(alloc: Global, atom: Atom) -> Result<Shape, AllocError>
        ensures { IfOk result (λ shape. shape.atom ≡ atom) }
    {
        let path = path_of(alloc, &atom)?;
        let is_simple = is_simple(&path);
        let is_cover = is_simple && has_few_stars(&path);
        let path_text = single_text(alloc, &path)?;
        let arguments_text = arguments_text(alloc, &atom)?;
        Ok(Shape {
            atom,
            path,
            is_simple,
            is_cover,
            path_text,
            arguments_text,
        })
    }

    /// Returns the characters of its path, with those that a folder's path stands for.
    pub(crate) fn path(&self) -> &[Ch]
        ensures { result.now ≡ path_of self.now.atom }
    {
        &self.path
    }

    // Whether the path may fit the command: a path that fits one text alone fits no other.
    fn may_fit(&self, command: &[u8]) -> bool
        ensures { result ≡ false → (arguments : List ℕ)
            → command_fits self.now.atom command.now arguments ≡ false }
    {
        match (&self.atom, &self.path_text) {
            (Atom::Command { .. }, Some(text)) if self.is_simple => text.as_slice() == command,
            _ => true,
        }
    }

    /// Whether the command fits this command with these arguments.
    pub(crate) fn fits(&self, command: &[u8], arguments: &[u8]) -> bool
        ensures { result ≡ command_fits self.now.atom command.now arguments.now }
    {
        self.may_fit(command) && command_matches(&self.atom, command, arguments)
    }

    // Whether the path fits each path that the other's fits, as far as it is seen.
    fn covers_path(&self, other: &Shape) -> bool
        ensures { result ≡ simply.chars_cover Slash.Not (path_of self.now.atom)
            (path_of other.now.atom) }
    {
        self.is_cover && other.is_simple && parts_cover(Slash::Not, &self.path, &other.path)
    }

    /// Whether the command fits whatever the other fits, as far as it is seen.
    pub(crate) fn covers(&self, other: &Shape) -> bool
        ensures { result ≡ simply.covers_simply self.now.atom other.now.atom }
    {
        match (&self.atom, &other.atom) {
            (Atom::All, _) => true,
            (
                Atom::Command { path, args },
                Atom::Command {
                    path: other_path,
                    args: others,
                },
            ) => {
                let (own, its) = (path.as_slice(), other_path.as_slice());
                (same_chars(own, its) && are_same_arguments(args, others))
                    || (self.covers_path(other)
                        && given_cover(arguments_slash(own), arguments_slash(its), args, others))
            }
            _ => false,
        }
    }

    /// Whether nothing fits both commands, as far as it is seen.
    pub(crate) fn is_disjoint(&self, other: &Shape) -> bool
        ensures { result ≡ simply.disjoint_simply self.now.atom other.now.atom }
    {
        match (&self.atom, &other.atom) {
            (
                Atom::Command { path, args },
                Atom::Command {
                    path: other_path,
                    args: others,
                },
            ) => {
                let (own, its) = (path.as_slice(), other_path.as_slice());
                let slashes = (arguments_slash(own), arguments_slash(its));
                chars_disjoint(
                    (Slash::Not, Slash::Not),
                    &self.path,
                    &other.path,
                    &self.path_text,
                    &other.path_text,
                    self.is_simple && other.is_simple,
                ) || given_disjoint(slashes, self, other, args, others)
            }
            _ => false,
        }
    }
}
