//! Cautions on the lists of a policy.
ghost use Rattle.std.specs.Prelude.{◌≡◌, ◌++◌, ◌∷◌, [], OnOk, map, false};
ghost use Rattle.std.specs.List.{list_any};
ghost use Rattle.review_cautions.specs.Body.Looking.{scanned_view};
ghost use Rattle.sudo_grammar.specs.Words.{is_upper};
ghost use Rattle.sudo_policy.specs.Definitions.{list_view};
ghost use Rattle.review_cautions.specs.ListTests as spec;
ghost use Rattle.review_cautions.specs.Cautions as cautions;

use crate::addresses::has_other_address;
use crate::arguments::atom_has_refused_arguments;
use crate::brackets::{atom_has_caret, atom_has_other_bracket};
use crate::bytes::spells;
use crate::escapes::{has_other_escape, has_quoted_escape, has_quoted_mark};
use crate::scanned::ScannedList;
use crate::{Caution, CautionClass, Link};
use std::alloc::{AllocError, Global};
use sudo_policy::{Atom, Kind, Member, MemberList};
use sudo_text::{Ch, Place};

// Whether a name has a capital letter.
fn has_capital(name: &[u8]) -> bool
    ensures { result ≡ list_any is_upper name.now }
{
    name.iter().any(|byte| byte.is_ascii_uppercase())
}

// Whether the name of a user or a group has a capital letter.
fn atom_has_capital(atom: &Atom) -> bool
    ensures { result ≡ spec.atom_has_capital atom.now }
{
    match atom {
        Atom::Name(name) => has_capital(name.as_slice()),
        Atom::Group(name) => has_capital(name.as_slice()),
        _ => false,
    }
}

// Whether a character is a wildcard that no escape yields.
fn is_wildcard(ch: Ch) -> bool
    ensures { result ≡ spec.is_wildcard ch }
{
    !ch.escaped && (ch.byte == b'*' || ch.byte == b'?' || ch.byte == b'[')
}

// Whether a path may lie below a folder, as far as its wildcards let one know.
fn may_lie_below(folder: &[u8], path: &[Ch]) -> bool
    ensures { result ≡ spec.may_lie_below folder.now path.now }
{
    match path {
        [] => false,
        [ch, path @ ..] => match folder {
            [] => is_wildcard(*ch) || ch.byte == b'/',
            [byte, folder @ ..] => {
                is_wildcard(*ch) || (ch.byte == *byte && may_lie_below(folder, path))
            }
        },
    }
}

// Whether a path may lie below the folder that is the link, or below the one that it leads to.
fn is_below_link(path: &[Ch], link: &Link) -> bool
    ensures { result ≡ spec.is_below_link path.now link.now }
{
    may_lie_below(link.from.as_slice(), path) || may_lie_below(link.to.as_slice(), path)
}

// Whether a path may lie below such a folder of one of the links.
fn is_linked(links: &[Link], path: &[Ch]) -> bool
    ensures { result ≡ spec.is_linked links.now path.now }
{
    links.iter().any(|link| is_below_link(path, link))
}

// Whether an atom is a command whose path may lie there.
fn atom_is_linked(links: &[Link], atom: &Atom) -> bool
    ensures { result ≡ spec.atom_is_linked links.now atom.now }
{
    match atom {
        Atom::Command { path, .. } => is_linked(links, path.as_slice()),
        _ => false,
    }
}

// Whether a path ends in `/sudoedit`.
fn ends_in_sudoedit(path: &[Ch]) -> bool
    ensures { result ≡ spec.ends_in_sudoedit path.now }
{
    let front = path.len().saturating_sub(9);
    spells(&path[front..], b"/sudoedit")
}

// Whether an atom is a command whose path ends so.
fn atom_is_sudoedit(atom: &Atom) -> bool
    ensures { result ≡ spec.atom_is_sudoedit atom.now }
{
    match atom {
        Atom::Command { path, .. } => ends_in_sudoedit(path.as_slice()),
        _ => false,
    }
}

// Whether the construct of a class may stand in the lists of a kind.
fn concerns(class: CautionClass, kind: Kind) -> bool
    ensures { result ≡ spec.concerns class kind }
{
    match class {
        CautionClass::Caret => matches!(kind, Kind::Host | Kind::Cmnd),
        CautionClass::Escape => true,
        CautionClass::Case => matches!(kind, Kind::User | Kind::Runas),
        CautionClass::QuotedHost => matches!(kind, Kind::Host),
        CautionClass::QuotedEscape => matches!(kind, Kind::User | Kind::Runas | Kind::Host),
        CautionClass::Sudoedit => matches!(kind, Kind::Cmnd),
        CautionClass::Network => matches!(kind, Kind::Host),
        CautionClass::Bracket => matches!(kind, Kind::Host | Kind::Cmnd),
        CautionClass::Arguments => matches!(kind, Kind::Cmnd),
        _ => false,
    }
}

// Whether a member has the construct of a class.
fn member_holds(class: CautionClass, member: &Member) -> bool
    ensures { result ≡ spec.member_holds class member.now }
{
    match class {
        CautionClass::Caret => atom_has_caret(&member.atom),
        CautionClass::Escape => has_other_escape(member),
        CautionClass::Case => atom_has_capital(&member.atom),
        CautionClass::QuotedHost => has_quoted_mark(&member.atom),
        CautionClass::QuotedEscape => has_quoted_escape(&member.token.kind),
        CautionClass::Sudoedit => atom_is_sudoedit(&member.atom),
        CautionClass::Network => has_other_address(member),
        CautionClass::Bracket => atom_has_other_bracket(&member.atom),
        CautionClass::Arguments => atom_has_refused_arguments(&member.atom),
        _ => false,
    }
}

// Whether one of the members has the construct of a class.
fn members_hold(class: CautionClass, members: &[Member]) -> bool
    ensures { result ≡ list_any (spec.member_holds class) members.now }
{
    members.iter().any(|member| member_holds(class, member))
}

// Whether a list that may have the construct of a class has it.
fn list_holds(class: CautionClass, list: &MemberList<'_>) -> bool
    ensures { result ≡ spec.list_holds class (list_view list.now) }
{
    concerns(class, list.kind) && members_hold(class, list.members)
}

/// Whether a construct of a class changes what a list matches, and nothing else.
pub(crate) fn is_of_matching(class: CautionClass) -> bool
    ensures { result ≡ spec.is_of_matching class }
{
    matches!(
        class,
        CautionClass::Caret
            | CautionClass::Case
            | CautionClass::QuotedHost
            | CautionClass::Linked
            | CautionClass::Network
            | CautionClass::Bracket
            | CautionClass::Depends
    )
}

// Whether one of the members is a linked command.
fn members_are_linked(links: &[Link], members: &[Member]) -> bool
    ensures { result ≡ list_any (λ m. spec.atom_is_linked links.now m.atom) members.now }
{
    members
        .iter()
        .any(|member| atom_is_linked(links, &member.atom))
}

// Whether a command of a list is linked.
fn list_is_linked(links: &[Link], list: &MemberList<'_>) -> bool
    ensures { result ≡ spec.list_is_linked links.now (list_view list.now) }
{
    matches!(list.kind, Kind::Cmnd) && members_are_linked(links, list.members)
}

// Whether two places are the same line of the same file.
fn is_same_place(a: Place, b: Place) -> bool
    ensures { result ≡ cautions.same_place a b }
{
    a.file == b.file && a.line == b.line
}

/// Whether the place before, if any, is the same.
pub(crate) fn is_at(before: Option<Place>, place: Place) -> bool
    ensures { result ≡ cautions.is_at before place }
{
    match before {
        Some(before) => is_same_place(before, place),
        None => false,
    }
}

// Appends a caution on a line.
fn push_caution(
    alloc: Global,
    class: CautionClass,
    place: Place,
    found: &mut Vec<Caution>,
) -> Result<(), AllocError>
    ensures { OnOk result (found.new.items
        ≡ found.old.items ++ cautions.caution_at class place ∷ []) }
{
    found.push(Caution::on_line(alloc, class, place))?;
    Ok(())
}

/// Appends the cautions of a class on lists, one for each line. Returns `AllocError` if allocation fails.
pub(crate) fn push_lists(
    alloc: Global,
    class: CautionClass,
    lists: &[ScannedList<'_>],
    found: &mut Vec<Caution>,
) -> Result<(), AllocError>
    ensures { OnOk result (found.new.items ≡ found.old.items
        ++ cautions.list_cautions class (map scanned_view lists.now)) }
{
    let mut before = None;
    for list in lists {
        if list_holds(class, &list.list) {
            let place = list.list.place;
            if !is_at(before, place) {
                push_caution(alloc, class, place, found)?;
            }
            before = Some(place);
        }
    }
    Ok(())
}

/// Appends the caution on the first list with a linked command, if any.
pub(crate) fn push_linked(
    alloc: Global,
    links: &[Link],
    lists: &[ScannedList<'_>],
    found: &mut Vec<Caution>,
) -> Result<(), AllocError>
    ensures { OnOk result (found.new.items ≡ found.old.items
        ++ cautions.linked_cautions links.now (map scanned_view lists.now)) }
{
    for list in lists {
        if list_is_linked(links, &list.list) {
            return push_caution(alloc, CautionClass::Linked, list.list.place, found);
        }
    }
    Ok(())
}
