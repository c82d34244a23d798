//! The atoms of a list that no known user, group or host fits.
ghost use Rattle.std.specs.Prelude.{◌≡◌, ◌++◌, OnOk, IfOk, is_some};
ghost use Rattle.std.specs.List.{list_any};
ghost use Rattle.sudo_match.specs.KnownRows.{user_named, group_named};
ghost use Rattle.sudo_match.specs.Matching.{user_fits, group_fits, host_fits};
ghost use Rattle.sudo_parser.specs.Texts.{atom_text};
ghost use Rattle.review_subjects.specs.Unknown as spec;

use crate::role::Role;
use crate::{Subject, SubjectFault, SubjectKind};
use std::alloc::{AllocError, Global};
use sudo_match::{Directory, Machine, Person, group_matches, host_matches, user_matches};
use sudo_policy::{Atom, Member, Signed, member_text};
use sudo_text::{Ch, Place, Seq};

// Whether an atom of a list of users fits one of these.
fn fits_some_user(people: &[Person], atom: &Atom) -> bool
    ensures { result ≡ list_any (user_fits atom.now) people.now }
{
    people.iter().any(|person| user_matches(atom, person))
}

// Whether a user of this name is known.
fn knows_user(directory: &Directory, name: &[u8]) -> bool
    ensures { result ≡ is_some (user_named directory.now name.now) }
{
    directory.user(name).is_some()
}

// Whether a known user has a group of this name.
fn knows_group(directory: &Directory, name: &[u8]) -> bool
    ensures { result ≡ is_some (group_named directory.now name.now) }
{
    directory.group(name).is_some()
}

// Whether an atom of a list of users fits a known user; a name is looked up.
fn fits_user(directory: &Directory, atom: &Atom) -> bool
    ensures { result ≡ list_any (user_fits atom.now) directory.now.people }
{
    match atom {
        Atom::Name(name) => knows_user(directory, name.as_slice()),
        Atom::Group(name) => knows_group(directory, name.as_slice()),
        atom => fits_some_user(directory.people(), atom),
    }
}

// Whether an atom of a list of groups fits a group of a user.
fn fits_own_group(atom: &Atom, person: &Person) -> bool
    ensures { result ≡ spec.fits_own_group atom.now person.now }
{
    let groups = person.groups.as_slice();
    groups.iter().any(|group| group_matches(atom, group))
}

// Whether an atom of a list of groups fits a group of one of these.
fn fits_some_group(people: &[Person], atom: &Atom) -> bool
    ensures { result ≡ list_any (spec.fits_own_group atom.now) people.now }
{
    people.iter().any(|person| fits_own_group(atom, person))
}

// Whether an atom of a list of groups fits a known group; a name is looked up.
fn fits_group(directory: &Directory, atom: &Atom) -> bool
    ensures { result ≡ list_any (spec.fits_own_group atom.now) directory.now.people }
{
    match atom {
        Atom::Name(name) => knows_group(directory, name.as_slice()),
        Atom::Group(name) => knows_group(directory, name.as_slice()),
        atom => fits_some_group(directory.people(), atom),
    }
}

// Whether an atom of a list of hosts fits one of these.
fn fits_host(machines: &[Machine], atom: &Atom) -> bool
    ensures { result ≡ list_any (host_fits atom.now) machines.now }
{
    machines.iter().any(|machine| host_matches(atom, machine))
}

// Whether a known user, group or host fits an atom.
fn is_known(directory: &Directory, role: Role, atom: &Atom) -> bool
    ensures { result ≡ spec.is_known directory.now role atom.now }
{
    match role {
        Role::Users => fits_user(directory, atom),
        Role::Groups => fits_group(directory, atom),
        Role::Targets => fits_user(directory, atom) || fits_group(directory, atom),
        Role::Hosts => fits_host(directory.machines(), atom),
        Role::Commands => true,
    }
}

// Returns the kind of an atom of a list of groups, or `None` if it names no group.
fn group_kind(atom: &Atom) -> Option<SubjectKind>
    ensures { result ≡ spec.group_kind atom.now }
{
    match atom {
        Atom::Name(_) => Some(SubjectKind::Group),
        Atom::Uid(_) => Some(SubjectKind::Gid),
        Atom::Group(_) => Some(SubjectKind::Group),
        Atom::Gid(_) => Some(SubjectKind::Gid),
        _ => None,
    }
}

// Returns the kind of an atom of a list of users, or `None` if it names neither a user nor a group.
fn user_kind(atom: &Atom) -> Option<SubjectKind>
    ensures { result ≡ spec.user_kind atom.now }
{
    match atom {
        Atom::Name(_) => Some(SubjectKind::User),
        Atom::Uid(_) => Some(SubjectKind::Uid),
        Atom::Group(_) => Some(SubjectKind::Group),
        Atom::Gid(_) => Some(SubjectKind::Gid),
        _ => None,
    }
}

// Returns the kind of an atom of a list of hosts, or `None` if it names no host.
fn host_kind(atom: &Atom) -> Option<SubjectKind>
    ensures { result ≡ spec.host_kind atom.now }
{
    match atom {
        Atom::Host { .. } => Some(SubjectKind::Host),
        Atom::Address(_) => Some(SubjectKind::Address),
        Atom::Net { .. } => Some(SubjectKind::Network),
        _ => None,
    }
}

// Returns the kind of an atom, or `None` if it names nobody: `ALL`, an alias, a command.
fn kind_of(role: Role, atom: &Atom) -> Option<SubjectKind>
    ensures { result ≡ spec.kind_of role atom.now }
{
    match role {
        Role::Users => user_kind(atom),
        Role::Groups => group_kind(atom),
        Role::Targets => user_kind(atom),
        Role::Hosts => host_kind(atom),
        Role::Commands => None,
    }
}

// Copies an atom.
fn atom_copied(alloc: Global, atom: &Atom) -> Result<Atom, AllocError>
    ensures { IfOk result (λ copy. copy ≡ atom.now) }
{
    Ok(match atom {
        Atom::All => Atom::All,
        Atom::Alias(name) => Atom::Alias(Seq::from_slice(alloc, name.as_slice())?),
        Atom::Name(name) => Atom::Name(Seq::from_slice(alloc, name.as_slice())?),
        Atom::Uid(id) => Atom::Uid(*id),
        Atom::Group(name) => Atom::Group(Seq::from_slice(alloc, name.as_slice())?),
        Atom::Gid(id) => Atom::Gid(*id),
        Atom::Host { chars, quoted } => Atom::Host {
            chars: Seq::from_slice(alloc, chars.as_slice())?,
            quoted: *quoted,
        },
        Atom::Address(addr) => Atom::Address(*addr),
        Atom::Net { addr, mask } => Atom::Net {
            addr: *addr,
            mask: *mask,
        },
        Atom::Command { path, args } => command_copied(alloc, path, args)?,
    })
}

// Copies a command.
fn command_copied(alloc: Global, path: &Seq<Ch>, args: &Option<Seq<Ch>>) -> Result<Atom, AllocError>
    ensures { IfOk result (λ copy. copy ≡ Atom.Command path.now args.now) }
{
    let path = Seq::from_slice(alloc, path.as_slice())?;
    let args = match args {
        Some(args) => Some(Seq::from_slice(alloc, args.as_slice())?),
        None => None,
    };
    Ok(Atom::Command { path, args })
}

// Returns an atom as a written-out list has it.
fn text_of(alloc: Global, atom: &Atom) -> Result<Seq<u8>, AllocError>
    ensures { IfOk result (λ text. text ≡ atom_text atom.now) }
{
    let member = Signed {
        negated: false,
        atom: atom_copied(alloc, atom)?,
    };
    let text = member_text(alloc, &member)?;
    Ok(Seq::from_vec(text))
}

// Appends an atom, if it names somebody and no known one fits it.
fn push_atom(
    alloc: Global,
    directory: &Directory,
    place: Place,
    role: Role,
    atom: &Atom,
    found: &mut Vec<Subject>,
) -> Result<(), AllocError>
    ensures { OnOk result (found.new.items
        ≡ found.old.items ++ spec.atom_subjects directory.now place role atom.now) }
{
    let Some(kind) = kind_of(role, atom) else {
        return Ok(());
    };
    if is_known(directory, role, atom) {
        return Ok(());
    }
    found.push(Subject {
        place,
        kind,
        name: text_of(alloc, atom)?,
        fault: SubjectFault::Unknown,
    })?;
    Ok(())
}

/// Appends the atoms of a list that name somebody and that no known one fits. Returns `AllocError` if allocation fails.
pub(crate) fn push_list(
    alloc: Global,
    directory: &Directory,
    place: Place,
    role: Role,
    members: &[Member],
    found: &mut Vec<Subject>,
) -> Result<(), AllocError>
    ensures { OnOk result (found.new.items
        ≡ found.old.items ++ spec.list_subjects directory.now place role members.now) }
{
    for member in members {
        push_atom(alloc, directory, place, role, &member.atom, found)?;
    }
    Ok(())
}
