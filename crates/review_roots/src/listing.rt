//! Which user lists allow a user: a list of one name is compared at once.
ghost use Rattle.std.specs.Prelude.{◌≡◌, ℕ, IsTrue, List, Some, bytes_eq};
ghost use Rattle.std.specs.Borrow.{Bor};
ghost use Rattle.sudo_grammar.specs.declared.kind.Kind.TheVariants as kind;
ghost use Rattle.sudo_grammar.specs.declared.policy.Policy.{Policy as ThePolicy};
ghost use Rattle.sudo_match.specs.declared.people.Person.{Person as ThePerson};
ghost use Rattle.sudo_policy.specs.Resolving.{resolves};
ghost use Rattle.sudo_verdict.specs.Values.{user_allowed};

use crate::candidate::is_same_name;
use sudo_match::Person;
use sudo_policy::{Atom, Checked, Member};
use sudo_verdict::lists_user;

/// Returns the name, if the list is one name alone.
pub(crate) fn sole_name(users: &[Member]) -> Option<&[u8]>
    ensures { (name : Bor (List ℕ)) (p : ThePolicy) (u : ThePerson) → result ≡ Some name
        → user_allowed p users.now u ≡ bytes_eq name.now u.name }
{
    let [member] = users else {
        return None;
    };
    match &member.atom {
        Atom::Name(name) => {
            if member.bangs == 0 {
                Some(name.as_slice())
            } else {
                None
            }
        }
        _ => None,
    }
}

/// Whether the user list allows the user.
pub(crate) fn lists_person(checked: &Checked, users: &[Member], person: &Person) -> bool
    requires { IsTrue (resolves kind.User checked.now users.now) }
    ensures { result ≡ user_allowed checked.now users.now person.now }
{
    match sole_name(users) {
        Some(name) => is_same_name(name, person.name.as_slice()),
        None => lists_user(checked, users, person),
    }
}
