//! Laws of lists of members: how they are written out. sudoers(5), "Aliases"; cvtsudoers(1), option -e.
ghost use Rattle.std.specs.Prelude.{◌≡◌, Contains, List};
ghost use Rattle.sudo_grammar.specs.declared.kind.Kind.{Kind};
ghost use Rattle.sudo_grammar.specs.declared.kind.Member.{Member};
ghost use Rattle.sudo_grammar.specs.declared.kind.Signed.{Signed};
ghost use Rattle.sudo_laws.specs.WrittenOut.{WritesOut};
ghost use Rattle.sudo_policy.specs.Definitions.{lists, MemberList};
ghost use Rattle.sudo_policy.specs.Written.{written_form};

use sudo_policy::Checked;

/// The lists of a checked policy are written out by equations: nothing is nothing, two lists are both in turn, an atom is
/// itself with its sign, and an alias is its definition written out, with each sign turned if it is negated. No other
/// function has these equations.
pub fn lists_are_written_by_equations(checked: &Checked)
    ensures equations { WritesOut checked.now (λ kind list. written_form kind checked.now list) }
    ensures alone { (write : Kind → List Member → List Signed) → WritesOut checked.now write
        → (l : MemberList) → Contains (lists checked.now) l
        → write l.kind l.members ≡ written_form l.kind checked.now l.members }
{
    let _policy = checked.policy();
}
