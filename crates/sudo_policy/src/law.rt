//! Laws of the definitions that the contracts of this crate use.
ghost use Rattle.sudo_policy.specs.Found.{FoundOnce};
ghost use Rattle.sudo_policy.specs.Resolving.{AreWritten};
ghost use Rattle.sudo_policy.specs.Written.{WrittenOnce};

use crate::Checked;

/// A policy has one list of findings.
pub fn findings_are_one_list()
    ensures { FoundOnce }
{}

/// A list has at most one written form.
pub fn written_form_is_one()
    ensures { WrittenOnce }
{}

/// Each list of a checked policy has a written form: no alias in it is undefined or on a cycle.
pub fn lists_are_written(checked: &Checked)
    ensures { AreWritten checked.now }
{
    let _policy = checked.policy();
}
