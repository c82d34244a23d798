//! The subjects of a policy.
ghost use Rattle.std.specs.Prelude.{◌≡◌, ◌++◌, OnOk, IfOk, IsTrue, All, flat_map};
ghost use Rattle.review_subjects.specs.Subjects as spec;

use crate::Subject;
use crate::entries::{Finder, push_entry};
use std::alloc::{AllocError, Global};
use sudo_match::Directory;
use sudo_policy::{Checked, Entry};

// Appends the subjects of entries.
fn push_entries(
    alloc: Global,
    finder: &Finder<'_>,
    entries: &[Entry],
    found: &mut Vec<Subject>,
) -> Result<(), AllocError>
    requires { All (λ e. IsTrue (spec.entry_resolves finder.now.checked.now e)) entries.now }
    ensures { OnOk result (found.new.items ≡ found.old.items
        ++ flat_map (spec.entry_subjects finder.now.checked.now finder.now.directory.now)
        entries.now) }
{
    for entry in entries {
        push_entry(alloc, finder, entry, found)?;
    }
    Ok(())
}

/// Returns what of a policy reaches nobody that the directory knows, entry by entry in the policy's order: of an entry first
/// the atoms that no known user, group or host fits, in the order of its lists, and then the rule, or each definition of an
/// alias, that allows no known one.
///
/// A rule reaches nobody if its list of users allows no known user, or if in each of its sections the list of hosts allows
/// no known host or the commands can be run as no known user. Returns `AllocError` only if allocation fails.
pub fn subjects(
    alloc: Global,
    checked: &Checked,
    directory: &Directory,
) -> Result<Vec<Subject>, AllocError>
    ensures { IfOk result (λ found. found.items
        ≡ spec.policy_subjects checked.now directory.now) }
{
    let finder = Finder { checked, directory };
    let mut found = Vec::new(alloc);
    push_entries(
        alloc,
        &finder,
        checked.policy().entries.as_slice(),
        &mut found,
    )?;
    Ok(found)
}
