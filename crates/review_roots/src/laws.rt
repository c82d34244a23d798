//! The laws of levels, of chains, and of groups that may be added. The functions have no effect: each contract is a law.
ghost use Rattle.std.specs.Prelude.{◌≡◌, Some, slice_get};
ghost use Rattle.sudo_grammar.specs.Tags.{pairs};
ghost use Rattle.sudo_grammar.specs.declared.tag.TagPair.TheVariants.{Passwd};
ghost use Rattle.review_roots.specs.Levels.{AllAllowsAll, NoneAllowsNone};
ghost use Rattle.review_grants.specs.Targets.{VerdictIsWhere};
ghost use Rattle.review_roots.specs.Passwords.{AskedAlways, FreeIsAll, FreeIsUnasked, FreeNeedsNoPassword};
ghost use Rattle.review_roots.specs.Chains.{ChainsArePaths};
ghost use Rattle.review_roots.specs.KnownGroups.{OtherGroupsChangeNoList};

/// Where the level of the rows for a target is `All` and depends on no note, every command is allowed, with any arguments, whichever
/// notes are met. The verdict on a request is the case in which all are.
pub fn all_allows_all()
    ensures allowed { AllAllowsAll }
    ensures verdict { VerdictIsWhere }
{}

/// Where the level of the rows for a target is `None`, no command is allowed, with any arguments, whichever notes are met.
pub fn none_allows_none()
    ensures { NoneAllowsNone }
{}

/// Where the rows for a target are free of passwords and depend on no note, every command is allowed with the tag NOPASSWD,
/// whichever notes are met; and their level is `All`.
pub fn free_needs_no_password()
    ensures place { slice_get pairs 6 ≡ Some Passwd }
    ensures free { FreeNeedsNoPassword }
    ensures all { FreeIsAll }
{}

/// Where the rows for a target let no command go unasked, none is allowed with the tag NOPASSWD, whichever notes are met; and rows
/// that are free of passwords let commands go unasked.
pub fn asked_always()
    ensures asked { AskedAlways }
    ensures free { FreeIsUnasked }
{}

/// A user with a further group that the user list of no rule names is allowed by those lists that allow it without.
pub fn other_groups_change_no_list()
    ensures { OtherGroupsChangeNoList }
{}

/// A chain of steps from a state through states to the goal is a path of as many steps.
pub fn chains_are_paths<S>()
    ensures { ChainsArePaths S }
{}
