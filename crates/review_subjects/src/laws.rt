//! The laws of subjects and of the counts of rules. The functions have no effect: each contract is a law.
ghost use Rattle.review_subjects.specs.Counts.{CountsAddUp};
ghost use Rattle.review_subjects.specs.Idle.{IdleRulesNeverApply};
ghost use Rattle.review_subjects.specs.Laws.{DefinitionsAreInForce, VerdictsAreOfRules};

/// No grant of a rule that reaches nobody applies to a request whose names are known, if the rows of the directory have no
/// fault, as those of a [`sudo_match::Directory`] have none.
pub fn idle_rules_never_apply()
    ensures { IdleRulesNeverApply }
{}

/// If each answer that allows or denies has the place of a rule, the counts of the rows add up to the number of these answers.
pub fn counts_add_up()
    ensures { CountsAddUp }
{}

/// The verdict on a request, if it allows or denies, has the place of a rule.
pub fn verdicts_are_of_rules()
    ensures { VerdictsAreOfRules }
{}

/// Each definition of an alias of a policy that passes the check is in force.
pub fn definitions_are_in_force()
    ensures { DefinitionsAreInForce }
{}
