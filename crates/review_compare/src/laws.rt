//! The laws of rulings. The functions have no effect: each contract is a law.
ghost use Rattle.review_compare.specs.Agreement.{Agreement};
ghost use Rattle.review_compare.specs.Cases.{CasesAreSaid, SameCasesSaySame, UnnotedCasesHold};
ghost use Rattle.review_compare.specs.Cells.{AgreeingRowsSaySame, NothingDepends, RequestsAnsweredSame, RowsDecide};
ghost use Rattle.review_compare.specs.Compared.{PoliciesAgree};
ghost use Rattle.review_compare.specs.Covering.{AgreementOnCommands, CoversIsSound, DisjointIsSound};
ghost use Rattle.review_compare.specs.Simply.{CoversIsSound as SimplyCovers, DisjointIsSound as SimplyDisjoint};

/// Lists of rulings of which each pair of ways to be answered answers alike or is impossible have one answer to every
/// command.
pub fn rulings_agree<A, O>()
    ensures { Agreement A O }
{}

/// A command that covers another fits whatever the other fits; nothing fits two commands that are disjoint.
pub fn tests_are_sound()
    ensures covers { CoversIsSound }
    ensures disjoint { DisjointIsSound }
{}

/// The tests that the program makes say no more than is so.
pub fn simple_tests_are_sound()
    ensures covers { SimplyCovers }
    ensures disjoint { SimplyDisjoint }
{}

/// Rulings on commands that agree by these tests have one answer to every command, with any arguments.
pub fn commands_agree<O>()
    ensures { AgreementOnCommands O }
{}

/// Where the rulings of two policies agree by these tests, both policies say the same to every command, with the same tags.
pub fn policies_agree()
    ensures { PoliciesAgree }
{}

/// The verdict on a command is that of the last row for the target that fits it: the case in which all noted conditions hold. Where
/// nothing is noted, it is the verdict in each case.
pub fn rows_decide()
    ensures all_met { RowsDecide }
    ensures unnoted { NothingDepends }
{}

/// Where both policies say the same to a command whichever noted conditions hold, the verdicts on a request for it say the same.
pub fn same_cells_answer_alike()
    ensures { RequestsAnsweredSame }
{}

/// Where the rows of two policies for a target agree by the tests that the program makes, both say the same to every command,
/// whichever noted conditions hold.
pub fn agreeing_rows_say_same()
    ensures { AgreeingRowsSaySame }
{}

/// The cases of a request are what a policy says to it, whichever noted conditions hold; so policies with the same cases say the same
/// whichever hold. Where no line has a note that bears on the request, the verdict is what is said whichever hold.
pub fn cases_say_what_policies_say()
    ensures said { CasesAreSaid }
    ensures same { SameCasesSaySame }
    ensures unnoted { UnnotedCasesHold }
{}
