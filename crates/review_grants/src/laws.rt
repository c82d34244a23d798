//! The laws of rows, of notes and of the table of who may run a command. The functions have no effect: each contract is a law.
ghost use Rattle.review_grants.specs.Rows.{RowsApply, LastRowDecides};
ghost use Rattle.review_grants.specs.Unnoted.{LastHolds, NoneHolds, VerdictHolds};
ghost use Rattle.review_grants.specs.WhoRows.{UnlistedMayNot};

/// A grant applies if it is a row of its user and host, its runas allows, and its atom matches the command; and the
/// verdict is that of the last row for which the rest holds.
pub fn last_row_decides()
    ensures splits { RowsApply }
    ensures decides { LastRowDecides }
{}

/// A verdict that depends on no note holds whatever the digests, the times and the roots are: for every test that may only fail
/// where a grant applies, and there only where its rule has a note, the last grant that applies decides if its rule has no
/// note, and where none applies the test holds of none.
pub fn unnoted_verdicts_hold()
    ensures last { LastHolds }
    ensures none { NoneHolds }
    ensures verdict { VerdictHolds }
{}

/// A user without a record on a host, in the table of who may run a command, is allowed nothing there by that request.
pub fn unlisted_may_not()
    ensures { UnlistedMayNot }
{}
