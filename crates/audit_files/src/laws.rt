//! Laws of the files of an audit.
ghost use Rattle.std.specs.Prelude.{◌≡◌, [], List, None, ℕ, Ok};
ghost use Rattle.audit_files.specs.Requests.{AreRising, requests_of_file};
ghost use Rattle.audit_files.specs.Rows.{Fields, first_fault};
ghost use Rattle.audit_files.specs.Users.{AreUsersOf, membership_fault, users_of};
ghost use Rattle.audit_files.specs.declared.requests.Requests.{Requests};

/// The numbers of the requests that a file states are at least 1, and each is greater than the
/// previous one.
pub fn numbers_rise()
    ensures { (text : List ℕ) (requests : Requests) → requests_of_file text ≡ Ok requests
        → AreRising requests.list }
{}

/// The users that records with one row per membership state, written out as one row per membership,
/// are what the records state, in order, and no two neighbours have the same name.
pub fn memberships_are_kept()
    ensures { (records : List Fields) → first_fault membership_fault [] records ≡ None
        → AreUsersOf records (users_of records) }
{}
