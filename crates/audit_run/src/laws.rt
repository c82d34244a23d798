//! Laws of the outcome of an audit of sources. The functions have empty bodies: each contract is a law.
ghost use Rattle.std.specs.Prelude.{◌≡◌, ◌++◌, ℕ, List, Option, Result, Ok, Err, length, map};
ghost use Rattle.std.specs.List.Sorted.{IsPermutation};
ghost use Rattle.audit_collect.specs.Finished.{AllFinished, IsFirstMissing, report_of};
ghost use Rattle.audit_collect.specs.SenderState.{SenderState, after, start};
ghost use Rattle.audit_collect.specs.Roster.{AreDistinct};
ghost use Rattle.audit_collect.specs.declared.fault.Refused.{Refused};
ghost use Rattle.audit_collect.specs.declared.fault.Refused.TheVariants.{Double};
ghost use Rattle.audit_collect.specs.declared.fault.Unfinished.{Unfinished};
ghost use Rattle.audit_collect.specs.declared.report.Report.{Report};
ghost use Rattle.audit_files.specs.Feeding.{Ahead};
ghost use Rattle.audit_files.specs.Report.{header, line, report_text};
ghost use Rattle.audit_files.specs.declared.fault.FileFault.{FileFault};
ghost use Rattle.audit_run.specs.Names.{answer};
ghost use Rattle.audit_run.specs.declared.message.Names.{Names};
ghost use Rattle.audit_run.specs.declared.message.Outcome.{Outcome};
ghost use Rattle.audit_run.specs.declared.fault.AuditFault.{AuditFault};
ghost use Rattle.audit_run.specs.declared.fault.AuditFault.TheVariants.{Sender};
ghost use Rattle.audit_run.specs.Arrivals.{arrivals_of};
ghost use Rattle.audit_run.specs.IsAuditResult.{IsAuditResult, IsOutcome, IsResult, NoneRefused};
ghost use Rattle.audit_run.specs.Outcome.{AreWhole, AskInTwo, HaveRefused, IsReport, Lack};
ghost use Rattle.audit_run.specs.Parts.{AreRead, Stated, faults_of, parts_by_owner, run_jobs};
ghost use Rattle.audit_run.specs.Passes.{IsEmpty, IsOnlyPass, PassView};
ghost use Rattle.audit_run.specs.Roster.{roster};
ghost use Rattle.audit_run.specs.Shards.{AreDisjoint, AreShards, IsJoined, IsNoneOfSources, IsOfEither, MayReturn};
ghost use Rattle.audit_run.specs.Shards.{fault_after, joined_report, names_of_sources};

/// If a collector refuses an arrival, the sources have the fault that it names, whatever the order of the answers to
/// all jobs and the number of workers.
pub fn refusals_are_of_sources()
    ensures { (names : Names) (sources : List (List ℕ)) (readable_bytes : List (Option Ahead))
        (states : List Stated) (workers : ℕ) (outcomes : List Outcome) (why : Refused)
        → AreRead readable_bytes states → IsPermutation
        (map (answer names) (run_jobs workers (parts_by_owner sources states))) outcomes
        → after (start (roster sources)) (arrivals_of outcomes) ≡ Err why
        → HaveRefused (parts_by_owner sources states) why }
{}

/// If a sender asks for a number twice, two of its sources ask for it: within a source, the numbers rise.
pub fn doubles_are_of_two_sources()
    ensures { (sources : List (List ℕ)) (readable_bytes : List (Option Ahead))
        (states : List Stated) (sender : ℕ) (number : ℕ) → AreRead readable_bytes states
        → HaveRefused (parts_by_owner sources states) (Double sender number)
        → AskInTwo sender number (parts_by_owner sources states) }
{}

/// The sources lack the first thing that is missing after all arrivals, whatever the order of the answers to all jobs
/// and the number of workers.
pub fn lacks_are_of_sources()
    ensures { (names : Names) (sources : List (List ℕ)) (states : List Stated) (workers : ℕ)
        (outcomes : List Outcome) (held : List SenderState) (what : Unfinished)
        → IsPermutation (map (answer names) (run_jobs workers (parts_by_owner sources states)))
        outcomes
        → after (start (roster sources)) (arrivals_of outcomes) ≡ Ok held → IsFirstMissing held what
        → Lack (length (roster sources)) (parts_by_owner sources states) what }
{}

/// If nothing is missing after all arrivals, the sources are whole and the report is theirs, whatever the order of the
/// answers to all jobs and the number of workers.
pub fn reports_are_of_sources()
    ensures whole { (names : Names) (sources : List (List ℕ)) (states : List Stated) (workers : ℕ)
        (outcomes : List Outcome) (held : List SenderState)
        → IsPermutation (map (answer names) (run_jobs workers (parts_by_owner sources states)))
        outcomes
        → after (start (roster sources)) (arrivals_of outcomes) ≡ Ok held → AllFinished held
        → AreWhole (length (roster sources)) (parts_by_owner sources states) }
    ensures report { (names : Names) (sources : List (List ℕ)) (states : List Stated) (workers : ℕ)
        (outcomes : List Outcome) (held : List SenderState)
        → IsPermutation (map (answer names) (run_jobs workers (parts_by_owner sources states)))
        outcomes
        → after (start (roster sources)) (arrivals_of outcomes) ≡ Ok held → AllFinished held
        → IsReport names (roster sources) (parts_by_owner sources states) (report_of held) }
{}

/// Whole sources have no fault that a collector refuses, lack nothing, and have only one report.
pub fn whole_sources_have_one_report()
    ensures not_refused { (sources : List (List ℕ)) (states : List Stated) (why : Refused)
        → AreWhole (length (roster sources)) (parts_by_owner sources states)
        → HaveRefused (parts_by_owner sources states) why → ⊥ }
    ensures not_lacking { (sources : List (List ℕ)) (states : List Stated) (what : Unfinished)
        → AreWhole (length (roster sources)) (parts_by_owner sources states)
        → Lack (length (roster sources)) (parts_by_owner sources states) what → ⊥ }
    ensures one { (names : Names) (sources : List (List ℕ)) (states : List Stated) (report : Report)
        (other : Report) → AreWhole (length (roster sources)) (parts_by_owner sources states)
        → IsReport names (roster sources) (parts_by_owner sources states) report
        → IsReport names (roster sources) (parts_by_owner sources states) other → report ≡ other }
{}

/// Each result that an audit may return, an audit by any number of workers may return, from any whole pass with nothing
/// left: no result tells of the workers, nor of the order of their answers.
pub fn results_are_of_any_workers()
    ensures { (names : Names) (sources : List (List ℕ)) (readable_bytes : List (Option Ahead))
        (workers : ℕ) (old : PassView) (result : Result Report AuditFault)
        → IsOnlyPass old → IsEmpty old → IsResult names sources readable_bytes result
        → (new : PassView)
        × IsAuditResult names sources readable_bytes workers old new result }
{}

/// The roster of sources has no name twice.
pub fn rosters_are_distinct()
    ensures { (sources : List (List ℕ)) → AreDistinct (roster sources) }
{}

/// For two lists of sources with no name in common, the roster of both lists is the first's followed by the second's.
/// If each list has a report, the report of both is the first's rows followed by the second's; both have a report only
/// if each list has one. The text of the joined report is the first's followed by the second's without its header.
pub fn shards_have_joined_reports()
    ensures roster { (first : List (List ℕ)) (second : List (List ℕ)) → AreDisjoint first second
        → roster (first ++ second) ≡ roster first ++ roster second }
    ensures report { (names : Names) (first : List (List ℕ)) (second : List (List ℕ))
        (states : List Stated) (more : List Stated) (report : Report) (other : Report)
        → AreShards first second states → IsOutcome names first states (Ok report)
        → IsOutcome names second more (Ok other) → IsOutcome names (first ++ second)
        (states ++ more) (Ok (joined_report report other)) }
    ensures only { (names : Names) (first : List (List ℕ)) (second : List (List ℕ))
        (states : List Stated) (more : List Stated) (report : Report)
        → AreShards first second states
        → IsOutcome names (first ++ second) (states ++ more) (Ok report)
        → IsJoined names first second states more report }
    ensures text { (files : List (List ℕ)) (report : Report) (other : Report) (records : List ℕ)
        → report_text files other ≡ line header ++ records
        → report_text files (joined_report report other) ≡ report_text files report ++ records }
{}

/// For two lists of sources with no name in common, a fault of one list is a fault of both, unless a source of the
/// other list is refused; a refused source of the first list precedes those of the second. Both have no other fault.
pub fn shards_have_their_refusals()
    ensures source { (names : Names) (first : List (List ℕ)) (second : List (List ℕ))
        (states : List Stated) (more : List Stated) (name : List ℕ) (part : ℕ) (why : FileFault)
        → AreShards first second states → IsOutcome names first states (Err (Sender name part why))
        → IsOutcome names (first ++ second) (states ++ more) (Err (Sender name part why)) }
    ensures of_first { (names : Names) (first : List (List ℕ)) (second : List (List ℕ))
        (states : List Stated) (more : List Stated) (fault : AuditFault)
        → AreShards first second states → IsOutcome names first states (Err fault)
        → NoneRefused (faults_of more)
        → IsOutcome names (first ++ second) (states ++ more) (Err fault) }
    ensures of_second { (names : Names) (first : List (List ℕ)) (second : List (List ℕ))
        (states : List Stated) (more : List Stated) (fault : AuditFault)
        → AreShards first second states → IsOutcome names second more (Err fault)
        → NoneRefused (faults_of states) → IsOutcome names (first ++ second) (states ++ more)
        (Err (fault_after (length (roster first)) fault)) }
    ensures only { (names : Names) (first : List (List ℕ)) (second : List (List ℕ))
        (states : List Stated) (more : List Stated) (fault : AuditFault)
        → AreShards first second states
        → IsOutcome names (first ++ second) (states ++ more) (Err fault)
        → IsOfEither names first second states more fault }
{}

/// For audits of two lists of sources with no name in common, by readers that report their bytes: if each list may
/// return a report, both may return no report but the joined one, and no fault of the sources. If either list may
/// return a fault of its sources, both may return no report.
pub fn audits_of_shards_join()
    ensures report { (names : Names) (first : List (List ℕ × Ahead))
        (second : List (List ℕ × Ahead)) (report : Report) (other : Report) (whole : Report)
        → AreDisjoint (names_of_sources first) (names_of_sources second)
        → MayReturn names first (Ok report) → MayReturn names second (Ok other)
        → MayReturn names (first ++ second) (Ok whole) → whole ≡ joined_report report other }
    ensures no_fault { (names : Names) (first : List (List ℕ × Ahead))
        (second : List (List ℕ × Ahead)) (report : Report) (other : Report) (fault : AuditFault)
        → AreDisjoint (names_of_sources first) (names_of_sources second)
        → MayReturn names first (Ok report) → MayReturn names second (Ok other)
        → MayReturn names (first ++ second) (Err fault) → IsNoneOfSources fault }
    ensures first_refused { (names : Names) (first : List (List ℕ × Ahead))
        (second : List (List ℕ × Ahead)) (fault : AuditFault) (whole : Report)
        → AreDisjoint (names_of_sources first) (names_of_sources second)
        → MayReturn names first (Err fault) → (IsNoneOfSources fault → ⊥)
        → MayReturn names (first ++ second) (Ok whole) → ⊥ }
    ensures second_refused { (names : Names) (first : List (List ℕ × Ahead))
        (second : List (List ℕ × Ahead)) (fault : AuditFault) (whole : Report)
        → AreDisjoint (names_of_sources first) (names_of_sources second)
        → MayReturn names second (Err fault) → (IsNoneOfSources fault → ⊥)
        → MayReturn names (first ++ second) (Ok whole) → ⊥ }
{}
