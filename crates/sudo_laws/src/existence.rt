//! Laws of existence: each input is read or refused, so no definition of reading is one that nothing satisfies. visudo(8),
//! option -c.
ghost use Rattle.std.specs.Prelude.{◌≡◌, ◌⊎◌, Err, List, Result, true, ℕ};
ghost use Rattle.audit_collect.specs.Collect.{FailsWith, IsOutOfMemory};
ghost use Rattle.audit_collect.specs.Complete.{IsReportOf};
ghost use Rattle.audit_collect.specs.Roster.{IsRoster};
ghost use Rattle.audit_collect.specs.declared.arrival.Arrival.{Arrival};
ghost use Rattle.audit_collect.specs.declared.fault.CollectFault.{CollectFault};
ghost use Rattle.audit_collect.specs.declared.report.Report.{Report};
ghost use Rattle.sudo_grammar.specs.declared.fault.ParseFault.{ParseFault};
ghost use Rattle.sudo_grammar.specs.declared.policy.Entry.{Entry};
ghost use Rattle.sudo_grammar.specs.declared.policy.Policy.{Policy};
ghost use Rattle.sudo_load.specs.Load.{IsLoad};
ghost use Rattle.sudo_load.specs.Unfolding.{Refusal};
ghost use Rattle.sudo_load.specs.declared.supply.Supply.{Supply};
ghost use Rattle.sudo_parser.specs.Parsed.{AreEntries, IsFirstFault};
ghost use Rattle.sudo_policy.specs.Checking.{FailsCheck, Passes};
ghost use Rattle.sudo_policy.specs.Found.{AreFindings};
ghost use Rattle.sudo_policy.specs.declared.finding.Finding.{Finding};
ghost use Rattle.sudo_text.specs.Tokens.{LeftmostFault, spells};
ghost use Rattle.sudo_text.specs.declared.fault.TextFault.{TextFault};
ghost use Rattle.sudo_text.specs.declared.line.Line.{Line};
ghost use Rattle.sudo_text.specs.declared.token.Token.{Token};

/// Each line spells tokens, or it has a leftmost fault. By laws of `sudo_text` it has not both, and one of each at most.
pub fn lines_have_tokens_or_a_fault()
    ensures { (line : Line) → ((tokens : List Token) × (spells line tokens ≡ true))
        ⊎ ((fault : TextFault) × LeftmostFault line fault) }
{}

/// The lines of a file have entries, or they have a first fault. By a law of `sudo_parser` they have not both, and one of
/// each at most.
pub fn lines_have_entries_or_a_fault()
    ensures { (lines : List Line) → ((entries : List Entry) × AreEntries lines entries)
        ⊎ ((fault : ParseFault) × IsFirstFault lines fault) }
{}

/// A main file, with the files and folders that are provided, is loaded as a policy, or loading it is refused. By a law of
/// `sudo_load` the result is one.
pub fn files_are_loaded_or_refused()
    ensures { (path text : List ℕ) (supplies : List Supply)
        → (result : Result Policy Refusal) × IsLoad path text supplies result }
{}

/// Each policy has findings, and by them it passes the check or fails it, and never both. By a law of `sudo_policy` its
/// findings are one list.
pub fn policies_pass_or_fail()
    ensures findings { (p : Policy) → (found : List Finding) × AreFindings p found }
    ensures passes { (p : Policy) → Passes p ⊎ ((found : List Finding) × FailsCheck p found) }
    ensures apart { (p : Policy) (found : List Finding) → Passes p → FailsCheck p found → ⊥ }
{}

/// A roster and a list of arrivals have a report, or a fault. The fault is not that memory ran out.
pub fn arrivals_have_a_report_or_a_fault()
    ensures { (names : List (List ℕ)) (arrivals : List Arrival)
        → (IsRoster names × ((made : Report) × IsReportOf names arrivals made))
        ⊎ ((fault : CollectFault) × FailsWith names arrivals fault
        × (IsOutOfMemory (Err fault) → ⊥)) }
{}
