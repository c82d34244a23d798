//! A law of reports.
ghost use Rattle.std.specs.Prelude.{◌≡◌, ◌∷◌, flat_map, List, map, ℕ};
ghost use Rattle.audit_collect.specs.declared.report.Report.{Report};
ghost use Rattle.audit_files.specs.Report.{answer_fields, header, report_text};
ghost use Rattle.audit_files.specs.Rows.{records_of};

/// The text of a report, read as a CSV file, has as its records the header and one record for each answer: sender by
/// sender, and of each sender in order.
pub fn reports_read_back()
    ensures { (files : List (List ℕ)) (report : Report)
        → records_of (report_text files report)
        ≡ header ∷ flat_map (λ s. map (answer_fields files s.name) s.answers) report.senders }
{}
