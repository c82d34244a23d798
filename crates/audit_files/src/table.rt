//! Reading a table record by record.
ghost use Rattle.std.specs.Prelude.{◌≡◌, ◌+◌, ◌∷◌, ◌++◌, [], ℕ, List, Option, Some, None, length, OnOk, IfErr};
ghost use Rattle.csv.specs.Records.{fields_of};
ghost use Rattle.audit_files.specs.Faults.{IsNotOutOfMemory, failures_in};
ghost use Rattle.audit_files.specs.Files.{after_header, same_fields};
ghost use Rattle.audit_files.specs.Body.Files.{first_record_fault};
ghost use Rattle.audit_files.specs.declared.fault.FileFault.{FileFault};
ghost use Rattle.audit_files.specs.Rows.{Fields, first_fault, records_of};
ghost use Rattle.audit_files.specs.Body.Rows.{IsReading, rows_left};

use crate::FileFault;
use crate::rows::Rows;
use csv::ByteRecord;
use std::alloc::Global;

/// A collection of the records of a file, one after another.
pub(crate) trait Table {
    ghost header: { Fields };

    // The fault of a record, given those before it.
    ghost fault: { List Fields → Fields → Option FileFault };

    // The table represents these records.
    ghost holds: { Self → List Fields → Type 0 };

    // How many values of the file come before those of the table.
    ghost earlier: { Self → ℕ };

    /// Whether a record is the header.
    fn is_header(&self, record: &ByteRecord) -> bool
        ensures { result ≡ same_fields (fields_of record.now) header };

    /// Adds the next record, which has the number `row`.
    fn add(&mut self, row: u32, record: &ByteRecord) -> Result<(), FileFault>
        ensures ok { OnOk result ((before : List Fields) → holds self.old before
            → row ≡ length before + 2
            → (fault before (fields_of record.now) ≡ None)
            × holds self.new (before ++ fields_of record.now ∷ [])) }
        ensures err { IfErr result (λ e. IsNotOutOfMemory e → (before : List Fields)
            → holds self.old before → row ≡ length before + 2
            → fault before (fields_of record.now) ≡ Some e) }
        ensures no_read { IfErr result (λ e. failures_in e ≡ 0) }
        ensures earlier { earlier self.new ≡ earlier self.old };
}

// Adds all records that are left, the first of which has the number `first`, and stops at the first
// fault.
fn fill<T: Table>(rows: &mut Rows<'_>, table: &mut T, first: u32) -> Result<(), FileFault>
    requires { IsReading rows.old }
    ensures ok { OnOk result ((before : List Fields) → T.holds table.old before
        → first ≡ length before + 2
        → (first_fault T.fault before (rows_left rows.old) ≡ None)
        × T.holds table.new (before ++ rows_left rows.old)) }
    ensures err { IfErr result (λ e. IsNotOutOfMemory e → (before : List Fields)
        → T.holds table.old before → first ≡ length before + 2
        → first_fault T.fault before (rows_left rows.old) ≡ Some e) }
    ensures no_read { IfErr result (λ e. failures_in e ≡ 0) }
    ensures earlier { T.earlier table.new ≡ T.earlier table.old }
{
    for row in first..u32::MAX {
        if !rows.next()? {
            return Ok(());
        }
        table.add(row, &rows.record)?;
    }
    Err(FileFault::Memory)
}

/// Adds the records of a text, the first of which has the number `first`, and stops at the first
/// fault.
pub(crate) fn gather_from<T: Table>(
    alloc: Global,
    text: &[u8],
    table: &mut T,
    first: u32,
) -> Result<(), FileFault>
    ensures ok { OnOk result ((before : List Fields) → T.holds table.old before
        → first ≡ length before + 2
        → (first_fault T.fault before (records_of text.now) ≡ None)
        × T.holds table.new (before ++ records_of text.now)) }
    ensures err { IfErr result (λ e. IsNotOutOfMemory e → (before : List Fields)
        → T.holds table.old before → first ≡ length before + 2
        → first_fault T.fault before (records_of text.now) ≡ Some e) }
    ensures no_read { IfErr result (λ e. failures_in e ≡ 0) }
    ensures earlier { T.earlier table.new ≡ T.earlier table.old }
{
    let mut rows = Rows::new(alloc, text);
    fill(&mut rows, table, first)
}

/// Adds the records of a text after its header, and stops at the first fault. Returns `Header` if
/// the first record is not the header.
pub(crate) fn gather<T: Table>(alloc: Global, text: &[u8], table: &mut T) -> Result<(), FileFault>
    requires { T.holds table.old [] }
    ensures ok { OnOk result ((rest : List Fields)
        × (after_header T.header (records_of text.now) ≡ Some rest)
        × (first_fault T.fault [] rest ≡ None) × T.holds table.new rest) }
    ensures err { IfErr result (λ e. IsNotOutOfMemory e
        → first_record_fault T.fault (after_header T.header (records_of text.now)) ≡ Some e) }
    ensures no_read { IfErr result (λ e. failures_in e ≡ 0) }
    ensures earlier { T.earlier table.new ≡ T.earlier table.old }
{
    let mut rows = Rows::new(alloc, text);
    if !rows.next()? {
        return Err(FileFault::Header);
    }
    if !table.is_header(&rows.record) {
        return Err(FileFault::Header);
    }
    fill(&mut rows, table, 2)
}
