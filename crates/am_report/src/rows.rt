//! The rows of a text, as the crate `csv` gives them.

ghost use Rattle.std.specs.Prelude.{◌≡◌, ℕ, List, [], ◌∷◌, ◌++◌, IfOk, IfErr};
ghost use Rattle.std.specs.Bool.{OnTrue, OnFalse};
ghost use Rattle.csv.specs.Records.{fields_of};
ghost use Rattle.am_report.specs.Reports.{AreRows};
ghost use Rattle.am_report.specs.RowsRead.{HaveBeenRead};
ghost use Rattle.am_report.specs.declared.error.ReportError.TheVariants.{Memory};

use crate::error::ReportError;
use csv::{ByteRecord, Reader, ReaderBuilder};
use std::alloc::Global;

/// A reader of the rows of a text: rows of any length, none of which is a header.
pub(crate) fn rows_of(alloc: Global, bytes: &[u8]) -> Reader<&[u8]>
    ensures { HaveBeenRead result bytes.now [] }
{
    ReaderBuilder::new()
        .has_headers(false)
        .flexible(true)
        .from_reader(alloc, bytes)
}

/// Reads the fields of the next row. False where there is none.
pub(crate) fn next_row(
    reader: &mut Reader<&[u8]>,
    fields: &mut ByteRecord,
) -> Result<bool, ReportError>
    ensures more { IfOk result (λ found. OnTrue found (
        (bytes : List ℕ) (rows : List (List (List ℕ)))
        → HaveBeenRead reader.old bytes rows
        → HaveBeenRead reader.new bytes (rows ++ fields_of fields.new ∷ []))) }
    ensures all { IfOk result (λ found. OnFalse found (
        (bytes : List ℕ) (rows : List (List (List ℕ)))
        → HaveBeenRead reader.old bytes rows → AreRows bytes rows)) }
    ensures memory { IfErr result (λ e. e ≡ Memory) }
{
    // a text in memory is read without a fault, and rows may have any length
    match reader.read_byte_record(fields) {
        Ok(found) => Ok(found),
        Err(_) => Err(ReportError::Memory),
    }
}
