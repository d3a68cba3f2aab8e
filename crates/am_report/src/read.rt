//! Reports that are read.

ghost use Rattle.std.specs.Prelude.{◌≡◌, ◌≢◌, ◌≤◌, ◌↔◌, IfOk, IfErr, IsTrue, Ok, Err, map, length};
ghost use Rattle.std.specs.Bool.{OnTrue, OnFalse};
ghost use Rattle.csv.specs.Records.{fields_of};
ghost use Rattle.am_report.specs.Rows.{column_names};
ghost use Rattle.am_report.specs.Reports.{IsReportOf, IsReportRefusal, TellsReportRefusal, IsReportAnswer};
ghost use Rattle.am_report.specs.declared.error.ReportError.{ReportError as ErrorValue};
ghost use Rattle.am_report.specs.declared.read.Report.{Report as ReportValue};

use crate::columns::COLUMNS;
use crate::error::ReportError;
use crate::filling::Filling;
use crate::laws::report_law;
use crate::row::has_field;
use crate::rows::{next_row, rows_of};
use am_cells::Cells;
use am_domain::Domain;
use csv::ByteRecord;
use std::alloc::Global;

/// The most bytes of a report: the rows of so many cells as there may be take less than half of them.
pub const MAX_REPORT: u32 = 16_777_216;

/// A report: its node, by its number in the domain, and the cells of all flows and reported blocks.
#[derive(Drop)]
pub struct Report {
    pub node: u32,
    pub cells: Cells,
}

/// The report that the bytes say, or their first refusal: the first row that is refused decides, and of what is wrong
/// in a row the first in the order of [`ReportError`].
pub fn read_report(alloc: Global, domain: &Domain, bytes: &[u8]) -> Result<Report, ReportError>
    requires { length bytes.now ≤ MAX_REPORT }
    ensures ok { IfOk result (λ r. IsReportOf domain.now bytes.now r) }
    ensures err { IfErr result (λ e. TellsReportRefusal domain.now bytes.now e) }
    // Whatever report the bytes say, and however they are refused, that is the answer, unless memory is short.
    ensures found { (r : ReportValue)
        → IsReportOf domain.now bytes.now r → IsReportAnswer result (Ok r) }
    ensures refused { (e : ErrorValue)
        → IsReportRefusal domain.now bytes.now e → IsReportAnswer result (Err e) }
{
    report_law();
    let _flows = domain.flows();
    said_by(alloc, domain, bytes)
}

// The same.
fn said_by(alloc: Global, domain: &Domain, bytes: &[u8]) -> Result<Report, ReportError>
    ensures ok { IfOk result (λ r. IsReportOf domain.now bytes.now r) }
    ensures err { IfErr result (λ e. TellsReportRefusal domain.now bytes.now e) }
{
    let Ok(mut filling) = Filling::new(alloc, domain) else {
        return Err(ReportError::Memory);
    };
    let mut reader = rows_of(alloc, bytes);
    let mut fields = ByteRecord::new(alloc);
    if !next_row(&mut reader, &mut fields)? {
        return Err(ReportError::BadHeader);
    }
    if !is_header(&fields) {
        return Err(ReportError::BadHeader);
    }
    'rows: for _ in 0..u64::MAX {
        if !next_row(&mut reader, &mut fields)? {
            return filling.finish(domain);
        }
        if let Err(error) = filling.take(domain, &fields) {
            return Err(error);
        }
    }
    Err(ReportError::Memory)
}

// Whether the fields are the names of the columns.
fn is_header(fields: &ByteRecord) -> bool
    ensures { IsTrue result ↔ (fields_of fields.now ≡ column_names) }
{
    are_fields(fields, &COLUMNS)
}

// Whether these are the fields.
fn are_fields(fields: &ByteRecord, names: &[&[u8]]) -> bool
    ensures yes { OnTrue result (fields_of fields.now ≡ map (λ f. f.now) names.now) }
    ensures no { OnFalse result (fields_of fields.now ≢ map (λ f. f.now) names.now) }
{
    if fields.len() != names.len() {
        return false;
    }
    for i in 0..names.len() {
        if !has_field(fields, i, names[i]) {
            return false;
        }
    }
    true
}
