//! Laws of reports.
//!
//! A law is a function without a body of its own. A call of it does nothing when the program runs: it is there for a
//! proof, which cites its clauses.

ghost use Rattle.std.specs.Prelude.{◌≡◌, ℕ, ◌<◌, ◌≤◌, List, length};
ghost use Rattle.am_cells.specs.CellTables.{CellTable, IsCellTable, HasShape};
ghost use Rattle.am_domain.specs.Domains.{DomainValue, IsLawful};
ghost use Rattle.am_report.specs.Rows.{report_text};
ghost use Rattle.am_report.specs.Reports.{IsReportOf, IsReportRefusal};
ghost use Rattle.am_report.specs.declared.read.Report.{Report};
ghost use Rattle.am_report.specs.declared.read.TheConstants.{MAX_REPORT};
ghost use Rattle.am_report.specs.declared.error.ReportError.{ReportError};

/// Bytes say at most one report of a domain, or are refused in at most one way, and never both. And the text that is
/// written of a node and its cells says a report: of that node, with those cells. It
/// isn't too long to be read.
pub fn report_law()
    ensures report { (d : DomainValue) (bytes : List ℕ) (a b : Report) → IsLawful d
        → IsReportOf d bytes a → IsReportOf d bytes b → a ≡ b }
    ensures refusal { (d : DomainValue) (bytes : List ℕ) (a b : ReportError) → IsLawful d
        → IsReportRefusal d bytes a → IsReportRefusal d bytes b → a ≡ b }
    ensures either { (d : DomainValue) (bytes : List ℕ) (r : Report) (e : ReportError)
        → IsLawful d
        → IsReportOf d bytes r → IsReportRefusal d bytes e → ⊥ }
    ensures read_back { (d : DomainValue) (node : ℕ) (cells : CellTable) → IsLawful d
        → node < length d.nodes → IsCellTable cells
        → HasShape cells (length d.flows) d.first d.end
        → IsReportOf d (report_text d node cells) (record { node = node; cells = cells }) }
    ensures fits { (d : DomainValue) (node : ℕ) (cells : CellTable) → IsLawful d
        → node < length d.nodes → IsCellTable cells
        → HasShape cells (length d.flows) d.first d.end
        → length (report_text d node cells) ≤ MAX_REPORT }
{}
