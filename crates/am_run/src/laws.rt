//! What is known of commands, whatever their inputs are: laws, each the contract of a function that does nothing.
ghost use Rattle.am_run.specs.Agreeing.{LossIsAudit};
ghost use Rattle.am_run.specs.Auditing.{ReportsIgnoreWorkers, TablesIgnoreWorkers};
ghost use Rattle.am_run.specs.Laws.{Laws};
ghost use Rattle.am_run.specs.Undoing.{StripUndoesMark, RunsUndo};

use am_cells::cells_law;
use am_chain::laws::reports_law;
use am_domain::domain_law;
use am_insert::{address_law, insert_law, open_law, strip_law};
use am_meter::marks_are_one;
use am_pcap::{beginnings_agree, captures_are_one, captures_are_spelled, frames_are_one};
use am_report::report_law;

/// What is taken of a capture, a domain file or a report excludes a refusal of the same bytes.
pub fn laws()
    ensures { Laws }
{
    captures_are_one();
    beginnings_agree();
    marks_are_one();
    domain_law();
    report_law();
    frames_are_one();
}

/// What `mark` printed of a capture, and has at most 2^40 bytes, `strip` turns back into that capture, under the same
/// domain.
pub fn strip_undoes_mark()
    ensures captures { StripUndoesMark }
    // The same of two runs, each with its domain file.
    ensures runs { RunsUndo }
{
    laws();
    captures_are_one();
    captures_are_spelled();
    insert_law();
    open_law();
    address_law();
    strip_law();
}

/// The number of workers of a domain changes nothing of what `meter` and `audit` print.
pub fn workers_change_nothing()
    ensures reports { ReportsIgnoreWorkers }
    ensures tables { TablesIgnoreWorkers }
{}

/// Over the reports that `meter` prints of all nodes of a domain, in any order, `loss` prints what `audit` prints over
/// their captures.
pub fn loss_is_audit()
    ensures { LossIsAudit }
{
    cells_law();
    report_law();
    reports_law();
}
