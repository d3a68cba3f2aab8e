//! The inputs that commands take whole.
ghost use Rattle.std.specs.Prelude.{◌≡◌, ◌<◌, ◌∷◌, ◌++◌, List, [], length};
ghost use Rattle.am_chain.specs.Chains.{inputs};
ghost use Rattle.am_chain.specs.Gathering.{HasReports};
ghost use Rattle.am_chain.specs.Inputs.{JudgesCapture, JudgesDomain, JudgesReport};
ghost use Rattle.am_control.specs.Plans.{IsPlanOf};
ghost use Rattle.am_chain.specs.NodeCells.{AreWholeCells};
ghost use Rattle.am_meter.specs.MeteredFiles.{capture_of};
ghost use Rattle.am_report.specs.declared.read.Report.{Report};
ghost use Rattle.am_chain.specs.Shown.{TakesInput};

use crate::answer::Stop;
use am_base::{Shelf, read_file};
use am_cells::Cells;
use am_control::{Control, ControlError};
use am_domain::{Domain, MAX_DOMAIN, read_domain};
use am_meter::{NoGate, meter_file};
use am_report::{MAX_REPORT, read_report};
use std::alloc::Global;

/// Takes the domain of the file of this name, which is read to its end.
pub fn take_domain<S: Shelf>(alloc: Global, shelf: &mut S, name: &str) -> Result<Domain, Stop>
    ensures { TakesInput (inputs (S.told shelf.old) (S.faults shelf.old) (S.missed shelf.old))
        (inputs (S.told shelf.new) (S.faults shelf.new) (S.missed shelf.new))
        name.now JudgesDomain (λ domain d. domain ≡ d) result }
{
    let bytes = match read_file(alloc, shelf, name, MAX_DOMAIN) {
        Ok(bytes) => bytes,
        Err(fault) => return Err(Stop::of_file(alloc, name, fault)),
    };
    match read_domain(alloc, &bytes) {
        Ok(domain) => Ok(domain),
        Err(error) => Err(Stop::of_domain(alloc, name, error)),
    }
}

/// Takes the cells of a node over the marked records of its capture, which is read to its end.
pub fn take_cells<S: Shelf>(
    alloc: Global,
    shelf: &mut S,
    domain: &Domain,
    node: u32,
) -> Result<Cells, Stop>
    requires { node < length domain.now.nodes }
    ensures { TakesInput (inputs (S.told shelf.old) (S.faults shelf.old) (S.missed shelf.old))
        (inputs (S.told shelf.new) (S.faults shelf.new) (S.missed shelf.new))
        (capture_of domain.now node) (JudgesCapture domain.now.kind)
        (λ cells ms. AreWholeCells domain.now node ms cells) result }
{
    match meter_file(alloc, domain, node, shelf, &NoGate) {
        Ok(cells) => {
            // They are a table, whatever was counted.
            let _total = cells.total();
            Ok(cells)
        }
        Err(error) => {
            let name = domain.nodes()[node as usize].capture();
            Err(Stop::of_stream(alloc, name, error))
        }
    }
}

/// Takes the report of one of the domain's nodes, which is read to its end, into a controller of the domain, whatever
/// reports it has.
pub fn take_report<S: Shelf>(
    alloc: Global,
    shelf: &mut S,
    domain: &Domain,
    name: &str,
    control: &mut Control,
) -> Result<(), Stop>
    requires plan { IsPlanOf domain.now control.old.plan }
    requires nodes { length control.old.reports ≡ length domain.now.nodes }
    ensures { (taken : List Report) → HasReports domain.now control.old taken → TakesInput
        (inputs (S.told shelf.old) (S.faults shelf.old) (S.missed shelf.old))
        (inputs (S.told shelf.new) (S.faults shelf.new) (S.missed shelf.new))
        name.now (JudgesReport domain.now taken)
        (λ done r. HasReports domain.now control.new (taken ++ r ∷ [])) result }
{
    let bytes = match read_file(alloc, shelf, name, MAX_REPORT) {
        Ok(bytes) => bytes,
        Err(fault) => return Err(Stop::of_file(alloc, name, fault)),
    };
    let nodes = domain.nodes();
    let report = match read_report(alloc, domain, &bytes) {
        Ok(report) => report,
        Err(error) => return Err(Stop::of_report(alloc, name, domain, error)),
    };
    match control.accept(report.node, &report.cells) {
        Ok(()) => Ok(()),
        Err(ControlError::Memory) => Err(Stop::NoMemory),
        Err(_) => {
            let node = nodes[report.node as usize].name();
            Err(Stop::report_twice(alloc, name, node))
        }
    }
}
