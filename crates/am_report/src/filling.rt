//! A report that is read row by row.

ghost use Rattle.std.specs.Prelude.{◌≡◌, ◌≢◌, ℕ, ◌<◌, List, [], ◌∷◌, ◌++◌, IfOk, IfErr, IfSome, IfNone, OnOk, length};
ghost use Rattle.std.specs.Bool.{OnTrue, OnFalse};
ghost use Rattle.csv.specs.Records.{fields_of};
ghost use Rattle.am_domain.specs.Network.{IsNumberOf, IsNoNode};
ghost use Rattle.am_report.specs.Rows.{RowValue, node_name};
ghost use Rattle.am_report.specs.Reports.{IsTaken, RefusesRow, IsFlowNumber, IsNoFlow};
ghost use Rattle.am_report.specs.Filling.{IsFilling, IsFilled, IsFinished, TellsNode, TellsPair};

use crate::error::ReportError;
use crate::read::Report;
use crate::row::read_row;
use am_cells::{Cells, MAX_COUNT, cells_law};
use am_domain::Domain;
use csv::ByteRecord;
use std::alloc::{AllocError, Global};

/// The cells of the rows that were taken so far, the number of their node, and what comes next.
#[derive(Drop)]
pub(crate) struct Filling {
    /// The node of the first row; none where there was no row yet.
    pub node: Option<u32>,
    pub cells: Cells,
    /// The flow and block of the next row, and its number.
    pub flow: u32,
    pub block: u64,
    pub row: u64,
}

impl Filling {
    /// No rows yet.
    pub(crate) fn new(alloc: Global, domain: &Domain) -> Result<Filling, AllocError>
        ensures sound { IfOk result (λ f. IsFilling domain.now f) }
        ensures filled { IfOk result (λ f. IsFilled domain.now f []) }
    {
        let flows = domain.flows().len() as u32;
        let cells = Cells::new(alloc, flows, domain.first(), domain.end())?;
        Ok(Filling {
            node: None,
            cells,
            flow: 0,
            block: domain.first(),
            row: 2,
        })
    }

    /// Takes the row that comes next.
    pub(crate) fn take(&mut self, domain: &Domain, fields: &ByteRecord) -> Result<(), ReportError>
        requires { IsFilling domain.now self.old }
        ensures sound { OnOk result (IsFilling domain.now self.new) }
        ensures taken { OnOk result ((before : List RowValue)
            → IsFilled domain.now self.old before
            → (r : RowValue) × IsTaken domain.now before (fields_of fields.now) r
            × IsFilled domain.now self.new (before ++ r ∷ [])) }
        ensures refused { IfErr result (λ e. (before : List RowValue)
            → IsFilled domain.now self.old before
            → RefusesRow domain.now before (fields_of fields.now) e) }
    {
        let row = self.row;
        let Some(said) = read_row(fields) else {
            return Err(ReportError::BadRow { row });
        };
        if said.cell.count > MAX_COUNT - self.cells.total() {
            return Err(ReportError::BadRow { row });
        }
        let node = match node_of(domain, self.node, row, said.node) {
            Ok(node) => node,
            Err(error) => return Err(error),
        };
        if let Err(error) = check_flow(domain, self.flow, row, said.flow) {
            return Err(error);
        }
        if self.block == domain.end() {
            return Err(ReportError::NotInOrder { row });
        }
        if said.block != self.block {
            return Err(ReportError::NotInOrder { row });
        }
        self.cells.add_cell(self.flow, self.block, &said.cell);
        self.node = Some(node);
        self.row += 1;
        self.flow += 1;
        if self.flow == domain.flows().len() as u32 {
            self.flow = 0;
            self.block += 1;
        }
        Ok(())
    }

    /// The report, where no further row is wanted.
    pub(crate) fn finish(self, domain: &Domain) -> Result<Report, ReportError>
        requires { IsFilling domain.now self }
        ensures { IsFinished domain.now self result }
    {
        let Filling {
            node,
            cells,
            flow,
            block,
            row: _,
        } = self;
        if block < domain.end() {
            return Err(ReportError::Short { flow, block });
        }
        // what holds of every table of cells
        let total = cells.total();
        prove!(total <= MAX_COUNT);
        cells_law();
        match node {
            Some(node) => Ok(Report { node, cells }),
            None => Err(ReportError::Memory),
        }
    }
}

// The number of the row's node: the node of the first row, if this isn't the first.
fn node_of(domain: &Domain, first: Option<u32>, row: u64, name: &[u8]) -> Result<u32, ReportError>
    requires { IfSome first (λ n. IsNumberOf domain.now.nodes (node_name domain.now n) n) }
    ensures number { IfOk result (λ n. IsNumberOf domain.now.nodes name.now n) }
    ensures same { IfOk result (λ n. IfSome first (λ f. n ≡ f)) }
    ensures refused { IfErr result (λ e. TellsNode domain.now first row name.now e) }
{
    let nodes = domain.nodes();
    if let Some(node) = first {
        if nodes[node as usize].name().as_bytes() == name {
            return Ok(node);
        }
    }
    let Some(node) = node_number(domain, name) else {
        return Err(ReportError::UnknownNode { row });
    };
    match first {
        Some(_) => Err(ReportError::OtherNode { row }),
        None => Ok(node),
    }
}

// The number of the node of this name. None where no node has it.
fn node_number(domain: &Domain, name: &[u8]) -> Option<u32>
    ensures found { IfSome result (λ n. IsNumberOf domain.now.nodes name.now n) }
    ensures none { IfNone result (IsNoNode domain.now.nodes name.now) }
{
    let nodes = domain.nodes();
    for i in 0..nodes.len() {
        let node = &nodes[i];
        if node.name().as_bytes() == name {
            return Some(i as u32);
        }
    }
    None
}

// Whether the row is of the flow that is wanted.
fn check_flow(domain: &Domain, flow: u32, row: u64, name: &[u8]) -> Result<(), ReportError>
    requires { flow < length domain.now.flows }
    ensures number { OnOk result (IsFlowNumber domain.now name.now flow) }
    ensures refused { IfErr result (λ e. TellsPair domain.now flow row name.now e) }
{
    let flows = domain.flows();
    if flows[flow as usize].name().as_bytes() == name {
        return Ok(());
    }
    if has_flow(domain, name) {
        return Err(ReportError::NotInOrder { row });
    }
    Err(ReportError::UnknownFlow { row })
}

// Whether the domain has a flow of this name.
fn has_flow(domain: &Domain, name: &[u8]) -> bool
    ensures found { OnTrue result ((n : ℕ) × IsFlowNumber domain.now name.now n) }
    ensures none { OnFalse result (IsNoFlow domain.now name.now) }
{
    let flows = domain.flows();
    for i in 0..flows.len() {
        let flow = &flows[i];
        if flow.name().as_bytes() == name {
            return true;
        }
    }
    false
}
