//! The controller: it takes the report of each node once.

ghost use Rattle.std.specs.Prelude.{◌≡◌, ◌<◌, None, replicate, length, IfOk, IfErr, OnOk, OnErr};
ghost use Rattle.am_cells.specs.CellTables.{HasShape};
ghost use Rattle.am_cells.specs.Counts.{IsLawfulCell};
ghost use Rattle.am_graph.specs.Clusters.{AreClusters, ArePartedAt, count_of};
ghost use Rattle.am_graph.specs.Graphs.{graph_of};
ghost use Rattle.am_control.specs.Controls.{Accepts, HasPlanShape, HasRow, IsComplete, IsControl, IsMeasuredBy, IsScope, IsSide, RefusesReport, TellsMissing, measured_of};
ghost use Rattle.am_control.specs.Plans.{IsPlanOf, entering, leaving};
ghost use Rattle.am_control.specs.Rows.{FitsRow, node_cell, side_cell};

use crate::closed::Closed;
use crate::error::ControlError;
use crate::row::Scope;
use crate::sides::{entries_of, exits_of};
use am_cells::{Cell, Cells, cells_law};
use am_domain::Domain;
use am_graph::{Clusters, Graph, find_clusters};
use std::alloc::{AllocError, Global};
use std::marker::Model;

/// The reports of a domain's nodes, as they come in: of each node at most one.
#[derive(Drop)]
pub struct Control {
    alloc: Global,
    clusters: Clusters,
    // the nodes at which no link ends, and those at which none begins
    entries: Vec<u32>,
    exits: Vec<u32>,
    flows: u32,
    first: u64,
    end: u64,
    // of each node the cells of its report
    reports: Vec<Option<Cells>>,
}

impl Model for Control {
    ghost use Rattle.am_control.specs.Controls.{ControlValue, IsControl};

    ghost Value = { ControlValue };

    ghost view = { λ c. record {
      plan = record {
        clusters = c.clusters;
        entries = c.entries.items;
        exits = c.exits.items;
        flows = c.flows;
        first = c.first;
        end = c.end;
      };
      reports = c.reports.items;
    } };

    ghost invariant = { λ c. IsControl (record {
      plan = record {
        clusters = c.clusters;
        entries = c.entries.items;
        exits = c.exits.items;
        flows = c.flows;
        first = c.first;
        end = c.end;
      };
      reports = c.reports.items;
    }) };
}

impl Control {
    /// A controller for the nodes of a domain, which has no report yet.
    pub fn new(alloc: Global, domain: &Domain) -> Result<Control, AllocError>
        ensures plan { IfOk result (λ c. IsPlanOf domain.now c.plan) }
        ensures none { IfOk result (λ c. c.reports ≡ replicate (length domain.now.nodes) None) }
    {
        let clusters = clusters_of(alloc, domain)?;
        let nodes = domain.nodes().len();
        let entries = entries_of(alloc, domain.edges(), nodes as u32)?;
        let exits = exits_of(alloc, domain.edges(), nodes as u32)?;
        let reports = no_reports(alloc, nodes)?;
        Ok(Control {
            alloc,
            clusters,
            entries,
            exits,
            flows: domain.flows().len() as u32,
            first: domain.first(),
            end: domain.end(),
            reports,
        })
    }

    /// Takes the report of a node: the cells that it counted.
    ///
    /// `ReportTwice`: there is one already. After a refusal nothing changed.
    pub fn accept(&mut self, node: u32, cells: &Cells) -> Result<(), ControlError>
        requires node { node < length self.old.reports }
        requires shape { HasPlanShape self.old.plan cells.now }
        ensures accepted { OnOk result (Accepts self.old self.new node cells.now) }
        ensures refused { IfErr result (λ e. RefusesReport self.old node e) }
        ensures unchanged { OnErr result (self.new ≡ self.old) }
    {
        if self.reports[node as usize].is_some() {
            return Err(ControlError::ReportTwice { node });
        }
        let Ok(copy) = copy_of(self.alloc, self.flows, self.first, self.end, cells) else {
            return Err(ControlError::Memory);
        };
        self.reports[node as usize] = Some(copy);
        Ok(())
    }

    /// The loss table, once there is a report of each node.
    ///
    /// `MissingReport`: there is none of this node, the first such.
    pub fn finish(&self) -> Result<Closed<'_>, ControlError>
        ensures measured { IfOk result (λ m. IsMeasuredBy self.now m) }
        ensures missing { IfErr result (λ e. TellsMissing self.now e) }
    {
        for node in 0..self.reports.len() {
            if self.reports[node].is_none() {
                return Err(ControlError::MissingReport { node: node as u32 });
            }
        }
        Ok(Closed::of(self))
    }

    /// How many clusters there are.
    pub(crate) fn clusters(&self) -> u32
        ensures value { result ≡ count_of self.now.plan.clusters }
        ensures control { IsControl self.now }
    {
        self.clusters.count()
    }

    /// How many flows there are.
    pub(crate) fn flows(&self) -> u32
        ensures value { result ≡ self.now.plan.flows }
        ensures control { IsControl self.now }
    {
        self.flows
    }

    /// The first block that is reported.
    pub(crate) fn first(&self) -> u64
        ensures value { result ≡ self.now.plan.first }
        ensures control { IsControl self.now }
    {
        self.first
    }

    /// The first block behind those that are reported.
    pub(crate) fn end(&self) -> u64
        ensures value { result ≡ self.now.plan.end }
        ensures control { IsControl self.now }
    {
        self.end
    }

    /// The nodes where packets enter a scope.
    #[inline(always)]
    pub(crate) fn entering(&self, scope: Scope) -> &[u32]
        requires { IsScope self.now.plan scope }
        ensures value { result.now ≡ entering self.now.plan scope }
        ensures side { IsSide (length self.now.reports) result.now }
    {
        match scope {
            Scope::Cluster(k) => self.clusters.starts(k),
            Scope::Network => self.entries.as_slice(),
        }
    }

    /// The nodes where they leave it.
    #[inline(always)]
    pub(crate) fn leaving(&self, scope: Scope) -> &[u32]
        requires { IsScope self.now.plan scope }
        ensures value { result.now ≡ leaving self.now.plan scope }
        ensures side { IsSide (length self.now.reports) result.now }
    {
        match scope {
            Scope::Cluster(k) => self.clusters.ends(k),
            Scope::Network => self.exits.as_slice(),
        }
    }

    /// What passed the nodes of a side, of one flow and block.
    #[inline(always)]
    pub(crate) fn passed(&self, side: &[u32], flow: u32, block: u64) -> Cell
        requires complete { IsComplete self.now }
        requires side { IsSide (length self.now.reports) side.now }
        requires there { HasRow self.now.plan flow block }
        ensures value { result ≡ side_cell (measured_of self.now).cells flow block side.now }
        ensures fits { FitsRow result }
    {
        let mut all = Cell {
            count: 0,
            dcount: 0,
            sum: 0,
            dsum: 0,
        };
        for node in side {
            let cell = self.cell(*node, flow, block);
            all.count += cell.count;
            all.dcount += cell.dcount;
            all.sum += cell.sum;
            all.dsum += cell.dsum;
        }
        all
    }

    // The cell of a flow and block at a node.
    #[inline(always)]
    fn cell(&self, node: u32, flow: u32, block: u64) -> Cell
        requires complete { IsComplete self.now }
        requires node { node < length self.now.reports }
        requires there { HasRow self.now.plan flow block }
        ensures value { result ≡ node_cell (measured_of self.now).cells flow block node }
        ensures lawful { IsLawfulCell result }
    {
        match &self.reports[node as usize] {
            Some(cells) => cells.get(flow, block),
            None => unreachable!(),
        }
    }
}

// The clusters of a domain's network.
fn clusters_of(alloc: Global, domain: &Domain) -> Result<Clusters, AllocError>
    ensures clusters { IfOk result (λ c. AreClusters (graph_of domain.now) c) }
    ensures parted { IfOk result (λ c. ArePartedAt (graph_of domain.now) c) }
{
    let graph = Graph::of(alloc, domain)?;
    find_clusters(alloc, &graph)
}

// No report of each of so many nodes.
fn no_reports(alloc: Global, nodes: usize) -> Result<Vec<Option<Cells>>, AllocError>
    ensures { IfOk result (λ v. v.items ≡ replicate nodes None) }
{
    let mut reports = Vec::with_capacity(alloc, nodes)?;
    for _node in 0..nodes {
        reports.push(None)?;
    }
    Ok(reports)
}

// The same cells again.
fn copy_of(
    alloc: Global,
    flows: u32,
    first: u64,
    end: u64,
    cells: &Cells,
) -> Result<Cells, AllocError>
    requires { HasShape cells.now flows first end }
    ensures { IfOk result (λ t. t ≡ cells.now) }
{
    cells_law();
    let total = cells.total();
    let mut copy = Cells::new(alloc, flows, first, end)?;
    copy.merge(cells);
    let copied = copy.total();
    prove!(copied == total);
    Ok(copy)
}
