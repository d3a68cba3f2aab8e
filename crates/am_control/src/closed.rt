//! The loss table of a controller that has the reports of all nodes.

ghost use Rattle.std.specs.Prelude.{◌≡◌, ◌+◌, ◌-◌, ◌*◌, ◌<◌, ◌≤◌, ◌++◌, All, Some, length, slice_get, vec_capacity};
ghost use Rattle.am_graph.specs.Clusters.{count_of};
ghost use Rattle.am_control.specs.Controls.{HasRow, IsComplete, IsScope, measured_of};
ghost use Rattle.am_control.specs.Passages.{ArePassages, FitsBoth, block_passages};
ghost use Rattle.am_control.specs.Rows.{loss_row, flow_rows, loss_rows};

use crate::control::Control;
use crate::passage::Passage;
use crate::row::{LossRow, Scope, row_of};
use std::marker::Model;

/// The reports of all nodes of a domain, and the rows of the loss table that they give.
#[derive(Drop)]
pub struct Closed<'a> {
    control: &'a Control,
}

impl<'a> Model for Closed<'a> {
    ghost use Rattle.am_control.specs.Controls.{IsComplete, measured_of};
    ghost use Rattle.am_control.specs.Rows.{Measured};

    ghost Value = { Measured };

    ghost view = { λ c. measured_of c.control.now };

    ghost invariant = { λ c. IsComplete c.control.now };
}

impl<'a> Closed<'a> {
    // The table of a controller that has all reports.
    pub(crate) fn of(control: &'a Control) -> Closed<'a>
        requires { IsComplete control.now }
        ensures { result ≡ measured_of control.now }
    {
        Closed { control }
    }

    /// How many rows there are: one for each scope, flow and reported block.
    pub fn rows(&self) -> u64
        ensures { result ≡ length (loss_rows self.now) }
    {
        let scopes = u64::from(self.control.clusters()) + 1;
        scopes * u64::from(self.control.flows()) * (self.control.end() - self.control.first())
    }

    /// The row of this number, counted from 0: the clusters come first, then the network; in each the flows; and in
    /// each of these the reported blocks, ascending.
    pub fn row(&self, k: u64) -> LossRow
        requires { k < length (loss_rows self.now) }
        ensures value { slice_get (loss_rows self.now) k ≡ Some result }
        ensures there { HasRow self.now.plan result.flow result.block }
    {
        let blocks = self.control.end() - self.control.first();
        let flows = u64::from(self.control.flows());
        let scope = k / blocks / flows;
        let flow = k / blocks % flows;
        let block = self.control.first() + k % blocks;
        if scope < u64::from(self.control.clusters()) {
            return self.row_at(Scope::Cluster(scope as u32), flow as u32, block);
        }
        self.row_at(Scope::Network, flow as u32, block)
    }

    /// How many clusters there are.
    pub(crate) fn clusters(&self) -> u32
        ensures { result ≡ count_of self.now.plan.clusters }
    {
        self.control.clusters()
    }

    /// How many flows there are.
    pub(crate) fn flows(&self) -> u32
        ensures { result ≡ self.now.plan.flows }
    {
        self.control.flows()
    }

    /// The first block that is reported.
    pub(crate) fn first(&self) -> u64
        ensures { result ≡ self.now.plan.first }
    {
        self.control.first()
    }

    /// The first block behind those that are reported.
    pub(crate) fn end(&self) -> u64
        ensures value { result ≡ self.now.plan.end }
        ensures some { self.now.plan.first < self.now.plan.end }
    {
        self.control.end()
    }

    /// How many passages a scope has: one of each reported block and flow.
    pub(crate) fn passages(&self) -> usize
        ensures { result ≡ self.now.plan.flows * (self.now.plan.end - self.now.plan.first) }
    {
        self.control.flows() as usize * (self.control.end() - self.control.first()) as usize
    }

    /// Puts the passages of a scope in place of those that there are. No memory is taken.
    // All at once, in the order of a node's cells: so these are read as they lie in memory.
    pub(crate) fn put_passages(&self, scope: Scope, passages: &mut Vec<Passage>)
        requires scope { IsScope self.now.plan scope }
        requires room { self.now.plan.flows * (self.now.plan.end - self.now.plan.first)
            ≤ vec_capacity passages.old }
        ensures passages { ArePassages self.now scope passages.new.items }
        ensures room { vec_capacity passages.new ≡ vec_capacity passages.old }
    {
        passages.clear();
        for block in self.first()..self.end() {
            self.add_block(scope, block, passages);
        }
    }

    // Adds the passages of a block after those that there are.
    fn add_block(&self, scope: Scope, block: u64, passages: &mut Vec<Passage>)
        requires scope { IsScope self.now.plan scope }
        requires from { self.now.plan.first ≤ block }
        requires until { block < self.now.plan.end }
        requires room { length passages.old.items + self.now.plan.flows
            ≤ vec_capacity passages.old }
        requires fit { All FitsBoth passages.old.items }
        ensures passages { passages.new.items ≡ passages.old.items
            ++ block_passages self.now scope block }
        ensures fit { All FitsBoth passages.new.items }
        ensures room { vec_capacity passages.new ≡ vec_capacity passages.old }
    {
        let entering = self.control.entering(scope);
        let leaving = self.control.leaving(scope);
        for flow in 0..self.flows() {
            let came = self.control.passed(entering, flow, block);
            let went = self.control.passed(leaving, flow, block);
            passages.push_reserved(Passage { came, went });
        }
    }

    /// Puts the rows of a flow in a scope that has these passages, one for each reported block, in place of those that
    /// there are. No memory is taken.
    // Apart from the writing of the lines: so the passages of several blocks are on their way from memory at once.
    pub(crate) fn put_rows(
        &self,
        scope: Scope,
        flow: u32,
        passages: &[Passage],
        rows: &mut Vec<LossRow>,
    )
        requires passages { ArePassages self.now scope passages.now }
        requires flow { flow < self.now.plan.flows }
        requires room { self.now.plan.end - self.now.plan.first ≤ vec_capacity rows.old }
        ensures rows { rows.new.items ≡ flow_rows self.now scope flow }
        ensures room { vec_capacity rows.new ≡ vec_capacity rows.old }
    {
        rows.clear();
        for block in self.first()..self.end() {
            rows.push_reserved(self.row_from(scope, flow, block, passages));
        }
    }

    // The row of a flow and a block, from the passages of its scope.
    #[inline(always)]
    fn row_from(&self, scope: Scope, flow: u32, block: u64, passages: &[Passage]) -> LossRow
        requires passages { ArePassages self.now scope passages.now }
        requires there { HasRow self.now.plan flow block }
        ensures { result ≡ loss_row self.now scope flow block }
    {
        let flows = self.control.flows() as usize;
        let number = (block - self.first()) as usize * flows + flow as usize;
        let passage = &passages[number];
        row_of(scope, flow, block, &passage.came, &passage.went)
    }

    /// The row of a scope, a flow and a block.
    #[inline(always)]
    pub(crate) fn row_at(&self, scope: Scope, flow: u32, block: u64) -> LossRow
        requires scope { IsScope self.now.plan scope }
        requires there { HasRow self.now.plan flow block }
        ensures value { result ≡ loss_row self.now scope flow block }
        ensures flow { result.flow ≡ flow }
        ensures block { result.block ≡ block }
    {
        let came = self
            .control
            .passed(self.control.entering(scope), flow, block);
        let went = self
            .control
            .passed(self.control.leaving(scope), flow, block);
        row_of(scope, flow, block, &came, &went)
    }
}
