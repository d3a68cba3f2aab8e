//! The cells of one measurement point.

ghost use Rattle.std.specs.Prelude.{◌≡◌, ℕ, ◌+◌, ◌-◌, ◌*◌, ◌<◌, ◌≤◌, All, IfOk, length};
ghost use Rattle.am_cells.specs.Counts.{IsLawfulCell, no_packets, one_packet, together};
ghost use Rattle.am_cells.specs.CellTables.{IsCellTable, HasCell, HasShape, HaveOneShape, AddsTo, AddsAll, cell_in, cell_number, cell_at, total_of};

use crate::cell::{Cell, MAX_COUNT, OFFSET_END};
use std::alloc::{AllocError, Global};
use std::marker::Model;

/// The most cells of a table: as many as the flows of a domain times its reported blocks may be. They take 1.5 MB.
pub const MAX_CELLS: u64 = 32_768;

/// The counters of one measurement point: a [`Cell`] for each flow, numbered from 0, and each block of a range.
#[derive(Drop)]
pub struct Cells {
    flows: u32,
    first: u64,
    end: u64,
    // of each block in order, and in it of each flow
    cells: Vec<Cell>,
    // how many packets are counted in all cells, so that nobody adds them up
    total: u64,
}

impl Model for Cells {
    ghost use Rattle.std.specs.Prelude.{◌≡◌, sum_by};
    ghost use Rattle.am_cells.specs.CellTables.{CellTable, IsCellTable};

    ghost Value = { CellTable };

    ghost view = { λ t. record {
      flows = t.flows;
      first = t.first;
      end = t.end;
      cells = t.cells.items;
    } };

    ghost invariant = { λ t. IsCellTable (record {
      flows = t.flows;
      first = t.first;
      end = t.end;
      cells = t.cells.items;
    }) × (t.total ≡ sum_by (λ c. c.count) t.cells.items) };
}

impl Cells {
    /// A table of cells for so many flows and for the blocks from `first` on and below `end`, which counts nothing yet.
    pub fn new(alloc: Global, flows: u32, first: u64, end: u64) -> Result<Cells, AllocError>
        requires some_flow { 1 ≤ flows }
        requires some_block { first < end }
        requires few { flows * (end - first) ≤ MAX_CELLS }
        ensures shape { IfOk result (λ t. HasShape t flows first end) }
        ensures none { IfOk result (λ t. (f b : ℕ) → cell_at t f b ≡ no_packets) }
        ensures total { IfOk result (λ t. total_of t ≡ 0) }
    {
        let count = flows as usize * (end - first) as usize;
        let cells = Vec::from_elem(alloc, Cell::ZERO, count)?;
        Ok(Cells {
            flows,
            first,
            end,
            cells,
            total: 0,
        })
    }

    /// Counts one packet of this flow and block, with its delay bit and its offset in the block.
    pub fn add(&mut self, flow: u32, block: u64, delay: bool, offset: u64)
        requires there { HasCell self.old flow block }
        requires offset { offset < OFFSET_END }
        requires room { total_of self.old + 1 ≤ MAX_COUNT }
        ensures { AddsTo self.old self.new flow block (one_packet delay offset) }
    {
        let number = self.number_of(flow, block);
        let cell = &mut self.cells[number];
        cell.count_one(delay, offset);
        self.total += 1;
    }

    /// Counts the packets of a cell in the cell of this flow and block.
    pub fn add_cell(&mut self, flow: u32, block: u64, cell: &Cell)
        requires there { HasCell self.old flow block }
        requires lawful { IsLawfulCell cell.now }
        requires room { total_of self.old + cell.now.count ≤ MAX_COUNT }
        ensures { AddsTo self.old self.new flow block cell.now }
    {
        let number = self.number_of(flow, block);
        let here = &mut self.cells[number];
        here.count_all(cell);
        self.total += cell.count;
    }

    /// Counts the packets of all cells of another table of the same shape.
    pub fn merge(&mut self, other: &Cells)
        requires shape { HaveOneShape self.old other.now }
        requires room { total_of self.old + total_of other.now ≤ MAX_COUNT }
        ensures { AddsAll self.old other.now self.new }
    {
        merge_cells(&mut self.cells, other.cells.as_slice());
        self.total += other.total;
    }

    /// The cell of this flow and block.
    pub fn get(&self, flow: u32, block: u64) -> Cell
        requires { HasCell self.now flow block }
        ensures value { result ≡ cell_at self.now flow block }
        ensures lawful { IsLawfulCell result }
        ensures table { IsCellTable self.now }
    {
        self.cells[self.number_of(flow, block)]
    }

    // How many cells stand before that of this flow and block.
    fn number_of(&self, flow: u32, block: u64) -> usize
        requires { HasCell self.now flow block }
        ensures value { result ≡ cell_number self.now flow block }
        ensures below { result < length self.now.cells }
        ensures table { IsCellTable self.now }
    {
        (block - self.first) as usize * self.flows as usize + flow as usize
    }

    /// How many packets are counted in all cells.
    pub fn total(&self) -> u64
        ensures value { result ≡ total_of self.now }
        ensures table { IsCellTable self.now }
    {
        self.total
    }
}

// The packets of each cell are counted in the cell at the same place.
fn merge_cells(cells: &mut [Cell], others: &[Cell])
    requires lengths { length others.now ≡ length cells.old }
    requires lawful { All IsLawfulCell cells.old }
    requires others { All IsLawfulCell others.now }
    requires room { (k : ℕ) → k < length cells.old
        → (cell_in cells.old k).count + (cell_in others.now k).count ≤ MAX_COUNT }
    ensures each { (k : ℕ) → k < length cells.old
        → cell_in cells.new k ≡ together (cell_in cells.old k) (cell_in others.now k) }
    ensures lawful { All IsLawfulCell cells.new }
{
    for (i, more) in others.iter().enumerate() {
        let cell = &mut cells[i];
        cell.count_all(more);
    }
}
