//! What entered and what left, block by block, and the table of it.
ghost use Rattle.std.specs.Prelude.{◌≡◌, ◌+◌, ◌^◌, ◌<◌, ◌++◌, ◌-ℤ◌, pos, ℕ, OnOk, IfOk, string_bytes};
ghost use Rattle.am_chain.specs.Tables.{IsCountTable, row_line, table_text};
ghost use Rattle.am_chain.specs.Tallies.{counts_row};
ghost use Rattle.am_chain.specs.declared.table.Side.{Side};

use std::alloc::{AllocError, Global};
use std::collections::BTreeMap;
use std::fmt::Write;

/// The first line of the table: the names of its columns.
const COLUMNS: &str = "block,in,out,lost\n";

/// About how many bytes a line has.
const LINE_SIZE: usize = 24;

/// How many packets of a block entered and how many left.
#[derive(Clone, Copy, Debug, PartialEq, Eq)]
pub struct Counts {
    pub entered: u64,
    pub left: u64,
}

// No packets.
const NO_PACKETS: Counts = Counts {
    entered: 0,
    left: 0,
};

/// One of the two points: packets enter at the first, and leave at the second.
#[derive(Clone, Copy, Debug, PartialEq, Eq)]
pub enum Side {
    Entered,
    Left,
}

/// The counts of each block in which a packet entered or left. Those of the block that was counted last stand beside the
/// map, since the next packet mostly is of the same block.
#[derive(Drop)]
pub struct Table {
    counts: BTreeMap<u64, Counts>,
    block: u64,
    here: Counts,
}

impl Table {
    ghost use Rattle.std.specs.Prelude.{◌+◌, None};
    ghost use Rattle.std.specs.BTreeMap.{get};
    ghost use Rattle.am_chain.specs.Tallies.{settled, tally, other, IsSettled, IsCounted, HasRows, rows_of, one_at};
    ghost use Rattle.am_chain.specs.declared.table.Side.TheVariants.{Entered, Left};

    /// The table of no packets.
    pub fn new(alloc: Global) -> Table
        ensures counted { IsCounted result }
        ensures entered { (b : ℕ) → tally result Entered b ≡ 0 }
        ensures left { (b : ℕ) → tally result Left b ≡ 0 }
    {
        Table {
            counts: BTreeMap::new(alloc),
            block: 0,
            here: NO_PACKETS,
        }
    }

    /// The block that was counted last; 0 where there is none.
    pub fn last(&self) -> u64
        ensures { result ≡ self.now.block }
    {
        self.block
    }

    /// Counts one more packet of a block on one side.
    pub fn count(&mut self, side: Side, block: u64) -> Result<(), AllocError>
        requires counted { IsCounted self.old }
        requires fits { tally self.old side block + 1 < 2 ^ 64 }
        ensures counted { OnOk result (IsCounted self.new) }
        ensures here { OnOk result ((b : ℕ) →
            tally self.new side b ≡ tally self.old side b + one_at block b) }
        ensures there { OnOk result
            ((b : ℕ) → tally self.new (other side) b ≡ tally self.old (other side) b) }
    {
        self.turn(block)?;
        match side {
            Side::Entered => self.here.entered += 1,
            Side::Left => self.here.left += 1,
        }
        Ok(())
    }

    // Turns to a block: its counts stand beside the map.
    fn turn(&mut self, block: u64) -> Result<(), AllocError>
        requires { IsCounted self.old }
        ensures counted { OnOk result (IsCounted self.new) }
        ensures block { OnOk result (self.new.block ≡ block) }
        ensures same { OnOk result ((side : Side) (b : ℕ) →
            tally self.new side b ≡ tally self.old side b) }
    {
        if self.block == block {
            return Ok(());
        }
        self.change(block)
    }

    // Turns to another block.
    #[cold]
    #[inline(never)]
    fn change(&mut self, block: u64) -> Result<(), AllocError>
        requires { IsCounted self.old }
        ensures counted { OnOk result (IsCounted self.new) }
        ensures block { OnOk result (self.new.block ≡ block) }
        ensures same { OnOk result ((side : Side) (b : ℕ) →
            tally self.new side b ≡ tally self.old side b) }
    {
        self.settle()?;
        self.here = match self.counts.get(&block) {
            Some(counts) => *counts,
            None => NO_PACKETS,
        };
        self.block = block;
        Ok(())
    }

    // Writes the counts that stand beside the map into it.
    fn settle(&mut self) -> Result<(), AllocError>
        requires { IsCounted self.old }
        ensures settled { OnOk result (IsSettled self.new) }
        ensures same { OnOk result ((side : Side) (b : ℕ) →
            settled self.new side b ≡ tally self.old side b) }
        ensures block { self.new.block ≡ self.old.block }
        ensures here { self.new.here ≡ self.old.here }
    {
        if self.here.entered == 0 && self.here.left == 0 {
            return Ok(());
        }
        self.counts.insert(self.block, self.here)?;
        Ok(())
    }

    /// The text of the table: a line with the columns' names, and then one for each block, ascending.
    pub fn text(&mut self, alloc: Global) -> Result<String, AllocError>
        requires { IsCounted self.old }
        ensures table { IfOk result (λ text. HasRows self.old (rows_of self.new)) }
        ensures text { IfOk result (λ text. string_bytes text ≡ table_text (rows_of self.new)) }
    {
        self.settle()?;
        self.lines(alloc)
    }

    // The text of the table of the map.
    fn lines(&self, alloc: Global) -> Result<String, AllocError>
        requires { IsSettled self.now }
        ensures table { IfOk result (λ text. IsCountTable
            (settled self.now Entered) (settled self.now Left) (rows_of self.now)) }
        ensures text { IfOk result (λ text. string_bytes text ≡ table_text (rows_of self.now)) }
    {
        let room = self.counts.len().saturating_mul(LINE_SIZE);
        let mut text = String::with_capacity(alloc, room.saturating_add(COLUMNS.len()))?;
        text.push_str(COLUMNS)?;
        for (block, counts) in &self.counts {
            push_row(&mut text, *block, *counts)?;
        }
        Ok(text)
    }
}

// Adds the line of a block.
fn push_row(text: &mut String, block: u64, counts: Counts) -> Result<(), AllocError>
    ensures { OnOk result
        (string_bytes text.new ≡ string_bytes text.old ++ row_line (counts_row block counts)) }
{
    let entered = counts.entered;
    let left = counts.left;
    let lost = lost(entered, left);
    write!(text, "{block},{entered},{left},{lost}\n")
}

// How many packets entered and didn't leave; negative where more left.
fn lost(entered: u64, left: u64) -> i128
    ensures { result ≡ pos entered -ℤ pos left }
{
    i128::from(entered) - i128::from(left)
}
