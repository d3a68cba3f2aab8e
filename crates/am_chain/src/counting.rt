//! A capture whose marked records of one flow are counted.
ghost use Rattle.std.specs.Prelude.{◌≡◌, ◌+◌, ◌^◌, ◌<◌, ◌≤◌, ℕ, OnOk};
ghost use Rattle.am_ip6.specs.declared.marks.Place.TheVariants.{HopByHop};
ghost use Rattle.am_chain.specs.Chains.{inputs};
ghost use Rattle.am_chain.specs.Counting.{one_in};
ghost use Rattle.am_chain.specs.Inputs.{JudgesCapture};
ghost use Rattle.am_chain.specs.Shown.{TakesInput};
ghost use Rattle.am_chain.specs.Tables.{count_in};
ghost use Rattle.am_chain.specs.Tallies.{tally, other, IsCounted};

use crate::answer::Stop;
use crate::table::{Side, Table};
use am_base::Shelf;
use am_clock::{MAX_TIME, Timing};
use am_ip6::Place;
use am_meter::{Marked, Stream};
use std::alloc::{AllocError, Global};

/// One of the two points: which flow is counted there, in blocks of which length, how much later the point sees them, in
/// nanoseconds, and on which side of the table.
#[derive(Clone, Copy)]
pub struct Point {
    pub timing: Timing,
    pub flow: u32,
    pub shift: u64,
    pub side: Side,
}

impl Point {
    /// Counts the records of a capture, all of this side, that are marked in a Hop-by-Hop header and of this flow: each in
    /// the block that it belongs to. The table has nothing on that side before, and its other side stays as it is.
    pub fn count_file<S: Shelf>(
        &self,
        alloc: Global,
        shelf: &mut S,
        name: &str,
        table: &mut Table,
    ) -> Result<(), Stop>
        requires shift { self.now.shift ≤ MAX_TIME }
        requires counted { IsCounted table.old }
        requires fresh { (b : ℕ) → tally table.old self.now.side b ≡ 0 }
        ensures takes { TakesInput (inputs (S.told shelf.old) (S.faults shelf.old)
            (S.missed shelf.old))
            (inputs (S.told shelf.new) (S.faults shelf.new) (S.missed shelf.new))
            name.now (JudgesCapture HopByHop)
            (λ done ms. (b : ℕ) → tally table.new self.now.side b
            ≡ count_in self.now.timing self.now.flow self.now.shift ms b)
            result }
        ensures counted { OnOk result (IsCounted table.new) }
        ensures other { OnOk result ((b : ℕ) → tally table.new (other self.now.side) b
            ≡ tally table.old (other self.now.side) b) }
    {
        let mut stream = match Stream::open(alloc, shelf, name, Place::HopByHop) {
            Ok(stream) => stream,
            Err(error) => return Err(Stop::of_stream(alloc, name, error)),
        };
        'records: loop {
            let marked = match stream.next(shelf) {
                Ok(Some(marked)) => marked,
                Ok(None) => return Ok(()),
                Err(error) => return Err(Stop::of_stream(alloc, name, error)),
            };
            let Ok(()) = self.count(&marked, table) else {
                return Err(Stop::NoMemory);
            };
        }
    }

    // Counts one marked record, where it is of the flow and belongs to a block.
    fn count(&self, marked: &Marked, table: &mut Table) -> Result<(), AllocError>
        requires shift { self.now.shift ≤ MAX_TIME }
        requires counted { IsCounted table.old }
        requires fits { (b : ℕ) → tally table.old self.now.side b + 1 < 2 ^ 64 }
        ensures counted { OnOk result (IsCounted table.new) }
        ensures here { OnOk result ((b : ℕ) → tally table.new self.now.side b
            ≡ tally table.old self.now.side b
            + one_in self.now.timing self.now.flow self.now.shift b marked.now) }
        ensures there { OnOk result ((b : ℕ) → tally table.new (other self.now.side) b
            ≡ tally table.old (other self.now.side) b) }
    {
        if marked.mark.flow() != self.flow {
            return Ok(());
        }
        match self.timing.attribute_near(
            table.last(),
            marked.reading,
            marked.mark.loss(),
            self.shift,
        ) {
            Some(block) => table.count(self.side, block),
            None => Ok(()),
        }
    }
}
