//! A cell: what is counted of the packets of one flow and block.

ghost use Rattle.std.specs.Prelude.{◌≡◌, ◌+◌, ◌<◌, ◌≤◌, ◌↔◌, IsTrue};
ghost use Rattle.am_cells.specs.Counts.{IsLawfulCell, one_packet, together};

/// The most packets that a table of cells counts, and so the most of a cell. A capture has fewer records, and the sums
/// of so many offsets are far below 2^128.
pub const MAX_COUNT: u64 = 1 << 40;

/// Each offset is below this: a block and its window last at most two and a half times 2^40 nanoseconds, and a
/// node's shift at most 2^40.
pub const OFFSET_END: u64 = 1 << 42;

/// What is counted of the packets of one flow and block at one point: how many they are, the sum of their offsets in
/// the block in nanoseconds, and both again over those with the delay bit.
// The numbers of eight bytes stand together, so that a cell takes 48 bytes.
#[derive(Clone, Copy, Debug, PartialEq, Eq)]
pub struct Cell {
    pub count: u64,
    pub dcount: u64,
    pub sum: u128,
    pub dsum: u128,
}

const _: () = prove!(size_of::<Cell>() == 48);

impl Cell {
    /// The counts of no packets.
    pub(crate) const ZERO: Cell = Cell {
        count: 0,
        dcount: 0,
        sum: 0,
        dsum: 0,
    };

    /// Whether the numbers are such as may be counted.
    pub fn is_lawful(&self) -> bool
        ensures { IsTrue result ↔ IsLawfulCell self.now }
    {
        self.count <= MAX_COUNT
            && self.sum <= u128::from(self.count) * u128::from(OFFSET_END)
            && self.dcount <= self.count
            && self.dsum <= u128::from(self.dcount) * u128::from(OFFSET_END)
            && self.dsum <= self.sum
    }

    // One packet more is counted.
    pub(crate) fn count_one(&mut self, delay: bool, offset: u64)
        requires lawful { IsLawfulCell self.old }
        requires room { self.old.count < MAX_COUNT }
        requires offset { offset < OFFSET_END }
        ensures counts { self.new ≡ together self.old (one_packet delay offset) }
        ensures lawful { IsLawfulCell self.new }
    {
        self.count += 1;
        self.sum += u128::from(offset);
        if delay {
            self.dcount += 1;
            self.dsum += u128::from(offset);
        }
    }

    // The packets of another cell are counted too.
    pub(crate) fn count_all(&mut self, more: &Cell)
        requires lawful { IsLawfulCell self.old }
        requires more { IsLawfulCell more.now }
        requires room { self.old.count + more.now.count ≤ MAX_COUNT }
        ensures counts { self.new ≡ together self.old more.now }
        ensures lawful { IsLawfulCell self.new }
    {
        self.count += more.count;
        self.sum += more.sum;
        self.dcount += more.dcount;
        self.dsum += more.dsum;
    }
}

/// A cell with its flow and block: a row of a report.
#[derive(Clone, Copy, Debug, PartialEq, Eq)]
pub struct Row {
    pub flow: u32,
    pub block: u64,
    pub cell: Cell,
}
