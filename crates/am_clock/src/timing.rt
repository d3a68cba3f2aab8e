//! The numbers of a measurement's time, and which block a record belongs to.

ghost use Rattle.std.specs.Prelude.{◌≡◌, ℕ, ◌+◌, ◌*◌, ◌/◌, ◌%◌, ◌<◌, ◌≤◌, IsTrue, ◌↔◌, IfOk, IfErr, IfSome, IfNone, Ok, Err, Some, None};
ghost use Rattle.am_clock.specs.Times.{Times, times_of, half, IsTiming, parity, IsMarkedIn, belongs_to};
ghost use Rattle.am_clock.specs.Epochs.{IsEpoch, Means};
ghost use Rattle.am_clock.specs.Refusals.{IsFirstFault};
ghost use Rattle.am_clock.specs.Covered.{StartsIn, EndsIn, IsCovered, IsFirstFrom, IsCountUntil};

use std::marker::Model;

/// The longest block, and the longest delay of a link, in nanoseconds: 2^40, about 18 minutes. It bounds the width
/// of a window and its shift, so that a reading's offset in its block stays below 2^42.
pub const MAX_TIME: u64 = 1 << 40;

/// The numbers of a measurement's time, all in nanoseconds: how long a block lasts, how far two clocks
/// may differ, and the least and the greatest delay of a link.
///
/// The guard band, which is the skew and the spread of the delay, is below half a block (RFC 9341,
/// section 5).
#[derive(Clone, Copy, Debug, PartialEq, Eq)]
pub struct Timing {
    block: u64,
    skew: u64,
    delay_min: u64,
    delay_max: u64,
}

impl Model for Timing {
    ghost use Rattle.am_clock.specs.Times.{Times, times_of, IsTiming};

    ghost Value = { Times };

    ghost view = { λ t. times_of t.block t.skew t.delay_min t.delay_max };

    ghost invariant = { λ t. IsTiming (times_of t.block t.skew t.delay_min t.delay_max) };

    ghost inverse = { λ t. record { block = t.block; skew = t.skew; delay_min = t.delay_min; delay_max = t.delay_max } };
}

/// Why four numbers are no timing. The first fault in this order is the one that is told.
#[derive(Clone, Copy, Debug, PartialEq, Eq)]
pub enum TimingError {
    /// The block lasts no time.
    ZeroBlock,
    /// The block has an odd number of nanoseconds, so it has no half.
    OddBlock,
    /// The block lasts more than 2^40 nanoseconds.
    BlockTooLong,
    /// The greatest delay is more than 2^40 nanoseconds.
    DelayTooLong,
    /// The least delay is above the greatest.
    BoundsCrossed,
    /// The guard band is not below half a block, so a packet of one block could be taken for one of
    /// another (RFC 9341, section 5). Both are in nanoseconds.
    GuardTooWide { guard: u128, half: u64 },
}

impl Timing {
    /// The timing with these numbers, all in nanoseconds, or the first fault that they have, in the
    /// order of `TimingError`.
    pub fn new(block: u64, skew: u64, delay_min: u64, delay_max: u64) -> Result<Timing, TimingError>
        ensures ok { IfOk result (λ t. t ≡ times_of block skew delay_min delay_max) }
        ensures valid { IfOk result (λ t. IsTiming t) }
        ensures accepted { IsTiming (times_of block skew delay_min delay_max)
            → result ≡ Ok (times_of block skew delay_min delay_max) }
        ensures fault { IfErr result
            (λ e. IsFirstFault (times_of block skew delay_min delay_max) e) }
        ensures refused { (e : TimingError)
            → IsFirstFault (times_of block skew delay_min delay_max) e → result ≡ Err e }
    {
        match first_fault(block, skew, delay_min, delay_max) {
            Some(fault) => Err(fault),
            None => Ok(Timing {
                block,
                skew,
                delay_min,
                delay_max,
            }),
        }
    }

    /// How long a block lasts, in nanoseconds: an even number from 2 to 2^40.
    pub fn block(&self) -> u64
        ensures value { result ≡ self.now.block }
        ensures valid { IsTiming self.now }
    {
        self.block
    }

    /// How far two clocks may differ, in nanoseconds.
    pub fn skew(&self) -> u64
        ensures { result ≡ self.now.skew }
    {
        self.skew
    }

    /// The least delay of a link, in nanoseconds: at most 2^40.
    pub fn delay_min(&self) -> u64
        ensures value { result ≡ self.now.delay_min }
        ensures most { result ≤ MAX_TIME }
    {
        self.delay_min
    }

    /// The greatest delay of a link, in nanoseconds: at most 2^40.
    pub fn delay_max(&self) -> u64
        ensures value { result ≡ self.now.delay_max }
        ensures most { result ≤ MAX_TIME }
    {
        self.delay_max
    }

    /// The block that a packet is marked in where the marking node's clock reads this many nanoseconds
    /// (RFC 9341, section 3.1). Blocks count from 0, which begins at reading 0.
    pub fn block_of(&self, reading: u64) -> u64
        ensures { IsMarkedIn self.now reading result }
    {
        reading / self.block
    }

    /// The block that a record with this reading and colour belongs to at a node of this shift (RFC
    /// 9341, section 5). Reading and shift are in nanoseconds, and the shift is at most 2^40.
    ///
    /// A block's window begins half a block before the block and ends half a block after it, both later
    /// by the shift. The windows of one colour touch and do not overlap. There is no block exactly where
    /// the reading is before the first window of the colour.
    pub fn attribute(&self, reading: u64, colour: bool, shift: u64) -> Option<u64>
        requires { shift ≤ MAX_TIME }

        // There is at most one such block, and it is found.
        ensures found { (n : ℕ) → IsTrue (belongs_to self.now reading colour shift n)
            → result ≡ Some n }
        ensures belongs { IfSome result
            (λ n. IsTrue (belongs_to self.now reading colour shift n)) }
        ensures none { IfNone result
            (reading + half self.now < parity colour * self.now.block + shift) }
        ensures early { reading + half self.now < parity colour * self.now.block + shift
            → result ≡ None }
    {
        let Some(epoch) = self.epoch(reading, shift) else {
            return None;
        };
        epoch_block(epoch, colour)
    }

    /// The block that `attribute` answers, found faster where it is the likely one: where the record belongs to that
    /// block nothing is divided.
    pub fn attribute_near(&self, likely: u64, reading: u64, colour: bool, shift: u64) -> Option<u64>
        requires { shift ≤ MAX_TIME }
        ensures found { (n : ℕ) → IsTrue (belongs_to self.now reading colour shift n)
            → result ≡ Some n }
        ensures belongs { IfSome result
            (λ n. IsTrue (belongs_to self.now reading colour shift n)) }
        ensures none { IfNone result
            (reading + half self.now < parity colour * self.now.block + shift) }
        ensures early { reading + half self.now < parity colour * self.now.block + shift
            → result ≡ None }
    {
        if self.belongs(likely, reading, colour, shift) {
            return Some(likely);
        }
        self.attribute(reading, colour, shift)
    }

    // Whether a record with this reading and colour belongs to the block, found without a division. False too where the
    // block begins behind every reading.
    fn belongs(&self, number: u64, reading: u64, colour: bool, shift: u64) -> bool
        requires { shift ≤ MAX_TIME }
        ensures valid { IsTiming self.now }
        ensures belongs { IsTrue result
            → IsTrue (belongs_to self.now reading colour shift number) }
    {
        let half = self.block / 2;
        if colour_of(number) != colour {
            return false;
        }
        let Some(begin) = number.checked_mul(self.block) else {
            return false;
        };
        let Some(start) = begin.checked_add(shift) else {
            return false;
        };
        if reading < start {
            start - reading <= half
        } else {
            reading - start < self.block + half
        }
    }

    /// The blocks that a span of readings covers at a node of this shift: those whose windows have every
    /// reading in the span, from `from` and below `until` (windows as in RFC 9341, section 5). They are
    /// the blocks from the first number and below the second, so there are none where the first is not
    /// below the second. All three are in nanoseconds, and the shift is at most 2^40.
    ///
    /// The first number is the least block whose window has no reading before `from`. The second is how
    /// many blocks, counted from block 0, have windows with every reading below `until`. No reading is
    /// below 0, so a span from 0 covers block 0 although its window may begin before.
    pub fn covered(&self, from: u64, until: u64, shift: u64) -> (u64, u64)
        requires { shift ≤ MAX_TIME }
        ensures first { (n : ℕ) → (result.0 ≤ n) ↔ StartsIn self.now from shift n }
        ensures count { (n : ℕ) → (n < result.1) ↔ EndsIn self.now until shift n }
        ensures covered { (n : ℕ) → ((result.0 ≤ n) × (n < result.1))
            ↔ IsCovered self.now from until shift n }
    {
        (self.first_from(from, shift), self.count_until(until, shift))
    }

    // The least block whose window has no reading before this one: the block behind the last whose window
    // has begun at the reading before.
    fn first_from(&self, from: u64, shift: u64) -> u64
        requires { shift ≤ MAX_TIME }
        ensures valid { IsTiming self.now }
        ensures first { IsFirstFrom self.now from shift result }
    {
        let _ = &self.block;
        let Some(before) = from.checked_sub(1) else {
            return 0;
        };
        match self.epoch(before, shift) {
            Some(epoch) => epoch + 1,
            None => 0,
        }
    }

    // How many blocks, counted from block 0, have windows with every reading below this one.
    fn count_until(&self, until: u64, shift: u64) -> u64
        requires { shift ≤ MAX_TIME }
        ensures valid { IsTiming self.now }
        ensures count { IsCountUntil self.now until shift result }
    {
        until.saturating_sub(self.block / 2 + shift) / self.block
    }

    // The epoch of the reading: the last block whose window has begun. None where no window has.
    fn epoch(&self, reading: u64, shift: u64) -> Option<u64>
        requires { shift ≤ MAX_TIME }
        ensures valid { IsTiming self.now }
        ensures epoch { IfSome result (λ n. IsEpoch self.now reading shift n) }
        ensures none { IfNone result (reading + half self.now < shift) }
    {
        let half = self.block / 2;
        if reading < shift {
            if shift - reading <= half {
                return Some(0);
            }
            return None;
        }
        Some(rounded(reading - shift, self.block))
    }
}

// The first fault of four numbers, if they have one.
fn first_fault(block: u64, skew: u64, delay_min: u64, delay_max: u64) -> Option<TimingError>
    ensures found { IfSome result
        (λ e. IsFirstFault (times_of block skew delay_min delay_max) e) }
    ensures valid { IfNone result (IsTiming (times_of block skew delay_min delay_max)) }
{
    if block == 0 {
        return Some(TimingError::ZeroBlock);
    }
    if block % 2 == 1 {
        return Some(TimingError::OddBlock);
    }
    if block > MAX_TIME {
        return Some(TimingError::BlockTooLong);
    }
    if delay_max > MAX_TIME {
        return Some(TimingError::DelayTooLong);
    }
    if delay_min > delay_max {
        return Some(TimingError::BoundsCrossed);
    }
    let guard = skew as u128 + (delay_max - delay_min) as u128;
    let half = block / 2;
    if guard >= half as u128 {
        return Some(TimingError::GuardTooWide { guard, half });
    }
    None
}

// How many blocks have passed, to the nearest whole number; half a block counts as one.
fn rounded(since: u64, block: u64) -> u64
    requires nonzero { 0 < block }
    requires even { block % 2 ≡ 0 }
    ensures from { result * block ≤ since + block / 2 }
    ensures until { since + block / 2 < result * block + block }
{
    let whole = since / block;
    if since % block >= block / 2 {
        whole + 1
    } else {
        whole
    }
}

// The block that the colour means in this epoch: the epoch itself where it has the colour, else the one
// before. Before epoch 0 there is none.
fn epoch_block(epoch: u64, colour: bool) -> Option<u64>
    ensures { Means epoch colour result }
{
    if colour_of(epoch) == colour {
        return Some(epoch);
    }
    epoch.checked_sub(1)
}

/// The colour of a block's marks: true exactly where the block's number is odd (RFC 9341, section 3.1).
pub fn colour_of(block: u64) -> bool
    ensures { block % 2 ≡ parity result }
{
    block % 2 == 1
}
