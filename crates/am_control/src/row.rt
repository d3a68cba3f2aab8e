//! A row of the loss table.

ghost use Rattle.std.specs.Prelude.{◌≡◌, ◌<◌, ◌^◌};
ghost use Rattle.am_control.specs.Rows.{FitsRow, row_between, delay_between};

use am_cells::Cell;

/// What a row is about: one cluster of the network, or all of it.
#[derive(Clone, Copy, Debug, PartialEq, Eq)]
pub enum Scope {
    /// The cluster of this number.
    Cluster(u32),
    /// The whole network.
    Network,
}

/// What was lost of one flow's packets of one block in a cluster or in the network, and how long those took that were
/// not lost, in nanoseconds. The last three columns are over the packets with the delay bit.
#[derive(Clone, Copy, Debug, PartialEq, Eq)]
pub struct LossRow {
    pub scope: Scope,
    pub flow: u32,
    pub block: u64,
    /// How many packets entered.
    pub entered: u64,
    /// How many left.
    pub left: u64,
    /// How many entered and did not leave; negative where more left.
    pub lost: i64,
    /// The delays of all packets together, where as many left as entered.
    pub delay: Option<i128>,
    /// How many packets with the delay bit entered.
    pub d_entered: u64,
    /// How many with it left.
    pub d_left: u64,
    /// The delays of these together, where as many left as entered.
    pub d_delay: Option<i128>,
}

// The row of what entered and what left.
#[inline(always)]
pub(crate) fn row_of(scope: Scope, flow: u32, block: u64, came: &Cell, went: &Cell) -> LossRow
    requires came { FitsRow came.now }
    requires went { FitsRow went.now }
    ensures { result ≡ row_between scope flow block came.now went.now }
{
    LossRow {
        scope,
        flow,
        block,
        entered: came.count,
        left: went.count,
        lost: came.count as i64 - went.count as i64,
        delay: delay_of(came.count, went.count, came.sum, went.sum),
        d_entered: came.dcount,
        d_left: went.dcount,
        d_delay: delay_of(came.dcount, went.dcount, came.dsum, went.dsum),
    }
}

// The delay of so many packets, from the sums of their offsets.
#[inline(always)]
fn delay_of(entered: u64, left: u64, in_sum: u128, out_sum: u128) -> Option<i128>
    requires came { in_sum < 2 ^ 127 }
    requires went { out_sum < 2 ^ 127 }
    ensures { result ≡ delay_between entered left in_sum out_sum }
{
    if entered != left {
        return None;
    }
    Some(out_sum as i128 - in_sum as i128)
}
