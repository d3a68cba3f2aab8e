//! The counters of one measurement point: a cell for each flow and each reported block.
//!
//! Loss is the difference of two points' counts of one block's packets, and delay that of the sums of their times
//! (RFC 9341, sections 3.1 and 3.2). A [`Cell`] has both, over all packets of a flow and block and over those with the
//! delay bit. [`Cells`] has the cells of a point, and every one of them is lawful at all times.
//!
//! Which packet belongs to which block is not decided here: flow, block and offset are handed in.
#![tactic(auto)]

mod cell;
mod cells;
mod laws;

pub use cell::{Cell, MAX_COUNT, OFFSET_END, Row};
pub use cells::{Cells, MAX_CELLS};
pub use laws::cells_law;
