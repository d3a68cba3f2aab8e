//! The meter of one measurement point: what the packets of its capture show of the marks, and how many there are of
//! each flow in each block.
//!
//! A [`Stream`] gives the records of a capture whose packets are marked, one by one, in the order of the file: each
//! with its number, its reading and what its mark says. It looks in one kind of header, and refuses a capture in which
//! a packet was cut so early that nobody knows whether it is marked.
//!
//! [`meter_file`] counts the marked records of a node's capture in [`Cells`](am_cells::Cells): each in the cell of its
//! flow and of the block that it belongs to by its colour and its reading (RFC 9341, section 3.1). It copies records
//! into a [`Batch`], and counts that before it reads on; [`count_parallel`] counts one batch.
//!
//! Nothing here prints, and what a count says of loss is not judged here: that takes the cells of two points.
#![tactic(auto)]

mod batch;
mod counting;
mod gate;
mod laws;
mod metering;
mod stream;

pub use am_cells::Row;
pub use batch::{Batch, MAX_BYTES, MAX_RECORDS};
pub use counting::{CountError, count_parallel};
pub use gate::{Gate, NoGate};
pub use laws::{batch_marks_are_one, marks_are_one};
pub use metering::meter_file;
pub use stream::{Marked, MeterError, Stream};
