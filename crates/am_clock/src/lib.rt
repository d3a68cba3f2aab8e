//! Blocks of marking and the clocks that they are read by.
//!
//! A marking node flips the colour of its marks every block, so that loss is counted block by block
//! (RFC 9341, section 3.1). A point further on sees a block's packets early or late: clocks differ,
//! and packets take their time. Half a block on either side is enough for both (RFC 9341, section 5),
//! so a record's colour and reading name one block, or none.
//!
//! Nothing here reads a clock. Readings are nanoseconds, handed in.
#![tactic(auto)]

mod timing;

pub use timing::{MAX_TIME, Timing, TimingError, colour_of};
