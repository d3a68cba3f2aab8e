//! The loss table: what was lost between the nodes of a domain, from what each of them counted.
//!
//! The cells of all nodes come together in a [`Control`]. Of each cluster, and of the network as a whole, the packets
//! that entered less those that left are lost (RFC 9341, section 3.1; RFC 9342, sections 4 and 5); where none is lost,
//! the sums of their times give their delay (RFC 9341, section 3.2). [`Closed`] has the rows, and [`write_loss`] writes
//! them.
//!
//! Nothing here counts packets, and no report is read or written.
#![tactic(auto)]

mod closed;
mod control;
mod error;
mod laws;
mod passage;
mod row;
mod sides;
mod write;

pub use closed::Closed;
pub use control::Control;
pub use error::ControlError;
pub use laws::loss_law;
pub use row::{LossRow, Scope};
pub use write::write_loss;
