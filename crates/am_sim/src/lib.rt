//! Simulated networks: how well the loss that is reported of a made world tells what the world drops.
//!
//! A number makes a world (`am_world`). Each node of a domain takes its capture of it, which is counted as any capture
//! is, and the cells of all nodes give a loss table. [`simulate`] compares it with what the world drops, for each
//! cluster and for the network (RFC 9341, section 3.1; RFC 9342, section 5): in the worlds that are made both are
//! equal. [`write_simulated`] writes what was compared.
//!
//! Nothing here reads or writes a file of the system, and no packet is counted.
#![tactic(auto)]

mod compare;
mod measure;
mod row;
mod simulating;
mod write;

pub use row::SimRow;
pub use simulating::simulate;
pub use write::write_simulated;
