//! The AltMark Option of IPv6, by which packets are marked (RFC 9343, section 3.1), and the option lists
//! that it stands in (RFC 8200, section 4.2).
//!
//! The mark is what a packet says for measurement: the flow that it is counted in, and two bits. Its bytes
//! are the same in a Hop-by-Hop Options header and in a Destination Options header. Where those headers
//! stand in a packet is not decided here. Nothing here allocates or copies a byte.
#![tactic(auto)]

mod altmark;
mod laws;
mod options;

pub use altmark::{Mark, decode_mark, encode_mark};
pub use laws::{longest_front_law, mark_law};
pub use options::{Opt, OptFault, Options, check_options};
