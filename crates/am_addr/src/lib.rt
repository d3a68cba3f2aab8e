//! IPv6 addresses and prefixes, and the texts that stand for them (RFC 4291, section 2.2; RFC 5952).
//!
//! An address is read from any of its texts but those with a dotted end, and printed as one text alone.
#![tactic(auto)]

mod address;
mod groups;
mod laws;
mod list;
mod mask;
mod prefix;
mod printed;

pub use address::{Addr, parse};
pub use laws::prefix_text_law;
pub use mask::Mask;
pub use prefix::Prefix;
pub use printed::print;
