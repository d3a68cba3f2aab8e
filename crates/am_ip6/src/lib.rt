//! The headers of an IPv6 packet, and the mark in them (RFC 8200, sections 3 and 4; RFC 9343, section 4).
//!
//! [`Fixed`] has the fields of the fixed header. [`Walk`] lends the extension headers that stand behind it,
//! and [`walk_ending`] says why there are no more: another number, bytes that were not captured, or bytes
//! that can't be. [`find_mark`] gives the first mark in headers of one kind.
//!
//! Three extension headers are walked: Hop-by-Hop Options directly behind the fixed header, Routing, and
//! Destination Options. Fragments, Authentication and encrypted bytes end the chain, and so does every upper
//! layer. Places count bytes from the packet's first, and numbers are in network order. Nothing here allocates
//! or copies a byte of a header.
#![tactic(auto)]

mod brief;
mod chain;
mod fixed_header;
mod headers;
mod laws;
mod marks;
mod options;

pub use brief::Brief;
pub use chain::{Ending, Header};
pub use fixed_header::Fixed;
pub use headers::{Walk, walk_ending};
pub use laws::{seen_law, walk_law};
pub use marks::{Found, Place, find_mark};
