//! The AltMark Option put into an IPv6 packet, and taken out again (RFC 9343, section 4; RFC 8200, section 4).
//!
//! [`plan_insert`] says how a mark goes into a packet: in a new header of options, or at the end of the first one of
//! its kind that the packet has. [`plan_strip`] says how the first mark comes out of a packet, where it stands in one
//! of these two shapes. What either answers is an [`Edit`]: a few places and bytes, by which the changed packet is
//! written or made. A mark that was put in comes out again, and leaves the packet as it was: `insert_law`.
//!
//! Eight bytes come in or go out, the payload length and one further byte change, and all other bytes stay. No checksum
//! is touched: that of the upper layer covers none of these bytes (RFC 8200, section 8.1). Nothing here takes memory
//! but [`Edit::apply`].
#![tactic(auto)]

mod edit;
mod insert;
mod laws;
mod message;
mod shape;
mod strip;

pub use edit::Edit;
pub use insert::{InsertError, plan_insert};
pub use laws::{address_law, insert_law, open_law, strip_law};
pub use strip::plan_strip;
