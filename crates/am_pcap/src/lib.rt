//! Captures: what stands in a pcap file, and how it is read.
//!
//! A file is in one of four forms, by its byte order and by the unit of its fractions of a second, and its packets begin
//! in one of three ways. `Decoder` takes the bytes of a file in any pieces, and gives its records one by one; all its
//! memory is taken when it is made, and a record's bytes are copied once. `file_head` and `record_head` write what it
//! reads. `packet_of` tells where the IPv6 packet begins in a record's bytes. `Capture` reads a file of a shelf in pieces,
//! and gives its records one by one: a record that is whole in one piece is lent in its place, with no copy.
#![tactic(auto)]

mod capture;
mod decoder;
mod frame;
mod head;
mod held;
mod laws;
mod message;
mod record;
mod refusal;
mod seeking;

pub use capture::{Capture, FileError};
pub use decoder::{Decoder, MAX_CAPTURED};
pub use frame::{Frame, LinkKind, packet_of};
pub use head::{FILE_HEAD, Head, file_head, record_head};
pub use laws::{beginnings_agree, captures_are_one, captures_are_spelled, frames_are_one};
pub use record::{Form, Record};
pub use refusal::CapError;
pub use seeking::MAX_READ;
