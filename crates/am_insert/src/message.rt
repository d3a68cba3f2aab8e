//! What is said of a packet that no mark goes into.
ghost use Rattle.std.specs.Prelude.{◌≡◌, Some};
ghost use Rattle.am_insert.specs.InsertTexts.{insert_text};

use crate::insert::InsertError;
use std::fmt;

/// Why none goes in, in a few words, with the place in the packet.
impl fmt::Display for InsertError {
    ghost output = { λ e. Some (insert_text e) };

    fn fmt<W: fmt::Write>(&self, f: &mut fmt::Formatter<W>) -> fmt::Result {
        match *self {
            InsertError::NotIp6 => f.write_str("not IPv6"),
            InsertError::Malformed { place } => write!(f, "malformed at {place}"),
            InsertError::Cut => f.write_str("cut"),
            InsertError::AlreadyMarked { place } => write!(f, "already marked at {place}"),
            InsertError::Protected => f.write_str("protected"),
            InsertError::HeaderFull => f.write_str("header full"),
            InsertError::PacketFull => f.write_str("packet full"),
        }
    }
}
