//! What is said of bytes that are no capture.
ghost use Rattle.std.specs.Prelude.{◌≡◌, Some};
ghost use Rattle.std.specs.Fmt.{WritesOnOk};
ghost use Rattle.am_pcap.specs.CaptureTexts.{capture_text};
ghost use Rattle.am_pcap.specs.declared.refusal.CapError.TheVariants as CapError;

use crate::refusal::CapError;
use std::fmt;

/// Why they are none, in a few words, with the number of the record.
impl fmt::Display for CapError {
    ghost output = { λ e. Some (capture_text e) };

    fn fmt<W: fmt::Write>(&self, f: &mut fmt::Formatter<W>) -> fmt::Result {
        match *self {
            CapError::BadMagic => f.write_str("bad magic"),
            CapError::BadVersion => f.write_str("bad version"),
            CapError::UnknownLink { link } => write!(f, "unknown link type {link}"),
            CapError::RecordTooLong { number, length } => show_too_long(f, number, length),
            CapError::CutFile { number } => write!(f, "file ends in record {number}"),
        }
    }
}

// That a record says more bytes than one may have.
fn show_too_long<W: fmt::Write>(f: &mut fmt::Formatter<W>, number: u64, length: u32) -> fmt::Result
    ensures { WritesOnOk W.write_str_gives f.old result
        (capture_text (CapError.RecordTooLong number length)) f.new }
{
    write!(f, "record {number} is too long: {length}")
}
