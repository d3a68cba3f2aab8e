/// Why bytes are no capture, or not yet a whole one.
#[derive(Clone, Copy, Debug, PartialEq, Eq)]
pub enum CapError {
    /// The file doesn't begin with a magic number of pcap.
    BadMagic,
    /// The version isn't 2.4.
    BadVersion,
    /// The lower 16 bits of the link type are none that is known.
    UnknownLink { link: u16 },
    /// The record of this number, counted from 1, says that more than 262,144 bytes were captured.
    RecordTooLong { number: u64, length: u32 },
    /// The bytes end inside the record of this number, counted from 1, or inside the file header (0).
    CutFile { number: u64 },
}
