//! The packets that the tests change and read, by hand from the formats, and a shelf.
use am_base::MemShelf;
use std::alloc::{AllocError, Global};

/// From 2001:db8:1::1 to 2001:db8:2::1, with nothing behind it: version 6, traffic class 0xa5, flow label 0xbcdef, no
/// next header, hop limit 64 (RFC 8200, section 3).
pub const FIXED: &[u8] =
    b"\x6a\x5b\xcd\xef\x00\x00\x3b\x40\x20\x01\x0d\xb8\x00\x01\x00\x00\x00\x00\x00\x00\x00\x00\x00\x01\x20\x01\x0d\xb8\x00\x02\x00\x00\x00\x00\x00\x00\x00\x00\x00\x01";

/// A header of options that has a mark alone: flow 0x12345, the loss bit; no next header (RFC 9343, section 4).
pub const MARKED: &[u8] = b"\x3b\x00\x12\x04\x12\x34\x58\x00";

/// A header of options that has a PadN of six bytes alone; no next header.
pub const PADDED: &[u8] = b"\x3b\x00\x01\x04\x00\x00\x00\x00";

/// The packet with this payload length, this next header, and these bytes behind its fixed header.
pub fn packet(alloc: Global, payload: u16, next: u8, behind: &[u8]) -> Result<Vec<u8>, AllocError> {
    let [high, low] = payload.to_be_bytes();
    let mut bytes = FIXED[..4].to_vec(alloc)?;
    bytes.extend_from_slice(&[high, low, next])?;
    bytes.extend_from_slice(&FIXED[7..])?;
    bytes.extend_from_slice(behind)?;
    Ok(bytes)
}

/// A shelf in memory of one file, named `f`, whose opens and reads of these numbers fail.
pub fn shelf_of(
    alloc: Global,
    bytes: &[u8],
    bad_open: u64,
    bad_read: u64,
) -> Result<MemShelf, AllocError> {
    let file = (String::from_str(alloc, "f")?, bytes.to_vec(alloc)?);
    let (opens, reads) = (vec![in alloc; bad_open]?, vec![in alloc; bad_read]?);
    Ok(MemShelf::new(vec![in alloc; file]?, opens, reads))
}
