// Captures of marked packets, byte by byte.
use am_samples::HEAD;
use std::alloc::{AllocError, Global};

// A packet that was seen: seconds, microseconds, and the four bytes of its mark.
pub type Seen = (u32, u32, u32);

// Marks of flow 0x12345, which is 74565: without bits, with the loss bit (colour 1), with the delay bit, with both.
pub const PLAIN: u32 = 0x1234_5000;

pub const LOSS: u32 = 0x1234_5800;

pub const DELAY: u32 = 0x1234_5400;

pub const BOTH: u32 = 0x1234_5c00;

// The first point sees six packets.
pub const UP: [Seen; 6] = [
    (1, 0, DELAY),
    (2, 0, PLAIN),
    (11, 0, BOTH),
    (12, 0, LOSS),
    (13, 0, LOSS),
    (21, 0, DELAY),
];

// The second point sees the packets of the first half a millisecond later, and one of them not.
pub const DOWN: [Seen; 5] = [
    (1, 500, DELAY),
    (2, 500, PLAIN),
    (11, 500, BOTH),
    (13, 500, LOSS),
    (21, 500, DELAY),
];

// A marked packet up to its mark.
const PACKET: [u8; 44] = [
    0x60, 0x00, 0x00, 0x00, // version 6
    0x00, 0x08, 0x00, 0x40, // payload length 8, Hop-by-Hop, hop limit 64
    0x20, 0x01, 0x0d, 0xb8, 0x00, 0x01, 0x00, 0x00, 0x00, 0x00, 0x00, 0x00, 0x00, 0x00, 0x00, 0x01, // source
    0x20, 0x01, 0x0d, 0xb8, 0x00, 0x02, 0x00, 0x00, 0x00, 0x00, 0x00, 0x00, 0x00, 0x00, 0x00, 0x01, // destination
    0x3b, 0x00, 0x12, 0x04, // no next header, eight bytes, and an option of type 0x12 with four bytes
];

// Adds a record of a marked packet of 48 bytes, all of them captured.
pub fn push_seen(bytes: &mut Vec<u8>, seen: Seen) -> Result<(), AllocError> {
    let (seconds, micros, mark) = seen;
    bytes.extend_from_slice(&seconds.to_le_bytes())?;
    bytes.extend_from_slice(&micros.to_le_bytes())?;
    bytes.extend_from_slice(&[48, 0, 0, 0, 48, 0, 0, 0])?;
    bytes.extend_from_slice(&PACKET)?;
    bytes.extend_from_slice(&mark.to_be_bytes())
}

// A capture of these packets.
pub fn capture(alloc: Global, packets: &[Seen]) -> Result<Vec<u8>, AllocError> {
    let mut bytes = Vec::from_slice(alloc, &HEAD)?;
    for seen in packets {
        push_seen(&mut bytes, *seen)?;
    }
    Ok(bytes)
}

// The first bytes, or all where they aren't so many.
pub fn front(bytes: &[u8], count: usize) -> &[u8] {
    match bytes.get(..count) {
        Some(front) => front,
        None => bytes,
    }
}
