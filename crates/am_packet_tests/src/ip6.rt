//! Chains of headers (RFC 8200, section 4), and the marks in them (RFC 9343, section 4).
use crate::samples::{FIXED, MARKED, PADDED, packet};
use am_ip6::{Ending, Fixed, Found, Place, Walk, find_mark, walk_ending};
use std::test::Fail;

// Routing of 16 bytes, then Destination Options.
const ROUTED: &[u8] =
    b"\x3c\x01\x00\x00\x00\x00\x00\x00\x00\x00\x00\x00\x00\x00\x00\x00\x11\x00\x01\x04\x00\x00\x00\x00";

// Destination Options, Routing, Destination Options.
const THREE: &[u8] =
    b"\x2b\x00\x01\x04\x00\x00\x00\x00\x3c\x00\x00\x00\x00\x00\x00\x00\x3b\x00\x01\x04\x00\x00\x00\x00";

// Destination Options, then Hop-by-Hop Options, which stand first or nowhere.
const LATE: &[u8] = b"\x00\x00\x01\x04\x00\x00\x00\x00\x3b\x00\x01\x04\x00\x00\x00\x00";

// An option that leaves its header.
const LEAVING: &[u8] = b"\x3b\x00\x01\x09\x00\x00\x00\x00";

fn end(next: u8, at: usize, told_at: usize) -> Ending {
    Ending::End { next, at, told_at }
}

fn malformed(place: usize) -> Ending {
    Ending::Malformed { place }
}

#[test]
fn a_fixed_header_has_its_fields(rt: HostRuntime) -> Result<(), Fail> {
    let fixed = Fixed::read(FIXED).ok_or("a fixed header")?;
    assert!(rt; (fixed.class, fixed.flow_label) == (0xa5, 0xb_cdef));
    assert!(rt; (fixed.payload, fixed.next, fixed.hops) == (0, 59, 64));
    assert!(rt; fixed.source.as_slice() == &FIXED[8..24]);
    assert!(rt; fixed.destination.as_slice() == &FIXED[24..]);
    Ok(())
}

// How many headers are lent, and how the walk ends.
#[test]
fn chains_are_walked_to_their_end(rt: HostRuntime) -> Result<(), Fail> {
    for (payload, next, behind, whole, count, wanted) in [
        (0, 59, b"".as_slice(), true, 0, end(59, 40, 6)),
        (8, 0, PADDED, true, 1, end(59, 48, 40)),
        (24, 43, ROUTED, true, 2, end(17, 64, 56)),
        (24, 60, THREE, true, 3, end(59, 64, 56)),
        (16, 60, LATE, true, 1, end(0, 48, 40)),
        // a byte is missing, the payload ends within the header, and an option leaves it
        (8, 0, &PADDED[..7], false, 0, Ending::Cut),
        (8, 0, &PADDED[..7], true, 0, malformed(40)),
        (7, 0, PADDED, false, 0, malformed(40)),
        (8, 0, LEAVING, true, 0, malformed(42)),
    ] {
        let bytes = packet(rt.alloc(), payload, next, behind)?;
        assert!(rt; Walk::over(&bytes, whole).count() == count, "{behind:?}");
        assert!(rt; walk_ending(&bytes, whole) == wanted, "{behind:?}");
    }
    Ok(())
}

// Two marks, behind a PadN of two bytes.
const TWO: &[u8] = b"\x3b\x01\x01\x00\x12\x04\x12\x34\x58\x00\x12\x04\xff\xff\xf0\x00";

// An option of the type of a mark, whose length is 5.
const LONG: &[u8] = b"\x3b\x01\x12\x05\x12\x34\x58\x00\x00\x01\x05\x00\x00\x00\x00\x00";

// The flow and the place of a mark that is found; flow 0 at place 0 where the headers are cut.
fn found(bytes: &[u8], whole: bool, place: Place) -> Option<(u32, usize)> {
    match find_mark(bytes, whole, place) {
        Found::Marked { mark, at } => Some((mark.flow(), at)),
        Found::Unmarked => None,
        Found::Cut => Some((0, 0)),
    }
}

// What is found in the Hop-by-Hop header, and in the Destination Options headers.
#[test]
fn marks_are_found_in_their_kind(rt: HostRuntime) -> Result<(), Fail> {
    let cut = Some((0, 0));
    let at_once = Some((0x12345, 42));
    for (payload, next, behind, whole, hop_by_hop, destination) in [
        (8, 0, MARKED, true, at_once, None),
        (8, 60, MARKED, true, None, at_once),
        (16, 0, TWO, true, Some((0x12345, 44)), None),
        (16, 0, LONG, true, None, None),
        (7, 0, MARKED, true, None, None),
        // cut in the Hop-by-Hop header, behind it, and in a Destination Options header
        (8, 0, &MARKED[..1], false, cut, cut),
        (
            16,
            0,
            b"\x3c\x00\x01\x04\x00\x00\x00\x00\x3b",
            false,
            None,
            cut,
        ),
        (8, 60, &MARKED[..1], false, None, cut),
    ] {
        let bytes = packet(rt.alloc(), payload, next, behind)?;
        let first = found(&bytes, whole, Place::HopByHop);
        let second = found(&bytes, whole, Place::Destination);
        assert!(rt; (first, second) == (hop_by_hop, destination), "{behind:?}");
    }
    Ok(())
}
