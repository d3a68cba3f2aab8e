//! Packets with a mark and without, and the packets that no mark goes into (RFC 9343, section 4).
use crate::samples::{FIXED, MARKED, PADDED, packet};
use am_base::MemSink;
use am_insert::{plan_insert, plan_strip};
use am_ip6::Place;
use am_ip6::Place::{Destination, HopByHop};
use am_opts::Mark;
use std::alloc::Global;
use std::test::Fail;

// The packet with the mark of flow 0x12345 with the loss bit.
fn marked(alloc: Global, bytes: &[u8], place: Place) -> Result<Vec<u8>, Fail> {
    let mark = Mark::new(0x12345, true, false).ok_or("a mark")?;
    let edit = plan_insert(bytes, true, mark, place)?;
    Ok(edit.apply(alloc, bytes)?)
}

// PADDED, with a mark put in behind an empty PadN.
const LONGER: &[u8] = b"\x3b\x01\x01\x04\x00\x00\x00\x00\x01\x00\x12\x04\x12\x34\x58\x00";

// An ICMPv6 Echo Request, and it behind a mark.
const ECHO: &[u8] = b"\x80\x00\x12\x34\x00\x01\x00\x02";

const ECHO_MARKED: &[u8] = b"\x3a\x00\x12\x04\x12\x34\x58\x00\x80\x00\x12\x34\x00\x01\x00\x02";

// A Routing header and UDP, and a mark between them.
const ROUTED: &[u8] = b"\x11\x00\x00\x00\x00\x00\x00\x00\xee";

const ROUTED_MARKED: &[u8] =
    b"\x3c\x00\x00\x00\x00\x00\x00\x00\x11\x00\x12\x04\x12\x34\x58\x00\xee";

// The number and the bytes behind the fixed header, without the mark and with it.
#[test]
fn a_mark_goes_in_and_comes_out(rt: HostRuntime) -> Result<(), Fail> {
    let alloc = rt.alloc();
    for (place, size, next, before, number, after) in [
        (HopByHop, 0, 59, b"".as_slice(), 0, MARKED),
        (Destination, 0, 59, b"", 60, MARKED),
        (HopByHop, 8, 0, PADDED, 0, LONGER),
        (HopByHop, 8, 58, ECHO, 0, ECHO_MARKED),
        (Destination, 9, 43, ROUTED, 43, ROUTED_MARKED),
    ] {
        let plain = packet(alloc, size, next, before)?;
        let other = packet(alloc, size + 8, number, after)?;
        assert!(rt; marked(alloc, &plain, place)? == other, "{before:?}");
        let (mark, edit) = plan_strip(&other, true, place).ok_or("a mark")?;
        assert!(rt; mark.flow() == 0x12345, "{before:?}");
        assert!(rt; edit.apply(alloc, &other)? == plain, "{before:?}");
    }
    Ok(())
}

// Each refusal, and what is said of it, of so many bytes of a packet that are all there or not.
#[test]
fn each_refusal_is_told(rt: HostRuntime) -> Result<(), Fail> {
    let alloc = rt.alloc();
    let mark = Mark::new(1, false, false).ok_or("a mark")?;
    let mut long = vec![in alloc; 0; 2048]?;
    long[1] = 255;
    for (payload, next, behind, length, whole, place, wanted) in [
        (0, 59, b"".as_slice(), 39, true, HopByHop, "not IPv6"),
        (0, 59, b"", 39, false, HopByHop, "cut"),
        (8, 0, b"", 40, false, HopByHop, "cut"),
        (8, 0, b"", 40, true, Destination, "malformed at 40"),
        (8, 0, MARKED, 48, true, HopByHop, "already marked at 42"),
        // an Authentication Header
        (0, 51, b"", 40, true, Destination, "protected"),
        (2048, 0, &long, 2088, true, HopByHop, "header full"),
        (65_528, 58, b"", 40, true, HopByHop, "packet full"),
    ] {
        let bytes = packet(alloc, payload, next, behind)?;
        let front = bytes.get(..length).ok_or("a front")?;
        let error = plan_insert(front, whole, mark, place).err();
        let said = error.ok_or("a refusal")?.to_string(alloc)?;
        assert!(rt; said.as_str() == wanted, "{payload} {next}");
    }
    Ok(())
}

// The greatest payload length that leaves room, and a header of 2,040 bytes; and a packet that is written.
#[test]
fn lengths_end_at_their_greatest(rt: HostRuntime) -> Result<(), Fail> {
    let alloc = rt.alloc();
    let most = packet(alloc, 65_527, 58, b"")?;
    let longest = marked(alloc, &most, HopByHop)?;
    assert!(rt; longest.get(4..6) == Some(b"\xff\xff".as_slice()));
    let mut header = vec![in alloc; 0; 2048]?;
    header[0] = 59;
    header[1] = 254;
    let nearly = packet(alloc, 2048, 0, &header)?;
    assert!(rt; marked(alloc, &nearly, HopByHop)?.get(41) == Some(&255));
    let mark = Mark::new(0x12345, true, false).ok_or("a mark")?;
    let mut sink = MemSink::new(alloc, 48, Vec::new(alloc))?;
    plan_insert(FIXED, true, mark, HopByHop)?.write(FIXED, &mut sink)?;
    assert!(rt; sink.bytes().get(40..) == Some(MARKED));
    Ok(())
}
