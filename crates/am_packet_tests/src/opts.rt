//! Bytes of the AltMark Option (RFC 9343, section 3.1), and lists of options (RFC 8200, section 4.2).
use am_opts::{Mark, check_options, decode_mark, encode_mark};
use std::test::Fail;

#[test]
fn bytes_spell_marks_or_none(rt: HostRuntime) -> Result<(), Fail> {
    for (bytes, flow, loss, delay, written) in [
        (b"\x12\x04\x12\x34\x58\x00", 0x12345, true, false, true),
        // the reserved bits set, which are written as zeros; every bit set; the delay bit alone
        (b"\x12\x04\x12\x34\x5b\xff", 0x12345, true, false, false),
        (b"\x12\x04\xff\xff\xfc\x00", 0xfffff, true, true, true),
        (b"\x12\x04\x00\x00\x04\x00", 0, false, true, true),
    ] {
        let mark = Mark::new(flow, loss, delay).ok_or("a mark")?;
        assert!(rt; decode_mark(bytes) == Some((mark, 6)), "{bytes:?}");
        assert!(rt; (encode_mark(mark) == *bytes) == written, "{bytes:?}");
        assert!(rt; (mark.flow(), mark.loss(), mark.delay()) == (flow, loss, delay));
    }
    for bytes in [
        // a length of 5, five bytes, another type, and a Pad1 before it
        b"\x12\x05\x12\x34\x58\x00\x00".as_slice(),
        b"\x12\x04\x12\x34\x58",
        b"\xd2\x04\x12\x34\x58\x00",
        b"\x00\x12\x04\x12\x34\x58\x00",
    ] {
        assert!(rt; decode_mark(bytes).is_none(), "{bytes:?}");
    }
    assert!(rt; Mark::new(1_048_576, false, false).is_none());
    Ok(())
}

// How many options there are, or where they stop.
#[test]
fn areas_are_lists_of_options_or_not(rt: HostRuntime) {
    for (area, options, stop) in [
        (b"".as_slice(), 0, 0),
        (b"\x00\x01\x00", 2, 0),
        // the data of a PadN has any value, and so has a type
        (b"\x01\x02\xff\xee\xff\x00", 2, 0),
        // a Router Alert (RFC 2711, section 2.1) before a mark
        (b"\x05\x02\x00\x00\x12\x04\x12\x34\x58\x00", 2, 0),
        (b"\x00\x05\x03\x00\x00", 0, 1),
        (b"\x00\x00\x00\x07", 0, 3),
    ] {
        assert!(rt; area.len() < 100);
        let found = match check_options(area) {
            Ok(count) => (count, 0),
            Err(fault) => (0, fault.place),
        };
        assert!(rt; found == (options, stop), "{area:?}");
    }
}
