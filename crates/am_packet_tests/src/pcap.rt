//! What is written of captures in each of their four forms, by hand from the format, and where packets begin in frames.
use am_pcap::LinkKind::{Ethernet, RawIp, RawIp6};
use am_pcap::{Form, Frame, file_head, packet_of, record_head};
use std::test::Fail;

// The file header of each form, and the header of a record of second 15 and fraction 1,000,000,001, with three of its 60
// bytes.
const MICRO: &[u8] =
    b"\xd4\xc3\xb2\xa1\x02\x00\x04\x00\x00\x00\x00\x00\x00\x00\x00\x00\x00\x00\x04\x00\x65\x00\x00\x00\x0f\x00\x00\x00\x01\xca\x9a\x3b\x03\x00\x00\x00\x3c\x00\x00\x00";

const NANO: &[u8] =
    b"\x4d\x3c\xb2\xa1\x02\x00\x04\x00\x00\x00\x00\x00\x00\x00\x00\x00\x00\x00\x04\x00\x01\x00\x00\x00\x0f\x00\x00\x00\x01\xca\x9a\x3b\x03\x00\x00\x00\x3c\x00\x00\x00";

const BIG_MICRO: &[u8] =
    b"\xa1\xb2\xc3\xd4\x00\x02\x00\x04\x00\x00\x00\x00\x00\x00\x00\x00\x00\x04\x00\x00\x00\x00\x00\xe5\x00\x00\x00\x0f\x3b\x9a\xca\x01\x00\x00\x00\x03\x00\x00\x00\x3c";

const BIG_NANO: &[u8] =
    b"\xa1\xb2\x3c\x4d\x00\x02\x00\x04\x00\x00\x00\x00\x00\x00\x00\x00\x00\x04\x00\x00\x00\x00\x00\x65\x00\x00\x00\x0f\x3b\x9a\xca\x01\x00\x00\x00\x03\x00\x00\x00\x3c";

#[test]
fn heads_are_written_in_each_form(rt: HostRuntime) {
    for (written, big, nano, link) in [
        (MICRO, false, false, RawIp),
        (NANO, false, true, Ethernet),
        (BIG_MICRO, true, false, RawIp6),
        (BIG_NANO, true, true, RawIp),
    ] {
        let form = Form { big, nano };
        assert!(rt; written.starts_with(&file_head(form, link)), "{form:?}");
        let record = record_head(form, 15, 1_000_000_001, 3, 60);
        assert!(rt; written.ends_with(&record), "{form:?}");
    }
}

// The two addresses of an Ethernet frame.
const ADDRESSES: &[u8] = b"\x02\x00\x00\x00\x00\x01\x02\x00\x00\x00\x00\x02";

// Two tags and the type of IPv6, and three tags.
const TWO: &[u8] = b"\x88\xa8\x00\x01\x81\x00\x00\x02\x86\xdd\x60";

const THREE: &[u8] = b"\x88\xa8\x00\x01\x81\x00\x00\x02\x81\x00\x00\x03\x86\xdd";

// What stands behind the addresses, and what a raw packet begins with.
#[test]
fn frames_tell_where_the_packet_begins(rt: HostRuntime) -> Result<(), Fail> {
    for (link, front, bytes, whole, wanted) in [
        (Ethernet, ADDRESSES, &TWO[8..], true, Frame::Ip6 { at: 14 }),
        (Ethernet, ADDRESSES, &TWO[4..], true, Frame::Ip6 { at: 18 }),
        (Ethernet, ADDRESSES, TWO, true, Frame::Ip6 { at: 22 }),
        (Ethernet, ADDRESSES, THREE, false, Frame::Other),
        (Ethernet, ADDRESSES, b"\x08\x00\x45", false, Frame::Other),
        // a type that is not wholly there
        (Ethernet, ADDRESSES, &TWO[4..9], false, Frame::Cut),
        (Ethernet, ADDRESSES, &TWO[4..9], true, Frame::Other),
        (RawIp, b"", b"\x60\x00", false, Frame::Ip6 { at: 0 }),
        (RawIp, b"", b"\x45\x00", false, Frame::Other),
        (RawIp, b"", b"", true, Frame::Other),
        (RawIp6, b"", b"", true, Frame::Ip6 { at: 0 }),
    ] {
        let mut frame = front.to_vec(rt.alloc())?;
        frame.extend_from_slice(bytes)?;
        assert!(rt; packet_of(link, &frame, whole) == wanted, "{bytes:?}");
    }
    Ok(())
}
