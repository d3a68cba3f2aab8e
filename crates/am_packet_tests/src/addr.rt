//! Texts of addresses and prefixes (RFC 4291, sections 2.2 and 2.3; RFC 5952, section 4).
use am_addr::{Addr, Mask, Prefix, parse, print};
use std::test::Fail;

#[test]
fn texts_stand_for_addresses_or_for_none(rt: HostRuntime) {
    let unicast: u128 = 0x2001_0db8_0000_0000_0008_0800_200c_417a;
    for (text, wanted) in [
        // RFC 4291, section 2.2
        ("2001:DB8:0:0:8:800:200C:417A", Some(unicast)),
        ("2001:DB8::8:800:200C:417A", Some(unicast)),
        ("FF01::101", Some(0xff01 << 112 | 0x101)),
        ("::1", Some(1)),
        ("::", Some(0)),
        (
            "0001:00Ff:3:4:5:6:7::",
            Some(0x0001_00ff_0003_0004_0005_0006_0007_0000),
        ),
        ("::1:2:3:4:5:6:7:8", None),
        ("1:2:3:4:5:6:7:8:9", None),
        ("12345::", None),
        (":1::2", None),
        ("1::2::3", None),
        ("::1.2.3.4", None),
        ("", None),
        ("::g", None),
    ] {
        let addr = wanted.map(u128::to_be_bytes).map(Addr);
        assert!(rt; parse(text) == addr, "{text}");
    }
}

#[test]
fn addresses_are_printed(rt: HostRuntime) -> Result<(), Fail> {
    for (text, wanted) in [
        // RFC 5952, sections 4.1 to 4.3
        ("2001:0db8::0001", "2001:db8::1"),
        ("2001:DB8:0:0:1:0:0:1", "2001:db8::1:0:0:1"),
        ("2001:db8:0:1:1:1:1:1", "2001:db8:0:1:1:1:1:1"),
        ("2001:0:0:1:0:0:0:1", "2001:0:0:1::1"),
        // a run of one at the end, a run at the end, and each digit
        ("1:2:3:4:5:6:7::", "1:2:3:4:5:6:7:0"),
        ("1:0:0:0:0:0:0:0", "1::"),
        (
            "123:4567:89AB:CDEF:00f:10:100:0",
            "123:4567:89ab:cdef:f:10:100:0",
        ),
    ] {
        let addr = parse(text).ok_or("an address")?;
        assert!(rt; print(rt.alloc(), &addr)?.as_str() == wanted, "{text}");
    }
    Ok(())
}

// Whether each prefix holds 2001:db8:1::1 and 2001:db8:2::1.
#[test]
fn prefixes_hold_addresses(rt: HostRuntime) -> Result<(), Fail> {
    let one = parse("2001:db8:1::1").ok_or("an address")?;
    let two = parse("2001:db8:2::1").ok_or("an address")?;
    for (text, holds) in [
        ("2001:db8:1::1/48", (true, false)),
        ("2001:db8:1::1/128", (true, false)),
        // within a byte: 1 and 2 differ in bits 46 and 47 alone
        ("2001:db8:3::/46", (true, true)),
        ("::/0", (true, true)),
    ] {
        let prefix = Prefix::parse(text).ok_or("a prefix")?;
        assert!(rt; (prefix.holds(&one), prefix.holds(&two)) == holds, "{text}");
    }
    assert!(rt; Some(Mask::new(46).clear(&one)) == parse("2001:db8::"));
    Ok(())
}
