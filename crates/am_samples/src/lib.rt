//! What the tests of several crates begin with: a domain and the front of a capture, by hand from the formats. No other
//! crate stands on this one.
#![tactic(auto)]

/// Two nodes and a link. The blocks 0, 1 and 2 of 10 s are reported.
pub const TWO: &str =
    "timing = { block_ns = 10000000000, skew_ns = 1000000, delay_min_ns = 0, delay_max_ns = 500000000 }
marking = { place = \"hop-by-hop\" }
flow = [{ name = \"voice\", id = 74565, source = \"2001:db8:1::/48\", destination = \"2001:db8:2::/48\" }]
node = [{ name = \"a\", capture = \"u.pcap\", from_ns = 0, until_ns = 40000000000 },
    { name = \"b\", capture = \"v.pcap\", from_ns = 0, until_ns = 40000000000 }]
link = [{ from = \"a\", to = \"b\" }]
";

/// The file header of a capture of raw IP packets: microseconds, lowest byte first, version 2.4, snapshot length 262,144.
pub const HEAD: [u8; 24] =
    *b"\xd4\xc3\xb2\xa1\x02\x00\x04\x00\x00\x00\x00\x00\x00\x00\x00\x00\x00\x00\x04\x00\x65\x00\x00\x00";
