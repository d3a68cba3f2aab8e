//! What the tests of several libraries begin with: a domain, small networks, and captures.

use am_domain::{Domain, MAX_DOMAIN, read_domain};
use std::alloc::{AllocError, Global};
use std::fmt::Write;
use std::test::Fail;

/// The domain of a text.
pub(crate) fn domain_of(alloc: Global, text: &str) -> Result<Domain, Fail> {
    if text.len() > MAX_DOMAIN as usize {
        return Err(Fail::from("a text above the limit"));
    }
    Ok(read_domain(alloc, text.as_bytes())?)
}

/// The domain of a network, whose flows and nodes are letters, and whose links are pairs of them. Blocks last 10 ns, and 0
/// and 1 are reported.
pub(crate) fn network(
    alloc: Global,
    flows: &str,
    nodes: &str,
    links: &str,
) -> Result<Domain, Fail> {
    let mut text = String::from_str(
        alloc,
        "timing = { block_ns = 10, skew_ns = 0, delay_min_ns = 0, delay_max_ns = 0 }
marking = { place = \"hop-by-hop\" }
",
    )?;
    for flow in flows.chars() {
        let id = flow as u32;
        write!(
            text,
            "[[flow]]\nname = \"{flow}\"\nid = {id}\nsource = \"::/0\"\ndestination = \"::/0\"\n"
        )?;
    }
    for node in nodes.chars() {
        write!(
            text,
            "[[node]]\nname = \"{node}\"\ncapture = \"c\"\nfrom_ns = 0\nuntil_ns = 25\n"
        )?;
    }
    for link in links.split(' ') {
        let mut ends = link.chars();
        if let (Some(from), Some(to)) = (ends.next(), ends.next()) {
            write!(text, "[[link]]\nfrom = \"{from}\"\nto = \"{to}\"\n")?;
        }
    }
    domain_of(alloc, text.as_str())
}

/// The names of a report's columns.
pub(crate) const REPORT_HEAD: &str = "version,node,flow,block,count,sum,dcount,dsum\n";

/// The packet of each record, but for the last two bytes of its mark: from 2001:db8:1:: to 2001:db8:2::, with a
/// Hop-by-Hop Options header, in which an AltMark Option begins with the upper 16 bits of the flow 0x12345.
pub(crate) const PACKET: [u8; 46] = *b"\x60\x00\x00\x00\x00\x08\x00\x40\
\x20\x01\x0d\xb8\x00\x01\x00\x00\x00\x00\x00\x00\x00\x00\x00\x00\
\x20\x01\x0d\xb8\x00\x02\x00\x00\x00\x00\x00\x00\x00\x00\x00\x00\
\x3b\x00\x12\x04\x12\x34";

/// A record of a capture: its seconds, the four bytes of its nanoseconds, and the third byte of its mark's data, which
/// has the lower bits of the flow, the colour (8) and the delay bit (4).
pub(crate) type Written = (u8, [u8; 4], u8);

/// A capture of these records: nanoseconds, little-endian, version 2.4, at most 262,144 bytes of a packet, raw IP.
pub(crate) fn captured(alloc: Global, records: &[Written]) -> Result<Vec<u8>, AllocError> {
    let head =
        b"\x4d\x3c\xb2\xa1\x02\x00\x04\x00\x00\x00\x00\x00\x00\x00\x00\x00\x00\x00\x04\x00\x65\x00\x00\x00";
    let mut bytes = Vec::from_slice(alloc, head)?;
    for (seconds, fraction, bits) in records {
        bytes.extend_from_slice(&[*seconds, 0, 0, 0])?;
        bytes.extend_from_slice(fraction)?;
        bytes.extend_from_slice(b"\x30\x00\x00\x00\x30\x00\x00\x00")?;
        bytes.extend_from_slice(&PACKET)?;
        bytes.extend_from_slice(&[*bits, 0])?;
    }
    Ok(bytes)
}
