//! The cells of the two points of a domain, by hand from the records' readings and marks.

ghost use Rattle.am_meter.specs.Metering.{HasDomainShape};

use crate::samples::{PACKET, Written, captured, domain_of};
use am_base::MemShelf;
use am_cells::Cells;
use am_domain::Domain;
use am_ip6::Place;
use am_meter::{Batch, CountError, MeterError, NoGate, Stream, count_parallel, meter_file};
use am_pcap::{CapError, FileError, LinkKind};
use am_samples::TWO;
use std::alloc::Global;
use std::test::Fail;

// Records of the flow at 1, 2, 11, 12, 13 and 21 s, of which the first of each block has the delay bit.
const RECORDS: [Written; 6] = [
    (1, [0; 4], 0x54),
    (2, [0; 4], 0x50),
    (11, [0; 4], 0x5c),
    (12, [0; 4], 0x58),
    (13, [0; 4], 0x58),
    (21, [0; 4], 0x54),
];

// A shelf with a capture of these records for each node, without so many bytes at its end.
fn shelf_of(alloc: Global, records: &[Written], less: usize) -> Result<MemShelf, Fail> {
    let mut files = Vec::new(alloc);
    for name in ["u.pcap", "v.pcap"] {
        let mut bytes = captured(alloc, records)?;
        bytes.truncate(bytes.len().saturating_sub(less));
        files.push((String::from_str(alloc, name)?, bytes))?;
    }
    Ok(MemShelf::new(files, Vec::new(alloc), Vec::new(alloc)))
}

#[test]
fn marked_records_are_given_in_order(rt: HostRuntime) -> Result<(), Fail> {
    let alloc = rt.alloc();
    let mut shelf = shelf_of(alloc, &RECORDS[..3], 0)?;
    let mut stream = Stream::open(alloc, &mut shelf, "u.pcap", Place::HopByHop)?;
    for wanted in [
        (1, 1_000_000_000, 0x12345, false, true),
        (2, 2_000_000_000, 0x12345, false, false),
        (3, 11_000_000_000, 0x12345, true, true),
    ] {
        let Some(marked) = stream.next(&mut shelf)? else {
            return Err(Fail::from("no record"));
        };
        let mark = marked.mark;
        let found = (
            marked.number,
            marked.reading,
            mark.flow(),
            mark.loss(),
            mark.delay(),
        );
        assert!(rt; found == wanted);
    }
    assert!(rt; stream.next(&mut shelf) == Ok(None));
    Ok(())
}

// The domain of two nodes, where the link takes 12 s at least. So the second node sees each block so much later, and blocks
// 0 and 1 are reported.
fn late(alloc: Global) -> Result<Domain, Fail> {
    let least = "delay_min_ns = 12000000000, delay_max_ns = 12";
    let text = TWO.replace(alloc, "delay_min_ns = 0, delay_max_ns = ", least)?;
    domain_of(alloc, text.as_str())
}

// The counts of the flow and a block: packets, the sum of their offsets, and both again of those with the delay bit.
fn counts(domain: &Domain, cells: &Cells, block: u64) -> Result<(u64, u128, u64, u128), Fail>
    requires { HasDomainShape domain.now cells.now }
{
    if block < domain.first() || block >= domain.end() {
        return Err(Fail::from("no block"));
    }
    let cell = cells.get(0, block);
    Ok((cell.count, cell.sum, cell.dcount, cell.dsum))
}

#[test]
fn a_node_counts_each_record_in_its_block(rt: HostRuntime) -> Result<(), Fail> {
    let alloc = rt.alloc();
    let domain = late(alloc)?;
    assert!(rt; domain.nodes().len() == 2);
    let mut shelf = shelf_of(alloc, &RECORDS, 0)?;
    // At the second node block 0 is seen from 7 s on, and block 1 from 17 s on.
    for (node, zero, one) in [
        (
            0,
            (2, 3_000_000_000, 1, 1_000_000_000),
            (3, 21_000_000_000, 1, 6_000_000_000),
        ),
        (1, (1, 21_000_000_000, 1, 21_000_000_000), (0, 0, 0, 0)),
    ] {
        let cells = meter_file(alloc, &domain, node, &mut shelf, &NoGate)?;
        assert!(rt; counts(&domain, &cells, 0)? == zero);
        assert!(rt; counts(&domain, &cells, 1)? == one);
    }
    // But for its last byte the file has all records.
    let mut shelf = shelf_of(alloc, &RECORDS, 1)?;
    let answer = meter_file(alloc, &domain, 0, &mut shelf, &NoGate);
    let cut = FileError::Bad(CapError::CutFile { number: 6 });
    assert!(rt; answer.err() == Some(MeterError::File(cut)));
    Ok(())
}

#[test]
fn a_batch_has_the_cells_of_its_records(rt: HostRuntime) -> Result<(), Fail> {
    let alloc = rt.alloc();
    let domain = late(alloc)?;
    assert!(rt; domain.nodes().len() == 2);
    let mut packet = Vec::from_slice(alloc, &PACKET)?;
    packet.extend_from_slice(&[0x58, 0])?;
    let mut batch = Batch::new(alloc)?;
    // the last two are one without a mark, and one after all blocks of its colour that are reported
    for (number, link, reading) in [
        (7, LinkKind::RawIp, 5_000_000_000),
        (8, LinkKind::RawIp, 24_999_999_999),
        (9, LinkKind::Ethernet, 6_000_000_000),
        (10, LinkKind::RawIp, 25_000_000_000),
    ] {
        assert!(rt; batch.push(link, number, reading, true, &packet));
    }
    assert!(rt; batch.len() == 4);
    for workers in [1, 64] {
        let cells = count_parallel(alloc, &domain, 0, &batch, workers, &NoGate)?;
        assert!(rt; counts(&domain, &cells, 1)? == (2, 19_999_999_999, 0, 0));
    }
    batch.clear();
    assert!(rt; batch.push(LinkKind::RawIp, 12, 5_000_000_000, false, &PACKET));
    let answer = count_parallel(alloc, &domain, 0, &batch, 1, &NoGate);
    assert!(rt; answer.err() == Some(CountError::HeadersCut { number: 12 }));
    Ok(())
}
