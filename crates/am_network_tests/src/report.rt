//! A report against a text that was written by hand, and the lines that refuse other texts.

use crate::samples::{REPORT_HEAD, domain_of};
use am_base::MemSink;
use am_cells::Row;
use am_domain::Domain;
use am_report::{MAX_REPORT, Refusal, read_report, write_head, write_report, write_row};
use am_samples::TWO;
use std::alloc::Global;
use std::test::Fail;

// What node a counts of six packets of the flow, with the readings 1, 2, 11, 12, 13 and 21 s, of which the first of
// each block has the delay bit.
const ROWS: &str = "1,a,voice,0,2,3000000000,1,1000000000
1,a,voice,1,3,21000000000,1,6000000000
1,a,voice,2,1,6000000000,1,6000000000
";

#[test]
fn a_report_is_read_and_written(rt: HostRuntime) -> Result<(), Fail> {
    let alloc = rt.alloc();
    let domain = domain_of(alloc, TWO)?;
    assert!(rt; (domain.nodes().len(), domain.flows().len()) == (2, 1));
    let text = format!(in alloc; "{REPORT_HEAD}{ROWS}")?;
    assert!(rt; text.len() <= MAX_REPORT as usize);
    let report = read_report(alloc, &domain, text.as_bytes())?;
    assert!(rt; (report.node, report.cells.total()) == (0, 6));
    let mut whole = MemSink::new(alloc, 1000, Vec::new(alloc))?;
    assert!(rt; write_report(alloc, &domain, 0, &report.cells, &mut whole).is_ok());
    assert!(rt; whole.bytes() == text.as_bytes());
    let mut rows = MemSink::new(alloc, 1000, Vec::new(alloc))?;
    assert!(rt; write_head(alloc, &mut rows).is_ok());
    for block in domain.first()..domain.end() {
        let cell = report.cells.get(0, block);
        let row = Row {
            flow: 0,
            block,
            cell,
        };
        assert!(rt; write_row(alloc, &domain, 0, &row, &mut rows).is_ok());
    }
    assert!(rt; rows.bytes() == text.as_bytes());
    Ok(())
}

// What is said of bytes that are no report of the domain; nothing of those that are one.
fn line_of(alloc: Global, domain: &Domain, bytes: &[u8]) -> Result<String, Fail> {
    if bytes.len() > MAX_REPORT as usize {
        return Err(Fail::from("bytes above the limit"));
    }
    let Err(error) = read_report(alloc, domain, bytes) else {
        return Ok(String::new(alloc));
    };
    let flow = error.named_flow(domain);
    Ok(format!(in alloc; "{}", Refusal { error, flow })?)
}

// What stands below the names of the columns, and what is said of it.
const REFUSED: [(&[u8], &str); 7] = [
    (b"", "short: flow voice block 0"),
    (b"2,a,voice,0,0,0,0,0\n", "bad row 2"),
    // more packets than there may be, in two rows
    (
        b"1,a,voice,0,1099511627776,0,0,0\n1,a,voice,1,1,0,0,0\n",
        "bad row 3",
    ),
    // a row without any byte is no row, and a field that isn't UTF-8 names no node
    (
        b"\r\n\n1,a,\"voice\",0,2,3000000000,1,1000000000\r\n\n\n1,\xff,voice,1,0,0,0,0\n",
        "row 3: unknown node",
    ),
    (
        b"1,a,voice,0,0,0,0,0\n1,b,voice,1,0,0,0,0\n",
        "row 3: other node",
    ),
    (b"1,a,video,0,0,0,0,0\n", "row 2: unknown flow"),
    (b"1,a,voice,1,0,0,0,0\n", "row 2: out of order"),
];

#[test]
fn other_texts_are_refused(rt: HostRuntime) -> Result<(), Fail> {
    let alloc = rt.alloc();
    let domain = domain_of(alloc, TWO)?;
    let line = line_of(alloc, &domain, b"")?;
    assert!(rt; line.as_str() == "bad header");
    for (rows, wanted) in &REFUSED {
        let mut text = Vec::from_slice(alloc, REPORT_HEAD.as_bytes())?;
        text.extend_from_slice(rows)?;
        let line = line_of(alloc, &domain, &text)?;
        assert!(rt; line.as_str() == *wanted);
    }
    Ok(())
}
