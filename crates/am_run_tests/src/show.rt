// `show` of captures that are longer than one read gives, or whose lines are more than one write takes: 65,536 bytes each.
use crate::captures::{DELAY, PLAIN, capture, front, push_seen};
use crate::runs::Fails::{Nothing, Read, Room, Write};
use crate::runs::{Fails, files_of, run_over, wants};
use std::alloc::Global;
use std::process::Abort;
use std::test::Fail;

const INPUT: &str = "altmark: u.pcap: read fault\n";

const OUTPUT: &str = "altmark: write fault\n";

// To how many bytes the capture is cut and what fails; then the status, how many bytes of the lines are printed, and the
// line on standard error.
type Row = (usize, Fails, u8, usize, &'static str);

// Shows a capture, of which these are the lines, for each row.
fn shows(
    rt: &impl Abort,
    alloc: Global,
    bytes: &[u8],
    lines: &[u8],
    rows: &[Row],
) -> Result<(), Fail> {
    for (length, fails, status, printed, line) in rows {
        let files = files_of(alloc, &[("u.pcap", front(bytes, *length))])?;
        let ran = run_over(alloc, "show u.pcap", files, *fails)?;
        let words = format!(in alloc; "show of {length} bytes")?;
        wants(
            rt,
            &ran,
            (*status, front(lines, *printed), line),
            &words,
            *fails,
        );
    }
    Ok(())
}

// The second of three records reaches beyond what one read gives.
#[test]
fn shows_what_was_read_before_a_fault(rt: HostRuntime) -> Result<(), Fail> {
    let alloc = rt.alloc();
    let lines = b"1 1000000000 48 48 ip6 0:8,=59 74565/0/1 -
2 2000000000 65600 65600 other
3 3000000000 48 48 ip6 0:8,=59 74565/0/0 -
";
    let mut bytes = capture(alloc, &[(1, 0, DELAY)])?;
    bytes.extend_from_slice(&[2, 0, 0, 0, 0, 0, 0, 0])?;
    bytes.extend_from_slice(&[0x40, 0x00, 0x01, 0x00, 0x40, 0x00, 0x01, 0x00])?;
    let long = vec![in alloc; 0u8; 65_600]?;
    bytes.extend_from_slice(&long)?;
    push_seen(&mut bytes, (3, 0, PLAIN))?;
    let all = 65_768;
    let rows: [Row; 3] = [
        (all, Read(2), 5, 43, INPUT),
        (all, Read(3), 5, 117, INPUT),
        (all, Read(4), 0, 117, ""),
    ];
    shows(&rt, alloc, &bytes, lines, &rows)
}

// What is held is written once it is 65,536 bytes or more. Of 2,800 records the lines of the first 1,383 are 65,553 bytes,
// and those of 1,338 more end at 131,115. One read gives 65,536 bytes, so the first ends in record 1,024 and the second in
// record 2,048. How many bytes are printed is counted by hand: a line has 41 bytes and twice the digits of its number.
#[test]
fn shows_around_the_edge_of_the_buffer(rt: HostRuntime) -> Result<(), Fail> {
    let alloc = rt.alloc();
    let mut bytes = capture(alloc, &[])?;
    let mut lines = Vec::new(alloc);
    for number in 1..=2_800u32 {
        push_seen(&mut bytes, (number, 0, PLAIN))?;
        let line = format!(in alloc; "{number} {number}000000000 48 48 ip6 0:8,=59 74565/0/0 -\n")?;
        lines.extend_from_slice(line.as_bytes())?;
    }
    let all = 179_224;
    let rows: [Row; 12] = [
        (all, Nothing, 0, 134_986, ""),
        (all, Read(2), 5, 47_913, INPUT),
        (all, Read(3), 5, 98_089, INPUT),
        (all, Read(4), 5, 134_986, INPUT),
        (88_512, Write(1), 6, 0, OUTPUT),
        (88_640, Write(2), 6, 65_553, OUTPUT),
        (all, Write(1), 6, 0, OUTPUT),
        (all, Write(2), 6, 65_553, OUTPUT),
        (all, Write(3), 6, 131_115, OUTPUT),
        (all, Room(65_552), 6, 65_552, OUTPUT),
        (all, Room(65_553), 6, 65_553, OUTPUT),
        (all, Room(65_554), 6, 65_554, OUTPUT),
    ];
    shows(&rt, alloc, &bytes, &lines, &rows)
}
