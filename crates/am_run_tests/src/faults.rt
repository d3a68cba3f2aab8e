// What each command leaves where something fails: an input that can't be read is named, and of an output that takes no more
// the front is what was printed. A file is read to its end, which a read of its own finds: each of these files takes two.
use crate::captures::{DOWN, UP, capture, front};
use crate::runs::Fails::{Lines, Open, Read, Room, Write};
use crate::runs::{Fails, Files, files_of, run_over, wants};
use am_samples::TWO;
use std::alloc::{AllocError, Global};
use std::test::Fail;

// Of two captures in which each packet takes half a millisecond, and the second of block 1 is lost.
const TABLE: &[u8] = b"block,in,out,lost\n0,2,2,0\n1,3,2,1\n2,1,1,0\n";

// The first two lines are 86 bytes.
const SHOWN: &[u8] = b"1 1000000000 48 48 ip6 0:8,=59 74565/0/1 -
2 2000000000 48 48 ip6 0:8,=59 74565/0/0 -
3 11000000000 48 48 ip6 0:8,=59 74565/1/1 -
4 12000000000 48 48 ip6 0:8,=59 74565/1/0 -
5 13000000000 48 48 ip6 0:8,=59 74565/1/0 -
6 21000000000 48 48 ip6 0:8,=59 74565/0/1 -
";

const SUMMARY: &[u8] = b"blocks 0 2
guard 501000000 5000000000
flow voice 74565 2001:db8:1::/48 2001:db8:2::/48
node a 0 0 40000000000
node b 0 0 40000000000
link a b
";

const CLUSTER: &[u8] = b"cluster 0 links 0 starts a ends b\n";

// The reports of both points: sums and offsets of a block count from half a block before it, or from 0.
const REPORT: &[u8] = b"version,node,flow,block,count,sum,dcount,dsum
1,a,voice,0,2,3000000000,1,1000000000
1,a,voice,1,3,21000000000,1,6000000000
1,a,voice,2,1,6000000000,1,6000000000
";

const OTHER_REPORT: &[u8] = b"version,node,flow,block,count,sum,dcount,dsum
1,b,voice,0,2,3001000000,1,1000500000
1,b,voice,1,2,14001000000,1,6000500000
1,b,voice,2,1,6000500000,1,6000500000
";

const LOSSES: &[u8] = b"scope,flow,block,in,out,lost,delay,din,dout,ddelay
0,voice,0,2,2,0,1000000,1,1,500000
0,voice,1,3,2,1,-,1,1,500000
0,voice,2,1,1,0,500000,1,1,500000
network,voice,0,2,2,0,1000000,1,1,500000
network,voice,1,3,2,1,-,1,1,500000
network,voice,2,1,1,0,500000,1,1,500000
";

// No packets are no loss, of three blocks in the one cluster and in the network.
const NO_LOSS: &[u8] = b"cluster,true,reported,cells,equal\n0,0,0,3,3\nnetwork,0,0,3,3\n";

// A packet of the flow without a mark, and with its mark.
const PLAIN: [u8; 80] = [
    0xd4, 0xc3, 0xb2, 0xa1, 2, 0, 4, 0, 0, 0, 0, 0, 0, 0, 0, 0, 0, 0, 4, 0, 0x65, 0, 0, 0, // file header
    1, 0, 0, 0, 0, 0, 0, 0, 40, 0, 0, 0, 40, 0, 0, 0, // record of 40 bytes at second 1
    0x60, 0, 0, 0, 0, 0, 0x3b, 0x40, // version 6, payload length 0, no next header, hop limit 64
    0x20, 0x01, 0x0d, 0xb8, 0, 1, 0, 0, 0, 0, 0, 0, 0, 0, 0, 1, // source
    0x20, 0x01, 0x0d, 0xb8, 0, 2, 0, 0, 0, 0, 0, 0, 0, 0, 0, 1, // destination
];

const MARKED: [u8; 88] = [
    0xd4, 0xc3, 0xb2, 0xa1, 2, 0, 4, 0, 0, 0, 0, 0, 0, 0, 0, 0, 0, 0, 4, 0, 0x65, 0, 0, 0, // file header
    1, 0, 0, 0, 0, 0, 0, 0, 48, 0, 0, 0, 48, 0, 0, 0, // record of 48 bytes at second 1
    0x60, 0, 0, 0, 0, 8, 0, 0x40, // version 6, payload length 8, Hop-by-Hop, hop limit 64
    0x20, 0x01, 0x0d, 0xb8, 0, 1, 0, 0, 0, 0, 0, 0, 0, 0, 0, 1, // source
    0x20, 0x01, 0x0d, 0xb8, 0, 2, 0, 0, 0, 0, 0, 0, 0, 0, 0, 1, // destination
    0x3b, 0, 0x12, 4, 0x12, 0x34, 0x54, 0, // no next header, and the mark: flow 0x12345 with the delay bit
];

// The words of a command, the files that it reads in their order, all that it prints, and how many bytes of that it prints
// where the last read fails: `show`, `mark` and `strip` print what they have of a capture before they say why they stop.
type Run = (&'static str, &'static [&'static str], &'static [u8], usize);

// More bytes than any of them prints.
const ALL: usize = 1000;

const RUNS: [Run; 10] = [
    (
        "link 10000000000 0 74565 u.pcap v.pcap",
        &["u.pcap", "v.pcap"],
        TABLE,
        0,
    ),
    ("show u.pcap", &["u.pcap"], SHOWN, ALL),
    ("check two.toml", &["two.toml"], SUMMARY, 0),
    ("clusters two.toml", &["two.toml"], CLUSTER, 0),
    ("meter two.toml a", &["two.toml", "u.pcap"], REPORT, 0),
    (
        "audit two.toml",
        &["two.toml", "u.pcap", "v.pcap"],
        LOSSES,
        0,
    ),
    (
        "loss two.toml a.csv b.csv",
        &["two.toml", "a.csv", "b.csv"],
        LOSSES,
        0,
    ),
    ("sim two.toml 7 0", &["two.toml"], NO_LOSS, 0),
    (
        "mark two.toml plain.pcap",
        &["two.toml", "plain.pcap"],
        &MARKED,
        ALL,
    ),
    (
        "strip two.toml marked.pcap",
        &["two.toml", "marked.pcap"],
        &PLAIN,
        ALL,
    ),
];

// The files of all runs. One is cut inside its third record.
fn files(alloc: Global) -> Result<Files, AllocError> {
    let up = capture(alloc, &UP)?;
    let down = capture(alloc, &DOWN)?;
    let named: [(&str, &[u8]); 8] = [
        ("two.toml", TWO.as_bytes()),
        ("u.pcap", &up),
        ("v.pcap", &down),
        ("cut.pcap", front(&up, 162)),
        ("plain.pcap", &PLAIN),
        ("marked.pcap", &MARKED),
        ("a.csv", REPORT),
        ("b.csv", OTHER_REPORT),
    ];
    files_of(alloc, &named)
}

// Nothing is printed where an open or a read fails, but where it is the last read.
#[test]
fn names_the_input_that_fails(rt: HostRuntime) -> Result<(), Fail> {
    let alloc = rt.alloc();
    for (words, inputs, all, printed) in RUNS {
        let mut reads = 0u64;
        let mut opens = 0u64;
        for input in inputs {
            opens = opens.saturating_add(1);
            reads = reads.saturating_add(2);
            let last = opens == inputs.len() as u64;
            let some = if last { printed } else { 0 };
            let line = format!(in alloc; "altmark: {input}: read fault\n")?;
            for (fails, printed) in [
                (Open(opens), 0),
                (Read(reads.saturating_sub(1)), 0),
                (Read(reads), some),
            ] {
                let ran = run_over(alloc, words, files(alloc)?, fails)?;
                wants(&rt, &ran, (5, front(all, printed), &line), words, fails);
            }
        }
        let fails = Read(reads.saturating_add(1));
        let ran = run_over(alloc, words, files(alloc)?, fails)?;
        wants(&rt, &ran, (0, all, ""), words, fails);
    }
    Ok(())
}

// All is printed in one write. The line is printed where standard error has room for it.
#[test]
fn tells_that_the_output_fails(rt: HostRuntime) -> Result<(), Fail> {
    let alloc = rt.alloc();
    let line = "altmark: write fault\n";
    let rows: [(Fails, u8, usize, &str); 5] = [
        (Write(1), 6, 0, line),
        (Write(2), 0, ALL, ""),
        (Room(30), 6, 30, line),
        (Lines(7), 6, 0, "altmark"),
        (Lines(0), 6, 0, ""),
    ];
    for (words, _, all, _) in RUNS {
        for (fails, status, printed, line) in rows {
            let ran = run_over(alloc, words, files(alloc)?, fails)?;
            wants(&rt, &ran, (status, front(all, printed), line), words, fails);
        }
    }
    Ok(())
}

// A refused capture is shown up to the refusal, unless something fails before it. The node is asked for before any capture.
#[test]
fn tells_faults_beside_refusals(rt: HostRuntime) -> Result<(), Fail> {
    let alloc = rt.alloc();
    let rows: [(&str, Fails, u8, usize, &str); 4] = [
        (
            "show cut.pcap",
            Read(2),
            5,
            86,
            "altmark: cut.pcap: read fault\n",
        ),
        ("show cut.pcap", Write(1), 6, 0, "altmark: write fault\n"),
        (
            "show cut.pcap",
            Write(2),
            3,
            86,
            "altmark: cut.pcap: file ends in record 3\n",
        ),
        ("meter two.toml z", Open(2), 3, 0, "altmark: unknown node\n"),
    ];
    for (words, fails, status, printed, line) in rows {
        let ran = run_over(alloc, words, files(alloc)?, fails)?;
        wants(
            &rt,
            &ran,
            (status, front(SHOWN, printed), line),
            words,
            fails,
        );
    }
    Ok(())
}
