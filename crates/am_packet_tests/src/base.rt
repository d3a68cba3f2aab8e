//! Numbers in text and bytes, whole files and output in pieces in memory, and the real files and streams.
use crate::samples::shelf_of;
use am_base::{
    Buffer, DiskShelf, Fault, FileFault, MemSink, OpenError, Shelf, Sink, StdSink, be16, be32,
    decimal, le16, le32, put, read_file,
};
use std::alloc::{AllocError, Global};
use std::fs;
use std::test::Fail;

#[test]
fn numbers_are_read_from_text_and_bytes(rt: HostRuntime) {
    for (text, wanted) in [
        ("0", Some(0)),
        ("74565", Some(74_565)),
        ("340282366920938463463374607431768211455", Some(u128::MAX)),
        ("340282366920938463463374607431768211456", None),
        ("", None),
        ("01", None),
        ("+1", None),
        ("1_0", None),
        ("٣", None),
    ] {
        assert!(rt; decimal(text.as_bytes()) == wanted, "{text}");
    }
    assert!(rt; be16(b"\x12\x34") == 0x1234 && le16(b"\x12\x34") == 0x3412);
    assert!(rt; be32(b"\x12\x34\x56\x78") == 0x1234_5678);
    assert!(rt; le32(b"\x12\x34\x56\x78") == 0x7856_3412);
}

// A number of bytes, no two neighbours alike.
fn bytes_of(alloc: Global, count: usize) -> Result<Vec<u8>, AllocError> {
    let mut bytes = Vec::new(alloc);
    for i in 0..count {
        bytes.push((i % 251) as u8)?;
    }
    Ok(bytes)
}

// Each read asks for 65,536 bytes, so a file takes so many reads: that the one behind them would fail changes nothing.
#[test]
fn whole_files_are_read_up_to_the_limit(rt: HostRuntime) -> Result<(), Fail> {
    let alloc = rt.alloc();
    for (name, count, limit, bad_open, bad_read, fault) in [
        ("f", 0, 0, 0, 2, None),
        ("f", 1, 0, 0, 2, Some(FileFault::TooLong)),
        ("f", 65_536, 65_536, 0, 3, None),
        ("f", 65_537, 65_536, 0, 3, Some(FileFault::TooLong)),
        ("f", 140_000, u32::MAX, 0, 5, None),
        ("f", 140_000, u32::MAX, 0, 2, Some(FileFault::ReadFault)),
        ("f", 1, 1, 1, 0, Some(FileFault::ReadFault)),
        ("g", 1, 1, 0, 0, Some(FileFault::Missing)),
    ] {
        let bytes = bytes_of(alloc, count)?;
        let mut shelf = shelf_of(alloc, &bytes, bad_open, bad_read)?;
        let same = match read_file(alloc, &mut shelf, name, limit) {
            Ok(whole) => fault.is_none() && whole == bytes,
            Err(found) => fault == Some(found),
        };
        assert!(rt; same, "{count} {limit} {bad_read}");
    }
    Ok(())
}

// How many bytes come first, how many then, and how many of them are written before the flush; a sink that is too small.
#[test]
fn a_buffer_hands_on_at_its_edge(rt: HostRuntime) -> Result<(), Fail> {
    let alloc = rt.alloc();
    for (first, then, before, room) in [
        (65_535, 1, 0, 65_536),
        (65_535, 2, 65_535, 65_537),
        (1, 65_537, 65_538, 65_538),
        (2, 1, 0, 2),
    ] {
        let bytes = bytes_of(alloc, first + then)?;
        let front = bytes.get(..first).ok_or("a front")?;
        let back = bytes.get(first..).ok_or("a back")?;
        let mut sink = MemSink::new(alloc, room, Vec::new(alloc))?;
        let mut buffer = Buffer::new(alloc)?;
        buffer.write(&mut sink, front)?;
        buffer.write(&mut sink, back)?;
        assert!(rt; sink.bytes().len() == before, "{first} {then}");
        let done = buffer.flush(&mut sink).is_ok();
        assert!(rt; done == (room > 2), "{first} {then}");
        assert!(rt; bytes.starts_with(sink.bytes()), "{first} {then}");
        assert!(rt; sink.bytes().len() == room as usize, "{first} {then}");
    }
    Ok(())
}

// The next read of two bytes at most.
fn read_two<S: Shelf>(shelf: &mut S) -> Result<(usize, [u8; 2]), Fault> {
    let mut into = [9; 2];
    let count = shelf.read(&mut into)?;
    Ok((count, into))
}

// A file that is removed while it is open is read on.
#[test]
fn real_files_are_read_in_order(rt: HostRuntime) -> Result<(), Fail> {
    let name = "am_packet_tests_file";
    let bytes = bytes_of(rt.alloc(), 70_000)?;
    fs::write(&rt, name, bytes.as_slice())?;
    let mut shelf = DiskShelf::new(&rt);
    assert!(rt; read_two(&mut shelf) == Ok((0, [9, 9])), "none is open");
    let whole = read_file(rt.alloc(), &mut shelf, name, 70_000)?;
    assert!(rt; whole == bytes);
    shelf.open(name)?;
    fs::remove_file(&rt, name)?;
    assert!(rt; read_two(&mut shelf) == Ok((2, [0, 1])));
    assert!(rt; read_two(&mut shelf) == Ok((2, [2, 3])));
    assert!(rt; shelf.open(name) == Err(OpenError::Missing));
    assert!(rt; read_two(&mut shelf) == Ok((0, [9, 9])), "none is open");
    Ok(())
}

// A name of 300 bytes is too long for the system. A folder opens, and each read of it fails.
#[test]
fn what_the_system_refuses_is_a_fault_and_not_missing(rt: HostRuntime) -> Result<(), Fail> {
    let long = "n".repeat(rt.alloc(), 300)?;
    let mut shelf = DiskShelf::new(&rt);
    for (name, opened) in [
        ("am_packet_tests_no_folder/file", Err(OpenError::Missing)),
        (long.as_str(), Err(OpenError::Failed)),
        (".", Ok(())),
    ] {
        assert!(rt; shelf.open(name) == opened, "{name}");
    }
    assert!(rt; read_two(&mut shelf) == Err(Fault));
    put(&mut StdSink::output(&rt), b"to standard output\n")?;
    put(&mut StdSink::error(&rt), b"to standard error\n")?;
    Ok(())
}
