// A run over files and streams in memory, and what is wanted of it.
use am_base::{MemShelf, MemSink};
use am_run::run::run;
use std::alloc::{AllocError, Global};
use std::process::Abort;

// What fails in a run: the open, the read or the write of this number, counted from 1, or a stream that is full.
#[derive(Clone, Copy, Debug)]
pub enum Fails {
    Nothing,
    Open(u64),
    Read(u64),
    Write(u64),
    // standard output has room for so many bytes
    Room(u32),
    // standard output has no room, and standard error for so many bytes
    Lines(u32),
}

// Room enough on each stream.
const ENOUGH: u32 = 200_000;

// The open, the read and the write that fail, 0 for none, and the room of standard output and of standard error.
fn faults(fails: Fails) -> (u64, u64, u64, u32, u32) {
    match fails {
        Fails::Nothing => (0, 0, 0, ENOUGH, ENOUGH),
        Fails::Open(number) => (number, 0, 0, ENOUGH, ENOUGH),
        Fails::Read(number) => (0, number, 0, ENOUGH, ENOUGH),
        Fails::Write(number) => (0, 0, number, ENOUGH, ENOUGH),
        Fails::Room(room) => (0, 0, 0, room, ENOUGH),
        Fails::Lines(room) => (0, 0, 0, 0, room),
    }
}

// The files of a shelf.
pub type Files = Vec<(String, Vec<u8>)>;

// Files of these names and bytes.
pub fn files_of(alloc: Global, named: &[(&str, &[u8])]) -> Result<Files, AllocError> {
    let mut files = Vec::new(alloc);
    for (name, bytes) in named {
        files.push((
            String::from_str(alloc, name)?,
            Vec::from_slice(alloc, bytes)?,
        ))?;
    }
    Ok(files)
}

// What a run leaves.
#[derive(Drop)]
pub struct Ran {
    status: u8,
    out: MemSink,
    err: MemSink,
}

// Runs the program with these words, which spaces part.
pub fn run_over(alloc: Global, words: &str, files: Files, fails: Fails) -> Result<Ran, AllocError> {
    let (bad_open, bad_read, bad_write, room, error_room) = faults(fails);
    let bad_opens = Vec::from_slice(alloc, &[bad_open])?;
    let bad_reads = Vec::from_slice(alloc, &[bad_read])?;
    let bad_writes = Vec::from_slice(alloc, &[bad_write])?;
    let mut owned = Vec::new(alloc);
    for word in words.split(' ') {
        owned.push(String::from_str(alloc, word)?)?;
    }
    let mut shelf = MemShelf::new(files, bad_opens, bad_reads);
    let mut out = MemSink::new(alloc, room, bad_writes)?;
    let mut err = MemSink::new(alloc, error_room, Vec::new(alloc))?;
    let status = run(alloc, &owned, &mut shelf, &mut out, &mut err);
    Ok(Ran { status, out, err })
}

// What is wanted of such a run: the status, all of standard output, and all of standard error.
pub fn wants(rt: &impl Abort, ran: &Ran, wanted: (u8, &[u8], &str), words: &str, fails: Fails) {
    let (status, out, line) = wanted;
    assert_eq!(rt; ran.status, status, "status of {words} with {fails:?}");
    assert!(rt; ran.out.bytes() == out, "output of {words} with {fails:?}");
    assert!(rt;
        ran.err.bytes() == line.as_bytes(),
        "line of {words} with {fails:?}"
    );
}
