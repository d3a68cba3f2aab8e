//! A whole file of a shelf.
ghost use Rattle.std.specs.Prelude.{◌≡◌, ◌≤◌, ◌<◌, ◌++◌, ℕ, List, length, IfOk, IfErr, OnOk, IsErrOf, vec_len};
ghost use Rattle.am_base.specs.Counts.{Rose};
ghost use Rattle.am_base.specs.Shelves.{IsAbsent, Takes, IsAtEnd};
ghost use Rattle.am_base.specs.Files.{HasFile, IsLonger, IsWholeRead, WhyNotRead, WhyNoMore, KeepsFiles};
ghost use Rattle.am_base.specs.declared.file.FileFault.TheVariants.{Missing, ReadFault, TooLong};

use crate::shelf::{Fault, OpenError, Shelf};
use std::alloc::{AllocError, Global};

/// Why a file could not be read whole.
#[derive(Clone, Copy, Debug, PartialEq, Eq)]
pub enum FileFault {
    /// No file has this name.
    Missing,
    /// The shelf failed to open or to read it.
    ReadFault,
    /// The file has more bytes than the limit.
    TooLong,
    /// There was not enough memory.
    Memory,
}

/// How many bytes each read asks for.
const READ_SIZE: usize = 65_536;

/// The bytes of the named file, which are at most `limit`. Each read asks for 65,536 bytes, and the file ends where a
/// read gives none.
///
/// `Missing`: no file has this name. `ReadFault`: the shelf failed. `TooLong`: more than `limit` bytes were read.
/// `Memory`: there was not enough. In each case the shelf's files are as they were.
pub fn read_file<S: Shelf>(
    alloc: Global,
    shelf: &mut S,
    name: &str,
    limit: u32,
) -> Result<Vec<u8>, FileFault>
    ensures bytes { IfOk result (λ v. HasFile (S.told shelf.old) name.now v.items) }
    ensures whole { IfOk result (λ v.
        IsWholeRead (S.told shelf.old) (S.told shelf.new) name.now v.items) }
    ensures bound { IfOk result (λ v. vec_len v ≤ limit) }

    // Each refusal has its cause, and leaves of the shelf what it says.
    ensures refused { IfErr result (λ fault.
        WhyNotRead (S.told shelf.old) (S.told shelf.new) name.now limit fault) }
    ensures missing { IsErrOf result Missing →
        Rose (S.missed shelf.old) (S.missed shelf.new) × IsAbsent (S.told shelf.old) name.now }
    ensures read_fault { IsErrOf result ReadFault
        → Rose (S.faults shelf.old) (S.faults shelf.new) }
    ensures too_long { IsErrOf result TooLong → IsLonger (S.told shelf.old) name.now limit }
    ensures files { KeepsFiles (S.told shelf.old) (S.told shelf.new) }
    ensures faults_stay { S.faults shelf.old ≤ S.faults shelf.new }
    ensures missed_stay { S.missed shelf.old ≤ S.missed shelf.new }
{
    match shelf.open(name) {
        Ok(()) => {}
        Err(OpenError::Missing) => return Err(FileFault::Missing),
        Err(OpenError::Failed) => return Err(FileFault::ReadFault),
    }
    let Ok(mut chunk) = chunk_of(alloc) else {
        return Err(FileFault::Memory);
    };
    let mut bytes = Vec::new(alloc);
    loop {
        match read_more(shelf, &mut chunk, &mut bytes, limit) {
            Ok(0) => return Ok(bytes),
            Ok(_) => {}
            Err(fault) => return Err(fault),
        }
    }
}

// Room for one read.
fn chunk_of(alloc: Global) -> Result<Vec<u8>, AllocError>
    ensures { IfOk result (λ v. vec_len v ≡ READ_SIZE) }
{
    vec![in alloc; 0; READ_SIZE]
}

// One read of the open file, whose bytes are added to those before; none at its end.
fn read_more<S: Shelf>(
    shelf: &mut S,
    chunk: &mut [u8],
    bytes: &mut Vec<u8>,
    limit: u32,
) -> Result<usize, FileFault>
    requires room { 0 < length chunk.old }
    requires bound { vec_len bytes.old ≤ limit }
    ensures added { IfOk result (λ n. (piece : List ℕ) × (length piece ≡ n)
        × Takes (S.told shelf.old) (S.told shelf.new) piece
        × (bytes.new.items ≡ bytes.old.items ++ piece)) }
    ensures within { OnOk result (vec_len bytes.new ≤ limit) }
    ensures end { IfOk result (λ n. n ≡ 0 → IsAtEnd (S.told shelf.old)) }
    ensures refused { IfErr result (λ fault.
        WhyNoMore (S.told shelf.old) (S.told shelf.new) (vec_len bytes.old) limit fault) }
    ensures read_fault { IsErrOf result ReadFault
        → Rose (S.faults shelf.old) (S.faults shelf.new) }
    ensures files { KeepsFiles (S.told shelf.old) (S.told shelf.new) }
    ensures faults_stay { S.faults shelf.old ≤ S.faults shelf.new }
    ensures missed_stay { S.missed shelf.old ≤ S.missed shelf.new }
{
    let Ok(n) = shelf.read(chunk) else {
        return Err(FileFault::ReadFault);
    };
    let piece = &chunk[..n];
    if bytes.len() + n > limit as usize {
        return Err(FileFault::TooLong);
    }
    let Ok(()) = bytes.extend_from_slice(piece) else {
        return Err(FileFault::Memory);
    };
    Ok(n)
}
