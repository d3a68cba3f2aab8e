//! How a capture over a shelf comes to its file header, and then from record to record.
ghost use Rattle.std.specs.Prelude.{◌≡◌, ◌+◌, ◌*◌, ◌<◌, ◌≤◌, ◌^◌, ℕ, List, [], ◌++◌, length, Some, None, IfOk, IfErr, IsErrOf, IsSome, IsTrue, OnOk, false, true};
ghost use Rattle.am_base.specs.Counts.{Rose};
ghost use Rattle.am_base.specs.Shelves.{Takes, IsAtEnd};
ghost use Rattle.am_pcap.specs.Captures.{HasSummary};
ghost use Rattle.am_pcap.specs.Decoded.{CanTake};
ghost use Rattle.am_pcap.specs.Answers.{GivesError};
ghost use Rattle.am_pcap.specs.Seeking.{InOrder, Drains, DrainsTo, RefillFails, HeadUnread, HeadFed, HeadBad, HeadFound, HeadFails, HeadSteps, Steps, Sought, reading_with};
ghost use Rattle.am_pcap.specs.declared.capture.FileError.TheVariants.{ReadFault};

use crate::capture::FileError;
use crate::decoder::Decoder;
use crate::head::{FILE_HEAD, Head};
use crate::held::Held;
use crate::refusal::CapError;
use am_base::Shelf;

/// The most bytes of a capture's file: 2^40. So every number of a record and every sum of counts stays far within its
/// type.
pub const MAX_READ: u64 = 1 << 40;

/// What a step came to.
#[derive(Clone, Copy, Debug, PartialEq, Eq)]
enum Step {
    /// A record waits.
    Waits,
    /// The file is at its end, and is a whole capture.
    Ends,
    /// More bytes were read.
    Continues,
}

/// Reads up to the end of the file header, and answers it.
pub fn open_head<S: Shelf>(
    decoder: &mut Decoder,
    held: &mut Held,
    read: &mut u64,
    shelf: &mut S,
) -> Result<Head, FileError>
    requires { HeadUnread (reading_with decoder.old held.old read.old) }
    ensures found { IfOk result (λ h.
        HeadFound (reading_with decoder.old held.old read.old)
        (reading_with decoder.new held.new read.new)
        (S.told shelf.old) (S.told shelf.new) h) }
    ensures fails { IfErr result (λ e.
        HeadFails decoder.old (S.told shelf.old) (S.told shelf.new) e) }
    ensures read_fault { IsErrOf result ReadFault
        → Rose (S.faults shelf.old) (S.faults shelf.new) }
    ensures faults_stay { S.faults shelf.old ≤ S.faults shelf.new }
    ensures missed_stay { S.missed shelf.old ≤ S.missed shelf.new }
{
    'heading: loop {
        match head_step(decoder, held, read, shelf) {
            Ok(Some(head)) => return Ok(head),
            Ok(None) => {}
            Err(error) => return Err(error),
        }
    }
}

// Reads once, and hands the decoder what is missing of the file header.
fn head_step<S: Shelf>(
    decoder: &mut Decoder,
    held: &mut Held,
    read: &mut u64,
    shelf: &mut S,
) -> Result<Option<Head>, FileError>
    requires { HeadUnread (reading_with decoder.old held.old read.old) }
    ensures steps { IfOk result (λ o.
        HeadSteps (reading_with decoder.old held.old read.old)
        (reading_with decoder.new held.new read.new)
        (S.told shelf.old) (S.told shelf.new) o) }
    ensures fails { IfErr result (λ e.
        HeadFails decoder.old (S.told shelf.old) (S.told shelf.new) e) }
    ensures read_fault { IsErrOf result ReadFault
        → Rose (S.faults shelf.old) (S.faults shelf.new) }
    ensures faults_stay { S.faults shelf.old ≤ S.faults shelf.new }
    ensures missed_stay { S.missed shelf.old ≤ S.missed shelf.new }
{
    let missing = FILE_HEAD - *read as usize;
    let Ok(()) = held.load(shelf) else {
        return Err(FileError::ReadFault);
    };
    let more = held.len();
    if more == 0 {
        return Err(FileError::Bad(CapError::CutFile { number: 0 }));
    }
    *read += more as u64;
    match feed_head(decoder, held, missing) {
        Ok(()) => Ok(decoder.head()),
        Err(error) => Err(FileError::Bad(error)),
    }
}

// Hands the decoder what is missing of the file header, of the bytes that are held.
fn feed_head(decoder: &mut Decoder, held: &mut Held, missing: usize) -> Result<(), CapError>
    requires head { decoder.old.summary.head ≡ None }
    requires clean { decoder.old.summary.error ≡ None }
    requires none_waits { decoder.old.waiting ≡ None }
    requires missing { decoder.old.summary.taken + missing ≡ FILE_HEAD }
    requires told { (bytes : List ℕ) × HasSummary bytes [] decoder.old.summary }
    ensures fed { OnOk result (HeadFed decoder.old held.old decoder.new held.new) }
    ensures bad { IfErr result (λ e. HeadBad decoder.old held.old e) }
{
    let n = missing.min(held.len());
    match decoder.feed(&held.bytes()[..n]) {
        Ok(taken) => {
            held.skip(taken);
            Ok(())
        }
        Err(error) => Err(error),
    }
}

/// Reads on until a record waits: true. False: the file is at its end, and is a whole capture.
#[cold]
#[inline(never)]
pub fn seek<S: Shelf>(
    decoder: &mut Decoder,
    held: &mut Held,
    read: &mut u64,
    shelf: &mut S,
) -> Result<bool, FileError>
    requires order { InOrder (reading_with decoder.old held.old read.old) }
    requires head { IsSome decoder.old.summary.head }
    ensures sought { IfOk result (λ found.
        Sought (reading_with decoder.old held.old read.old)
        (reading_with decoder.new held.new read.new)
        (S.told shelf.old) (S.told shelf.new) found) }
    ensures refused { IfErr result (λ e.
        GivesError (reading_with decoder.old held.old read.old)
        (S.told shelf.old) (S.told shelf.new) e) }
    ensures head { decoder.new.summary.head ≡ decoder.old.summary.head }
    ensures read_fault { IsErrOf result ReadFault
        → Rose (S.faults shelf.old) (S.faults shelf.new) }
    ensures faults_stay { S.faults shelf.old ≤ S.faults shelf.new }
    ensures missed_stay { S.missed shelf.old ≤ S.missed shelf.new }
{
    'seeking: loop {
        match seek_step(decoder, held, read, shelf) {
            Ok(Step::Waits) => return Ok(true),
            Ok(Step::Ends) => return Ok(false),
            Ok(Step::Continues) => {}
            Err(error) => return Err(error),
        }
    }
}

// Hands the decoder what is held, and where no record waits then, reads more.
fn seek_step<S: Shelf>(
    decoder: &mut Decoder,
    held: &mut Held,
    read: &mut u64,
    shelf: &mut S,
) -> Result<Step, FileError>
    requires order { InOrder (reading_with decoder.old held.old read.old) }
    requires head { IsSome decoder.old.summary.head }
    ensures steps { IfOk result (λ s.
        Steps (reading_with decoder.old held.old read.old)
        (reading_with decoder.new held.new read.new)
        (S.told shelf.old) (S.told shelf.new) s) }
    ensures refused { IfErr result (λ e.
        GivesError (reading_with decoder.old held.old read.old)
        (S.told shelf.old) (S.told shelf.new) e) }
    ensures head { decoder.new.summary.head ≡ decoder.old.summary.head }
    ensures read_fault { IsErrOf result ReadFault
        → Rose (S.faults shelf.old) (S.faults shelf.new) }
    ensures faults_stay { S.faults shelf.old ≤ S.faults shelf.new }
    ensures missed_stay { S.missed shelf.old ≤ S.missed shelf.new }
{
    match drain(decoder, held) {
        Ok(()) => {}
        Err(error) => return Err(FileError::Bad(error)),
    }
    if decoder.is_waiting() {
        return Ok(Step::Waits);
    }
    match refill(held, read, shelf) {
        Ok(true) => return Ok(Step::Continues),
        Ok(false) => {}
        Err(error) => return Err(error),
    }
    match decoder.finish() {
        Ok(()) => Ok(Step::Ends),
        Err(error) => Err(FileError::Bad(error)),
    }
}

// Hands the decoder what is held, of which it takes all, or as much as brings a record to wait.
fn drain(decoder: &mut Decoder, held: &mut Held) -> Result<(), CapError>
    requires clean { decoder.old.summary.error ≡ None }
    requires none_waits { decoder.old.waiting ≡ None }
    requires room { CanTake decoder.old held.old }
    requires head { IsSome decoder.old.summary.head }
    ensures drains { OnOk result (Drains decoder.old held.old decoder.new held.new) }
    ensures refused { IfErr result (λ e. DrainsTo decoder.old held.old e) }
    ensures head { decoder.new.summary.head ≡ decoder.old.summary.head }
{
    match decoder.feed(held.bytes()) {
        Ok(n) => {
            held.skip(n);
            Ok(())
        }
        Err(error) => Err(error),
    }
}

// Reads more bytes where none are held: true. False: the file is at its end.
fn refill<S: Shelf>(held: &mut Held, read: &mut u64, shelf: &mut S) -> Result<bool, FileError>
    requires none { held.old ≡ [] }
    requires short { read.old ≤ MAX_READ }
    ensures taken { OnOk result (Takes (S.told shelf.old) (S.told shelf.new) held.new) }
    ensures more { IfOk result (λ more. more ≡ true → 0 < length held.new) }
    ensures end { IfOk result (λ more.
        more ≡ false → (held.new ≡ []) × IsAtEnd (S.told shelf.old)) }
    ensures read { OnOk result (read.new ≡ read.old + length held.new) }
    ensures short { OnOk result (read.new ≤ MAX_READ) }
    ensures fails { IfErr result (λ e.
        RefillFails read.old (S.told shelf.old) (S.told shelf.new) e) }
    ensures read_fault { IsErrOf result ReadFault
        → Rose (S.faults shelf.old) (S.faults shelf.new) }
    ensures faults_stay { S.faults shelf.old ≤ S.faults shelf.new }
    ensures missed_stay { S.missed shelf.old ≤ S.missed shelf.new }
{
    let Ok(()) = held.load(shelf) else {
        return Err(FileError::ReadFault);
    };
    let more = held.len();
    if more == 0 {
        return Ok(false);
    }
    *read += more as u64;
    if *read > MAX_READ {
        return Err(FileError::TooLong);
    }
    Ok(true)
}
