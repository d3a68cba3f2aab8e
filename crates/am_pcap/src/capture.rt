//! A capture's file on a shelf, read in pieces, and its records one by one.
ghost use Rattle.std.specs.Prelude.{◌≡◌, ◌+◌, ◌*◌, ◌<◌, ◌≤◌, ◌^◌, ℕ, List, [], ◌++◌, length, take, drop, false, Some, None, Ok, IfOk, IfErr, IfSome, IfNone, IsErrOf, IsTrue, OnOk, OnErr};
ghost use Rattle.std.specs.Borrow.{sem};
ghost use Rattle.am_base.specs.Counts.{Rose};
ghost use Rattle.am_base.specs.Shelves.{IsAbsent};
ghost use Rattle.am_base.specs.Files.{KeepsFiles};
ghost use Rattle.am_pcap.specs.Readings.{Reading};
ghost use Rattle.am_pcap.specs.CaptureFiles.{ReadsOn, WhyNotOpened};
ghost use Rattle.am_pcap.specs.Answers.{GivesEnd, GivesError, EndsReading, StopsReading};
ghost use Rattle.am_pcap.specs.declared.head.Head.{Head};
ghost use Rattle.am_pcap.specs.declared.capture.FileError.TheVariants.{Missing, ReadFault};

use crate::decoder::Decoder;
use crate::head::Head;
use crate::held::Held;
use crate::record::Record;
use crate::refusal::CapError;
use crate::seeking::{open_head, seek};
use am_base::{OpenError, Shelf};
use std::alloc::Global;
use std::marker::Model;

/// Why a capture's file could not be read on.
#[derive(Clone, Copy, Debug, PartialEq, Eq)]
pub enum FileError {
    /// No file has this name.
    Missing,
    /// The shelf failed to open or to read it.
    ReadFault,
    /// The file has more than 2^40 bytes.
    TooLong,
    /// The bytes of the file are no capture.
    Bad(CapError),
    /// There was not enough memory.
    Memory,
}

/// A capture's file that is read in pieces of 65,536 bytes, and gives its records one by one.
///
/// All memory is taken when it is opened.
#[derive(Drop)]
pub struct Capture {
    decoder: Decoder,
    held: Held,
    head: Head,
    read: u64,
    over: bool,
}

impl Model for Capture {
    ghost use Rattle.am_pcap.specs.Readings.{Reading};
    ghost use Rattle.am_pcap.specs.Seeking.{IsInOrder};

    ghost Value = { Reading };

    ghost view = { λ a.
        record { decoded = a.decoder; held = a.held; read = a.read; over = a.over } };

    ghost invariant = { λ a. IsInOrder
        (record { decoded = a.decoder; held = a.held; read = a.read; over = a.over }) a.head };
}

impl Capture {
    ghost use Rattle.am_pcap.specs.Left.{LeavesGiven};

    /// Opens the named file of the shelf, and reads it up to the end of its file header.
    ///
    /// `Missing`: no file has this name. `ReadFault`: the shelf failed. `Bad`: the file header is refused, or the file
    /// ends before it does. `Memory`: there was not enough.
    pub fn open<S: Shelf>(alloc: Global, shelf: &mut S, name: &str) -> Result<Capture, FileError>
        ensures reads { IfOk result (λ c. (h : Head) × (c.decoded.summary.head ≡ Some h)
            × ReadsOn (S.told shelf.old) (S.told shelf.new) name.now c h []) }
        ensures refused { IfErr result (λ e.
            WhyNotOpened (S.told shelf.old) (S.told shelf.new) name.now e) }
        ensures missing { IsErrOf result Missing
            → (Rose (S.missed shelf.old) (S.missed shelf.new))
            × IsAbsent (S.told shelf.old) name.now }
        ensures read_fault { IsErrOf result ReadFault
            → Rose (S.faults shelf.old) (S.faults shelf.new) }
        ensures files { KeepsFiles (S.told shelf.old) (S.told shelf.new) }
        ensures faults_stay { S.faults shelf.old ≤ S.faults shelf.new }
        ensures missed_stay { S.missed shelf.old ≤ S.missed shelf.new }
    {
        match shelf.open(name) {
            Ok(()) => {}
            Err(OpenError::Missing) => return Err(FileError::Missing),
            Err(OpenError::Failed) => return Err(FileError::ReadFault),
        }
        let Ok(mut decoder) = Decoder::new(alloc) else {
            return Err(FileError::Memory);
        };
        let Ok(mut held) = Held::new(alloc) else {
            return Err(FileError::Memory);
        };
        let mut read = 0;
        match open_head(&mut decoder, &mut held, &mut read, shelf) {
            Ok(head) => Ok(Capture {
                decoder,
                held,
                head,
                read,
                over: false,
            }),
            Err(error) => Err(error),
        }
    }

    /// The header of the file.
    pub fn head(&self) -> Head
        ensures { self.now.decoded.summary.head ≡ Some result }
    {
        self.head
    }

    /// The next record; None exactly where the file ended as a whole capture. The shelf's open file is the one that
    /// `open` opened. Records are numbered from 1. No memory is taken.
    ///
    /// `ReadFault`: the shelf failed. `TooLong`: more than 2^40 bytes were read. `Bad`: the bytes are no capture. No
    /// other error comes, and behind None or an error nothing may be asked.
    #[inline(always)]
    pub fn next<S: Shelf>(&mut self, shelf: &mut S) -> Result<Option<Record<'_>>, FileError>
        requires { self.old.over ≡ false }
        ensures* leaves { sem 𝓛
            (LeavesGiven self.entry self.old (S.told shelf.old) (S.told shelf.new) result) }
        ensures number { IfOk result (λ o. IfSome o (λ r.
            r.number ≡ self.old.decoded.summary.count + 1)) }
        ensures few { IfOk result (λ o. IfSome o (λ r. r.number ≤ 2 ^ 36)) }
        ensures ended { IfOk result (λ o.
            IfNone o (EndsReading self.old (S.told shelf.old) (S.told shelf.new))) }
        ensures at_end { IfOk result (λ o.
            IfNone o (GivesEnd self.old (S.told shelf.old) (S.told shelf.new))) }
        ensures refused { IfErr result (λ e.
            StopsReading self.old (S.told shelf.old) (S.told shelf.new) e) }
        ensures error { IfErr result (λ e.
            GivesError self.old (S.told shelf.old) (S.told shelf.new) e) }
        ensures read_fault { IsErrOf result ReadFault
            → Rose (S.faults shelf.old) (S.faults shelf.new) }
        ensures faults_stay { S.faults shelf.old ≤ S.faults shelf.new }
        ensures missed_stay { S.missed shelf.old ≤ S.missed shelf.new }
    {
        // A record that is whole in what was read is lent in its place.
        let big = self.head.form.big;
        match self.decoder.pass(big, self.held.bytes()) {
            Some(n) => {
                let number = self.decoder.count();
                return Ok(Some(self.held.lend(big, n, number)));
            }
            None => {}
        }
        match seek(&mut self.decoder, &mut self.held, &mut self.read, shelf) {
            Ok(true) => Ok(self.decoder.take()),
            Ok(false) => {
                self.over = true;
                Ok(None)
            }
            Err(error) => {
                self.over = true;
                Err(error)
            }
        }
    }
}
