//! The marked records of a capture on a shelf, one by one.
ghost use Rattle.std.specs.Prelude.{◌≡◌, ◌≤◌, true, false, List, [], Err, IfOk, IfErr, IfSome, IfNone, OnErr, IsErrOf};
ghost use Rattle.am_base.specs.Counts.{Rose};
ghost use Rattle.am_base.specs.Shelves.{IsAbsent};
ghost use Rattle.am_base.specs.Files.{KeepsFiles};
ghost use Rattle.am_ip6.specs.Seen.{seen_shown};
ghost use Rattle.am_pcap.specs.Shown.{packet_shown};
ghost use Rattle.am_pcap.specs.Answers.{EndsReading, GivesError, StopsReading};
ghost use Rattle.am_pcap.specs.declared.capture.FileError.TheVariants as file;
ghost use Rattle.am_meter.specs.Marks.{IsSeenIn, AreSeen};
ghost use Rattle.am_meter.specs.Streaming.{stream_of};
ghost use Rattle.am_meter.specs.Streams.{StreamsOn, GivesMarked, EndsStream, StopsStream, MayStop, WhyNotStreamed};
ghost use Rattle.am_meter.specs.Looks.{LooksAt, ShowsAs};
ghost use Rattle.am_meter.specs.declared.stream.MeterError.TheVariants.{File};

use am_base::Shelf;
use am_ip6::{Found, Place, find_mark};
use am_opts::Mark;
use am_pcap::{Capture, FileError, Frame, Head, LinkKind, Record, packet_of};
use std::alloc::Global;
use std::marker::Model;

/// A record of a capture whose packet is marked.
#[derive(Clone, Copy, Debug, PartialEq, Eq)]
pub struct Marked {
    /// The record's place in its capture, from 1.
    pub number: u64,
    /// When the packet was seen, in nanoseconds from the capture's epoch.
    pub reading: u64,
    /// What the packet's mark says.
    pub mark: Mark,
}

/// Why the marked records of a capture's file could not be given.
#[derive(Clone, Copy, Debug, PartialEq, Eq)]
pub enum MeterError {
    /// The file could not be read on.
    File(FileError),
    /// The headers of the record of this number are cut: bytes that may hold a mark were not captured.
    HeadersCut { number: u64 },
}

/// The marked records of a capture's file, given one by one.
///
/// All memory is taken when it is opened.
#[derive(Drop)]
pub struct Stream {
    capture: Capture,
    place: Place,
    over: bool,
}

impl Model for Stream {
    ghost use Rattle.std.specs.Prelude.{◌≡◌, false};
    ghost use Rattle.am_meter.specs.Streaming.{Streaming};

    ghost Value = { Streaming };

    ghost view = { λ s. record { capture = s.capture; place = s.place; over = s.over } };

    ghost invariant = { λ s. s.over ≡ false → s.capture.over ≡ false };
}

impl Stream {
    /// Opens the named file of the shelf, and reads it up to the end of its file header. Marks are looked for in
    /// headers of this kind.
    ///
    /// `File`: as `Capture::open` says, and never `TooLong`. `HeadersCut` doesn't come.
    pub fn open<S: Shelf>(
        alloc: Global,
        shelf: &mut S,
        name: &str,
        place: Place,
    ) -> Result<Stream, MeterError>
        ensures streams { IfOk result (λ s.
            StreamsOn (S.told shelf.old) (S.told shelf.new) name.now place s []) }
        ensures refused { IfErr result (λ e.
            WhyNotStreamed place (S.told shelf.old) (S.told shelf.new) name.now e) }
        ensures missing { IsErrOf result (File file.Missing) →
            Rose (S.missed shelf.old) (S.missed shelf.new) × IsAbsent (S.told shelf.old) name.now }
        ensures read_fault { IsErrOf result (File file.ReadFault) →
            Rose (S.faults shelf.old) (S.faults shelf.new) }
        ensures files { KeepsFiles (S.told shelf.old) (S.told shelf.new) }
        ensures faults_stay { S.faults shelf.old ≤ S.faults shelf.new }
        ensures missed_stay { S.missed shelf.old ≤ S.missed shelf.new }
    {
        match Capture::open(alloc, shelf, name) {
            Ok(capture) => Ok(Stream {
                capture,
                place,
                over: false,
            }),
            Err(error) => Err(MeterError::File(error)),
        }
    }

    /// The next marked record; None exactly where the file ended as a whole capture. The shelf's open file is the one
    /// that `open` opened. Numbers ascend, and are those of the records in the capture. No memory is taken.
    ///
    /// `File`: `ReadFault`, `TooLong` or `Bad`, as `Capture::next` says. `HeadersCut`: nobody knows whether the next
    /// record is marked. Behind None or an error nothing may be asked.
    pub fn next<S: Shelf>(&mut self, shelf: &mut S) -> Result<Option<Marked>, MeterError>
        requires { self.old.over ≡ false }
        ensures gives { IfOk result (λ o. IfSome o (λ m.
            GivesMarked self.old self.new (S.told shelf.old) (S.told shelf.new) m)) }
        ensures ended { IfOk result (λ o. IfNone o
            (EndsStream self.old (S.told shelf.old) (S.told shelf.new))) }
        ensures stopped { IfErr result (λ e.
            StopsStream self.old (S.told shelf.old) (S.told shelf.new) e) }
        ensures may_stop { IfErr result (λ e. MayStop self.old e) }

        // Nothing may be asked behind the end or an error, on whatever shelf.
        ensures over { IfOk result (λ o. IfNone o (self.new.over ≡ true)) }
        ensures over_too { OnErr result (self.new.over ≡ true) }
        ensures read_fault { IsErrOf result (File file.ReadFault) →
            Rose (S.faults shelf.old) (S.faults shelf.new) }
        ensures faults_stay { S.faults shelf.old ≤ S.faults shelf.new }
        ensures missed_stay { S.missed shelf.old ≤ S.missed shelf.new }
    {
        match next_marked(&mut self.capture, self.place, shelf) {
            Ok(Some(marked)) => Ok(Some(marked)),
            Ok(None) => {
                self.over = true;
                Ok(None)
            }
            Err(error) => {
                self.over = true;
                Err(error)
            }
        }
    }
}

// What is seen of a record of a capture.
#[derive(Drop)]
enum Looked {
    // It is marked.
    Marked(Marked),
    // It isn't.
    Unmarked,
    // Nobody knows: the headers of the record of this number are cut.
    Cut { number: u64 },
}

// The next marked record of a capture. Those without a mark are passed over.
fn next_marked<S: Shelf>(
    capture: &mut Capture,
    place: Place,
    shelf: &mut S,
) -> Result<Option<Marked>, MeterError>
    requires { capture.old.over ≡ false }
    ensures gives { IfOk result (λ o. IfSome o (λ m.
        GivesMarked (stream_of place capture.old) (stream_of place capture.new)
        (S.told shelf.old) (S.told shelf.new) m)) }
    ensures goes_on { IfOk result (λ o. IfSome o (λ _. capture.new.over ≡ false)) }
    ensures ended { IfOk result (λ o. IfNone o
        (EndsStream (stream_of place capture.old) (S.told shelf.old) (S.told shelf.new))) }
    ensures stopped { IfErr result (λ e.
        StopsStream (stream_of place capture.old) (S.told shelf.old) (S.told shelf.new) e) }
    ensures may_stop { IfErr result (λ e. MayStop (stream_of place capture.old) e) }
    ensures read_fault { IsErrOf result (File file.ReadFault) →
        Rose (S.faults shelf.old) (S.faults shelf.new) }
    ensures faults_stay { S.faults shelf.old ≤ S.faults shelf.new }
    ensures missed_stay { S.missed shelf.old ≤ S.missed shelf.new }
{
    'records: loop {
        match look(capture, place, shelf) {
            Ok(Some(Looked::Marked(marked))) => return Ok(Some(marked)),
            Ok(Some(Looked::Unmarked)) => {}
            Ok(Some(Looked::Cut { number })) => return Err(MeterError::HeadersCut { number }),
            Ok(None) => return Ok(None),
            Err(error) => return Err(MeterError::File(error)),
        }
    }
}

// What is seen of the next record of a capture.
fn look<S: Shelf>(
    capture: &mut Capture,
    place: Place,
    shelf: &mut S,
) -> Result<Option<Looked>, FileError>
    requires { capture.old.over ≡ false }
    ensures looks { IfOk result (λ o. IfSome o (λ l.
        LooksAt place capture.old capture.new (S.told shelf.old) (S.told shelf.new) l)) }
    ensures ended { IfOk result (λ o. IfNone o
        (EndsReading capture.old (S.told shelf.old) (S.told shelf.new))) }
    ensures stopped { IfErr result (λ e.
        StopsReading capture.old (S.told shelf.old) (S.told shelf.new) e) }
    ensures error { IfErr result (λ e.
        GivesError capture.old (S.told shelf.old) (S.told shelf.new) e) }
    ensures read_fault { IsErrOf result file.ReadFault →
        Rose (S.faults shelf.old) (S.faults shelf.new) }
    ensures faults_stay { S.faults shelf.old ≤ S.faults shelf.new }
    ensures missed_stay { S.missed shelf.old ≤ S.missed shelf.new }
{
    let head = capture.head();
    match capture.next(shelf) {
        Ok(Some(record)) => Ok(Some(seen_of(&record, &head, place))),
        Ok(None) => Ok(None),
        Err(error) => Err(error),
    }
}

// What is seen of a record.
fn seen_of(record: &Record<'_>, head: &Head, place: Place) -> Looked
    ensures { ShowsAs place head.now record.now.number (packet_shown record.now) result }
{
    let number = record.number;
    match mark_in(record, head.link, place) {
        Found::Marked { mark, .. } => Looked::Marked(Marked {
            number,
            reading: record.reading(head.form),
            mark,
        }),
        Found::Unmarked => Looked::Unmarked,
        Found::Cut => Looked::Cut { number },
    }
}

// What a record shows of a mark in this kind of header.
fn mark_in(record: &Record<'_>, link: LinkKind, place: Place) -> Found
    ensures { IsSeenIn place link (packet_shown record.now) (seen_shown result) }
{
    find_mark_in(link, record.bytes, record.whole(), place)
}

// What the bytes of a record show of a mark in this kind of header, where all bytes of its packet were captured or not.
pub(crate) fn find_mark_in(link: LinkKind, bytes: &[u8], whole: bool, place: Place) -> Found
    ensures { AreSeen place link bytes.now whole (seen_shown result) }
{
    match packet_of(link, bytes, whole) {
        Frame::Ip6 { at } => find_mark(&bytes[at..], whole, place),
        Frame::Other => Found::Unmarked,
        Frame::Cut => Found::Cut,
    }
}
