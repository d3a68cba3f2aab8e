//! Captures that are printed record by record: the one loop of all commands that write as they read.
ghost use Rattle.std.specs.Prelude.{◌≡◌, ◌≤◌, List, [], length, IfOk, OnOk, OnErr, IfErr};
ghost use Rattle.am_base.specs.Counts.{Rose};
ghost use Rattle.am_base.specs.Sinks.{WritesFront};
ghost use Rattle.am_pcap.specs.Packets.{Packet};
ghost use Rattle.am_pcap.specs.Shown.{packet_shown};
ghost use Rattle.am_pcap.specs.declared.head.Head.{Head as HeadValue};
ghost use Rattle.am_chain.specs.Chains.{inputs, output, Stream, StreamsSo};
ghost use Rattle.am_chain.specs.Printing.{Grows, AddsRecord, RefusesRecord, AddsRest, MovesOn, Flushes};
ghost use Rattle.am_chain.specs.Shown.{answer_of, OnRefused};

use crate::answer::{Stop, Unprinted};
use am_base::{Fault, MAX_HELD, Shelf, Sink, put};
use am_pcap::{Capture, Head, MAX_CAPTURED, Record};
use std::alloc::{AllocError, Global};

/// What a command prints of a capture, record by record. It adds to bytes that are held in memory, and writes nothing
/// itself.
pub trait Printing {
    /// What is kept from record to record.
    type State: Drop;

    /// What is printed of a capture, and which records are refused.
    ghost stream: { Self → Stream };

    /// The records so far were these, behind this file header.
    ghost knows: { Self → Self.State → HeadValue → List Packet → Type 0 };

    /// Begins with a capture of this file header: adds what stands before all records.
    fn begin(
        &self,
        alloc: Global,
        head: &Head,
        held: &mut Vec<u8>,
    ) -> Result<Self::State, AllocError>
        ensures knows { IfOk result (λ s. knows self.now s head.now []) }
        ensures text { OnOk result (Grows held.old.items held.new.items (λ piece.
            (stream self.now).text_of head.now [] piece)) };

    /// Takes the next record: adds what is printed of it. Where it is refused, or memory runs out, nothing is added.
    fn take(
        &self,
        state: &mut Self::State,
        head: &Head,
        packet: &Record<'_>,
        held: &mut Vec<u8>,
    ) -> Result<(), Unprinted>
        requires known { (ps : List Packet) × knows self.now state.old head.now ps }
        requires short { length packet.now.bytes.now ≤ MAX_CAPTURED }
        ensures more { OnOk result (Grows held.old.items held.new.items (λ piece.
            AddsRecord (stream self.now) (knows self.now state.old) (knows self.now state.new)
            head.now packet.now.number (packet_shown packet.now) piece)) }
        ensures refused { IfErr result (λ e. OnRefused e (RefusesRecord (stream self.now)
            (knows self.now state.old)
            head.now packet.now.number (packet_shown packet.now))) }
        ensures kept { OnErr result (held.new.items ≡ held.old.items) };

    /// Ends with the capture: adds what stands behind all records, or nothing where memory runs out.
    fn finish(
        &self,
        state: &mut Self::State,
        head: &Head,
        held: &mut Vec<u8>,
    ) -> Result<(), AllocError>
        ensures rest { OnOk result (Grows held.old.items held.new.items (λ piece.
            AddsRest (stream self.now) (knows self.now state.old) head.now piece)) }
        ensures kept { OnErr result (held.new.items ≡ held.old.items) };
}

/// Prints the capture of this name. What is printed of a record is held before the next is looked at, and all that is
/// held is written before any answer.
pub fn print_capture<P: Printing, S: Shelf, O: Sink>(
    alloc: Global,
    printing: &P,
    name: &str,
    shelf: &mut S,
    out: &mut O,
) -> Result<(), Stop>
    ensures { StreamsSo (inputs (S.told shelf.old) (S.faults shelf.old) (S.missed shelf.old))
        (inputs (S.told shelf.new) (S.faults shelf.new) (S.missed shelf.new))
        (output (O.written out.old) (O.faults out.old))
        (output (O.written out.new) (O.faults out.new))
        name.now (P.stream printing.now) (answer_of result) }
{
    let mut capture = match Capture::open(alloc, shelf, name) {
        Ok(capture) => capture,
        Err(error) => return Err(Stop::of_capture(alloc, name, error)),
    };
    let head = capture.head();
    let Ok(mut held) = Vec::with_capacity(alloc, ROOM) else {
        return Err(Stop::NoMemory);
    };
    let Ok(mut state) = printing.begin(alloc, &head, &mut held) else {
        return Err(Stop::NoMemory);
    };
    'records: loop {
        let record = match capture.next(shelf) {
            Ok(Some(record)) => record,
            Ok(None) => {
                let Ok(()) = printing.finish(&mut state, &head, &mut held) else {
                    return flushed(&held, out, Err(Stop::NoMemory));
                };
                return flushed(&held, out, Ok(()));
            }
            Err(error) => {
                let stop = Stop::of_capture(alloc, name, error);
                return flushed(&held, out, Err(stop));
            }
        };
        match printing.take(&mut state, &head, &record, &mut held) {
            Ok(()) => {}
            Err(error) => {
                let stop = Stop::of_record(alloc, name, error);
                return flushed(&held, out, Err(stop));
            }
        }
        let Ok(()) = move_on(&mut held, out) else {
            return Err(Stop::WriteFault);
        };
    }
}

// Room for the bytes that are held, with a record of the usual lengths behind them: they are written once they are
// `MAX_HELD`.
const ROOM: usize = 2 * MAX_HELD;

// Writes the bytes that are held where they are many, and holds none of them then.
//
// `Fault`: the sink failed; a front of them was written.
#[inline(always)]
fn move_on<O: Sink>(held: &mut Vec<u8>, out: &mut O) -> Result<(), Fault>
    ensures all { OnOk result
        (MovesOn (O.written out.old) held.old.items (O.written out.new) held.new.items) }
    ensures front { OnErr result
        (WritesFront (O.written out.old) held.old.items (O.written out.new)) }
    ensures failed { OnErr result (Rose (O.faults out.old) (O.faults out.new)) }
    ensures faults_stay { O.faults out.old ≤ O.faults out.new }
{
    if held.len() < MAX_HELD {
        return Ok(());
    }
    let done = put(out, held.as_slice());
    held.clear();
    done
}

// This answer, once all that is held was written; a fault of the output comes first.
fn flushed<O: Sink>(held: &Vec<u8>, out: &mut O, answer: Result<(), Stop>) -> Result<(), Stop>
    ensures { Flushes (output (O.written out.old) (O.faults out.old)) held.now.items
        (output (O.written out.new) (O.faults out.new)) (answer_of answer) (answer_of result) }
{
    let Ok(()) = put(out, held.as_slice()) else {
        return Err(Stop::WriteFault);
    };
    answer
}
