//! Output in pieces: bytes are gathered, and handed on to a sink many at a time.
//!
//! A program that writes line by line asks the system once for each line. A [`Buffer`] in front of the sink makes that
//! once for some thousand lines. What it holds isn't written yet: [`Buffer::flush`] hands it on, and belongs before
//! every answer of a program.
ghost use Rattle.std.specs.Prelude.{◌≡◌, ◌≤◌, ℕ, List, [], length, Option, OnOk, OnErr, IfOk};
ghost use Rattle.am_base.specs.Counts.{Rose};
ghost use Rattle.am_base.specs.Sinks.{IsWrittenOf, HandsIn, BreaksOff, WritesAll, WritesFront};

use crate::shelf::Fault;
use crate::sink::{Sink, put};
use std::alloc::{AllocError, Global};
use std::marker::Model;

/// How many bytes a buffer holds at most. Sixteen pages: more makes the calls of the system no cheaper.
pub const MAX_HELD: usize = 65_536;

/// Bytes that aren't written yet. To a contract it is the list of them.
#[derive(Drop)]
pub struct Buffer {
    bytes: Vec<u8>,
}

impl Model for Buffer {
    ghost use Rattle.std.specs.Prelude.{◌≤◌, ℕ, List, vec_len, vec_capacity};
    ghost use Rattle.am_base.specs.declared.buffer.TheConstants.{MAX_HELD};

    ghost Value = { List ℕ };

    ghost view = { λ b. b.bytes.items };

    ghost invariant = { λ b. (vec_len b.bytes ≤ MAX_HELD) × (MAX_HELD ≤ vec_capacity b.bytes) };
}

impl Buffer {
    /// A buffer that holds nothing. All its memory is taken here.
    pub fn new(alloc: Global) -> Result<Buffer, AllocError>
        ensures nothing { IfOk result (λ b. b ≡ []) }
        ensures begins { IfOk result (λ b.
            (start : Option (List ℕ)) → IsWrittenOf start start b []) }
    {
        let bytes = Vec::with_capacity(alloc, MAX_HELD)?;
        Ok(Buffer { bytes })
    }

    /// Takes the bytes in, behind those that it holds. Where they don't fit, it hands on what it holds first.
    ///
    /// `Fault`: the sink failed; a front of what was held and of the bytes was appended, and nothing is held.
    pub fn write<O: Sink>(&mut self, sink: &mut O, bytes: &[u8]) -> Result<(), Fault>
        ensures all { OnOk result
            (HandsIn (O.written sink.old) self.old bytes.now (O.written sink.new) self.new) }
        ensures front { OnErr result
            (BreaksOff (O.written sink.old) self.old bytes.now (O.written sink.new)) }
        ensures bound { length self.new ≤ MAX_HELD }
        ensures nothing { OnErr result (self.new ≡ []) }
        ensures failed { OnErr result (Rose (O.faults sink.old) (O.faults sink.new)) }
        ensures faults_stay { O.faults sink.old ≤ O.faults sink.new }
    {
        if bytes.len() > MAX_HELD - self.bytes.len() {
            self.flush(sink)?;
            if bytes.len() > MAX_HELD {
                return put(sink, bytes);
            }
        }
        let taken = self.bytes.extend_from_slice(bytes);
        let fits = taken.is_ok();
        prove!(fits);
        Ok(())
    }

    /// Hands on all that it holds.
    ///
    /// `Fault`: the sink failed; a front of what was held was appended, and nothing is held.
    pub fn flush<O: Sink>(&mut self, sink: &mut O) -> Result<(), Fault>
        ensures all { OnOk result
            (WritesAll (O.written sink.old) self.old (O.written sink.new)) }
        ensures front { OnErr result
            (WritesFront (O.written sink.old) self.old (O.written sink.new)) }
        ensures nothing { self.new ≡ [] }
        ensures failed { OnErr result (Rose (O.faults sink.old) (O.faults sink.new)) }
        ensures faults_stay { O.faults sink.old ≤ O.faults sink.new }
    {
        let done = put(sink, &self.bytes);
        self.bytes.clear();
        done
    }
}
