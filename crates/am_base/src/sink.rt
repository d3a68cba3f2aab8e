//! A sink: bytes are appended to it.
ghost use Rattle.std.specs.Prelude.{◌≡◌, ◌≤◌, ◌<◌, ℕ, List, Option, length, take, OnOk, OnErr, IfOk};
ghost use Rattle.std.specs.Io.KnownBytes.{append_known};
ghost use Rattle.am_base.specs.Counts.{Rose};
ghost use Rattle.am_base.specs.Sinks.{AppendsFront};

use crate::shelf::Fault;

/// Why something could not be written.
#[derive(Clone, Copy, Debug, PartialEq, Eq)]
pub enum OutError {
    /// The sink failed.
    Fault,
    /// There was not enough memory.
    Memory,
}

/// A place that bytes are appended to.
pub trait Sink {
    /// The bytes that were written; nothing where the sink doesn't tell.
    ghost written: { Self → Option (List ℕ) };

    /// How often a write failed.
    ghost faults: { Self → ℕ };

    /// Appends some bytes of the piece, from its front, and answers how many. That it takes none of a piece that isn't
    /// empty counts as a failure.
    ///
    /// `Fault`: the sink failed, and nothing was appended.
    fn write(&mut self, piece: &[u8]) -> Result<usize, Fault>
        ensures bound { IfOk result (λ n. n ≤ length piece.now) }
        ensures appended { IfOk result (λ n.
            written self.new ≡ append_known (written self.old) (take n piece.now)) }
        ensures stalled { IfOk result (λ n. n ≡ 0 → 0 < length piece.now →
            Rose (faults self.old) (faults self.new)) }
        ensures unchanged { OnErr result (written self.new ≡ written self.old) }
        ensures failed { OnErr result (Rose (faults self.old) (faults self.new)) }
        ensures faults_stay { faults self.old ≤ faults self.new };
}

/// Appends all the bytes, in as many writes as the sink asks for.
///
/// `Fault`: the sink failed, or took none of what was left; a front of the bytes was appended.
pub fn put<S: Sink>(sink: &mut S, bytes: &[u8]) -> Result<(), Fault>
    ensures all { OnOk result (S.written sink.new ≡ append_known (S.written sink.old) bytes.now) }
    ensures front { OnErr result
        (AppendsFront (S.written sink.old) (S.written sink.new) bytes.now) }
    ensures failed { OnErr result (Rose (S.faults sink.old) (S.faults sink.new)) }
    ensures faults_stay { S.faults sink.old ≤ S.faults sink.new }
{
    let mut at = 0;
    while at < bytes.len() {
        match sink.write(&bytes[at..]) {
            Ok(0) => return Err(Fault),
            Ok(n) => at += n,
            Err(fault) => return Err(fault),
        }
    }
    Ok(())
}
