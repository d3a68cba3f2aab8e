//! A sink in memory, of a room that doesn't grow, which fails where it is told to.
ghost use Rattle.std.specs.Prelude.{◌≡◌, ◌≤◌, ◌<◌, ◌-◌, ◌↔◌, ◌⊎◌, ℕ, [], length, take, OnOk, OnErr, IfOk, IsErr, IsTrue, Some, min, vec_len, vec_capacity};
ghost use Rattle.std.specs.Io.KnownBytes.{append_known};
ghost use Rattle.am_base.specs.Counts.{Rose, next_count};
ghost use Rattle.am_base.specs.Failing.{is_bad, faults_after};

use crate::failing::is_listed;
use crate::shelf::Fault;
use crate::sink::Sink;
use std::alloc::{AllocError, Global};

/// Bytes in memory, which it tells. It takes all its memory when it is made; writes of given numbers fail, and a write
/// of a piece that isn't empty fails where the room is full.
#[derive(Drop)]
pub struct MemSink {
    bytes: Vec<u8>,
    room: usize,
    bad_writes: Vec<u64>,
    writes: u64,
    faults: u64,
    ghost within: { vec_len bytes ≤ room },
    ghost reserved: { room ≤ vec_capacity bytes },
}

impl MemSink {
    ghost use Rattle.am_base.specs.MemSink.{sink_bytes, sink_faults, sink_room, writes_asked, failing_writes};

    /// An empty sink that has room for this many bytes. The writes of these numbers, each counted from 1, fail.
    pub fn new(alloc: Global, room: u32, bad_writes: Vec<u64>) -> Result<MemSink, AllocError>
        ensures bytes { IfOk result (λ s. sink_bytes s ≡ []) }
        ensures faults { IfOk result (λ s. sink_faults s ≡ 0) }
        ensures room { IfOk result (λ s. sink_room s ≡ room) }
        ensures writes { IfOk result (λ s. writes_asked s ≡ 0) }
        ensures bad_writes { IfOk result (λ s. failing_writes s ≡ bad_writes.items) }
    {
        let bytes = Vec::with_capacity(alloc, room as usize)?;
        Ok(MemSink {
            bytes,
            room: room as usize,
            bad_writes,
            writes: 0,
            faults: 0,
        })
    }

    /// The bytes that were written.
    pub fn bytes(&self) -> &[u8]
        ensures { result.now ≡ sink_bytes self.now }
    {
        &self.bytes
    }
}

impl Sink for MemSink {
    ghost use Rattle.am_base.specs.MemSink.{sink_bytes, sink_faults, sink_room, writes_asked, failing_writes};

    ghost written = { λ s. Some (sink_bytes s) };

    ghost faults = { sink_faults };

    fn write(&mut self, piece: &[u8]) -> Result<usize, Fault>
        ensures bound { IfOk result (λ n. n ≤ length piece.now) }
        ensures appended { IfOk result (λ n. Some (sink_bytes self.new)
            ≡ append_known (Some (sink_bytes self.old)) (take n piece.now)) }
        ensures stalled { IfOk result (λ n. n ≡ 0 → 0 < length piece.now →
            Rose (sink_faults self.old) (sink_faults self.new)) }
        ensures unchanged { OnErr result (Some (sink_bytes self.new) ≡ Some (sink_bytes self.old)) }
        ensures failed { OnErr result (Rose (sink_faults self.old) (sink_faults self.new)) }
        ensures faults_stay { sink_faults self.old ≤ sink_faults self.new }

        // The writes of the given numbers fail, and those that find no room, and no others; each other write takes as
        // much of the piece as there is room for.
        ensures counted { writes_asked self.new ≡ next_count (writes_asked self.old) }
        ensures bad { IsErr result ↔
            (IsTrue (is_bad (failing_writes self.old) (next_count (writes_asked self.old)))
            ⊎ ((length (sink_bytes self.old) ≡ sink_room self.old) × (0 < length piece.now))) }
        ensures most { IfOk result (λ n.
            n ≡ min (sink_room self.old - length (sink_bytes self.old)) (length piece.now)) }
        ensures faults_exact { sink_faults self.new ≡ faults_after result (sink_faults self.old) }
        ensures room { sink_room self.new ≡ sink_room self.old }
        ensures alike { failing_writes self.new ≡ failing_writes self.old }
    {
        self.writes = self.writes.saturating_add(1);
        let space = self.room - self.bytes.len();
        if is_listed(&self.bad_writes, self.writes) {
            self.faults = self.faults.saturating_add(1);
            return Err(Fault);
        }
        if space == 0 {
            if !piece.is_empty() {
                self.faults = self.faults.saturating_add(1);
                return Err(Fault);
            }
        }
        let n = space.min(piece.len());
        let taken = self.bytes.extend_from_slice(&piece[..n]);
        let fits = taken.is_ok();
        prove!(fits);
        Ok(n)
    }
}
