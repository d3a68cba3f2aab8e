//! A decoder of captures, which takes the bytes of a file in any pieces.
ghost use Rattle.std.specs.Prelude.{◌≡◌, ◌+◌, ◌-◌, ◌*◌, ◌<◌, ◌≤◌, ◌^◌, ◌++◌, ℕ, List, [], length, take, min, Some, None, Ok, Err, IsSome, IsTrue, ◌↔◌, IfOk, IfErr, IfSome, IfNone, OnOk, OnSome, MatchOption, vec_len, vec_capacity, cond};
ghost use Rattle.std.specs.Borrow.{sem};
ghost use Rattle.am_pcap.specs.Captures.{verdict, IsVerdict};
ghost use Rattle.am_pcap.specs.Decoded.{Decoded, nothing_taken, after_take, CanTake, Took, Refused, Passed, Counts, StandsFor};
ghost use Rattle.am_pcap.specs.Packets.{word, IsWhole, first_packet};
ghost use Rattle.am_pcap.specs.Shown.{packet_shown};
ghost use Rattle.am_pcap.specs.declared.refusal.CapError.{CapError};

use crate::head::{FILE_HEAD, Head, judge, word_at};
use crate::record::Record;
use crate::refusal::CapError;
use std::alloc::{AllocError, Global};
use std::marker::Model;

/// The bytes of a record's header.
pub const RECORD_HEAD: usize = 16;

/// The most bytes of a packet that a record may have: what the capturing programs write at most (their snapshot length
/// when none is asked for). A length above it is taken for a sign that the bytes are no record.
pub const MAX_CAPTURED: u32 = 262_144;

/// What a decoder has room for: a record's header and the most bytes after it.
const ROOM: usize = 262_160;

/// Takes the bytes of a capture in any pieces, and gives its records one by one.
///
/// All memory is taken when a decoder is made.
#[derive(Drop)]
pub struct Decoder {
    buffer: Vec<u8>,
    head: Option<Head>,
    error: Option<CapError>,
    count: u64,
    taken: u64,
    full: bool,
    waiting: bool,
}

impl Model for Decoder {
    ghost use Rattle.std.specs.Prelude.{vec_capacity};
    ghost use Rattle.am_pcap.specs.Decoded.{Decoded, shown, IsSound};

    ghost Value = { Decoded };

    ghost view = { λ a. shown a.buffer.items a.head a.error a.count a.taken a.full a.waiting };

    ghost invariant = { λ a.
        IsSound (vec_capacity a.buffer) a.buffer.items a.head a.error a.count a.taken a.full
        a.waiting };
}

impl Decoder {
    ghost use Rattle.am_pcap.specs.Lent.{Leaves};

    /// A decoder that has taken no bytes. This takes all memory that the decoder ever needs: 262,160 bytes and its fields.
    pub fn new(alloc: Global) -> Result<Decoder, AllocError>
        ensures { IfOk result (λ d. d ≡ nothing_taken) }
    {
        let buffer = Vec::with_capacity(alloc, ROOM)?;
        Ok(Decoder {
            buffer,
            head: None,
            error: None,
            count: 0,
            taken: 0,
            full: false,
            waiting: false,
        })
    }

    /// Takes bytes of the piece, which follows those that were taken before.
    ///
    /// Ok(n): the first n bytes were taken, and fewer than there are only where a record waits now; none were taken
    /// where one waited before. An error comes in the call that takes the last byte of the header that is refused, and
    /// from then on in each call.
    pub fn feed(&mut self, piece: &[u8]) -> Result<usize, CapError>
        requires { CanTake self.old piece.now }
        ensures took { IfOk result (λ n. Took self.old self.new piece.now n) }
        ensures clean { OnOk result (self.new.summary.error ≡ None) }
        ensures all { IfOk result (λ n. n < length piece.now → IsSome self.new.waiting) }
        ensures stalled { IsSome self.old.waiting → (result ≡ Ok 0) × (self.new ≡ self.old) }
        ensures counts { OnOk result (self.old.waiting ≡ None → Counts self.old self.new) }
        ensures refused { IfErr result (λ e. self.old.summary.error ≡ None
            → Refused self.old self.new piece.now e) }
        // Behind a record that waits nothing is unfinished.
        ensures left { IsSome self.new.waiting → self.new.summary.unfinished ≡ [] }
        ensures head { IsSome self.old.summary.head
            → self.new.summary.head ≡ self.old.summary.head }
        ensures repeated { (e : CapError) → self.old.summary.error ≡ Some e
            → (result ≡ Err e) × (self.new ≡ self.old) }
    {
        if let Some(error) = self.error {
            return Err(error);
        }
        if self.waiting {
            return Ok(0);
        }
        if self.head.is_some() {
            return self.feed_record(piece);
        }
        let n = match self.feed_head(piece) {
            Ok(n) => n,
            Err(error) => return Err(error),
        };
        if self.head.is_none() {
            return Ok(n);
        }
        let (_, rest) = piece.split_at(n);
        match self.feed_record(rest) {
            Ok(m) => Ok(n + m),
            Err(error) => Err(error),
        }
    }

    // Takes bytes of the file header.
    fn feed_head(&mut self, piece: &[u8]) -> Result<usize, CapError>
        requires room { CanTake self.old piece.now }
        requires head { self.old.summary.head ≡ None }
        requires clean { self.old.summary.error ≡ None }
        ensures took { IfOk result (λ n. Took self.old self.new piece.now n) }
        ensures clean { OnOk result (self.new.summary.error ≡ None) }
        ensures all { IfOk result (λ n. self.new.summary.head ≡ None → n ≡ length piece.now) }
        ensures counts { OnOk result (Counts self.old self.new) }
        ensures waiting { self.new.waiting ≡ None }
        ensures refused { IfErr result (λ e. Refused self.old self.new piece.now e) }
    {
        let n = fill(&mut self.buffer, piece, FILE_HEAD);
        self.taken += n as u64;
        if self.buffer.len() < FILE_HEAD {
            return Ok(n);
        }
        match judge(front(&self.buffer)) {
            Ok(head) => {
                self.head = Some(head);
                self.buffer.clear();
                Ok(n)
            }
            Err(error) => {
                self.error = Some(error);
                Err(error)
            }
        }
    }

    // Takes bytes of a record.
    fn feed_record(&mut self, piece: &[u8]) -> Result<usize, CapError>
        requires room { CanTake self.old piece.now }
        requires head { IsSome self.old.summary.head }
        requires clean { self.old.summary.error ≡ None }
        requires waiting { self.old.waiting ≡ None }
        ensures took { IfOk result (λ n. Took self.old self.new piece.now n) }
        ensures clean { OnOk result (self.new.summary.error ≡ None) }
        ensures all { IfOk result (λ n. n < length piece.now → IsSome self.new.waiting) }
        ensures counts { OnOk result (Counts self.old self.new) }
        ensures head { self.new.summary.head ≡ self.old.summary.head }
        ensures refused { IfErr result (λ e. Refused self.old self.new piece.now e) }
        ensures left { IsSome self.new.waiting → self.new.summary.unfinished ≡ [] }
    {
        let Some(head) = self.head else {
            prove!(false);
            return Ok(0);
        };
        empty_where(self.full, &mut self.buffer);
        self.full = false;
        let n = fill(&mut self.buffer, piece, RECORD_HEAD);
        self.taken += n as u64;
        if self.buffer.len() < RECORD_HEAD {
            return Ok(n);
        }
        let length = word_at(head.form.big, &self.buffer, 8);
        if length > MAX_CAPTURED {
            let error = CapError::RecordTooLong {
                number: self.count + 1,
                length,
            };
            self.error = Some(error);
            return Err(error);
        }
        let end = RECORD_HEAD + length as usize;
        let (_, rest) = piece.split_at(n);
        let m = fill(&mut self.buffer, rest, end);
        self.taken += m as u64;
        if self.buffer.len() < end {
            return Ok(n + m);
        }
        self.count += 1;
        self.full = true;
        self.waiting = true;
        Ok(n + m)
    }

    // Passes over the record that the piece begins with, where nothing is unfinished and it is whole: how many bytes it
    // has behind its header. It is counted and its bytes are taken, and nothing of it is kept. None: nothing changed.
    pub(crate) fn pass(&mut self, big: bool, piece: &[u8]) -> Option<usize>
        requires { CanTake self.old piece.now }
        ensures passed { IfSome result (Passed self.old self.new big piece.now) }
        ensures unchanged { IfNone result (self.new ≡ self.old) }
    {
        if !self.full && !self.buffer.is_empty() {
            return None;
        }
        let Some(n) = whole_front(big, piece) else {
            return None;
        };
        self.count += 1;
        self.taken += (RECORD_HEAD + n) as u64;
        Some(n)
    }

    // How many whole records there were.
    pub(crate) fn count(&self) -> u64
        ensures { result ≡ self.now.summary.count }
    {
        self.count
    }

    // Whether a record waits.
    pub(crate) fn is_waiting(&self) -> bool
        ensures { IsTrue result ↔ IsSome self.now.waiting }
    {
        self.waiting
    }

    /// The record that waits, which then waits no longer. Some exactly where one waits.
    pub fn take(&mut self) -> Option<Record<'_>>
        ensures* leaves { sem 𝓛 (Leaves self.entry (after_take self.old)) }
        ensures record { MatchOption result (self.old.waiting ≡ None) (λ r.
            (self.old.waiting ≡ Some (packet_shown r)) × (r.number ≡ self.old.summary.count)) }
    {
        let Some(head) = self.head else {
            return None;
        };
        if !self.waiting {
            return None;
        }
        self.waiting = false;
        Some(record_in(&self.buffer, head.form.big, self.count))
    }

    /// The file header. Some exactly where one was taken and not refused.
    pub fn head(&self) -> Option<Head>
        ensures { result ≡ self.now.summary.head }
    {
        self.head
    }

    /// Ok exactly where the bytes taken are a whole capture. `CutFile` where they end inside the file header (number 0)
    /// or inside a record; the refusal where there is one.
    #[tactic(auto, using(crate::proofs::Verdicts::stands_says))]
    pub fn finish(&self) -> Result<(), CapError>
        ensures value { result ≡ verdict self.now.summary }
        ensures told { (bytes : List ℕ) → StandsFor self.now bytes → IsVerdict result bytes }
    {
        if let Some(error) = self.error {
            return Err(error);
        }
        if self.head.is_none() {
            return Err(CapError::CutFile { number: 0 });
        }
        if self.full {
            return Ok(());
        }
        if self.buffer.is_empty() {
            return Ok(());
        }
        Err(CapError::CutFile {
            number: self.count + 1,
        })
    }
}

// Puts bytes of the piece into the buffer, until it has `goal` bytes, and answers how many.
fn fill(buffer: &mut Vec<u8>, piece: &[u8], goal: usize) -> usize
    requires fits { goal ≤ vec_capacity buffer.old }
    ensures taken { result ≡ min (goal - vec_len buffer.old) (length piece.now) }
    ensures most { result ≤ goal - vec_len buffer.old }
    ensures items { buffer.new.items ≡ buffer.old.items ++ take result piece.now }
    ensures len { vec_len buffer.new ≡ vec_len buffer.old + result }
    ensures within { result ≤ length piece.now }
    ensures room { vec_capacity buffer.old ≤ vec_capacity buffer.new }
{
    let space = goal.saturating_sub(buffer.len());
    let n = space.min(piece.len());
    if n == 0 {
        return 0;
    }
    let Ok(()) = buffer.extend_from_slice(&piece[..n]) else {
        prove!(false);
        return 0;
    };
    n
}

// Empties the buffer where that is asked.
fn empty_where(asked: bool, buffer: &mut Vec<u8>)
    ensures items { buffer.new.items ≡ cond asked [] buffer.old.items }
    ensures room { vec_capacity buffer.new ≡ vec_capacity buffer.old }
{
    if asked {
        buffer.clear();
    }
}

// The bytes as an array.
fn front(bytes: &[u8]) -> [u8; FILE_HEAD]
    requires { length bytes.now ≡ FILE_HEAD }
    ensures { result ≡ bytes.now }
{
    let mut raw = [0; FILE_HEAD];
    raw.copy_from_slice(bytes);
    raw
}

// How many bytes the record that the piece begins with has behind its header, where it is whole.
fn whole_front(big: bool, piece: &[u8]) -> Option<usize>
    ensures { IfSome result (λ n. IsWhole big piece.now × (n ≡ word big piece.now 8)) }
{
    if piece.len() < RECORD_HEAD {
        return None;
    }
    let captured = word_at(big, piece, 8);
    if captured > MAX_CAPTURED {
        return None;
    }
    let n = captured as usize;
    if piece.len() - RECORD_HEAD < n {
        return None;
    }
    Some(n)
}

/// The record that the bytes are.
pub fn record_in(bytes: &[u8], big: bool, number: u64) -> Record<'_>
    requires whole { IsWhole big bytes.now }
    requires ends { length bytes.now ≡ 16 + word big bytes.now 8 }
    ensures packet { packet_shown result ≡ first_packet big bytes.now }
    ensures number { result.number ≡ number }
{
    Record {
        number,
        seconds: word_at(big, bytes, 0),
        fraction: word_at(big, bytes, 4),
        original: word_at(big, bytes, 12),
        bytes: &bytes[RECORD_HEAD..],
    }
}
