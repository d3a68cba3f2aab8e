//! Bytes of a file that were read and that nobody took yet.
ghost use Rattle.std.specs.Prelude.{◌≡◌, ◌+◌, ◌≤◌, ◌<◌, ◌↔◌, ℕ, List, [], length, take, drop, vec_len, IfOk, OnOk, OnErr, IsTrue};
ghost use Rattle.std.specs.Borrow.{sem};
ghost use Rattle.am_base.specs.Counts.{Rose};
ghost use Rattle.am_base.specs.Shelves.{Takes, IsAtEnd};
ghost use Rattle.am_pcap.specs.Packets.{word, IsWhole, first_packet};
ghost use Rattle.am_pcap.specs.Shown.{packet_shown};

use crate::decoder::{RECORD_HEAD, record_in};
use crate::record::Record;
use am_base::{Fault, Shelf};
use std::alloc::{AllocError, Global};
use std::marker::Model;

/// How many bytes each read asks for.
const READ_SIZE: usize = 65_536;

/// The bytes of one read of which some may have been taken, from the front.
#[derive(Drop)]
pub struct Held {
    chunk: Vec<u8>,
    from: usize,
    end: usize,
}

impl Model for Held {
    ghost use Rattle.std.specs.Prelude.{List, ℕ};
    ghost use Rattle.am_pcap.specs.Chunks.{held_in, IsHeld};

    ghost Value = { List ℕ };

    ghost view = { λ a. held_in a.chunk.items a.from a.end };

    ghost invariant = { λ a. IsHeld a.chunk.items a.from a.end };
}

impl Held {
    ghost use Rattle.am_pcap.specs.LentBytes.{LeavesBytes};

    /// No bytes, with room for one read.
    pub fn new(alloc: Global) -> Result<Held, AllocError>
        ensures { IfOk result (λ h. h ≡ []) }
    {
        let chunk = chunk_of(alloc)?;
        Ok(Held {
            chunk,
            from: 0,
            end: 0,
        })
    }

    /// How many bytes there are.
    pub fn len(&self) -> usize
        ensures value { result ≡ length self.now }
        ensures small { result ≤ 65536 }
    {
        self.end - self.from
    }

    /// The bytes.
    pub fn bytes(&self) -> &[u8]
        ensures { result.now ≡ self.now }
    {
        &self.chunk[self.from..self.end]
    }

    /// Takes bytes from the front.
    pub fn skip(&mut self, n: usize)
        requires { n ≤ length self.old }
        ensures { self.new ≡ drop n self.old }
    {
        self.from += n;
    }

    /// Lends the record that the bytes begin with, in its place, and takes its bytes from the front.
    pub fn lend(&mut self, big: bool, n: usize, number: u64) -> Record<'_>
        requires whole { IsWhole big self.old }
        requires behind { n ≡ word big self.old 8 }
        ensures* leaves { sem 𝓛 (LeavesBytes self.entry (drop (16 + n) self.old)) }
        ensures packet { packet_shown result ≡ first_packet big self.old }
        ensures number { result.number ≡ number }
    {
        let from = self.from;
        self.from += RECORD_HEAD + n;
        record_in(&self.chunk[from..self.from], big, number)
    }

    /// Reads the next bytes of the shelf's open file in the place of what was there. No bytes: the file is at its end.
    ///
    /// `Fault`: the shelf failed, and there are no bytes.
    pub fn load<S: Shelf>(&mut self, shelf: &mut S) -> Result<(), Fault>
        ensures taken { OnOk result (Takes (S.told shelf.old) (S.told shelf.new) self.new) }
        ensures end { OnOk result (self.new ≡ [] → IsAtEnd (S.told shelf.old)) }
        ensures unchanged { OnErr result (S.told shelf.new ≡ S.told shelf.old) }
        ensures none { OnErr result (self.new ≡ []) }
        ensures failed { OnErr result (Rose (S.faults shelf.old) (S.faults shelf.new)) }
        ensures faults_stay { S.faults shelf.old ≤ S.faults shelf.new }
        ensures missed_stay { S.missed shelf.old ≤ S.missed shelf.new }
    {
        self.from = 0;
        self.end = 0;
        match read_chunk(shelf, &mut self.chunk) {
            Ok(n) => {
                self.end = n;
                Ok(())
            }
            Err(fault) => Err(fault),
        }
    }
}

// Room for one read.
fn chunk_of(alloc: Global) -> Result<Vec<u8>, AllocError>
    ensures { IfOk result (λ v. vec_len v ≡ READ_SIZE) }
{
    vec![in alloc; 0; READ_SIZE]
}

// One read to the front of the chunk, and how many bytes it gave.
fn read_chunk<S: Shelf>(shelf: &mut S, chunk: &mut Vec<u8>) -> Result<usize, Fault>
    requires { 0 < vec_len chunk.old }
    ensures room { vec_len chunk.new ≡ vec_len chunk.old }
    ensures bound { IfOk result (λ n. n ≤ vec_len chunk.new) }
    ensures taken { IfOk result (λ n.
        Takes (S.told shelf.old) (S.told shelf.new) (take n chunk.new.items)) }
    ensures end { IfOk result (λ n. n ≡ 0 → IsAtEnd (S.told shelf.old)) }
    ensures unchanged { OnErr result (S.told shelf.new ≡ S.told shelf.old) }
    ensures failed { OnErr result (Rose (S.faults shelf.old) (S.faults shelf.new)) }
    ensures faults_stay { S.faults shelf.old ≤ S.faults shelf.new }
    ensures missed_stay { S.missed shelf.old ≤ S.missed shelf.new }
{
    shelf.read(chunk)
}
