//! Records that are counted together: they are copied out of a capture, and then counted.
ghost use Rattle.std.specs.Prelude.{◌≡◌, ◌<◌, ◌≤◌, ◌↔◌, ◌++◌, ◌∷◌, [], ℕ, IsTrue, IfOk, length, slice_index_or};
ghost use Rattle.std.specs.Bool.{OnTrue, OnFalse};
ghost use Rattle.am_meter.specs.Batches.{BatchRecord, batch_record, bytes_in, HasRoomFor};
ghost use Rattle.am_meter.specs.BatchSlots.{lent_shown};

use am_pcap::LinkKind;
use std::alloc::{AllocError, Global};
use std::marker::Model;

/// The most records of a batch: with their bytes a batch takes some 18 MB.
pub const MAX_RECORDS: usize = 65_536;

/// The most bytes that the records of a batch have together: room for 64 of the longest records of a capture.
pub const MAX_BYTES: usize = 16_777_216;

// A record of a batch, whose bytes stand among those of all.
#[derive(Clone, Copy)]
pub(crate) struct Slot {
    number: u64,
    reading: u64,
    from: u32,
    length: u32,
    link: LinkKind,
    whole: bool,
}

// A record of a batch, with its bytes.
#[derive(Clone, Copy)]
pub(crate) struct Lent<'a> {
    pub number: u64,
    pub reading: u64,
    pub link: LinkKind,
    pub whole: bool,
    pub bytes: &'a [u8],
}

/// Records of captures, with their bytes. All memory is taken when it is made.
#[derive(Drop)]
pub struct Batch {
    slots: Vec<Slot>,
    // of all records, one after another
    bytes: Vec<u8>,
}

impl Model for Batch {
    ghost use Rattle.std.specs.Prelude.{◌≤◌, List, map, vec_capacity};
    ghost use Rattle.am_meter.specs.Batches.{BatchRecord};

    ghost Value = { List BatchRecord };

    ghost use Rattle.am_meter.specs.BatchSlots.{slot_record, IsKept};
    ghost use Rattle.am_meter.specs.declared.batch.TheConstants.{MAX_RECORDS, MAX_BYTES};

    ghost view = { λ b. map (slot_record b.bytes.items) b.slots.items };

    ghost invariant = { λ b. IsKept b.slots.items b.bytes.items
        × (MAX_RECORDS ≤ vec_capacity b.slots) × (MAX_BYTES ≤ vec_capacity b.bytes) };
}

impl Batch {
    /// A batch without records.
    pub fn new(alloc: Global) -> Result<Batch, AllocError>
        ensures { IfOk result (λ b. b ≡ []) }
    {
        let slots = Vec::with_capacity(alloc, MAX_RECORDS)?;
        let bytes = Vec::with_capacity(alloc, MAX_BYTES)?;
        Ok(Batch { slots, bytes })
    }

    /// Copies a record into the batch: the link type of its capture, its number and its reading there, whether all
    /// bytes of its packet were captured, and those that were. False: there is no room, and nothing changed. No memory
    /// is taken.
    pub fn push(
        &mut self,
        link: LinkKind,
        number: u64,
        reading: u64,
        whole: bool,
        bytes: &[u8],
    ) -> bool
        ensures room { IsTrue result ↔ HasRoomFor self.old (length bytes.now) }
        ensures pushed { OnTrue result
            (self.new ≡ self.old ++ batch_record link number reading whole bytes.now ∷ []) }
        ensures full { OnFalse result (self.new ≡ self.old) }
    {
        let from = self.bytes.len();
        if self.slots.len() == MAX_RECORDS || bytes.len() > MAX_BYTES - from {
            return false;
        }
        let Ok(()) = self.bytes.extend_from_slice(bytes) else {
            prove!(false);
            return false;
        };
        self.slots.push_reserved(Slot {
            number,
            reading,
            from: from as u32,
            length: bytes.len() as u32,
            link,
            whole,
        });
        true
    }

    /// Takes all records out.
    pub fn clear(&mut self)
        ensures { self.new ≡ [] }
    {
        self.slots.clear();
        self.bytes.clear();
    }

    /// How many records there are.
    pub fn len(&self) -> usize
        ensures value { result ≡ length self.now }
        ensures few { result ≤ MAX_RECORDS }
    {
        self.slots.len()
    }

    // How many bytes they have together.
    pub(crate) fn size(&self) -> usize
        ensures { result ≡ bytes_in self.now }
    {
        self.bytes.len()
    }

    // The record at a place.
    pub(crate) fn at(&self, place: usize) -> Lent<'_>
        requires { place < length self.now }
        ensures { (d : BatchRecord) → lent_shown result ≡ slice_index_or self.now place d }
    {
        let slot = self.slots[place];
        let from = slot.from as usize;
        Lent {
            number: slot.number,
            reading: slot.reading,
            link: slot.link,
            whole: slot.whole,
            bytes: &self.bytes[from..from + slot.length as usize],
        }
    }
}
