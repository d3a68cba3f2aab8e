//! An edit of a packet: eight bytes come in or go out, and the payload length and one further byte change.

ghost use Rattle.std.specs.Prelude.{◌≡◌, ◌+◌, ◌-◌, ◌≤◌, ◌<◌, ◌++◌, length, take, drop, slice_set, vec_len, vec_capacity, OnOk, OnErr, IfOk};
ghost use Rattle.std.specs.Io.KnownBytes.{append_known};
ghost use Rattle.am_base.specs.Counts.{Rose};
ghost use Rattle.am_base.specs.Sinks.{AppendsFront};
ghost use Rattle.am_insert.specs.Changes.{with_payload, put_in};
ghost use Rattle.am_insert.specs.Edits.{edited, moved, goes_on, IsEditOf};

use am_base::{Fault, Sink, put};
use std::alloc::{AllocError, Global};
use std::marker::Model;

// The fixed header (RFC 8200, section 3).
const FIXED_LENGTH: usize = 40;

// How many bytes come in or go out.
const MOVED: usize = 8;

/// How a packet changes. It keeps places and bytes, and nothing of the packet itself.
#[derive(Drop)]
pub struct Edit {
    // the payload length, and one further byte at its place
    pub(crate) payload: u16,
    pub(crate) place: usize,
    pub(crate) byte: u8,
    // where eight bytes come in or go out: those that come in, if they do
    pub(crate) at: usize,
    pub(crate) eight: Option<[u8; MOVED]>,
}

impl Model for Edit {
    ghost use Rattle.am_insert.specs.Edits.{Change};

    ghost Value = { Change };

    ghost view = { λ e. record {
      payload = e.payload;
      place = e.place;
      byte = e.byte;
      at = e.at;
      eight = e.eight;
    } };
}

impl Edit {
    /// Appends the changed packet. The bytes are those of the plan.
    ///
    /// `Fault`: the sink failed; a front of the changed packet was appended.
    pub fn write<S: Sink>(&self, bytes: &[u8], sink: &mut S) -> Result<(), Fault>
        requires { IsEditOf self.now bytes.now }
        ensures all { OnOk result (S.written sink.new
            ≡ append_known (S.written sink.old) (edited self.now bytes.now)) }
        ensures front { OnErr result (AppendsFront
            (S.written sink.old) (S.written sink.new) (edited self.now bytes.now)) }
        ensures failed { OnErr result (Rose (S.faults sink.old) (S.faults sink.new)) }
        ensures faults_stay { S.faults sink.old ≤ S.faults sink.new }
    {
        let (front, behind) = bytes.split_at(self.at);
        self.write_front(front, sink)?;
        match &self.eight {
            Some(eight) => put_both(sink, eight, behind),
            None => put(sink, &behind[MOVED..]),
        }
    }

    // Appends what stands before the place where bytes come in or go out, with the bytes that change.
    fn write_front<S: Sink>(&self, front: &[u8], sink: &mut S) -> Result<(), Fault>
        requires fixed { 40 ≤ length front.now }
        requires before { self.now.place < length front.now }
        ensures all { OnOk result (S.written sink.new ≡ append_known (S.written sink.old)
            (slice_set (with_payload self.now.payload front.now) self.now.place self.now.byte)) }
        ensures front { OnErr result (AppendsFront (S.written sink.old) (S.written sink.new)
            (slice_set (with_payload self.now.payload front.now) self.now.place self.now.byte)) }
        ensures failed { OnErr result (Rose (S.faults sink.old) (S.faults sink.new)) }
        ensures faults_stay { S.faults sink.old ≤ S.faults sink.new }
    {
        let (begin, headers) = front.split_at(FIXED_LENGTH);
        let mut fixed = [0; FIXED_LENGTH];
        fixed.copy_from_slice(begin);
        fixed[4] = (self.payload / 256) as u8;
        fixed[5] = (self.payload % 256) as u8;
        if self.place < FIXED_LENGTH {
            fixed[self.place] = self.byte;
            return put_both(sink, &fixed, headers);
        }
        let (before, behind) = headers.split_at(self.place - FIXED_LENGTH);
        put_both(sink, &fixed, before)?;
        put_both(sink, &[self.byte], &behind[1..])
    }

    /// Appends the changed packet to a list of bytes that has room for it. The bytes are those of the plan. No memory is
    /// taken.
    pub fn append(&self, bytes: &[u8], list: &mut Vec<u8>)
        requires edit { IsEditOf self.now bytes.now }
        requires room { vec_len list.old + length bytes.now + 8 ≤ vec_capacity list.old }
        ensures { list.new.items ≡ list.old.items ++ edited self.now bytes.now }
    {
        self.append_behind(bytes, 0, list);
    }

    /// The same of a packet that begins at this place of the bytes, behind those before it, which stay as they are.
    #[inline(always)]
    pub fn append_behind(&self, bytes: &[u8], at: usize, list: &mut Vec<u8>)
        requires within { at ≤ length bytes.now }
        requires edit { IsEditOf self.now (drop at bytes.now) }
        requires room { vec_len list.old + length bytes.now + 8 ≤ vec_capacity list.old }
        ensures { list.new.items ≡ list.old.items
            ++ (take at bytes.now ++ edited self.now (drop at bytes.now)) }
    {
        let from = list.len() + at;
        push_moved(list, bytes, at + self.at, &self.eight);
        list[from + 4] = (self.payload / 256) as u8;
        list[from + 5] = (self.payload % 256) as u8;
        list[from + self.place] = self.byte;
    }

    /// The changed packet. The bytes are those of the plan.
    pub fn apply(&self, alloc: Global, bytes: &[u8]) -> Result<Vec<u8>, AllocError>
        requires { IsEditOf self.now bytes.now }
        ensures { IfOk result (λ packet. packet.items ≡ edited self.now bytes.now) }
    {
        let mut packet = Vec::with_capacity(alloc, bytes.len() + MOVED)?;
        self.append(bytes, &mut packet);
        Ok(packet)
    }
}

// Appends bytes for which the list has room.
#[inline(always)]
fn push_all(list: &mut Vec<u8>, bytes: &[u8])
    requires { vec_len list.old + length bytes.now ≤ vec_capacity list.old }
    ensures items { list.new.items ≡ list.old.items ++ bytes.now }
    ensures len { vec_len list.new ≡ vec_len list.old + length bytes.now }
    ensures room { vec_capacity list.old ≤ vec_capacity list.new }
{
    let taken = list.extend_from_slice(bytes);
    let fits = taken.is_ok();
    prove!(fits);
}

// Appends the bytes as they are where eight come in at this place or go out there.
#[inline(always)]
fn push_moved(list: &mut Vec<u8>, bytes: &[u8], place: usize, eight: &Option<[u8; MOVED]>)
    requires within { goes_on place eight.now ≤ length bytes.now }
    requires room { vec_len list.old + length bytes.now + 8 ≤ vec_capacity list.old }
    ensures items { list.new.items ≡ list.old.items ++ moved bytes.now place eight.now }
    ensures len { vec_len list.old + place ≤ vec_len list.new }
{
    match eight {
        Some(eight) => push_with(list, bytes, place, eight),
        None => {
            push_all(list, &bytes[..place]);
            push_all(list, &bytes[place + MOVED..]);
        }
    }
}

// Appends the bytes with these eight put in at a place.
#[inline(always)]
fn push_with(list: &mut Vec<u8>, bytes: &[u8], place: usize, eight: &[u8; MOVED])
    requires within { place ≤ length bytes.now }
    requires room { vec_len list.old + length bytes.now + 8 ≤ vec_capacity list.old }
    ensures items { list.new.items ≡ list.old.items ++ put_in bytes.now place eight.now }
    ensures len { vec_len list.old + place ≤ vec_len list.new }
{
    push_front(list, bytes, place, eight);
    push_all(list, &bytes[place..]);
}

// Appends the bytes before the place, and behind them these eight. Where eight bytes are behind the place, they are copied
// with what is before it, and then written over, which saves a copy.
#[inline(always)]
fn push_front(list: &mut Vec<u8>, bytes: &[u8], place: usize, eight: &[u8; MOVED])
    requires within { place ≤ length bytes.now }
    requires room { vec_len list.old + place + 8 ≤ vec_capacity list.old }
    ensures items { list.new.items ≡ list.old.items ++ (take place bytes.now ++ eight.now) }
    ensures len { vec_len list.new ≡ vec_len list.old + place + 8 }
    ensures room { vec_capacity list.old ≤ vec_capacity list.new }
{
    if bytes.len() - place < MOVED {
        push_all(list, &bytes[..place]);
        push_all(list, eight);
        return;
    }
    push_all(list, &bytes[..place + MOVED]);
    put_last(list, eight);
}

// Puts these eight bytes in the place of the last eight.
fn put_last(list: &mut Vec<u8>, eight: &[u8; MOVED])
    requires { 8 ≤ vec_len list.old }
    ensures items { list.new.items ≡ take (vec_len list.old - 8) list.old.items ++ eight.now }
    ensures len { vec_len list.new ≡ vec_len list.old }
    ensures room { vec_capacity list.old ≤ vec_capacity list.new }
{
    let from = list.len() - MOVED;
    list[from..].copy_from_slice(eight);
}

// Appends these bytes, and then the others.
fn put_both<S: Sink>(sink: &mut S, first: &[u8], second: &[u8]) -> Result<(), Fault>
    ensures all { OnOk result (S.written sink.new
        ≡ append_known (S.written sink.old) (first.now ++ second.now)) }
    ensures front { OnErr result (AppendsFront
        (S.written sink.old) (S.written sink.new) (first.now ++ second.now)) }
    ensures failed { OnErr result (Rose (S.faults sink.old) (S.faults sink.new)) }
    ensures faults_stay { S.faults sink.old ≤ S.faults sink.new }
{
    put(sink, first)?;
    put(sink, second)
}
