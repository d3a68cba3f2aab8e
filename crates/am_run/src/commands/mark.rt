//! The command `mark`: the capture with a mark in each packet of the domain's flows (RFC 9343, section 4).
ghost use Rattle.std.specs.Prelude.{◌≡◌, ◌≤◌, ◌<◌, ◌^◌, length, drop, OnOk, OnErr, IfOk, IfErr};
ghost use Rattle.std.specs.Bool.{MatchBool};
ghost use Rattle.am_clock.specs.Times.{IsMarkedIn};
ghost use Rattle.am_pcap.specs.Shown.{packet_shown};
ghost use Rattle.am_chain.specs.Chains.{inputs, output, Performs};
ghost use Rattle.am_insert.specs.Edits.{edited, IsEditOf};
ghost use Rattle.am_run.specs.Marking.{AreNewest, PlansMark, MarksRecord};
ghost use Rattle.am_chain.specs.Printing.{Grows};
ghost use Rattle.am_run.specs.Rewriting.{IsOfFlow};
ghost use Rattle.am_run.specs.commands.Mark.{IsFullRecord, RefusesMarkAt, marked_records, mark_chain};
ghost use Rattle.am_chain.specs.Shown.{domain_file_shown, reason_shown, answer_of, OnRefused};

use crate::rewriting::{Matched, change_record, flow_of_record, keep_record};
use am_base::{Shelf, Sink};
use am_chain::answer::{Reason, Stop, Unprinted};
use am_chain::inputs::take_domain;
use am_chain::printing::{Printing, print_capture};
use am_chain::words::DomainFileWords;
use am_clock::{Timing, colour_of};
use am_domain::Domain;
use am_insert::{Edit, plan_insert};
use am_opts::Mark;
use am_pcap::{Head, MAX_CAPTURED, Record};
use std::alloc::{AllocError, Global};

/// The most captured bytes of a record that gets a mark, which takes eight: with them it has as many as a record may.
const MAX_MARKED: usize = 262_136;

/// The greatest length on the wire of such a record: with eight bytes more it fits into 32 bits.
const MAX_ORIGINAL: u32 = 4_294_967_287;

/// Each record, with its mark where it is of a flow.
#[derive(Clone, Copy)]
struct MarkedRecords<'a> {
    domain: &'a Domain,
}

/// What is kept from record to record.
#[derive(Drop)]
struct Marker {
    // of each flow: one behind the greatest block of its records so far, 0 where there was none
    newest: Vec<u64>,
}

impl Printing for MarkedRecords<'_> {
    type State = Marker;

    ghost stream = { λ m. marked_records m.domain.now };

    ghost knows = { λ m s h ps. AreNewest m.domain.now h ps s.newest.items };

    fn begin(&self, alloc: Global, head: &Head, held: &mut Vec<u8>) -> Result<Marker, AllocError> {
        let newest = vec![in alloc; 0u64; self.domain.flows().len()]?;
        held.extend_from_slice(&head.raw)?;
        Ok(Marker { newest })
    }

    fn take(
        &self,
        state: &mut Marker,
        head: &Head,
        packet: &Record<'_>,
        held: &mut Vec<u8>,
    ) -> Result<(), Unprinted> {
        match flow_of_record(self.domain, head.link, packet) {
            Some(found) => mark_record(self.domain, state, head, packet, found, held),
            None => match keep_record(held, head.form, packet) {
                Ok(()) => Ok(()),
                Err(_) => Err(Unprinted::NoMemory),
            },
        }
    }

    fn finish(
        &self,
        _state: &mut Marker,
        _head: &Head,
        _held: &mut Vec<u8>,
    ) -> Result<(), AllocError> {
        Ok(())
    }
}

// How the mark of a record goes in.
#[derive(Drop)]
struct Plan {
    edit: Edit,
    block: u64,
}

// Adds a record of this flow, with its mark; nothing where it is refused or memory runs out.
fn mark_record(
    domain: &Domain,
    state: &mut Marker,
    head: &Head,
    packet: &Record<'_>,
    found: Matched,
    held: &mut Vec<u8>,
) -> Result<(), Unprinted>
    requires short { length packet.now.bytes.now ≤ MAX_CAPTURED }
    requires flows { length state.old.newest.items ≡ length domain.now.flows }
    requires of_flow { IsOfFlow domain.now head.now.link (packet_shown packet.now)
        found.at found.flow }
    requires within { found.at ≤ length packet.now.bytes.now }
    ensures marked { OnOk result (Grows held.old.items held.new.items (λ piece.
        MarksRecord domain.now head.now (packet_shown packet.now) found.at found.flow
        state.old.newest.items state.new.newest.items piece)) }
    ensures refused { IfErr result (λ e. OnRefused e (RefusesMarkAt domain.now
        packet.now.number (packet_shown packet.now) found.at)) }
    ensures kept { OnErr result (held.new.items ≡ held.old.items) }
{
    let flow = found.flow as usize;
    let newest = state.newest[flow];
    let Plan { edit, block } = match plan_mark(domain, newest, head, packet, found) {
        Ok(plan) => plan,
        Err(reason) => return Err(Unprinted::Refused { reason }),
    };
    let lengths = (packet.bytes.len() as u32 + 8, packet.original + 8);
    match change_record(held, head.form, packet, found.at, &edit, lengths) {
        Ok(()) => {}
        Err(_) => return Err(Unprinted::NoMemory),
    }
    state.newest[flow] = newest.max(block + 1);
    Ok(())
}

// Plans the mark of a record of this flow, whose records were in blocks below this number before.
fn plan_mark(
    domain: &Domain,
    newest: u64,
    head: &Head,
    packet: &Record<'_>,
    found: Matched,
) -> Result<Plan, Reason>
    requires of_flow { IsOfFlow domain.now head.now.link (packet_shown packet.now)
        found.at found.flow }
    requires within { found.at ≤ length packet.now.bytes.now }
    ensures plan { IfOk result (λ p. PlansMark domain.now head.now (packet_shown packet.now)
        found.at found.flow newest p.block (edited p.edit (drop found.at packet.now.bytes.now))) }
    ensures edit { IfOk result (λ p. IsEditOf p.edit (drop found.at packet.now.bytes.now)) }
    ensures block { IfOk result (λ p. p.block < 2 ^ 63) }
    ensures refused { IfErr result (λ e. RefusesMarkAt domain.now
        packet.now.number (packet_shown packet.now) found.at (reason_shown e)) }
{
    let reading = packet.reading(head.form);
    let block = block_near(domain.timing(), newest.saturating_sub(1), reading);
    let flow = &domain.flows()[found.flow as usize];
    let Some(mark) = Mark::new(flow.id(), colour_of(block), newest <= block) else {
        unreachable!()
    };
    let number = packet.number;
    let edit = match plan_insert(
        &packet.bytes[found.at..],
        packet.whole(),
        mark,
        domain.place(),
    ) {
        Ok(edit) => edit,
        Err(error) => return Err(Reason::NotInserted { number, error }),
    };
    if is_full(packet) {
        return Err(Reason::RecordFull { number });
    }
    Ok(Plan { edit, block })
}

// The block of a reading, found without a division where it is the likely one.
#[inline(always)]
fn block_near(timing: &Timing, likely: u64, reading: u64) -> u64
    ensures { IsMarkedIn timing.now reading result }
{
    let block = timing.block();
    let Some(begin) = likely.checked_mul(block) else {
        return timing.block_of(reading);
    };
    if reading < begin || reading - begin >= block {
        return timing.block_of(reading);
    }
    likely
}

// Whether the record has no room for eight bytes more.
fn is_full(packet: &Record<'_>) -> bool
    ensures { MatchBool result (IsFullRecord (packet_shown packet.now))
        (IsFullRecord (packet_shown packet.now) → ⊥) }
{
    packet.bytes.len() > MAX_MARKED || packet.original > MAX_ORIGINAL
}

/// Takes the domain, and prints the capture with its marks.
pub fn mark<S: Shelf, O: Sink>(
    alloc: Global,
    words: &DomainFileWords<'_>,
    shelf: &mut S,
    out: &mut O,
) -> Result<(), Stop>
    ensures { Performs (inputs (S.told shelf.old) (S.faults shelf.old) (S.missed shelf.old))
        (inputs (S.told shelf.new) (S.faults shelf.new) (S.missed shelf.new))
        (output (O.written out.old) (O.faults out.old))
        (output (O.written out.new) (O.faults out.new))
        (mark_chain (domain_file_shown words.now)) (answer_of result) }
{
    let domain = match take_domain(alloc, shelf, words.domain) {
        Ok(domain) => domain,
        Err(stop) => return Err(stop),
    };
    let records = MarkedRecords { domain: &domain };
    print_capture(alloc, &records, words.file, shelf, out)
}
