//! The command `strip`: the capture without the marks of the domain's flows (RFC 9343, section 4).
ghost use Rattle.std.specs.Prelude.{◌≡◌, ◌≤◌, ◌+◌, ◌-◌, ◌++◌, ⊤, length, drop, OnOk, OnErr, IfSome, IfNone};
ghost use Rattle.am_pcap.specs.Shown.{packet_shown};
ghost use Rattle.am_pcap.specs.Spelling.{record_bytes};
ghost use Rattle.am_insert.specs.Edits.{edited, IsEditOf};
ghost use Rattle.am_chain.specs.Chains.{inputs, output, Performs};
ghost use Rattle.am_run.specs.Rewriting.{with_packet};
ghost use Rattle.am_run.specs.commands.Strip.{HasOwnMark, HasNoOwnMark, stripped_records, strip_chain};
ghost use Rattle.am_chain.specs.Shown.{domain_file_shown, answer_of};

use crate::rewriting::{Matched, change_record, flow_of_record, keep_record};
use am_base::{Shelf, Sink};
use am_chain::answer::{Stop, Unprinted};
use am_chain::inputs::take_domain;
use am_chain::printing::{Printing, print_capture};
use am_chain::words::DomainFileWords;
use am_domain::Domain;
use am_insert::{Edit, plan_strip};
use am_pcap::{Head, MAX_CAPTURED, Record};
use std::alloc::{AllocError, Global};

/// How many bytes go with a mark.
const MOVED: u32 = 8;

/// Each record, without its mark where that is its flow's and comes out.
#[derive(Clone, Copy)]
struct StrippedRecords<'a> {
    domain: &'a Domain,
}

impl Printing for StrippedRecords<'_> {
    type State = ();

    ghost stream = { λ s. stripped_records s.domain.now };

    ghost knows = { λ s kept h ps. ⊤ };

    fn begin(&self, _alloc: Global, head: &Head, held: &mut Vec<u8>) -> Result<(), AllocError> {
        held.extend_from_slice(&head.raw)?;
        Ok(())
    }

    fn take(
        &self,
        _state: &mut (),
        head: &Head,
        packet: &Record<'_>,
        held: &mut Vec<u8>,
    ) -> Result<(), Unprinted> {
        match own_mark(self.domain, head, packet) {
            Some(own) => match strip_record(held, head, packet, &own) {
                Ok(()) => Ok(()),
                Err(_) => Err(Unprinted::NoMemory),
            },
            None => match keep_record(held, head.form, packet) {
                Ok(()) => Ok(()),
                Err(_) => Err(Unprinted::NoMemory),
            },
        }
    }

    fn finish(&self, _state: &mut (), _head: &Head, _held: &mut Vec<u8>) -> Result<(), AllocError> {
        Ok(())
    }
}

// How a record's mark comes out of its packet, which begins at this place.
#[derive(Drop)]
struct OwnMark {
    at: usize,
    edit: Edit,
}

// The mark of a record's flow that comes out. None where it has none.
#[inline(always)]
fn own_mark(domain: &Domain, head: &Head, packet: &Record<'_>) -> Option<OwnMark>
    ensures found { IfSome result (λ o. HasOwnMark domain.now head.now (packet_shown packet.now)
        o.at (edited o.edit (drop o.at packet.now.bytes.now))) }
    ensures within { IfSome result (λ o. o.at ≤ length packet.now.bytes.now) }
    ensures edit { IfSome result (λ o. IsEditOf o.edit (drop o.at packet.now.bytes.now)) }
    ensures shorter { IfSome result (λ o.
        length (edited o.edit (drop o.at packet.now.bytes.now)) + 8
        ≡ length (drop o.at packet.now.bytes.now)) }
    ensures none { IfNone result
        (HasNoOwnMark domain.now head.now (packet_shown packet.now)) }
{
    let Some(Matched { at, flow }) = flow_of_record(domain, head.link, packet) else {
        return None;
    };
    let Some((mark, edit)) = plan_strip(&packet.bytes[at..], packet.whole(), domain.place()) else {
        return None;
    };
    if mark.flow() != domain.flows()[flow as usize].id() {
        return None;
    }
    if packet.original < MOVED {
        return None;
    }
    Some(OwnMark { at, edit })
}

// Adds a record without its mark, or nothing where memory runs out.
#[inline(always)]
fn strip_record(
    held: &mut Vec<u8>,
    head: &Head,
    packet: &Record<'_>,
    own: &OwnMark,
) -> Result<(), AllocError>
    requires short { length packet.now.bytes.now ≤ MAX_CAPTURED }
    requires within { own.now.at ≤ length packet.now.bytes.now }
    requires edit { IsEditOf own.now.edit (drop own.now.at packet.now.bytes.now) }
    requires shorter { length (edited own.now.edit (drop own.now.at packet.now.bytes.now)) + 8
        ≡ length (drop own.now.at packet.now.bytes.now) }
    requires room { 8 ≤ packet.now.original }
    ensures added { OnOk result (held.new.items ≡ held.old.items
        ++ record_bytes head.now.form.big
        (with_packet (packet_shown packet.now) own.now.at
        (edited own.now.edit (drop own.now.at packet.now.bytes.now))
        (packet.now.original - 8))) }
    ensures kept { OnErr result (held.new.items ≡ held.old.items) }
{
    let lengths = (packet.bytes.len() as u32 - MOVED, packet.original - MOVED);
    change_record(held, head.form, packet, own.at, &own.edit, lengths)
}

/// Takes the domain, and prints the capture without its marks.
pub fn strip<S: Shelf, O: Sink>(
    alloc: Global,
    words: &DomainFileWords<'_>,
    shelf: &mut S,
    out: &mut O,
) -> Result<(), Stop>
    ensures { Performs (inputs (S.told shelf.old) (S.faults shelf.old) (S.missed shelf.old))
        (inputs (S.told shelf.new) (S.faults shelf.new) (S.missed shelf.new))
        (output (O.written out.old) (O.faults out.old))
        (output (O.written out.new) (O.faults out.new))
        (strip_chain (domain_file_shown words.now)) (answer_of result) }
{
    let domain = match take_domain(alloc, shelf, words.domain) {
        Ok(domain) => domain,
        Err(stop) => return Err(stop),
    };
    let records = StrippedRecords { domain: &domain };
    print_capture(alloc, &records, words.file, shelf, out)
}
