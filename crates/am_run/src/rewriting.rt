//! Captures whose packets are changed: which flow a record is of, and how it is written.
ghost use Rattle.std.specs.Prelude.{◌≡◌, ◌≤◌, ◌+◌, ◌++◌, ℕ, length, take, drop, vec_len, vec_capacity, IfSome, IfNone, OnOk, OnErr};
ghost use Rattle.am_pcap.specs.Spelling.{record_bytes, head_spelled};
ghost use Rattle.am_pcap.specs.Shown.{packet_shown};
ghost use Rattle.am_insert.specs.Edits.{edited, IsEditOf};
ghost use Rattle.am_run.specs.Rewriting.{IsOfFlow, IsOfNoFlow};

use am_addr::Addr;
use am_domain::Domain;
use am_insert::Edit;
use am_ip6::Fixed;
use am_pcap::{Form, Frame, LinkKind, MAX_CAPTURED, Record, packet_of, record_head};
use std::alloc::AllocError;

/// Where the packet of a record begins, and the number of its flow.
#[derive(Clone, Copy)]
pub struct Matched {
    pub at: usize,
    pub flow: u32,
}

/// The flow that the record is of. None where there is none.
#[inline(always)]
pub fn flow_of_record(domain: &Domain, link: LinkKind, record: &Record<'_>) -> Option<Matched>
    ensures found { IfSome result (λ m.
        IsOfFlow domain.now link (packet_shown record.now) m.at m.flow) }
    ensures within { IfSome result (λ m. m.at ≤ length record.now.bytes.now) }
    // It is of no other.
    ensures only { IfSome result (λ m. (at number : ℕ)
        → IsOfFlow domain.now link (packet_shown record.now) at number
        → (at ≡ m.at) × (number ≡ m.flow)) }
    ensures none { IfNone result (IsOfNoFlow domain.now link (packet_shown record.now)) }
{
    let Frame::Ip6 { at } = packet_of(link, record.bytes, record.whole()) else {
        return None;
    };
    let Some(fixed) = Fixed::read(&record.bytes[at..]) else {
        return None;
    };
    match domain.flow_of(&Addr(fixed.source), &Addr(fixed.destination)) {
        Some(flow) => Some(Matched { at, flow }),
        None => None,
    }
}

/// Adds the record as it is, or nothing where memory runs out.
pub fn keep_record(held: &mut Vec<u8>, form: Form, record: &Record<'_>) -> Result<(), AllocError>
    requires { length record.now.bytes.now ≤ MAX_CAPTURED }
    ensures added { OnOk result (held.new.items
        ≡ held.old.items ++ record_bytes form.big (packet_shown record.now)) }
    ensures kept { OnErr result (held.new.items ≡ held.old.items) }
{
    let captured = record.bytes.len() as u32;
    put_head(held, form, record, captured, record.original)?;
    push_all(held, record.bytes);
    Ok(())
}

/// Adds the record whose packet, which begins at this place, is changed, or nothing where memory runs out: so many bytes
/// are captured of it then, and so many were on the wire.
#[inline(always)]
pub fn change_record(
    held: &mut Vec<u8>,
    form: Form,
    record: &Record<'_>,
    at: usize,
    edit: &Edit,
    lengths: (u32, u32),
) -> Result<(), AllocError>
    requires within { at ≤ length record.now.bytes.now }
    requires edit { IsEditOf edit.now (drop at record.now.bytes.now) }
    ensures added { OnOk result (held.new.items ≡ held.old.items
        ++ (head_spelled form.big record.now.seconds record.now.fraction lengths.0 lengths.1
        ++ (take at record.now.bytes.now ++ edited edit.now (drop at record.now.bytes.now)))) }
    ensures kept { OnErr result (held.new.items ≡ held.old.items) }
{
    let (captured, original) = lengths;
    put_head(held, form, record, captured, original)?;
    edit.append_behind(record.bytes, at, held);
    Ok(())
}

// Adds what stands before the record's packet, with these lengths; behind it is room for the record's bytes and eight
// more. Each byte order has a call of its own, so that a compiler writes whole words.
#[inline(always)]
fn put_head(
    held: &mut Vec<u8>,
    form: Form,
    record: &Record<'_>,
    captured: u32,
    original: u32,
) -> Result<(), AllocError>
    ensures head { OnOk result (held.new.items ≡ held.old.items
        ++ head_spelled form.big record.now.seconds record.now.fraction captured original) }
    ensures room { OnOk result
        (vec_len held.new + length record.now.bytes.now + 8 ≤ vec_capacity held.new) }
    ensures kept { OnErr result (held.new.items ≡ held.old.items) }
{
    held.reserve(record.bytes.len() + 24)?;
    let (seconds, fraction) = (record.seconds, record.fraction);
    if form.big {
        push_all(
            held,
            &record_head(form, seconds, fraction, captured, original),
        );
        return Ok(());
    }
    let little = Form {
        big: false,
        nano: form.nano,
    };
    push_all(
        held,
        &record_head(little, seconds, fraction, captured, original),
    );
    Ok(())
}

// Adds bytes for which there is room.
#[inline(always)]
fn push_all(held: &mut Vec<u8>, bytes: &[u8])
    requires { vec_len held.old + length bytes.now ≤ vec_capacity held.old }
    ensures items { held.new.items ≡ held.old.items ++ bytes.now }
    ensures len { vec_len held.new ≡ vec_len held.old + length bytes.now }
    ensures room { vec_capacity held.old ≤ vec_capacity held.new }
{
    let taken = held.extend_from_slice(bytes);
    let fits = taken.is_ok();
    prove!(fits);
}
