//! The captures that the nodes of a world take.

ghost use Rattle.std.specs.Prelude.{◌≡◌, ◌+◌, ◌*◌, ◌^◌, ◌<◌, ◌≤◌, ◌==◌, ◌++◌, ◌∷◌, [], ℕ, All, IfOk, OnOk, IfSome, Some, None, false, length, if◌then◌else◌};
ghost use Rattle.am_pcap.specs.Spelling.{record_bytes};
ghost use Rattle.am_world.specs.Events.{event_packet, event_reading};
ghost use Rattle.am_world.specs.Passes.{passes};
ghost use Rattle.am_world.specs.Trips.{NamesLink};
ghost use Rattle.am_world.specs.Worlds.{IsValid};
ghost use Rattle.am_world.specs.Captures.{
  AreSendings,
  HaveFlows,
  IsRecordOf,
  IsSized,
  NamesThere,
  captured,
  captured_bytes,
  header_number,
  is_captured,
  mark_at,
  node_capture,
  node_head,
  node_records,
  packet_at,
  packet_bytes,
  sending_after,
  sending_at,
};

use crate::event::Event;
use crate::world::World;
use am_clock::colour_of;
use am_domain::{Domain, Edge};
use am_ip6::Place;
use am_opts::{Mark, encode_mark};
use am_pcap::{Form, LinkKind, captures_are_spelled, file_head, record_head};
use std::alloc::{AllocError, Global};
use std::collections::HashMap;

// The form of a node's capture.
const FORM: Form = Form {
    big: false,
    nano: true,
};

// How many nanoseconds a second has.
const SECOND: u64 = 1_000_000_000;

// How many bytes a packet has.
const PACKET_LENGTH: u32 = 48;

// How a packet was sent.
#[derive(Clone, Copy)]
pub(crate) struct Sent {
    // Its flow.
    pub(crate) flow: u32,
    // The mark that it carries from then on.
    pub(crate) mark: Mark,
}

/// The capture that the node takes: for each packet that passes it at a reading in its span, in the order of the events,
/// a record with that reading. It has 24 bytes, and at most 64 for each event.
///
/// The packets have 48 bytes, and nothing but their mark (RFC 9343, section 4), in a header of the domain's kind. They
/// are sent from the first address of the prefix of their flow's sources, to the first of its destinations.
pub fn capture_of(
    alloc: Global,
    domain: &Domain,
    world: &World,
    node: u32,
) -> Result<Vec<u8>, AllocError>
    requires node { node < length domain.now.nodes }
    requires valid { IsValid domain.now world.now }
    ensures bytes { IfOk result (λ capture.
        capture.items ≡ node_capture domain.now world.now node) }

    // It is a capture, and records what passes the node in its span.
    ensures recorded { IfOk result (λ capture.
        IsRecordOf domain.now world.now node capture.items) }
    ensures length { IfOk result
        (λ capture. length capture.items ≤ 24 + 64 * length world.now) }
{
    captures_are_spelled();
    // No two flows have the same number, so a mark tells its flow.
    let _ = domain.flows();
    let events = world.events();
    let sendings = sendings_of(alloc, domain, events)?;
    let capture = written(alloc, domain, &sendings, node, events)?;
    Ok(capture)
}

// The bytes of the capture.
fn written(
    alloc: Global,
    domain: &Domain,
    sendings: &HashMap<u64, Sent>,
    node: u32,
    events: &[Event],
) -> Result<Vec<u8>, AllocError>
    requires node { node < length domain.now.nodes }
    requires there { All (NamesThere domain.now) events.now }
    requires sendings { AreSendings domain.now events.now sendings.now }
    requires flows { HaveFlows domain.now sendings.now }
    ensures bytes { IfOk result (λ capture.
        capture.items ≡ node_capture domain.now events.now node) }
    ensures sized { IfOk result
        (λ capture. All IsSized (node_records domain.now events.now node)) }
{
    let mut capture = Vec::new(alloc);
    put_head(&mut capture)?;
    for event in events {
        put_event(&mut capture, domain, sendings, node, event)?;
    }
    Ok(capture)
}

// Appends the file header.
fn put_head(capture: &mut Vec<u8>) -> Result<(), AllocError>
    ensures { OnOk result (capture.new.items ≡ capture.old.items ++ node_head.raw) }
{
    let raw = file_head(FORM, LinkKind::RawIp);
    capture.extend_from_slice(&raw)?;
    Ok(())
}

// Appends the record of the event, where it has one.
fn put_event(
    capture: &mut Vec<u8>,
    domain: &Domain,
    sendings: &HashMap<u64, Sent>,
    node: u32,
    event: &Event,
) -> Result<(), AllocError>
    requires node { node < length domain.now.nodes }
    requires there { NamesThere domain.now event.now }
    requires flows { HaveFlows domain.now sendings.now }
    ensures bytes { OnOk result (capture.new.items ≡ capture.old.items ++ captured_bytes
        domain.now node (sending_at sendings.now (event_packet event.now)) event.now) }
    ensures sized { OnOk result (All IsSized
        (captured domain.now node (sending_at sendings.now (event_packet event.now)) event.now)) }
{
    let Some(reading) = captured_at(domain, node, event) else {
        return Ok(());
    };
    let Some(sent) = sendings.get(&event.packet()) else {
        return Ok(());
    };
    put_record(capture, domain, reading, sent)
}

// Appends the record of a packet that was sent so, at this reading.
fn put_record(
    capture: &mut Vec<u8>,
    domain: &Domain,
    reading: u64,
    sent: &Sent,
) -> Result<(), AllocError>
    requires reading { reading < 2 ^ 32 * 10 ^ 9 }
    requires flow { sent.now.flow < length domain.now.flows }
    ensures bytes { OnOk result (capture.new.items
        ≡ capture.old.items ++ record_bytes false (packet_at domain.now reading sent.now)) }
    ensures sized { OnOk result (IsSized (packet_at domain.now reading sent.now)) }
{
    let seconds = (reading / SECOND) as u32;
    let fraction = (reading % SECOND) as u32;
    let head = record_head(FORM, seconds, fraction, PACKET_LENGTH, PACKET_LENGTH);
    capture.extend_from_slice(&head)?;
    put_packet(capture, domain, sent)
}

// Appends a packet that was sent so.
fn put_packet(capture: &mut Vec<u8>, domain: &Domain, sent: &Sent) -> Result<(), AllocError>
    requires { sent.now.flow < length domain.now.flows }
    ensures bytes { OnOk result
        (capture.new.items ≡ capture.old.items ++ packet_bytes domain.now sent.now) }
    ensures sized { OnOk result (length (packet_bytes domain.now sent.now) ≡ 48) }
{
    let flow = &domain.flows()[sent.flow as usize];
    let source = flow.source().base();
    let destination = flow.destination().base();
    capture.extend_from_slice(&[0x60, 0, 0, 0, 0, 8, number_of(domain.place()), 64])?;
    capture.extend_from_slice(&source.0)?;
    capture.extend_from_slice(&destination.0)?;
    capture.extend_from_slice(&[59, 0])?;
    let option = encode_mark(sent.mark);
    capture.extend_from_slice(&option)?;
    Ok(())
}

// The number that announces a header of this kind.
fn number_of(place: Place) -> u8
    ensures { result ≡ header_number place }
{
    match place {
        Place::HopByHop => 0,
        Place::Destination => 60,
    }
}

// The reading at which a packet passes the node, if it does so in the span of the node's capture.
fn captured_at(domain: &Domain, node: u32, event: &Event) -> Option<u64>
    requires node { node < length domain.now.nodes }
    requires there { NamesThere domain.now event.now }
    ensures value { result
        ≡ (if is_captured domain.now node event.now then Some (event_reading event.now) else None) }
    ensures most { IfSome result (λ reading. reading < 2 ^ 32 * 10 ^ 9) }
{
    let Some(reading) = passed_at(domain.edges(), node, event) else {
        return None;
    };
    let span = &domain.nodes()[node as usize];
    if reading < span.from() || span.until() <= reading {
        return None;
    }
    Some(reading)
}

// The reading at which a packet passes the node, if it does so.
fn passed_at(links: &[Edge], node: u32, event: &Event) -> Option<u64>
    requires { NamesLink links.now event.now }
    ensures { result
        ≡ (if passes links.now (λ n. n == node) event.now then Some (event_reading event.now) else None) }
{
    let (at, reading) = match *event {
        Event::Send { node, reading, .. } => (node, reading),
        Event::Hop { link, reading, .. } => (links[link as usize].to, reading),
        Event::Lost { .. } => return None,
    };
    if at == node {
        return Some(reading);
    }
    None
}

// How each packet was sent.
fn sendings_of(
    alloc: Global,
    domain: &Domain,
    events: &[Event],
) -> Result<HashMap<u64, Sent>, AllocError>
    requires { All (NamesThere domain.now) events.now }
    ensures sendings { IfOk result (λ sendings. AreSendings domain.now events.now sendings) }
    ensures flows { IfOk result (λ sendings. HaveFlows domain.now sendings) }
{
    let mut sendings = HashMap::new(alloc);
    for event in events {
        note(&mut sendings, domain, event)?;
    }
    Ok(sendings)
}

// Notes how the packet of the event is sent, where it is.
fn note(sendings: &mut HashMap<u64, Sent>, domain: &Domain, event: &Event) -> Result<(), AllocError>
    requires { NamesThere domain.now event.now }
    ensures noted { OnOk result ((packet : ℕ) → sending_at sendings.new packet
        ≡ (if event_packet event.now == packet
        then sending_after domain.now (sending_at sendings.old packet) (event.now ∷ [])
        else sending_at sendings.old packet)) }
    ensures flows { OnOk result (HaveFlows domain.now sendings.old
        → HaveFlows domain.now sendings.new) }
{
    let Event::Send {
        packet,
        flow,
        reading,
        delay,
        ..
    } = *event
    else {
        return Ok(());
    };
    sendings.insert(packet, sending(domain, flow, reading, delay))?;
    Ok(())
}

// How a packet of the flow is sent at this reading, with this delay bit.
fn sending(domain: &Domain, flow: u32, reading: u64, delay: bool) -> Sent
    requires { flow < length domain.now.flows }
    ensures { result ≡ record { flow = flow; mark = mark_at domain.now flow reading delay } }
{
    let id = domain.flows()[flow as usize].id();
    let colour = colour_of(domain.timing().block_of(reading));
    let Some(mark) = Mark::new(id, colour, delay) else {
        unreachable!()
    };
    Sent { flow, mark }
}
