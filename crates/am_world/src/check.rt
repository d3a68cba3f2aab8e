//! Whether a world can be: the first rule that one of its events breaks.

ghost use Rattle.std.specs.Prelude.{◌≡◌, ◌↔◌, IfOk, IfSome, None};
ghost use Rattle.am_domain.specs.Network as network;
ghost use Rattle.am_world.specs.Drops.{is_at};
ghost use Rattle.am_world.specs.Trips.{AreTrips};
ghost use Rattle.am_world.specs.Breaches as spec;
ghost use Rattle.am_world.specs.Breaches.{
  IsFirstBreach,
  IsValidAndTimed,
  TellsRule,
  TellsBreach,
  TellsUnfinished,
};

use crate::event::Event;
use crate::rule::{Breach, Rule};
use crate::trip::{Trip, trip_of, trips_of};
use crate::world::World;
use am_clock::Timing;
use am_domain::{Domain, Edge};
use std::alloc::{AllocError, Global};
use std::collections::HashMap;

// The rules that single events break, in the order in which an event is looked at.
const IN_ORDER: [Rule; 8] = [
    Rule::BadNumber,
    Rule::PacketTwice,
    Rule::NotEntry,
    Rule::UnknownPacket,
    Rule::AfterLost,
    Rule::WrongNode,
    Rule::ClockWide,
    Rule::DelayWide,
];

/// The first breach: of the first event that breaks a rule, the first rule that it breaks, and after all events the
/// first that sends a packet which is neither lost nor delivered. None where the world is valid, and its clocks and
/// delays are within the bounds of the domain.
pub fn check_world(
    alloc: Global,
    domain: &Domain,
    world: &World,
) -> Result<Option<Breach>, AllocError>
    ensures first { IfOk result (λ found.
        IfSome found (λ breach. IsFirstBreach domain.now world.now breach)) }
    ensures none { IfOk result (λ found. (found ≡ None)
        ↔ IsValidAndTimed domain.now world.now) }
{
    let events = world.events();
    let broken = first_broken(alloc, domain, events)?;
    if broken.is_some() {
        return Ok(broken);
    }
    let trips = trips_of(alloc, domain.edges(), events)?;
    Ok(first_unfinished(domain, &trips, events))
}

// The first breach of a single event.
fn first_broken(
    alloc: Global,
    domain: &Domain,
    events: &[Event],
) -> Result<Option<Breach>, AllocError>
    ensures { IfOk result (λ found. TellsBreach domain.now events.now found) }
{
    let mut trips = HashMap::new(alloc);
    for k in 0..events.len() {
        let event = &events[k];
        let packet = event.packet();
        let trip = trip_of(&trips, packet);
        let broken = broken_rule(domain, &trip, event);
        if let Some(rule) = broken {
            return Ok(Some(Breach {
                event: k as u64,
                rule,
            }));
        }
        let next = trip.after(domain.edges(), event);
        trips.insert(packet, next)?;
    }
    Ok(None)
}

// The first event that sends a packet which is neither lost nor delivered.
fn first_unfinished(domain: &Domain, trips: &HashMap<u64, Trip>, events: &[Event]) -> Option<Breach>
    requires { AreTrips domain.now.links events.now trips.now }
    ensures { TellsUnfinished domain.now events.now result }
{
    for k in 0..events.len() {
        if is_unfinished(domain, trips, &events[k]) {
            return Some(Breach {
                event: k as u64,
                rule: Rule::Unfinished,
            });
        }
    }
    None
}

// The first rule that the event breaks, where this is known of its packet before.
fn broken_rule(domain: &Domain, trip: &Trip, event: &Event) -> Option<Rule>
    ensures { TellsRule domain.now trip.now event.now result }
{
    for rule in IN_ORDER {
        if breaks_rule(domain, trip, event, rule) {
            return Some(rule);
        }
    }
    None
}

// Whether the event breaks the rule, where this is known of its packet before.
fn breaks_rule(domain: &Domain, trip: &Trip, event: &Event, rule: Rule) -> bool
    ensures { result ≡ spec.breaks_rule domain.now trip.now event.now rule }
{
    match rule {
        Rule::BadNumber => misnames(domain, event),
        Rule::PacketTwice => is_send(event) && trip.sent.is_some(),
        Rule::NotEntry => is_sent_inside(domain.edges(), event),
        Rule::UnknownPacket => !is_send(event) && trip.sent.is_none(),
        Rule::AfterLost => !is_send(event) && trip.lost,
        Rule::WrongNode => strays(domain.edges(), trip.node, event),
        Rule::ClockWide => is_off(domain.timing(), event),
        Rule::DelayWide => is_untimely(domain.timing(), trip.sent, event),
        Rule::Unfinished => false,
    }
}

// Whether a packet is sent.
fn is_send(event: &Event) -> bool
    ensures { result ≡ spec.is_send event.now }
{
    matches!(event, Event::Send { .. })
}

// Whether the event names a flow, a node or a link that the domain does not have.
fn misnames(domain: &Domain, event: &Event) -> bool
    ensures { result ≡ spec.misnames domain.now event.now }
{
    match *event {
        Event::Send { flow, node, .. } => {
            domain.flows().len() <= flow as usize || domain.nodes().len() <= node as usize
        }
        Event::Hop { link, .. } => domain.edges().len() <= link as usize,
        Event::Lost { .. } => false,
    }
}

// Whether a packet is sent at a node at which a link ends.
fn is_sent_inside(links: &[Edge], event: &Event) -> bool
    ensures { result ≡ spec.is_sent_inside links.now event.now }
{
    match *event {
        Event::Send { node, .. } => has_links_in(links, node),
        _ => false,
    }
}

// Whether a packet that is at this node hops over a link that does not begin there.
fn strays(links: &[Edge], at: Option<u32>, event: &Event) -> bool
    ensures { result ≡ spec.strays links.now at event.now }
{
    match *event {
        Event::Hop { link, .. } => !begins_at(links, link, at),
        _ => false,
    }
}

// Whether the link is there and begins at the node, if there is one.
fn begins_at(links: &[Edge], link: u32, at: Option<u32>) -> bool
    ensures { result ≡ spec.begins_at links.now at link }
{
    match at {
        Some(node) if (link as usize) < links.len() => links[link as usize].from == node,
        _ => false,
    }
}

// Whether the clock that sees the event is wrong by more than half the skew.
fn is_off(timing: &Timing, event: &Event) -> bool
    ensures { result ≡ spec.is_off timing.now event.now }
{
    match *event {
        Event::Send { time, reading, .. } | Event::Hop { time, reading, .. } => {
            are_apart(timing, time, reading)
        }
        Event::Lost { .. } => false,
    }
}

// Whether twice the distance of time and reading is above the skew.
fn are_apart(timing: &Timing, time: u64, reading: u64) -> bool
    ensures { result ≡ spec.are_apart timing.now time reading }
{
    let half = timing.skew() / 2;
    half < time.saturating_sub(reading) || half < reading.saturating_sub(time)
}

// Whether a packet that was sent at this time hops too early or too late after that.
fn is_untimely(timing: &Timing, sent: Option<u64>, event: &Event) -> bool
    ensures { result ≡ spec.is_untimely timing.now sent event.now }
{
    match (*event, sent) {
        (Event::Hop { time, .. }, Some(sent)) => is_beyond(timing, sent, time),
        _ => false,
    }
}

// Whether the time is earlier than the least delay after the other, or later than the greatest.
fn is_beyond(timing: &Timing, sent: u64, time: u64) -> bool
    ensures { result ≡ spec.is_beyond timing.now sent time }
{
    time < sent || time - sent < timing.delay_min() || timing.delay_max() < time - sent
}

// Whether the packet that is sent here is neither lost nor at a node without links out after all events.
fn is_unfinished(domain: &Domain, trips: &HashMap<u64, Trip>, event: &Event) -> bool
    ensures { result ≡ spec.stays domain.now.links trips.now event.now }
{
    if !is_send(event) {
        return false;
    }
    let trip = trip_of(trips, event.packet());
    !trip.lost && leads_on(domain.edges(), trip.node)
}

// Whether there is a node, and a link begins there.
fn leads_on(links: &[Edge], at: Option<u32>) -> bool
    ensures { result ≡ is_at (network.has_links_out links.now) at }
{
    match at {
        Some(node) => has_links_out(links, node),
        None => false,
    }
}

// Whether a link ends at the node.
fn has_links_in(links: &[Edge], node: u32) -> bool
    ensures { result ≡ network.has_links_in links.now node }
{
    links.iter().any(|link| link.to == node)
}

// Whether a link begins at the node.
fn has_links_out(links: &[Edge], node: u32) -> bool
    ensures { result ≡ network.has_links_out links.now node }
{
    links.iter().any(|link| link.from == node)
}
