//! Small worlds: a rule that each breaks, what a reader counts as dropped, captures byte by byte, and a world whose events
//! another program made from its number.

ghost use Rattle.std.specs.Prelude.{All, IsTrue};
ghost use Rattle.am_world.specs.Trips.{NamesLink};

use crate::samples::{Written, captured, domain_of};
use am_domain::{Domain, Edge};
use am_graph::{Graph, find_clusters};
use am_samples::TWO;
use am_world::{Breach, Event, Rule, World, capture_of, check_world, generate, true_loss};
use std::alloc::Global;
use std::test::Fail;

// A packet of a flow is sent at a node, at a time and a reading in nanoseconds.
macro_rules! sent {
    ($packet:literal, $flow:literal, $node:literal, $time:literal, $reading:literal, $delay:literal) => {
        Event::Send {
            packet: $packet,
            flow: $flow,
            node: $node,
            time: $time,
            reading: $reading,
            delay: $delay,
        }
    };
}

// A packet comes over a link.
macro_rules! over {
    ($packet:literal, $link:literal, $time:literal, $reading:literal) => {
        Event::Hop {
            packet: $packet,
            link: $link,
            time: $time,
            reading: $reading,
        }
    };
}

// An event breaks a rule.
macro_rules! breach {
    ($event:literal, $rule:ident) => {
        Some(Breach {
            event: $event,
            rule: Rule::$rule,
        })
    };
}

// Packets 0 and 1 are sent at node a at 1 s and 2 s, and packet 0 comes to node b at 1.2 s, by clocks that are right.
const FIRST: Event = sent!(0, 0, 0, 1_000_000_000, 1_000_000_000, true);

const SECOND: Event = sent!(1, 0, 0, 2_000_000_000, 2_000_000_000, false);

const OVER: Event = over!(0, 0, 1_200_000_000, 1_200_000_000);

const LOST: Event = Event::Lost { packet: 0 };

const SECOND_LOST: Event = Event::Lost { packet: 1 };

// The events of a world in the domain of two nodes, and the first breach that is found of them.
const FOUND: [(&[Event], Option<Breach>); 14] = [
    (&[FIRST, SECOND, OVER, SECOND_LOST], None),
    (
        &[sent!(0, 1, 0, 1_000_000_000, 1_000_000_000, true)],
        breach!(0, BadNumber),
    ),
    (&[FIRST, FIRST], breach!(1, PacketTwice)),
    (
        &[sent!(0, 0, 1, 1_000_000_000, 1_000_000_000, true)],
        breach!(0, NotEntry),
    ),
    (&[OVER], breach!(0, UnknownPacket)),
    (&[FIRST, LOST, OVER], breach!(2, AfterLost)),
    (&[FIRST, OVER, OVER], breach!(2, WrongNode)),
    (&[FIRST, SECOND, OVER], breach!(1, Unfinished)),
    // A packet is under way there, too, but that comes after all events.
    (
        &[FIRST, SECOND, over!(0, 0, 1_600_000_000, 1_600_000_000)],
        breach!(2, DelayWide),
    ),
    // A clock is right to half the skew of a millisecond.
    (
        &[sent!(0, 0, 0, 1_000_000_000, 1_000_500_000, true), LOST],
        None,
    ),
    (
        &[sent!(0, 0, 0, 1_000_000_000, 1_000_500_001, true), LOST],
        breach!(0, ClockWide),
    ),
    // A packet takes half a second at most.
    (&[FIRST, over!(0, 0, 1_500_000_000, 1_500_000_000)], None),
    (
        &[FIRST, over!(0, 0, 1_500_000_001, 1_500_000_001)],
        breach!(1, DelayWide),
    ),
    (
        &[FIRST, over!(0, 0, 999_999_999, 999_999_999)],
        breach!(1, DelayWide),
    ),
];

#[test]
fn each_rule_is_broken(rt: HostRuntime) -> Result<(), Fail> {
    let alloc = rt.alloc();
    let domain = domain_of(alloc, TWO)?;
    for (events, wanted) in &FOUND {
        let world = World::of(Vec::from_slice(alloc, events)?);
        let found = check_world(alloc, &domain, &world)?;
        assert!(rt; found == *wanted);
    }
    Ok(())
}

// The links of all hops are links of the domain.
fn has_links(domain: &Domain, events: &[Event]) -> bool
    ensures { IsTrue result → All (NamesLink domain.now.links) events.now }
{
    let links = domain.edges();
    for event in events {
        if !has_link(links, event) {
            return false;
        }
    }
    true
}

// The link of a hop is one of these.
fn has_link(links: &[Edge], event: &Event) -> bool
    ensures { IsTrue result → NamesLink links.now event.now }
{
    match *event {
        Event::Hop { link, .. } => (link as usize) < links.len(),
        _ => true,
    }
}

// The losses of a world in the first cluster.
fn losses_of(alloc: Global, domain: &Domain, world: &World) -> Result<Vec<u64>, Fail> {
    let clusters = find_clusters(alloc, &Graph::of(alloc, domain)?)?;
    if clusters.count() == 0 || !has_links(domain, world.events()) {
        return Err(Fail::from("no cluster or no link"));
    }
    Ok(true_loss(alloc, domain, &clusters, world, 0)?)
}

// The capture of a node, where no event breaks a rule.
fn capture(alloc: Global, domain: &Domain, world: &World, node: u32) -> Result<Vec<u8>, Fail> {
    if domain.nodes().len() <= node as usize {
        return Err(Fail::from("no node"));
    }
    match check_world(alloc, domain, world)? {
        Some(_) => Err(Fail::from("a breach")),
        None => Ok(capture_of(alloc, domain, world, node)?),
    }
}

// The events of a world, the losses of the one flow in the blocks 0, 1 and 2, a node, and what its capture has.
const SEEN: [(&[Event], [u64; 3], u32, &[Written]); 4] = [
    (
        &[FIRST, SECOND, OVER, SECOND_LOST],
        [1, 0, 0],
        0,
        &[(1, [0; 4], 0x54), (2, [0; 4], 0x50)],
    ),
    // 200,000,000 nanoseconds after the second
    (
        &[FIRST, SECOND, OVER, SECOND_LOST],
        [1, 0, 0],
        1,
        &[(1, *b"\x00\xc2\xeb\x0b", 0x54)],
    ),
    // A packet is lost after the cluster.
    (&[FIRST, OVER, LOST], [0, 0, 0], 0, &[(1, [0; 4], 0x54)]),
    // The clock is late by 300 microseconds, and shows the last nanosecond of block 1, which node b doesn't see.
    (
        &[
            sent!(0, 0, 0, 20_000_000_000, 20_000_000_000, true),
            LOST,
            sent!(1, 0, 0, 20_000_300_000, 19_999_999_999, false),
            SECOND_LOST,
        ],
        [0, 1, 1],
        1,
        &[],
    ),
];

#[test]
fn losses_and_captures_of_worlds(rt: HostRuntime) -> Result<(), Fail> {
    let alloc = rt.alloc();
    let domain = domain_of(alloc, TWO)?;
    for (events, lost, node, records) in &SEEN {
        let world = World::of(Vec::from_slice(alloc, events)?);
        let losses = losses_of(alloc, &domain, &world)?;
        assert!(rt; losses.as_slice() == lost.as_slice());
        let bytes = capture(alloc, &domain, &world, *node)?;
        assert!(rt; bytes == captured(alloc, records)?);
    }
    Ok(())
}

// The world of three packets that the number 7 makes, by another program.
const MADE: [Event; 6] = [
    sent!(0, 0, 0, 500_000, 1_000_000, true),
    over!(0, 0, 154_073_084, 153_573_084),
    sent!(1, 0, 0, 10_000_500_000, 10_001_000_000, true),
    over!(1, 0, 10_244_825_800, 10_244_325_800),
    sent!(2, 0, 0, 20_000_500_000, 20_001_000_000, true),
    over!(2, 0, 20_194_287_756, 20_193_787_756),
];

#[test]
fn a_number_makes_a_world(rt: HostRuntime) -> Result<(), Fail> {
    let alloc = rt.alloc();
    let domain = domain_of(alloc, TWO)?;
    let world = generate(alloc, &domain, 7, 3)?;
    assert!(rt; world.events() == MADE.as_slice());
    Ok(())
}
