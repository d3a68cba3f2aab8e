//! The world that a number makes.

ghost use Rattle.std.specs.Prelude.{◌≡◌, ℕ, ◌+◌, ◌-◌, ◌*◌, ◌^◌, ◌<◌, ◌≤◌, ◌↔◌, IsTrue, List, IfOk, OnOk, length, max, slice_index, slice_set};
ghost use Rattle.am_domain.specs.Domains.{IsLawful};
ghost use Rattle.am_world.specs.Breaches.{IsValidAndTimed};
ghost use Rattle.am_world.specs.declared.event.Event.{Event as EventValue};
ghost use Rattle.am_world.specs.Generating as spec;
ghost use Rattle.am_world.specs.Generating.{drawn, draw_of, ArePackets, AreFollowed, Proceeds, IsMade};
ghost use Rattle.am_world.specs.Making.{
  AreLeastNew,
  MakesPacket,
  MayGoOn,
  TellsLoss,
  hop_drawn,
  place_at,
  routes_of,
  way_drawn,
};

use crate::draws::Draws;
use crate::event::Event;
use crate::routes::Routes;
use crate::world::World;
use am_domain::Domain;
use std::alloc::{AllocError, Global};

// The most hops that a packet makes: where the network has a cycle, it ends there, too.
const MAX_HOPS: u32 = 16;

// At each node one packet is lost of so many, on average.
const LOSS_ODDS: u64 = 50;

// The most nodes of a domain: what is new at each stands in a table of flows and nodes.
const MAX_NODES: usize = 128;

/// A packet on its way.
#[derive(Clone, Copy, Debug, PartialEq, Eq)]
pub(crate) struct Way {
    /// The number of the packet.
    pub(crate) packet: u64,
    /// The true time at which it was sent.
    pub(crate) sent: u64,
    /// The node that it passed last.
    pub(crate) node: u32,
    /// How many hops it made.
    pub(crate) hops: u32,
    /// How long it took for them.
    pub(crate) took: u64,
}

/// The world that the number makes of so many packets, at most 1,000,000: each enters the network where no link ends, and
/// goes on until it comes to a node without links out or is lost. Flows, entries, losses, links and delays are drawn from
/// the number. In such a world there is no breach.
pub fn generate(
    alloc: Global,
    domain: &Domain,
    number: u64,
    packets: u32,
) -> Result<World, AllocError>
    requires { packets ≤ 1000000 }
    ensures made { IfOk result (λ world. IsMade domain.now number packets world) }
    // The steps leave no choice: there is no other such world.
    ensures only { IfOk result (λ world. (events : List EventValue)
        → IsMade domain.now number packets events → events ≡ world) }
    ensures no_breach { IfOk result (λ world. IsValidAndTimed domain.now world) }
    ensures length { IfOk result (λ world. length world ≤ 18 * packets) }
{
    let routes = Routes::of(alloc, domain)?;
    if routes.entries().is_empty() {
        return Ok(World::of(Vec::new(alloc)));
    }
    let events = packets_of(alloc, domain, &routes, number, packets)?;
    Ok(World::of(events))
}

// The events of all packets, one after another.
fn packets_of(
    alloc: Global,
    domain: &Domain,
    routes: &Routes,
    number: u64,
    packets: u32,
) -> Result<Vec<Event>, AllocError>
    requires routes { routes.now ≡ routes_of domain.now }
    requires entered { 0 < length routes.now.entries }
    ensures { IfOk result (λ events.
        (y : ℕ) × ArePackets domain.now number packets packets events.items y) }
{
    let mut newest = vec![in alloc; 0; domain.flows().len() * MAX_NODES]?;
    let mut draws = Draws { left: number };
    let mut events = Vec::new(alloc);
    for packet in 0..packets {
        add_packet(
            domain,
            routes,
            (packet, packets),
            newest.as_mut_slice(),
            &mut draws,
            &mut events,
        )?;
    }
    Ok(events)
}

// Adds the events of one packet of so many.
fn add_packet(
    domain: &Domain,
    routes: &Routes,
    of: (u32, u32),
    newest: &mut [u64],
    draws: &mut Draws,
    events: &mut Vec<Event>,
) -> Result<(), AllocError>
    requires routes { routes.now ≡ routes_of domain.now }
    requires entered { 0 < length routes.now.entries }
    requires among { of.0 < of.1 }
    requires known { AreLeastNew domain.now events.old.items newest.old }
    ensures { OnOk result (MakesPacket domain.now of.1 of.0 draws.old.left events.old.items
        draws.new.left events.new.items newest.new) }
{
    let (flow, node) = draw_entry(domain, routes, draws);
    let packet = u64::from(of.0);
    let time = sent_at(domain, of.0, of.1);
    let reading = read_at(domain, node, time);
    let delay = is_new(newest, flow, node, domain.timing().block_of(reading));
    events.push(Event::Send {
        packet,
        flow,
        node,
        time,
        reading,
        delay,
    })?;
    let way = Way {
        packet,
        sent: time,
        node,
        hops: 0,
        took: 0,
    };
    go_on(domain, routes, way, draws, events)
}

// The flow of the next packet, and the node at which it enters.
fn draw_entry(domain: &Domain, routes: &Routes, draws: &mut Draws) -> (u32, u32)
    requires routes { routes.now ≡ routes_of domain.now }
    requires entered { 0 < length routes.now.entries }
    ensures flow { result.0 ≡ draw_of (length domain.now.flows) draws.old.left }
    ensures node { result.1 ≡ slice_index (spec.entries domain.now)
        (draw_of (length (spec.entries domain.now)) (drawn draws.old.left)) }
    ensures left { draws.new.left ≡ drawn (drawn draws.old.left) }
    ensures flow_within { result.0 < length domain.now.flows }
    ensures node_within { result.1 < length domain.now.nodes }
    ensures lawful { IsLawful domain.now }
{
    let flow = draws.draw(domain.flows().len() as u64) as u32;
    let entries = routes.entries();
    let entry = draws.draw(entries.len() as u64) as usize;
    (flow, entries[entry])
}

// When the packet of this number, of so many, is sent.
fn sent_at(domain: &Domain, packet: u32, packets: u32) -> u64
    requires among { packet < packets }
    requires nodes { 0 < length domain.now.nodes }
    ensures value { result ≡ spec.sent_at domain.now packets packet }
    ensures after { domain.now.times.skew ≤ 2 * result + 1 }
    ensures before { result ≤ 2 ^ 62 }
{
    let block = domain.timing().block();
    let whole = (domain.end() - domain.first()) * block;
    let since = u128::from(packet) * u128::from(whole) / u128::from(packets);
    domain.first() * block + domain.timing().skew() / 2 + since as u64
}

// What the clock of the node reads at this time.
fn read_at(domain: &Domain, node: u32, time: u64) -> u64
    requires after { domain.now.times.skew ≤ 2 * time + 1 }
    requires before { time ≤ 2 ^ 63 }
    ensures { result ≡ spec.read_at domain.now.times node time }
{
    let half = domain.timing().skew() / 2;
    if node % 2 == 0 {
        time + half
    } else {
        time - half
    }
}

// Whether the block is new for the flow at the node. After that it isn't.
fn is_new(newest: &mut [u64], flow: u32, node: u32, block: u64) -> bool
    requires place { place_at flow node < length newest.old }
    requires room { block < 2 ^ 63 }
    ensures new { IsTrue result ↔ (slice_index newest.old (place_at flow node) ≤ block) }
    ensures then { newest.new ≡ slice_set newest.old (place_at flow node)
        (max (slice_index newest.old (place_at flow node)) (block + 1)) }
{
    let place = flow as usize * MAX_NODES + node as usize;
    let least = newest[place];
    newest[place] = least.max(block + 1);
    least <= block
}

// Adds the events of a packet from here on, until it comes to a node without links out or is lost.
fn go_on(
    domain: &Domain,
    routes: &Routes,
    way: Way,
    draws: &mut Draws,
    events: &mut Vec<Event>,
) -> Result<(), AllocError>
    requires routes { routes.now ≡ routes_of domain.now }
    requires may { MayGoOn domain.now way }
    ensures { OnOk result (AreFollowed
        (λ own. Proceeds domain.now way draws.old.left own draws.new.left)
        events.old.items events.new.items) }
{
    let links = routes.links_from(way.node);
    if links.is_empty() {
        return Ok(());
    }
    if is_lost(&way, draws) {
        events.push(Event::Lost { packet: way.packet })?;
        return Ok(());
    }
    let (hop, next) = draw_hop(domain, links, &way, draws);
    events.push(hop)?;
    go_on(domain, routes, next, draws, events)
}

// Whether the packet is lost where it is.
fn is_lost(way: &Way, draws: &mut Draws) -> bool
    requires { way.now.hops ≤ MAX_HOPS }
    ensures { TellsLoss way.now draws.old.left draws.new.left result }
{
    way.hops == MAX_HOPS || draws.draw(LOSS_ODDS) == 0
}

// The next hop of a packet, over one of these links, and its way after that.
fn draw_hop(domain: &Domain, links: &[u32], way: &Way, draws: &mut Draws) -> (Event, Way)
    requires links { links.now ≡ spec.links_from domain.now.links way.now.node }
    requires some { 0 < length links.now }
    requires few { way.now.hops < MAX_HOPS }
    requires may { MayGoOn domain.now way.now }
    ensures hop { result.0 ≡ hop_drawn domain.now way.now draws.old.left }
    ensures next { result.1 ≡ way_drawn domain.now way.now draws.old.left }
    ensures left { draws.new.left ≡ drawn (drawn draws.old.left) }
    ensures may { MayGoOn domain.now result.1 }
{
    let chosen = draws.draw(links.len() as u64) as usize;
    let link = links[chosen];
    let node = domain.edges()[link as usize].to;
    let took = draw_took(domain, way.took, draws);
    let time = way.sent + took;
    let hop = Event::Hop {
        packet: way.packet,
        link,
        time,
        reading: read_at(domain, node, time),
    };
    let next = Way {
        packet: way.packet,
        sent: way.sent,
        node,
        hops: way.hops + 1,
        took,
    };
    (hop, next)
}

// How long a packet took that took this long before its next hop.
fn draw_took(domain: &Domain, before: u64, draws: &mut Draws) -> u64
    requires { before ≤ domain.now.times.delay_max }
    ensures value { result ≡ max before (domain.now.times.delay_min
        + draw_of (domain.now.times.delay_max - domain.now.times.delay_min + 1) draws.old.left) }
    ensures left { draws.new.left ≡ drawn draws.old.left }
    ensures most { result ≤ domain.now.times.delay_max }
    ensures lawful { IsLawful domain.now }
{
    let timing = domain.timing();
    let least = timing.delay_min();
    let delay = least + draws.draw(timing.delay_max() - least + 1);
    before.max(delay)
}
