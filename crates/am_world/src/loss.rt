//! The losses of a world.

ghost use Rattle.std.specs.Prelude.{◌≡◌, ◌<◌, ◌+◌, ◌^◌, ℕ, All, IfOk, slice_index};
ghost use Rattle.am_graph.specs.Clusters.{count_of};
ghost use Rattle.am_world.specs.Drops.{is_among, is_at};
ghost use Rattle.am_world.specs.Trips.{NamesLink};
ghost use Rattle.am_world.specs.TrueLosses.{AreLosses, HasEach, drop_by, CountsDrop};

use crate::event::Event;
use crate::trip::{Trip, trip_of, trips_of};
use crate::world::World;
use am_clock::Timing;
use am_domain::Domain;
use am_graph::Clusters;
use std::alloc::{AllocError, Global};
use std::collections::HashMap;

/// For each flow, and in it each reported block, ascending, how many packets of the flow that were sent in the block
/// were dropped in the cluster: they are lost, and the last node that they passed is a start of it.
pub fn true_loss(
    alloc: Global,
    domain: &Domain,
    clusters: &Clusters,
    world: &World,
    cluster: u32,
) -> Result<Vec<u64>, AllocError>
    requires links { All (NamesLink domain.now.links) world.now }
    requires cluster { cluster < count_of clusters.now }
    ensures { IfOk result (λ losses.
        AreLosses domain.now clusters.now cluster world.now losses.items) }
{
    let events = world.events();
    let trips = trips_of(alloc, domain.edges(), events)?;
    let starts = clusters.starts(cluster);
    let blocks = (domain.end() - domain.first()) as usize;
    let mut losses = vec![in alloc; 0; domain.flows().len() * blocks]?;
    for event in events {
        let drop = drop_of(domain.timing(), &trips, starts, event);
        count_drop(domain, drop, losses.as_mut_slice());
    }
    Ok(losses)
}

// The flow and the block of the packet that is sent here, where it is dropped.
fn drop_of(
    timing: &Timing,
    trips: &HashMap<u64, Trip>,
    starts: &[u32],
    event: &Event,
) -> Option<(u32, u64)>
    ensures { result ≡ drop_by timing.now trips.now (is_among starts.now) event.now }
{
    let Event::Send {
        packet,
        flow,
        reading,
        ..
    } = *event
    else {
        return None;
    };
    let trip = trip_of(trips, packet);
    if !trip.lost || !is_node_of(starts, trip.node) {
        return None;
    }
    Some((flow, timing.block_of(reading)))
}

// Whether there is a node, and it is one of these.
fn is_node_of(nodes: &[u32], node: Option<u32>) -> bool
    ensures { result ≡ is_at (is_among nodes.now) node }
{
    match node {
        Some(node) => nodes.contains(&node),
        None => false,
    }
}

// Counts a drop of a flow and a block where the domain has the flow and reports the block.
fn count_drop(domain: &Domain, drop: Option<(u32, u64)>, losses: &mut [u64])
    requires each { HasEach domain.now losses.old }
    requires room { (k : ℕ) → slice_index losses.old k + 1 < 2 ^ 64 }
    ensures each { HasEach domain.now losses.new }
    ensures counts { CountsDrop domain.now drop losses.old losses.new }
{
    let Some((flow, block)) = drop else {
        return;
    };
    let flow = flow as usize;
    if flow >= domain.flows().len() || block < domain.first() || domain.end() <= block {
        return;
    }
    let blocks = (domain.end() - domain.first()) as usize;
    losses[flow * blocks + (block - domain.first()) as usize] += 1;
}
