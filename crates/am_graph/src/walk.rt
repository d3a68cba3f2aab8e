//! The walk from one link to all that are joined with it, over the nodes, in waves.
//!
//! A node has two sides: it is a start to the links out of it, and an end to those into it. A start that was reached
//! reaches the ends of its links, and an end the starts of its links. Each side of a node is reached once, so its
//! list of links is gone through once.
ghost use Rattle.std.specs.Prelude.{◌≡◌, ◌<◌, ◌≤◌, ℕ, [], None, Contains, IfOk, OnOk, length};
ghost use Rattle.am_graph.specs.Lists.{list_at};
ghost use Rattle.am_graph.specs.Graphs.{start_of};
ghost use Rattle.am_graph.specs.Walks.{Reaches, IsBeside, AreSettled, IsUnused, Walks, cluster_at};

use crate::graph::Graph;
use crate::lists::Lists;
use std::alloc::{AllocError, Global};

/// Gives the cluster to the start of a link that has none, and to each node that is reached from it.
pub(crate) fn walk(
    alloc: Global,
    graph: &Graph,
    link: usize,
    cluster: u32,
    starts: &mut [Option<u32>],
    ends: &mut [Option<u32>],
) -> Result<(), AllocError>
    requires within { link < length graph.now.links }
    requires starts_each { length starts.old ≡ graph.now.nodes }
    requires ends_each { length ends.old ≡ graph.now.nodes }
    requires settled { AreSettled graph.now.links starts.old ends.old }
    requires unreached { cluster_at starts.old (start_of graph.now.links link) ≡ None }
    requires starts_unused { IsUnused cluster starts.old }
    requires ends_unused { IsUnused cluster ends.old }
    ensures { OnOk result
        (Walks graph.now.links link cluster starts.old ends.old starts.new ends.new) }
{
    let mut wave = Vec::new(alloc);
    let first = graph.links()[link].from;
    reach(first, cluster, starts, &mut wave)?;
    'waves: while !wave.is_empty() {
        let reached = next_wave(alloc, graph.ahead(), wave.as_slice(), cluster, ends)?;
        wave = next_wave(alloc, graph.back(), reached.as_slice(), cluster, starts)?;
    }
    Ok(())
}

// The nodes without a cluster that stand in the lists of a wave's nodes: each is given the cluster.
fn next_wave(
    alloc: Global,
    lists: &Lists,
    wave: &[u32],
    cluster: u32,
    clusters: &mut [Option<u32>],
) -> Result<Vec<u32>, AllocError>
    requires wave_within { (node : ℕ) → Contains wave.now node → node < length lists.now }
    requires lists_within { (place node : ℕ) → Contains (list_at lists.now place) node
        → node < length clusters.old }
    ensures { IfOk result (λ next.
        Reaches (IsBeside lists.now wave.now) cluster clusters.old clusters.new [] next.items) }
{
    let mut next = Vec::new(alloc);
    for node in wave {
        reach_all(lists.at(*node), cluster, clusters, &mut next)?;
    }
    Ok(next)
}

// Gives the cluster to those of the nodes that have none, and adds these to the wave.
fn reach_all(
    nodes: &[u32],
    cluster: u32,
    clusters: &mut [Option<u32>],
    wave: &mut Vec<u32>,
) -> Result<(), AllocError>
    requires { (node : ℕ) → Contains nodes.now node → node < length clusters.old }
    ensures { OnOk result (Reaches (Contains nodes.now) cluster
        clusters.old clusters.new wave.old.items wave.new.items) }
{
    for node in nodes {
        reach(*node, cluster, clusters, wave)?;
    }
    Ok(())
}

// Gives the cluster to the node and adds it to the wave, if it has none.
fn reach(
    node: u32,
    cluster: u32,
    clusters: &mut [Option<u32>],
    wave: &mut Vec<u32>,
) -> Result<(), AllocError>
    requires { node < length clusters.old }
    ensures { OnOk result (Reaches (λ x. x ≡ node) cluster
        clusters.old clusters.new wave.old.items wave.new.items) }
{
    if clusters[node as usize].is_none() {
        wave.push(node)?;
        clusters[node as usize] = Some(cluster);
    }
    Ok(())
}
