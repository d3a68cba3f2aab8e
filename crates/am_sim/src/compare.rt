//! What is reported of a world, beside what it drops.

ghost use Rattle.std.specs.Prelude.{◌≡◌, ℕ, ◌+◌, ◌*◌, ◌^◌, ◌<◌, ◌≤◌, All, IfOk, length, slice_index, slice_index_or};
ghost use Rattle.am_control.specs.Plans.{IsPlanOf};
ghost use Rattle.am_control.specs.Rows.{scopes};
ghost use Rattle.am_control.specs.declared.row.Scope.TheVariants.{Cluster, Network};
ghost use Rattle.am_domain.specs.Domains.{Reports};
ghost use Rattle.am_graph.specs.Clusters.{AreClusters, count_of};
ghost use Rattle.am_graph.specs.Graphs.{graph_of};
ghost use Rattle.am_world.specs.Trips.{NamesLink};
ghost use Rattle.am_world.specs.TrueLosses.{HasEach, loss_number};
ghost use Rattle.am_sim.specs.Comparing.{AddsEach, IsBounded, row_over, with_pair};
ghost use Rattle.am_sim.specs.Simulating.{sim_rows};

use crate::row::SimRow;
use am_control::{Closed, LossRow, Scope};
use am_domain::Domain;
use am_graph::{Clusters, Graph, find_clusters};
use am_world::{World, true_loss};
use std::alloc::{AllocError, Global};

/// The rows of all clusters, in their order, and then that of the network.
pub(crate) fn compare(
    alloc: Global,
    domain: &Domain,
    world: &World,
    closed: &Closed<'_>,
) -> Result<Vec<SimRow>, AllocError>
    requires plan { IsPlanOf domain.now closed.now.plan }
    requires links { All (NamesLink domain.now.links) world.now }
    ensures { IfOk result (λ rows. rows.items ≡ sim_rows domain.now closed.now world.now) }
{
    let graph = Graph::of(alloc, domain)?;
    let clusters = find_clusters(alloc, &graph)?;
    compare_each(alloc, domain, &clusters, world, closed)
}

// The same, where these are the clusters.
fn compare_each(
    alloc: Global,
    domain: &Domain,
    clusters: &Clusters,
    world: &World,
    closed: &Closed<'_>,
) -> Result<Vec<SimRow>, AllocError>
    requires plan { IsPlanOf domain.now closed.now.plan }
    requires clusters { AreClusters (graph_of domain.now) clusters.now }
    requires links { All (NamesLink domain.now.links) world.now }
    ensures { IfOk result (λ rows. rows.items ≡ sim_rows domain.now closed.now world.now) }
{
    let mut all = no_loss(alloc, domain)?;
    let mut rows = Vec::new(alloc);
    for cluster in 0..clusters.count() {
        let losses = true_loss(alloc, domain, clusters, world, cluster)?;
        rows.push(row_of(alloc, domain, closed, cluster, losses.as_slice())?)?;
        // The network loses what its clusters lose together.
        add_each(all.as_mut_slice(), losses.as_slice());
    }
    let at = u64::from(clusters.count());
    rows.push(compared(domain, closed, Scope::Network, at, all.as_slice()))?;
    Ok(rows)
}

// The row of a cluster, where these are its true losses.
fn row_of(
    alloc: Global,
    domain: &Domain,
    closed: &Closed<'_>,
    cluster: u32,
    losses: &[u64],
) -> Result<SimRow, AllocError>
    requires plan { IsPlanOf domain.now closed.now.plan }
    requires cluster { cluster < count_of closed.now.plan.clusters }
    requires each { HasEach domain.now losses.now }
    ensures { IfOk result
        (λ row. row ≡ row_over domain.now closed.now (Cluster cluster) losses.now) }
{
    let mut wide = no_loss(alloc, domain)?;
    add_each(wide.as_mut_slice(), losses);
    let at = u64::from(cluster);
    Ok(compared(domain, closed, Scope::Cluster(cluster), at, wide.as_slice()))
}

// No loss of each flow and reported block.
fn no_loss(alloc: Global, domain: &Domain) -> Result<Vec<u128>, AllocError>
    ensures each { IfOk result (λ losses. HasEach domain.now losses.items) }
    ensures none { IfOk result (λ losses. (k : ℕ) → slice_index losses.items k ≡ 0) }
{
    let blocks = (domain.end() - domain.first()) as usize;
    vec![in alloc; 0; domain.flows().len() * blocks]
}

// Adds to each loss the one at the same place.
fn add_each(sums: &mut [u128], losses: &[u64])
    requires lengths { length losses.now ≡ length sums.old }
    requires room { (k : ℕ) → slice_index sums.old k ≤ 2 ^ 96 }
    ensures length { length sums.new ≡ length sums.old }
    ensures sums { AddsEach sums.old losses.now sums.new }
    ensures most { (k : ℕ) → slice_index sums.new k < slice_index sums.old k + 2 ^ 64 }
{
    for (k, loss) in losses.iter().enumerate() {
        sums[k] += u128::from(*loss);
    }
}

// The row of a scope, before which so many stand, where these are the true losses of each flow and reported block.
fn compared(domain: &Domain, closed: &Closed<'_>, scope: Scope, at: u64, losses: &[u128]) -> SimRow
    requires plan { IsPlanOf domain.now closed.now.plan }
    requires within { at < count_of closed.now.plan.clusters + 1 }
    requires few { at < 2 ^ 32 }
    requires scope { slice_index_or (scopes (count_of closed.now.plan.clusters)) at Network
        ≡ scope }
    requires each { HasEach domain.now losses.now }
    requires small { (k : ℕ) → slice_index losses.now k ≤ 2 ^ 97 }
    ensures { result ≡ row_over domain.now closed.now scope losses.now }
{
    let cells = domain.flows().len() as u64 * (domain.end() - domain.first());
    let mut row = SimRow {
        scope,
        dropped: 0,
        lost: 0,
        cells: 0,
        equal: 0,
    };
    for k in 0..cells {
        let loss = closed.row(at * cells + k);
        let dropped = loss_at(domain, losses, loss.flow, loss.block);
        count_pair(&mut row, &loss, dropped);
    }
    row
}

// The loss of a flow and a reported block.
fn loss_at(domain: &Domain, losses: &[u128], flow: u32, block: u64) -> u128
    requires flow { flow < length domain.now.flows }
    requires block { Reports domain.now block }
    requires each { HasEach domain.now losses.now }
    ensures { result ≡ slice_index losses.now (loss_number domain.now flow block) }
{
    let blocks = (domain.end() - domain.first()) as usize;
    losses[flow as usize * blocks + (block - domain.first()) as usize]
}

// Counts a row of the loss table, of whose flow and block so many packets were dropped.
fn count_pair(row: &mut SimRow, loss: &LossRow, dropped: u128)
    requires few { row.old.cells < 2 ^ 15 }
    requires bounded { IsBounded row.old }
    requires dropped { dropped ≤ 2 ^ 97 }
    ensures pair { row.new ≡ with_pair row.old loss.now.lost dropped }
    ensures bounded { IsBounded row.new }
{
    let lost = i128::from(loss.lost);
    row.dropped += dropped;
    row.lost += lost;
    row.cells += 1;
    row.equal += u64::from(lost == dropped as i128);
}
