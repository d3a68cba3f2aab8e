//! Which numbers have which cluster: ascending lists, one for each cluster.
ghost use Rattle.std.specs.Prelude.{◌≡◌, ◌≢◌, ◌<◌, ◌≤◌, ℕ, Some, None, IfOk, length, slice_index};
ghost use Rattle.am_graph.specs.Lists.{list_at, IsListOf};
ghost use Rattle.am_graph.specs.Graphs.{start_of};
ghost use Rattle.am_graph.specs.Walks.{cluster_at};

use crate::lists::Lists;
use am_domain::Edge;
use std::alloc::{AllocError, Global};

/// The cluster of each link: that of the node at which it begins.
pub(crate) fn clusters_of(
    alloc: Global,
    links: &[Edge],
    starts: &[Option<u32>],
) -> Result<Vec<u32>, AllocError>
    requires within { (k : ℕ) → k < length links.now
        → start_of links.now k < length starts.now }
    requires reached { (k : ℕ) → k < length links.now
        → cluster_at starts.now (start_of links.now k) ≢ None }
    ensures each { IfOk result (λ v. length v.items ≡ length links.now) }
    ensures value { IfOk result (λ v. (k : ℕ) → k < length links.now
        → cluster_at starts.now (start_of links.now k) ≡ Some (slice_index v.items k)) }
{
    let mut of_link = Vec::with_capacity(alloc, links.len())?;
    for link in links {
        match starts[link.from as usize] {
            Some(cluster) => of_link.push(cluster)?,
            None => unreachable!(),
        }
    }
    Ok(of_link)
}

/// The links of each cluster.
pub(crate) fn place_links(alloc: Global, of_link: &[u32], count: u32) -> Result<Lists, AllocError>
    requires few { length of_link.now ≤ 1024 }
    requires below { (k : ℕ) → k < length of_link.now → slice_index of_link.now k < count }
    ensures each { IfOk result (λ lists. length lists ≡ count) }
    ensures value { IfOk result (λ lists. (cluster : ℕ) → cluster < count
        → IsListOf (λ k. (k < length of_link.now) × (slice_index of_link.now k ≡ cluster))
        (list_at lists cluster)) }
{
    let mut lists = Lists::empty(alloc, count as usize)?;
    for k in 0..of_link.len() {
        lists.push(of_link[k], k as u32)?;
    }
    Ok(lists)
}

/// The nodes of each cluster, on one side.
pub(crate) fn place_nodes(
    alloc: Global,
    clusters: &[Option<u32>],
    count: u32,
) -> Result<Lists, AllocError>
    requires few { length clusters.now ≤ 128 }
    requires below { (node cluster : ℕ) → cluster_at clusters.now node ≡ Some cluster
        → cluster < count }
    ensures each { IfOk result (λ lists. length lists ≡ count) }
    ensures value { IfOk result (λ lists. (cluster : ℕ) → cluster < count
        → IsListOf
        (λ node. cluster_at clusters.now node ≡ Some cluster) (list_at lists cluster)) }
{
    let mut lists = Lists::empty(alloc, count as usize)?;
    for node in 0..clusters.len() {
        if let Some(cluster) = clusters[node] {
            lists.push(cluster, node as u32)?;
        }
    }
    Ok(lists)
}
