//! The search for the clusters of a graph.
ghost use Rattle.std.specs.Prelude.{◌≡◌, ◌≤◌, IfOk, length};
ghost use Rattle.am_graph.specs.Clusters.{AreClusters, ArePartedAt, AreFinest};
ghost use Rattle.am_graph.specs.Walks.{AreFound};

use crate::clusters::Clusters;
use crate::graph::Graph;
use crate::place::{clusters_of, place_links, place_nodes};
use crate::walk::walk;
use std::alloc::{AllocError, Global};

// The cluster of each node as a start, and as an end; and how many clusters there are.
#[derive(Drop)]
struct Found {
    starts: Vec<Option<u32>>,
    ends: Vec<Option<u32>>,
    count: u32,
}

/// The clusters of a graph, numbered by their least link. The work grows with the nodes and the links.
pub fn find_clusters(alloc: Global, graph: &Graph) -> Result<Clusters, AllocError>
    ensures clusters { IfOk result (λ c. AreClusters graph.now c) }

    // No two share a start or an end.
    ensures parted { IfOk result (λ c. ArePartedAt graph.now c) }

    // No finer parting keeps together the links that share a start, and those that share an end.
    ensures finest { IfOk result (λ c. AreFinest graph.now c) }
{
    let found = walk_all(alloc, graph)?;
    let of_link = clusters_of(alloc, graph.links(), found.starts.as_slice())?;
    let links = place_links(alloc, of_link.as_slice(), found.count)?;
    let starts = place_nodes(alloc, found.starts.as_slice(), found.count)?;
    let ends = place_nodes(alloc, found.ends.as_slice(), found.count)?;
    Ok(Clusters {
        of_link,
        links,
        starts,
        ends,
    })
}

// Walks from each link that has no cluster yet, in the order of the links.
fn walk_all(alloc: Global, graph: &Graph) -> Result<Found, AllocError>
    ensures starts_each { IfOk result (λ f. length f.starts.items ≡ graph.now.nodes) }
    ensures ends_each { IfOk result (λ f. length f.ends.items ≡ graph.now.nodes) }
    ensures few { IfOk result (λ f. f.count ≤ length graph.now.links) }
    ensures few_nodes { graph.now.nodes ≤ 128 }
    ensures found { IfOk result (λ f. AreFound graph.now.links
        (length graph.now.links) f.count f.starts.items f.ends.items) }
{
    let mut starts = vec![in alloc; None; graph.nodes()]?;
    let mut ends = vec![in alloc; None; graph.nodes()]?;
    let mut count = 0;
    let links = graph.links();
    for k in 0..links.len() {
        if starts[links[k].from as usize].is_none() {
            walk(
                alloc,
                graph,
                k,
                count,
                starts.as_mut_slice(),
                ends.as_mut_slice(),
            )?;
            count += 1;
        }
    }
    Ok(Found {
        starts,
        ends,
        count,
    })
}
