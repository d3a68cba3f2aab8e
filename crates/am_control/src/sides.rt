//! The nodes at the edge of a network: those where packets enter, and those where they leave.

ghost use Rattle.std.specs.Prelude.{◌≡◌, IfOk};
ghost use Rattle.am_domain.specs.Network as network;
ghost use Rattle.am_control.specs.Plans.{nodes_without};

use am_domain::Edge;
use std::alloc::{AllocError, Global};

/// The nodes, of so many, at which no link ends.
pub(crate) fn entries_of(alloc: Global, edges: &[Edge], nodes: u32) -> Result<Vec<u32>, AllocError>
    ensures { IfOk result (λ v.
        v.items ≡ nodes_without (network.has_links_in edges.now) nodes) }
{
    let mut entries = Vec::new(alloc);
    for node in 0..nodes {
        if !has_links_in(edges, node) {
            entries.push(node)?;
        }
    }
    Ok(entries)
}

/// The nodes, of so many, at which no link begins.
pub(crate) fn exits_of(alloc: Global, edges: &[Edge], nodes: u32) -> Result<Vec<u32>, AllocError>
    ensures { IfOk result (λ v.
        v.items ≡ nodes_without (network.has_links_out edges.now) nodes) }
{
    let mut exits = Vec::new(alloc);
    for node in 0..nodes {
        if !has_links_out(edges, node) {
            exits.push(node)?;
        }
    }
    Ok(exits)
}

// Whether a link ends at the node.
fn has_links_in(edges: &[Edge], node: u32) -> bool
    ensures { result ≡ network.has_links_in edges.now node }
{
    edges.iter().any(|edge| edge.to == node)
}

// Whether a link begins at the node.
fn has_links_out(edges: &[Edge], node: u32) -> bool
    ensures { result ≡ network.has_links_out edges.now node }
{
    edges.iter().any(|edge| edge.from == node)
}
