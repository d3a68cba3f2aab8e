//! Which blocks are reported: those that each node's capture covers (RFC 9341, section 5).

ghost use Rattle.std.specs.Prelude.{◌≡◌, ℕ, ◌≤◌, ◌<◌, ◌↔◌, List, length};
ghost use Rattle.am_domain.specs.Network as spec;
ghost use Rattle.am_domain.specs.Network.{shift_at, StartsAt, WindowEndsAt, IsFirstBlock, IsEndBlock};
ghost use Rattle.am_domain.specs.Values.{NodeValue};

use crate::link::Edge;
use crate::node::Node;
use am_clock::{MAX_TIME, Timing};

/// The shift of a node, in nanoseconds: 0 where no link ends at it, else the least delay, whatever the nodes are.
pub(crate) fn shift_of(timing: &Timing, edges: &[Edge], node: u32) -> u64
    ensures value { (nodes : List NodeValue)
        → result ≡ shift_at timing.now nodes edges.now node }
    ensures most { result ≤ MAX_TIME }
{
    if has_links_in(edges, node) {
        return timing.delay_min();
    }
    0
}

// Whether a link ends at the node.
fn has_links_in(edges: &[Edge], node: u32) -> bool
    ensures { result ≡ spec.has_links_in edges.now node }
{
    edges.iter().any(|edge| edge.to == node)
}

/// The first block that begins late enough for each capture, and the count of blocks, from block 0 on, that
/// end early enough for each.
pub(crate) fn reported(timing: &Timing, nodes: &[Node], edges: &[Edge]) -> (u64, u64)
    requires some { 0 < length nodes.now }
    requires few { length nodes.now ≤ 128 }
    ensures first { IsFirstBlock timing.now nodes.now edges.now result.0 }
    ensures end { IsEndBlock timing.now nodes.now edges.now result.1 }
{
    let (mut first, mut end) = covered_at(timing, nodes, edges, 0);
    for i in 1..nodes.len() {
        let (from, until) = covered_at(timing, nodes, edges, i);
        first = first.max(from);
        end = end.min(until);
    }
    (first, end)
}

// The same for one node.
fn covered_at(timing: &Timing, nodes: &[Node], edges: &[Edge], i: usize) -> (u64, u64)
    requires within { i < length nodes.now }
    requires few { length nodes.now ≤ 128 }
    ensures first { (n : ℕ) (d : NodeValue)
        → (result.0 ≤ n) ↔ StartsAt timing.now nodes.now edges.now i d n }
    ensures end { (n : ℕ) (d : NodeValue)
        → (n < result.1) ↔ WindowEndsAt timing.now nodes.now edges.now i d n }
{
    let node = &nodes[i];
    let shift = shift_of(timing, edges, i as u32);
    timing.covered(node.from(), node.until(), shift)
}
