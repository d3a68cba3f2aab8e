//! Holding the parts of a domain file against one another, rule by rule.

ghost use Rattle.std.specs.Prelude.{◌≡◌, ℕ, ◌-◌, ◌*◌, ◌<◌, ◌≤◌, List, length, OnOk, IfErr, IfOk};
ghost use Rattle.std.specs.List.{AllZip};
ghost use Rattle.am_domain.specs.Network.{Joins};
ghost use Rattle.am_domain.specs.Rules.{few_nodes, flow_names_differ, ends_are_nodes, ends_differ, some_block, KeepsBefore, TellsBroken, TellsBlocks, IsLaidOut};
ghost use Rattle.am_domain.specs.Sizes.{CountsFit};

use crate::blocks::reported;
use crate::error::{DomainError, Part, Repeated};
use crate::fields::Fields;
use crate::flow::Flow;
use crate::link::{Edge, Link};
use crate::network::{join_links, lone_node, self_link};
use crate::node::Node;
use crate::repeats::{FlowIds, FlowNames, LinkEnds, NodeNames, repeated};
use am_clock::Timing;
use std::alloc::Global;

/// The most nodes of a network. With so many nodes, links and flows a table of counters by node, flow and block stays
/// within memory, and a check of each against each other stays quick.
pub const MAX_NODES: usize = 128;

/// The most links of a network.
pub const MAX_LINKS: usize = 1024;

/// The most flows of a domain.
pub const MAX_FLOWS: usize = 1024;

/// The most pairs of a flow and a reported block: a cell is kept for each of them, at each node.
pub const MAX_CELLS: u128 = 32_768;

/// Whether there are too many nodes, links or flows.
pub(crate) fn check_counts(fields: &Fields) -> Result<(), DomainError>
    requires kept { KeepsBefore fields.now few_nodes }
    requires fit { CountsFit fields.now }
    ensures ok { OnOk result (KeepsBefore fields.now flow_names_differ) }
    ensures err { IfErr result (λ e. TellsBroken fields.now e) }
{
    let nodes = fields.nodes.len();
    if nodes > MAX_NODES {
        return Err(DomainError::TooMany {
            part: Part::Node,
            count: nodes as u32,
        });
    }
    let links = fields.links.len();
    if links > MAX_LINKS {
        return Err(DomainError::TooMany {
            part: Part::Link,
            count: links as u32,
        });
    }
    let flows = fields.flows.len();
    if flows > MAX_FLOWS {
        return Err(DomainError::TooMany {
            part: Part::Flow,
            count: flows as u32,
        });
    }
    Ok(())
}

/// Whether two flows or two nodes have the same name, or two flows the same number.
pub(crate) fn check_repeats(fields: &Fields) -> Result<(), DomainError>
    requires { KeepsBefore fields.now flow_names_differ }
    ensures ok { OnOk result (KeepsBefore fields.now ends_are_nodes) }
    ensures err { IfErr result (λ e. TellsBroken fields.now e) }
{
    if let Some((first, second)) = repeated::<Flow, FlowNames>(fields.flows.as_slice()) {
        return Err(DomainError::Twice {
            what: Repeated::FlowName,
            first: first as u32,
            second: second as u32,
        });
    }
    if let Some((first, second)) = repeated::<Flow, FlowIds>(fields.flows.as_slice()) {
        return Err(DomainError::Twice {
            what: Repeated::FlowId,
            first: first as u32,
            second: second as u32,
        });
    }
    if let Some((first, second)) = repeated::<Node, NodeNames>(fields.nodes.as_slice()) {
        return Err(DomainError::Twice {
            what: Repeated::NodeName,
            first: first as u32,
            second: second as u32,
        });
    }
    Ok(())
}

/// The links by the numbers of their nodes, where each end is a node.
pub(crate) fn check_ends(alloc: Global, fields: &Fields) -> Result<Vec<Edge>, DomainError>
    requires { KeepsBefore fields.now ends_are_nodes }
    ensures joined { IfOk result (λ edges.
        AllZip (Joins fields.now.nodes) fields.now.links edges.items) }
    ensures ok { OnOk result (KeepsBefore fields.now ends_differ) }
    ensures err { IfErr result (λ e. TellsBroken fields.now e) }
{
    match join_links(alloc, fields.nodes.as_slice(), fields.links.as_slice()) {
        Ok(edges) => Ok(edges),
        Err(error) => Err(error),
    }
}

/// Whether a link leads from a node to itself, two links lead from and to the same nodes, or a node has no link.
pub(crate) fn check_links(fields: &Fields) -> Result<(), DomainError>
    requires { KeepsBefore fields.now ends_differ }
    ensures ok { OnOk result (KeepsBefore fields.now some_block) }
    ensures err { IfErr result (λ e. TellsBroken fields.now e) }
{
    if let Some(link) = self_link(fields.links.as_slice()) {
        return Err(DomainError::SelfLink { link: link as u32 });
    }
    if let Some((first, second)) = repeated::<Link, LinkEnds>(fields.links.as_slice()) {
        return Err(DomainError::LinkTwice {
            first: first as u32,
            second: second as u32,
        });
    }
    if let Some(node) = lone_node(fields.nodes.as_slice(), fields.links.as_slice()) {
        return Err(DomainError::LoneNode { node: node as u32 });
    }
    Ok(())
}

/// The reported blocks: the first, and the one behind the last. There is one, and they are not too many for the flows.
pub(crate) fn check_blocks(
    timing: &Timing,
    fields: &Fields,
    edges: &[Edge],
) -> Result<(u64, u64), DomainError>
    requires kept { KeepsBefore fields.now some_block }
    requires timing { timing.now ≡ fields.now.times }
    requires some { 0 < length fields.now.nodes }
    requires joined { AllZip (Joins fields.now.nodes) fields.now.links edges.now }
    ensures laid_out { IfOk result (λ p. IsLaidOut fields.now edges.now p.0 p.1) }
    ensures some { IfOk result (λ p. p.0 < p.1) }
    ensures few { IfOk result (λ p. length fields.now.flows * (p.1 - p.0) ≤ MAX_CELLS) }
    ensures err { IfErr result (λ e. TellsBlocks fields.now edges.now e) }
{
    let (first, end) = reported(timing, fields.nodes.as_slice(), edges);
    if first >= end {
        return Err(DomainError::NoBlock { first, end });
    }
    let count = fields.flows.len() as u128 * (end - first) as u128;
    if count > MAX_CELLS {
        return Err(DomainError::TooManyCells { count });
    }
    Ok((first, end))
}
