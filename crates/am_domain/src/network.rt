//! The network of a domain: the numbers of its nodes, and what is wrong with its links.

ghost use Rattle.std.specs.Prelude.{◌≡◌, ◌≢◌, ℕ, ◌≤◌, ◌<◌, ◌↔◌, IsTrue, IfSome, IfNone, IfOk, IfErr, length, slice_index_or};
ghost use Rattle.std.specs.List.{AllZip};
ghost use Rattle.am_domain.specs.Lists.{AllBelow, IsFirstPlace};
ghost use Rattle.am_domain.specs.Network.{IsNumberOf, IsNoNode, IsBetween, Joins, IsAt, HasLink, IsLone, TellsLoose};
ghost use Rattle.am_domain.specs.Rules.{Each, EndsDiffer};
ghost use Rattle.am_domain.specs.Values.{LinkValue};

use crate::error::{DomainError, Key};
use crate::link::{Edge, Link};
use crate::node::Node;
use std::alloc::Global;

/// The number of the first node of this name. None where no node has it.
pub(crate) fn number_of(nodes: &[Node], name: &str) -> Option<u32>
    requires { length nodes.now ≤ 128 }
    ensures found { IfSome result (λ number. IsNumberOf nodes.now name.now number) }
    ensures none { IfNone result (IsNoNode nodes.now name.now) }
{
    for i in 0..nodes.len() {
        let node = &nodes[i];
        if node.name() == name {
            return Some(i as u32);
        }
    }
    None
}

/// The links by the numbers of their nodes, or the first end that is no node.
pub(crate) fn join_links(
    alloc: Global,
    nodes: &[Node],
    links: &[Link],
) -> Result<Vec<Edge>, DomainError>
    requires few_nodes { length nodes.now ≤ 128 }
    requires few_links { length links.now ≤ 1024 }
    ensures ok { IfOk result (λ edges. AllZip (Joins nodes.now) links.now edges.items) }
    ensures between { IfOk result (λ edges. Each (IsBetween nodes.now) links.now) }
    ensures bad { IfErr result (λ e. TellsLoose nodes.now links.now e) }
{
    let mut edges = Vec::new(alloc);
    for i in 0..links.len() {
        let link = &links[i];
        let Some(from) = number_of(nodes, link.from()) else {
            return Err(DomainError::UnknownNode {
                link: i as u32,
                end: Key::From,
            });
        };
        let Some(to) = number_of(nodes, link.to()) else {
            return Err(DomainError::UnknownNode {
                link: i as u32,
                end: Key::To,
            });
        };
        let Ok(()) = edges.push(Edge { from, to }) else {
            return Err(DomainError::Memory);
        };
    }
    Ok(edges)
}

/// The first link that leads from a node to itself.
pub(crate) fn self_link(links: &[Link]) -> Option<usize>
    ensures found { IfSome result (λ i. IsFirstPlace EndsDiffer
        (λ l. l.from ≡ l.to) links.now i) }
    ensures none { IfNone result (Each EndsDiffer links.now) }
{
    for i in 0..links.len() {
        let link = &links[i];
        if link.from() == link.to() {
            return Some(i);
        }
    }
    None
}

/// The first node at which no link begins or ends.
pub(crate) fn lone_node(nodes: &[Node], links: &[Link]) -> Option<usize>
    ensures found { IfSome result (λ i.
        IsFirstPlace (HasLink links.now) (IsLone links.now) nodes.now i) }
    ensures none { IfNone result (Each (HasLink links.now) nodes.now) }
{
    for i in 0..nodes.len() {
        let node = &nodes[i];
        let Some(_number) = link_at(links, node.name()) else {
            return Some(i);
        };
    }
    None
}

// The first link that begins or ends at a node of this name.
fn link_at(links: &[Link], name: &str) -> Option<usize>
    ensures within { IfSome result (λ i. i < length links.now) }
    ensures found { IfSome result (λ i.
        (d : LinkValue) → IsAt name.now (slice_index_or links.now i d)) }
    ensures none { IfNone result (AllBelow
        (λ l. ¬ IsAt name.now l) (length links.now) links.now) }
{
    for i in 0..links.len() {
        let link = &links[i];
        if link.from() == name {
            return Some(i);
        }
        if link.to() == name {
            return Some(i);
        }
    }
    None
}
