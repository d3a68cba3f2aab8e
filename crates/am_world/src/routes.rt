//! Where packets enter a network, and which links they may take from there.

ghost use Rattle.std.specs.Prelude.{◌≡◌, ◌<◌, ◌≤◌, IfOk, length, map};
ghost use Rattle.std.specs.List.{range_with_len};
ghost use Rattle.am_domain.specs.Domains.{IsLawful};
ghost use Rattle.am_domain.specs.Network as network;
ghost use Rattle.am_graph.specs.Lists.{list_at};
ghost use Rattle.am_control.specs.Plans.{nodes_without};
ghost use Rattle.am_world.specs.Generating as spec;
ghost use Rattle.am_world.specs.Making.{routes_of};

use am_domain::{Domain, Edge};
use std::alloc::{AllocError, Global};
use std::marker::Model;

/// The nodes at which no link ends, and the links that begin at each node.
#[derive(Drop)]
pub(crate) struct Routes {
    entries: Vec<u32>,
    links: Vec<Vec<u32>>,
}

impl Model for Routes {
    ghost use Rattle.std.specs.Prelude.{map};
    ghost use Rattle.am_world.specs.Making.{RoutesValue};

    ghost Value = { RoutesValue };

    ghost view = { λ r. record {
      entries = r.entries.items;
      links = map (λ v. v.items) r.links.items;
    } };
}

impl Routes {
    /// Those of a domain.
    pub(crate) fn of(alloc: Global, domain: &Domain) -> Result<Routes, AllocError>
        ensures value { IfOk result (λ routes. routes ≡ routes_of domain.now) }
        ensures lawful { IsLawful domain.now }
    {
        let nodes = domain.nodes().len() as u32;
        let entries = entries_of(alloc, domain.edges(), nodes)?;
        let links = links_of(alloc, domain.edges(), nodes)?;
        Ok(Routes { entries, links })
    }

    /// The nodes at which no link ends.
    pub(crate) fn entries(&self) -> &[u32]
        ensures { result.now ≡ self.now.entries }
    {
        self.entries.as_slice()
    }

    /// The links that begin at the node.
    pub(crate) fn links_from(&self, node: u32) -> &[u32]
        requires { node < length self.now.links }
        ensures { result.now ≡ list_at self.now.links node }
    {
        self.links[node as usize].as_slice()
    }
}

// The nodes, of so many, at which no link ends.
fn entries_of(alloc: Global, links: &[Edge], nodes: u32) -> Result<Vec<u32>, AllocError>
    ensures { IfOk result (λ v.
        v.items ≡ nodes_without (network.has_links_in links.now) nodes) }
{
    let mut entries = Vec::new(alloc);
    for node in 0..nodes {
        if !has_links_in(links, node) {
            entries.push(node)?;
        }
    }
    Ok(entries)
}

// Whether a link ends at the node.
fn has_links_in(links: &[Edge], node: u32) -> bool
    ensures { result ≡ network.has_links_in links.now node }
{
    links.iter().any(|link| link.to == node)
}

// Of each node, of so many, the links that begin there.
fn links_of(alloc: Global, links: &[Edge], nodes: u32) -> Result<Vec<Vec<u32>>, AllocError>
    requires { length links.now ≤ 1024 }
    ensures { IfOk result (λ v. map (λ u. u.items) v.items
        ≡ map (spec.links_from links.now) (range_with_len 0 nodes)) }
{
    let mut lists = Vec::new(alloc);
    for node in 0..nodes {
        let list = links_from(alloc, links, node)?;
        lists.push(list)?;
    }
    Ok(lists)
}

// The links that begin at the node.
fn links_from(alloc: Global, links: &[Edge], node: u32) -> Result<Vec<u32>, AllocError>
    requires { length links.now ≤ 1024 }
    ensures { IfOk result (λ v. v.items ≡ spec.links_from links.now node) }
{
    let mut list = Vec::new(alloc);
    for link in 0..links.len() as u32 {
        if links[link as usize].from == node {
            list.push(link)?;
        }
    }
    Ok(list)
}
