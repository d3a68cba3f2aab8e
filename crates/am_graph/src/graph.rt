//! The graph of a domain's network.
ghost use Rattle.std.specs.Prelude.{◌≡◌, ◌<◌, ◌≤◌, ℕ, IfOk, length};
ghost use Rattle.am_graph.specs.Graphs.{IsTable, IsIndexed, Leads, graph_of, start_of, end_of};

use crate::lists::Lists;
use am_domain::{Domain, Edge};
use std::alloc::{AllocError, Global};
use std::marker::Model;

/// The network of a domain: its nodes and its links, by their numbers.
#[derive(Drop)]
pub struct Graph {
    nodes: usize,
    links: Vec<Edge>,
    // the nodes to which links lead from each node, and those from which links lead to it
    ahead: Lists,
    back: Lists,
}

impl Model for Graph {
    ghost use Rattle.std.specs.Prelude.{◌≤◌, length};
    ghost use Rattle.am_graph.specs.Graphs.{GraphValue, IsIndexed};

    ghost Value = { GraphValue };

    ghost view = { λ g. record { nodes = g.nodes; links = g.links.items } };

    ghost invariant = { λ g. IsIndexed g.nodes g.links.items g.ahead g.back
        × (length g.links.items ≤ 1024) × (g.nodes ≤ 128) };
}

impl Graph {
    /// The graph of a domain's network.
    pub fn of(alloc: Global, domain: &Domain) -> Result<Graph, AllocError>
        ensures { IfOk result (λ graph. graph ≡ graph_of domain.now) }
    {
        let nodes = domain.nodes().len();
        let links = domain.edges().to_vec(alloc)?;
        let mut ahead = Lists::empty(alloc, nodes)?;
        let mut back = Lists::empty(alloc, nodes)?;
        for link in links.as_slice() {
            ahead.push(link.from, link.to)?;
            back.push(link.to, link.from)?;
        }
        Ok(Graph {
            nodes,
            links,
            ahead,
            back,
        })
    }

    /// How many nodes there are: at most 128.
    pub(crate) fn nodes(&self) -> usize
        ensures value { result ≡ self.now.nodes }
        ensures few { self.now.nodes ≤ 128 }
    {
        self.nodes
    }

    /// The links, in the order of the domain: at most 1,024, between nodes of the graph.
    pub(crate) fn links(&self) -> &[Edge]
        ensures value { result.now ≡ self.now.links }
        ensures few { length self.now.links ≤ 1024 }
        ensures starts_within { (k : ℕ) → k < length self.now.links
            → start_of self.now.links k < self.now.nodes }
        ensures ends_within { (k : ℕ) → k < length self.now.links
            → end_of self.now.links k < self.now.nodes }
    {
        self.links.as_slice()
    }

    /// The nodes to which links lead from each node.
    pub(crate) fn ahead(&self) -> &Lists
        ensures { IsTable (Leads self.now.links) self.now.nodes result.now }
    {
        &self.ahead
    }

    /// The nodes from which links lead to each node.
    pub(crate) fn back(&self) -> &Lists
        ensures { IsTable
            (λ end start. Leads self.now.links start end) self.now.nodes result.now }
    {
        &self.back
    }
}
