//! The clusters of a network.
ghost use Rattle.std.specs.Prelude.{◌≡◌, ◌<◌, length};
ghost use Rattle.am_graph.specs.Lists.{list_at};
ghost use Rattle.am_graph.specs.Clusters.{count_of, cluster_of};

use crate::lists::Lists;
use std::marker::Model;

/// The clusters of a network: of each link the cluster, and of each cluster the links, the nodes at which they begin,
/// and those at which they end.
#[derive(Drop)]
pub struct Clusters {
    pub(crate) of_link: Vec<u32>,
    pub(crate) links: Lists,
    pub(crate) starts: Lists,
    pub(crate) ends: Lists,
}

impl Model for Clusters {
    ghost use Rattle.std.specs.Prelude.{◌≡◌, ◌<◌, ◌≤◌, ℕ, length, slice_index};
    ghost use Rattle.am_graph.specs.Clusters.{ClustersValue};

    ghost Value = { ClustersValue };

    ghost view = { λ c. record {
      of_link = c.of_link.items;
      links = c.links;
      starts = c.starts;
      ends = c.ends;
    } };

    ghost invariant = { λ c. (length c.links ≤ 1024)
        × (length c.starts ≡ length c.links) × (length c.ends ≡ length c.links)
        × ((k : ℕ) → k < length c.of_link.items → slice_index c.of_link.items k < length c.links) };
}

impl Clusters {
    /// How many clusters there are.
    pub fn count(&self) -> u32
        ensures { result ≡ count_of self.now }
    {
        self.links.len() as u32
    }

    /// The cluster of a link.
    pub fn of_link(&self, link: u32) -> u32
        requires { link < length self.now.of_link }
        ensures value { result ≡ cluster_of self.now link }
        ensures within { result < count_of self.now }
    {
        self.of_link[link as usize]
    }

    /// The links of a cluster, ascending.
    pub fn links(&self, cluster: u32) -> &[u32]
        requires { cluster < count_of self.now }
        ensures { result.now ≡ list_at self.now.links cluster }
    {
        self.links.at(cluster)
    }

    /// The nodes at which links of the cluster begin, ascending.
    pub fn starts(&self, cluster: u32) -> &[u32]
        requires { cluster < count_of self.now }
        ensures { result.now ≡ list_at self.now.starts cluster }
    {
        self.starts.at(cluster)
    }

    /// The nodes at which links of the cluster end, ascending.
    pub fn ends(&self, cluster: u32) -> &[u32]
        requires { cluster < count_of self.now }
        ensures { result.now ≡ list_at self.now.ends cluster }
    {
        self.ends.at(cluster)
    }
}
