//! The monitored network as a graph, and its clusters.
//!
//! A cluster is a smallest set of links within which a loss can be told (RFC 9342, section 5): what enters at the
//! nodes at which its links begin leaves at those at which they end, and no set of fewer links has that. Two links
//! are in one cluster where a chain of links leads from one to the other in which each two neighbours share the node
//! at which they begin, or the one at which they end. [`Graph::of`] takes the network of a domain, and
//! [`find_clusters`] finds its clusters.
//!
//! Nothing here knows of packets, flows or counts.
#![tactic(auto)]

mod clusters;
mod find;
mod graph;
mod lists;
mod place;
mod walk;

pub use clusters::Clusters;
pub use find::find_clusters;
pub use graph::Graph;
