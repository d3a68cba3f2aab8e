//! The domain file: what is measured, on which nodes, and in which blocks.
//!
//! A domain says the numbers of time (RFC 9341, section 5), the flows, and the network that they cross, as nodes
//! with a capture each and links that lead one way (RFC 9342, section 4). [`read_domain`] makes one of the bytes of
//! a TOML document, or tells the first reason why they have none. Every [`Domain`] keeps all rules of the file, so
//! its callers need not ask again.
//!
//! The text is read by the crate `toml`. No file is opened here, and no capture is looked at.
#![tactic(auto)]

mod blocks;
mod domain;
mod entries;
mod error;
mod fields;
mod flow;
mod index;
mod judge;
mod keys;
mod laws;
mod link;
mod message;
mod network;
mod node;
mod numbers;
mod repeats;
mod table;

pub use domain::{Domain, MAX_DOMAIN, read_domain};
pub use error::{DomainError, Key, Part, Repeated};
pub use flow::Flow;
pub use judge::{MAX_CELLS, MAX_FLOWS, MAX_LINKS, MAX_NODES};
pub use laws::domain_law;
pub use link::Edge;
pub use node::Node;
pub use table::{MAX_FLOW, is_file_name};
