//! Worlds: what happens to the packets of a measured network, and what its points then record.
//!
//! A world is a list of events: packets are sent, hop over links, and are lost. From it one knows what no measurement
//! can: how many packets a cluster really dropped. A world is the other side of the method's claim, that the loss
//! computed from the captures is the one that the network had (RFC 9341, section 3.1).
//!
//! Nothing here counts marked packets, and no file is read.
#![tactic(auto)]

mod capture;
mod check;
mod draws;
mod event;
mod generating;
mod laws;
mod loss;
mod routes;
mod rule;
mod trip;
mod world;

pub use capture::capture_of;
pub use check::check_world;
pub use event::Event;
pub use generating::generate;
pub use laws::{link_law, world_law};
pub use loss::true_loss;
pub use rule::{Breach, Rule};
pub use world::World;
