//! What is known of a packet on its way.

ghost use Rattle.std.specs.Prelude.{◌≡◌, ◌∷◌, [], All, IfOk};
ghost use Rattle.am_world.specs.Trips.{NamesLink, trip_after, trip_at, AreTrips};

use crate::event::Event;
use am_domain::Edge;
use std::alloc::{AllocError, Global};
use std::collections::HashMap;

/// What is known of a packet after some of its events.
#[derive(Clone, Copy, Debug, PartialEq, Eq)]
pub(crate) struct Trip {
    /// The true time at which it was sent.
    pub(crate) sent: Option<u64>,
    /// The node that it passed last.
    pub(crate) node: Option<u32>,
    /// Whether it was lost.
    pub(crate) lost: bool,
}

impl Trip {
    /// Of a packet without events nothing is known.
    pub(crate) const NONE: Trip = Trip {
        sent: None,
        node: None,
        lost: false,
    };

    /// What is known after one event more.
    pub(crate) fn after(&self, links: &[Edge], event: &Event) -> Trip
        requires { NamesLink links.now event.now }
        ensures { result ≡ trip_after links.now self.now (event.now ∷ []) }
    {
        match *event {
            Event::Send { node, time, .. } => Trip {
                sent: Some(time),
                node: Some(node),
                lost: self.lost,
            },
            Event::Hop { link, .. } => Trip {
                sent: self.sent,
                node: Some(links[link as usize].to),
                lost: self.lost,
            },
            Event::Lost { .. } => Trip {
                sent: self.sent,
                node: self.node,
                lost: true,
            },
        }
    }
}

/// What is known of one packet.
pub(crate) fn trip_of(trips: &HashMap<u64, Trip>, packet: u64) -> Trip
    ensures { result ≡ trip_at trips.now packet }
{
    trips.get(&packet).copied().unwrap_or(Trip::NONE)
}

/// What is known of each packet after all events.
pub(crate) fn trips_of(
    alloc: Global,
    links: &[Edge],
    events: &[Event],
) -> Result<HashMap<u64, Trip>, AllocError>
    requires { All (NamesLink links.now) events.now }
    ensures { IfOk result (λ trips. AreTrips links.now events.now trips) }
{
    let mut trips = HashMap::new(alloc);
    for event in events {
        let packet = event.packet();
        let next = trip_of(&trips, packet).after(links, event);
        trips.insert(packet, next)?;
    }
    Ok(trips)
}
