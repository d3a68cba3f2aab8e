//! A world as the list of its events.

ghost use Rattle.std.specs.Prelude.{◌≡◌};

use crate::event::Event;
use std::marker::Model;

/// A world: what happens to all packets of a network, event by event.
#[derive(Drop)]
pub struct World {
    events: Vec<Event>,
}

impl Model for World {
    ghost use Rattle.std.specs.Prelude.{List};
    ghost use Rattle.am_world.specs.declared.event.Event.{Event};

    ghost Value = { List Event };

    ghost view = { λ w. w.events.items };
}

impl World {
    /// The world with these events, in their order. Nothing is asked of them.
    pub fn of(events: Vec<Event>) -> World
        ensures { result ≡ events.items }
    {
        World { events }
    }

    /// Its events, in their order.
    pub fn events(&self) -> &[Event]
        ensures { result.now ≡ self.now }
    {
        self.events.as_slice()
    }
}
