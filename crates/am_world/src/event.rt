//! The events of a world.

ghost use Rattle.std.specs.Prelude.{◌≡◌};

/// What happens to one packet. Times are true times, which no clock shows; readings are what the clock of the node
/// shows at that time. Both are nanoseconds from the captures' epoch.
#[derive(Clone, Copy, Debug, PartialEq, Eq)]
pub enum Event {
    /// A packet of a flow enters the network at a node, which marks it: its block and colour are those of the reading
    /// (RFC 9341, section 3.1). `delay` is its delay bit (RFC 9343, section 5.2).
    Send {
        packet: u64,
        flow: u32,
        node: u32,
        time: u64,
        reading: u64,
        delay: bool,
    },
    /// The packet comes over a link to the node at which the link ends.
    Hop {
        packet: u64,
        link: u32,
        time: u64,
        reading: u64,
    },
    /// The packet is dropped where it is, or on a link that begins there.
    Lost {
        packet: u64,
    },
}

impl Event {
    ghost use Rattle.am_world.specs.Events.{event_packet};

    /// The packet to which it happens.
    pub(crate) fn packet(&self) -> u64
        ensures { result ≡ event_packet self.now }
    {
        match *self {
            Event::Send { packet, .. } => packet,
            Event::Hop { packet, .. } => packet,
            Event::Lost { packet } => packet,
        }
    }
}
