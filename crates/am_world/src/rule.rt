//! The rules that the events of a world keep.

/// A rule that an event breaks. Events are looked at in their order, and each by the rules in the order of the
/// descriptions below; `Unfinished` comes after all events.
#[derive(Clone, Copy, Debug, PartialEq, Eq)]
pub enum Rule {
    /// The event names a flow, a node or a link that the domain does not have.
    BadNumber,
    /// A packet is sent that was sent before.
    PacketTwice,
    /// A packet is sent at a node at which a link ends.
    NotEntry,
    /// A packet hops or is lost that was not sent.
    UnknownPacket,
    /// A packet hops or is lost that was lost before.
    AfterLost,
    /// A packet hops over a link that does not begin at the node where it is.
    WrongNode,
    /// A packet was sent, and is neither lost nor at a node without links out when all events are over.
    Unfinished,
    /// The reading is more than half the skew away from the time, so that two clocks may differ by more than the skew.
    ClockWide,
    /// A packet hops earlier than the least delay after it was sent, or later than the greatest.
    DelayWide,
}

/// The event that breaks a rule, and the rule.
#[derive(Clone, Copy, Debug, PartialEq, Eq)]
pub struct Breach {
    /// The number of the event in the world. Events count from 0.
    pub event: u64,
    /// The first rule that it breaks.
    pub rule: Rule,
}
