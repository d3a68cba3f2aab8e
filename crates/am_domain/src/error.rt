//! Why a file is no domain file: one cause, with the place in the file that it is found at.

use am_clock::TimingError;

/// A part of a domain file.
#[derive(Clone, Copy, Debug, PartialEq, Eq)]
pub enum Part {
    /// The file itself.
    Top,
    /// The table `timing`.
    Timing,
    /// The table `marking`.
    Marking,
    /// The tables `flow`.
    Flow,
    /// The tables `node`.
    Node,
    /// The tables `link`.
    Link,
}

/// A key of a table. Each stands for its spelling in the file, as `BlockNs` for `block_ns`.
#[derive(Clone, Copy, Debug, PartialEq, Eq)]
pub enum Key {
    BlockNs,
    SkewNs,
    DelayMinNs,
    DelayMaxNs,
    Place,
    Workers,
    Name,
    Id,
    Source,
    Destination,
    Capture,
    FromNs,
    UntilNs,
    From,
    To,
    /// A key that no table of this part has.
    Unknown,
}

/// What two tables have in common that may not.
#[derive(Clone, Copy, Debug, PartialEq, Eq)]
pub enum Repeated {
    /// The names of two flows.
    FlowName,
    /// The numbers of two flows.
    FlowId,
    /// The names of two nodes.
    NodeName,
}

/// Why bytes are no domain file. Flows, nodes and links are numbered from 0, as they stand in the file.
#[derive(Clone, Copy, Debug, PartialEq, Eq)]
pub enum DomainError {
    /// The bytes aren't UTF-8, or their text isn't TOML.
    NotToml,
    /// A part is absent or of another kind, or a key has no value that it may have, or a key is unknown.
    BadField {
        part: Part,
        index: Option<u32>,
        key: Option<Key>,
    },
    /// The four numbers of the part `timing` are no timing.
    Timing(TimingError),
    /// There are more nodes, links or flows than a domain may have, with how many there are.
    TooMany {
        part: Part,
        count: u32,
    },
    /// Two flows or two nodes have the same name, or two flows the same number.
    Twice {
        what: Repeated,
        first: u32,
        second: u32,
    },
    /// A link leads from (`From`) or to (`To`) a name that no node has.
    UnknownNode {
        link: u32,
        end: Key,
    },
    /// A link leads from a node to itself.
    SelfLink {
        link: u32,
    },
    /// Two links lead from and to the same nodes.
    LinkTwice {
        first: u32,
        second: u32,
    },
    /// No link begins or ends at a node.
    LoneNode {
        node: u32,
    },
    /// No block is covered at every node. The first block that begins late enough for each is `first`, and
    /// the blocks that end early enough for each are those below `end`.
    NoBlock {
        first: u64,
        end: u64,
    },
    /// Flows times blocks are more than 32,768.
    TooManyCells {
        count: u128,
    },
    /// There was no memory.
    Memory,
}
