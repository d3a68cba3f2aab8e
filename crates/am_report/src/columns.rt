//! The columns of a report.

/// The names of the columns, in their order.
pub(crate) const COLUMNS: [&[u8]; 8] = [
    b"version", b"node", b"flow", b"block", b"count", b"sum", b"dcount", b"dsum",
];
