//! Why a report is not accepted, or the reports of a domain are not complete.

/// Why a report is not accepted, or the table can't be made yet.
#[derive(Clone, Copy, Debug, PartialEq, Eq)]
pub enum ControlError {
    /// There is a report of this node already.
    ReportTwice { node: u32 },
    /// There is no report of this node; there is one of each node before it.
    MissingReport { node: u32 },
    /// There was not enough memory.
    Memory,
}
