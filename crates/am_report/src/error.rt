//! Why a text is no report.

/// Why a text is no report. The first row that is refused decides, and of its faults the first in this order. Rows are
/// numbered from 1.
#[derive(Clone, Copy, Debug, PartialEq, Eq)]
pub enum ReportError {
    /// The first row isn't that of the columns' names, or there is no row.
    BadHeader,
    /// The row hasn't eight fields, has another version or a field that is no number, its cell isn't lawful, or the
    /// rows up to it count too many packets.
    BadRow { row: u64 },
    /// The domain has no node of the row's name.
    UnknownNode { row: u64 },
    /// The row's node isn't that of row 2.
    OtherNode { row: u64 },
    /// The domain has no flow of the row's name.
    UnknownFlow { row: u64 },
    /// The row's flow and block aren't those that come next, or no more come.
    NotInOrder { row: u64 },
    /// The rows end before the row of this flow and block.
    Short { flow: u32, block: u64 },
    /// There was not enough memory.
    Memory,
}
