//! The report of a measurement point: its cells as a text, written and read.
//!
//! A report is CSV (RFC 4180): a row for each reported block and flow, with the counts and sums of what passed the
//! point. [`write_report`] writes it, and [`read_report`] takes it again or says which row is at fault. The text is
//! written and read by the crate `csv`.
//!
//! Nothing is counted here, and no file is opened.
#![tactic(auto)]

mod columns;
mod error;
mod filling;
mod laws;
mod lines;
mod message;
mod read;
mod row;
mod rows;
mod write;

pub use error::ReportError;
pub use laws::report_law;
pub use message::Refusal;
pub use read::{MAX_REPORT, Report, read_report};
pub use write::{write_head, write_report, write_row};
