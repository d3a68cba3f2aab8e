//! Files to read, places to write to, and plain numbers.
//!
//! The logic of altmark reads files by a [`Shelf`] and writes by a [`Sink`]. Both are traits with a written meaning:
//! what they hold, where that is known, and how often something went wrong. [`MemShelf`] and [`MemSink`] keep all in
//! memory and can be made to fail; [`DiskShelf`] and [`StdSink`] are the real files and streams, and are the only place
//! where the system is reached.
//!
//! Nothing here knows of packets, captures or marks.
#![tactic(auto)]

mod buffer;
mod failing;
mod file;
mod mem_shelf;
mod mem_sink;
mod number;
mod shelf;
mod sink;
mod system;

pub use buffer::{Buffer, MAX_HELD};
pub use file::{FileFault, read_file};
pub use mem_shelf::MemShelf;
pub use mem_sink::MemSink;
pub use number::{be16, be32, decimal, le16, le32};
pub use shelf::{Fault, OpenError, Shelf};
pub use sink::{OutError, Sink, put};
pub use system::{DiskShelf, StdSink};
