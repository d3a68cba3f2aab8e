//! Shared counters: exact sums on atomic words.
//!
//! Workers count packets side by side. A [`Tally`] is one table of words that they all add to, each word by single
//! atomic steps. A [`Pass`] is what one user adds and reads with. It knows what was added through it and through the
//! passes that were joined into it, its share of each word, and what it has seen of each word. Each word is the sum of
//! all shares of it, so whoever holds the one pass that all others were joined into reads exact sums.
//!
//! What a pass may not know is what others add beside it. Before the join a read is at least the pass's own share and
//! at least all that it had seen, and nothing more is said: not how much another pass has added, nor in which order.
//!
//! No call tries again, none waits, and none but [`Tally::open`] takes memory. Nothing here knows of packets, marks or
//! blocks.
#![tactic(auto)]

mod pass;
mod rule;
mod tally;
mod word;

pub use pass::Pass;
pub use tally::{MAX_BUDGET, MAX_OFFSET, MAX_SLOTS, Tally};
pub use word::Word;
