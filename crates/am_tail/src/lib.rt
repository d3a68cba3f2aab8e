//! A short text that is made from its end.
//!
//! Decimal digits are had from the last to the first. So a line is made that way too: each piece is put before those that
//! stand, and the whole is handed on at once. No memory is taken.
#![tactic(auto)]

mod tail;

pub use tail::{MAX_TAIL, Tail};
