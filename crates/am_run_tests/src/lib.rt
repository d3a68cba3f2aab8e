//! Tests of whole runs of am_run, over files and streams in memory: what a run leaves where an open, a read or a write
//! fails. No other crate stands on this one.
//!
//! A crate with tests is proved twice, so am_run holds none. What a run prints where nothing fails is no matter of a test:
//! `examples/check.sh` asks it of the built program.
#![tactic(auto)]

#[cfg(test)]
mod captures;
#[cfg(test)]
mod faults;
#[cfg(test)]
mod runs;
#[cfg(test)]
mod show;
#[cfg(test)]
mod world;
