//! The tests of the libraries of packets, captures, clocks and counters. No crate stands on this one.
//!
//! A crate with tests is proved twice, so the libraries hold none. Here is what no clause of theirs says: values from
//! outside, printed text, that each call can succeed, failures in mid-stream, real files and threads.
#![tactic(auto)]

#[cfg(test)]
mod addr;
#[cfg(test)]
mod base;
#[cfg(test)]
mod cells;
#[cfg(test)]
mod clock;
#[cfg(test)]
mod insert;
#[cfg(test)]
mod ip6;
#[cfg(test)]
mod opts;
#[cfg(test)]
mod pcap;
#[cfg(test)]
mod samples;
#[cfg(test)]
mod shared;
