//! Tests of the libraries that measure a network: am_domain, am_graph, am_meter, am_report, am_control, am_world and
//! am_sim. They stand apart from what they test, so that a library is proved once.
//!
//! A test has what no clause can say: what was worked out by hand or by another program, printed texts, and that each
//! public function gives an answer where there is memory. Expected values are never the program's own.
#![tactic(auto)]

#[cfg(test)]
mod control;
#[cfg(test)]
mod domain;
#[cfg(test)]
mod graph;
#[cfg(test)]
mod meter;
#[cfg(test)]
mod report;
#[cfg(test)]
mod samples;
#[cfg(test)]
mod sim;
#[cfg(test)]
mod world;
