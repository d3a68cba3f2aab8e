//! The commands of `altmark`: packet loss of IPv6 flows, measured over live traffic by the Alternate-Marking Method (RFC
//! 9341), from marks that packets carry in the AltMark Option (RFC 9343).
//!
//! [`run::run`] does all that the program does, over a shelf of files and two sinks; [`laws`] has what is known of
//! commands whatever their inputs are.
#![tactic(auto)]

mod commands;
pub mod laws;
mod rewriting;
pub mod run;
