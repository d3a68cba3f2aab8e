//! What the commands of `altmark` share: inputs that are taken one after another, captures that are printed record by
//! record, and the stops, each with its status and its line.
//!
//! A command is a chain of inputs and what is printed of them: `specs/Chains` says what such a chain comes to, what is
//! printed, and what each stop leaves.
#![tactic(auto)]

pub mod answer;
pub mod counting;
pub mod inputs;
pub mod laws;
pub mod printing;
pub mod table;
pub mod words;
