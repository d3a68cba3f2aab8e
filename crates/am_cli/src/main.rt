//! The program `altmark`: packet loss of IPv6 flows, measured over live traffic by the Alternate-Marking Method (RFC
//! 9341), from marks that packets carry in the AltMark Option (RFC 9343).
//!
//! [`run`] of am_run does all that the program does, over a shelf of files and two sinks. `main` hands it the real ones.
#![tactic(auto)]

use am_base::{DiskShelf, StdSink};
pub use am_run::run::run;
use std::alloc::Global;
use std::env;
use std::io::ErrorKind;
use std::process::ExitCode;

/// The status where the system doesn't give the words as text.
const NO_WORDS: u8 = 2;

/// The status where there is no memory for the words.
const NO_MEMORY: u8 = 7;

fn main(rt: HostRuntime) -> ExitCode {
    let words = match words_of(&rt) {
        Ok(words) => words,
        Err(status) => return ExitCode::from(status),
    };
    let mut shelf = DiskShelf::new(&rt);
    let mut out = StdSink::output(&rt);
    let mut err = StdSink::error(&rt);
    ExitCode::from(run(rt.alloc(), &words, &mut shelf, &mut out, &mut err))
}

// The words behind the program's name, or the status where they can't be had.
fn words_of(rt: &HostRuntime) -> Result<Vec<String>, u8> {
    let args = match env::args(rt) {
        Ok(args) => args,
        Err(error) => {
            return Err(if error.kind() == ErrorKind::OutOfMemory {
                NO_MEMORY
            } else {
                NO_WORDS
            });
        }
    };
    let alloc: Global = rt.alloc();
    args.skip(1).collect(alloc).map_err(|_| NO_MEMORY)
}
