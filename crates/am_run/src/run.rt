//! The top call: from the words to what is printed, what is said of a stop, and the status.
ghost use Rattle.std.specs.Prelude.{◌≡◌, ◌⊎◌, ◌↔◌, Some, map, string_bytes};
ghost use Rattle.am_base.specs.Counts.{Rose};
ghost use Rattle.am_base.specs.Shelves.{OnTold};
ghost use Rattle.am_chain.specs.Answers.{line, status};
ghost use Rattle.am_chain.specs.Chains.{inputs, output};
ghost use Rattle.am_run.specs.Forms.{IsNoCommand};
ghost use Rattle.am_run.specs.Headline.{TellsEachWorld};
ghost use Rattle.am_run.specs.LinkHeadline.{TellsEachLink};
ghost use Rattle.am_run.specs.Runs.{Answers, Obeys, IsDecided, Completes, TellsLine, IsToldAs};
ghost use Rattle.am_chain.specs.Shown.{stop_shown, answer_of};
ghost use Rattle.am_run.specs.SimHeadline.{TellsSim};

use crate::commands::{command_of, perform};
use crate::laws::laws;
use am_base::{Shelf, Sink, put};
use am_chain::answer::Stop;
use am_world::{link_law, world_law};
use std::alloc::Global;

/// The line where there was not enough memory.
const NO_MEMORY: &str = "altmark: out of memory\n";

/// Does what the words ask: reads files from the shelf, prints to `out`, says why it stopped on `err`, and answers the
/// status of the program.
///
/// 0: done. 2: the words are no command. 3: an input is refused. 4: a file is missing. 5: a file could not be read.
/// 6: the output could not be written. 7: there was not enough memory.
pub fn run<S: Shelf, O: Sink, E: Sink>(
    alloc: Global,
    words: &[String],
    shelf: &mut S,
    out: &mut O,
    err: &mut E,
) -> u8
    // Two exactly where the words are no command.
    ensures no_command { (result ≡ 2) ↔ IsNoCommand (map string_bytes words.now) }

    // There is one answer of this status: the words were obeyed with it, from the shelf and the output as they were to as
    // they are now, and its line was said. So the product, what each stop leaves, and the cause of each are read off the
    // command's chain.
    ensures answered { Answers (map string_bytes words.now)
        (inputs (S.told shelf.old) (S.faults shelf.old) (S.missed shelf.old))
        (inputs (S.told shelf.new) (S.faults shelf.new) (S.missed shelf.new))
        (output (O.written out.old) (O.faults out.old))
        (output (O.written out.new) (O.faults out.new))
        (output (E.written err.old) (E.faults err.old))
        (output (E.written err.new) (E.faults err.new))
        result }

    // On a shelf that tells its files: what the inputs come to gives the status, unless a fault or want of memory does.
    ensures decided { OnTold (S.told shelf.old)
        (λ t. IsDecided (map string_bytes words.now) (Some t) result) }

    // And where nothing failed, the inputs come to an ending of this status, or memory ran out.
    ensures complete { OnTold (S.told shelf.old)
        (λ t. Completes (map string_bytes words.now) (Some t)
        (Rose (S.faults shelf.old) (S.faults shelf.new)
        ⊎ Rose (O.faults out.old) (O.faults out.new))
        result) }

    // On such a shelf, of `audit`: whatever world the captures record that the domain names, whose clocks and delays are
    // within the bounds of the domain, the loss that was printed of each cluster, flow and block is the number of the
    // flow's packets of the block that were dropped in the cluster, and each delay is theirs but for the skew.
    ensures headline { OnTold (S.told shelf.old)
        (λ t. TellsEachWorld (map string_bytes words.now) (Some t)
        (O.written out.old) (O.written out.new) result) }

    // And of `link`: whatever world the two captures record at the ends of a link that shares neither with another link,
    // the loss that was printed of each block that both cover is the number of the flow's packets of the block that were
    // dropped between the two points.
    ensures link_headline { OnTold (S.told shelf.old)
        (λ t. TellsEachLink (map string_bytes words.now) (Some t)
        (O.written out.old) (O.written out.new) result) }

    // And of `sim`, on any shelf: in each row that was printed as much is reported as the made world drops, in all and of
    // each flow and reported block.
    ensures simulated { TellsSim (map string_bytes words.now)
        (O.written out.old) (O.written out.new) result }
{
    laws();
    world_law();
    link_law();
    match obey(alloc, words, shelf, out) {
        Ok(()) => 0,
        Err(stop) => tell(alloc, &stop, err),
    }
}

// Does what the words ask, and answers why it stopped.
fn obey<S: Shelf, O: Sink>(
    alloc: Global,
    words: &[String],
    shelf: &mut S,
    out: &mut O,
) -> Result<(), Stop>
    ensures { Obeys (map string_bytes words.now)
        (inputs (S.told shelf.old) (S.faults shelf.old) (S.missed shelf.old))
        (inputs (S.told shelf.new) (S.faults shelf.new) (S.missed shelf.new))
        (output (O.written out.old) (O.faults out.old))
        (output (O.written out.new) (O.faults out.new))
        (answer_of result) }
{
    match command_of(words) {
        Some(command) => perform(alloc, &command, shelf, out),
        None => Err(Stop::NoCommand),
    }
}

// Says why a command stopped, and answers the status. Where there is no memory for a line with a name, that is said.
fn tell<E: Sink>(alloc: Global, stop: &Stop, err: &mut E) -> u8
    ensures { IsToldAs (output (E.written err.old) (E.faults err.old)) (output
        (E.written err.new) (E.faults err.new))
        (stop_shown stop.now) result }
{
    match stop {
        Stop::NoCommand => say(err, "altmark: usage\n"),
        Stop::WriteFault => say(err, "altmark: write fault\n"),
        Stop::NoMemory => say(err, NO_MEMORY),
        Stop::Missing { .. } | Stop::Refused { .. } | Stop::ReadFault { .. } => {
            match stop.line(alloc) {
                Ok(line) => say(err, line.as_str()),
                Err(_) => {
                    say(err, NO_MEMORY);
                    return Stop::NoMemory.status();
                }
            }
        }
    }
    stop.status()
}

// Writes one line. Where it can't be written there is nobody to tell.
fn say<E: Sink>(err: &mut E, line: &str)
    ensures { TellsLine (output (E.written err.old) (E.faults err.old)) (output
        (E.written err.new) (E.faults err.new))
        line.now }
{
    let _ = put(err, line.as_bytes());
}
