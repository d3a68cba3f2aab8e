//! The command `meter`: the report of one measurement point, from its capture.
ghost use Rattle.std.specs.Prelude.{[], ◌∷◌, map, string_bytes, IfSome, IfNone};
ghost use Rattle.am_chain.specs.Chains.{inputs, output, Performs};
ghost use Rattle.am_run.specs.commands.Meter.{Meter, SaysMeterWords, meter_chain};
ghost use Rattle.am_chain.specs.Shown.{answer_of};
ghost use Rattle.am_run.specs.Asked.{meter_shown};

use am_base::{OutError, Shelf, Sink};
use am_chain::answer::Stop;
use am_chain::inputs::{take_cells, take_domain};
use am_domain::is_file_name;
use am_report::write_report;
use std::alloc::Global;

/// What `meter` is asked.
#[derive(Clone, Copy)]
pub struct MeterWords<'a> {
    /// The name of the domain file.
    pub domain: &'a str,
    /// The name of a node.
    pub node: &'a str,
}

/// DOMAIN NODE.
pub fn words_of(words: &[String]) -> Option<MeterWords<'_>>
    ensures only { IfSome result
        (λ w. SaysMeterWords (map string_bytes words.now) (meter_shown w)) }
    ensures none { IfNone result ((m : Meter) → SaysMeterWords (map string_bytes words.now) m
        → ⊥) }
{
    match words {
        [domain, node] => two_words(domain.as_str(), node.as_str()),
        _ => None,
    }
}

// The same, of two words.
fn two_words<'a>(domain: &'a str, node: &'a str) -> Option<MeterWords<'a>>
    ensures only { IfSome result
        (λ w. SaysMeterWords (domain.now ∷ node.now ∷ []) (meter_shown w)) }
    ensures none { IfNone result
        ((m : Meter) → SaysMeterWords (domain.now ∷ node.now ∷ []) m → ⊥) }
{
    if !is_file_name(domain) {
        return None;
    }
    Some(MeterWords { domain, node })
}

/// Takes the domain, counts the marked records of the node's capture, and prints the node's report. Nothing is printed
/// before the capture was read to its end.
pub fn meter<S: Shelf, O: Sink>(
    alloc: Global,
    words: &MeterWords<'_>,
    shelf: &mut S,
    out: &mut O,
) -> Result<(), Stop>
    ensures { Performs (inputs (S.told shelf.old) (S.faults shelf.old) (S.missed shelf.old))
        (inputs (S.told shelf.new) (S.faults shelf.new) (S.missed shelf.new))
        (output (O.written out.old) (O.faults out.old))
        (output (O.written out.new) (O.faults out.new))
        (meter_chain (meter_shown words.now)) (answer_of result) }
{
    let domain = match take_domain(alloc, shelf, words.domain) {
        Ok(domain) => domain,
        Err(stop) => return Err(stop),
    };
    let Some(node) = domain.node_named(words.node) else {
        return Err(Stop::unknown_node());
    };
    let cells = match take_cells(alloc, shelf, &domain, node) {
        Ok(cells) => cells,
        Err(stop) => return Err(stop),
    };
    match write_report(alloc, &domain, node, &cells, out) {
        Ok(()) => Ok(()),
        Err(OutError::Fault) => Err(Stop::WriteFault),
        Err(OutError::Memory) => Err(Stop::NoMemory),
    }
}
