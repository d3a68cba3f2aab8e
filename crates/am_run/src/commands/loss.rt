//! The command `loss`: the loss table of a domain, from the reports of all its nodes.
ghost use Rattle.std.specs.Prelude.{◌≡◌, ◌↔◌, ◌∷◌, List, None, All, IsTrue, map, replicate, length, string_bytes, IfSome, IfNone, IfErr, OnOk};
ghost use Rattle.am_control.specs.Plans.{IsPlanOf};
ghost use Rattle.am_report.specs.declared.read.Report.{Report};
ghost use Rattle.am_chain.specs.Chains.{Inputs, inputs, output, Performs};
ghost use Rattle.am_run.specs.Gathered.{StopsAmongReports, TakesReports};
ghost use Rattle.am_chain.specs.Gathering.{HasReports, node_without};
ghost use Rattle.am_run.specs.commands.Loss.{Loss, SaysLossWords, loss_chain, loss_of_all};
ghost use Rattle.am_chain.specs.Shown.{answer_of, stop_shown};
ghost use Rattle.am_run.specs.Asked.{loss_shown};
ghost use Rattle.am_domain.specs.Texts.{IsFileName};

use am_base::{OutError, Shelf, Sink};
use am_chain::answer::Stop;
use am_chain::inputs::{take_domain, take_report};
use am_control::{Control, ControlError, write_loss};
use am_domain::{Domain, is_file_name};
use std::alloc::Global;

/// What `loss` is asked.
#[derive(Clone, Copy)]
pub struct LossWords<'a> {
    /// The name of the domain file.
    pub domain: &'a str,
    /// The names of the reports.
    pub reports: &'a [String],
}

/// DOMAIN REPORT.., with one report or more.
pub fn words_of(words: &[String]) -> Option<LossWords<'_>>
    ensures only { IfSome result
        (λ w. SaysLossWords (map string_bytes words.now) (loss_shown w)) }
    ensures none { IfNone result ((l : Loss) → SaysLossWords (map string_bytes words.now) l
        → ⊥) }
{
    match words {
        [domain, reports @ ..] => names_of(domain.as_str(), reports),
        [] => None,
    }
}

// The same, of one word and those after it.
fn names_of<'a>(domain: &'a str, reports: &'a [String]) -> Option<LossWords<'a>>
    ensures only { IfSome result
        (λ w. SaysLossWords (domain.now ∷ map string_bytes reports.now) (loss_shown w)) }
    ensures none { IfNone result
        ((l : Loss) → SaysLossWords (domain.now ∷ map string_bytes reports.now) l → ⊥) }
{
    if !is_file_name(domain) {
        return None;
    }
    if reports.is_empty() {
        return None;
    }
    if !are_file_names(reports) {
        return None;
    }
    Some(LossWords { domain, reports })
}

// Whether each word can be the name of a file.
fn are_file_names(words: &[String]) -> bool
    ensures { IsTrue result ↔ All IsFileName (map string_bytes words.now) }
{
    for word in words {
        if !is_file_name(word.as_str()) {
            return false;
        }
    }
    true
}

/// Takes the domain and the reports, in the order of the words, one at a time, and prints the loss table. Nothing is
/// printed before the last report was read to its end.
pub fn loss<S: Shelf, O: Sink>(
    alloc: Global,
    words: &LossWords<'_>,
    shelf: &mut S,
    out: &mut O,
) -> Result<(), Stop>
    ensures { Performs (inputs (S.told shelf.old) (S.faults shelf.old) (S.missed shelf.old))
        (inputs (S.told shelf.new) (S.faults shelf.new) (S.missed shelf.new))
        (output (O.written out.old) (O.faults out.old))
        (output (O.written out.new) (O.faults out.new))
        (loss_chain (loss_shown words.now)) (answer_of result) }
{
    let domain = match take_domain(alloc, shelf, words.domain) {
        Ok(domain) => domain,
        Err(stop) => return Err(stop),
    };
    let Ok(mut control) = Control::new(alloc, &domain) else {
        return Err(Stop::NoMemory);
    };
    match take_all(alloc, &domain, words.reports, shelf, &mut control) {
        Ok(()) => {}
        Err(stop) => return Err(stop),
    }
    print_table(alloc, &domain, &control, out)
}

// Takes the reports of these files, one after another, into a controller that has none.
fn take_all<S: Shelf>(
    alloc: Global,
    domain: &Domain,
    names: &[String],
    shelf: &mut S,
    control: &mut Control,
) -> Result<(), Stop>
    requires plan { IsPlanOf domain.now control.old.plan }
    requires none { control.old.reports ≡ replicate (length domain.now.nodes) None }
    ensures taken { OnOk result (TakesReports domain.now
        (map string_bytes names.now) (length names.now)
        (inputs (S.told shelf.old) (S.faults shelf.old) (S.missed shelf.old))
        (inputs (S.told shelf.new) (S.faults shelf.new) (S.missed shelf.new)) control.new) }
    ensures stopped { IfErr result (λ stop. StopsAmongReports domain.now
        (map string_bytes names.now)
        (inputs (S.told shelf.old) (S.faults shelf.old) (S.missed shelf.old))
        (inputs (S.told shelf.new) (S.faults shelf.new) (S.missed shelf.new)) (stop_shown stop)) }
{
    for name in names {
        match take_report(alloc, shelf, domain, name.as_str(), control) {
            Ok(()) => {}
            Err(stop) => return Err(stop),
        }
    }
    Ok(())
}

// Prints the loss table of the reports, or names the first node without one.
fn print_table<O: Sink>(
    alloc: Global,
    domain: &Domain,
    control: &Control,
    out: &mut O,
) -> Result<(), Stop>
    requires nodes { length control.now.reports ≡ length domain.now.nodes }
    requires plan { IsPlanOf domain.now control.now.plan }
    ensures { (before : Inputs) (taken : List Report) → HasReports domain.now control.now taken
        → Performs before before (output (O.written out.old) (O.faults out.old))
        (output (O.written out.new) (O.faults out.new))
        (loss_of_all domain.now taken (node_without domain.now taken)) (answer_of result) }
{
    match control.finish() {
        Ok(closed) => match write_loss(alloc, domain, &closed, out) {
            Ok(()) => Ok(()),
            Err(OutError::Fault) => Err(Stop::WriteFault),
            Err(OutError::Memory) => Err(Stop::NoMemory),
        },
        Err(ControlError::MissingReport { node }) => {
            let node = domain.nodes()[node as usize].name();
            Err(Stop::no_report(alloc, node))
        }
        // It tells a node without a report.
        Err(_) => unreachable!(),
    }
}
