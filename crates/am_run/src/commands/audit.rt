//! The command `audit`: the loss table of a domain, from the captures of all its nodes.
ghost use Rattle.std.specs.Prelude.{◌≡◌, [], ◌∷◌, None, map, replicate, length, string_bytes, IfSome, IfNone, IfErr, OnOk};
ghost use Rattle.am_control.specs.Plans.{IsPlanOf};
ghost use Rattle.am_run.specs.Auditing.{StopsAmong, TakesFirst};
ghost use Rattle.am_chain.specs.Chains.{inputs, output, Performs};
ghost use Rattle.am_run.specs.commands.Audit.{Audit, SaysAuditWords, audit_chain};
ghost use Rattle.am_chain.specs.Shown.{answer_of, stop_shown};
ghost use Rattle.am_run.specs.Asked.{audit_shown};

use am_base::{OutError, Shelf, Sink};
use am_chain::answer::Stop;
use am_chain::inputs::{take_cells, take_domain};
use am_control::{Control, ControlError, write_loss};
use am_domain::{Domain, is_file_name};
use std::alloc::Global;

/// What `audit` is asked.
#[derive(Clone, Copy)]
pub struct AuditWords<'a> {
    /// The name of the domain file.
    pub file: &'a str,
}

/// DOMAIN.
pub fn words_of(words: &[String]) -> Option<AuditWords<'_>>
    ensures only { IfSome result
        (λ w. SaysAuditWords (map string_bytes words.now) (audit_shown w)) }
    ensures none { IfNone result ((a : Audit) → SaysAuditWords (map string_bytes words.now) a
        → ⊥) }
{
    match words {
        [file] => file_word(file.as_str()),
        _ => None,
    }
}

// The same, of one word.
fn file_word(file: &str) -> Option<AuditWords<'_>>
    ensures only { IfSome result (λ w. SaysAuditWords (file.now ∷ []) (audit_shown w)) }
    ensures none { IfNone result ((a : Audit) → SaysAuditWords (file.now ∷ []) a → ⊥) }
{
    if !is_file_name(file) {
        return None;
    }
    Some(AuditWords { file })
}

/// Takes the domain, counts the marked records of each node's capture, one node after another, and prints the loss table.
/// Nothing is printed before the last capture was read to its end.
pub fn audit<S: Shelf, O: Sink>(
    alloc: Global,
    words: &AuditWords<'_>,
    shelf: &mut S,
    out: &mut O,
) -> Result<(), Stop>
    ensures { Performs (inputs (S.told shelf.old) (S.faults shelf.old) (S.missed shelf.old))
        (inputs (S.told shelf.new) (S.faults shelf.new) (S.missed shelf.new))
        (output (O.written out.old) (O.faults out.old))
        (output (O.written out.new) (O.faults out.new))
        (audit_chain (audit_shown words.now)) (answer_of result) }
{
    let domain = match take_domain(alloc, shelf, words.file) {
        Ok(domain) => domain,
        Err(stop) => return Err(stop),
    };
    let Ok(mut control) = Control::new(alloc, &domain) else {
        return Err(Stop::NoMemory);
    };
    match take_all(alloc, &domain, shelf, &mut control) {
        Ok(()) => {}
        Err(stop) => return Err(stop),
    }
    let Ok(closed) = control.finish() else {
        // The cells of each node were accepted.
        prove!(false);
        return Err(Stop::NoMemory);
    };
    match write_loss(alloc, &domain, &closed, out) {
        Ok(()) => Ok(()),
        Err(OutError::Fault) => Err(Stop::WriteFault),
        Err(OutError::Memory) => Err(Stop::NoMemory),
    }
}

// Takes the cells of each node over its capture, one after another, into a controller that has none.
fn take_all<S: Shelf>(
    alloc: Global,
    domain: &Domain,
    shelf: &mut S,
    control: &mut Control,
) -> Result<(), Stop>
    requires plan { IsPlanOf domain.now control.old.plan }
    requires none { control.old.reports ≡ replicate (length domain.now.nodes) None }
    ensures taken { OnOk result (TakesFirst domain.now (length domain.now.nodes) control.old.plan
        (inputs (S.told shelf.old) (S.faults shelf.old) (S.missed shelf.old))
        (inputs (S.told shelf.new) (S.faults shelf.new) (S.missed shelf.new)) control.new) }
    ensures stopped { IfErr result (λ stop. StopsAmong domain.now
        (inputs (S.told shelf.old) (S.faults shelf.old) (S.missed shelf.old))
        (inputs (S.told shelf.new) (S.faults shelf.new) (S.missed shelf.new)) (stop_shown stop)) }
{
    for node in 0..domain.nodes().len() as u32 {
        let cells = match take_cells(alloc, shelf, domain, node) {
            Ok(cells) => cells,
            Err(stop) => return Err(stop),
        };
        match control.accept(node, &cells) {
            Ok(()) => {}
            Err(ControlError::Memory) => return Err(Stop::NoMemory),
            // No cells of this node were accepted before.
            Err(_) => unreachable!(),
        }
    }
    Ok(())
}
