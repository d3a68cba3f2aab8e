//! The commands of the program: the word that names each, what the words after it say, and what it does.
//!
//! A command is a file here and a file in `specs/commands/`, where its chain of inputs is stated. It joins by a case in
//! each of the two functions below.
ghost use Rattle.std.specs.Prelude.{◌∷◌, map, string_bytes, IfSome, IfNone};
ghost use Rattle.am_chain.specs.Chains.{inputs, output, Performs};
ghost use Rattle.am_run.specs.Forms.{SaysCommand, IsNoCommand, chain_of};
ghost use Rattle.am_chain.specs.Shown.{answer_of};
ghost use Rattle.am_run.specs.Asked.{command_shown};

mod audit;
mod check;
mod clusters;
mod link;
mod loss;
mod mark;
mod meter;
mod show;
mod sim;
mod strip;

use am_base::{Shelf, Sink};
use am_chain::answer::Stop;
use am_chain::words::{DomainFileWords, domain_file_of};
use audit::AuditWords;
use check::CheckWords;
use clusters::ClustersWords;
use link::LinkWords;
use loss::LossWords;
use meter::MeterWords;
use show::ShowWords;
use sim::SimWords;
use std::alloc::Global;

/// A command, with what it was asked.
#[derive(Clone, Copy)]
pub enum Command<'a> {
    /// Loss between two points.
    Link(LinkWords<'a>),
    /// What each record of a capture says.
    Show(ShowWords<'a>),
    /// The summary of a domain.
    Check(CheckWords<'a>),
    /// The clusters of a domain's network.
    Clusters(ClustersWords<'a>),
    /// A capture with the marks of a domain's flows.
    Mark(DomainFileWords<'a>),
    /// A capture without them.
    Strip(DomainFileWords<'a>),
    /// The report of a node of a domain.
    Meter(MeterWords<'a>),
    /// The loss table of a domain.
    Audit(AuditWords<'a>),
    /// The same, from reports.
    Loss(LossWords<'a>),
    /// What a made world drops, and what is reported of it.
    Sim(SimWords<'a>),
}

/// The command that the words are; none where they are no command.
pub fn command_of(words: &[String]) -> Option<Command<'_>>
    ensures only { IfSome result
        (λ c. SaysCommand (map string_bytes words.now) (command_shown c)) }
    ensures none { IfNone result (IsNoCommand (map string_bytes words.now)) }
{
    match words {
        [verb, rest @ ..] => command_named(verb.as_str(), rest),
        [] => None,
    }
}

// The command that this word names, with what the words after it say.
fn command_named<'a>(verb: &str, words: &'a [String]) -> Option<Command<'a>>
    ensures only { IfSome result
        (λ c. SaysCommand (verb.now ∷ map string_bytes words.now) (command_shown c)) }
    ensures none { IfNone result (IsNoCommand (verb.now ∷ map string_bytes words.now)) }
{
    if verb == "link" {
        let Some(asked) = link::words_of(words) else {
            return None;
        };
        return Some(Command::Link(asked));
    }
    if verb == "show" {
        let Some(asked) = show::words_of(words) else {
            return None;
        };
        return Some(Command::Show(asked));
    }
    if verb == "check" {
        let Some(asked) = check::words_of(words) else {
            return None;
        };
        return Some(Command::Check(asked));
    }
    if verb == "clusters" {
        let Some(asked) = clusters::words_of(words) else {
            return None;
        };
        return Some(Command::Clusters(asked));
    }
    if verb == "mark" {
        let Some(asked) = domain_file_of(words) else {
            return None;
        };
        return Some(Command::Mark(asked));
    }
    if verb == "strip" {
        let Some(asked) = domain_file_of(words) else {
            return None;
        };
        return Some(Command::Strip(asked));
    }
    if verb == "meter" {
        let Some(asked) = meter::words_of(words) else {
            return None;
        };
        return Some(Command::Meter(asked));
    }
    if verb == "audit" {
        let Some(asked) = audit::words_of(words) else {
            return None;
        };
        return Some(Command::Audit(asked));
    }
    if verb == "loss" {
        let Some(asked) = loss::words_of(words) else {
            return None;
        };
        return Some(Command::Loss(asked));
    }
    if verb == "sim" {
        let Some(asked) = sim::words_of(words) else {
            return None;
        };
        return Some(Command::Sim(asked));
    }
    None
}

/// Performs a command's chain, and answers why it stopped.
pub fn perform<S: Shelf, O: Sink>(
    alloc: Global,
    command: &Command<'_>,
    shelf: &mut S,
    out: &mut O,
) -> Result<(), Stop>
    ensures { Performs (inputs (S.told shelf.old) (S.faults shelf.old) (S.missed shelf.old))
        (inputs (S.told shelf.new) (S.faults shelf.new) (S.missed shelf.new))
        (output (O.written out.old) (O.faults out.old))
        (output (O.written out.new) (O.faults out.new))
        (chain_of (command_shown command.now)) (answer_of result) }
{
    match command {
        Command::Link(asked) => link::link(alloc, asked, shelf, out),
        Command::Show(asked) => show::show(alloc, asked, shelf, out),
        Command::Check(asked) => check::check(alloc, asked, shelf, out),
        Command::Clusters(asked) => clusters::clusters(alloc, asked, shelf, out),
        Command::Mark(asked) => mark::mark(alloc, asked, shelf, out),
        Command::Strip(asked) => strip::strip(alloc, asked, shelf, out),
        Command::Meter(asked) => meter::meter(alloc, asked, shelf, out),
        Command::Audit(asked) => audit::audit(alloc, asked, shelf, out),
        Command::Loss(asked) => loss::loss(alloc, asked, shelf, out),
        Command::Sim(asked) => sim::sim(alloc, asked, shelf, out),
    }
}
