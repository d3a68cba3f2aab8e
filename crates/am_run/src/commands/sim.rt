//! The command `sim`: what a made world drops in a domain's network, and what is reported of it.
ghost use Rattle.std.specs.Prelude.{[], ◌∷◌, map, string_bytes, IfSome, IfNone};
ghost use Rattle.am_chain.specs.Chains.{inputs, output, Performs};
ghost use Rattle.am_run.specs.commands.Sim.{Sim, SaysSimWords, sim_chain};
ghost use Rattle.am_chain.specs.Shown.{answer_of};
ghost use Rattle.am_run.specs.Asked.{sim_shown};

use am_base::{OutError, Shelf, Sink};
use am_chain::answer::Stop;
use am_chain::inputs::take_domain;
use am_chain::words::number;
use am_domain::is_file_name;
use am_meter::NoGate;
use am_sim::{simulate, write_simulated};
use std::alloc::Global;
use std::marker::Model;

/// The most packets of a made world: it is held in memory, and so is the capture that a node takes of it.
pub const MAX_PACKETS: u64 = 1_000_000;

/// How many packets are sent in a made world: at most `MAX_PACKETS`.
#[derive(Clone, Copy)]
pub struct Packets {
    count: u32,
}

impl Model for Packets {
    ghost use Rattle.std.specs.Prelude.{ℕ, ◌≤◌};
    ghost use Rattle.am_run.specs.declared.commands.sim.TheConstants.{MAX_PACKETS};

    ghost Value = { ℕ };

    ghost view = { λ p. p.count };

    ghost invariant = { λ p. p.count ≤ MAX_PACKETS };

    ghost inverse = { λ n. record { count = n } };
}

/// What `sim` is asked.
#[derive(Clone, Copy)]
pub struct SimWords<'a> {
    /// The name of the domain file.
    pub domain: &'a str,
    /// The number that the world is made from.
    pub number: u64,
    /// How many packets are sent in it.
    pub packets: Packets,
}

/// DOMAIN NUMBER PACKETS.
pub fn words_of(words: &[String]) -> Option<SimWords<'_>>
    ensures only { IfSome result
        (λ w. SaysSimWords (map string_bytes words.now) (sim_shown w)) }
    ensures none { IfNone result ((s : Sim) → SaysSimWords (map string_bytes words.now) s → ⊥) }
{
    match words {
        [domain, from, packets] => three_words(domain.as_str(), from.as_str(), packets.as_str()),
        _ => None,
    }
}

// The same, of three words.
fn three_words<'a>(domain: &'a str, from: &str, packets: &str) -> Option<SimWords<'a>>
    ensures only { IfSome result
        (λ w. SaysSimWords (domain.now ∷ from.now ∷ packets.now ∷ []) (sim_shown w)) }
    ensures none { IfNone result
        ((s : Sim) → SaysSimWords (domain.now ∷ from.now ∷ packets.now ∷ []) s → ⊥) }
{
    if !is_file_name(domain) {
        return None;
    }
    let Some(from) = number(from, 0, u64::MAX) else {
        return None;
    };
    let Some(packets) = number(packets, 0, MAX_PACKETS) else {
        return None;
    };
    Some(SimWords {
        domain,
        number: from,
        packets: Packets {
            count: packets as u32,
        },
    })
}

/// Takes the domain, makes the world of the number, and prints what is reported of it beside what it drops. Nothing is
/// printed before the last of it was compared.
pub fn sim<S: Shelf, O: Sink>(
    alloc: Global,
    words: &SimWords<'_>,
    shelf: &mut S,
    out: &mut O,
) -> Result<(), Stop>
    ensures { Performs (inputs (S.told shelf.old) (S.faults shelf.old) (S.missed shelf.old))
        (inputs (S.told shelf.new) (S.faults shelf.new) (S.missed shelf.new))
        (output (O.written out.old) (O.faults out.old))
        (output (O.written out.new) (O.faults out.new))
        (sim_chain (sim_shown words.now)) (answer_of result) }
{
    let domain = match take_domain(alloc, shelf, words.domain) {
        Ok(domain) => domain,
        Err(stop) => return Err(stop),
    };
    let Ok(rows) = simulate(alloc, &domain, words.number, words.packets.count, &NoGate) else {
        return Err(Stop::NoMemory);
    };
    match write_simulated(alloc, rows.as_slice(), out) {
        Ok(()) => Ok(()),
        Err(OutError::Fault) => Err(Stop::WriteFault),
        Err(OutError::Memory) => Err(Stop::NoMemory),
    }
}
