//! The simulation of a network.

ghost use Rattle.std.specs.Prelude.{◌≤◌, All, IfOk};
ghost use Rattle.am_sim.specs.Simulating.{IsRight, IsSimulated};

use crate::compare::compare;
use crate::measure::measure;
use crate::row::SimRow;
use am_control::Control;
use am_domain::Domain;
use am_meter::Gate;
use am_world::{generate, world_law};
use std::alloc::{AllocError, Global};

/// Makes the world of the number, with so many packets, has each node count its capture of it, and compares the loss
/// that is reported with what the world drops: a row for each cluster, in their order, and then one for the network. The
/// gate changes nothing of them.
pub fn simulate<G: Gate>(
    alloc: Global,
    domain: &Domain,
    number: u64,
    packets: u32,
    gate: &G,
) -> Result<Vec<SimRow>, AllocError>
    requires { packets ≤ 1000000 }
    ensures rows { IfOk result (λ rows. IsSimulated domain.now number packets rows.items) }

    // What is reported is what is dropped, in all and of each flow and reported block.
    ensures right { IfOk result (λ rows. All IsRight rows.items) }
{
    world_law();
    // The domain is lawful.
    let _ = domain.flows();
    let world = generate(alloc, domain, number, packets)?;
    let mut control = Control::new(alloc, domain)?;
    measure(alloc, domain, &world, gate, &mut control)?;
    let Ok(closed) = control.finish() else {
        // The cells of each node were accepted.
        prove!(false);
        return Err(AllocError);
    };
    compare(alloc, domain, &world, &closed)
}
