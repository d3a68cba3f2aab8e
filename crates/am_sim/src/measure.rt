//! What the nodes of a domain count of a world.

ghost use Rattle.std.specs.Prelude.{◌≡◌, ◌*◌, ◌<◌, ◌≤◌, None, replicate, length, IfOk, OnOk};
ghost use Rattle.am_control.specs.Plans.{IsPlanOf};
ghost use Rattle.am_meter.specs.Metering.{HasDomainShape};
ghost use Rattle.am_world.specs.Worlds.{IsValid};
ghost use Rattle.am_sim.specs.Measuring.{CountsFirst, HasNodeCells, IsFileWant, IsWant};

use am_base::MemShelf;
use am_cells::Cells;
use am_control::{Control, ControlError};
use am_domain::Domain;
use am_meter::{Gate, MeterError, marks_are_one, meter_file};
use am_pcap::FileError;
use am_world::{World, capture_of};
use std::alloc::{AllocError, Global};

/// Has each node count its capture of the world, one after another, and takes its cells into a controller that has none.
pub(crate) fn measure<G: Gate>(
    alloc: Global,
    domain: &Domain,
    world: &World,
    gate: &G,
    control: &mut Control,
) -> Result<(), AllocError>
    requires valid { IsValid domain.now world.now }
    requires short { length world.now ≤ 18 * 1000000 }
    requires plan { IsPlanOf domain.now control.old.plan }
    requires none { control.old.reports ≡ replicate (length domain.now.nodes) None }
    ensures { OnOk result (CountsFirst domain.now world.now (length domain.now.nodes)
        control.old.plan control.new) }
{
    for node in 0..domain.nodes().len() as u32 {
        let cells = node_cells(alloc, domain, world, gate, node)?;
        match control.accept(node, &cells) {
            Ok(()) => {}
            Err(ControlError::Memory) => return Err(AllocError),
            // No cells of this node were accepted before.
            Err(_) => unreachable!(),
        }
    }
    Ok(())
}

// The cells of a node over its capture of the world. The capture stands on a shelf of its own: nodes whose captures have
// one name have each its own here.
fn node_cells<G: Gate>(
    alloc: Global,
    domain: &Domain,
    world: &World,
    gate: &G,
    node: u32,
) -> Result<Cells, AllocError>
    requires node { node < length domain.now.nodes }
    requires valid { IsValid domain.now world.now }
    requires short { length world.now ≤ 18 * 1000000 }
    ensures cells { IfOk result (λ cells. HasNodeCells domain.now world.now node cells) }
    ensures table { IfOk result (λ cells. HasDomainShape domain.now cells) }
{
    marks_are_one();
    let capture = capture_of(alloc, domain, world, node)?;
    let name = String::from_str(alloc, domain.nodes()[node as usize].capture())?;
    let mut files = Vec::new(alloc);
    files.push((name, capture))?;
    let mut shelf = MemShelf::new(files, Vec::new(alloc), Vec::new(alloc));
    match meter_file(alloc, domain, node, &mut shelf, gate) {
        Ok(cells) => Ok(cells),
        Err(error) => Err(want_of(error)),
    }
}

// What is answered where a node has no cells: its file is there, and is a capture without cut headers. As no read of the
// shelf fails, there was not enough memory.
fn want_of(error: MeterError) -> AllocError
    requires { IsWant error }
{
    match error {
        MeterError::File(error) => file_want_of(error),
        MeterError::HeadersCut { .. } => unreachable!(),
    }
}

// The same of the file.
fn file_want_of(error: FileError) -> AllocError
    requires { IsFileWant error }
{
    match error {
        FileError::Memory | FileError::ReadFault => AllocError,
        FileError::Missing | FileError::TooLong | FileError::Bad(_) => unreachable!(),
    }
}
