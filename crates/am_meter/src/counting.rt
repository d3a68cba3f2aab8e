//! The marked records of a batch, counted in the cells of a node.
ghost use Rattle.std.specs.Prelude.{◌≡◌, ◌+◌, ◌<◌, ◌≤◌, ◌^◌, ◌∷◌, [], ℕ, List, IsTrue, IfOk, IfErr, OnOk, OnErr, IfSome, IfNone, Some, length};
ghost use Rattle.am_cells.specs.CellTables.{total_of};
ghost use Rattle.am_cells.specs.declared.cell.TheConstants.{MAX_COUNT, OFFSET_END};
ghost use Rattle.am_meter.specs.Batches.{HaveMarks, CutsFirst};
ghost use Rattle.am_meter.specs.BatchSlots.{lent_shown};
ghost use Rattle.am_meter.specs.Counted.{CellsOf, WhyNotCounted, CountsRecord};
ghost use Rattle.am_meter.specs.Lookups.{CountsAt};
ghost use Rattle.am_meter.specs.Metering.{HasDomainShape, AreMetered, CountsMore, node_shift, offset_in};

use crate::batch::{Batch, Lent};
use crate::gate::Gate;
use crate::stream::{Marked, find_mark_in};
use am_cells::Cells;
use am_domain::Domain;
use am_ip6::Found;
use std::alloc::{AllocError, Global};

/// Why the records of a batch have no cells.
#[derive(Clone, Copy, Debug, PartialEq, Eq)]
pub enum CountError {
    /// The headers of the record of this number are cut: bytes that may hold a mark were not captured.
    HeadersCut { number: u64 },
    /// There was not enough memory.
    Memory,
}

/// The cells of a node over the marked records of a batch: for each flow and each reported block how many there are,
/// and the sums of their offsets (RFC 9341, sections 3.1 and 3.2). The number of workers changes nothing of them.
///
/// `HeadersCut`: nobody knows whether the record of this number is marked; it is the first such record.
pub fn count_parallel<G: Gate>(
    alloc: Global,
    domain: &Domain,
    node: u32,
    batch: &Batch,
    workers: u32,
    _gate: &G,
) -> Result<Cells, CountError>
    requires node { node < length domain.now.nodes }
    requires some_worker { 1 ≤ workers }
    requires few_workers { workers ≤ 64 }
    ensures counted { IfOk result (λ cells. CellsOf domain.now node batch.now cells) }
    ensures refused { IfErr result (λ e. WhyNotCounted domain.now batch.now e) }
{
    let Ok(mut cells) = no_cells(alloc, domain) else {
        return Err(CountError::Memory);
    };
    match count_batch(domain, node, batch, &mut cells) {
        Ok(()) => Ok(cells),
        Err(number) => Err(CountError::HeadersCut { number }),
    }
}

// The cells of a domain, in which nothing is counted.
pub(crate) fn no_cells(alloc: Global, domain: &Domain) -> Result<Cells, AllocError>
    ensures table { IfOk result (λ t. HasDomainShape domain.now t) }
    ensures none { IfOk result (λ t. (node : ℕ) → AreMetered domain.now node [] t) }
    ensures total { IfOk result (λ t. total_of t ≡ 0) }
{
    Cells::new(
        alloc,
        domain.flows().len() as u32,
        domain.first(),
        domain.end(),
    )
}

// Counts the marked records of a batch at a node, beside what was counted before. Err: the number of the first record
// whose headers are cut.
pub(crate) fn count_batch(
    domain: &Domain,
    node: u32,
    batch: &Batch,
    cells: &mut Cells,
) -> Result<(), u64>
    requires node { node < length domain.now.nodes }
    requires table { HasDomainShape domain.now cells.old }
    requires room { total_of cells.old + 2 ^ 16 ≤ MAX_COUNT }
    ensures counted { OnOk result ((ms : List Marked) × HaveMarks domain.now.kind batch.now ms
        × (length ms ≤ length batch.now) × CountsMore domain.now node cells.old cells.new ms) }
    ensures cut { IfErr result (λ number.
        (ms : List Marked) × CutsFirst domain.now.kind batch.now number ms) }
{
    let shift = domain.shift(node);
    let mut likely = domain.first();
    for at in 0..batch.len() {
        let record = batch.at(at);
        if !count_record(domain, node, shift, record, &mut likely, cells) {
            return Err(record.number);
        }
    }
    Ok(())
}

// Counts a record of a batch at a node of this shift, where it is marked. False: its headers are cut.
fn count_record(
    domain: &Domain,
    node: u32,
    shift: u64,
    record: Lent<'_>,
    likely: &mut u64,
    cells: &mut Cells,
) -> bool
    requires node { node < length domain.now.nodes }
    requires shift { shift ≡ node_shift domain.now node }
    requires table { HasDomainShape domain.now cells.old }
    requires room { total_of cells.old + 1 ≤ MAX_COUNT }
    ensures { CountsRecord domain.now node (lent_shown record.entry) cells.old cells.new result }
{
    match find_mark_in(record.link, record.bytes, record.whole, domain.place()) {
        Found::Marked { mark, .. } => {
            let marked = Marked {
                number: record.number,
                reading: record.reading,
                mark,
            };
            count_marked(domain, node, shift, &marked, likely, cells);
            true
        }
        Found::Unmarked => true,
        Found::Cut => false,
    }
}

// Counts a marked record at a node of this shift, where it is of a flow and belongs to a reported block.
fn count_marked(
    domain: &Domain,
    node: u32,
    shift: u64,
    marked: &Marked,
    likely: &mut u64,
    cells: &mut Cells,
)
    requires node { node < length domain.now.nodes }
    requires shift { shift ≡ node_shift domain.now node }
    requires table { HasDomainShape domain.now cells.old }
    requires room { total_of cells.old + 1 ≤ MAX_COUNT }
    ensures { CountsMore domain.now node cells.old cells.new (marked.now ∷ []) }
{
    let Some((flow, block)) = cell_for(domain, node, shift, marked, *likely) else {
        return;
    };
    *likely = block;
    let offset = offset_of(domain, node, shift, marked, flow, block);
    cells.add(flow, block, marked.mark.delay(), offset);
}

// The flow and the reported block that a marked record counts in at a node of this shift. None where there are none.
// The likely block is tried first.
fn cell_for(
    domain: &Domain,
    node: u32,
    shift: u64,
    marked: &Marked,
    likely: u64,
) -> Option<(u32, u64)>
    requires node { node < length domain.now.nodes }
    requires shift { shift ≡ node_shift domain.now node }
    ensures counts { IfSome result (λ c. CountsAt domain.now node marked.now c.0 c.1) }
    ensures only { (flow block : ℕ) → CountsAt domain.now node marked.now flow block
        → result ≡ Some (flow, block) }
{
    let Some(flow) = domain.flow_of_id(marked.mark.flow()) else {
        return None;
    };
    let colour = marked.mark.loss();
    let Some(block) = domain
        .timing()
        .attribute_near(likely, marked.reading, colour, shift)
    else {
        return None;
    };
    if block < domain.first() {
        return None;
    }
    if block >= domain.end() {
        return None;
    }
    Some((flow, block))
}

// The offset of a record in the block that it counts in.
fn offset_of(domain: &Domain, node: u32, shift: u64, marked: &Marked, flow: u32, block: u64) -> u64
    requires node { node < length domain.now.nodes }
    requires shift { shift ≡ node_shift domain.now node }
    requires counts { CountsAt domain.now node marked.now flow block }
    ensures value { result ≡ offset_in domain.now.times block marked.now }
    ensures short { result < OFFSET_END }
{
    let length = domain.timing().block();
    marked.reading - (block * length).saturating_sub(length / 2)
}
