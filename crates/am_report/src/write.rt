//! Reports that are written.

ghost use Rattle.std.specs.Prelude.{◌≡◌, ℕ, ◌<◌, ◌≤◌, List, ◌++◌, Some, IfOk, OnOk, OnErr, IfErr, flat_map, length};
ghost use Rattle.std.specs.Io.KnownBytes.{append_known};
ghost use Rattle.am_base.specs.Sinks.{AppendsFront, FaultRose};
ghost use Rattle.am_cells.specs.CellTables.{HasShape};
ghost use Rattle.am_domain.specs.Domains.{Reports};
ghost use Rattle.am_report.specs.Rows.{head_line, report_line, row_at, block_rows, report_text};
ghost use Rattle.am_report.specs.Lines.{HasLines};
ghost use Rattle.am_report.specs.Writing.{MemoryKeeps};

use crate::columns::COLUMNS;
use crate::lines::{add_line, bytes_of, no_lines};
use am_base::{OutError, Sink, put};
use am_cells::{Cells, Row};
use am_domain::Domain;
use csv::Writer;
use itoa::Buffer;
use std::alloc::{AllocError, Global};

/// Writes the report of a node with these cells: the names of the columns, and a row for each reported block and flow.
///
/// `Fault`: the sink failed; a front of the report was appended. After `Memory` nothing was.
pub fn write_report<O: Sink>(
    alloc: Global,
    domain: &Domain,
    node: u32,
    cells: &Cells,
    out: &mut O,
) -> Result<(), OutError>
    requires node { node < length domain.now.nodes }
    requires shape { HasShape cells.now (length domain.now.flows) domain.now.first domain.now.end }
    ensures all { OnOk result (O.written out.new
        ≡ append_known (O.written out.old) (report_text domain.now node cells.now)) }
    ensures front { OnErr result (AppendsFront (O.written out.old) (O.written out.new)
        (report_text domain.now node cells.now)) }
    ensures failed { IfErr result (λ e. FaultRose e (O.faults out.old) (O.faults out.new)) }
    ensures memory { IfErr result (λ e. MemoryKeeps e (O.written out.old) (O.written out.new)) }
    ensures faults_stay { O.faults out.old ≤ O.faults out.new }
{
    let Ok(bytes) = report_bytes(alloc, domain, node, cells) else {
        return Err(OutError::Memory);
    };
    append(&bytes, out)
}

/// Writes the first row of a report, the names of the columns.
pub fn write_head<O: Sink>(alloc: Global, out: &mut O) -> Result<(), OutError>
    ensures all { OnOk result (O.written out.new ≡ append_known (O.written out.old) head_line) }
    ensures front { OnErr result
        (AppendsFront (O.written out.old) (O.written out.new) head_line) }
    ensures failed { IfErr result (λ e. FaultRose e (O.faults out.old) (O.faults out.new)) }
    ensures memory { IfErr result (λ e. MemoryKeeps e (O.written out.old) (O.written out.new)) }
    ensures faults_stay { O.faults out.old ≤ O.faults out.new }
{
    let Ok(bytes) = head_bytes(alloc) else {
        return Err(OutError::Memory);
    };
    append(&bytes, out)
}

/// Writes a row of the report of a node.
pub fn write_row<O: Sink>(
    alloc: Global,
    domain: &Domain,
    node: u32,
    row: &Row,
    out: &mut O,
) -> Result<(), OutError>
    requires node { node < length domain.now.nodes }
    requires flow { row.now.flow < length domain.now.flows }
    requires block { Reports domain.now row.now.block }
    ensures all { OnOk result (O.written out.new
        ≡ append_known (O.written out.old)
        (report_line (row_at domain.now node row.now.flow row.now.block row.now.cell))) }
    ensures front { OnErr result (AppendsFront (O.written out.old) (O.written out.new)
        (report_line (row_at domain.now node row.now.flow row.now.block row.now.cell))) }
    ensures failed { IfErr result (λ e. FaultRose e (O.faults out.old) (O.faults out.new)) }
    ensures memory { IfErr result (λ e. MemoryKeeps e (O.written out.old) (O.written out.new)) }
    ensures faults_stay { O.faults out.old ≤ O.faults out.new }
{
    let Ok(bytes) = row_bytes(alloc, domain, node, row) else {
        return Err(OutError::Memory);
    };
    append(&bytes, out)
}

// Appends bytes to a sink.
fn append<O: Sink>(bytes: &[u8], out: &mut O) -> Result<(), OutError>
    ensures all { OnOk result (O.written out.new ≡ append_known (O.written out.old) bytes.now) }
    ensures front { OnErr result
        (AppendsFront (O.written out.old) (O.written out.new) bytes.now) }
    ensures failed { IfErr result (λ e. FaultRose e (O.faults out.old) (O.faults out.new)) }
    ensures memory { IfErr result (λ e. MemoryKeeps e (O.written out.old) (O.written out.new)) }
    ensures faults_stay { O.faults out.old ≤ O.faults out.new }
{
    match put(out, bytes) {
        Ok(()) => Ok(()),
        Err(_) => Err(OutError::Fault),
    }
}

// The text of a report.
fn report_bytes(
    alloc: Global,
    domain: &Domain,
    node: u32,
    cells: &Cells,
) -> Result<Vec<u8>, AllocError>
    requires node { node < length domain.now.nodes }
    requires shape { HasShape cells.now (length domain.now.flows) domain.now.first domain.now.end }
    ensures { IfOk result (λ bytes. bytes.items ≡ report_text domain.now node cells.now) }
{
    let mut lines = no_lines(alloc);
    add_line(&mut lines, &COLUMNS)?;
    for block in domain.first()..domain.end() {
        add_block(&mut lines, domain, node, cells, block)?;
    }
    bytes_of(lines)
}

// Adds the lines of a block.
fn add_block(
    lines: &mut Writer<Vec<u8>>,
    domain: &Domain,
    node: u32,
    cells: &Cells,
    block: u64,
) -> Result<(), AllocError>
    requires node { node < length domain.now.nodes }
    requires shape { HasShape cells.now (length domain.now.flows) domain.now.first domain.now.end }
    requires block { Reports domain.now block }
    ensures { OnOk result ((text : List ℕ) → HasLines (λ v. Some v.items) lines.old text
        → HasLines (λ v. Some v.items) lines.new
        (text ++ flat_map report_line (block_rows domain.now node cells.now block))) }
{
    for flow in 0..domain.flows().len() as u32 {
        let cell = cells.get(flow, block);
        add_row(lines, domain, node, &Row { flow, block, cell })?;
    }
    Ok(())
}

// The text of the first line.
fn head_bytes(alloc: Global) -> Result<Vec<u8>, AllocError>
    ensures { IfOk result (λ bytes. bytes.items ≡ head_line) }
{
    let mut lines = no_lines(alloc);
    add_line(&mut lines, &COLUMNS)?;
    bytes_of(lines)
}

// The text of a row.
fn row_bytes(alloc: Global, domain: &Domain, node: u32, row: &Row) -> Result<Vec<u8>, AllocError>
    requires node { node < length domain.now.nodes }
    requires flow { row.now.flow < length domain.now.flows }
    ensures { IfOk result (λ bytes. bytes.items
        ≡ report_line (row_at domain.now node row.now.flow row.now.block row.now.cell)) }
{
    let mut lines = no_lines(alloc);
    add_row(&mut lines, domain, node, row)?;
    bytes_of(lines)
}

// Adds the line of a row.
fn add_row(
    lines: &mut Writer<Vec<u8>>,
    domain: &Domain,
    node: u32,
    row: &Row,
) -> Result<(), AllocError>
    requires node { node < length domain.now.nodes }
    requires flow { row.now.flow < length domain.now.flows }
    ensures { OnOk result ((text : List ℕ) → HasLines (λ v. Some v.items) lines.old text
        → HasLines (λ v. Some v.items) lines.new
        (text ++ report_line (row_at domain.now node row.now.flow row.now.block row.now.cell))) }
{
    let node = &domain.nodes()[node as usize];
    let flow = &domain.flows()[row.flow as usize];
    let mut block = Buffer::new();
    let mut count = Buffer::new();
    let mut sum = Buffer::new();
    let mut dcount = Buffer::new();
    let mut dsum = Buffer::new();
    let fields: [&[u8]; 8] = [
        b"1",
        node.name().as_bytes(),
        flow.name().as_bytes(),
        block.format(row.block).as_bytes(),
        count.format(row.cell.count).as_bytes(),
        sum.format(row.cell.sum).as_bytes(),
        dcount.format(row.cell.dcount).as_bytes(),
        dsum.format(row.cell.dsum).as_bytes(),
    ];
    add_line(lines, &fields)
}
