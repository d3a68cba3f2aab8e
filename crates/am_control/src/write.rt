//! The loss table as text.

ghost use Rattle.std.specs.Prelude.{◌≡◌, ◌+◌, ◌-◌, ◌<◌, ◌≤◌, ◌++◌, ◌*◌, OnOk, OnErr, IfErr, IsTrue, length, flat_map, vec_capacity, codes, decimal};
ghost use Rattle.std.specs.Io.KnownBytes.{append_known};
ghost use Rattle.am_base.specs.Counts.{Rose};
ghost use Rattle.am_base.specs.Sinks.{AppendsFront, HandsIn, BreaksOff, FaultRose};
ghost use Rattle.am_domain.specs.Rules.{Each};
ghost use Rattle.am_domain.specs.Texts.{IsName};
ghost use Rattle.am_control.specs.Controls.{IsScope};
ghost use Rattle.am_control.specs.Plans.{IsPlanOf};
ghost use Rattle.am_control.specs.Rows.{scope_rows, loss_rows};
ghost use Rattle.am_control.specs.Texts.{loss_line, loss_text, line_start, line_rest, scope_text, delay_text};

use crate::closed::Closed;
use crate::passage::Passage;
use crate::row::{LossRow, Scope};
use am_base::{Buffer, Fault, OutError, Sink};
use am_domain::{Domain, Flow};
use am_tail::{MAX_TAIL, Tail};
use std::alloc::Global;

/// The first line of the table: the names of its columns.
const COLUMNS: &str = "scope,flow,block,in,out,lost,delay,din,dout,ddelay\n";

/// How a line ends in which each number behind the block is 0.
const QUIET: &str = ",0,0,0,0,0,0,0\n";

/// Writes the loss table: the names of the columns, and a line for each row.
///
/// `Fault`: the sink failed. After a refusal a front of the table was appended.
pub fn write_loss<O: Sink>(
    alloc: Global,
    domain: &Domain,
    closed: &Closed<'_>,
    out: &mut O,
) -> Result<(), OutError>
    requires { IsPlanOf domain.now closed.now.plan }
    ensures all { OnOk result (O.written out.new
        ≡ append_known (O.written out.old) (loss_text domain.now.flows closed.now)) }
    ensures front { OnErr result (AppendsFront (O.written out.old) (O.written out.new)
        (loss_text domain.now.flows closed.now)) }
    ensures failed { IfErr result (λ e. FaultRose e (O.faults out.old) (O.faults out.new)) }
    ensures faults_stay { O.faults out.old ≤ O.faults out.new }
{
    let Ok(mut buffer) = Buffer::new(alloc) else {
        return Err(OutError::Memory);
    };
    let Ok(mut rows) = Vec::with_capacity(alloc, (closed.end() - closed.first()) as usize) else {
        return Err(OutError::Memory);
    };
    let Ok(mut passages) = Vec::with_capacity(alloc, closed.passages()) else {
        return Err(OutError::Memory);
    };
    let Ok(()) = buffer.write(out, COLUMNS.as_bytes()) else {
        return Err(OutError::Fault);
    };
    let Ok(()) = write_rows(
        domain.flows(),
        closed,
        &mut passages,
        &mut rows,
        &mut buffer,
        out,
    ) else {
        return Err(OutError::Fault);
    };
    match buffer.flush(out) {
        Ok(()) => Ok(()),
        Err(_) => Err(OutError::Fault),
    }
}

// Hands in the lines of all rows: those of each cluster, then of the network. There is room for the passages of a scope
// and for the rows of a flow.
fn write_rows<O: Sink>(
    flows: &[Flow],
    closed: &Closed<'_>,
    passages: &mut Vec<Passage>,
    rows: &mut Vec<LossRow>,
    buffer: &mut Buffer,
    out: &mut O,
) -> Result<(), Fault>
    requires flows { length flows.now ≡ closed.now.plan.flows }
    requires names { Each (λ f. IsName f.name) flows.now }
    requires wide { closed.now.plan.flows * (closed.now.plan.end - closed.now.plan.first)
        ≤ vec_capacity passages.old }
    requires room { closed.now.plan.end - closed.now.plan.first ≤ vec_capacity rows.old }
    ensures all { OnOk result (HandsIn (O.written out.old) buffer.old
        (flat_map (loss_line flows.now) (loss_rows closed.now)) (O.written out.new) buffer.new) }
    ensures front { OnErr result (BreaksOff (O.written out.old) buffer.old
        (flat_map (loss_line flows.now) (loss_rows closed.now)) (O.written out.new)) }
    ensures failed { OnErr result (Rose (O.faults out.old) (O.faults out.new)) }
    ensures faults_stay { O.faults out.old ≤ O.faults out.new }
{
    for cluster in 0..closed.clusters() {
        let Ok(()) = write_scope(
            flows,
            closed,
            Scope::Cluster(cluster),
            passages,
            rows,
            buffer,
            out,
        ) else {
            return Err(Fault);
        };
    }
    write_scope(flows, closed, Scope::Network, passages, rows, buffer, out)
}

// Hands in the lines of a scope's rows: those of each flow. There is room for the passages of a scope and for the rows
// of a flow.
fn write_scope<O: Sink>(
    flows: &[Flow],
    closed: &Closed<'_>,
    scope: Scope,
    passages: &mut Vec<Passage>,
    rows: &mut Vec<LossRow>,
    buffer: &mut Buffer,
    out: &mut O,
) -> Result<(), Fault>
    requires flows { length flows.now ≡ closed.now.plan.flows }
    requires names { Each (λ f. IsName f.name) flows.now }
    requires wide { closed.now.plan.flows * (closed.now.plan.end - closed.now.plan.first)
        ≤ vec_capacity passages.old }
    requires room { closed.now.plan.end - closed.now.plan.first ≤ vec_capacity rows.old }
    requires scope { IsScope closed.now.plan scope }
    ensures all { OnOk result (HandsIn (O.written out.old) buffer.old
        (flat_map (loss_line flows.now) (scope_rows closed.now scope))
        (O.written out.new) buffer.new) }
    ensures front { OnErr result (BreaksOff (O.written out.old) buffer.old
        (flat_map (loss_line flows.now) (scope_rows closed.now scope)) (O.written out.new)) }
    ensures failed { OnErr result (Rose (O.faults out.old) (O.faults out.new)) }
    ensures faults_stay { O.faults out.old ≤ O.faults out.new }
    ensures wide { vec_capacity passages.new ≡ vec_capacity passages.old }
    ensures room { vec_capacity rows.new ≡ vec_capacity rows.old }
{
    closed.put_passages(scope, passages);
    for flow in 0..closed.flows() {
        let mut start = Tail::new();
        put_start(&mut start, flows, scope, flow);
        closed.put_rows(scope, flow, passages.as_slice(), rows);
        let Ok(()) = write_flow(rows.as_slice(), start.text(), buffer, out) else {
            return Err(Fault);
        };
    }
    Ok(())
}

// Hands in the lines of rows, each of which begins like this.
fn write_flow<O: Sink>(
    rows: &[LossRow],
    start: &[u8],
    buffer: &mut Buffer,
    out: &mut O,
) -> Result<(), Fault>
    requires short { length start.now ≤ 64 }
    ensures all { OnOk result (HandsIn (O.written out.old) buffer.old
        (flat_map (λ r. start.now ++ line_rest r) rows.now) (O.written out.new) buffer.new) }
    ensures front { OnErr result (BreaksOff (O.written out.old) buffer.old
        (flat_map (λ r. start.now ++ line_rest r) rows.now) (O.written out.new)) }
    ensures failed { OnErr result (Rose (O.faults out.old) (O.faults out.new)) }
    ensures faults_stay { O.faults out.old ≤ O.faults out.new }
{
    let mut tail = Tail::new();
    for row in rows {
        tail.clear();
        put_rest(&mut tail, row);
        tail.put_all(start);
        let Ok(()) = buffer.write(out, tail.text()) else {
            return Err(Fault);
        };
    }
    Ok(())
}

// Puts what stands in the line of a row behind its scope and flow.
#[inline(always)]
fn put_rest(tail: &mut Tail, row: &LossRow)
    requires { length tail.old + 228 ≤ MAX_TAIL }
    ensures text { tail.new ≡ line_rest row.now ++ tail.old }
    ensures room { length tail.new ≤ length tail.old + 228 }
{
    if !is_quiet(row) {
        return put_columns(tail, row);
    }
    tail.put_all(QUIET.as_bytes());
    tail.put_number(row.block);
}

// Whether each number behind the row's block is 0, as it is of most flows and blocks of a great domain.
#[inline(always)]
fn is_quiet(row: &LossRow) -> bool
    ensures { IsTrue result → line_rest row.now ≡ decimal row.now.block ++ QUIET.now }
{
    if row.entered != 0 || row.left != 0 || row.lost != 0 {
        return false;
    }
    if row.d_entered != 0 || row.d_left != 0 {
        return false;
    }
    if !is_zero(row.delay) {
        return false;
    }
    is_zero(row.d_delay)
}

// Whether the delay is there, and is 0.
#[inline(always)]
fn is_zero(delay: Option<i128>) -> bool
    ensures { IsTrue result → delay_text delay ≡ codes "0" }
{
    match delay {
        Some(delay) => {
            if delay != 0 {
                return false;
            }
            true
        }
        None => false,
    }
}

// The same of a row of any numbers.
fn put_columns(tail: &mut Tail, row: &LossRow)
    requires { length tail.old + 228 ≤ MAX_TAIL }
    ensures text { tail.new ≡ line_rest row.now ++ tail.old }
    ensures room { length tail.new ≤ length tail.old + 228 }
{
    tail.put(b'\n');
    put_delay(tail, row.d_delay);
    tail.put(b',');
    tail.put_number(row.d_left);
    tail.put(b',');
    tail.put_number(row.d_entered);
    tail.put(b',');
    put_delay(tail, row.delay);
    tail.put(b',');
    tail.put_signed(i128::from(row.lost));
    tail.put(b',');
    tail.put_number(row.left);
    tail.put(b',');
    tail.put_number(row.entered);
    tail.put(b',');
    tail.put_number(row.block);
}

// Puts a delay, or a hyphen where there is none.
#[inline(always)]
fn put_delay(tail: &mut Tail, delay: Option<i128>)
    requires { length tail.old + 40 ≤ MAX_TAIL }
    ensures text { tail.new ≡ delay_text delay ++ tail.old }
    ensures room { length tail.new ≤ length tail.old + 40 }
{
    match delay {
        Some(delay) => tail.put_signed(delay),
        None => tail.put(b'-'),
    }
}

// Puts how the lines of a flow in a scope begin.
fn put_start(tail: &mut Tail, flows: &[Flow], scope: Scope, flow: u32)
    requires flow { flow < length flows.now }
    requires names { Each (λ f. IsName f.name) flows.now }
    requires room { length tail.old + 64 ≤ MAX_TAIL }
    ensures text { tail.new ≡ line_start flows.now scope flow ++ tail.old }
    ensures room { length tail.new ≤ length tail.old + 64 }
{
    let name = flows[flow as usize].name();
    tail.put(b',');
    tail.put_all(name.as_bytes());
    tail.put(b',');
    put_scope(tail, scope);
}

// Puts a cluster's number, or the word for the network.
fn put_scope(tail: &mut Tail, scope: Scope)
    requires { length tail.old + 20 ≤ MAX_TAIL }
    ensures text { tail.new ≡ scope_text scope ++ tail.old }
    ensures room { length tail.new ≤ length tail.old + 20 }
{
    match scope {
        Scope::Cluster(k) => tail.put_number(u64::from(k)),
        Scope::Network => tail.put_all(b"network"),
    }
}
