//! What was compared, as text.

ghost use Rattle.std.specs.Prelude.{◌≡◌, ◌≤◌, ◌++◌, OnOk, OnErr, IfOk, IfErr, codes, decimal, string_bytes};
ghost use Rattle.std.specs.Fmt.{signed_decimal};
ghost use Rattle.std.specs.Io.KnownBytes.{append_known};
ghost use Rattle.am_base.specs.Sinks.{AppendsFront, FaultRose};
ghost use Rattle.am_base.specs.declared.sink.OutError.TheVariants.{Memory};
ghost use Rattle.am_control.specs.Texts.{scope_text};
ghost use Rattle.am_sim.specs.Texts.{sim_line, sim_text};

use crate::row::SimRow;
use am_base::{OutError, Sink, put};
use am_control::Scope;
use std::alloc::{AllocError, Global};
use std::fmt::Write;

/// The first line: the names of the columns.
const COLUMNS: &str = "cluster,true,reported,cells,equal\n";

/// Writes what was compared: the names of the columns, and a line for each row.
///
/// `Fault`: the sink failed; a front of the text was appended. After `Memory` nothing was.
pub fn write_simulated<O: Sink>(alloc: Global, rows: &[SimRow], out: &mut O) -> Result<(), OutError>
    ensures all { OnOk result
        (O.written out.new ≡ append_known (O.written out.old) (sim_text rows.now)) }
    ensures front { OnErr result
        (AppendsFront (O.written out.old) (O.written out.new) (sim_text rows.now)) }
    ensures failed { IfErr result (λ e. FaultRose e (O.faults out.old) (O.faults out.new)) }
    ensures memory { IfErr result (λ e.
        e ≡ Memory → O.written out.new ≡ O.written out.old) }
    ensures faults_stay { O.faults out.old ≤ O.faults out.new }
{
    let Ok(text) = text_of(alloc, rows) else {
        return Err(OutError::Memory);
    };
    match put(out, text.as_bytes()) {
        Ok(()) => Ok(()),
        Err(_) => Err(OutError::Fault),
    }
}

// The names of the columns, and the lines.
fn text_of(alloc: Global, rows: &[SimRow]) -> Result<String, AllocError>
    ensures { IfOk result (λ text. string_bytes text ≡ sim_text rows.now) }
{
    let mut text = String::from_str(alloc, COLUMNS)?;
    for row in rows {
        push_row(&mut text, row)?;
    }
    Ok(text)
}

// Adds the line of a row.
fn push_row(text: &mut String, row: &SimRow) -> Result<(), AllocError>
    ensures { OnOk result (string_bytes text.new ≡ string_bytes text.old ++ sim_line row.now) }
{
    push_scope(text, row.scope)?;
    push_number(text, row.dropped)?;
    push_signed(text, row.lost)?;
    push_number(text, u128::from(row.cells))?;
    push_number(text, u128::from(row.equal))?;
    text.push_str("\n")
}

// Adds a number after a comma.
fn push_number(text: &mut String, number: u128) -> Result<(), AllocError>
    ensures { OnOk result
        (string_bytes text.new ≡ string_bytes text.old ++ codes "," ++ decimal number) }
{
    write!(text, ",{number}")
}

// Adds a number that may be negative after a comma.
fn push_signed(text: &mut String, number: i128) -> Result<(), AllocError>
    ensures { OnOk result
        (string_bytes text.new ≡ string_bytes text.old ++ codes "," ++ signed_decimal number) }
{
    write!(text, ",{number}")
}

// Adds a cluster's number, or the word for the network.
fn push_scope(text: &mut String, scope: Scope) -> Result<(), AllocError>
    ensures { OnOk result (string_bytes text.new ≡ string_bytes text.old ++ scope_text scope) }
{
    match scope {
        Scope::Cluster(k) => write!(text, "{k}"),
        Scope::Network => text.push_str("network"),
    }
}
