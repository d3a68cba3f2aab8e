//! Lines of a report, put together in memory by the crate `csv`.

ghost use Rattle.std.specs.Prelude.{◌≡◌, ℕ, List, [], ◌++◌, Some, map, IfOk, OnOk};
ghost use Rattle.am_report.specs.Rows.{fields_line};
ghost use Rattle.am_report.specs.Lines.{HasLines};

use csv::{Writer, WriterBuilder};
use std::alloc::{AllocError, Global};

/// A writer of lines that has none yet.
pub(crate) fn no_lines(alloc: Global) -> Writer<Vec<u8>>
    ensures { HasLines (λ v. Some v.items) result [] }
{
    WriterBuilder::new().from_writer(Vec::new(alloc))
}

/// Adds the line of these fields.
pub(crate) fn add_line(lines: &mut Writer<Vec<u8>>, fields: &[&[u8]]) -> Result<(), AllocError>
    ensures { OnOk result ((text : List ℕ) → HasLines (λ v. Some v.items) lines.old text
        → HasLines (λ v. Some v.items) lines.new
        (text ++ fields_line (map (λ f. f.now) fields.now))) }
{
    // a writer over memory fails for want of it alone, and all rows have as many fields
    match lines.write_fields(fields) {
        Ok(()) => Ok(()),
        Err(_) => Err(AllocError),
    }
}

/// The bytes of the lines.
pub(crate) fn bytes_of(lines: Writer<Vec<u8>>) -> Result<Vec<u8>, AllocError>
    ensures { IfOk result (λ bytes. (text : List ℕ)
        → HasLines (λ v. Some v.items) lines text → bytes.items ≡ text) }
{
    match lines.into_inner() {
        Ok(bytes) => Ok(bytes),
        Err(_) => Err(AllocError),
    }
}
