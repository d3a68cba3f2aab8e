//! A row of a report, read from its fields.

ghost use Rattle.std.specs.Prelude.{◌≡◌, ◌≢◌, ℕ, ◌^◌, ◌<◌, IfSome, IfNone, Some};
ghost use Rattle.std.specs.Bool.{OnTrue, OnFalse};
ghost use Rattle.csv.specs.Records.{fields_of, field_at};
ghost use Rattle.am_cells.specs.declared.cell.Cell.{Cell as CellValue};
ghost use Rattle.am_report.specs.Rows.{RowValue, SpellsRow};
ghost use Rattle.am_report.specs.RowParts.{row_said, IsNumberField, IsCellThere};

use am_base::decimal;
use am_cells::Cell;
use csv::ByteRecord;

/// What the fields of a row say.
#[derive(Clone, Copy)]
pub(crate) struct RowText<'a> {
    pub node: &'a [u8],
    pub flow: &'a [u8],
    pub block: u64,
    pub cell: Cell,
}

// How many fields a row has.
const FIELDS: usize = 8;

/// The row that has these fields. None where no row has them: where they aren't eight, the version isn't 1, a number is
/// none, the block hasn't 64 bits, or the cell isn't lawful.
pub(crate) fn read_row(fields: &ByteRecord) -> Option<RowText<'_>>
    ensures found { IfSome result (λ r. SpellsRow (fields_of fields.now) (row_said r)) }
    ensures none { IfNone result ((r : RowValue) → SpellsRow (fields_of fields.now) r → ⊥) }
{
    if fields.len() != FIELDS {
        return None;
    }
    if !has_field(fields, 0, b"1") {
        return None;
    }
    let Some(node) = fields.get(1) else {
        return None;
    };
    let Some(flow) = fields.get(2) else {
        return None;
    };
    let Some(block) = word_at(fields, 3) else {
        return None;
    };
    let Some(cell) = cell_in(fields) else {
        return None;
    };
    Some(RowText {
        node,
        flow,
        block,
        cell,
    })
}

// The cell in the last four fields, where it is lawful.
fn cell_in(fields: &ByteRecord) -> Option<Cell>
    ensures found { IfSome result (λ c. IsCellThere (fields_of fields.now) c) }
    ensures none { IfNone result ((c : CellValue) → IsCellThere (fields_of fields.now) c → ⊥) }
{
    let Some(count) = word_at(fields, 4) else {
        return None;
    };
    let Some(sum) = number_at(fields, 5) else {
        return None;
    };
    let Some(dcount) = word_at(fields, 6) else {
        return None;
    };
    let Some(dsum) = number_at(fields, 7) else {
        return None;
    };
    let cell = Cell {
        count,
        dcount,
        sum,
        dsum,
    };
    if !cell.is_lawful() {
        return None;
    }
    Some(cell)
}

// The number in the field at this place, where it has 64 bits.
fn word_at(fields: &ByteRecord, place: usize) -> Option<u64>
    ensures found { IfSome result (λ n. IsNumberField (fields_of fields.now) place n) }
    ensures none { IfNone result
        ((n : ℕ) → n < 2 ^ 64 → IsNumberField (fields_of fields.now) place n → ⊥) }
{
    let Some(number) = number_at(fields, place) else {
        return None;
    };
    if number > u128::from(u64::MAX) {
        return None;
    }
    Some(number as u64)
}

// The number in the field at this place.
fn number_at(fields: &ByteRecord, place: usize) -> Option<u128>
    ensures found { IfSome result (λ n. IsNumberField (fields_of fields.now) place n) }
    ensures none { IfNone result
        ((n : ℕ) → n < 2 ^ 128 → IsNumberField (fields_of fields.now) place n → ⊥) }
{
    let Some(text) = fields.get(place) else {
        return None;
    };
    let Some(number) = decimal(text) else {
        return None;
    };
    Some(number)
}

/// Whether the field at this place is this text.
pub(crate) fn has_field(fields: &ByteRecord, place: usize, text: &[u8]) -> bool
    ensures yes { OnTrue result (field_at (fields_of fields.now) place ≡ Some text.now) }
    ensures no { OnFalse result (field_at (fields_of fields.now) place ≢ Some text.now) }
{
    match fields.get(place) {
        Some(field) => field == text,
        None => false,
    }
}
