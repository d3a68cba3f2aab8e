//! Laws of tables of cells.
//!
//! A law is a function without a body. A call of it does nothing when the program runs: it is there for a proof, which
//! cites its clause.

ghost use Rattle.std.specs.Prelude.{◌≡◌, ℕ, ◌<◌, length};
ghost use Rattle.am_cells.specs.CellTables.{CellTable, IsCellTable, HasCell, HaveOneShape, cell_number, cell_at};

/// A table is its shape and its cells by flow and block: where these are equal, so are the tables. And each of its cells
/// is that of a flow and a block.
pub fn cells_law()
    ensures same { (a b : CellTable) → IsCellTable a → IsCellTable b → HaveOneShape a b
        → ((flow block : ℕ) → HasCell a flow block
        → cell_at b flow block ≡ cell_at a flow block)
        → a ≡ b }
    ensures places { (t : CellTable) (number : ℕ) → IsCellTable t → number < length t.cells
        → (flow : ℕ) × (block : ℕ) × HasCell t flow block
        × (cell_number t flow block ≡ number) }
{}
