//! What passed both sides of a scope.

use am_cells::Cell;

/// What came into a scope, and what went out of it, of one flow and block.
#[derive(Clone, Copy)]
pub(crate) struct Passage {
    pub(crate) came: Cell,
    pub(crate) went: Cell,
}
