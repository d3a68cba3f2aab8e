//! Laws of option lists and of spellings, which hold for all bytes.
//!
//! A law is a function without a body. A call of it does nothing when the program runs: it is there for a
//! proof, which cites its clause.

ghost use Rattle.std.specs.Prelude.{◌≡◌, ℕ, List};
ghost use Rattle.am_opts.specs.Marking.{Marking, Spells};
ghost use Rattle.am_opts.specs.Laws.{HasOneLongest};

/// Each area has one longest front that is an option list. The options that [`Options`](crate::Options)
/// lends are that front, and it is the whole area exactly where the area is an option list.
pub fn longest_front_law()
    ensures { (area : List ℕ) → HasOneLongest area }
{}

/// Bytes spell one mark at most.
pub fn mark_law()
    ensures { (bytes : List ℕ) (a b : Marking) → Spells bytes a → Spells bytes b → a ≡ b }
{}
