//! Laws of packets, which hold for all bytes.
//!
//! A law is a function without a body of its own. A call of it does nothing when the program runs: it is
//! there for a proof, which cites its clause.

ghost use Rattle.std.specs.Prelude.{◌≡◌, ℕ, Bool, List};
ghost use Rattle.am_ip6.specs.declared.marks.Place.{Place};
ghost use Rattle.am_ip6.specs.Laws.{HasOneWalk};
ghost use Rattle.am_ip6.specs.Marks.{Seen};
ghost use Rattle.am_ip6.specs.Seen.{IsSeen};

use am_opts::{longest_front_law, mark_law};

/// The walk of each packet is one: it has headers and an ending after them, and no others.
pub fn walk_law()
    ensures { (packet : List ℕ) (whole : Bool) → HasOneWalk packet whole }
{
    longest_front_law();
}

/// What a packet shows of a mark in one kind of header is one thing: this mark at this place, none, or that
/// it was cut.
pub fn seen_law()
    ensures { (packet : List ℕ) (whole : Bool) (place : Place) (a b : Seen)
        → IsSeen packet whole place a → IsSeen packet whole place b → a ≡ b }
{
    walk_law();
    longest_front_law();
    mark_law();
}
