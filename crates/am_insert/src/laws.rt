//! What holds of packets and their marks: laws, each the contract of a function that does nothing.

ghost use Rattle.std.specs.Prelude.{◌≡◌, ℕ, List, Bool};
ghost use Rattle.am_opts.specs.Marking.{Marking};
ghost use Rattle.am_ip6.specs.declared.marks.Place.{Place};
ghost use Rattle.am_ip6.specs.Fixed.{IsFixed};
ghost use Rattle.am_insert.specs.Changes.{IsBytes};
ghost use Rattle.am_insert.specs.Inserting.{IsOpen, IsUnmarked, Inserted, KeepsAddresses};
ghost use Rattle.am_insert.specs.Stripping.{Stripped};

use am_ip6::walk_law;
use am_opts::{longest_front_law, mark_law};

/// A mark that was put into a packet comes out again, and leaves the packet as it was: where the headers of the packet
/// end at a number, and none of the kind has a mark.
pub fn insert_law()
    ensures { (packet : List ℕ) (whole : Bool) (mark : Marking) (place : Place) (marked : List ℕ)
        → IsBytes packet → IsUnmarked packet whole place → Inserted packet mark place marked
        → Stripped marked mark place packet }
{
    walk_law();
}

/// Where nothing hinders that a mark is put in, the headers of the packet end at a number, and none of the kind has a mark.
pub fn open_law()
    ensures { (packet : List ℕ) (whole : Bool) (place : Place)
        → IsOpen packet whole place → IsUnmarked packet whole place }
{
    walk_law();
}

/// A packet keeps its addresses where a mark is put in.
pub fn address_law()
    ensures { (packet : List ℕ) (mark : Marking) (place : Place) (marked : List ℕ)
        → IsFixed packet → Inserted packet mark place marked → KeepsAddresses packet marked }
{}

/// A packet is stripped of one mark at most, and in one way.
pub fn strip_law()
    ensures { (packet : List ℕ) (place : Place) (m n : Marking) (a b : List ℕ)
        → Stripped packet m place a → Stripped packet n place b → (m ≡ n) × (a ≡ b) }
{
    walk_law();
    longest_front_law();
    mark_law();
}
