//! What holds of the marked records of bytes and of batches: laws, each the contract of a function that does nothing.
ghost use Rattle.std.specs.Prelude.{◌≡◌, ℕ, List, Ok, Err};
ghost use Rattle.am_ip6.specs.declared.marks.Place.{Place};
ghost use Rattle.am_meter.specs.Batches.{BatchRecord, HaveMarks, CutsFirst};
ghost use Rattle.am_meter.specs.Marks.{JudgesMarks, MarksRefusal};
ghost use Rattle.am_meter.specs.declared.stream.Marked.{Marked};

use am_ip6::seen_law;
use am_pcap::{beginnings_agree, captures_are_one, frames_are_one};

/// Bytes have one list of marked records, and bytes that have one are not refused.
pub fn marks_are_one()
    ensures one { (place : Place) (bytes : List ℕ) (ms ns : List Marked)
        → JudgesMarks place bytes (Ok ms) → JudgesMarks place bytes (Ok ns) → ms ≡ ns }
    ensures not_refused { (place : Place) (bytes : List ℕ) (ms : List Marked) (e : MarksRefusal)
        → JudgesMarks place bytes (Ok ms) → JudgesMarks place bytes (Err e) → ⊥ }
{
    captures_are_one();
    beginnings_agree();
    frames_are_one();
    seen_law();
}

/// The records of a batch have one list of marked ones, or there is a first whose headers are cut, and it has one
/// number.
pub fn batch_marks_are_one()
    ensures one { (place : Place) (rs : List BatchRecord) (ms ns : List Marked)
        → HaveMarks place rs ms → HaveMarks place rs ns → ms ≡ ns }
    ensures not_cut { (place : Place) (rs : List BatchRecord) (ms ns : List Marked) (number : ℕ)
        → HaveMarks place rs ms → CutsFirst place rs number ns → ⊥ }
    ensures first { (place : Place) (rs : List BatchRecord) (m n : ℕ) (ms ns : List Marked)
        → CutsFirst place rs m ms → CutsFirst place rs n ns → m ≡ n }
{
    frames_are_one();
    seen_law();
}
