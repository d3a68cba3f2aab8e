//! Packets of few headers, which one look at their first bytes tells: most packets are such.

ghost use Rattle.std.specs.Prelude.{◌≡◌, ◌⊎◌, ℕ, Bool, Option, IfSome, IfNone};
ghost use Rattle.am_opts.specs.Marking.{Marking};
ghost use Rattle.am_ip6.specs.Brief.{IsBrief, WalksBriefly};

use crate::chain::{DESTINATION, HOP_BY_HOP, ROUTING};
use crate::fixed_header::begins_with_fixed;
use crate::marks::lone_mark;
use am_opts::Mark;

/// A packet without extension headers, or with one: a Hop-by-Hop Options header of eight bytes, whose one option is a
/// mark.
#[derive(Clone, Copy, Debug, PartialEq, Eq)]
pub struct Brief {
    /// The mark, which stands at place 42, if there is a header.
    pub mark: Option<Mark>,
    /// The number behind the headers, which isn't walked.
    pub next: u8,
}

impl Brief {
    /// What such a packet is. None exactly where the packet isn't one, and may have more headers, or be cut or malformed.
    pub fn read(bytes: &[u8]) -> Option<Brief>
        ensures only { IfSome result (λ b. IsBrief bytes.now b.mark b.next) }
        ensures none { IfNone result ((mark : Option Marking) (next : ℕ) →
            IsBrief bytes.now mark next → ⊥) }

        // Its headers, its ending and its marks.
        ensures walk { IfSome result (λ b. (whole : Bool)
            → WalksBriefly bytes.now b.mark b.next whole) }
    {
        if !begins_with_fixed(bytes) {
            return None;
        }
        if bytes[6] != HOP_BY_HOP {
            return ended(None, bytes[6]);
        }
        let Some(mark) = lone_mark(bytes) else {
            return None;
        };
        ended(Some(mark), bytes[40])
    }
}

// With this mark, and this number behind it, unless that is walked.
fn ended(mark: Option<Mark>, next: u8) -> Option<Brief>
    ensures only { IfSome result (λ b. (b.mark ≡ mark) × (b.next ≡ next)
        × (next ≡ 43 → ⊥) × (next ≡ 60 → ⊥)) }
    ensures none { IfNone result ((next ≡ 43) ⊎ (next ≡ 60)) }
{
    if next == ROUTING || next == DESTINATION {
        return None;
    }
    Some(Brief { mark, next })
}
