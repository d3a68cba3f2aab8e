//! The AltMark Option: what it says, and the six bytes that spell it (RFC 9343, section 3.1).
//!
//! ```text
//!                                  +-+-+-+-+-+-+-+-+-+-+-+-+-+-+-+-+
//!                                  |  Option Type  |  Opt Data Len |
//!  +-+-+-+-+-+-+-+-+-+-+-+-+-+-+-+-+-+-+-+-+-+-+-+-+-+-+-+-+-+-+-+-+
//!  |              FlowMonID                |L|D|     Reserved      |
//!  +-+-+-+-+-+-+-+-+-+-+-+-+-+-+-+-+-+-+-+-+-+-+-+-+-+-+-+-+-+-+-+-+
//! ```
//!
//! The data is four bytes in network order: 20 bits of FlowMonID, the loss bit, the delay bit, and ten
//! reserved bits, which are zero when written and ignored when read.

ghost use Rattle.std.specs.Prelude.{◌≡◌, ℕ, ◌+◌, ◌^◌, ◌<◌, ◌≤◌, ◌↔◌, List, ◌++◌, length, take, IfSome, Some, None};
ghost use Rattle.am_opts.specs.Marking.{Marking, mark_of, data_of, Spells, IsCanonical};

use std::marker::Model;

// RFC 9343, section 3.1. The two highest bits are 00, so a node that does not know the option skips it, and
// the third is 0, so its data does not change on the way (RFC 8200, section 4.2).
const OPTION_TYPE: u8 = 0x12;

// The length of the data (RFC 9343, section 3.1).
const DATA_LENGTH: u8 = 4;

// Type, length and data.
const OPTION_LENGTH: usize = 6;

// A FlowMonID has 20 bits, and so is below this (RFC 9343, section 3.1).
const FLOW_END: u32 = 1 << 20;

/// What an AltMark Option says (RFC 9343, section 3.1): the FlowMonID, which is below 2^20, the loss bit,
/// which is the packet's colour, and the delay bit.
#[derive(Clone, Copy, Debug, PartialEq, Eq)]
pub struct Mark {
    flow: u32,
    loss: bool,
    delay: bool,
}

impl Model for Mark {
    ghost use Rattle.std.specs.Prelude.{◌<◌, ◌^◌};
    ghost use Rattle.am_opts.specs.Marking.{Marking, mark_of};

    ghost Value = { Marking };

    ghost view = { λ m. mark_of m.flow m.loss m.delay };

    ghost invariant = { λ m. m.flow < 2 ^ 20 };

    ghost inverse = { λ m. record { flow = m.flow; loss = m.loss; delay = m.delay } };
}

impl Mark {
    /// The mark with this FlowMonID and these bits. None exactly where the FlowMonID is 2^20 or more, and
    /// so has no place in 20 bits (RFC 9343, section 3.1).
    pub fn new(flow: u32, loss: bool, delay: bool) -> Option<Mark>
        ensures value { IfSome result (λ m. m ≡ mark_of flow loss delay) }
        ensures fits { flow < 2 ^ 20 → result ≡ Some (mark_of flow loss delay) }
        ensures wide { 2 ^ 20 ≤ flow → result ≡ None }
    {
        if flow >= FLOW_END {
            return None;
        }
        Some(Mark { flow, loss, delay })
    }

    /// The FlowMonID: the flow that the packet is counted in.
    pub fn flow(&self) -> u32
        ensures value { result ≡ self.now.flow }
        ensures fits { result < 2 ^ 20 }
    {
        self.flow
    }

    /// The loss bit, which is the colour of the packet's block (RFC 9343, section 5.1).
    pub fn loss(&self) -> bool
        ensures { result ≡ self.now.loss }
    {
        self.loss
    }

    /// The delay bit, which picks the packet for a measurement of delay (RFC 9343, section 5.2).
    pub fn delay(&self) -> bool
        ensures { result ≡ self.now.delay }
    {
        self.delay
    }
}

/// The six bytes that spell a mark, with reserved bits zero (RFC 9343, section 3.1).
///
/// `decode_mark` of these bytes, whatever follows them, gives the mark.
pub fn encode_mark(mark: Mark) -> [u8; 6]
    ensures canonical { IsCanonical result mark }
    // Of the fronts of these bytes and any that follow, the first six alone spell a mark, and it is this one.
    ensures read_back { (more : List ℕ) (n : ℕ) (other : Marking) → n ≤ length (result ++ more)
        → Spells (take n (result ++ more)) other ↔ (n ≡ 6) × (other ≡ mark) }
{
    let word = mark.flow * 4096 + u32::from(mark.loss) * 2048 + u32::from(mark.delay) * 1024;
    let [x, y, z, w] = word.to_be_bytes();
    [OPTION_TYPE, DATA_LENGTH, x, y, z, w]
}

/// The mark that the bytes begin with, and how many bytes spell it, which is always 6 (RFC 9343, section 3.1).
///
/// None exactly where the bytes begin with no AltMark Option: where there are fewer than six, where the type
/// is not 0x12, or where the length is not 4. The reserved bits may have any value, and so may what follows.
pub fn decode_mark(bytes: &[u8]) -> Option<(Mark, usize)>
    // Whatever prefix spells a mark, the mark is found.
    ensures found { (n : ℕ) (mark : Marking) → n ≤ length bytes.now
        → Spells (take n bytes.now) mark
        → result ≡ Some (mark, 6) }
    ensures only { IfSome result (λ r. (r.1 ≡ 6) × Spells (take 6 bytes.now) r.0) }
{
    let [OPTION_TYPE, DATA_LENGTH, x, y, z, w, ..] = bytes else {
        return None;
    };
    let word = u32::from_be_bytes([*x, *y, *z, *w]);
    Some((mark_in(word), OPTION_LENGTH))
}

// The mark in the option's data: bits 12 to 31 are the FlowMonID, 11 is the loss bit, 10 the delay bit.
fn mark_in(word: u32) -> Mark
    ensures from { data_of result 0 ≤ word }
    ensures until { word < data_of result 0 + 2 ^ 10 }
    ensures fits { result.flow < 2 ^ 20 }
{
    Mark {
        flow: word / 4096,
        loss: word / 2048 % 2 == 1,
        delay: word / 1024 % 2 == 1,
    }
}
