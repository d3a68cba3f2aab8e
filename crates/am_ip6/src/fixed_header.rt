//! The fixed header of an IPv6 packet (RFC 8200, section 3).
//!
//! ```text
//!  0                   1                   2                   3
//!  0 1 2 3 4 5 6 7 8 9 0 1 2 3 4 5 6 7 8 9 0 1 2 3 4 5 6 7 8 9 0 1
//!  +-+-+-+-+-+-+-+-+-+-+-+-+-+-+-+-+-+-+-+-+-+-+-+-+-+-+-+-+-+-+-+-+
//!  |Version| Traffic Class |           Flow Label                  |
//!  +-+-+-+-+-+-+-+-+-+-+-+-+-+-+-+-+-+-+-+-+-+-+-+-+-+-+-+-+-+-+-+-+
//!  |         Payload Length        |  Next Header  |   Hop Limit   |
//!  +-+-+-+-+-+-+-+-+-+-+-+-+-+-+-+-+-+-+-+-+-+-+-+-+-+-+-+-+-+-+-+-+
//!  |                    Source Address, 16 bytes                   |
//!  +-+-+-+-+-+-+-+-+-+-+-+-+-+-+-+-+-+-+-+-+-+-+-+-+-+-+-+-+-+-+-+-+
//!  |                 Destination Address, 16 bytes                 |
//!  +-+-+-+-+-+-+-+-+-+-+-+-+-+-+-+-+-+-+-+-+-+-+-+-+-+-+-+-+-+-+-+-+
//! ```
//!
//! Numbers are in network order.

ghost use Rattle.std.specs.Prelude.{◌≡◌, ◌+◌, ◌*◌, ◌/◌, ◌%◌, ◌≤◌, ◌↔◌, IsTrue, IsSome, IfSome, OnSome, take, drop, length, slice_index};
ghost use Rattle.std.specs.Bool.{MatchBool};
ghost use Rattle.am_ip6.specs.Fixed.{IsFixed, parts_of};
ghost use Rattle.am_ip6.specs.FixedShown.{parts_shown};

// The bytes of the fixed header.
pub(crate) const FIXED_LENGTH: usize = 40;

// The version of IPv6 packets, in the upper four bits of the first byte.
pub(crate) const VERSION: u8 = 6;

/// The fixed header of an IPv6 packet (RFC 8200, section 3).
#[derive(Clone, Copy, Debug, PartialEq, Eq)]
pub struct Fixed {
    /// Traffic Class.
    pub class: u8,
    /// Flow Label: 20 bits.
    pub flow_label: u32,
    /// Payload Length: how many bytes follow the fixed header.
    pub payload: u16,
    /// Next Header: what follows the fixed header.
    pub next: u8,
    /// Hop Limit.
    pub hops: u8,
    /// Source Address.
    pub source: [u8; 16],
    /// Destination Address.
    pub destination: [u8; 16],
}

impl Fixed {
    /// The fixed header that the bytes begin with. None exactly where there are fewer than 40 bytes, or
    /// where the version isn't 6.
    pub fn read(bytes: &[u8]) -> Option<Fixed>
        ensures parts { IfSome result (λ f. parts_shown f ≡ parts_of bytes.now) }
        ensures only { OnSome result (IsFixed bytes.now) }
        ensures found { IsFixed bytes.now → IsSome result }
    {
        if !begins_with_fixed(bytes) {
            return None;
        }
        Some(Fixed {
            class: bytes[0] % 16 * 16 + bytes[1] / 16,
            flow_label: flow_label(bytes),
            payload: payload(bytes),
            next: bytes[6],
            hops: bytes[7],
            source: address(bytes, 8),
            destination: address(bytes, 24),
        })
    }
}

// Whether the bytes begin with a fixed header of version 6.
pub(crate) fn begins_with_fixed(bytes: &[u8]) -> bool
    ensures { MatchBool result (IsFixed bytes.now) (IsFixed bytes.now → ⊥) }
{
    bytes.len() >= FIXED_LENGTH && bytes[0] / 16 == VERSION
}

// The lower half of the second byte, and two more.
fn flow_label(bytes: &[u8]) -> u32
    requires { 40 ≤ length bytes.now }
    ensures { result ≡ (parts_of bytes.now).flow_label }
{
    u32::from(bytes[1] % 16) * 65536 + u32::from(bytes[2]) * 256 + u32::from(bytes[3])
}

// How many bytes follow the fixed header, as it says.
pub(crate) fn payload(bytes: &[u8]) -> u16
    requires { 40 ≤ length bytes.now }
    ensures { result ≡ (parts_of bytes.now).payload }
{
    u16::from(bytes[4]) * 256 + u16::from(bytes[5])
}

// The address at this place.
fn address(bytes: &[u8], at: usize) -> [u8; 16]
    requires { at + 16 ≤ length bytes.now }
    ensures { result ≡ take 16 (drop at bytes.now) }
{
    let (_, behind) = bytes.split_at(at);
    match behind.first_chunk::<16>() {
        Some(address) => *address,
        None => unreachable!(),
    }
}
