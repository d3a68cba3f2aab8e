//! The numbers of the headers that marks stand in, and the headers of a packet that have one of them.

ghost use Rattle.std.specs.Prelude.{◌≡◌, ◌≤◌, length, IfSome};
ghost use Rattle.am_ip6.specs.Fixed.{payload_of};
ghost use Rattle.am_ip6.specs.Shown.{lent};
ghost use Rattle.am_insert.specs.Changes.{kind_of};
ghost use Rattle.am_insert.specs.Parts.{FindsFirst, Bounds};

use am_ip6::{Header, Place, Walk, walk_law};

// Hop-by-Hop Options (RFC 8200, section 4.3).
pub(crate) const HOP_BY_HOP: u8 = 0;

// Destination Options (RFC 8200, section 4.6).
const DESTINATION: u8 = 60;

// The number of the headers that marks are looked for in.
pub(crate) fn number_of(place: Place) -> u8
    ensures { result ≡ kind_of place }
{
    match place {
        Place::HopByHop => HOP_BY_HOP,
        Place::Destination => DESTINATION,
    }
}

// The payload length (RFC 8200, section 3).
pub(crate) fn payload(bytes: &[u8]) -> u16
    requires { 40 ≤ length bytes.now }
    ensures { result ≡ payload_of bytes.now }
{
    u16::from(bytes[4]) * 256 + u16::from(bytes[5])
}

// The first header of the kind that marks are looked for in, if the packet has one.
pub(crate) fn first_header(bytes: &[u8], whole: bool, place: Place) -> Option<Header<'_>>
    ensures first { FindsFirst bytes.now place result }
    ensures stands { IfSome result (λ h. Bounds bytes.now (lent h)) }
{
    walk_law();
    let kind = number_of(place);
    for header in Walk::over(bytes, whole) {
        if header.kind == kind {
            return Some(header);
        }
    }
    None
}
