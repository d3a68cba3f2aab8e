//! The chain of extension headers, a header at a time (RFC 8200, sections 4.1 to 4.4 and 4.6).
//!
//! Three headers are walked: Hop-by-Hop Options directly behind the fixed header, Routing, and Destination
//! Options. Each begins with Next Header, which announces what follows, and Hdr Ext Len, which counts the
//! header's bytes in units of 8 behind the first 8. Whatever else is announced ends the chain.

ghost use Rattle.std.specs.Prelude.{◌≡◌, ◌+◌, ◌^◌, ◌<◌, ◌≤◌, IfOk, OnOk, IfErr, OnErr, IfSome, MatchOption, take, drop, length};
ghost use Rattle.std.specs.Bool.{MatchBool};
ghost use Rattle.am_ip6.specs.Fixed.{IsFixed, limit_of};
ghost use Rattle.am_ip6.specs.Chains.{IsWalked, FitsAt, Stands, first_spot, spot_behind, header_length};
ghost use Rattle.am_ip6.specs.Endings.{IsOtherVersion, LacksBytes, MayBeCut, EndsAt, EndsEarly};
ghost use Rattle.am_ip6.specs.Marks.{ShowsMark, BreaksAt};
ghost use Rattle.am_ip6.specs.Shown.{lent, spot_shown, ending_shown};

use crate::fixed_header::{FIXED_LENGTH, VERSION, begins_with_fixed, payload};
use crate::options::first_mark;
use am_opts::Mark;

// Hop-by-Hop Options (RFC 8200, section 4.3).
pub(crate) const HOP_BY_HOP: u8 = 0;

// Routing (RFC 8200, section 4.4).
pub(crate) const ROUTING: u8 = 43;

// Destination Options (RFC 8200, section 4.6).
pub(crate) const DESTINATION: u8 = 60;

/// An extension header of a packet.
#[derive(Clone, Copy, Debug, PartialEq, Eq)]
pub struct Header<'a> {
    /// The number that announced it: 0, 43 or 60.
    pub kind: u8,
    /// The place of its first byte in the packet.
    pub at: usize,
    /// Its bytes, Next Header and Hdr Ext Len first.
    pub bytes: &'a [u8],
}

/// How the walk of a packet ends. Places count from the packet's first byte.
#[derive(Clone, Copy, Debug, PartialEq, Eq)]
pub enum Ending {
    /// At a number that isn't walked.
    End {
        /// The number.
        next: u8,
        /// The place of what it announces, directly behind the last header.
        at: usize,
        /// The place of the byte that has the number.
        told_at: usize,
    },
    /// Bytes of the fixed header or of a header were not captured.
    Cut,
    /// What stands at this place can't be.
    Malformed {
        /// The place: 0 for another version, the number of bytes where the fixed header isn't whole, the
        /// header's first byte where it has bytes that aren't there, and else the option that isn't one.
        place: usize,
    },
}

// Where a header may begin: the number that announces it, its place, and the place of that number.
#[derive(Clone, Copy, Debug)]
pub(crate) struct Announced {
    pub(crate) kind: u8,
    pub(crate) at: usize,
    pub(crate) told_at: usize,
}

// What the fixed header announces, or how a packet without one of version 6 ends.
pub(crate) fn start(bytes: &[u8], whole: bool) -> Result<Announced, Ending>
    ensures fixed { OnOk result (IsFixed bytes.now) }
    ensures first { IfOk result (λ s. spot_shown s ≡ first_spot bytes.now) }
    ensures within { IfOk result (λ s. s.at ≤ limit_of bytes.now) }
    ensures other { OnErr result (IsFixed bytes.now → ⊥) }
    ensures early { IfErr result (λ e. EndsEarly bytes.now whole (ending_shown e)) }
{
    if !begins_with_fixed(bytes) {
        return Err(early(bytes, whole));
    }
    Ok(Announced {
        kind: bytes[6],
        at: FIXED_LENGTH,
        told_at: 6,
    })
}

// How a packet without a fixed header of version 6 ends.
fn early(bytes: &[u8], whole: bool) -> Ending
    requires { IsFixed bytes.now → ⊥ }
    ensures { EndsEarly bytes.now whole (ending_shown result) }
{
    if is_other_version(bytes) {
        return Ending::Malformed { place: 0 };
    }
    if whole {
        return Ending::Malformed { place: bytes.len() };
    }
    Ending::Cut
}

// Whether there is a first byte, of another version.
fn is_other_version(bytes: &[u8]) -> bool
    ensures { MatchBool result (IsOtherVersion bytes.now) (IsOtherVersion bytes.now → ⊥) }
{
    bytes.len() > 0 && bytes[0] / 16 != VERSION
}

// The header at this spot, the first mark among its options, and what it announces; or how the walk ends here.
pub(crate) fn step<'a>(
    bytes: &'a [u8],
    whole: bool,
    spot: Announced,
) -> Result<(Header<'a>, Option<(Mark, usize)>, Announced), Ending>
    requires fixed { IsFixed bytes.now }
    requires within { spot.at ≤ limit_of bytes.now }
    ensures stands { IfOk result (λ r. Stands bytes.now (spot_shown spot) (lent r.0)) }
    ensures mark { IfOk result (λ r. ShowsMark (lent r.0) r.1) }
    ensures behind { IfOk result (λ r. spot_shown r.2 ≡ spot_behind bytes.now (lent r.0)) }
    ensures on { IfOk result (λ r. spot.at + 8 ≤ r.2.at) }
    ensures within { IfOk result (λ r. r.2.at ≤ limit_of bytes.now) }
    ensures ends { IfErr result
        (λ e. EndsAt bytes.now whole (spot_shown spot) (ending_shown e)) }
{
    let Announced { kind, at, told_at } = spot;
    if !is_walked(spot) {
        return Err(Ending::End {
            next: kind,
            at,
            told_at,
        });
    }
    let Some(size) = size_at(bytes, at) else {
        return Err(lacking(bytes, whole, spot));
    };
    let header = Header {
        kind,
        at,
        bytes: part(bytes, at, size),
    };
    match mark_in(header) {
        Ok(mark) => Ok((
            header,
            mark,
            Announced {
                kind: bytes[at],
                at: at + size,
                told_at: at,
            },
        )),
        Err(place) => Err(Ending::Malformed { place }),
    }
}

// Whether a header of this number is walked at this place.
fn is_walked(spot: Announced) -> bool
    ensures { MatchBool result (IsWalked (spot_shown spot)) (IsWalked (spot_shown spot) → ⊥) }
{
    if spot.kind == HOP_BY_HOP {
        return spot.at == FIXED_LENGTH;
    }
    spot.kind == ROUTING || spot.kind == DESTINATION
}

// Where headers end at the latest.
fn limit(bytes: &[u8]) -> usize
    requires { 40 ≤ length bytes.now }
    ensures { result ≡ limit_of bytes.now }
{
    bytes.len().min(FIXED_LENGTH + usize::from(payload(bytes)))
}

// How long the header at this place is. None where not all of its bytes stand below the limit.
fn size_at(bytes: &[u8], at: usize) -> Option<usize>
    requires whole { 40 ≤ length bytes.now }
    requires within { at ≤ limit_of bytes.now }
    ensures fits { MatchOption result (FitsAt bytes.now at → ⊥) (λ n. FitsAt bytes.now at) }
    ensures value { IfSome result (λ n. n ≡ header_length bytes.now at) }
{
    let room = limit(bytes) - at;
    if room < 2 {
        return None;
    }
    let size = 8 + 8 * usize::from(bytes[at + 1]);
    if size > room {
        return None;
    }
    Some(size)
}

// How the walk ends at a header that has bytes which aren't there.
fn lacking(bytes: &[u8], whole: bool, spot: Announced) -> Ending
    requires fixed { 40 ≤ length bytes.now }
    requires lacks { LacksBytes bytes.now (spot_shown spot) }
    ensures { EndsAt bytes.now whole (spot_shown spot) (ending_shown result) }
{
    if may_be_cut(bytes, whole) {
        return Ending::Cut;
    }
    Ending::Malformed { place: spot.at }
}

// Whether bytes that the packet says it has were not captured.
fn may_be_cut(bytes: &[u8], whole: bool) -> bool
    requires { 40 ≤ length bytes.now }
    ensures { MatchBool result (MayBeCut bytes.now whole) (MayBeCut bytes.now whole → ⊥) }
{
    !whole && bytes.len() < FIXED_LENGTH + usize::from(payload(bytes))
}

// So many bytes from this place on.
fn part<'a>(bytes: &'a [u8], at: usize, size: usize) -> &'a [u8]
    requires { at + size ≤ length bytes.now }
    ensures value { result.now ≡ take size (drop at bytes.now) }
    ensures size_is { length result.now ≡ size }
{
    let (_, behind) = bytes.split_at(at);
    let (front, _) = behind.split_at(size);
    front
}

// The first mark among a header's options, and its place in the packet; or the place of what isn't an option.
// A Routing header has no options.
fn mark_in(header: Header) -> Result<Option<(Mark, usize)>, usize>
    requires within { header.at + length header.bytes.now < 2 ^ 63 }
    requires least { 2 ≤ length header.bytes.now }
    requires most { length header.bytes.now ≤ 2048 }
    ensures mark { IfOk result (λ found. ShowsMark (lent header.entry) found) }
    ensures bad { IfErr result (λ place. BreaksAt (lent header.entry) place) }
{
    if header.kind == ROUTING {
        return Ok(None);
    }
    let (_, area) = header.bytes.split_at(2);
    match first_mark(area) {
        Ok(Some((mark, at))) => Ok(Some((mark, header.at + 2 + at))),
        Ok(None) => Ok(None),
        Err(fault) => Err(header.at + 2 + fault),
    }
}
