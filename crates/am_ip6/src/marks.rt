//! The mark in a packet's options (RFC 9343, section 4).
//!
//! A mark stands in a Hop-by-Hop Options header, or in a Destination Options header. The first one in
//! headers of the wanted kind counts.

ghost use Rattle.std.specs.Prelude.{◌≡◌, ◌≢◌, ◌≤◌, length, IfSome, IfNone, MatchOption};
ghost use Rattle.am_opts.specs.Marking.{Marking};
ghost use Rattle.am_ip6.specs.Marks.{Seen, HasLoneMark, ShowsMark, MarksHeader, IsPassed};
ghost use Rattle.am_ip6.specs.Shown.{lent, ending_shown};
ghost use Rattle.am_ip6.specs.Seen.{seen_shown, IsUnlessCut, SeenInEach, IsSeen};

use crate::chain::{DESTINATION, Ending, HOP_BY_HOP, Header, start, step};
use crate::fixed_header::{begins_with_fixed, payload};
use crate::laws::{seen_law, walk_law};
use am_opts::{Mark, decode_mark};

// Where a mark stands that is the one option of the first header, and where it ends.
const LONE_MARK_AT: usize = 42;

const LONE_MARK_END: usize = 48;

/// The kind of header that marks stand in.
#[derive(Clone, Copy, Debug, PartialEq, Eq)]
pub enum Place {
    /// The Hop-by-Hop Options header, number 0.
    HopByHop,
    /// The Destination Options headers, number 60.
    Destination,
}

/// What is found of a mark in one kind of header.
#[derive(Clone, Copy, Debug, PartialEq, Eq)]
pub enum Found {
    /// The first mark, and the place of its option's type in the packet.
    Marked { mark: Mark, at: usize },
    /// No mark.
    Unmarked,
    /// Nobody knows, since bytes that may hold one were not captured.
    Cut,
}

/// The first mark in the headers of this kind of a packet, all of whose bytes are there or not.
///
/// An option of type 0x12 and a length other than 4 is no mark.
pub fn find_mark(bytes: &[u8], whole: bool, place: Place) -> Found
    ensures seen { IsSeen bytes.now whole place (seen_shown result) }

    // Whatever the headers and the ending are, they show this.
    ensures each { SeenInEach place bytes.now whole (seen_shown result) }

    // And nothing else is found in the packet.
    ensures only { (seen : Seen) → IsSeen bytes.now whole place seen
        → seen ≡ seen_shown result }
{
    walk_law();
    seen_law();
    match place {
        Place::HopByHop => find_in_hop_by_hop(bytes, whole),
        Place::Destination => find_in_destination(bytes, whole),
    }
}

// The first mark in the Hop-by-Hop Options header, which stands first or nowhere. A look at the first bytes
// is enough for most packets: for those that announce another header, and for those of a lone mark.
fn find_in_hop_by_hop(bytes: &[u8], whole: bool) -> Found
    ensures { SeenInEach Place.HopByHop bytes.now whole (seen_shown result) }
{
    if begins_with_fixed(bytes) {
        if bytes[6] != HOP_BY_HOP {
            return Found::Unmarked;
        }
        if let Some(mark) = lone_mark(bytes) {
            return Found::Marked {
                mark,
                at: LONE_MARK_AT,
            };
        }
    }
    walk_hop_by_hop(bytes, whole)
}

// The mark in a first header of eight bytes that has no other option.
pub(crate) fn lone_mark(bytes: &[u8]) -> Option<Mark>
    requires { 40 ≤ length bytes.now }
    ensures has { IfSome result (λ mark. HasLoneMark bytes.now mark) }
    ensures none { IfNone result ((mark : Marking) → HasLoneMark bytes.now mark → ⊥) }
{
    if bytes.len() < LONE_MARK_END || bytes[41] != 0 || payload(bytes) < 8 {
        return None;
    }
    let Some((mark, _)) = decode_mark(&bytes[LONE_MARK_AT..LONE_MARK_END]) else {
        return None;
    };
    Some(mark)
}

// The first mark in the Hop-by-Hop Options header, by a step of the walk.
#[inline(never)]
fn walk_hop_by_hop(bytes: &[u8], whole: bool) -> Found
    ensures { SeenInEach Place.HopByHop bytes.now whole (seen_shown result) }
{
    let first = match start(bytes, whole) {
        Ok(first) => first,
        Err(ending) => return unmarked(ending),
    };
    if first.kind != HOP_BY_HOP {
        return Found::Unmarked;
    }
    match step(bytes, whole, first) {
        Ok((header, mark, _)) => match of_kind(header, mark, HOP_BY_HOP) {
            Some((mark, at)) => Found::Marked { mark, at },
            None => Found::Unmarked,
        },
        Err(ending) => unmarked(ending),
    }
}

// The first mark in the Destination Options headers.
fn find_in_destination(bytes: &[u8], whole: bool) -> Found
    ensures { SeenInEach Place.Destination bytes.now whole (seen_shown result) }
{
    let mut spot = match start(bytes, whole) {
        Ok(first) => first,
        Err(ending) => return unmarked(ending),
    };
    loop {
        match step(bytes, whole, spot) {
            Ok((header, mark, behind)) => {
                if let Some((mark, at)) = of_kind(header, mark, DESTINATION) {
                    return Found::Marked { mark, at };
                }
                spot = behind;
            }
            Err(ending) => return unmarked(ending),
        }
    }
}

// What is found where the walk ends and no mark came before.
fn unmarked(ending: Ending) -> Found
    ensures { IsUnlessCut (ending_shown ending) (seen_shown result) }
{
    match ending {
        Ending::Cut => Found::Cut,
        _ => Found::Unmarked,
    }
}

// The first mark of a header, if the header is of this kind.
fn of_kind(header: Header, mark: Option<(Mark, usize)>, kind: u8) -> Option<(Mark, usize)>
    requires options { kind ≢ 43 }
    requires shown { ShowsMark (lent header) mark }
    ensures { MatchOption result (IsPassed kind (lent header.entry))
        (λ m. (header.entry.kind ≡ kind) × MarksHeader (lent header.entry) m.0 m.1) }
{
    if header.kind != kind {
        return None;
    }
    mark
}
