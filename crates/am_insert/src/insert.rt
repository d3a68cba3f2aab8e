//! How a mark goes into a packet (RFC 9343, section 4).
//!
//! Where the packet has a header of options of the wanted kind, the first one gets eight bytes longer: an empty PadN,
//! which keeps the mark at an offset of 4n+2, and the mark. Where it has none, a new header of eight bytes holds the mark
//! alone: a Hop-by-Hop Options header directly behind the fixed header, a Destination Options header behind all headers
//! that are walked.

ghost use Rattle.std.specs.Prelude.{◌≡◌, ◌≢◌, ◌<◌, ◌≤◌, ◌+◌, ℕ, List, Bool, length, slice_index, IfOk, IfErr, OnOk, IfSome, IsSomeAnd, MatchOption, IsOk, None, Err};
ghost use Rattle.std.specs.Bool.{MatchBool};
ghost use Rattle.am_ip6.specs.Fixed.{payload_of};
ghost use Rattle.am_ip6.specs.Chains.{Lent, HasHeaders};
ghost use Rattle.am_ip6.specs.Endings.Ended.{AtNumber};
ghost use Rattle.am_ip6.specs.Marks.Seen.{NoMark};
ghost use Rattle.am_ip6.specs.Seen.{IsSeen};
ghost use Rattle.am_ip6.specs.Brief.{IsBrief, WalksBriefly};
ghost use Rattle.am_ip6.specs.Shown.{lent};
ghost use Rattle.am_insert.specs.Changes.{IsBytes, kind_of, spot_of_new};
ghost use Rattle.am_insert.specs.Inserting.{Inserted, PutsHeader, Lengthens, WalkEnds, IsNoPacket, IsUnmarked, IsMarkedAt, HindersFirst, IsOpen};
ghost use Rattle.am_insert.specs.Edits.{edited, IsEditOf};
ghost use Rattle.am_insert.specs.Parts.{FollowsHeaders, Bounds, IsEight, IsNewSpot, HasRoom, HindersEach};

use crate::edit::Edit;
use crate::shape::{first_header, number_of, payload};
use am_ip6::{Brief, Ending, Found, Header, Place, find_mark, seen_law, walk_ending, walk_law};
use am_opts::{Mark, encode_mark};

// The fixed header (RFC 8200, section 3).
const FIXED_LENGTH: usize = 40;

const VERSION: u8 = 6;

// The type of a PadN (RFC 8200, section 4.2).
const PADN: u8 = 1;

// The Authentication Header, which protects the headers before it (RFC 4302, section 3.3.3.1).
const AUTHENTICATION: u8 = 51;

// The greatest Hdr Ext Len: a header of 2,048 bytes can't get longer.
const MAX_EXTENSION: u8 = 255;

// The greatest payload length that leaves room for eight bytes in its 16 bits.
const MAX_PAYLOAD: u16 = 65_527;

/// Why no mark goes into a packet. Where more than one holds, the first of them is answered.
#[derive(Clone, Copy, Debug, PartialEq, Eq)]
pub enum InsertError {
    /// The bytes are no packet of version 6, or fewer than the fixed header has where all of them are there.
    NotIp6,
    /// What stands at this place of the packet can't be.
    Malformed { place: usize },
    /// Bytes of the headers were not captured.
    Cut,
    /// The packet has a mark in this kind of header, whose option begins at this place.
    AlreadyMarked { place: usize },
    /// The headers are followed by an Authentication Header, which protects them from changes.
    Protected,
    /// The header that would get longer has the greatest length that a header can have.
    HeaderFull,
    /// The payload length would be above 65,535.
    PacketFull,
}

// What is announced: its number, its place, and the place of the byte that has the number.
#[derive(Clone, Copy)]
struct Announced {
    next: u8,
    at: usize,
    told_at: usize,
}

// The room that a packet has for a mark: the first header of the kind, if it has one, what follows its headers, and its
// payload length with eight bytes more.
#[derive(Clone, Copy)]
struct Room<'a> {
    first: Option<Header<'a>>,
    end: Announced,
    payload: u16,
}

/// How this mark goes into a packet in this kind of header, where all bytes of the packet are there or not.
pub fn plan_insert(bytes: &[u8], whole: bool, mark: Mark, place: Place) -> Result<Edit, InsertError>
    ensures inserted { IfOk result (λ e. Inserted bytes.now mark place (edited e bytes.now)) }
    ensures edit { IfOk result (λ e. IsEditOf e bytes.now) }

    // It is refused exactly where something hinders it, by what comes first of that.
    ensures refused { IfErr result (λ e. HindersFirst bytes.now whole place e) }
    ensures each { (e : InsertError) → HindersFirst bytes.now whole place e → result ≡ Err e }
    ensures open { OnOk result (IsOpen bytes.now whole place) }
    ensures accepted { IsOpen bytes.now whole place → IsOk result }

    // With these `insert_law` says that the mark comes out again.
    ensures bytes { IsBytes bytes.now }
    ensures unmarked { OnOk result (IsUnmarked bytes.now whole place) }
{
    walk_law();
    seen_law();
    // a match, so that the proof knows which error is passed on
    match room_in(bytes, whole, place) {
        Ok(room) => Ok(edit_for(bytes, place, room, mark)),
        Err(error) => Err(error),
    }
}

// The mark where there is room for it.
fn edit_for(bytes: &[u8], place: Place, room: Room, mark: Mark) -> Edit
    requires { HasRoom bytes.now place room }
    ensures inserted { Inserted bytes.now mark place (edited result bytes.now) }
    ensures edit { IsEditOf result bytes.now }
{
    walk_law();
    match room.first {
        Some(header) => lengthen(bytes, header, room.payload, mark),
        None => put_header(
            bytes,
            place,
            spot_of(bytes, place, room.end),
            room.payload,
            mark,
        ),
    }
}

// The room that a packet has for a mark, or what hinders first that one is put in. Most packets have no header, which one
// look tells.
fn room_in(bytes: &[u8], whole: bool, place: Place) -> Result<Room<'_>, InsertError>
    ensures room { IfOk result (λ r. HasRoom bytes.now place r) }
    ensures open { OnOk result (IsOpen bytes.now whole place) }
    ensures unmarked { OnOk result (IsUnmarked bytes.now whole place) }
    ensures refused { IfErr result (λ e. HindersFirst bytes.now whole place e) }
{
    let Some(brief) = Brief::read(bytes) else {
        return room_by_walk(bytes, whole, place);
    };
    match brief.mark {
        None => room_behind_fixed(bytes, brief.next),
        Some(_) => room_by_walk(bytes, whole, place),
    }
}

// The same of a packet without headers, behind whose fixed header this number's bytes stand. It is the same for each kind
// of header.
fn room_behind_fixed(bytes: &[u8], next: u8) -> Result<Room<'_>, InsertError>
    requires bare { IsBrief bytes.now None next }
    requires walk { (whole : Bool) → WalksBriefly bytes.now None next whole }
    ensures room { IfOk result (λ r. (place : Place) → HasRoom bytes.now place r) }
    ensures open { OnOk result ((whole : Bool) (place : Place) → IsOpen bytes.now whole place) }
    ensures unmarked { OnOk result ((whole : Bool) (place : Place)
        → IsUnmarked bytes.now whole place) }
    ensures refused { IfErr result (λ e. (whole : Bool) (place : Place)
        → HindersFirst bytes.now whole place e) }
{
    walk_law();
    seen_law();
    if next == AUTHENTICATION {
        return Err(InsertError::Protected);
    }
    let Some(payload) = raised_payload(bytes) else {
        return Err(InsertError::PacketFull);
    };
    let end = Announced {
        next,
        at: FIXED_LENGTH,
        told_at: 6,
    };
    Ok(Room {
        first: None,
        end,
        payload,
    })
}

// The same, by walks of the headers.
#[inline(never)]
fn room_by_walk(bytes: &[u8], whole: bool, place: Place) -> Result<Room<'_>, InsertError>
    ensures room { IfOk result (λ r. HasRoom bytes.now place r) }
    ensures open { OnOk result (IsOpen bytes.now whole place) }
    ensures unmarked { OnOk result (IsUnmarked bytes.now whole place) }
    ensures refused { IfErr result (λ e. HindersFirst bytes.now whole place e) }
{
    walk_law();
    seen_law();
    if is_no_packet(bytes, whole) {
        return Err(InsertError::NotIp6);
    }
    let end = match announced_end(bytes, whole) {
        Ok(end) => end,
        Err(error) => return Err(error),
    };
    if let Some(at) = marked_at(bytes, whole, place, end) {
        return Err(InsertError::AlreadyMarked { place: at });
    }
    if end.next == AUTHENTICATION {
        return Err(InsertError::Protected);
    }
    let first = first_header(bytes, whole, place);
    if is_full(bytes, first) {
        return Err(InsertError::HeaderFull);
    }
    let Some(payload) = raised_payload(bytes) else {
        return Err(InsertError::PacketFull);
    };
    Ok(Room {
        first,
        end,
        payload,
    })
}

// Whether the bytes are no packet of version 6.
fn is_no_packet(bytes: &[u8], whole: bool) -> bool
    ensures { MatchBool result (IsNoPacket bytes.now whole) (IsNoPacket bytes.now whole → ⊥) }
{
    if bytes.len() > 0 && bytes[0] / 16 != VERSION {
        return true;
    }
    whole && bytes.len() < FIXED_LENGTH
}

// What follows the headers of a packet, or how its walk ends elsewhere.
fn announced_end(bytes: &[u8], whole: bool) -> Result<Announced, InsertError>
    requires { IsNoPacket bytes.now whole → ⊥ }
    ensures ends { IfOk result
        (λ s. WalkEnds bytes.now whole (AtNumber s.next s.at s.told_at)) }
    ensures follows { IfOk result (λ s. FollowsHeaders bytes.now s) }
    ensures hinders { IfErr result (λ e. HindersEach bytes.now whole e) }
{
    walk_law();
    match walk_ending(bytes, whole) {
        Ending::End { next, at, told_at } => Ok(Announced { next, at, told_at }),
        Ending::Cut => Err(InsertError::Cut),
        Ending::Malformed { place } => Err(InsertError::Malformed { place }),
    }
}

// The place of the first mark in this kind of header of a packet whose headers end at a number.
fn marked_at(bytes: &[u8], whole: bool, place: Place, end: Announced) -> Option<usize>
    requires { WalkEnds bytes.now whole (AtNumber end.next end.at end.told_at) }
    ensures { MatchOption result (IsSeen bytes.now whole place NoMark)
        (λ at. IsMarkedAt bytes.now whole place at) }
{
    walk_law();
    match find_mark(bytes, whole, place) {
        Found::Marked { at, .. } => Some(at),
        Found::Unmarked => None,
        Found::Cut => None,
    }
}

// Whether the header that would get longer has the greatest length.
fn is_full(bytes: &[u8], first: Option<Header>) -> bool
    requires { IfSome first (λ h. Bounds bytes.now (lent h)) }
    ensures { MatchBool result
        (IsSomeAnd first.entry (λ h. slice_index bytes.now (h.at + 1) ≡ 255))
        (IfSome first.entry (λ h. slice_index bytes.now (h.at + 1) ≢ 255)) }
{
    match first {
        Some(header) => bytes[header.at + 1] == MAX_EXTENSION,
        None => false,
    }
}

// The mark at the end of this header, which gets eight bytes longer.
fn lengthen(bytes: &[u8], header: Header, payload: u16, mark: Mark) -> Edit
    requires stands { Bounds bytes.now (lent header) }
    requires room { slice_index bytes.now (header.at + 1) ≢ 255 }
    requires payload { payload ≡ payload_of bytes.now + 8 }
    ensures longer { Lengthens bytes.now (lent header.entry) mark (edited result bytes.now) }
    ensures edit { IsEditOf result bytes.now }
{
    let size = bytes[header.at + 1];
    Edit {
        payload,
        place: header.at + 1,
        byte: size + 1,
        at: header.at + header.bytes.len(),
        eight: Some(eight(PADN, mark)),
    }
}

// Where a new header of the kind goes, where this follows the headers of the packet.
fn spot_of(bytes: &[u8], place: Place, end: Announced) -> Announced
    requires { FollowsHeaders bytes.now end }
    ensures { IsNewSpot bytes.now place result }
{
    walk_law();
    match place {
        Place::HopByHop => Announced {
            next: bytes[6],
            at: FIXED_LENGTH,
            told_at: 6,
        },
        Place::Destination => end,
    }
}

// The mark in a new header of the kind at this spot.
fn put_header(bytes: &[u8], place: Place, spot: Announced, payload: u16, mark: Mark) -> Edit
    requires spot { IsNewSpot bytes.now place spot }
    requires payload { payload ≡ payload_of bytes.now + 8 }
    ensures puts { (hs : List Lent) → HasHeaders bytes.now hs → PutsHeader bytes.now
        (spot_of_new place bytes.now hs) (kind_of place) mark (edited result bytes.now) }
    ensures edit { IsEditOf result bytes.now }
{
    Edit {
        payload,
        place: spot.told_at,
        byte: number_of(place),
        at: spot.at,
        eight: Some(eight(spot.next, mark)),
    }
}

// The payload length with eight bytes more. None where that has no place in 16 bits.
fn raised_payload(bytes: &[u8]) -> Option<u16>
    requires { 40 ≤ length bytes.now }
    ensures { MatchOption result (65527 < payload_of bytes.now)
        (λ n. (n ≡ payload_of bytes.now + 8) × (payload_of bytes.now ≤ 65527)) }
{
    let payload = payload(bytes);
    if payload > MAX_PAYLOAD {
        return None;
    }
    Some(payload + 8)
}

// This byte, a 0, and the spelling of the mark.
fn eight(first: u8, mark: Mark) -> [u8; 8]
    ensures { IsEight first mark result }
{
    let [kind, size, x, y, z, w] = encode_mark(mark);
    [first, 0, kind, size, x, y, z, w]
}
