//! How the first mark comes out of a packet, where it stands in a shape in which marks are put in.

ghost use Rattle.std.specs.Prelude.{◌≡◌, ◌≢◌, ◌+◌, ◌<◌, ◌≤◌, ℕ, Bool, List, [], ◌∷◌, length, drop, IfSome, IfNone, IsSomeAnd, MatchOption, None};
ghost use Rattle.std.specs.Bool.{MatchBool};
ghost use Rattle.am_opts.specs.Marking.{Marking};
ghost use Rattle.am_opts.specs.Options.{IsOptionList};
ghost use Rattle.am_ip6.specs.Chains.{HasOptions};
ghost use Rattle.am_ip6.specs.Marks.{HasNoMark, IsPassed};
ghost use Rattle.am_ip6.specs.Shown.{lent};
ghost use Rattle.am_ip6.specs.Brief.{IsBrief, WalksBriefly};
ghost use Rattle.am_insert.specs.Changes.{IsBytes};
ghost use Rattle.am_insert.specs.Inserting.{Inserted, IsUnmarked};
ghost use Rattle.am_insert.specs.Stripping.{Stripped};
ghost use Rattle.am_insert.specs.Edits.{edited, IsEditOf};
ghost use Rattle.am_insert.specs.Parts.{Bounds, ShowsFirst, CutsOut, IsInNoShape, FindsMark};

use crate::edit::Edit;
use crate::laws::insert_law;
use crate::shape::{HOP_BY_HOP, number_of, payload};
use am_ip6::{Brief, Header, Place, Walk, walk_law};
use am_opts::{Mark, Options, decode_mark, longest_front_law, mark_law};

// A mark that is the last option of its header stands so many bytes before the end of the header's options and of its
// first two bytes.
const MARK_END: usize = 8;

// How many bytes go out.
const MOVED: u16 = 8;

// The fixed header (RFC 8200, section 3), and a header of eight bytes behind it.
const FIXED_LENGTH: usize = 40;

const LONE_END: usize = 48;

// An option that is a mark, its place among the options of its header, and whether the option before it is a PadN
// without data.
#[derive(Clone, Copy)]
struct MarkOption {
    mark: Mark,
    at: usize,
    padded: bool,
}

// A header with a mark, and the place of the byte that announces it.
#[derive(Clone, Copy)]
struct MarkedHeader<'a> {
    header: Header<'a>,
    told_at: usize,
    option: MarkOption,
}

/// The first mark in this kind of header of a packet, and how it comes out, where all bytes of the packet are there or
/// not. Nothing is asked of how the headers end behind the mark.
///
/// None exactly where there is no mark, or the first one stands in none of the two shapes in which marks are put in.
pub fn plan_strip(bytes: &[u8], whole: bool, place: Place) -> Option<(Mark, Edit)>
    ensures stripped { IfSome result
        (λ r. Stripped bytes.now r.0 place (edited r.1 bytes.now)) }
    ensures edit { IfSome result (λ r. IsEditOf r.1 bytes.now) }
    // Eight bytes go out.
    ensures fewer { IfSome result (λ r. r.1.eight ≡ None) }

    // Where the packet can be stripped, it is so, and to nothing else.
    ensures found { (mark : Marking) (packet : List ℕ) → Stripped bytes.now mark place packet
        → IsSomeAnd result (λ r. (r.0 ≡ mark) × (edited r.1 bytes.now ≡ packet)) }

    // A mark that was put in comes out, and leaves the packet as it was.
    ensures undone { (packet : List ℕ) (all : Bool) (mark : Marking) → IsBytes packet
        → IsUnmarked packet all place → Inserted packet mark place bytes.now
        → IsSomeAnd result (λ r. (r.0 ≡ mark) × (edited r.1 bytes.now ≡ packet)) }
{
    walk_law();
    longest_front_law();
    mark_law();
    insert_law();
    let Some(marked) = first_marked(bytes, whole, place) else {
        return None;
    };
    match cut_out(bytes, &marked) {
        Some(edit) => Some((marked.option.mark, edit)),
        None => None,
    }
}

// How the mark of this header comes out: with the header, or with the PadN before it.
fn cut_out(bytes: &[u8], marked: &MarkedHeader) -> Option<Edit>
    requires stands { Bounds bytes.now (lent marked.now.header) }
    requires told { marked.now.told_at < marked.now.header.at }
    ensures cut { IfSome result (λ e. CutsOut bytes.now marked.now (edited e bytes.now)) }
    ensures edit { IfSome result (λ e. IsEditOf e bytes.now) }
    ensures fewer { IfSome result (λ e. e.eight ≡ None) }
    ensures none { IfNone result (IsInNoShape bytes.now marked.now) }
{
    let at = marked.header.at;
    let size = bytes[at + 1];
    let payload = payload(bytes) - MOVED;
    if size == 0 {
        return Some(Edit {
            payload,
            place: marked.told_at,
            byte: bytes[at],
            at,
            eight: None,
        });
    }
    let last = marked.header.bytes.len() - MARK_END;
    if !marked.option.padded || marked.option.at != last {
        return None;
    }
    Some(Edit {
        payload,
        place: at + 1,
        byte: size - 1,
        at: at + last,
        eight: None,
    })
}

// The first header of the kind that has a mark. Most packets have no other header, or none, which one look tells.
fn first_marked(bytes: &[u8], whole: bool, place: Place) -> Option<MarkedHeader<'_>>
    ensures { FindsMark bytes.now place result }
{
    match Brief::read(bytes) {
        Some(brief) => marked_at_once(bytes, place, brief),
        None => marked_by_walk(bytes, whole, place),
    }
}

// The same of a packet of few headers.
fn marked_at_once(bytes: &[u8], place: Place, brief: Brief) -> Option<MarkedHeader<'_>>
    requires brief { IsBrief bytes.now brief.mark brief.next }
    requires walk { (whole : Bool) → WalksBriefly bytes.now brief.mark brief.next whole }
    ensures { FindsMark bytes.now place result }
{
    walk_law();
    let Some(mark) = brief.mark else {
        return None;
    };
    match place {
        Place::HopByHop => Some(MarkedHeader {
            header: Header {
                kind: HOP_BY_HOP,
                at: FIXED_LENGTH,
                bytes: &bytes[FIXED_LENGTH..LONE_END],
            },
            told_at: 6,
            option: MarkOption {
                mark,
                at: 0,
                padded: false,
            },
        }),
        Place::Destination => None,
    }
}

// The same, by a walk of the headers.
#[inline(never)]
fn marked_by_walk(bytes: &[u8], whole: bool, place: Place) -> Option<MarkedHeader<'_>>
    ensures { FindsMark bytes.now place result }
{
    walk_law();
    let kind = number_of(place);
    let mut told_at = 6;
    for header in Walk::over(bytes, whole) {
        if let Some(option) = mark_of_kind(header, kind) {
            return Some(MarkedHeader {
                header,
                told_at,
                option,
            });
        }
        told_at = header.at;
    }
    None
}

// The first mark of a header, if the header is of this kind.
fn mark_of_kind(header: Header, kind: u8) -> Option<MarkOption>
    requires kind { kind ≢ 43 }
    requires least { 2 ≤ length header.bytes.now }
    requires options { header.kind ≢ 43 → HasOptions header.bytes.now }
    ensures { MatchOption result (IsPassed kind (lent header.entry)) (λ o.
        (header.entry.kind ≡ kind) × ShowsFirst (drop 2 header.entry.bytes.now) o) }
{
    if header.kind != kind {
        return None;
    }
    let (_, area) = header.bytes.split_at(2);
    first_mark(area)
}

// The first mark among the options of an area.
fn first_mark(area: &[u8]) -> Option<MarkOption>
    requires { IsOptionList area.now }
    ensures { MatchOption result (HasNoMark area.now) (λ o. ShowsFirst area.now o) }
{
    longest_front_law();
    let mut padded = false;
    for option in Options::over(area) {
        if let Some((mark, _)) = decode_mark(option.bytes) {
            return Some(MarkOption {
                mark,
                at: option.at,
                padded,
            });
        }
        padded = is_empty_pad(option.bytes);
    }
    None
}

// Whether the option is a PadN without data (RFC 8200, section 4.2).
fn is_empty_pad(option: &[u8]) -> bool
    ensures { MatchBool result (option.now ≡ 1 ∷ 0 ∷ []) (option.now ≡ 1 ∷ 0 ∷ [] → ⊥) }
{
    matches!(option, [1, 0])
}
