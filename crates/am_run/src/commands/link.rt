//! The command `link`: what entered at one point, what left at the next, and what was lost between them, block by block.
ghost use Rattle.std.specs.Prelude.{◌≡◌, [], ◌∷◌, map, string_bytes, IfSome, IfNone};
ghost use Rattle.am_chain.specs.Chains.{inputs, output, Performs};
ghost use Rattle.am_run.specs.commands.Link.{Link, SaysNumbers, SaysLinkWords, link_chain};
ghost use Rattle.am_chain.specs.Shown.{answer_of};
ghost use Rattle.am_run.specs.Asked.{link_shown};

use am_base::{Shelf, Sink, put};
use am_chain::answer::Stop;
use am_chain::counting::Point;
use am_chain::table::{Side, Table};
use am_chain::words::number;
use am_clock::{MAX_TIME, Timing};
use am_domain::{MAX_FLOW, is_file_name};
use std::alloc::Global;

/// What `link` is asked.
#[derive(Clone, Copy)]
pub struct LinkWords<'a> {
    /// The length of a block; both bounds of the delay are the least delay between the two points.
    pub timing: Timing,
    /// The flow's FlowMonID.
    pub flow: u32,
    /// The name of the first point's capture.
    pub up: &'a str,
    /// The name of the second point's capture.
    pub down: &'a str,
}

/// BLOCK DMIN FLOW UP DOWN.
pub fn words_of(words: &[String]) -> Option<LinkWords<'_>>
    ensures only { IfSome result
        (λ w. SaysLinkWords (map string_bytes words.now) (link_shown w)) }
    ensures none { IfNone result ((l : Link) → SaysLinkWords (map string_bytes words.now) l
        → ⊥) }
{
    match words {
        [block, shift, flow, up, down] => five_words(
            block.as_str(),
            shift.as_str(),
            flow.as_str(),
            up.as_str(),
            down.as_str(),
        ),
        _ => None,
    }
}

// The same, of five words.
fn five_words<'a>(
    block: &str,
    shift: &str,
    flow: &str,
    up: &'a str,
    down: &'a str,
) -> Option<LinkWords<'a>>
    ensures only { IfSome result
        (λ w. SaysLinkWords (block.now ∷ shift.now ∷ flow.now ∷ up.now ∷ down.now ∷ [])
        (link_shown w)) }
    ensures none { IfNone result ((l : Link) →
        SaysLinkWords (block.now ∷ shift.now ∷ flow.now ∷ up.now ∷ down.now ∷ []) l → ⊥) }
{
    match numbers_of(block, shift, flow, up, down) {
        Some(words) => Some(words),
        None => None,
    }
}

// What the words say, each in its range.
fn numbers_of<'a>(
    block: &str,
    shift: &str,
    flow: &str,
    up: &'a str,
    down: &'a str,
) -> Option<LinkWords<'a>>
    ensures only { IfSome result
        (λ w. SaysNumbers block.now shift.now flow.now (link_shown w)) }
    ensures up { IfSome result (λ w. w.up.now ≡ up.now) }
    ensures down { IfSome result (λ w. w.down.now ≡ down.now) }
    ensures none { IfNone result ((l : Link) →
        SaysNumbers block.now shift.now flow.now l → l.up ≡ up.now → l.down ≡ down.now → ⊥) }
{
    let Some(block) = number(block, 2, MAX_TIME) else {
        return None;
    };
    if block % 2 != 0 {
        return None;
    }
    let Some(shift) = number(shift, 0, MAX_TIME) else {
        return None;
    };
    let Some(flow) = number(flow, 0, MAX_FLOW) else {
        return None;
    };
    if !is_file_name(up) {
        return None;
    }
    if !is_file_name(down) {
        return None;
    }
    let Ok(timing) = Timing::new(block, 0, shift, shift) else {
        return None;
    };
    Some(LinkWords {
        timing,
        flow: flow as u32,
        up,
        down,
    })
}

/// Counts both captures, the first to its end before the second, and prints the table of their flow's records: those of
/// the first point at shift 0, those of the second at the least delay. Nothing is printed before both were accepted.
pub fn link<S: Shelf, O: Sink>(
    alloc: Global,
    words: &LinkWords<'_>,
    shelf: &mut S,
    out: &mut O,
) -> Result<(), Stop>
    ensures { Performs (inputs (S.told shelf.old) (S.faults shelf.old) (S.missed shelf.old))
        (inputs (S.told shelf.new) (S.faults shelf.new) (S.missed shelf.new))
        (output (O.written out.old) (O.faults out.old))
        (output (O.written out.new) (O.faults out.new))
        (link_chain (link_shown words.now)) (answer_of result) }
{
    let mut table = Table::new(alloc);
    let first = Point {
        timing: words.timing,
        flow: words.flow,
        shift: 0,
        side: Side::Entered,
    };
    match first.count_file(alloc, shelf, words.up, &mut table) {
        Ok(()) => {}
        Err(stop) => return Err(stop),
    }
    let second = Point {
        timing: words.timing,
        flow: words.flow,
        shift: words.timing.delay_min(),
        side: Side::Left,
    };
    match second.count_file(alloc, shelf, words.down, &mut table) {
        Ok(()) => {}
        Err(stop) => return Err(stop),
    }
    let Ok(text) = table.text(alloc) else {
        return Err(Stop::NoMemory);
    };
    match put(out, text.as_bytes()) {
        Ok(()) => Ok(()),
        Err(_) => Err(Stop::WriteFault),
    }
}
