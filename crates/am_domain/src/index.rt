//! The flows by the prefixes of their addresses, so that a packet's flow is found in few steps.
//!
//! An address begins with a prefix's bits exactly where its own first bits, as many as the prefix has, are
//! those. So the flows that hold a packet's addresses and whose prefixes have the same two lengths have the
//! same two prefixes, and one look-up finds the first of them. Most domains have few pairs of lengths.

ghost use Rattle.std.specs.Prelude.{◌≡◌, ℕ, ◌<◌, ◌≤◌, ◌↔◌, IsTrue, IfOk, OnOk, IfSome, IfNone, Contains, length};
ghost use Rattle.std.specs.HashMap.{get};
ghost use Rattle.am_domain.specs.Lookups.{IsFirstWith, NoneHas, Holds};
ghost use Rattle.am_domain.specs.Index.{IsIndex, same_ends, ends_of, ends_at, earlier_of, IsAdded};

use crate::flow::Flow;
use am_addr::{Addr, Mask};
use std::alloc::{AllocError, Global};
use std::collections::HashMap;
use std::hash::{Hash, Hasher};

// A look-up costs about as much as a look at so many flows.
const LOOKS: usize = 4;

/// How many bits of a source and of a destination count.
#[derive(Clone, Copy, Debug, PartialEq, Eq)]
pub(crate) struct Lengths {
    source: Mask,
    destination: Mask,
}

/// The bits of a source and of a destination that count, each further one 0.
#[derive(Clone, Copy, Debug, PartialEq, Eq)]
pub(crate) struct Ends {
    lengths: Lengths,
    source: [u8; 16],
    destination: [u8; 16],
}

// The bytes of an address are fed at once: a derive feeds them one by one, which takes four times as long.
impl Hash for Ends {
    ghost use Rattle.am_domain.specs.Index.{fed, fed_alike};

    ghost hash_input = { fed };

    ghost respects_eq = { fed_alike };

    fn hash<H: Hasher>(&self, state: &mut H) {
        state.write(&self.source);
        state.write(&self.destination);
    }
}

/// The pairs of lengths that the flows' prefixes have, and the first flow of each pair of prefixes.
#[derive(Drop)]
pub(crate) struct Index {
    lengths: Vec<Lengths>,
    firsts: HashMap<Ends, u32>,
}

/// The index of these flows.
pub(crate) fn index_of(alloc: Global, flows: &[Flow]) -> Result<Index, AllocError>
    requires { length flows.now ≤ 1024 }
    ensures { IfOk result (λ index. IsIndex flows.now index) }
{
    let mut lengths = Vec::new(alloc);
    let mut firsts = HashMap::new(alloc);
    for i in 0..flows.len() {
        let ends = ends_of(&flows[i]);
        add_lengths(&mut lengths, ends.lengths)?;
        add_first(&mut firsts, ends, i as u32)?;
    }
    Ok(Index { lengths, firsts })
}

// The bits that a flow asks for.
fn ends_of(flow: &Flow) -> Ends
    ensures { result ≡ ends_of flow.now }
{
    let lengths = Lengths {
        source: Mask::new(flow.source().length()),
        destination: Mask::new(flow.destination().length()),
    };
    let Addr(source) = flow.source().base();
    let Addr(destination) = flow.destination().base();
    Ends {
        lengths,
        source,
        destination,
    }
}

// The first bits of two addresses, so many of each.
fn ends_at(lengths: Lengths, source: &Addr, destination: &Addr) -> Ends
    ensures { result ≡ ends_at lengths source.now.0 destination.now.0 }
{
    let Addr(source) = lengths.source.clear(source);
    let Addr(destination) = lengths.destination.clear(destination);
    Ends {
        lengths,
        source,
        destination,
    }
}

// Adds a pair of lengths, if it isn't there.
fn add_lengths(all: &mut Vec<Lengths>, more: Lengths) -> Result<(), AllocError>
    ensures added { OnOk result (Contains all.new.items more) }
    ensures kept { OnOk result ((x : Lengths) → Contains all.old.items x
        → Contains all.new.items x) }
{
    if all.as_slice().contains(&more) {
        return Ok(());
    }
    all.push(more)?;
    Ok(())
}

// Adds the place of a flow that asks for these bits, if none is there.
fn add_first(firsts: &mut HashMap<Ends, u32>, ends: Ends, at: u32) -> Result<(), AllocError>
    ensures { OnOk result ((other : Ends)
        → IsAdded ends at other (get same_ends firsts.old other) (get same_ends firsts.new other)) }
{
    if firsts.get(&ends).is_some() {
        return Ok(());
    }
    let _ = firsts.insert(ends, at)?;
    Ok(())
}

/// The first flow both of whose prefixes hold these addresses. None where there is none.
pub(crate) fn first_holding(
    index: &Index,
    flows: &[Flow],
    source: &Addr,
    destination: &Addr,
) -> Option<u32>
    requires of_flows { IsIndex flows.now index.now }
    requires few { length flows.now ≤ 1024 }
    ensures found { IfSome result (λ i.
        IsFirstWith (Holds source.now.0 destination.now.0) flows.now i) }
    ensures none { IfNone result (NoneHas (Holds source.now.0 destination.now.0) flows.now) }
{
    if flows.len() / LOOKS < index.lengths.len() {
        return look_at_each(flows, source, destination);
    }
    look_up(index, flows, source, destination)
}

// The same, by a look at one flow after another.
fn look_at_each(flows: &[Flow], source: &Addr, destination: &Addr) -> Option<u32>
    requires few { length flows.now ≤ 1024 }
    ensures found { IfSome result (λ i.
        IsFirstWith (Holds source.now.0 destination.now.0) flows.now i) }
    ensures none { IfNone result (NoneHas (Holds source.now.0 destination.now.0) flows.now) }
{
    for at in 0..flows.len() {
        let flow = &flows[at];
        if holds(flow, source, destination) {
            return Some(at as u32);
        }
    }
    None
}

// The same, by a look-up at each pair of lengths.
fn look_up(index: &Index, flows: &[Flow], source: &Addr, destination: &Addr) -> Option<u32>
    requires { IsIndex flows.now index.now }
    ensures found { IfSome result (λ i.
        IsFirstWith (Holds source.now.0 destination.now.0) flows.now i) }
    ensures none { IfNone result (NoneHas (Holds source.now.0 destination.now.0) flows.now) }
{
    let mut first = None;
    for lengths in &index.lengths {
        let ends = ends_at(*lengths, source, destination);
        first = earlier(first, index.firsts.get(&ends).copied());
    }
    first
}

// The lesser of two places, of which either may be missing.
fn earlier(a: Option<u32>, b: Option<u32>) -> Option<u32>
    ensures { result ≡ earlier_of a b }
{
    match (a, b) {
        (Some(x), Some(y)) => Some(x.min(y)),
        (Some(x), None) => Some(x),
        (None, y) => y,
    }
}

// Whether both prefixes of the flow hold the addresses.
fn holds(flow: &Flow, source: &Addr, destination: &Addr) -> bool
    ensures { IsTrue result ↔ Holds source.now.0 destination.now.0 flow.now }
{
    if !flow.source().holds(source) {
        return false;
    }
    flow.destination().holds(destination)
}
