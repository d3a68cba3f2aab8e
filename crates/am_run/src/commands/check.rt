//! The command `check`: the summary of a domain, or why its file is refused.
ghost use Rattle.std.specs.Prelude.{◌≡◌, ◌++◌, ◌+◌, [], ◌∷◌, map, OnOk, IfOk, IfSome, IfNone, flat_map, string_bytes};
ghost use Rattle.am_clock.specs.Times.{half, guard};
ghost use Rattle.am_chain.specs.Chains.{inputs, output, Performs};
ghost use Rattle.am_run.specs.Checking.{AddsPrefix, AddsFlow, AddsFlows};
ghost use Rattle.am_run.specs.commands.Check.{Check, SaysCheckWords, IsSummary, head_lines, node_line, node_lines, link_line, name_of, check_chain};
ghost use Rattle.am_chain.specs.Shown.{answer_of};
ghost use Rattle.am_run.specs.Asked.{check_shown};

use am_addr::{Prefix, print};
use am_base::{Shelf, Sink, put};
use am_chain::answer::Stop;
use am_chain::inputs::take_domain;
use am_domain::{Domain, Edge, Flow, Node, is_file_name};
use std::alloc::{AllocError, Global};
use std::fmt::Write;

/// What `check` is asked.
#[derive(Clone, Copy)]
pub struct CheckWords<'a> {
    /// The name of the domain file.
    pub file: &'a str,
}

/// DOMAIN.
pub fn words_of(words: &[String]) -> Option<CheckWords<'_>>
    ensures only { IfSome result
        (λ w. SaysCheckWords (map string_bytes words.now) (check_shown w)) }
    ensures none { IfNone result ((c : Check) → SaysCheckWords (map string_bytes words.now) c
        → ⊥) }
{
    match words {
        [file] => file_word(file.as_str()),
        _ => None,
    }
}

// The same, of one word.
fn file_word(file: &str) -> Option<CheckWords<'_>>
    ensures only { IfSome result (λ w. SaysCheckWords (file.now ∷ []) (check_shown w)) }
    ensures none { IfNone result ((c : Check) → SaysCheckWords (file.now ∷ []) c → ⊥) }
{
    if !is_file_name(file) {
        return None;
    }
    Some(CheckWords { file })
}

/// Takes the domain, and prints its summary. Nothing is printed before the domain was accepted.
pub fn check<S: Shelf, O: Sink>(
    alloc: Global,
    words: &CheckWords<'_>,
    shelf: &mut S,
    out: &mut O,
) -> Result<(), Stop>
    ensures { Performs (inputs (S.told shelf.old) (S.faults shelf.old) (S.missed shelf.old))
        (inputs (S.told shelf.new) (S.faults shelf.new) (S.missed shelf.new))
        (output (O.written out.old) (O.faults out.old))
        (output (O.written out.new) (O.faults out.new))
        (check_chain (check_shown words.now)) (answer_of result) }
{
    let domain = match take_domain(alloc, shelf, words.file) {
        Ok(domain) => domain,
        Err(stop) => return Err(stop),
    };
    let Ok(text) = summary(alloc, &domain) else {
        return Err(Stop::NoMemory);
    };
    match put(out, text.as_bytes()) {
        Ok(()) => Ok(()),
        Err(_) => Err(Stop::WriteFault),
    }
}

// The summary of a domain.
fn summary(alloc: Global, domain: &Domain) -> Result<String, AllocError>
    ensures { IfOk result (λ text. IsSummary domain.now (string_bytes text)) }
{
    let mut text = String::new(alloc);
    push_head(&mut text, domain)?;
    push_flows(alloc, &mut text, domain.flows())?;
    push_nodes(&mut text, domain)?;
    push_links(&mut text, domain)?;
    Ok(text)
}

// Adds the blocks that are reported, the guard band and half a block.
fn push_head(text: &mut String, domain: &Domain) -> Result<(), AllocError>
    ensures { OnOk result (string_bytes text.new ≡ string_bytes text.old
        ++ head_lines domain.now) }
{
    let first = domain.first();
    let last = domain.end() - 1;
    let timing = domain.timing();
    let guard = timing.skew() + (timing.delay_max() - timing.delay_min());
    let half = timing.block() / 2;
    write!(text, "blocks {first} {last}\nguard {guard} {half}\n")
}

// Adds the lines of flows.
fn push_flows(alloc: Global, text: &mut String, flows: &[Flow]) -> Result<(), AllocError>
    ensures { OnOk result (AddsFlows flows.now (string_bytes text.old) (string_bytes text.new)) }
{
    for flow in flows {
        push_flow(alloc, text, flow)?;
    }
    Ok(())
}

// Adds the line of a flow.
fn push_flow(alloc: Global, text: &mut String, flow: &Flow) -> Result<(), AllocError>
    ensures { OnOk result (AddsFlow flow.now (string_bytes text.old) (string_bytes text.new)) }
{
    let name = flow.name();
    let id = flow.id();
    text.push_str("flow ")?;
    text.push_str(name)?;
    write!(text, " {id} ")?;
    push_prefix(alloc, text, flow.source())?;
    text.push_str(" ")?;
    push_prefix(alloc, text, flow.destination())?;
    text.push_str("\n")?;
    Ok(())
}

// Adds a prefix.
fn push_prefix(alloc: Global, text: &mut String, prefix: &Prefix) -> Result<(), AllocError>
    ensures { OnOk result
        (AddsPrefix prefix.now (string_bytes text.old) (string_bytes text.new)) }
{
    let base = prefix.base();
    let address = print(alloc, &base)?;
    let length = prefix.length();
    text.push_str(address.as_str())?;
    write!(text, "/{length}")
}

// Adds the lines of the nodes.
fn push_nodes(text: &mut String, domain: &Domain) -> Result<(), AllocError>
    ensures { OnOk result (string_bytes text.new
        ≡ string_bytes text.old ++ node_lines domain.now 0 domain.now.nodes) }
{
    let nodes = domain.nodes();
    for i in 0..nodes.len() {
        let node = &nodes[i];
        push_node(text, node, domain.shift(i as u32))?;
    }
    Ok(())
}

// Adds the line of a node.
fn push_node(text: &mut String, node: &Node, shift: u64) -> Result<(), AllocError>
    ensures { OnOk result
        (string_bytes text.new ≡ string_bytes text.old ++ node_line node.now shift) }
{
    let from = node.from();
    let until = node.until();
    text.push_str("node ")?;
    text.push_str(node.name())?;
    write!(text, " {shift} {from} {until}\n")
}

// Adds the lines of the links.
fn push_links(text: &mut String, domain: &Domain) -> Result<(), AllocError>
    ensures { OnOk result (string_bytes text.new
        ≡ string_bytes text.old ++ flat_map (link_line domain.now.nodes) domain.now.links) }
{
    for link in domain.edges() {
        push_link(text, domain.nodes(), *link)?;
    }
    Ok(())
}

// Adds the line of a link.
fn push_link(text: &mut String, nodes: &[Node], link: Edge) -> Result<(), AllocError>
    ensures { OnOk result
        (string_bytes text.new ≡ string_bytes text.old ++ link_line nodes.now link) }
{
    text.push_str("link ")?;
    text.push_str(name_at(nodes, link.from))?;
    text.push_str(" ")?;
    text.push_str(name_at(nodes, link.to))?;
    text.push_str("\n")
}

/// The name of the node of this number; none where there is no such node.
pub fn name_at(nodes: &[Node], number: u32) -> &str
    ensures { result.now ≡ name_of nodes.now number }
{
    match nodes.get(number as usize) {
        Some(node) => node.name(),
        None => "",
    }
}
