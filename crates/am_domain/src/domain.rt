//! Domains: what is measured where, and by which blocks.

ghost use Rattle.std.specs.Prelude.{◌≡◌, ℕ, ◌≤◌, ◌<◌, ◌↔◌, IsTrue, IfOk, IfErr, IfSome, IfNone, length, slice_index_or, Ok, Err, Some};
ghost use Rattle.toml.specs.Data.{Members};
ghost use Rattle.am_domain.specs.Domains.{DomainValue, IsLawful, IsMadeOf, IsDomainOf, IsDomainRefusal, TellsRefusal, IsAnswer};
ghost use Rattle.am_domain.specs.Fields.{Says};
ghost use Rattle.am_domain.specs.Lookups.{IsFirstWith, NoneHas, HasId, Holds};
ghost use Rattle.am_domain.specs.Network.{shift_at, IsNumberOf, IsNoNode};
ghost use Rattle.am_domain.specs.Rules.{TellsBroken};
ghost use Rattle.am_domain.specs.Sizes.{HasFewItems};
ghost use Rattle.am_domain.specs.Values.{FlowValue};
ghost use Rattle.am_domain.specs.declared.error.DomainError.{DomainError as ErrorValue};

use crate::blocks::shift_of;
use crate::error::DomainError;
use crate::fields::{Fields, read_fields};
use crate::flow::Flow;
use crate::index::{Index, first_holding, index_of};
use crate::judge::{check_blocks, check_counts, check_ends, check_links, check_repeats};
use crate::laws::domain_law;
use crate::link::Edge;
use crate::network::number_of;
use crate::node::Node;
use crate::numbers::{Numbered, numbers_of, place_of};
use am_addr::Addr;
use am_clock::{MAX_TIME, Timing};
use am_ip6::Place;
use std::alloc::Global;
use std::marker::Model;

/// The most bytes of a domain file: 1 MiB. A domain of the greatest size takes a quarter of that.
pub const MAX_DOMAIN: u32 = 1_048_576;

/// A domain: the flows that are measured, the network that they cross, and the blocks that are reported.
#[derive(Drop)]
pub struct Domain {
    timing: Timing,
    place: Place,
    workers: u32,
    flows: Vec<Flow>,
    nodes: Vec<Node>,
    edges: Vec<Edge>,
    first: u64,
    end: u64,
    // by which flows are found
    numbers: Vec<Numbered>,
    index: Index,
}

impl Model for Domain {
    ghost use Rattle.am_domain.specs.Domains.{DomainValue, IsLawful};
    ghost use Rattle.am_domain.specs.Numbers.{AreNumbers};
    ghost use Rattle.am_domain.specs.Index.{IsIndex};

    ghost Value = { DomainValue };

    ghost view = { λ d. record {
      times = d.timing;
      kind = d.place;
      workers = d.workers;
      flows = d.flows.items;
      nodes = d.nodes.items;
      links = d.edges.items;
      first = d.first;
      end = d.end;
    } };

    ghost invariant = { λ d. IsLawful (record {
      times = d.timing;
      kind = d.place;
      workers = d.workers;
      flows = d.flows.items;
      nodes = d.nodes.items;
      links = d.edges.items;
      first = d.first;
      end = d.end;
    }) × AreNumbers d.flows.items d.numbers.items × IsIndex d.flows.items d.index };
}

impl Domain {
    /// How long blocks last, how far clocks differ, and the bounds of the delay.
    pub fn timing(&self) -> &Timing
        ensures value { result.now ≡ self.now.times }
        ensures lawful { IsLawful self.now }
    {
        &self.timing
    }

    /// The kind of header that marks stand in.
    pub fn place(&self) -> Place
        ensures { result ≡ self.now.kind }
    {
        self.place
    }

    /// How many workers count: 1 to 64.
    pub fn workers(&self) -> u32
        ensures value { result ≡ self.now.workers }
        ensures lawful { IsLawful self.now }
    {
        self.workers
    }

    /// The flows, as they stand in the file: 1 to 1,024, with names and numbers that differ.
    pub fn flows(&self) -> &[Flow]
        ensures value { result.now ≡ self.now.flows }
        ensures lawful { IsLawful self.now }
    {
        self.flows.as_slice()
    }

    /// The nodes, as they stand in the file: 1 to 128, with names that differ.
    pub fn nodes(&self) -> &[Node]
        ensures value { result.now ≡ self.now.nodes }
        ensures lawful { IsLawful self.now }
    {
        self.nodes.as_slice()
    }

    /// The links, as they stand in the file, by the numbers of their nodes: 1 to 1,024.
    pub fn edges(&self) -> &[Edge]
        ensures value { result.now ≡ self.now.links }
        ensures lawful { IsLawful self.now }
    {
        self.edges.as_slice()
    }

    /// The first block that is reported.
    pub fn first(&self) -> u64
        ensures value { result ≡ self.now.first }
        ensures lawful { IsLawful self.now }
    {
        self.first
    }

    /// The first block behind those that are reported.
    pub fn end(&self) -> u64
        ensures value { result ≡ self.now.end }
        ensures lawful { IsLawful self.now }
    {
        self.end
    }

    /// How much later a node sees the blocks, in nanoseconds: the least delay where a link ends at it, else 0.
    pub fn shift(&self, node: u32) -> u64
        requires { node < length self.now.nodes }
        ensures value { result ≡ shift_at self.now.times self.now.nodes self.now.links node }
        ensures most { result ≤ MAX_TIME }
    {
        shift_of(&self.timing, self.edges.as_slice(), node)
    }

    /// The number of the node of this name. None where no node has it.
    pub fn node_named(&self, name: &str) -> Option<u32>
        ensures found { IfSome result (λ number. IsNumberOf self.now.nodes name.now number) }
        ensures none { IfNone result (IsNoNode self.now.nodes name.now) }
    {
        match number_of(self.nodes.as_slice(), name) {
            Some(number) => Some(number),
            None => None,
        }
    }

    /// The flow whose marks have this number. None where no flow has it.
    pub fn flow_of_id(&self, id: u32) -> Option<u32>
        ensures found { IfSome result (λ i. IsFirstWith (HasId id) self.now.flows i) }
        ensures none { IfNone result (NoneHas (HasId id) self.now.flows) }
        // No other flow has the number of a flow, so each flow's number finds it.
        ensures of { (i : ℕ) (d : FlowValue) → i < length self.now.flows
            → id ≡ (slice_index_or self.now.flows i d).id → result ≡ Some i }
    {
        match place_of(self.numbers.as_slice(), id) {
            Some(i) => Some(i),
            None => None,
        }
    }

    /// The first flow both of whose prefixes hold these addresses. None where there is none.
    pub fn flow_of(&self, source: &Addr, destination: &Addr) -> Option<u32>
        ensures found { IfSome result (λ i.
            IsFirstWith (Holds source.now.0 destination.now.0) self.now.flows i) }
        ensures none { IfNone result
            (NoneHas (Holds source.now.0 destination.now.0) self.now.flows) }
    {
        match first_holding(&self.index, self.flows.as_slice(), source, destination) {
            Some(i) => Some(i),
            None => None,
        }
    }
}

// The domain that the parts of a file make, or the first rule that they break.
fn domain_of(alloc: Global, fields: Fields) -> Result<Domain, DomainError>
    requires { (ms : Members) × HasFewItems ms × Says ms fields }
    ensures ok { IfOk result (λ d. IsMadeOf fields d) }
    ensures err { IfErr result (λ e. TellsBroken fields e) }
{
    let timing = match Timing::new(
        fields.times.block,
        fields.times.skew,
        fields.times.delay_min,
        fields.times.delay_max,
    ) {
        Ok(timing) => timing,
        Err(fault) => return Err(DomainError::Timing(fault)),
    };
    if let Err(error) = check_counts(&fields) {
        return Err(error);
    }
    if let Err(error) = check_repeats(&fields) {
        return Err(error);
    }
    let edges = match check_ends(alloc, &fields) {
        Ok(edges) => edges,
        Err(error) => return Err(error),
    };
    if let Err(error) = check_links(&fields) {
        return Err(error);
    }
    let (first, end) = match check_blocks(&timing, &fields, edges.as_slice()) {
        Ok(blocks) => blocks,
        Err(error) => return Err(error),
    };
    let Ok(numbers) = numbers_of(alloc, fields.flows.as_slice()) else {
        return Err(DomainError::Memory);
    };
    let Ok(index) = index_of(alloc, fields.flows.as_slice()) else {
        return Err(DomainError::Memory);
    };
    let Fields {
        times: _,
        marking,
        flows,
        nodes,
        links: _,
    } = fields;
    Ok(Domain {
        timing,
        place: marking.place,
        workers: marking.workers,
        flows,
        nodes,
        edges,
        first,
        end,
        numbers,
        index,
    })
}

/// The domain that the bytes of a domain file say, or their first refusal, in the order of `DomainError`: at
/// most [`MAX_DOMAIN`] bytes of a TOML document.
///
/// `NotToml` comes where the bytes aren't UTF-8, and where the crate `toml` refuses their text for another
/// cause than memory.
pub fn read_domain(alloc: Global, bytes: &[u8]) -> Result<Domain, DomainError>
    requires { length bytes.now ≤ MAX_DOMAIN }
    ensures ok { IfOk result (λ d. IsDomainOf bytes.now d) }
    ensures err { IfErr result (λ e. TellsRefusal bytes.now e) }
    // Whatever domain the bytes say, and however they are refused, that is the answer, unless memory is short.
    ensures found { (d : DomainValue) → IsDomainOf bytes.now d → IsAnswer result (Ok d) }
    ensures refused { (e : ErrorValue) → IsDomainRefusal bytes.now e → IsAnswer result (Err e) }
{
    domain_law();
    said_by(alloc, bytes)
}

// The same.
fn said_by(alloc: Global, bytes: &[u8]) -> Result<Domain, DomainError>
    requires { length bytes.now ≤ MAX_DOMAIN }
    ensures ok { IfOk result (λ d. IsDomainOf bytes.now d) }
    ensures err { IfErr result (λ e. TellsRefusal bytes.now e) }
{
    let table = match toml::table_from_slice(alloc, bytes) {
        Ok(table) => table,
        Err(error) => {
            if error.is_memory() {
                return Err(DomainError::Memory);
            }
            return Err(DomainError::NotToml);
        }
    };
    let fields = match read_fields(alloc, &table) {
        Ok(fields) => fields,
        Err(error) => return Err(error),
    };
    match domain_of(alloc, fields) {
        Ok(domain) => Ok(domain),
        Err(error) => Err(error),
    }
}
