//! What is said of a domain file that is refused.

ghost use Rattle.std.specs.Prelude.{◌≡◌, Some};
ghost use Rattle.std.specs.Fmt.{WritesOnOk};
ghost use Rattle.am_domain.specs.DomainTexts.{key_text, index_text, member_text, timing_text, many_text, twice_text, domain_text};
ghost use Rattle.am_domain.specs.Keys.{part_spelling};

use crate::error::{DomainError, Key, Part, Repeated};
use am_clock::TimingError;
use std::fmt;

/// The part's name in the file; the file itself has none.
impl fmt::Display for Part {
    ghost output = { λ p. Some (part_spelling p) };

    fn fmt<W: fmt::Write>(&self, f: &mut fmt::Formatter<W>) -> fmt::Result {
        f.write_str(match self {
            Part::Top => "",
            Part::Timing => "timing",
            Part::Marking => "marking",
            Part::Flow => "flow",
            Part::Node => "node",
            Part::Link => "link",
        })
    }
}

/// The key, as it is spelled in the file; any other is a question mark.
impl fmt::Display for Key {
    ghost output = { λ k. Some (key_text k) };

    fn fmt<W: fmt::Write>(&self, f: &mut fmt::Formatter<W>) -> fmt::Result {
        f.write_str(match self {
            Key::BlockNs => "block_ns",
            Key::SkewNs => "skew_ns",
            Key::DelayMinNs => "delay_min_ns",
            Key::DelayMaxNs => "delay_max_ns",
            Key::Place => "place",
            Key::Workers => "workers",
            Key::Name => "name",
            Key::Id => "id",
            Key::Source => "source",
            Key::Destination => "destination",
            Key::Capture => "capture",
            Key::FromNs => "from_ns",
            Key::UntilNs => "until_ns",
            Key::From => "from",
            Key::To => "to",
            Key::Unknown => "?",
        })
    }
}

// The place of an item in its array.
#[derive(Clone, Copy)]
struct Index(Option<u32>);

impl fmt::Display for Index {
    ghost output = { λ i. Some (index_text i.0) };

    fn fmt<W: fmt::Write>(&self, f: &mut fmt::Formatter<W>) -> fmt::Result {
        match self.0 {
            None => f.write_str(""),
            Some(index) => write!(f, "[{index}]"),
        }
    }
}

// The key of a part, with a dot before it where the part has a name.
#[derive(Clone, Copy)]
struct Member(Part, Option<Key>);

impl fmt::Display for Member {
    ghost output = { λ m. Some (member_text m.0 m.1) };

    fn fmt<W: fmt::Write>(&self, f: &mut fmt::Formatter<W>) -> fmt::Result {
        let Some(key) = self.1 else {
            return f.write_str("");
        };
        if self.0 == Part::Top {
            return write!(f, "{key}");
        }
        write!(f, ".{key}")
    }
}

// An item that is there twice, with what it has in common with the other.
#[derive(Clone, Copy)]
struct Item(Repeated, u32);

impl fmt::Display for Item {
    ghost output = { λ i. Some (twice_text i.0 i.1) };

    fn fmt<W: fmt::Write>(&self, f: &mut fmt::Formatter<W>) -> fmt::Result {
        let index = self.1;
        match self.0 {
            Repeated::FlowName => write!(f, "flow[{index}].name"),
            Repeated::FlowId => write!(f, "flow[{index}].id"),
            Repeated::NodeName => write!(f, "node[{index}].name"),
        }
    }
}

/// What is said of the refusal, as `bad field node[2].until_ns`.
impl fmt::Display for DomainError {
    ghost output = { λ e. Some (domain_text e) };

    fn fmt<W: fmt::Write>(&self, f: &mut fmt::Formatter<W>) -> fmt::Result {
        match *self {
            DomainError::NotToml => f.write_str("not TOML"),
            DomainError::BadField { part, index, key } => show_field(f, part, index, key),
            DomainError::Timing(fault) => show_timing(f, fault),
            DomainError::TooMany { part, count } => {
                let what = many_name(part);
                write!(f, "too many {what}: {count}")
            }
            DomainError::Twice {
                what,
                first,
                second,
            } => show_twice(f, Item(what, first), Item(what, second)),
            DomainError::UnknownNode { link, end } => write!(f, "link[{link}].{end} is no node"),
            DomainError::SelfLink { link } => write!(f, "link[{link}] joins a node to itself"),
            DomainError::LinkTwice { first, second } => {
                write!(f, "link[{second}] repeats link[{first}]")
            }
            DomainError::LoneNode { node } => write!(f, "node[{node}] has no link"),
            DomainError::NoBlock { first, end } => {
                write!(f, "no block is covered: first {first} end {end}")
            }
            DomainError::TooManyCells { count } => write!(f, "too many cells: {count}"),
            DomainError::Memory => f.write_str("out of memory"),
        }
    }
}

// Where a bad field stands.
fn show_field<W: fmt::Write>(
    f: &mut fmt::Formatter<W>,
    part: Part,
    index: Option<u32>,
    key: Option<Key>,
) -> fmt::Result
    ensures { WritesOnOk W.write_str_gives f.old result
        (domain_text (DomainError.BadField part index key)) f.new }
{
    let index = Index(index);
    let member = Member(part, key);
    write!(f, "bad field {part}{index}{member}")
}

// Which item repeats which.
fn show_twice<W: fmt::Write>(f: &mut fmt::Formatter<W>, first: Item, second: Item) -> fmt::Result
    requires { first.0 ≡ second.0 }
    ensures { WritesOnOk W.write_str_gives f.old result
        (domain_text (DomainError.Twice first.0 first.1 second.1)) f.new }
{
    write!(f, "{second} repeats {first}")
}

// Why numbers are no timing.
fn show_timing<W: fmt::Write>(f: &mut fmt::Formatter<W>, fault: TimingError) -> fmt::Result
    ensures { WritesOnOk W.write_str_gives f.old result (timing_text fault) f.new }
{
    match fault {
        TimingError::ZeroBlock => f.write_str("block is zero"),
        TimingError::OddBlock => f.write_str("block is odd"),
        TimingError::BlockTooLong => f.write_str("block is too long"),
        TimingError::DelayTooLong => f.write_str("delay is too long"),
        TimingError::BoundsCrossed => f.write_str("delay bounds are crossed"),
        TimingError::GuardTooWide { guard, half } => {
            write!(f, "guard {guard} is not below half {half}")
        }
    }
}

// What there are too many of.
fn many_name(part: Part) -> &'static str
    ensures { result.now ≡ many_text part }
{
    match part {
        Part::Node => "nodes",
        Part::Link => "links",
        _ => "flows",
    }
}
