//! Nodes: where packets are seen, and in which capture.

ghost use Rattle.std.specs.Prelude.{◌≡◌, ℕ, IfOk, IfErr, true, false};
ghost use Rattle.am_domain.specs.Tables.{SaysNode};
ghost use Rattle.am_domain.specs.declared.error.Part.TheVariants as part;

use crate::entries::{Entry, KeyFault};
use crate::error::{Key, Part};
use crate::keys::has_other_key;
use crate::table::{file_name_at, name_at, reading_at};
use std::alloc::Global;
use std::marker::Model;
use toml::Table;

/// A node of the monitored network (RFC 9342, section 4): a name, the name of the file with its capture, and
/// the span of readings that the capture has.
#[derive(Drop)]
pub struct Node {
    name: String,
    capture: String,
    from: u64,
    until: u64,
}

impl Model for Node {
    ghost use Rattle.std.specs.Prelude.{string_bytes};
    ghost use Rattle.am_domain.specs.Values.{NodeValue};

    ghost Value = { NodeValue };

    ghost view = { λ n. record {
      name = string_bytes n.name;
      capture = string_bytes n.capture;
      from = n.from;
      until = n.until;
    } };
}

impl Node {
    /// The node's name: 1 to 32 letters, digits, dots, underscores and hyphens.
    pub fn name(&self) -> &str
        ensures { result.now ≡ self.now.name }
    {
        self.name.as_str()
    }

    /// The name of the file with the node's capture: 1 to 255 bytes without control characters.
    pub fn capture(&self) -> &str
        ensures { result.now ≡ self.now.capture }
    {
        self.capture.as_str()
    }

    /// The first reading of the capture's span, in nanoseconds.
    pub fn from(&self) -> u64
        ensures { result ≡ self.now.from }
    {
        self.from
    }

    /// The end of the capture's span, in nanoseconds: the first reading behind it.
    pub fn until(&self) -> u64
        ensures { result ≡ self.now.until }
    {
        self.until
    }
}

impl Entry for Node {
    ghost part = { part.Node };

    ghost says = { SaysNode };

    fn read(alloc: Global, table: &Table) -> Result<Node, KeyFault> {
        let Some(name) = name_at(table, "name") else {
            return Err(KeyFault::Bad(Key::Name));
        };
        let Some(capture) = file_name_at(table, "capture") else {
            return Err(KeyFault::Bad(Key::Capture));
        };
        let Some(from) = reading_at(table, "from_ns") else {
            return Err(KeyFault::Bad(Key::FromNs));
        };
        let Some(until) = reading_at(table, "until_ns") else {
            return Err(KeyFault::Bad(Key::UntilNs));
        };
        if has_other_key(table, Part::Node) {
            return Err(KeyFault::Bad(Key::Unknown));
        }
        let Ok(name) = String::from_str(alloc, name) else {
            return Err(KeyFault::Memory);
        };
        let Ok(capture) = String::from_str(alloc, capture) else {
            return Err(KeyFault::Memory);
        };
        Ok(Node {
            name,
            capture,
            from,
            until,
        })
    }
}
