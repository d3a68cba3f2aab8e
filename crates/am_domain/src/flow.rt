//! Flows: which packets are measured together.

ghost use Rattle.std.specs.Prelude.{◌≡◌, ℕ, IfOk, IfErr, true, false};
ghost use Rattle.am_domain.specs.Tables.{SaysFlow};
ghost use Rattle.am_domain.specs.declared.error.Part.TheVariants as part;

use crate::entries::{Entry, KeyFault};
use crate::error::{Key, Part};
use crate::keys::has_other_key;
use crate::table::{id_at, name_at, prefix_at};
use am_addr::Prefix;
use std::alloc::Global;
use std::marker::Model;
use toml::Table;

/// A flow: a name, the number that its packets' marks have (RFC 9343, section 3), and the prefixes of their
/// sources and destinations.
#[derive(Drop)]
pub struct Flow {
    name: String,
    id: u32,
    source: Prefix,
    destination: Prefix,
}

impl Model for Flow {
    ghost use Rattle.std.specs.Prelude.{string_bytes};
    ghost use Rattle.am_domain.specs.Values.{FlowValue};

    ghost Value = { FlowValue };

    ghost view = { λ f. record {
      name = string_bytes f.name;
      id = f.id;
      source = f.source;
      destination = f.destination;
    } };
}

impl Flow {
    /// The flow's name: 1 to 32 letters, digits, dots, underscores and hyphens.
    pub fn name(&self) -> &str
        ensures { result.now ≡ self.now.name }
    {
        self.name.as_str()
    }

    /// The number that the flow's marks have: below 2^20.
    pub fn id(&self) -> u32
        ensures { result ≡ self.now.id }
    {
        self.id
    }

    /// The prefix of the sources of the flow's packets.
    pub fn source(&self) -> &Prefix
        ensures { result.now ≡ self.now.source }
    {
        &self.source
    }

    /// The prefix of the destinations of the flow's packets.
    pub fn destination(&self) -> &Prefix
        ensures { result.now ≡ self.now.destination }
    {
        &self.destination
    }
}

impl Entry for Flow {
    ghost part = { part.Flow };

    ghost says = { SaysFlow };

    fn read(alloc: Global, table: &Table) -> Result<Flow, KeyFault> {
        let Some(name) = name_at(table, "name") else {
            return Err(KeyFault::Bad(Key::Name));
        };
        let Some(id) = id_at(table, "id") else {
            return Err(KeyFault::Bad(Key::Id));
        };
        let Some(source) = prefix_at(table, "source") else {
            return Err(KeyFault::Bad(Key::Source));
        };
        let Some(destination) = prefix_at(table, "destination") else {
            return Err(KeyFault::Bad(Key::Destination));
        };
        if has_other_key(table, Part::Flow) {
            return Err(KeyFault::Bad(Key::Unknown));
        }
        let Ok(name) = String::from_str(alloc, name) else {
            return Err(KeyFault::Memory);
        };
        Ok(Flow {
            name,
            id,
            source,
            destination,
        })
    }
}
