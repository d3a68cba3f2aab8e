//! Links, as the file says them: the names of the nodes that each leads from and to.

ghost use Rattle.std.specs.Prelude.{◌≡◌, ℕ, IfOk, IfErr, true, false};
ghost use Rattle.am_domain.specs.Tables.{SaysLink};
ghost use Rattle.am_domain.specs.declared.error.Part.TheVariants as part;

use crate::entries::{Entry, KeyFault};
use crate::error::{Key, Part};
use crate::keys::has_other_key;
use crate::table::name_at;
use std::alloc::Global;
use std::marker::Model;
use toml::Table;

/// A link of the monitored network, which leads one way (RFC 9342, section 4), by the names of its nodes.
#[derive(Drop)]
pub(crate) struct Link {
    from: String,
    to: String,
}

impl Model for Link {
    ghost use Rattle.std.specs.Prelude.{string_bytes};
    ghost use Rattle.am_domain.specs.Values.{LinkValue};

    ghost Value = { LinkValue };

    ghost view = { λ l. record { from = string_bytes l.from; to = string_bytes l.to } };
}

impl Link {
    /// The name of the node that the link leads from.
    pub(crate) fn from(&self) -> &str
        ensures { result.now ≡ self.now.from }
    {
        self.from.as_str()
    }

    /// The name of the node that the link leads to.
    pub(crate) fn to(&self) -> &str
        ensures { result.now ≡ self.now.to }
    {
        self.to.as_str()
    }
}

impl Entry for Link {
    ghost part = { part.Link };

    ghost says = { SaysLink };

    fn read(alloc: Global, table: &Table) -> Result<Link, KeyFault> {
        let Some(from) = name_at(table, "from") else {
            return Err(KeyFault::Bad(Key::From));
        };
        let Some(to) = name_at(table, "to") else {
            return Err(KeyFault::Bad(Key::To));
        };
        if has_other_key(table, Part::Link) {
            return Err(KeyFault::Bad(Key::Unknown));
        }
        let Ok(from) = String::from_str(alloc, from) else {
            return Err(KeyFault::Memory);
        };
        let Ok(to) = String::from_str(alloc, to) else {
            return Err(KeyFault::Memory);
        };
        Ok(Link { from, to })
    }
}

/// A link by the numbers of its nodes, which count from 0 as the nodes stand in the file.
#[derive(Clone, Copy, Debug, PartialEq, Eq)]
pub struct Edge {
    /// The node that the link leads from.
    pub from: u32,
    /// The node that the link leads to.
    pub to: u32,
}
