//! The keys that the tables of each part may have.

ghost use Rattle.std.specs.Prelude.{◌≡◌, bytes_eq};
ghost use Rattle.std.specs.List.{list_any};
ghost use Rattle.toml.specs.View.{table_view};
ghost use Rattle.am_domain.specs.Keys.{spellings, has_other};

use crate::error::Part;
use toml::Table;

// Whether a table of this part may have the key.
fn is_spelling(part: Part, key: &str) -> bool
    ensures { result ≡ list_any (bytes_eq key.now) (spellings part) }
{
    match part {
        Part::Top => matches!(key, "timing" | "marking" | "flow" | "node" | "link"),
        Part::Timing => matches!(
            key,
            "block_ns" | "skew_ns" | "delay_min_ns" | "delay_max_ns"
        ),
        Part::Marking => matches!(key, "place" | "workers"),
        Part::Flow => matches!(key, "name" | "id" | "source" | "destination"),
        Part::Node => matches!(key, "name" | "capture" | "from_ns" | "until_ns"),
        Part::Link => matches!(key, "from" | "to"),
    }
}

/// Whether a table of this part has a key that it may not have.
#[tactic(auto, using(crate::proofs::TextLemmas::other_keys))]
pub(crate) fn has_other_key(table: &Table, part: Part) -> bool
    ensures { result ≡ has_other (spellings part) (table_view table.now) }
{
    for key in table.keys() {
        if !is_spelling(part, key.as_str()) {
            return true;
        }
    }
    false
}
