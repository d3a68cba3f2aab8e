//! What stands at a key of a table.

ghost use Rattle.std.specs.Prelude.{◌≡◌, ℕ, ◌≤◌, List, IfSome, IfNone, IsTrue, ◌↔◌, Option, Some, option_map, option_copied};
ghost use Rattle.std.specs.List.{list_all};
ghost use Rattle.toml.specs.Data.{Members, table as table_data};
ghost use Rattle.toml.specs.View.{view, table_view};
ghost use Rattle.am_addr.specs.Bits.{Span};
ghost use Rattle.am_domain.specs.Texts.{at_text, IsName, IsFileName, is_name_byte, is_file_byte, natural, text_of, IsNumberAt, IsNameAt, IsFileNameAt, IsPrefixAt, IsIdAt, IsReadingAt, IsWorkersAt, IsPlaceAt};
ghost use Rattle.am_ip6.specs.declared.marks.Place.{Place as Kind};

use am_addr::Prefix;
use am_ip6::Place;
use toml::{Table, Value};

/// The latest reading that a capture can have: 2^32 seconds, in nanoseconds.
pub(crate) const MAX_READING: u64 = 4_294_967_296_000_000_000;

/// The greatest number of a flow, which has 20 bits (RFC 9343, section 3).
pub const MAX_FLOW: u64 = 1_048_575;

/// The most bytes of a name, so that it fits into a column of a report.
pub(crate) const MAX_NAME: usize = 32;

/// The most bytes of a file's name: what file systems take.
pub(crate) const MAX_FILE_NAME: usize = 255;

/// The value at a key.
pub(crate) fn value_at<'a>(table: &'a Table, key: &str) -> Option<&'a Value>
    ensures { option_map (λ v. view v.now) result ≡ at_text table.now key.now }
{
    table.get(key)
}

/// The whole number of 0 or more at a key.
pub(crate) fn number_at(table: &Table, key: &str) -> Option<u64>
    ensures value { result ≡ natural (at_text table.now key.now) }
    ensures only { IfSome result (λ n. IsNumberAt (at_text table.now key.now) n) }
    ensures none { IfNone result ((n : ℕ) → IsNumberAt (at_text table.now key.now) n → ⊥) }
{
    let Some(value) = value_at(table, key) else {
        return None;
    };
    match value {
        Value::Integer(number) => u64::try_from(*number).ok(),
        _ => None,
    }
}

/// The text at a key.
pub(crate) fn text_at<'a>(table: &'a Table, key: &str) -> Option<&'a str>
    ensures { option_copied result ≡ text_of (at_text table.now key.now) }
{
    let Some(value) = value_at(table, key) else {
        return None;
    };
    value.as_str()
}

/// The table at a key. None where none stands there.
pub(crate) fn table_at<'a>(table: &'a Table, key: &str) -> Option<&'a Table>
    ensures only { IfSome result (λ t.
        at_text table.now key.now ≡ Some (table_data (table_view t.now))) }
    ensures none { IfNone result ((ms : Members)
        → at_text table.now key.now ≡ Some (table_data ms) → ⊥) }
{
    let Some(value) = value_at(table, key) else {
        return None;
    };
    let Some(inner) = value.as_table() else {
        return None;
    };
    Some(inner)
}

// Whether a name may have the byte.
#[tactic(auto, unfolding(crate::specs::Texts::is_name_byte))]
fn is_name_byte(byte: u8) -> bool
    ensures { result ≡ is_name_byte byte }
{
    if byte.is_ascii_alphanumeric() {
        return true;
    }
    byte == b'.' || byte == b'_' || byte == b'-'
}

// Whether a name may have each byte.
fn has_name_bytes(text: &str) -> bool
    ensures { result ≡ list_all is_name_byte text.now }
{
    text.as_bytes().iter().all(|byte| is_name_byte(*byte))
}

// Whether the text is a name.
fn is_name(text: &str) -> bool
    ensures { IsTrue result ↔ IsName text.now }
{
    if text.is_empty() || text.len() > MAX_NAME {
        return false;
    }
    has_name_bytes(text)
}

// Whether a file's name may have the byte.
#[tactic(auto, unfolding(crate::specs::Texts::is_file_byte))]
fn is_file_byte(byte: u8) -> bool
    ensures { result ≡ is_file_byte byte }
{
    byte >= 32 && byte != 127
}

// Whether a file's name may have each byte.
fn has_file_bytes(text: &str) -> bool
    ensures { result ≡ list_all is_file_byte text.now }
{
    text.as_bytes().iter().all(|byte| is_file_byte(*byte))
}

/// Whether the text is a file's name: 1 to 255 bytes without control characters, as a domain file and the words of a
/// command may have it.
pub fn is_file_name(text: &str) -> bool
    ensures { IsTrue result ↔ IsFileName text.now }
{
    if text.is_empty() || text.len() > MAX_FILE_NAME {
        return false;
    }
    has_file_bytes(text)
}

/// The name at a key. None where none stands there.
pub(crate) fn name_at<'a>(table: &'a Table, key: &str) -> Option<&'a str>
    ensures only { IfSome result (λ s. IsNameAt (at_text table.now key.now) s.now) }
    ensures none { IfNone result ((s : List ℕ) → IsNameAt (at_text table.now key.now) s → ⊥) }
{
    let Some(text) = text_at(table, key) else {
        return None;
    };
    if !is_name(text) {
        return None;
    }
    Some(text)
}

/// The name of a file at a key. None where none stands there.
pub(crate) fn file_name_at<'a>(table: &'a Table, key: &str) -> Option<&'a str>
    ensures only { IfSome result (λ s. IsFileNameAt (at_text table.now key.now) s.now) }
    ensures none { IfNone result ((s : List ℕ) → IsFileNameAt (at_text table.now key.now) s
        → ⊥) }
{
    let Some(text) = text_at(table, key) else {
        return None;
    };
    if !is_file_name(text) {
        return None;
    }
    Some(text)
}

/// The prefix at a key. None where the text of none stands there.
pub(crate) fn prefix_at(table: &Table, key: &str) -> Option<Prefix>
    ensures only { IfSome result (λ p. IsPrefixAt (at_text table.now key.now) p) }
    ensures none { IfNone result ((span : Span) → IsPrefixAt (at_text table.now key.now) span
        → ⊥) }
{
    let Some(text) = text_at(table, key) else {
        return None;
    };
    let Some(prefix) = Prefix::parse(text) else {
        return None;
    };
    Some(prefix)
}

/// The number of a flow at a key. None where none stands there.
pub(crate) fn id_at(table: &Table, key: &str) -> Option<u32>
    ensures only { IfSome result (λ n. IsIdAt (at_text table.now key.now) n) }
    ensures none { IfNone result ((n : ℕ) → IsIdAt (at_text table.now key.now) n → ⊥) }
{
    let Some(number) = number_at(table, key) else {
        return None;
    };
    if number > MAX_FLOW {
        return None;
    }
    Some(number as u32)
}

/// The reading at a key, in nanoseconds. None where none stands there.
pub(crate) fn reading_at(table: &Table, key: &str) -> Option<u64>
    ensures only { IfSome result (λ n. IsReadingAt (at_text table.now key.now) n) }
    ensures none { IfNone result ((n : ℕ) → IsReadingAt (at_text table.now key.now) n → ⊥) }
{
    let Some(number) = number_at(table, key) else {
        return None;
    };
    if number > MAX_READING {
        return None;
    }
    Some(number)
}

/// The number of workers at a key, which is 1 where nothing stands there. None where it is none.
pub(crate) fn workers_at(table: &Table, key: &str) -> Option<u32>
    ensures only { IfSome result (λ n. IsWorkersAt (at_text table.now key.now) n) }
    ensures none { IfNone result ((n : ℕ) → IsWorkersAt (at_text table.now key.now) n → ⊥) }
{
    if value_at(table, key).is_none() {
        return Some(1);
    }
    let Some(number) = number_at(table, key) else {
        return None;
    };
    if number == 0 {
        return None;
    }
    if number > 64 {
        return None;
    }
    Some(number as u32)
}

/// The kind of header at a key. None where none stands there.
pub(crate) fn place_at(table: &Table, key: &str) -> Option<Place>
    ensures only { IfSome result (λ p. IsPlaceAt (at_text table.now key.now) p) }
    ensures none { IfNone result ((p : Kind) → IsPlaceAt (at_text table.now key.now) p → ⊥) }
{
    let Some(text) = text_at(table, key) else {
        return None;
    };
    if text == "hop-by-hop" {
        return Some(Place::HopByHop);
    }
    if text == "destination" {
        return Some(Place::Destination);
    }
    None
}
