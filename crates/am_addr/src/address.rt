//! An address, and the texts that stand for it (RFC 4291, section 2.2).
//!
//! The form whose last two values are written as an IPv4 address is not read.

ghost use Rattle.std.specs.Prelude.{◌≡◌, ℕ, ◌+◌, ◌-◌, ◌/◌, ◌%◌, ◌≤◌, List, ◌++◌, length, replicate, Some, IfSome, IfNone, IsSomeAnd};
ghost use Rattle.am_addr.specs.Text.{IsAddressText, IsGapped, IsFull, IsTextOf, bytes_of};
ghost use Rattle.am_addr.specs.Walk.{listed};

use crate::groups::Groups;
use crate::list::list_of;

/// An IPv6 address: its sixteen bytes, in network order.
#[derive(Clone, Copy, Debug, PartialEq, Eq)]
pub struct Addr(pub [u8; 16]);

/// The address that a text stands for: eight groups of one to four hexadecimal digits, joined by `:`, or
/// fewer with one `::` in place of the missing ones, whose values are 0 (RFC 4291, section 2.2).
///
/// None exactly where the text stands for no address. A text whose end is written as an IPv4 address
/// stands for none here.
pub fn parse(text: &str) -> Option<Addr>
    ensures only { IfSome result (λ a. IsTextOf text.now a.0) }
    // Whatever address the text stands for, it is found.
    ensures found { (bytes : List ℕ) → IsTextOf text.now bytes
        → result ≡ Some (record { 0 = bytes }) }
    ensures none { IfNone result ((bytes : List ℕ) → IsTextOf text.now bytes → ⊥) }
{
    match values_in(text) {
        Some(values) => Some(addr_of(values)),
        None => None,
    }
}

// The address with these eight values.
#[tactic(auto, using(crate::proofs::Bytes::eight))]
fn addr_of(values: [u16; 8]) -> Addr
    ensures { result.0 ≡ bytes_of values }
{
    let [a, b, c, d, e, f, g, h] = values;
    Addr([
        high(a),
        low(a),
        high(b),
        low(b),
        high(c),
        low(c),
        high(d),
        low(d),
        high(e),
        low(e),
        high(f),
        low(f),
        high(g),
        low(g),
        high(h),
        low(h),
    ])
}

fn high(value: u16) -> u8
    ensures { result ≡ value / 256 }
{
    (value / 256) as u8
}

fn low(value: u16) -> u8
    ensures { result ≡ value % 256 }
{
    (value % 256) as u8
}

// The eight values that a text stands for.
fn values_in(text: &str) -> Option<[u16; 8]>
    ensures only { IfSome result (λ vs. IsAddressText text.now vs) }
    ensures found { (values : List ℕ) → IsAddressText text.now values
        → IsSomeAnd result (λ vs. vs ≡ values) }
{
    let Some((front, back)) = text.split_once("::") else {
        return full(text.as_bytes());
    };
    short(front.as_bytes(), back.as_bytes())
}

// The values of eight groups, joined by `:`.
fn full(text: &[u8]) -> Option<[u16; 8]>
    ensures only { IfSome result (λ vs. IsFull text.now vs) }
    ensures found { (values : List ℕ) → IsFull text.now values
        → IsSomeAnd result (λ vs. vs ≡ values) }
{
    let Some(groups) = list_of(text) else {
        return None;
    };
    if groups.count() != 8 {
        return None;
    }
    Some(groups.values())
}

// The values of the lists before and behind a `::`.
fn short(front: &[u8], back: &[u8]) -> Option<[u16; 8]>
    ensures only { IfSome result (λ vs. IsGapped front.now back.now vs) }
    ensures found { (values : List ℕ) → IsGapped front.now back.now values
        → IsSomeAnd result (λ vs. vs ≡ values) }
{
    let Some(before) = list_of(front) else {
        return None;
    };
    let Some(behind) = list_of(back) else {
        return None;
    };
    if before.count() + behind.count() > 7 {
        return None;
    }
    Some(filled(before, &behind))
}

// The values before and behind a `::`, and those that it stands for.
fn filled(before: Groups, behind: &Groups) -> [u16; 8]
    requires { length (listed before) + length (listed behind.now) ≤ 8 }
    ensures { result ≡ listed before
        ++ replicate (8 - (length (listed before) + length (listed behind.now))) 0
        ++ listed behind.now }
{
    let mut all = before;
    let missing = 8 - before.count() - behind.count();
    for _ in 0..missing {
        all.push(0);
    }
    for value in behind.as_slice() {
        all.push(*value);
    }
    all.values()
}
