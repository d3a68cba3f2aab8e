//! Prefixes: the first bits of addresses, and how many they are (RFC 4291, section 2.3).

ghost use Rattle.std.specs.Prelude.{◌≡◌, ℕ, ◌+◌, ◌-◌, ◌*◌, ◌/◌, ◌^◌, ◌<◌, ◌≤◌, ◌↔◌, List, IsTrue, Some, IfSome, IfNone};
ghost use Rattle.am_addr.specs.Bits.{Span, BeginAlike, cleared, IsLength, IsPrefixText};

use crate::address::{Addr, parse};
use crate::mask::{Mask, front_of};
use std::marker::Model;

// An address has so many bits.
const BITS: u8 = 128;

/// The addresses that begin with the same bits (RFC 4291, section 2.3): those bits, and how many they are, at
/// most 128.
#[derive(Clone, Copy, Debug, PartialEq, Eq)]
pub struct Prefix {
    // the bits past the length are 0
    base: Addr,
    // how many bits count
    mask: Mask,
}

impl Model for Prefix {
    ghost use Rattle.std.specs.Prelude.{◌≡◌, ◌≤◌};
    ghost use Rattle.am_addr.specs.Bits.{Span, cleared};

    ghost Value = { Span };

    ghost view = { λ p. record { bytes = p.base.0; length = p.mask } };

    ghost invariant = { λ p. (p.mask ≤ 128) × (cleared p.mask p.base.0 ≡ p.base.0) };

    ghost inverse = { λ s. record { base = record { 0 = s.bytes }; mask = s.length } };
}

impl Prefix {
    /// The prefix that a text stands for: an address, `/`, and how many of its bits count, a decimal number
    /// from 0 to 128 without a sign or leading zeros. The address's further bits may have any value, and are
    /// set to 0.
    ///
    /// None exactly where the text stands for no prefix.
    pub fn parse(text: &str) -> Option<Prefix>
        ensures only { IfSome result (λ p. IsPrefixText text.now p) }
        // Whatever prefix the text stands for, it is found.
        ensures found { (span : Span) → IsPrefixText text.now span → result ≡ Some span }
        ensures none { IfNone result ((span : Span) → IsPrefixText text.now span → ⊥) }
    {
        let Some((address, number)) = text.split_once('/') else {
            return None;
        };
        let Some(addr) = parse(address) else {
            return None;
        };
        let Some(length) = length_of(number.as_bytes()) else {
            return None;
        };
        Some(prefix_of(&addr, length))
    }

    /// Whether an address begins with the prefix's bits.
    pub fn holds(&self, addr: &Addr) -> bool
        ensures { IsTrue result ↔ BeginAlike self.now.length addr.now.0 self.now.bytes }
    {
        self.mask.clears_to(addr, &self.base)
    }

    /// The first address of the prefix: its bits, and 0 for each further one.
    pub fn base(&self) -> Addr
        ensures value { result.0 ≡ self.now.bytes }
        ensures zeros { cleared self.now.length result.0 ≡ result.0 }
    {
        self.base
    }

    /// How many bits count.
    pub fn length(&self) -> u8
        ensures value { result ≡ self.now.length }
        ensures most { result ≤ 128 }
    {
        self.mask.count()
    }
}

// The prefix of the address that has so many bits.
fn prefix_of(addr: &Addr, length: u8) -> Prefix
    requires { length ≤ 128 }
    ensures bytes { result.bytes ≡ cleared length addr.now.0 }
    ensures length { result.length ≡ length }
{
    Prefix {
        base: front_of(addr, length),
        mask: Mask::new(length),
    }
}

// How many bits a prefix has, as the number behind its `/` says.
fn length_of(text: &[u8]) -> Option<u8>
    ensures only { IfSome result (λ n. IsLength text.now n) }
    ensures found { (n : ℕ) → IsLength text.now n → result ≡ Some n }
{
    if text.is_empty() {
        return None;
    }
    if text[0] == b'0' {
        // no digit follows a 0 that comes first
        return if text.len() == 1 { Some(0) } else { None };
    }
    let mut length: u8 = 0;
    for byte in text {
        let Some(next) = with_digit(length, *byte) else {
            return None;
        };
        length = next;
    }
    Some(length)
}

// The number with one more digit. None where that is none, and where the number passes 128.
fn with_digit(before: u8, byte: u8) -> Option<u8>
    requires { before ≤ 128 }
    ensures small { IfSome result (λ n. n ≤ 128) }
    ensures goes { IfSome result (λ n. (d : ℕ) × (d < 10) × (byte ≡ 48 + d)
        × (n ≡ before * 10 + d)) }
    ensures none { IfNone result ((d : ℕ) → d < 10 → byte ≡ 48 + d → 128 < before * 10 + d) }
{
    if !byte.is_ascii_digit() {
        return None;
    }
    let number = u16::from(before) * 10 + u16::from(byte - b'0');
    if number > u16::from(BITS) {
        return None;
    }
    Some(number as u8)
}
