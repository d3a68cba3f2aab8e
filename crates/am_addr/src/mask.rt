//! Masks: how many of an address's first bits count, made ready to clear the others of many addresses.

ghost use Rattle.std.specs.Prelude.{◌≡◌, ◌↔◌, ℕ, ◌≤◌, IsTrue, nat_eq};
ghost use Rattle.std.specs.Cmp;
ghost use Rattle.std.specs.Cmp.{nat_eq_equiv};
ghost use Rattle.am_addr.specs.Bits.{cleared, kept, ones};

use crate::address::Addr;
use std::marker::Model;

/// How many of an address's first bits count. An address has 128.
#[derive(Clone, Copy, Debug)]
pub struct Mask {
    count: u8,
    // the bits that count are 1, and the others 0
    bits: [u8; 16],
}

impl Model for Mask {
    ghost use Rattle.std.specs.Prelude.{◌≡◌, ℕ};
    ghost use Rattle.am_addr.specs.Bits.{ones};

    ghost Value = { ℕ };

    ghost view = { λ m. m.count };

    ghost invariant = { λ m. m.bits ≡ ones m.count };

    ghost inverse = { λ n. record { count = n; bits = ones n } };
}

impl PartialEq for Mask {
    ghost eq = { nat_eq };

    ghost laws = { Cmp.partial_equiv_from_equiv nat_eq_equiv };

    fn eq(&self, other: &Mask) -> bool {
        self.count == other.count
    }
}

impl Eq for Mask {
    ghost laws = { nat_eq_equiv };
}

impl Mask {
    /// The mask of so many first bits.
    pub fn new(count: u8) -> Mask
        ensures { result ≡ count }
    {
        let Addr(bits) = front_of(&Addr([255; 16]), count);
        Mask { count, bits }
    }

    /// How many bits count.
    pub(crate) fn count(&self) -> u8
        ensures { result ≡ self.now }
    {
        self.count
    }

    /// Whether the address with each bit that doesn't count set to 0 is this one.
    #[inline(always)]
    pub(crate) fn clears_to(&self, addr: &Addr, base: &Addr) -> bool
        ensures { IsTrue result ↔ cleared self.now addr.now.0 ≡ base.now.0 }
    {
        are_same(&both(&addr.0, &self.bits), &base.0)
    }

    /// The address with each bit that doesn't count set to 0.
    pub fn clear(&self, addr: &Addr) -> Addr
        ensures { result.0 ≡ cleared self.now addr.now.0 }
    {
        Addr(both(&addr.0, &self.bits))
    }
}

// The bits that both have: where the one has ones at the front, the first bits of the other.
fn both(bytes: &[u8; 16], bits: &[u8; 16]) -> [u8; 16]
    ensures { (count : ℕ) → bits.now ≡ ones count → result ≡ cleared count bytes.now }
{
    let mut kept = [0; 16];
    for i in 0..16 {
        kept[i] = bytes[i] & bits[i];
    }
    kept
}

// Whether the bytes are the same. All are looked at, which a compiler turns into one look.
#[inline(always)]
fn are_same(bytes: &[u8; 16], others: &[u8; 16]) -> bool
    ensures { IsTrue result ↔ bytes.now ≡ others.now }
{
    let mut same = true;
    for i in 0..16 {
        if bytes[i] != others[i] {
            same = false;
        }
    }
    same
}

// The address with each bit past this many set to 0.
pub(crate) fn front_of(addr: &Addr, length: u8) -> Addr
    ensures { result.0 ≡ cleared length addr.now.0 }
{
    let mut bytes = addr.0;
    let mut rest = length;
    for byte in &mut bytes {
        if rest >= 8 {
            rest -= 8;
        } else {
            *byte = keep(*byte, rest);
            rest = 0;
        }
    }
    Addr(bytes)
}

// The byte with each bit past the first ones, so many, set to 0.
fn keep(byte: u8, count: u8) -> u8
    requires { count ≤ 8 }
    ensures { result ≡ kept count byte }
{
    let others = 8 - count;
    let first = u16::from(byte) >> others;
    (first << others) as u8
}
