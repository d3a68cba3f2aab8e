//! Bytes that are put one before the other.
ghost use Rattle.std.specs.Prelude.{◌≡◌, ◌+◌, ◌≤◌, ◌<◌, ◌++◌, ◌∷◌, [], length, decimal};
ghost use Rattle.std.specs.Fmt.{signed_decimal};

use itoa::{Buffer, write_digits};
use std::marker::Model;

/// How many bytes a tail holds at most. The longest lines that are made so are those of the loss table, which have fewer
/// than 300.
pub const MAX_TAIL: usize = 320;

/// Bytes, the last of which were put first. To a contract it is the list of them.
#[derive(Drop)]
pub struct Tail {
    bytes: [u8; MAX_TAIL],
    from: usize,
}

impl Model for Tail {
    ghost use Rattle.std.specs.Prelude.{◌≤◌, ℕ, List, drop};
    ghost use Rattle.am_tail.specs.declared.tail.TheConstants.{MAX_TAIL};

    ghost Value = { List ℕ };

    ghost view = { λ t. drop t.from t.bytes };

    ghost invariant = { λ t. t.from ≤ MAX_TAIL };
}

impl Tail {
    /// No bytes.
    #[inline(always)]
    pub fn new() -> Tail
        ensures { result ≡ [] }
    {
        Tail {
            bytes: [0; MAX_TAIL],
            from: MAX_TAIL,
        }
    }

    /// Lets all bytes go.
    #[inline(always)]
    pub fn clear(&mut self)
        ensures { self.new ≡ [] }
    {
        self.from = MAX_TAIL;
    }

    /// Puts a byte before those that stand.
    #[inline(always)]
    pub fn put(&mut self, byte: u8)
        requires { length self.old < MAX_TAIL }
        ensures text { self.new ≡ byte ∷ self.old }
        ensures room { length self.new ≡ length self.old + 1 }
    {
        self.from -= 1;
        self.bytes[self.from] = byte;
    }

    /// Puts these bytes before those that stand.
    #[inline(always)]
    pub fn put_all(&mut self, bytes: &[u8])
        requires { length self.old + length bytes.now ≤ MAX_TAIL }
        ensures text { self.new ≡ bytes.now ++ self.old }
        ensures room { length self.new ≡ length self.old + length bytes.now }
    {
        let end = self.from;
        self.from -= bytes.len();
        self.bytes[self.from..end].copy_from_slice(bytes);
    }

    /// Puts the decimal digits of a number before the bytes that stand.
    #[inline(always)]
    #[tactic(auto, using(std::proofs::lemmas::Fmt::decimal_digit))]
    pub fn put_number(&mut self, number: u64)
        requires { length self.old + 20 ≤ MAX_TAIL }
        ensures text { self.new ≡ decimal number ++ self.old }
        ensures room { length self.new ≤ length self.old + 20 }
    {
        if number < 10 {
            return self.put(b'0' + number as u8);
        }
        self.put_digits(number);
    }

    // The same, two digits at a time.
    #[inline(always)]
    fn put_digits(&mut self, number: u64)
        requires { length self.old + 20 ≤ MAX_TAIL }
        ensures text { self.new ≡ decimal number ++ self.old }
        ensures room { length self.new ≤ length self.old + 20 }
    {
        self.from = write_digits(number, &mut self.bytes, self.from);
    }

    /// Puts a number that may be negative: its sign and its digits.
    #[inline(always)]
    pub fn put_signed(&mut self, number: i128)
        requires { length self.old + 40 ≤ MAX_TAIL }
        ensures text { self.new ≡ signed_decimal number ++ self.old }
        ensures room { length self.new ≤ length self.old + 40 }
    {
        let size = number.unsigned_abs();
        if size > u128::from(u64::MAX) {
            return self.put_wide(number);
        }
        self.put_number(size as u64);
        if number < 0 {
            self.put(b'-');
        }
    }

    // The same of a number that has more than 64 bits, which is rare.
    #[cold]
    #[inline(never)]
    fn put_wide(&mut self, number: i128)
        requires { length self.old + 40 ≤ MAX_TAIL }
        ensures text { self.new ≡ signed_decimal number ++ self.old }
        ensures room { length self.new ≤ length self.old + 40 }
    {
        let mut buffer = Buffer::new();
        self.put_all(buffer.format(number).as_bytes());
    }

    /// The bytes.
    #[inline(always)]
    pub fn text(&self) -> &[u8]
        ensures { result.now ≡ self.now }
    {
        &self.bytes[self.from..]
    }
}
