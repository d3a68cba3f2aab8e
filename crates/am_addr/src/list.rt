//! Lists of groups, as they stand in an address's text: one to four hexadecimal digits each, joined by `:`.
//!
//! A list is read in one pass. It has at most eight groups.

ghost use Rattle.std.specs.Prelude.{◌≡◌, ℕ, ◌+◌, ◌*◌, ◌^◌, ◌<◌, ◌≤◌, ◌⊎◌, ◌↔◌, List, [], ◌∷◌, ◌++◌, length, IfSome, IfNone, IsSomeAnd};
ghost use Rattle.am_addr.specs.Text.{IsDigit, IsList};
ghost use Rattle.am_addr.specs.Walk.{listed, Reads};

use crate::groups::Groups;

// An address has so many values.
const MOST: usize = 8;

// A group has at most so many digits.
const MOST_DIGITS: u8 = 4;

/// The values of a list of at most eight groups, joined by `:`. Of the empty text there are none.
pub fn list_of(text: &[u8]) -> Option<Groups>
    ensures only { IfSome result (λ g. IsList (listed g) text.now) }
    ensures found { (values : List ℕ) → length values ≤ 8 → IsList values text.now
        → IsSomeAnd result (λ g. listed g ≡ values) }
{
    if text.is_empty() {
        return Some(Groups::new());
    }
    let mut reading = Reading::new();
    for byte in text {
        let Some(next) = reading.step(*byte) else {
            return None;
        };
        reading = next;
    }
    reading.end()
}

// How far a list is read: the groups that have ended, and of the one that hasn't how many digits it has so far
// and what they stand for.
#[derive(Clone, Copy)]
struct Reading {
    ended: Groups,
    digits: u8,
    value: u16,
    ghost few: { digits ≤ 4 },
    ghost small: { value < 16 ^ digits },
}

impl Reading {
    fn new() -> Reading
        ensures groups { listed result.ended ≡ [] }
        ensures digits { result.digits ≡ 0 }
        ensures value { result.value ≡ 0 }
    {
        Reading {
            ended: Groups::new(),
            digits: 0,
            value: 0,
        }
    }

    // The list with one more byte read. None where no list goes on with it.
    fn step(self, byte: u8) -> Option<Reading>
        ensures goes { IfSome result (λ next. (rest values : List ℕ) →
            Reads (listed self.ended) self.digits self.value (byte ∷ rest) values
            ↔ Reads (listed next.ended) next.digits next.value rest values) }
        ensures none { IfNone result ((rest values : List ℕ) → length values ≤ 8
            → Reads (listed self.ended) self.digits self.value (byte ∷ rest) values → ⊥) }
    {
        if byte == b':' {
            let Some(ended) = self.end() else {
                return None;
            };
            return Some(Reading {
                ended,
                digits: 0,
                value: 0,
            });
        }
        let Some(digit) = digit_of(byte) else {
            return None;
        };
        if self.digits == MOST_DIGITS {
            return None;
        }
        Some(Reading {
            ended: self.ended,
            digits: self.digits + 1,
            value: self.value * 16 + digit,
        })
    }

    // The groups, where the last one ends here. None where it has no digit, and where it is the ninth.
    fn end(self) -> Option<Groups>
        ensures ended { IfSome result (λ g. (0 < self.digits)
            × (listed g ≡ listed self.ended ++ self.value ∷ [])) }
        ensures none { IfNone result ((self.digits ≡ 0) ⊎ (length (listed self.ended) ≡ 8)) }
    {
        if self.digits == 0 || self.ended.count() == MOST {
            return None;
        }
        let mut groups = self.ended;
        groups.push(self.value);
        Some(groups)
    }
}

// What a hexadecimal digit stands for.
fn digit_of(byte: u8) -> Option<u16>
    ensures only { IfSome result (λ d. IsDigit byte d) }
    ensures none { IfNone result ((d : ℕ) → IsDigit byte d → ⊥) }
{
    match byte {
        b'0'..=b'9' => Some(u16::from(byte - b'0')),
        b'a'..=b'f' => Some(u16::from(byte - b'a') + 10),
        b'A'..=b'F' => Some(u16::from(byte - b'A') + 10),
        _ => None,
    }
}
