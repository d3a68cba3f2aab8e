//! The text of an address that is printed (RFC 5952, section 4).

ghost use Rattle.std.specs.Prelude.{◌≡◌, ℕ, ◌+◌, ◌*◌, ◌/◌, ◌%◌, ◌<◌, ◌≤◌, ◌⊎◌, List, [], ◌∷◌, ◌++◌, length, replicate, take, drop, IfOk, OnOk};
ghost use Rattle.std.specs.String.{string_bytes};
ghost use Rattle.am_addr.specs.Text.{IsTextOf};
ghost use Rattle.am_addr.specs.Print.{IsPrinted, IsBestBelow, glyph, group_of, list_of, values_of, AreBytes};

use crate::address::Addr;
use std::alloc::{AllocError, Global};

/// The text of an address (RFC 5952, section 4): its values in hexadecimal, in lower case and without leading
/// zeros, joined by `:`. The longest run of two or more values 0, and of several longest the first, is `::`.
///
/// No address is written with a dotted end. Reading the text gives the address back.
pub fn print(alloc: Global, addr: &Addr) -> Result<String, AllocError>
    ensures printed { IfOk result (λ s. IsPrinted (string_bytes s) (values_of addr.now.0)) }
    // The text is one of this address, so `parse` gives the address back.
    ensures read_back { IfOk result (λ s. IsTextOf (string_bytes s) addr.now.0) }
{
    let values = values_in(addr);
    let (at, count) = longest_run(&values);
    let mut text = String::new(alloc);
    if count < 2 {
        push_list(&mut text, &values)?;
        return Ok(text);
    }
    let (front, rest) = values.split_at(at);
    let (_, back) = rest.split_at(count);
    push_list(&mut text, front)?;
    text.push_str("::")?;
    push_list(&mut text, back)?;
    Ok(text)
}

// The address's values.
fn values_in(addr: &Addr) -> [u16; 8]
    ensures value { result ≡ values_of addr.now.0 }
    ensures sixteen { length addr.now.0 ≡ 16 }
    ensures bytes { AreBytes addr.now.0 }
{
    let [a, b, c, d, e, f, g, h, i, j, k, l, m, n, o, p] = addr.0;
    [
        joined(a, b),
        joined(c, d),
        joined(e, f),
        joined(g, h),
        joined(i, j),
        joined(k, l),
        joined(m, n),
        joined(o, p),
    ]
}

fn joined(high: u8, low: u8) -> u16
    ensures { result ≡ high * 256 + low }
{
    u16::from(high) * 256 + u16::from(low)
}

// Where the longest run of zeros begins, of several longest the first, and how long it is. It is 0 where no
// value is 0.
fn longest_run(values: &[u16]) -> (usize, usize)
    requires { length values.now ≤ 8 }
    ensures run { result.0 + result.1 ≤ length values.now }
    ensures zeros { take result.1 (drop result.0 values.now) ≡ replicate result.1 0 }
    ensures best { IsBestBelow values.now (length values.now) result.0 result.1 }
{
    let mut at = 0;
    let mut count = 0;
    for place in 0..values.len() {
        let (_, rest) = values.split_at(place);
        let zeros = zeros_in(rest);
        if zeros > count {
            at = place;
            count = zeros;
        }
    }
    (at, count)
}

// How many zeros the values begin with.
fn zeros_in(values: &[u16]) -> usize
    ensures within { result ≤ length values.now }
    ensures zeros { take result values.now ≡ replicate result 0 }
    ensures most { (n : ℕ) (back : List ℕ) → values.now ≡ replicate n 0 ++ back → n ≤ result }
{
    for (place, value) in values.iter().enumerate() {
        if *value != 0 {
            return place;
        }
    }
    values.len()
}

// Appends values, joined by `:`.
fn push_list(text: &mut String, values: &[u16]) -> Result<(), AllocError>
    ensures { OnOk result (string_bytes text.new ≡ string_bytes text.old
        ++ list_of values.now) }
{
    for (place, value) in values.iter().enumerate() {
        if place > 0 {
            text.push(':')?;
        }
        push_group(text, *value)?;
    }
    Ok(())
}

// Appends a value in hexadecimal, without leading zeros.
#[tactic(auto, unfolding(crate::specs::Print::group_of))]
fn push_group(text: &mut String, value: u16) -> Result<(), AllocError>
    ensures { OnOk result (string_bytes text.new ≡ string_bytes text.old ++ group_of value) }
{
    if value >= 0x1000 {
        push_digit(text, value / 0x1000)?;
    }
    if value >= 0x100 {
        push_digit(text, value / 0x100 % 16)?;
    }
    if value >= 0x10 {
        push_digit(text, value / 0x10 % 16)?;
    }
    push_digit(text, value % 16)
}

// Appends one digit, in lower case.
fn push_digit(text: &mut String, digit: u16) -> Result<(), AllocError>
    requires { digit < 16 }
    ensures { OnOk result (string_bytes text.new ≡ string_bytes text.old ++ glyph digit ∷ []) }
{
    let byte = if digit < 10 {
        b'0' + digit as u8
    } else {
        b'a' + (digit as u8 - 10)
    };
    text.push(char::from(byte))
}
