//! Numbers in text and in bytes.
ghost use Rattle.std.specs.Prelude.{◌≡◌, SomeIff};
ghost use Rattle.std.specs.Str.Parse.{digits_value};
ghost use Rattle.am_base.specs.Numbers.{IsDecimal, big_16, big_32, little_16, little_32};

/// The number that the text writes: `0`, or a digit 1 to 9 and any digits behind it, up to the greatest `u128`. Anything
/// else, a sign, a leading zero or a `_` among it, is no number.
pub fn decimal(text: &[u8]) -> Option<u128>
    ensures { SomeIff result (IsDecimal text.now) (digits_value 10 text.now) }
{
    match text {
        [b'0'] => Some(0),
        [b'1'..=b'9', ..] => match std::str::from_utf8(text) {
            Ok(digits) => digits.parse::<u128>().ok(),
            Err(_) => None,
        },
        _ => None,
    }
}

/// The number in two bytes in network order.
pub fn be16(bytes: &[u8; 2]) -> u16
    ensures { result ≡ big_16 bytes.now }
{
    u16::from_be_bytes(*bytes)
}

/// The number in four bytes in network order.
pub fn be32(bytes: &[u8; 4]) -> u32
    ensures { result ≡ big_32 bytes.now }
{
    u32::from_be_bytes(*bytes)
}

/// The number in two bytes, the lowest first.
pub fn le16(bytes: &[u8; 2]) -> u16
    ensures { result ≡ little_16 bytes.now }
{
    u16::from_le_bytes(*bytes)
}

/// The number in four bytes, the lowest first.
pub fn le32(bytes: &[u8; 4]) -> u32
    ensures { result ≡ little_32 bytes.now }
{
    u32::from_le_bytes(*bytes)
}
