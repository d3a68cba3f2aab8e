//! The walk of a packet's extension headers: what it lends, and how it ends (RFC 8200, section 4).

ghost use Rattle.std.specs.Prelude.{ℕ, ◌≡◌, ◌≤◌, List, length};
ghost use Rattle.std.specs.Option.{ForSome};
ghost use Rattle.am_ip6.specs.Fixed.{IsFixed, limit_of};
ghost use Rattle.am_ip6.specs.Chains.{Lent, HasHeaders};
ghost use Rattle.am_ip6.specs.Endings.{EndsSo};
ghost use Rattle.am_ip6.specs.Shown.{ending_shown};

use crate::chain::{Announced, Ending, Header, start, step};
use am_opts::longest_front_law;

/// The extension headers of a packet, in order: as many as stand whole one behind another.
///
/// A header of options is lent only where its options are an option list.
#[derive(Debug, Drop)]
pub struct Walk<'a> {
    bytes: &'a [u8],
    whole: bool,
    // where the next header would begin; none behind the end
    spot: Option<Announced>,
    ghost within: { ForSome spot (λ s. IsFixed bytes.now × (s.at ≤ limit_of bytes.now)) },
}

impl<'a> Walk<'a> {
    ghost use Rattle.am_ip6.specs.Left.{headers_left};

    /// The walk of a packet, all of whose bytes are there or not. It lends the longest chain of headers,
    /// and none where the bytes begin with no fixed header of version 6.
    pub fn over(bytes: &'a [u8], whole: bool) -> Walk<'a>
        ensures headers { HasHeaders bytes.now (headers_left result) }
        ensures few { length (headers_left result) ≤ length bytes.now }
    {
        longest_front_law();
        let Ok(spot) = start(bytes, whole) else {
            return Walk {
                bytes,
                whole,
                spot: None,
            };
        };
        Walk {
            bytes,
            whole,
            spot: Some(spot),
        }
    }
}

impl<'a> Iterator for Walk<'a> {
    ghost use Rattle.std.specs.Iterator.{YieldsFirstBy, item_count};
    ghost use Rattle.am_ip6.specs.Shown.{lent};
    ghost use Rattle.am_ip6.specs.Left.{headers_left};

    type Item = Header<'a>;

    ghost next_gives = { YieldsFirstBy lent headers_left };

    ghost remaining = { item_count headers_left };

    fn next(&mut self) -> Option<Header<'a>> {
        longest_front_law();
        let Some(spot) = self.spot else {
            return None;
        };
        match step(self.bytes, self.whole, spot) {
            Ok((header, _, behind)) => {
                self.spot = Some(behind);
                Some(header)
            }
            Err(_) => {
                self.spot = None;
                None
            }
        }
    }
}

/// How the walk of a packet ends behind the headers that it lends, where all of its bytes are there or not.
pub fn walk_ending(bytes: &[u8], whole: bool) -> Ending
    ensures { (hs : List Lent)
        → HasHeaders bytes.now hs → EndsSo bytes.now whole hs (ending_shown result) }
{
    let mut spot = match start(bytes, whole) {
        Ok(first) => first,
        Err(ending) => return ending,
    };
    loop {
        match step(bytes, whole, spot) {
            Ok((_, _, behind)) => spot = behind,
            Err(ending) => return ending,
        }
    }
}
