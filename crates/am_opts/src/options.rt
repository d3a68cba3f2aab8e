//! Option lists, as they stand in a Hop-by-Hop Options or a Destination Options header behind its first two
//! bytes (RFC 8200, section 4.2).
//!
//! An option is a Pad1, which is the single byte 0, or a type of 1 to 255, a length, and as many bytes of
//! data. Type 1 is a PadN, whose data may be anything here. The AltMark Option has type 0x12 and length 4
//! (RFC 9343, section 3). Nothing here allocates or copies a byte.

ghost use Rattle.std.specs.Prelude.{◌≡◌, ℕ, ◌+◌, ◌≤◌, List, ◌++◌, length, IfSome, IfNone, IfOk, IfErr, OnErr, IsOk};
ghost use Rattle.am_opts.specs.Options.{IsOption, IsOptionList, HasOptionsSoMany, StopsAt, BeginsWithNone, IsLongest};

// The type of a Pad1, which has no length and no data (RFC 8200, section 4.2).
const PAD1: u8 = 0;

/// An option of an area: its place there, and its bytes, type and length included.
#[derive(Clone, Copy, Debug)]
pub struct Opt<'a> {
    /// The place of the option's type in the area.
    pub at: usize,
    /// The bytes of the option: a Pad1's one byte, or type, length and data.
    pub bytes: &'a [u8],
}

/// Where an area stops being an option list: the length of its longest front that is one.
#[derive(Clone, Copy, Debug, PartialEq, Eq)]
pub struct OptFault {
    pub place: usize,
}

/// The options of the longest front of an area that is an option list, in order (RFC 8200, section 4.2).
#[derive(Debug, Drop)]
pub struct Options<'a> {
    area: &'a [u8],
    // where the next option begins
    at: usize,
    ghost within: { at ≤ length area.now },
}

impl<'a> Options<'a> {
    ghost use Rattle.am_opts.specs.Lent.{left};

    /// Lends the options of an area, as far as it is an option list, each with its place and its bytes.
    pub fn over(area: &'a [u8]) -> Options<'a>
        ensures longest { IsLongest 0 area.now (left result) }
        ensures few { length (left result) ≤ length area.now }
    {
        Options { area, at: 0 }
    }
}

impl<'a> Iterator for Options<'a> {
    ghost use Rattle.std.specs.Iterator.{YieldsFirstBy, item_count};
    ghost use Rattle.am_opts.specs.Lent.{placed, left};

    type Item = Opt<'a>;

    ghost next_gives = { YieldsFirstBy placed left };

    ghost remaining = { item_count left };

    fn next(&mut self) -> Option<Opt<'a>> {
        let (_, rest) = self.area.split_at(self.at);
        let Some(bytes) = first_option(rest) else {
            return None;
        };
        let at = self.at;
        self.at += bytes.len();
        Some(Opt { at, bytes })
    }
}

/// How many options an area has, where the whole area is an option list (RFC 8200, section 4.2). Elsewhere
/// the length of its longest front that is one.
///
/// An option of any type is passed over, and the data of a PadN may be anything. An area of a header has at
/// most 2,046 bytes.
pub fn check_options(area: &[u8]) -> Result<u32, OptFault>
    requires { length area.now ≤ 2046 }
    ensures count { IfOk result (λ n. HasOptionsSoMany area.now n) }
    ensures fault { IfErr result (λ e. StopsAt area.now e.place) }
    ensures whole { IsOptionList area.now → IsOk result }
    ensures refused { OnErr result (IsOptionList area.now → ⊥) }
{
    let mut count: u32 = 0;
    let mut end: usize = 0;
    for option in Options::over(area) {
        count += 1;
        end += option.bytes.len();
    }
    if end != area.len() {
        return Err(OptFault { place: end });
    }
    Ok(count)
}

// The option that the bytes begin with. None exactly where they begin with none: where there are no bytes,
// where a length is missing, and where fewer bytes of data are there than the length says.
fn first_option(bytes: &[u8]) -> Option<&[u8]>
    ensures option { IfSome result (λ o. IsOption o.now) }
    ensures front { IfSome result (λ o. (after : List ℕ) × (bytes.now ≡ o.now ++ after)) }
    ensures none { IfNone result (BeginsWithNone bytes.now) }
{
    let length = match bytes {
        [] => return None,
        [PAD1, ..] => 1,
        [_] => return None,
        [_, size, ..] => 2 + usize::from(*size),
    };
    if length > bytes.len() {
        return None;
    }
    let (option, _) = bytes.split_at(length);
    Some(option)
}
