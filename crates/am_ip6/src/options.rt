//! The options of one header: whether they are an option list, and the first mark among them (RFC 8200,
//! section 4.2; RFC 9343, section 3). The bytes are gone through once.

ghost use Rattle.std.specs.Prelude.{◌≡◌, ◌+◌, ◌≤◌, List, length, IfSome, IfNone, IfOk, IfErr, OnErr, MatchOption};
ghost use Rattle.am_opts.specs.Lent.{placed};
ghost use Rattle.am_opts.specs.Marking.{Spells};
ghost use Rattle.am_opts.specs.Options.{IsOption, IsOptionList, StopsAt};
ghost use Rattle.am_ip6.specs.Marks.{IsNoMark, HasMark, HasNoMark};

use am_opts::{Mark, Opt, Options, decode_mark};

// The first mark in an area of options, and the place of its option's type there; or where the area stops
// being an option list.
pub(crate) fn first_mark(area: &[u8]) -> Result<Option<(Mark, usize)>, usize>
    requires { length area.now ≤ 2046 }
    ensures cases { IfOk result (λ f. MatchOption f (HasNoMark area.now)
        (λ m. HasMark area.now m.0 m.1)) }
    ensures within { IfOk result (λ f. IfSome f (λ m. m.1 ≤ length area.now)) }
    ensures stops { IfErr result (λ place. StopsAt area.now place) }
    ensures short { IfErr result (λ place. place ≤ length area.now) }
    ensures bad { OnErr result (IsOptionList area.now → ⊥) }
{
    let mut found = None;
    let mut end = 0;
    for option in Options::over(area) {
        found = first_of(found, option);
        end += option.bytes.len();
    }
    if end != area.len() {
        return Err(end);
    }
    Ok(found)
}

// The first mark, where this one was found so far and this option comes next.
fn first_of(found: Option<(Mark, usize)>, option: Opt) -> Option<(Mark, usize)>
    requires { IsOption option.bytes.now }
    ensures kept { IfSome found (λ m. result ≡ Some m) }
    ensures none { IfNone found (IfNone result (IsNoMark (placed option.entry))) }
    ensures spelled { IfNone found (IfSome result (λ m. Spells option.entry.bytes.now m.0)) }
    ensures at { IfNone found (IfSome result (λ m. m.1 ≡ option.entry.at)) }
{
    if found.is_some() {
        return found;
    }
    let Some((mark, _)) = decode_mark(option.bytes) else {
        return None;
    };
    Some((mark, option.at))
}
