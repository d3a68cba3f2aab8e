//! Which calls of a shelf or a sink in memory fail.
ghost use Rattle.std.specs.Prelude.{◌≡◌};
ghost use Rattle.am_base.specs.Failing.{is_bad};

// Whether the call of this number is one of those that fail.
pub(crate) fn is_listed(numbers: &[u64], number: u64) -> bool
    ensures { result ≡ is_bad numbers.now number }
{
    numbers.contains(&number)
}
