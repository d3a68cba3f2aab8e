//! What one user of a tally adds and reads with.
ghost use Rattle.std.specs.Prelude.{◌≡◌, length};
ghost use Rattle.am_shared.specs.Rule.{IsConsistent};

use crate::rule::View;
use atomic_table::Seat;

/// A pass of a [`Tally`](crate::Tally). It may be handed to another thread.
///
/// It knows its share of each word, which is what was added to the word through it and through the passes that were
/// joined into it, and it knows what it has seen of each word: a read gives no less. It knows nothing of what others add,
/// until they are joined into it. A pass that is dropped takes with it what it has left and has made. Where that was
/// anything, no other pass of its tally can then have the whole budget.
#[derive(Drop)]
pub struct Pass {
    pub(crate) seat: Seat<(), View>,
    pub(crate) left: u64,
    pub(crate) made: u64,
    ghost left_is: { left ≡ seat.me.0.left },
    ghost made_is: { made ≡ seat.me.0.made },
    ghost no_slot: { length seat.me.1 ≡ 0 },
    ghost sound: { IsConsistent seat.me.0 },
}

impl Pass {
    ghost use Rattle.std.specs.Prelude.{◌≡◌};
    ghost use Rattle.am_shared.specs.Passes.{left_of, made_of};

    /// How many adds the pass may still make.
    pub fn left(&self) -> u64
        ensures { result ≡ left_of self.now }
    {
        self.left
    }

    /// How many adds were made through the pass, and through the passes that were joined into it.
    pub fn made(&self) -> u64
        ensures { result ≡ made_of self.now }
    {
        self.made
    }
}
