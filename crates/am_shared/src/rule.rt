//! What holds of the shared words and of all passes at every moment, and the kinds of steps that keep it.
//!
//! Each word is the sum of all passes' shares of it. What is left and what was made, over all passes, is the whole
//! budget. Each share is at most what was made through its pass, times the greatest offset. So no word passes 2^62, and
//! the pass that has the whole budget leaves nothing to any other: its shares are the words.
//!
//! A pass holds a seat of the table. What the seat knows, its view, exists in proofs alone.
ghost use Rattle.std.specs.Prelude.{ℕ};

use atomic_table::{Join, Play, Split, TableRule};
use std::collections::LinkedList;
use std::marker::{Brand, PhantomData};

// What a pass knows. No value of it is made: the shares and what was seen, by the words' numbers, and the numbers of
// adds. Whoever changes it changes the views in `specs/Views`, and the rule with them.
pub struct View {
    pub shares: LinkedList<u64>,
    pub seen: LinkedList<u64>,
    pub left: u64,
    pub made: u64,
    pub budget: u64,
}

// What a table is made with: the number of its words, and the whole budget.
#[derive(Drop)]
pub struct Scope {
    pub words: u64,
    pub budget: u64,
}

// The rule of the words and all views.
pub struct Rule;

impl TableRule<(), View, Scope> for Rule {
    ghost use Rattle.am_shared.specs.Rule.{IsBalanced};
    ghost use Rattle.am_shared.specs.Views.{starter};

    ghost holds = { IsBalanced };

    ghost first = { λ scope. starter scope.budget };
}

// 1 is added to a Count word.
pub(crate) struct Counting;

impl Play<(), View> for Counting {
    ghost use Rattle.am_shared.specs.Steps.{did_count};

    ghost then = { did_count };
}

// A number is added to a word of another kind.
pub(crate) struct Raising;

impl Play<(), View> for Raising {
    ghost use Rattle.am_shared.specs.Steps.{did_raise};

    ghost then = { did_raise };
}

// A word is read.
pub(crate) struct Looking;

impl Play<(), View> for Looking {
    ghost use Rattle.am_shared.specs.Steps.{did_look};

    ghost then = { did_look };
}

// A word is loaded for the bound on what the pass has alone.
pub(crate) struct Checking;

impl Play<(), View> for Checking {
    ghost use Rattle.am_shared.specs.Steps.{did_check};

    ghost then = { did_check };
}

// How much budget a split gives, which is known when the program runs.
pub(crate) trait Gift {
    ghost given: { ℕ };
}

impl Gift for Brand {
    ghost given = { 0 };
}

// A pass gives budget to a new one.
pub(crate) struct Giving<G> {
    gift: PhantomData<G>,
}

impl<G: Gift> Split<View> for Giving<G> {
    ghost use Rattle.am_shared.specs.Views.{after_giving, newcomer};

    ghost left = { after_giving G.given };

    ghost right = { newcomer G.given };
}

// A pass takes another in, which is spent.
pub(crate) struct Joining;

impl Join<View> for Joining {
    ghost use Rattle.am_shared.specs.Views.{joined_views, spent};

    ghost both = { joined_views };

    ghost spent = { spent };
}
