//! A table of shared counter words, which any number of threads add to and read.
ghost use Rattle.std.specs.Prelude.{◌≡◌, ◌*◌, ◌≤◌};

use crate::pass::Pass;
use crate::rule::{Checking, Counting, Gift, Giving, Joining, Looking, Raising, Rule, Scope, View};
use crate::word::{WORDS_OF_SLOT, Word, place_of};
use atomic_table::{Seat, Table};
use std::alloc::{AllocError, Global};
use std::marker::Brand;

/// The most slots of a tally: as many as a domain may have flows.
pub const MAX_SLOTS: u32 = 1024;

/// The most adds that all passes of a tally may make together. With the greatest offset it keeps each word below 2^62,
/// so no add wraps.
pub const MAX_BUDGET: u64 = 1 << 20;

/// The greatest offset of a packet in its block, in nanoseconds.
pub const MAX_OFFSET: u64 = (1 << 42) - 1;

/// A table of shared counter words: for each slot and each of two colours a Count, a Sum, a DelayCount and a DelaySum.
///
/// Threads share it by reference, and each adds and reads with a [`Pass`] of its own.
#[derive(Drop)]
pub struct Tally {
    pub(crate) table: Table<(), View, Scope, Rule, Global>,
    pub(crate) slots: u32,
    ghost wide: { table.shared.table_id.words ≡ 8 * slots },
    ghost keyed: { table.shared.key.words ≡ 8 * slots },
    ghost some: { 1 ≤ slots },
}

impl Tally {
    ghost use Rattle.std.specs.Prelude.{◌≡◌, ℕ, ◌+◌, ◌*◌, ◌<◌, ◌≤◌, [], Bool, IfOk, max, if◌then◌else◌};
    ghost use Rattle.am_shared.specs.declared.word.Word.{Word};
    ghost use Rattle.am_shared.specs.Places.{gain, same_place};
    ghost use Rattle.am_shared.specs.Views.{share_at, counted, raised, after_giving, newcomer};
    ghost use Rattle.am_shared.specs.Passes.{slots_of, budget_of, left_of, made_of, IsOf, pass_share, pass_seen, pass_shares, pass_seens, view_of};

    /// A tally of so many slots, all of whose words are 0, and its first pass, which has the whole budget of adds.
    pub fn open(alloc: Global, slots: u32, budget: u64) -> Result<(Tally, Pass), AllocError>
        requires slots { (1 ≤ slots) × (slots ≤ MAX_SLOTS) }
        requires budget { budget ≤ MAX_BUDGET }
        ensures tally { IfOk result (λ r. (slots_of r.0 ≡ slots) × (budget_of r.0 ≡ budget)) }
        ensures own { IfOk result (λ r. IsOf r.0 r.1) }
        ensures counts { IfOk result (λ r. (left_of r.1 ≡ budget) × (made_of r.1 ≡ 0)) }
        ensures shares { IfOk result (λ r. (s : ℕ) (c : Bool) (w : Word)
            → pass_share r.1 s c w ≡ 0) }
        ensures seen { IfOk result (λ r. (s : ℕ) (c : Bool) (w : Word)
            → pass_seen r.1 s c w ≡ 0) }
    {
        let count = slots as usize * WORDS_OF_SLOT;
        let zeros = Vec::from_elem(alloc, 0u64, count)?;
        let scope = Scope {
            words: count as u64,
            budget,
        };
        let (table, seat) = Table::of_words(alloc, zeros.as_slice(), &scope)?;
        let tally = Tally { table, slots };
        let pass = Pass {
            seat,
            left: budget,
            made: 0,
        };
        Ok((tally, pass))
    }

    /// Cuts a new pass off, with so much of the budget. It has no share, and has seen what the old pass had seen. So it
    /// never reads less than the old pass's share at this moment.
    pub fn split(&self, pass: &mut Pass, budget: u64) -> Pass
        requires own { IsOf self.now pass.old }
        requires enough { budget ≤ left_of pass.old }
        ensures own { IsOf self.now pass.new × IsOf self.now result }
        ensures left { left_of pass.new + budget ≡ left_of pass.old }
        ensures made { made_of pass.new ≡ made_of pass.old }
        ensures shares { pass_shares pass.new ≡ pass_shares pass.old }
        ensures seen { pass_seens pass.new ≡ pass_seens pass.old }

        // What the new pass begins with.
        ensures given { (left_of result ≡ budget) × (made_of result ≡ 0) }
        ensures no_share { (s : ℕ) (c : Bool) (w : Word) → pass_share result s c w ≡ 0 }
        ensures told { pass_seens result ≡ pass_seens pass.old }
        ensures enough_told { (s : ℕ) (c : Bool) (w : Word)
            → pass_share pass.old s c w ≤ pass_seen result s c w }
    {
        let seat = self.give::<Brand>(&mut pass.seat, budget);
        pass.left -= budget;
        Pass {
            seat,
            left: budget,
            made: 0,
        }
    }

    // Cuts a seat off that has so much of the budget.
    fn give<G: Gift>(&self, seat: &mut Seat<(), View>, budget: u64) -> Seat<(), View>
        requires seated { seat.old.table_id ≡ self.now.table.shared.table_id }
        requires carries { seat.old.me.0.budget ≡ budget_of self.now }
        requires given { budget ≡ G.given }
        requires enough { budget ≤ seat.old.me.0.left }
        ensures seated { seat.new.table_id ≡ seat.old.table_id }
        ensures new_seated { result.table_id ≡ seat.old.table_id }
        ensures old { seat.new.me ≡ (after_giving budget seat.old.me.0, seat.old.me.1) }
        ensures new { result.me ≡ (newcomer budget seat.old.me.0, []) }
    {
        self.table.shared.split_seat::<Giving<G>>(seat)
    }

    /// Counts one packet with its offset in its block. The pass's shares of Count and Sum rise by 1 and by the offset,
    /// and those of DelayCount and DelaySum too where the packet measures delay. No other share changes. What the pass
    /// has seen of a word rises to its share where it is below, and never falls.
    pub fn add(&self, pass: &mut Pass, slot: u32, colour: bool, delay: bool, offset: u64)
        requires own { IsOf self.now pass.old }
        requires left { 1 ≤ left_of pass.old }
        requires slot { slot < slots_of self.now }
        requires offset { offset ≤ MAX_OFFSET }
        ensures own { IsOf self.now pass.new }
        ensures left { left_of pass.new + 1 ≡ left_of pass.old }
        ensures made { made_of pass.new ≡ made_of pass.old + 1 }
        ensures shares { (s : ℕ) (c : Bool) (w : Word)
            → pass_share pass.new s c w
            ≡ pass_share pass.old s c w + gain slot colour delay offset s c w }
        ensures seen { (s : ℕ) (c : Bool) (w : Word)
            → pass_seen pass.new s c w
            ≡ max (pass_seen pass.old s c w) (pass_share pass.new s c w) }
    {
        self.count(pass, place_of(slot, colour, Word::Count));
        self.raise(pass, place_of(slot, colour, Word::Sum), offset);
        if delay {
            self.raise(pass, place_of(slot, colour, Word::DelayCount), 1);
            self.raise(pass, place_of(slot, colour, Word::DelaySum), offset);
        }
    }

    // Adds 1 to a Count word, as the first step of an add.
    fn count(&self, pass: &mut Pass, place: usize)
        requires own { IsOf self.now pass.old }
        requires left { 1 ≤ left_of pass.old }
        requires place { place < 8 * slots_of self.now }
        ensures own { IsOf self.now pass.new }
        ensures view { view_of pass.new ≡ counted place (view_of pass.old) }
    {
        self.table
            .shared
            .fetch_add::<Counting>(&mut pass.seat, place, 1);
        pass.left -= 1;
        pass.made += 1;
    }

    // Adds a number to a word of another kind. The first step of the same add has made room for it.
    fn raise(&self, pass: &mut Pass, place: usize, more: u64)
        requires own { IsOf self.now pass.old }
        requires place { place < 8 * slots_of self.now }
        requires room { share_at (view_of pass.old) place + more
            ≤ (view_of pass.old).made * MAX_OFFSET }
        ensures own { IsOf self.now pass.new }
        ensures view { view_of pass.new ≡ raised place more (view_of pass.old) }
    {
        self.table
            .shared
            .fetch_add::<Raising>(&mut pass.seat, place, more);
    }

    /// What a word is now: at least the pass's share of it, and at least what the pass had seen of it. From now on the
    /// pass has seen this.
    ///
    /// It is exactly the pass's share where what the pass has made and has left is the whole budget of the tally. Then
    /// all other passes were joined into it or have made nothing. Else nothing is known of what others added.
    pub fn read(&self, pass: &mut Pass, slot: u32, colour: bool, word: Word) -> u64
        requires own { IsOf self.now pass.old }
        requires slot { slot < slots_of self.now }
        ensures own { IsOf self.now pass.new }
        ensures share { pass_share pass.old slot colour word ≤ result }
        ensures seen { pass_seen pass.old slot colour word ≤ result }
        ensures exact { made_of pass.old + left_of pass.old ≡ budget_of self.now
            → result ≡ pass_share pass.old slot colour word }

        // What is left of the pass as it was, and what was seen.
        ensures left { left_of pass.new ≡ left_of pass.old }
        ensures made { made_of pass.new ≡ made_of pass.old }
        ensures shares { pass_shares pass.new ≡ pass_shares pass.old }
        ensures sees { (s : ℕ) (c : Bool) (w : Word)
            → pass_seen pass.new s c w
            ≡ (if same_place s c w slot colour word then result else pass_seen pass.old s c w) }
    {
        let place = place_of(slot, colour, word);
        self.table.shared.load::<Looking>(&mut pass.seat, place)
    }

    /// Joins a pass into another: shares and numbers of adds are those of both together. What was seen of each word is
    /// the greatest of what both had seen and of the new share.
    pub fn join(&self, pass: &mut Pass, other: Pass)
        requires own { IsOf self.now pass.old }
        requires other { IsOf self.now other }
        ensures own { IsOf self.now pass.new }
        ensures left { left_of pass.new ≡ left_of pass.old + left_of other }
        ensures made { made_of pass.new ≡ made_of pass.old + made_of other }
        ensures shares { (s : ℕ) (c : Bool) (w : Word)
            → pass_share pass.new s c w ≡ pass_share pass.old s c w + pass_share other s c w }
        ensures seen { (s : ℕ) (c : Bool) (w : Word)
            → pass_seen pass.new s c w
            ≡ max (max (pass_seen pass.old s c w) (pass_seen other s c w))
            (pass_share pass.new s c w) }
    {
        let Pass { seat, left, made } = other;
        self.table.shared.join_seat::<Joining>(&mut pass.seat, seat);
        // Only a step tells what both together may have at most, which keeps the sums below from wrapping.
        self.table.shared.load::<Checking>(&mut pass.seat, 0);
        pass.left += left;
        pass.made += made;
    }
}
