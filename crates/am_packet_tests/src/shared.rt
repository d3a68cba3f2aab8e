//! Passes of am_shared: what they add and read, alone and in threads.
ghost use Rattle.std.specs.Prelude.{◌<◌, ◌≤◌};
ghost use Rattle.am_shared.specs.Passes.{slots_of, IsOf};

use am_shared::{MAX_BUDGET, MAX_OFFSET, Pass, Tally, Word};
use std::sync::Wait;
use std::test::Fail;
use std::thread;
use std::thread::Threads;

// The four words of a slot and colour.
fn words(tally: &Tally, pass: &mut Pass, slot: u32, colour: bool) -> [u64; 4]
    requires own { IsOf tally.now pass.old }
    requires slot { slot < slots_of tally.now }
    ensures own { IsOf tally.now pass.new }
{
    [
        tally.read(pass, slot, colour, Word::Count),
        tally.read(pass, slot, colour, Word::Sum),
        tally.read(pass, slot, colour, Word::DelayCount),
        tally.read(pass, slot, colour, Word::DelaySum),
    ]
}

// An add of one pass is read by the other before they are joined.
#[test]
fn passes_read_the_sum_of_their_adds(rt: HostRuntime) -> Result<(), Fail> {
    let (tally, mut first) = Tally::open(rt.alloc(), 1024, MAX_BUDGET)?;
    let mut second = tally.split(&mut first, 4);
    assert!(rt; (first.left(), second.left()) == (1_048_572, 4));
    tally.add(&mut first, 0, false, false, 5);
    tally.add(&mut second, 0, false, true, 7);
    assert!(rt; words(&tally, &mut first, 0, false) == [2, 12, 1, 7]);
    tally.add(&mut second, 1023, true, true, MAX_OFFSET);
    tally.join(&mut first, second);
    tally.add(&mut first, 1023, true, true, MAX_OFFSET);
    let greatest = 2 * 4_398_046_511_103;
    assert!(rt; words(&tally, &mut first, 1023, true) == [2, greatest, 2, greatest]);
    assert!(rt; words(&tally, &mut first, 1023, false) == [0, 0, 0, 0]);
    assert!(rt; (first.left(), first.made()) == (1_048_572, 4));
    Ok(())
}

// Adds a thousand packets, of which each has the offset 3 and every second one measures delay.
fn add_thousand(tally: &Tally, mut pass: Pass)
    requires own { IsOf tally.now pass }
    requires slots { 1 ≤ slots_of tally.now }
{
    for number in 0..1000 {
        if pass.left() == 0 {
            return;
        }
        tally.add(&mut pass, 0, true, number % 2 == 0, 3);
    }
}

// Two threads of a scope add to one tally, each through a pass of its own.
fn add_in_threads<R: Threads + Wait + Sync>(rt: &R, tally: &Tally, one: Pass, two: Pass)
    requires one { IsOf tally.now one }
    requires two { IsOf tally.now two }
    requires slots { 1 ≤ slots_of tally.now }
{
    thread::scope(thread::scope_env(), rt, move |scope| {
        let _ = scope.spawn(move || add_thousand(tally, one));
        let _ = scope.spawn(move || add_thousand(tally, two));
    });
}

#[test]
fn threads_add_to_the_same_words(rt: HostRuntime) -> Result<(), Fail> {
    let (tally, mut pass) = Tally::open(rt.alloc(), 1, 2_000)?;
    let one = tally.split(&mut pass, 1_000);
    let two = tally.split(&mut pass, 1_000);
    add_in_threads(&rt, &tally, one, two);
    assert!(rt; words(&tally, &mut pass, 0, true) == [2_000, 6_000, 1_000, 3_000]);
    Ok(())
}
