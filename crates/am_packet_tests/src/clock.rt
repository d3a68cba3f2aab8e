//! Blocks, windows and spans of am_clock, worked out by hand (RFC 9341, section 5).
use am_clock::{MAX_TIME, Timing, TimingError, colour_of};
use std::test::Fail;

const SECOND: u64 = 1_000_000_000;

// Blocks of ten seconds, and the shortest blocks.
const LONG: [u64; 4] = [10 * SECOND, SECOND, 0, 2 * SECOND];

const SHORT: [u64; 4] = [2, 0, 7, 7];

#[test]
fn a_reading_and_a_colour_name_a_block_or_none(rt: HostRuntime) -> Result<(), Fail> {
    for ([block, skew, least, most], reading, colour, shift, wanted) in [
        (LONG, 10_200_000_000, false, 0, Some(0)),
        (LONG, 14_999_999_999, false, 0, Some(0)),
        (LONG, 15_000_000_000, false, 0, Some(2)),
        (LONG, 4_999_999_999, true, 0, None),
        (LONG, 5_000_000_000, true, 0, Some(1)),
        (LONG, u64::MAX, true, 0, Some(1_844_674_407)),
        (LONG, 6_999_999_999, false, 12 * SECOND, None),
        (LONG, 7_000_000_000, false, 12 * SECOND, Some(0)),
        (LONG, u64::MAX, true, 1 << 40, Some(1_844_674_297)),
        (SHORT, u64::MAX, false, 0, Some(1 << 63)),
    ] {
        assert!(rt; shift <= MAX_TIME);
        let timing = Timing::new(block, skew, least, most)?;
        let found = timing.attribute(reading, colour, shift);
        assert!(rt; found == wanted, "at {reading}");
        for likely in [0, 2, 1_844_674_407, u64::MAX] {
            let near = timing.attribute_near(likely, reading, colour, shift);
            assert!(rt; near == wanted, "at {reading} near {likely}");
        }
    }
    Ok(())
}

#[test]
fn a_span_covers_the_blocks_whose_windows_it_holds(rt: HostRuntime) -> Result<(), Fail> {
    let timing = Timing::new(10 * SECOND, SECOND, 0, 3_999_999_999)?;
    for (from, until, shift, wanted) in [
        (0, 40 * SECOND, 0, (0, 3)),
        (1, 45 * SECOND, 0, (1, 4)),
        (7 * SECOND, 40 * SECOND, 2 * SECOND, (1, 3)),
        (7_000_000_001, 40 * SECOND, 2 * SECOND, (2, 3)),
        (u64::MAX, u64::MAX, 0, (1_844_674_408, 1_844_674_406)),
    ] {
        assert!(rt; shift <= MAX_TIME);
        let covered = timing.covered(from, until, shift);
        assert!(rt; covered == wanted, "from {from} until {until}");
    }
    let block = timing.block_of(u64::MAX);
    assert!(rt; block == 1_844_674_407 && colour_of(block));
    // a guard band of half a block is too wide
    let wide = Timing::new(10 * SECOND, SECOND, 0, 4 * SECOND);
    let (guard, half) = (5_000_000_000, 5_000_000_000);
    assert!(rt; wide == Err(TimingError::GuardTooWide { guard, half }));
    Ok(())
}
