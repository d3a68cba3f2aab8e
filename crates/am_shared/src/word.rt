//! Which of a tally's words is meant.
ghost use Rattle.std.specs.Prelude.{◌≡◌, ◌<◌, ◌≤◌};
ghost use Rattle.am_shared.specs.Places.{word_number};

/// What a word of one slot and colour counts: packets, the sum of their offsets in their blocks, and the same of the
/// packets that measure delay alone.
#[derive(Clone, Copy, Debug, PartialEq, Eq)]
pub enum Word {
    /// How many packets were counted.
    Count,
    /// The sum of their offsets.
    Sum,
    /// How many of them measure delay.
    DelayCount,
    /// The sum of the offsets of these.
    DelaySum,
}

// How many words there are in a slot of one colour, and in a slot.
const WORDS_OF_COLOUR: usize = 4;

pub(crate) const WORDS_OF_SLOT: usize = 8;

// Where in the table a word stands.
pub(crate) fn place_of(slot: u32, colour: bool, word: Word) -> usize
    ensures { result ≡ word_number slot colour word }
{
    let within = match word {
        Word::Count => 0,
        Word::Sum => 1,
        Word::DelayCount => 2,
        Word::DelaySum => 3,
    };
    let half = if colour { WORDS_OF_COLOUR } else { 0 };
    slot as usize * WORDS_OF_SLOT + half + within
}
