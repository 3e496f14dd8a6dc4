// A clock's words: a transport as eleven words of 64 bits, for firmware that keeps one in its own
// memory. They are read whole. An advance changes position and state alone, and these alone are
// written.
#![tactic(auto)]

ghost use Rattle.std.specs.Prelude.{◌≡◌};
ghost use Rattle.transport.specs.Words.{loop_of};
ghost use Rattle.clock_words.specs.Clocks.{clock_words, pickup_of, unfit, clock_of, placed};

use beats::Beat;
use transport::{LoopRange, PlayState, Transport};

pub const WORDS: usize = 11;

const SHORT: u64 = 0xffff_ffff;

// Whether the words that are read as less than 64 bits are in range.
#[tactic(auto, unfolding(crate::specs::Clocks::clock_words))]
fn is_clock(words: &[u64; WORDS]) -> bool
    ensures { result ≡ clock_words words.now }
{
    words[0] <= SHORT
        && words[1] <= SHORT
        && words[2] <= SHORT
        && words[10] <= SHORT
        && words[5] <= 2
        && words[6] <= 1
}

fn loop_of(on: u64, start: u64, end: u64) -> Option<LoopRange>
    ensures { result ≡ loop_of on start end }
{
    if on == 0 {
        None
    } else {
        Some(LoopRange { start, end })
    }
}

// The pickup of a numerator and a denominator: 0/0 is none.
pub fn pickup_of(num: i64, den: u32) -> Option<Beat>
    ensures { result ≡ pickup_of num den }
{
    if den == 0 && num == 0 {
        None
    } else {
        Some(Beat { num, den })
    }
}

// What words that are no clock are read as: a transport past its own end.
fn no_clock() -> Transport
    ensures { result ≡ unfit }
{
    Transport {
        sample_rate: 0,
        bpm: rounding::f32_of(0),
        beats_per_bar: 0,
        length: 0,
        position: 1,
        state: PlayState::Stopped,
        looping: None,
        pickup: None,
    }
}

// The transport of a clock; of words that are none, an unsound one.
#[tactic(auto, using(crate::proofs::Words::shorts), unfolding(crate::specs::Clocks::clock_of))]
pub fn clock_of(words: &[u64; WORDS]) -> Transport
    ensures { result ≡ clock_of words.now }
{
    if !is_clock(words) {
        return no_clock();
    }
    Transport {
        sample_rate: words[0] as u32,
        bpm: rounding::f32_of(words[1] as u32),
        beats_per_bar: words[2] as u32,
        length: words[3],
        position: words[4],
        state: PlayState::of_word(words[5]),
        looping: loop_of(words[6], words[7], words[8]),
        pickup: pickup_of(numbers::as_signed(words[9]), words[10] as u32),
    }
}

// Write where a transport stands, and whether it plays.
#[tactic(auto, unfolding(crate::specs::Clocks::placed))]
pub fn place(words: &mut [u64; WORDS], t: Transport)
    ensures { words.new ≡ placed words.old t }
{
    words[4] = t.position;
    words[5] = u64::from(t.state);
}
