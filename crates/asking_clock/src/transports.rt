// A Pickup and a Transport, by the words of a question.
ghost use Rattle.std.specs.Prelude.{◌≡◌};
ghost use Rattle.asking_clock.specs.Words.{flag_at, pickup_at, loop_at, transport_words, transport_of};

use beats::Beat;
use transport::{LoopRange, PlayState, Transport};

// Whether the word at an index is a flag.
pub fn is_flag(q: &[u32], at: usize) -> bool
    ensures { result ≡ flag_at q.now at }
{
    asking::u32_at(q, at) <= 1
}

// The Pickup at an index: a flag, then a Beat.
pub fn pickup_at(q: &[u32], at: usize) -> Option<Beat>
    ensures { result ≡ pickup_at q.now at }
{
    if asking::u32_at(q, at) == 0 {
        return None;
    }
    Some(asking::beat_at(q, asking::past(q, at, 1)?))
}

// The loop at word 8: a flag, then its two frames.
fn loop_of(q: &[u32]) -> Option<LoopRange>
    ensures { result ≡ loop_at q.now 8 }
{
    if asking::u32_at(q, 8) == 0 {
        return None;
    }
    let start = asking::u64_at(q, 9);
    let end = asking::u64_at(q, 11);
    Some(LoopRange { start, end })
}

// Whether the first words of a question are a transport: its state and its flags are in range.
pub fn is_transport(q: &[u32]) -> bool
    ensures { result ≡ transport_words q.now }
{
    asking::u32_at(q, 7) <= 2 && is_flag(q, 8) && is_flag(q, 13)
}

// The transport of a question's first 17 words.
pub fn transport_of(q: &[u32]) -> Transport
    ensures { result ≡ transport_of q.now }
{
    Transport {
        sample_rate: asking::u32_at(q, 0),
        bpm: asking::f32_at(q, 1),
        beats_per_bar: asking::u32_at(q, 2),
        length: asking::u64_at(q, 3),
        position: asking::u64_at(q, 5),
        state: PlayState::of_word(u64::from(asking::u32_at(q, 7))),
        looping: loop_of(q),
        pickup: pickup_at(q, 13),
    }
}
