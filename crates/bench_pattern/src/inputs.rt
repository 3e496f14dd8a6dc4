// Lists of notes, made so that both sides have the same.
use benching::{START, next};

// Four words a note of the largest list. A smaller one is the front of it.
pub const WORDS: usize = 16384;

#[derive(Clone, Copy, Debug, PartialEq, Eq)]
pub enum Order {
    Sorted,
    Reversed,
    Random,
}

// The step of note k: two notes each fourth step, or any of 8,192 steps.
fn step_of(order: Order, k: u32, s: u64) -> u32 {
    match order {
        Order::Sorted => k % 4096 / 2 * 4,
        Order::Reversed => (4095 - k % 4096) / 2 * 4,
        Order::Random => (s % 8192) as u32,
    }
}

// Lens go from 1 to 8, and gains from a half to nearly 1. A tag is the note's place.
pub fn notes(order: Order) -> [u32; WORDS] {
    let mut words = [0u32; WORDS];
    let mut r = START;
    for (k, note) in words.as_chunks_mut().0.iter_mut().enumerate() {
        let s = next(r);
        let step = step_of(order, k as u32, s);
        let gain = 0x3f00_0000 + (r % 0x80_0000) as u32;
        *note = [step, (r % 8 + 1) as u32, gain, k as u32];
        r = next(s);
    }
    words
}
