// Maps and questions that more than one program has, made so that the Rust side has the same. A
// smaller map is the front of one of these.
ghost use Rattle.std.specs.Prelude.{◌≡◌, replicate};
ghost use Rattle.std.proofs.lemmas.List.Edits.{sets};
ghost use Rattle.benching.specs.Maps.{points, denominator_of, meter_point, tempo_num, tempo_bits, spread_at};

use crate::{INPUTS, START, next, place};

// The points of the largest meter map, and their words, three a point.
pub const METER_POINTS: usize = 4096;

pub const METER_WORDS: usize = 12288;

// The points of the largest tempo map.
pub const TEMPO_POINTS: usize = 1024;

// A denominator that scores have: 2, 4, 8 or 16.
fn denominator(s: u64) -> u32
    ensures { result ≡ denominator_of s }
{
    match s % 4 {
        0 => 2,
        1 => 4,
        2 => 8,
        _ => 16,
    }
}

// Point k begins at bar 4 * k, with a numerator from 1 to 8.
pub fn meter_words() -> [u32; METER_WORDS]
    ensures { result ≡ points meter_point 4096 }
{
    let mut map = [0u32; METER_WORDS];
    let mut r = START;
    // Stays: tried over `chunks_exact_mut(3)`, and `returns` stayed open: what is written through a chunk is
    // not known afterwards.
    for k in 0..METER_POINTS {
        let s = next(r);
        map[3 * k] = (4 * k) as u32;
        map[3 * k + 1] = (r % 8 + 1) as u32;
        map[3 * k + 2] = denominator(s);
        r = next(s);
    }
    map
}

// Point k begins at beat 4 * k.
pub fn tempo_nums() -> [i64; TEMPO_POINTS]
    ensures { result ≡ points tempo_num 1024 }
{
    let mut nums = [0i64; TEMPO_POINTS];
    for (k, num) in nums.iter_mut().enumerate() {
        *num = (4 * k) as i64;
    }
    nums
}

pub fn tempo_dens() -> [u32; TEMPO_POINTS]
    ensures { result ≡ replicate 1024 1 }
{
    [1u32; TEMPO_POINTS]
}

// Tempos from 64 to 256: the bits of 64, and as many more as two exponents have.
pub fn tempo_bits() -> [u32; TEMPO_POINTS]
    ensures { result ≡ points tempo_bits 1024 }
{
    let mut tempos = [0u32; TEMPO_POINTS];
    let mut r = START;
    for tempo in &mut tempos {
        *tempo = 0x4280_0000 + (r % 0x100_0000) as u32;
        r = next(next(r));
    }
    tempos
}

// Numbers below `span`, spread over it. No product comes near the end of 64 bits, nor an answer
// near that of 32: the calls that stop there answer every span. A proof is not told how long a lent
// array is, so the contract says which of its words change: the 8,192 that it has.
pub fn fill_spread(questions: &mut [u32; INPUTS], span: u64)
    ensures { questions.new ≡ sets questions.old 0 (points (spread_at span) 8192) }
{
    for (k, question) in questions.iter_mut().enumerate() {
        let at = place(k) as u64;
        *question = numbers::to_u32(numbers::saturating_mul(at, span) / 8192);
    }
}
