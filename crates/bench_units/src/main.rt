// The calls on beats, as the bench times them and compares their answers with the original's.
//
// The calls, each over 8,192 inputs that come round:
//
//     empty           an input is read and put into the checksum: no call
//     new             a fraction is reduced
//     checked_add     inputs k and k + 1, each tested before the sum
//     add             the same sum as a crate calls it that has tested its beats
//     cmp             inputs k and k + 1, each tested before they are compared
//     order           the same order without the tests
//     beat_to_frames  input k, tested, at tempo k and rate k
//     frame_of        the same frame without the test
//
// The sizes. Small fractions have a numerator below 2^16 and a denominator below 2^8, which may be
// 0. Large ones have any i64 but the least, and any u32. Neither is reduced yet. Mixed beats are in
// lowest terms: of sixteen some eleven are small, four have a numerator below 2^47 and a
// denominator below 2^12, and one is large, so that some seven sums of eight are accepted. Grid
// beats are those that scores have: in lowest terms, with a numerator below 2^16 and a denominator
// from 1 to 24 of straight notes and triplets. In each set one number in eight is below zero.
// Tempos lie from 64 to 256, with a fraction; the rates are four that are in use.
#![tactic(auto)]

mod inputs;

use beats::Beat;
use benching::{FEW, INPUTS, checksum, input_after, input_of, refusal_word};
use std::cmp::Ordering;
use std::env::Env;
use std::io;

fn beat_word(b: Beat) -> u64 {
    benching::fraction_word(b.num, b.den)
}

// A number that no refusal of an order has.
fn order_word(order: Ordering) -> u64 {
    match order {
        Ordering::Less => 3,
        Ordering::Equal => 4,
        Ordering::Greater => 5,
    }
}

fn new_word(x: Beat) -> u64 {
    beat_word(Beat::new(x.num, x.den))
}

// A row of one beat a turn. The loop holds the call alone, and each turn's answer goes into the
// checksum, so that no call can be left out.
fn one<R: Env + Print, F: Fn(Beat) -> u64>(
    rt: &R,
    call: &str,
    size: &str,
    beats: &[Beat; INPUTS],
    word: F,
) -> io::Result<()>
    requires { F.IsAlwaysCallable word }
{
    benching::row(
        rt,
        call,
        size,
        FEW,
        |turns| checksum(turns, |i| word(beats[input_of(i)])),
    )
}

// A row of two beats a turn.
fn two<R: Env + Print, F: Fn(Beat, Beat) -> u64>(
    rt: &R,
    call: &str,
    size: &str,
    beats: &[Beat; INPUTS],
    word: F,
) -> io::Result<()>
    requires { F.IsAlwaysCallable word }
{
    benching::row(rt, call, size, FEW, |turns| {
        checksum(turns, |i| word(beats[input_of(i)], beats[input_after(i)]))
    })
}

// A row of a beat, a tempo and a rate a turn.
fn frame<R: Env + Print, F: Fn(Beat, f32, u32) -> u64>(
    rt: &R,
    call: &str,
    size: &str,
    beats: &[Beat; INPUTS],
    word: F,
) -> io::Result<()>
    requires { F.IsAlwaysCallable word }
{
    benching::row(rt, call, size, FEW, |turns| {
        // not made for a row that is not asked
        let mut speeds = [(0f32, 0u32); INPUTS];
        inputs::fill(&mut speeds, inputs::speed);
        checksum(turns, |i| {
            let k = input_of(i);
            let (bpm, rate) = speeds[k];
            word(beats[k], bpm, rate)
        })
    })
}

fn checked_add(a: Beat, b: Beat) -> u64 {
    a.checked_add(b).map_or_else(refusal_word, beat_word)
}

fn cmp(a: Beat, b: Beat) -> u64 {
    a.cmp(b).map_or_else(refusal_word, order_word)
}

fn beat_to_frames(beat: Beat, bpm: f32, rate: u32) -> u64 {
    beats::beat_to_frames(beat, bpm, rate).unwrap_or_else(refusal_word)
}

fn main(rt: HostRuntime) -> io::Result<()> {
    // one list, filled anew for each set: a list each would take four times the stack
    let mut beats = [Beat::zero(); INPUTS];
    inputs::fill(&mut beats, inputs::mixed);
    one(&rt, "empty", "mixed", &beats, beat_word)?;
    two(&rt, "checked_add", "mixed", &beats, checked_add)?;
    two(&rt, "add", "mixed", &beats, |a, b| {
        beats::sums::add(a, b).map_or_else(refusal_word, beat_word)
    })?;
    two(&rt, "cmp", "mixed", &beats, cmp)?;
    two(
        &rt,
        "order",
        "mixed",
        &beats,
        |a, b| order_word(beats::sums::order(a, b)),
    )?;
    frame(&rt, "beat_to_frames", "mixed", &beats, beat_to_frames)?;
    frame(&rt, "frame_of", "mixed", &beats, beats::frames::frame_of)?;
    inputs::fill(&mut beats, inputs::grid);
    two(&rt, "checked_add", "grid", &beats, checked_add)?;
    two(&rt, "cmp", "grid", &beats, cmp)?;
    frame(&rt, "beat_to_frames", "grid", &beats, beat_to_frames)?;
    inputs::fill(&mut beats, inputs::small);
    one(&rt, "new", "small", &beats, new_word)?;
    inputs::fill(&mut beats, inputs::large);
    one(&rt, "new", "large", &beats, new_word)
}
