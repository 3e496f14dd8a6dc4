// Answers questions about beats, frames and steps: ops 01 to 09 of docs/QUESTIONS.md. It reads
// questions from standard input and writes a line for each.
#![tactic(auto)]

use asking::Answers;
use beats::Beat;
use numbers::Refusal;
use std::cmp::Ordering;
use std::io;

// 01: i64 num, u32 den.
fn ask_new(q: &[u32]) -> Option<Result<Beat, Refusal>> {
    if q.len() != 3 {
        return None;
    }
    Some(Ok(Beat::new(asking::i64_at(q, 0), asking::u32_at(q, 2))))
}

// 02, 03, 06: two Beats.
fn ask_two<A, F: FnOnce(Beat, Beat) -> Result<A, Refusal>>(
    q: &[u32],
    call: F,
) -> Option<Result<A, Refusal>>
    requires { F.IsAlwaysCallable call }
{
    if q.len() != 6 {
        return None;
    }
    Some(call(asking::beat_at(q, 0), asking::beat_at(q, 3)))
}

// 04: Beat, i64 num, u32 den.
fn ask_mul_rational(q: &[u32]) -> Option<Result<Beat, Refusal>> {
    if q.len() != 6 {
        return None;
    }
    let num = asking::i64_at(q, 3);
    let den = asking::u32_at(q, 5);
    Some(asking::beat_at(q, 0).mul_rational(num, den))
}

// 05: Beat, i64 factor.
fn ask_scale(q: &[u32]) -> Option<Result<Beat, Refusal>> {
    if q.len() != 5 {
        return None;
    }
    Some(asking::beat_at(q, 0).scale(asking::i64_at(q, 3)))
}

// 07: Beat.
fn ask_to_f64(q: &[u32]) -> Option<Result<f64, Refusal>> {
    if q.len() != 3 {
        return None;
    }
    Some(asking::beat_at(q, 0).to_f64())
}

// 08: Beat, f32 bpm, u32 rate.
fn ask_beat_to_frames(q: &[u32]) -> Option<Result<u64, Refusal>> {
    if q.len() != 5 {
        return None;
    }
    let bpm = asking::f32_at(q, 3);
    let rate = asking::u32_at(q, 4);
    Some(beats::beat_to_frames(asking::beat_at(q, 0), bpm, rate))
}

// 09: Beat, u32 steps per beat.
fn ask_beat_to_step(q: &[u32]) -> Option<Result<u32, Refusal>> {
    if q.len() != 4 {
        return None;
    }
    let steps = asking::u32_at(q, 3);
    Some(beats::beat_to_step(asking::beat_at(q, 0), steps))
}

// 0 where the first beat is less, 1 where they are equal, 2 where it is greater.
fn more_order(out: &mut Answers, order: Ordering) -> io::Result<()> {
    let place = match order {
        Ordering::Less => 0,
        Ordering::Equal => 1,
        Ordering::Greater => 2,
    };
    asking::more(out, place)
}

fn more_float(out: &mut Answers, x: f64) -> io::Result<()> {
    asking::more(out, rounding::f64_word(x))
}

fn more_step(out: &mut Answers, step: u32) -> io::Result<()> {
    asking::more(out, u64::from(step))
}

// Stays: with an enum of ops its `TryFrom<u32>` would match the same numbers, and this match its names.
fn answer(op: u32, q: &[u32], out: &mut Answers) -> io::Result<()> {
    match op {
        0x01 => asking::answer_line(out, ask_new(q), asking::more_beat),
        0x02 => asking::answer_line(out, ask_two(q, Beat::checked_add), asking::more_beat),
        0x03 => asking::answer_line(out, ask_two(q, Beat::checked_sub), asking::more_beat),
        0x04 => asking::answer_line(out, ask_mul_rational(q), asking::more_beat),
        0x05 => asking::answer_line(out, ask_scale(q), asking::more_beat),
        0x06 => asking::answer_line(out, ask_two(q, Beat::cmp), more_order),
        0x07 => asking::answer_line(out, ask_to_f64(q), more_float),
        0x08 => asking::answer_line(out, ask_beat_to_frames(q), asking::more),
        0x09 => asking::answer_line(out, ask_beat_to_step(q), more_step),
        _ => asking::unknown(out),
    }
}

fn main(rt: HostRuntime) -> io::Result<()> {
    asking::answer_all(rt.stdin(), rt.stdout(), answer)
}
