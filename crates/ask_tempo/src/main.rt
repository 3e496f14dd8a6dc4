// Answers questions about tempo maps: ops 20 to 22 of docs/QUESTIONS.md. It reads questions from
// standard input and writes a line for each.
#![tactic(auto)]

use asking::{Answers, LIST};
use numbers::Refusal;
use std::io;

// 20, 21, 22: f64 beat or seconds, Tempo. The numerators are copied into `space`. None where the
// question is malformed.
fn ask_walk(op: u32, q: &[u32], space: &mut [i64]) -> Option<Result<f64, Refusal>> {
    let at_dens = asking::past_longs(q, 2)?;
    let at_tempos = asking::past_words(q, at_dens, LIST)?;
    if asking::past_words(q, at_tempos, LIST)? != q.len() {
        return None;
    }
    let nums = asking::lend(space, asking::u32_at(q, 2) as usize);
    asking::i64s(asking::longs(q, 2), nums);
    let dens = asking::words(q, at_dens);
    let tempos = asking::words(q, at_tempos);
    let x = asking::f64_at(q, 0);
    // Stays: with an enum of ops its `TryFrom<u32>` would match the same numbers, and this match its names.
    match op {
        0x20 => Some(tempo::tempo_map_seconds_at(nums, dens, tempos, x)),
        0x21 => Some(tempo::tempo_map_bpm_at(nums, dens, tempos, x)),
        0x22 => Some(tempo::tempo_map_beat_at_seconds(nums, dens, tempos, x)),
        _ => None,
    }
}

fn more_float(out: &mut Answers, x: f64) -> io::Result<()> {
    asking::more(out, rounding::f64_word(x))
}

fn main(rt: HostRuntime) -> io::Result<()> {
    let mut nums = [0i64; LIST];
    asking::answer_all(rt.stdin(), rt.stdout(), |op, q, out| {
        asking::answer_line(out, ask_walk(op, q, &mut nums), more_float)
    })
}
