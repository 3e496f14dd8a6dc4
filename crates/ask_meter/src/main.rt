// Answers questions about bars: ops 10 to 13 of docs/QUESTIONS.md. It reads questions from standard
// input and writes a line for each.
#![tactic(auto)]

use asking::Answers;
use beats::Beat;
use meter::MeterPoint;
use numbers::Refusal;
use std::io;

// 10: u32 default, u32 bar, meter.
fn ask_meter_at(q: &[u32]) -> Option<Result<MeterPoint, Refusal>> {
    if !asking_clock::meter_ends(q, 2) {
        return None;
    }
    let default = asking::u32_at(q, 0);
    let bar = asking::u32_at(q, 1);
    Some(meter::meter_at(asking::words(q, 2), default, bar))
}

// 11, 12: u32 default, Pickup, u32 bar, meter.
fn ask_bar<F: FnOnce(&[u32], u32, Option<Beat>, u32) -> Result<Beat, Refusal>>(
    q: &[u32],
    call: F,
) -> Option<Result<Beat, Refusal>>
    requires { F.IsAlwaysCallable call }
{
    if !asking_clock::meter_ends(q, 6) || !asking_clock::is_flag(q, 1) {
        return None;
    }
    let default = asking::u32_at(q, 0);
    let pickup = asking_clock::pickup_at(q, 1);
    let bar = asking::u32_at(q, 5);
    Some(call(asking::words(q, 6), default, pickup, bar))
}

// 13: u32 default, Pickup, Beat, meter.
fn ask_count(q: &[u32]) -> Option<Result<u32, Refusal>> {
    if !asking_clock::meter_ends(q, 8) || !asking_clock::is_flag(q, 1) {
        return None;
    }
    let default = asking::u32_at(q, 0);
    let pickup = asking_clock::pickup_at(q, 1);
    let beat = asking::beat_at(q, 5);
    Some(meter::bar_count_at_beat(asking::words(q, 8), default, pickup, beat))
}

fn more_point(out: &mut Answers, point: MeterPoint) -> io::Result<()> {
    asking::more_all(out, &[point.bar, point.numerator, point.denominator])
}

fn more_bars(out: &mut Answers, bars: u32) -> io::Result<()> {
    asking::more(out, u64::from(bars))
}

// Stays: with an enum of ops its `TryFrom<u32>` would match the same numbers, and this match its names.
fn answer(op: u32, q: &[u32], out: &mut Answers) -> io::Result<()> {
    match op {
        0x10 => asking::answer_line(out, ask_meter_at(q), more_point),
        0x11 => asking::answer_line(out, ask_bar(q, meter::bar_len), asking::more_beat),
        0x12 => asking::answer_line(out, ask_bar(q, meter::beat_at_bar), asking::more_beat),
        0x13 => asking::answer_line(out, ask_count(q), more_bars),
        _ => asking::unknown(out),
    }
}

fn main(rt: HostRuntime) -> io::Result<()> {
    asking::answer_all(rt.stdin(), rt.stdout(), answer)
}
