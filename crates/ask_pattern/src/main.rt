// Answers questions about patterns: ops 60 to 6b of docs/QUESTIONS.md. It reads questions from
// standard input and writes a line for each.
#![tactic(auto)]

use asking::{Answers, LIST, ROOM};
use numbers::Refusal;
use pattern::{Pattern, Wrote};
use std::io;

// The notes that were written, and the bars.
fn more_wrote(out: &mut Answers, wrote: Wrote) -> io::Result<()> {
    asking::more(out, wrote.notes as u64)?;
    asking::more(out, u64::from(wrote.pattern.bars))
}

// A pattern whose bars are at an index.
fn pattern_at(q: &[u32], at: usize) -> Pattern {
    Pattern {
        bars: asking::u32_at(q, at),
    }
}

// 60: u32 bars, u32 steps per bar, u32 times, room, Words notes.
fn repeat(q: &[u32], notes: &[u32], lent: &mut [u32]) -> Result<Wrote, Refusal> {
    let steps_per_bar = asking::u32_at(q, 1);
    let times = asking::u32_at(q, 2);
    pattern::repeat(pattern_at(q, 0), notes, steps_per_bar, times, lent)
}

// 61: u32 bars a, u32 bars b, u32 steps per bar, room, Words a, Words b.
fn concat(q: &[u32], a: &[u32], b: &[u32], lent: &mut [u32]) -> Result<Wrote, Refusal> {
    let steps_per_bar = asking::u32_at(q, 2);
    pattern::concat(
        pattern_at(q, 0),
        a,
        pattern_at(q, 1),
        b,
        steps_per_bar,
        lent,
    )
}

// 62: u32 bars a, u32 bars b, room, Words a, Words b.
fn layer(q: &[u32], a: &[u32], b: &[u32], lent: &mut [u32]) -> Result<Wrote, Refusal> {
    pattern::layer(pattern_at(q, 0), a, pattern_at(q, 1), b, lent)
}

// 63: u32 bars, u32 start, u32 len, u32 steps per bar, room, Words notes.
fn slice(q: &[u32], notes: &[u32], lent: &mut [u32]) -> Result<Wrote, Refusal> {
    let start = asking::u32_at(q, 1);
    let len = asking::u32_at(q, 2);
    let steps_per_bar = asking::u32_at(q, 3);
    pattern::slice(pattern_at(q, 0), notes, start, len, steps_per_bar, lent)
}

// 64: u32 bars, u32 num, u32 den, u32 steps per bar, room, Words notes. The steps per bar count for
// nothing.
fn stretch(q: &[u32], notes: &[u32], lent: &mut [u32]) -> Result<Wrote, Refusal> {
    let num = asking::u32_at(q, 1);
    let den = asking::u32_at(q, 2);
    pattern::stretch(pattern_at(q, 0), notes, num, den, lent)
}

// 65: u32 bars, i64 shift, u32 steps per bar, room, Words notes.
fn rotate(q: &[u32], notes: &[u32], lent: &mut [u32]) -> Result<Wrote, Refusal> {
    let shift = asking::i64_at(q, 1);
    let steps_per_bar = asking::u32_at(q, 3);
    pattern::rotate(pattern_at(q, 0), notes, shift, steps_per_bar, lent)
}

// 66: u32 bars, u32 steps per bar, room, Words notes.
fn reverse(q: &[u32], notes: &[u32], lent: &mut [u32]) -> Result<Wrote, Refusal> {
    let steps_per_bar = asking::u32_at(q, 1);
    pattern::reverse(pattern_at(q, 0), notes, steps_per_bar, lent)
}

// 67: u32 bars, u32 grid, room, Words notes.
fn quantize(q: &[u32], notes: &[u32], lent: &mut [u32]) -> Result<Wrote, Refusal> {
    let grid = asking::u32_at(q, 1);
    pattern::quantize(pattern_at(q, 0), notes, grid, lent)
}

// 68: u32 bars, f32 scale, room, Words notes.
fn vel(q: &[u32], notes: &[u32], lent: &mut [u32]) -> Result<Wrote, Refusal> {
    let scale = asking::f32_at(q, 1);
    pattern::vel(pattern_at(q, 0), notes, scale, lent)
}

// 69: u32 bars, f32 factor, room, Words notes.
fn gate(q: &[u32], notes: &[u32], lent: &mut [u32]) -> Result<Wrote, Refusal> {
    let factor = asking::f32_at(q, 1);
    pattern::gate(pattern_at(q, 0), notes, factor, lent)
}

// 6a: u32 pulses, u32 steps, u32 tag, u32 len, u32 steps per bar, room.
fn euclidean(q: &[u32], lent: &mut [u32]) -> Result<Wrote, Refusal> {
    let pulses = asking::u32_at(q, 0);
    let steps = asking::u32_at(q, 1);
    let tag = asking::u32_at(q, 2);
    let len = asking::u32_at(q, 3);
    let steps_per_bar = asking::u32_at(q, 4);
    pattern::euclidean(pulses, steps, tag, len, steps_per_bar, lent)
}

// 6b: u32 count, u32 in steps, u32 tag, u32 len, room.
fn tuplet(q: &[u32], lent: &mut [u32]) -> Result<Wrote, Refusal> {
    let count = asking::u32_at(q, 0);
    let steps = asking::u32_at(q, 1);
    let tag = asking::u32_at(q, 2);
    let len = asking::u32_at(q, 3);
    pattern::tuplet(count, steps, tag, len, lent)
}

// Stays: an op is the number of docs/QUESTIONS.md, here and in `called`; an enum of the twelve would be
// one list of them more, and matched as often.
// Where a question has its room, and how many lists of notes stand behind it.
fn shape(op: u32) -> Option<(usize, usize)> {
    match op {
        0x60 => Some((3, 1)),
        0x61 => Some((3, 2)),
        0x62 => Some((2, 2)),
        0x63..=0x65 => Some((4, 1)),
        0x66..=0x69 => Some((2, 1)),
        0x6a => Some((5, 0)),
        0x6b => Some((4, 0)),
        _ => None,
    }
}

// What a question holds behind its numbers; of fewer than two lists the last is none.
#[derive(Clone, Copy)]
struct Behind<'a> {
    room: usize,
    a: &'a [u32],
    b: &'a [u32],
}

fn behind_numbers(op: u32, q: &[u32]) -> Option<Behind<'_>> {
    let (at, lists) = shape(op)?;
    let first = asking::past(q, at, 1)?;
    let second = if lists > 0 {
        asking::past_words(q, first, LIST)?
    } else {
        first
    };
    let end = if lists > 1 {
        asking::past_words(q, second, LIST)?
    } else {
        second
    };
    if end != q.len() {
        return None;
    }
    Some(Behind {
        room: asking::u32_at(q, at) as usize,
        a: asking::words(q, first),
        b: asking::words(q, second),
    })
}

fn called(op: u32, q: &[u32], a: &[u32], b: &[u32], lent: &mut [u32]) -> Result<Wrote, Refusal> {
    match op {
        0x60 => repeat(q, a, lent),
        0x61 => concat(q, a, b, lent),
        0x62 => layer(q, a, b, lent),
        0x63 => slice(q, a, lent),
        0x64 => stretch(q, a, lent),
        0x65 => rotate(q, a, lent),
        0x66 => reverse(q, a, lent),
        0x67 => quantize(q, a, lent),
        0x68 => vel(q, a, lent),
        0x69 => gate(q, a, lent),
        0x6a => euclidean(q, lent),
        _ => tuplet(q, lent),
    }
}

// The line ends with the lent words as they are after the call.
fn answer(op: u32, q: &[u32], space: &mut [u32], out: &mut Answers) -> io::Result<()> {
    match behind_numbers(op, q) {
        Some(Behind { room, a, b }) if room <= space.len() => {
            let lent = asking::lend(space, room);
            asking::mark_u32s(lent);
            let wrote = called(op, q, a, b, lent);
            asking::answered(out, wrote, more_wrote)?;
            asking::more_all(out, lent)?;
            asking::end_line(out)
        }
        _ => asking::unknown(out),
    }
}

fn main(rt: HostRuntime) -> io::Result<()> {
    let mut space = [0u32; ROOM];
    asking::answer_all(rt.stdin(), rt.stdout(), |op, q, out| {
        answer(op, q, &mut space, out)
    })
}
