// Answers questions about the problems of maps: ops 14 and 23 of docs/QUESTIONS.md. It reads
// questions from standard input and writes a line for each.
#![tactic(auto)]

use asking::{Answers, LIST, ROOM};
use numbers::Refusal;
use std::io;

fn more_count(out: &mut Answers, count: u32) -> io::Result<()> {
    asking::more(out, u64::from(count))
}

// The count of the problems or the refusal, and the lent words as they are after the call.
fn problems_line(
    out: &mut Answers,
    asked: Option<(Result<u32, Refusal>, &[u32])>,
) -> io::Result<()> {
    match asked {
        Some((answer, lent)) => {
            asking::answered(out, answer, more_count)?;
            asking::more_all(out, lent)?;
            asking::end_line(out)
        }
        None => asking::unknown(out),
    }
}

// The first n words of what is lent, marked, where there are so many.
fn room(lent: &mut [u32], n: usize) -> Option<&mut [u32]> {
    let lent = lent.get_mut(..n)?;
    asking::mark_u32s(lent);
    Some(lent)
}

// 14: room, u32 count, three words a point.
fn ask_meter<'a>(q: &[u32], lent: &'a mut [u32]) -> Option<(Result<u32, Refusal>, &'a [u32])> {
    let count = asking::u32_at(q, 1) as usize;
    let end = asking::past(q, 2, count * 3)?;
    if end != q.len() || count > LIST {
        return None;
    }
    let lent = room(lent, asking::u32_at(q, 0) as usize)?;
    let answer = points::flat_problems(asking::part(q, 2, end), lent);
    Some((answer, lent))
}

// 23: room, Tempo. The numerators are copied into `space`.
fn ask_tempo<'a>(
    q: &[u32],
    space: &mut [i64],
    lent: &'a mut [u32],
) -> Option<(Result<u32, Refusal>, &'a [u32])> {
    let at_dens = asking::past_longs(q, 1)?;
    let at_tempos = asking::past_words(q, at_dens, LIST)?;
    if asking::past_words(q, at_tempos, LIST)? != q.len() {
        return None;
    }
    let nums = asking::lend(space, asking::u32_at(q, 1) as usize);
    asking::i64s(asking::longs(q, 1), nums);
    let lent = room(lent, asking::u32_at(q, 0) as usize)?;
    let dens = asking::words(q, at_dens);
    let tempos = asking::words(q, at_tempos);
    let answer = problems::tempo_map_problems(nums, dens, tempos, lent);
    Some((answer, lent))
}

fn main(rt: HostRuntime) -> io::Result<()> {
    let mut nums = [0i64; LIST];
    let mut lent = [0u32; ROOM];
    // Stays: with an enum of ops its `TryFrom<u32>` would match the same numbers, and this match its names.
    asking::answer_all(rt.stdin(), rt.stdout(), |op, q, out| match op {
        0x14 => problems_line(out, ask_meter(q, &mut lent)),
        0x23 => problems_line(out, ask_tempo(q, &mut nums, &mut lent)),
        _ => asking::unknown(out),
    })
}
