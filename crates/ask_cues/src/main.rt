// Answers questions about bar lines: ops 50 to 52 of docs/QUESTIONS.md, the cue call, the line
// filler and the range of lines. It reads questions from standard input and writes a line for each.
#![tactic(auto)]

use asking::{Answers, LIST, ROOM};
use asking_clock::TRANSPORT;
use std::io;
use transport::Handed;

// Whether there is so much room as the word at an index says, and a transport before it.
fn is_room(q: &[u32], at: usize, lent: &[u64]) -> bool {
    asking::u32_at(q, at) as usize <= lent.len() && asking_clock::is_transport(q)
}

// The numbers of the list at an index, in `space`.
fn numbers_at<'a>(q: &[u32], at: usize, space: &'a mut [u64]) -> &'a mut [u64] {
    let lines = asking::lend(space, asking::u32_at(q, at) as usize);
    asking::u64s(asking::longs(q, at), lines);
    lines
}

// So much room as the word at an index says, marked.
fn room_at<'a>(q: &[u32], at: usize, space: &'a mut [u64]) -> &'a mut [u64] {
    let lent = asking::lend(space, asking::u32_at(q, at) as usize);
    asking::mark_u64s(lent);
    lent
}

// The line ends with the lent words as they are after the call.
fn end_lent(out: &mut Answers, lent: &[u64]) -> io::Result<()> {
    asking::more_all(out, lent)?;
    asking::end_line(out)
}

// 50: Transport, u64 frames, room, U64s lines.
fn ask_cue(q: &[u32], space: &mut [u64], lent: &mut [u64], out: &mut Answers) -> io::Result<()> {
    if asking::past_longs(q, 20) != Some(q.len()) || !is_room(q, 19, lent) {
        return asking::unknown(out);
    }
    let lines = numbers_at(q, 20, space);
    let lent = room_at(q, 19, lent);
    let t = asking_clock::transport_of(q);
    let frames = asking::u64_at(q, TRANSPORT);
    let Handed { transport, answer } = cues::cue(t, lines, frames, lent);
    match answer {
        Ok(cued) => {
            asking::first(out, 0)?;
            asking_clock::more_transport(out, transport)?;
            asking::more(out, u64::from(cued.wrapped))?;
            asking::more(out, u64::from(cued.finished))?;
            asking::more(out, cued.count as u64)?;
        }
        Err(why) => {
            asking::refusal(out, why)?;
            asking_clock::more_transport(out, transport)?;
        }
    }
    end_lent(out, lent)
}

// Where the meter map, the denominators and the tempos of a question for the filler begin, where it is one.
fn maps_of(q: &[u32]) -> Option<(usize, usize, usize)> {
    let tempo = asking_clock::past_meter(q, 18)?;
    if asking_clock::past_tempo(q, tempo)? != q.len() {
        return None;
    }
    let dens = asking::past_longs(q, tempo)?;
    let tempos = asking::past_words(q, dens, LIST)?;
    Some((tempo, dens, tempos))
}

// 51: Transport, room, meter, Tempo. The numerators are copied into `space`.
fn ask_fill(q: &[u32], space: &mut [i64], lent: &mut [u64], out: &mut Answers) -> io::Result<()> {
    let Some((tempo, dens, tempos)) = maps_of(q) else {
        return asking::unknown(out);
    };
    if !is_room(q, TRANSPORT, lent) {
        return asking::unknown(out);
    }
    let nums = asking::lend(space, asking::u32_at(q, tempo) as usize);
    asking::i64s(asking::longs(q, tempo), nums);
    let lent = room_at(q, TRANSPORT, lent);
    let t = asking_clock::transport_of(q);
    let words = asking::words(q, 18);
    let dens = asking::words(q, dens);
    let tempos = asking::words(q, tempos);
    let answer = filler::fill_lines(t, words, nums, dens, tempos, lent);
    asking::answered(out, answer, |_, ()| Ok(()))?;
    end_lent(out, lent)
}

// 52: u64 start, u64 end, U64s lines. There is room for a longest list. The lines given back are
// the first lent words: how many, and each.
fn ask_range(q: &[u32], space: &mut [u64], lent: &mut [u64], out: &mut Answers) -> io::Result<()> {
    if asking::past_longs(q, 4) != Some(q.len()) {
        return asking::unknown(out);
    }
    let start = asking::u64_at(q, 0);
    let end = asking::u64_at(q, 2);
    let lines = numbers_at(q, 4, space);
    match between::copy_between(lines, start, end, lent) {
        Ok(n) => {
            let part = asking::lend(lent, n);
            asking::first(out, 0)?;
            asking::more(out, n as u64)?;
            end_lent(out, part)
        }
        Err(why) => asking::refused(out, why),
    }
}

fn main(rt: HostRuntime) -> io::Result<()> {
    let mut lines = [0u64; LIST];
    let mut nums = [0i64; LIST];
    let mut lent = [0u64; ROOM];
    asking::answer_all(rt.stdin(), rt.stdout(), |op, q, out| match op {
        0x50 => ask_cue(q, &mut lines, &mut lent, out),
        0x51 => ask_fill(q, &mut nums, &mut lent, out),
        0x52 => ask_range(q, &mut lines, &mut lent, out),
        _ => asking::unknown(out),
    })
}
