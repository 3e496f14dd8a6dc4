// Answers questions about a transport with its maps: ops 37, 38, 3a and 40 to 46 of
// docs/QUESTIONS.md. It reads questions from standard input and writes a line for each.
#![tactic(auto)]

use asking::{Answers, LIST};
use asking_clock::TRANSPORT;
use std::io;
use transport::Transport;

// A tempo map as three lists.
#[derive(Clone, Copy)]
struct Tempo<'a> {
    nums: &'a [i64],
    dens: &'a [u32],
    tempos: &'a [u32],
}

// The tempo map at an index, which ends a question that begins with a transport. The numerators are
// copied into `space`.
fn tempo_at<'a>(q: &'a [u32], at: usize, space: &'a mut [i64]) -> Option<Tempo<'a>> {
    let dens = asking::past_longs(q, at)?;
    let tempos = asking::past_words(q, dens, LIST)?;
    if asking::past_words(q, tempos, LIST)? != q.len() || !asking_clock::is_transport(q) {
        return None;
    }
    let nums = asking::lend(space, asking::u32_at(q, at) as usize);
    asking::i64s(asking::longs(q, at), nums);
    Some(Tempo {
        nums,
        dens: asking::words(q, dens),
        tempos: asking::words(q, tempos),
    })
}

// Transport, so many words, Tempo.
fn ask_tempo<A, F: FnOnce(Transport, &[i64], &[u32], &[u32]) -> A>(
    q: &[u32],
    between: usize,
    space: &mut [i64],
    call: F,
) -> Option<A>
    requires { F.IsAlwaysCallable call }
{
    let tempo = tempo_at(q, asking::past(q, TRANSPORT, between)?, space)?;
    let t = asking_clock::transport_of(q);
    Some(call(t, tempo.nums, tempo.dens, tempo.tempos))
}

// Transport, so many words, meter, Tempo.
fn ask_maps<A, F: FnOnce(Transport, &[u32], &[i64], &[u32], &[u32]) -> A>(
    q: &[u32],
    between: usize,
    space: &mut [i64],
    call: F,
) -> Option<A>
    requires { F.IsAlwaysCallable call }
{
    let meter = asking::past(q, TRANSPORT, between)?;
    let tempo = tempo_at(q, asking_clock::past_meter(q, meter)?, space)?;
    let t = asking_clock::transport_of(q);
    let words = asking::words(q, meter);
    Some(call(t, words, tempo.nums, tempo.dens, tempo.tempos))
}

fn more_float(out: &mut Answers, x: f64) -> io::Result<()> {
    asking::more(out, rounding::f64_word(x))
}

fn no_more(_out: &mut Answers, _done: ()) -> io::Result<()> {
    Ok(())
}

fn answer(op: u32, q: &[u32], space: &mut [i64], out: &mut Answers) -> io::Result<()> {
    // what is behind the transport: f64 beat, u64 frame, or u32 bar and u32 end
    let beat = asking::f64_at(q, TRANSPORT);
    let frame = asking::u64_at(q, TRANSPORT);
    let bar = asking::u32_at(q, TRANSPORT);
    let end = asking::u32_at(q, TRANSPORT + 1);
    match op {
        0x37 => {
            let answer = ask_tempo(q, 2, space, |t, nums, dens, tempos| {
                timeline::seek_beat(t, beat, nums, dens, tempos)
            });
            asking_clock::handed_line(out, answer, no_more)
        }
        0x38 => {
            let answer = ask_maps(q, 1, space, |t, words, nums, dens, tempos| {
                timeline::seek_bar(t, bar, words, nums, dens, tempos)
            });
            asking_clock::handed_line(out, answer, no_more)
        }
        0x3a => {
            let answer = ask_maps(q, 2, space, |t, words, nums, dens, tempos| {
                timeline::set_loop_bars(t, bar, end, words, nums, dens, tempos)
            });
            asking_clock::handed_line(out, answer, no_more)
        }
        0x40 => {
            let answer = ask_tempo(q, 2, space, |t, nums, dens, tempos| {
                timeline::frame_at_beat(t, beat, nums, dens, tempos)
            });
            asking::answer_line(out, answer, asking::more)
        }
        0x41 => {
            let answer = ask_tempo(q, 2, space, |t, nums, dens, tempos| {
                timeline::beat_at_frame(t, frame, nums, dens, tempos)
            });
            asking::answer_line(out, answer, more_float)
        }
        0x42 => {
            let answer = ask_maps(q, 1, space, |t, words, nums, dens, tempos| {
                timeline::frame_at_bar(t, bar, words, nums, dens, tempos)
            });
            asking::answer_line(out, answer, asking::more)
        }
        0x43 => {
            let answer = ask_tempo(q, 0, space, timeline::next_beat);
            asking::answer_line(out, answer, asking::more)
        }
        0x44 => {
            let answer = ask_maps(q, 1, space, |t, words, nums, dens, tempos| {
                timeline::next_bar(t, bar, words, nums, dens, tempos)
            });
            asking::answer_line(out, answer, asking::more)
        }
        0x45 => {
            let answer = ask_tempo(q, 0, space, timeline::position_beats);
            asking::answer_line(out, answer, more_float)
        }
        0x46 => {
            let answer = ask_maps(q, 0, space, timeline::position_bars);
            asking::answer_line(out, answer, more_float)
        }
        _ => asking::unknown(out),
    }
}

fn main(rt: HostRuntime) -> io::Result<()> {
    let mut nums = [0i64; LIST];
    asking::answer_all(
        rt.stdin(),
        rt.stdout(),
        |op, q, out| answer(op, q, &mut nums, out),
    )
}
