// Answers questions about a transport alone: ops 30 to 36, 39, 3b and 3c of docs/QUESTIONS.md. It
// reads questions from standard input and writes a line for each.
#![tactic(auto)]

use asking::Answers;
use asking_clock::TRANSPORT;
use numbers::Refusal;
use std::io;
use transport::{Handed, Moves, Transport};

// 30: u32 rate, f32 bpm, u32 beats per bar.
fn ask_constant(q: &[u32]) -> Option<Result<Transport, Refusal>> {
    if q.len() != 3 {
        return None;
    }
    let rate = asking::u32_at(q, 0);
    let bpm = asking::f32_at(q, 1);
    let beats = asking::u32_at(q, 2);
    Some(Ok(transport::constant(rate, bpm, beats)))
}

// 31: u32 rate, f32 bpm, u32 beats per bar, u64 length, Pickup.
fn ask_length(q: &[u32]) -> Option<Result<Transport, Refusal>> {
    if q.len() != 9 || !asking_clock::is_flag(q, 5) {
        return None;
    }
    let rate = asking::u32_at(q, 0);
    let bpm = asking::f32_at(q, 1);
    let beats = asking::u32_at(q, 2);
    let length = asking::u64_at(q, 3);
    let pickup = asking_clock::pickup_at(q, 5);
    Some(transport::with_length(rate, bpm, beats, length, pickup))
}

// The others: Transport, and so many words behind it.
fn ask<A, F: FnOnce(Transport) -> Handed<A>>(q: &[u32], behind: usize, call: F) -> Option<Handed<A>>
    requires { F.IsAlwaysCallable call }
{
    let is_asked = asking::past(q, TRANSPORT, behind)? == q.len() && asking_clock::is_transport(q);
    if !is_asked {
        return None;
    }
    Some(call(asking_clock::transport_of(q)))
}

fn more_moves(out: &mut Answers, moves: Moves) -> io::Result<()> {
    asking::more(out, u64::from(moves.wrapped))?;
    asking::more(out, u64::from(moves.finished))
}

fn no_more(_out: &mut Answers, _done: ()) -> io::Result<()> {
    Ok(())
}

fn answer(op: u32, q: &[u32], out: &mut Answers) -> io::Result<()> {
    // what is behind the transport: u64 frame or frames, or u64 start and u64 end
    let frame = asking::u64_at(q, TRANSPORT);
    let end = asking::u64_at(q, TRANSPORT + 2);
    match op {
        0x30 => asking::answer_line(out, ask_constant(q), asking_clock::more_transport),
        0x31 => asking::answer_line(out, ask_length(q), asking_clock::more_transport),
        0x32 => asking_clock::handed_line(out, ask(q, 0, Transport::play), no_more),
        0x33 => asking_clock::handed_line(out, ask(q, 0, Transport::pause), no_more),
        0x34 => asking_clock::handed_line(out, ask(q, 0, Transport::stop), no_more),
        0x35 => asking_clock::handed_line(out, ask(q, 0, Transport::clear_loop), no_more),
        0x36 => asking_clock::handed_line(out, ask(q, 2, |t| t.seek_frame(frame)), no_more),
        0x39 => asking_clock::handed_line(
            out,
            ask(q, 4, |t| t.set_loop_frames(frame, end)),
            no_more,
        ),
        0x3b => asking_clock::handed_line(out, ask(q, 2, |t| t.advance(frame)), more_moves),
        0x3c => asking_clock::handed_line(
            out,
            ask(q, 2, |t| inplace::in_place(t, frame)),
            more_moves,
        ),
        _ => asking::unknown(out),
    }
}

fn main(rt: HostRuntime) -> io::Result<()> {
    asking::answer_all(rt.stdin(), rt.stdout(), answer)
}
