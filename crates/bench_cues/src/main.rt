// The cue call, as the bench times it. The original has no such call, so the other side is one in
// plain Rust that gives the same cues.
//
//     empty                   the number of a turn is put into the checksum: no call
//     far                     some 2^60 frames from frame 0 on. The size `none` is a loop of one frame
//                             without lines; the size 1000 one of 2^40 frames with so many lines, which
//                             gives more cues than there is room for, and so is refused by 8
//     cue-64, cue-512         a block of so many frames; the next turn goes on where this one stops
//     tested-64, tested-512   the same as a crate calls it that has tested its transport and its lines
//
// The size of the others is the number of lines. Every 93rd frame is one, from frame 0 on, and the
// transport plays in a loop that ends 93 frames behind the last, first from 1,000 frames before its
// end. A turn puts every cue into the checksum, which is part of what it costs.
#![tactic(auto)]

mod rows;

use rows::{APART, LINES, ROOM};
use std::env::Env;
use std::io;
use transport::{LoopRange, PlayState, Transport};

// The turns of a row that nobody asked by name: never a multiple of 64, after which the checksum
// has turned round.
const FEW: u64 = 5000;

// A transport that stands at a frame and plays in a loop from frame 0 up to another.
fn clock(position: u64, end: u64) -> Transport {
    Transport {
        sample_rate: 48000,
        bpm: 120.0f32,
        beats_per_bar: 4,
        length: u64::MAX,
        position,
        state: PlayState::Playing,
        looping: Some(LoopRange { start: 0, end }),
        pickup: None,
    }
}

// Frames that go by without end, over the first n lines in a loop.
fn far<R: Env + Print>(rt: &R, size: &str, lines: &[u64], end: u64) -> io::Result<()> {
    benching::row(rt, "far", size, FEW, |turns| {
        let mut out = [0u64; ROOM];
        rows::far(clock(0, end), lines, &mut out, turns)
    })
}

// The checksum of so many turns, from 1,000 frames before the loop's end.
fn sum_of<F: Fn(Transport, &[u64], u64, &mut [u64; ROOM], u64) -> u64>(
    sum: &F,
    lines: &[u64],
    frames: u64,
    turns: u64,
) -> u64
    requires { F.IsAlwaysCallable sum.now }
{
    let mut out = [0u64; ROOM];
    let end = (lines.len() as u64).saturating_mul(APART);
    let t = clock(end.saturating_sub(1000), end);
    sum(t, lines, frames, &mut out, turns)
}

// Runs a row over so many lines, if it is asked, and writes its line: `sum` cues so many blocks.
fn block<R: Env + Print, F: Fn(Transport, &[u64], u64, &mut [u64; ROOM], u64) -> u64>(
    rt: &R,
    call: &str,
    size: &str,
    lines: &[u64],
    frames: u64,
    few: u64,
    sum: &F,
) -> io::Result<()>
    requires { F.IsAlwaysCallable sum.now }
{
    benching::row(
        rt,
        call,
        size,
        few,
        |turns| sum_of(sum, lines, frames, turns),
    )
}

fn blocks<R: Env + Print, F: Fn(Transport, &[u64], u64, &mut [u64; ROOM], u64) -> u64>(
    rt: &R,
    call: &str,
    lines: &[u64; LINES],
    frames: u64,
    sum: F,
) -> io::Result<()>
    requires { F.IsAlwaysCallable sum }
{
    block(rt, call, "1000", &lines[..1000], frames, FEW, &sum)?;
    block(rt, call, "32768", &lines[..32768], frames, 50, &sum)?;
    block(rt, call, "65536", lines, frames, 50, &sum)
}

fn all<R: Env + Print>(rt: &R, lines: &[u64; LINES]) -> io::Result<()> {
    benching::row(rt, "empty", "any", FEW, |turns| {
        benching::checksum(turns, |i| i % 8192)
    })?;
    far(rt, "none", &lines[..0], 1)?;
    far(rt, "1000", &lines[..1000], 0x100_0000_0000)?;
    blocks(rt, "cue-64", lines, 64, rows::cue)?;
    blocks(rt, "cue-512", lines, 512, rows::cue)?;
    blocks(rt, "tested-64", lines, 64, rows::tested)?;
    blocks(rt, "tested-512", lines, 512, rows::tested)
}

fn main(rt: HostRuntime) -> io::Result<()> {
    let mut lines = [0u64; LINES];
    rows::fill(&mut lines);
    all(&rt, &lines)
}
