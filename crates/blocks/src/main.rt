// Whether a run may be cut into blocks, tried: 100,000 runs of a transport over bar lines, each
// cued whole and again cut into blocks. The blocks' cues joined, the transport after the last, and
// whether any wrapped or finished are to be the whole's. It prints what the runs came upon, and the
// number of runs in which anything differs; a call that is refused is a difference too.
#![tactic(auto)]

mod cases;
mod random;
mod same;
mod walk;

use cues::Cued;
use std::io;
use transport::{Handed, Transport};
use walk::Walk;

const RUNS: u64 = 100_000;

// The words of an output: room for every cue of the longest run, eight blocks of 799 frames, where
// each frame has eight lines.
pub const ROOM: usize = 102_272;

#[derive(Clone, Copy)]
struct Outcome {
    same: bool,
    wrapped: bool,
    finished: bool,
    blocks: u64,
    cues: u64,
}

#[derive(Clone, Copy)]
struct Tally {
    wraps: u64,
    finishes: u64,
    blocks: u64,
    cues: u64,
    differences: u64,
}

fn one_more(n: u64, yes: bool) -> u64 {
    n.saturating_add(u64::from(yes))
}

fn counted(tally: Tally, run: Outcome) -> Tally {
    Tally {
        wraps: one_more(tally.wraps, run.wrapped),
        finishes: one_more(tally.finishes, run.finished),
        blocks: tally.blocks.saturating_add(run.blocks),
        cues: tally.cues.saturating_add(run.cues),
        differences: one_more(tally.differences, !run.same),
    }
}

// Whether the blocks went as the whole did, which left this transport and said this.
fn matches(walk: Walk, end: Transport, whole: Cued) -> bool {
    walk.same
        && walk.words == (whole.count as u64).saturating_mul(2)
        && walk.wrapped == whole.wrapped
        && walk.finished == whole.finished
        && walk.transport == end
}

// Runs the blocks behind the whole, which gave this answer.
fn compared(
    whole_run: Handed<Cued>,
    t: Transport,
    lines: &[u64],
    sizes: &[u64],
    whole: &[u64; ROOM],
    part: &mut [u64; ROOM],
) -> Outcome {
    let blocks = sizes.len() as u64;
    match whole_run.answer {
        Ok(cued) => {
            let walk = walk::blocks(t, lines, sizes, whole, part);
            Outcome {
                same: matches(walk, whole_run.transport, cued),
                wrapped: cued.wrapped,
                finished: cued.finished,
                blocks,
                cues: cued.count as u64,
            }
        }
        Err(_) => Outcome {
            same: false,
            wrapped: false,
            finished: false,
            blocks,
            cues: 0,
        },
    }
}

// A run of its own: transport, lines and blocks.
fn run(r: &mut u64, whole: &mut [u64; ROOM], part: &mut [u64; ROOM]) -> Outcome {
    let base = cases::base(r);
    let t = cases::clock(r, base);
    let lines = cases::lines(r, t, base);
    let sizes = cases::sizes(r);
    let few = random::draw(r, 9) as usize;
    let blocks = random::draw(r, 8).saturating_add(1) as usize;
    let lines = same::between(&lines, 0, few);
    let sizes = same::between(&sizes, 0, blocks);
    let answer = cues::cue(t, lines, cases::frames(sizes), whole);
    compared(answer, t, lines, sizes, whole, part)
}

fn number(rt: &impl Print, n: u64, what: &str) -> io::Result<()> {
    print!(rt; "{n}{what}")
}

fn main(rt: HostRuntime) -> io::Result<()> {
    let mut whole = [0u64; ROOM];
    let mut part = [0u64; ROOM];
    let mut r = benching::START;
    let mut tally = Tally {
        wraps: 0,
        finishes: 0,
        blocks: 0,
        cues: 0,
        differences: 0,
    };
    for _ in 0..RUNS {
        tally = counted(tally, run(&mut r, &mut whole, &mut part));
    }
    number(&rt, RUNS, " runs, ")?;
    number(&rt, tally.blocks, " blocks, ")?;
    number(&rt, tally.cues, " cues, ")?;
    number(&rt, tally.wraps, " wrapped, ")?;
    number(&rt, tally.finishes, " finished, ")?;
    number(&rt, tally.differences, " differences\n")
}
