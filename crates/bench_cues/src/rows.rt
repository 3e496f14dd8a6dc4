// What the rows run. A turn is the call alone, and each turn's answer goes into the checksum, with
// every cue, so that no call can be left out.
ghost use Rattle.std.specs.Prelude.{◌≡◌, ◌≤◌, true, length};
ghost use Rattle.transport.specs.Transports.{sound};

use benching::{checksum, mixed};
use cues::{Cued, play};
use lines::Lines;
use transport::{Handed, Transport};

pub const LINES: usize = 65536;

// The lent output: room for 2,048 cues, two words each.
pub const ROOM: usize = 4096;

// From one line to the next, in frames.
pub const APART: u64 = 93;

pub fn fill(lines: &mut [u64; LINES]) {
    let mut at: u64 = 0;
    for line in lines {
        *line = at;
        at = at.saturating_add(APART);
    }
}

// A run as one word: where it stands, how many cues it has, and in the highest bits whether it
// wrapped and whether it finished.
fn run_word(position: u64, run: Cued) -> u64 {
    let flags = u64::from(run.wrapped) << 63 | u64::from(run.finished) << 62;
    position.wrapping_add(run.count as u64) ^ flags
}

// A word, and behind it each of the first n cues; no more of them than there is room for.
fn cues_word(first: u64, out: &[u64; ROOM], n: usize) -> u64 {
    out.chunks_exact(2)
        .take(n)
        .fold(first, |sum, cue| match cue {
            [time, place] => mixed(sum, *time << 32 ^ *place),
            _ => sum,
        })
}

// A refusal counts as its number in document 01.
fn word(run: Handed<Cued>, out: &[u64; ROOM]) -> u64 {
    let t = run.transport;
    match run.answer {
        Ok(cued) => cues_word(run_word(t.position, cued), out, cued.count),
        Err(why) => u64::from(u32::from(why)),
    }
}

// Each turn asks for some frames fewer than 2^60.
pub fn far(t: Transport, lines: &[u64], out: &mut [u64; ROOM], turns: u64) -> u64 {
    checksum(turns, |i| {
        let frames = 0x1000_0000_0000_0000 - i % 8192;
        let run = cues::cue(t, lines, frames, out);
        word(run, out)
    })
}

// Each turn goes on where the one before has left the transport.
pub fn cue(t: Transport, lines: &[u64], frames: u64, out: &mut [u64; ROOM], turns: u64) -> u64 {
    let mut now = t;
    checksum(turns, |_| {
        let run = cues::cue(now, lines, frames, out);
        now = run.transport;
        word(run, out)
    })
}

// The same without the tests.
// Stays: `checksum` asks a closure that may always be called, and this call asks a sound transport,
// which the loop's invariant keeps.
fn cue_tested(t: Transport, lines: Lines, frames: u64, out: &mut [u64; ROOM], turns: u64) -> u64
    requires fit { sound t ≡ true }
    requires few { length lines.frames.now ≤ 65536 }
{
    let mut sum = 0;
    let mut now = t;
    for _ in 0..turns {
        let run = play::tested(now, lines, frames, out);
        now = run.transport;
        sum = mixed(sum, word(run, out));
    }
    sum
}

// The transport and the lines are tested once, outside the loop.
pub fn tested(t: Transport, lines: &[u64], frames: u64, out: &mut [u64; ROOM], turns: u64) -> u64 {
    if !t.is_sound() {
        return 12;
    }
    match Lines::tested(lines) {
        Ok(fine) => cue_tested(t, fine, frames, out, turns),
        Err(why) => u64::from(u32::from(why)),
    }
}
